//! What a gateway has done, as its listeners are told.

ghost use Rattle.std.specs.Prelude.{None};

use ftp_base::{DataEvent, DataListener, EventMeta, PresenceEvent, PresenceListener};
use std::alloc::{AllocError, Global};
use std::sync::Arc;
use std::sync::atomic::{AtomicU64, Ordering};

/// How many logins and transfers there were.
#[derive(Drop)]
pub struct Counts {
    logins: AtomicU64,
    logouts: AtomicU64,
    downloads: AtomicU64,
    uploads: AtomicU64,
}

/// Counts what is told.
#[derive(Drop)]
pub struct Activity {
    counts: Arc<Counts, Global>,
}

impl Activity {
    /// Nothing was done yet.
    pub fn new(alloc: Global) -> Result<Activity, AllocError> {
        let counts = Counts {
            logins: AtomicU64::new(0),
            logouts: AtomicU64::new(0),
            downloads: AtomicU64::new(0),
            uploads: AtomicU64::new(0),
        };
        Ok(Activity {
            counts: Arc::new(alloc, counts)?,
        })
    }

    /// The same counts, for another who is told.
    pub fn share(&self) -> Result<Activity, AllocError> {
        Ok(Activity {
            counts: Arc::try_clone(&self.counts)?,
        })
    }

    /// How many sessions are logged in.
    pub fn sessions(&self) -> u64 {
        let logouts = self.counts.logouts.load(Ordering::SeqCst);
        self.counts
            .logins
            .load(Ordering::SeqCst)
            .saturating_sub(logouts)
    }

    /// How many downloads have ended well.
    pub fn downloads(&self) -> u64 {
        self.counts.downloads.load(Ordering::SeqCst)
    }

    /// How many uploads have ended well.
    pub fn uploads(&self) -> u64 {
        self.counts.uploads.load(Ordering::SeqCst)
    }
}

impl DataListener for Activity {
    ghost heard = { λ _. None };

    fn receive_data_event(&mut self, e: &DataEvent, _m: &EventMeta) {
        match e {
            DataEvent::Got { .. } => {
                self.counts.downloads.fetch_add(1, Ordering::SeqCst);
            }
            DataEvent::Put { .. } => {
                self.counts.uploads.fetch_add(1, Ordering::SeqCst);
            }
            _ => {}
        }
    }
}

impl PresenceListener for Activity {
    ghost heard = { λ _. None };

    fn receive_presence_event(&mut self, e: &PresenceEvent, m: &EventMeta) {
        match e {
            PresenceEvent::LoggedIn => {
                self.counts.logins.fetch_add(1, Ordering::SeqCst);
            }
            // What is told first of a session is its login: one whose end is told first had none.
            PresenceEvent::LoggedOut => {
                if m.sequence_number > 1 {
                    self.counts.logouts.fetch_add(1, Ordering::SeqCst);
                }
            }
        }
    }
}
