//! Which of the jobs that run are to stop, as their workers see it.
//!
//! A mark is a hint that saves a worker the lock: what becomes of a job is what its entries say.

use ftp_events::{Decision, Entry};
use std::alloc::{AllocError, Global};
use std::collections::HashMap;
use std::sync::Arc;
use std::sync::atomic::{AtomicBool, Ordering};

/// The mark of one job, which it shares with its worker.
#[derive(Drop)]
pub(crate) struct Mark {
    flag: Arc<AtomicBool, Global>,
}

impl Mark {
    fn new(alloc: Global) -> Result<Mark, AllocError> {
        Ok(Mark {
            flag: Arc::new(alloc, AtomicBool::new(false))?,
        })
    }

    fn set(&self) {
        self.flag.store(true, Ordering::SeqCst);
    }

    pub(crate) fn is_set(&self) -> bool {
        self.flag.load(Ordering::SeqCst)
    }

    fn try_clone(&self) -> Result<Mark, AllocError> {
        Ok(Mark {
            flag: Arc::try_clone(&self.flag)?,
        })
    }
}

/// The marks of the jobs that run, by session.
#[derive(Drop)]
pub(crate) struct Marks {
    alloc: Global,
    running: HashMap<u64, Mark>,
    // The mark of the job that starts next.
    spare: Option<Mark>,
}

impl Marks {
    pub(crate) fn new(alloc: Global) -> Marks {
        Marks {
            alloc,
            running: HashMap::new(alloc),
            spare: None,
        }
    }

    /// Takes the memory for the job that the next entry can start.
    pub(crate) fn reserve(&mut self) -> Result<(), AllocError> {
        self.running.reserve(1)?;
        if self.spare.is_none() {
            self.spare = Some(Mark::new(self.alloc)?);
        }
        Ok(())
    }

    /// Marks the job that an entry has stopped, or forgets the one that it ends.
    pub(crate) fn follow(&mut self, entry: &Entry) {
        let Some(session) = entry.event.kind.named_session() else {
            return;
        };
        match entry.decision {
            Decision::Aborting => {
                if let Some(mark) = self.running.get(&session) {
                    mark.set();
                }
            }
            Decision::Finished | Decision::Cut => drop(self.running.remove(&session)),
            _ => {}
        }
    }

    /// The mark of a job of this session, which starts.
    pub(crate) fn start(&mut self, session: u64) -> Option<Mark> {
        let mark = self.spare.take()?;
        let kept = mark.try_clone().ok()?;
        let _ = self.running.insert(session, kept);
        Some(mark)
    }
}
