//! The counts over the entries of a journal.

ghost use Rattle.std.specs.Prelude.{◌≡◌, ◌++◌, ◌∷◌, [], List, true, OnOk, OnErr};
ghost use Rattle.ftp_options.specs.declared.options.Options.{Options};
ghost use Rattle.ftp_events.specs.declared.entry.Entry.{Entry};
ghost use Rattle.ftp_events.specs.Log.{past_of};
ghost use Rattle.ftp_events.specs.Right.{IsRight, IsActed};
ghost use Rattle.ftp_events.specs.Tallies.{saturated};
ghost use Rattle.ftp_audit.specs.Metrics.{metrics_of};
ghost use Rattle.ftp_audit.specs.Tally.{HasCounted};
ghost use Rattle.ftp_audit.specs.Written.{lockout_count};

use crate::metrics::put_metrics;
use crate::server_log::more_locked;
use ftp_events::Entry;
use ftp_hub::{Hub, PrepareError};
use ftp_options::Options;
use std::alloc::{AllocError, Global};

/// What a server counts, over the entries that were taken: a hub of its own counts it, to which their events happen again with their
/// answers.
#[derive(Drop)]
pub struct Tally {
    alloc: Global,
    hub: Hub,
    locked: u64,
}

impl Tally {
    /// No entry was taken. The options are those of the server.
    ///
    /// # Proved
    ///
    /// - After the entries of a right and acted log were taken in order, the counts are those that the log tells (`counted`; also
    ///   `Tally::take`: `counted`).
    pub fn new(alloc: Global, options: Options) -> Tally
        ensures counted { HasCounted options result [] }
    {
        Tally {
            alloc,
            hub: Hub::new(alloc, options),
            locked: 0,
        }
    }

    /// Takes the next entry of a log.
    ///
    /// # Proved
    ///
    /// - After an error the counts are as before (`unchanged`).
    pub fn take(&mut self, entry: &Entry) -> Result<(), PrepareError>
        ensures counted { OnOk result ((o : Options) (log : List Entry) → HasCounted o self.old log →
            IsRight o (entry.now ∷ log) → IsActed o (entry.now ∷ log) → HasCounted o self.new (entry.now ∷ log)) }
        ensures unchanged { OnErr result ((o : Options) (log : List Entry) → HasCounted o self.old log → HasCounted o self.new log) }
    {
        let event = entry.event.copy(self.alloc)?;
        let room = match self.hub.prepare(&event) {
            Ok(room) => room,
            Err(error) => {
                drop(event);
                return Err(error);
            }
        };
        drop(self.hub.step(room, event, entry.answer));
        self.locked = more_locked(self.locked, entry.decision);
        Ok(())
    }

    /// Writes the counts in the text format of Prometheus.
    ///
    /// # Proved
    ///
    /// - The numbers are those that the entries of a log tell, if these were taken and metrics are kept.
    pub fn put(&self, out: &mut Vec<u8>) -> Result<(), AllocError>
        ensures { OnOk result ((o : Options) (log : List Entry) → HasCounted o self.now log → o.collect_metrics ≡ true →
            out.new.items ≡ out.old.items ++ metrics_of o (past_of log) (saturated (lockout_count log))) }
    {
        put_metrics(out, self.alloc, self.hub.counters(), self.locked)
    }
}
