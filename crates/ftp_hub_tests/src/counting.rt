//! A desk that counts what is submitted to another.

use ftp_base::{Bytes, ErrorKind};
use ftp_events::{Answer, EventKind, HubEvent};
use ftp_options::Options;
use ftp_shared::{AppendError, Desk, Told};
use std::alloc::AllocError;

/// How many events of each kind were submitted.
#[derive(Clone, Copy, Debug, PartialEq, Eq)]
pub struct Counts {
    pub connects: u32,
    pub idle_ticks: u32,
    pub slot_ticks: u32,
    pub internals: u32,
    pub quits: u32,
    pub others: u32,
}

impl Counts {
    /// Counts an event of this kind. At its last value a count stands still.
    fn count(&mut self, kind: &EventKind) {
        let count = match kind {
            EventKind::Connect { .. } => &mut self.connects,
            EventKind::IdleTick { .. } => &mut self.idle_ticks,
            EventKind::SlotTick { .. } => &mut self.slot_ticks,
            EventKind::Internal { .. } => &mut self.internals,
            EventKind::Quit { .. } => &mut self.quits,
            _ => &mut self.others,
        };
        *count = count.saturating_add(1);
    }
}

/// Passes each call on to another desk, and counts the kinds of the events.
#[derive(Drop)]
pub struct CountingDesk<D: Desk + Drop> {
    pub desk: D,
    pub counts: Counts,
}

impl<D: Desk + Drop> CountingDesk<D> {
    pub fn new(desk: D) -> CountingDesk<D> {
        CountingDesk {
            desk,
            counts: Counts {
                connects: 0,
                idle_ticks: 0,
                slot_ticks: 0,
                internals: 0,
                quits: 0,
                others: 0,
            },
        }
    }
}

impl<D: Desk + Drop> Desk for CountingDesk<D> {
    ghost view = { λ c. D.view c.desk };

    ghost vouches = { D.vouches };

    ghost draws_next = { D.draws_next };

    ghost exhausts = { D.exhausts };

    fn options(&self) -> &Options {
        self.desk.options()
    }

    fn submit(&mut self, event: HubEvent, answer: Answer) -> Result<Told, AppendError> {
        self.counts.count(&event.kind);
        self.desk.submit(event, answer)
    }

    fn draw(&mut self) -> u64 {
        self.desk.draw()
    }

    fn directory(&mut self, user: &Bytes, path: &Bytes) -> Result<Option<ErrorKind>, AllocError> {
        self.desk.directory(user, path)
    }
}
