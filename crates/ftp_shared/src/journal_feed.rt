//! The entries of a journal on their way to a writer.

use crate::entry_queue::{EntryQueue, Taken};
use ftp_events::Entry;
use std::alloc::Global;
use std::sync::{Condvar, Mutex, Wait};

/// The writer did not keep up, or memory ran out: the entries behind those that were given are lost.
#[derive(Clone, Copy, Debug, PartialEq, Eq)]
pub struct EntriesLost;

/// The entries of a journal for one writer, in order, from the first.
///
/// It has a lock of its own, which is taken only where that of the hub is free.
#[derive(Drop)]
pub struct JournalFeed {
    alloc: Global,
    queue: Mutex<EntryQueue>,
    come: Condvar,
}

impl JournalFeed {
    /// At most so many entries wait for the writer.
    pub fn new(alloc: Global, most: u64) -> JournalFeed {
        JournalFeed {
            alloc,
            queue: Mutex::new(EntryQueue::new(alloc, most)),
            come: Condvar::new(),
        }
    }

    /// Copies the entry at a place for the writer.
    pub fn put<R: Wait>(&self, rt: &R, place: u64, entry: &Entry) {
        let copied = entry.copy(self.alloc);
        {
            let mut queue = self.queue.lock(rt);
            match copied {
                Ok(entry) => {
                    let _ = queue.put(place, entry);
                }
                Err(_) => queue.lose(),
            }
        }
        self.come.notify_all();
    }

    /// The journal has so many entries, unless another number was told before.
    pub fn end_at<R: Wait>(&self, rt: &R, count: u64) {
        self.queue.lock(rt).end_at(count);
        self.come.notify_all();
    }

    /// The journal has no entry, unless a number was told before. It is called once a server's `listen` has returned, which
    /// may not have come to its first entry.
    pub fn close<R: Wait>(&self, rt: &R) {
        self.end_at(rt, 0);
    }

    /// Waits for the next entry, and gives it. None once the server has ended and all its entries were given.
    pub fn next<R: Wait>(&self, rt: &R) -> Result<Option<Entry>, EntriesLost> {
        let mut queue = self.queue.lock(rt);
        for _ in rt.forever() {
            match queue.take() {
                Taken::Given(entry) => return Ok(Some(entry)),
                Taken::Ended => return Ok(None),
                Taken::Lost => return Err(EntriesLost),
                Taken::NotYet => queue = self.come.wait(rt, queue),
            }
        }
        unreachable!()
    }
}
