//! What a hub has beside its lock.

use crate::JournalFeed;
use crate::receipt::{Receipt, Submitted};
use std::alloc::Global;
use std::sync::atomic::{AtomicU64, Ordering};
use std::sync::{Arc, Wait};

/// The numbers that were drawn for a hub, and who is told its entries.
#[derive(Drop)]
pub(crate) struct Beside {
    drawn: AtomicU64,
    feed: Option<Arc<JournalFeed, Global>>,
}

impl Beside {
    pub(crate) fn new() -> Beside {
        Beside {
            drawn: AtomicU64::new(0),
            feed: None,
        }
    }

    pub(crate) fn feed_to(&mut self, feed: Arc<JournalFeed, Global>) {
        self.feed = Some(feed);
    }

    // Tells the feed an entry.
    pub(crate) fn tell<R: Wait>(&self, rt: &R, receipt: &Receipt) {
        if let Some(feed) = &self.feed {
            feed.put(rt, receipt.place, &receipt.entry);
        }
    }

    // Tells the feed the entry of what was submitted.
    pub(crate) fn tell_of<R: Wait, E>(&self, rt: &R, submitted: &Result<Submitted, E>) {
        if let Ok(submitted) = submitted {
            self.tell(rt, &submitted.receipt);
        }
    }

    // Tells the feed how many entries there are.
    pub(crate) fn end_at<R: Wait>(&self, rt: &R, count: u64) {
        if let Some(feed) = &self.feed {
            feed.end_at(rt, count);
        }
    }

    // The number after the last that was drawn, from 1; 0 comes after the last number of all.
    pub(crate) fn draw(&self) -> u64 {
        self.drawn.fetch_add(1, Ordering::SeqCst).wrapping_add(1)
    }
}
