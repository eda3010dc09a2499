//! The journal of a gateway, written as it grows.

use crate::records::Records;
use crate::refusal::{Refusal, tell};
use ftp_shared::{EntriesLost, JournalFeed};
use std::sync::Wait;

const LOST: &str = "entries of the journal are lost: nothing more is logged or counted";

/// Writes what each entry of a feed tells, until the server has ended. Where that fails it says so, once until it goes on.
pub fn record<R: Wait + Print + AllocGlobal + Drop>(
    rt: &R,
    feed: &JournalFeed,
    records: &Records<R>,
) {
    let mut has_failed = false;
    for _ in rt.forever() {
        match take_next(rt, feed, records) {
            Ok(Some(Ok(()))) => has_failed = false,
            Ok(Some(Err(refusal))) => {
                if !has_failed {
                    let _ = tell(rt, &refusal);
                }
                has_failed = true;
            }
            Ok(None) => return,
            Err(EntriesLost) => {
                let _ = println!(rt; "{LOST}");
                return;
            }
        }
    }
}

// Writes what the next entry of a feed tells, unless the server has ended.
fn take_next<R: Wait + Drop>(
    rt: &R,
    feed: &JournalFeed,
    records: &Records<R>,
) -> Result<Option<Result<(), Refusal>>, EntriesLost> {
    match feed.next(rt)? {
        Some(entry) => {
            let taken = records.take(&entry);
            drop(entry);
            Ok(Some(taken))
        }
        None => Ok(None),
    }
}
