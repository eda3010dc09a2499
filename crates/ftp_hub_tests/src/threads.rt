//! Two threads connect sessions to one hub, and its feed gives the journal.

use crate::hubs::{Course, settled_after, share};
use crate::shared_values::connect;
use ftp_events::{Answer, HubEvent, Log};
use ftp_shared::{JournalFeed, JournalHub, Serving, SettleError, SharedHub, StepShare};
use std::alloc::Global;
use std::process::Abort;
use std::sync::{Arc, Wait};
use std::thread;
use std::thread::Threads;

/// Connects so many sessions, whose numbers are drawn, and gives the share that counted them.
fn connect_all<L: Serving, R: Wait + Abort>(
    rt: &R,
    hub: &SharedHub<L>,
    sessions: u32,
) -> StepShare<L> {
    let mut share = share(rt, hub);
    for _ in 0..sessions {
        let event = HubEvent {
            at: 0,
            kind: connect(hub.draw()),
        };
        let submitted = hub
            .submit(rt, &mut share, event, Answer::None)
            .expect(rt, "an entry");
        drop(submitted);
    }
    share
}

/// The journal of two threads that connect so many sessions each, which a feed is told.
pub fn connect_two<L: Serving + Send + Sync, R: Threads + Wait + Abort + Sync>(
    rt: &R,
    alloc: Global,
    hub: SharedHub<L>,
    each: u32,
    feed: Option<Arc<JournalFeed, Global>>,
) -> Result<Log, SettleError> {
    let mut hub = hub;
    if let Some(feed) = feed {
        hub.feed_to(feed);
    }
    let shared = &hub;
    let (first, second) = thread::join(
        rt,
        move || connect_all(rt, shared, each),
        move || connect_all(rt, shared, each),
    );
    hub.end_feed(rt);
    let shares = vec![in alloc; first, second].expect(rt, "shares");
    hub.settle(shares, &[])
}

/// Says whether a feed where so many entries may wait gives the journal of two threads that connect so many sessions each, entry by
/// entry, and then ends.
pub fn gives_the_journal<R: Threads + Wait + Abort + Sync>(
    rt: &R,
    alloc: Global,
    each: u32,
    most: u64,
) -> bool {
    let feed = Arc::new(alloc, JournalFeed::new(alloc, most))
        .ok()
        .expect(rt, "a feed");
    let theirs = Arc::try_clone(&feed).expect(rt, "the feed once more");
    let course = Course::Connect {
        each,
        feed: Some(theirs),
    };
    let log = settled_after(rt, alloc, course)
        .ok()
        .expect(rt, "a journal");
    for due in log.as_slice() {
        match feed.next(rt) {
            Ok(Some(entry)) if entry.is_same(due) => {}
            _ => return false,
        }
    }
    matches!(feed.next(rt), Ok(None))
}
