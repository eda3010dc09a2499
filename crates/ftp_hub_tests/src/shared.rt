//! The locked hub, used by one thread and by two.

use crate::cutting::{handed_late, tail_over};
use crate::hubs::{Course, settled_after};
use crate::pieces::settled_by;
use crate::same::same;
use crate::settled::{Told, difference};
use crate::shared_values::sent_at_once;
use crate::threads::gives_the_journal;
use crate::values::{decisions_of, pooled};
use ftp_events::{Decision, Log};
use ftp_shared::{Notifier, SettleError};
use ftp_transfer::Ticket;
use std::alloc::Global;
use std::process::Abort;
use std::sync::Wait;
use std::thread;
use std::thread::Threads;

/// The journal of a hub after this.
fn journal_after<R: Threads + Wait + Abort + Sync>(rt: &R, alloc: Global, course: Course) -> Log {
    settled_after(rt, alloc, course)
        .ok()
        .expect(rt, "a journal")
}

#[test]
fn two_threads_make_one_journal(rt: HostRuntime) {
    let course = Course::Connect {
        each: 1000,
        feed: None,
    };
    let log = journal_after(&rt, rt.alloc(), course);
    same(&rt, &log.len(), &2000);
    // Each is a session of its own, so the numbers drawn are 2,000 different ones.
    let opened = log
        .as_slice()
        .iter()
        .all(|entry| entry.decision == Decision::Opened);
    same(&rt, &opened, &true);
}

#[test]
fn a_feed_gives_what_two_threads_append(rt: HostRuntime) {
    // With an entry too many the writer is told of a loss.
    for (most, is_whole) in [(200, true), (199, false)] {
        same(
            &rt,
            &gives_the_journal(&rt, rt.alloc(), 100, most),
            &is_whole,
        );
    }
}

/// How long a tail may be, how many entries there are, and how long the tail was at most and is in the end. 10,000 entries with at
/// most 100, and with at most 1, fill the tail to its end; 7 with at most 5 begin it anew once.
const TAILS: [(u64, u64, u64, u64); 3] = [(100, 10_000, 100, 100), (1, 20, 1, 1), (5, 7, 5, 2)];

#[test]
fn a_tail_is_no_longer_than_was_asked_for(rt: HostRuntime) {
    for (every, events, longest, last) in TAILS {
        let options = pooled(&rt, rt.alloc());
        let seen = tail_over(&rt, rt.alloc(), options, every, events);
        same(
            &rt,
            &(seen.longest, seen.last, seen.is_counted),
            &(longest, last, true),
        );
    }
}

#[test]
fn replies_outlive_the_tail(rt: HostRuntime) {
    let alloc = rt.alloc();
    let earlier = handed_late(&rt, alloc, pooled(&rt, alloc));
    let sent = sent_at_once(alloc, &earlier).expect(&rt, "a text");
    // A name is answered with 331 (RFC 959, section 5.4).
    same(
        &rt,
        &sent.as_slice(),
        &b"331 Password Required\r\n".as_slice(),
    );
}

#[test]
fn a_hub_is_settled_with_all_shares_and_receipts(rt: HostRuntime) {
    let log = journal_after(&rt, rt.alloc(), Course::Tell(Told::Both));
    let found = decisions_of(rt.alloc(), &log).expect(&rt, "decisions");
    same(
        &rt,
        &found.as_slice(),
        &[Decision::Opened, Decision::NeedPass].as_slice(),
    );
}

#[test]
fn steps_are_missed(rt: HostRuntime) {
    let settled = settled_after(&rt, rt.alloc(), Course::Tell(Told::First));
    let is_missed = matches!(
        settled,
        Err(SettleError::Missing {
            counted: 1,
            length: 2
        })
    );
    same(&rt, &is_missed, &true);
}

#[test]
fn a_receipt_at_another_place_differs(rt: HostRuntime) {
    let settled = settled_after(&rt, rt.alloc(), Course::Tell(Told::Misplaced));
    let found = difference(&settled).expect(&rt, "what differs");
    same(
        &rt,
        &found,
        &Some((0, Decision::Opened, Decision::NeedPass)),
    );
}

#[test]
fn a_job_is_out_while_its_session_goes_on_and_across_a_stop(rt: HostRuntime) {
    let ticket = Ticket { session: 1, nr: 1 };
    for stops_early in [false, true] {
        let log = journal_after(&rt, rt.alloc(), Course::TakeAFile { stops_early });
        same(&rt, &settled_by(&log, ticket), &Some(Decision::Finished));
    }
}

#[test]
fn a_job_is_stopped_while_two_move(rt: HostRuntime) {
    let log = journal_after(&rt, rt.alloc(), Course::MoveTwo);
    for (session, decision) in [(1, Decision::Cut), (2, Decision::Finished)] {
        let ticket = Ticket { session, nr: 1 };
        same(&rt, &settled_by(&log, ticket), &Some(decision));
    }
}

#[test]
fn a_listener_is_woken_and_waited_for(rt: HostRuntime) {
    let theirs = rt.clone().expect(&rt, "a handle");
    let notifier = Notifier::new(rt.alloc(), theirs).expect(&rt, "a notifier");
    let mut listener = notifier.subscribe().expect(&rt, "a listener");
    let bell = &notifier;
    thread::join(
        &rt,
        move || {
            listener.listen();
            drop(listener);
        },
        || bell.notify(),
    );
    notifier.linger();
}
