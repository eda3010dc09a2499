//! A hub whose journal is a checkpoint and a tail.

ghost use Rattle.std.specs.Prelude.{◌≡◌, ◌≤◌, false};
ghost use Rattle.ftp_shared.specs.Outbox.{has_ticket};

use crate::shared_values::connect;
use ftp_base::Bytes;
use ftp_events::{Answer, EventKind, HubEvent};
use ftp_options::Options;
use ftp_shared::{CutHub, JournalHub, Replies, Serving, Submitted, Turn};
use std::alloc::Global;
use std::marker::Brand;
use std::process::Abort;
use std::sync::Wait;

/// What was seen of the tail while events were submitted.
#[derive(Clone, Copy, Debug, PartialEq, Eq)]
pub struct TailSeen {
    pub longest: u64,
    pub last: u64,
    /// The receipts had the places 0, 1, 2 and so on.
    pub is_counted: bool,
}

// Submits an event of moment 0.
fn submit<L: Serving, R: Wait + Abort>(rt: &R, hub: &CutHub<L>, kind: EventKind) -> Submitted
    requires { has_ticket kind ≡ false }
{
    hub.submit(rt, &mut (), HubEvent { at: 0, kind }, Answer::None)
        .expect(rt, "an entry")
}

fn connect_over<L: Serving, R: Wait + Abort>(
    rt: &R,
    alloc: Global,
    options: Options,
    every: u64,
    events: u64,
) -> TailSeen
    requires options { options ≡ L.options }
    requires some { 1 ≤ every }
{
    let hub = CutHub::<L>::new(alloc, options, every);
    let mut seen = TailSeen {
        longest: 0,
        last: 0,
        is_counted: true,
    };
    for place in 0..events {
        let submitted = submit(rt, &hub, connect(hub.draw()));
        seen.is_counted = seen.is_counted && submitted.receipt.place == place;
        drop(submitted);
        seen.last = hub.tail(rt);
        seen.longest = seen.longest.max(seen.last);
    }
    drop(hub);
    seen
}

/// What is seen of a tail of so many entries at most while so many sessions connect.
pub fn tail_over<R: Wait + Abort>(
    rt: &R,
    alloc: Global,
    options: Options,
    every: u64,
    events: u64,
) -> TailSeen
    requires some { 1 ≤ every }
{
    connect_over::<Brand, R>(rt, alloc, options, every, events)
}

// An event of moment 0, of whose entry nothing is asked.
fn happen<L: Serving, R: Wait + Abort>(rt: &R, hub: &CutHub<L>, kind: EventKind)
    requires { has_ticket kind ≡ false }
{
    drop(submit(rt, hub, kind));
}

// What a session is handed at its next event.
fn handed_next<L: Serving, R: Wait + Abort>(rt: &R, hub: &CutHub<L>, session: u64) -> Replies {
    let event = HubEvent {
        at: 0,
        kind: EventKind::IdleTick { session },
    };
    let Turn { earlier, submitted } = hub
        .submit_for(rt, &mut (), event, Answer::None)
        .expect(rt, "a turn");
    drop(submitted);
    earlier
}

fn hand_late<L: Serving, R: Wait + Abort>(rt: &R, alloc: Global, options: Options) -> Replies
    requires options { options ≡ L.options }
{
    let hub = CutHub::<L>::new(alloc, options, 2);
    let session = 1000;
    happen(rt, &hub, connect(session));
    let name = Bytes::from_slice(alloc, b"ann").expect(rt, "a name");
    happen(rt, &hub, EventKind::User { session, name });
    for _ in 0..5 {
        happen(rt, &hub, connect(hub.draw()));
    }
    let handed = handed_next(rt, &hub, session);
    drop(hub);
    handed
}

/// What a session is handed that gave its name before the last checkpoints, of which there is one after each second entry.
pub fn handed_late<R: Wait + Abort>(rt: &R, alloc: Global, options: Options) -> Replies {
    hand_late::<Brand, R>(rt, alloc, options)
}
