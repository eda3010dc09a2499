//! Runs with ample memory, and at the end of the count of events.

use crate::same::{holds, same};
use crate::values::{ANN, decisions_of, events, log_of, pooled};
use ftp_base::{LinkTable, MemoryLink, MemoryStorage};
use ftp_events::{Decision, HubEvent, Log};
use ftp_hub::{Hub, RunError, covers, run_events};
use ftp_transfer::Ticket;
use std::alloc::Global;
use std::process::Abort;

const TICKET: Ticket = Ticket { session: 1, nr: 1 };

/// Behind a login the data connection of another client, and that of the own client, who takes a file.
const EVENTS: &[&[&[u8]]] = &[
    ANN,
    &[
        b"0 pasv 1 0 - -",
        b"0 data 11 10.0.0.2:1 50000",
        b"0 data 12 10.0.0.1:1 50000",
        b"0 retr 1 a",
        b"0 end 1.1",
        b"0 closed 1",
    ],
];

const DECISIONS: [Decision; 10] = [
    Decision::Opened,
    Decision::NeedPass,
    Decision::PassOut,
    Decision::LoggedIn,
    Decision::Granted { port: 50000 },
    Decision::Turned,
    Decision::Attached { session: 1 },
    Decision::Queued { ticket: TICKET },
    Decision::Finished,
    Decision::Closed,
];

#[test]
fn a_client_takes_a_file_and_another_is_turned_away(rt: HostRuntime) {
    let log = log_of(&rt, rt.alloc(), pooled(&rt, rt.alloc()), EVENTS);
    let found = decisions_of(rt.alloc(), &log).expect(&rt, "decisions");
    same(&rt, &found.as_slice(), &DECISIONS.as_slice());
}

#[test]
fn a_connection_without_a_link_is_not_covered(rt: HostRuntime) {
    let events = events(&rt, rt.alloc(), EVENTS);
    let links: LinkTable<MemoryLink> = LinkTable::new(rt.alloc());
    same(&rt, &covers(&links, &events), &false);
}

/// How events run on a hub at the end of its count, where nothing stands outside, and how many entries there are then.
fn run_at_the_end(
    rt: &impl Abort,
    alloc: Global,
    events: &[HubEvent],
) -> (Result<(), RunError>, u64) {
    let mut hub = Hub::with_count(alloc, pooled(rt, alloc), u64::MAX);
    let mut storage = MemoryStorage::new(alloc, 0, Vec::new(alloc));
    let mut links: LinkTable<MemoryLink> = LinkTable::new(alloc);
    let mut log = Log::new(alloc);
    holds(rt, covers(&links, events));
    let run = run_events(&mut hub, &mut storage, &mut links, events, &mut log);
    drop((hub, storage, links));
    let entries = log.len();
    drop(log);
    (run, entries)
}

#[test]
fn no_event_runs_at_the_end_of_the_count(rt: HostRuntime) {
    let pass = events(&rt, rt.alloc(), &[&[b"0 pass 1"]]);
    let refused = run_at_the_end(&rt, rt.alloc(), pass.as_slice());
    same(&rt, &refused, &(Err(RunError::Exhausted { done: 0 }), 0));
    let nothing = run_at_the_end(&rt, rt.alloc(), &[]);
    same(&rt, &nothing, &(Ok(()), 0));
}
