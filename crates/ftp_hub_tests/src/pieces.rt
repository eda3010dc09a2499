//! Two jobs move piece by piece, each by a thread of its own, while a third thread stops one of them.

use crate::hubs::share;
use crate::jobs::{finish, happen, start};
use crate::same::{holds, same};
use ftp_events::{Action, Decision, EventKind, Log};
use ftp_shared::{JobShare, JournalHub, Serving, SettleError, SharedHub, StepShare, Submitted};
use ftp_transfer::Ticket;
use std::alloc::Global;
use std::process::Abort;
use std::sync::Wait;
use std::thread;
use std::thread::Threads;

/// How many pieces of one byte the job moves that comes to its end.
const PIECES: u64 = 100;

/// Tells pieces of one byte, at most so many, and gives the job back where it is not over.
fn move_on<L: Serving, R: Wait + Abort>(
    rt: &R,
    hub: &SharedHub<L>,
    share: &mut StepShare<L>,
    job: JobShare,
    most: u64,
) -> Option<JobShare> {
    let mut job = job;
    for _ in 0..most {
        holds(rt, job.can_move(1));
        let Submitted { receipt, job: back } = hub
            .piece(rt, share, job, 0, 1)
            .ok()
            .expect(rt, "a piece");
        drop(receipt);
        match back {
            Some(back) => job = back,
            None => return None,
        }
        thread::yield_now();
    }
    Some(job)
}

/// Moves a job until it is stopped.
fn move_until_stopped<L: Serving, R: Wait + Abort>(
    rt: &R,
    hub: &SharedHub<L>,
    share: StepShare<L>,
    job: JobShare,
) -> StepShare<L> {
    let mut share = share;
    let rest = move_on(rt, hub, &mut share, job, u64::MAX);
    same(rt, &rest.is_none(), &true);
    share
}

/// Moves a job to its end.
fn move_to_end<L: Serving, R: Wait + Abort>(
    rt: &R,
    hub: &SharedHub<L>,
    job: JobShare,
) -> StepShare<L> {
    let mut share = share(rt, hub);
    let job = move_on(rt, hub, &mut share, job, PIECES).expect(rt, "a job");
    drop(finish(rt, hub, &mut share, job, PIECES));
    share
}

/// Stops the job of session 1.
fn abort<L: Serving, R: Wait + Abort>(rt: &R, hub: &SharedHub<L>) -> StepShare<L> {
    let mut share = share(rt, hub);
    happen(rt, hub, &mut share, EventKind::Abor { session: 1 });
    share
}

/// The journal of two jobs, of which the first is stopped.
pub fn move_two<L: Serving + Send + Sync, R: Threads + Wait + Abort + Sync>(
    rt: &R,
    alloc: Global,
    hub: SharedHub<L>,
) -> Result<Log, SettleError> {
    let shared = &hub;
    let mut first = share(rt, shared);
    let stopped = start(rt, alloc, shared, &mut first, 1);
    let ended = start(rt, alloc, shared, &mut first, 2);
    let ((first, second), third) = thread::join(
        rt,
        move || {
            thread::join(
                rt,
                move || move_until_stopped(rt, shared, first, stopped),
                move || move_to_end(rt, shared, ended),
            )
        },
        move || abort(rt, shared),
    );
    let shares = vec![in alloc; first, second, third].expect(rt, "shares");
    hub.settle(shares, &[])
}

/// What was decided by the entry that completes or cancels a ticket.
pub fn settled_by(log: &Log, ticket: Ticket) -> Option<Decision> {
    for entry in log.as_slice() {
        for action in entry.actions.as_slice() {
            match action {
                Action::Completed { ticket: of, .. } | Action::Cancelled { ticket: of } => {
                    if *of == ticket {
                        return Some(entry.decision);
                    }
                }
                _ => {}
            }
        }
    }
    None
}
