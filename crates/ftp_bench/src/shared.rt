//! Threads over one hub, each with a share and a lane of its own.

ghost use Rattle.std.specs.Prelude.{◌≡◌, ◌+◌, ◌-◌, ◌<◌, ◌≤◌, false, length, sum_by, IfOk, OnOk};
ghost use Rattle.std.specs.Vec.{vec_len};
ghost use Rattle.ftp_shared.specs.Outbox.{has_ticket};
ghost use Rattle.ftp_bench.specs.Appending.{events_in, threads_of};

use crate::asking::{connect, user};
use crate::command::Crew;
use crate::error::BenchError;
use crate::lane::Lane;
use ftp_events::{Answer, HubEvent, Log};
use ftp_options::Options;
use ftp_shared::{JournalHub, Serving, SettleError, SharedHub, StepShare};
use std::alloc::Global;
use std::marker::Brand;
use std::sync::Wait;
use std::sync::ledger::Blank;
use std::thread;
use std::thread::Threads;

/// Submits the events of a lane whose sessions connect first, and says how many entries the journal has.
pub fn share_all<R: Threads + Wait + Sync>(
    rt: &R,
    alloc: Global,
    options: Options,
    crew: Crew,
    lane: Lane,
) -> Result<u64, BenchError>
    ensures taken { IfOk result (λ n. n ≡ events_in lane) }
{
    let blank = Blank::new(crew.threads() + 1);
    share_branded::<Brand, R>(rt, alloc, options, blank, crew, lane)
}

/// The same, on the server that a blank is for.
fn share_branded<L: Serving + Send + Sync, R: Threads + Wait + Sync>(
    rt: &R,
    alloc: Global,
    options: Options,
    blank: Blank,
    crew: Crew,
    lane: Lane,
) -> Result<u64, BenchError>
    requires name { blank.name ≡ L.name }
    requires parts { blank.parts ≡ L.parts }
    requires one_more { blank.parts ≡ threads_of crew + 1 }
    requires options { options ≡ L.options }
    ensures taken { IfOk result (λ n. n ≡ events_in lane) }
{
    let (steps, parts) = blank.open::<L>();
    let hub = SharedHub::new(alloc, options, steps, parts, crew.threads() + 1);
    let shares = work(rt, alloc, &hub, crew, lane)?;
    settle(hub, shares, lane)
}

/// Settles the hub with all its shares, which count the events of a lane, and says how many entries its journal has.
fn settle<L: Serving>(
    hub: SharedHub<L>,
    shares: Vec<StepShare<L>>,
    lane: Lane,
) -> Result<u64, BenchError>
    requires all { vec_len shares + 1 ≡ L.parts }
    requires counted { sum_by (λ s. s.count) shares.items ≡ events_in lane }
    ensures taken { IfOk result (λ n. n ≡ events_in lane) }
{
    match hub.settle(shares, &[]) {
        Ok(log) => taken_of(&log, lane),
        // All shares that were given out are here.
        Err(SettleError::Missing { .. }) => unreachable!(),
        Err(_) => Err(BenchError::OutOfMemory),
    }
}

/// How many entries a journal has that counts the events of a lane and no more.
fn taken_of(log: &Log, lane: Lane) -> Result<u64, BenchError>
    requires no_fewer { events_in lane ≤ length log.now.entries }
    ensures taken { IfOk result (λ n. n ≡ events_in lane) }
{
    let taken = log.len();
    if taken > lane.events() {
        return Err(BenchError::Others);
    }
    Ok(taken)
}

/// The shares of so many threads that submit the events of a lane.
///
/// # Proved
///
/// - The shares of all threads count the entries that they appended (`threads`, `counted`).
fn work<L: Serving + Send + Sync, R: Threads + Wait + Sync>(
    rt: &R,
    alloc: Global,
    hub: &SharedHub<L>,
    crew: Crew,
    lane: Lane,
) -> Result<Vec<StepShare<L>>, BenchError>
    ensures threads { IfOk result (λ shares. vec_len shares ≡ threads_of crew) }
    ensures counted { IfOk result (λ shares. sum_by (λ s. s.count) shares.items ≡ events_in lane) }
{
    match crew {
        Crew::One => {
            let share = connect_all(rt, hub, lane)?;
            let share = ask_all(rt, alloc, hub, share, lane)?;
            let mut shares = Vec::with_capacity(alloc, 1)?;
            shares.push_reserved(share);
            Ok(shares)
        }
        Crew::Two => {
            let pair = (connect_all(rt, hub, lane)?, fresh(rt, hub)?);
            let (first, second) = ask_two(rt, alloc, hub, pair, lane)?;
            let mut shares = Vec::with_capacity(alloc, 2)?;
            shares.push_reserved(first);
            shares.push_reserved(second);
            Ok(shares)
        }
        Crew::Four => {
            let front = (connect_all(rt, hub, lane)?, fresh(rt, hub)?);
            let back = (fresh(rt, hub)?, fresh(rt, hub)?);
            let (front, back) = ask_four(rt, alloc, hub, front, back, lane)?;
            let mut shares = Vec::with_capacity(alloc, 4)?;
            shares.push_reserved(front.0);
            shares.push_reserved(front.1);
            shares.push_reserved(back.0);
            shares.push_reserved(back.1);
            Ok(shares)
        }
    }
}

/// A share with no step counted.
fn fresh<L: Serving, R: Wait>(rt: &R, hub: &SharedHub<L>) -> Result<StepShare<L>, BenchError>
    ensures { IfOk result (λ share. share.count ≡ 0) }
{
    match hub.share(rt) {
        Some(share) => Ok(share),
        None => Err(BenchError::NoShare),
    }
}

/// Submits an event whose turn nobody looks at.
fn submit<L: Serving, R: Wait>(
    rt: &R,
    hub: &SharedHub<L>,
    share: &mut StepShare<L>,
    event: HubEvent,
) -> Result<(), BenchError>
    requires unticketed { has_ticket event.kind ≡ false }
    ensures counted { OnOk result (share.new.count ≡ share.old.count + 1) }
{
    hub.submit_for(rt, share, event, Answer::None)?;
    Ok(())
}

/// Lets the sessions of a lane connect, and gives the share that counted them.
fn connect_all<L: Serving, R: Wait>(
    rt: &R,
    hub: &SharedHub<L>,
    lane: Lane,
) -> Result<StepShare<L>, BenchError>
    ensures { IfOk result (λ share. share.count ≡ lane.end - lane.first) }
{
    let mut share = fresh(rt, hub)?;
    for session in lane.first..lane.end {
        submit(rt, hub, &mut share, connect(session as u64))?;
    }
    Ok(share)
}

/// Submits the events of a lane, and gives the share back that counted them.
fn ask_all<L: Serving, R: Wait>(
    rt: &R,
    alloc: Global,
    hub: &SharedHub<L>,
    share: StepShare<L>,
    lane: Lane,
) -> Result<StepShare<L>, BenchError>
    ensures { IfOk result (λ s. s.count ≡ share.count + lane.rounds) }
{
    let mut share = share;
    for turn in 0..lane.rounds {
        submit(rt, hub, &mut share, user(alloc, lane.session(turn))?)?;
    }
    Ok(share)
}

/// Two threads submit the events of a lane, half of it each.
fn ask_two<L: Serving + Send + Sync, R: Threads + Wait + Sync>(
    rt: &R,
    alloc: Global,
    hub: &SharedHub<L>,
    shares: (StepShare<L>, StepShare<L>),
    lane: Lane,
) -> Result<(StepShare<L>, StepShare<L>), BenchError>
    ensures { IfOk result (λ s. s.0.count + s.1.count ≡ shares.0.count + shares.1.count + lane.rounds) }
{
    let (front, back) = lane.split();
    let (one, two) = shares;
    let (one, two) = thread::join(
        rt,
        move || -> Result<StepShare<L>, BenchError>
            ensures { IfOk result (λ s. s.count ≡ one.count + front.rounds) }
        { ask_all(rt, alloc, hub, one, front) },
        move || -> Result<StepShare<L>, BenchError>
            ensures { IfOk result (λ s. s.count ≡ two.count + back.rounds) }
        { ask_all(rt, alloc, hub, two, back) },
    );
    Ok((one?, two?))
}

/// Four threads submit the events of a lane, a quarter of it each.
fn ask_four<L: Serving + Send + Sync, R: Threads + Wait + Sync>(
    rt: &R,
    alloc: Global,
    hub: &SharedHub<L>,
    one: (StepShare<L>, StepShare<L>),
    two: (StepShare<L>, StepShare<L>),
    lane: Lane,
) -> Result<((StepShare<L>, StepShare<L>), (StepShare<L>, StepShare<L>)), BenchError>
    ensures { IfOk result (λ s. s.0.0.count + s.0.1.count + (s.1.0.count + s.1.1.count) ≡ one.0.count + one.1.count + (two.0.count + two.1.count) + lane.rounds) }
{
    let (front, back) = lane.split();
    let (one, two) = thread::join(
        rt,
        move || -> Result<(StepShare<L>, StepShare<L>), BenchError>
            ensures { IfOk result (λ s. s.0.count + s.1.count ≡ one.0.count + one.1.count + front.rounds) }
        { ask_two(rt, alloc, hub, one, front) },
        move || -> Result<(StepShare<L>, StepShare<L>), BenchError>
            ensures { IfOk result (λ s. s.0.count + s.1.count ≡ two.0.count + two.1.count + back.rounds) }
        { ask_two(rt, alloc, hub, two, back) },
    );
    Ok((one?, two?))
}
