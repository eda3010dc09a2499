//! Runs: one event, and a list of events with its log.

ghost use Rattle.std.specs.Prelude.{◌≡◌, ◌⊎◌, ◌+◌, ◌-◌, ◌^◌, ◌<◌, ◌↔◌, ◌∷◌, [], ℕ, List, IsTrue, true, false, take, length, IfOk, IfErr, OnOk, OnErr, IsErrOf};
ghost use Rattle.std.specs.List.{list_all};
ghost use Rattle.ftp_events.specs.declared.entry.Entry.{Entry};
ghost use Rattle.ftp_events.specs.Right.{next_entry};
ghost use Rattle.ftp_hub.specs.Headline.{IsFresh, Headline};
ghost use Rattle.ftp_events.specs.Counts.{Counted};
ghost use Rattle.ftp_events.specs.Covers.{is_covered};
ghost use Rattle.ftp_events.specs.Leads.{HasLinks, LeadsOne, LeavesAll, MovesPiece, RunsJob, beside, views};
ghost use Rattle.ftp_events.specs.Log.{past_of};
ghost use Rattle.ftp_handlers.specs.Rooms.{job_in};
ghost use Rattle.ftp_hub.specs.Runs.{CountersGoOn, GoesOn, LeadsFrom, LeadsOn, StaysLinked, has_link_of, is_linked, job_due, done_of, IsExhausted};
ghost use Rattle.ftp_hub.specs.Stands.{Stands, SameAnswers, Fits, job_for, options_of, count_of, counters_of};

use crate::hub::Hub;
use crate::prepare::PrepareError;
use ftp_base::{Link, LinkTable, Storage};
use ftp_events::{Answer, Entry, HubEvent, Log};
use ftp_handlers::{Need, Room};
use ftp_proxy::read_proxy_header;
use ftp_transfer::{Job, PieceResult, execute, execute_piece};
use std::alloc::Global;
use thiserror::Error;

/// Why a run stopped, and after how many events.
#[derive(Clone, Copy, Debug, PartialEq, Eq, Error)]
pub enum RunError {
    #[error("out of memory after {done} events")]
    OutOfMemory { done: u64 },
    /// The hub's count of events is at its end.
    #[error("the count of events is at its end after {done} events")]
    Exhausted { done: u64 },
}

impl RunError {
    /// After how many events the run stopped.
    pub fn done(self) -> u64
        ensures { result ≡ done_of self }
    {
        match self {
            RunError::OutOfMemory { done } | RunError::Exhausted { done } => done,
        }
    }

    // The same reason, after so many events.
    fn after(self, done: u64) -> RunError
        ensures done { done_of result ≡ done }
        ensures reason { IsExhausted result ↔ IsExhausted self }
    {
        match self {
            RunError::OutOfMemory { done: _ } => RunError::OutOfMemory { done },
            RunError::Exhausted { done: _ } => RunError::Exhausted { done },
        }
    }
}

/// Says whether each connection that comes with an event has its link.
///
/// # Proved
///
/// - Whether each connection that an event brings, from a client or from a proxy or made for a PORT, has its link; of
///   control connections without a proxy nothing is asked.
pub fn covers<L: Link>(links: &LinkTable<L>, events: &[HubEvent]) -> bool
    ensures { result ≡ list_all (λ e. is_covered (is_linked links.now) e.kind) events.now }
{
    events.iter().all(|event| is_covered(links, event))
}

// Says whether the connection that comes with the event is in the table.
fn is_covered<L: Link>(links: &LinkTable<L>, event: &HubEvent) -> bool
    ensures { result ≡ is_covered (is_linked links.now) event.now.kind }
{
    match event.kind.link_number() {
        Some(number) => links.has(number),
        None => true,
    }
}

/// Runs one event. Before it the header of its connection is read, where a proxy passes that on; and for the end of a
/// transfer, or a piece of one, its job is run, whole or by a piece, on the link that it started on. An error leaves all as
/// it was, with `done` 0.
///
/// Where the job's link is not in the table the job is not run, and its end is refused. No header is read of a connection
/// that is refused whatever its header says.
///
/// # Proved
///
/// - An error of `run_event` leaves every table as it answered, and storage and links as they were (`unchanged`,
///   `none_done`, `storage`, `links`).
/// - The end of a transfer that runs and is not to stop has its job run on the link that it started on: the answer is
///   the outcome, which the job accepts, as its result suits the command and it counts the bytes of earlier pieces
///   (`can_end` in `ftp_events/specs/EndRows.antt`), and what moved and why it ended is as under
///   [ftp_transfer](#ftp_transfer); no other link changes, no count of faults falls, and no limit of faults rises, if
///   the hub stood for the log; the link of the job, where there is one, is in the table (`leads`).
/// - A piece of such a transfer moves 1 to 8,192 bytes of its job on that link, and the answer counts them
///   (`MovesPiece` in `ftp_events/specs/Leads.antt`, `can_move`); or the transfer ends with it, and the answer is the
///   outcome, as above (`leads`).
/// - A connection behind a proxy has its header read from the link that the event names, unless it is refused without
///   it (`header_to_read`): the answer is the outcome of the line at the front of what that link had left, the line is
///   taken and nothing behind it, and nothing is sent, closed or stored; it is a fault only where the link's count
///   rose, and then some of the line may be taken; no other link changes, its count of faults does not fall, and its
///   limit does not rise (`ReadsHeader`). What was taken is said where the link tells its bytes, if the hub stood for
///   the log (`leads`).
/// - Every other event has no answer, and leaves storage and links as they were: so does a connection behind a proxy
///   that is refused for its mode, for the proxy's IPv6 address, or for its number (`LeavesAll`) (`leads`).
/// - Where the link of that job is not in the table, nothing is run, read or stored, and the answer is none, if the hub
///   stood for the log (`lacks`).
/// - A link that is in the table stays in it; where those of slots and jobs are there, they are there afterwards
///   (`linked`; also `run_events`: `linked`, `has_links`).
/// - Each event is counted once (`count`; also `run_events`: `count`; `Hub::step`: `count`).
pub fn run_event<S: Storage, L: Link>(
    hub: &mut Hub,
    storage: &mut S,
    links: &mut LinkTable<L>,
    event: HubEvent,
) -> Result<Entry, RunError>
    requires covered { IsTrue (is_covered (is_linked links.old) event.kind) }
    ensures event { IfOk result (λ e. e.event ≡ event) }
    ensures due { IfOk result (λ e.
        (log : List Entry) → Stands hub.old log →
        e ≡ next_entry (options_of hub.old) log event e.answer) }
    ensures stands { IfOk result (λ e.
        (log : List Entry) → Stands hub.old log → Stands hub.new (e ∷ log)) }
    ensures leads { IfOk result (λ e.
        (log : List Entry) → Stands hub.old log →
        has_link_of links.old (job_due (options_of hub.old) (past_of log) event.kind) ≡ true →
        LeadsOne (views S.files S.rule S.faults S.fault_limit S.calls L.left L.sending L.faults L.fault_limit L.calls)
        (options_of hub.old) (past_of log) e
        (beside storage.old links.old) (beside storage.new links.new)) }
    ensures lacks { IfOk result (λ e.
        (log : List Entry) → Stands hub.old log →
        has_link_of links.old (job_due (options_of hub.old) (past_of log) event.kind) ≡ false →
        LeavesAll e.answer (beside storage.old links.old) (beside storage.new links.new)) }
    ensures linked { (n : ℕ) → is_linked links.old n ≡ true → is_linked links.new n ≡ true }
    ensures options { options_of hub.new ≡ options_of hub.old }
    ensures count { OnOk result (count_of hub.new ≡ count_of hub.old + 1) }
    ensures counters { IfOk result (λ e.
        (log : List Entry) → Stands hub.old log →
        Counted (options_of hub.old) (past_of log) (counters_of hub.old) →
        Counted (options_of hub.old) (past_of (e ∷ log)) (counters_of hub.new)) }
    ensures unchanged { OnErr result (SameAnswers hub.old hub.new) }
    ensures none_done { IfErr result (λ e. done_of e ≡ 0) }
    ensures exhausted { IsErrOf result (RunError.Exhausted 0) ↔ (count_of hub.old ≡ 2 ^ 64 - 1) }
    ensures storage { OnErr result (storage.new ≡ storage.old) }
    ensures links { OnErr result (links.new ≡ links.old) }
{
    match hub.prepare(&event) {
        Ok(room) => Ok(run_prepared(hub, room, storage, links, event)),
        Err(PrepareError::Exhausted) => {
            drop(event);
            Err(RunError::Exhausted { done: 0 })
        }
        Err(PrepareError::OutOfMemory) => {
            drop(event);
            Err(RunError::OutOfMemory { done: 0 })
        }
    }
}

// Does what the room needs outside, and then runs the event.
fn run_prepared<S: Storage, L: Link>(
    hub: &mut Hub,
    room: Box<Room>,
    storage: &mut S,
    links: &mut LinkTable<L>,
    event: HubEvent,
) -> Entry
    requires fits { Fits room.value hub.old event }
    requires job { job_in room.value ≡ job_for hub.old event.kind }
    requires covered { IsTrue (is_covered (is_linked links.old) event.kind) }
    ensures event { result.event ≡ event }
    ensures due { (log : List Entry) → Stands hub.old log →
        result ≡ next_entry (options_of hub.old) log event result.answer }
    ensures stands { (log : List Entry) → Stands hub.old log → Stands hub.new (result ∷ log) }
    ensures leads { (log : List Entry) → Stands hub.old log →
        has_link_of links.old (job_due (options_of hub.old) (past_of log) event.kind) ≡ true →
        LeadsOne (views S.files S.rule S.faults S.fault_limit S.calls L.left L.sending L.faults L.fault_limit L.calls)
        (options_of hub.old) (past_of log) result
        (beside storage.old links.old) (beside storage.new links.new) }
    ensures lacks { (log : List Entry) → Stands hub.old log →
        has_link_of links.old (job_due (options_of hub.old) (past_of log) event.kind) ≡ false →
        LeavesAll result.answer (beside storage.old links.old) (beside storage.new links.new) }
    ensures linked { (n : ℕ) → is_linked links.old n ≡ true → is_linked links.new n ≡ true }
    ensures options { options_of hub.new ≡ options_of hub.old }
    ensures count { count_of hub.new ≡ count_of hub.old + 1 }
    ensures counters { (log : List Entry) → Stands hub.old log →
        Counted (options_of hub.old) (past_of log) (counters_of hub.old) →
        Counted (options_of hub.old) (past_of (result ∷ log)) (counters_of hub.new) }
{
    let mut room = room;
    let answer = ask(hub, &mut room, storage, links, &event);
    hub.step(room, event, answer)
}

// Reads the header that the event is to be decided by, or runs the job that it is the end or a piece of.
fn ask<S: Storage, L: Link>(
    hub: &Hub,
    room: &mut Room,
    storage: &mut S,
    links: &mut LinkTable<L>,
    event: &HubEvent,
) -> Answer
    requires fits { Fits room.old hub.now event.now }
    requires job { job_in room.old ≡ job_for hub.now event.now.kind }
    requires covered { IsTrue (is_covered (is_linked links.old) event.now.kind) }
    ensures fits { Fits room.new hub.now event.now }
    ensures leads { (log : List Entry) (e : Entry) → Stands hub.now log → e.event ≡ event.now → e.answer ≡ result →
        has_link_of links.old (job_due (options_of hub.now) (past_of log) event.now.kind) ≡ true →
        LeadsOne (views S.files S.rule S.faults S.fault_limit S.calls L.left L.sending L.faults L.fault_limit L.calls)
        (options_of hub.now) (past_of log) e
        (beside storage.old links.old) (beside storage.new links.new) }
    ensures lacks { (log : List Entry) → Stands hub.now log →
        has_link_of links.old (job_due (options_of hub.now) (past_of log) event.now.kind) ≡ false →
        LeavesAll result (beside storage.old links.old) (beside storage.new links.new) }
    ensures linked { (n : ℕ) → is_linked links.old n ≡ true → is_linked links.new n ≡ true }
{
    match room.need() {
        Need::Nothing => Answer::None,
        Need::Header => {
            let Some(number) = event.kind.link_number() else {
                unreachable!()
            };
            let Some(link) = links.get_mut(number) else {
                unreachable!()
            };
            Answer::Header(read_proxy_header(link))
        }
        Need::Run(_) => {
            let Some(job) = room.take_job() else {
                unreachable!()
            };
            run_job(hub.alloc, job, storage, links)
        }
        Need::Piece(_) => {
            let Some(job) = room.take_job() else {
                unreachable!()
            };
            run_piece(hub.alloc, job, storage, links)
        }
    }
}

// Runs a job on its link, where that is in the table.
fn run_job<S: Storage, L: Link>(
    alloc: Global,
    job: Job,
    storage: &mut S,
    links: &mut LinkTable<L>,
) -> Answer
    ensures ran { is_linked links.old job.number ≡ true →
        RunsJob (views S.files S.rule S.faults S.fault_limit S.calls L.left L.sending L.faults L.fault_limit L.calls)
        job result (beside storage.old links.old) (beside storage.new links.new) }
    ensures lacks { is_linked links.old job.number ≡ false →
        LeavesAll result (beside storage.old links.old) (beside storage.new links.new) }
    ensures linked { (n : ℕ) → is_linked links.old n ≡ true → is_linked links.new n ≡ true }
{
    match links.get_mut(job.number) {
        None => {
            drop(job);
            Answer::None
        }
        Some(link) => Answer::Done(execute(alloc, job, storage, link)),
    }
}

// Runs a piece of a job on its link, where that is in the table.
fn run_piece<S: Storage, L: Link>(
    alloc: Global,
    job: Job,
    storage: &mut S,
    links: &mut LinkTable<L>,
) -> Answer
    ensures ran { is_linked links.old job.number ≡ true →
        MovesPiece (views S.files S.rule S.faults S.fault_limit S.calls L.left L.sending L.faults L.fault_limit L.calls)
        job result (beside storage.old links.old) (beside storage.new links.new)
        ⊎ RunsJob (views S.files S.rule S.faults S.fault_limit S.calls L.left L.sending L.faults L.fault_limit L.calls)
        job result (beside storage.old links.old) (beside storage.new links.new) }
    ensures lacks { is_linked links.old job.number ≡ false →
        LeavesAll result (beside storage.old links.old) (beside storage.new links.new) }
    ensures linked { (n : ℕ) → is_linked links.old n ≡ true → is_linked links.new n ≡ true }
{
    let Some(link) = links.get_mut(job.number) else {
        drop(job);
        return Answer::None;
    };
    let mut job = job;
    match execute_piece(alloc, &mut job, storage, link) {
        PieceResult::More { bytes } => Answer::Moved { bytes },
        PieceResult::Ended(outcome) => Answer::Done(outcome),
    }
}

/// Runs the events in order and adds an entry of each to the log.
///
/// After an error all is as after the first `done` events. The table should have the link of each slot and each job
/// of the hub; a fresh hub has none.
///
/// # Proved
///
/// - `run_events` is exhausted exactly where an event is still to be taken at the end of the count (`exhausted`,
///   `stopped`, `count`).
/// - After an error of `run_events` the hub has counted the first `done` events, and no more (`count_stopped`).
/// - The log goes on by one entry for each event, in order; after an error by those of the first `done` events
///   (`events`, `first`).
/// - What `leads` says, of all entries by which the log goes on, one after the other, if the hub stood for the log;
///   each link that a live session has in its slot, or a running job transfers over, is in the table (`HasLinks`)
///   (`leads`).
pub fn run_events<S: Storage, L: Link>(
    hub: &mut Hub,
    storage: &mut S,
    links: &mut LinkTable<L>,
    events: &[HubEvent],
    log: &mut Log,
) -> Result<(), RunError>
    requires covered { IsTrue (list_all (λ e. is_covered (is_linked links.old) e.kind) events.now) }
    ensures headline { IsFresh hub.old → log.old.entries ≡ [] →
        OnOk result (Headline (options_of hub.old) events.now log.new.entries) }
    ensures stands { Stands hub.old log.old.entries → Stands hub.new log.new.entries }
    ensures events { OnOk result (GoesOn log.old.entries log.new.entries events.now) }
    ensures first { IfErr result (λ e.
        GoesOn log.old.entries log.new.entries (take (done_of e) events.now)) }
    ensures stopped { IfErr result (λ e. done_of e < length events.now) }
    ensures exhausted { IfErr result (λ e.
        IsExhausted e ↔ (count_of hub.old + done_of e ≡ 2 ^ 64 - 1)) }

    // A hub that has counted nothing is stopped by want of memory alone.
    ensures complete { count_of hub.old ≡ 0 → IfErr result (λ e. ¬ (IsExhausted e)) }
    ensures count { OnOk result (count_of hub.new ≡ count_of hub.old + length events.now) }
    ensures count_stopped { IfErr result (λ e. count_of hub.new ≡ count_of hub.old + done_of e) }
    ensures options { options_of hub.new ≡ options_of hub.old }
    ensures counters { Stands hub.old log.old.entries →
        Counted (options_of hub.old) (past_of log.old.entries) (counters_of hub.old) →
        Counted (options_of hub.old) (past_of log.new.entries) (counters_of hub.new) }
    ensures leads { Stands hub.old log.old.entries →
        HasLinks (options_of hub.old) (past_of log.old.entries) links.old →
        LeadsOn (views S.files S.rule S.faults S.fault_limit S.calls L.left L.sending L.faults L.fault_limit L.calls)
        (options_of hub.old) log.old.entries log.new.entries
        (beside storage.old links.old) (beside storage.new links.new) }
    ensures linked { (n : ℕ) → is_linked links.old n ≡ true → is_linked links.new n ≡ true }
    ensures has_links { Stands hub.old log.old.entries →
        HasLinks (options_of hub.old) (past_of log.old.entries) links.old →
        HasLinks (options_of hub.old) (past_of log.new.entries) links.new }
{
    let mut done = 0;
    for event in events {
        match run_next(hub, storage, links, event, log) {
            Ok(()) => done += 1,
            Err(error) => return Err(error.after(done)),
        }
    }
    Ok(())
}

// Runs an equal event and adds its entry to the log. An error leaves all as it was.
fn run_next<S: Storage, L: Link>(
    hub: &mut Hub,
    storage: &mut S,
    links: &mut LinkTable<L>,
    event: &HubEvent,
    log: &mut Log,
) -> Result<(), RunError>
    requires covered { IsTrue (is_covered (is_linked links.old) event.now.kind) }
    ensures stands { Stands hub.old log.old.entries → Stands hub.new log.new.entries }
    ensures event { OnOk result (GoesOn log.old.entries log.new.entries (event.now ∷ [])) }
    ensures unchanged { OnErr result (SameAnswers hub.old hub.new) }
    ensures log { OnErr result (log.new.entries ≡ log.old.entries) }
    ensures storage { OnErr result (storage.new ≡ storage.old) }
    ensures links { OnErr result (links.new ≡ links.old) }
    ensures exhausted { IfErr result (λ e. IsExhausted e ↔ (count_of hub.old ≡ 2 ^ 64 - 1)) }
    ensures count { OnOk result (count_of hub.new ≡ count_of hub.old + 1) }
    ensures options { options_of hub.new ≡ options_of hub.old }
    ensures counters { CountersGoOn hub.old hub.new log.old.entries log.new.entries }
    ensures leads { LeadsFrom (views S.files S.rule S.faults S.fault_limit S.calls L.left L.sending L.faults L.fault_limit L.calls)
        hub.old log.old.entries log.new.entries (beside storage.old links.old) (beside storage.new links.new) }
    ensures linked { (n : ℕ) → is_linked links.old n ≡ true → is_linked links.new n ≡ true }
    ensures has_links { StaysLinked hub.old log.old.entries log.new.entries links.old links.new }
{
    if hub.events() == u64::MAX {
        return Err(RunError::Exhausted { done: 0 });
    }
    if log.make_room().is_err() {
        return Err(RunError::OutOfMemory { done: 0 });
    }
    let Ok(event) = event.copy(hub.alloc) else {
        return Err(RunError::OutOfMemory { done: 0 });
    };
    let entry = run_event(hub, storage, links, event)?;
    keep(log, entry);
    Ok(())
}

/// Keeps an entry in a log that has room for it, and gives back the room that its actions do not need.
pub fn keep(log: &mut Log, entry: Entry)
    requires { 0 < log.old.room }
    ensures { log.new.entries ≡ entry ∷ log.old.entries }
{
    let mut entry = entry;
    entry.actions.shrink_to_fit();
    log.push_reserved(entry);
}
