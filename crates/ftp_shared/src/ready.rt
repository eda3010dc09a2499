//! The parts of an append: what is taken before the step, and the step.

ghost use Rattle.std.specs.Prelude.{◌≡◌, ◌+◌, ◌-◌, ◌^◌, ◌≤◌, ◌<◌, ◌↔◌, ℕ, [], ◌∷◌, length, nat_lt, true, false, None, List, unwrap_or, IfOk, OnOk, OnErr, IsErrOf, IsSomeAnd, if◌then◌else◌};
ghost use Rattle.std.specs.Option.{option_map_or};
ghost use Rattle.ftp_events.specs.declared.entry.Entry.{Entry};
ghost use Rattle.ftp_events.specs.Log.{past_of};
ghost use Rattle.ftp_events.specs.Right.{next_entry};
ghost use Rattle.ftp_events.specs.Words.{is_number};
ghost use Rattle.ftp_hub.specs.Stands.{Stands, count_of, options_of};
ghost use Rattle.ftp_hub.specs.Twin.{FitsTwin, started_job};
ghost use Rattle.ftp_shared.specs.Outbox.{newest, outbox_in, own_session, sorted};

use crate::AppendError;
use crate::marks::Marks;
use crate::outbox::Outbox;
use crate::receipt::{JobShare, Receipt, Replies, Submitted, Turn};
use ftp_events::{Action, Answer, Entry, EventKind, HubEvent, Log};
use ftp_hub::{Hub, Twin, TwinRoom, keep};
use ftp_transfer::Job;
use std::alloc::{AllocError, Global};
use std::mem;

/// Takes all memory of the next entry: in the outboxes, in the journal, and for the step.
pub(crate) fn make_ready(
    hub: &mut Hub,
    journal: &mut Log,
    outbox: &mut Outbox,
    marks: &mut Marks,
    event: &HubEvent,
    answer: &Answer,
) -> Result<TwinRoom, AllocError>
    ensures fits { IfOk result (λ room. FitsTwin room hub.new event.now answer.now) }
    ensures room { OnOk result (0 < journal.new.room) }
    ensures sorted { OnOk result (length (newest journal.old.entries) ≤ outbox.new.next) }
    ensures journal { journal.new.entries ≡ journal.old.entries }
    ensures outbox { (s : ℕ) → outbox_in outbox.new (newest journal.old.entries) s ≡ outbox_in outbox.old (newest journal.old.entries) s }
    ensures stands { (log : List Entry) → Stands hub.old log → Stands hub.new log }
    ensures options { options_of hub.new ≡ options_of hub.old }
    ensures count { count_of hub.new ≡ count_of hub.old }
{
    marks.reserve()?;
    outbox.catch_up(newest(journal))?;
    journal.make_room()?;
    match hub.prepare_twin(event, answer) {
        Ok(room) => Ok(room),
        Err(_) => Err(AllocError),
    }
}

/// Takes all memory of the next entry as `make_ready` does, and tells the end of the count from want of memory. A tail that
/// is full gives way to a new checkpoint then.
pub(crate) fn ready_cut(
    alloc: Global,
    hub: &mut Hub,
    tail: &mut Log,
    every: u64,
    outbox: &mut Outbox,
    marks: &mut Marks,
    event: &HubEvent,
    answer: &Answer,
) -> Result<TwinRoom, AppendError>
    ensures fits { IfOk result (λ room. FitsTwin room hub.new event.now answer.now) }
    ensures room { OnOk result (0 < tail.new.room) }
    ensures sorted { OnOk result (length (newest tail.old.entries) ≤ outbox.new.next) }
    ensures cut { OnOk result (tail.new.entries ≡ (if nat_lt (length tail.old.entries) every then tail.old.entries else [])) }
    ensures same_tail { OnErr result (tail.new.entries ≡ tail.old.entries) }
    ensures outbox { (s : ℕ) → outbox_in outbox.new (newest tail.old.entries) s ≡ outbox_in outbox.old (newest tail.old.entries) s }
    ensures stands { (log : List Entry) → Stands hub.old log → Stands hub.new log }
    ensures options { options_of hub.new ≡ options_of hub.old }
    ensures exhausted { IsErrOf result AppendError.Exhausted ↔ (count_of hub.old ≡ 2 ^ 64 - 1) }
    ensures count { count_of hub.new ≡ count_of hub.old }
{
    if hub.events() == u64::MAX {
        return Err(AppendError::Exhausted);
    }
    marks.reserve()?;
    outbox.catch_up(newest(tail))?;
    let fresh = place_for(alloc, tail, every)?;
    let room = match hub.prepare_twin(event, answer) {
        Ok(room) => room,
        Err(error) => {
            drop(fresh);
            return Err(error);
        }
    };
    cut_at(tail, fresh);
    Ok(room)
}

// A place for one entry more: in the tail, or where that is full in a new one.
fn place_for(alloc: Global, tail: &mut Log, every: u64) -> Result<Option<Log>, AllocError>
    ensures same { tail.new.entries ≡ tail.old.entries }
    ensures here { IfOk result (λ fresh. nat_lt (length tail.old.entries) every ≡ true → (fresh ≡ None) × (0 < tail.new.room)) }
    ensures new { IfOk result (λ fresh. nat_lt (length tail.old.entries) every ≡ false → IsSomeAnd fresh (λ new. (new.entries ≡ []) × (0 < new.room))) }
{
    if tail.len() < every {
        tail.make_room()?;
        return Ok(None);
    }
    let mut fresh = Log::new(alloc);
    match fresh.make_room() {
        Ok(()) => Ok(Some(fresh)),
        Err(error) => {
            drop(fresh);
            Err(error)
        }
    }
}

// A new tail takes the place of one that is full.
fn cut_at(tail: &mut Log, fresh: Option<Log>)
    ensures { tail.new ≡ unwrap_or fresh tail.old }
{
    if let Some(fresh) = fresh {
        drop(mem::replace(tail, fresh));
    }
}

// The actions of the newest entry.
fn newest(journal: &Log) -> &[Action]
    ensures { result.now ≡ newest journal.now.entries }
{
    let len = journal.len();
    if len == 0 {
        return &[];
    }
    match journal.get(len - 1) {
        Some(entry) => entry.actions.as_slice(),
        None => &[],
    }
}

/// The session that is handed its replies with the entry of an event.
pub(crate) fn own_session(kind: &EventKind) -> Option<u64>
    ensures { result ≡ own_session kind.now }
{
    match kind {
        EventKind::End { ticket: _ } | EventKind::Piece { ticket: _ } => None,
        _ => kind.named_session(),
    }
}

/// Makes the step that all memory was taken for, and hands a session what it was sent.
pub(crate) fn step(
    hub: &mut Hub,
    log: &mut Log,
    outbox: &mut Outbox,
    marks: &mut Marks,
    room: TwinRoom,
    event: HubEvent,
    answer: Answer,
    own: Option<u64>,
) -> Turn
    requires fits { FitsTwin room hub.old event answer }
    requires room { 0 < log.old.room }
    ensures due { (J : List Entry) → Stands hub.old J → result.submitted.receipt.entry ≡ next_entry (options_of hub.old) J event answer }
    ensures place { result.submitted.receipt.place ≡ count_of hub.old }
    ensures job { (J : List Entry) → Stands hub.old J → result.submitted.job ≡ started_job (options_of hub.old) (past_of J) result.submitted.receipt.entry }
    ensures stands { (J : List Entry) → Stands hub.old J → Stands hub.new (result.submitted.receipt.entry ∷ J) }
    ensures options { options_of hub.new ≡ options_of hub.old }
    ensures count { count_of hub.new ≡ count_of hub.old + 1 }
    ensures log { log.new.entries ≡ result.submitted.receipt.entry ∷ log.old.entries }
    ensures earlier { result.earlier ≡ option_map_or (sorted outbox.old) own [] }
    ensures sorted { (s : ℕ) → sorted outbox.new s ≡ (if is_number own s then [] else sorted outbox.old s) }
    ensures next { outbox.new.next ≡ 0 }
    ensures told { outbox.new.told ≡ own }
{
    let place = hub.events();
    let Twin { kept, told, job } = hub.step_twin(room, event, answer);
    marks.follow(&told);
    keep(log, kept);
    let earlier = Replies::from_vec(outbox.hand(own));
    Turn {
        earlier,
        submitted: Submitted {
            receipt: Receipt { place, entry: told },
            job: share_of(marks, job),
        },
    }
}

// The share of a job that starts.
fn share_of(marks: &mut Marks, job: Option<Job>) -> Option<JobShare>
    ensures { result ≡ job }
{
    match job {
        Some(job) => {
            let mark = marks.start(job.ticket.session);
            Some(JobShare::new(job, mark))
        }
        None => None,
    }
}
