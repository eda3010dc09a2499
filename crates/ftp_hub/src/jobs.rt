//! Transfers of a live session: how they are queued, how they start, how they go on, and how they end.

ghost use Rattle.std.specs.Prelude.{◌≡◌, ◌+◌, ◌<◌, ◌≤◌, ◌^◌, ◌++◌, ◌==◌, ℕ, IsTrue, None, Some, nat_eq, if◌then◌else◌};
ghost use Rattle.std.specs.HashMap as map;
ghost use Rattle.ftp_options.specs.declared.options.Options.{Options};
ghost use Rattle.ftp_events.specs.declared.event.Answer.{Answer};
ghost use Rattle.ftp_events.specs.declared.event.Answer.TheVariants.{Done};
ghost use Rattle.ftp_events.specs.declared.event.Answer.TheVariants as answer;
ghost use Rattle.ftp_events.specs.declared.event.EventKind.TheVariants.{End};
ghost use Rattle.ftp_events.specs.declared.decision.Decision.TheVariants.{Cut, Finished};
ghost use Rattle.ftp_events.specs.Acts.{session_acts, start_acts, starting};
ghost use Rattle.ftp_events.specs.Ages.{left_at};
ghost use Rattle.ftp_events.specs.CommandRows.{if_logged_in, transfer_row};
ghost use Rattle.ftp_events.specs.EndRows.{can_end, can_move};
ghost use Rattle.ftp_events.specs.Log.{named_session};
ghost use Rattle.ftp_events.specs.Login.{logged_user};
ghost use Rattle.ftp_events.specs.Session.{session_after};
ghost use Rattle.ftp_events.specs.Slot.{kept_running, lane_of, startable};
ghost use Rattle.ftp_handlers.specs.Rooms.{IsReady, HasCopy, HasPlace, HasPlaces, actions_in, kept_in, twice_in};
ghost use Rattle.ftp_handlers.specs.Handlers.{is_transfer, IsFew, asked_for, kept_by, notices_of, with_lane, Starts};
ghost use Rattle.ftp_hub.specs.Endings.{is_piece};

use crate::tables::put;
use ftp_base::DataChanCmd;
use ftp_events::{Decision, EventKind, HubEvent, Running, Session, Slot};
use ftp_handlers::{Room, end, transfer};
use ftp_options::Options;
use ftp_switchboard::Switchboard;
use ftp_transfer::{Job, Outcome};
use std::collections::HashMap;
use std::mem;

// No piece of a transfer has more bytes.
const MOST_BYTES: u64 = 8192;

/// Starts the transfer that waits in the slot of a session, where the slot has a link and no job runs.
pub(crate) fn start(
    session: &mut Session,
    number: u64,
    jobs: &mut HashMap<u64, Running>,
    room: &mut Room,
)
    requires place { HasPlace room.old }
    requires spare { 0 < map.spare jobs.old }
    ensures session { session.new ≡ with_lane session.old (lane_of session.old.slot session.old.pending (map.get nat_eq jobs.old number)) (left_at (startable session.old.slot session.old.pending (map.get nat_eq jobs.old number)) session.old.slot_at) }
    ensures starts { Starts jobs.old jobs.new number (startable session.old.slot session.old.pending (map.get nat_eq jobs.old number)) }
    ensures actions { actions_in room.new ≡ actions_in room.old ++ start_acts (startable session.old.slot session.old.pending (map.get nat_eq jobs.old number)) }
    ensures twice { twice_in room.new ≡ twice_in room.old }
{
    let Slot::Linked { number: link } = session.slot else {
        return;
    };
    if jobs.contains_key(&number) {
        return;
    }
    let Some(pending) = mem::replace(&mut session.pending, None) else {
        return;
    };
    session.slot = Slot::Empty;
    session.slot_at = 0;
    room.start(pending.ticket, link);
    put(jobs, number, pending.on(link));
}

/// Queues the transfer that an event asks for, and starts it where it can start.
pub(crate) fn queue(
    session: &mut Session,
    number: u64,
    event: &HubEvent,
    jobs: &mut HashMap<u64, Running>,
    board: &mut Switchboard,
    room: &mut Room,
    options: &Options,
) -> Decision
    requires of_this_event { IsTrue (is_transfer event.now.kind) }
    requires named { named_session event.now.kind ≡ Some number }
    requires room { IsReady room.old }
    requires kept { kept_in room.old ≡ kept_by event.now.kind session.old }
    requires pending { room.old.pending ≡ asked_for event.now.kind session.old }
    requires spare { 0 < map.spare jobs.old }
    ensures decision { IsFew session.old → result ≡ if_logged_in session.old (transfer_row number session.old) }
    ensures session { IsFew session.old → (answer : Answer) → session.new ≡ session_after event.now.at event.now.kind answer result 0 (map.get nat_eq jobs.old number) session.old }
    ensures actions { IsFew session.old → (answer : Answer) → actions_in room.new ≡ session_acts options.now number event.now.kind answer result (map.get nat_eq jobs.old number) (Some session.old) }
    ensures starts { IsFew session.old → Starts jobs.old jobs.new number (starting event.now.kind result (map.get nat_eq jobs.old number) session.old) }
    ensures board { board.new ≡ board.old }
    ensures twice { twice_in room.new ≡ twice_in room.old }
{
    let decision = transfer::handle(session, &event.kind, board, room, event.at, options);
    if let Decision::Queued { ticket: _ } = decision {
        start(session, number, jobs, room);
    }
    decision
}

/// Tells the session of the end of its transfer, and starts the one that waits for its end.
pub(crate) fn finish(
    session: &mut Session,
    job: Running,
    outcome: Outcome,
    jobs: &mut HashMap<u64, Running>,
    room: &mut Room,
    at: u64,
    options: &Options,
)
    requires room { IsReady room.old }
    requires kept { kept_in room.old ≡ logged_user session.old.login session.old.name }
    requires path { HasCopy room.old job.job.path }
    requires spare { 0 < map.spare jobs.old }
    requires ended { map.get nat_eq jobs.old job.job.ticket.session ≡ None }
    ensures session { session.old.notices + 1 < 2 ^ 64 → session.new ≡ session_after at (End job.job.ticket) (Done outcome) Finished (notices_of (End job.job.ticket) Finished (Done outcome)) (Some job) session.old }
    ensures actions { session.old.notices + 1 < 2 ^ 64 → actions_in room.new ≡ session_acts options.now job.job.ticket.session (End job.job.ticket) (Done outcome) Finished (Some job) (Some session.old) }
    ensures starts { Starts jobs.old jobs.new job.job.ticket.session (starting (End job.job.ticket) Finished (Some job) session.old) }
    ensures twice { twice_in room.new ≡ twice_in room.old }
{
    let number = job.job.ticket.session;
    end::deliver(session, job, outcome, room, at, options);
    start(session, number, jobs, room);
}

/// Tells the session that its transfer was cut, and starts the one that waits for its end.
pub(crate) fn cut(
    session: &mut Session,
    job: Running,
    jobs: &mut HashMap<u64, Running>,
    room: &mut Room,
    at: u64,
)
    requires room { IsReady room.old }
    requires places { HasPlaces 5 room.old }
    requires spare { 0 < map.spare jobs.old }
    requires ended { map.get nat_eq jobs.old job.job.ticket.session ≡ None }
    ensures session { (answer : Answer) → session.new ≡ session_after at (End job.job.ticket) answer Cut 0 (Some job) session.old }
    ensures actions { (o : Options) (answer : Answer) → actions_in room.new ≡ session_acts o job.job.ticket.session (End job.job.ticket) answer Cut (Some job) (Some session.old) }
    ensures starts { Starts jobs.old jobs.new job.job.ticket.session (starting (End job.job.ticket) Cut (Some job) session.old) }
    ensures twice { twice_in room.new ≡ twice_in room.old }
{
    let number = job.job.ticket.session;
    end::cut(session, &job, room, at);
    start(session, number, jobs, room);
}

/// The job that runs is to stop, where the decision says so.
pub(crate) fn mark(jobs: &mut HashMap<u64, Running>, number: u64, decision: Decision)
    ensures jobs { (q : ℕ) → map.get nat_eq jobs.new q ≡ (if number == q then kept_running decision answer.None (map.get nat_eq jobs.old q) else map.get nat_eq jobs.old q) }
    ensures len { map.hash_map_len jobs.new ≡ map.hash_map_len jobs.old }
    ensures spare { map.spare jobs.old ≤ map.spare jobs.new }
{
    if let Decision::Aborting = decision {
        if let Some(running) = jobs.get_mut(&number) {
            running.marked = true;
        }
    }
}

/// Says whether the event asks for a transfer.
pub(crate) fn is_transfer(kind: &EventKind) -> bool
    ensures { result ≡ is_transfer kind.now }
{
    matches!(kind, EventKind::Transfer { .. } | EventKind::Stou { .. })
}

/// Says whether the event is a piece of a transfer.
pub(crate) fn is_piece(kind: &EventKind) -> bool
    ensures { result ≡ is_piece kind.now }
{
    matches!(kind, EventKind::Piece { .. })
}

/// Says whether the job can go on with so many bytes.
pub(crate) fn can_move(job: &Job, bytes: u64) -> bool
    ensures { result ≡ can_move job.now bytes }
{
    match &job.command {
        DataChanCmd::Retr { .. } | DataChanCmd::Stor { .. } | DataChanCmd::Appe { .. } => {
            1 <= bytes && bytes <= MOST_BYTES && bytes <= u64::MAX - job.done
        }
        DataChanCmd::List { .. } | DataChanCmd::Nlst { .. } | DataChanCmd::Mlsd { .. } => false,
    }
}

/// Says whether the job can end so.
pub(crate) fn can_end(job: &Job, outcome: Outcome) -> bool
    ensures { result ≡ can_end job.now outcome }
{
    outcome.suits(&job.command) && job.done <= outcome.bytes
}
