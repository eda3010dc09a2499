//! The ends of transfers (RFC 959, section 5.4).

ghost use Rattle.std.specs.Prelude.{◌≡◌, ◌+◌, ◌<◌, ◌^◌, [], ◌∷◌, ◌++◌, codes, IsTrue, true, Some};
ghost use Rattle.ftp_base.specs.declared.notice.Notice.TheVariants.{Data};
ghost use Rattle.ftp_base.specs.declared.reply.Reply.TheVariants as reply;
ghost use Rattle.ftp_base.specs.declared.reply.ReplyCode.TheVariants as code;
ghost use Rattle.ftp_events.specs.declared.action.Action.TheVariants as action;
ghost use Rattle.ftp_events.specs.declared.decision.Decision.TheVariants.{Finished};
ghost use Rattle.ftp_events.specs.declared.event.Answer.TheVariants.{Done};
ghost use Rattle.ftp_events.specs.declared.event.EventKind.TheVariants.{End};
ghost use Rattle.ftp_events.specs.Acts.{cuttings, notice_and_reply};
ghost use Rattle.ftp_events.specs.Login.{logged_user};
ghost use Rattle.ftp_handlers.specs.Rooms.{IsReady, HasCopy, HasPlace, HasPlaces, actions_in, kept_in, len_in, twice_in};
ghost use Rattle.ftp_handlers.specs.Handlers.{with_end};

use crate::room::Room;
use ftp_base::{DataEvent, ReplyCode};
use ftp_events::{Running, Session, refusal, wording};
use ftp_options::Options;
use ftp_transfer::{Completion, Outcome};

/// Tells a live session how its transfer ended, and listeners what it moved.
///
/// # Proved
///
/// - The end of a transfer whose session is live: its restart offset and notices, what is told, and slot and waiting
///   transfer as before, if the room is ready and has the name of the user (`session`, `actions`, `slot`, `pending`).
pub fn deliver(
    session: &mut Session,
    job: Running,
    outcome: Outcome,
    room: &mut Room,
    at: u64,
    options: &Options,
)
    requires room { IsReady room.old }
    requires kept { kept_in room.old ≡ logged_user session.old.login session.old.name }
    requires path { HasCopy room.old job.job.path }
    ensures session { session.old.notices + 1 < 2 ^ 64 → session.new ≡ with_end at (End job.job.ticket) (Done outcome) session.old }
    ensures actions { session.old.notices + 1 < 2 ^ 64 → actions_in room.new ≡ action.Completed job.job.ticket true ∷ notice_and_reply options.now job.job.ticket.session (End job.job.ticket) (Done outcome) Finished (Some job) session.old }
    ensures slot { session.new.slot ≡ session.old.slot }
    ensures pending { session.new.pending ≡ session.old.pending }
    ensures place { HasPlace room.new }
    ensures twice { twice_in room.new ≡ twice_in room.old }
{
    let job = job.job;
    let number = job.ticket.session;
    session.active_at = at;
    room.complete(job.ticket, true);
    let path = job.path;
    let bytes = outcome.bytes;
    match outcome.result {
        Completion::Sent => {
            let what = DataEvent::Got { path, bytes };
            let path = room.take_path();
            let copy = DataEvent::Got { path, bytes };
            moved(session, number, what, copy, wording::SENT, room);
        }
        Completion::Written => {
            let what = DataEvent::Put { path, bytes };
            let path = room.take_path();
            let copy = DataEvent::Put { path, bytes };
            moved(session, number, what, copy, wording::WRITTEN, room);
        }
        Completion::Listed => {
            room.reply(number, ReplyCode::ClosingDataConnection, wording::LISTED);
        }
        Completion::WriteFailed => {
            room.reply(number, ReplyCode::TransientFileError, wording::WRITE_FAILED);
        }
        Completion::Refused(kind) => {
            let (code, text) = refusal(kind);
            room.reply(number, code, text);
        }
        Completion::OutOfMemory => room.reply(number, ReplyCode::OutOfSpace, b"Out of memory"),
    }
}

/// Tells a live session that its transfer was cut.
///
/// # Proved
///
/// - A transfer that is cut: the session is at work at that moment, and is told 426 and then 226, the link between them
///   closed, if the room is ready, with five places (`session`, `actions`).
pub fn cut(session: &mut Session, job: &Running, room: &mut Room, at: u64)
    requires room { IsReady room.old }
    requires places { HasPlaces 5 room.old }
    ensures session { session.new ≡ record session.old { active_at = at } }
    ensures actions { actions_in room.new ≡ cuttings job.now.job.ticket.session true (Some job.now) ++ action.Reply job.now.job.ticket.session 0 (reply.CodeAndMsg code.ClosingDataConnection (codes "Closed data channel")) ∷ [] }
    ensures place { HasPlace room.new }
    ensures twice { twice_in room.new ≡ twice_in room.old }
{
    let number = job.job.ticket.session;
    session.active_at = at;
    room.cut_and_tell(number, job.job.ticket, job.job.number);
    room.reply(
        number,
        ReplyCode::ClosingDataConnection,
        b"Closed data channel",
    );
}

// A file was moved: no restart offset is left, listeners are told, and then the session.
fn moved(
    session: &mut Session,
    number: u64,
    what: DataEvent,
    copy: DataEvent,
    text: &'static [u8],
    room: &mut Room,
)
    requires places { HasPlaces 2 room.old }
    requires equal { IsTrue (twice_in room.old) → copy ≡ what }
    ensures session { session.old.notices + 1 < 2 ^ 64 → session.new ≡ record session.old { offset = 0; notices = session.old.notices + 1 } }
    ensures actions { session.old.notices + 1 < 2 ^ 64 → actions_in room.new ≡ actions_in room.old ++ action.Notify number (record { username = kept_in room.old; trace_id = record { 0 = session.old.opening.trace }; sequence_number = session.old.notices + 1 }) (Data what) ∷ action.Reply number 0 (reply.CodeAndMsg code.ClosingDataConnection text.now) ∷ [] }
    ensures slot { session.new.slot ≡ session.old.slot }
    ensures pending { session.new.pending ≡ session.old.pending }
    ensures len { len_in room.new ≡ len_in room.old + 2 }
    ensures same { room.new ≡ record room.old { actions = room.new.actions; kept = room.new.kept; text = room.new.text } }
{
    session.offset = 0;
    session.notices = session.notices.saturating_add(1);
    room.notify_data(
        number,
        session.opening.trace,
        session.notices,
        what,
        Some(copy),
    );
    room.reply(number, ReplyCode::ClosingDataConnection, text);
}
