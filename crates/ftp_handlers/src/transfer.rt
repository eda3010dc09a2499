//! RETR, STOR, APPE, LIST, NLST, STOU (RFC 959, section 4.1.3) and MLSD (RFC 3659, section 7).

ghost use Rattle.std.specs.Prelude.{◌≡◌, ℕ, IsTrue, Option};
ghost use Rattle.ftp_events.specs.declared.session.Running.{Running};
ghost use Rattle.ftp_events.specs.declared.event.Answer.{Answer};
ghost use Rattle.ftp_events.specs.declared.event.EventKind.TheVariants.{Transfer};
ghost use Rattle.ftp_events.specs.Acts.{notice_and_reply};
ghost use Rattle.ftp_events.specs.CommandRows.{if_logged_in, transfer_row, can_queue};
ghost use Rattle.ftp_events.specs.Reply.{queued_text};
ghost use Rattle.ftp_handlers.specs.Rooms.{IsReady, HasPlace, actions_in, kept_in, twice_in};
ghost use Rattle.ftp_handlers.specs.Handlers.{is_transfer, IsFew, number_of, kept_by, asked_for, with_queued};

use crate::login::ask_for_login;
use crate::room::Room;
use ftp_base::{DataChanCmd, ReplyCode};
use ftp_events::{Decision, EventKind, Login, Session, Slot};
use ftp_options::Options;
use ftp_switchboard::Switchboard;

/// What is told where a transfer has no link, and a PASV no socket or no address to show.
pub(crate) const NO_CONNECTION: &[u8] = b"No data connection established";

/// Queues the transfer in the session's slot, where that waits for a link or has one and no other transfer waits.
///
/// # Proved
///
/// - RETR, STOR, APPE, LIST, NLST, MLSD and STOU, before a queued transfer starts: the decision of the row, the
///   transfer in the slot, and the reply; no port changes its holder (as for a command; the room has the transfer that
///   the event asks for; for `decision` and `session` no count of the session is at its end) (`decision`, `session`,
///   `actions`, `board`; also `stor::handle`, `appe::handle`, `list::handle`, `nlst::handle`, `mlsd::handle`,
///   `stou::handle`).
pub fn handle(
    session: &mut Session,
    args: &EventKind,
    board: &mut Switchboard,
    room: &mut Room,
    at: u64,
    options: &Options,
) -> Decision
    requires of_this_event { IsTrue (is_transfer args.now) }
    requires room { IsReady room.old }
    requires kept { kept_in room.old ≡ kept_by args.now session.old }
    requires pending { room.old.pending ≡ asked_for args.now session.old }
    ensures decision { IsFew session.old → result ≡ if_logged_in session.old (transfer_row (number_of args.now) session.old) }
    ensures session { IsFew session.old → session.new ≡ with_queued at args.now result session.old }
    ensures actions { (answer : Answer) (job : Option Running) → actions_in room.new ≡ notice_and_reply options.now (number_of args.now) args.now answer result job session.old }
    ensures place { HasPlace room.new }
    ensures board { board.new ≡ board.old }
    ensures twice { twice_in room.new ≡ twice_in room.old }
{
    let number = match args {
        EventKind::Transfer { session, .. } => *session,
        EventKind::Stou { session, .. } => *session,
        _ => unreachable!(),
    };
    session.active_at = at;
    if !matches!(session.login, Login::LoggedIn) {
        return ask_for_login(number, room);
    }
    if !can_queue(session) {
        room.reply(number, ReplyCode::CantOpenDataConnection, NO_CONNECTION);
        return Decision::NoSlot;
    }
    let Some(pending) = room.take_pending() else {
        unreachable!()
    };
    let ticket = pending.ticket;
    session.pending = Some(pending);
    session.tickets = session.tickets.saturating_add(1);
    match args {
        EventKind::Transfer { command, .. } => {
            room.reply(number, ReplyCode::FileStatusOkay, ready_text(command));
        }
        _ => room.reply_kept(number, ReplyCode::FileStatusOkay),
    }
    Decision::Queued { ticket }
}

// Says whether the slot can take a transfer.
fn can_queue(session: &Session) -> bool
    ensures { result ≡ can_queue session.now.slot session.now.pending }
{
    match session.slot {
        Slot::Empty => false,
        Slot::Waits { .. } | Slot::Linked { .. } => session.pending.is_none(),
    }
}

// What is told of a transfer that is queued.
fn ready_text(command: &DataChanCmd) -> &'static [u8]
    ensures { (s : ℕ) → result.now ≡ queued_text (Transfer s command.now) }
{
    match command {
        DataChanCmd::Retr { .. } => b"Sending data",
        DataChanCmd::Stor { .. } | DataChanCmd::Appe { .. } => b"Ready to receive data",
        DataChanCmd::List { .. } | DataChanCmd::Nlst { .. } | DataChanCmd::Mlsd { .. } => {
            b"Sending directory list"
        }
    }
}
