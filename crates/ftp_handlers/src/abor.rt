//! ABOR (RFC 959, section 4.1.3).

ghost use Rattle.std.specs.Prelude.{◌≡◌, ℕ, true, false, IsTrue, Option, Some};
ghost use Rattle.ftp_base.specs.Net.{ipv4};
ghost use Rattle.ftp_options.specs.Modes.{is_legacy};
ghost use Rattle.ftp_switchboard.specs.Board.{SameRange, holder_at};
ghost use Rattle.ftp_events.specs.declared.session.Running.{Running};
ghost use Rattle.ftp_events.specs.declared.event.Answer.{Answer};
ghost use Rattle.ftp_events.specs.CommandRows.{abor_row, if_logged_in};
ghost use Rattle.ftp_events.specs.Slot.{waiting_port};
ghost use Rattle.ftp_events.specs.Session.{session_after};
ghost use Rattle.ftp_events.specs.Acts.{session_acts};
ghost use Rattle.ftp_handlers.specs.Rooms.{IsReady, actions_in, twice_in};
ghost use Rattle.ftp_handlers.specs.Handlers.{is_abor, goes_on, number_of, held_after};

use crate::closed::release;
use crate::login::ask_for_login;
use crate::room::Room;
use ftp_base::ReplyCode;
use ftp_events::{Decision, EventKind, Login, Session, Slot};
use ftp_options::Options;
use ftp_switchboard::Switchboard;
use std::mem;

/// Drops what the session's slot has; a transfer that runs is to stop behind its next piece.
pub fn handle(
    session: &mut Session,
    args: &EventKind,
    board: &mut Switchboard,
    room: &mut Room,
    at: u64,
    options: &Options,
) -> Decision
    requires of_this_event { IsTrue (is_abor args.now) }
    requires room { IsReady room.old }
    ensures goes_on { IsTrue (goes_on result) }
    ensures decision { result ≡ if_logged_in session.old (abor_row room.old.stops session.old) }
    ensures session { (answer : Answer) (job : Option Running) → session.new ≡ session_after at args.now answer result 0 job session.old }
    ensures actions { (answer : Answer) (job : Option Running) → actions_in room.new ≡ session_acts options.now (number_of args.now) args.now answer result job (Some session.old) }
    ensures holders { is_legacy options.now.mode ≡ false → (a p : ℕ) → holder_at board.new a p ≡ held_after result (number_of args.now) (ipv4 session.old.opening.client) (waiting_port session.old.slot) a p (holder_at board.old a p) }
    ensures alone { is_legacy options.now.mode ≡ true → board.new ≡ board.old }
    ensures range { SameRange board.old board.new }
    ensures twice { twice_in room.new ≡ twice_in room.old }
{
    let EventKind::Abor { session: number } = args else {
        unreachable!()
    };
    session.active_at = at;
    if !matches!(session.login, Login::LoggedIn) {
        return ask_for_login(*number, room);
    }
    let stops = room.stops;
    if matches!(session.slot, Slot::Empty) && !stops {
        room.reply(
            *number,
            ReplyCode::ClosingDataConnection,
            b"Data channel already closed",
        );
        return Decision::NothingToAbort;
    }
    if !options.mode.is_legacy() {
        release(board, session, *number);
    }
    room.cancel_and_tell(*number, mem::replace(&mut session.pending, None));
    room.close_link(session.slot);
    session.slot = Slot::Empty;
    session.slot_at = 0;
    // Where a transfer is to stop, its end says so.
    if stops {
        return Decision::Aborting;
    }
    room.reply(
        *number,
        ReplyCode::ClosingDataConnection,
        b"Closed data channel",
    );
    Decision::Aborted
}
