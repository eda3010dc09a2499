//! PORT (RFC 959, section 4.1.2).

ghost use Rattle.std.specs.Prelude.{◌≡◌, ◌++◌, ℕ, [], ◌∷◌, codes, true, false, IsTrue, Option, None, Some};
ghost use Rattle.ftp_base.specs.Net.{ipv4};
ghost use Rattle.ftp_base.specs.declared.reply.Reply.TheVariants as reply;
ghost use Rattle.ftp_base.specs.declared.reply.ReplyCode.TheVariants as code;
ghost use Rattle.ftp_options.specs.Modes.{is_legacy};
ghost use Rattle.ftp_switchboard.specs.Board.{SameRange, holder_at};
ghost use Rattle.ftp_events.specs.declared.action.Action.TheVariants as action;
ghost use Rattle.ftp_events.specs.declared.decision.Decision.TheVariants.{PortOk};
ghost use Rattle.ftp_events.specs.declared.session.Running.{Running};
ghost use Rattle.ftp_events.specs.declared.session.Slot.TheVariants.{Linked};
ghost use Rattle.ftp_events.specs.declared.event.Answer.{Answer};
ghost use Rattle.ftp_events.specs.CommandRows.{if_logged_in, port_row};
ghost use Rattle.ftp_events.specs.Slot.{waiting_port};
ghost use Rattle.ftp_events.specs.Session.{session_after};
ghost use Rattle.ftp_events.specs.Acts.{cancellations, closings, link_in, session_acts};
ghost use Rattle.ftp_handlers.specs.Rooms.{IsReady, actions_in, twice_in};
ghost use Rattle.ftp_handlers.specs.Handlers.{is_port, goes_on, number_of, notices_of, text_of, made_of, held_after, held_without};

use crate::closed::release;
use crate::login::ask_for_login;
use crate::room::Room;
use ftp_base::ReplyCode;
use ftp_events::{Decision, EventKind, Login, Session, Slot, port_target};
use ftp_options::Options;
use ftp_switchboard::Switchboard;
use std::mem;

// What is told of a connection that was asked for and not made.
const UNMADE: &[u8] = b"Could not establish data connection";

/// Takes the connection that was made to the session's peer as the link of its slot.
pub fn handle(
    session: &mut Session,
    args: &EventKind,
    board: &mut Switchboard,
    room: &mut Room,
    at: u64,
    options: &Options,
) -> Decision
    requires of_this_event { IsTrue (is_port args.now) }
    requires room { IsReady room.old }
    ensures goes_on { IsTrue (goes_on result) }
    ensures decision { result ≡ if_logged_in session.old (port_row options.now (λ n. room.old.used) (text_of args.now) (made_of args.now) session.old) }
    ensures session { (answer : Answer) (job : Option Running) → session.new ≡ session_after at args.now answer result (notices_of args.now result answer) job session.old }
    ensures actions { (answer : Answer) (job : Option Running) → actions_in room.new ≡ session_acts options.now (number_of args.now) args.now answer result job (Some session.old) }
    ensures holders { is_legacy options.now.mode ≡ false → (a p : ℕ) → holder_at board.new a p ≡ held_after result (number_of args.now) (ipv4 session.old.opening.client) (waiting_port session.old.slot) a p (holder_at board.old a p) }
    ensures alone { is_legacy options.now.mode ≡ true → board.new ≡ board.old }
    ensures range { SameRange board.old board.new }
    ensures twice { twice_in room.new ≡ twice_in room.old }
{
    let EventKind::Port {
        session: number,
        text,
        number: made,
    } = args
    else {
        unreachable!()
    };
    let active_at = mem::replace(&mut session.active_at, at);
    if !matches!(session.login, Login::LoggedIn) {
        return ask_for_login(*number, room);
    }
    if options.active_passive.is_active_off() {
        room.reply(
            *number,
            ReplyCode::CommandNotImplemented,
            b"Active mode is switched off",
        );
        return Decision::ModeOff;
    }
    let Some(to) = port_target(text.as_slice()) else {
        room.reply(
            *number,
            ReplyCode::ParameterSyntaxError,
            b"Invalid address format",
        );
        return Decision::BadAddress;
    };
    if !to.ip.is_same(session.opening.raw.ip) {
        room.reply(*number, ReplyCode::CantOpenDataConnection, UNMADE);
        return Decision::OtherAddress;
    }
    let Some(made) = *made else {
        room.reply(*number, ReplyCode::CantOpenDataConnection, UNMADE);
        return Decision::NoConnection;
    };
    if room.used {
        // A refusal is no activity.
        session.active_at = active_at;
        return Decision::UsedNumber;
    }
    connect(session, *number, made, board, room, at, options)
}

// Puts the connection into the session's slot, in place of what that had.
fn connect(
    session: &mut Session,
    number: u64,
    made: u64,
    board: &mut Switchboard,
    room: &mut Room,
    at: u64,
    options: &Options,
) -> Decision
    requires room { IsReady room.old }
    ensures decision { result ≡ PortOk }
    ensures session { session.new ≡ record session.old { slot = Linked made; slot_at = at; pending = None } }
    ensures actions { actions_in room.new ≡ cancellations number true session.old.pending ++ closings (link_in session.old.slot) ++ action.Reply number 0 (reply.CodeAndMsg code.CommandOkay (codes "PORT command successful")) ∷ [] }
    ensures holders { is_legacy options.now.mode ≡ false → (a p : ℕ) → holder_at board.new a p ≡ held_without number (ipv4 session.old.opening.client) (waiting_port session.old.slot) a p (holder_at board.old a p) }
    ensures alone { is_legacy options.now.mode ≡ true → board.new ≡ board.old }
    ensures range { SameRange board.old board.new }
    ensures twice { twice_in room.new ≡ twice_in room.old }
{
    if !options.mode.is_legacy() {
        release(board, session, number);
    }
    room.cancel_and_tell(number, mem::replace(&mut session.pending, None));
    room.close_link(session.slot);
    room.reply(number, ReplyCode::CommandOkay, b"PORT command successful");
    session.slot = Slot::Linked { number: made };
    session.slot_at = at;
    Decision::PortOk
}
