//! The end of a control connection.

ghost use Rattle.std.specs.Prelude.{◌≡◌, ◌+◌, ◌<◌, ◌≤◌, ◌^◌, [], ◌∷◌, ◌++◌, ℕ, false, IsTrue, Option, Some};
ghost use Rattle.ftp_base.specs.declared.notice.Notice.TheVariants.{Presence};
ghost use Rattle.ftp_base.specs.declared.notice.PresenceEvent.TheVariants as presence;
ghost use Rattle.ftp_base.specs.declared.reply.Reply.TheVariants as reply;
ghost use Rattle.ftp_base.specs.declared.reply.ReplyCode.TheVariants as code;
ghost use Rattle.ftp_base.specs.Net.{ipv4};
ghost use Rattle.ftp_switchboard.specs.Board.{SameRange, holder_at};
ghost use Rattle.ftp_events.specs.declared.session.Running.{Running};
ghost use Rattle.ftp_events.specs.declared.event.Answer.{Answer};
ghost use Rattle.ftp_events.specs.declared.action.Action.TheVariants as action;
ghost use Rattle.ftp_events.specs.declared.decision.Decision.TheVariants as decision;
ghost use Rattle.ftp_events.specs.Login.{logged_user};
ghost use Rattle.ftp_events.specs.Slot.{waiting_port};
ghost use Rattle.ftp_events.specs.Acts.{cancellations, closings, link_in, session_acts};
ghost use Rattle.ftp_handlers.specs.Rooms.{HasPlaces, IsReady, actions_in, kept_in, len_in, twice_in};
ghost use Rattle.ftp_handlers.specs.Handlers.{is_closed, number_of, kept_by, held_after, held_without};

use crate::pasv::waiting_port;
use crate::room::Room;
use ftp_base::{PresenceEvent, ReplyCode};
use ftp_events::{Decision, EventKind, Session};
use ftp_options::Options;
use ftp_switchboard::{Switchboard, SwitchboardKey};
use std::mem;

/// Lets go of all that the session has: its passive port, its link, and last its own connection.
pub fn handle(
    session: &mut Session,
    args: &EventKind,
    board: &mut Switchboard,
    room: &mut Room,
    options: &Options,
) -> Decision
    requires of_this_event { IsTrue (is_closed args.now) }
    requires room { IsReady room.old }
    requires kept { kept_in room.old ≡ kept_by args.now session.old }
    ensures decision { result ≡ decision.Closed }
    ensures actions { session.old.notices + 1 < 2 ^ 64 → (answer : Answer) (job : Option Running) → actions_in room.new ≡ session_acts options.now (number_of args.now) args.now answer result job (Some session.old) }
    ensures holders { (a p : ℕ) → holder_at board.new a p ≡ held_after result (number_of args.now) (ipv4 session.old.opening.client) (waiting_port session.old.slot) a p (holder_at board.old a p) }
    ensures range { SameRange board.old board.new }
    ensures twice { twice_in room.new ≡ twice_in room.old }
{
    let EventKind::Closed { session: number } = args else {
        unreachable!()
    };
    leave(session, *number, board, room);
    room.close(*number);
    Decision::Closed
}

/// Lets go of all that the session has, and says goodbye before its own connection is closed.
pub(crate) fn say_goodbye(
    session: &mut Session,
    number: u64,
    board: &mut Switchboard,
    room: &mut Room,
    words: &'static [u8],
)
    requires room { IsReady room.old }
    requires places { HasPlaces 5 room.old }
    requires kept { kept_in room.old ≡ logged_user session.old.login session.old.name }
    ensures actions { session.old.notices + 1 < 2 ^ 64 → actions_in room.new ≡ cancellations number false session.old.pending ++ closings (link_in session.old.slot) ++ action.Notify number (record { username = kept_in room.old; trace_id = record { 0 = session.old.opening.trace }; sequence_number = session.old.notices + 1 }) (Presence presence.LoggedOut) ∷ [] ++ action.Reply number 0 (reply.CodeAndMsg code.ClosingControlConnection words.now) ∷ [] ++ action.Close number ∷ [] }
    ensures holders { (a p : ℕ) → holder_at board.new a p ≡ held_without number (ipv4 session.old.opening.client) (waiting_port session.old.slot) a p (holder_at board.old a p) }
    ensures range { SameRange board.old board.new }
    ensures twice { twice_in room.new ≡ twice_in room.old }
{
    leave(session, number, board, room);
    room.reply(number, ReplyCode::ClosingControlConnection, words);
    room.close(number);
}

/// Frees the passive port of a session that ends, cancels the transfer that waits, closes its link, and tells listeners.
pub(crate) fn leave(session: &mut Session, number: u64, board: &mut Switchboard, room: &mut Room)
    requires room { IsReady room.old }
    requires kept { kept_in room.old ≡ logged_user session.old.login session.old.name }
    ensures actions { session.old.notices + 1 < 2 ^ 64 → actions_in room.new ≡ cancellations number false session.old.pending ++ closings (link_in session.old.slot) ++ action.Notify number (record { username = kept_in room.old; trace_id = record { 0 = session.old.opening.trace }; sequence_number = session.old.notices + 1 }) (Presence presence.LoggedOut) ∷ [] }
    ensures len { len_in room.new ≤ 3 }
    ensures same { room.new ≡ record room.old { actions = room.new.actions; kept = room.new.kept } }
    ensures holders { (a p : ℕ) → holder_at board.new a p ≡ held_without number (ipv4 session.old.opening.client) (waiting_port session.old.slot) a p (holder_at board.old a p) }
    ensures range { SameRange board.old board.new }
{
    release(board, session, number);
    depart(session, number, room);
}

/// Cancels the transfer that waits for a session that ends, closes its link, and tells listeners.
pub(crate) fn depart(session: &mut Session, number: u64, room: &mut Room)
    requires places { HasPlaces 3 room.old }
    requires kept { kept_in room.old ≡ logged_user session.old.login session.old.name }
    ensures actions { session.old.notices + 1 < 2 ^ 64 → actions_in room.new ≡ actions_in room.old ++ cancellations number false session.old.pending ++ closings (link_in session.old.slot) ++ action.Notify number (record { username = kept_in room.old; trace_id = record { 0 = session.old.opening.trace }; sequence_number = session.old.notices + 1 }) (Presence presence.LoggedOut) ∷ [] }
    ensures len { len_in room.new ≤ len_in room.old + 3 }
    ensures same { room.new ≡ record room.old { actions = room.new.actions; kept = room.new.kept } }
{
    room.cancel(number, mem::replace(&mut session.pending, None));
    room.close_link(session.slot);
    room.notify_presence(
        number,
        session.opening.trace,
        session.notices.saturating_add(1),
        PresenceEvent::LoggedOut,
    );
}

/// Frees the port that the session waits for.
pub(crate) fn release(board: &mut Switchboard, session: &Session, number: u64)
    ensures holders { (a p : ℕ) → holder_at board.new a p ≡ held_without number (ipv4 session.now.opening.client) (waiting_port session.now.slot) a p (holder_at board.old a p) }
    ensures range { SameRange board.old board.new }
{
    let Some(source) = session.opening.client.ipv4() else {
        return;
    };
    if let Some(port) = waiting_port(session.slot) {
        let key = SwitchboardKey { source, port };
        board.release(&key, number);
    }
}
