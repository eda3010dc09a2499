//! The commands of a session that goes on.

ghost use Rattle.std.specs.Prelude.{◌≡◌, ◌+◌, ◌<◌, ◌^◌, ℕ, true, false, IsTrue, Bool, Option, Some};
ghost use Rattle.ftp_base.specs.Net.{ipv4};
ghost use Rattle.ftp_options.specs.declared.lockout.FailedLoginsPolicy.{FailedLoginsPolicy};
ghost use Rattle.ftp_options.specs.Modes.{is_legacy};
ghost use Rattle.ftp_lockout.specs.declared.key.LoginKey.{LoginKey};
ghost use Rattle.ftp_switchboard.specs.Board.{SameRange, holder_at};
ghost use Rattle.ftp_events.specs.declared.session.Running.{Running};
ghost use Rattle.ftp_events.specs.declared.event.Answer.{Answer};
ghost use Rattle.ftp_events.specs.CommandRows.{command_row};
ghost use Rattle.ftp_events.specs.Slot.{waiting_port};
ghost use Rattle.ftp_events.specs.Session.{session_after};
ghost use Rattle.ftp_events.specs.Acts.{session_acts};
ghost use Rattle.ftp_handlers.specs.Rooms.{IsReady, CanReply, actions_in, kept_in, telling_in, twice_in};
ghost use Rattle.ftp_handlers.specs.Handlers.{can_reply, is_auth, is_command, is_pasv, goes_on, number_of, kept_by, notices_of, surroundings, telling_for, failures_in, failures_left, policy_in, width_for, CanCount, HasRange, HasRoomFor, held_after};

use crate::room::Room;
use crate::{abor, auth_done, cwd, internal, pass, pasv, port, rest, slot_tick, user};
use ftp_events::{Decision, EventKind, HubEvent, Session};
use ftp_lockout::FailedLoginsCache;
use ftp_options::Options;
use ftp_switchboard::{Looks, Switchboard};

/// Hands a command of a live session, or a look at its slot, to its handler.
///
/// # Proved
///
/// - The same of each command of a session that goes on, USER, the answer to a password and a look at the age of its
///   slot among them, if the same; for the answer to a password the table goes by the policy of the options, and has
///   room for a key; for `session` and `actions` the session's count of notices is not at its end (`decision`,
///   `session`, `actions`, `holders`, `alone`, `range`, `goes_on`).
/// - The answer to a password leaves of the failures of each key what the policy says, and no other command changes any
///   (`failures`, `policy`, `uncounted`).
pub fn command(
    session: &mut Session,
    event: &HubEvent,
    board: &mut Switchboard,
    failures: &mut Option<FailedLoginsCache>,
    room: &mut Room,
    options: &Options,
) -> Decision
    requires of_this_event { IsTrue (is_command event.now.kind) }
    requires room { IsReady room.old }
    requires letters { IsTrue (can_reply event.now.kind) → CanReply (width_for options.now event.now.kind) room.old }
    requires kept { kept_in room.old ≡ kept_by event.now.kind session.old }
    requires telling { telling_in room.old ≡ telling_for event.now.kind }
    requires count { IsTrue (is_auth event.now.kind) → CanCount failures.old options.now }
    requires range { is_legacy options.now.mode ≡ false → HasRange board.old options.now }
    requires board_room { IsTrue (is_pasv event.now.kind) → is_legacy options.now.mode ≡ false → HasRoomFor board.old session.old }
    ensures goes_on { IsTrue (goes_on result) }
    ensures decision { (runs : Bool) → result ≡ command_row options.now (surroundings board.old failures.old room.old.used runs room.old.stops event.now.at session.old) event.now.kind session.old }
    ensures session { session.old.notices + 1 < 2 ^ 64 → (answer : Answer) (job : Option Running) → session.new ≡ session_after event.now.at event.now.kind answer result (notices_of event.now.kind result answer) job session.old }
    ensures actions { session.old.notices + 1 < 2 ^ 64 → (answer : Answer) (job : Option Running) → actions_in room.new ≡ session_acts options.now (number_of event.now.kind) event.now.kind answer result job (Some session.old) }
    ensures failures { (p : FailedLoginsPolicy) → options.now.lockout ≡ Some p → (key : LoginKey) → failures_in failures.new key ≡ failures_left p session.old key event.now.kind event.now.at (failures_in failures.old key) }
    ensures policy { policy_in failures.new ≡ policy_in failures.old }
    ensures uncounted { is_auth event.now.kind ≡ false → failures.new ≡ failures.old }
    ensures holders { is_legacy options.now.mode ≡ false → (a p : ℕ) → holder_at board.new a p ≡ held_after result (number_of event.now.kind) (ipv4 session.old.opening.client) (waiting_port session.old.slot) a p (holder_at board.old a p) }
    ensures alone { is_legacy options.now.mode ≡ true → board.new ≡ board.old }
    ensures range { SameRange board.old board.new }
    ensures twice { twice_in room.new ≡ twice_in room.old }
{
    let args = &event.kind;
    let at = event.at;
    match args {
        EventKind::User { .. } => user::handle(session, args, room, at),
        EventKind::Pass { .. } => pass::handle(session, args, board, room, at, options),
        EventKind::AuthDone {
            session: number,
            answer,
        } => auth_done::handle(session, *number, *answer, failures, room, at, options),
        EventKind::Pasv { .. } => {
            let looks = &mut Looks::new();
            pasv::handle(session, args, board, room, at, options, looks)
        }
        EventKind::Port { .. } => port::handle(session, args, board, room, at, options),
        EventKind::Rest { .. } => rest::handle(session, args, board, room, at, options),
        EventKind::Cwd { .. } => cwd::handle(session, args, board, room, at, options),
        EventKind::Abor { .. } => abor::handle(session, args, board, room, at, options),
        EventKind::Internal { .. } => internal::handle(session, args, room, at),
        EventKind::SlotTick { session: number } => {
            slot_tick::handle(session, *number, room, at, options)
        }
        _ => unreachable!(),
    }
}
