//! The ends of live sessions.

ghost use Rattle.std.specs.Prelude.{◌≡◌, ◌+◌, ◌<◌, ◌≤◌, ◌^◌, ℕ, IsTrue, Option, Some};
ghost use Rattle.ftp_base.specs.Net.{ipv4};
ghost use Rattle.ftp_switchboard.specs.Board.{SameRange, holder_at};
ghost use Rattle.ftp_events.specs.declared.session.Running.{Running};
ghost use Rattle.ftp_events.specs.declared.event.Answer.{Answer};
ghost use Rattle.ftp_events.specs.Acts.{session_acts};
ghost use Rattle.ftp_events.specs.Classes.{is_ending};
ghost use Rattle.ftp_events.specs.CommandRows.{Around, command_row};
ghost use Rattle.ftp_events.specs.Slot.{waiting_port};
ghost use Rattle.ftp_handlers.specs.Rooms.{IsReady, actions_in, kept_in, twice_in};
ghost use Rattle.ftp_handlers.specs.Handlers.{ends_session, held_after, kept_by, number_of, places_for};

use crate::closed::say_goodbye;
use crate::room::Room;
use crate::{closed, quit};
use ftp_events::{Decision, EventKind, HubEvent, Session};
use ftp_options::Options;
use ftp_switchboard::Switchboard;

/// Hands the end of a live session to its handler: by its connection, by its wish, or since it was idle for too long.
pub fn ending(
    session: &mut Session,
    event: &HubEvent,
    board: &mut Switchboard,
    room: &mut Room,
    options: &Options,
) -> Decision
    requires of_this_event { IsTrue (ends_session event.now.kind) }
    requires room { IsReady room.old }
    requires places { places_for event.now.kind ≤ room.old.places }
    requires kept { kept_in room.old ≡ kept_by event.now.kind session.old }
    ensures ends { IsTrue (is_ending result) }
    ensures decision { (around : Around) → IsTrue (is_ending (command_row options.now around event.now.kind session.old)) → result ≡ command_row options.now around event.now.kind session.old }
    ensures actions { session.old.notices + 1 < 2 ^ 64 → (answer : Answer) (job : Option Running) → actions_in room.new ≡ session_acts options.now (number_of event.now.kind) event.now.kind answer result job (Some session.old) }
    ensures holders { (a p : ℕ) → holder_at board.new a p ≡ held_after result (number_of event.now.kind) (ipv4 session.old.opening.client) (waiting_port session.old.slot) a p (holder_at board.old a p) }
    ensures range { SameRange board.old board.new }
    ensures twice { twice_in room.new ≡ twice_in room.old }
{
    let args = &event.kind;
    match args {
        EventKind::Closed { .. } => closed::handle(session, args, board, room, options),
        EventKind::Quit { .. } => quit::handle(session, args, board, room, event.at, options),
        EventKind::IdleTick { session: number } => {
            say_goodbye(
                session,
                *number,
                board,
                room,
                b"Session timed out. Closing control connection",
            );
            Decision::TimedOut
        }
        _ => unreachable!(),
    }
}
