//! QUIT (RFC 959, section 4.1.1).

ghost use Rattle.std.specs.Prelude.{◌≡◌, ◌+◌, ◌<◌, ◌^◌, ℕ, IsTrue, Option, Some};
ghost use Rattle.ftp_base.specs.Net.{ipv4};
ghost use Rattle.ftp_switchboard.specs.Board.{SameRange, holder_at};
ghost use Rattle.ftp_events.specs.declared.session.Running.{Running};
ghost use Rattle.ftp_events.specs.declared.event.Answer.{Answer};
ghost use Rattle.ftp_events.specs.declared.decision.Decision.TheVariants.{Quit};
ghost use Rattle.ftp_events.specs.Slot.{waiting_port};
ghost use Rattle.ftp_events.specs.Acts.{session_acts};
ghost use Rattle.ftp_handlers.specs.Rooms.{HasPlaces, IsReady, actions_in, kept_in, twice_in};
ghost use Rattle.ftp_handlers.specs.Handlers.{is_quit, number_of, kept_by, held_after};

use crate::closed::say_goodbye;
use crate::room::Room;
use ftp_events::{Decision, EventKind, Session};
use ftp_options::Options;
use ftp_switchboard::Switchboard;

/// Lets go of all that the session has, and says goodbye before its own connection is closed.
///
/// # Proved
///
/// - QUIT and the end of a control connection: the decision of the row, the actions, and who holds which port
///   afterwards, if the event is of this word, the room is ready, for QUIT with a place more; for `actions` the count of
///   notices is not at its end (`decision`, `actions`, `holders`, `range`; also `closed::handle`; also `ending`: `ends`,
///   `decision`, `actions`, `holders`, `range`).
pub fn handle(
    session: &mut Session,
    args: &EventKind,
    board: &mut Switchboard,
    room: &mut Room,
    at: u64,
    options: &Options,
) -> Decision
    requires of_this_event { IsTrue (is_quit args.now) }
    requires room { IsReady room.old }
    requires places { HasPlaces 5 room.old }
    requires kept { kept_in room.old ≡ kept_by args.now session.old }
    ensures decision { result ≡ Quit }
    ensures actions { session.old.notices + 1 < 2 ^ 64 → (answer : Answer) (job : Option Running) → actions_in room.new ≡ session_acts options.now (number_of args.now) args.now answer result job (Some session.old) }
    ensures holders { (a p : ℕ) → holder_at board.new a p ≡ held_after result (number_of args.now) (ipv4 session.old.opening.client) (waiting_port session.old.slot) a p (holder_at board.old a p) }
    ensures range { SameRange board.old board.new }
    ensures twice { twice_in room.new ≡ twice_in room.old }
{
    let EventKind::Quit { session: number } = args else {
        unreachable!()
    };
    say_goodbye(session, *number, board, room, b"Bye!");
    Decision::Quit
}
