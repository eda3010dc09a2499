//! The end of a session with all others.

ghost use Rattle.std.specs.Prelude.{◌≡◌, ◌+◌, ◌<◌, ◌≤◌, ◌^◌, ◌++◌, Option, Some};
ghost use Rattle.ftp_options.specs.declared.options.Options.{Options};
ghost use Rattle.ftp_events.specs.declared.session.Running.{Running};
ghost use Rattle.ftp_events.specs.declared.event.Answer.{Answer};
ghost use Rattle.ftp_events.specs.declared.event.EventKind.TheVariants.{Shutdown};
ghost use Rattle.ftp_events.specs.declared.decision.Decision.TheVariants.{Stopped};
ghost use Rattle.ftp_events.specs.Login.{logged_user};
ghost use Rattle.ftp_events.specs.Acts.{session_acts};
ghost use Rattle.ftp_handlers.specs.Rooms.{HasPlaces, actions_in, kept_in, len_in};

use crate::closed::depart;
use crate::room::Room;
use ftp_events::Session;

/// Lets go of all that a session has, and closes its own connection. Its client is not told; the board is left to the
/// caller.
pub fn stop(session: Session, number: u64, room: &mut Room)
    requires places { HasPlaces 4 room.old }
    requires kept { kept_in room.old ≡ logged_user session.login session.name }
    ensures actions { session.notices + 1 < 2 ^ 64 → (o : Options) (answer : Answer) (job : Option Running) → actions_in room.new ≡ actions_in room.old ++ session_acts o number Shutdown answer Stopped job (Some session) }
    ensures len { len_in room.new ≤ len_in room.old + 4 }
    ensures same { room.new ≡ record room.old { actions = room.new.actions; kept = room.new.kept } }
{
    let mut session = session;
    depart(&mut session, number, room);
    room.close(number);
}
