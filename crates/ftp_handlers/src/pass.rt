//! PASS (RFC 959, section 4.1.1).

ghost use Rattle.std.specs.Prelude.{◌≡◌, IsTrue, Option, Some};
ghost use Rattle.ftp_events.specs.declared.session.Running.{Running};
ghost use Rattle.ftp_events.specs.declared.event.Answer.{Answer};
ghost use Rattle.ftp_events.specs.LoginRows.{pass_row};
ghost use Rattle.ftp_events.specs.Session.{session_after};
ghost use Rattle.ftp_events.specs.Acts.{session_acts};
ghost use Rattle.ftp_handlers.specs.Rooms.{IsReady, actions_in, twice_in};
ghost use Rattle.ftp_handlers.specs.Handlers.{is_pass, goes_on, number_of};

use crate::room::Room;
use ftp_base::ReplyCode;
use ftp_events::{Decision, EventKind, Login, Session};
use ftp_options::Options;
use ftp_switchboard::Switchboard;

/// Lets the password be checked, where a name is given and none is being checked.
///
/// # Proved
///
/// - PASS, PASV, PORT, REST and CWD: the decision of the row, the session afterwards, the actions, and who holds which
///   port; the session goes on, if the event is of this word, the room is ready, keeps what the event needs, and for a
///   PASV or REST has room for a reply; where sessions share the ports, the board has the range, and for a PASV room
///   (`decision`, `session`, `actions`, `board`, `goes_on`; also `rest::handle`, `cwd::handle`; also `pasv::handle`,
///   `port::handle`: `decision`, `session`, `actions`, `holders`, `alone`, `range`, `goes_on`).
pub fn handle(
    session: &mut Session,
    args: &EventKind,
    board: &mut Switchboard,
    room: &mut Room,
    at: u64,
    options: &Options,
) -> Decision
    requires of_this_event { IsTrue (is_pass args.now) }
    requires room { IsReady room.old }
    ensures goes_on { IsTrue (goes_on result) }
    ensures decision { result ≡ pass_row session.old.login }
    ensures session { (answer : Answer) (job : Option Running) → session.new ≡ session_after at args.now answer result 0 job session.old }
    ensures actions { (answer : Answer) (job : Option Running) → actions_in room.new ≡ session_acts options.now (number_of args.now) args.now answer result job (Some session.old) }
    ensures board { board.new ≡ board.old }
    ensures twice { twice_in room.new ≡ twice_in room.old }
{
    let EventKind::Pass { session: number } = args else {
        unreachable!()
    };
    session.active_at = at;
    match session.login {
        Login::New => {
            room.reply(
                *number,
                ReplyCode::BadCommandSequence,
                b"Please supply a username first",
            );
            Decision::BadSequence
        }
        Login::Named => {
            session.login = Login::Checking;
            Decision::PassOut
        }
        Login::Checking => {
            room.reply(
                *number,
                ReplyCode::BadCommandSequence,
                b"A password is being checked",
            );
            Decision::BadSequence
        }
        Login::LoggedIn => {
            room.reply(
                *number,
                ReplyCode::NotLoggedIn,
                b"Please open a new connection to re-authenticate",
            );
            Decision::Reauth
        }
    }
}
