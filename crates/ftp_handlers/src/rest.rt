//! REST (RFC 3659, section 5).

ghost use Rattle.std.specs.Prelude.{◌≡◌, IsTrue, Option, Some};
ghost use Rattle.ftp_events.specs.declared.session.Running.{Running};
ghost use Rattle.ftp_events.specs.declared.event.Answer.{Answer};
ghost use Rattle.ftp_events.specs.CommandRows.{if_logged_in, rest_row};
ghost use Rattle.ftp_events.specs.Session.{session_after};
ghost use Rattle.ftp_events.specs.Acts.{session_acts};
ghost use Rattle.ftp_handlers.specs.Rooms.{IsReady, CanReply, actions_in, twice_in};
ghost use Rattle.ftp_handlers.specs.Handlers.{is_rest, goes_on, number_of};

use crate::login::ask_for_login;
use crate::room::Room;
use ftp_base::ReplyCode;
use ftp_events::{Decision, EventKind, Login, Session};
use ftp_options::Options;
use ftp_switchboard::Switchboard;

/// Keeps the offset for the next RETR or STOR, where the storage can begin at one.
pub fn handle(
    session: &mut Session,
    args: &EventKind,
    board: &mut Switchboard,
    room: &mut Room,
    at: u64,
    options: &Options,
) -> Decision
    requires of_this_event { IsTrue (is_rest args.now) }
    requires room { IsReady room.old }
    requires letters { CanReply 64 room.old }
    ensures goes_on { IsTrue (goes_on result) }
    ensures decision { result ≡ if_logged_in session.old (rest_row options.now) }
    ensures session { (answer : Answer) (job : Option Running) → session.new ≡ session_after at args.now answer result 0 job session.old }
    ensures actions { (answer : Answer) (job : Option Running) → actions_in room.new ≡ session_acts options.now (number_of args.now) args.now answer result job (Some session.old) }
    ensures board { board.new ≡ board.old }
    ensures twice { twice_in room.new ≡ twice_in room.old }
{
    let EventKind::Rest {
        session: number,
        offset,
    } = args
    else {
        unreachable!()
    };
    session.active_at = at;
    if !matches!(session.login, Login::LoggedIn) {
        return ask_for_login(*number, room);
    }
    if !options.has_restart() {
        room.reply(
            *number,
            ReplyCode::CommandNotImplemented,
            b"Not supported by the selected storage back-end.",
        );
        return Decision::NoRestart;
    }
    session.offset = *offset;
    room.restart(*number, *offset);
    Decision::RestOk
}
