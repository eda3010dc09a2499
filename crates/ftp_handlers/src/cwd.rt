//! CWD (RFC 959, section 4.1.1).

ghost use Rattle.std.specs.Prelude.{◌≡◌, IsTrue, Option, Some};
ghost use Rattle.ftp_events.specs.declared.session.Running.{Running};
ghost use Rattle.ftp_events.specs.declared.event.Answer.{Answer};
ghost use Rattle.ftp_events.specs.CommandRows.{if_logged_in, cwd_row};
ghost use Rattle.ftp_events.specs.Session.{session_after};
ghost use Rattle.ftp_events.specs.Acts.{session_acts};
ghost use Rattle.ftp_handlers.specs.Rooms.{IsReady, actions_in, kept_in, twice_in};
ghost use Rattle.ftp_handlers.specs.Handlers.{is_cwd, goes_on, number_of, refusal_of, kept_by};

use crate::login::ask_for_login;
use crate::room::Room;
use ftp_base::ReplyCode;
use ftp_events::{Decision, EventKind, Login, Session, refusal, wording};
use ftp_options::Options;
use ftp_switchboard::Switchboard;

/// Changes the working directory, unless the storage refused it.
pub fn handle(
    session: &mut Session,
    args: &EventKind,
    board: &mut Switchboard,
    room: &mut Room,
    at: u64,
    options: &Options,
) -> Decision
    requires of_this_event { IsTrue (is_cwd args.now) }
    requires room { IsReady room.old }
    requires kept { kept_in room.old ≡ kept_by args.now session.old }
    ensures goes_on { IsTrue (goes_on result) }
    ensures decision { result ≡ if_logged_in session.old (cwd_row (refusal_of args.now)) }
    ensures session { (answer : Answer) (job : Option Running) → session.new ≡ session_after at args.now answer result 0 job session.old }
    ensures actions { (answer : Answer) (job : Option Running) → actions_in room.new ≡ session_acts options.now (number_of args.now) args.now answer result job (Some session.old) }
    ensures board { board.new ≡ board.old }
    ensures twice { twice_in room.new ≡ twice_in room.old }
{
    let EventKind::Cwd {
        session: number,
        refusal: refused,
        ..
    } = args
    else {
        unreachable!()
    };
    session.active_at = at;
    if !matches!(session.login, Login::LoggedIn) {
        return ask_for_login(*number, room);
    }
    match refused {
        None => {
            session.cwd = room.take_kept();
            room.reply(*number, ReplyCode::FileActionOkay, wording::CWD_CHANGED);
            Decision::CwdOk
        }
        Some(kind) => {
            let (code, text) = refusal(*kind);
            room.reply(*number, code, text);
            Decision::CwdRefused(*kind)
        }
    }
}
