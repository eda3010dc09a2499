//! USER (RFC 959, section 4.1.1).

ghost use Rattle.std.specs.Prelude.{◌≡◌, IsTrue, Option, Some};
ghost use Rattle.ftp_options.specs.declared.options.Options.{Options};
ghost use Rattle.ftp_events.specs.declared.session.Running.{Running};
ghost use Rattle.ftp_events.specs.declared.event.Answer.{Answer};
ghost use Rattle.ftp_events.specs.LoginRows.{user_row};
ghost use Rattle.ftp_events.specs.Session.{session_after};
ghost use Rattle.ftp_events.specs.Acts.{session_acts};
ghost use Rattle.ftp_handlers.specs.Rooms.{IsReady, actions_in, kept_in, twice_in};
ghost use Rattle.ftp_handlers.specs.Handlers.{is_user, goes_on, number_of, kept_by};

use crate::room::Room;
use ftp_base::ReplyCode;
use ftp_events::{Decision, EventKind, Login, Session};

/// Takes the name, unless a password is being checked or the user is logged in.
pub(crate) fn handle(session: &mut Session, args: &EventKind, room: &mut Room, at: u64) -> Decision
    requires of_this_event { IsTrue (is_user args.now) }
    requires room { IsReady room.old }
    requires kept { kept_in room.old ≡ kept_by args.now session.old }
    ensures goes_on { IsTrue (goes_on result) }
    ensures decision { result ≡ user_row session.old.login }
    ensures session { (answer : Answer) (job : Option Running) → session.new ≡ session_after at args.now answer result 0 job session.old }
    ensures actions { (o : Options) (answer : Answer) (job : Option Running) → actions_in room.new ≡ session_acts o (number_of args.now) args.now answer result job (Some session.old) }
    ensures twice { twice_in room.new ≡ twice_in room.old }
{
    let EventKind::User {
        session: number,
        ..
    } = args
    else {
        unreachable!()
    };
    session.active_at = at;
    match session.login {
        Login::New | Login::Named => {
            session.login = Login::Named;
            session.name = Some(room.take_kept());
            room.reply(*number, ReplyCode::NeedPassword, b"Password Required");
            Decision::NeedPass
        }
        Login::Checking => {
            room.reply(
                *number,
                ReplyCode::BadCommandSequence,
                b"A password is being checked",
            );
            Decision::BadSequence
        }
        Login::LoggedIn => {
            room.reply(*number, ReplyCode::BadCommandSequence, b"Already logged in");
            Decision::BadSequence
        }
    }
}
