//! A command before the login.

ghost use Rattle.std.specs.Prelude.{◌≡◌, [], ◌∷◌, codes};
ghost use Rattle.ftp_base.specs.declared.reply.Reply.TheVariants as reply;
ghost use Rattle.ftp_base.specs.declared.reply.ReplyCode.TheVariants as code;
ghost use Rattle.ftp_events.specs.declared.action.Action.TheVariants as action;
ghost use Rattle.ftp_events.specs.declared.decision.Decision.TheVariants.{NotLoggedIn};
ghost use Rattle.ftp_handlers.specs.Rooms.{IsReady, HasPlace, actions_in, twice_in};

use crate::room::Room;
use ftp_base::ReplyCode;
use ftp_events::Decision;

/// Asks for a login before the command.
pub(crate) fn ask_for_login(session: u64, room: &mut Room) -> Decision
    requires room { IsReady room.old }
    ensures decision { result ≡ NotLoggedIn }
    ensures actions { actions_in room.new ≡ action.Reply session 0 (reply.CodeAndMsg code.NotLoggedIn (codes "Please authenticate")) ∷ [] }
    ensures place { HasPlace room.new }
    ensures twice { twice_in room.new ≡ twice_in room.old }
{
    room.reply(session, ReplyCode::NotLoggedIn, b"Please authenticate");
    Decision::NotLoggedIn
}
