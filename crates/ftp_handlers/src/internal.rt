//! What the control layer has for the client.

ghost use Rattle.std.specs.Prelude.{◌≡◌, ◌+◌, ◌<◌, ◌≤◌, ◌^◌, ◌++◌, is_some, IsTrue, Option, Some, if◌then◌else◌};
ghost use Rattle.std.specs.Option.{option_map};
ghost use Rattle.ftp_base.specs.declared.notice.Notice.TheVariants.{Data};
ghost use Rattle.ftp_options.specs.declared.options.Options.{Options};
ghost use Rattle.ftp_events.specs.declared.session.Running.{Running};
ghost use Rattle.ftp_events.specs.declared.event.Answer.{Answer};
ghost use Rattle.ftp_events.specs.CommandRows.{internal_row};
ghost use Rattle.ftp_events.specs.Session.{session_after};
ghost use Rattle.ftp_events.specs.Acts.{notifications, session_acts};
ghost use Rattle.ftp_handlers.specs.Rooms.{HasPlace, IsReady, actions_in, kept_in, len_in, telling_in, twice_in};
ghost use Rattle.ftp_handlers.specs.Handlers.{is_internal, goes_on, kept_by, message_of, notices_of, number_of, telling_for};

use crate::room::Room;
use crate::telling::Told;
use ftp_base::DataEvent;
use ftp_events::{Decision, EventKind, Session};

/// Tells the client a message that is the control layer's own, and listeners what it notifies.
pub(crate) fn handle(session: &mut Session, args: &EventKind, room: &mut Room, at: u64) -> Decision
    requires of_this_event { IsTrue (is_internal args.now) }
    requires room { IsReady room.old }
    requires kept { kept_in room.old ≡ kept_by args.now session.old }
    requires telling { telling_in room.old ≡ telling_for args.now }
    ensures goes_on { IsTrue (goes_on result) }
    ensures decision { result ≡ internal_row (message_of args.now) }
    ensures session { session.old.notices + 1 < 2 ^ 64 → (answer : Answer) (job : Option Running) → session.new ≡ session_after at args.now answer result (notices_of args.now result answer) job session.old }
    ensures actions { session.old.notices + 1 < 2 ^ 64 → (o : Options) (answer : Answer) (job : Option Running) → actions_in room.new ≡ session_acts o (number_of args.now) args.now answer result job (Some session.old) }
    ensures twice { twice_in room.new ≡ twice_in room.old }
{
    let EventKind::Internal {
        session: number,
        ..
    } = args
    else {
        unreachable!()
    };
    let Some((told, copy)) = room.take_telling() else {
        return Decision::NotExpected;
    };
    let Told { reply, notice } = told;
    let Told {
        reply: reply_copy,
        notice: notice_copy,
    } = copy;
    session.active_at = at;
    notify(session, *number, notice, notice_copy, room);
    room.answer(*number, reply, reply_copy);
    Decision::Told
}

// Tells listeners what a message notifies, where it does.
fn notify(
    session: &mut Session,
    number: u64,
    notice: Option<DataEvent>,
    copy: Option<DataEvent>,
    room: &mut Room,
)
    requires place { HasPlace room.old }
    requires equal { IsTrue (twice_in room.old) → copy ≡ notice }
    ensures session { session.old.notices + 1 < 2 ^ 64 → session.new ≡ record session.old { notices = session.old.notices + (if is_some notice then 1 else 0) } }
    ensures actions { session.old.notices + 1 < 2 ^ 64 → actions_in room.new ≡ actions_in room.old ++ notifications number session.old (kept_in room.old) (option_map Data notice) }
    ensures len { len_in room.new ≤ len_in room.old + 1 }
    ensures same { room.new ≡ record room.old { actions = room.new.actions; kept = room.new.kept } }
{
    let Some(what) = notice else {
        return;
    };
    session.notices = session.notices.saturating_add(1);
    room.notify_data(number, session.opening.trace, session.notices, what, copy);
}
