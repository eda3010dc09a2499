//! How long the slot of a session may stand.

ghost use Rattle.std.specs.Prelude.{◌≡◌, IsTrue, Option, Some};
ghost use Rattle.ftp_events.specs.declared.session.Running.{Running};
ghost use Rattle.ftp_events.specs.declared.event.Answer.{Answer};
ghost use Rattle.ftp_events.specs.declared.event.EventKind.TheVariants.{SlotTick};
ghost use Rattle.ftp_events.specs.CommandRows.{slot_limit, slot_row};
ghost use Rattle.ftp_events.specs.Session.{session_after};
ghost use Rattle.ftp_events.specs.Acts.{session_acts};
ghost use Rattle.ftp_handlers.specs.Rooms.{IsReady, actions_in, twice_in};
ghost use Rattle.ftp_handlers.specs.Handlers.{goes_on};

use crate::room::Room;
use ftp_events::{Decision, Session, Slot};
use ftp_options::Options;
use std::mem;

/// How long a link may stand for which no transfer waits, in milliseconds.
const LINK_LIMIT: u64 = 300_000;

/// How long a port may stand that was bound for a session alone, in milliseconds.
const PORT_LIMIT: u64 = 15_000;

/// Drops what the slot has, where it has stood for too long.
pub(crate) fn handle(
    session: &mut Session,
    number: u64,
    room: &mut Room,
    at: u64,
    options: &Options,
) -> Decision
    requires room { IsReady room.old }
    ensures goes_on { IsTrue (goes_on result) }
    ensures decision { result ≡ slot_row options.now at session.old }
    ensures session { (answer : Answer) (job : Option Running) → session.new ≡ session_after at (SlotTick number) answer result 0 job session.old }
    ensures actions { (answer : Answer) (job : Option Running) → actions_in room.new ≡ session_acts options.now number (SlotTick number) answer result job (Some session.old) }
    ensures twice { twice_in room.new ≡ twice_in room.old }
{
    let Some(limit) = limit(session, options) else {
        return Decision::Early;
    };
    if at.saturating_sub(session.slot_at) < limit {
        return Decision::Early;
    }
    room.cancel_and_tell(number, mem::replace(&mut session.pending, None));
    room.close_link(session.slot);
    session.slot = Slot::Empty;
    session.slot_at = 0;
    Decision::SlotDropped
}

// How long the slot may stand, in milliseconds.
fn limit(session: &Session, options: &Options) -> Option<u64>
    ensures { result ≡ slot_limit options.now session.now.slot session.now.pending }
{
    match session.slot {
        Slot::Linked { .. } if session.pending.is_none() => Some(LINK_LIMIT),
        Slot::Waits { .. } if options.mode.is_legacy() => Some(PORT_LIMIT),
        Slot::Empty | Slot::Waits { .. } | Slot::Linked { .. } => None,
    }
}
