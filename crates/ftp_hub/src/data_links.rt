//! Data connections: each goes to the session that holds its port for its client, or whose own listener it came to.

ghost use Rattle.std.specs.Prelude.{◌≡◌, ◌<◌, ◌&&◌, ℕ, List, IsTrue, false, Some, nat_eq};
ghost use Rattle.std.specs.HashMap as map;
ghost use Rattle.ftp_base.specs.declared.net.SocketAddr.{SocketAddr};
ghost use Rattle.ftp_base.specs.Net.{same_ip};
ghost use Rattle.ftp_switchboard.specs.Used.{has};
ghost use Rattle.ftp_options.specs.declared.options.Options.{Options};
ghost use Rattle.ftp_events.specs.declared.entry.Entry.{Entry};
ghost use Rattle.ftp_events.specs.declared.event.Answer.{Answer};
ghost use Rattle.ftp_events.specs.declared.event.EventKind.TheVariants.{DataIn};
ghost use Rattle.ftp_events.specs.Modes.{in_range};
ghost use Rattle.ftp_events.specs.declared.decision.SlotMove.TheVariants.{Links};
ghost use Rattle.ftp_events.specs.Ages.{moved_at};
ghost use Rattle.ftp_events.specs.Session.{session_after};
ghost use Rattle.ftp_events.specs.Slot.{is_waiting, with_link};
ghost use Rattle.ftp_events.specs.Acts.{session_acts, starting};
ghost use Rattle.ftp_hub.specs.Arrivals.{IsDataLink, arrival_of, is_accepted};
ghost use Rattle.ftp_handlers.specs.Handlers.{Starts};
ghost use Rattle.ftp_handlers.specs.Rooms.{IsReady, actions_in, twice_in};
ghost use Rattle.ftp_hub.specs.Stands.{CanArrive, Stands, Serves, SameHead};

use crate::hub::Hub;
use crate::jobs::start;
use ftp_base::SocketAddr;
use ftp_events::{Answer, Decision, EventKind, HubEvent, Running, Session, Slot};
use ftp_handlers::Room;
use ftp_options::Options;
use ftp_switchboard::SwitchboardKey;
use std::collections::HashMap;
use std::mem;

/// A data connection: its number, its peer, and the client and the port that it comes for.
#[derive(Clone, Copy)]
pub(crate) struct Arrival {
    pub(crate) number: u64,
    pub(crate) raw: SocketAddr,
    pub(crate) source: u32,
    pub(crate) port: u16,
}

impl Hub {
    // Brings a data connection to the session that holds its port, or turns it away.
    pub(crate) fn bring(
        &mut self,
        room: &mut Room,
        event: &HubEvent,
        answer: Answer,
        arrival: Arrival,
    ) -> Decision
        requires of_this_event { IsDataLink self.old.options event.now answer arrival }
        requires unused { has self.old.numbers arrival.number ≡ false }
        requires going { self.old.stopped ≡ false }
        requires ready { CanArrive room.old self.old }
        ensures serves { (log : List Entry) → Stands self.old log → Serves self.old self.new log event.now answer result (actions_in room.new) }
        ensures head { SameHead self.old self.new }
        ensures twice { twice_in room.new ≡ twice_in room.old }
    {
        self.numbers.put(arrival.number);
        let key = SwitchboardKey {
            source: arrival.source,
            port: arrival.port,
        };
        let Some(holder) = self.board.unregister_by_key(&key) else {
            room.close(arrival.number);
            return Decision::Turned;
        };
        let in_range = in_range(&self.options, arrival.port);
        match self.sessions.get_mut(&holder) {
            None => {
                room.close(arrival.number);
                Decision::Turned
            }
            Some(session) => {
                let welcome = is_welcome(in_range, session, arrival.raw);
                let number = arrival.number;
                come(
                    number,
                    welcome,
                    event.at,
                    holder,
                    session,
                    &mut self.jobs,
                    room,
                )
            }
        }
    }

    // Brings a data connection to the session whose own listener it came to, or turns it away.
    pub(crate) fn accepted(&mut self, room: &mut Room, event: &HubEvent) -> Decision
        requires of_this_event { IsTrue (is_accepted event.now.kind) }
        requires ready { CanArrive room.old self.old }
        ensures serves { (log : List Entry) (answer : Answer) → Stands self.old log → Serves self.old self.new log event.now answer result (actions_in room.new) }
        ensures head { SameHead self.old self.new }
        ensures twice { twice_in room.new ≡ twice_in room.old }
    {
        let EventKind::Accepted {
            session: owner,
            number,
            raw,
        } = &event.kind
        else {
            unreachable!()
        };
        let Some(session) = self.sessions.get_mut(owner) else {
            return Decision::UnknownNumber;
        };
        if !self.options.mode.is_legacy() {
            return Decision::Misplaced;
        }
        if self.numbers.has(*number) {
            return Decision::UsedNumber;
        }
        self.numbers.put(*number);
        let welcome = is_welcome(is_waiting(session.slot), session, *raw);
        come(
            *number,
            welcome,
            event.at,
            *owner,
            session,
            &mut self.jobs,
            room,
        )
    }
}

// A port of the range.
fn in_range(options: &Options, port: u16) -> bool
    ensures { result ≡ in_range options.now port }
{
    options.lo <= port && port <= options.hi
}

// Says whether a connection of this peer is welcome to the session: it is awaited, and both came from one address.
fn is_welcome(awaited: bool, session: &Session, raw: SocketAddr) -> bool
    ensures { result ≡ (awaited && same_ip session.now.opening.raw.ip raw.ip) }
{
    awaited && session.opening.raw.ip.is_same(raw.ip)
}

// Says whether the slot waits for a connection.
fn is_waiting(slot: Slot) -> bool
    ensures { result ≡ is_waiting slot }
{
    matches!(slot, Slot::Waits { .. })
}

// The connection goes to the session where it is welcome there; or else it is closed, and a slot that waits is dropped.
// What is done and changed is the same whichever way it came.
fn come(
    number: u64,
    welcome: bool,
    at: u64,
    holder: u64,
    session: &mut Session,
    jobs: &mut HashMap<u64, Running>,
    room: &mut Room,
) -> Decision
    requires ready { IsReady room.old }
    requires spare { 0 < map.spare jobs.old }
    ensures decision { result ≡ arrival_of welcome holder }
    ensures session { (raw : SocketAddr) (port : ℕ) (answer : Answer) → session.new ≡ session_after at (DataIn number raw port) answer result 0 (map.get nat_eq jobs.old holder) session.old }
    ensures actions { (o : Options) (raw : SocketAddr) (port : ℕ) (answer : Answer) → actions_in room.new ≡ session_acts o holder (DataIn number raw port) answer result (map.get nat_eq jobs.old holder) (Some session.old) }
    ensures starts { (raw : SocketAddr) (port : ℕ) → Starts jobs.old jobs.new holder (starting (DataIn number raw port) result (map.get nat_eq jobs.old holder) session.old) }
    ensures twice { twice_in room.new ≡ twice_in room.old }
{
    if welcome {
        link(session, number, at);
        start(session, holder, jobs, room);
        return Decision::Attached { session: holder };
    }
    if is_waiting(session.slot) {
        room.cancel_and_tell(holder, mem::replace(&mut session.pending, None));
        session.slot = Slot::Empty;
        session.slot_at = 0;
    }
    room.close(number);
    Decision::Turned
}

// A link comes at a moment for a slot that waits.
fn link(session: &mut Session, number: u64, at: u64)
    ensures { session.new ≡ record session.old { slot = with_link session.old.slot (Some number); slot_at = moved_at Links at (Some number) session.old.slot session.old.slot_at } }
{
    if let Slot::Waits { port: _ } = session.slot {
        session.slot = Slot::Linked { number };
        session.slot_at = at;
    }
}
