//! Connections that come: control connections open sessions, data connections go to the session that
//! holds their port. Behind a proxy the header tells which it is.

ghost use Rattle.std.specs.Prelude.{◌≡◌, ◌<◌, List, ◌||◌, ◌&&◌, IsTrue, is_some, true, false, Ok};
ghost use Rattle.std.specs.HashMap as map;
ghost use Rattle.ftp_base.specs.Net.{is_v6};
ghost use Rattle.ftp_base.specs.Storage.{root};
ghost use Rattle.ftp_switchboard.specs.Used.{HasSpare, has};
ghost use Rattle.ftp_options.specs.Modes.{is_pooled, is_proxy};
ghost use Rattle.ftp_events.specs.declared.entry.Entry.{Entry};
ghost use Rattle.ftp_events.specs.declared.event.Answer.TheVariants.{Header};
ghost use Rattle.ftp_events.specs.Session.{new_session};
ghost use Rattle.ftp_hub.specs.Arrivals.{IsControlLink, IsLate, is_connect, is_data, is_proxied};
ghost use Rattle.ftp_handlers.specs.Rooms.{IsReady, actions_in, kept_in, twice_in};
ghost use Rattle.ftp_hub.specs.Stands.{CanArrive, Stands, Serves, SameHead, header_for, kept_for};

use crate::data_links::Arrival;
use crate::hub::Hub;
use crate::tables::put;
use ftp_base::{Bytes, IpAddr, SocketAddr};
use ftp_events::{Answer, Decision, EventKind, HubEvent, Login, Opening, Session, Slot};
use ftp_handlers::Room;
use ftp_proxy::ProxyHeader;

impl Hub {
    // Opens a session for a control connection, unless all connections come through a proxy.
    pub(crate) fn connect(&mut self, room: &mut Room, event: &HubEvent, answer: Answer) -> Decision
        requires of_this_event { IsTrue (is_connect event.now.kind) }
        requires ready { IsReady room.old }
        requires kept { kept_in room.old ≡ kept_for self.old event.now.kind }
        requires sessions { 0 < map.spare self.old.sessions }
        requires numbers { HasSpare self.old.numbers }
        ensures serves { (log : List Entry) → Stands self.old log → Serves self.old self.new log event.now answer result (actions_in room.new) }
        ensures head { SameHead self.old self.new }
        ensures twice { twice_in room.new ≡ twice_in room.old }
    {
        let EventKind::Connect {
            session,
            raw,
            local,
            trace,
        } = &event.kind
        else {
            unreachable!()
        };
        if self.is_misplaced(*raw, *local) {
            return Decision::Misplaced;
        }
        if self.numbers.has(*session) {
            return Decision::UsedNumber;
        }
        if self.stopped {
            return self.turn(room, event, answer, *session);
        }
        let opening = Opening {
            raw: *raw,
            local: *local,
            client: raw.ip,
            trace: *trace,
        };
        self.open(room, event, answer, *session, opening)
    }

    // Brings a data connection that comes to a pooled port.
    pub(crate) fn data_in(&mut self, room: &mut Room, event: &HubEvent, answer: Answer) -> Decision
        requires of_this_event { IsTrue (is_data event.now.kind) }
        requires ready { CanArrive room.old self.old }
        ensures serves { (log : List Entry) → Stands self.old log → Serves self.old self.new log event.now answer result (actions_in room.new) }
        ensures head { SameHead self.old self.new }
        ensures twice { twice_in room.new ≡ twice_in room.old }
    {
        let EventKind::DataIn { number, raw, port } = &event.kind else {
            unreachable!()
        };
        if !self.options.mode.is_pooled() {
            return Decision::Misplaced;
        }
        let IpAddr::V4(source) = raw.ip else {
            return Decision::Misplaced;
        };
        if self.numbers.has(*number) {
            return Decision::UsedNumber;
        }
        if self.stopped {
            return self.turn(room, event, answer, *number);
        }
        let arrival = Arrival {
            number: *number,
            raw: *raw,
            source,
            port: *port,
        };
        self.bring(room, event, answer, arrival)
    }

    // A connection behind a proxy is told by its header, and closed where that is none.
    pub(crate) fn proxied(&mut self, room: &mut Room, event: &HubEvent, answer: Answer) -> Decision
        requires of_this_event { IsTrue (is_proxied event.now.kind) }
        requires ready { CanArrive room.old self.old }
        requires kept { kept_in room.old ≡ kept_for self.old event.now.kind }
        requires sessions { 0 < map.spare self.old.sessions }
        ensures serves { (log : List Entry) → Stands self.old log → Serves self.old self.new log event.now answer result (actions_in room.new) }
        ensures head { SameHead self.old self.new }
        ensures twice { twice_in room.new ≡ twice_in room.old }
    {
        let EventKind::Proxied { number, raw, .. } = &event.kind else {
            unreachable!()
        };
        if !self.options.mode.is_proxy() || raw.ip.is_v6() {
            return Decision::Misplaced;
        }
        if self.numbers.has(*number) {
            return Decision::UsedNumber;
        }
        if self.stopped {
            return self.turn(room, event, answer, *number);
        }
        match answer {
            Answer::Header(Ok(line)) => self.pass_on(room, event, line),
            Answer::Header(Err(fault)) => {
                self.numbers.put(*number);
                room.close(*number);
                Decision::HeaderFault(fault)
            }
            Answer::None | Answer::Done(_) | Answer::Moved { .. } => Decision::NotExpected,
        }
    }

    // By its header a connection to the control port opens a session, and any other is a data connection.
    fn pass_on(&mut self, room: &mut Room, event: &HubEvent, line: ProxyHeader) -> Decision
        requires of_this_event { IsTrue (is_some (header_for self.old event.now.kind)) }
        requires ready { CanArrive room.old self.old }
        requires kept { kept_in room.old ≡ kept_for self.old event.now.kind }
        requires sessions { 0 < map.spare self.old.sessions }
        ensures serves { (log : List Entry) → Stands self.old log → Serves self.old self.new log event.now (Header (Ok line)) result (actions_in room.new) }
        ensures head { SameHead self.old self.new }
        ensures twice { twice_in room.new ≡ twice_in room.old }
    {
        let EventKind::Proxied { number, raw, trace } = &event.kind else {
            unreachable!()
        };
        let IpAddr::V4(source) = line.source.ip else {
            return Decision::NotExpected;
        };
        if line.destination.ip.is_v6() {
            return Decision::NotExpected;
        }
        let answer = Answer::Header(Ok(line));
        if self.options.mode.is_control_port(line.destination.port) {
            let opening = Opening {
                raw: *raw,
                local: line.destination,
                client: line.source.ip,
                trace: *trace,
            };
            return self.open(room, event, answer, *number, opening);
        }
        let arrival = Arrival {
            number: *number,
            raw: *raw,
            source,
            port: line.destination.port,
        };
        self.bring(room, event, answer, arrival)
    }

    // After a stop a connection is closed, whatever it comes for.
    fn turn(&mut self, room: &mut Room, event: &HubEvent, answer: Answer, number: u64) -> Decision
        requires of_this_event { IsLate self.old.options event.now answer number }
        requires unused { has self.old.numbers number ≡ false }
        requires stopped { self.old.stopped ≡ true }
        requires ready { IsReady room.old }
        requires numbers { HasSpare self.old.numbers }
        ensures serves { (log : List Entry) → Stands self.old log → Serves self.old self.new log event.now answer result (actions_in room.new) }
        ensures head { SameHead self.old self.new }
        ensures twice { twice_in room.new ≡ twice_in room.old }
    {
        self.numbers.put(number);
        room.close(number);
        Decision::Turned
    }

    // A control connection beside the proxy, or one of version 6 where sessions share the ports.
    fn is_misplaced(&self, raw: SocketAddr, local: SocketAddr) -> bool
        ensures { result ≡ (is_proxy self.now.options.mode || (is_pooled self.now.options.mode && (is_v6 raw.ip || is_v6 local.ip))) }
    {
        let mode = self.options.mode;
        mode.is_proxy() || (mode.is_pooled() && (raw.ip.is_v6() || local.ip.is_v6()))
    }

    // Opens a session under a number that was not used.
    fn open(
        &mut self,
        room: &mut Room,
        event: &HubEvent,
        answer: Answer,
        number: u64,
        opening: Opening,
    ) -> Decision
        requires of_this_event { IsControlLink self.old.options event.now answer number opening }
        requires unused { has self.old.numbers number ≡ false }
        requires going { self.old.stopped ≡ false }
        requires ready { IsReady room.old }
        requires kept { kept_in room.old ≡ root }
        requires sessions { 0 < map.spare self.old.sessions }
        requires numbers { HasSpare self.old.numbers }
        ensures serves { (log : List Entry) → Stands self.old log → Serves self.old self.new log event.now answer result (actions_in room.new) }
        ensures head { SameHead self.old self.new }
        ensures twice { twice_in room.new ≡ twice_in room.old }
    {
        self.numbers.put(number);
        put(
            &mut self.sessions,
            number,
            new_session(event.at, opening, room.take_kept()),
        );
        Decision::Opened
    }
}

// A session to which nothing has happened since its opening at this moment.
fn new_session(at: u64, opening: Opening, cwd: Bytes) -> Session
    requires { cwd ≡ root }
    ensures { result ≡ new_session at opening }
{
    Session {
        opening,
        login: Login::New,
        name: None,
        cwd,
        offset: 0,
        slot: Slot::Empty,
        slot_at: 0,
        active_at: at,
        pending: None,
        tickets: 0,
        notices: 0,
    }
}
