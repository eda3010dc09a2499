//! Ports that were bound for one session each.

ghost use Rattle.std.specs.Prelude.{◌≡◌, ◌≤◌, ◌+◌, false};
ghost use Rattle.ftp_workers.specs.Listening.{ends_wait, may_end_wait};
ghost use Rattle.ftp_shared.specs.Outbox.{has_ticket};

use crate::desk::ServerDesk;
use crate::event_sinks::EventSinks;
use crate::handoff::{Handoff, PendingConnection};
use ftp_base::{Authenticator, Gate};
use ftp_events::{Answer, Decision, Entry, EventKind, HubEvent, SlotMove};
use ftp_shared::JournalHub;
use ftp_system::{Depot, told_address};
use mio::net::{TcpListener, TcpStream};
use mio::{Interest, Registry, Token, Waker};
use std::alloc::Global;
use std::io::ErrorKind;
use std::net::SocketAddr;
use std::sync::{Arc, Wait};

/// How long a port waits for its connection, in milliseconds.
const LONGEST: u64 = 16_000;

/// What reaches the thread that accepts connections.
#[derive(Drop)]
pub struct AcceptorHandle {
    /// Ends its wait.
    pub waker: Arc<Waker, Global>,
    /// What it waits for.
    pub registry: Registry,
    /// The first token of a session's port.
    pub first: usize,
}

/// The port of a session that waits for its connection.
#[derive(Drop)]
pub(crate) enum Listening {
    /// It was granted at this moment in milliseconds.
    Open {
        listener: TcpListener,
        port: u16,
        since: u64,
    },
    /// It is closed, and this connection had come before.
    Closed(TcpStream, SocketAddr),
}

impl Listening {
    // Says whether it waits on at this moment in milliseconds.
    fn waits_at(&self, at: u64) -> bool {
        match self {
            Listening::Open { since, .. } => at.saturating_sub(*since) < LONGEST,
            Listening::Closed(..) => true,
        }
    }
}

// Says whether a session's port waits no longer behind the decision.
fn ends_wait(decision: Decision) -> bool
    ensures { result ≡ ends_wait decision }
{
    matches!(
        decision.slot_move(),
        SlotMove::Empties | SlotMove::Connects | SlotMove::Expires
    )
}

// Says whether the event may end its session's wait for a connection.
fn may_end_wait(kind: &EventKind) -> bool
    ensures { result ≡ may_end_wait kind.now }
{
    matches!(
        kind,
        EventKind::Pasv { .. }
            | EventKind::Port { .. }
            | EventKind::Abor { .. }
            | EventKind::Quit { .. }
            | EventKind::Closed { .. }
            | EventKind::SlotTick { .. }
            | EventKind::IdleTick { .. }
    )
}

impl Handoff {
    /// Waits at the port that was bound for a session, where the entry grants it, and at no other port of that session; else the
    /// port is closed. Where the entry ends a wait, the port that waits is closed.
    pub(crate) fn open_port<R: Wait>(&self, rt: &R, session: u64, entry: &Entry) {
        if let EventKind::Pasv { bound, .. } = &entry.event.kind {
            let is_granted = matches!(entry.decision, Decision::Granted { .. });
            if let (Some((port, listener)), true) = (self.take_bound(rt, session), is_granted) {
                if *bound == Some(port) {
                    self.listen(rt, session, (port, listener), entry.event.at);
                }
            }
        } else if ends_wait(entry.decision) {
            self.stop_listening(rt, session);
        }
    }

    // From now on the session has this port alone, from this moment in milliseconds. Where it cannot be waited for, it is closed.
    fn listen<R: Wait>(&self, rt: &R, session: u64, bound: (u16, TcpListener), since: u64) {
        let (port, mut listener) = bound;
        let token = Token(self.acceptor.first.wrapping_add(session as usize));
        // Whoever comes at once is looked for once the port stands in the table.
        let mut listeners = self.listeners.lock(rt);
        drop(listeners.swap_remove(&session));
        let registered = self
            .acceptor
            .registry
            .register(&mut listener, token, Interest::READABLE);
        if registered.is_ok() {
            let waiting = Listening::Open {
                listener,
                port,
                since,
            };
            drop(listeners.insert(session, waiting));
        }
    }

    /// Closes the port of a session that waits, and gives it. The connection that has come there is kept.
    pub(crate) fn free_port<R: Wait>(&self, rt: &R, session: u64) -> Option<u16> {
        let mut listeners = self.listeners.lock(rt);
        let (port, accepted) = match listeners.get(&session)? {
            Listening::Open { listener, port, .. } => (*port, listener.accept()),
            Listening::Closed(..) => return None,
        };
        drop(listeners.swap_remove(&session));
        if let Ok((stream, raw)) = accepted {
            drop(listeners.insert(session, Listening::Closed(stream, raw)));
        }
        Some(port)
    }

    /// Closes the port of a session that waits.
    pub(crate) fn stop_listening<R: Wait>(&self, rt: &R, session: u64) {
        drop(self.listeners.lock(rt).swap_remove(&session));
    }

    /// Closes all ports that wait.
    pub(crate) fn stop_all_listening<R: Wait>(&self, rt: &R) {
        self.listeners.lock(rt).clear();
    }

    /// Closes the ports that have waited too long.
    pub(crate) fn stop_listening_at<R: Wait>(&self, rt: &R, at: u64) {
        let mut listeners = self.listeners.lock(rt);
        listeners.retain(|_, waiting| waiting.waits_at(at));
    }

    /// The connection that came to the port of a session, which is closed then.
    fn accept<R: Wait>(&self, rt: &R, session: u64) -> Option<(TcpStream, SocketAddr)> {
        let mut listeners = self.listeners.lock(rt);
        if let Listening::Open { listener, .. } = listeners.get(&session)? {
            let accepted = listener.accept();
            if matches!(&accepted, Err(e) if e.kind() == ErrorKind::WouldBlock) {
                return None;
            }
            drop(listeners.swap_remove(&session));
            return accepted.ok();
        }
        match listeners.swap_remove(&session) {
            Some(Listening::Closed(stream, raw)) => Some((stream, raw)),
            _ => None,
        }
    }
}

impl<
    R: Wait + Drop,
    H: JournalHub + Drop,
    A: Authenticator + Drop,
    N: EventSinks + Drop,
    D: Depot + Drop,
    G: Gate + Drop,
> ServerDesk<R, H, A, N, D, G> {
    /// Takes in the connection that came to the port of a session, at this moment in milliseconds. The port is closed then.
    pub fn accept_for(&mut self, at: u64, session: u64)
        ensures share { H.made self.old.pass ≤ H.made self.new.pass }
        ensures once { H.made self.new.pass ≤ H.made self.old.pass + 1 }
        ensures faults { self.new.faults ≡ self.old.faults }
        ensures refused { self.new.refused ≡ self.old.refused }
    {
        let Some((stream, raw)) = self.state.handoff.accept(&self.rt, session) else {
            return;
        };
        let number = self.state.hub.draw();
        let event = HubEvent {
            at,
            kind: EventKind::Accepted {
                session,
                number,
                raw: told_address(raw),
            },
        };
        let link = PendingConnection::unread(self.state.alloc, stream);
        self.submit_connection(number, link, event, Answer::None);
    }

    /// Takes in the connection that has come to the port of a session, where the event may close the port: who has
    /// connected is not to be reset.
    #[inline(never)]
    pub(crate) fn accept_before(&mut self, event: &HubEvent)
        ensures share { H.made self.old.pass ≤ H.made self.new.pass }
        ensures once { H.made self.new.pass ≤ H.made self.old.pass + 1 }
        ensures none { may_end_wait event.now.kind ≡ false → H.made self.new.pass ≡ H.made self.old.pass }
        ensures faults { self.new.faults ≡ self.old.faults }
        ensures refused { self.new.refused ≡ self.old.refused }
    {
        if !self.state.options.mode.is_legacy() || !may_end_wait(&event.kind) {
            return;
        }
        if let Some(session) = event.kind.named_session() {
            self.accept_for(event.at, session);
        }
    }

    /// Closes the ports of sessions that have waited too long at this moment in milliseconds.
    pub fn close_listeners(&self, at: u64) {
        self.state.handoff.stop_listening_at(&self.rt, at);
    }
}
