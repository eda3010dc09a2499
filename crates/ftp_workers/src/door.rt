//! What the acceptor's thread submits.

ghost use Rattle.std.specs.Prelude.{◌≡◌, ◌+◌, ◌≤◌, true, false, IfSome};
ghost use Rattle.ftp_shared.specs.Outbox.{has_ticket};

use crate::desk::ServerDesk;
use crate::event_sinks::EventSinks;
use crate::handoff::PendingConnection;
use crate::server_state::ServerState;
use crate::task::Task;
use ftp_base::{Authenticator, Gate};
use ftp_events::{Answer, EventKind, HubEvent};
use ftp_shared::JournalHub;
use ftp_system::{Depot, told_address};
use std::net::{SocketAddr, TcpStream};
use std::sync::Wait;

impl<
    H: JournalHub + Drop,
    A: Authenticator + Drop,
    N: EventSinks + Drop,
    D: Depot + Drop,
    G: Gate + Drop,
> ServerState<H, A, N, D, G> {
    /// Has a control connection served by a thread. Where there is no room for it, it is closed, and told so where it is one
    /// too many.
    pub fn queue_control<R: Wait>(&self, rt: &R, stream: TcpStream, raw: SocketAddr) {
        let mut stream = stream;
        if self.enter(rt, raw.ip(), &mut stream)
            && !self.handoff.put(rt, Task::Control(stream, raw))
        {
            self.exit(rt, raw.ip());
        }
    }

    /// Has the header of a connection read that a proxy passed on. Where there is no room for it, it is closed.
    pub fn queue_proxied<R: Wait>(&self, rt: &R, stream: TcpStream, raw: SocketAddr) {
        let _ = self.handoff.put(rt, Task::Proxied(stream, raw));
    }

    /// How many more threads are wanted than were when this was asked last.
    pub fn wanted(&self) -> u64 {
        self.handoff.wanted()
    }

    /// A pass for one more thread, with which no entry was made, unless none is left.
    ///
    /// # Proved
    ///
    /// - With a pass for one more thread no entry was made.
    pub fn share<R: Wait>(&self, rt: &R) -> Option<H::Pass>
        ensures { IfSome result (λ pass. H.made pass ≡ 0) }
    {
        self.hub.share(rt)
    }

    /// Takes a pass back.
    pub fn take_back<R: Wait>(&self, rt: &R, pass: H::Pass) {
        self.hub.take_back(rt, pass);
    }

    /// Says whether no job runs and no session is live.
    pub fn drained<R: Wait>(&self, rt: &R) -> bool {
        self.hub.drained(rt)
    }

    /// Says whether the loops of all sessions have ended.
    pub fn is_left<R: Wait>(&self, rt: &R) -> bool {
        self.handoff.is_left(rt)
    }

    /// From now on each session ends once none of its transfers runs or waits for its data connection, and is told 421; who comes
    /// later is told so at once.
    pub fn begin_stop<R: Wait>(&self, rt: &R) {
        self.handoff.begin_stop(rt);
    }

    /// From now on no task comes, and threads end once none is left. The feed of the journal ends with the entries that are
    /// there.
    pub fn close<R: Wait>(&self, rt: &R) {
        self.handoff.close(rt);
        self.hub.end_feed(rt);
    }
}

impl<
    R: Wait + Drop,
    H: JournalHub + Drop,
    A: Authenticator + Drop,
    N: EventSinks + Drop,
    D: Depot + Drop,
    G: Gate + Drop,
> ServerDesk<R, H, A, N, D, G> {
    /// Takes in a data connection that came to a passive port, at this moment in milliseconds. It is closed where no
    /// session takes it.
    pub fn receive(&mut self, at: u64, stream: mio::net::TcpStream, raw: SocketAddr, port: u16)
        ensures share { H.made self.old.pass ≤ H.made self.new.pass }
    {
        let number = self.state.hub.draw();
        let event = HubEvent {
            at,
            kind: EventKind::DataIn {
                number,
                raw: told_address(raw),
                port,
            },
        };
        let link = PendingConnection::unread(self.state.alloc, stream);
        self.submit_connection(number, link, event, Answer::None);
    }

    // Puts a data connection where its job finds it, and has its event decided then.
    pub(crate) fn submit_connection(
        &mut self,
        number: u64,
        link: PendingConnection,
        event: HubEvent,
        answer: Answer,
    )
        requires unticketed { has_ticket event.kind ≡ false }
        ensures share { H.made self.old.pass ≤ H.made self.new.pass }
        ensures once { H.made self.new.pass ≤ H.made self.old.pass + 1 }
        ensures faults { self.new.faults ≡ self.old.faults }
        ensures refused { self.new.refused ≡ self.old.refused }
    {
        // A job may start at once, in another thread: the link has to be in its place before.
        if !self.state.handoff.keep_link(&self.rt, number, link) {
            drop(event);
            drop(answer);
        } else if self.submit_event(event, answer).is_err() {
            drop(self.state.handoff.take_link(&self.rt, number));
        }
    }

    /// Has failed logins forgotten that are too old.
    pub fn sweep(&mut self, at: u64)
        ensures share { H.made self.old.pass ≤ H.made self.new.pass }
    {
        let _ = self.submit_timer(at, EventKind::Sweep);
    }

    /// Has ports freed that are held for sessions which have ended.
    pub fn scavenge(&mut self, at: u64)
        ensures share { H.made self.old.pass ≤ H.made self.new.pass }
    {
        let _ = self.submit_timer(at, EventKind::Scavenge);
    }

    /// Ends all sessions and their control connections, and says whether that was taken. No other is opened.
    ///
    /// # Proved
    ///
    /// - A shutdown makes exactly one entry, or says that it was not taken; what else the thread at the doors submits
    ///   lowers no count (`told`, `same_share`; also `ServerDesk::receive`, `ServerDesk::sweep` and
    ///   `ServerDesk::scavenge`: `share`).
    pub fn stop(&mut self, at: u64) -> bool
        ensures told { result ≡ true → H.counts ≡ true → H.made self.new.pass ≡ H.made self.old.pass + 1 }
        ensures same_share { result ≡ false → H.made self.new.pass ≡ H.made self.old.pass }
    {
        let is_told = self.submit_timer(at, EventKind::Shutdown);
        self.state.handoff.shut_down(&self.rt);
        is_told
    }

    // Has an event decided that nobody waits for.
    fn submit_timer(&mut self, at: u64, kind: EventKind) -> bool
        requires unticketed { has_ticket kind ≡ false }
        ensures told { result ≡ true → H.counts ≡ true → H.made self.new.pass ≡ H.made self.old.pass + 1 }
        ensures same_share { result ≡ false → H.made self.new.pass ≡ H.made self.old.pass }
        ensures kept_share { H.made self.old.pass ≤ H.made self.new.pass }
    {
        self.submit_event(HubEvent { at, kind }, Answer::None)
            .is_ok()
    }
}
