//! The thread that accepts connections.

ghost use Rattle.std.specs.Prelude.{◌≡◌, ◌≤◌};

use crate::listening::{AcceptPoll, Door, ListeningSockets};
use crate::spawning::spawn_wanted;
use ftp_base::Spawner;
use ftp_shared::JournalHub;
use ftp_system::{Depot, ServerRuntime};
use ftp_workers::{DeskOf, Services, SharedServices, StateOf};
use mio::Token;
use mio::net::TcpStream;
use std::alloc::Global;
use std::collections::BTreeMap;
use std::net::SocketAddr;
use std::sync::Arc;
use std::time::Duration;
use std::{net, thread};

/// How many connections are accepted at one socket before the next socket is looked at.
const ROUND: u32 = 256;

/// How long a socket whose accept failed is left alone, in milliseconds.
const REST: u64 = 200;

/// How often ports of sessions that have waited too long are looked for, in milliseconds.
const LISTENERS: u64 = 1000;

/// How often failed logins that are too old are forgotten, in milliseconds.
const SWEEP: u64 = 10_000;

/// How often ports of sessions that have ended are looked for, in milliseconds.
const SCAVENGE: u64 = 60_000;

/// Accepts connections, and starts threads for them.
#[derive(Drop)]
pub(crate) struct Acceptor<R: ServerRuntime, H: JournalHub + Drop, S: Services> {
    rt: R,
    state: Arc<StateOf<H, S>, Global>,
    desk: DeskOf<R, H, S>,
    // All connections to the control port come from a proxy.
    is_behind_proxy: bool,
    // Sockets whose accept failed, by their tokens, and from when on they are looked at again.
    resting: BTreeMap<usize, u64>,
    // When ports that wait too long were looked for last, failed logins forgotten, and ports freed.
    closed: u64,
    swept: u64,
    scavenged: u64,
    // How many threads were wanted and are not started yet.
    owed: u64,
}

impl<R: ServerRuntime, H: JournalHub + Drop, S: Services> Acceptor<R, H, S> {
    /// No connection has come yet, at this moment in milliseconds.
    pub(crate) fn new(
        rt: R,
        alloc: Global,
        state: Arc<StateOf<H, S>, Global>,
        desk: DeskOf<R, H, S>,
        is_behind_proxy: bool,
        at: u64,
    ) -> Acceptor<R, H, S> {
        Acceptor {
            rt,
            state,
            desk,
            is_behind_proxy,
            resting: BTreeMap::new(alloc),
            closed: at,
            swept: at,
            scavenged: at,
            owed: 0,
        }
    }

    /// Waits for a connection or for a wish for one more thread, this many milliseconds at most.
    pub(crate) fn wait(&self, poll: &mut AcceptPoll, millis: u64) {
        if poll.wait(millis).is_err() {
            thread::sleep(&self.rt, Duration::from_millis(millis));
        }
    }

    /// Accepts the connections that the last wait reported.
    pub(crate) fn accept_ready(&mut self, poll: &AcceptPoll, sockets: &ListeningSockets, at: u64) {
        for event in poll.events().iter() {
            let token = event.token();
            match sockets.session_at(token) {
                Some(session) => self.desk.accept_for(at, session),
                None if self.resting.contains_key(&token.0) => {}
                None => self.accept_at(poll, sockets, token, at),
            }
        }
        self.look_again(poll, sockets, at);
    }

    // Accepts the connections of one socket. If there are too many, the rest waits for the next turn; a socket that fails is
    // left alone for a while.
    fn accept_at(&mut self, poll: &AcceptPoll, sockets: &ListeningSockets, token: Token, at: u64) {
        for _ in 0..ROUND {
            match sockets.next(token) {
                Ok(Some((door, stream, raw))) => self.dispatch(door, stream, raw, at),
                Ok(None) => return,
                Err(_) => {
                    if self
                        .resting
                        .insert(token.0, at.saturating_add(REST))
                        .is_ok()
                    {
                        return;
                    }
                    break;
                }
            }
        }
        sockets.tell_again(poll, token);
    }

    // From now on the sockets that failed a while ago are looked at again.
    fn look_again(&mut self, poll: &AcceptPoll, sockets: &ListeningSockets, at: u64) {
        for (token, until) in self.resting.iter() {
            if *until <= at {
                sockets.tell_again(poll, Token(*token));
            }
        }
        self.resting.retain(|_, until| at < *until);
    }

    // Has a connection served, or given to the session that it is for.
    fn dispatch(&mut self, door: Door, stream: TcpStream, raw: SocketAddr, at: u64) {
        match door {
            Door::Passive(port) => self.desk.receive(at, stream, raw, port),
            Door::Control => {
                let stream = net::TcpStream::from(stream);
                if self.is_behind_proxy {
                    self.state.queue_proxied(&self.rt, stream, raw);
                } else {
                    self.state.queue_control(&self.rt, stream, raw);
                }
            }
        }
    }

    /// Does what is due from time to time.
    pub(crate) fn run_timers(&mut self, at: u64) {
        if at.saturating_sub(self.closed) >= LISTENERS {
            self.closed = at;
            self.desk.close_listeners(at);
        }
        if at.saturating_sub(self.swept) >= SWEEP {
            self.swept = at;
            self.desk.sweep(at);
        }
        if at.saturating_sub(self.scavenged) >= SCAVENGE {
            self.scavenged = at;
            self.desk.scavenge(at);
        }
    }

    /// From now on each session ends once none of its transfers runs or waits for its data connection, and is told so.
    pub(crate) fn begin_stop(&self) {
        self.state.begin_stop(&self.rt);
    }

    /// Says whether no job runs, no session is live, and each was told all that it is told.
    pub(crate) fn is_left(&self) -> bool {
        self.is_drained() && self.state.is_left(&self.rt)
    }

    /// Ends all sessions, and says whether that was taken.
    pub(crate) fn stop(&mut self, at: u64) -> bool {
        self.desk.stop(at)
    }

    /// Says whether no job runs and no session is live.
    pub(crate) fn is_drained(&self) -> bool {
        self.state.drained(&self.rt)
    }

    /// From now on threads end once they have nothing to do.
    pub(crate) fn close(&self) {
        self.state.close(&self.rt);
    }
}

impl<R: ServerRuntime, H: JournalHub + Send + Sync + Drop + 'static, S: SharedServices> Acceptor<
    R,
    H,
    S,
>
where
    H::Pass: Send + 'static,
    <S::Depot as Depot>::Store: Send + 'static,
    <S::Depot as Depot>::Words: Send + 'static,
{
    /// Starts the threads that are wanted. One that is not started is asked for again later.
    pub(crate) fn spawn_wanted<P: Spawner>(&mut self, spawner: &mut P)
        ensures count { P.faults spawner.old ≤ P.faults spawner.new }
    {
        self.owed = spawn_wanted::<R, H, S, P>(&self.rt, &self.state, spawner, self.owed);
    }
}
