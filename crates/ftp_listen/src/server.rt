//! A server, from its options to its end.

ghost use Rattle.std.specs.Prelude.{◌≡◌, ◌≢◌, ◌↔◌, ◌⊎◌, None, Some, true, false, IfErr, IfOk, IsErrOf, IsSome, OnOk};
ghost use Rattle.ftp_base.specs.Outside.{HasRisen};
ghost use Rattle.ftp_options.specs.Modes.{is_legacy};
ghost use Rattle.ftp_listen.specs.Causes.{WritesNone, WritesV6, HasServed, IsPastGrace, is_of_listening, is_of_running};

mod settings;

use crate::parts::{BoxedServices, Parts, ServerParts};
use crate::place::{doors_at, listen_address};
use crate::running::{PARTS, run_server};
use crate::single::serve_one;
use ftp_base::{Gate, SocketAddr, Spawner, Storage};
use ftp_options::{Built, Indicator, Options, ServerError};
use ftp_shared::JournalFeed;
use ftp_system::{
    Depot, Front, OpenGate, ServerRuntime, SessionLimits, SharedDepot, SystemFront, SystemThreads,
};
use ftp_workers::SharedServices;
use std::alloc::{AllocError, Global};
use std::marker::Brand;
use std::net::TcpStream;
use std::sync::Arc;
use std::sync::ledger::Blank;

/// How many sessions there may be at a time where the server is told no other number, in all and of one client address.
pub const MOST_SESSIONS: u64 = 10_000;

pub const MOST_SESSIONS_OF_ONE: u64 = 500;

/// The limits of a server that is told no others.
fn usual_limits() -> SessionLimits {
    SessionLimits {
        all: MOST_SESSIONS,
        of_one: MOST_SESSIONS_OF_ONE,
    }
}

/// A server that does not listen yet.
#[derive(Drop)]
pub struct Server<S: Drop> {
    alloc: Global,
    options: Options,
    limits: SessionLimits,
    // Of how many entries at most its journal's tail is, where it has a checkpoint.
    every: Option<u64>,
    parts: Parts<S>,
    feed: Option<Arc<JournalFeed, Global>>,
    // The threads of sessions run small downloads.
    runs_small: bool,
    ghost some: { every ≢ Some 0 },
}

// A server with the usual limits.
fn fresh<S: Drop>(alloc: Global, options: Options, parts: Parts<S>) -> Server<S>
    ensures { result.options ≡ options }
{
    Server {
        alloc,
        options,
        limits: usual_limits(),
        every: None,
        parts,
        feed: None,
        runs_small: false,
    }
}

impl<S: Storage + Send + Drop + 'static> Server<S> {
    /// Handlers of SITE commands are not asked.
    ///
    /// # Proved
    ///
    /// - A server has the options that were built, or that it is given (also `PreboundListener::new`; also
    ///   `Server::with_options`, `PreboundListener::with_options`, `Server::over`).
    pub fn new(alloc: Global, built: Built, parts: Parts<S>) -> Server<S>
        ensures { result.options ≡ built.options }
    {
        let Built {
            options,
            handlers: _,
        } = built;
        Server {
            alloc,
            options,
            limits: usual_limits(),
            every: None,
            parts,
            feed: None,
            runs_small: false,
        }
    }

    /// A server without handlers of SITE commands.
    pub fn with_options(alloc: Global, options: Options, parts: Parts<S>) -> Server<S>
        ensures { result.options ≡ options }
    {
        fresh(alloc, options, parts)
    }

    /// Listens at an address such as `127.0.0.1:21` or `[::1]:21`, until the indicator asks for a shutdown and all
    /// transfers are over.
    ///
    /// # Proved
    ///
    /// - A text is refused exactly where it writes no address with a port (`WritesNone` in
    ///   `ftp_listen/specs/Causes.antt`), and an address of IP version 6 exactly where sessions share the ports
    ///   (`WritesV6`) (`address`, `ipv6`; also `Server::listen_with`, `Server::listen_over`,
    ///   `PreboundListener::listen_pooled`, `PreboundListener::listen_proxy_protocol`).
    pub fn listen<R: ServerRuntime>(self, rt: &R, bind_address: &[u8]) -> Result<(), ServerError>
        ensures address { IsErrOf result ServerError.Address ↔ WritesNone bind_address.now }
        ensures ipv6 { IsErrOf result ServerError.Ipv6OutsideLegacy ↔ (WritesV6 bind_address.now × (is_legacy self.options.mode ≡ false)) }
        ensures only { IfErr result (λ e. is_of_listening e ≡ true) }
    {
        let at = match listen_address(bind_address, self.options.mode) {
            Ok(at) => at,
            Err(error) => return Err(error),
        };
        match self.shared(*rt) {
            Ok(server) => server.listen_there(rt, at),
            Err(_) => Err(ServerError::OutOfMemory),
        }
    }

    /// Listens as `listen` does, with a gate before each transfer, and with a spawner, a front and an indicator of the
    /// caller's; that of the parts is not asked.
    ///
    /// In each turn the indicator is given the moment that the front gave last.
    ///
    /// # Proved
    ///
    /// - A server ends well only where its indicator has asked for a shutdown (`ok`).
    /// - A fault of sockets is answered only where the front's count rose, and one of threads only where the spawner's
    ///   did (`io`, `listener`).
    /// - A shutdown is given up only where the indicator has asked, and the front's latest moment is later than the
    ///   asking by more than the grace period, if the grace period: the indicator had not asked before the call
    ///   (`shutdown`, `has_asked`).
    pub fn listen_with<
        R: ServerRuntime,
        G: Gate + Send + Sync + Drop + 'static,
        P: Spawner,
        F: Front,
    >(
        self,
        rt: &R,
        bind_address: &[u8],
        gate: Arc<G, Global>,
        spawner: &mut P,
        front: &mut F,
        indicator: &mut Box<dyn Indicator + Drop>,
    ) -> Result<(), ServerError>
        ensures ok { OnOk result (IsSome (⟦<Box<dyn Indicator + Drop> as Indicator>⟧.asked indicator.new)) }
        ensures address { IsErrOf result ServerError.Address ↔ WritesNone bind_address.now }
        ensures ipv6 { IsErrOf result ServerError.Ipv6OutsideLegacy ↔ (WritesV6 bind_address.now × (is_legacy self.options.mode ≡ false)) }
        ensures io { IsErrOf result ServerError.Io → HasRisen (F.faults front.old) (F.faults front.new) }
        ensures listener { IsErrOf result ServerError.Listener → HasRisen (P.faults spawner.old) (P.faults spawner.new) }
        ensures shutdown { IsErrOf result ServerError.Shutdown → ⟦<Box<dyn Indicator + Drop> as Indicator>⟧.asked indicator.old ≡ None → IsPastGrace (⟦<Box<dyn Indicator + Drop> as Indicator>⟧.asked indicator.new) (F.latest front.new) }
        ensures has_asked { IsErrOf result ServerError.Shutdown → IsSome (⟦<Box<dyn Indicator + Drop> as Indicator>⟧.asked indicator.new) }
        ensures only { IfErr result (λ e. is_of_listening e ≡ true) }
    {
        let at = match listen_address(bind_address, self.options.mode) {
            Ok(at) => at,
            Err(error) => return Err(error),
        };
        let Ok(server) = self.shared(*rt) else {
            return Err(ServerError::OutOfMemory);
        };
        let Server {
            alloc,
            options,
            limits,
            every,
            parts,
            feed,
            runs_small: _,
        } = server;
        let (own, server_parts) = parts.open(gate, limits, feed, false);
        drop(own);
        listen_boxed(
            rt,
            alloc,
            options,
            every,
            server_parts,
            at,
            spawner,
            front,
            indicator,
        )
    }

    /// Serves one control connection to its end, in legacy mode whatever mode was built. The indicator is not asked.
    ///
    /// A fault of the connection is `Io`.
    pub fn service<R: ServerRuntime>(self, rt: &R, stream: TcpStream) -> Result<(), ServerError>
        ensures only { IfErr result (λ e. (e ≡ ServerError.Io) ⊎ (e ≡ ServerError.OutOfMemory)) }
    {
        let Ok(server) = self.shared(*rt) else {
            return Err(ServerError::OutOfMemory);
        };
        let Server {
            alloc,
            options,
            limits,
            every,
            parts,
            feed,
            runs_small,
        } = server;
        let Ok(gate) = Arc::new(alloc, OpenGate) else {
            return Err(ServerError::OutOfMemory);
        };
        let (own, server_parts) = parts.open(gate, limits, feed, runs_small);
        drop(own);
        serve_one(rt, alloc, options, every, server_parts, stream)
    }

    // The same server, over a depot of its storage.
    fn shared<R: ServerRuntime>(self, rt: R) -> Result<Server<SharedDepot<R, S>>, AllocError>
        ensures options { IfOk result (λ server. server.options ≡ self.options) }
        ensures limits { IfOk result (λ server. server.limits ≡ self.limits) }
        ensures every { IfOk result (λ server. server.every ≡ self.every) }
    {
        let Server {
            alloc,
            options,
            limits,
            every,
            parts,
            feed,
            runs_small,
        } = self;
        let parts = parts.shared(rt, alloc)?;
        Ok(Server {
            alloc,
            options,
            limits,
            every,
            parts,
            feed,
            runs_small,
        })
    }
}

impl<D: Depot + Send + Sync + Drop + 'static> Server<D>
where
    D::Store: Send + 'static,
    D::Words: Send + 'static,
{
    /// A server without handlers of SITE commands, over a depot: it takes a storage from there for each transfer, which is dropped
    /// with it.
    pub fn over(alloc: Global, options: Options, parts: Parts<D>) -> Server<D>
        ensures { result.options ≡ options }
    {
        fresh(alloc, options, parts)
    }

    /// Listens over its depot at an address, as `listen` does.
    pub fn listen_over<R: ServerRuntime>(
        self,
        rt: &R,
        bind_address: &[u8],
    ) -> Result<(), ServerError>
        ensures address { IsErrOf result ServerError.Address ↔ WritesNone bind_address.now }
        ensures ipv6 { IsErrOf result ServerError.Ipv6OutsideLegacy ↔ (WritesV6 bind_address.now × (is_legacy self.options.mode ≡ false)) }
        ensures only { IfErr result (λ e. is_of_listening e ≡ true) }
    {
        let at = match listen_address(bind_address, self.options.mode) {
            Ok(at) => at,
            Err(error) => return Err(error),
        };
        self.listen_there(rt, at)
    }

    // Listens at an address, with the indicator of its parts.
    fn listen_there<R: ServerRuntime>(self, rt: &R, at: SocketAddr) -> Result<(), ServerError>
        ensures only { IfErr result (λ e. is_of_running e ≡ true) }
    {
        let Server {
            alloc,
            options,
            limits,
            every,
            parts,
            feed,
            runs_small,
        } = self;
        let Ok(gate) = Arc::new(alloc, OpenGate) else {
            return Err(ServerError::OutOfMemory);
        };
        let (indicator, server_parts) = parts.open(gate, limits, feed, runs_small);
        let mut indicator = indicator;
        listen_at::<R, BoxedServices<D, OpenGate>, _, _, _>(
            rt,
            alloc,
            options,
            every,
            server_parts,
            at,
            &mut SystemThreads::new(),
            &mut SystemFront::new(*rt, alloc),
            &mut indicator,
        )
    }
}

// Listens at an address, with parts that boxes hold over a storage that transfers share.
fn listen_boxed<
    R: ServerRuntime,
    S: Storage + Send + Drop + 'static,
    G: Gate + Send + Sync + Drop + 'static,
    P: Spawner,
    F: Front,
    I: Indicator,
>(
    rt: &R,
    alloc: Global,
    options: Options,
    every: Option<u64>,
    server_parts: ServerParts<BoxedServices<SharedDepot<R, S>, G>>,
    at: SocketAddr,
    spawner: &mut P,
    front: &mut F,
    indicator: &mut I,
) -> Result<(), ServerError>
    requires some { every ≢ Some 0 }
    ensures io { IsErrOf result ServerError.Io → HasRisen (F.faults front.old) (F.faults front.new) }
    ensures run { HasServed result (I.asked indicator.old) (I.asked indicator.new) (F.latest front.new) (P.faults spawner.old) (P.faults spawner.new) }
    ensures only { IfErr result (λ e. is_of_running e ≡ true) }
{
    listen_at::<R, BoxedServices<SharedDepot<R, S>, G>, P, F, I>(
        rt,
        alloc,
        options,
        every,
        server_parts,
        at,
        spawner,
        front,
        indicator,
    )
}

// Listens at an address, until the indicator asks for a shutdown and all transfers are over.
fn listen_at<R: ServerRuntime, S: SharedServices, P: Spawner, F: Front, I: Indicator>(
    rt: &R,
    alloc: Global,
    options: Options,
    every: Option<u64>,
    server_parts: ServerParts<S>,
    at: SocketAddr,
    spawner: &mut P,
    front: &mut F,
    indicator: &mut I,
) -> Result<(), ServerError>
where
    <S::Depot as Depot>::Store: Send + 'static,
    <S::Depot as Depot>::Words: Send + 'static,
    requires some { every ≢ Some 0 }
    ensures io { IsErrOf result ServerError.Io → HasRisen (F.faults front.old) (F.faults front.new) }
    ensures run { HasServed result (I.asked indicator.old) (I.asked indicator.new) (F.latest front.new) (P.faults spawner.old) (P.faults spawner.new) }
    ensures only { IfErr result (λ e. is_of_running e ≡ true) }
{
    let doors = match doors_at(front, at, &options) {
        Ok(doors) => doors,
        Err(error) => return Err(error),
    };
    run_server::<Brand, R, S, P, F, I>(
        rt,
        alloc,
        options,
        every,
        Blank::new(PARTS),
        server_parts,
        doors,
        spawner,
        front,
        indicator,
    )
}
