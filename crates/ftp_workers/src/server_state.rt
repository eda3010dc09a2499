//! What all threads share.

ghost use Rattle.std.specs.Prelude.{◌≡◌};
ghost use Rattle.ftp_options.specs.declared.options.Options.{Options};

use crate::event_sinks::EventSinks;
use crate::handoff::Handoff;
use crate::listening::AcceptorHandle;
use crate::services::Services;
use ftp_base::{Authenticator, Gate};
use ftp_options::Options;
use ftp_shared::{JournalFeed, JournalHub};
use ftp_system::{Depot, SessionCounts, SessionLimits};
use std::alloc::{AllocError, Global};
use std::sync::{Arc, Mutex};

/// The hub of a server, and all that its threads use beside it.
#[derive(Drop)]
pub struct ServerState<
    H: JournalHub + Drop,
    A: Authenticator + Drop,
    N: EventSinks + Drop,
    D: Depot + Drop,
    G: Gate + Drop,
> {
    pub(crate) alloc: Global,
    pub(crate) options: Options,
    pub(crate) hub: H,
    pub(crate) handoff: Arc<Handoff, Global>,
    pub(crate) authenticator: A,
    pub(crate) sinks: Mutex<N>,
    pub(crate) depot: D,
    pub(crate) limits: SessionLimits,
    pub(crate) counts: Mutex<SessionCounts>,
    pub(crate) gate: Arc<G, Global>,
    // The threads of sessions run small downloads themselves.
    pub(crate) runs_small: bool,
    ghost told: { options ≡ H.options },
}

/// What the threads of a server share that has these services.
pub type StateOf<H, S> = ServerState<
    H,
    <S as Services>::Authenticator,
    <S as Services>::Sinks,
    <S as Services>::Depot,
    <S as Services>::Gate,
>;

impl<
    H: JournalHub + Drop,
    A: Authenticator + Drop,
    N: EventSinks + Drop,
    D: Depot + Drop,
    G: Gate + Drop,
> ServerState<H, A, N, D, G> {
    /// A fresh hub, and what its threads will share; no thread serves it yet.
    ///
    /// The thread that accepts connections also starts threads: it is told where one more is wanted.
    /// Its error is that memory ran out.
    ///
    /// # Proved
    ///
    /// - The options that a desk tells are those of its hub, if the options are the server's (also `Desk::options`:
    ///   `told`).
    pub fn new(
        alloc: Global,
        options: Options,
        limits: SessionLimits,
        hub: H,
        authenticator: A,
        sinks: N,
        depot: D,
        gate: Arc<G, Global>,
        acceptor: AcceptorHandle,
    ) -> Result<ServerState<H, A, N, D, G>, AllocError>
        requires options { options ≡ H.options }
    {
        let Ok(handoff) = Arc::new(alloc, Handoff::new(alloc, acceptor)) else {
            drop(options);
            return Err(AllocError);
        };
        Ok(ServerState {
            alloc,
            options,
            hub,
            handoff,
            authenticator,
            sinks: Mutex::new(sinks),
            depot,
            limits,
            counts: Mutex::new(SessionCounts::new(alloc)),
            gate,
            runs_small: false,
        })
    }

    /// Has the threads of sessions run small downloads themselves. It is called before any thread serves, and only where the gate lets
    /// each transfer pass at once: a session does not hear its client meanwhile.
    pub fn run_small_downloads(&mut self) {
        self.runs_small = true;
    }

    /// Has each entry told to a feed too, once the hub is free. It is called before any thread serves.
    pub fn feed_to(&mut self, feed: Arc<JournalFeed, Global>) {
        self.hub.feed_to(feed);
    }
}
