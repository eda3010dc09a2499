//! What a server is made with, beside its options.

use ftp_base::{Authenticator, DataListener, Gate, PresenceListener, Storage};
use ftp_options::Indicator;
use ftp_shared::JournalFeed;
use ftp_system::{Depot, SessionLimits, SharedDepot};
use ftp_workers::{EventSinks, Listeners, Services, SharedServices};
use std::alloc::{AllocError, Global};
use std::marker::PhantomData;
use std::sync::{Arc, Wait};

/// Who may log in, who is told, who asks for a shutdown, and the files.
#[derive(Drop)]
pub struct Parts<S: Drop> {
    pub authenticator: Box<dyn Authenticator + Send + Sync + Drop>,
    /// Is told of transfers.
    pub data_listener: Box<dyn DataListener + Send + Drop>,
    /// Is told who logs in and who leaves.
    pub presence_listener: Box<dyn PresenceListener + Send + Drop>,
    pub indicator: Box<dyn Indicator + Drop>,
    /// One storage for all sessions, behind a lock, or with `Server::over` a depot.
    pub storage: S,
}

/// What a server's threads share beside its hub.
#[derive(Drop)]
pub(crate) struct ServerParts<S: Services> {
    pub(crate) authenticator: S::Authenticator,
    pub(crate) sinks: S::Sinks,
    pub(crate) depot: S::Depot,
    pub(crate) gate: Arc<S::Gate, Global>,
    /// How many sessions there may be.
    pub(crate) limits: SessionLimits,
    /// Where the journal's entries go.
    pub(crate) feed: Option<Arc<JournalFeed, Global>>,
    /// The threads of sessions run small downloads.
    pub(crate) runs_small: bool,
}

/// Names services by a type for each. No value of it is made.
pub(crate) struct ServicesOf<A, N, D, G> {
    authenticator: PhantomData<A>,
    sinks: PhantomData<N>,
    depot: PhantomData<D>,
    gate: PhantomData<G>,
}

impl<
    A: Authenticator + Send + Sync + Drop + 'static,
    N: EventSinks + Send + Drop + 'static,
    D: Depot + Send + Sync + Drop + 'static,
    G: Gate + Send + Sync + Drop + 'static,
> SharedServices for ServicesOf<A, N, D, G> {
    type Authenticator = A;

    type Sinks = N;

    type Depot = D;

    type Gate = G;
}

/// Anybody whom boxes hold, beside a depot and a gate.
pub(crate) type BoxedServices<D, G> = ServicesOf<
    Box<dyn Authenticator + Send + Sync + Drop>,
    Listeners<Box<dyn DataListener + Send + Drop>, Box<dyn PresenceListener + Send + Drop>>,
    D,
    G,
>;

impl<S: Storage + Drop> Parts<S> {
    /// The same parts, with the storage behind a lock.
    pub(crate) fn shared<R: Wait + Copy + Drop>(
        self,
        rt: R,
        alloc: Global,
    ) -> Result<Parts<SharedDepot<R, S>>, AllocError> {
        let Parts {
            authenticator,
            data_listener,
            presence_listener,
            indicator,
            storage,
        } = self;
        let storage = SharedDepot::new(rt, alloc, storage)?;
        Ok(Parts {
            authenticator,
            data_listener,
            presence_listener,
            indicator,
            storage,
        })
    }
}

impl<D: Depot + Send + Sync + Drop + 'static> Parts<D> {
    /// Who asks for a shutdown, and all else, with a gate, the limits, a feed for the journal's entries where there is one, and
    /// whether the threads of sessions run small downloads.
    pub(crate) fn open<G: Gate + Send + Sync + Drop + 'static>(
        self,
        gate: Arc<G, Global>,
        limits: SessionLimits,
        feed: Option<Arc<JournalFeed, Global>>,
        runs_small: bool,
    ) -> (Box<dyn Indicator + Drop>, ServerParts<BoxedServices<D, G>>) {
        let Parts {
            authenticator,
            data_listener,
            presence_listener,
            indicator,
            storage,
        } = self;
        let sinks = Listeners {
            data: data_listener,
            presence: presence_listener,
        };
        let server_parts = ServerParts {
            authenticator,
            sinks,
            depot: storage,
            gate,
            limits,
            feed,
            runs_small,
        };
        (indicator, server_parts)
    }
}
