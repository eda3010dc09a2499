//! What a server's threads use beside its hub.

use crate::event_sinks::EventSinks;
use ftp_base::{Authenticator, Gate};
use ftp_system::Depot;

/// The types of what a server's threads use beside its hub.
pub trait Services {
    /// Who may log in.
    type Authenticator: Authenticator + Drop + 'static;

    /// Who is told of entries.
    type Sinks: EventSinks + Drop + 'static;

    /// Where transfers take their storages from.
    type Depot: Depot + Drop + 'static;

    /// What each transfer has to pass.
    type Gate: Gate + Drop + 'static;
}

/// Services that any thread may use: a function that starts threads asks for these.
pub trait SharedServices: Send + 'static {
    /// Who may log in.
    type Authenticator: Authenticator + Send + Sync + Drop + 'static;

    /// Who is told of entries, by one thread at a time.
    type Sinks: EventSinks + Send + Drop + 'static;

    /// Where transfers take their storages from.
    type Depot: Depot + Send + Sync + Drop + 'static;

    /// What each transfer has to pass.
    type Gate: Gate + Send + Sync + Drop + 'static;
}

impl<S: SharedServices> Services for S {
    type Authenticator = S::Authenticator;

    type Sinks = S::Sinks;

    type Depot = S::Depot;

    type Gate = S::Gate;
}
