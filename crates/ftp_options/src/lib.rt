//! What a server is built with.
//!
//! `ServerBuilder::build` gives options that are lawful, or the first reason why there are none.
//! Begin with `ServerBuilder`.
#![tactic(auto)]

mod builder;
mod error;
mod escape;
mod ftps;
mod host;
mod lockout;
mod options;
mod shutdown;
mod site;

pub use builder::{Built, ServerBuilder};
pub use error::{ConfigFault, ServerError};
pub use ftps::{FtpsClientAuth, FtpsRequired, TlsFlags};
pub use host::PassiveHost;
pub use lockout::{FailedLoginsBlock, FailedLoginsPolicy};
pub use options::{ActivePassiveMode, ListenerMode, Options, SiteMd5};
pub use shutdown::{Indicator, Shutdown};
pub use site::{Handler, SiteCommandContext, SiteCommandHandler, SiteHandlers};
