//! Failed logins, and who is locked out for them.
//!
//! After any list of calls the table holds what the tally of these calls says. Begin with `FailedLoginsCache`.
#![tactic(auto)]

mod blocks;
mod cache;
mod key;
mod places;
mod restoring;

pub use cache::{FailedLoginsCache, Failures};
pub use key::LoginKey;
