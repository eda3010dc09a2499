//! What a journal tells: who moved what and how often users came and went, how many bytes each may store, and the log of a server
//! with its counters.
//!
//! Sums over any stretch of a right and acted log are those of what was decided and completed, though an audit looks at
//! notifications alone; no user's files come to more bytes than the user's budget. Each control connection, login, transfer, change
//! of a file and ending has one line of the log.
//!
//! Begin with `Audit` and `Quota`, and for the log with `ServerLog`, `Tally` and specs/Lines.antt.
#![tactic(auto)]

mod account;
mod accounts;
mod audit;
mod calendar;
mod calls;
mod form;
mod guest;
mod journal;
mod laws;
mod line;
mod listing;
mod metrics;
mod owned;
mod quota;
mod quota_book;
mod request;
mod server_log;
mod tally;
mod total;

pub use account::{Account, Mark};
pub use accounts::Accounts;
pub use audit::Audit;
pub use calls::{QuotaCall, Verdict, replay};
pub use guest::Guest;
pub use journal::audited;
pub use laws::notices_tell_what_was_decided;
pub use line::{LineResult, LineWord, LogForm, LogLine};
pub use metrics::put_metrics;
pub use quota::Quota;
pub use quota_book::Held;
pub use request::Request;
pub use server_log::{ServerLog, log_text};
pub use tally::Tally;
pub use total::Total;
