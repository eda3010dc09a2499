//! How events are submitted: under a lock that threads share, by a control loop through its desk, and by a worker for its job.
//!
//! Whenever the lock is free the journal is the right one, and the hub stands for it. The last entry of a job tells what its
//! transfer did to the storage and the link of its worker.
//! The entries on their way to a writer are given once each, in the order of their places, and the writer is told of one that was lost.
//! Begin with `Locked::append`, `Desk`, `serve_job` and `JournalFeed`.
#![tactic(auto)]

mod beside;
mod cut;
mod cut_hub;
mod desk;
mod entry_queue;
mod journal_feed;
mod journal_hub;
mod locked;
mod marks;
mod notifier;
mod number;
mod outbox;
mod pieces;
mod ready;
mod receipt;
mod report;
mod serve;
mod settle;
mod share;
mod shared_hub;
mod shown;
mod solo_desk;

pub use cut::Cut;
pub use cut_hub::CutHub;
pub use desk::{Desk, Told};
pub use entry_queue::{EntryQueue, Taken};
pub use ftp_hub::PrepareError as AppendError;
pub use journal_feed::{EntriesLost, JournalFeed};
pub use journal_hub::JournalHub;
pub use locked::{Locked, Serving};
pub use notifier::{Listener, Notifier};
pub use receipt::{FinishError, JobShare, Others, Receipt, Replies, Submitted, Turn};
pub use serve::serve_job;
pub use settle::SettleError;
pub use share::StepShare;
pub use shared_hub::SharedHub;
pub use shown::ShowsDirectories;
pub use solo_desk::SoloDesk;
