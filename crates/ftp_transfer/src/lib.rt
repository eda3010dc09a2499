//! Transfers over any storage and any link: files both ways, and listings.
//!
//! A transfer moves exactly the bytes that the storage and the link hold, from the front, and says how many and why it
//! ended. Begin with `execute`.
#![tactic(auto)]

mod duration;
mod job;
mod laws;
mod list;
mod listing;
mod path;
mod retrieve;
mod send;
mod store;
mod transfer;
mod turn;

pub use duration::HumanDuration;
pub use job::{Completion, Job, Outcome, PieceResult, Ticket};
pub use laws::uploads_are_written;
pub use listing::format_facts;
pub use path::join_path;
pub use transfer::{execute, execute_piece};
