//! Tables of the hub: which session holds which passive port for which client address, and which numbers were used.
//!
//! A session gets the first port, from its word on, that nobody holds for its client's address. A number is used exactly where it
//! was put, many numbers in a row cost one interval, and each call takes a time that grows with the logarithm of the count of
//! intervals. Begin with `Switchboard` and `Numbers`.
#![tactic(auto)]

mod key;
mod looks;
mod numbers;
mod ports;
mod row;
mod rows;
mod search;
mod switchboard;

pub use key::SwitchboardKey;
pub use looks::Looks;
pub use numbers::{Interval, Numbers};
pub use switchboard::{Switchboard, SwitchboardError};
