//! Files of real directories, as a storage.
//!
//! What is asked of the system is a home or lies below it, and no link leads there; what is written was granted by the home's
//! budget. Begin with `FileSystem`.
#![tactic(auto)]

mod apart;
mod below;
mod budget;
mod changing;
mod counting;
mod dating;
mod disk;
mod file_system;
mod files;
mod home;
mod leftovers;
mod listing;
mod looks;
mod opened;
mod opening;
mod pattern;
mod purse;
mod refusals;
mod standing;
mod visible;
mod writing;

pub use below::Below;
pub use budget::{Budget, Grant};
pub use counting::usage;
pub use disk::DiskStorage;
pub use file_system::FileSystem;
pub use home::{Home, Homes, Writable};
pub use leftovers::remove_leftovers;
pub use purse::Purse;
pub use refusals::refusal;
pub use standing::{Standing, resolve};
pub use visible::uploads_are_hidden;
