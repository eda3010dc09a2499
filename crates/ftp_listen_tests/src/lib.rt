//! Tests of a server that listens, over loopback: each mode from its first reply to its last, and why it ends.
//!
//! They stand here and not beside the code, since a crate with tests is proved twice.
//! Begin with `visits`.
#![tactic(auto)]

#[cfg(test)]
mod client;
#[cfg(test)]
mod depots;
#[cfg(test)]
mod doubles;
#[cfg(test)]
mod endings;
#[cfg(test)]
mod files;
#[cfg(test)]
mod logins;
#[cfg(test)]
mod pairs;
#[cfg(test)]
mod place;
#[cfg(test)]
mod refusals;
#[cfg(test)]
mod sessions;
#[cfg(test)]
mod setting;
#[cfg(test)]
mod steps;
#[cfg(test)]
mod visits;
