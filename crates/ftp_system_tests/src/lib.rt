//! Tests of the adapters of a server over the loopback address, and of what only the gateway is to use, by its public calls: values
//! that were published, and a real directory, with ample memory.
//!
//! They stand here and not beside the code, since a crate with tests is proved twice. This one has no code but tests.
//! Begin with `link`, `users` and `disk`.
#![tactic(auto)]

#[cfg(test)]
mod ahead;
#[cfg(test)]
mod archive;
#[cfg(test)]
mod calls;
#[cfg(test)]
mod control;
#[cfg(test)]
mod disk;
#[cfg(test)]
mod edge;
#[cfg(test)]
mod front;
#[cfg(test)]
mod gathered;
#[cfg(test)]
mod keys;
#[cfg(test)]
mod link;
#[cfg(test)]
mod listen;
#[cfg(test)]
mod loopback;
#[cfg(test)]
mod open;
#[cfg(test)]
mod queue;
#[cfg(test)]
mod same;
#[cfg(test)]
mod shared;
#[cfg(test)]
mod threads;
#[cfg(test)]
mod users;
