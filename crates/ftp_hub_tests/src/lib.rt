//! Tests of the hub, its log, its laws and the text of its state, of the locked hub with one thread and with two, of the talk of a
//! control connection over a desk by itself, and of what users moved and may store, by their public calls: worked values, with ample
//! memory, and what no clause says.
//!
//! They stand here and not beside the code, since a crate with tests is proved twice. This one has no code but tests and a few
//! callers, whose clauses are proved. Begin with `hub`, `shared`, `lines`, `states` and `audit`.
#![tactic(auto)]

#[cfg(test)]
mod audit;
#[cfg(test)]
mod auditing;
#[cfg(test)]
mod behind_proxy;
mod budgets;
#[cfg(test)]
mod counting;
#[cfg(test)]
mod counts;
#[cfg(test)]
mod cutting;
#[cfg(test)]
mod evidence;
#[cfg(test)]
mod headline;
#[cfg(test)]
mod hub;
#[cfg(test)]
mod hubs;
#[cfg(test)]
mod isolation;
#[cfg(test)]
mod jobs;
#[cfg(test)]
mod late;
#[cfg(test)]
mod laws;
#[cfg(test)]
mod lines;
#[cfg(test)]
mod logs;
#[cfg(test)]
mod pieces;
#[cfg(test)]
mod replays;
#[cfg(test)]
mod same;
#[cfg(test)]
mod server_log;
#[cfg(test)]
mod settled;
#[cfg(test)]
mod shared;
#[cfg(test)]
mod shared_values;
#[cfg(test)]
mod states;
#[cfg(test)]
mod streams;
#[cfg(test)]
mod talk;
#[cfg(test)]
mod talk_values;
#[cfg(test)]
mod texts;
#[cfg(test)]
mod threads;
#[cfg(test)]
mod ticks;
#[cfg(test)]
mod values;
#[cfg(test)]
mod words;

pub use budgets::{usage_after, within_budgets};
