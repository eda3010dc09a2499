//! Tests of the libraries below the hub by their public calls: worked values, with ample memory, and what no clause says.
//!
//! They stand here and not beside the code, since a crate with tests is proved twice. This one has no code but tests.
//! Begin with `transfers`.
#![tactic(auto)]

#[cfg(test)]
mod control_lines;
#[cfg(test)]
mod extra_words;
#[cfg(test)]
mod links;
#[cfg(test)]
mod lockout;
#[cfg(test)]
mod memory;
#[cfg(test)]
mod numbers;
#[cfg(test)]
mod options;
#[cfg(test)]
mod proxy;
#[cfg(test)]
mod proxy2;
#[cfg(test)]
mod same;
#[cfg(test)]
mod storage;
#[cfg(test)]
mod stuck;
#[cfg(test)]
mod transfers;
#[cfg(test)]
mod values;
