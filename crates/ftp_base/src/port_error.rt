//! The error of a port that is not given.

ghost use Rattle.std.specs.Prelude.{Some, codes};

use std::error::Error;
use std::fmt;

/// No port could be given.
#[derive(Clone, Copy, Debug, PartialEq, Eq)]
pub struct PortAllocationError;

impl fmt::Display for PortAllocationError {
    ghost output = { λ _. Some (codes "Could not allocate port") };

    fn fmt<W: fmt::Write>(&self, f: &mut fmt::Formatter<W>) -> fmt::Result {
        write!(f, "Could not allocate port")
    }
}

impl Error for PortAllocationError {}
