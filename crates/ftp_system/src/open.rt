//! What lets everything pass and asks for nothing.

use ftp_base::Gate;
use ftp_options::{Indicator, Shutdown};

/// Lets every transfer pass at once.
#[derive(Clone, Copy, Debug, PartialEq, Eq)]
pub struct OpenGate;

impl Gate for OpenGate {
    fn pass(&self, _call: u64) {}
}

/// Never asks for a shutdown.
#[derive(Clone, Copy, Debug, PartialEq, Eq)]
pub struct NeverAsks;

impl Indicator for NeverAsks {
    ghost use Rattle.std.specs.Prelude.{None};

    ghost asked = { λ _. None };

    fn poll(&mut self, _at: u64) -> Option<Shutdown> {
        None
    }
}
