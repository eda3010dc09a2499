//! How it is served.

ghost use Rattle.std.specs.Prelude.{◌≢◌, Some};

use ftp_options::ListenerMode;

/// How it is served.
#[derive(Clone, Copy, Debug, PartialEq, Eq)]
pub struct Service {
    pub mode: ListenerMode,
    /// The first passive port.
    pub lo: u16,
    /// The last passive port.
    pub hi: u16,
    /// How many entries the journal has behind its checkpoint at most; without it, all.
    pub every: Option<u64>,
    ghost some: { every ≢ Some 0 },
}
