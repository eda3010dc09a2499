//! Why a talk goes no further.

use ftp_base::Failed;

/// Why an event was not taken, or a reply was not sent.
#[derive(Clone, Copy, Debug, PartialEq, Eq)]
pub(crate) enum Halt {
    // The connection failed where it was written to.
    Fault,
    Memory,
    // The count of events is at its end.
    Exhausted,
}

impl From<Failed> for Halt {
    ghost use Rattle.std.specs.Prelude.{◌≡◌};
    ghost use Rattle.ftp_talk.specs.Halts.{halt_by};

    ghost from_gives = { λ failed halt. halt ≡ halt_by failed };

    fn from(failed: Failed) -> Halt {
        match failed {
            Failed::Fault => Halt::Fault,
            Failed::Memory => Halt::Memory,
        }
    }
}
