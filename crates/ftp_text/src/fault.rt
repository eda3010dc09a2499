//! Why a line could not be read.

ghost use Rattle.std.specs.Prelude.{◌≡◌, ◌↔◌};
ghost use Rattle.hex.specs.declared.error.FromHexError.TheVariants.{OutOfMemory};
ghost use Rattle.ftp_text.specs.declared.fault.LineFault.TheVariants.{Memory};

use hex::FromHexError;
use std::alloc::{AllocError, AllocFailed};

/// Why a line could not be read.
#[derive(Clone, Copy, Debug, PartialEq, Eq)]
pub enum LineFault {
    /// No memory was left.
    Memory,
    /// Nothing is spelled so.
    Bad,
}

/// What was read of the bytes, and the bytes behind it.
pub type Parsed<'a, V> = Result<(V, &'a [u8]), LineFault>;

impl From<AllocError> for LineFault {
    ghost from_gives = { λ _ e. e ≡ Memory };

    fn from(_e: AllocError) -> LineFault {
        LineFault::Memory
    }
}

impl<T: Drop> From<AllocFailed<T>> for LineFault {
    ghost from_gives = { λ _ e. e ≡ Memory };

    fn from(_e: AllocFailed<T>) -> LineFault {
        LineFault::Memory
    }
}

impl From<FromHexError> for LineFault {
    ghost from_gives = { λ e f. (f ≡ Memory) ↔ (e ≡ OutOfMemory) };

    fn from(e: FromHexError) -> LineFault {
        match e {
            FromHexError::OutOfMemory => LineFault::Memory,
            _ => LineFault::Bad,
        }
    }
}
