//! Why a header is none, and why one has no bytes.

use std::alloc::AllocError;

/// Why no header of version 2 was read: the first cause from the left.
#[derive(Clone, Copy, Debug, PartialEq, Eq)]
pub enum Proxy2Error {
    /// The byte at this place is not that of the signature.
    NotSignature { at: usize },
    /// The byte behind the signature is no command of version 2.
    BadVersion(u8),
    /// The proxy names a family that there is not.
    BadFamily(u8),
    /// The block has no room for the addresses of its family.
    ShortBlock { length: u16, needed: u16 },
    /// The field at this place of the block passes its end.
    BadField { at: usize },
    /// The source ended before the header did.
    UnexpectedEof,
    /// The source failed.
    Fault,
    OutOfMemory,
}

impl From<AllocError> for Proxy2Error {
    ghost use Rattle.std.specs.Prelude.{◌≡◌};
    ghost use Rattle.ftp_proxy.specs.declared.v2_error.Proxy2Error.TheVariants.{OutOfMemory};

    ghost from_gives = { λ _ e. e ≡ OutOfMemory };

    fn from(_: AllocError) -> Proxy2Error {
        Proxy2Error::OutOfMemory
    }
}

/// Why a header has no bytes.
#[derive(Clone, Copy, Debug, PartialEq, Eq)]
pub enum Encode2Error {
    /// The block passes 65,535 bytes.
    TooLong,
    /// The body is not of the family that the header names, or a Unix name has not 108 bytes.
    Mismatch,
    OutOfMemory,
}
