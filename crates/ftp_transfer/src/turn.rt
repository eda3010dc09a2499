//! One turn of a transfer: at most 8,192 bytes move.

ghost use Rattle.std.specs.Prelude.{◌≡◌, ◌-◌, ◌^◌, min, None, Some};
ghost use Rattle.ftp_transfer.specs.Turn.{completion_of};

use crate::job::{Completion, Outcome};
use ftp_base::{ErrorKind, LinkFault, StoreError};

/// How many bytes a piece has at most.
pub const PIECE_LEN: usize = 8192;

/// Room for a piece.
pub type Room = [u8; PIECE_LEN];

/// Why a transfer is over.
#[derive(Clone, Copy, Debug, PartialEq, Eq)]
pub struct End {
    pub result: Completion,
    /// What the link met, where that ended the transfer.
    pub fault: Option<LinkFault>,
}

impl End {
    /// The outcome of the transfer, where so many bytes moved in all.
    pub fn outcome(self, bytes: u64) -> Outcome
        ensures { result ≡ record { result = self.result; bytes = bytes; fault = self.fault } }
    {
        Outcome {
            result: self.result,
            bytes,
            fault: self.fault,
        }
    }
}

/// How many bytes a turn moved, and whether the transfer is over.
#[derive(Clone, Copy, Debug, PartialEq, Eq)]
pub struct Turn {
    pub bytes: u64,
    pub end: Option<End>,
}

impl Turn {
    /// Bytes moved, and more may come.
    pub fn more(bytes: u64) -> Turn
        ensures bytes { result.bytes ≡ bytes }
        ensures end { result.end ≡ None }
    {
        Turn { bytes, end: None }
    }

    /// The transfer is over.
    pub fn last(bytes: u64, completion: Completion, fault: Option<LinkFault>) -> Turn
        ensures bytes { result.bytes ≡ bytes }
        ensures end { result.end ≡ Some (record { result = completion; fault = fault }) }
    {
        Turn {
            bytes,
            end: Some(End {
                result: completion,
                fault,
            }),
        }
    }
}

/// The result of a transfer that a storage stopped.
pub fn stopped_by(error: StoreError) -> Completion
    ensures { result ≡ completion_of error }
{
    match error {
        StoreError::Kind(kind) => Completion::Refused(kind),
        StoreError::Failed => Completion::Refused(ErrorKind::LocalError),
        StoreError::OutOfMemory => Completion::OutOfMemory,
    }
}

/// How many bytes the next piece may have, so that their count does not pass its end.
pub fn piece_room(moved: u64) -> usize
    ensures room { result ≡ min PIECE_LEN (2 ^ 64 - 1 - moved) }
{
    (u64::MAX - moved).min(PIECE_LEN as u64) as usize
}
