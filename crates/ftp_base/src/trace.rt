//! The number that ties what is told of a session together.

ghost use Rattle.std.specs.Prelude.{◌≡◌, IfOk};
ghost use Rattle.ftp_base.specs.Trace.{trace_text};

use crate::bytes::Bytes;
use std::alloc::{AllocError, Global};

#[derive(Clone, Copy, Debug, PartialEq, Eq)]
pub struct TraceId(pub u64);

impl TraceId {
    /// The trace id of a random word.
    pub fn new(word: u64) -> TraceId
        ensures { result.0 ≡ word }
    {
        TraceId(word)
    }

    /// `0x` and the number in lower-case hexadecimal, without leading zeros.
    pub fn text(self, alloc: Global) -> Result<Bytes, AllocError>
        ensures { IfOk result (λ text. text ≡ trace_text self.0) }
    {
        let number = self.0;
        let text = format!(in alloc; "0x{number:x}")?;
        Ok(Bytes::from_vec(text.into_bytes()))
    }
}
