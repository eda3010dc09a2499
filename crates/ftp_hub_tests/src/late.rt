//! A control connection whose first bytes are late.

ghost use Rattle.std.specs.Prelude.{true, None, refl};
ghost use Rattle.ftp_base.specs.Outside.{Sending};

use ftp_base::{Control, Failed, Link, LinkFault, Source};
use std::alloc::{AllocError, Global};

/// Gives lines, of which nothing has come yet when it is asked the first time. It tells proofs nothing of them.
#[derive(Drop)]
pub struct LateControl {
    lines: Vec<u8>,
    at: usize,
    asked: bool,
    sent: Vec<u8>,
    closed: bool,
}

impl LateControl {
    pub fn new(alloc: Global, lines: &[u8]) -> Result<LateControl, AllocError> {
        Ok(LateControl {
            lines: Vec::from_slice(alloc, lines)?,
            at: 0,
            asked: false,
            sent: Vec::new(alloc),
            closed: false,
        })
    }

    /// What was sent.
    pub fn sent(&self) -> &[u8] {
        self.sent.as_slice()
    }
}

impl Source for LateControl {
    ghost left = { λ _. None };

    ghost faults = { λ _. 0 };

    ghost sending = { λ c. record { sent = None; closed = c.closed; last_fault = None } };

    ghost is_link = { true };

    fn read(&mut self, out: &mut [u8]) -> Result<usize, Failed> {
        let left = &self.lines[self.at.min(self.lines.len())..];
        let n = left.len().min(out.len());
        out[..n].copy_from_slice(&left[..n]);
        self.at += n;
        Ok(n)
    }
}

impl Link for LateControl {
    fn write(&mut self, bytes: &[u8]) -> Result<usize, Failed> {
        match self.sent.extend_from_slice(bytes) {
            Ok(()) => Ok(bytes.len()),
            Err(_) => Err(Failed::Memory),
        }
    }

    fn flush(&mut self) -> Result<(), Failed> {
        Ok(())
    }

    fn close(&mut self) -> Result<(), Failed> {
        self.closed = true;
        Ok(())
    }

    fn last_fault(&self) -> Option<LinkFault> {
        None
    }

    ghost connects = { refl };
}

impl Control for LateControl {
    fn ready(&mut self, _millis: u64) -> Result<bool, Failed> {
        let ready = self.asked;
        self.asked = true;
        Ok(ready)
    }
}
