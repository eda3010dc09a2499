//! A connection of which some bytes were read before.

ghost use Rattle.std.specs.Prelude.{◌≡◌, ◌≤◌, vec_len};

use ftp_base::{Control, Failed, Link, LinkFault, Source};

/// A connection, and what was read of it already, which is read first.
#[derive(Drop)]
pub struct Ahead<L: Link> {
    inner: L,
    bytes: Vec<u8>,
    next: usize,
    ghost within: { next ≤ vec_len bytes },
}

impl<L: Link> Ahead<L> {
    pub fn new(inner: L, bytes: Vec<u8>) -> Ahead<L> {
        Ahead {
            inner,
            bytes,
            next: 0,
        }
    }

    /// The connection.
    pub fn inner(&self) -> &L {
        &self.inner
    }
}

impl<L: Link> Source for Ahead<L> {
    ghost use Rattle.std.specs.Prelude.{true, None};

    ghost left = { λ _. None };

    ghost faults = { λ a. L.faults a.inner };

    ghost sending = { λ a. record { sent = None; closed = (L.sending a.inner).closed; last_fault = (L.sending a.inner).last_fault } };

    ghost fault_limit = { λ a. L.fault_limit a.inner };

    ghost is_link = { true };

    fn read(&mut self, out: &mut [u8]) -> Result<usize, Failed> {
        let waiting = self.bytes.len() - self.next;
        if waiting == 0 {
            return self.inner.read(out);
        }
        let n = out.len().min(waiting);
        out[..n].copy_from_slice(&self.bytes.as_slice()[self.next..self.next + n]);
        self.next += n;
        Ok(n)
    }
}

impl<L: Link> Link for Ahead<L> {
    ghost use Rattle.std.specs.Prelude.{refl};

    ghost takes_memory = { L.takes_memory };

    ghost connects = { refl };

    fn write(&mut self, bytes: &[u8]) -> Result<usize, Failed> {
        self.inner.write(bytes)
    }

    fn flush(&mut self) -> Result<(), Failed> {
        self.inner.flush()
    }

    fn close(&mut self) -> Result<(), Failed> {
        self.inner.close()
    }

    fn last_fault(&self) -> Option<LinkFault> {
        self.inner.last_fault()
    }
}

impl<C: Control> Control for Ahead<C> {
    fn ready(&mut self, millis: u64) -> Result<bool, Failed> {
        if self.next < self.bytes.len() {
            return Ok(true);
        }
        self.inner.ready(millis)
    }
}
