//! Pieces gathered into larger reads and writes.

ghost use Rattle.std.specs.Prelude.{◌≡◌, ◌≤◌, vec_len, IsSome, IfOk};
ghost use Rattle.ftp_base.specs.declared.fault.Failed.{Failed};
ghost use Rattle.ftp_base.specs.Outside.{HasRisen};

use crate::faults::Faults;
use ftp_base::{Failed, Link, LinkFault, Source};
use std::alloc::{AllocError, Global};

/// How many bytes are gathered at most, where a server sets no other number.
pub const GATHERED: usize = 131_072;

/// A transfer's piece. A shorter write is the last for now.
const PIECE: usize = 8192;

/// A buffer for one link after another, of `GATHERED` bytes.
///
/// # Proved
///
/// - A buffer for gathering has 131,072 bytes (`size`).
pub fn gathering_buffer(alloc: Global) -> Result<Vec<u8>, AllocError>
    ensures size { IfOk result (λ buffer. vec_len buffer ≡ 131072) }
{
    Vec::from_elem(alloc, 0u8, GATHERED)
}

/// A link whose small writes go on together, and whose small reads are answered from a large one.
///
/// What was written is sent where the buffer is full, at a write that is shorter than a transfer's piece, before the
/// link is read, at `flush` and at `close`; where that fails the rest is lost. Bytes that were read ahead stay for the
/// next read.
#[derive(Drop)]
pub struct Gathered<L: Link> {
    inner: L,
    buffer: Vec<u8>,
    // What waits to be sent lies before this place.
    out: usize,
    // What was read and not given lies between these places.
    from: usize,
    to: usize,
    faults: Faults,
    closed: bool,
    ghost out_within: { out ≤ vec_len buffer },
    ghost from_within: { from ≤ to },
    ghost to_within: { to ≤ vec_len buffer },
}

impl<L: Link> Gathered<L> {
    /// Nothing is gathered yet. The buffer's length is the most that will be.
    pub fn new(inner: L, buffer: Vec<u8>) -> Gathered<L> {
        Gathered {
            inner,
            buffer,
            out: 0,
            from: 0,
            to: 0,
            faults: Faults::NONE,
            closed: false,
        }
    }

    /// The buffer, for the next link. The link is dropped.
    pub fn into_buffer(self) -> Vec<u8>
    where
        L: Drop,
    {
        let Gathered {
            inner,
            buffer,
            out: _,
            from: _,
            to: _,
            faults: _,
            closed: _,
        } = self;
        drop(inner);
        buffer
    }

    /// The link, the buffer for the next one, and what was read ahead and not given. What waits to be sent is lost.
    pub fn into_rest(self, alloc: Global) -> Result<(L, Vec<u8>, Vec<u8>), AllocError>
    where
        L: Drop,
    {
        let Gathered {
            inner,
            buffer,
            out: _,
            from,
            to,
            faults: _,
            closed: _,
        } = self;
        let mut rest = Vec::new(alloc);
        rest.extend_from_slice(&buffer.as_slice()[from..to])?;
        Ok((inner, buffer, rest))
    }

    // Counts a read or a write that failed, with what the link met.
    fn failed(&mut self) -> Failed
        ensures fault { result ≡ Failed.Fault }
        ensures fault_rose { HasRisen self.old.faults.count self.new.faults.count }
        ensures count { self.old.faults.count ≤ self.new.faults.count }
        ensures met { IsSome self.new.faults.last }
        ensures closed { self.new.closed ≡ self.old.closed }
    {
        self.faults
            .meet(self.inner.last_fault().unwrap_or(LinkFault::Other))
    }

    // Sends all that waits. Where that fails, the rest is lost.
    fn send_gathered(&mut self) -> bool
        ensures faults { self.new.faults ≡ self.old.faults }
        ensures closed { self.new.closed ≡ self.old.closed }
        ensures out { self.new.out ≡ 0 }
        ensures from { self.new.from ≡ self.old.from }
        ensures to { self.new.to ≡ self.old.to }
        ensures buffer { vec_len self.new.buffer ≡ vec_len self.old.buffer }
    {
        let out = self.out;
        self.out = 0;
        out == 0 || send_all(&mut self.inner, &self.buffer.as_slice()[..out])
    }
}

// Sends all bytes, unless the link fails.
fn send_all<L: Link>(link: &mut L, bytes: &[u8]) -> bool {
    let mut rest = bytes;
    for _ in 0..bytes.len() {
        if rest.is_empty() {
            break;
        }
        match link.write(rest) {
            Ok(n) => rest = &rest[n..],
            Err(_) => return false,
        }
    }
    rest.is_empty()
}

impl<L: Link> Source for Gathered<L> {
    ghost use Rattle.std.specs.Prelude.{true, None};

    ghost left = { λ _. None };

    ghost faults = { λ s. s.faults.count };

    ghost sending = { λ s. record { sent = None; closed = s.closed; last_fault = s.faults.last } };

    ghost is_link = { true };

    fn read(&mut self, out: &mut [u8]) -> Result<usize, Failed> {
        if !self.send_gathered() {
            return Err(self.failed());
        }
        if self.from >= self.to {
            self.from = 0;
            self.to = 0;
            if out.len() >= self.buffer.len() {
                return match self.inner.read(out) {
                    Ok(n) => Ok(n),
                    Err(_) => Err(self.failed()),
                };
            }
            match self.inner.read(self.buffer.as_mut_slice()) {
                Ok(n) => self.to = n,
                Err(_) => return Err(self.failed()),
            }
        }
        let n = out.len().min(self.to - self.from);
        out[..n].copy_from_slice(&self.buffer.as_slice()[self.from..self.from + n]);
        self.from += n;
        Ok(n)
    }
}

impl<L: Link> Link for Gathered<L> {
    ghost use Rattle.std.specs.Prelude.{false, refl};

    ghost takes_memory = { false };

    ghost connects = { refl };

    fn write(&mut self, bytes: &[u8]) -> Result<usize, Failed> {
        // Nothing is written over what was read ahead, and what is larger than the buffer goes at once.
        if self.from < self.to || bytes.len() > self.buffer.len() {
            if !self.send_gathered() {
                return Err(self.failed());
            }
            return match self.inner.write(bytes) {
                Ok(n) => Ok(n),
                Err(_) => Err(self.failed()),
            };
        }
        if bytes.len() > self.buffer.len() - self.out && !self.send_gathered() {
            return Err(self.failed());
        }
        let at = self.out;
        self.buffer.as_mut_slice()[at..at + bytes.len()].copy_from_slice(bytes);
        self.out = at + bytes.len();
        if bytes.len() < PIECE && !self.send_gathered() {
            return Err(self.failed());
        }
        Ok(bytes.len())
    }

    fn flush(&mut self) -> Result<(), Failed> {
        if self.send_gathered() && self.inner.flush().is_ok() {
            return Ok(());
        }
        Err(self.failed())
    }

    fn close(&mut self) -> Result<(), Failed> {
        let flushed = self.send_gathered();
        let closed = self.inner.close().is_ok();
        if flushed && closed {
            self.closed = true;
            return Ok(());
        }
        Err(self.faults.count())
    }

    fn last_fault(&self) -> Option<LinkFault> {
        self.faults.last
    }
}
