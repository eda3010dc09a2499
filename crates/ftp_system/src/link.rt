//! Data connections over sockets.

ghost use Rattle.std.specs.Io.{ReadsAtMost, WritesAtMost};

use crate::faults::{Faults, link_fault};
use crate::waiting::Waits;
use ftp_base::{Failed, Link, LinkFault, Source};
use mio::Interest;
use mio::net::TcpStream;
use std::alloc::Global;
use std::io;
use std::io::{ErrorKind, Read, Write};
use std::net::{Net, Shutdown};

/// How long a call may wait, in milliseconds, where a server sets no other limit.
pub const LIMIT: u64 = 60_000;

/// A data connection. Where a call would block it waits, on a `Poll` that is made at the first wait.
///
/// A wait beyond the limit is the fault `Other`.
#[derive(Drop)]
pub struct SocketLink<N: Net + Drop> {
    stream: TcpStream,
    waits: Waits<N>,
    faults: Faults,
    closed: bool,
}

impl<N: Net + Drop> SocketLink<N> {
    /// A stream that does not block. No call waits longer than `limit`, in milliseconds.
    pub fn new(net: N, alloc: Global, stream: TcpStream, limit: u64) -> SocketLink<N> {
        SocketLink {
            stream,
            waits: Waits::new(net, alloc, limit),
            faults: Faults::NONE,
            closed: false,
        }
    }

    /// The stream, which does not block.
    pub fn into_stream(self) -> TcpStream {
        let SocketLink {
            stream,
            waits: _,
            faults: _,
            closed: _,
        } = self;
        stream
    }
}

// Reads, and waits where there is nothing yet.
fn read_patiently<N: Net + Drop>(
    stream: &mut TcpStream,
    waits: &mut Waits<N>,
    out: &mut [u8],
) -> io::Result<usize>
    ensures within { ReadsAtMost result out.new }
{
    if out.is_empty() {
        return Ok(0);
    }
    for _ in 0..u64::MAX {
        match stream.read(out) {
            Ok(n) => return Ok(n),
            Err(e) => waits.wait_after(e, stream, Interest::READABLE)?,
        }
    }
    Err(io::Error::from(ErrorKind::Other))
}

// Writes some bytes, and waits where there is no room yet.
fn write_patiently<N: Net + Drop>(
    stream: &mut TcpStream,
    waits: &mut Waits<N>,
    bytes: &[u8],
) -> io::Result<usize>
    ensures within { WritesAtMost result bytes.now }
{
    for _ in 0..u64::MAX {
        match stream.write(bytes) {
            Ok(n) => return Ok(n),
            Err(e) => waits.wait_after(e, stream, Interest::WRITABLE)?,
        }
    }
    Err(io::Error::from(ErrorKind::Other))
}

impl<N: Net + Drop> Source for SocketLink<N> {
    ghost use Rattle.std.specs.Prelude.{true, None};

    ghost left = { λ _. None };

    ghost faults = { λ s. s.faults.count };

    ghost sending = { λ s. record { sent = None; closed = s.closed; last_fault = s.faults.last } };

    ghost is_link = { true };

    fn read(&mut self, out: &mut [u8]) -> Result<usize, Failed> {
        let read = read_patiently(&mut self.stream, &mut self.waits, out);
        match read {
            Ok(n) => Ok(n),
            Err(e) => Err(self.faults.meet(link_fault(e.kind()))),
        }
    }
}

impl<N: Net + Drop> Link for SocketLink<N> {
    ghost use Rattle.std.specs.Prelude.{false, refl};

    ghost takes_memory = { false };

    ghost connects = { refl };

    fn write(&mut self, bytes: &[u8]) -> Result<usize, Failed> {
        let written = write_patiently(&mut self.stream, &mut self.waits, bytes);
        match written {
            Ok(n) if n > 0 || bytes.is_empty() => Ok(n),
            Ok(_) => Err(self.faults.meet(LinkFault::Other)),
            Err(e) => Err(self.faults.meet(link_fault(e.kind()))),
        }
    }

    fn flush(&mut self) -> Result<(), Failed> {
        Ok(())
    }

    fn close(&mut self) -> Result<(), Failed> {
        if self.stream.shutdown(Shutdown::Both).is_err() {
            return Err(self.faults.count());
        }
        self.closed = true;
        Ok(())
    }

    fn last_fault(&self) -> Option<LinkFault> {
        self.faults.last
    }
}
