//! Control connections over sockets.

ghost use Rattle.std.specs.Prelude.{◌≡◌, ◌++◌, ℕ, List};
ghost use Rattle.ftp_system.specs.Telnet.{text_in};

use crate::faults::{Faults, link_fault};
use crate::stream::{STREAM, Seen, WAKER, Watch, is_text_next};
use crate::telnet::Telnet;
use ftp_base::{Control, Failed, Link, LinkFault, Source};
use mio::net::TcpStream;
use mio::{Events, Interest, Poll, Waker};
use std::alloc::{AllocError, Global};
use std::io;
use std::io::ErrorKind;
use std::net::{self, Net, Shutdown};
use std::sync::Arc;

/// A control connection with a `Poll` of its own, for the stream and for a waker.
///
/// `ready` ends early where another thread wakes it, or a Telnet command comes alone. Reads give the stream's text: its
/// bytes without Telnet commands.
#[derive(Drop)]
pub struct SocketControl {
    stream: Arc<TcpStream, Global>,
    waker: Arc<Waker, Global>,
    watch: Watch,
    telnet: Telnet,
    patience: u64,
    limit: u64,
    faults: Faults,
    closed: bool,
}

/// Wakes the loop of a control connection, or ends its connection, from any thread.
#[derive(Drop)]
pub struct ControlHandle {
    stream: Arc<TcpStream, Global>,
    waker: Arc<Waker, Global>,
}

impl ControlHandle {
    /// Makes the wait of `ready` that is under way, or else the next, answer at once.
    pub fn wake(&self) {
        let _ = self.waker.wake();
    }

    /// Closes both directions: the loop reads the end, and its writes fail.
    pub fn shut_down(&self) {
        let _ = self.stream.shutdown(Shutdown::Both);
    }

    pub fn try_clone(&self) -> Result<ControlHandle, AllocError> {
        Ok(ControlHandle {
            stream: Arc::try_clone(&self.stream)?,
            waker: Arc::try_clone(&self.waker)?,
        })
    }
}

impl SocketControl {
    /// Takes a stream over, and sends its replies without delay.
    ///
    /// `ready` waits for `patience` where it is asked for less, and no read or write waits longer than `limit`, all in
    /// milliseconds.
    pub fn new<N: Net>(
        net: &N,
        alloc: Global,
        stream: net::TcpStream,
        patience: u64,
        limit: u64,
    ) -> io::Result<SocketControl> {
        stream.set_nonblocking(true)?;
        stream.set_nodelay(true)?;
        let mut stream = TcpStream::from_std(stream);
        let poll = Poll::new(net)?;
        poll.registry().register(&mut stream, STREAM, Interest::READABLE | Interest::PRIORITY)?;
        let waker = Waker::new(poll.registry(), WAKER)?;
        Ok(SocketControl {
            stream: Arc::new(alloc, stream)?,
            waker: Arc::new(alloc, waker)?,
            watch: Watch {
                poll,
                events: Events::with_capacity(alloc, 2)?,
                seen: Seen::NOTHING,
            },
            telnet: Telnet::Open,
            patience,
            limit,
            faults: Faults::NONE,
            closed: false,
        })
    }

    /// What other threads wake and end it by.
    pub fn handle(&self) -> Result<ControlHandle, AllocError> {
        Ok(ControlHandle {
            stream: Arc::try_clone(&self.stream)?,
            waker: Arc::try_clone(&self.waker)?,
        })
    }

    /// From now on `ready` waits so many milliseconds where it is asked for less.
    pub fn set_patience(&mut self, patience: u64) {
        self.patience = patience;
    }

    /// Leaves the text alone of bytes that were read of the stream before.
    pub fn keep_text(&mut self, bytes: &mut Vec<u8>)
        ensures text { (more : List ℕ) → text_in self.old.telnet (bytes.old.items ++ more) ≡ bytes.new.items ++ text_in self.new.telnet more }
    {
        let kept = self.telnet.strip(bytes.as_mut_slice());
        bytes.truncate(kept);
    }
}

impl Source for SocketControl {
    ghost use Rattle.std.specs.Prelude.{true, None};

    ghost left = { λ _. None };

    ghost faults = { λ s. s.faults.count };

    ghost sending = { λ s. record { sent = None; closed = s.closed; last_fault = s.faults.last } };

    ghost is_link = { true };

    fn read(&mut self, out: &mut [u8]) -> Result<usize, Failed> {
        let read = self
            .watch
            .read_text(&self.stream, &mut self.telnet, self.limit, out);
        match read {
            Ok(n) => Ok(n),
            Err(e) => Err(self.faults.meet(link_fault(e.kind()))),
        }
    }
}

impl Link for SocketControl {
    ghost use Rattle.std.specs.Prelude.{false, refl};

    ghost takes_memory = { false };

    ghost connects = { refl };

    fn write(&mut self, bytes: &[u8]) -> Result<usize, Failed> {
        let written = self.watch.write_patiently(&self.stream, self.limit, bytes);
        match written {
            Ok(n) if n > 0 || bytes.is_empty() => Ok(n),
            Ok(_) => Err(self.faults.meet(LinkFault::Other)),
            Err(e) => Err(self.faults.meet(link_fault(e.kind()))),
        }
    }

    fn flush(&mut self) -> Result<(), Failed> {
        Ok(())
    }

    fn close(&mut self) -> Result<(), Failed> {
        let is_lost = self.watch.seen.ended || self.faults.last.is_some();
        if !is_lost && self.stream.shutdown(Shutdown::Write).is_ok() {
            self.watch.linger(&self.stream);
        }
        match self.stream.shutdown(Shutdown::Both) {
            // Where none is connected both sides had ended.
            Err(e) if e.kind() != ErrorKind::NotConnected => Err(self.faults.count()),
            _ => {
                self.closed = true;
                Ok(())
            }
        }
    }

    fn last_fault(&self) -> Option<LinkFault> {
        self.faults.last
    }
}

impl Control for SocketControl {
    fn ready(&mut self, millis: u64) -> Result<bool, Failed> {
        let mut waited = self
            .watch
            .wait_ready(&self.stream, millis.max(self.patience));
        if let Ok(true) = waited {
            waited = is_text_next(&self.stream, &mut self.watch.seen, &mut self.telnet);
        }
        match waited {
            Ok(is_ready) => Ok(is_ready),
            Err(_) => Err(self.faults.count()),
        }
    }
}
