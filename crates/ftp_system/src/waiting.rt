//! A wait for one socket, with a limit.

use mio::net::TcpStream;
use mio::{Events, Interest, Poll, Token};
use std::alloc::Global;
use std::io;
use std::io::ErrorKind;
use std::net::Net;
use std::time::Duration;

/// The longest single wait, in milliseconds. One that a signal ended early counts as a whole one.
const SLICE: u64 = 1000;

/// Waits for a slice of the milliseconds that are left, and gives the others.
pub(crate) fn wait_slice(poll: &mut Poll, events: &mut Events, left: u64) -> io::Result<u64> {
    if left == 0 {
        return Err(io::Error::from(ErrorKind::TimedOut));
    }
    let slice = left.min(SLICE);
    poll.poll(events, Some(Duration::from_millis(slice)))?;
    Ok(left - slice)
}

/// A wait for one socket in one direction at a time.
#[derive(Drop)]
pub(crate) struct Waiting {
    poll: Poll,
    events: Events,
    interest: Interest,
}

impl Waiting {
    pub(crate) fn new<N: Net>(
        net: &N,
        alloc: Global,
        stream: &mut TcpStream,
        interest: Interest,
    ) -> io::Result<Waiting> {
        let poll = Poll::new(net)?;
        poll.registry().register(stream, Token(0), interest)?;
        let events = Events::with_capacity(alloc, 2)?;
        Ok(Waiting {
            poll,
            events,
            interest,
        })
    }

    // From now on waits for the other direction.
    fn turn(&mut self, stream: &mut TcpStream, interest: Interest) -> io::Result<()> {
        if self.interest == interest {
            return Ok(());
        }
        self.poll.registry().reregister(stream, Token(0), interest)?;
        self.interest = interest;
        Ok(())
    }

    // Waits for the socket, so many milliseconds at most.
    pub(crate) fn wait(&mut self, limit: u64) -> io::Result<()> {
        let mut left = limit;
        for _ in 0..u64::MAX {
            left = wait_slice(&mut self.poll, &mut self.events, left)?;
            if !self.events.is_empty() {
                return Ok(());
            }
        }
        Err(io::Error::from(ErrorKind::TimedOut))
    }
}

/// Waits for one socket, none longer than `limit` milliseconds, by a `Poll` that is made at the first wait.
#[derive(Drop)]
pub(crate) struct Waits<N: Net + Drop> {
    net: N,
    alloc: Global,
    waiting: Option<Waiting>,
    limit: u64,
}

impl<N: Net + Drop> Waits<N> {
    pub(crate) fn new(net: N, alloc: Global, limit: u64) -> Waits<N> {
        Waits {
            net,
            alloc,
            waiting: None,
            limit,
        }
    }

    /// After a call that would block, waits until the socket may go on in a direction, and after one that a signal ended not at all;
    /// any other error comes back. A wait in one direction is not ended by what comes in the other.
    pub(crate) fn wait_after(
        &mut self,
        error: io::Error,
        stream: &mut TcpStream,
        interest: Interest,
    ) -> io::Result<()> {
        match error.kind() {
            ErrorKind::Interrupted => return Ok(()),
            ErrorKind::WouldBlock => {}
            _ => return Err(error),
        }
        if let Some(made) = &mut self.waiting {
            made.turn(stream, interest)?;
            return made.wait(self.limit);
        }
        let mut made = Waiting::new(&self.net, self.alloc, stream, interest)?;
        let waited = made.wait(self.limit);
        self.waiting = Some(made);
        waited
    }
}
