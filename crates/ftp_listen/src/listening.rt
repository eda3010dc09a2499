//! The listening sockets of a server, and the wait for connections.

use ftp_system::Doors;
use ftp_workers::AcceptorHandle;
use mio::net::{TcpListener, TcpStream};
use mio::unix::SourceFd;
use mio::{Events, Interest, Poll, Token, Waker};
use std::alloc::Global;
use std::io;
use std::io::ErrorKind;
use std::net::{Net, SocketAddr};
use std::os::fd::AsRawFd;
use std::sync::Arc;
use std::time::Duration;

/// How many sockets one wait can report.
const CAPACITY: usize = 256;

/// What a listening socket is for.
#[derive(Clone, Copy, Debug, PartialEq, Eq)]
pub(crate) enum Door {
    /// Control connections, and behind a proxy all connections.
    Control,
    /// Data connections to this passive port.
    Passive(u16),
}

/// The listeners. The token of a passive port is its place; that of the control port comes after the last of them.
#[derive(Drop)]
pub(crate) struct ListeningSockets {
    control: Option<TcpListener>,
    ports: Vec<(u16, TcpListener)>,
}

/// Waits for connections, and for workers that want one more thread.
#[derive(Drop)]
pub(crate) struct AcceptPoll {
    poll: Poll,
    events: Events,
}

impl AcceptPoll {
    /// A poll over the listening sockets, and a handle to the thread that waits there.
    pub(crate) fn over<N: Net>(
        net: &N,
        alloc: Global,
        doors: Doors,
    ) -> io::Result<(AcceptPoll, ListeningSockets, AcceptorHandle)> {
        let Doors {
            control,
            ports,
            poll,
        } = doors;
        let poll = match poll {
            Some(poll) => poll,
            None => Poll::new(net)?,
        };
        control.set_nonblocking(true)?;
        let mut control = TcpListener::from_std(control);
        let place = ports.len();
        poll.registry()
            .register(&mut control, Token(place), Interest::READABLE)?;
        let waker = Waker::new(poll.registry(), Token(place + 1))?;
        let events = Events::with_capacity(alloc, CAPACITY)?;
        let acceptor = AcceptorHandle {
            waker: Arc::new(alloc, waker)?,
            registry: poll.registry().try_clone()?,
            first: place + 2,
        };
        Ok((
            AcceptPoll { poll, events },
            ListeningSockets {
                control: Some(control),
                ports,
            },
            acceptor,
        ))
    }

    /// A poll over no socket.
    pub(crate) fn inside<N: Net>(
        net: &N,
        alloc: Global,
    ) -> io::Result<(AcceptPoll, AcceptorHandle)> {
        let poll = Poll::new(net)?;
        let waker = Waker::new(poll.registry(), Token(0))?;
        let events = Events::with_capacity(alloc, 2)?;
        let acceptor = AcceptorHandle {
            waker: Arc::new(alloc, waker)?,
            registry: poll.registry().try_clone()?,
            first: 1,
        };
        Ok((AcceptPoll { poll, events }, acceptor))
    }

    /// Waits so many milliseconds at most. After an error nothing is told.
    pub(crate) fn wait(&mut self, millis: u64) -> io::Result<()> {
        self.poll
            .poll(&mut self.events, Some(Duration::from_millis(millis)))
    }

    /// What the last wait told of.
    pub(crate) fn events(&self) -> &Events {
        &self.events
    }
}

impl ListeningSockets {
    /// Closes the control port.
    pub(crate) fn close_control(&mut self) {
        self.control = None;
    }

    // What the socket with this token is for, and its listener.
    fn door(&self, token: Token) -> Option<(Door, &TcpListener)> {
        if token.0 == self.ports.len() {
            return Some((Door::Control, self.control.as_ref()?));
        }
        let (port, listener) = self.ports.get(token.0)?;
        Some((Door::Passive(*port), listener))
    }

    /// The session whose passive port has the token, if no listening socket of the server has it.
    pub(crate) fn session_at(&self, token: Token) -> Option<u64> {
        token
            .0
            .checked_sub(self.ports.len() + 2)
            .map(|session| session as u64)
    }

    /// The next connection at the socket with this token, and what that socket is for. None if no connection waits or no socket
    /// has the token.
    pub(crate) fn next(&self, token: Token) -> io::Result<Option<(Door, TcpStream, SocketAddr)>> {
        let Some((door, listener)) = self.door(token) else {
            return Ok(None);
        };
        match listener.accept() {
            Ok((stream, raw)) => Ok(Some((door, stream, raw))),
            Err(e) if e.kind() == ErrorKind::WouldBlock => Ok(None),
            Err(e) => Err(e),
        }
    }

    /// Has the poll report the socket with this token once more, if a connection waits there.
    pub(crate) fn tell_again(&self, poll: &AcceptPoll, token: Token) {
        if let Some((_, listener)) = self.door(token) {
            let descriptor = listener.as_raw_fd();
            let _ = poll
                .poll
                .registry()
                .reregister(&mut SourceFd(&descriptor), token, Interest::READABLE);
        }
    }
}
