//! Where a server listens: at the address of its control connections, and at its passive ports.

ghost use Rattle.std.specs.Prelude.{ℕ, ◌≡◌, ◌≤◌, Ok, None};
ghost use Rattle.ftp_base.specs.Outside.{HasRisen};

use crate::address::std_address;
use crate::edge::moment;
use ftp_base::SocketAddr;
use mio::{Interest, Poll, Token};
use std::alloc::{AllocError, Global};
use std::io;
use std::net::{self, Net, TcpListener};
use std::time::Clock;

/// The listeners of a server.
#[derive(Drop)]
pub struct Doors {
    /// For control connections, and behind a proxy for all.
    pub control: TcpListener,
    /// The passive ports in ascending order, each registered under its place here.
    pub ports: Vec<(u16, mio::net::TcpListener)>,
    /// Tells at which passive ports somebody waits, where there are any.
    pub poll: Option<Poll>,
}

/// Opens the doors of a server, and tells it the time.
pub trait Front {
    // How many calls failed.
    ghost faults: { Self → ℕ };

    // The moment that it gave last.
    ghost latest: { Self → ℕ };

    /// Listens at an address, and there at each port from the first to the second.
    ///
    /// # Proved
    ///
    /// - No doors come only with a fault; a moment is the one that is kept, whether or not the clock failed
    ///   (`fault_rose`, `latest`, `count`; also `Front::now`: `latest`, `count`).
    fn open_doors(
        &mut self,
        at: SocketAddr,
        ports: Option<(u16, u16)>,
    ) -> Result<Option<Doors>, AllocError>
        ensures fault_rose { result ≡ Ok None → HasRisen (faults self.old) (faults self.new) }
        ensures latest { latest self.new ≡ latest self.old }
        ensures count { faults self.old ≤ faults self.new };

    /// The moment in milliseconds.
    fn now(&mut self) -> u64
        ensures latest { result ≡ latest self.new }
        ensures count { faults self.old ≤ faults self.new };
}

/// The system's sockets and clock. Its moments never go back.
#[derive(Drop)]
pub struct SystemFront<R: Net + Clock + Drop> {
    rt: R,
    alloc: Global,
    latest: u64,
    faults: u64,
}

impl<R: Net + Clock + Drop> SystemFront<R> {
    pub fn new(rt: R, alloc: Global) -> SystemFront<R> {
        SystemFront {
            rt,
            alloc,
            latest: 0,
            faults: 0,
        }
    }
}

// The control listener, which blocks, with the longest backlog that the system allows.
fn control_door<N: Net>(net: &N, at: net::SocketAddr) -> io::Result<TcpListener> {
    let listener = TcpListener::from(mio::net::TcpListener::bind(net, at)?);
    listener.set_nonblocking(false)?;
    Ok(listener)
}

// Binds each port from `lo` to `hi`, and registers it under its place.
fn bind_ports<N: Net>(
    net: &N,
    at: net::IpAddr,
    lo: u16,
    hi: u16,
    ports: &mut Vec<(u16, mio::net::TcpListener)>,
) -> io::Result<Poll> {
    let poll = Poll::new(net)?;
    for port in lo..=hi {
        let mut listener = mio::net::TcpListener::bind(net, net::SocketAddr::new(at, port))?;
        let place = ports.len();
        poll.registry()
            .register(&mut listener, Token(place), Interest::READABLE)?;
        ports.push((port, listener))?;
    }
    Ok(poll)
}

// All listeners.
fn bind_all<N: Net>(
    net: &N,
    at: net::SocketAddr,
    range: Option<(u16, u16)>,
    mut ports: Vec<(u16, mio::net::TcpListener)>,
) -> io::Result<Doors> {
    let control = control_door(net, at)?;
    let poll = match range {
        Some((lo, hi)) => Some(bind_ports(net, at.ip(), lo, hi, &mut ports)?),
        None => None,
    };
    Ok(Doors {
        control,
        ports,
        poll,
    })
}

impl<R: Net + Clock + Drop> Front for SystemFront<R> {
    ghost faults = { λ s. s.faults };

    ghost latest = { λ s. s.latest };

    fn open_doors(
        &mut self,
        at: SocketAddr,
        ports: Option<(u16, u16)>,
    ) -> Result<Option<Doors>, AllocError> {
        let wanted = match ports {
            Some((lo, hi)) if lo <= hi => usize::from(hi - lo) + 1,
            _ => 0,
        };
        let room = Vec::with_capacity(self.alloc, wanted)?;
        match bind_all(&self.rt, std_address(at), ports, room) {
            Ok(doors) => Ok(Some(doors)),
            Err(_) => {
                self.faults = self.faults.saturating_add(1);
                Ok(None)
            }
        }
    }

    fn now(&mut self) -> u64 {
        match moment(&self.rt) {
            Ok(at) => self.latest = self.latest.max(at),
            Err(_) => self.faults = self.faults.saturating_add(1),
        }
        self.latest
    }
}
