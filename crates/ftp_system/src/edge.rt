//! The clock, random words, names and sockets of the system.

ghost use Rattle.std.specs.Prelude.{◌≡◌, ◌≤◌, IfSome};
ghost use Rattle.ftp_system.specs.Edge.{system_meaning};

use crate::address::std_address;
use crate::waiting::Waiting;
use ftp_base::{Bytes, Edge, SocketAddr};
use mio::Interest;
use mio::net::{TcpListener, TcpStream};
use std::alloc::Global;
use std::net::{IpAddr, Ipv4Addr, Net, ToSocketAddrs};
use std::random::RandomSource;
use std::time::{Clock, Duration};
use std::{io, thread};

/// How many words are tried for a port.
const WORDS: u32 = 9;

/// The system's clock, words, names and sockets, for one control connection.
///
/// A port that was bound and a connection that was made are kept until they are taken, or until the next.
#[derive(Drop)]
pub struct SystemEdge<R: Net + Clock + RandomSource + Drop> {
    rt: R,
    alloc: Global,
    // Where ports are bound.
    at: IpAddr,
    // The longest wait for a connection to be made, in milliseconds.
    limit: u64,
    bound: Option<(u16, TcpListener)>,
    made: Option<(u64, TcpStream)>,
    latest: u64,
    faults: u64,
    paused: u64,
}

impl<R: Net + Clock + RandomSource + Drop> SystemEdge<R> {
    /// Ports are bound at `at`, and a connection that is not made within `limit` milliseconds is a fault.
    pub fn new(rt: R, alloc: Global, at: IpAddr, limit: u64) -> SystemEdge<R> {
        SystemEdge {
            rt,
            alloc,
            at,
            limit,
            bound: None,
            made: None,
            latest: 0,
            faults: 0,
            paused: 0,
        }
    }

    /// The port that was bound last, with its listener.
    pub fn take_bound(&mut self) -> Option<(u16, TcpListener)> {
        self.bound.take()
    }

    /// The connection that was made last, under its number.
    pub fn take_made(&mut self) -> Option<(u64, TcpStream)> {
        self.made.take()
    }
}

/// The clock's moment in milliseconds.
pub(crate) fn moment<R: Clock>(rt: &R) -> io::Result<u64> {
    let since = rt.monotonic()?;
    Ok(u64::try_from(since.as_millis()).unwrap_or(u64::MAX))
}

fn random_word<R: RandomSource>(rt: &R) -> io::Result<u128> {
    let mut bytes = [0u8; 16];
    rt.fill_bytes(&mut bytes)?;
    Ok(u128::from_le_bytes(bytes))
}

// The first address of version 4 that the name has. An answer of names takes 19 KiB of the stack, so it keeps a frame of its own.
#[inline(never)]
fn first_v4<N: Net>(net: &N, name: &[u8]) -> Option<Ipv4Addr> {
    let name = str::from_utf8(name).ok()?;
    for found in (name, 0u16).to_socket_addrs(net).ok()? {
        if let IpAddr::V4(ip) = found.ip() {
            return Some(ip);
        }
    }
    None
}

// The port from `lo` to `hi`, and never port 0, that the word says.
fn port_between(lo: u16, hi: u16, word: u128) -> Option<u16>
    ensures between { IfSome result (λ port. (lo ≤ port) × (port ≤ hi)) }
    ensures some { IfSome result (λ port. 1 ≤ port) }
{
    let lo = lo.max(1);
    if hi < lo {
        return None;
    }
    let ports = u128::from(hi - lo) + 1;
    Some(lo + (word % ports) as u16)
}

// The first of nine ports from `lo` to `hi` that can be bound.
fn bound_between<R: Net + RandomSource>(
    rt: &R,
    at: IpAddr,
    lo: u16,
    hi: u16,
) -> Option<(u16, TcpListener)>
    ensures between { IfSome result (λ r. (lo ≤ r.0) × (r.0 ≤ hi)) }
    ensures some { IfSome result (λ r. 1 ≤ r.0) }
{
    for _ in 0..WORDS {
        let port = port_between(lo, hi, random_word(rt).ok()?)?;
        if let Ok(listener) = TcpListener::bind(rt, std::net::SocketAddr::new(at, port)) {
            return Some((port, listener));
        }
    }
    None
}

// A connection to the address, which is made within the limit.
fn connected<N: Net>(net: &N, alloc: Global, to: SocketAddr, limit: u64) -> io::Result<TcpStream> {
    let mut stream = TcpStream::connect(net, std_address(to))?;
    Waiting::new(net, alloc, &mut stream, Interest::WRITABLE)?.wait(limit)?;
    match stream.take_error()? {
        Some(e) => Err(e),
        None => Ok(stream),
    }
}

impl<R: Net + Clock + RandomSource + Drop> Edge for SystemEdge<R> {
    ghost use Rattle.std.specs.Prelude.{None};

    ghost view = { λ s. record { feed = None; meaning = system_meaning; faults = s.faults; paused = s.paused } };

    fn now(&mut self) -> u64 {
        match moment(&self.rt) {
            Ok(at) => self.latest = self.latest.max(at),
            Err(_) => self.faults = self.faults.saturating_add(1),
        }
        self.latest
    }

    fn word(&mut self) -> u128 {
        match random_word(&self.rt) {
            Ok(word) => word,
            Err(_) => {
                self.faults = self.faults.saturating_add(1);
                0
            }
        }
    }

    fn lookup(&mut self, name: &Bytes) -> Option<u32> {
        match first_v4(&self.rt, name.as_slice()) {
            Some(ip) => Some(ip.to_bits()),
            None => {
                self.faults = self.faults.saturating_add(1);
                None
            }
        }
    }

    fn bind(&mut self, lo: u16, hi: u16) -> Option<u16> {
        match bound_between(&self.rt, self.at, lo, hi) {
            Some((port, listener)) => {
                self.bound = Some((port, listener));
                Some(port)
            }
            None => {
                self.faults = self.faults.saturating_add(1);
                None
            }
        }
    }

    fn connect(&mut self, to: SocketAddr, number: u64) -> bool {
        match connected(&self.rt, self.alloc, to, self.limit) {
            Ok(stream) => {
                self.made = Some((number, stream));
                true
            }
            Err(_) => {
                self.faults = self.faults.saturating_add(1);
                false
            }
        }
    }

    fn pause(&mut self, millis: u64) {
        thread::sleep(&self.rt, Duration::from_millis(millis));
        self.paused = self.paused.saturating_add(millis);
    }
}
