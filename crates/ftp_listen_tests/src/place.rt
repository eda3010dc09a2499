//! Where a test listens.

use ftp_options::ListenerMode;
use std::alloc::{AllocError, Global};
use std::io;
use std::net::{IpAddr, Ipv4Addr, SocketAddr};
use std::random::RandomSource;

/// The port of the control door, and behind a proxy of all.
pub const DOOR: u16 = 2121;

/// The only passive port: 195 times 256 and 80.
pub const PASSIVE: u16 = 50000;

/// A loopback address that was drawn, so that tests which run at a time do not meet, behind a proxy or not.
#[derive(Clone, Copy)]
pub struct Place {
    ip: Ipv4Addr,
    is_proxied: bool,
}

impl Place {
    /// An address that begins with 127, of more than four million.
    pub fn drawn<R: RandomSource>(rt: &R, mode: ListenerMode) -> io::Result<Place> {
        let mut bytes = [0u8; 3];
        rt.fill_bytes(&mut bytes)?;
        let [b, c, d] = bytes;
        Ok(Place {
            ip: Ipv4Addr::new(127, 64 | (b & 63), c, 1 + d % 250),
            is_proxied: mode.is_proxy(),
        })
    }

    pub fn door(self) -> SocketAddr {
        SocketAddr::new(IpAddr::V4(self.ip), DOOR)
    }

    /// Where a data connection goes: behind a proxy to the one door.
    pub fn passive(self) -> SocketAddr {
        let port = if self.is_proxied { DOOR } else { PASSIVE };
        SocketAddr::new(IpAddr::V4(self.ip), port)
    }

    /// Where a server is told to listen.
    pub fn text(self, alloc: Global) -> Result<String, AllocError> {
        let ip = self.ip;
        format!(in alloc; "{ip}:{DOOR}")
    }

    /// The reply that advertises the passive port, by the address that a client called; a proxy is called at 198.51.100.1.
    pub fn entering(self, alloc: Global) -> Result<String, AllocError> {
        let [a, b, c, d] = if self.is_proxied {
            [198, 51, 100, 1]
        } else {
            self.ip.octets()
        };
        format!(in alloc; "227 Entering Passive Mode ({a},{b},{c},{d},195,80)\r\n")
    }
}
