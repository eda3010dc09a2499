//! Addresses of peers.

ghost use Rattle.std.specs.Prelude.{◌≡◌};
ghost use Rattle.ftp_base.specs.Net.{same_ip, is_v6, ipv4};

/// An address of IP version 4 or 6, as one number in network order.
#[derive(Clone, Copy, Debug, PartialEq, Eq)]
pub enum IpAddr {
    V4(u32),
    V6(u128),
}

impl IpAddr {
    /// Says whether both are the same address of the same version.
    pub fn is_same(self, other: IpAddr) -> bool
        ensures { result ≡ same_ip self other }
    {
        match (self, other) {
            (IpAddr::V4(a), IpAddr::V4(b)) => a == b,
            (IpAddr::V6(a), IpAddr::V6(b)) => a == b,
            _ => false,
        }
    }

    pub fn is_v6(self) -> bool
        ensures { result ≡ is_v6 self }
    {
        matches!(self, IpAddr::V6(_))
    }

    /// The number of an address of version 4.
    pub fn ipv4(self) -> Option<u32>
        ensures { result ≡ ipv4 self }
    {
        match self {
            IpAddr::V4(ip) => Some(ip),
            IpAddr::V6(_) => None,
        }
    }
}

#[derive(Clone, Copy, Debug, PartialEq, Eq)]
pub struct SocketAddr {
    pub ip: IpAddr,
    pub port: u16,
}

/// Both ends of a connection: who opened it, and to where.
#[derive(Clone, Copy, Debug, PartialEq, Eq)]
pub struct SocketAddrPair {
    pub source: SocketAddr,
    pub destination: SocketAddr,
}
