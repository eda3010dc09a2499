//! Keys of the switchboard.

ghost use Rattle.std.specs.Prelude.{◌≡◌};
ghost use Rattle.ftp_switchboard.specs.Pairs.{key_of_pair};

use ftp_base::{IpAddr, SocketAddrPair};

/// A client's IPv4 address, as one number in network order, and a port of the server.
#[derive(Clone, Copy, Debug, PartialEq, Eq, Hash)]
pub struct SwitchboardKey {
    pub source: u32,
    pub port: u16,
}

// The key of a connection, whose source has to be an IPv4 address.
pub(crate) fn key_of(c: &SocketAddrPair) -> Option<SwitchboardKey>
    ensures { result ≡ key_of_pair c.now }
{
    match c.source.ip {
        IpAddr::V4(source) => Some(SwitchboardKey {
            source,
            port: c.destination.port,
        }),
        IpAddr::V6(_) => None,
    }
}
