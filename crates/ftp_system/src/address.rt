//! Addresses in both spellings.

ghost use Rattle.std.specs.Prelude.{◌≡◌};
ghost use Rattle.ftp_system.specs.Address.{told, IsStdAddress};

use ftp_base::{IpAddr, SocketAddr};
use std::net;
use std::net::{Ipv4Addr, Ipv6Addr};

/// The address that the system told.
///
/// # Proved
///
/// - Addresses are the same in both spellings (`told`; also `std_address`: `same`).
pub fn told_address(address: net::SocketAddr) -> SocketAddr
    ensures told { result ≡ told address }
{
    let ip = match address.ip() {
        net::IpAddr::V4(ip) => IpAddr::V4(ip.to_bits()),
        net::IpAddr::V6(ip) => IpAddr::V6(ip.to_bits()),
    };
    SocketAddr {
        ip,
        port: address.port(),
    }
}

/// The address as it is told to the system.
pub fn std_address(address: SocketAddr) -> net::SocketAddr
    ensures same { IsStdAddress address result }
{
    match address.ip {
        IpAddr::V4(ip) => net::SocketAddr::from((Ipv4Addr::from_bits(ip), address.port)),
        IpAddr::V6(ip) => net::SocketAddr::from((Ipv6Addr::from_bits(ip), address.port)),
    }
}
