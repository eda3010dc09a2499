//! What a header of version 2 says.

use ftp_base::{Bytes, Rows, SocketAddrPair};

/// A header of version 2.
#[derive(Debug, PartialEq, Eq, Drop)]
pub struct Header2 {
    /// The family of the addresses in the high four bits; in the low ones 1 for a stream and 2 for datagrams.
    pub family: u8,
    pub body: Body,
}

/// What stands behind the length of a header.
#[derive(Debug, PartialEq, Eq, Drop)]
pub enum Body {
    /// The proxy speaks for itself, as in a health check. The block is not looked into.
    LocalBlock(Bytes),
    /// The proxy does not tell the addresses. The block is not looked into.
    UnspecBlock(Bytes),
    /// Addresses of version 4.
    Inet {
        pair: SocketAddrPair,
        fields: Fields,
    },
    /// Addresses of version 6.
    Inet6 {
        pair: SocketAddrPair,
        fields: Fields,
    },
    /// Names of Unix sockets, each of 108 bytes.
    Unix {
        source: Bytes,
        destination: Bytes,
        fields: Fields,
    },
}

/// A field behind the addresses, whose value is not looked into.
#[derive(Debug, PartialEq, Eq, Drop)]
pub struct Field {
    pub kind: u8,
    /// At most 65,535 bytes.
    pub value: Bytes,
}

impl Field {
    /// The name that the client called, as of TLS (section 2.2.2).
    pub const AUTHORITY: u8 = 0x02;
    /// The connection's identifier (section 2.2.5).
    pub const UNIQUE_ID: u8 = 0x05;
    /// What the proxy knows of the client's TLS (section 2.2.6).
    pub const SSL: u8 = 0x20;
}

/// Fields in their order, which contracts see as a list.
pub type Fields = Rows<Field>;
