//! The text of a PROXY line.

ghost use Rattle.std.specs.Prelude.{◌≡◌, [], List, ℕ, IsErrOf};
ghost use Rattle.std.specs.List.{list_all};
ghost use Rattle.std.specs.Option.{option_map, option_map_or};
ghost use Rattle.ftp_base.specs.Decimal.{decimal_below};
ghost use Rattle.ftp_proxy.specs.Header.{pieces, ipv4_of, endpoint_of, is_ipv6_byte, is_ipv6, tcp4_of, is_tcp6, header_outcome, protocol_outcome};

use crate::error::{ProxyError, ReadError};
use crate::number::number;
use crate::pieces::{cut, quarters};
use ftp_base::{IpAddr, SocketAddr};

/// The connection that the proxy passes on: the client, and the address that it called.
#[derive(Clone, Copy, Debug, PartialEq, Eq)]
pub struct ProxyHeader {
    pub source: SocketAddr,
    pub destination: SocketAddr,
}

/// What the text says, which stands before CR and LF.
pub fn header(text: &[u8]) -> Result<ProxyHeader, ProxyError>
    ensures outcome { result ≡ header_outcome (pieces 32 text.now) }
    ensures read { IsErrOf result (ProxyError.ReadError ReadError.Fault) → ⊥ }
{
    let (word, rest) = cut(text, b' ');
    let Some(rest) = rest else {
        return Err(ProxyError::DecodeError);
    };
    if word == b"PROXY".as_slice() {
        let (protocol, fields) = cut(rest, b' ');
        return by_protocol(protocol, fields);
    }
    Err(ProxyError::DecodeError)
}

fn by_protocol(protocol: &[u8], fields: Option<&[u8]>) -> Result<ProxyHeader, ProxyError>
    ensures outcome { result ≡ protocol_outcome protocol.now (option_map_or (λ rest. pieces 32 rest.now) fields.entry []) }
    ensures read { IsErrOf result (ProxyError.ReadError ReadError.Fault) → ⊥ }
{
    if protocol == b"UNKNOWN".as_slice() {
        return Err(ProxyError::UnsupportedVersion);
    }
    if protocol == b"TCP4".as_slice() {
        return tcp4(fields).ok_or(ProxyError::DecodeError);
    }
    if protocol == b"TCP6".as_slice() && is_tcp6(fields) {
        return Err(ProxyError::IPv4Required);
    }
    Err(ProxyError::DecodeError)
}

// Both addresses of version 4, then both ports.
fn tcp4(fields: Option<&[u8]>) -> Option<ProxyHeader>
    ensures { result ≡ tcp4_of (option_map_or (λ rest. pieces 32 rest.now) fields.entry []) }
{
    let (source, destination, p, q) = quarters(fields?, b' ')?;
    let source = endpoint(source, p)?;
    let destination = endpoint(destination, q)?;
    Some(ProxyHeader {
        source,
        destination,
    })
}

fn endpoint(address: &[u8], number: &[u8]) -> Option<SocketAddr>
    ensures { result ≡ endpoint_of address.now number.now }
{
    let ip = ipv4(address)?;
    let port = port(number)?;
    Some(SocketAddr { ip, port })
}

// Says whether both addresses are of version 6, and both ports stand behind them.
fn is_tcp6(fields: Option<&[u8]>) -> bool
    ensures { result ≡ is_tcp6 (option_map_or (λ rest. pieces 32 rest.now) fields.entry []) }
{
    let Some(fields) = fields else {
        return false;
    };
    match quarters(fields, b' ') {
        Some((source, destination, p, q)) => {
            is_ipv6(source) && is_ipv6(destination) && port(p).is_some() && port(q).is_some()
        }
        None => false,
    }
}

// Four numbers joined by dots.
fn ipv4(text: &[u8]) -> Option<IpAddr>
    ensures { result ≡ option_map (λ ip. IpAddr.V4 ip) (ipv4_of text.now) }
{
    let (a, b, c, d) = quarters(text, b'.')?;
    let numbers = [octet(a)?, octet(b)?, octet(c)?, octet(d)?];
    Some(IpAddr::V4(u32::from_be_bytes(numbers)))
}

fn octet(text: &[u8]) -> Option<u8>
    ensures { result ≡ decimal_below 256 text.now }
{
    let n = number(text, 256)?;
    Some(n as u8)
}

fn port(text: &[u8]) -> Option<u16>
    ensures { result ≡ decimal_below 65536 text.now }
{
    let n = number(text, 65536)?;
    Some(n as u16)
}

// Says whether the text looks like an address of version 6.
fn is_ipv6(text: &[u8]) -> bool
    ensures { result ≡ is_ipv6 text.now }
{
    2 <= text.len() && text.len() <= 45 && are_ipv6_bytes(text)
}

fn are_ipv6_bytes(text: &[u8]) -> bool
    ensures { result ≡ list_all is_ipv6_byte text.now }
{
    text.iter().all(|b| is_ipv6_byte(*b))
}

fn is_ipv6_byte(b: u8) -> bool
    ensures { result ≡ is_ipv6_byte b }
{
    b.is_ascii_hexdigit() || b == b':' || b == b'.'
}
