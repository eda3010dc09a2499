//! The text of a PORT (RFC 959, section 4.1.2).

ghost use Rattle.std.specs.Prelude.{◌≡◌, ◌≤◌, length, true};
ghost use Rattle.std.specs.List.{list_all, slice_split};
ghost use Rattle.std.specs.Option.{option_map};
ghost use Rattle.std.specs.Char.{is_ascii_digit};
ghost use Rattle.ftp_proxy.specs.Header.{pieces};
ghost use Rattle.ftp_events.specs.Text.{octet_of, port_target, six};

use ftp_base::{IpAddr, SocketAddr};
use ftp_proxy::{cut, value_below};

/// The address that six numbers of a byte give, joined by commas: an IPv4 address and a port.
///
/// # Proved
///
/// - The address that the text of a PORT gives, or that it gives none: six numbers below 256 of one to three digits,
///   with commas between them.
pub fn port_target(text: &[u8]) -> Option<SocketAddr>
    ensures { result ≡ port_target text.now }
{
    let (a, b, c, d, high, low) = sixths(text)?;
    let ip = [octet(a)?, octet(b)?, octet(c)?, octet(d)?];
    let high = octet(high)?;
    let low = octet(low)?;
    Some(SocketAddr {
        ip: IpAddr::V4(u32::from_be_bytes(ip)),
        port: 256 * u16::from(high) + u16::from(low),
    })
}

// The six pieces between commas, where there are just so many.
fn sixths(text: &[u8]) -> Option<(&[u8], &[u8], &[u8], &[u8], &[u8], &[u8])>
    ensures { option_map (λ q. (q.0.now, q.1.now, q.2.now, q.3.now, q.4.now, q.5.now)) result ≡ six (pieces 44 text.now) }
{
    let (first, rest) = cut(text, b',');
    let (second, rest) = cut(rest?, b',');
    let (third, rest) = cut(rest?, b',');
    let (fourth, rest) = cut(rest?, b',');
    let (fifth, rest) = cut(rest?, b',');
    let (sixth, rest) = cut(rest?, b',');
    match rest {
        Some(_) => None,
        None => Some((first, second, third, fourth, fifth, sixth)),
    }
}

// A number of a byte, in one to three digits.
fn octet(text: &[u8]) -> Option<u8>
    ensures { result ≡ octet_of text.now }
{
    if text.is_empty() || text.len() > 3 || !are_digits(text) {
        return None;
    }
    let n = value_below(text, 256)?;
    Some(n as u8)
}

fn are_digits(text: &[u8]) -> bool
    ensures { result ≡ list_all is_ascii_digit text.now }
{
    text.iter().all(|b| b.is_ascii_digit())
}
