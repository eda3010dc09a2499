//! Where a server listens, as a text says it.

ghost use Rattle.std.specs.Prelude.{◌≡◌, ◌≢◌, ℕ, ◌-◌, ◌<◌, ◌≤◌, ◌==◌, ◌++◌, false, List, length, get_or, codes, IfSome, IsNone, MatchOption};
ghost use Rattle.ftp_base.specs.declared.net.IpAddr.{IpAddr};
ghost use Rattle.ftp_base.specs.declared.net.SocketAddr.{SocketAddr};
ghost use Rattle.ftp_system.specs.Listen.{IsHostText, IsBindText};
ghost use Rattle.ftp_base.specs.Decimal.{decimal_below};

use ftp_base::{IpAddr, SocketAddr, is_decimal};
use ftp_proxy::value_below;
use std::net::{Ipv4Addr, Ipv6Addr};

/// The address and the port that the text writes: `127.0.0.1:21` or `[::1]:21`.
///
/// # Proved
///
/// - A text is the address and the port that it writes, and none exactly where it writes none (`IsBindText` in
///   `ftp_system/specs/Listen.antt`); a port is what its digits write (`written`, `none`; also `port_of`: `number`).
pub fn bind_address(text: &[u8]) -> Option<SocketAddr>
    ensures written { IfSome result (IsBindText text.now) }
    ensures none { IsNone result → (at : SocketAddr) → ¬ (IsBindText text.now at) }
{
    let behind = behind_last_colon(text);
    if behind == 0 {
        return None;
    }
    let ip = host_ip(&text[..behind - 1])?;
    let port = port_of(&text[behind..])?;
    Some(SocketAddr { ip, port })
}

// The place behind the last colon, or 0 where there is none.
fn behind_last_colon(text: &[u8]) -> usize
    ensures within { result ≤ length text.now }
    ensures colon { 0 < result → get_or text.now (result - 1) 0 ≡ 58 }
    ensures last { (k : ℕ) → result ≤ k → k < length text.now → (get_or text.now k 0 == 58) ≡ false }
{
    let mut behind = 0;
    for (i, b) in text.iter().enumerate() {
        if *b == b':' {
            behind = i + 1;
        }
    }
    behind
}

/// The port that decimal digits write, of which a zero leads no other.
pub fn port_of(text: &[u8]) -> Option<u16>
    ensures number { result ≡ decimal_below 65536 text.now }
{
    if !is_decimal(text) {
        return None;
    }
    let port = value_below(text, 65536)?;
    Some(port as u16)
}

// The address that the text writes.
fn host_ip(text: &[u8]) -> Option<IpAddr>
    ensures written { IfSome result (IsHostText text.now) }
    ensures none { IsNone result → (ip : IpAddr) → ¬ (IsHostText text.now ip) }
{
    if let Ok(ip) = Ipv4Addr::parse_ascii(text) {
        return Some(IpAddr::V4(ip.to_bits()));
    }
    let inner = in_brackets(text)?;
    match Ipv6Addr::parse_ascii(inner) {
        Ok(ip) => Some(IpAddr::V6(ip.to_bits())),
        Err(_) => None,
    }
}

// What stands between brackets.
fn in_brackets(text: &[u8]) -> Option<&[u8]>
    ensures found { IfSome result (λ inner. text.now ≡ codes "[" ++ inner.now ++ codes "]") }
    ensures none { IsNone result → (inner : List ℕ) → text.now ≢ codes "[" ++ inner ++ codes "]" }
{
    if let [b'[', inner @ .., b']'] = text {
        return Some(inner);
    }
    None
}
