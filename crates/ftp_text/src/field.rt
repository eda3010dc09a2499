//! Reading the fields of a line, each with the bytes behind it. A field begins with the space before it.

ghost use Rattle.std.specs.Prelude.{◌≡◌, ◌^◌, ◌<◌, ◌≤◌, length, take, drop, codes, IfOk, MatchOption};
ghost use Rattle.ftp_base.specs.declared.net.IpAddr.TheVariants.{V6};
ghost use Rattle.std.specs.List.{prefix_len, position_or_len};
ghost use Rattle.std.specs.Char.{is_ascii_digit};
ghost use Rattle.std.specs.Str.Parse.{AllDigits, digits_value};
ghost use Rattle.ftp_text.specs.Reading.{Gives, made, behind, before_text, after, literal_at, is_space, numeral, number_at, small_at, dotted_at, port_at_colon, ipv4_at, hex_numeral, hex_word_at, ipv6_at, address_at, ip_at, number_field, small_field, address_field, ip_field, optional_field, text_field, optional_text_field, ticket_field, hex_word_field, word_at, hex_field, word_as, word_value, named_or_none, last_value};
ghost use Rattle.ftp_base.specs.Reply.{code_text};
ghost use Rattle.std.specs.Map.{lookup};
ghost use Rattle.std.specs.Str.{bytes_eq};

use crate::fault::{LineFault, Parsed};
use crate::text::{self, nibble, whole_text};
use crate::word::{code_named, value_or_none};
use ftp_base::{Bytes, IpAddr, ReplyCode, SocketAddr, value_named};
use std::alloc::Global;

// Reads fields, each behind the one before it, and gives what is made of them, with the bytes behind the last.
macro_rules! fields {
    ($bytes:expr; $($name:pat = $read:ident($($arg:expr),*)),+ => $made:expr) => {{
        let rest = $bytes;
        $(let ($name, rest) = $read($($arg,)* rest)?;)+
        Ok(($made, rest))
    }};
}

pub(crate) use fields;

// Behind the byte `c`.
//
// # Proved
//
// - A field is read exactly where something is spelled so, with the bytes behind it.
pub(crate) fn after(c: u8, bytes: &[u8]) -> Result<&[u8], LineFault>
    ensures { Gives (λ x. x.now) result (after c bytes.now) }
{
    match bytes {
        [b, rest @ ..] if *b == c => Ok(rest),
        _ => Err(LineFault::Bad),
    }
}

/// The bytes behind a text that stands at the front.
pub fn literal<'a>(text: &[u8], bytes: &'a [u8]) -> Result<&'a [u8], LineFault>
    ensures { Gives (λ x. x.now) result (literal_at text.now bytes.now) }
{
    if bytes.len() < text.len() {
        return Err(LineFault::Bad);
    }
    let (front, rest) = bytes.split_at(text.len());
    if front == text {
        Ok(rest)
    } else {
        Err(LineFault::Bad)
    }
}

// How many digits stand at the front.
fn digits(bytes: &[u8]) -> usize
    ensures count { result ≡ prefix_len is_ascii_digit bytes.now }
    ensures within { result ≤ length bytes.now }
{
    for (i, b) in bytes.iter().enumerate() {
        if !b.is_ascii_digit() {
            return i;
        }
    }
    bytes.len()
}

// The value of the digits, or None where it needs more than 64 bits.
fn value(digits: &[u8]) -> Option<u64>
    requires { AllDigits 10 digits.now }
    ensures { MatchOption result (2 ^ 64 ≤ digits_value 10 digits.now)
        (λ n. (n ≡ digits_value 10 digits.now) × (n < 2 ^ 64)) }
{
    let mut value: u64 = 0;
    for digit in digits {
        let digit = u64::from(*digit - b'0');
        if value > (u64::MAX - digit) / 10 {
            return None;
        }
        value = value * 10 + digit;
    }
    Some(value)
}

// The number that the digits spell, without leading zeros.
fn numeral(digits: &[u8]) -> Result<u64, LineFault>
    requires { AllDigits 10 digits.now }
    ensures { Gives (λ x. x) result (numeral digits.now) }
{
    if digits.is_empty() {
        return Err(LineFault::Bad);
    }
    if digits.len() > 1 && digits[0] == b'0' {
        return Err(LineFault::Bad);
    }
    match value(digits) {
        Some(n) => Ok(n),
        None => Err(LineFault::Bad),
    }
}

/// The number whose digits stand at the front.
#[tactic(auto, unfolding(crate::specs::Reading::number_at))]
pub fn number_here(bytes: &[u8]) -> Parsed<'_, u64>
    ensures { Gives (λ x. (x.0, x.1.now)) result (number_at bytes.now) }
{
    let (front, rest) = bytes.split_at(digits(bytes));
    let n = numeral(front)?;
    Ok((n, rest))
}

/// The number below the limit whose digits stand at the front.
#[tactic(auto, unfolding(crate::specs::Reading::small_at))]
pub fn small_here(limit: u64, bytes: &[u8]) -> Parsed<'_, u64>
    ensures read { Gives (λ x. (x.0, x.1.now)) result (small_at limit bytes.now) }
    ensures limit { IfOk result (λ x. x.0 < limit) }
{
    let (n, rest) = number_here(bytes)?;
    if n < limit {
        Ok((n, rest))
    } else {
        Err(LineFault::Bad)
    }
}

/// The IPv4 address that stands at the front: four numbers joined by dots, as one number.
#[tactic(auto, unfolding(crate::specs::Reading::dotted_at))]
pub fn dotted_here(bytes: &[u8]) -> Parsed<'_, u32>
    ensures { Gives (λ x. (x.0, x.1.now)) result (dotted_at bytes.now) }
{
    let (a, rest) = small_here(256, bytes)?;
    let (b, rest) = small_here(256, after(b'.', rest)?)?;
    let (c, rest) = small_here(256, after(b'.', rest)?)?;
    let (d, rest) = small_here(256, after(b'.', rest)?)?;
    Ok((
        u32::from_be_bytes([a as u8, b as u8, c as u8, d as u8]),
        rest,
    ))
}

/// The port whose digits stand at the front.
pub fn port_here(bytes: &[u8]) -> Parsed<'_, u16>
    ensures { Gives (λ x. (x.0, x.1.now)) result (small_at (2 ^ 16) bytes.now) }
{
    let (n, rest) = small_here(65536, bytes)?;
    Ok((n as u16, rest))
}

fn port_at_colon(bytes: &[u8]) -> Parsed<'_, u16>
    ensures { Gives (λ x. (x.0, x.1.now)) result (port_at_colon bytes.now) }
{
    port_here(after(b':', bytes)?)
}

#[tactic(auto, unfolding(crate::specs::Reading::ipv4_at))]
fn ipv4(bytes: &[u8]) -> Parsed<'_, SocketAddr>
    ensures { Gives (λ x. (x.0, x.1.now)) result (ipv4_at bytes.now) }
{
    let (ip, rest) = dotted_here(bytes)?;
    let (port, rest) = port_at_colon(rest)?;
    let ip = IpAddr::V4(ip);
    Ok((SocketAddr { ip, port }, rest))
}

// The number that the hexadecimal digits spell, of which there are 32.
fn hex_value(digits: &[u8]) -> Option<u128>
    requires { length digits.now ≡ 32 }
    ensures { result ≡ hex_numeral digits.now }
{
    let mut value: u128 = 0;
    for c in digits {
        let Some(digit) = nibble(*c) else {
            return None;
        };
        value = value * 16 + digit as u128;
    }
    Some(value)
}

// The number that 32 hexadecimal digits spell.
#[tactic(auto, unfolding(crate::specs::Reading::hex_word_at))]
fn hex_word_here(bytes: &[u8]) -> Parsed<'_, u128>
    ensures { Gives (λ x. (x.0, x.1.now)) result (hex_word_at bytes.now) }
{
    if bytes.len() < 32 {
        return Err(LineFault::Bad);
    }
    let (digits, rest) = bytes.split_at(32);
    match hex_value(digits) {
        Some(n) => Ok((n, rest)),
        None => Err(LineFault::Bad),
    }
}

#[tactic(auto, unfolding(crate::specs::Reading::ipv6_at))]
fn ipv6(bytes: &[u8]) -> Parsed<'_, SocketAddr>
    ensures { Gives (λ x. (x.0, x.1.now)) result (ipv6_at bytes.now) }
{
    let (ip, rest) = hex_word_here(after(b'[', bytes)?)?;
    let (port, rest) = port_at_colon(after(b']', rest)?)?;
    let ip = IpAddr::V6(ip);
    Ok((SocketAddr { ip, port }, rest))
}

#[tactic(auto, unfolding(crate::specs::Reading::address_at))]
fn address_here(bytes: &[u8]) -> Parsed<'_, SocketAddr>
    ensures { Gives (λ x. (x.0, x.1.now)) result (address_at bytes.now) }
{
    match bytes {
        [b'[', ..] => ipv6(bytes),
        _ => ipv4(bytes),
    }
}

// The IPv6 address that stands in brackets at the front.
fn ip_in_brackets(bytes: &[u8]) -> Parsed<'_, IpAddr>
    ensures { Gives (λ x. (x.0, x.1.now)) result (made V6 (behind 91 (before_text (codes "]") hex_word_at)) bytes.now) }
{
    let (ip, rest) = hex_word_here(after(b'[', bytes)?)?;
    let rest = literal(b"]", rest)?;
    Ok((IpAddr::V6(ip), rest))
}

#[tactic(auto, unfolding(crate::specs::Reading::ip_at))]
fn ip_here(bytes: &[u8]) -> Parsed<'_, IpAddr>
    ensures { Gives (λ x. (x.0, x.1.now)) result (ip_at bytes.now) }
{
    match bytes {
        [b'[', ..] => ip_in_brackets(bytes),
        _ => {
            let (ip, rest) = dotted_here(bytes)?;
            Ok((IpAddr::V4(ip), rest))
        }
    }
}

/// A number of 64 bits.
pub fn number(bytes: &[u8]) -> Parsed<'_, u64>
    ensures { Gives (λ x. (x.0, x.1.now)) result (number_field bytes.now) }
{
    number_here(after(b' ', bytes)?)
}

/// A number below the limit.
pub fn small(limit: u64, bytes: &[u8]) -> Parsed<'_, u64>
    ensures read { Gives (λ x. (x.0, x.1.now)) result (small_field limit bytes.now) }
    ensures limit { IfOk result (λ x. x.0 < limit) }
{
    small_here(limit, after(b' ', bytes)?)
}

/// A port.
pub fn port(bytes: &[u8]) -> Parsed<'_, u16>
    ensures { Gives (λ x. (x.0, x.1.now)) result (small_field (2 ^ 16) bytes.now) }
{
    port_here(after(b' ', bytes)?)
}

/// An address and a port.
pub fn address(bytes: &[u8]) -> Parsed<'_, SocketAddr>
    ensures { Gives (λ x. (x.0, x.1.now)) result (address_field bytes.now) }
{
    address_here(after(b' ', bytes)?)
}

/// An address without a port.
pub fn ip(bytes: &[u8]) -> Parsed<'_, IpAddr>
    ensures { Gives (λ x. (x.0, x.1.now)) result (ip_field bytes.now) }
{
    ip_here(after(b' ', bytes)?)
}

// A field, or a hyphen where it is missing.
macro_rules! optional {
    ($read:ident, $bytes:expr) => {
        match after(b' ', $bytes)? {
            [b'-', rest @ ..] => Ok((None, rest)),
            rest => {
                let (value, rest) = $read(rest)?;
                Ok((Some(value), rest))
            }
        }
    };
}

/// An address without a port that may be missing.
#[tactic(auto, unfolding(crate::specs::Reading::optional_field))]
pub fn optional_ip(bytes: &[u8]) -> Parsed<'_, Option<IpAddr>>
    ensures { Gives (λ x. (x.0, x.1.now)) result (optional_field ip_at bytes.now) }
{
    optional!(ip_here, bytes)
}

/// A number of 64 bits that may be missing.
#[tactic(auto, unfolding(crate::specs::Reading::optional_field))]
pub fn optional_number(bytes: &[u8]) -> Parsed<'_, Option<u64>>
    ensures { Gives (λ x. (x.0, x.1.now)) result (optional_field number_at bytes.now) }
{
    optional!(number_here, bytes)
}

/// A port that may be missing.
#[tactic(auto, unfolding(crate::specs::Reading::optional_field))]
pub fn optional_port(bytes: &[u8]) -> Parsed<'_, Option<u16>>
    ensures { Gives (λ x. (x.0, x.1.now)) result (optional_field (small_at (2 ^ 16)) bytes.now) }
{
    optional!(port_here, bytes)
}

/// An IPv4 address that may be missing.
#[tactic(auto, unfolding(crate::specs::Reading::optional_field))]
pub fn optional_dotted(bytes: &[u8]) -> Parsed<'_, Option<u32>>
    ensures { Gives (λ x. (x.0, x.1.now)) result (optional_field dotted_at bytes.now) }
{
    optional!(dotted_here, bytes)
}

/// A text, up to the end of the line.
#[tactic(auto, unfolding(crate::specs::Reading::text_field))]
pub fn text_to_end(alloc: Global, bytes: &[u8]) -> Parsed<'_, Bytes>
    ensures { Gives (λ x. (x.0, x.1.now)) result (text_field bytes.now) }
{
    let text = whole_text(alloc, after(b' ', bytes)?)?;
    Ok((text, &[]))
}

/// A text up to the end of the line, or none where the line ends here.
#[tactic(auto, unfolding(crate::specs::Reading::optional_text_field))]
pub fn optional_text(alloc: Global, bytes: &[u8]) -> Parsed<'_, Option<Bytes>>
    ensures { Gives (λ x. (x.0, x.1.now)) result (optional_text_field bytes.now) }
{
    if bytes.is_empty() {
        return Ok((None, bytes));
    }
    let (text, rest) = text_to_end(alloc, bytes)?;
    Ok((Some(text), rest))
}

/// The numbers of a session and of a transfer in it.
pub fn ticket(bytes: &[u8]) -> Result<(u64, u64, &[u8]), LineFault>
    ensures { Gives (λ x. ((x.0, x.1), x.2.now)) result (ticket_field bytes.now) }
{
    let (session, rest) = number(bytes)?;
    let (nr, rest) = number_here(after(b'.', rest)?)?;
    Ok((session, nr, rest))
}

/// A number of 128 bits, in 32 hexadecimal digits.
pub fn hex_word(bytes: &[u8]) -> Parsed<'_, u128>
    ensures { Gives (λ x. (x.0, x.1.now)) result (hex_word_field bytes.now) }
{
    hex_word_here(after(b' ', bytes)?)
}

// How many bytes stand before the first space.
fn word_len(bytes: &[u8]) -> usize
    ensures count { result ≡ position_or_len is_space bytes.now }
    ensures within { result ≤ length bytes.now }
{
    for (i, b) in bytes.iter().enumerate() {
        if *b == b' ' {
            return i;
        }
    }
    bytes.len()
}

/// The bytes before the first space, and those from it on.
pub fn first_word(bytes: &[u8]) -> (&[u8], &[u8])
    ensures word { result.0.now ≡ take (position_or_len is_space bytes.now) bytes.now }
    ensures rest { result.1.now ≡ drop (position_or_len is_space bytes.now) bytes.now }
{
    bytes.split_at(word_len(bytes))
}

/// A word, up to the next space or the end.
#[tactic(auto, unfolding(crate::specs::Reading::word_at))]
pub fn word(bytes: &[u8]) -> Parsed<'_, &[u8]>
    ensures { Gives (λ x. (x.0.now, x.1.now)) result (word_at bytes.now) }
{
    let rest = after(b' ', bytes)?;
    Ok(rest.split_at(word_len(rest)))
}

/// Bytes in hexadecimal digits.
#[tactic(auto, unfolding(crate::specs::Reading::hex_field))]
pub fn hex_bytes(alloc: Global, bytes: &[u8]) -> Parsed<'_, Bytes>
    ensures { Gives (λ x. (x.0, x.1.now)) result (hex_field bytes.now) }
{
    let (word, rest) = word(bytes)?;
    let found = text::hex_bytes(alloc, word)?;
    Ok((found, rest))
}

/// The value that was read, where it takes all of the bytes.
pub(crate) fn whole<V: Drop>(read: (V, &[u8])) -> Result<V, LineFault>
    ensures { Gives (λ x. x) result (last_value read.entry.0 read.entry.1.now) }
{
    let (value, rest) = read;
    if rest.is_empty() {
        Ok(value)
    } else {
        Err(LineFault::Bad)
    }
}

/// The value of a table that the whole word spells.
pub(crate) fn named<V: Copy>(table: &[(&[u8], V)], word: &[u8]) -> Result<V, LineFault>
    ensures { Gives (λ x. x) result (lookup (λ name. bytes_eq name.now word.now) table.now) }
{
    value_named(table, word).ok_or(LineFault::Bad)
}

/// The value that a word of the table spells.
///
/// # Proved
///
/// - A word is read exactly where it is one of its table.
pub fn word_value<'a, V: Copy>(table: &[(&[u8], V)], bytes: &'a [u8]) -> Parsed<'a, V>
    ensures { Gives (λ x. (x.0, x.1.now)) result (word_as (λ word. lookup (λ name. bytes_eq name.now word) table.now) bytes.now) }
{
    let (word, rest) = word(bytes)?;
    let value = named(table, word)?;
    Ok((value, rest))
}

/// The value that a word of the table spells, or the word for none.
pub(crate) fn word_or_none<'a, V: Copy>(
    none: &[u8],
    table: &[(&[u8], V)],
    bytes: &'a [u8],
) -> Parsed<'a, Option<V>>
    ensures { Gives (λ x. (x.0, x.1.now)) result (word_as (named_or_none none.now table.now) bytes.now) }
{
    let (word, rest) = word(bytes)?;
    match value_or_none(none, table, word) {
        Some(value) => Ok((value, rest)),
        None => Err(LineFault::Bad),
    }
}

/// The code of the table that a word spells.
#[tactic(auto, unfolding(crate::specs::Reading::word_value))]
pub(crate) fn reply_code<'a>(table: &[ReplyCode], bytes: &'a [u8]) -> Parsed<'a, ReplyCode>
    ensures { Gives (λ x. (x.0, x.1.now)) result (word_value code_text table.now bytes.now) }
{
    let (word, rest) = word(bytes)?;
    match code_named(table, word) {
        Some(code) => Ok((code, rest)),
        None => Err(LineFault::Bad),
    }
}
