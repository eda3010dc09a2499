//! Texts, whose bytes are escaped, and bytes in pairs of hexadecimal digits.

ghost use Rattle.std.specs.Prelude.{◌≡◌, None, option_map};
ghost use Rattle.std.specs.Char.{is_ascii_uppercase};
ghost use Rattle.std.specs.List.{list_any};
ghost use Rattle.ftp_text.specs.Fields.{is_plain};
ghost use Rattle.ftp_text.specs.Reading.{Gives, SpellsNibble, escaped_at, text_byte_at, text_of, hex_from, hex_of};

use crate::fault::{LineFault, Parsed};
use ftp_base::Bytes;
use std::alloc::Global;

// Whether a byte stands for itself in a text.
pub fn is_plain(b: u8) -> bool
    ensures { result ≡ is_plain b }
{
    32 <= b && b <= 126 && b != b'\\'
}

// The value of a digit or a lower-case letter up to f.
pub fn nibble(c: u8) -> Option<u8>
    ensures { SpellsNibble c result }
{
    match c {
        b'0'..=b'9' => Some(c - b'0'),
        b'a'..=b'f' => Some(c - b'a' + 10),
        _ => None,
    }
}

// The byte that is spelled behind a backslash, and the bytes behind it.
fn escaped(bytes: &[u8]) -> Option<(u8, &[u8])>
    ensures { option_map (λ x. (x.0, x.1.now)) result ≡ escaped_at bytes.now }
{
    match bytes {
        [b'x', high, low, rest @ ..] => {
            let high = nibble(*high)?;
            let low = nibble(*low)?;
            let n = high * 16 + low;
            if is_plain(n) {
                return None;
            }
            Some((n, rest))
        }
        _ => None,
    }
}

#[tactic(auto, unfolding(crate::specs::Reading::text_byte_at))]
fn text_byte(bytes: &[u8]) -> Parsed<'_, u8>
    ensures { Gives (λ x. (x.0, x.1.now)) result (text_byte_at bytes.now) }
{
    match bytes {
        [] => Err(LineFault::Bad),
        [c, rest @ ..] => {
            if is_plain(*c) {
                return Ok((*c, rest));
            }
            if *c == b'\\' {
                return escaped(rest).ok_or(LineFault::Bad);
            }
            Err(LineFault::Bad)
        }
    }
}

/// The text that all of the bytes spell.
pub fn whole_text(alloc: Global, bytes: &[u8]) -> Result<Bytes, LineFault>
    ensures { Gives (λ x. x) result (text_of bytes.now) }
{
    let mut out = Vec::with_capacity(alloc, bytes.len())?;
    let mut rest = bytes;
    while !rest.is_empty() {
        let (b, behind) = text_byte(rest)?;
        out.push(b)?;
        rest = behind;
    }
    Ok(Bytes::from_vec(out))
}

// Whether one of the digits is an upper-case letter.
fn has_upper(digits: &[u8]) -> bool
    ensures { result ≡ list_any is_ascii_uppercase digits.now }
{
    digits.iter().any(|c| c.is_ascii_uppercase())
}

// The bytes that pairs of digits spell. The crate `hex` reads upper-case letters too.
fn hex_pairs(alloc: Global, digits: &[u8]) -> Result<Bytes, LineFault>
    ensures { Gives (λ x. x) result (hex_from None digits.now) }
{
    let bytes = hex::decode(alloc, digits)?;
    if has_upper(digits) {
        return Err(LineFault::Bad);
    }
    Ok(Bytes::from_vec(bytes))
}

/// The bytes that a hexadecimal text spells: a dot for none, else a pair of lower-case digits for each.
#[tactic(auto, unfolding(crate::specs::Reading::hex_of))]
pub fn hex_bytes(alloc: Global, text: &[u8]) -> Result<Bytes, LineFault>
    ensures { Gives (λ x. x) result (hex_of text.now) }
{
    match text {
        [] => Err(LineFault::Bad),
        [b'.'] => Ok(Bytes::from_vec(Vec::new(alloc))),
        _ => hex_pairs(alloc, text),
    }
}
