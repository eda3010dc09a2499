//! Writing the fields of a line. What is written stands behind what the buffer holds, and after an error the
//! buffer is thrown away.

ghost use Rattle.std.specs.Prelude.{◌≡◌, ◌++◌, ◌∷◌, ◌<◌, [], false, OnOk, decimal, map};
ghost use Rattle.std.specs.List.{flat_map};
ghost use Rattle.std.specs.Option.{option_copied, option_map_or};
ghost use Rattle.std.specs.Fmt.{digit_glyph, digits};
ghost use Rattle.ftp_base.specs.Trace.{trace_text};
ghost use Rattle.ftp_text.specs.Fields.{field, number, hex_byte, hex_digits, hex_text, dotted, ip_text, address_text, escape_byte, escape, optional, optional_text, ticket, word_in, answer_text, kind_text, refusal_text, fault_text, proxy_error_text};

use crate::text::is_plain;
use crate::word::{ANSWERS, FAULTS, KINDS, PROXY_ERRORS, word_in};
use ftp_base::{AuthAnswer, Bytes, ErrorKind, IpAddr, LinkFault, SocketAddr};
use ftp_proxy::ProxyError;
use itoa::Buffer;
use std::alloc::AllocError;

/// Writes the bytes as they are.
///
/// # Proved
///
/// - A field is written as it is spelled.
pub fn put(out: &mut Vec<u8>, bytes: &[u8]) -> Result<(), AllocError>
    ensures { OnOk result (out.new.items ≡ out.old.items ++ bytes.now) }
{
    out.extend_from_slice(bytes)
}

/// Writes one byte.
pub fn put_byte(out: &mut Vec<u8>, b: u8) -> Result<(), AllocError>
    ensures { OnOk result (out.new.items ≡ out.old.items ++ b ∷ []) }
{
    out.push(b)?;
    Ok(())
}

/// Writes a space and the bytes.
pub fn put_field(out: &mut Vec<u8>, text: &[u8]) -> Result<(), AllocError>
    ensures { OnOk result (out.new.items ≡ out.old.items ++ field text.now) }
{
    put_byte(out, b' ')?;
    put(out, text)
}

/// Writes a number without a space before it.
pub fn put_decimal(out: &mut Vec<u8>, n: u64) -> Result<(), AllocError>
    ensures { OnOk result (out.new.items ≡ out.old.items ++ decimal n) }
{
    let mut buffer = Buffer::new();
    out.extend_from_slice(buffer.format(n).as_bytes())
}

/// Writes a space and a number.
pub fn put_number(out: &mut Vec<u8>, n: u64) -> Result<(), AllocError>
    ensures { OnOk result (out.new.items ≡ out.old.items ++ number n) }
{
    put_byte(out, b' ')?;
    put_decimal(out, n)
}

fn put_dot(out: &mut Vec<u8>, n: u8) -> Result<(), AllocError>
    ensures { OnOk result (out.new.items ≡ out.old.items ++ 46 ∷ decimal n) }
{
    put_byte(out, b'.')?;
    put_decimal(out, u64::from(n))
}

fn put_dotted(out: &mut Vec<u8>, ip: u32) -> Result<(), AllocError>
    ensures { OnOk result (out.new.items ≡ out.old.items ++ dotted ip) }
{
    let [a, b, c, d] = ip.to_be_bytes();
    put_decimal(out, u64::from(a))?;
    put_dot(out, b)?;
    put_dot(out, c)?;
    put_dot(out, d)
}

// The digit of a number below 16.
fn glyph(n: u8) -> u8
    requires { n < 16 }
    ensures { result ≡ digit_glyph false n }
{
    if n < 10 { b'0' + n } else { b'a' + (n - 10) }
}

// The last `count` hexadecimal digits of the number.
fn put_hex(out: &mut Vec<u8>, count: u32, n: u128) -> Result<(), AllocError>
    ensures { OnOk result (out.new.items ≡ out.old.items ++ hex_digits count n) }
{
    if count == 0 {
        return Ok(());
    }
    put_hex(out, count - 1, n / 16)?;
    put_byte(out, glyph((n % 16) as u8))
}

fn put_ip(out: &mut Vec<u8>, ip: IpAddr) -> Result<(), AllocError>
    ensures { OnOk result (out.new.items ≡ out.old.items ++ ip_text ip) }
{
    match ip {
        IpAddr::V4(ip) => put_dotted(out, ip),
        IpAddr::V6(ip) => {
            put_byte(out, b'[')?;
            put_hex(out, 32, ip)?;
            put_byte(out, b']')
        }
    }
}

/// Writes a space and an address without a port.
pub fn put_ip_field(out: &mut Vec<u8>, ip: IpAddr) -> Result<(), AllocError>
    ensures { OnOk result (out.new.items ≡ out.old.items ++ field (ip_text ip)) }
{
    put_byte(out, b' ')?;
    put_ip(out, ip)
}

/// Writes a space and an address without a port, or a hyphen for none.
pub fn put_optional_ip(out: &mut Vec<u8>, ip: Option<IpAddr>) -> Result<(), AllocError>
    ensures { OnOk result (out.new.items ≡ out.old.items ++ optional ip_text ip) }
{
    match ip {
        None => put(out, b" -"),
        Some(ip) => put_ip_field(out, ip),
    }
}

/// Writes a space, an address and its port.
pub fn put_address(out: &mut Vec<u8>, address: SocketAddr) -> Result<(), AllocError>
    ensures { OnOk result (out.new.items ≡ out.old.items ++ field (address_text address)) }
{
    put_byte(out, b' ')?;
    put_ip(out, address.ip)?;
    put_byte(out, b':')?;
    put_decimal(out, u64::from(address.port))
}

fn put_text_byte(out: &mut Vec<u8>, b: u8) -> Result<(), AllocError>
    ensures { OnOk result (out.new.items ≡ out.old.items ++ escape_byte b) }
{
    if is_plain(b) {
        return put_byte(out, b);
    }
    put(out, b"\\x")?;
    put_hex_byte(out, b)
}

/// Writes a text with its escapes.
pub fn put_text(out: &mut Vec<u8>, text: &[u8]) -> Result<(), AllocError>
    ensures { OnOk result (out.new.items ≡ out.old.items ++ escape text.now) }
{
    for b in text {
        put_text_byte(out, *b)?;
    }
    Ok(())
}

/// Writes a space and a text with its escapes.
pub fn put_text_field(out: &mut Vec<u8>, text: &[u8]) -> Result<(), AllocError>
    ensures { OnOk result (out.new.items ≡ out.old.items ++ field (escape text.now)) }
{
    put_byte(out, b' ')?;
    put_text(out, text)
}

/// Writes a space and a text with its escapes, or nothing for none.
pub fn put_optional_text(out: &mut Vec<u8>, text: Option<&Bytes>) -> Result<(), AllocError>
    ensures { OnOk result (out.new.items ≡ out.old.items ++ optional_text (option_copied text.entry)) }
{
    match text {
        None => Ok(()),
        Some(text) => put_text_field(out, text.as_slice()),
    }
}

/// Writes a space and the numbers of a session and of a transfer in it.
pub fn put_ticket(out: &mut Vec<u8>, session: u64, nr: u64) -> Result<(), AllocError>
    ensures { OnOk result (out.new.items ≡ out.old.items ++ ticket session nr) }
{
    put_number(out, session)?;
    put_byte(out, b'.')?;
    put_decimal(out, nr)
}

/// Writes a space and a number in 32 hexadecimal digits.
pub fn put_hex_word(out: &mut Vec<u8>, n: u128) -> Result<(), AllocError>
    ensures { OnOk result (out.new.items ≡ out.old.items ++ field (hex_digits 32 n)) }
{
    put_byte(out, b' ')?;
    put_hex(out, 32, n)
}

fn put_hex_byte(out: &mut Vec<u8>, b: u8) -> Result<(), AllocError>
    ensures { OnOk result (out.new.items ≡ out.old.items ++ hex_byte b) }
{
    let mut pair = [0; 2];
    hex::encode_to_slice([b], &mut pair).unwrap();
    put(out, &pair)
}

fn put_hex_pairs(out: &mut Vec<u8>, bytes: &[u8]) -> Result<(), AllocError>
    ensures { OnOk result (out.new.items ≡ out.old.items ++ flat_map hex_byte bytes.now) }
{
    for b in bytes {
        put_hex_byte(out, *b)?;
    }
    Ok(())
}

/// Writes bytes in pairs of hexadecimal digits, and a dot for none.
pub fn put_hex_bytes(out: &mut Vec<u8>, bytes: &[u8]) -> Result<(), AllocError>
    ensures { OnOk result (out.new.items ≡ out.old.items ++ hex_text bytes.now) }
{
    match bytes {
        [] => put_byte(out, b'.'),
        _ => put_hex_pairs(out, bytes),
    }
}

/// Writes an IPv4 address, or a hyphen for none.
pub fn put_optional_dotted(out: &mut Vec<u8>, ip: Option<u32>) -> Result<(), AllocError>
    ensures { OnOk result (out.new.items ≡ out.old.items ++ optional dotted ip) }
{
    put_optional_ip(out, ip.map(IpAddr::V4))
}

/// Writes a number, or a hyphen for none.
pub fn put_optional_number(out: &mut Vec<u8>, n: Option<u64>) -> Result<(), AllocError>
    ensures { OnOk result (out.new.items ≡ out.old.items ++ optional decimal n) }
{
    match n {
        None => put(out, b" -"),
        Some(n) => put_number(out, n),
    }
}

/// Writes a port, or a hyphen for none.
pub fn put_optional_port(out: &mut Vec<u8>, n: Option<u16>) -> Result<(), AllocError>
    ensures { OnOk result (out.new.items ≡ out.old.items ++ optional decimal n) }
{
    put_optional_number(out, n.map(u64::from))
}

/// Writes a space and the word of the value in the table.
pub(crate) fn put_word<V: Copy + PartialEq>(
    out: &mut Vec<u8>,
    table: &[(&[u8], V)],
    value: V,
) -> Result<(), AllocError>
    ensures { OnOk result (out.new.items ≡ out.old.items ++ field (word_in V.eq (map (λ row. (row.0.now, row.1)) table.now) value)) }
{
    put_field(out, word_in(table, value))
}

/// Writes a space and the word of the value in the table, or the word for none.
pub(crate) fn put_word_or_none<V: Copy + PartialEq>(
    out: &mut Vec<u8>,
    none: &[u8],
    table: &[(&[u8], V)],
    value: Option<V>,
) -> Result<(), AllocError>
    ensures { OnOk result (out.new.items ≡ out.old.items ++ field (option_map_or (word_in V.eq (map (λ row. (row.0.now, row.1)) table.now)) value none.now)) }
{
    match value {
        None => put_field(out, none),
        Some(value) => put_word(out, table, value),
    }
}

/// Writes a space and what an authenticator says.
pub fn put_answer(out: &mut Vec<u8>, answer: AuthAnswer) -> Result<(), AllocError>
    ensures { OnOk result (out.new.items ≡ out.old.items ++ field (answer_text answer)) }
{
    put_word(out, &ANSWERS, answer)
}

/// Writes a space and why a storage refuses.
pub fn put_error_kind(out: &mut Vec<u8>, kind: ErrorKind) -> Result<(), AllocError>
    ensures { OnOk result (out.new.items ≡ out.old.items ++ field (kind_text kind)) }
{
    put_word(out, &KINDS, kind)
}

/// Writes a space and what a storage says of a call: why it refuses, or `ok`.
pub fn put_refusal(out: &mut Vec<u8>, refusal: Option<ErrorKind>) -> Result<(), AllocError>
    ensures { OnOk result (out.new.items ≡ out.old.items ++ field (refusal_text refusal)) }
{
    put_word_or_none(out, b"ok", &KINDS, refusal)
}

/// Writes a space and what a link met, or a hyphen for nothing.
pub fn put_optional_fault(out: &mut Vec<u8>, fault: Option<LinkFault>) -> Result<(), AllocError>
    ensures { OnOk result (out.new.items ≡ out.old.items ++ optional fault_text fault) }
{
    put_word_or_none(out, b"-", &FAULTS, fault)
}

/// Writes a space and why the header of a proxy is none.
pub fn put_proxy_error(out: &mut Vec<u8>, error: ProxyError) -> Result<(), AllocError>
    ensures { OnOk result (out.new.items ≡ out.old.items ++ field (proxy_error_text error)) }
{
    put_word(out, &PROXY_ERRORS, error)
}

/// Writes a space and a trace id.
pub fn put_trace(out: &mut Vec<u8>, trace: u64) -> Result<(), AllocError>
    ensures { OnOk result (out.new.items ≡ out.old.items ++ field (trace_text trace)) }
{
    put(out, b" 0x")?;
    put_hex_number(out, trace)
}

// The hexadecimal digits of the number, without leading zeros.
fn put_hex_number(out: &mut Vec<u8>, n: u64) -> Result<(), AllocError>
    ensures { OnOk result (out.new.items ≡ out.old.items ++ digits 16 false n) }
{
    if n < 16 {
        return put_byte(out, glyph(n as u8));
    }
    put_hex_number(out, n / 16)?;
    put_byte(out, glyph((n % 16) as u8))
}
