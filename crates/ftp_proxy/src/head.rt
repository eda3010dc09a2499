//! The first sixteen bytes: signature, command, family and the block's length.

ghost use Rattle.std.specs.Prelude.{◌≡◌, ◌<◌, IfSome};
ghost use Rattle.ftp_proxy.specs.V2Header.{is_family};
ghost use Rattle.ftp_proxy.specs.Reading.{addresses_len, is_local, needed, block_len, refusal_at};
ghost use Rattle.ftp_proxy.specs.declared.v2_error.Proxy2Error.TheVariants.{Fault};

use crate::v2_error::Proxy2Error;

/// The bytes that each header begins with.
pub const SIGNATURE: [u8; 12] = *b"\r\n\r\n\0\r\nQUIT\n";

/// How many bytes stand before the block.
pub const HEAD: usize = 16;

/// Version 2, and the proxy speaks for itself.
pub const LOCAL: u8 = 0x20;

/// Version 2, and the proxy speaks for a client.
pub const PROXY: u8 = 0x21;

/// The proxy does not tell the addresses.
pub const UNSPEC: u8 = 0;

pub const INET: u8 = 1;

pub const INET6: u8 = 2;

pub const UNIX: u8 = 3;

/// How long the name of a Unix socket is.
pub const NAME: usize = 108;

/// Says whether a byte names this family: a stream of it, or datagrams.
pub fn is_family(family: u8, byte: u8) -> bool
    requires { family < 4 }
    ensures { result ≡ is_family family byte }
{
    byte == 16 * family + 1 || byte == 16 * family + 2
}

/// Says whether the command is local.
pub fn is_local(head: &[u8; HEAD]) -> bool
    ensures { result ≡ is_local head.now }
{
    head[12] == LOCAL
}

// How many bytes the addresses of a family have, where there is such a family.
fn addresses_len(family: u8) -> Option<u16>
    ensures { result ≡ addresses_len family }
{
    if family == UNSPEC {
        Some(0)
    } else if is_family(INET, family) {
        Some(12)
    } else if is_family(INET6, family) {
        Some(36)
    } else if is_family(UNIX, family) {
        Some(216)
    } else {
        None
    }
}

// How many bytes the block has at least.
fn needed(head: &[u8; HEAD]) -> u16
    ensures { result ≡ needed head.now }
{
    if is_local(head) {
        return 0;
    }
    addresses_len(head[13]).unwrap_or(0)
}

/// The block's length.
pub fn block_len(head: &[u8; HEAD]) -> u16
    ensures { result ≡ block_len head.now }
{
    u16::from_be_bytes([head[14], head[15]])
}

/// Why the byte at a place may not stand there, where those before it may.
pub fn refusal_at(head: &[u8; HEAD], i: usize) -> Option<Proxy2Error>
    requires { i < 16 }
    ensures refusal { result ≡ refusal_at head.now i }
    ensures no_fault { IfSome result (λ e. e ≡ Fault → ⊥) }
{
    match i {
        0..12 if head[i] != SIGNATURE[i] => Some(Proxy2Error::NotSignature { at: i }),
        12 if !is_local(head) && head[12] != PROXY => Some(Proxy2Error::BadVersion(head[12])),
        13 if !is_local(head) && addresses_len(head[13]).is_none() => {
            Some(Proxy2Error::BadFamily(head[13]))
        }
        15 if block_len(head) < needed(head) => Some(Proxy2Error::ShortBlock {
            length: block_len(head),
            needed: needed(head),
        }),
        _ => None,
    }
}
