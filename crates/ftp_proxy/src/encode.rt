//! The bytes of a header.

ghost use Rattle.std.specs.Prelude.{◌≡◌, ◌↔◌, ℕ, ◌+◌, ◌^◌, ◌<◌, ◌≤◌, ◌++◌, List, true, false, Some, length, OnOk, IfOk, IsErrOf};
ghost use Rattle.ftp_proxy.specs.V2Header.{command_of, suits, ip_bytes, pair_bytes, field_bytes, fields_bytes, block_of, IpFits, PairFits, NumbersFit, IsHeader, IsWrittenAs};
ghost use Rattle.ftp_proxy.specs.V2Header.{in_two_bytes};
ghost use Rattle.ftp_proxy.specs.declared.v2_error.Encode2Error.TheVariants.{TooLong, Mismatch};

use crate::head::{self, HEAD, INET, INET6, LOCAL, NAME, PROXY, SIGNATURE, UNIX, UNSPEC};
use crate::v2_error::Encode2Error;
use crate::v2_header::{Body, Field, Header2};
use ftp_base::{Bytes, IpAddr, SocketAddrPair};
use std::alloc::{AllocError, Global};

/// The most that the two bytes of a length can say.
const LONGEST: usize = 65_535;

/// The bytes of a header. There are no others of the same header.
///
/// A value that passes 65,535 bytes makes the block too long, as it stands in it.
///
/// # Proved
///
/// - A header is written as the one list of bytes that it has, and refused exactly where it has none: a block that is
///   too long first, else a body of another family (`spelled`, `only`, `too_long`, `mismatch`).
pub fn encode2(alloc: Global, header: &Header2) -> Result<Bytes, Encode2Error>
    ensures spelled { IfOk result (λ bytes. IsHeader bytes header.now) }

    // A header that has bytes is written, unless memory runs out.
    ensures only { (bytes : List ℕ) → IsHeader bytes header.now → IsWrittenAs bytes result }

    // A block that is too long is reported as such, whether or not its body suits.
    ensures too_long { IsErrOf result TooLong ↔ 2 ^ 16 ≤ length (block_of header.now.body) }
    ensures mismatch { IsErrOf result Mismatch ↔ (length (block_of header.now.body) < 2 ^ 16) × (suits header.now.family header.now.body ≡ false) }
{
    let Some(len) = block_len(&header.body) else {
        return Err(Encode2Error::TooLong);
    };
    if !suits(header.family, &header.body) {
        return Err(Encode2Error::Mismatch);
    }
    match written(alloc, header, len) {
        Ok(bytes) => Ok(bytes),
        Err(_) => Err(Encode2Error::OutOfMemory),
    }
}

// The bytes of a header, whose block has so many.
fn written(alloc: Global, header: &Header2, len: u16) -> Result<Bytes, AllocError>
    requires len { in_two_bytes (length (block_of header.now.body)) ≡ Some len }
    requires suits { suits header.now.family header.now.body ≡ true }
    ensures { IfOk result (λ bytes. IsHeader bytes header.now) }
{
    let mut bytes = Vec::with_capacity(alloc, HEAD + usize::from(len))?;
    bytes.extend_from_slice(&SIGNATURE)?;
    bytes.push(command_of(&header.body))?;
    bytes.push(header.family)?;
    bytes.extend_from_slice(&len.to_be_bytes())?;
    put_body(&mut bytes, &header.body)?;
    Ok(Bytes::from_vec(bytes))
}

// The byte of version and command.
fn command_of(body: &Body) -> u8
    ensures { result ≡ command_of body.now }
{
    match body {
        Body::LocalBlock(_) => LOCAL,
        _ => PROXY,
    }
}

// Says whether the family byte is one of the body's, and its addresses are of that family.
fn suits(family: u8, body: &Body) -> bool
    ensures { result ≡ suits family body.now }
{
    match body {
        Body::LocalBlock(_) => true,
        Body::UnspecBlock(_) => family == UNSPEC,
        Body::Inet { pair, .. } => {
            head::is_family(INET, family) && !pair.source.ip.is_v6() && !pair.destination.ip.is_v6()
        }
        Body::Inet6 { pair, .. } => {
            head::is_family(INET6, family) && pair.source.ip.is_v6() && pair.destination.ip.is_v6()
        }
        Body::Unix {
            source,
            destination,
            ..
        } => {
            head::is_family(UNIX, family)
                && source.as_slice().len() == NAME
                && destination.as_slice().len() == NAME
        }
    }
}

// The block's length, where two bytes can say it.
fn block_len(body: &Body) -> Option<u16>
    ensures { result ≡ in_two_bytes (length (block_of body.now)) }
{
    match body {
        Body::LocalBlock(block) | Body::UnspecBlock(block) => two_bytes(block.as_slice().len()),
        Body::Inet { pair, fields } | Body::Inet6 { pair, fields } => {
            with_fields(pair_len(pair), fields.as_slice())
        }
        Body::Unix {
            source,
            destination,
            fields,
        } => {
            let source = two_bytes(source.as_slice().len())?;
            let destination = two_bytes(destination.as_slice().len())?;
            let names = usize::from(source) + usize::from(destination);
            with_fields(names, fields.as_slice())
        }
    }
}

// The number, where two bytes can say it.
fn two_bytes(n: usize) -> Option<u16>
    ensures { result ≡ in_two_bytes n }
{
    if n > LONGEST {
        return None;
    }
    Some(n as u16)
}

fn ip_len(ip: IpAddr) -> usize
    ensures len { result ≡ length (ip_bytes ip) }
    ensures small { result ≤ 16 }
{
    match ip {
        IpAddr::V4(_) => 4,
        IpAddr::V6(_) => 16,
    }
}

fn pair_len(pair: &SocketAddrPair) -> usize
    ensures len { result ≡ length (pair_bytes pair.now) }
    ensures small { result ≤ 36 }
{
    ip_len(pair.source.ip) + ip_len(pair.destination.ip) + 4
}

// So many bytes and those of the fields, where two bytes can say it.
fn with_fields(len: usize, fields: &[Field]) -> Option<u16>
    requires { len ≤ 131070 }
    ensures { result ≡ in_two_bytes (len + length (fields_bytes fields.now)) }
{
    let mut sum = len;
    for field in fields {
        let value = two_bytes(field.value.as_slice().len())?;
        sum = usize::from(two_bytes(sum)?) + 3 + usize::from(value);
    }
    two_bytes(sum)
}

// Adds the block.
fn put_body(out: &mut Vec<u8>, body: &Body) -> Result<(), AllocError>
    requires { length (block_of body.now) < 2 ^ 16 }
    ensures fit { OnOk result (NumbersFit body.now) }
    ensures added { OnOk result (out.new.items ≡ out.old.items ++ block_of body.now) }
{
    match body {
        Body::LocalBlock(block) | Body::UnspecBlock(block) => {
            out.extend_from_slice(block.as_slice())?;
        }
        Body::Inet { pair, fields } | Body::Inet6 { pair, fields } => {
            put_pair(out, pair)?;
            put_fields(out, fields.as_slice())?;
        }
        Body::Unix {
            source,
            destination,
            fields,
        } => {
            out.extend_from_slice(source.as_slice())?;
            out.extend_from_slice(destination.as_slice())?;
            put_fields(out, fields.as_slice())?;
        }
    }
    Ok(())
}

fn put_ip(out: &mut Vec<u8>, ip: IpAddr) -> Result<(), AllocError>
    ensures fits { IpFits ip }
    ensures added { OnOk result (out.new.items ≡ out.old.items ++ ip_bytes ip) }
{
    match ip {
        IpAddr::V4(ip) => out.extend_from_slice(&ip.to_be_bytes())?,
        IpAddr::V6(ip) => out.extend_from_slice(&ip.to_be_bytes())?,
    }
    Ok(())
}

fn put_pair(out: &mut Vec<u8>, pair: &SocketAddrPair) -> Result<(), AllocError>
    ensures fit { OnOk result (PairFits pair.now) }
    ensures added { OnOk result (out.new.items ≡ out.old.items ++ pair_bytes pair.now) }
{
    put_ip(out, pair.source.ip)?;
    put_ip(out, pair.destination.ip)?;
    out.extend_from_slice(&pair.source.port.to_be_bytes())?;
    out.extend_from_slice(&pair.destination.port.to_be_bytes())?;
    Ok(())
}

fn put_fields(out: &mut Vec<u8>, fields: &[Field]) -> Result<(), AllocError>
    requires { length (fields_bytes fields.now) < 2 ^ 16 }
    ensures { OnOk result (out.new.items ≡ out.old.items ++ fields_bytes fields.now) }
{
    for field in fields {
        put_field(out, field)?;
    }
    Ok(())
}

fn put_field(out: &mut Vec<u8>, field: &Field) -> Result<(), AllocError>
    requires { length field.now.value < 2 ^ 16 }
    ensures { OnOk result (out.new.items ≡ out.old.items ++ field_bytes field.now) }
{
    let value = field.value.as_slice();
    out.push(field.kind)?;
    out.extend_from_slice(&(value.len() as u16).to_be_bytes())?;
    out.extend_from_slice(value)?;
    Ok(())
}
