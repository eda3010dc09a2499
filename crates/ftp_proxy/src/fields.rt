//! The fields behind the addresses.

ghost use Rattle.std.specs.Prelude.{◌≡◌, ◌+◌, ◌≤◌, ◌<◌, ◌^◌, length, IsErrOf};
ghost use Rattle.ftp_proxy.specs.Reading.{whole_field, fields_at, IsMade};
ghost use Rattle.ftp_proxy.specs.declared.v2_error.Proxy2Error.TheVariants.{Fault};

use crate::v2_error::Proxy2Error;
use crate::v2_header::{Field, Fields};
use ftp_base::{Bytes, Rows};
use std::alloc::Global;

// How many bytes stand before a field's value: its kind, and the value's length.
const FRONT: usize = 3;

/// The fields that end a block, whose bytes begin at this place of it.
pub fn fields(alloc: Global, place: usize, bytes: &[u8]) -> Result<Fields, Proxy2Error>
    requires { place + length bytes.now < 2 ^ 32 }
    ensures made { IsMade (fields_at (length bytes.now) place bytes.now) result }
    ensures no_fault { IsErrOf result Fault → ⊥ }
{
    let mut fields = Vec::new(alloc);
    let mut rest = bytes;
    while !rest.is_empty() {
        let Some(len) = field_len(rest) else {
            let at = place + (bytes.len() - rest.len());
            return Err(Proxy2Error::BadField { at });
        };
        let (field, after) = rest.split_at(len);
        let value = Bytes::from_slice(alloc, &field[FRONT..])?;
        let kind = field[0];
        let Ok(()) = fields.push(Field { kind, value }) else {
            return Err(Proxy2Error::OutOfMemory);
        };
        rest = after;
    }
    Ok(Rows::from_vec(fields))
}

// How many bytes the field at the front has, where it does not pass the end.
fn field_len(bytes: &[u8]) -> Option<usize>
    ensures { result ≡ whole_field bytes.now }
{
    let [_, high, low, after @ ..] = bytes else {
        return None;
    };
    let len = usize::from(u16::from_be_bytes([*high, *low]));
    if after.len() < len {
        return None;
    }
    Some(FRONT + len)
}
