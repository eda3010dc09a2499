//! The parts of a text that lengths cut off, and other fields of the lines of a state.

ghost use Rattle.std.specs.Prelude.{◌≡◌, ◌++◌, OnOk};
ghost use Rattle.ftp_text.specs.Reading.{Gives};
ghost use Rattle.ftp_text.specs.Spelling.{bit, length_field, is_from_root};
ghost use Rattle.ftp_text.specs.StateLineReading.{bit_field, cut_at, cut_off};

use crate::fault::{LineFault, Parsed};
use crate::field::small;
use crate::writing::{put_number, put_optional_number};
use ftp_base::Bytes;
use std::alloc::{AllocError, Global};

/// The first bytes of a text, and those behind them.
pub(crate) fn cut_at(len: u64, text: &[u8]) -> Parsed<'_, &[u8]>
    ensures { Gives (λ x. (x.0.now, x.1.now)) result (cut_at len text.now) }
{
    if len > text.len() as u64 {
        return Err(LineFault::Bad);
    }
    Ok(text.split_at(len as usize))
}

/// The same, or no bytes where there is no length.
#[tactic(auto, unfolding(crate::specs::StateLineReading::cut_off))]
pub(crate) fn cut_off(alloc: Global, len: Option<u64>, text: &[u8]) -> Parsed<'_, Option<Bytes>>
    ensures { Gives (λ x. (x.0, x.1.now)) result (cut_off len text.now) }
{
    match len {
        None => Ok((None, text)),
        Some(len) => {
            let (front, rest) = cut_at(len, text)?;
            Ok((Some(Bytes::from_slice(alloc, front)?), rest))
        }
    }
}

/// Says whether a path begins with a slash.
pub(crate) fn is_from_root(path: &[u8]) -> bool
    ensures { result ≡ is_from_root path.now }
{
    matches!(path, [b'/', ..])
}

/// 1 for yes, 0 for no.
#[tactic(auto, unfolding(crate::specs::StateLineReading::bit_field))]
pub(crate) fn bit(bytes: &[u8]) -> Parsed<'_, bool>
    ensures { Gives (λ x. (x.0, x.1.now)) result (bit_field bytes.now) }
{
    let (n, rest) = small(2, bytes)?;
    Ok((n == 1, rest))
}

/// Writes a space and 1 for yes, 0 for no.
pub(crate) fn put_bit(out: &mut Vec<u8>, b: bool) -> Result<(), AllocError>
    ensures { OnOk result (out.new.items ≡ out.old.items ++ bit b) }
{
    put_number(out, if b { 1 } else { 0 })
}

/// Writes a space and how many bytes there are, or a hyphen for none.
pub(crate) fn put_length(out: &mut Vec<u8>, bytes: &Option<Bytes>) -> Result<(), AllocError>
    ensures { OnOk result (out.new.items ≡ out.old.items ++ length_field bytes.now) }
{
    match bytes {
        None => put_optional_number(out, None),
        Some(bytes) => put_number(out, bytes.as_slice().len() as u64),
    }
}
