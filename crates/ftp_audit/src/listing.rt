//! The users in a list, in byte order of names or by what they moved, and in lines.

ghost use Rattle.std.specs.Prelude.{◌≡◌, ◌++◌, OnOk};
ghost use Rattle.ftp_text.specs.Fields.{number};
ghost use Rattle.ftp_audit.specs.Listing.{rank_cmp, row_line};

use crate::total::Total;
use ftp_base::Bytes;
use ftp_text::writing::{put, put_byte, put_number, put_text_field};
use itoa::Buffer;
use std::alloc::AllocError;
use std::cmp::Ordering;

/// Of two users the one who moved more bytes goes first, and of two who moved as many the one whose name comes first.
pub fn rank(a: &(Bytes, Total), b: &(Bytes, Total)) -> Ordering
    ensures { result ≡ rank_cmp a.now b.now }
{
    let names = a.0.as_slice().cmp(b.0.as_slice());
    b.1.moved().cmp(&a.1.moved()).then(names)
}

/// Writes the line of a user.
pub fn put_row(out: &mut Vec<u8>, name: &[u8], total: Total) -> Result<(), AllocError>
    ensures { OnOk result (out.new.items ≡ out.old.items ++ row_line (name.now, total)) }
{
    put(out, b"got")?;
    put_number(out, total.got_files)?;
    put_wide(out, total.got_bytes)?;
    put(out, b" put")?;
    put_number(out, total.put_files)?;
    put_wide(out, total.put_bytes)?;
    put(out, b" in")?;
    put_number(out, total.logins)?;
    put(out, b" out")?;
    put_number(out, total.logouts)?;
    put_text_field(out, name)?;
    put_byte(out, b'\n')
}

// Writes a space and a number.
fn put_wide(out: &mut Vec<u8>, n: u128) -> Result<(), AllocError>
    ensures { OnOk result (out.new.items ≡ out.old.items ++ number n) }
{
    put_byte(out, b' ')?;
    let mut buffer = Buffer::new();
    put(out, buffer.format(n).as_bytes())
}
