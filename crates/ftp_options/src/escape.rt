//! Bytes as they are printed.

ghost use Rattle.std.specs.Prelude.{◌≡◌, Some};
ghost use Rattle.ftp_options.specs.Texts.{escape, escape_byte, is_plain};

use ftp_base::Bytes;
use std::fmt;

/// Bytes that print as themselves where they are printable and no backslash, and else as `\xHH`.
#[derive(Clone, Copy)]
pub(crate) struct Escaped<'a> {
    bytes: &'a [u8],
}

impl<'a> Escaped<'a> {
    pub(crate) fn new(bytes: &'a Bytes) -> Escaped<'a>
        ensures { result.bytes.now ≡ bytes.now }
    {
        Escaped {
            bytes: bytes.as_slice(),
        }
    }
}

impl fmt::Display for Escaped<'_> {
    ghost output = { λ it. Some (escape it.bytes.now) };

    fn fmt<W: fmt::Write>(&self, f: &mut fmt::Formatter<W>) -> fmt::Result {
        for b in self.bytes {
            let b = EscapedByte(*b);
            write!(f, "{b}")?;
        }
        Ok(())
    }
}

#[derive(Clone, Copy)]
struct EscapedByte(u8);

impl fmt::Display for EscapedByte {
    ghost output = { λ b. Some (escape_byte b.0) };

    fn fmt<W: fmt::Write>(&self, f: &mut fmt::Formatter<W>) -> fmt::Result {
        let b = self.0;
        if is_plain(b) {
            let c = char::from(b);
            write!(f, "{c}")
        } else {
            write!(f, "\\x{b:02x}")
        }
    }
}

// Says whether the byte prints as itself.
fn is_plain(b: u8) -> bool
    ensures { result ≡ is_plain b }
{
    32 <= b && b <= 126 && b != b'\\'
}
