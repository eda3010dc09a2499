//! Numbers in decimal digits.

ghost use Rattle.std.specs.Prelude.{◌≡◌};
ghost use Rattle.ftp_config.specs.Number.{rounds_of};

use ftp_base::decimal_in;

/// The number of rounds that the bytes spell.
pub(crate) fn rounds_of(bytes: &[u8]) -> Option<u32>
    ensures { result ≡ rounds_of bytes.now }
{
    match decimal_in(bytes) {
        Some(n) if 0 < n && n < 1 << 32 => Some(n as u32),
        _ => None,
    }
}
