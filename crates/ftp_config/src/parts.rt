//! What stands between bytes of one kind.

ghost use Rattle.std.specs.Prelude.{◌≡◌, map, IfOk};
ghost use Rattle.std.specs.List.{slice_split};
ghost use Rattle.ftp_config.specs.Line.{is_byte};

use std::alloc::{AllocError, Global};

/// The parts between the bytes `byte`.
pub(crate) fn parts(alloc: Global, bytes: &[u8], byte: u8) -> Result<Vec<&[u8]>, AllocError>
    ensures { IfOk result (λ parts. map (λ p. p.now) parts.items ≡ slice_split (is_byte byte) bytes.now) }
{
    bytes.split(|b| *b == byte).collect(alloc)
}
