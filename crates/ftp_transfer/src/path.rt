//! Paths that commands name.

ghost use Rattle.std.specs.Prelude.{◌≡◌, IfOk};
ghost use Rattle.ftp_transfer.specs.Path.{join_path as joined, with_slash};

use ftp_base::Bytes;
use std::alloc::{AllocError, Global};

/// Where an argument leads from a directory. Nothing is resolved: `..` stays as it is.
///
/// # Proved
///
/// - The joined path, the facts of MLSD, a duration's text (also `format_facts`; `HumanDuration::text`).
pub fn join_path(alloc: Global, cwd: &Bytes, arg: &Bytes) -> Result<Bytes, AllocError>
    ensures { IfOk result (λ path. path ≡ joined cwd.now arg.now) }
{
    if let Some(b'/') = arg.as_slice().first() {
        return arg.copy(alloc);
    }
    let mut path = directory(alloc, cwd.as_slice())?;
    path.extend_from_slice(arg.as_slice())?;
    Ok(Bytes::from_vec(path))
}

/// Copies a directory's path, ended by a slash.
fn directory(alloc: Global, dir: &[u8]) -> Result<Vec<u8>, AllocError>
    ensures { IfOk result (λ path. path.items ≡ with_slash dir.now) }
{
    let mut path = Vec::from_slice(alloc, dir)?;
    if let Some(b'/') = dir.last() {
        return Ok(path);
    }
    path.push(b'/')?;
    Ok(path)
}
