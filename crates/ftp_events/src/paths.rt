//! The path of a transfer.

ghost use Rattle.std.specs.Prelude.{◌≡◌, IfOk};
ghost use Rattle.ftp_events.specs.Transfer.{command_path, listed_path};

use ftp_base::{Bytes, DataChanCmd};
use ftp_transfer::join_path;
use std::alloc::{AllocError, Global};

/// The path of a command in a directory; the listings take the directory itself for no path or `.`.
///
/// # Proved
///
/// - The path is that of the definition (`command_path` in `ftp_events/specs/Transfer.antt`).
pub fn command_path(alloc: Global, cwd: &Bytes, command: &DataChanCmd) -> Result<Bytes, AllocError>
    ensures { IfOk result (λ path. path ≡ command_path cwd.now command.now) }
{
    match command {
        DataChanCmd::Retr { path } | DataChanCmd::Stor { path } | DataChanCmd::Appe { path } => {
            join_path(alloc, cwd, path)
        }
        DataChanCmd::List { path, .. } | DataChanCmd::Nlst { path } | DataChanCmd::Mlsd { path } =>
            listed_path(alloc, cwd, path),
    }
}

// The path of a listing.
fn listed_path(alloc: Global, cwd: &Bytes, path: &Option<Bytes>) -> Result<Bytes, AllocError>
    ensures { IfOk result (λ listed. listed ≡ listed_path cwd.now path.now) }
{
    match path {
        Some(path) if path.as_slice() != b".".as_slice() => join_path(alloc, cwd, path),
        _ => cwd.copy(alloc),
    }
}
