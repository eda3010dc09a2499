//! What stands at a place, where no link leads to it.

ghost use Rattle.std.specs.Prelude.{◌≡◌, ◌≢◌, IfOk, OnOk, IfErr};
ghost use Rattle.ftp_base.specs.declared.storage.StoreError.TheVariants.{OutOfMemory};
ghost use Rattle.ftp_disk.specs.FileSystem.{IsUnlinked};
ghost use Rattle.ftp_disk.specs.Standing.{ShowsStanding, ShowsRefusal, Stood, WasRefused};

use crate::file_system::FileSystem;
use crate::refusals::{Answer, refusal};
use ftp_base::{ErrorKind, StoreError};
use ftp_places::Place;
use std::alloc::Global;
use std::fs::Metadata;
use std::io;

/// What stands at a place.
#[derive(Clone, Copy, Debug, PartialEq, Eq)]
pub enum Standing {
    Nothing,
    Directory,
    /// A file of so many bytes.
    File(u64),
}

// What stands where the system answers so; a link is refused, as is a device, a FIFO or a socket.
pub(crate) fn standing_of(answer: io::Result<Metadata>) -> Answer<Standing>
    ensures found { IfOk result (ShowsStanding answer) }
    ensures refused { IfErr result (ShowsRefusal answer) }
{
    match answer {
        Ok(found) if found.is_dir() => Ok(Standing::Directory),
        Ok(found) if found.is_file() => Ok(Standing::File(found.len())),
        Ok(_) => Err(StoreError::Kind(ErrorKind::PermissionDenied)),
        Err(error) => match error.kind() {
            io::ErrorKind::NotFound | io::ErrorKind::NotADirectory => Ok(Standing::Nothing),
            kind => Err(refusal(kind)),
        },
    }
}

/// What stands at a place, where neither it nor a directory on the way is a link. The root may be one.
///
/// # Proved
///
/// - The place and each directory on the way were looked at, and none was a link; what stands there is what was told
///   (`unlinked`, `found`).
/// - A refusal is that of what was told of one of them: neither a directory nor a file, or an error (`refused`).
pub fn resolve<F: FileSystem>(
    system: &F,
    alloc: Global,
    place: &Place,
) -> Result<Standing, StoreError>
    ensures found { IfOk result (Stood (F.told system.now) place.now) }
    ensures unlinked { OnOk result (IsUnlinked (F.told system.now) place.now) }
    ensures refused { IfErr result (λ e. e ≢ OutOfMemory → WasRefused (F.told system.now) place.now e) }
{
    let mut found = Standing::Directory;
    for n in 0..place.depth() {
        let front = place.front(alloc, n + 1)?;
        found = standing_of(system.look(&front))?;
    }
    Ok(found)
}
