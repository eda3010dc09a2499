//! How what stands in a home is removed, made, renamed and dated.

ghost use Rattle.std.specs.Prelude.{OnOk};
ghost use Rattle.ftp_disk.specs.FileSystem.{IsUnlinked};

use crate::apart::open_replaced;
use crate::budget::Budget;
use crate::dating::seconds_at;
use crate::file_system::FileSystem;
use crate::files::Files;
use crate::home::Writable;
use crate::opening::{create, file_at, in_directory, resolve_writable};
use crate::refusals::{Answer, told};
use crate::standing::Standing;
use ftp_base::{ErrorKind, StoreError};
use std::sync::Wait;

// Whether what is moved may take a place: a file that of a file, and anything where nothing stands.
fn may_take(moved: Standing, taken: Standing) -> bool {
    match (moved, taken) {
        (_, Standing::Nothing) => true,
        (Standing::File(_), Standing::File(_)) => true,
        _ => false,
    }
}

impl<R: Wait, S: FileSystem> Files<R, S> {
    /// Removes a file to which no upload writes, and gives its bytes back to the budget.
    pub(crate) fn remove_file(&self, budget: &Budget, place: &Writable) -> Answer<()>
        ensures unlinked { OnOk result (IsUnlinked (S.told self.now.system) place.now) }
    {
        let len = file_at(&self.system, self.alloc, place)?;
        let _lock = create(&self.system, place)?;
        told(self.system.remove_file(place))?;
        budget.free(&self.rt, len);
        Ok(())
    }

    /// Makes a directory where nothing stands.
    pub(crate) fn make_directory(&self, place: &Writable) -> Answer<()>
        ensures unlinked { OnOk result (IsUnlinked (S.told self.now.system) place.now) }
    {
        let Standing::Nothing = resolve_writable(&self.system, self.alloc, place)? else {
            return Err(StoreError::Kind(ErrorKind::FileNameNotAllowedError));
        };
        in_directory(told(self.system.create_dir(place)))
    }

    /// Removes a directory that is empty, and never the root.
    pub(crate) fn remove_directory(&self, place: &Writable) -> Answer<()>
        ensures unlinked { OnOk result (IsUnlinked (S.told self.now.system) place.now) }
    {
        let Standing::Directory = resolve_writable(&self.system, self.alloc, place)? else {
            return Err(StoreError::Kind(ErrorKind::PermanentDirectoryNotAvailable));
        };
        if place.as_place().depth() == 0 {
            return Err(StoreError::Kind(ErrorKind::PermissionDenied));
        }
        told(self.system.remove_dir(place))
    }

    /// Renames what stands at a place, and never the root. A file takes the place of a file to which no upload writes, whose bytes
    /// are given back to the budget.
    pub(crate) fn rename(&self, budget: &Budget, from: &Writable, onto: &Writable) -> Answer<()>
        ensures unlinked { OnOk result (IsUnlinked (S.told self.now.system) from.now) }
        ensures onto { OnOk result (IsUnlinked (S.told self.now.system) onto.now) }
    {
        let moved = resolve_writable(&self.system, self.alloc, from)?;
        let taken = resolve_writable(&self.system, self.alloc, onto)?;
        if moved == Standing::Nothing {
            return Err(StoreError::Kind(ErrorKind::PermanentFileNotAvailable));
        }
        if from.as_place().depth() == 0 {
            return Err(StoreError::Kind(ErrorKind::PermissionDenied));
        }
        if !may_take(moved, taken) {
            return Err(StoreError::Kind(ErrorKind::FileNameNotAllowedError));
        }
        if from.as_place().text() == onto.as_place().text() {
            return Ok(());
        }
        let _lock = open_replaced(&self.system, self.alloc, onto)?;
        in_directory(told(self.system.rename(from, onto)))?;
        if let Standing::File(len) = taken {
            budget.free(&self.rt, len);
        }
        Ok(())
    }

    /// Says when a file was last changed, in 14 digits. A date that no calendar has, or before 1970, is refused.
    pub(crate) fn set_modified(&self, place: &Writable, at: &[u8]) -> Answer<()>
        ensures unlinked { OnOk result (IsUnlinked (S.told self.now.system) place.now) }
    {
        file_at(&self.system, self.alloc, place)?;
        let Some(seconds) = seconds_at(at) else {
            return Err(StoreError::Kind(ErrorKind::CommandNotImplemented));
        };
        let file = create(&self.system, place)?;
        told(self.system.set_modified(&file, seconds))
    }
}
