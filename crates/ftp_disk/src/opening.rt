//! How files are opened: never over a link, and never what is no file.

ghost use Rattle.std.specs.Prelude.{IfOk, OnOk};
ghost use Rattle.ftp_disk.specs.FileSystem.{IsUnlinked, WasFileOrNothing};
ghost use Rattle.ftp_disk.specs.Standing.{Stood};

use crate::budget::Budget;
use crate::file_system::FileSystem;
use crate::files::Files;
use crate::home::Writable;
use crate::refusals::{Answer, refusal, told};
use crate::standing::{Standing, resolve};
use ftp_base::{ErrorKind, StoreError};
use ftp_places::Place;
use std::alloc::Global;
use std::fs::TryLockError;
use std::sync::Wait;

/// What stands at a place that may be changed.
pub(crate) fn resolve_writable<S: FileSystem>(
    system: &S,
    alloc: Global,
    place: &Writable,
) -> Answer<Standing>
    ensures found { IfOk result (Stood (S.told system.now) place.now) }
    ensures unlinked { OnOk result (IsUnlinked (S.told system.now) place.now) }
{
    resolve(system, alloc, place.as_place())
}

/// How long the file is that stands at a place that may be changed.
pub(crate) fn file_at<S: FileSystem>(system: &S, alloc: Global, place: &Writable) -> Answer<u64>
    ensures unlinked { OnOk result (IsUnlinked (S.told system.now) place.now) }
    ensures found { IfOk result (λ len. Stood (S.told system.now) place.now (Standing.File len)) }
    ensures may_create { OnOk result (WasFileOrNothing (S.told system.now) place.now) }
{
    let found = resolve_writable(system, alloc, place)?;
    match found {
        Standing::File(len) => Ok(len),
        Standing::Nothing | Standing::Directory => {
            Err(StoreError::Kind(ErrorKind::PermanentFileNotAvailable))
        }
    }
}

/// The file at a place with its lock, unless another upload has that.
pub(crate) fn create<S: FileSystem>(system: &S, place: &Writable) -> Answer<S::File>
    requires unlinked { IsUnlinked (S.told system.now) place.now }
    requires file { WasFileOrNothing (S.told system.now) place.now }
{
    let file = told(system.create(place))?;
    match system.try_lock(&file) {
        Ok(()) => Ok(file),
        Err(TryLockError::WouldBlock) => {
            Err(StoreError::Kind(ErrorKind::TransientFileNotAvailable))
        }
        Err(TryLockError::Error(error)) => Err(refusal(error.kind())),
    }
}

/// The same, where what is missing is a directory.
pub(crate) fn in_directory<T>(answer: Answer<T>) -> Answer<T> {
    match answer {
        Ok(given) => Ok(given),
        Err(StoreError::Kind(ErrorKind::PermanentFileNotAvailable)) => {
            Err(StoreError::Kind(ErrorKind::PermanentDirectoryNotAvailable))
        }
        Err(error) => Err(error),
    }
}

impl<R: Wait, S: FileSystem> Files<R, S> {
    /// A file that was opened to read it, and how long it was.
    pub(crate) fn open_to_read(&self, place: &Place) -> Answer<(S::File, u64)>
        ensures unlinked { OnOk result (IsUnlinked (S.told self.now.system) place.now) }
    {
        let found = resolve(&self.system, self.alloc, place)?;
        let Standing::File(len) = found else {
            return Err(StoreError::Kind(ErrorKind::PermanentFileNotAvailable));
        };
        let file = told(self.system.open(place))?;
        Ok((file, len))
    }

    /// A file that was opened for an upload, and made where there was none and the budget has room for an upload from this place on.
    pub(crate) fn open_to_begin(
        &self,
        place: &Writable,
        budget: &Budget,
        start: u64,
    ) -> Answer<S::File>
        ensures unlinked { OnOk result (IsUnlinked (S.told self.now.system) place.now) }
    {
        let found = resolve_writable(&self.system, self.alloc, place)?;
        match found {
            Standing::Directory => Err(StoreError::Kind(ErrorKind::FileNameNotAllowedError)),
            Standing::File(_) => create(&self.system, place),
            Standing::Nothing => {
                budget.check(&self.rt, start)?;
                in_directory(create(&self.system, place))
            }
        }
    }

    /// A file that was opened to put bytes at its end.
    pub(crate) fn open_to_append(&self, place: &Writable) -> Answer<S::File>
        ensures unlinked { OnOk result (IsUnlinked (S.told self.now.system) place.now) }
    {
        file_at(&self.system, self.alloc, place)?;
        create(&self.system, place)
    }
}
