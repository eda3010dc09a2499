//! The archive beside transfers.

ghost use Rattle.std.specs.Prelude.{◌≡◌, ◌≤◌, true, false, None, IfOk, OnOk, OnErr, IsErrOf};
ghost use Rattle.ftp_base.specs.declared.error_kind.ErrorKind.TheVariants.{PermissionDenied};
ghost use Rattle.ftp_base.specs.Outside.{HasRisen};
ghost use Rattle.ftp_extras.specs.Archive.{IsDated};
ghost use Rattle.ftp_extras.specs.Moment.{is_moment};
ghost use Rattle.ftp_disk.specs.Home.{has_home, may_write};

use crate::dating::modified_told;
use crate::disk::DiskStorage;
use crate::file_system::FileSystem;
use crate::listing::meta_of;
use crate::refusals::Answer;
use crate::standing::resolve;
use ftp_base::{Bytes, ErrorKind, StoreError, count_failed};
use ftp_extras::{Archive, Found};
use std::sync::Wait;

// How what stands at a path is changed.
#[derive(Clone, Copy)]
enum Change<'a> {
    Remove,
    MakeDirectory,
    RemoveDirectory,
    SetModified(&'a [u8]),
}

impl<R: Wait + Drop, S: FileSystem + Drop> DiskStorage<R, S> {
    // What stands at a path, and when it was last changed.
    fn find(&self, user: &Bytes, path: &Bytes) -> Answer<Found>
        ensures dated { IfOk result IsDated }
        ensures homeless { has_home self.now.homes user.now ≡ false → IsErrOf result (StoreError.Kind PermissionDenied) }
    {
        let place = self.place(user, path)?;
        let Some(meta) = meta_of(resolve(&self.files.system, self.files.alloc, &place)?) else {
            return Err(StoreError::Kind(ErrorKind::PermanentFileNotAvailable));
        };
        let modified = modified_told(&self.files.system.look(&place));
        Ok(Found { meta, modified })
    }

    // Changes what stands at a path.
    fn change(&self, user: &Bytes, path: &Bytes, change: Change) -> Answer<()>
        ensures read_only { may_write self.now.homes user.now ≡ false → IsErrOf result (StoreError.Kind PermissionDenied) }
    {
        let home = self.homes.find(user)?;
        let place = home.writable(self.files.alloc, path.as_slice())?;
        match change {
            Change::Remove => self.files.remove_file(&home.budget, &place),
            Change::MakeDirectory => self.files.make_directory(&place),
            Change::RemoveDirectory => self.files.remove_directory(&place),
            Change::SetModified(at) => self.files.set_modified(&place, at),
        }
    }

    fn move_to(&self, user: &Bytes, from: &Bytes, to: &Bytes) -> Answer<()>
        ensures read_only { may_write self.now.homes user.now ≡ false → IsErrOf result (StoreError.Kind PermissionDenied) }
    {
        let home = self.homes.find(user)?;
        let from = home.writable(self.files.alloc, from.as_slice())?;
        let onto = home.writable(self.files.alloc, to.as_slice())?;
        self.files.rename(&home.budget, &from, &onto)
    }
}

impl<R: Wait + Drop, S: FileSystem + Drop> Archive for DiskStorage<R, S> {
    ghost refusals = { λ _ _ _ _. None };

    // # Proved
    //
    // - A user without a home is refused a look, and one who may not write each change (`homeless`; also `DiskStorage::remove`:
    //   `read_only`; `DiskStorage::make_directory`: `read_only`; `DiskStorage::remove_directory`: `read_only`;
    //   `DiskStorage::rename`: `read_only`; `DiskStorage::set_modified`: `read_only`).
    fn look(&mut self, user: &Bytes, path: &Bytes) -> Answer<Found>
        ensures dated { IfOk result IsDated }
        ensures homeless { has_home self.old.homes user.now ≡ false → IsErrOf result (StoreError.Kind PermissionDenied) }
        ensures fault_rose { IsErrOf result StoreError.Failed → HasRisen self.old.faults self.new.faults }
        ensures count { self.old.faults ≤ self.new.faults }
        ensures others { self.new ≡ record self.old { faults = self.new.faults } }
    {
        count_failed(self.find(user, path), &mut self.faults)
    }

    fn remove(&mut self, user: &Bytes, path: &Bytes) -> Answer<()>
        ensures read_only { may_write self.old.homes user.now ≡ false → IsErrOf result (StoreError.Kind PermissionDenied) }
        ensures fault_rose { IsErrOf result StoreError.Failed → HasRisen self.old.faults self.new.faults }
        ensures count { self.old.faults ≤ self.new.faults }
        ensures others { self.new ≡ record self.old { faults = self.new.faults } }
    {
        count_failed(self.change(user, path, Change::Remove), &mut self.faults)
    }

    fn make_directory(&mut self, user: &Bytes, path: &Bytes) -> Answer<()>
        ensures read_only { may_write self.old.homes user.now ≡ false → IsErrOf result (StoreError.Kind PermissionDenied) }
        ensures fault_rose { IsErrOf result StoreError.Failed → HasRisen self.old.faults self.new.faults }
        ensures count { self.old.faults ≤ self.new.faults }
        ensures others { self.new ≡ record self.old { faults = self.new.faults } }
    {
        count_failed(
            self.change(user, path, Change::MakeDirectory),
            &mut self.faults,
        )
    }

    fn remove_directory(&mut self, user: &Bytes, path: &Bytes) -> Answer<()>
        ensures read_only { may_write self.old.homes user.now ≡ false → IsErrOf result (StoreError.Kind PermissionDenied) }
        ensures fault_rose { IsErrOf result StoreError.Failed → HasRisen self.old.faults self.new.faults }
        ensures count { self.old.faults ≤ self.new.faults }
        ensures others { self.new ≡ record self.old { faults = self.new.faults } }
    {
        count_failed(
            self.change(user, path, Change::RemoveDirectory),
            &mut self.faults,
        )
    }

    fn rename(&mut self, user: &Bytes, from: &Bytes, to: &Bytes) -> Answer<()>
        ensures read_only { may_write self.old.homes user.now ≡ false → IsErrOf result (StoreError.Kind PermissionDenied) }
        ensures fault_rose { IsErrOf result StoreError.Failed → HasRisen self.old.faults self.new.faults }
        ensures count { self.old.faults ≤ self.new.faults }
        ensures others { self.new ≡ record self.old { faults = self.new.faults } }
    {
        count_failed(self.move_to(user, from, to), &mut self.faults)
    }

    fn set_modified(&mut self, user: &Bytes, path: &Bytes, at: &Bytes) -> Answer<()>
        requires moment { is_moment at.now ≡ true }
        ensures read_only { may_write self.old.homes user.now ≡ false → IsErrOf result (StoreError.Kind PermissionDenied) }
        ensures fault_rose { IsErrOf result StoreError.Failed → HasRisen self.old.faults self.new.faults }
        ensures count { self.old.faults ≤ self.new.faults }
        ensures others { self.new ≡ record self.old { faults = self.new.faults } }
    {
        count_failed(
            self.change(user, path, Change::SetModified(at.as_slice())),
            &mut self.faults,
        )
    }
}
