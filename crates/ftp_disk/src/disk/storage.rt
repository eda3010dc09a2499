//! The storage of transfers.

ghost use Rattle.std.specs.Prelude.{◌≡◌, ◌+◌, ◌^◌, ◌<◌, ◌≤◌, ◌&&◌, nat_eq, not, true, false, length, None, IfOk, OnOk, IsErrOf};
ghost use Rattle.ftp_base.specs.declared.error_kind.ErrorKind.TheVariants.{PermissionDenied};
ghost use Rattle.ftp_base.specs.Outside.{HasRisen};
ghost use Rattle.ftp_disk.specs.Disk.{IsReached, WasFound, WasListed};
ghost use Rattle.ftp_disk.specs.Home.{has_home, may_write};

use crate::disk::DiskStorage;
use crate::file_system::FileSystem;
use crate::refusals::Answer;
use ftp_base::{Bytes, FEATURE_RESTART, FileInfo, Meta, Storage, StoreError, count_failed};
use std::sync::Wait;

impl<R: Wait + Drop, S: FileSystem + Drop> Storage for DiskStorage<R, S> {
    ghost abilities = { λ _. 1 };

    ghost files = { λ _. None };

    ghost rule = { λ _ _ _ _. None };

    ghost faults = { λ s. s.faults };

    ghost reads_take_memory = { true };

    ghost is_settled = { λ s. not s.is_apart };

    fn features(&self) -> u32 {
        FEATURE_RESTART
    }

    // # Proved
    //
    // - What is told of a path, listed in a directory and begun for an upload lies below the user's home, and no link was
    //   there when it was looked at (`found`; also `DiskStorage::list`: `listed`; `DiskStorage::begin`: `reached`).
    // - A listing of a directory is of its children, one of a file is of that alone, and one of a path at which nothing
    //   stands is of the children of the directory before it that match its last name, where that has a wildcard and no
    //   name before it has one; each in byte order of names (also `DiskStorage::list`: `listed`).
    // - A user without a home is refused by each call, and one who may not write by each that changes anything
    //   (`homeless`; also `DiskStorage::list`: `homeless`; `DiskStorage::read_at`: `homeless`; `DiskStorage::begin`:
    //   `read_only`; `DiskStorage::append`: `read_only`).
    // - Where uploads are to come whole, one from the front of a file stands beside its path until it is settled (also
    //   `DiskStorage::begin`: `beside`; `DiskStorage::settle`: `settled`).
    fn metadata(&mut self, user: &Bytes, path: &Bytes) -> Answer<Meta>
        ensures found { IfOk result (WasFound (S.told self.old.system) self.old.homes user.now path.now) }
        ensures homeless { has_home self.old.homes user.now ≡ false → IsErrOf result (StoreError.Kind PermissionDenied) }
        ensures fault_rose { IsErrOf result StoreError.Failed → HasRisen self.old.faults self.new.faults }
        ensures count { self.old.faults ≤ self.new.faults }
        ensures others { self.new ≡ record self.old { faults = self.new.faults } }
    {
        count_failed(self.look(user, path), &mut self.faults)
    }

    fn list(&mut self, user: &Bytes, path: &Bytes) -> Answer<Vec<FileInfo>>
        ensures listed { IfOk result (λ found. WasListed (S.told self.old.system) self.old.homes user.now path.now found.items) }
        ensures homeless { has_home self.old.homes user.now ≡ false → IsErrOf result (StoreError.Kind PermissionDenied) }
        ensures fault_rose { IsErrOf result StoreError.Failed → HasRisen self.old.faults self.new.faults }
        ensures count { self.old.faults ≤ self.new.faults }
        ensures others { self.new ≡ record self.old { faults = self.new.faults } }
    {
        count_failed(self.children(user, path), &mut self.faults)
    }

    fn read_at(&mut self, user: &Bytes, path: &Bytes, at: u64, out: &mut [u8]) -> Answer<usize>
        ensures within { IfOk result (λ n. n ≤ length out.new) }
        ensures in_range { IfOk result (λ n. at + n < 2 ^ 64) }
        ensures homeless { has_home self.old.homes user.now ≡ false → IsErrOf result (StoreError.Kind PermissionDenied) }
        ensures fault_rose { IsErrOf result StoreError.Failed → HasRisen self.old.faults self.new.faults }
        ensures count { self.old.faults ≤ self.new.faults }
        ensures others { self.new ≡ record self.old { is_apart = self.new.is_apart; faults = self.new.faults } }
    {
        count_failed(self.read(user, path, at, out), &mut self.faults)
    }

    fn begin(&mut self, user: &Bytes, path: &Bytes, start: u64) -> Answer<()>
        ensures reached { OnOk result (IsReached (S.told self.old.system) self.old.homes user.now path.now) }
        ensures read_only { may_write self.old.homes user.now ≡ false → IsErrOf result (StoreError.Kind PermissionDenied) }
        ensures beside { OnOk result (self.new.is_apart ≡ (self.old.is_whole && nat_eq start 0)) }
        ensures fault_rose { IsErrOf result StoreError.Failed → HasRisen self.old.faults self.new.faults }
        ensures count { self.old.faults ≤ self.new.faults }
        ensures others { self.new ≡ record self.old { is_apart = self.new.is_apart; faults = self.new.faults } }
    {
        count_failed(self.start(user, path, start), &mut self.faults)
    }

    fn append(&mut self, user: &Bytes, path: &Bytes, bytes: &[u8]) -> Answer<()>
        ensures read_only { may_write self.old.homes user.now ≡ false → IsErrOf result (StoreError.Kind PermissionDenied) }
        ensures fault_rose { IsErrOf result StoreError.Failed → HasRisen self.old.faults self.new.faults }
        ensures count { self.old.faults ≤ self.new.faults }
        ensures others { self.new ≡ record self.old { is_apart = self.new.is_apart; faults = self.new.faults } }
    {
        count_failed(self.write(user, path, bytes), &mut self.faults)
    }

    fn settle(&mut self, user: &Bytes, path: &Bytes) -> Answer<()>
        ensures settled { OnOk result (self.new.is_apart ≡ false) }
        ensures fault_rose { IsErrOf result StoreError.Failed → HasRisen self.old.faults self.new.faults }
        ensures count { self.old.faults ≤ self.new.faults }
        ensures others { self.new ≡ record self.old { is_apart = self.new.is_apart; faults = self.new.faults } }
    {
        count_failed(self.end(user, path), &mut self.faults)
    }
}
