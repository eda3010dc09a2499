//! The files of users' homes, as a storage.

ghost use Rattle.std.specs.Prelude.{◌≡◌, ◌+◌, ◌^◌, ◌<◌, ◌≤◌, ◌&&◌, nat_eq, true, false, is_some, length, Some, IfOk, OnOk, IsErrOf};
ghost use Rattle.ftp_base.specs.declared.error_kind.ErrorKind.TheVariants.{PermissionDenied};
ghost use Rattle.ftp_places.specs.Names.{names_of};
ghost use Rattle.ftp_disk.specs.Disk.{place_in_home, IsReached, WasFound, WasListed};
ghost use Rattle.ftp_disk.specs.Home.{has_home, may_write};

mod archive;
mod storage;

use crate::file_system::FileSystem;
use crate::files::Files;
use crate::home::Homes;
use crate::listing::{list, meta_of};
use crate::opened::{Access, Opened, Use};
use crate::refusals::{Answer, refusal};
use crate::standing::resolve;
use crate::writing::{check_reach, go_to};
use ftp_base::{Bytes, ErrorKind, FileInfo, Meta, StoreError};
use ftp_places::Place;
use std::alloc::Global;
use std::io::{Read, SeekFrom};
use std::marker::Model;
use std::sync::{Arc, Wait};

/// The files of users' homes, for one transfer: the file that it reads or writes is kept open between its pieces, and an
/// upload's is locked. It tells no content.
pub struct DiskStorage<R: Wait + Drop, S: FileSystem + Drop> {
    files: Files<R, S>,
    homes: Arc<Homes, Global>,
    // Whether an upload from the front of a file stands beside its path until it came whole.
    is_whole: bool,
    opened: Option<Opened<S::File>>,
    faults: u64,
}

impl<R: Wait + Drop, S: FileSystem + Drop> Model for DiskStorage<R, S> {
    ghost use Rattle.std.specs.Arc.{arc_value};
    ghost use Rattle.ftp_disk.specs.Disk.{DiskState, is_apart};

    ghost Value = { DiskState S };

    ghost view = { λ s. record { system = s.files.system; homes = arc_value s.homes; is_whole = s.is_whole; is_apart = is_apart s.opened; faults = s.faults } };
}

impl<R: Wait + Drop, S: FileSystem + Drop> Drop for DiskStorage<R, S> {
    // What an upload has written beside its path is removed.
    fn drop(self) {
        let DiskStorage {
            files,
            homes: _,
            is_whole: _,
            opened,
            faults: _,
        } = self;
        if let Some(opened) = opened {
            files.leave_off(&opened);
        }
    }
}

// Reads from a file that stands at a place.
fn read_at<F: Read>(file: &mut F, at: u64, out: &mut [u8]) -> Answer<usize>
    ensures within { IfOk result (λ n. n ≤ length out.new) }
    ensures in_range { IfOk result (λ n. at + n < 2 ^ 64) }
{
    let n = match file.read(out) {
        Ok(n) => n,
        Err(error) => return Err(refusal(error.kind())),
    };
    match at.checked_add(n as u64) {
        Some(_) => Ok(n),
        None => Err(StoreError::Failed),
    }
}

impl<R: Wait + Drop, S: FileSystem + Drop> DiskStorage<R, S> {
    ghost use Rattle.std.specs.Arc.{arc_value};

    /// The files of these homes, before any call.
    pub fn new(rt: R, alloc: Global, system: S, homes: Arc<Homes, Global>) -> DiskStorage<R, S>
        ensures system { result.system ≡ system }
        ensures homes { result.homes ≡ arc_value homes }
        ensures faults { result.faults ≡ 0 }
        ensures in_place { result.is_whole ≡ false }
    {
        DiskStorage {
            files: Files { rt, system, alloc },
            homes,
            is_whole: false,
            opened: None,
            faults: 0,
        }
    }

    /// The same, where an upload from the front of a file stands beside its path until it came whole, if it is to.
    pub fn whole_uploads(mut self, is_whole: bool) -> DiskStorage<R, S>
        ensures { result ≡ record self { is_whole = is_whole } }
    {
        self.is_whole = is_whole;
        self
    }

    // Where a user's path leads.
    fn place(&self, user: &Bytes, path: &Bytes) -> Answer<Place>
        ensures place { IfOk result (λ place. place_in_home self.now.homes user.now path.now ≡ Some place) }
        ensures names { IfOk result (λ place. place.names ≡ names_of path.now) }
        ensures homeless { has_home self.now.homes user.now ≡ false → IsErrOf result (StoreError.Kind PermissionDenied) }
    {
        let home = self.homes.find(user)?;
        home.place(self.files.alloc, path.as_slice())
    }

    // Closes the file that is open. What an upload has written beside its path is removed.
    fn close(&mut self)
        ensures closed { self.new ≡ record self.old { is_apart = false } }
    {
        if let Some(opened) = self.opened.take() {
            self.files.leave_off(&opened);
        }
    }

    // The file that is open, where this user opened it by this path for this.
    fn take_open(&mut self, user: &Bytes, path: &Bytes, access: Access) -> Option<Opened<S::File>>
        ensures taken { self.new ≡ record self.old { is_apart = false } }
    {
        match self.opened.take() {
            Some(opened) if opened.by.is(user, path, access) => Some(opened),
            other => {
                self.opened = other;
                self.close();
                None
            }
        }
    }

    // What stands at a path.
    fn look(&self, user: &Bytes, path: &Bytes) -> Answer<Meta>
        ensures found { IfOk result (WasFound (S.told self.now.system) self.now.homes user.now path.now) }
        ensures homeless { has_home self.now.homes user.now ≡ false → IsErrOf result (StoreError.Kind PermissionDenied) }
    {
        let place = self.place(user, path)?;
        match meta_of(resolve(&self.files.system, self.files.alloc, &place)?) {
            Some(meta) => Ok(meta),
            None => Err(StoreError::Kind(ErrorKind::PermanentFileNotAvailable)),
        }
    }

    // What a listing of a path shows.
    fn children(&self, user: &Bytes, path: &Bytes) -> Answer<Vec<FileInfo>>
        ensures listed { IfOk result (λ found. WasListed (S.told self.now.system) self.now.homes user.now path.now found.items) }
        ensures homeless { has_home self.now.homes user.now ≡ false → IsErrOf result (StoreError.Kind PermissionDenied) }
    {
        let place = self.place(user, path)?;
        list(
            &self.files.system,
            self.files.alloc,
            &place,
            path.as_slice(),
        )
    }

    // The file that is open to be read at a place, or which is opened there; none past its end.
    fn reader(&mut self, user: &Bytes, path: &Bytes, at: u64) -> Answer<Option<Opened<S::File>>>
        ensures homeless { has_home self.old.homes user.now ≡ false → IsErrOf result (StoreError.Kind PermissionDenied) }
        ensures others { self.new ≡ record self.old { is_apart = self.new.is_apart } }
    {
        self.homes.find(user)?;
        if let Some(opened) = self.take_open(user, path, Access::Read) {
            if opened.at == at {
                return Ok(Some(opened));
            }
        }
        self.open_read(user, path, at)
    }

    // A file that is opened to be read at a place; none past its end.
    fn open_read(&self, user: &Bytes, path: &Bytes, at: u64) -> Answer<Option<Opened<S::File>>> {
        let place = self.place(user, path)?;
        let by = Use::new(self.files.alloc, user, path, Access::Read)?;
        let (mut file, len) = self.files.open_to_read(&place)?;
        if at > len {
            return Ok(None);
        }
        go_to(&mut file, SeekFrom::Start(at))?;
        Ok(Some(Opened {
            by,
            file,
            at,
            apart: None,
        }))
    }

    // Reads from a place in a file, and keeps it open behind what was read.
    fn read(&mut self, user: &Bytes, path: &Bytes, at: u64, out: &mut [u8]) -> Answer<usize>
        ensures within { IfOk result (λ n. n ≤ length out.new) }
        ensures in_range { IfOk result (λ n. at + n < 2 ^ 64) }
        ensures homeless { has_home self.old.homes user.now ≡ false → IsErrOf result (StoreError.Kind PermissionDenied) }
        ensures others { self.new ≡ record self.old { is_apart = self.new.is_apart } }
    {
        let Some(mut opened) = self.reader(user, path, at)? else {
            return Ok(0);
        };
        let n = read_at(&mut opened.file, at, out)?;
        opened.at = at + n as u64;
        self.opened = Some(opened);
        Ok(n)
    }

    // Cuts a file at a place, and opens it there.
    fn open_at(&self, user: &Bytes, path: &Bytes, start: u64) -> Answer<Opened<S::File>>
        ensures reached { OnOk result (IsReached (S.told self.now.system) self.now.homes user.now path.now) }
        ensures read_only { may_write self.now.homes user.now ≡ false → IsErrOf result (StoreError.Kind PermissionDenied) }
        ensures in_place { IfOk result (λ opened. is_some opened.apart ≡ false) }
    {
        let home = self.homes.find(user)?;
        let place = home.writable(self.files.alloc, path.as_slice())?;
        check_reach(start)?;
        let by = Use::new(self.files.alloc, user, path, Access::Write)?;
        let mut file = self.files.open_to_begin(&place, &home.budget, start)?;
        self.files.cut(&home.budget, &mut file, start)?;
        Ok(Opened {
            by,
            file,
            at: start,
            apart: None,
        })
    }

    // Opens a file beside a path.
    fn open_beside(&self, user: &Bytes, path: &Bytes) -> Answer<Opened<S::File>>
        ensures reached { OnOk result (IsReached (S.told self.now.system) self.now.homes user.now path.now) }
        ensures read_only { may_write self.now.homes user.now ≡ false → IsErrOf result (StoreError.Kind PermissionDenied) }
        ensures beside { IfOk result (λ opened. is_some opened.apart ≡ true) }
    {
        let home = self.homes.find(user)?;
        let onto = home.writable(self.files.alloc, path.as_slice())?;
        let from = home.beside(self.files.alloc, path.as_slice())?;
        let by = Use::new(self.files.alloc, user, path, Access::Write)?;
        let budget = home.budget.share()?;
        self.files.begin_beside(by, from, onto, budget)
    }

    // Opens a file for an upload: beside its path if it is to come whole.
    fn open_upload(&self, user: &Bytes, path: &Bytes, start: u64) -> Answer<Opened<S::File>>
        ensures reached { OnOk result (IsReached (S.told self.now.system) self.now.homes user.now path.now) }
        ensures read_only { may_write self.now.homes user.now ≡ false → IsErrOf result (StoreError.Kind PermissionDenied) }
        ensures beside { IfOk result (λ opened. is_some opened.apart ≡ (self.now.is_whole && nat_eq start 0)) }
    {
        if self.is_whole && start == 0 {
            self.open_beside(user, path)
        } else {
            self.open_at(user, path, start)
        }
    }

    // Begins an upload, and keeps its file open.
    fn start(&mut self, user: &Bytes, path: &Bytes, start: u64) -> Answer<()>
        ensures reached { OnOk result (IsReached (S.told self.old.system) self.old.homes user.now path.now) }
        ensures read_only { may_write self.old.homes user.now ≡ false → IsErrOf result (StoreError.Kind PermissionDenied) }
        ensures beside { OnOk result (self.new.is_apart ≡ (self.old.is_whole && nat_eq start 0)) }
        ensures others { self.new ≡ record self.old { is_apart = self.new.is_apart } }
    {
        self.close();
        let opened = self.open_upload(user, path, start)?;
        self.opened = Some(opened);
        Ok(())
    }

    // Opens a file at its end.
    fn open_end(&self, user: &Bytes, path: &Bytes) -> Answer<Opened<S::File>>
        ensures read_only { may_write self.now.homes user.now ≡ false → IsErrOf result (StoreError.Kind PermissionDenied) }
    {
        let home = self.homes.find(user)?;
        let place = home.writable(self.files.alloc, path.as_slice())?;
        let by = Use::new(self.files.alloc, user, path, Access::Write)?;
        let mut file = self.files.open_to_append(&place)?;
        let at = go_to(&mut file, SeekFrom::End(0))?;
        Ok(Opened {
            by,
            file,
            at,
            apart: None,
        })
    }

    // Puts bytes at the end of a file that is open.
    fn put_at_end(&self, user: &Bytes, opened: &mut Opened<S::File>, bytes: &[u8]) -> Answer<()> {
        let home = self.homes.find(user)?;
        self.files
            .put(&home.budget, &mut opened.file, opened.at, bytes)?;
        opened.at = opened.at.saturating_add(bytes.len() as u64);
        Ok(())
    }

    // Puts bytes at the end of a file, and keeps it open there.
    fn write(&mut self, user: &Bytes, path: &Bytes, bytes: &[u8]) -> Answer<()>
        ensures read_only { may_write self.old.homes user.now ≡ false → IsErrOf result (StoreError.Kind PermissionDenied) }
        ensures others { self.new ≡ record self.old { is_apart = self.new.is_apart } }
    {
        self.homes.find(user)?.check_may_write()?;
        let mut opened = match self.take_open(user, path, Access::Write) {
            Some(opened) => opened,
            None => self.open_end(user, path)?,
        };
        let put = self.put_at_end(user, &mut opened, bytes);
        self.opened = Some(opened);
        if put.is_err() {
            self.close();
        }
        put
    }

    // Has an upload that came whole stand at its path.
    fn end(&mut self, user: &Bytes, path: &Bytes) -> Answer<()>
        ensures settled { self.new ≡ record self.old { is_apart = false } }
    {
        let Some(opened) = self.take_open(user, path, Access::Write) else {
            return Ok(());
        };
        let finished = self.files.finish(&opened);
        if finished.is_err() {
            self.files.leave_off(&opened);
        }
        finished
    }
}
