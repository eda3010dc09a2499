//! Where users have their files, and which of them may change theirs.

ghost use Rattle.std.specs.Prelude.{◌≡◌, ◌&&◌, true, false, IfOk, IfErr, OnOk, OnErr, IsErrOf, IsTrue};
ghost use Rattle.std.specs.List.{list_all};
ghost use Rattle.ftp_base.specs.declared.error_kind.ErrorKind.TheVariants.{PermissionDenied, FileNameNotAllowedError};
ghost use Rattle.ftp_places.specs.Names.{names_of, is_taken_name};
ghost use Rattle.std.specs.Option.{option_copied};
ghost use Rattle.ftp_places.specs.Place.{below_by};
ghost use Rattle.ftp_disk.specs.Home.{homes_by_user, home_of};
ghost use Rattle.ftp_disk.specs.Visible.{IsBeside, is_visible_name};

use crate::budget::Budget;
use crate::visible::{are_visible, upload_name};
use ftp_base::{Bytes, ErrorKind, StoreError};
use ftp_places::{Place, PlaceError, names_of};
use std::alloc::{AllocError, Global};
use std::collections::BTreeMap;
use std::marker::Model;

/// A user's directory.
#[derive(Drop)]
pub struct Home {
    /// The directory, without a slash at its end. It may be a link.
    pub root: String,
    pub may_write: bool,
    pub budget: Budget,
}

/// A place in a home that its user may change.
#[derive(Drop)]
pub struct Writable {
    place: Place,
}

impl Model for Writable {
    ghost use Rattle.ftp_places.specs.Place.{Location};

    ghost Value = { Location };

    ghost view = { λ w. w.place };
}

impl Writable {
    /// The place.
    pub fn as_place(&self) -> &Place
        ensures { result.now ≡ self.now }
    {
        &self.place
    }

    /// The place of a name in this directory.
    pub(crate) fn child(&self, alloc: Global, name: &[u8]) -> Result<Writable, PlaceError> {
        Ok(Writable {
            place: self.place.child(alloc, name)?,
        })
    }
}

impl Home {
    ghost use Rattle.std.specs.Prelude.{string_bytes};

    /// Where a client's path leads in the home.
    ///
    /// # Proved
    ///
    /// - A client comes to no place by a name that listings leave out, and is refused for a name only where it is such a one or
    ///   no file may have it (`visible`, `named`).
    pub fn place(&self, alloc: Global, path: &[u8]) -> Result<Place, StoreError>
        ensures place { IfOk result (λ place. place ≡ below_by (string_bytes self.now.root) (names_of path.now)) }
        ensures visible { OnOk result (list_all is_visible_name (names_of path.now) ≡ true) }
        ensures named { IsErrOf result (StoreError.Kind FileNameNotAllowedError) → list_all is_taken_name (names_of path.now) && list_all is_visible_name (names_of path.now) ≡ false }
    {
        if !are_visible(alloc, path)? {
            return Err(StoreError::Kind(ErrorKind::FileNameNotAllowedError));
        }
        match Place::of(alloc, self.root.as_str(), path) {
            Ok(place) => Ok(place),
            Err(PlaceError::Name) => Err(StoreError::Kind(ErrorKind::FileNameNotAllowedError)),
            Err(PlaceError::OutOfMemory) => Err(StoreError::OutOfMemory),
        }
    }

    /// Refuses a user who may not write.
    pub fn check_may_write(&self) -> Result<(), StoreError>
        ensures may_write { OnOk result (IsTrue self.now.may_write) }
        ensures read_only { self.now.may_write ≡ false → IsErrOf result (StoreError.Kind PermissionDenied) }
    {
        if self.may_write {
            Ok(())
        } else {
            Err(StoreError::Kind(ErrorKind::PermissionDenied))
        }
    }

    /// Where a client's path leads in the home, where its user may change what stands there.
    ///
    /// # Proved
    ///
    /// - A place that may be changed lies in a home whose user may write, and is refused in any other (`may_write`,
    ///   `read_only`, `place`).
    pub fn writable(&self, alloc: Global, path: &[u8]) -> Result<Writable, StoreError>
        ensures place { IfOk result (λ place. place ≡ below_by (string_bytes self.now.root) (names_of path.now)) }
        ensures visible { OnOk result (list_all is_visible_name (names_of path.now) ≡ true) }
        ensures may_write { OnOk result (IsTrue self.now.may_write) }
        ensures read_only { self.now.may_write ≡ false → IsErrOf result (StoreError.Kind PermissionDenied) }
    {
        self.check_may_write()?;
        let place = self.place(alloc, path)?;
        Ok(Writable { place })
    }

    /// Where an upload to a client's path stands until it came whole.
    ///
    /// # Proved
    ///
    /// - It stands in the directory of its path, under a name that no client may use (`beside`; also `uploads_are_hidden`:
    ///   `hidden`).
    pub fn beside(&self, alloc: Global, path: &[u8]) -> Result<Writable, StoreError>
        ensures beside { IfOk result (IsBeside (below_by (string_bytes self.now.root) (names_of path.now))) }
    {
        let onto = self.writable(alloc, path)?;
        let names = names_of(alloc, path)?;
        let [dir @ .., name] = names.as_slice() else {
            return Err(StoreError::Kind(ErrorKind::FileNameNotAllowedError));
        };
        let dir = onto.place.front(alloc, dir.len())?;
        let name = upload_name(alloc, name)?;
        match dir.child(alloc, name.as_slice()) {
            Ok(place) => Ok(Writable { place }),
            Err(PlaceError::Name) => Err(StoreError::Kind(ErrorKind::FileNameNotAllowedError)),
            Err(PlaceError::OutOfMemory) => Err(StoreError::OutOfMemory),
        }
    }
}

/// Each user's home by the user's name, which contracts see in byte order of the names.
#[derive(Drop)]
pub struct Homes {
    by_user: BTreeMap<Vec<u8>, Home>,
}

impl Model for Homes {
    ghost use Rattle.std.specs.Prelude.{ℕ, List};
    ghost use Rattle.ftp_disk.specs.declared.home.Home.{Home};
    ghost use Rattle.ftp_disk.specs.Home.{homes_by_user};

    ghost Value = { List (List ℕ × Home) };

    ghost view = { λ h. homes_by_user h.by_user.entries };
}

// The home of a user.
fn home_of<'a>(homes: &'a BTreeMap<Vec<u8>, Home>, user: &[u8]) -> Option<&'a Home>
    ensures { option_copied result ≡ home_of (homes_by_user homes.now.entries) user.now }
{
    homes.get(user)
}

impl Homes {
    ghost use Rattle.std.specs.Prelude.{◌≡◌, ℕ, List, [], None, Some, OnOk, OnErr};
    ghost use Rattle.std.specs.Option.{option_or};
    ghost use Rattle.ftp_disk.specs.Home.{home_of, home_if};

    /// Nobody has a home.
    pub fn new(alloc: Global) -> Homes
        ensures { result ≡ [] }
    {
        Homes {
            by_user: BTreeMap::new(alloc),
        }
    }

    /// Gives a user a home, unless the user has one.
    ///
    /// # Proved
    ///
    /// - A user who has a home keeps it, and the others keep theirs (`added`).
    pub fn add(&mut self, user: Vec<u8>, home: Home) -> Result<(), AllocError>
        ensures added { OnOk result ((name : List ℕ) → home_of self.new name ≡ option_or (home_of self.old name) (home_if name user.items home)) }
    {
        if home_of(&self.by_user, user.as_slice()).is_some() {
            return Ok(());
        }
        self.by_user.insert(user, home)?;
        Ok(())
    }

    /// The home of a user, in a time that grows with the logarithm of the count of homes.
    ///
    /// # Proved
    ///
    /// - A user without a home is refused, and nobody else (`found`, `homeless`, `denied`).
    pub fn find(&self, user: &Bytes) -> Result<&Home, StoreError>
        ensures found { IfOk result (λ home. home_of self.now user.now ≡ Some home.now) }
        ensures homeless { OnErr result (home_of self.now user.now ≡ None) }
        ensures denied { IfErr result (λ e. e ≡ StoreError.Kind PermissionDenied) }
    {
        match home_of(&self.by_user, user.as_slice()) {
            Some(home) => Ok(home),
            None => Err(StoreError::Kind(ErrorKind::PermissionDenied)),
        }
    }
}
