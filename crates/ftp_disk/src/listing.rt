//! What a listing shows: directories and files, in byte order of their names.

ghost use Rattle.std.specs.Prelude.{◌≡◌, ◌∷◌, [], All, IfOk, IfSome, IsSortedByKey, OnOk};
ghost use Rattle.std.specs.List.{list_any};
ghost use Rattle.std.specs.Cmp.Lexicographic.{slice_cmp};
ghost use Rattle.std.specs.Ordering.{nat_cmp};
ghost use Rattle.ftp_disk.specs.FileSystem.{IsUnlinked};
ghost use Rattle.ftp_disk.specs.Listing.{IsListingOf, IsShownBy, IsShownOf, ListsFile, ListsMatches, WasShown, shown_meta};
ghost use Rattle.ftp_disk.specs.Patterns.{is_wild};
ghost use Rattle.ftp_places.specs.Names.{names_of as led_through};

use crate::file_system::FileSystem;
use crate::looks::looks_told;
use crate::opening::in_directory;
use crate::pattern::{is_wild, matches, pattern_in};
use crate::refusals::{Answer, told};
use crate::standing::{Standing, resolve, standing_of};
use crate::visible::is_visible;
use ftp_base::{Bytes, ErrorKind, FileInfo, Meta, StoreError};
use ftp_places::{Place, PlaceError, names_of};
use std::alloc::{AllocError, Global};
use std::cmp::Ordering;

/// What a listing shows, or why there is none.
pub(crate) type Listed = Answer<Vec<FileInfo>>;

/// What is shown of what stands at a place.
pub(crate) fn meta_of(found: Standing) -> Option<Meta>
    ensures { result ≡ shown_meta found }
{
    match found {
        Standing::Nothing => None,
        Standing::Directory => Some(Meta {
            is_dir: true,
            len: 0,
        }),
        Standing::File(len) => Some(Meta { is_dir: false, len }),
    }
}

// What is shown of a name in a directory, where a file may have it, clients may use it, and a directory or a file stands there.
fn shown<S: FileSystem>(
    system: &S,
    alloc: Global,
    place: &Place,
    name: &[u8],
    now: i64,
) -> Result<Option<FileInfo>, AllocError>
    ensures shown { IfOk result (λ shown. IfSome shown (WasShown (S.told system.now) place.now)) }
    ensures exactly { IfOk result (IsShownBy (S.told system.now) place.now name.now) }
{
    if !is_visible(name) {
        return Ok(None);
    }
    let child = match place.child(alloc, name) {
        Ok(child) => child,
        Err(PlaceError::Name) => return Ok(None),
        Err(PlaceError::OutOfMemory) => return Err(AllocError),
    };
    let answer = system.look(&child);
    let looks = looks_told(&answer, now);
    let Ok(found) = standing_of(answer) else {
        return Ok(None);
    };
    let Some(meta) = meta_of(found) else {
        return Ok(None);
    };
    let name = Bytes::from_slice(alloc, name)?;
    Ok(Some(FileInfo { name, meta, looks }))
}

// Puts what is shown of a name behind the rest, where it matches a pattern.
fn show<S: FileSystem>(
    infos: &mut Vec<FileInfo>,
    row: &mut Vec<bool>,
    system: &S,
    alloc: Global,
    place: &Place,
    pattern: &[u8],
    name: &[u8],
    now: i64,
) -> Result<(), AllocError>
    ensures shown { OnOk result (All (IsShownOf (S.told system.now) place.now pattern.now) infos.old.items → All (IsShownOf (S.told system.now) place.now pattern.now) infos.new.items) }
{
    let is_match = matches(pattern, name, row)?;
    if !is_match {
        return Ok(());
    }
    let found = shown(system, alloc, place, name, now)?;
    if let Some(info) = found {
        infos.push(info)?;
    }
    Ok(())
}

/// The names that have a NUL behind each of them, and what is left.
pub(crate) fn parts(alloc: Global, names: &[u8]) -> Result<Vec<&[u8]>, AllocError> {
    names.split(|b| *b == 0).collect(alloc)
}

// The order of names.
fn compare(a: &FileInfo, b: &FileInfo) -> Ordering
    ensures { result ≡ slice_cmp nat_cmp a.now.name b.now.name }
{
    a.name.as_slice().cmp(b.name.as_slice())
}

// What is shown of the names in a directory that match a pattern, in order. A NUL stands behind each name.
fn list_children<S: FileSystem>(
    system: &S,
    alloc: Global,
    place: &Place,
    pattern: &[u8],
    names: &[u8],
) -> Result<Vec<FileInfo>, AllocError>
    ensures shown { IfOk result (λ infos. All (IsShownOf (S.told system.now) place.now pattern.now) infos.items) }
    ensures in_order { IfOk result (λ infos. IsSortedByKey (λ info. info.name) (slice_cmp nat_cmp) infos.items) }
{
    let parts = parts(alloc, names)?;
    let now = system.now();
    let mut row = Vec::new(alloc);
    let mut infos = Vec::new(alloc);
    for name in &parts {
        show(
            &mut infos, &mut row, system, alloc, place, pattern, *name, now,
        )?;
    }
    infos.sort_unstable_by(|a, b| compare(a, b));
    Ok(infos)
}

// The names in a directory, each with a NUL behind it.
fn names_at<S: FileSystem>(system: &S, alloc: Global, place: &Place) -> Answer<Vec<u8>>
    requires unlinked { IsUnlinked (S.told system.now) place.now }
{
    in_directory(told(system.names(alloc, place)))
}

/// The names in a directory, each with a NUL behind it.
pub(crate) fn names_in<S: FileSystem>(system: &S, alloc: Global, place: &Place) -> Answer<Vec<u8>>
    ensures unlinked { OnOk result (IsUnlinked (S.told system.now) place.now) }
{
    let Standing::Directory = resolve(system, alloc, place)? else {
        return Err(no_directory());
    };
    names_at(system, alloc, place)
}

// There is no such directory.
fn no_directory() -> StoreError {
    StoreError::Kind(ErrorKind::PermanentDirectoryNotAvailable)
}

// A listing of one.
fn only(alloc: Global, info: FileInfo) -> Result<Vec<FileInfo>, AllocError>
    ensures { IfOk result (λ infos. infos.items ≡ info ∷ []) }
{
    let mut infos = Vec::new(alloc);
    infos.push(info)?;
    Ok(infos)
}

// What is shown of a file by a listing of its path.
fn list_file<S: FileSystem>(system: &S, alloc: Global, place: &Place, path: &[u8]) -> Listed
    requires names { place.now.names ≡ led_through path.now }
    ensures shown { IfOk result (λ infos. ListsFile (S.told system.now) place.now infos.items) }
{
    let names = names_of(alloc, path)?;
    let [before @ .., name] = names.as_slice() else {
        return Err(no_directory());
    };
    let dir = place.front(alloc, before.len())?;
    let found = shown(system, alloc, &dir, *name, system.now())?;
    let Some(info) = found else {
        return Err(no_directory());
    };
    let infos = only(alloc, info)?;
    Ok(infos)
}

fn any_wild(names: &[&[u8]]) -> bool
    ensures { result ≡ list_any (λ name. is_wild name.now) names.now }
{
    names.iter().any(|name| is_wild(*name))
}

// What is shown by a listing of a path at which nothing stands: what matches the pattern in its last name.
fn list_matches<S: FileSystem>(system: &S, alloc: Global, place: &Place, path: &[u8]) -> Listed
    requires names { place.now.names ≡ led_through path.now }
    ensures shown { IfOk result (λ infos. ListsMatches (S.told system.now) place.now infos.items) }
    ensures in_order { IfOk result (λ infos. IsSortedByKey (λ info. info.name) (slice_cmp nat_cmp) infos.items) }
{
    let names = names_of(alloc, path)?;
    let [before @ .., name] = names.as_slice() else {
        return Err(no_directory());
    };
    let pattern = pattern_in(*name);
    if !is_wild(pattern) || any_wild(before) {
        return Err(no_directory());
    }
    let dir = place.front(alloc, before.len())?;
    let found = names_in(system, alloc, &dir)?;
    let infos = list_children(system, alloc, &dir, pattern, found.as_slice())?;
    Ok(infos)
}

/// What a listing of a path shows: the children of a directory; of a file that alone; and where nothing stands, the children of
/// the directory before that match the last name, which is a pattern.
pub(crate) fn list<S: FileSystem>(system: &S, alloc: Global, place: &Place, path: &[u8]) -> Listed
    requires names { place.now.names ≡ led_through path.now }
    ensures listed { IfOk result (λ infos. IsListingOf (S.told system.now) place.now infos.items) }
{
    let found = resolve(system, alloc, place)?;
    match found {
        Standing::Directory => {
            let names = names_at(system, alloc, place)?;
            let children = list_children(system, alloc, place, b"*", names.as_slice())?;
            Ok(children)
        }
        Standing::File(_) => {
            let alone = list_file(system, alloc, place, path)?;
            Ok(alone)
        }
        Standing::Nothing => {
            let matching = list_matches(system, alloc, place, path)?;
            Ok(matching)
        }
    }
}
