//! What is asked of a system about the files below roots.

ghost use Rattle.std.specs.Prelude.{◌+◌, ◌≤◌, length, OnOk};
ghost use Rattle.ftp_places.specs.Place.{Location};
ghost use Rattle.ftp_disk.specs.FileSystem.{Told, IsUnlinked, WasFile, WasFileOrNothing};

use crate::budget::Grant;
use crate::home::Writable;
use ftp_places::Place;
use std::alloc::Global;
use std::fs::{Metadata, TryLockError};
use std::io;
use std::io::{Read, Seek};

/// Asks a system for files by places alone.
///
/// No clause says what it answers, but that a look tells its answer. What is opened was looked at before, as was each
/// directory on the way to it, and none was a link. Somebody else may put one there in between. What a file grows by was granted.
pub trait FileSystem {
    /// A file that is open.
    type File: Read + Seek + Drop;

    // The system was asked what stands at a place, and this was its answer.
    ghost told: { Self → Told };

    // The system was asked to rename what stood at a place to another one, and did.
    ghost renamed: { Self → Location → Location → Type 0 };

    /// What stands at a place. Of a link it tells of the link.
    fn look(&self, place: &Place) -> io::Result<Metadata>
        ensures { told self.now place.now result };

    /// Seconds since 1970 by the system's clock; 0 where that cannot be read.
    fn now(&self) -> i64;

    /// Opens a file to read it from its front.
    fn open(&self, place: &Place) -> io::Result<Self::File>
        requires unlinked { IsUnlinked (told self.now) place.now }
        requires file { WasFile (told self.now) place.now };

    /// Opens a file to write to it, and makes it where there is none. What it holds stays.
    fn create(&self, place: &Writable) -> io::Result<Self::File>
        requires unlinked { IsUnlinked (told self.now) place.now }
        requires file { WasFileOrNothing (told self.now) place.now };

    /// Takes the lock of a file for as long as it is open, unless it is taken.
    fn try_lock(&self, file: &Self::File) -> Result<(), TryLockError>;

    /// Whether the file that is open is the one that stands at a place.
    fn is_at(&self, file: &Self::File, place: &Place) -> io::Result<bool>;

    /// Renames what stands at a place. A file takes the place of a file.
    fn rename(&self, from: &Writable, onto: &Writable) -> io::Result<()>
        requires unlinked { IsUnlinked (told self.now) from.now }
        requires onto { IsUnlinked (told self.now) onto.now }
        ensures renamed { OnOk result (renamed self.now from.now onto.now) };

    /// Removes a file.
    fn remove_file(&self, place: &Writable) -> io::Result<()>
        requires unlinked { IsUnlinked (told self.now) place.now };

    /// Makes a directory.
    fn create_dir(&self, place: &Writable) -> io::Result<()>
        requires unlinked { IsUnlinked (told self.now) place.now };

    /// Removes a directory that is empty.
    fn remove_dir(&self, place: &Writable) -> io::Result<()>
        requires unlinked { IsUnlinked (told self.now) place.now };

    /// Says when a file was last changed, in seconds since 1970.
    fn set_modified(&self, file: &Self::File, seconds: u64) -> io::Result<()>;

    /// Writes bytes to a file where it stands.
    fn write(&self, file: &mut Self::File, bytes: &[u8], grant: &Grant) -> io::Result<()>
        requires granted { length bytes.now ≤ grant.now.bytes };

    /// Cuts a file that has so many bytes, or fills it with zeros.
    fn set_len(&self, file: &Self::File, bytes: u64, len: u64, grant: &Grant) -> io::Result<()>
        requires granted { len ≤ bytes + grant.now.bytes };

    /// The names in a directory, a NUL behind each.
    fn names(&self, alloc: Global, place: &Place) -> io::Result<Vec<u8>>
        requires unlinked { IsUnlinked (told self.now) place.now };
}
