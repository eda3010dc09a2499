//! The files of the system below roots. Nothing else of this crate asks the system for anything.

use crate::budget::Grant;
use crate::file_system::FileSystem;
use crate::home::Writable;
use ftp_places::Place;
use std::alloc::Global;
use std::fs::{File, Metadata, OpenOptions, TryLockError};
use std::io;
use std::io::{Read, Write};
use std::os::unix::fs::MetadataExt;
use std::rt::Files;
use std::time::{Clock, Duration, UNIX_EPOCH};

/// How many bytes of names are read at a time. No name fits a small buffer.
const NAMES_LEN: usize = 32_768;

/// The files of the system.
#[derive(Clone, Copy, Drop)]
pub struct Below<R> {
    rt: R,
}

impl<R> Below<R> {
    /// Asks by the runtime.
    pub fn new(rt: R) -> Below<R> {
        Below { rt }
    }
}

// Reads all that there is.
fn read_names<D: Read>(alloc: Global, dir: &mut D) -> io::Result<Vec<u8>> {
    let mut names = Vec::new(alloc);
    let mut piece = Vec::new(alloc);
    piece.resize(NAMES_LEN, 0)?;
    for _ in 0..u64::MAX {
        let n = dir.read(piece.as_mut_slice())?;
        if n == 0 {
            break;
        }
        names.extend_from_slice(&piece.as_slice()[..n])?;
    }
    Ok(names)
}

impl<R: Files<File = File> + Clock> FileSystem for Below<R> {
    ghost use Rattle.std.specs.Prelude.{⊤};

    type File = File;

    ghost told = { λ _ _ _. ⊤ };

    ghost renamed = { λ _ _ _. ⊤ };

    fn look(&self, place: &Place) -> io::Result<Metadata> {
        self.rt.symlink_metadata(place.text())
    }

    fn now(&self) -> i64 {
        match self.rt.since_1970() {
            Ok(time) => i64::try_from(time.as_secs()).unwrap_or(i64::MAX),
            Err(_) => 0,
        }
    }

    fn open(&self, place: &Place) -> io::Result<File> {
        OpenOptions::new().read(true).open(&self.rt, place.text())
    }

    fn create(&self, place: &Writable) -> io::Result<File> {
        OpenOptions::new()
            .write(true)
            .create(true)
            .open(&self.rt, place.as_place().text())
    }

    fn try_lock(&self, file: &File) -> Result<(), TryLockError> {
        file.try_lock()
    }

    fn is_at(&self, file: &File, place: &Place) -> io::Result<bool> {
        let own = file.metadata()?;
        let there = self.rt.symlink_metadata(place.text())?;
        Ok(own.dev() == there.dev() && own.ino() == there.ino())
    }

    fn rename(&self, from: &Writable, onto: &Writable) -> io::Result<()> {
        self.rt
            .rename(from.as_place().text(), onto.as_place().text())
    }

    fn remove_file(&self, place: &Writable) -> io::Result<()> {
        self.rt.remove_file(place.as_place().text())
    }

    fn create_dir(&self, place: &Writable) -> io::Result<()> {
        self.rt.create_dir(place.as_place().text())
    }

    fn remove_dir(&self, place: &Writable) -> io::Result<()> {
        self.rt.remove_dir(place.as_place().text())
    }

    fn set_modified(&self, file: &File, seconds: u64) -> io::Result<()> {
        match UNIX_EPOCH.checked_add(Duration::from_secs(seconds)) {
            Some(time) => file.set_modified(time),
            None => Err(io::Error::from(io::ErrorKind::InvalidInput)),
        }
    }

    fn write(&self, file: &mut File, bytes: &[u8], _grant: &Grant) -> io::Result<()> {
        file.write_all(bytes)
    }

    fn set_len(&self, file: &File, _bytes: u64, len: u64, _grant: &Grant) -> io::Result<()> {
        file.set_len(len)
    }

    fn names(&self, alloc: Global, place: &Place) -> io::Result<Vec<u8>> {
        let mut text = String::from_str(alloc, place.text())?;
        if place.depth() == 0 {
            // Where the root is a link, the directory to which it leads.
            text.push('/')?;
        }
        let mut dir = self.rt.open_dir(text.as_str())?;
        read_names(alloc, &mut dir)
    }
}
