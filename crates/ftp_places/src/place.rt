//! A place at or below a root.

ghost use Rattle.std.specs.Prelude.{◌≡◌, ◌==◌, ◌∷◌, ◌++◌, [], ℕ, ◌≤◌, ◌<◌, false, true, length, string_bytes, map, take, slice_index, IfOk, IsErrOf, OnOk};
ghost use Rattle.std.specs.List.{list_all, filter};
ghost use Rattle.ftp_places.specs.Names.{is_separator, names_of, is_taken_name, is_file_name};
ghost use Rattle.ftp_places.specs.Place.{Location, slashed, trail_of, before_separator, system_path, below_by, IsBelow};

use crate::names::{file_name, names_of};
use std::alloc::{AllocError, Global};
use std::marker::Model;

/// Why there is no such place.
#[derive(Clone, Copy, Debug, PartialEq, Eq)]
pub enum PlaceError {
    /// No file may have one of the names.
    Name,
    OutOfMemory,
}

impl From<AllocError> for PlaceError {
    ghost use Rattle.ftp_places.specs.declared.place.PlaceError.TheVariants as error;

    ghost from_gives = { λ _ e. e ≡ error.OutOfMemory };

    fn from(_e: AllocError) -> PlaceError {
        PlaceError::OutOfMemory
    }
}

/// A root, or a place below one, which contracts see as the root and the names that lead from it.
#[derive(Drop)]
pub struct Place {
    text: String,
    // How long the root is.
    root: usize,
}

impl Model for Place {
    ghost use Rattle.std.specs.Prelude.{string_bytes};
    ghost use Rattle.ftp_places.specs.Place.{Location, location_of, HasNames};

    ghost Value = { Location };

    ghost view = { λ p. location_of (string_bytes p.text) p.root };

    ghost invariant = { λ p. HasNames (string_bytes p.text) p.root };
}

// Puts a slash and a name behind the text.
fn put_name(text: &mut String, name: &str) -> Result<(), AllocError>
    ensures { OnOk result (string_bytes text.new ≡ string_bytes text.old ++ slashed name.now) }
{
    text.push('/')?;
    text.push_str(name)?;
    Ok(())
}

// Where the slash stands that has so many before it, or the end.
fn find_slash(path: &[u8], mut before: usize) -> usize
    ensures front { take result path.now ≡ before_separator before path.now }
    ensures within { result ≤ length path.now }
    ensures slash { result < length path.now → slice_index path.now result ≡ 47 }
{
    for (i, b) in path.iter().enumerate() {
        if *b != b'/' {
            continue;
        }
        if before == 0 {
            return i;
        }
        before -= 1;
    }
    path.len()
}

// How many slashes a path has.
fn count_slashes(path: &[u8]) -> usize
    ensures { result ≡ length (filter is_separator path.now) }
{
    path.iter().filter(|b| **b == b'/').count()
}

impl Place {
    /// Where a client's path leads below a root: over the names between its slashes, where an empty one and `.` lead
    /// nowhere, and `..` takes back the last one, if there is one.
    ///
    /// # Proved
    ///
    /// - A place is where the names that the path leads through lead from the root, and `..` never leads above it
    ///   (`place`).
    /// - A path is refused only where such a name has a NUL or is no text, and there it leads to no place (`named`,
    ///   `name`).
    pub fn of(alloc: Global, root: &str, path: &[u8]) -> Result<Place, PlaceError>
        ensures place { IfOk result (λ place. place ≡ below_by root.now (names_of path.now)) }
        ensures named { IfOk result (λ _. list_all is_taken_name (names_of path.now) ≡ true) }
        ensures name { IsErrOf result PlaceError.Name → list_all is_taken_name (names_of path.now) ≡ false }
    {
        let names = names_of(alloc, path)?;
        let mut text = String::from_str(alloc, root)?;
        for name in &names {
            let Some(name) = file_name(name) else {
                return Err(PlaceError::Name);
            };
            put_name(&mut text, name)?;
        }
        Ok(Place {
            text,
            root: root.len(),
        })
    }

    /// The place of a name in this directory.
    ///
    /// # Proved
    ///
    /// - A directory's entry is one name further from the root, and a name is refused only where no file may have it: it
    ///   is empty, `.` or `..`, has a slash or a NUL, or is no text (`place`, `named`, `name`).
    pub fn child(&self, alloc: Global, name: &[u8]) -> Result<Place, PlaceError>
        ensures place { IfOk result (λ place. place ≡ below_by self.now.root (self.now.names ++ name.now ∷ [])) }
        ensures named { IfOk result (λ _. is_file_name name.now ≡ true) }
        ensures name { IsErrOf result PlaceError.Name → is_file_name name.now ≡ false }
    {
        let Some(name) = file_name(name) else {
            return Err(PlaceError::Name);
        };
        let mut text = String::from_str(alloc, self.text.as_str())?;
        put_name(&mut text, name)?;
        Ok(Place {
            text,
            root: self.root,
        })
    }

    /// How many names lead from the root to the place.
    pub fn depth(&self) -> usize
        ensures { result ≡ length self.now.names }
    {
        let (_, path) = self.text.as_bytes().split_at(self.root);
        count_slashes(path)
    }

    /// Where the first names lead: the root, a directory on the way, or the place itself, as it has so many names.
    ///
    /// # Proved
    ///
    /// - Each front of a place is a place below the same root, of its first names (also `Place::depth`).
    pub fn front(&self, alloc: Global, names: usize) -> Result<Place, AllocError>
        ensures { IfOk result (λ place. place ≡ below_by self.now.root (take names self.now.names)) }
    {
        let (_, path) = self.text.as_bytes().split_at(self.root);
        let end = self.root + find_slash(path, names);
        let (front, _) = self.text.as_str().split_at(end);
        Ok(Place {
            text: String::from_str(alloc, front)?,
            root: self.root,
        })
    }

    /// The path for the system.
    ///
    /// # Proved
    ///
    /// - It is the root or leads below it, by names that files may have, whatever the client sent (`below`, `text`).
    pub fn text(&self) -> &str
        ensures text { result.now ≡ system_path self.now }
        ensures below { IsBelow self.now.root result.now }
    {
        self.text.as_str()
    }
}
