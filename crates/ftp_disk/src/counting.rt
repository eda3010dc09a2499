//! How much lies below a home.

use crate::file_system::FileSystem;
use crate::listing::{names_in, parts};
use crate::standing::{Standing, standing_of};
use ftp_base::StoreError;
use ftp_places::{Place, PlaceError};
use std::alloc::{AllocError, Global};

// How many bytes a file of this name in a directory has. A directory of this name is put behind the places.
fn count<S: FileSystem>(
    system: &S,
    alloc: Global,
    place: &Place,
    name: &[u8],
    places: &mut Vec<Place>,
) -> Result<u64, AllocError> {
    let child = match place.child(alloc, name) {
        Ok(child) => child,
        Err(PlaceError::Name) => return Ok(0),
        Err(PlaceError::OutOfMemory) => return Err(AllocError),
    };
    match standing_of(system.look(&child)) {
        Ok(Standing::File(len)) => Ok(len),
        Ok(Standing::Directory) => {
            places.push(child)?;
            Ok(0)
        }
        Ok(Standing::Nothing) | Err(_) => Ok(0),
    }
}

// Adds up the files of a directory, and puts its directories behind the places. What cannot be listed has none.
fn add_up<S: FileSystem>(
    system: &S,
    alloc: Global,
    place: &Place,
    places: &mut Vec<Place>,
) -> Result<u64, AllocError> {
    let names = match names_in(system, alloc, place) {
        Ok(names) => names,
        Err(StoreError::OutOfMemory) => return Err(AllocError),
        Err(_) => return Ok(0),
    };
    let parts = parts(alloc, names.as_slice())?;
    let mut bytes: u64 = 0;
    for name in &parts {
        bytes = bytes.saturating_add(count(system, alloc, place, *name, places)?);
    }
    Ok(bytes)
}

/// How many bytes the files below a root have, each under each of its names, as far as its directories can be read. Links are
/// not followed.
pub fn usage<S: FileSystem>(system: &S, alloc: Global, root: &str) -> Result<u64, AllocError> {
    let mut places = Vec::new(alloc);
    match Place::of(alloc, root, b"/") {
        Ok(place) => places.push(place)?,
        Err(PlaceError::Name) => {}
        Err(PlaceError::OutOfMemory) => return Err(AllocError),
    }
    let mut bytes: u64 = 0;
    for _ in 0..u64::MAX {
        let Some(place) = places.pop() else {
            break;
        };
        bytes = bytes.saturating_add(add_up(system, alloc, &place, &mut places)?);
    }
    Ok(bytes)
}
