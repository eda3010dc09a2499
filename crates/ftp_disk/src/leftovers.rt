//! What uploads leave beside their path where their process is killed.

use crate::apart::open_beside;
use crate::file_system::FileSystem;
use crate::home::{Home, Writable};
use crate::listing::{names_in, parts};
use crate::standing::{Standing, standing_of};
use crate::visible::is_upload_name;
use ftp_base::StoreError;
use ftp_places::PlaceError;
use std::alloc::{AllocError, Global};

// Removes what an upload left, unless the upload runs.
fn remove<S: FileSystem>(system: &S, alloc: Global, place: &Writable) -> Result<(), AllocError> {
    match open_beside(system, alloc, place) {
        Ok(_lock) => {
            // What cannot be removed stays, and is tried again at the next start.
            let _removed = system.remove_file(place);
            Ok(())
        }
        Err(StoreError::OutOfMemory) => Err(AllocError),
        Err(_) => Ok(()),
    }
}

// Looks at a name in a directory: removes what an upload left, and puts a directory behind the others.
fn visit<S: FileSystem>(
    system: &S,
    alloc: Global,
    dir: &Writable,
    name: &[u8],
    dirs: &mut Vec<Writable>,
) -> Result<(), AllocError> {
    let child = match dir.child(alloc, name) {
        Ok(child) => child,
        Err(PlaceError::Name) => return Ok(()),
        Err(PlaceError::OutOfMemory) => return Err(AllocError),
    };
    if is_upload_name(name) {
        return remove(system, alloc, &child);
    }
    if let Ok(Standing::Directory) = standing_of(system.look(child.as_place())) {
        dirs.push(child)?;
    }
    Ok(())
}

// Visits each name in a directory. One that cannot be read is passed over.
fn visit_all<S: FileSystem>(
    system: &S,
    alloc: Global,
    dir: &Writable,
    dirs: &mut Vec<Writable>,
) -> Result<(), AllocError> {
    let names = match names_in(system, alloc, dir.as_place()) {
        Ok(names) => names,
        Err(StoreError::OutOfMemory) => return Err(AllocError),
        Err(_) => return Ok(()),
    };
    let parts = parts(alloc, names.as_slice())?;
    for name in &parts {
        visit(system, alloc, dir, *name, dirs)?;
    }
    Ok(())
}

/// Removes what uploads left in a home beside their paths as their process was killed, where its user may write. Uploads that run,
/// also those of other processes, are left alone.
pub fn remove_leftovers<S: FileSystem>(
    system: &S,
    alloc: Global,
    home: &Home,
) -> Result<(), AllocError> {
    let mut dirs = Vec::new(alloc);
    match home.writable(alloc, b"/") {
        Ok(top) => dirs.push(top)?,
        Err(StoreError::OutOfMemory) => return Err(AllocError),
        Err(_) => {}
    }
    for _ in 0..u64::MAX {
        let Some(dir) = dirs.pop() else {
            break;
        };
        visit_all(system, alloc, &dir, &mut dirs)?;
    }
    Ok(())
}
