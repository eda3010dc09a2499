//! Storages and sources in memory, as the tests have them in common.

ghost use Rattle.std.specs.Prelude.{◌≤◌};

use ftp_base::{Bytes, MemorySource, MemoryStorage, StoreError};
use std::alloc::{AllocError, Global};

/// A path, and what stands there.
pub type File<'a> = (&'a [u8], &'a [u8]);

/// A file with its bytes.
fn put(
    storage: &mut MemoryStorage,
    alloc: Global,
    path: &[u8],
    bytes: &[u8],
) -> Result<(), StoreError> {
    let path = Bytes::from_slice(alloc, path)?;
    let bytes = bytes.to_vec(alloc)?;
    storage.put_file(path, bytes)
}

/// A storage for files of so many bytes, some of whose calls fail, with directories and files in it.
pub fn storage(
    alloc: Global,
    most: u64,
    fails: &[u64],
    directories: &[&[u8]],
    files: &[File<'_>],
) -> Result<MemoryStorage, StoreError> {
    let mut storage = MemoryStorage::new(alloc, most, fails.to_vec(alloc)?);
    for path in directories {
        storage.mkdir_at(path)?;
    }
    for (path, bytes) in files {
        put(&mut storage, alloc, path, bytes)?;
    }
    Ok(storage)
}

/// A source that gives bytes, so many in a call, and some of whose calls fail.
pub fn source(
    alloc: Global,
    bytes: &[u8],
    chunk: u32,
    fails: &[u64],
) -> Result<MemorySource, AllocError>
    requires { 1 ≤ chunk }
{
    let fails = fails.to_vec(alloc)?;
    Ok(MemorySource::new(bytes.to_vec(alloc)?, chunk, fails))
}
