//! Listings and files of one tree.

use crate::same::same;
use crate::values::{File, storage};
use ftp_base::{Bytes, FileBytes, MemoryStorage, Storage, StoreError};
use std::alloc::Global;

/// Three directories, and files in them, in the root and beside names that begin alike.
const DIRECTORIES: [&[u8]; 3] = [b"/d", b"/d/c", b"/d/c/e"];

/// Each file holds its path without the first byte.
const FILES: [File<'static>; 7] = [
    (b"/d/c0", b"d/c0"),
    (b"/d/c/e/f", b"d/c/e/f"),
    (b"/x", b"x"),
    (b"y", b""),
    (b"/d/c-x", b"d/c-x"),
    (b"//x", b"/x"),
    (b"/d/a", b"d/a"),
];

fn tree(alloc: Global) -> Result<MemoryStorage, StoreError> {
    storage(alloc, 9, &[], &DIRECTORIES, &FILES)
}

/// The names in a directory, a line each with the length behind it.
fn listing(alloc: Global, dir: &[u8]) -> Result<String, StoreError> {
    let user = Bytes::from_slice(alloc, b"user")?;
    let infos = tree(alloc)?.list(&user, &Bytes::from_slice(alloc, dir)?)?;
    let mut text = String::new(alloc);
    for info in infos.as_slice() {
        let name = String::from_utf8_lossy(alloc, info.name.as_slice())?;
        text.push_str(format!(in alloc; "{name} {}\n", info.meta.len)?.as_str())?;
    }
    Ok(text)
}

const LISTINGS: [(&[u8], &str); 2] = [
    (b"/d", "a 3\nc 0\nc-x 5\nc0 4\n"),
    (b"/", "d 0\nx 2\nx 1\ny 0\n"),
];

#[test]
fn a_listing_shows_the_children_in_their_order(rt: HostRuntime) {
    for (dir, lines) in &LISTINGS {
        let found = listing(rt.alloc(), dir).expect(&rt, "a listing");
        same(&rt, &found.as_str(), lines);
    }
}

/// The bytes that a storage lends of a file.
fn lent(storage: &MemoryStorage, alloc: Global, path: &[u8]) -> Result<FileBytes, StoreError> {
    let user = Bytes::from_slice(alloc, b"user")?;
    let path = Bytes::from_slice(alloc, path)?;
    storage.lend(&user, &path).ok_or(StoreError::Failed)
}

/// Writes two bytes behind `/x`.
fn append(storage: &mut MemoryStorage, alloc: Global) -> Result<(), StoreError> {
    let user = Bytes::from_slice(alloc, b"user")?;
    let path = Bytes::from_slice(alloc, b"/x")?;
    storage.append(&user, &path, b"yz")
}

/// Cuts `/x` off at its front.
fn cut(storage: &mut MemoryStorage, alloc: Global) -> Result<(), StoreError> {
    let user = Bytes::from_slice(alloc, b"user")?;
    let path = Bytes::from_slice(alloc, b"/x")?;
    storage.begin(&user, &path, 0)
}

#[test]
fn a_file_that_is_lent_stays_as_it_is(rt: HostRuntime) {
    let mut storage = tree(rt.alloc()).expect(&rt, "a tree");
    let before = lent(&storage, rt.alloc(), b"/x").expect(&rt, "a file");
    append(&mut storage, rt.alloc()).expect(&rt, "room");
    let behind = lent(&storage, rt.alloc(), b"/x").expect(&rt, "a file");
    cut(&mut storage, rt.alloc()).expect(&rt, "a cut");
    same(&rt, &before.as_slice(), &b"x".as_slice());
    same(&rt, &behind.as_slice(), &b"xyz".as_slice());
}

#[test]
fn a_directory_is_not_lent_nor_a_file_where_a_call_is_to_fail(rt: HostRuntime) {
    let tree = tree(rt.alloc()).expect(&rt, "a tree");
    for path in [b"/".as_slice(), b"/d", b"/none"] {
        same(&rt, &lent(&tree, rt.alloc(), path).is_ok(), &false);
    }
    let failing = storage(rt.alloc(), 9, &[5], &[], &FILES[2..3]).expect(&rt, "a storage");
    same(&rt, &lent(&failing, rt.alloc(), b"/x").is_ok(), &false);
}

/// The files of a tree, a line each of the path and the bytes.
fn files(alloc: Global) -> Result<Vec<u8>, StoreError> {
    let storage = tree(alloc)?;
    let mut text = Vec::new(alloc);
    for (path, bytes) in storage.files() {
        text.extend_from_slice(path)?;
        text.extend_from_slice(b" ")?;
        text.extend_from_slice(bytes)?;
        text.extend_from_slice(b"\n")?;
    }
    Ok(text)
}

#[test]
fn files_come_in_byte_order_of_their_paths(rt: HostRuntime) {
    let lines = b"//x /x\n/d/a d/a\n/d/c-x d/c-x\n/d/c/e/f d/c/e/f\n/d/c0 d/c0\n/x x\ny \n";
    let found = files(rt.alloc()).expect(&rt, "files");
    same(&rt, &found.as_slice(), &lines.as_slice());
}
