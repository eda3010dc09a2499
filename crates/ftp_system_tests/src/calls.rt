//! Calls of storages and archives, and their answers as texts.

use crate::same::{printed, same};
use ftp_base::{Bytes, FileInfo, Storage, StoreResult};
use ftp_extras::Archive;
use std::alloc::Global;
use std::process::Abort;

/// What is asked of a storage or of an archive, which may be asked for two paths.
///
/// Of a storage the kinds are 0 for a look, 1 for a listing, 2 for a read, 3 for a beginning, 6 for an end and others for bytes.
#[derive(Clone, Copy)]
pub struct Call {
    pub kind: u64,
    pub path: &'static str,
    pub other: &'static str,
    pub number: u8,
}

/// Which of two storages is called, the kind, path and number of the call, and the answer that is due.
pub type Row = (bool, u64, &'static str, u8, &'static str);

/// A call without a number, for one path.
pub fn call_of(kind: u64, path: &'static str) -> Call {
    Call {
        kind,
        path,
        other: "",
        number: 0,
    }
}

const PATHS: [&str; 8] = ["/", "/a", "/b", "/d", "/d/a", "/d/e", "/x/y", "/a/c"];

/// The next call of those that are drawn, of six kinds.
pub fn draw(state: &mut u64) -> Call {
    *state = state
        .wrapping_mul(6_364_136_223_846_793_005)
        .wrapping_add(1_442_695_040_888_963_407);
    let drawn = *state >> 33;
    Call {
        kind: drawn % 6,
        path: PATHS[(drawn / 8 % 8) as usize],
        other: PATHS[(drawn / 64 % 8) as usize],
        number: (drawn / 64 % 9) as u8,
    }
}

fn bytes(rt: &impl Abort, alloc: Global, text: &str) -> Bytes {
    Bytes::from_slice(alloc, text.as_bytes()).expect(rt, "bytes")
}

/// What is listed, without modes and dates.
fn listed<S: Storage>(storage: &mut S, user: &Bytes, path: &Bytes) -> StoreResult<Vec<FileInfo>> {
    let mut infos = storage.list(user, path)?;
    for info in infos.iter_mut() {
        info.looks = None;
    }
    Ok(infos)
}

/// What a storage answers, as a text without modes and dates.
pub fn answer<A: Abort, S: Storage>(
    rt: &A,
    storage: &mut S,
    alloc: Global,
    user: &str,
    call: Call,
) -> String {
    let user = bytes(rt, alloc, user);
    let path = bytes(rt, alloc, call.path);
    match call.kind {
        0 => printed(rt, alloc, &storage.metadata(&user, &path)),
        1 => printed(rt, alloc, &listed(storage, &user, &path)),
        2 => {
            let mut out = [0; 4];
            let n = storage.read_at(&user, &path, u64::from(call.number), &mut out);
            printed(rt, alloc, &(n, out))
        }
        3 => printed(
            rt,
            alloc,
            &storage.begin(&user, &path, u64::from(call.number)),
        ),
        6 => printed(rt, alloc, &storage.settle(&user, &path)),
        _ => {
            let bytes = [call.number, call.number ^ 1, call.number ^ 2];
            printed(rt, alloc, &storage.append(&user, &path, &bytes))
        }
    }
}

/// A file of three bytes is begun, and what was open is closed by a read of another file.
fn put<S: Archive>(
    archive: &mut S,
    ann: &Bytes,
    path: &Bytes,
    other: &Bytes,
) -> (StoreResult<()>, StoreResult<()>, StoreResult<usize>) {
    let begun = archive.begin(ann, path, 0);
    let grown = archive.append(ann, path, b"abc");
    let read = archive.read_at(ann, other, 0, &mut [0; 1]);
    (begun, grown, read)
}

/// What an archive answers ann, as a text without dates. A file that is begun has three bytes.
pub fn archive_answer<A: Abort, S: Archive>(
    rt: &A,
    archive: &mut S,
    alloc: Global,
    call: Call,
) -> String {
    let ann = bytes(rt, alloc, "ann");
    let path = bytes(rt, alloc, call.path);
    let other = bytes(rt, alloc, call.other);
    match call.kind {
        0 => {
            let found = archive.look(&ann, &path);
            printed(rt, alloc, &found.map(|found| found.meta))
        }
        1 => printed(rt, alloc, &archive.remove(&ann, &path)),
        2 => printed(rt, alloc, &archive.make_directory(&ann, &path)),
        3 => printed(rt, alloc, &archive.remove_directory(&ann, &path)),
        4 => printed(rt, alloc, &archive.rename(&ann, &path, &other)),
        _ => printed(rt, alloc, &put(archive, &ann, &path, &other)),
    }
}

/// Compares the answers of two storages with those that are due.
pub fn compare<A: Abort, S: Storage>(
    rt: &A,
    alloc: Global,
    first: &mut S,
    second: &mut S,
    rows: &[Row],
) {
    for (is_first, kind, path, number, due) in rows {
        let storage = if *is_first { &mut *first } else { &mut *second };
        let call = Call {
            number: *number,
            ..call_of(*kind, path)
        };
        let given = answer(rt, storage, alloc, "ann", call);
        same(rt, &(*kind, *path, given.as_str()), &(*kind, *path, *due));
    }
}
