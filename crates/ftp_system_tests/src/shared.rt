//! One storage for all transfers.

use crate::calls::{Row, compare};
use crate::same::same;
use ftp_base::{
    Bytes, ErrorKind, FEATURE_RESTART, MemoryStorage, Meta, Storage, StoreError, StoreResult,
};
use ftp_system::{Depot, SharedDepot, SharedStorage};
use std::alloc::Global;
use std::process::Abort;
use std::sync::Wait;

/// The answer to a look at a file of three bytes.
const FOUND: &str = "Ok(Meta { is_dir: false, len: 3 })";

/// A depot of one empty storage, whose calls of these numbers fail.
fn depot<R: Wait + Abort + Drop + Copy>(
    rt: R,
    alloc: Global,
    fails: &[u64],
) -> SharedDepot<R, MemoryStorage> {
    let fails = fails.to_vec(alloc).expect(&rt, "numbers");
    let storage = MemoryStorage::new(alloc, u64::MAX, fails);
    SharedDepot::new(rt, alloc, storage).expect(&rt, "a depot")
}

/// The storage of a transfer.
fn store<R: Wait + Abort + Drop + Copy>(
    rt: R,
    depot: &SharedDepot<R, MemoryStorage>,
) -> SharedStorage<R, MemoryStorage> {
    depot.store().expect(&rt, "a storage")
}

const LISTED: &str =
    "Ok([FileInfo { name: Bytes { items: [97] }, meta: Meta { is_dir: false, len: 3 }, looks: None }])";

const STORED_AND_FOUND: [Row; 5] = [
    (true, 3, "/a", 0, "Ok(())"),
    (true, 4, "/a", 7, "Ok(())"),
    (false, 0, "/a", 0, FOUND),
    (false, 2, "/a", 1, "(Ok(2), [6, 5, 0, 0])"),
    (false, 1, "/", 0, LISTED),
];

#[test]
fn what_one_transfer_stores_another_finds(rt: HostRuntime) {
    let depot = depot(rt, rt.alloc(), &[99]);
    let (mut one, mut two) = (store(rt, &depot), store(rt, &depot));
    compare(&rt, rt.alloc(), &mut one, &mut two, &STORED_AND_FOUND);
    same(&rt, &two.features(), &FEATURE_RESTART);
}

const CHANGED: [Row; 9] = [
    (true, 3, "/a", 0, "Ok(())"),
    (true, 4, "/a", 7, "Ok(())"),
    (false, 2, "/a", 0, "(Ok(3), [7, 6, 5, 0])"),
    (true, 3, "/a", 1, "Ok(())"),
    (true, 4, "/a", 9, "Ok(())"),
    (false, 2, "/a", 1, "(Ok(2), [6, 5, 0, 0])"),
    (false, 2, "/a", 3, "(Ok(0), [0, 0, 0, 0])"),
    (
        false,
        2,
        "/b",
        0,
        "(Err(Kind(PermanentFileNotAvailable)), [0, 0, 0, 0])",
    ),
    // Whoever writes reads what it wrote.
    (true, 2, "/a", 0, "(Ok(4), [7, 9, 8, 11])"),
];

const READ_BEHIND: [Row; 4] = [
    (true, 2, "/a", 1, "(Ok(3), [9, 8, 11, 0])"),
    (true, 4, "/a", 1, "Ok(())"),
    (true, 2, "/a", 4, "(Ok(3), [1, 0, 3, 0])"),
    (false, 2, "/a", 0, "(Ok(3), [7, 6, 5, 0])"),
];

#[test]
fn a_transfer_reads_a_file_as_it_was_at_its_first_read(rt: HostRuntime) {
    let alloc = rt.alloc();
    // A storage of which no call is to fail lends its files.
    let depot = depot(rt, alloc, &[]);
    let (mut one, mut two) = (store(rt, &depot), store(rt, &depot));
    compare(&rt, alloc, &mut one, &mut two, &CHANGED);
    // So does a transfer that begins later, and one whose own write was the last.
    let mut three = store(rt, &depot);
    compare(&rt, alloc, &mut three, &mut two, &READ_BEHIND);
}

/// What a storage answers to a look at `/a`.
fn look<S: Storage>(storage: &mut S, alloc: Global) -> StoreResult<Meta> {
    let ann = Bytes::from_slice(alloc, b"ann")?;
    storage.metadata(&ann, &Bytes::from_slice(alloc, b"/a")?)
}

#[test]
fn a_call_that_fails_or_is_refused_is_told(rt: HostRuntime) {
    let mut one = store(rt, &depot(rt, rt.alloc(), &[1]));
    let absent = StoreError::Kind(ErrorKind::PermanentFileNotAvailable);
    for error in [StoreError::Failed, absent] {
        same(&rt, &look(&mut one, rt.alloc()), &Err(error));
    }
}

const DURING: [Row; 5] = [
    (true, 3, "/a", 0, "Ok(())"),
    (true, 4, "/a", 7, "Ok(())"),
    (false, 3, "/a", 0, "Err(Kind(TransientFileNotAvailable))"),
    (false, 3, "/b", 0, "Ok(())"),
    (false, 0, "/a", 0, FOUND),
];

const BEHIND: [Row; 2] = [(false, 3, "/a", 0, "Ok(())"), (true, 3, "/b", 0, "Ok(())")];

#[test]
fn a_path_has_one_upload_at_a_time(rt: HostRuntime) {
    let depot = depot(rt, rt.alloc(), &[99]);
    let (mut one, mut two) = (store(rt, &depot), store(rt, &depot));
    // What is there can be read meanwhile, and nothing was cut.
    compare(&rt, rt.alloc(), &mut one, &mut two, &DURING);
    // An upload is over where its transfer is, or begins another.
    drop(one);
    let mut three = store(rt, &depot);
    compare(&rt, rt.alloc(), &mut three, &mut two, &BEHIND);
}
