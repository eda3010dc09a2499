//! An archive over a real directory, what it removes, and its dates.

use crate::calls::{Call, archive_answer, call_of};
use crate::disk::{make_base, remove, storage, storage_within, write};
use crate::same::same;
use ftp_base::{Bytes, ErrorKind, StoreError};
use ftp_disk::Budget;
use ftp_extras::{Archive, is_moment};
use std::alloc::Global;
use std::process::Abort;

/// The kind of a call, its two paths, and the answer that is due.
type Row = (u64, &'static str, &'static str, &'static str);

const PUT: &str = "(Ok(()), Ok(()), Err(Kind(PermanentFileNotAvailable)))";

const FULL: &str =
    "(Ok(()), Err(Kind(ExceededStorageAllocationError)), Err(Kind(PermanentFileNotAvailable)))";

const GIVEN_BACK: [Row; 10] = [
    (5, "/a", "/x", PUT),
    (5, "/b", "/x", PUT),
    (5, "/c", "/x", FULL),
    (1, "/c", "", "Ok(())"),
    (1, "/a", "", "Ok(())"),
    (5, "/c", "/x", PUT),
    (4, "/c", "/b", "Ok(())"),
    (5, "/c", "/x", PUT),
    (4, "/c", "/c", "Ok(())"),
    (5, "/a", "/x", FULL),
];

/// Compares the answers of an archive with those that are due.
fn compare<A: Abort, S: Archive>(rt: &A, alloc: Global, archive: &mut S, rows: &[Row]) {
    for (kind, path, other, due) in rows {
        let call = Call {
            other,
            ..call_of(*kind, path)
        };
        let given = archive_answer(rt, archive, alloc, call);
        same(rt, &(*kind, *path, given.as_str()), &(*kind, *path, *due));
    }
}

#[test]
fn what_is_removed_or_replaced_gives_its_bytes_back(rt: HostRuntime) {
    let base = make_base(&rt, "freed").expect(&rt, "a base");
    let budget = Budget::new(rt.alloc(), 7, 0).expect(&rt, "a budget");
    let mut disk = storage_within(rt, rt.alloc(), base.as_str(), &budget);
    compare(&rt, rt.alloc(), &mut disk, &GIVEN_BACK);
    remove(&rt, base.as_str());
}

/// Gives the file `/a` a date.
fn set<A: Abort, S: Archive>(
    rt: &A,
    archive: &mut S,
    alloc: Global,
    date: &[u8],
) -> Result<(), StoreError> {
    assert!(rt; is_moment(date));
    let ann = Bytes::from_slice(alloc, b"ann")?;
    let path = Bytes::from_slice(alloc, b"/a")?;
    archive.set_modified(&ann, &path, &Bytes::from_slice(alloc, date)?)
}

/// The date that an archive tells of the file `/a`.
fn told<S: Archive>(archive: &mut S, alloc: Global) -> Result<Option<[u8; 14]>, StoreError> {
    let ann = Bytes::from_slice(alloc, b"ann")?;
    let path = Bytes::from_slice(alloc, b"/a")?;
    Ok(archive.look(&ann, &path)?.modified)
}

const NO_DATE: StoreError = StoreError::Kind(ErrorKind::CommandNotImplemented);

#[test]
fn a_date_that_is_set_is_told(rt: HostRuntime) {
    let base = make_base(&rt, "dated").expect(&rt, "a base");
    write(&rt, rt.alloc(), base.as_str(), "/home/a", b"1");
    let mut disk = storage(rt, rt.alloc(), base.as_str());
    same(
        &rt,
        &set(&rt, &mut disk, rt.alloc(), b"20240229235959"),
        &Ok(()),
    );
    same(
        &rt,
        &set(&rt, &mut disk, rt.alloc(), b"20230229000000"),
        &Err(NO_DATE),
    );
    same(
        &rt,
        &told(&mut disk, rt.alloc()),
        &Ok(Some(*b"20240229235959")),
    );
    remove(&rt, base.as_str());
}
