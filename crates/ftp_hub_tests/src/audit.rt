//! What a user moved, in stretches of a log, and who moved most.

use crate::same::same;
use crate::values::{ANN, log_of, pooled};
use ftp_audit::{Audit, Total, audited};
use ftp_base::Bytes;
use std::alloc::Global;
use std::process::Abort;

/// Abe logs in too, and Ann downloads, and uploads nothing.
const MOVES: &[&[u8]] = &[
    b"0 connect 2 10.0.0.1:4000 10.0.0.9:21 2",
    b"0 user 2 abe",
    b"0 pass 2",
    b"0 auth 2 good",
    b"0 pasv 1 0 - -",
    b"0 retr 1 a",
    b"0 data 11 10.0.0.1:4001 50000",
    b"0 end 1.1",
    b"0 pasv 1 0 - -",
    b"0 stor 1 b",
    b"0 data 12 10.0.0.1:4001 50000",
    b"0 end 1.2",
];

fn audit(rt: &impl Abort, alloc: Global) -> Audit {
    let log = log_of(rt, alloc, pooled(rt, alloc), &[ANN, MOVES]);
    audited(alloc, &log).ok().expect(rt, "an audit")
}

/// A stretch, and the logins, the files and bytes that were got, and the files that were put in it.
type Stretch = (u64, u64, u64, u64, u128, u64);

/// The login is entry 3, and the ends of the transfers are the entries 11 and 15.
const STRETCHES: [Stretch; 4] = [
    (0, 16, 1, 1, 5, 1),
    (8, 12, 0, 1, 5, 0),
    (12, 16, 0, 0, 0, 1),
    (8, 11, 0, 0, 0, 0),
];

/// Says whether Ann did so much in a stretch, and nothing else.
fn has_total(audit: &Audit, ann: &Bytes, row: &Stretch) -> bool {
    let (from, to, logins, got_files, got_bytes, put_files) = *row;
    let told = Total {
        got_files,
        got_bytes,
        put_files,
        logins,
        ..Total::new()
    };
    from <= to && audit.between(ann, from, to) == told
}

#[test]
fn a_stretch_has_what_its_entries_told(rt: HostRuntime) {
    let ann = Bytes::from_slice(rt.alloc(), b"ann").expect(&rt, "a name");
    let audit = audit(&rt, rt.alloc());
    for row in &STRETCHES {
        same(&rt, &(row.0, has_total(&audit, &ann, row)), &(row.0, true));
    }
}

#[test]
fn who_moved_most_comes_first(rt: HostRuntime) {
    let audit = audit(&rt, rt.alloc());
    let top = audit.top(1).expect(&rt, "a list");
    let [(name, _)] = top.as_slice() else {
        panic!(rt; "one user");
    };
    same(&rt, &name.as_slice(), &b"ann".as_slice());
}
