//! Calls of users that are replayed.

use crate::budgets::usage_after;
use crate::same::same;
use ftp_audit::{Quota, QuotaCall, Verdict, replay};
use ftp_base::{Bytes, ErrorKind, MemoryStorage};
use std::alloc::{AllocError, Global};

fn begin(alloc: Global, user: &[u8], start: u64) -> Result<QuotaCall, AllocError> {
    Ok(QuotaCall::Begin {
        user: Bytes::from_slice(alloc, user)?,
        path: Bytes::from_slice(alloc, b"/a.txt")?,
        start,
    })
}

fn append(alloc: Global, user: &[u8], bytes: &[u8]) -> Result<QuotaCall, AllocError> {
    Ok(QuotaCall::Append {
        user: Bytes::from_slice(alloc, user)?,
        path: Bytes::from_slice(alloc, b"/a.txt")?,
        bytes: Bytes::from_slice(alloc, bytes)?,
    })
}

/// Two uploads of one user, of which the second is one byte too long, and one of another user.
fn uploads(alloc: Global) -> Result<Vec<QuotaCall>, AllocError> {
    let mut calls = Vec::new(alloc);
    calls.push(begin(alloc, b"ann", 0)?)?;
    calls.push(append(alloc, b"ann", b"Hello")?)?;
    calls.push(begin(alloc, b"ann", 5)?)?;
    calls.push(append(alloc, b"ann", b" World")?)?;
    calls.push(begin(alloc, b"bob", 2)?)?;
    Ok(calls)
}

/// What the calls come to, where Ann may store ten bytes.
fn verdicts(alloc: Global) -> Result<Vec<Verdict>, AllocError> {
    let calls = uploads(alloc)?;
    let mut quota = Quota::new(alloc, MemoryStorage::new(alloc, 64, Vec::new(alloc)), 64);
    quota.budget(Bytes::from_slice(alloc, b"ann")?, 10)?;
    replay(alloc, &mut quota, calls.as_slice())
}

const VERDICTS: [Verdict; 5] = [
    Verdict::Done,
    Verdict::Done,
    Verdict::Done,
    Verdict::Refused(ErrorKind::ExceededStorageAllocationError),
    Verdict::Refused(ErrorKind::PermissionDenied),
];

#[test]
fn each_call_has_its_verdict(rt: HostRuntime) {
    let verdicts = verdicts(rt.alloc()).expect(&rt, "verdicts");
    same(&rt, &verdicts.as_slice(), &VERDICTS.as_slice());
}

/// How many bytes a user's files have after the calls.
fn usage(alloc: Global, user: &[u8]) -> Result<u64, AllocError> {
    let calls = uploads(alloc)?;
    let storage = MemoryStorage::new(alloc, 64, Vec::new(alloc));
    let user = Bytes::from_slice(alloc, user)?;
    usage_after(alloc, storage, calls.as_slice(), &user)
}

#[test]
fn a_users_files_come_to_what_was_stored(rt: HostRuntime) {
    same(&rt, &usage(rt.alloc(), b"ann"), &Ok(5));
    same(&rt, &usage(rt.alloc(), b"bob"), &Ok(0));
}
