//! Failed logins, and who is locked out.

use crate::same::same;
use ftp_base::{Bytes, IpAddr, LockState};
use ftp_lockout::FailedLoginsCache;
use ftp_options::{FailedLoginsBlock, FailedLoginsPolicy};
use std::alloc::{AllocError, Global};
use std::process::Abort;

const HOME: IpAddr = IpAddr::V4(0x0a00_0001);

const AWAY: IpAddr = IpAddr::V4(0x0a00_0002);

const REACHED: Option<LockState> = Some(LockState::MaxFailuresReached);

const LOCKED: Option<LockState> = Some(LockState::AlreadyLocked);

/// What comes before the password was looked at, and how it was.
#[derive(Clone, Copy)]
enum Login {
    Fails,
    FailsInRoom,
    Succeeds,
    FailsBehindSweep(u64),
}

use Login::{Fails, FailsBehindSweep, FailsInRoom, Succeeds};

/// A login at a moment, from an address, under a name, and which lock it is told.
type Row = (u64, Login, IpAddr, &'static [u8], Option<LockState>);

fn told(
    alloc: Global,
    cache: &mut FailedLoginsCache,
    row: &Row,
) -> Result<Option<LockState>, AllocError> {
    let (at, login, ip, name, _) = *row;
    let name = Bytes::from_slice(alloc, name)?;
    match login {
        Succeeds => return Ok(cache.success(at, ip, &name)),
        FailsInRoom => cache.room()?,
        FailsBehindSweep(moment) => cache.sweep(moment),
        Fails => {}
    }
    cache.failed(at, ip, name)
}

/// The logins in their order are told these locks.
fn compare(rt: &impl Abort, alloc: Global, policy: FailedLoginsPolicy, rows: &[Row]) {
    let mut cache = FailedLoginsCache::new(alloc, policy);
    for row in rows {
        let lock = told(alloc, &mut cache, row);
        same(rt, &(row.0, lock), &(row.0, Ok(row.4)));
    }
}

const THREE_IN_TWO_MINUTES: [Row; 6] = [
    (0, FailsInRoom, HOME, b"ann", None),
    (1000, FailsInRoom, HOME, b"ann", None),
    (2000, FailsInRoom, HOME, b"ann", REACHED),
    (3000, Succeeds, HOME, b"ann", LOCKED),
    (122_000, Succeeds, HOME, b"ann", LOCKED),
    (123_000, Succeeds, HOME, b"ann", None),
];

#[test]
fn three_failures_lock_for_two_minutes(rt: HostRuntime) {
    let policy = FailedLoginsPolicy::default();
    compare(&rt, rt.alloc(), policy, &THREE_IN_TWO_MINUTES);
}

const ONE_LET_IN: [Row; 5] = [
    (0, Fails, HOME, b"ann", None),
    (1, Succeeds, AWAY, b"ann", None),
    (2, Fails, HOME, b"ann", None),
    (3, Fails, AWAY, b"ann", REACHED),
    (4, Fails, AWAY, b"ann", LOCKED),
];

#[test]
fn a_login_that_is_let_in_clears_its_key(rt: HostRuntime) {
    let policy = FailedLoginsPolicy::new(2, 1000, FailedLoginsBlock::User);
    compare(&rt, rt.alloc(), policy, &ONE_LET_IN);
}

const OF_TWO_NAMES: [Row; 4] = [
    (0, Fails, HOME, b"ann", REACHED),
    (1, Succeeds, HOME, b"bob", LOCKED),
    (1, Succeeds, AWAY, b"bob", None),
    (1, Succeeds, IpAddr::V6(0x0a00_0001), b"bob", None),
];

#[test]
fn an_address_is_locked_for_every_name(rt: HostRuntime) {
    let policy = FailedLoginsPolicy::new(1, 1000, FailedLoginsBlock::IP);
    compare(&rt, rt.alloc(), policy, &OF_TWO_NAMES);
}

const BEHIND_A_SWEEP: [Row; 4] = [
    (0, Fails, HOME, b"old", None),
    (500, Fails, HOME, b"new", None),
    (900, FailsBehindSweep(1500), HOME, b"old", None),
    (900, Fails, HOME, b"new", REACHED),
];

#[test]
fn a_sweep_removes_what_has_expired(rt: HostRuntime) {
    let policy = FailedLoginsPolicy::new(2, 1000, FailedLoginsBlock::UserAndIP);
    compare(&rt, rt.alloc(), policy, &BEHIND_A_SWEEP);
}
