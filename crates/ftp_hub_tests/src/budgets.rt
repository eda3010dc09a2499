//! Callers of budgets.

ghost use Rattle.std.specs.Prelude.{◌≤◌, IfOk};
ghost use Rattle.ftp_audit.specs.Quota.{AllWithin};

use ftp_audit::{Quota, QuotaCall, replay};
use ftp_base::{Bytes, Storage};
use std::alloc::{AllocError, Global};

/// Files of which each user may store ten million bytes, and bob a hundred million.
pub fn within_budgets<S: Storage + Drop>(alloc: Global, files: S) -> Result<Quota<S>, AllocError>
    ensures within { IfOk result (λ quota. AllWithin quota.accounts) }
{
    let mut quota = Quota::new(alloc, files, 10_000_000);
    quota.budget(Bytes::from_slice(alloc, b"bob")?, 100_000_000)?;
    Ok(quota)
}

/// How many bytes a user's files have after the calls, where each user may have ten.
pub fn usage_after<S: Storage + Drop>(
    alloc: Global,
    storage: S,
    calls: &[QuotaCall],
    user: &Bytes,
) -> Result<u64, AllocError>
    ensures within { IfOk result (λ n. n ≤ 10) }
{
    let mut quota = Quota::new(alloc, storage, 10);
    replay(alloc, &mut quota, calls)?;
    Ok(quota.usage(user))
}
