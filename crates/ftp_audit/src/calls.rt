//! Calls of users, replayed on a storage with budgets.

ghost use Rattle.std.specs.Prelude.{◌≡◌, ℕ, List, Contains, length, IfSome, IfOk, OnOk, OnErr};
ghost use Rattle.ftp_base.specs.Kept.{CountsOn};
ghost use Rattle.ftp_base.specs.MemoryStorage.{memory_rule};
ghost use Rattle.ftp_base.specs.Outside.{HasRisen};
ghost use Rattle.ftp_audit.specs.Quota.{budget_or, IsTrueTo, AllWithin};
ghost use Rattle.ftp_audit.specs.Alone.{calls_of, verdicts_to, IsApart};
ghost use Rattle.ftp_audit.specs.Replay.{kept_at, verdicts as verdicts_of, Answered, NoFault, MadeFirst, verdict_of};

use crate::quota::Quota;
use ftp_base::{Bytes, ErrorKind, Storage, StoreError};
use std::alloc::{AllocError, Global};

/// A call by a user that changes a file.
#[derive(Drop)]
pub enum QuotaCall {
    Begin {
        user: Bytes,
        path: Bytes,
        start: u64,
    },
    Append {
        user: Bytes,
        path: Bytes,
        bytes: Bytes,
    },
}

/// What became of a call.
#[derive(Clone, Copy, Debug, PartialEq, Eq)]
pub enum Verdict {
    Done,
    Refused(ErrorKind),
    /// The storage failed.
    Failed,
}

/// Makes the calls in order, and says what became of each. Where memory runs out, the calls before that stand.
///
/// # Proved
///
/// - What became of each call is what its rule says of the book and the files as they then were; after an error the
///   first calls were made, and no others, if the storage tells its files, and no fault was counted (`each`,
///   `verdicts`, `made`, `stopped`).
/// - Where no file that a user calls for is called for by another one, what became of the user's calls is what becomes
///   of them alone, over the same book and files, if the same, and the storage refuses by the rule of one in memory
///   (`alone`).
pub fn replay<S: Storage + Drop>(
    alloc: Global,
    q: &mut Quota<S>,
    calls: &[QuotaCall],
) -> Result<Vec<Verdict>, AllocError>
    ensures each { IfOk result (λ found. length found.items ≡ length calls.now) }
    ensures verdicts { IfSome (S.files q.old.inner) (λ f. NoFault (S.faults q.old.inner) (S.faults q.new.inner) →
        IfOk result (λ found. found.items ≡ verdicts_of (S.rule q.old.inner) (kept_at q.old.accounts f) calls.now)) }
    ensures alone { (user : List ℕ) (max : ℕ) → IsApart user calls.now → S.rule q.old.inner ≡ memory_rule max →
        IfSome (S.files q.old.inner) (λ f. NoFault (S.faults q.old.inner) (S.faults q.new.inner) →
        IfOk result (λ found. verdicts_to user calls.now found.items ≡ verdicts_of (memory_rule max) (kept_at q.old.accounts f) (calls_of user calls.now))) }
    ensures made { IfSome (S.files q.old.inner) (λ f. NoFault (S.faults q.old.inner) (S.faults q.new.inner) →
        OnOk result (MadeFirst (S.rule q.old.inner) (kept_at q.old.accounts f) calls.now (S.files q.new.inner) q.new.accounts (S.rule q.new.inner) (length calls.now))) }
    ensures failed { IfOk result (λ found. Contains found.items Verdict.Failed → HasRisen (S.faults q.old.inner) (S.faults q.new.inner)) }
    ensures agreed { IsTrueTo (S.files q.old.inner) q.old.accounts → IsTrueTo (S.files q.new.inner) q.new.accounts }
    ensures within { AllWithin q.old.accounts → AllWithin q.new.accounts }
    ensures same_budgets { (user : List ℕ) → budget_or q.new.accounts user ≡ budget_or q.old.accounts user }
    ensures stopped { IfSome (S.files q.old.inner) (λ f. NoFault (S.faults q.old.inner) (S.faults q.new.inner) →
        OnErr result ((n : ℕ) × MadeFirst (S.rule q.old.inner) (kept_at q.old.accounts f) calls.now (S.files q.new.inner) q.new.accounts (S.rule q.new.inner) n)) }
    ensures counts { CountsOn S.faults S.fault_limit q.old.inner q.new.inner }
{
    let mut verdicts = Vec::with_capacity(alloc, calls.len())?;
    for call in calls {
        let verdict = make(q, call)?;
        verdicts.push_reserved(verdict);
    }
    Ok(verdicts)
}

// Makes a call, and says what became of it.
fn make<S: Storage + Drop>(q: &mut Quota<S>, call: &QuotaCall) -> Result<Verdict, AllocError>
    ensures answered { IfSome (S.files q.old.inner) (λ f. IfOk result
        (Answered (S.rule q.old.inner) (kept_at q.old.accounts f) call.now (S.files q.new.inner) q.new.accounts (S.rule q.new.inner))) }
    ensures failed { IfOk result (λ verdict. verdict ≡ Verdict.Failed → HasRisen (S.faults q.old.inner) (S.faults q.new.inner)) }
    ensures agreed { IsTrueTo (S.files q.old.inner) q.old.accounts → IsTrueTo (S.files q.new.inner) q.new.accounts }
    ensures within { AllWithin q.old.accounts → AllWithin q.new.accounts }
    ensures same_budgets { (user : List ℕ) → budget_or q.new.accounts user ≡ budget_or q.old.accounts user }
    ensures same_owners { OnErr result (q.new.accounts ≡ q.old.accounts) }
    ensures unchanged { OnErr result (S.files q.new.inner ≡ S.files q.old.inner) }
    ensures same_rule { OnErr result (S.rule q.new.inner ≡ S.rule q.old.inner) }
    ensures counts { CountsOn S.faults S.fault_limit q.old.inner q.new.inner }
{
    match call {
        QuotaCall::Begin { user, path, start } => told(q.begin(user, path, *start)),
        QuotaCall::Append { user, path, bytes } => told(q.append(user, path, bytes.as_slice())),
    }
}

// What an answer of the storage tells.
fn told(answer: Result<(), StoreError>) -> Result<Verdict, AllocError>
    ensures { result ≡ verdict_of answer }
{
    match answer {
        Ok(()) => Ok(Verdict::Done),
        Err(StoreError::Kind(kind)) => Ok(Verdict::Refused(kind)),
        Err(StoreError::Failed) => Ok(Verdict::Failed),
        Err(StoreError::OutOfMemory) => Err(AllocError),
    }
}
