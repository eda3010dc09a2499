//! Calls of a storage by users who have budgets and own files.

ghost use Rattle.std.specs.Prelude.{◌≡◌, None, IsSome, IsSomeAnd, IfSome, IsErrOf, OnOk, OnErr};
ghost use Rattle.ftp_base.specs.Calls.{AllWell, OneMore};
ghost use Rattle.ftp_base.specs.Kept.{CountsOn, StorageKept};
ghost use Rattle.ftp_base.specs.Memory.{StorageMet};
ghost use Rattle.ftp_base.specs.Outside.{HasRisen};
ghost use Rattle.ftp_base.specs.Storage.{Begin, Append, Answers, Begins, Grows, WentThrough, once_begun, meaning_of};
ghost use Rattle.ftp_audit.specs.Usage.{Agrees};
ghost use Rattle.ftp_audit.specs.Book.{IsWithin, own_refusal, refusal};
ghost use Rattle.ftp_audit.specs.Quota.{book_after};

use crate::quota_book::QuotaBook;
use ftp_base::{Bytes, Storage, StoreError};

/// Begins a file for a user, unless another one owns it or the user's files would come to too much.
pub(crate) fn begin_owned<S: Storage>(
    accounts: &mut QuotaBook,
    inner: &mut S,
    user: &Bytes,
    path: &Bytes,
    start: u64,
) -> Result<(), StoreError>
    ensures own { IfSome (own_refusal accounts.old (Begin user.now path.now start)) (λ k. IsErrOf result (StoreError.Kind k)) }
    ensures not_asked { IsSome (own_refusal accounts.old (Begin user.now path.now start)) → inner.new ≡ inner.old }
    ensures refused { Answers (S.files inner.old) (refusal accounts.old (meaning_of (S.rule inner.old) (S.files inner.old)) (Begin user.now path.now start)) result }
    ensures begun { OnOk result (Begins (S.files inner.old) (S.files inner.new) path.now start) }
    ensures owned { OnOk result (accounts.new ≡ book_after accounts.old (Begin user.now path.now start)) }
    ensures agreed { IsSomeAnd (S.files inner.old) (Agrees accounts.old.owners) → IsSomeAnd (S.files inner.new) (Agrees accounts.new.owners) }
    ensures within { IsWithin accounts.old → IsWithin accounts.new }
    ensures fault_rose { IsErrOf result StoreError.Failed → HasRisen (S.faults inner.old) (S.faults inner.new) }
    ensures same_owners { OnErr result (accounts.new ≡ accounts.old) }
    ensures unchanged { OnErr result (S.files inner.new ≡ S.files inner.old) }
    ensures rule { OnOk result (S.rule inner.new ≡ once_begun (user.now, path.now) (S.rule inner.old)) }
    ensures storage_kept { OnErr result (StorageKept S.rule S.faults S.fault_limit inner.old inner.new) }
    ensures counts { CountsOn S.faults S.fault_limit inner.old inner.new }
    ensures untold { S.files inner.old ≡ None → S.files inner.new ≡ None }
    ensures unlisted { (IsErrOf result StoreError.Failed → ⊥) → AllWell (λ call. call) (S.calls inner.old) (S.calls inner.new) }
    ensures as_listed { IsErrOf result StoreError.Failed → StorageMet (S.calls inner.old) (S.calls inner.new) }
    ensures made { WentThrough result → OneMore (S.calls inner.old) (S.calls inner.new) }
{
    if let Err(kind) = accounts.may_begin(user, path, start) {
        return Err(StoreError::Kind(kind));
    }
    let is_new = accounts.take(user, path)?;
    match inner.begin(user, path, start) {
        Ok(()) => {
            accounts.put(user, path, start);
            Ok(())
        }
        Err(error) => {
            if is_new {
                accounts.give_up(path);
            }
            Err(error)
        }
    }
}

/// Puts bytes at the end of a user's file, unless the user does not own it or the user's files would come to too much.
pub(crate) fn append_owned<S: Storage>(
    accounts: &mut QuotaBook,
    inner: &mut S,
    user: &Bytes,
    path: &Bytes,
    bytes: &[u8],
) -> Result<(), StoreError>
    ensures own { IfSome (own_refusal accounts.old (Append user.now path.now bytes.now)) (λ k. IsErrOf result (StoreError.Kind k)) }
    ensures not_asked { IsSome (own_refusal accounts.old (Append user.now path.now bytes.now)) → inner.new ≡ inner.old }
    ensures refused { Answers (S.files inner.old) (refusal accounts.old (meaning_of (S.rule inner.old) (S.files inner.old)) (Append user.now path.now bytes.now)) result }
    ensures grown { OnOk result (Grows (S.files inner.old) (S.files inner.new) path.now bytes.now) }
    ensures owned { OnOk result (accounts.new ≡ book_after accounts.old (Append user.now path.now bytes.now)) }
    ensures agreed { IsSomeAnd (S.files inner.old) (Agrees accounts.old.owners) → IsSomeAnd (S.files inner.new) (Agrees accounts.new.owners) }
    ensures within { IsWithin accounts.old → IsWithin accounts.new }
    ensures fault_rose { IsErrOf result StoreError.Failed → HasRisen (S.faults inner.old) (S.faults inner.new) }
    ensures same_owners { OnErr result (accounts.new ≡ accounts.old) }
    ensures unchanged { OnErr result (S.files inner.new ≡ S.files inner.old) }
    ensures storage_kept { StorageKept S.rule S.faults S.fault_limit inner.old inner.new }
    ensures untold { S.files inner.old ≡ None → S.files inner.new ≡ None }
    ensures unlisted { (IsErrOf result StoreError.Failed → ⊥) → AllWell (λ call. call) (S.calls inner.old) (S.calls inner.new) }
    ensures as_listed { IsErrOf result StoreError.Failed → StorageMet (S.calls inner.old) (S.calls inner.new) }
    ensures made { WentThrough result → OneMore (S.calls inner.old) (S.calls inner.new) }
{
    let len = match accounts.may_append(user, path, bytes.len()) {
        Ok(len) => len,
        Err(kind) => return Err(StoreError::Kind(kind)),
    };
    inner.append(user, path, bytes)?;
    accounts.put(user, path, len);
    Ok(())
}
