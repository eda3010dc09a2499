//! The calls that a storage with budgets answers: readings are passed on, and what is stored is looked at first.

use super::Quota;
use crate::owned::{append_owned, begin_owned};
use ftp_base::{Bytes, FileInfo, Meta, Storage, StoreError};

impl<S: Storage + Drop> Storage for Quota<S> {
    ghost use Rattle.std.specs.Prelude.{◌≡◌, ◌+◌, ◌^◌, ◌<◌, ◌≤◌, true, [], length, None, IsSome, IfSome, IsSomeAnd, IfOk, OnOk, OnErr, IsErrOf};
    ghost use Rattle.ftp_base.specs.Calls.{AllWell, OneMore};
    ghost use Rattle.ftp_base.specs.Kept.{CountsOn, StorageKept};
    ghost use Rattle.ftp_base.specs.Memory.{StorageMet};
    ghost use Rattle.ftp_base.specs.Outside.{HasRisen};
    ghost use Rattle.ftp_base.specs.Storage.{Metadata, Listing, ReadAt, Begin, Append, Answers, Begins, Grows, WentThrough, once_begun, item, listing, meaning_of, meta_of, ReadsFile};
    ghost use Rattle.ftp_audit.specs.Quota.{own_refusal_of, refusal_of, after_call, quota_rule, IsTrueTo, AllWithin};

    ghost abilities = { λ q. S.abilities q.inner };

    ghost files = { λ q. S.files q.inner };

    ghost rule = { λ q. quota_rule q.accounts (S.rule q.inner) };

    ghost faults = { λ q. S.faults q.inner };

    ghost fault_limit = { λ q. S.fault_limit q.inner };

    ghost calls = { λ q. S.calls q.inner };

    ghost reads_take_memory = { S.reads_take_memory };

    ghost is_settled = { λ q. S.is_settled q.inner };

    fn features(&self) -> u32 {
        self.inner.features()
    }

    // # Proved
    //
    // - Readings are passed on, and leave owners and files, if the storage tells its files (`found`, `same_owners`,
    //   `unchanged`; also `Quota::list`: `listed`, `same_owners`, `unchanged`; `Quota::read_at`: `read`, `same_owners`,
    //   `unchanged`).
    fn metadata(&mut self, user: &Bytes, path: &Bytes) -> Result<Meta, StoreError>
        ensures found { IfOk result (λ meta. IfSome (S.files self.old.inner) (λ f. IsSomeAnd (item f path.now) (λ i. meta ≡ meta_of i))) }
        ensures refused { Answers (S.files self.old.inner) (meaning_of (quota_rule self.old.accounts (S.rule self.old.inner)) (S.files self.old.inner) (Metadata user.now path.now)) result }
        ensures fault_rose { IsErrOf result StoreError.Failed → HasRisen (S.faults self.old.inner) (S.faults self.new.inner) }
        ensures unlisted { (IsErrOf result StoreError.Failed → ⊥) → AllWell (λ call. call) (S.calls self.old.inner) (S.calls self.new.inner) }
        ensures as_listed { IsErrOf result StoreError.Failed → StorageMet (S.calls self.old.inner) (S.calls self.new.inner) }
        ensures made { OneMore (S.calls self.old.inner) (S.calls self.new.inner) }
        ensures same_owners { self.new.accounts ≡ self.old.accounts }
        ensures unchanged { S.files self.new.inner ≡ S.files self.old.inner }
        ensures same_rule { quota_rule self.new.accounts (S.rule self.new.inner) ≡ quota_rule self.old.accounts (S.rule self.old.inner) }
        ensures counts { CountsOn S.faults S.fault_limit self.old.inner self.new.inner }
    {
        self.inner.metadata(user, path)
    }

    fn list(&mut self, user: &Bytes, path: &Bytes) -> Result<Vec<FileInfo>, StoreError>
        ensures listed { IfOk result (λ found. IfSome (S.files self.old.inner) (λ f. found.items ≡ listing f path.now)) }
        ensures refused { Answers (S.files self.old.inner) (meaning_of (quota_rule self.old.accounts (S.rule self.old.inner)) (S.files self.old.inner) (Listing user.now path.now)) result }
        ensures fault_rose { IsErrOf result StoreError.Failed → HasRisen (S.faults self.old.inner) (S.faults self.new.inner) }
        ensures unlisted { (IsErrOf result StoreError.Failed → ⊥) → AllWell (λ call. call) (S.calls self.old.inner) (S.calls self.new.inner) }
        ensures as_listed { IsErrOf result StoreError.Failed → StorageMet (S.calls self.old.inner) (S.calls self.new.inner) }
        ensures made { OneMore (S.calls self.old.inner) (S.calls self.new.inner) }
        ensures same_owners { self.new.accounts ≡ self.old.accounts }
        ensures unchanged { S.files self.new.inner ≡ S.files self.old.inner }
        ensures same_rule { quota_rule self.new.accounts (S.rule self.new.inner) ≡ quota_rule self.old.accounts (S.rule self.old.inner) }
        ensures counts { CountsOn S.faults S.fault_limit self.old.inner self.new.inner }
    {
        self.inner.list(user, path)
    }

    fn read_at(
        &mut self,
        user: &Bytes,
        path: &Bytes,
        at: u64,
        out: &mut [u8],
    ) -> Result<usize, StoreError>
        ensures within { IfOk result (λ n. n ≤ length out.new) }
        ensures in_range { IfOk result (λ n. at + n < 2 ^ 64) }
        ensures read { IfOk result (λ n. IfSome (S.files self.old.inner) (λ f. ReadsFile f path.now at n out.new)) }
        ensures takes_memory { IsErrOf result StoreError.OutOfMemory → S.reads_take_memory ≡ true }
        ensures refused { Answers (S.files self.old.inner) (meaning_of (quota_rule self.old.accounts (S.rule self.old.inner)) (S.files self.old.inner) (ReadAt user.now path.now at)) result }
        ensures fault_rose { IsErrOf result StoreError.Failed → HasRisen (S.faults self.old.inner) (S.faults self.new.inner) }
        ensures unlisted { (IsErrOf result StoreError.Failed → ⊥) → AllWell (λ call. call) (S.calls self.old.inner) (S.calls self.new.inner) }
        ensures as_listed { IsErrOf result StoreError.Failed → StorageMet (S.calls self.old.inner) (S.calls self.new.inner) }
        ensures made { OneMore (S.calls self.old.inner) (S.calls self.new.inner) }
        ensures same_owners { self.new.accounts ≡ self.old.accounts }
        ensures unchanged { S.files self.new.inner ≡ S.files self.old.inner }
        ensures same_rule { quota_rule self.new.accounts (S.rule self.new.inner) ≡ quota_rule self.old.accounts (S.rule self.old.inner) }
        ensures counts { CountsOn S.faults S.fault_limit self.old.inner self.new.inner }
    {
        self.inner.read_at(user, path, at, out)
    }

    // # Proved
    //
    // - It is refused to begin a file that another user owns, and to append to one that the user does not own; then,
    //   where the user's files would come to more than the budget: what they were given, less what this one was, if it
    //   is owned, and the place where it begins, or what they were given and the bytes (`own_refusal` in
    //   `ftp_audit/specs/Book.antt`). These refusals come whether memory is left or not, whatever the storage would
    //   answer, and it is not asked (`own`, `not_asked`; also `Quota::append`: `own`, `not_asked`).
    // - Every other call is refused exactly as the storage's rule says, unless it fails or memory runs out, if the
    //   storage tells its files (`refused`; also `Quota::append`: `refused`; `Quota::metadata`: `refused`;
    //   `Quota::list`: `refused`; `Quota::read_at`: `refused`).
    // - A file that was begun belongs to the user, and is begun in the storage; one that grew grew there, and both are
    //   given what the call left (`owned`, `begun`; also `Quota::append`: `owned`, `grown`).
    // - After a refusal, a fault or want of memory nobody owns more or less, and the files are as before; after a
    //   refusal of its own the whole is as before (`same_owners`, `unchanged`, `not_asked`; also `Quota::append`:
    //   `same_owners`, `unchanged`, `not_asked`).
    // - Its rule goes by the owners of files and by the bytes that the files have, as they are, and then by the storage's
    //   rule (`quota_rule` in `ftp_audit/specs/Quota.antt`): by it each call is refused, if the storage tells its files,
    //   and what a begin that goes well makes of it is what it says itself; no other call changes it (`by_rule`,
    //   `new_rule`, `same_rule`; also `Quota::append`: `by_rule`, `same_rule`; `Quota::metadata`: `same_rule`;
    //   `Quota::list`: `same_rule`; `Quota::read_at`: `same_rule`).
    // - Its calls and faults are those of the storage; a call that it refuses by itself, or for which it finds no memory,
    //   is none of the storage (`made`, `fault_rose`, `counts`; also `Quota::append`: `made`, `fault_rose`, `counts`;
    //   `Quota::metadata`: `made`, `fault_rose`, `counts`; `replay`: `failed`, `counts`).
    fn begin(&mut self, user: &Bytes, path: &Bytes, start: u64) -> Result<(), StoreError>
        ensures own { IfSome (own_refusal_of self.old.accounts (Begin user.now path.now start)) (λ k. IsErrOf result (StoreError.Kind k)) }
        ensures not_asked { IsSome (own_refusal_of self.old.accounts (Begin user.now path.now start)) → self.new ≡ self.old }
        ensures refused { Answers (S.files self.old.inner) (refusal_of self.old.accounts (meaning_of (S.rule self.old.inner) (S.files self.old.inner)) (Begin user.now path.now start)) result }
        ensures by_rule { Answers (S.files self.old.inner) (meaning_of (quota_rule self.old.accounts (S.rule self.old.inner)) (S.files self.old.inner) (Begin user.now path.now start)) result }
        ensures begun { OnOk result (Begins (S.files self.old.inner) (S.files self.new.inner) path.now start) }
        ensures owned { OnOk result (self.new.accounts ≡ after_call self.old.accounts (Begin user.now path.now start)) }
        ensures agreed { IsTrueTo (S.files self.old.inner) self.old.accounts → IsTrueTo (S.files self.new.inner) self.new.accounts }
        ensures within { AllWithin self.old.accounts → AllWithin self.new.accounts }
        ensures fault_rose { IsErrOf result StoreError.Failed → HasRisen (S.faults self.old.inner) (S.faults self.new.inner) }
        ensures unlisted { (IsErrOf result StoreError.Failed → ⊥) → AllWell (λ call. call) (S.calls self.old.inner) (S.calls self.new.inner) }
        ensures as_listed { IsErrOf result StoreError.Failed → StorageMet (S.calls self.old.inner) (S.calls self.new.inner) }
        ensures made { WentThrough result → OneMore (S.calls self.old.inner) (S.calls self.new.inner) }
        ensures same_owners { OnErr result (self.new.accounts ≡ self.old.accounts) }
        ensures unchanged { OnErr result (S.files self.new.inner ≡ S.files self.old.inner) }
        ensures untold { S.files self.old.inner ≡ None → S.files self.new.inner ≡ None }
        ensures rule { OnOk result (S.rule self.new.inner ≡ once_begun (user.now, path.now) (S.rule self.old.inner)) }
        ensures new_rule { OnOk result (quota_rule self.new.accounts (S.rule self.new.inner) ≡ once_begun (user.now, path.now) (quota_rule self.old.accounts (S.rule self.old.inner))) }
        ensures same_rule { OnErr result (S.rule self.new.inner ≡ S.rule self.old.inner) }
        ensures counts { CountsOn S.faults S.fault_limit self.old.inner self.new.inner }
    {
        match &mut self.accounts {
            Some(accounts) => begin_owned(accounts, &mut self.inner, user, path, start),
            None => self.inner.begin(user, path, start),
        }
    }

    fn append(&mut self, user: &Bytes, path: &Bytes, bytes: &[u8]) -> Result<(), StoreError>
        ensures own { IfSome (own_refusal_of self.old.accounts (Append user.now path.now bytes.now)) (λ k. IsErrOf result (StoreError.Kind k)) }
        ensures not_asked { IsSome (own_refusal_of self.old.accounts (Append user.now path.now bytes.now)) → self.new ≡ self.old }
        ensures refused { Answers (S.files self.old.inner) (refusal_of self.old.accounts (meaning_of (S.rule self.old.inner) (S.files self.old.inner)) (Append user.now path.now bytes.now)) result }
        ensures by_rule { Answers (S.files self.old.inner) (meaning_of (quota_rule self.old.accounts (S.rule self.old.inner)) (S.files self.old.inner) (Append user.now path.now bytes.now)) result }
        ensures grown { OnOk result (Grows (S.files self.old.inner) (S.files self.new.inner) path.now bytes.now) }
        ensures owned { OnOk result (self.new.accounts ≡ after_call self.old.accounts (Append user.now path.now bytes.now)) }
        ensures agreed { IsTrueTo (S.files self.old.inner) self.old.accounts → IsTrueTo (S.files self.new.inner) self.new.accounts }
        ensures within { AllWithin self.old.accounts → AllWithin self.new.accounts }
        ensures fault_rose { IsErrOf result StoreError.Failed → HasRisen (S.faults self.old.inner) (S.faults self.new.inner) }
        ensures unlisted { (IsErrOf result StoreError.Failed → ⊥) → AllWell (λ call. call) (S.calls self.old.inner) (S.calls self.new.inner) }
        ensures as_listed { IsErrOf result StoreError.Failed → StorageMet (S.calls self.old.inner) (S.calls self.new.inner) }
        ensures made { WentThrough result → OneMore (S.calls self.old.inner) (S.calls self.new.inner) }
        ensures same_owners { OnErr result (self.new.accounts ≡ self.old.accounts) }
        ensures unchanged { OnErr result (S.files self.new.inner ≡ S.files self.old.inner) }
        ensures untold { S.files self.old.inner ≡ None → S.files self.new.inner ≡ None }
        ensures inner_rule { S.rule self.new.inner ≡ S.rule self.old.inner }
        ensures same_rule { quota_rule self.new.accounts (S.rule self.new.inner) ≡ quota_rule self.old.accounts (S.rule self.old.inner) }
        ensures counts { CountsOn S.faults S.fault_limit self.old.inner self.new.inner }
    {
        match &mut self.accounts {
            Some(accounts) => append_owned(accounts, &mut self.inner, user, path, bytes),
            None => self.inner.append(user, path, bytes),
        }
    }

    fn settle(&mut self, user: &Bytes, path: &Bytes) -> Result<(), StoreError>
        ensures settled { OnOk result (S.is_settled self.new.inner ≡ true) }
        ensures refused { Answers (S.files self.old.inner) None result }
        ensures fault_rose { IsErrOf result StoreError.Failed → HasRisen (S.faults self.old.inner) (S.faults self.new.inner) }
        ensures unlisted { (IsErrOf result StoreError.Failed → ⊥) → AllWell (λ call. call) (S.calls self.old.inner) (S.calls self.new.inner) }
        ensures as_listed { IsErrOf result StoreError.Failed → StorageMet (S.calls self.old.inner) (S.calls self.new.inner) }
        ensures same_owners { self.new.accounts ≡ self.old.accounts }
        ensures unchanged { S.files self.new.inner ≡ S.files self.old.inner }
        ensures same_rule { quota_rule self.new.accounts (S.rule self.new.inner) ≡ quota_rule self.old.accounts (S.rule self.old.inner) }
        ensures counts { CountsOn S.faults S.fault_limit self.old.inner self.new.inner }
    {
        self.inner.settle(user, path)
    }
}
