//! The calls that a storage in memory answers.

ghost use Rattle.std.specs.Prelude.{◌≡◌};
ghost use Rattle.ftp_base.specs.MemoryStorage.{standing_item};
ghost use Rattle.ftp_base.specs.Storage.{meta_of};

use super::{MemoryStorage, Standing};
use crate::bytes::Bytes;
use crate::error_kind::ErrorKind;
use crate::file_bytes::FileBytes;
use crate::storage::{FEATURE_RESTART, FileInfo, Meta, Storage, StoreError, StoreResult};

impl Storage for MemoryStorage {
    ghost use Rattle.std.specs.Prelude.{◌≡◌, ℕ, ◌+◌, ◌^◌, ◌<◌, ◌≤◌, [], length, Some, None, IsSome, IfSome, IsSomeAnd, false, IsOk, IfOk, OnOk, OnErr, IsErrOf};
    ghost use Rattle.ftp_base.specs.Calls.{NoneFailed};
    ghost use Rattle.ftp_base.specs.Kept.{StorageKept};
    ghost use Rattle.ftp_base.specs.Memory.{StorageMet};
    ghost use Rattle.ftp_base.specs.MemoryStorage.{Counts, memory_meaning, storage_rule, storage_faults, storage_limit};
    ghost use Rattle.ftp_base.specs.Outside.{HasRisen};
    ghost use Rattle.ftp_base.specs.Storage.{Metadata, Listing, ReadAt, Begin, Append, Answers, once_begun, contents, item, meta_of, listing, with_file, old_bytes, cut, ReadsFile, Grows};

    ghost abilities = { λ _. 1 };

    ghost files = { λ s. Some s.files };

    ghost rule = { storage_rule };

    ghost faults = { storage_faults };

    ghost fault_limit = { storage_limit };

    ghost calls = { λ s. Some s.calls };

    ghost reads_take_memory = { false };

    fn features(&self) -> u32 {
        FEATURE_RESTART
    }

    fn metadata(&mut self, user: &Bytes, path: &Bytes) -> StoreResult<Meta>
        ensures found { IfOk result (λ meta. IsSomeAnd (item self.old.files path.now) (λ i. meta ≡ meta_of i)) }
        ensures refused { Answers (Some self.old.files) (memory_meaning self.old.files self.old.max_file (Metadata user.now path.now)) result }
        ensures fault_rose { IsErrOf result StoreError.Failed → HasRisen self.old.calls.faults self.new.calls.faults }
        ensures unchanged { self.new.files ≡ self.old.files }
        ensures storage_kept { StorageKept storage_rule storage_faults storage_limit self.old self.new }
        ensures counted { Counts self.old self.new result }
        ensures unlisted { (IsErrOf result StoreError.Failed → ⊥) → NoneFailed (λ call. call) self.old.calls self.new.calls }
        ensures as_listed { IsErrOf result StoreError.Failed → StorageMet (Some self.old.calls) (Some self.new.calls) }
    {
        self.count()?;
        match self.find(path.as_slice()) {
            Some(standing) => Ok(meta_at(standing)),
            None => Err(StoreError::Kind(ErrorKind::PermanentFileNotAvailable)),
        }
    }

    fn list(&mut self, user: &Bytes, path: &Bytes) -> StoreResult<Vec<FileInfo>>
        ensures listed { IfOk result (λ found. found.items ≡ listing self.old.files path.now) }
        ensures refused { Answers (Some self.old.files) (memory_meaning self.old.files self.old.max_file (Listing user.now path.now)) result }
        ensures fault_rose { IsErrOf result StoreError.Failed → HasRisen self.old.calls.faults self.new.calls.faults }
        ensures unchanged { self.new.files ≡ self.old.files }
        ensures storage_kept { StorageKept storage_rule storage_faults storage_limit self.old self.new }
        ensures counted { Counts self.old self.new result }
        ensures unlisted { (IsErrOf result StoreError.Failed → ⊥) → NoneFailed (λ call. call) self.old.calls self.new.calls }
        ensures as_listed { IsErrOf result StoreError.Failed → StorageMet (Some self.old.calls) (Some self.new.calls) }
    {
        self.count()?;
        let Some(Standing::Directory) = self.find(path.as_slice()) else {
            return Err(StoreError::Kind(ErrorKind::PermanentDirectoryNotAvailable));
        };
        Ok(self.children(path.as_slice())?)
    }

    fn read_at(&mut self, user: &Bytes, path: &Bytes, at: u64, out: &mut [u8]) -> StoreResult<usize>
        ensures within { IfOk result (λ n. n ≤ length out.new) }
        ensures in_range { IfOk result (λ n. at + n < 2 ^ 64) }
        ensures read { IfOk result (λ n. ReadsFile self.old.files path.now at n out.new) }
        ensures takes_memory { IsErrOf result StoreError.OutOfMemory → ⊥ }
        ensures refused { Answers (Some self.old.files) (memory_meaning self.old.files self.old.max_file (ReadAt user.now path.now at)) result }
        ensures fault_rose { IsErrOf result StoreError.Failed → HasRisen self.old.calls.faults self.new.calls.faults }
        ensures unchanged { self.new.files ≡ self.old.files }
        ensures storage_kept { StorageKept storage_rule storage_faults storage_limit self.old self.new }
        ensures counted { Counts self.old self.new result }
        ensures unlisted { (IsErrOf result StoreError.Failed → ⊥) → NoneFailed (λ call. call) self.old.calls self.new.calls }
        ensures as_listed { IsErrOf result StoreError.Failed → StorageMet (Some self.old.calls) (Some self.new.calls) }
    {
        self.count()?;
        match self.find(path.as_slice()) {
            Some(Standing::File(bytes)) => Ok(bytes.read_at(at, out)),
            _ => Err(StoreError::Kind(ErrorKind::PermanentFileNotAvailable)),
        }
    }

    // A storage of which calls are to fail lends nothing: each of its reads is counted.
    fn lend(&self, user: &Bytes, path: &Bytes) -> Option<FileBytes>
        ensures lent { IfSome result (λ bytes. contents self.now.files path.now ≡ Some bytes) }
        ensures unrefused { IsSome result → (at : ℕ) → memory_meaning self.now.files self.now.max_file (ReadAt user.now path.now at) ≡ None }
        ensures none_listed { IsSome result → self.now.calls.failing ≡ [] }
    {
        if self.calls.may_fail() {
            return None;
        }
        match self.find(path.as_slice()) {
            Some(Standing::File(bytes)) => bytes.share().ok(),
            _ => None,
        }
    }

    fn begin(&mut self, user: &Bytes, path: &Bytes, start: u64) -> StoreResult<()>
        ensures begun { OnOk result (self.new.files ≡ with_file self.old.files path.now (cut (old_bytes self.old.files path.now) start)) }
        ensures refused { Answers (Some self.old.files) (memory_meaning self.old.files self.old.max_file (Begin user.now path.now start)) result }
        ensures fault_rose { IsErrOf result StoreError.Failed → HasRisen self.old.calls.faults self.new.calls.faults }
        ensures unchanged { OnErr result (self.new.files ≡ self.old.files) }
        ensures storage_kept { StorageKept storage_rule storage_faults storage_limit self.old self.new }
        ensures owned { OnOk result (storage_rule self.new ≡ once_begun (user.now, path.now) (storage_rule self.old)) }
        ensures counted { Counts self.old self.new result }
        ensures unlisted { (IsErrOf result StoreError.Failed → ⊥) → NoneFailed (λ call. call) self.old.calls self.new.calls }
        ensures as_listed { IsErrOf result StoreError.Failed → StorageMet (Some self.old.calls) (Some self.new.calls) }
    {
        self.count()?;
        if let Some(kind) = self.file_refusal(path.as_slice(), start) {
            return Err(StoreError::Kind(kind));
        }
        self.cut(path.as_slice(), start)?;
        Ok(())
    }

    fn append(&mut self, user: &Bytes, path: &Bytes, bytes: &[u8]) -> StoreResult<()>
        ensures grown { OnOk result (Grows (Some self.old.files) (Some self.new.files) path.now bytes.now) }
        ensures refused { Answers (Some self.old.files) (memory_meaning self.old.files self.old.max_file (Append user.now path.now bytes.now)) result }
        ensures fault_rose { IsErrOf result StoreError.Failed → HasRisen self.old.calls.faults self.new.calls.faults }
        ensures unchanged { OnErr result (self.new.files ≡ self.old.files) }
        ensures storage_kept { StorageKept storage_rule storage_faults storage_limit self.old self.new }
        ensures counted { Counts self.old self.new result }
        ensures unlisted { (IsErrOf result StoreError.Failed → ⊥) → NoneFailed (λ call. call) self.old.calls self.new.calls }
        ensures as_listed { IsErrOf result StoreError.Failed → StorageMet (Some self.old.calls) (Some self.new.calls) }
    {
        self.count()?;
        if let Some(kind) = self.append_refusal(path.as_slice(), bytes.len()) {
            return Err(StoreError::Kind(kind));
        }
        self.grow(path.as_slice(), bytes)?;
        Ok(())
    }

    // Nothing is left to be done, and no call is counted.
    fn settle(&mut self, _user: &Bytes, _path: &Bytes) -> StoreResult<()>
        ensures done { IsOk result }
        ensures unchanged { self.new ≡ self.old }
    {
        Ok(())
    }
}
/// What is told of a file or a directory.
pub(super) fn meta_at(standing: Standing<'_>) -> Meta
    ensures { result ≡ meta_of (standing_item standing.entry) }
{
    match standing {
        Standing::Directory => Meta {
            is_dir: true,
            len: 0,
        },
        Standing::File(bytes) => Meta {
            is_dir: false,
            len: bytes.as_slice().len() as u64,
        },
    }
}
