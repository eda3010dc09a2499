//! What keeps the files that transfers read and write.
//!
//! A storage is a map from paths to the bytes of a file or a directory. Its rule says, by what stands there, which calls
//! it refuses; no call changes the rule but a begin that goes well, and the rule says how. A call that fails, finds no memory
//! or is refused leaves the storage as it was.

ghost use Rattle.std.specs.Prelude.{◌≡◌, ℕ, ◌+◌, ◌-◌, ◌^◌, ◌<◌, ◌≤◌, Bool, true, [], length, Option, None, Some, IsSome, IfSome, IsSomeAnd, IfOk, OnOk, OnErr, IsErrOf};
ghost use Rattle.ftp_base.specs.declared.storage.StoreError.TheVariants.{OutOfMemory};
ghost use Rattle.ftp_base.specs.Calls.{Calls, AllWell, OneMore};
ghost use Rattle.ftp_base.specs.Kept.{CountsOn, StorageKept};
ghost use Rattle.ftp_base.specs.Memory.{StorageMet};
ghost use Rattle.ftp_base.specs.Outside.{HasRisen};
ghost use Rattle.ftp_base.specs.Storage.{Files, Rule, contents, meaning_of, Metadata, Listing, ReadAt, Begin, Append, Answers, WentThrough, once_begun, item, meta_of, listing, ReadsFile, Begins, Grows};

use crate::bytes::Bytes;
use crate::error_kind::ErrorKind;
use crate::file_bytes::FileBytes;
use std::alloc::AllocError;

/// Transfers can begin at a restart offset.
pub const FEATURE_RESTART: u32 = 1;

/// What is told of a file or a directory.
#[derive(Clone, Copy, Debug, PartialEq, Eq)]
pub struct Meta {
    pub is_dir: bool,
    /// The file's length in bytes; 0 for a directory.
    pub len: u64,
}

/// The mode and the date of a child of a directory, in plain ASCII.
#[derive(Clone, Copy, Debug, PartialEq, Eq)]
pub struct Looks {
    /// Who may do what, as `rwxr-xr--`.
    pub mode: [u8; 9],
    /// When it was last changed, as LIST shows that: `Nov 28 13:57` or `Nov 28  2020`.
    pub shown: [u8; 12],
    /// When it was last changed, as `YYYYMMDDHHMMSS` in UTC (RFC 3659, section 2.3).
    pub modify: [u8; 14],
}

/// What a listing shows of a child of a directory.
#[derive(Debug, PartialEq, Eq, Drop)]
pub struct FileInfo {
    pub name: Bytes,
    pub meta: Meta,
    /// None where the storage knows neither modes nor dates.
    pub looks: Option<Looks>,
}

/// Why a storage did not do what it was asked for.
#[derive(Clone, Copy, Debug, PartialEq, Eq)]
pub enum StoreError {
    /// The storage refuses the call.
    Kind(ErrorKind),
    /// The call failed.
    Failed,
    OutOfMemory,
}

/// An answer of a storage.
pub type StoreResult<T> = Result<T, StoreError>;

impl From<AllocError> for StoreError {
    ghost from_gives = { λ _ e. e ≡ OutOfMemory };

    fn from(_: AllocError) -> StoreError {
        StoreError::OutOfMemory
    }
}

/// An answer as it is, with a fault more where its call failed. At its last value the count stands still.
pub fn count_failed<T>(answer: StoreResult<T>, faults: &mut u64) -> StoreResult<T>
    ensures same { result ≡ answer }
    ensures fault_rose { IsErrOf answer StoreError.Failed → HasRisen faults.old faults.new }
    ensures count { faults.old ≤ faults.new }
{
    if let Err(StoreError::Failed) = &answer {
        *faults = faults.saturating_add(1);
    }
    answer
}

/// Keeps the files that transfers read and write.
pub trait Storage {
    // What the storage can do, a set of bits.
    ghost abilities: { Self → ℕ };

    // What stands at each path, where the storage tells it.
    ghost files: { Self → Option Files };

    // Which calls the storage refuses, and how, by what stands at each path; it binds where the storage tells that.
    ghost rule: { Self → Rule };

    // How many calls failed.
    ghost faults: { Self → ℕ };

    // The most faults that will ever be counted.
    ghost fault_limit: { Self → ℕ } = { λ _. 2 ^ 64 - 1 };

    // The calls, and which of them fail, where the storage tells that.
    ghost calls: { Self → Option (Calls ℕ) } = { λ _. None };

    // Whether reading a file may fail for want of memory.
    ghost reads_take_memory: { Bool };

    // Whether the last upload that came whole stands under its path.
    ghost is_settled: { Self → Bool } = { λ _. true };

    /// What the storage can do: the sum of the `FEATURE_` constants.
    fn features(&self) -> u32
        ensures { result ≡ abilities self.now };

    /// What stands at a path.
    ///
    /// # Proved
    ///
    /// - What a call of a storage means: files by path; it refuses by a rule of the files as they are, which no other
    ///   call than `Storage::begin` changes; faults only where the count rose; what stays (`found`, `refused`, `storage_kept`; also
    ///   `Storage::list`: `listed`, `refused`, `storage_kept`; `Storage::read_at`: `read`, `refused`, `storage_kept`;
    ///   `Storage::begin`: `begun`, `refused`, `fault_rose`, `unchanged`, `storage_kept`; `Storage::append`: `grown`,
    ///   `refused`, `fault_rose`, `unchanged`, `storage_kept`).
    fn metadata(&mut self, user: &Bytes, path: &Bytes) -> StoreResult<Meta>
        ensures found { IfOk result (λ meta. IfSome (files self.old) (λ f. IsSomeAnd (item f path.now) (λ i. meta ≡ meta_of i))) }
        ensures refused { Answers (files self.old) (meaning_of (rule self.old) (files self.old) (Metadata user.now path.now)) result }
        ensures fault_rose { IsErrOf result StoreError.Failed → HasRisen (faults self.old) (faults self.new) }
        ensures unlisted { (IsErrOf result StoreError.Failed → ⊥) → AllWell (λ call. call) (calls self.old) (calls self.new) }
        ensures as_listed { IsErrOf result StoreError.Failed → StorageMet (calls self.old) (calls self.new) }
        ensures made { OneMore (calls self.old) (calls self.new) }
        ensures unchanged { files self.new ≡ files self.old }
        ensures storage_kept { StorageKept rule faults fault_limit self.old self.new };

    /// The direct children of a directory in byte order of their names, equal names in byte order of their paths.
    fn list(&mut self, user: &Bytes, path: &Bytes) -> StoreResult<Vec<FileInfo>>
        ensures listed { IfOk result (λ found. IfSome (files self.old) (λ f. found.items ≡ listing f path.now)) }
        ensures refused { Answers (files self.old) (meaning_of (rule self.old) (files self.old) (Listing user.now path.now)) result }
        ensures fault_rose { IsErrOf result StoreError.Failed → HasRisen (faults self.old) (faults self.new) }
        ensures unlisted { (IsErrOf result StoreError.Failed → ⊥) → AllWell (λ call. call) (calls self.old) (calls self.new) }
        ensures as_listed { IsErrOf result StoreError.Failed → StorageMet (calls self.old) (calls self.new) }
        ensures made { OneMore (calls self.old) (calls self.new) }
        ensures unchanged { files self.new ≡ files self.old }
        ensures storage_kept { StorageKept rule faults fault_limit self.old self.new };

    /// Reads to the front of `out` from a place in a file, and says how many bytes: none exactly at or past the end,
    /// where `out` has room.
    fn read_at(&mut self, user: &Bytes, path: &Bytes, at: u64, out: &mut [u8]) -> StoreResult<usize>
        ensures within { IfOk result (λ n. n ≤ length out.new) }
        ensures in_range { IfOk result (λ n. at + n < 2 ^ 64) }
        ensures read { IfOk result (λ n. IfSome (files self.old) (λ f. ReadsFile f path.now at n out.new)) }
        ensures refused { Answers (files self.old) (meaning_of (rule self.old) (files self.old) (ReadAt user.now path.now at)) result }
        ensures fault_rose { IsErrOf result StoreError.Failed → HasRisen (faults self.old) (faults self.new) }
        ensures unlisted { (IsErrOf result StoreError.Failed → ⊥) → AllWell (λ call. call) (calls self.old) (calls self.new) }
        ensures as_listed { IsErrOf result StoreError.Failed → StorageMet (calls self.old) (calls self.new) }
        ensures made { OneMore (calls self.old) (calls self.new) }
        ensures takes_memory { IsErrOf result StoreError.OutOfMemory → reads_take_memory ≡ true }
        ensures unchanged { files self.new ≡ files self.old }
        ensures storage_kept { StorageKept rule faults fault_limit self.old self.new };

    /// Lends a file as it is now, to be read without further calls. None where the storage does not lend it.
    ///
    /// # Proved
    ///
    /// - What is lent are the bytes of the file at the path, of which no read is refused, and of a storage of which no call is to
    ///   fail, where it tells that (`lent`, `unrefused`, `none_listed`).
    fn lend(&self, user: &Bytes, path: &Bytes) -> Option<FileBytes>
        ensures lent { IfSome result (λ bytes. IfSome (files self.now) (λ f. contents f path.now ≡ Some bytes)) }
        ensures unrefused { IsSome result → (at : ℕ) → meaning_of (rule self.now) (files self.now) (ReadAt user.now path.now at) ≡ None }
        ensures none_listed { IsSome result → IfSome (calls self.now) (λ c. c.failing ≡ []) }
    {
        let _ = user;
        let _ = path;
        None
    }

    /// Cuts a file at a place, or fills it with zeros up to there; an absent file counts as empty.
    ///
    /// # Proved
    ///
    /// - A file that is begun changes the rule as the rule says, by who began it and its path; a begin that is refused or fails
    ///   leaves the rule; a storage that does not tell its files does not do so afterwards (`owned`, `storage_kept`, `counts`,
    ///   `untold`; also `Storage::append`: `untold`).
    fn begin(&mut self, user: &Bytes, path: &Bytes, start: u64) -> StoreResult<()>
        ensures begun { OnOk result (Begins (files self.old) (files self.new) path.now start) }
        ensures refused { Answers (files self.old) (meaning_of (rule self.old) (files self.old) (Begin user.now path.now start)) result }
        ensures fault_rose { IsErrOf result StoreError.Failed → HasRisen (faults self.old) (faults self.new) }
        ensures unlisted { (IsErrOf result StoreError.Failed → ⊥) → AllWell (λ call. call) (calls self.old) (calls self.new) }
        ensures as_listed { IsErrOf result StoreError.Failed → StorageMet (calls self.old) (calls self.new) }
        ensures made { WentThrough result → OneMore (calls self.old) (calls self.new) }
        ensures unchanged { OnErr result (files self.new ≡ files self.old) }
        ensures untold { files self.old ≡ None → files self.new ≡ None }
        ensures storage_kept { OnErr result (StorageKept rule faults fault_limit self.old self.new) }
        ensures owned { OnOk result (rule self.new ≡ once_begun (user.now, path.now) (rule self.old)) }
        ensures counts { CountsOn faults fault_limit self.old self.new };

    /// Puts bytes at the end of a file.
    ///
    /// # Proved
    ///
    /// - Where they tell their calls: each call counts one, unless it answers want of memory, or a begin or an append is
    ///   refused; it went well only where it is not listed, and a call that failed is one that is listed, of a link with a fault that is listed for it
    ///   (`made`, `unlisted`, `as_listed`; also `Sink::write`, `Link::write`, `Link::close`, `Storage::metadata`,
    ///   `Storage::list`, `Storage::read_at`, `Storage::begin`, `Storage::append`).
    fn append(&mut self, user: &Bytes, path: &Bytes, bytes: &[u8]) -> StoreResult<()>
        ensures grown { OnOk result (Grows (files self.old) (files self.new) path.now bytes.now) }
        ensures refused { Answers (files self.old) (meaning_of (rule self.old) (files self.old) (Append user.now path.now bytes.now)) result }
        ensures fault_rose { IsErrOf result StoreError.Failed → HasRisen (faults self.old) (faults self.new) }
        ensures unlisted { (IsErrOf result StoreError.Failed → ⊥) → AllWell (λ call. call) (calls self.old) (calls self.new) }
        ensures as_listed { IsErrOf result StoreError.Failed → StorageMet (calls self.old) (calls self.new) }
        ensures made { WentThrough result → OneMore (calls self.old) (calls self.new) }
        ensures unchanged { OnErr result (files self.new ≡ files self.old) }
        ensures untold { files self.old ≡ None → files self.new ≡ None }
        ensures storage_kept { StorageKept rule faults fault_limit self.old self.new };

    /// Is told that all bytes of an upload have come, before its link is closed. An error is how the upload ends.
    ///
    /// # Proved
    ///
    /// - An upload that came whole is settled, or the call fails, finds no memory, or is refused, which a storage that tells its
    ///   files does not do; files and rule stay (`settled`, `refused`, `fault_rose`, `unlisted`, `as_listed`, `unchanged`,
    ///   `storage_kept`).
    fn settle(&mut self, user: &Bytes, path: &Bytes) -> StoreResult<()>
        ensures settled { OnOk result (is_settled self.new ≡ true) }
        ensures refused { Answers (files self.old) None result }
        ensures fault_rose { IsErrOf result StoreError.Failed → HasRisen (faults self.old) (faults self.new) }
        ensures unlisted { (IsErrOf result StoreError.Failed → ⊥) → AllWell (λ call. call) (calls self.old) (calls self.new) }
        ensures as_listed { IsErrOf result StoreError.Failed → StorageMet (calls self.old) (calls self.new) }
        ensures unchanged { files self.new ≡ files self.old }
        ensures storage_kept { StorageKept rule faults fault_limit self.old self.new };
}
