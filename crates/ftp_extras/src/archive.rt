//! What is done with files beside transfers.

ghost use Rattle.std.specs.Prelude.{◌≡◌, ℕ, true, false, List, Option, IfOk, IfSome, IsSomeAnd, OnOk, OnErr, IsErrOf};
ghost use Rattle.ftp_base.specs.declared.error_kind.ErrorKind.{ErrorKind};
ghost use Rattle.ftp_base.specs.Outside.{HasRisen};
ghost use Rattle.ftp_base.specs.Storage.{Files, item, meta_of, Answers};
ghost use Rattle.ftp_extras.specs.declared.archive.Request.{Request};
ghost use Rattle.ftp_extras.specs.declared.archive.Request.TheVariants.{Look, Remove, MakeDirectory, RemoveDirectory, Rename, SetModified};
ghost use Rattle.ftp_extras.specs.Archive.{told_refusal, Changes, IsDated, ArchiveKept};
ghost use Rattle.ftp_extras.specs.Moment.{is_moment};

use ftp_base::{Bytes, ErrorKind, Meta, Storage, StoreError};

/// What stands at a path.
#[derive(Clone, Copy, Debug, PartialEq, Eq)]
pub struct Found {
    pub meta: Meta,
    /// When it was last changed, as `YYYYMMDDHHMMSS` in UTC (RFC 3659, section 2.3); None where the storage knows no dates.
    pub modified: Option<[u8; 14]>,
}

/// What is asked of an archive.
#[derive(Debug, Drop)]
pub enum Request {
    Look { path: Bytes },
    Remove { path: Bytes },
    MakeDirectory { path: Bytes },
    RemoveDirectory { path: Bytes },
    Rename { from: Bytes, to: Bytes },
    SetModified { path: Bytes, at: Bytes },
}

/// What an archive answers.
#[derive(Clone, Copy, Debug, PartialEq, Eq)]
pub enum Response {
    /// What stands at a path.
    Found(Found),
    /// What was asked for is done.
    Done,
    /// The archive refuses.
    Refused(ErrorKind),
    /// The call failed.
    Failed,
}

/// A storage whose files are looked at, removed and renamed, and whose directories are made and removed.
pub trait Archive: Storage {
    // Which requests of a user it refuses, and how, by what stands at each path; it binds where the storage tells that.
    ghost refusals: { Self → Files → List ℕ → Request → Option ErrorKind };

    /// What stands at a path.
    ///
    /// # Proved
    ///
    /// - What a look and each change mean, on files by path: what is found, removed, made, moved or dated, by which rule it
    ///   is refused, faults only where the count rose, and that nothing has changed after an error (`found`, `refused`,
    ///   `fault_rose`, `archive_kept`; also `Archive::remove`: `removed`, `refused`, `unchanged`;
    ///   `Archive::make_directory`: `made`, `refused`, `unchanged`; `Archive::remove_directory`: `removed`, `refused`,
    ///   `unchanged`; `Archive::rename`: `renamed`, `refused`, `unchanged`; `Archive::set_modified`: `dated`, `refused`,
    ///   `unchanged`).
    fn look(&mut self, user: &Bytes, path: &Bytes) -> Result<Found, StoreError>
        ensures found { IfOk result (λ found. IfSome (Self.files self.old) (λ f. IsSomeAnd (item f path.now) (λ i. found.meta ≡ meta_of i))) }
        ensures dated { IfOk result IsDated }
        ensures refused { Answers (Self.files self.old) (told_refusal (refusals self.old) (Self.files self.old) user.now (Look path.now)) result }
        ensures fault_rose { IsErrOf result StoreError.Failed → HasRisen (Self.faults self.old) (Self.faults self.new) }
        ensures unchanged { Self.files self.new ≡ Self.files self.old }
        ensures archive_kept { ArchiveKept refusals Self.faults self.old self.new };

    /// Removes a file.
    fn remove(&mut self, user: &Bytes, path: &Bytes) -> Result<(), StoreError>
        ensures removed { OnOk result (Changes (Remove path.now) (Self.files self.old) (Self.files self.new)) }
        ensures refused { Answers (Self.files self.old) (told_refusal (refusals self.old) (Self.files self.old) user.now (Remove path.now)) result }
        ensures fault_rose { IsErrOf result StoreError.Failed → HasRisen (Self.faults self.old) (Self.faults self.new) }
        ensures unchanged { OnErr result (Self.files self.new ≡ Self.files self.old) }
        ensures archive_kept { ArchiveKept refusals Self.faults self.old self.new };

    /// Makes a directory.
    fn make_directory(&mut self, user: &Bytes, path: &Bytes) -> Result<(), StoreError>
        ensures made { OnOk result (Changes (MakeDirectory path.now) (Self.files self.old) (Self.files self.new)) }
        ensures refused { Answers (Self.files self.old) (told_refusal (refusals self.old) (Self.files self.old) user.now (MakeDirectory path.now)) result }
        ensures fault_rose { IsErrOf result StoreError.Failed → HasRisen (Self.faults self.old) (Self.faults self.new) }
        ensures unchanged { OnErr result (Self.files self.new ≡ Self.files self.old) }
        ensures archive_kept { ArchiveKept refusals Self.faults self.old self.new };

    /// Removes a directory.
    fn remove_directory(&mut self, user: &Bytes, path: &Bytes) -> Result<(), StoreError>
        ensures removed { OnOk result (Changes (RemoveDirectory path.now) (Self.files self.old) (Self.files self.new)) }
        ensures refused { Answers (Self.files self.old) (told_refusal (refusals self.old) (Self.files self.old) user.now (RemoveDirectory path.now)) result }
        ensures fault_rose { IsErrOf result StoreError.Failed → HasRisen (Self.faults self.old) (Self.faults self.new) }
        ensures unchanged { OnErr result (Self.files self.new ≡ Self.files self.old) }
        ensures archive_kept { ArchiveKept refusals Self.faults self.old self.new };

    /// Moves what stands at a path, and all that lies below it, to another path, where it takes the place of a file.
    fn rename(&mut self, user: &Bytes, from: &Bytes, to: &Bytes) -> Result<(), StoreError>
        ensures renamed { OnOk result (Changes (Rename from.now to.now) (Self.files self.old) (Self.files self.new)) }
        ensures refused { Answers (Self.files self.old) (told_refusal (refusals self.old) (Self.files self.old) user.now (Rename from.now to.now)) result }
        ensures fault_rose { IsErrOf result StoreError.Failed → HasRisen (Self.faults self.old) (Self.faults self.new) }
        ensures unchanged { OnErr result (Self.files self.new ≡ Self.files self.old) }
        ensures archive_kept { ArchiveKept refusals Self.faults self.old self.new };

    /// Says when a file was last changed: a moment in UTC, in 14 digits (RFC 3659, section 2.3).
    fn set_modified(&mut self, user: &Bytes, path: &Bytes, at: &Bytes) -> Result<(), StoreError>
        requires moment { is_moment at.now ≡ true }
        ensures dated { OnOk result (Changes (SetModified path.now at.now) (Self.files self.old) (Self.files self.new)) }
        ensures refused { Answers (Self.files self.old) (told_refusal (refusals self.old) (Self.files self.old) user.now (SetModified path.now at.now)) result }
        ensures fault_rose { IsErrOf result StoreError.Failed → HasRisen (Self.faults self.old) (Self.faults self.new) }
        ensures unchanged { OnErr result (Self.files self.new ≡ Self.files self.old) }
        ensures archive_kept { ArchiveKept refusals Self.faults self.old self.new };
}
