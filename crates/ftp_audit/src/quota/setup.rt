//! Setting up what a storage with budgets has, before anybody owns a file.

use super::Quota;
use crate::quota_book::QuotaBook;
use ftp_base::{Bytes, MemoryStorage, Storage, StoreError};
use std::alloc::Global;

impl<S: Storage + Drop> Quota<S> {
    ghost use Rattle.std.specs.Prelude.{◌≡◌, Some};
    ghost use Rattle.ftp_audit.specs.Book.{new_book};
    ghost use Rattle.ftp_audit.specs.Quota.{IsUnused};

    /// Gives each user a budget, as `Quota::new` does. Nobody has one of his own, and nobody owns a file.
    pub fn limit(&mut self, alloc: Global, default: u64)
        ensures { self.new ≡ record self.old { accounts = Some (new_book default) } }
    {
        self.accounts = Some(QuotaBook::new(alloc, default));
    }

    /// Puts another storage in place of the one inside.
    pub fn replace(&mut self, inner: S)
        requires unused { IsUnused self.old.accounts }
        ensures { self.new ≡ record self.old { inner = inner } }
    {
        self.inner = inner;
    }
}

impl Quota<MemoryStorage> {
    ghost use Rattle.std.specs.Prelude.{◌≡◌, ◌≢◌, ◌∷◌, None, length, IfErr, OnOk, OnErr, MatchResult};
    ghost use Rattle.std.specs.FinMap as map;
    ghost use Rattle.ftp_base.specs.Storage.{Directory, Refuses, with_file};
    ghost use Rattle.ftp_base.specs.MemoryStorage.{directory_refusal, file_refusal};
    ghost use Rattle.ftp_audit.specs.Quota.{IsUnused};

    /// Makes a directory.
    ///
    /// # Proved
    ///
    /// - Before anybody owns a file the storage in memory inside is set up as by itself, and budgets stay (`made`,
    ///   `refused`, `unchanged`; also `Quota::put_file`: `stored`, `refused`, `unchanged`; `Quota::replace`;
    ///   `Quota::limit`).
    pub fn mkdir(&mut self, path: Bytes) -> Result<(), StoreError>
        requires unused { IsUnused self.old.accounts }
        ensures made { OnOk result (self.new ≡ record self.old { inner = record self.old.inner { files = map.insert self.old.inner.files path Directory } }) }
        ensures refused { MatchResult result (λ _. directory_refusal self.old.inner.files path ≡ None) (Refuses (directory_refusal self.old.inner.files path)) }
        ensures no_fault { IfErr result (λ e. e ≢ StoreError.Failed) }
        ensures unchanged { OnErr result (self.new ≡ self.old) }
    {
        self.inner.mkdir(path)
    }

    /// Puts a file under a path, where there may be one. Nobody owns it.
    pub fn put_file(&mut self, path: Bytes, bytes: Vec<u8>) -> Result<(), StoreError>
        requires unused { IsUnused self.old.accounts }
        ensures stored { OnOk result (self.new ≡ record self.old { inner = record self.old.inner { files = with_file self.old.inner.files path bytes.items } }) }
        ensures refused { MatchResult result (λ _. file_refusal self.old.inner.files self.old.inner.max_file path (length bytes.items) ≡ None)
            (Refuses (file_refusal self.old.inner.files self.old.inner.max_file path (length bytes.items))) }
        ensures no_fault { IfErr result (λ e. e ≢ StoreError.Failed) }
        ensures unchanged { OnErr result (self.new ≡ self.old) }
    {
        self.inner.put_file(path, bytes)
    }
}
