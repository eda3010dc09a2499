//! A storage with budgets around another one.

mod setup;
mod storage;

use crate::quota_book::QuotaBook;
use ftp_base::{Bytes, Storage};
use std::alloc::{AllocError, Global};
use std::marker::Model;

/// A storage around another one in which each file belongs to the user who began it first, and no user's files come to
/// more bytes than the user's budget. A transparent one has no budgets, and nobody owns a file in it.
#[derive(Drop)]
pub struct Quota<S: Storage + Drop> {
    inner: S,
    accounts: Option<QuotaBook>,
}

impl<S: Storage + Drop> Model for Quota<S> {
    ghost use Rattle.ftp_audit.specs.Quota.{QuotaState, quota_code, IfTrueTo};

    ghost Value = { QuotaState S };

    ghost coded = { quota_code S.code };

    ghost view = { λ q. record { inner = q.inner; accounts = q.accounts } };

    ghost invariant = { λ q. IfTrueTo (S.files q.inner) q.accounts };
}

impl<S: Storage + Drop> Quota<S> {
    ghost use Rattle.std.specs.Prelude.{◌≡◌, ◌≤◌, Some, None, is_some, IfSome, OnOk, OnErr};
    ghost use Rattle.ftp_base.specs.Storage.{Files};
    ghost use Rattle.ftp_audit.specs.Book.{new_book};
    ghost use Rattle.ftp_audit.specs.Quota.{usage_of, given_of, budget_or, own_budget_of, with_budget, IsTrueTo, IsUnused, AllWithin};

    /// Around a storage, with a budget in bytes for each user who is given none of his own. What the storage has already
    /// is owned by nobody.
    ///
    /// # Proved
    ///
    /// - A new one has nobody's files and the given budget for each user; `budget` gives a user another one, and in a
    ///   transparent one changes nothing (`inner`, `book`; also `Quota::transparent`: `inner`, `book`; `Quota::budget`:
    ///   `set`, `inner`, `unchanged`).
    /// - After any calls each owned file has as many bytes as it was given, so `usage` is the sum of the lengths of the
    ///   user's files, if the storage told its files when the `Quota` was made (`agreed`; also `Quota::budget`:
    ///   `agreed`; `Quota::begin`: `agreed`; `Quota::append`: `agreed`; `replay`: `agreed`; `Quota::usage`: `usage`).
    /// - After any calls no user's usage is above the budget, where budgets were set before the first of them
    ///   (`unused`, `within`; also `Quota::budget`: `unused`, `within`; `Quota::begin`: `within`; `Quota::append`:
    ///   `within`; `replay`: `within`, `same_budgets`; `Quota::usage`: `within`).
    pub fn new(alloc: Global, inner: S, default: u64) -> Quota<S>
        ensures inner { result.inner ≡ inner }
        ensures book { result.accounts ≡ Some (new_book default) }
        ensures unused { IsUnused result.accounts }
        ensures within { AllWithin result.accounts }
        ensures agreed { (files : Files) → S.files inner ≡ Some files → IsTrueTo (S.files result.inner) result.accounts }
    {
        Quota {
            inner,
            accounts: Some(QuotaBook::new(alloc, default)),
        }
    }

    /// Around a storage, to which each call is passed on.
    pub fn transparent(inner: S) -> Quota<S>
        ensures inner { result.inner ≡ inner }
        ensures book { result.accounts ≡ None }
    {
        Quota {
            inner,
            accounts: None,
        }
    }

    /// Gives a user a budget of his own, in bytes. In a transparent storage it changes nothing.
    pub fn budget(&mut self, user: Bytes, n: u64) -> Result<(), AllocError>
        ensures set { OnOk result (self.new.accounts ≡ with_budget self.old.accounts user n) }
        ensures unused { IsUnused self.old.accounts → IsUnused self.new.accounts }
        ensures within { IsUnused self.old.accounts → AllWithin self.new.accounts }
        ensures agreed { IsTrueTo (S.files self.old.inner) self.old.accounts → IsTrueTo (S.files self.new.inner) self.new.accounts }
        ensures inner { self.new.inner ≡ self.old.inner }
        ensures unchanged { OnErr result (self.new ≡ self.old) }
    {
        match &mut self.accounts {
            Some(accounts) => accounts.set_budget(user, n),
            None => Ok(()),
        }
    }

    /// Whether there are budgets.
    pub fn has_budgets(&self) -> bool
        ensures { result ≡ is_some self.now.accounts }
    {
        self.accounts.is_some()
    }

    /// The budget that the user was given of his own.
    pub fn own_budget(&self, user: &Bytes) -> Option<u64>
        ensures { result ≡ own_budget_of self.now.accounts user.now }
    {
        match &self.accounts {
            Some(accounts) => accounts.own_budget(user),
            None => None,
        }
    }

    /// How many bytes the user's files have in all.
    pub fn usage(&self, user: &Bytes) -> u64
        ensures usage { IfSome (S.files self.now.inner) (λ files. IsTrueTo (S.files self.now.inner) self.now.accounts → result ≡ usage_of self.now.accounts files user.now) }
        ensures within { AllWithin self.now.accounts → IfSome (budget_or self.now.accounts user.now) (λ budget. result ≤ budget) }
        ensures given { result ≡ given_of self.now.accounts user.now }
    {
        match &self.accounts {
            Some(accounts) => accounts.used(user),
            None => 0,
        }
    }

    /// Lends the storage for reading.
    pub fn inner(&self) -> &S
        ensures { result.now ≡ self.now.inner }
    {
        &self.inner
    }
}
