//! The budgets of users, who owns which file, and how many bytes each user's files have.

ghost use Rattle.std.specs.Prelude.{◌≡◌, ℕ, ◌+◌, ◌-◌, ◌^◌, ◌<◌, ◌≤◌, List, length, Some, None, IsSome, IsSomeAnd, IfOk, IfSome, OnOk, OnErr, MatchResult};
ghost use Rattle.std.specs.FinMap as map;
ghost use Rattle.ftp_base.specs.declared.error_kind.ErrorKind.TheVariants as kind;
ghost use Rattle.std.specs.Map.{keys_of};
ghost use Rattle.std.specs.List.Sorted.{IsStrictlySortedBy};
ghost use Rattle.ftp_audit.specs.Names.{by_name, path_cmp, OpensCount};

use ftp_base::{Bytes, ErrorKind};
use std::alloc::{AllocError, Global};
use std::collections::BTreeMap;
use std::marker::Model;

/// The owner of a file, and the file's length in bytes.
#[derive(Drop)]
pub struct Held {
    pub owner: Bytes,
    pub len: u64,
}

/// The budgets of users, the owners of files by path, and a running count of bytes for each user who ever owned one.
#[derive(Drop)]
pub struct QuotaBook {
    default: u64,
    budgets: BTreeMap<Vec<u8>, u64>,
    owners: BTreeMap<Vec<u8>, Held>,
    used: BTreeMap<Vec<u8>, u64>,
    alloc: Global,
}

impl Model for QuotaBook {
    ghost use Rattle.ftp_audit.specs.Names.{by_name};
    ghost use Rattle.ftp_audit.specs.Book.{Book, book_code, Keeps};

    ghost Value = { Book };

    ghost coded = { book_code };

    ghost view = { λ a. record { default = a.default; budgets = by_name a.budgets.entries; owners = by_name a.owners.entries } };

    ghost invariant = { λ a. Keeps a.owners.entries a.used.entries };
}

impl QuotaBook {
    ghost use Rattle.std.specs.Prelude.{◌≡◌, ℕ, ◌+◌, ◌^◌, ◌<◌, List, length, Some, None, IsSomeAnd, IfOk, IfSome, OnOk, OnErr, MatchResult};
    ghost use Rattle.std.specs.Option.{option_copied};
    ghost use Rattle.std.specs.FinMap as map;
    ghost use Rattle.ftp_base.specs.Storage.{Begin, Append};
    ghost use Rattle.ftp_audit.specs.Usage.{given};
    ghost use Rattle.ftp_audit.specs.Book.{new_book, budget_of, own_refusal, with_file_of, Takes};

    /// Nobody owns a file, and nobody has a budget of his own.
    pub fn new(alloc: Global, default: u64) -> QuotaBook
        ensures { result ≡ new_book default }
    {
        QuotaBook {
            default,
            budgets: BTreeMap::new(alloc),
            owners: BTreeMap::new(alloc),
            used: BTreeMap::new(alloc),
            alloc,
        }
    }

    /// Gives a user a budget of his own.
    pub fn set_budget(&mut self, user: Bytes, n: u64) -> Result<(), AllocError>
        ensures set { OnOk result (self.new ≡ record self.old { budgets = map.insert self.old.budgets user n }) }
        ensures unchanged { OnErr result (self.new ≡ self.old) }
    {
        self.budgets.insert(user.into_vec(), n)?;
        Ok(())
    }

    /// The budget that a user was given of his own.
    pub fn own_budget(&self, user: &Bytes) -> Option<u64>
        ensures { result ≡ map.get self.now.budgets user.now }
    {
        self.budgets.get(user.as_slice()).copied()
    }

    /// How many bytes a user may have.
    pub fn budget(&self, user: &Bytes) -> u64
        ensures { result ≡ budget_of self.now user.now }
    {
        match self.own_budget(user) {
            Some(budget) => budget,
            None => self.default,
        }
    }

    /// How many bytes a user's files were given.
    pub fn used(&self, user: &Bytes) -> u64
        ensures { result ≡ given self.now.owners user.now }
    {
        match self.used.get(user.as_slice()) {
            Some(used) => *used,
            None => 0,
        }
    }

    /// The owner of a file.
    pub fn holder(&self, path: &Bytes) -> Option<&Held>
        ensures { option_copied result ≡ map.get self.now.owners path.now }
    {
        self.owners.get(path.as_slice())
    }

    /// Says how it is refused to begin a file at a place, if it is.
    pub fn may_begin(&self, user: &Bytes, path: &Bytes, start: u64) -> Result<(), ErrorKind>
        ensures refused { MatchResult result (λ _. own_refusal self.now (Begin user.now path.now start) ≡ None) (λ k. own_refusal self.now (Begin user.now path.now start) ≡ Some k) }
        ensures room { OnOk result (given (with_file_of self.now user.now path.now start).owners user.now < 2 ^ 64) }
    {
        let used = self.used(user);
        let budget = self.budget(user);
        let others = match self.holder(path) {
            None => used,
            Some(held) => {
                if held.owner != *user {
                    return Err(ErrorKind::PermissionDenied);
                }
                used - held.len
            }
        };
        if_within(others, start, budget)
    }

    /// Says how it is refused to put bytes at the end of a file, or how many the file has then.
    pub fn may_append(&self, user: &Bytes, path: &Bytes, more: usize) -> Result<u64, ErrorKind>
        ensures refused { (bytes : List ℕ) → length bytes ≡ more →
            MatchResult result (λ _. own_refusal self.now (Append user.now path.now bytes) ≡ None) (λ k. own_refusal self.now (Append user.now path.now bytes) ≡ Some k) }
        ensures grown { IfOk result (λ len. IsSomeAnd (map.get self.now.owners path.now) (λ held. (held.owner ≡ user.now) × (len ≡ held.len + more))) }
        ensures room { IfOk result (λ len. given (with_file_of self.now user.now path.now len).owners user.now < 2 ^ 64) }
    {
        let Some(held) = self.holder(path) else {
            return Err(ErrorKind::PermissionDenied);
        };
        if held.owner != *user {
            return Err(ErrorKind::PermissionDenied);
        }
        if_within(self.used(user), more as u64, self.budget(user))?;
        Ok(held.len + more as u64)
    }

    /// Makes the user the owner of a file that nobody owns, and says whether nobody did. The file was given no bytes so far.
    pub fn take(&mut self, user: &Bytes, path: &Bytes) -> Result<bool, AllocError>
        ensures taken { IfOk result (Takes self.old self.new user.now path.now) }
        ensures unchanged { OnErr result (self.new ≡ self.old) }
    {
        if self.owners.contains_key(path.as_slice()) {
            return Ok(false);
        }
        open_count(self.alloc, &mut self.used, user)?;
        let held = Held {
            owner: user.copy(self.alloc)?,
            len: 0,
        };
        let key = Vec::from_slice(self.alloc, path.as_slice())?;
        self.owners.insert(key, held)?;
        Ok(true)
    }

    /// Nobody owns the file any more. It was given no bytes.
    pub fn give_up(&mut self, path: &Bytes)
        requires empty { IfSome (map.get self.old.owners path.now) (λ held. held.len ≡ 0) }
        ensures { self.new ≡ record self.old { owners = map.remove self.old.owners path.now } }
    {
        self.owners.remove(path.as_slice());
    }

    /// The user's file has so many bytes now.
    pub fn put(&mut self, user: &Bytes, path: &Bytes, len: u64)
        requires held { IsSomeAnd (map.get self.old.owners path.now) (λ held. held.owner ≡ user.now) }
        requires room { given (with_file_of self.old user.now path.now len).owners user.now < 2 ^ 64 }
        ensures { self.new ≡ with_file_of self.old user.now path.now len }
    {
        let before = set_len(&mut self.owners, path, len);
        recount(&mut self.used, user, before, len);
    }
}

// Says that so many bytes, and more, are too many, if they are.
fn if_within(bytes: u64, more: u64, budget: u64) -> Result<(), ErrorKind>
    ensures { MatchResult result (λ _. bytes + more ≤ budget) (λ k. (k ≡ kind.ExceededStorageAllocationError) × (budget < bytes + more)) }
{
    if bytes > budget || more > budget - bytes {
        return Err(ErrorKind::ExceededStorageAllocationError);
    }
    Ok(())
}

// Begins a user's count, unless it was begun.
fn open_count(
    alloc: Global,
    used: &mut BTreeMap<Vec<u8>, u64>,
    user: &Bytes,
) -> Result<(), AllocError>
    ensures opened { OnOk result (OpensCount (by_name used.old.entries) (by_name used.new.entries) user.now) }
    ensures unchanged { OnErr result (by_name used.new.entries ≡ by_name used.old.entries) }
{
    if used.contains_key(user.as_slice()) {
        return Ok(());
    }
    let key = Vec::from_slice(alloc, user.as_slice())?;
    used.insert(key, 0)?;
    Ok(())
}

// Sets how many bytes a file has, and says how many it had.
fn set_len(owners: &mut BTreeMap<Vec<u8>, Held>, path: &Bytes, len: u64) -> u64
    requires { IsSome (map.get (by_name owners.old.entries) path.now) }
    ensures set { IfSome (map.get (by_name owners.old.entries) path.now) (λ held. by_name owners.new.entries ≡ map.insert (by_name owners.old.entries) path.now (record held { len = len })) }
    ensures before { IfSome (map.get (by_name owners.old.entries) path.now) (λ held. result ≡ held.len) }
    ensures ordered { IsStrictlySortedBy path_cmp (keys_of owners.new.entries) }
{
    let Some(held) = owners.get_mut(path.as_slice()) else {
        unreachable!();
    };
    let before = held.len;
    held.len = len;
    before
}

// Takes bytes from a user's count, and adds others.
fn recount(used: &mut BTreeMap<Vec<u8>, u64>, user: &Bytes, less: u64, more: u64)
    requires { IsSomeAnd (map.get (by_name used.old.entries) user.now) (λ n. (less ≤ n) × (n - less + more < 2 ^ 64)) }
    ensures { IfSome (map.get (by_name used.old.entries) user.now) (λ n. by_name used.new.entries ≡ map.insert (by_name used.old.entries) user.now (n - less + more)) }
{
    let Some(count) = used.get_mut(user.as_slice()) else {
        unreachable!();
    };
    *count = *count - less + more;
}
