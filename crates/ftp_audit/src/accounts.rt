//! The running sums of all users.

use crate::account::Account;
use crate::listing::{put_row, rank};
use crate::total::Total;
use ftp_base::{Bytes, Notice};
use std::alloc::{AllocError, Global};
use std::collections::BTreeMap;
use std::marker::Model;

/// An account for each user, in byte order of names. A user is found in a time that grows with the logarithm of their
/// count.
#[derive(Drop)]
pub struct Accounts {
    alloc: Global,
    users: BTreeMap<Vec<u8>, Account>,
}

impl Model for Accounts {
    ghost use Rattle.std.specs.Prelude.{ℕ, List};
    ghost use Rattle.ftp_audit.specs.declared.account.Mark.{Mark};

    ghost Value = { List (List ℕ × List Mark) };

    ghost use Rattle.ftp_audit.specs.Names.{named};

    ghost view = { λ a. named a.users.entries };
}

impl Accounts {
    ghost use Rattle.std.specs.Prelude.{◌≡◌, ℕ, [], List, IfOk, OnOk, OnErr};
    ghost use Rattle.std.specs.List.{flat_map};
    ghost use Rattle.ftp_audit.specs.Totals.{told, minus};
    ghost use Rattle.ftp_audit.specs.Marks.{below, reached, total_of, UpTo};
    ghost use Rattle.ftp_audit.specs.Users.{marks_of, with_told};
    ghost use Rattle.ftp_audit.specs.Listing.{IsListing, AreTop, row_line};
    ghost use Rattle.ftp_audit.specs.declared.total.Total.{Total};

    /// Nothing was told of anybody.
    pub fn new(alloc: Global) -> Accounts
        ensures { (name : List ℕ) → marks_of result name ≡ [] }
    {
        Accounts {
            alloc,
            users: BTreeMap::new(alloc),
        }
    }

    /// Adds what the notification tells of the user, at a place that no mark is above.
    ///
    /// # Proved
    ///
    /// - What a notification tells is added to the user that it names, and to no other, at its place; an error changes
    ///   nothing, if no sums stand at a later place (`added`, `unchanged`; also `Account::add`: `added`, `unchanged`).
    pub fn add(&mut self, place: u64, user: &[u8], what: &Notice) -> Result<(), AllocError>
        requires { (name : List ℕ) → UpTo place (marks_of self.old name) }
        ensures added { OnOk result ((name : List ℕ) → marks_of self.new name ≡ with_told place user.now what.now name (marks_of self.old name)) }
        ensures unchanged { OnErr result ((name : List ℕ) → marks_of self.new name ≡ marks_of self.old name) }
    {
        if let Some(account) = self.users.get_mut(user) {
            return account.add(place, what);
        }
        let mut account = Account::new(self.alloc);
        account.add(place, what)?;
        let name = Vec::from_slice(self.alloc, user)?;
        self.users.insert(name, account)?;
        Ok(())
    }

    /// Lets go what was told at a place or later.
    ///
    /// # Proved
    ///
    /// - What was told at a place or later is let go, and nothing else (also `Account::forget`).
    pub fn forget(&mut self, place: u64)
        ensures { (name : List ℕ) → marks_of self.new name ≡ below place (marks_of self.old name) }
    {
        self.users.retain(|_, account| {
            account.forget(place);
            true
        });
    }

    /// All that was told of the user.
    ///
    /// # Proved
    ///
    /// - The total, and the sums over a stretch as the difference of two running sums (also `Accounts::between`;
    ///   `Account::between`).
    pub fn total(&self, user: &Bytes) -> Option<Total>
        ensures { result ≡ total_of (marks_of self.now user.now) }
    {
        self.users.get(user.as_slice())?.total()
    }

    /// What was told of the user at the places from one below another.
    pub fn between(&self, user: &Bytes, from: u64, to: u64) -> Total
        ensures { result ≡ minus (reached (marks_of self.now user.now) to) (reached (marks_of self.now user.now) from) }
    {
        match self.users.get(user.as_slice()) {
            Some(account) => account.between(from, to),
            None => Total::new(),
        }
    }

    /// The first `k` users by the bytes that they got and put, from the most; names in byte order where these are as many.
    ///
    /// # Proved
    ///
    /// - The users by rank, and their lines in byte order (`IsListing`, `AreTop`) (also `Accounts::report`).
    pub fn top(&self, k: u32) -> Result<Vec<(Bytes, Total)>, AllocError>
        ensures { IfOk result (λ found. (rows : List (List ℕ × Total)) × IsListing (λ name. total_of (marks_of self.now name)) rows × AreTop k rows found.items) }
    {
        let mut rows = self.rows()?;
        rows.sort_unstable_by(|a, b| rank(a, b));
        rows.truncate(k as usize);
        Ok(rows)
    }

    // The users in byte order of names.
    fn rows(&self) -> Result<Vec<(Bytes, Total)>, AllocError>
        ensures { IfOk result (λ rows. IsListing (λ name. total_of (marks_of self.now name)) rows.items) }
    {
        let mut rows = Vec::new(self.alloc);
        for (name, account) in &self.users {
            if let Some(total) = account.total() {
                let name = Bytes::from_slice(self.alloc, name.as_slice())?;
                rows.push((name, total))?;
            }
        }
        Ok(rows)
    }

    /// A line for each user, in byte order of names.
    pub fn report(&self) -> Result<Vec<u8>, AllocError>
        ensures { IfOk result (λ text. (rows : List (List ℕ × Total)) × IsListing (λ name. total_of (marks_of self.now name)) rows × (text.items ≡ flat_map row_line rows)) }
    {
        let mut text = Vec::new(self.alloc);
        for (name, account) in &self.users {
            if let Some(total) = account.total() {
                put_row(&mut text, name.as_slice(), total)?;
            }
        }
        Ok(text)
    }
}
