//! The audit.

ghost use Rattle.std.specs.Prelude.{◌≡◌, ℕ, [], ◌∷◌, List, OnOk, OnErr};
ghost use Rattle.ftp_audit.specs.Marks.{below, UpTo};
ghost use Rattle.ftp_audit.specs.Users.{marks_of};
ghost use Rattle.ftp_audit.specs.Heard.{notices_on, with_all};

use crate::{Accounts, Total};
use ftp_base::Bytes;
use ftp_events::{Action, Entry};
use ftp_hub::PrepareError;
use std::alloc::{AllocError, Global};
use std::marker::Model;

/// What users moved, and how often they came and went, over the entries that were taken.
///
/// A user is found in a time that grows with the logarithm of the count of users, and the sums over a stretch in one that
/// grows with the logarithm of the count of the user's notifications.
#[derive(Drop)]
pub struct Audit {
    taken: u64,
    users: Accounts,
}

impl Model for Audit {
    ghost use Rattle.std.specs.Prelude.{ℕ, List};
    ghost use Rattle.ftp_audit.specs.Heard.{AuditState, Below};
    ghost use Rattle.ftp_audit.specs.Users.{marks_of};

    ghost Value = { AuditState };

    ghost view = { λ a. record { taken = a.taken; users = a.users } };

    ghost invariant = { λ a. (user : List ℕ) → Below a.taken (marks_of a.users user) };
}

impl Audit {
    ghost use Rattle.std.specs.Prelude.{◌≡◌, ℕ, ◌≤◌, ◌-◌, ◌^◌, ◌↔◌, ◌∷◌, [], List, length, OnOk, OnErr, IfOk, IsErrOf, Option, Some, None, if◌then◌else◌};
    ghost use Rattle.std.specs.List.{flat_map};
    ghost use Rattle.ftp_options.specs.declared.options.Options.{Options};
    ghost use Rattle.ftp_events.specs.declared.entry.Entry.{Entry};
    ghost use Rattle.ftp_events.specs.Right.{IsRight, IsActed};
    ghost use Rattle.ftp_audit.specs.declared.total.Total.{Total};
    ghost use Rattle.ftp_audit.specs.Listing.{IsListing, AreTop, row_line};
    ghost use Rattle.ftp_audit.specs.Sums.{sums};
    ghost use Rattle.ftp_audit.specs.Heard.{heard, is_named, HasHeard, Stands, SameAudit, total_in};

    /// No entry was taken.
    ///
    /// # Proved
    ///
    /// - After the entries of a right and acted log were taken in order the audit stands for it (`stands`; also
    ///   `Audit::take`: `stands`; `audited`: `stands`).
    pub fn new(alloc: Global) -> Audit
        ensures heard { HasHeard result [] }
        ensures stands { (o : Options) → Stands o result [] }
    {
        Audit {
            taken: 0,
            users: Accounts::new(alloc),
        }
    }

    /// Takes the next entry of a log, of which it reads the notifications.
    ///
    /// # Proved
    ///
    /// - Of any entries at all, the sums are those that their notifications tell, if the audit has heard the entries
    ///   (`heard`; also `Audit::total`: `heard`; `Audit::between`: `heard`; `audited`: `heard`).
    /// - An entry is not taken for the count's sake exactly at the end of the count, and after each error all is as it
    ///   was (`exhausted`, `unchanged`).
    pub fn take(&mut self, entry: &Entry) -> Result<(), PrepareError>
        ensures heard { OnOk result ((log : List Entry) → HasHeard self.old log → HasHeard self.new (entry.now ∷ log)) }
        ensures stands { OnOk result ((o : Options) (log : List Entry) → Stands o self.old log →
            IsRight o (entry.now ∷ log) → IsActed o (entry.now ∷ log) → Stands o self.new (entry.now ∷ log)) }
        ensures exhausted { IsErrOf result PrepareError.Exhausted ↔ (self.old.taken ≡ 2 ^ 64 - 1) }
        ensures unchanged { OnErr result (SameAudit self.old self.new) }
    {
        if self.taken == u64::MAX {
            return Err(PrepareError::Exhausted);
        }
        if let Err(error) = hear(&mut self.users, self.taken, entry.actions.as_slice()) {
            self.users.forget(self.taken);
            return Err(error.into());
        }
        self.taken += 1;
        Ok(())
    }

    /// The sums of the user over all entries, where a notification named it.
    ///
    /// # Proved
    ///
    /// - So is the total of a user, which is there exactly where a notification named the user (`total_in`), if the
    ///   audit stands for the log (`total`).
    pub fn total(&self, user: &Bytes) -> Option<Total>
        ensures heard { (log : List Entry) → HasHeard self.now log → result ≡ (if is_named log user.now then Some (heard log user.now 0 (length log)) else None) }
        ensures total { (o : Options) (log : List Entry) → Stands o self.now log → result ≡ total_in o log user.now }
    {
        self.users.total(user)
    }

    /// The sums of the user over the entries with places from one below another, counted from 0, by two searches.
    ///
    /// # Proved
    ///
    /// - Then the sums over the entries with places from one below another are those of what was decided (`sums`), if
    ///   the audit stands for the log; the places do not fall (`sums`).
    pub fn between(&self, user: &Bytes, from: u64, to: u64) -> Total
        requires in_order { from ≤ to }
        ensures heard { (log : List Entry) → HasHeard self.now log → result ≡ heard log user.now from to }
        ensures sums { (o : Options) (log : List Entry) → Stands o self.now log → result ≡ sums o log user.now from to }
    {
        self.users.between(user, from, to)
    }

    /// The first `k` users by the bytes that they got and put, from the most; names in byte order where these are as many.
    ///
    /// # Proved
    ///
    /// - The first users by bytes, the most first, as a permutation of all that is in order; and a line for each user,
    ///   in byte order of names (also `Audit::report`).
    pub fn top(&self, k: u32) -> Result<Vec<(Bytes, Total)>, AllocError>
        ensures { (o : Options) (log : List Entry) → Stands o self.now log →
            IfOk result (λ found. (rows : List (List ℕ × Total)) × IsListing (total_in o log) rows × AreTop k rows found.items) }
    {
        self.users.top(k)
    }

    /// A line for each user whom a notification named, in byte order of names.
    pub fn report(&self) -> Result<Bytes, AllocError>
        ensures { (o : Options) (log : List Entry) → Stands o self.now log →
            IfOk result (λ text. (rows : List (List ℕ × Total)) × IsListing (total_in o log) rows × (text ≡ flat_map row_line rows)) }
    {
        Ok(Bytes::from_vec(self.users.report()?))
    }
}

// Adds what the notifications among the actions tell, at a place.
fn hear(users: &mut Accounts, place: u64, actions: &[Action]) -> Result<(), AllocError>
    requires { (user : List ℕ) → UpTo place (marks_of users.old user) }
    ensures heard { OnOk result ((user : List ℕ) → marks_of users.new user ≡ with_all place (marks_of users.old user) (notices_on user actions.now)) }
    ensures earlier { (user : List ℕ) → below place (marks_of users.new user) ≡ below place (marks_of users.old user) }
    ensures place { (user : List ℕ) → UpTo place (marks_of users.new user) }
{
    for action in actions {
        hear_one(users, place, action)?;
    }
    Ok(())
}

// Adds what the action tells, where it is a notification.
fn hear_one(users: &mut Accounts, place: u64, action: &Action) -> Result<(), AllocError>
    requires { (user : List ℕ) → UpTo place (marks_of users.old user) }
    ensures heard { OnOk result ((user : List ℕ) → marks_of users.new user ≡ with_all place (marks_of users.old user) (notices_on user (action.now ∷ []))) }
    ensures unchanged { OnErr result ((user : List ℕ) → marks_of users.new user ≡ marks_of users.old user) }
{
    match action {
        Action::Notify { meta, what, .. } => users.add(place, meta.username.as_slice(), what),
        _ => Ok(()),
    }
}
