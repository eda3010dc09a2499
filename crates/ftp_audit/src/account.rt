//! The running sums of one user.

ghost use Rattle.std.specs.Prelude.{◌≡◌, ◌≤◌, take, length};
ghost use Rattle.std.specs.List.Sorted.{IsNonDecreasingBy};
ghost use Rattle.ftp_audit.specs.Totals.{nothing};
ghost use Rattle.ftp_audit.specs.Marks.{newest, below, reached};

use crate::total::Total;
use ftp_base::Notice;
use std::alloc::{AllocError, Global};
use std::marker::Model;

/// What the notifications up to one came to, and the place of the entry that sent it.
#[derive(Clone, Copy, Debug, PartialEq, Eq)]
pub struct Mark {
    pub place: u64,
    pub sums: Total,
}

/// The running sums of a user, one for each notification, which contracts see as a list of marks.
#[derive(Drop)]
pub struct Account {
    marks: Vec<Mark>,
}

impl Model for Account {
    ghost use Rattle.std.specs.Prelude.{List};
    ghost use Rattle.ftp_audit.specs.declared.account.Mark.{Mark};

    ghost Value = { List Mark };

    ghost view = { λ a. a.marks.items };

    ghost use Rattle.ftp_audit.specs.Bounds.{AreMarks};

    ghost invariant = { λ a. AreMarks a.marks.items };
}

impl Account {
    ghost use Rattle.std.specs.Prelude.{◌≡◌, ◌≤◌, ◌++◌, ◌∷◌, [], OnOk, OnErr};
    ghost use Rattle.ftp_audit.specs.Totals.{told, minus};
    ghost use Rattle.ftp_audit.specs.Marks.{below, reached, next, total_of, UpTo};

    /// Nothing was told.
    pub fn new(alloc: Global) -> Account
        ensures { result ≡ [] }
    {
        Account {
            marks: Vec::new(alloc),
        }
    }

    /// Adds what the notification tells, at a place that no mark is above.
    ///
    /// # Proved
    ///
    /// - Sums are exact: so many notifications as there can be do not reach the end of a count (`AreMarks`) (`added`).
    pub fn add(&mut self, place: u64, what: &Notice) -> Result<(), AllocError>
        requires { UpTo place self.old }
        ensures added { OnOk result (self.new ≡ self.old ++ next self.old place (told what.now) ∷ []) }
        ensures unchanged { OnErr result (self.new ≡ self.old) }
    {
        let sums = newest(self.marks.as_slice()).and(Total::told(what));
        self.marks.push(Mark { place, sums })?;
        Ok(())
    }

    /// Lets go what was told at a place or later.
    pub fn forget(&mut self, place: u64)
        ensures { self.new ≡ below place self.old }
    {
        let count = count_below(self.marks.as_slice(), place);
        self.marks.truncate(count);
    }

    /// All that was told, where something was.
    pub fn total(&self) -> Option<Total>
        ensures { result ≡ total_of self.now }
    {
        if self.marks.is_empty() {
            return None;
        }
        Some(newest(self.marks.as_slice()))
    }

    /// What was told at the places from one below another, by two searches.
    pub fn between(&self, from: u64, to: u64) -> Total
        ensures { result ≡ minus (reached self.now to) (reached self.now from) }
    {
        let marks = self.marks.as_slice();
        before(marks, to).since(before(marks, from))
    }
}

// The newest sums.
fn newest(marks: &[Mark]) -> Total
    ensures { result ≡ newest nothing marks.now }
{
    match marks.last() {
        Some(mark) => mark.sums,
        None => Total::new(),
    }
}

// How many marks are below a place.
fn count_below(marks: &[Mark], place: u64) -> usize
    requires { IsNonDecreasingBy (λ m. m.place) marks.now }
    ensures bound { result ≤ length marks.now }
    ensures below { take result marks.now ≡ below place marks.now }
{
    marks.partition_point(|mark| mark.place < place)
}

// What the marks below a place have come to.
fn before(marks: &[Mark], place: u64) -> Total
    requires { IsNonDecreasingBy (λ m. m.place) marks.now }
    ensures { result ≡ reached marks.now place }
{
    newest(&marks[..count_below(marks, place)])
}
