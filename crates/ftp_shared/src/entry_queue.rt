//! Entries that threads bring in any order, given in that of their places.

ghost use Rattle.std.specs.Prelude.{◌≡◌, ◌≢◌, ◌+◌, ◌^◌, ◌<◌, ◌&&◌, ℕ, nat_eq, nat_le, nat_lt, is_none, not, Some, None, Ok, IfOk, IsSome, true, false, if◌then◌else◌};
ghost use Rattle.ftp_shared.specs.declared.entry_queue.Taken.TheVariants as taken;
ghost use Rattle.ftp_shared.specs.Waiting.{has_ended, taken_entry, waits_at, waiting_count};

use ftp_events::Entry;
use std::alloc::{AllocError, Global};
use std::collections::BTreeMap;

/// What a queue gives.
#[derive(Drop)]
pub enum Taken {
    /// The entry at the next place.
    Given(Entry),
    /// It has not come yet.
    NotYet,
    /// All entries were given.
    Ended,
    /// It did not come, and an entry was not taken in.
    Lost,
}

/// Entries that wait for those before them, at most so many.
#[derive(Drop)]
pub struct EntryQueue {
    waiting: BTreeMap<u64, Entry>,
    // The place of the entry that is given next.
    next: u64,
    most: u64,
    has_lost: bool,
    // How many entries there are in all, once that is known.
    end: Option<u64>,
}

impl EntryQueue {
    /// Nothing waits, and the entry at place 0 is given first.
    pub fn new(alloc: Global, most: u64) -> EntryQueue
        ensures none { (p : ℕ) → waits_at result p ≡ None }
        ensures first { result.next ≡ 0 }
        ensures whole { result.has_lost ≡ false }
        ensures open { result.end ≡ None }
        ensures most { result.most ≡ most }
    {
        EntryQueue {
            waiting: BTreeMap::new(alloc),
            next: 0,
            most,
            has_lost: false,
            end: None,
        }
    }

    /// Takes in the entry at a place, and says whether it did. One that is not taken in is lost, with all that come later.
    ///
    /// # Proved
    ///
    /// - An entry is taken in where none was lost, none came at its place and fewer wait than may, unless memory runs out;
    ///   else it is lost, and the queue says so from then on (`takes`, `put`, `lost`; also `EntryQueue::take`: `lost`).
    pub fn put(&mut self, place: u64, entry: Entry) -> Result<bool, AllocError>
        ensures takes { IfOk result (λ is_taken. is_taken ≡ (not self.old.has_lost && (nat_le self.old.next place && (is_none (waits_at self.old place) && nat_lt (waiting_count self.old) self.old.most)))) }
        ensures put { result ≡ Ok true → (self.new.has_lost ≡ false) × ((p : ℕ) → waits_at self.new p ≡ (if nat_eq p place then Some entry else waits_at self.old p)) }
        ensures lost { result ≢ Ok true → (self.new.has_lost ≡ true) × ((p : ℕ) → waits_at self.new p ≡ waits_at self.old p) }
        ensures same { (self.new.next ≡ self.old.next) × (self.new.end ≡ self.old.end) × (self.new.most ≡ self.old.most) }
    {
        if !self.takes(place) {
            drop(entry);
            self.has_lost = true;
            return Ok(false);
        }
        match self.waiting.insert(place, entry) {
            Ok(before) => {
                drop(before);
                Ok(true)
            }
            Err(lost) => {
                drop(lost);
                self.has_lost = true;
                Err(AllocError)
            }
        }
    }

    // Says whether an entry at a place is taken in, if memory is left.
    fn takes(&self, place: u64) -> bool
        ensures { result ≡ (not self.now.has_lost && (nat_le self.now.next place && (is_none (waits_at self.now place) && nat_lt (waiting_count self.now) self.now.most))) }
    {
        !self.has_lost
            && self.next <= place
            && !self.waiting.contains_key(&place)
            && (self.waiting.len() as u64) < self.most
    }

    /// An entry that there was no memory for is lost, with all that come later.
    pub fn lose(&mut self)
        ensures lost { self.new.has_lost ≡ true }
        ensures waiting { (p : ℕ) → waits_at self.new p ≡ waits_at self.old p }
        ensures same { (self.new.next ≡ self.old.next) × (self.new.end ≡ self.old.end) × (self.new.most ≡ self.old.most) }
    {
        self.has_lost = true;
    }

    /// There are so many entries in all, unless another number was told before.
    pub fn end_at(&mut self, count: u64)
        ensures end { self.old.end ≡ None → self.new.end ≡ Some count }
        ensures kept { IsSome self.old.end → self.new.end ≡ self.old.end }
        ensures waiting { (p : ℕ) → waits_at self.new p ≡ waits_at self.old p }
        ensures same { (self.new.next ≡ self.old.next) × (self.new.has_lost ≡ self.old.has_lost) × (self.new.most ≡ self.old.most) }
    {
        if self.end.is_none() {
            self.end = Some(count);
        }
    }

    /// The entry at the next place, or why there is none.
    ///
    /// # Proved
    ///
    /// - Entries are given in the order of their places, each once and as it was put, until all were given (`given`,
    ///   `ended`, `next`, `rest`).
    /// - One that is not there is waited for exactly where none was lost (`lost`, `not_yet`).
    pub fn take(&mut self) -> Taken
        ensures ended { result ≡ taken.Ended → has_ended self.old ≡ true }
        ensures given { taken_entry result ≡ (if has_ended self.old then None else waits_at self.old self.old.next) }
        ensures lost { result ≡ taken.Lost → (has_ended self.old ≡ false) × (self.old.has_lost ≡ true) }
        ensures not_yet { result ≡ taken.NotYet → (has_ended self.old ≡ false) × (self.old.has_lost ≡ false) }
        ensures next { IsSome (taken_entry result) → self.old.next + 1 < 2 ^ 64 → self.new.next ≡ self.old.next + 1 }
        ensures stays { taken_entry result ≡ None → self.new.next ≡ self.old.next }
        ensures rest { (p : ℕ) → p ≢ self.old.next → waits_at self.new p ≡ waits_at self.old p }
        ensures same { (self.new.has_lost ≡ self.old.has_lost) × (self.new.end ≡ self.old.end) × (self.new.most ≡ self.old.most) }
    {
        if self.has_ended() {
            return Taken::Ended;
        }
        match self.waiting.remove(&self.next) {
            Some(entry) => {
                self.next = self.next.wrapping_add(1);
                Taken::Given(entry)
            }
            None if self.has_lost => Taken::Lost,
            None => Taken::NotYet,
        }
    }

    // Says whether all entries were given.
    fn has_ended(&self) -> bool
        ensures { result ≡ has_ended self.now }
    {
        match self.end {
            Some(count) => count <= self.next,
            None => false,
        }
    }
}
