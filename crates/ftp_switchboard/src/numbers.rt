//! Numbers as intervals that do not touch.

ghost use Rattle.std.specs.Prelude.{◌≡◌, ℕ, ◌+◌, ◌-◌, ◌<◌, ◌≤◌, ◌^◌, ◌||◌, ◌==◌, ◌≢◌, ◌⊎◌, nat_le, Some, true, false, map, unwrap_or, IfSome, IfNone, IfOk, OnOk, OnErr};
ghost use Rattle.std.specs.Ordering.{nat_cmp};
ghost use Rattle.std.specs.BTreeMap.{IsOrdered};
ghost use Rattle.ftp_switchboard.specs.Used.{has, is_in, is_used, HasSpare, IsApart, SameNumbers};
ghost use Rattle.ftp_switchboard.specs.Settled.{end_at, intervals_of, BeginsWith, BeginsNoneBy, IsDisjoint, IsLastBy};

use std::alloc::{AllocError, Global};
use std::collections::BTreeMap;
use std::marker::Model;

/// An interval of numbers, both ends included.
#[derive(Clone, Copy, Debug, PartialEq, Eq)]
pub struct Interval {
    pub lo: u64,
    pub hi: u64,
}

/// Numbers that were used.
#[derive(Drop)]
pub struct Numbers {
    // Where each interval begins, and where it ends.
    settled: BTreeMap<u64, u64>,
    // The number that was put last, until there is memory to settle it.
    newest: Option<u64>,
}

impl Model for Numbers {
    ghost use Rattle.ftp_switchboard.specs.Used.{Used};
    ghost use Rattle.ftp_switchboard.specs.Settled.{intervals_of, IsDisjoint};

    ghost Value = { Used };

    ghost view = { λ a. record { intervals = intervals_of a.settled.entries; newest = a.newest } };

    ghost invariant = { λ a. IsDisjoint a.settled.entries };
}

impl Numbers {
    /// No number.
    pub fn new(alloc: Global) -> Numbers
        ensures { (n : ℕ) → has result n ≡ false }
    {
        Numbers {
            settled: BTreeMap::new(alloc),
            newest: None,
        }
    }

    /// The numbers of intervals that are in order and do not touch.
    ///
    /// # Proved
    ///
    /// - The numbers that intervals give back are those that the intervals have (the intervals are in order and do not
    ///   touch) (`same`).
    pub fn of(alloc: Global, intervals: &[Interval]) -> Result<Numbers, AllocError>
        requires apart { IsApart intervals.now }
        ensures same { IfOk result (λ numbers. (n : ℕ) → has numbers n ≡ is_used intervals.now n) }
    {
        let mut settled = BTreeMap::new(alloc);
        for interval in intervals {
            append(&mut settled, interval.lo, interval.hi)?;
        }
        Ok(Numbers {
            settled,
            newest: None,
        })
    }

    /// Says whether the number was put, in a time that grows with the logarithm of the count of intervals.
    ///
    /// # Proved
    ///
    /// - A number is there exactly where it was put (for `put`, room was made) (also `Numbers::put`; `Numbers::new`).
    pub fn has(&self, n: u64) -> bool
        ensures { result ≡ has self.now n }
    {
        self.newest == Some(n) || is_settled(&self.settled, n)
    }

    /// Gives the intervals, the lowest first.
    ///
    /// # Proved
    ///
    /// - The intervals have exactly the numbers that were put, are in order and do not touch (`same`, `apart`).
    pub fn intervals(&self, alloc: Global) -> Result<Vec<Interval>, AllocError>
        ensures same { IfOk result (λ intervals. (n : ℕ) → is_used intervals.items n ≡ has self.now n) }
        ensures apart { IfOk result (λ intervals. IsApart intervals.items) }
    {
        list(alloc, &self.all_settled()?)
    }

    // The intervals with the newest number among them.
    fn all_settled(&self) -> Result<BTreeMap<u64, u64>, AllocError>
        ensures numbers { IfOk result (λ settled. (n : ℕ) → is_used (intervals_of settled.entries) n ≡ has self.now n) }
        ensures disjoint { IfOk result (λ settled. IsDisjoint settled.entries) }
    {
        let mut settled = self.settled.clone()?;
        if let Some(n) = self.newest {
            settle(&mut settled, n)?;
        }
        Ok(settled)
    }

    /// Takes the memory that the next `put` needs, in a time that grows with the logarithm of the count of intervals.
    ///
    /// # Proved
    ///
    /// - Room for the next `put`, which has no answer of want of memory; it changes no number, also where there is no
    ///   memory (`ok`, `same`).
    pub fn make_room(&mut self) -> Result<(), AllocError>
        ensures ok { OnOk result (HasSpare self.new) }
        ensures same { SameNumbers self.old self.new }
    {
        if let Some(n) = self.newest {
            settle(&mut self.settled, n)?;
            self.newest = None;
        }
        Ok(())
    }

    /// Puts the number to those that were used, and takes no memory. A number that is there changes nothing.
    pub fn put(&mut self, n: u64)
        requires { HasSpare self.old }
        ensures { (q : ℕ) → has self.new q ≡ ((n == q) || has self.old q) }
    {
        self.newest = Some(n);
    }
}

// The last interval that begins at the number or below it.
fn last_by(settled: &BTreeMap<u64, u64>, n: u64) -> Option<Interval>
    requires { IsDisjoint settled.now.entries }
    ensures found { IfSome result (λ last. IsLastBy settled.now.entries n last.lo last.hi) }
    ensures used { IfSome result (λ last. nat_le n last.hi ≡ is_used (intervals_of settled.now.entries) n) }
    ensures none { IfNone result (BeginsNoneBy settled.now.entries n) }
    ensures unused { IfNone result (is_used (intervals_of settled.now.entries) n ≡ false) }
{
    let (lo, hi) = settled.range(..=n).next_back()?;
    Some(Interval { lo: *lo, hi: *hi })
}

// Says whether an interval has the number.
fn is_settled(settled: &BTreeMap<u64, u64>, n: u64) -> bool
    requires { IsDisjoint settled.now.entries }
    ensures { result ≡ is_used (intervals_of settled.now.entries) n }
{
    match last_by(settled, n) {
        Some(last) => n <= last.hi,
        None => false,
    }
}

// Where the interval begins that ends right below the number, or the number itself; none where an interval has it.
fn lo_with(settled: &BTreeMap<u64, u64>, n: u64) -> Option<u64>
    requires { IsDisjoint settled.now.entries }
    ensures begins { IfSome result (λ lo. BeginsWith settled.now.entries n lo) }
    ensures unused { IfSome result (λ lo. is_used (intervals_of settled.now.entries) n ≡ false) }
    ensures used { IfNone result (is_used (intervals_of settled.now.entries) n ≡ true) }
{
    match last_by(settled, n) {
        Some(last) if n <= last.hi => None,
        Some(last) if last.hi + 1 == n => Some(last.lo),
        _ => Some(n),
    }
}

// Where the interval ends that begins right above the number, or the number itself.
fn hi_with(settled: &BTreeMap<u64, u64>, n: u64) -> u64
    requires { IsDisjoint settled.now.entries }
    ensures above { result ≡ unwrap_or (end_at settled.now.entries (n + 1)) n }
    ensures fits { result < 2 ^ 64 }
{
    let Some(above) = n.checked_add(1) else {
        return n;
    };
    match settled.get(&above) {
        Some(hi) => *hi,
        None => n,
    }
}

// Adds the number to the intervals.
fn settle(settled: &mut BTreeMap<u64, u64>, n: u64) -> Result<(), AllocError>
    requires { IsDisjoint settled.old.entries }
    ensures numbers { OnOk result ((q : ℕ) → is_used (intervals_of settled.new.entries) q ≡ ((n == q) || is_used (intervals_of settled.old.entries) q)) }
    ensures disjoint { IsDisjoint settled.new.entries }
    ensures unchanged { OnErr result (settled.new.entries ≡ settled.old.entries) }
{
    let Some(lo) = lo_with(settled, n) else {
        return Ok(());
    };
    let hi = hi_with(settled, n);
    settled.insert(lo, hi)?;
    if hi > n {
        settled.remove(&(n + 1));
    }
    Ok(())
}

// Adds an interval behind all others.
fn append(settled: &mut BTreeMap<u64, u64>, lo: u64, hi: u64) -> Result<(), AllocError>
    requires disjoint { IsDisjoint settled.old.entries }
    requires filled { lo ≤ hi }
    requires behind { (first last : ℕ) → end_at settled.old.entries first ≡ Some last → last + 1 < lo }
    ensures numbers { OnOk result ((n : ℕ) → is_used (intervals_of settled.new.entries) n ≡ (is_in (record { lo = lo; hi = hi }) n || is_used (intervals_of settled.old.entries) n)) }
    ensures disjoint { OnOk result (IsDisjoint settled.new.entries) }
    ensures ends { OnOk result ((first last : ℕ) → end_at settled.new.entries first ≡ Some last → ((first ≡ lo) × (last ≡ hi)) ⊎ (end_at settled.old.entries first ≡ Some last)) }
{
    settled.insert(lo, hi)?;
    Ok(())
}

// Lists the intervals.
fn list(alloc: Global, settled: &BTreeMap<u64, u64>) -> Result<Vec<Interval>, AllocError>
    ensures all { IfOk result (λ intervals. intervals.items ≡ intervals_of settled.now.entries) }
    ensures ordered { IsOrdered nat_cmp settled.now }
{
    settled
        .iter()
        .map(|(lo, hi)| Interval { lo: *lo, hi: *hi })
        .collect(alloc)
}
