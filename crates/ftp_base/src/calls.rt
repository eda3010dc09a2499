//! The calls of an object in memory, and which of them fail.

ghost use Rattle.std.specs.Prelude.{◌≡◌, ◌==◌, ◌≤◌, ◌↔◌, ℕ, true, false, [], length, is_some, IfSome, IsTrue, Contains, IsPermutation};
ghost use Rattle.std.specs.List.{list_any};
ghost use Rattle.std.specs.List.Sorted.{IsSortedByKey};
ghost use Rattle.std.specs.Ordering.{nat_cmp};
ghost use Rattle.ftp_base.specs.Calls.{one_more, fails_next_by, fault_limit_by, rises_above, after_call, after_fault, NoneFailed, LastFailed};

use crate::fault::LinkFault;
use std::marker::Model;

/// A call that fails.
pub trait FailingCall: Copy + Drop {
    // Which call it is.
    ghost number: { Self → ℕ };

    fn number(&self) -> u64
        ensures { result ≡ number self.now };
}

impl FailingCall for u64 {
    ghost number = { λ n. n };

    fn number(&self) -> u64 {
        *self
    }
}

impl FailingCall for (u64, LinkFault) {
    ghost number = { λ f. f.0 };

    fn number(&self) -> u64 {
        self.0
    }
}

/// Counts calls from 1. At its last value a count stands still.
#[derive(Drop)]
pub struct Calls<T: FailingCall> {
    made: u64,
    faults: u64,
    /// In the order of their numbers.
    failing: Vec<T>,
}

impl<T: FailingCall> Model for Calls<T> {
    ghost use Rattle.std.specs.List.Sorted.{IsSortedByKey};
    ghost use Rattle.std.specs.Ordering.{nat_cmp};
    ghost use Rattle.ftp_base.specs.Calls as specs;

    ghost Value = { specs.Calls T };

    ghost coded = { specs.calls_code T.code };

    ghost view = { λ c. record { made = c.made; faults = c.faults; failing = c.failing.items } };

    ghost invariant = { λ c. IsSortedByKey T.number nat_cmp c.failing.items };
}

impl<T: FailingCall> Calls<T> {
    pub fn new(failing: Vec<T>) -> Calls<T>
        ensures made { result.made ≡ 0 }
        ensures faults { result.faults ≡ 0 }
        ensures failing { IsPermutation failing.items result.failing }
        ensures kept { IsTrue (rises_above T.number 0 failing.items) → result.failing ≡ failing.items }
        ensures limit { IsTrue (rises_above T.number 0 failing.items) → fault_limit_by T.number result ≡ length failing.items }
    {
        let mut failing = failing;
        if !rise(failing.as_slice()) {
            failing.sort_unstable_by_key(|call| call.number());
        }
        Calls {
            made: 0,
            faults: 0,
            failing,
        }
    }

    /// Says whether a call is to fail.
    pub fn may_fail(&self) -> bool
        ensures { result ≡ false ↔ (self.now.failing ≡ []) }
    {
        !self.failing.is_empty()
    }

    /// The call that comes next, where it fails.
    pub fn next_failing(&self) -> Option<T>
        ensures fails { is_some result ≡ fails_next_by T.number self.now }
        ensures number { IfSome result (λ call. T.number call ≡ one_more self.now.made) }
        ensures listed { IfSome result (λ call. Contains self.now.failing call) }
    {
        let number = self.made.checked_add(1)?;
        find_call(self.failing.as_slice(), number)
    }

    /// Counts a call that goes well.
    pub fn count_call(&mut self)
        ensures counted { self.new ≡ after_call self.old }
        ensures limit { fault_limit_by T.number self.new ≤ fault_limit_by T.number self.old }
        ensures unlisted { fails_next_by T.number self.old ≡ false → NoneFailed T.number self.old self.new }
    {
        self.made = self.made.saturating_add(1);
    }

    /// Counts a call that fails.
    pub fn count_fault(&mut self)
        ensures counted { self.new ≡ after_fault self.old }
        ensures limit { fails_next_by T.number self.old ≡ true → fault_limit_by T.number self.new ≤ fault_limit_by T.number self.old }
        ensures as_listed { fails_next_by T.number self.old ≡ true → (call : T) → Contains self.old.failing call → LastFailed T.number self.old self.new call }
    {
        self.made = self.made.saturating_add(1);
        self.faults = self.faults.saturating_add(1);
    }
}

/// Says whether the numbers of the calls rise, the first from 1 on.
pub fn rise<T: FailingCall>(calls: &[T]) -> bool
    ensures { result ≡ rises_above T.number 0 calls.now }
{
    let mut last = 0;
    for call in calls {
        if call.number() <= last {
            return false;
        }
        last = call.number();
    }
    true
}

/// The call with this number, among calls in the order of their numbers.
fn find_call<T: FailingCall>(calls: &[T], number: u64) -> Option<T>
    requires { IsSortedByKey T.number nat_cmp calls.now }
    ensures fails { is_some result ≡ list_any (λ call. T.number call == number) calls.now }
    ensures number { IfSome result (λ call. T.number call ≡ number) }
    ensures listed { IfSome result (λ call. Contains calls.now call) }
{
    match calls.binary_search_by_key(&number, |call| call.number()) {
        Ok(at) => Some(calls[at]),
        Err(_) => None,
    }
}
