//! The sum of the shares against the journal.

ghost use Rattle.std.specs.Prelude.{◌≡◌, ◌+◌, ◌^◌, ◌<◌, ◌≤◌, All, IfErr, IfNone, IfOk, IfSome, IsTrue, length, slice_get, sum_by, take};
ghost use Rattle.std.specs.Option.{option_copied};
ghost use Rattle.std.specs.Vec.{vec_len};
ghost use Rattle.ftp_shared.specs.declared.receipt.Receipt.{Receipt};
ghost use Rattle.ftp_shared.specs.Settled.{IsDiffering, IsFirstOther, IsKept};

use crate::receipt::Receipt;
use crate::share::{Parts, StepShare};
use ftp_events::{Entry, Log};
use std::alloc::{AllocError, Global};
use std::sync::ledger::{Book, Ledger, Share};

/// Why a hub is not settled.
#[derive(Drop)]
pub enum SettleError {
    /// The shares count another number of steps than the journal has entries.
    Missing {
        counted: u64,
        length: u64,
    },
    /// A receipt is not the entry at its place: the entry there, if any, and the one that it tells.
    Differs {
        place: u64,
        kept: Option<Entry>,
        told: Entry,
    },
    /// A receipt is not the entry at its place, and there is no memory to tell of it.
    OutOfMemory,
}

/// Says whether the receipt is the entry at its place.
fn is_kept(log: &Log, receipt: &Receipt) -> bool
    ensures same { IsTrue result → IsKept log.now.entries receipt.now }
    ensures other { IsKept log.now.entries receipt.now → IsTrue result }
{
    match log.get(receipt.place) {
        Some(entry) => entry.is_same(&receipt.entry),
        None => false,
    }
}

/// The journal, where each receipt is the entry at its place.
pub(crate) fn compared(
    alloc: Global,
    journal: Log,
    receipts: &[Receipt],
) -> Result<Log, SettleError>
    ensures journal { IfOk result (λ log. log ≡ journal) }
    ensures receipts { IfOk result (λ log. All (λ r. IsKept log.entries r) receipts.now) }
    ensures differs { IfErr result (λ e. IsFirstOther journal.entries receipts.now e) }
{
    match first_other(&journal, receipts) {
        None => Ok(journal),
        Some(i) => {
            let error = differing(alloc, &journal, &receipts[i]);
            drop(journal);
            Err(error)
        }
    }
}

/// The first receipt that is not the entry at its place.
fn first_other(log: &Log, receipts: &[Receipt]) -> Option<usize>
    ensures none { IfNone result (All (λ r. IsKept log.now.entries r) receipts.now) }
    ensures within { IfSome result (λ i. i < length receipts.now) }
    ensures before { IfSome result (λ i. All (λ r. IsKept log.now.entries r) (take i receipts.now)) }
    ensures other { IfSome result (λ i. (r : Receipt) → slice_get receipts.now i ≡ Some r → ¬ IsKept log.now.entries r) }
{
    for i in 0..receipts.len() {
        if !is_kept(log, &receipts[i]) {
            return Some(i);
        }
    }
    None
}

/// What the journal keeps at a receipt's place, and what it tells.
fn differing(alloc: Global, log: &Log, receipt: &Receipt) -> SettleError
    ensures { IsDiffering log.now.entries receipt.now result }
{
    match copies(alloc, log.get(receipt.place), &receipt.entry) {
        Ok((kept, told)) => SettleError::Differs {
            place: receipt.place,
            kept,
            told,
        },
        Err(_) => SettleError::OutOfMemory,
    }
}

// Copies of the entries.
fn copies(
    alloc: Global,
    kept: Option<&Entry>,
    told: &Entry,
) -> Result<(Option<Entry>, Entry), AllocError>
    ensures { IfOk result (λ both. (both.0 ≡ option_copied kept.entry) × (both.1 ≡ told.now)) }
{
    let kept = copy_of(alloc, kept)?;
    match told.copy(alloc) {
        Ok(told) => Ok((kept, told)),
        Err(error) => {
            drop(kept);
            Err(error)
        }
    }
}

// A copy of an entry, where there is one.
fn copy_of(alloc: Global, kept: Option<&Entry>) -> Result<Option<Entry>, AllocError>
    ensures { IfOk result (λ copy. copy ≡ option_copied kept.entry) }
{
    match kept {
        Some(kept) => Ok(Some(kept.copy(alloc)?)),
        None => Ok(None),
    }
}

/// How many steps were made with the parts and the shares.
pub(crate) fn count_steps<L: Ledger>(
    steps: Book<L>,
    parts: Parts<L>,
    shares: Vec<StepShare<L>>,
    length: u64,
) -> u64
    requires { steps.total ≡ length }
    ensures sum { result ≡ parts.count + sum_by (λ s. s.count) shares.items }
    ensures whole { parts.parts + vec_len shares ≡ L.parts → result ≡ length }
    ensures apart { parts.parts + vec_len shares ≤ L.parts }
{
    let mut steps = steps;
    let (share, count) = parts.open();
    let mut all = Gathered::new(share, count);
    all.add_all(&mut steps, shares, length);
    all.bound();
    steps.audit(&mut all.share);
    all.count
}

// A share with the parts and the steps of many.
#[derive(Drop)]
struct Gathered<L: Ledger> {
    share: Share<L>,
    count: u64,
    ghost counted: { share.amount ≡ count },
}

impl<L: Ledger> Gathered<L> {
    fn new(share: Share<L>, count: u64) -> Gathered<L>
        requires { share.amount ≡ count }
        ensures parts { result.share.parts ≡ share.parts }
        ensures count { result.count ≡ count }
    {
        Gathered { share, count }
    }

    // Adds the parts and the steps of a share; the book counts so many steps.
    fn add(&mut self, steps: &mut Book<L>, share: StepShare<L>, length: u64)
        requires { steps.old.total ≡ length }
        ensures total { steps.new.total ≡ steps.old.total }
        ensures parts { self.new.share.parts ≡ self.old.share.parts + 1 }
        ensures count { self.new.count ≡ self.old.count + share.count }
    {
        let (share, count) = share.open();
        self.share.merge(share);
        steps.audit(&mut self.share);
        self.count += count;
    }

    // Adds all of the shares.
    fn add_all(&mut self, steps: &mut Book<L>, shares: Vec<StepShare<L>>, length: u64)
        requires { steps.old.total ≡ length }
        ensures total { steps.new.total ≡ steps.old.total }
        ensures parts { self.new.share.parts ≡ self.old.share.parts + vec_len shares }
        ensures count { self.new.count ≡ self.old.count + sum_by (λ s. s.count) shares.items }
    {
        let mut shares = shares;
        while let Some(share) = shares.pop() {
            self.add(steps, share, length);
        }
    }

    // There are no more parts than the ledger was cut into.
    fn bound(&mut self)
        ensures within { self.new.share.parts ≤ L.parts }
        ensures parts { self.new.share.parts ≡ self.old.share.parts }
        ensures count { self.new.count ≡ self.old.count }
    {
        let none = self.share.empty();
        self.share.merge(none);
    }
}
