//! The hub that threads share.

ghost use Rattle.std.specs.Vec.{vec_len};
ghost use Rattle.ftp_events.specs.Right.{IsRight, IsActed};
ghost use Rattle.std.specs.Prelude.{◌≡◌, ◌+◌, ◌<◌, ◌≤◌, length, sum_by, All, IfOk, IfErr, OnErr, OnOk, false, true};
ghost use Rattle.ftp_shared.specs.Next.{IsNextAt};
ghost use Rattle.ftp_shared.specs.Settled.{IsKept, IsOtherOf, is_missing};

use crate::beside::Beside;
use crate::locked::{Locked, Serving};
use crate::receipt::{FinishError, JobShare, Receipt, Submitted, Turn};
use crate::settle::SettleError;
use crate::share::StepShare;
use crate::{AppendError, JournalFeed, JournalHub};
use ftp_events::{Answer, HubEvent, Log};
use ftp_options::Options;
use ftp_transfer::Outcome;
use std::alloc::Global;
use std::sync::ledger::{Book, Share};
use std::sync::{Arc, Mutex, Wait};

/// A locked hub, the numbers that were drawn for it, and who is told its entries.
#[derive(Drop)]
pub struct SharedHub<L: Serving> {
    lock: Mutex<Locked<L>>,
    beside: Beside,
}

impl<L: Serving> SharedHub<L> {
    /// A hub to which nothing has happened. It takes no memory.
    pub fn new(
        alloc: Global,
        options: Options,
        steps: Book<L>,
        share: Share<L>,
        parts: u64,
    ) -> SharedHub<L>
        requires options { options ≡ L.options }
        requires none { steps.total ≡ 0 }
        requires some { 0 < parts }
        requires all { share.parts ≡ parts }
        requires fresh { share.amount ≡ 0 }
    {
        SharedHub {
            lock: Mutex::new(Locked::new(alloc, options, steps, share, parts)),
            beside: Beside::new(),
        }
    }

    /// Ends the hub, and gives its journal, where the shares and those that were taken back count all of its steps, and
    /// each receipt is the entry at its place. The shares are this hub's.
    ///
    /// # Proved
    ///
    /// - A settled hub's journal is right and acted, the shares count no more entries than it has, and with the steps
    ///   that were taken back exactly those, and each receipt is the entry at its place, if the shares are this hub's;
    ///   exactly, where the locked value is at hand (`Locked::settle`) (`right`, `sum`, `receipts`; also
    ///   `Locked::settle`: `right`, `sum`, `receipts`).
    pub fn settle(self, shares: Vec<StepShare<L>>, receipts: &[Receipt]) -> Result<Log, SettleError>
        ensures right { IfOk result (λ log. ∥ IsRight L.options log.entries × IsActed L.options log.entries ∥₁) }
        ensures sum { IfOk result (λ log. sum_by (λ s. s.count) shares.items ≤ length log.entries) }
        ensures receipts { IfOk result (λ log. All (λ r. IsKept log.entries r) receipts.now) }

        // Where steps are missing, at least one part was neither kept, nor taken back, nor handed in.
        ensures gone { IfErr result (λ e. is_missing e ≡ true → vec_len shares + 1 < L.parts) }

        // Any other error tells of the first receipt that is not the entry at its place.
        ensures differs_so { IfErr result (λ e. is_missing e ≡ false → ∥ IsOtherOf L.options receipts.now e ∥₁) }
    {
        let SharedHub { lock, beside } = self;
        drop(beside);
        lock.into_inner().settle(shares, receipts)
    }

    // Adds the entry of an event, and tells it.
    fn append<R: Wait>(
        &self,
        rt: &R,
        share: &mut StepShare<L>,
        event: HubEvent,
        answer: Answer,
    ) -> Result<Submitted, AppendError>
        ensures next { IfOk result (λ s. IsNextAt L.options s.receipt event answer) }
        ensures only { IfErr result (λ e. e ≡ AppendError.OutOfMemory) }
        ensures share { OnOk result (share.new.count ≡ share.old.count + 1) }
        ensures same_share { OnErr result (share.new.count ≡ share.old.count) }
    {
        let submitted = self.lock.lock(rt).append(share, event, answer);
        self.beside.tell_of(rt, &submitted);
        submitted
    }
}

impl<L: Serving> JournalHub for SharedHub<L> {
    type Pass = StepShare<L>;

    ghost options = { L.options };

    ghost counts = { true };

    ghost made = { λ share. share.count };

    ghost exhausts = { false };

    fn submit<R: Wait>(
        &self,
        rt: &R,
        share: &mut StepShare<L>,
        event: HubEvent,
        answer: Answer,
    ) -> Result<Submitted, AppendError> {
        self.append(rt, share, event, answer)
    }

    fn submit_for<R: Wait>(
        &self,
        rt: &R,
        share: &mut StepShare<L>,
        event: HubEvent,
        answer: Answer,
    ) -> Result<Turn, AppendError> {
        let answered = self.lock.lock(rt).append_for(share, event, answer);
        if let Ok(turn) = &answered {
            self.beside.tell(rt, &turn.submitted.receipt);
        }
        answered
    }

    fn piece<R: Wait>(
        &self,
        rt: &R,
        share: &mut StepShare<L>,
        job: JobShare,
        at: u64,
        bytes: u64,
    ) -> Result<Submitted, FinishError> {
        let submitted = self.lock.lock(rt).append_piece(share, job, at, bytes);
        self.beside.tell_of(rt, &submitted);
        submitted
    }

    fn finish<R: Wait>(
        &self,
        rt: &R,
        share: &mut StepShare<L>,
        job: JobShare,
        at: u64,
        outcome: Outcome,
    ) -> Result<Submitted, FinishError> {
        match self.append(rt, share, job.end(at), Answer::Done(outcome)) {
            Ok(submitted) => {
                drop(job);
                Ok(submitted)
            }
            Err(cause) => Err(FinishError { job, cause }),
        }
    }

    fn share<R: Wait>(&self, rt: &R) -> Option<StepShare<L>> {
        self.lock.lock(rt).share()
    }

    fn take_back<R: Wait>(&self, rt: &R, share: StepShare<L>) {
        self.lock.lock(rt).take_back(share);
    }

    fn drained<R: Wait>(&self, rt: &R) -> bool {
        self.lock.lock(rt).drained()
    }

    fn draw(&self) -> u64 {
        self.beside.draw()
    }

    fn feed_to(&mut self, feed: Arc<JournalFeed, Global>) {
        self.beside.feed_to(feed);
    }

    fn end_feed<R: Wait>(&self, rt: &R) {
        let count = self.lock.lock(rt).len();
        self.beside.end_at(rt, count);
    }
}
