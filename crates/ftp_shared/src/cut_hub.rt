//! The hub that threads share, where its journal is a checkpoint and a tail.

ghost use Rattle.std.specs.Prelude.{◌≡◌, ◌≤◌, IfOk, false, true};
ghost use Rattle.ftp_shared.specs.Next.{IsNextAt};

use crate::beside::Beside;
use crate::cut::Cut;
use crate::locked::Serving;
use crate::receipt::{FinishError, JobShare, Submitted, Turn};
use crate::{AppendError, JournalFeed, JournalHub};
use ftp_events::{Answer, HubEvent};
use ftp_options::Options;
use ftp_transfer::Outcome;
use std::alloc::Global;
use std::sync::{Arc, Mutex, Wait};

/// A hub behind a lock, with the entries since its checkpoint, the numbers that were drawn for it, and who is told its
/// entries. Nobody holds a share of it, and its journal is not given out.
#[derive(Drop)]
pub struct CutHub<L: Serving> {
    lock: Mutex<Cut<L>>,
    beside: Beside,
}

impl<L: Serving> CutHub<L> {
    /// A hub to which nothing has happened, whose tail has so many entries at most. It takes no memory.
    pub fn new(alloc: Global, options: Options, every: u64) -> CutHub<L>
        requires options { options ≡ L.options }
        requires some { 1 ≤ every }
    {
        CutHub {
            lock: Mutex::new(Cut::new(alloc, options, every)),
            beside: Beside::new(),
        }
    }

    /// How many entries the tail has: so many at most as the hub was made with (`bounded` of `Cut::tail`).
    pub fn tail<R: Wait>(&self, rt: &R) -> u64 {
        self.lock.lock(rt).tail()
    }

    // Adds the entry of an event, and tells it.
    fn append<R: Wait>(
        &self,
        rt: &R,
        event: HubEvent,
        answer: Answer,
    ) -> Result<Submitted, AppendError>
        ensures { IfOk result (λ s. IsNextAt L.options s.receipt event answer) }
    {
        let submitted = self.lock.lock(rt).append(event, answer);
        self.beside.tell_of(rt, &submitted);
        submitted
    }
}

impl<L: Serving> JournalHub for CutHub<L> {
    type Pass = ();

    ghost options = { L.options };

    ghost counts = { false };

    ghost made = { λ _. 0 };

    ghost exhausts = { true };

    fn submit<R: Wait>(
        &self,
        rt: &R,
        _pass: &mut (),
        event: HubEvent,
        answer: Answer,
    ) -> Result<Submitted, AppendError> {
        self.append(rt, event, answer)
    }

    /// What the session was sent before is handed to it also where that has left the tail.
    fn submit_for<R: Wait>(
        &self,
        rt: &R,
        _pass: &mut (),
        event: HubEvent,
        answer: Answer,
    ) -> Result<Turn, AppendError> {
        let turn = self.lock.lock(rt).append_for(event, answer)?;
        self.beside.tell(rt, &turn.submitted.receipt);
        Ok(turn)
    }

    fn piece<R: Wait>(
        &self,
        rt: &R,
        _pass: &mut (),
        job: JobShare,
        at: u64,
        bytes: u64,
    ) -> Result<Submitted, FinishError> {
        let submitted = self.lock.lock(rt).append_piece(job, at, bytes);
        self.beside.tell_of(rt, &submitted);
        submitted
    }

    fn finish<R: Wait>(
        &self,
        rt: &R,
        _pass: &mut (),
        job: JobShare,
        at: u64,
        outcome: Outcome,
    ) -> Result<Submitted, FinishError> {
        match self.append(rt, job.end(at), Answer::Done(outcome)) {
            Ok(submitted) => {
                drop(job);
                Ok(submitted)
            }
            Err(cause) => Err(FinishError { job, cause }),
        }
    }

    fn share<R: Wait>(&self, _rt: &R) -> Option<()> {
        Some(())
    }

    fn take_back<R: Wait>(&self, _rt: &R, _pass: ()) {}

    fn drained<R: Wait>(&self, rt: &R) -> bool {
        self.lock.lock(rt).drained()
    }

    fn draw(&self) -> u64 {
        self.beside.draw()
    }

    fn feed_to(&mut self, feed: Arc<JournalFeed, Global>) {
        self.beside.feed_to(feed);
    }

    fn end_feed<R: Wait>(&self, rt: &R) {
        let count = self.lock.lock(rt).events();
        self.beside.end_at(rt, count);
    }
}
