//! The desk, with the storage that it asks and the jobs that wait to be run.

ghost use Rattle.std.specs.Prelude.{◌≡◌, ◌<◌, ◌++◌, option_to_list};
ghost use Rattle.std.specs.VecDeque.{deque_len, deque_capacity};
ghost use Rattle.ftp_events.specs.Log.{past_of};
ghost use Rattle.ftp_shared.specs.Desk.{greatest};

use crate::number::{counted_number, larger};
use crate::shown::ShowsDirectories;
use crate::{
    AppendError, Desk, JobShare, Locked, Receipt, Serving, StepShare, Submitted, Told, Turn,
};
use ftp_base::{Bytes, ErrorKind, Storage, StoreError};
use ftp_events::{Answer, HubEvent};
use ftp_options::Options;
use std::alloc::{AllocError, Global};
use std::collections::VecDeque;
use std::sync::ledger::{Book, Share};

/// A locked hub with one share of its steps, a storage, and the shares of the jobs that started.
#[derive(Drop)]
pub struct SoloDesk<L: Serving, S: Storage + Drop> {
    locked: Locked<L>,
    share: StepShare<L>,
    storage: S,
    jobs: VecDeque<JobShare>,
    newest: Option<u64>,
    refused: u64,
    ghost numbered: { newest ≡ greatest (past_of locked.journal.entries) },
}

impl<L: Serving, S: Storage + Drop> SoloDesk<L, S> {
    ghost use Rattle.std.specs.Prelude.{◌≡◌, ℕ, ◌<◌, [], ◌++◌, IsNone, option_to_list};
    ghost use Rattle.ftp_shared.specs.Outbox.{outbox_of};

    /// A desk to which nothing was submitted, with an empty journal. It takes no memory.
    ///
    /// The book has counted no step, and the share has every part, of which there are so many: one stays with the hub, and
    /// one is the desk's.
    ///
    /// # Proved
    ///
    /// - A new desk has an empty journal and empty outboxes, its share counts no step, and no job waits, if the options
    ///   are the server's; the book counts no step; the share has all parts, of which there are two at least
    ///   (`journal`, `outbox`, `share`, `storage`, `jobs`).
    pub fn new(
        alloc: Global,
        options: Options,
        storage: S,
        steps: Book<L>,
        parts: Share<L>,
        count: u64,
    ) -> SoloDesk<L, S>
        requires options { options ≡ L.options }
        requires none { steps.total ≡ 0 }
        requires some { 1 < count }
        requires all { parts.parts ≡ count }
        requires fresh { parts.amount ≡ 0 }
        ensures journal { result.locked.journal.entries ≡ [] }
        ensures outbox { (s : ℕ) → outbox_of result.locked.outbox result.locked.journal.entries s ≡ [] }
        ensures share { result.share.count ≡ 0 }
        ensures storage { result.storage ≡ storage }
        ensures jobs { result.jobs.items ≡ [] }
    {
        let mut locked = Locked::new(alloc, options, steps, parts, count);
        let Some(share) = locked.share() else {
            unreachable!()
        };
        SoloDesk {
            locked,
            share,
            storage,
            jobs: VecDeque::new(alloc),
            newest: None,
            refused: 0,
        }
    }

    /// Takes out the share of the job that started first of those that were not taken out.
    ///
    /// # Proved
    ///
    /// - The jobs that started are taken out in their order, and nothing else changes (`taken`, `none`, `journal`,
    ///   `outbox`, `share`, `storage`).
    pub fn take_job(&mut self) -> Option<JobShare>
        ensures taken { self.old.jobs.items ≡ option_to_list result ++ self.new.jobs.items }
        ensures none { IsNone result → self.old.jobs.items ≡ [] }
        ensures journal { self.new.locked.journal.entries ≡ self.old.locked.journal.entries }
        ensures outbox { (s : ℕ) → outbox_of self.new.locked.outbox self.new.locked.journal.entries s ≡ outbox_of self.old.locked.outbox self.old.locked.journal.entries s }
        ensures share { self.new.share.count ≡ self.old.share.count }
        ensures storage { self.new.storage ≡ self.old.storage }
    {
        self.jobs.pop_front()
    }
}

// What is told of a turn. The share of the job that starts goes behind the others, for which there is room.
fn told(turn: Turn, jobs: &mut VecDeque<JobShare>) -> Told
    requires { deque_len jobs.old < deque_capacity jobs.old }
    ensures earlier { result.earlier ≡ turn.earlier }
    ensures entry { result.entry ≡ turn.submitted.receipt.entry }
    ensures jobs { jobs.new.items ≡ jobs.old.items ++ option_to_list turn.submitted.job }
{
    let Turn { earlier, submitted } = turn;
    let Submitted { receipt, job } = submitted;
    let Receipt { place: _, entry } = receipt;
    keep(jobs, job);
    Told { earlier, entry }
}

// Puts the share of a job behind the others, where one started and there is room.
fn keep(jobs: &mut VecDeque<JobShare>, job: Option<JobShare>)
    requires { deque_len jobs.old < deque_capacity jobs.old }
    ensures { jobs.new.items ≡ jobs.old.items ++ option_to_list job }
{
    if let Some(job) = job {
        jobs.push_back_reserved(job);
    }
}

impl<L: Serving, S: ShowsDirectories + Drop> Desk for SoloDesk<L, S> {
    ghost use Rattle.std.specs.Prelude.{Some, false, true};
    ghost use Rattle.ftp_shared.specs.Outbox.{outbox_of};

    ghost view = { λ d. record {
      options = L.options;
      files = S.files d.storage;
      faults = S.faults d.storage;
      refused = d.refused;
      journal = Some d.locked.journal.entries;
      outbox = λ s. outbox_of d.locked.outbox d.locked.journal.entries s;
      share = Some d.share.count;
    } };

    ghost vouches = { true };

    ghost draws_next = { true };

    ghost exhausts = { false };

    fn options(&self) -> &Options {
        self.locked.options()
    }

    fn submit(&mut self, event: HubEvent, answer: Answer) -> Result<Told, AppendError> {
        let Ok(()) = self.jobs.reserve(1) else {
            drop(event);
            drop(answer);
            self.refused = self.refused.saturating_add(1);
            return Err(AppendError::OutOfMemory);
        };
        let Ok(turn) = self.locked.append_for(&mut self.share, event, answer) else {
            self.refused = self.refused.saturating_add(1);
            return Err(AppendError::OutOfMemory);
        };
        self.newest = larger(counted_number(&turn.submitted.receipt.entry), self.newest);
        Ok(told(turn, &mut self.jobs))
    }

    fn draw(&mut self) -> u64 {
        match self.newest {
            Some(n) => n.wrapping_add(1),
            None => 0,
        }
    }

    fn directory(&mut self, user: &Bytes, path: &Bytes) -> Result<Option<ErrorKind>, AllocError> {
        match self.storage.metadata(user, path) {
            Ok(meta) => {
                if meta.is_dir {
                    Ok(None)
                } else {
                    Ok(Some(ErrorKind::PermanentDirectoryNotAvailable))
                }
            }
            Err(StoreError::Kind(_)) => Ok(Some(ErrorKind::PermanentDirectoryNotAvailable)),
            Err(StoreError::Failed) => Ok(Some(ErrorKind::LocalError)),
            Err(StoreError::OutOfMemory) => Err(AllocError),
        }
    }
}
