//! The entries of jobs that move without the lock.

ghost use Rattle.std.specs.Prelude.{◌≡◌, ◌+◌, ℕ, Some, IfErr, IfOk, OnErr, OnOk, true, if◌then◌else◌};
ghost use Rattle.ftp_events.specs.declared.event.Answer.TheVariants as answer;
ghost use Rattle.ftp_events.specs.EndRows.{can_move};
ghost use Rattle.ftp_shared.specs.Jobs.{behind};
ghost use Rattle.ftp_shared.specs.Next.{IsNextAt, IsPieceAt, end_of, is_moved, piece_of};

use crate::AppendError;
use crate::cut::Cut;
use crate::locked::{Locked, Serving};
use crate::receipt::{FinishError, JobShare, Submitted};
use crate::report::is_moved;
use crate::share::StepShare;
use ftp_events::{Answer, EventKind, HubEvent};

impl JobShare {
    // A piece of it.
    fn piece(&self, at: u64) -> HubEvent
        ensures { result ≡ piece_of self.now at }
    {
        let ticket = self.ticket();
        HubEvent {
            at,
            kind: EventKind::Piece { ticket },
        }
    }

    // Its end.
    pub(crate) fn end(&self, at: u64) -> HubEvent
        ensures { result ≡ end_of self.now at }
    {
        let ticket = self.ticket();
        HubEvent {
            at,
            kind: EventKind::End { ticket },
        }
    }
}

impl<L: Serving> Locked<L> {
    ghost use Rattle.ftp_shared.specs.Outbox.{outbox_of};

    /// Adds the entry of a piece of a job, of so many bytes, as `append` does. Where the job goes on its share comes back,
    /// with these bytes counted; else it is spent, and a job that starts with the entry comes in its place.
    ///
    /// # Proved
    ///
    /// - The job of a piece comes back exactly where the piece is counted, with its bytes; else what comes with it is
    ///   the job that starts with the entry, if one does, if the job moves a file, by 1 to 8,192 bytes (`job`, `back`;
    ///   also `JournalHub::piece`: `job`, `back`).
    pub fn append_piece(
        &mut self,
        share: &mut StepShare<L>,
        job: JobShare,
        at: u64,
        bytes: u64,
    ) -> Result<Submitted, FinishError>
        requires { can_move job bytes ≡ true }
        ensures next { IfOk result (λ s. IsNextAt L.options s.receipt (piece_of job at) (answer.Moved bytes)) }
        ensures job { IfOk result (λ s. IsPieceAt L.options s job at bytes) }
        ensures back { IfOk result (λ s. is_moved s.receipt.entry.decision ≡ true → s.job ≡ Some (behind job bytes)) }
        ensures share { OnOk result (share.new.count ≡ share.old.count + 1) }

        // An error is want of memory, gives the job back, and changes nothing.
        ensures only { IfErr result (λ e. e.cause ≡ AppendError.OutOfMemory) }
        ensures given_back { IfErr result (λ e. e.job ≡ job) }
        ensures same_journal { OnErr result (self.new.journal.entries ≡ self.old.journal.entries) }
        ensures same_outbox { OnErr result ((s : ℕ) → outbox_of self.new.outbox self.new.journal.entries s ≡ outbox_of self.old.outbox self.old.journal.entries s) }
        ensures same_share { OnErr result (share.new.count ≡ share.old.count) }
    {
        match self.append(share, job.piece(at), Answer::Moved { bytes }) {
            Ok(submitted) => Ok(handed_back(submitted, job, bytes)),
            Err(cause) => Err(FinishError { job, cause }),
        }
    }
}

impl<L: Serving> Cut<L> {
    ghost use Rattle.std.specs.Prelude.{◌-◌, ◌^◌, ◌↔◌, ◌≢◌};
    ghost use Rattle.ftp_hub.specs.Stands.{count_of};

    /// Adds the entry of a piece of a job, as `Locked::append_piece` does.
    ///
    /// # Proved
    ///
    /// - A job of which nothing can be told comes back, and the tail stays (`given_back`, `same_tail`); the end of the
    ///   count is told exactly where the hub has counted so many events (`exhausted`, `counted`).
    pub fn append_piece(
        &mut self,
        job: JobShare,
        at: u64,
        bytes: u64,
    ) -> Result<Submitted, FinishError>
        requires { can_move job bytes ≡ true }
        ensures next { IfOk result (λ s. IsNextAt L.options s.receipt (piece_of job at) (answer.Moved bytes)) }
        ensures job { IfOk result (λ s. IsPieceAt L.options s job at bytes) }
        ensures back { IfOk result (λ s. is_moved s.receipt.entry.decision ≡ true → s.job ≡ Some (behind job bytes)) }
        ensures counted { OnOk result (count_of self.old.hub ≢ 2 ^ 64 - 1) }
        ensures exhausted { IfErr result (λ e. (e.cause ≡ AppendError.Exhausted) ↔ (count_of self.old.hub ≡ 2 ^ 64 - 1)) }
        ensures given_back { IfErr result (λ e. e.job ≡ job) }
        ensures same_tail { OnErr result (self.new.tail.entries ≡ self.old.tail.entries) }
        ensures every { self.new.every ≡ self.old.every }
    {
        match self.append(job.piece(at), Answer::Moved { bytes }) {
            Ok(submitted) => Ok(handed_back(submitted, job, bytes)),
            Err(cause) => Err(FinishError { job, cause }),
        }
    }
}

// What was submitted, with the job where its piece was counted.
fn handed_back(submitted: Submitted, job: JobShare, bytes: u64) -> Submitted
    requires { can_move job bytes ≡ true }
    ensures receipt { result.receipt ≡ submitted.receipt }
    ensures job { result.job ≡ (if is_moved submitted.receipt.entry.decision then Some (behind job bytes) else submitted.job) }
{
    let is_counted = is_moved(submitted.receipt.entry.decision);
    let Submitted { receipt, job: next } = submitted;
    Submitted {
        receipt,
        job: job_behind(is_counted, job, bytes, next),
    }
}

// The job with its piece where that is counted, else the next one.
fn job_behind(
    is_counted: bool,
    job: JobShare,
    bytes: u64,
    next: Option<JobShare>,
) -> Option<JobShare>
    requires { can_move job bytes ≡ true }
    ensures { result ≡ (if is_counted then Some (behind job bytes) else next) }
{
    if is_counted {
        drop(next);
        Some(job.behind(bytes))
    } else {
        drop(job);
        next
    }
}
