//! One job, from its gate to its last entry in the journal.

ghost use Rattle.std.specs.Prelude.{◌≡◌, ◌+◌, ◌-◌, ◌<◌, ◌≤◌, ◌⊎◌, true, IfOk, IfErr, IfSome, OnOk, OnErr};
ghost use Rattle.ftp_events.specs.Leads.{views};
ghost use Rattle.ftp_transfer.specs.declared.job.Completion.TheVariants.{Written};
ghost use Rattle.ftp_shared.specs.Answers.{moved_in, outcome_in};
ghost use Rattle.ftp_shared.specs.Moments.{TakesMoments};
ghost use Rattle.ftp_shared.specs.Runs.{IsLastOf, RunsOn, StopsOn, IsUntouched, IsUntold, site};

use crate::report::{Reported, report};
use crate::{AppendError, FinishError, JobShare, JournalHub, Submitted};
use ftp_base::{Edge, Gate, Link, Storage};
use ftp_transfer::{PieceResult, execute_piece};
use std::alloc::Global;
use std::sync::Wait;

/// Passes the gate with the number of this call, moves the bytes of the job piece by piece, on this storage and this link,
/// and adds its end. A job that was to stop, of which a piece is told, is over with that entry.
///
/// Some pieces on the way are told too, so that long transfers are seen to go on. An error is that of the last entry, which
/// was not added, and gives the job back.
///
/// # Proved
///
/// - The last entry that a worker adds is the end of its job with an outcome, or a piece of it behind which it does not
///   go on; it is the next one of a right and acted journal, at its place, for its own moment and answer (`next`).
/// - An outcome is that of a run of this job on the storage and the link handed in, from what had moved before, and all
///   holds of it that `execute` says: what moved, what was left, why it ended, that it suits the command (`RunsOn` in
///   `ftp_shared/specs/Runs.antt`) (`runs`).
/// - An upload is told as `Written` only where the storage, told that it came whole, settled it (`settled`).
/// - At a piece a front of what such a run moves was moved, of at least the bytes that were told, and the link was
///   closed (`StopsOn`) (`stops`).
/// - Its moment is the last that was taken of the edge; at least one was taken for each entry, and nothing else
///   (`TakesMoments` in `ftp_shared/specs/Moments.antt`) (`moments`).
/// - A share counts one step more, or several (`share`, `kept_share`).
/// - An error gives the job back, with what was told. Either storage, link and edge are as they were; or the job was run,
///   all holds of it that `execute` says of some outcome, and a moment was taken for its end (`given_back`, `untold`).
///   The count is at its end only over a hub whose count can come there (`exhausted`).
pub fn serve_job<R: Wait, H: JournalHub, S: Storage, L: Link, G: Gate, E: Edge>(
    rt: &R,
    alloc: Global,
    hub: &H,
    pass: &mut H::Pass,
    job: JobShare,
    gate: &G,
    call: u64,
    storage: &mut S,
    link: &mut L,
    edge: &mut E,
) -> Result<Submitted, FinishError>
    ensures next { IfOk result (λ s. IsLastOf H.options job s.receipt) }

    // At its end the job was run, from the bytes that were moved before.
    ensures runs { IfOk result (λ s. IfSome (outcome_in s.receipt.entry.answer) (λ outcome.
        RunsOn (site (views S.files S.rule S.faults S.fault_limit S.calls L.left L.sending L.faults L.fault_limit L.calls) S.reads_take_memory L.takes_memory)
        job outcome storage.old storage.new link.old link.new)) }

    // At a piece a front of what such a run moves was moved.
    ensures stops { IfOk result (λ s. IfSome (moved_in s.receipt.entry.answer) (λ told.
        StopsOn (site (views S.files S.rule S.faults S.fault_limit S.calls L.left L.sending L.faults L.fault_limit L.calls) S.reads_take_memory L.takes_memory)
        job told storage.old storage.new link.old link.new)) }
    ensures settled { IfOk result (λ s. IfSome (outcome_in s.receipt.entry.answer) (λ outcome.
        outcome.result ≡ Written → S.is_settled storage.new ≡ true)) }
    ensures moments { IfOk result (λ s. TakesMoments (E.view edge.old) (E.view edge.new) (H.made pass.new - H.made pass.old) s.receipt.entry.event.at) }
    ensures share { H.counts ≡ true → OnOk result (H.made pass.old < H.made pass.new) }

    // An error gives the job back. Nothing was begun, or the job was run and no entry tells what became of it.
    ensures given_back { IfErr result (λ e. (e.job ≡ record job { done = e.job.done }) × (job.done ≤ e.job.done)) }
    ensures exhausted { IfErr result (λ e. e.cause ≡ AppendError.Exhausted → H.exhausts ≡ true) }
    ensures kept_share { H.made pass.old ≤ H.made pass.new }
    ensures untold { OnErr result (IsUntouched storage.old storage.new link.old link.new edge.old edge.new
        ⊎ IsUntold (site (views S.files S.rule S.faults S.fault_limit S.calls L.left L.sending L.faults L.fault_limit L.calls) S.reads_take_memory L.takes_memory)
        job storage.old storage.new link.old link.new (E.view edge.old) (E.view edge.new) (H.made pass.new - H.made pass.old)) }
{
    let Ok(copy) = job.job(alloc) else {
        return Err(FinishError {
            job,
            cause: AppendError::OutOfMemory,
        });
    };
    gate.pass(call);
    let mut next = copy;
    let mut job = job;
    let mut count: u64 = 0;
    'pieces: loop {
        match execute_piece(alloc, &mut next, storage, link) {
            PieceResult::Ended(outcome) => {
                drop(next);
                let at = edge.now();
                return hub.finish(rt, pass, job, at, outcome);
            }
            PieceResult::More { bytes: _ } => {
                count += 1;
                match report(rt, hub, pass, job, next.done, count, edge) {
                    Reported::GoesOn(told) => job = told,
                    Reported::Over(submitted) => {
                        drop(next);
                        drop(link.close());
                        return Ok(submitted);
                    }
                }
            }
        }
    }
}
