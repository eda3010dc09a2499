//! Runs a job on its storage and its link, whole or piece by piece.

ghost use Rattle.std.specs.Prelude.{◌≡◌, ◌+◌, ◌-◌, ◌<◌, ◌≤◌, ◌^◌, true, false, IsSome, IsNone, IfSome};
ghost use Rattle.ftp_base.specs.Kept.{CountsOn};
ghost use Rattle.ftp_transfer.specs.declared.job.Completion.TheVariants as done;
ghost use Rattle.ftp_transfer.specs.Ran.{told, told_by, Moves, Ran, RanPiece, IsClean, IsDone, next_job};
ghost use Rattle.ftp_transfer.specs.Run.{TakesFront};
ghost use Rattle.ftp_transfer.specs.Transfer.{is_listing, is_retrieve, is_store, suits, IfEnded};
ghost use Rattle.ftp_transfer.specs.Turn.{result_of, fault_of};

use crate::job::{Job, Outcome, PieceResult};
use crate::list::list;
use crate::retrieve::retrieve;
use crate::store::{append, fill, store};
use crate::turn::{PIECE_LEN, Room, Turn};
use ftp_base::{DataChanCmd, Link, Storage};
use std::alloc::Global;

/// Moves the bytes of a job from where earlier pieces ended, and closes the link at the end; what that close meets changes
/// nothing in the outcome.
///
/// # Proved
///
/// - RETR sends the file from the offset on, and LIST, NLST and MLSD the directory's lines: a front of them, the whole
///   where the result is `Sent` or `Listed` (`ran`).
/// - STOR stores from the offset on, and APPE behind the file, a front of what the link gave, the whole where the
///   result is `Written` (`ran`).
/// - A store sends nothing, and every other command stores and takes nothing (`ran`).
/// - A store leaves the storage's rule as that rule says of the file that it begins, and begins it, unless its first call
///   is refused, the storage fails or memory runs out; every other command leaves the rule (`ran`).
/// - Each result by its cause: a read or write of the link failed, before the link was closed, which a listing tells as
///   `WriteFailed` and every other command as `ConnectionClosed`; the storage failed, or refused by the rule that the
///   job met, at the files as they then were; or want of memory. The fault is the link's last one where its read or
///   write failed, and otherwise there is none, and the link's last fault is as before (`ran`).
/// - Where the link tells its calls: the fault of an outcome is one that its list names for the last call before the
///   close, and no call before that one was listed; without a fault no call before the close was listed (`ran`).
/// - Where the storage tells its calls: none of them was listed, or the last one failed as listed and the result is a
///   local error (`ran`).
/// - A transfer that is done moved fewer than 2^64 - 1 bytes: a count that stands at its end is a local error (`ran`).
/// - A refusal of the first call is the result, and nothing is stored, unless that call failed or memory ran out; NLST
///   turns each into one kind (`ran`).
/// - A RETR answers `Sent` only where the storage refuses no read at the end of what was sent (`ran`).
/// - Where the storage refuses to append what a store took of the link last, that refusal is the result, unless that
///   call failed or memory ran out; and no other piece's refusal is (`ran`).
/// - Afterwards the link is closed, or its close failed and it is as open as before; where it tells its calls, no call
///   of the close was listed in the first case, and its last call was in the second; what the close met is not in the
///   outcome (`ran`).
/// - The result suits the command (`suits`).
/// - A job of which the storage's rule refuses no call, of which no call but the link's close fails, and for which
///   memory is found, is done (`complete`).
/// - No count of faults falls, and no limit of faults rises (`storage_counts`, `link_counts`).
/// - RETR answers want of memory only where the storage's reads or the link's writes may (`no_memory`).
/// - An upload is told as `Written` only where the storage, told that it came whole, settled it (`settled`).
pub fn execute<S: Storage, L: Link>(
    alloc: Global,
    job: Job,
    storage: &mut S,
    link: &mut L,
) -> Outcome
    ensures ran { Ran job
        (told (S.files storage.old) (S.rule storage.old) (S.faults storage.old) (S.calls storage.old)
        (L.left link.old) (L.sending link.old) (L.faults link.old) (L.calls link.old))
        (told (S.files storage.new) (S.rule storage.new) (S.faults storage.new) (S.calls storage.new)
        (L.left link.new) (L.sending link.new) (L.faults link.new) (L.calls link.new))
        result }
    ensures suits { suits result.result job.command ≡ true }

    // A job of which the storage's rule refuses no call, where nothing fails and memory is found, is done.
    ensures complete { IsClean job
        (told (S.files storage.old) (S.rule storage.old) (S.faults storage.old) (S.calls storage.old)
        (L.left link.old) (L.sending link.old) (L.faults link.old) (L.calls link.old))
        (told (S.files storage.new) (S.rule storage.new) (S.faults storage.new) (S.calls storage.new)
        (L.left link.new) (L.sending link.new) (L.faults link.new) (L.calls link.new))
        result → IsDone result.result }
    ensures no_memory { is_retrieve job.command ≡ true → S.reads_take_memory ≡ false → L.takes_memory ≡ false → result.result ≡ done.OutOfMemory → ⊥ }
    ensures settled { result.result ≡ done.Written → S.is_settled storage.new ≡ true }
    ensures storage_counts { CountsOn S.faults S.fault_limit storage.old storage.new }
    ensures link_counts { CountsOn L.faults L.fault_limit link.old link.new }
{
    let outcome = run(alloc, job, storage, link);
    let _ = link.close();
    outcome
}

/// Moves the bytes of a job by one read of its file or of its link, or a listing whole. Where more may come `done` is raised,
/// and the link is left as it is; otherwise the transfer ends as by `execute`.
///
/// # Proved
///
/// - A piece of a RETR, a STOR or an APPE moves what such a turn moves of what is left behind earlier pieces, and
///   leaves the link as open as before; the job then counts its bytes (`Went` in `ftp_transfer/specs/Ran.antt`). Or it
///   ends the transfer, and then all holds that `execute` says (`ran`, `raised`, `suits`, `complete`, `no_memory`,
///   `settled`, `storage_counts`, `link_counts`).
pub fn execute_piece<S: Storage, L: Link>(
    alloc: Global,
    job: &mut Job,
    storage: &mut S,
    link: &mut L,
) -> PieceResult
    ensures ran { RanPiece job.old
        (told (S.files storage.old) (S.rule storage.old) (S.faults storage.old) (S.calls storage.old)
        (L.left link.old) (L.sending link.old) (L.faults link.old) (L.calls link.old))
        (told (S.files storage.new) (S.rule storage.new) (S.faults storage.new) (S.calls storage.new)
        (L.left link.new) (L.sending link.new) (L.faults link.new) (L.calls link.new))
        result }
    ensures raised { job.new ≡ next_job job.old result }
    ensures suits { IfEnded result (λ o. suits o.result job.old.command ≡ true) }
    ensures complete { IfEnded result (λ o. IsClean job.old
        (told (S.files storage.old) (S.rule storage.old) (S.faults storage.old) (S.calls storage.old)
        (L.left link.old) (L.sending link.old) (L.faults link.old) (L.calls link.old))
        (told (S.files storage.new) (S.rule storage.new) (S.faults storage.new) (S.calls storage.new)
        (L.left link.new) (L.sending link.new) (L.faults link.new) (L.calls link.new))
        o → IsDone o.result) }
    ensures no_memory { is_retrieve job.old.command ≡ true → S.reads_take_memory ≡ false → L.takes_memory ≡ false → IfEnded result (λ o. o.result ≡ done.OutOfMemory → ⊥) }
    ensures settled { IfEnded result (λ o. o.result ≡ done.Written → S.is_settled storage.new ≡ true) }
    ensures storage_counts { CountsOn S.faults S.fault_limit storage.old storage.new }
    ensures link_counts { CountsOn L.faults L.fault_limit link.old link.new }
{
    let mut buffer = [0; PIECE_LEN];
    let turn = take_turn(alloc, job, &mut buffer, storage, link);
    match turn.end {
        None => {
            job.done += turn.bytes;
            PieceResult::More { bytes: turn.bytes }
        }
        Some(end) => {
            let _ = link.close();
            PieceResult::Ended(end.outcome(job.done + turn.bytes))
        }
    }
}

/// Moves the bytes of a job from where earlier pieces ended, a piece after another.
fn run<S: Storage, L: Link>(alloc: Global, job: Job, storage: &mut S, link: &mut L) -> Outcome
    ensures counted { job.done ≤ result.bytes }
    ensures moves { Moves job
        (told_by S.files S.rule S.faults S.calls L.left L.sending L.faults L.calls storage.old link.old)
        (told_by S.files S.rule S.faults S.calls L.left L.sending L.faults L.calls storage.new link.new)
        (result.bytes - job.done) result.result result.fault }
    ensures suits { suits result.result job.command ≡ true }
    ensures no_memory { is_retrieve job.command ≡ true → S.reads_take_memory ≡ false → L.takes_memory ≡ false → result.result ≡ done.OutOfMemory → ⊥ }
    ensures settled { result.result ≡ done.Written → S.is_settled storage.new ≡ true }
    ensures storage_counts { CountsOn S.faults S.fault_limit storage.old storage.new }
    ensures closed { (L.sending link.new).closed ≡ (L.sending link.old).closed }
    ensures link_counts { CountsOn L.faults L.fault_limit link.old link.new }
{
    let mut buffer = [0; PIECE_LEN];
    let mut next = job;
    'pieces: loop {
        let turn = take_turn(alloc, &next, &mut buffer, storage, link);
        match turn.end {
            None => next.done += turn.bytes,
            Some(end) => return end.outcome(next.done + turn.bytes),
        }
    }
}

/// Moves the next piece of a job.
///
/// # Proved
///
/// - Each turn of a RETR and of a store, a read and what follows it, moves a byte or more and 8,192 at most, or is the
///   last of its transfer (inside `ftp_transfer`) (`some`, `short`).
fn take_turn<S: Storage, L: Link>(
    alloc: Global,
    job: &Job,
    out: &mut Room,
    storage: &mut S,
    link: &mut L,
) -> Turn
    ensures moves { Moves job.now
        (told_by S.files S.rule S.faults S.calls L.left L.sending L.faults L.calls storage.old link.old)
        (told_by S.files S.rule S.faults S.calls L.left L.sending L.faults L.calls storage.new link.new)
        result.bytes (result_of result.end) (fault_of result.end) }
    ensures in_range { job.now.done + result.bytes < 2 ^ 64 }
    ensures some { IsNone result.end → 0 < result.bytes }
    ensures short { IsNone result.end → result.bytes ≤ PIECE_LEN }
    ensures goes_on { IsNone result.end → is_listing job.now.command ≡ false }
    ensures taken { IsNone result.end → is_store job.now.command ≡ true → IfSome (L.left link.old) (λ l. TakesFront l (L.left link.new) result.bytes) }
    ensures told { IsSome (S.files storage.old) → IsSome (S.files storage.new) }
    ensures suits { suits (result_of result.end) job.now.command ≡ true }
    ensures no_memory { is_retrieve job.now.command ≡ true → S.reads_take_memory ≡ false → L.takes_memory ≡ false → IfSome result.end (λ e. e.result ≡ done.OutOfMemory → ⊥) }
    ensures settled { result_of result.end ≡ done.Written → S.is_settled storage.new ≡ true }
    ensures storage_counts { CountsOn S.faults S.fault_limit storage.old storage.new }
    ensures closed { (L.sending link.new).closed ≡ (L.sending link.old).closed }
    ensures link_counts { CountsOn L.faults L.fault_limit link.old link.new }
{
    match &job.command {
        DataChanCmd::Retr { .. } => retrieve(job, out, storage, link),
        DataChanCmd::Stor { .. } if job.done == 0 => store(job, job.offset, out, storage, link),
        DataChanCmd::Appe { .. } if job.done == 0 => append(job, out, storage, link),
        DataChanCmd::Stor { .. } => fill(job, out, storage, link),
        DataChanCmd::Appe { .. } => fill(job, out, storage, link),
        DataChanCmd::List { .. } => list(alloc, job, storage, link),
        DataChanCmd::Nlst { .. } => list(alloc, job, storage, link),
        DataChanCmd::Mlsd { .. } => list(alloc, job, storage, link),
    }
}
