//! RETR (RFC 959, section 4.1.3): a file goes to the link, from a place on.

ghost use Rattle.std.specs.Prelude.{◌≡◌, ◌+◌, ◌-◌, ◌^◌, ◌<◌, ◌≤◌, true, false, length, Some, None, IsSome, IsNone, IfSome, IfOk, IsErrOf};
ghost use Rattle.ftp_base.specs.declared.error_kind.ErrorKind.TheVariants as kind;
ghost use Rattle.ftp_base.specs.Calls.{AllWell};
ghost use Rattle.ftp_base.specs.Kept.{StorageKept, OnlySends};
ghost use Rattle.ftp_base.specs.Memory.{StorageMet};
ghost use Rattle.ftp_base.specs.Outside.{HasRisen};
ghost use Rattle.ftp_base.specs.Storage.{Answers, ReadAt, ReadsFrom, meaning_of, get, old_bytes};
ghost use Rattle.ftp_transfer.specs.declared.job.Completion.TheVariants as done;
ghost use Rattle.ftp_transfer.specs.Ran.{IsDone};
ghost use Rattle.ftp_transfer.specs.Turn.{StopsSending, result_of, fault_of};
ghost use Rattle.ftp_transfer.specs.Run.{LinkRose, StorageRose, StorageWent, SendsFront, Caused, RefusedFirst, read_place};
ghost use Rattle.ftp_transfer.specs.Transfer.{is_retrieve, suits};

use crate::job::{Completion, Job};
use crate::send::send;
use crate::turn::{PIECE_LEN, Room, Turn, piece_room, stopped_by};
use ftp_base::{ErrorKind, Failed, Link, Storage, StoreError};

/// Sends what one read of the file gives, from where earlier pieces ended; past the end what the link gathered.
pub fn retrieve<S: Storage, L: Link>(
    job: &Job,
    out: &mut Room,
    storage: &mut S,
    link: &mut L,
) -> Turn
    requires command { is_retrieve job.now.command ≡ true }

    ensures some { IsNone result.end → 0 < result.bytes }
    ensures within { result.bytes ≤ PIECE_LEN }
    ensures in_range { job.now.done + result.bytes < 2 ^ 64 }
    ensures sent { IfSome (S.files storage.old) (λ f.
        SendsFront (get (old_bytes f job.now.path) (job.now.offset + job.now.done)) result.bytes (L.sending link.old).sent (L.sending link.new).sent) }
    ensures whole { result_of result.end ≡ done.Sent →
        IfSome (S.files storage.old) (λ f. result.bytes ≡ length (get (old_bytes f job.now.path) (job.now.offset + job.now.done))) }
    ensures countable { IsDone (result_of result.end) → job.now.done + result.bytes < 2 ^ 64 - 1 }

    ensures suits { suits (result_of result.end) job.now.command ≡ true }
    ensures cause { Caused (done.Refused kind.ConnectionClosed)
        (LinkRose (L.faults link.old) (L.faults link.new) (L.calls link.old) (L.calls link.new) (L.sending link.new).last_fault) (L.sending link.old).last_fault (L.sending link.new).last_fault
        (StorageRose (S.faults storage.old) (S.faults storage.new) (S.calls storage.old) (S.calls storage.new))
        (λ k. IsSome (S.files storage.old) →
        meaning_of (S.rule storage.old) (S.files storage.old) (ReadAt job.now.user job.now.path (read_place job.now.offset (job.now.done + result.bytes))) ≡ Some k)
        (job.now.done + result.bytes) (result_of result.end) (fault_of result.end) }
    ensures refused { IsSome (S.files storage.old) → IfSome (meaning_of (S.rule storage.old) (S.files storage.old) (ReadAt job.now.user job.now.path (read_place job.now.offset job.now.done)))
        (λ k. RefusedFirst (StorageRose (S.faults storage.old) (S.faults storage.new) (S.calls storage.old) (S.calls storage.new)) k result.bytes (result_of result.end)) }
    ensures unrefused { result_of result.end ≡ done.Sent → IsSome (S.files storage.old) →
        meaning_of (S.rule storage.old) (S.files storage.old) (ReadAt job.now.user job.now.path (read_place job.now.offset (job.now.done + result.bytes))) ≡ None }
    ensures no_memory { S.reads_take_memory ≡ false → L.takes_memory ≡ false → IfSome result.end (λ e. e.result ≡ done.OutOfMemory → ⊥) }

    ensures files { S.files storage.new ≡ S.files storage.old }
    ensures storage_kept { StorageKept S.rule S.faults S.fault_limit storage.old storage.new }
    ensures only_sends { OnlySends L.left L.sending L.faults L.fault_limit link.old link.new }
    ensures storage_well { StorageWent (S.calls storage.old) (S.calls storage.new) (result_of result.end) }
    ensures link_well { fault_of result.end ≡ None → AllWell (λ call. call.0) (L.calls link.old) (L.calls link.new) }
{
    let room = piece_room(job.done);
    match read_next(job, &mut out[..room], storage) {
        Ok(0) if room == 0 => Turn::last(0, Completion::Refused(ErrorKind::LocalError), None),
        Ok(0) => match link.flush() {
            Ok(()) => Turn::last(0, Completion::Sent, None),
            Err(_) => Turn::last(
                0,
                Completion::Refused(ErrorKind::ConnectionClosed),
                link.last_fault(),
            ),
        },
        Ok(n) => send_read(link, &out[..n]),
        Err(error) => Turn::last(0, stopped_by(error), None),
    }
}

/// Reads what stands in the file behind what earlier pieces sent.
fn read_next<S: Storage>(job: &Job, out: &mut [u8], storage: &mut S) -> Result<usize, StoreError>
    ensures within { IfOk result (λ n. n ≤ length out.new) }
    ensures same_length { length out.new ≡ length out.old }
    ensures read { IfOk result (λ n. IfSome (S.files storage.old) (λ f.
        ReadsFrom (job.now.offset + job.now.done) n out.new (old_bytes f job.now.path))) }
    ensures refused { Answers (S.files storage.old) (meaning_of (S.rule storage.old) (S.files storage.old) (ReadAt job.now.user job.now.path (read_place job.now.offset job.now.done))) result }
    ensures fault_rose { IsErrOf result StoreError.Failed → HasRisen (S.faults storage.old) (S.faults storage.new) }
    ensures unlisted { (IsErrOf result StoreError.Failed → ⊥) → AllWell (λ call. call) (S.calls storage.old) (S.calls storage.new) }
    ensures as_listed { IsErrOf result StoreError.Failed → StorageMet (S.calls storage.old) (S.calls storage.new) }
    ensures takes_memory { IsErrOf result StoreError.OutOfMemory → S.reads_take_memory ≡ true }
    ensures unchanged { S.files storage.new ≡ S.files storage.old }
    ensures storage_kept { StorageKept S.rule S.faults S.fault_limit storage.old storage.new }
{
    let place = job.offset.saturating_add(job.done);
    storage.read_at(&job.user, &job.path, place, out)
}

/// Sends what was read of the file.
fn send_read<L: Link>(link: &mut L, bytes: &[u8]) -> Turn
    requires some { 0 < length bytes.now }

    ensures some { IsNone result.end → 0 < result.bytes }
    ensures sent { SendsFront bytes.now result.bytes (L.sending link.old).sent (L.sending link.new).sent }
    ensures end { StopsSending
        (LinkRose (L.faults link.old) (L.faults link.new) (L.calls link.old) (L.calls link.new) (L.sending link.new).last_fault) (L.sending link.old).last_fault (L.sending link.new).last_fault
        (result_of result.end) (fault_of result.end) }
    ensures no_memory { L.takes_memory ≡ false → IfSome result.end (λ e. e.result ≡ done.OutOfMemory → ⊥) }
    ensures only_sends { OnlySends L.left L.sending L.faults L.fault_limit link.old link.new }
    ensures link_well { fault_of result.end ≡ None → AllWell (λ call. call.0) (L.calls link.old) (L.calls link.new) }
{
    let sending = send(link, bytes);
    let sent = sending.sent as u64;
    match sending.stopped {
        None => Turn::more(sent),
        Some(Failed::Fault) => Turn::last(
            sent,
            Completion::Refused(ErrorKind::ConnectionClosed),
            link.last_fault(),
        ),
        Some(Failed::Memory) => Turn::last(sent, Completion::OutOfMemory, None),
    }
}
