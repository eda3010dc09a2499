//! STOR and APPE (RFC 959, section 4.1.3): what the link gives goes to the end of a file.

ghost use Rattle.std.specs.Prelude.{◌≡◌, ◌⊎◌, ◌≢◌, ◌+◌, ◌-◌, ◌^◌, ◌<◌, ◌≤◌, true, [], length, drop, Some, None, IsSome, IsNone, IfSome};
ghost use Rattle.std.specs.Option.{option_map};
ghost use Rattle.ftp_base.specs.declared.error_kind.ErrorKind.TheVariants as kind;
ghost use Rattle.ftp_base.specs.Calls.{AllWell};
ghost use Rattle.ftp_base.specs.Kept.{CountsOn, StorageKept, OnlyReads};
ghost use Rattle.ftp_base.specs.Storage.{Begin, Append, once_begun, meaning_of, Grows, old_bytes};
ghost use Rattle.ftp_transfer.specs.declared.job.Completion.TheVariants as done;
ghost use Rattle.ftp_transfer.specs.Ran.{IsDone};
ghost use Rattle.ftp_transfer.specs.Run.{NotBegun, LinkRose, StorageRose, StorageWent, Caused, EndsRefused, RefusedFirst, RefusedLast, GrowsFront, RefusesAppend, TakesFront, Stores, RefusesStore, Appends, RefusesAppe, append_refusal};
ghost use Rattle.ftp_transfer.specs.Transfer.{is_store, suits};
ghost use Rattle.ftp_transfer.specs.Turn.{StopsStoring, Took, start_after, result_of, fault_of};

use crate::job::{Completion, Job};
use crate::turn::{PIECE_LEN, Room, Turn, piece_room, stopped_by};
use ftp_base::{ErrorKind, Link, Meta, Storage, StoreError};

/// Begins a file at a place, and puts there what one read of the link gives.
pub fn store<S: Storage, L: Link>(
    job: &Job,
    start: u64,
    out: &mut Room,
    storage: &mut S,
    link: &mut L,
) -> Turn
    requires command { is_store job.now.command ≡ true }
    requires first { job.now.done ≡ 0 }

    ensures took { Took job.now (L.left link.old) (L.left link.new) result }
    ensures told { IsSome (S.files storage.old) → IsSome (S.files storage.new) }
    ensures stored { IfSome (S.files storage.old) (λ f. IfSome (L.left link.old) (λ l.
        Stores f (S.files storage.new) job.now.path start l result.bytes (result_of result.end) (fault_of result.end))) }

    ensures settled { result_of result.end ≡ done.Written → S.is_settled storage.new ≡ true }
    ensures cause { Caused (done.Refused kind.ConnectionClosed)
        (LinkRose (L.faults link.old) (L.faults link.new) (L.calls link.old) (L.calls link.new) (L.sending link.new).last_fault) (L.sending link.old).last_fault (L.sending link.new).last_fault
        (StorageRose (S.faults storage.old) (S.faults storage.new) (S.calls storage.old) (S.calls storage.new))
        (λ k. IfSome (S.files storage.old) (λ f. RefusesStore (S.rule storage.old) job.now.user f (S.files storage.new) job.now.path start
        (L.left link.old) (L.left link.new) result.bytes k))
        (job.now.done + result.bytes) (result_of result.end) (fault_of result.end) }
    ensures refused { IfSome (S.files storage.old) (λ f. IfSome (S.rule storage.old [] f (Begin job.now.user job.now.path start))
        (λ k. RefusedFirst (StorageRose (S.faults storage.old) (S.faults storage.new) (S.calls storage.old) (S.calls storage.new)) k result.bytes (result_of result.end) × (S.files storage.new ≡ Some f) × (L.left link.new ≡ L.left link.old))) }
    ensures refused_last { IsSome (S.files storage.old) →
        RefusedLast (StorageRose (S.faults storage.old) (S.faults storage.new) (S.calls storage.old) (S.calls storage.new)) (meaning_of (once_begun (job.now.user, job.now.path) (S.rule storage.old)) (S.files storage.new)) job.now.user job.now.path
        (option_map (drop result.bytes) (L.left link.old)) (L.left link.new) (result_of result.end) }

    ensures owned { (S.rule storage.new ≡ once_begun (job.now.user, job.now.path) (S.rule storage.old))
        ⊎ ((S.rule storage.new ≡ S.rule storage.old) × NotBegun result.bytes (result_of result.end) (fault_of result.end)) }
    ensures begins { (StorageRose (S.faults storage.old) (S.faults storage.new) (S.calls storage.old) (S.calls storage.new) → ⊥) →
        (result_of result.end ≡ done.OutOfMemory → ⊥) →
        IfSome (S.files storage.old) (λ f. S.rule storage.old [] f (Begin job.now.user job.now.path start) ≡ None →
        S.rule storage.new ≡ once_begun (job.now.user, job.now.path) (S.rule storage.old)) }
    ensures storage_counts { CountsOn S.faults S.fault_limit storage.old storage.new }
    ensures only_reads { OnlyReads L.sending L.faults L.fault_limit link.old link.new }
    ensures storage_well { StorageWent (S.calls storage.old) (S.calls storage.new) (result_of result.end) }
    ensures link_well { fault_of result.end ≡ None → AllWell (λ call. call.0) (L.calls link.old) (L.calls link.new) }
{
    match storage.begin(&job.user, &job.path, start) {
        Ok(()) => fill(job, out, storage, link),
        Err(error) => Turn::last(0, stopped_by(error), None),
    }
}

/// Begins behind a file, and puts there what one read of the link gives.
pub fn append<S: Storage, L: Link>(job: &Job, out: &mut Room, storage: &mut S, link: &mut L) -> Turn
    requires command { is_store job.now.command ≡ true }
    requires first { job.now.done ≡ 0 }

    ensures took { Took job.now (L.left link.old) (L.left link.new) result }
    ensures told { IsSome (S.files storage.old) → IsSome (S.files storage.new) }
    ensures stored { IfSome (S.files storage.old) (λ f. IfSome (L.left link.old) (λ l.
        Appends (S.rule storage.old [] f) job.now.user f (S.files storage.new) job.now.path l result.bytes (result_of result.end) (fault_of result.end))) }

    ensures settled { result_of result.end ≡ done.Written → S.is_settled storage.new ≡ true }
    ensures cause { Caused (done.Refused kind.ConnectionClosed)
        (LinkRose (L.faults link.old) (L.faults link.new) (L.calls link.old) (L.calls link.new) (L.sending link.new).last_fault) (L.sending link.old).last_fault (L.sending link.new).last_fault
        (StorageRose (S.faults storage.old) (S.faults storage.new) (S.calls storage.old) (S.calls storage.new))
        (λ k. IfSome (S.files storage.old) (λ f. RefusesAppe (S.rule storage.old) job.now.user f (S.files storage.new) job.now.path
        (L.left link.old) (L.left link.new) result.bytes k))
        (job.now.done + result.bytes) (result_of result.end) (fault_of result.end) }
    ensures refused { IfSome (S.files storage.old) (λ f. IfSome (append_refusal (S.rule storage.old [] f) job.now.user job.now.path (length (old_bytes f job.now.path)))
        (λ k. RefusedFirst (StorageRose (S.faults storage.old) (S.faults storage.new) (S.calls storage.old) (S.calls storage.new)) k result.bytes (result_of result.end) × (S.files storage.new ≡ Some f) × (L.left link.new ≡ L.left link.old))) }
    ensures refused_last { IsSome (S.files storage.old) →
        RefusedLast (StorageRose (S.faults storage.old) (S.faults storage.new) (S.calls storage.old) (S.calls storage.new)) (meaning_of (once_begun (job.now.user, job.now.path) (S.rule storage.old)) (S.files storage.new)) job.now.user job.now.path
        (option_map (drop result.bytes) (L.left link.old)) (L.left link.new) (result_of result.end) }

    ensures owned { (S.rule storage.new ≡ once_begun (job.now.user, job.now.path) (S.rule storage.old))
        ⊎ ((S.rule storage.new ≡ S.rule storage.old) × NotBegun result.bytes (result_of result.end) (fault_of result.end)) }
    ensures begins { (StorageRose (S.faults storage.old) (S.faults storage.new) (S.calls storage.old) (S.calls storage.new) → ⊥) →
        (result_of result.end ≡ done.OutOfMemory → ⊥) →
        IfSome (S.files storage.old) (λ f. append_refusal (S.rule storage.old [] f) job.now.user job.now.path (length (old_bytes f job.now.path)) ≡ None →
        S.rule storage.new ≡ once_begun (job.now.user, job.now.path) (S.rule storage.old)) }
    ensures storage_counts { CountsOn S.faults S.fault_limit storage.old storage.new }
    ensures only_reads { OnlyReads L.sending L.faults L.fault_limit link.old link.new }
    ensures storage_well { StorageWent (S.calls storage.old) (S.calls storage.new) (result_of result.end) }
    ensures link_well { fault_of result.end ≡ None → AllWell (λ call. call.0) (L.calls link.old) (L.calls link.new) }
{
    match start_after(storage.metadata(&job.user, &job.path)) {
        Ok(start) => store(job, start, out, storage, link),
        Err(completion) => Turn::last(0, completion, None),
    }
}

/// Where an APPE begins after an answer of metadata, or how it ends.
fn start_after(found: Result<Meta, StoreError>) -> Result<u64, Completion>
    ensures { result ≡ start_after found }
{
    match found {
        Ok(meta) => Ok(meta.len),
        Err(StoreError::Kind(ErrorKind::PermanentFileNotAvailable)) => Ok(0),
        Err(error) => Err(stopped_by(error)),
    }
}

/// Puts what one read of the link gives behind what the file has.
pub fn fill<S: Storage, L: Link>(job: &Job, out: &mut Room, storage: &mut S, link: &mut L) -> Turn
    requires command { is_store job.now.command ≡ true }

    ensures grown { IfSome (S.files storage.old) (λ f. IfSome (L.left link.old) (λ l.
        GrowsFront f (S.files storage.new) job.now.path l result.bytes)) }
    ensures took { Took job.now (L.left link.old) (L.left link.new) result }
    ensures told { IsSome (S.files storage.old) → IsSome (S.files storage.new) }

    ensures settled { result_of result.end ≡ done.Written → S.is_settled storage.new ≡ true }
    ensures cause { Caused (done.Refused kind.ConnectionClosed)
        (LinkRose (L.faults link.old) (L.faults link.new) (L.calls link.old) (L.calls link.new) (L.sending link.new).last_fault) (L.sending link.old).last_fault (L.sending link.new).last_fault
        (StorageRose (S.faults storage.old) (S.faults storage.new) (S.calls storage.old) (S.calls storage.new))
        (λ k. IsSome (S.files storage.old) → RefusesAppend (meaning_of (S.rule storage.old) (S.files storage.new)) job.now.user job.now.path
        (option_map (drop result.bytes) (L.left link.old)) (L.left link.new) k)
        (job.now.done + result.bytes) (result_of result.end) (fault_of result.end) }
    ensures refused_last { IsSome (S.files storage.old) →
        RefusedLast (StorageRose (S.faults storage.old) (S.faults storage.new) (S.calls storage.old) (S.calls storage.new)) (meaning_of (S.rule storage.old) (S.files storage.new)) job.now.user job.now.path
        (option_map (drop result.bytes) (L.left link.old)) (L.left link.new) (result_of result.end) }

    ensures storage_kept { StorageKept S.rule S.faults S.fault_limit storage.old storage.new }
    ensures only_reads { OnlyReads L.sending L.faults L.fault_limit link.old link.new }
    ensures storage_well { StorageWent (S.calls storage.old) (S.calls storage.new) (result_of result.end) }
    ensures link_well { fault_of result.end ≡ None → AllWell (λ call. call.0) (L.calls link.old) (L.calls link.new) }
{
    put_piece(job, out, storage, link)
}

/// Appends what one read of the link gives.
fn put_piece<S: Storage, L: Link>(job: &Job, out: &mut Room, storage: &mut S, link: &mut L) -> Turn
    requires command { is_store job.now.command ≡ true }

    ensures some { IsNone result.end → 0 < result.bytes }
    ensures within { result.bytes ≤ PIECE_LEN }
    ensures in_range { job.now.done + result.bytes < 2 ^ 64 }
    ensures grown { IfSome (S.files storage.old) (λ f. IfSome (L.left link.old) (λ l.
        GrowsFront f (S.files storage.new) job.now.path l result.bytes)) }
    ensures told { IsSome (S.files storage.old) → IsSome (S.files storage.new) }
    ensures taken { IsNone result.end → IfSome (L.left link.old) (λ l. TakesFront l (L.left link.new) result.bytes) }
    ensures last { IsSome result.end → result.bytes ≡ 0 }
    ensures unchanged { IsSome result.end → S.files storage.new ≡ S.files storage.old }
    ensures whole { IfSome result.end (λ e. e.result ≡ done.Written →
        IfSome (L.left link.old) (λ l. (l ≡ []) × (L.left link.new ≡ Some []))) }
    ensures countable { IfSome result.end (λ e. IsDone e.result → job.now.done + result.bytes < 2 ^ 64 - 1) }

    ensures suits { IfSome result.end (λ e. suits e.result job.now.command ≡ true) }
    ensures settled { IfSome result.end (λ e. e.result ≡ done.Written → S.is_settled storage.new ≡ true) }
    ensures cause { IfSome result.end (λ e. Caused (done.Refused kind.ConnectionClosed)
        (LinkRose (L.faults link.old) (L.faults link.new) (L.calls link.old) (L.calls link.new) (L.sending link.new).last_fault) (L.sending link.old).last_fault (L.sending link.new).last_fault
        (StorageRose (S.faults storage.old) (S.faults storage.new) (S.calls storage.old) (S.calls storage.new))
        (λ k. IsSome (S.files storage.old) → RefusesAppend (meaning_of (S.rule storage.old) (S.files storage.new)) job.now.user job.now.path
        (L.left link.old) (L.left link.new) k)
        (job.now.done + result.bytes) e.result e.fault) }
    ensures last_fault { IsNone result.end → (L.sending link.new).last_fault ≡ (L.sending link.old).last_fault }
    ensures refused_last { IfSome result.end (λ e. IsSome (S.files storage.old) →
        RefusedLast (StorageRose (S.faults storage.old) (S.faults storage.new) (S.calls storage.old) (S.calls storage.new)) (meaning_of (S.rule storage.old) (S.files storage.new)) job.now.user job.now.path
        (L.left link.old) (L.left link.new) e.result) }

    ensures storage_kept { StorageKept S.rule S.faults S.fault_limit storage.old storage.new }
    ensures only_reads { OnlyReads L.sending L.faults L.fault_limit link.old link.new }
    ensures storage_well { IsNone result.end → AllWell (λ call. call) (S.calls storage.old) (S.calls storage.new) }
    ensures storage_held { IfSome result.end (λ e. StorageWent (S.calls storage.old) (S.calls storage.new) e.result) }
    ensures link_well { IsNone result.end → AllWell (λ call. call.0) (L.calls link.old) (L.calls link.new) }
    ensures link_held { IfSome result.end (λ e. e.fault ≡ None → AllWell (λ call. call.0) (L.calls link.old) (L.calls link.new)) }
{
    let room = piece_room(job.done);
    if room == 0 {
        return Turn::last(0, Completion::Refused(ErrorKind::LocalError), None);
    }
    match link.read(&mut out[..room]) {
        Ok(0) => settle(job, storage),
        Ok(n) => append_read(job, &out[..n], storage),
        Err(_) => Turn::last(
            0,
            Completion::Refused(ErrorKind::ConnectionClosed),
            link.last_fault(),
        ),
    }
}

/// Appends what was read of the link.
fn append_read<S: Storage>(job: &Job, bytes: &[u8], storage: &mut S) -> Turn
    requires some { 0 < length bytes.now }
    requires within { length bytes.now ≤ PIECE_LEN }

    ensures more { IsNone result.end → result.bytes ≡ length bytes.now }
    ensures grown { IsNone result.end → Grows (S.files storage.old) (S.files storage.new) job.now.path bytes.now }
    ensures last { IsSome result.end → result.bytes ≡ 0 }
    ensures unchanged { IsSome result.end → S.files storage.new ≡ S.files storage.old }
    ensures storage_kept { StorageKept S.rule S.faults S.fault_limit storage.old storage.new }
    ensures refused { IfSome result.end (λ e. (e.fault ≡ None) ×
        StopsStoring (StorageRose (S.faults storage.old) (S.faults storage.new) (S.calls storage.old) (S.calls storage.new))
        (λ k. IsSome (S.files storage.old) → meaning_of (S.rule storage.old) (S.files storage.old) (Append job.now.user job.now.path bytes.now) ≡ Some k) e.result) }
    ensures refused_last { IfSome result.end (λ e. IsSome (S.files storage.old) →
        IfSome (meaning_of (S.rule storage.old) (S.files storage.old) (Append job.now.user job.now.path bytes.now))
        (λ k. EndsRefused (StorageRose (S.faults storage.old) (S.faults storage.new) (S.calls storage.old) (S.calls storage.new)) k e.result)) }
    ensures storage_well { IsNone result.end → AllWell (λ call. call) (S.calls storage.old) (S.calls storage.new) }
    ensures storage_held { IfSome result.end (λ e. StorageWent (S.calls storage.old) (S.calls storage.new) e.result) }
{
    match storage.append(&job.user, &job.path, bytes) {
        Ok(()) => Turn::more(bytes.len() as u64),
        Err(error) => Turn::last(0, stopped_by(error), None),
    }
}

/// Tells the storage that the upload came whole, and ends it.
fn settle<S: Storage>(job: &Job, storage: &mut S) -> Turn
    ensures last { result.bytes ≡ 0 }
    ensures ends { IfSome result.end (λ e. (e.fault ≡ None) × ((e.result ≡ done.Written)
        ⊎ StopsStoring (StorageRose (S.faults storage.old) (S.faults storage.new) (S.calls storage.old) (S.calls storage.new))
        (λ k. IsSome (S.files storage.old) → ⊥) e.result)) }
    ensures over { IsSome result.end }
    ensures settled { IfSome result.end (λ e. e.result ≡ done.Written → S.is_settled storage.new ≡ true) }
    ensures unchanged { S.files storage.new ≡ S.files storage.old }
    ensures storage_kept { StorageKept S.rule S.faults S.fault_limit storage.old storage.new }
    ensures storage_held { IfSome result.end (λ e. StorageWent (S.calls storage.old) (S.calls storage.new) e.result) }
{
    match storage.settle(&job.user, &job.path) {
        Ok(()) => Turn::last(0, Completion::Written, None),
        Err(error) => Turn::last(0, stopped_by(error), None),
    }
}
