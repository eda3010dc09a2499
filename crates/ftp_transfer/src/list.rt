//! LIST, NLST and MLSD: the children of a directory go to the link, a line each.

ghost use Rattle.std.specs.Prelude.{◌≡◌, ◌+◌, ◌-◌, ◌^◌, ◌<◌, ◌≤◌, true, length, min, Some, None, IsSome, IfSome};
ghost use Rattle.ftp_base.specs.Calls.{AllWell};
ghost use Rattle.ftp_base.specs.Kept.{StorageKept, OnlySends};
ghost use Rattle.ftp_base.specs.Storage.{Listing, meaning_of, listing};
ghost use Rattle.ftp_transfer.specs.declared.job.Completion.TheVariants as done;
ghost use Rattle.ftp_transfer.specs.Listing.{listing_text as text_of};
ghost use Rattle.ftp_transfer.specs.Ran.{RefusesListing, shown_refusal, IsDone};
ghost use Rattle.ftp_transfer.specs.Run.{LinkRose, StorageRose, StorageWent, SendsFront, Caused, RefusedFirst};
ghost use Rattle.ftp_transfer.specs.Transfer.{is_listing, suits};
ghost use Rattle.ftp_transfer.specs.Turn.{StopsListing, listing_end, result_of, fault_of};

use crate::job::{Completion, Job};
use crate::listing::listing_text;
use crate::send::send_out;
use crate::turn::{Turn, stopped_by};
use ftp_base::{DataChanCmd, ErrorKind, Failed, Link, Storage, StoreError};
use std::alloc::Global;

/// Sends the text of a listing, whole.
pub fn list<S: Storage, L: Link>(alloc: Global, job: &Job, storage: &mut S, link: &mut L) -> Turn
    requires command { is_listing job.now.command ≡ true }

    ensures over { IsSome result.end }
    ensures in_range { job.now.done + result.bytes < 2 ^ 64 }
    ensures sent { IfSome (S.files storage.old) (λ f.
        SendsFront (text_of job.now.command (listing f job.now.path)) result.bytes (L.sending link.old).sent (L.sending link.new).sent) }
    ensures whole { result_of result.end ≡ done.Listed →
        IfSome (S.files storage.old) (λ f. result.bytes ≡ length (text_of job.now.command (listing f job.now.path))) }
    ensures countable { IsDone (result_of result.end) → job.now.done + result.bytes < 2 ^ 64 - 1 }

    ensures suits { suits (result_of result.end) job.now.command ≡ true }
    ensures cause { Caused done.WriteFailed
        (LinkRose (L.faults link.old) (L.faults link.new) (L.calls link.old) (L.calls link.new) (L.sending link.new).last_fault) (L.sending link.old).last_fault (L.sending link.new).last_fault
        (StorageRose (S.faults storage.old) (S.faults storage.new) (S.calls storage.old) (S.calls storage.new))
        (λ k. IsSome (S.files storage.old) → RefusesListing job.now.command (meaning_of (S.rule storage.old) (S.files storage.old)) job.now.user job.now.path k)
        (job.now.done + result.bytes) (result_of result.end) (fault_of result.end) }
    ensures refused { IsSome (S.files storage.old) → IfSome (meaning_of (S.rule storage.old) (S.files storage.old) (Listing job.now.user job.now.path))
        (λ k. RefusedFirst (StorageRose (S.faults storage.old) (S.faults storage.new) (S.calls storage.old) (S.calls storage.new)) (shown_refusal job.now.command k) result.bytes (result_of result.end)) }

    ensures files { S.files storage.new ≡ S.files storage.old }
    ensures storage_kept { StorageKept S.rule S.faults S.fault_limit storage.old storage.new }
    ensures only_sends { OnlySends L.left L.sending L.faults L.fault_limit link.old link.new }
    ensures storage_well { StorageWent (S.calls storage.old) (S.calls storage.new) (result_of result.end) }
    ensures link_well { fault_of result.end ≡ None → AllWell (λ call. call.0) (L.calls link.old) (L.calls link.new) }
{
    let moved = job.done;
    match storage.list(&job.user, &job.path) {
        Ok(children) => match listing_text(alloc, &job.command, children.as_slice()) {
            Ok(text) => send_text(text.as_slice(), moved, link),
            Err(_) => Turn::last(0, Completion::OutOfMemory, None),
        },
        Err(error) => Turn::last(0, listing_end(&job.command, error), None),
    }
}

/// Sends the text of a listing, or as much of it as can be counted.
fn send_text<L: Link>(text: &[u8], moved: u64, link: &mut L) -> Turn
    ensures over { IsSome result.end }
    ensures in_range { moved + result.bytes < 2 ^ 64 }
    ensures sent { SendsFront text.now result.bytes (L.sending link.old).sent (L.sending link.new).sent }
    ensures whole { result_of result.end ≡ done.Listed → result.bytes ≡ length text.now }
    ensures countable { IsDone (result_of result.end) → moved + result.bytes < 2 ^ 64 - 1 }
    ensures end { StopsListing
        (LinkRose (L.faults link.old) (L.faults link.new) (L.calls link.old) (L.calls link.new) (L.sending link.new).last_fault) (L.sending link.old).last_fault (L.sending link.new).last_fault
        (moved + result.bytes) (result_of result.end) (fault_of result.end) }
    ensures only_sends { OnlySends L.left L.sending L.faults L.fault_limit link.old link.new }
    ensures link_well { fault_of result.end ≡ None → AllWell (λ call. call.0) (L.calls link.old) (L.calls link.new) }
{
    let room = listing_room(text.len(), moved);
    let sending = send_out(link, &text[..room]);
    let sent = sending.sent as u64;
    match sending.stopped {
        None if moved + sent == u64::MAX => {
            Turn::last(sent, Completion::Refused(ErrorKind::LocalError), None)
        }
        None => Turn::last(sent, Completion::Listed, None),
        Some(Failed::Fault) => Turn::last(sent, Completion::WriteFailed, link.last_fault()),
        Some(Failed::Memory) => Turn::last(sent, Completion::OutOfMemory, None),
    }
}

/// How many bytes of a text can be sent, so that their count does not pass its end.
fn listing_room(len: usize, moved: u64) -> usize
    ensures room { result ≡ min len (2 ^ 64 - 1 - moved) }
{
    (u64::MAX - moved).min(len as u64) as usize
}

/// How a listing ends that the storage stopped: NLST turns each refusal.
fn listing_end(command: &DataChanCmd, error: StoreError) -> Completion
    ensures { result ≡ listing_end command.now error }
{
    match (command, error) {
        (DataChanCmd::Nlst { .. }, StoreError::Kind(_)) => {
            Completion::Refused(ErrorKind::PermanentDirectoryNotAvailable)
        }
        _ => stopped_by(error),
    }
}
