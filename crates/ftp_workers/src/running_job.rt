//! The jobs that run, as other threads see them.

ghost use Rattle.std.specs.Prelude.{◌≡◌, ◌≢◌, ℕ, Some, None, true, false, not, is_some, nat_eq};
ghost use Rattle.std.specs.Option.{option_and_then, option_map};
ghost use Rattle.indexmap.specs.IndexMap.{get};
ghost use Rattle.ftp_workers.specs.Kept.{once_taken};

use crate::link_handle::LinkHandle;
use ftp_shared::JobShare;
use indexmap::IndexMap;
use std::mem;

/// A job of a session, from its start to its end.
#[derive(Drop)]
pub(crate) struct RunningJob {
    /// The number of its link.
    pub(crate) number: u64,
    /// What its link is shut down by, once a worker has it.
    pub(crate) handle: Option<LinkHandle>,
    /// The job itself, until the thread of its session takes it.
    pub(crate) kept: Option<JobShare>,
}

/// Says whether no job of the session runs.
pub(crate) fn is_idle(jobs: &IndexMap<u64, RunningJob>, session: u64) -> bool
    ensures { result ≡ not (is_some (get nat_eq jobs.now session)) }
{
    !jobs.contains_key(&session)
}

/// From now on the session's job on this link runs, and no other of that session. Says whether there was room.
pub(crate) fn start_job(
    jobs: &mut IndexMap<u64, RunningJob>,
    session: u64,
    number: u64,
    handle: Option<LinkHandle>,
) -> bool
    ensures started { result ≡ true → option_map (λ job. job.number) (get nat_eq jobs.new session) ≡ Some number }
    ensures others { (other : ℕ) → other ≢ session → get nat_eq jobs.new other ≡ get nat_eq jobs.old other }
    ensures unchanged { result ≡ false → (s : ℕ) → get nat_eq jobs.new s ≡ get nat_eq jobs.old s }
{
    let job = RunningJob {
        number,
        handle,
        kept: None,
    };
    let before = jobs.insert(session, job);
    let is_kept = before.is_ok();
    drop(before);
    is_kept
}

/// From now on the job runs, and is kept for the thread of its session, which has no other. Says whether there was room.
pub(crate) fn keep_job(jobs: &mut IndexMap<u64, RunningJob>, job: JobShare) -> bool
    ensures started { result ≡ true → option_map (λ running. running.number) (get nat_eq jobs.new job.ticket.session) ≡ Some job.number }
    ensures kept { result ≡ true → option_and_then (λ running. running.kept) (get nat_eq jobs.new job.ticket.session) ≡ Some job }
    ensures others { (other : ℕ) → other ≢ job.ticket.session → get nat_eq jobs.new other ≡ get nat_eq jobs.old other }
    ensures unchanged { result ≡ false → (s : ℕ) → get nat_eq jobs.new s ≡ get nat_eq jobs.old s }
{
    let session = job.ticket().session;
    let running = RunningJob {
        number: job.link(),
        handle: None,
        kept: Some(job),
    };
    let before = jobs.insert(session, running);
    let is_kept = before.is_ok();
    drop(before);
    is_kept
}

/// The job that is kept for the thread of the session. It runs on, and is kept no longer.
pub(crate) fn take_kept(jobs: &mut IndexMap<u64, RunningJob>, session: u64) -> Option<JobShare>
    ensures taken { result ≡ option_and_then (λ running. running.kept) (get nat_eq jobs.old session) }
    ensures runs { get nat_eq jobs.new session ≡ option_map once_taken (get nat_eq jobs.old session) }
    ensures others { (other : ℕ) → other ≢ session → get nat_eq jobs.new other ≡ get nat_eq jobs.old other }
{
    match jobs.get_mut(&session) {
        Some(running) => mem::replace(&mut running.kept, None),
        None => None,
    }
}

/// The session's job on this link is over, and given back. One on another link runs on.
pub(crate) fn end_job(
    jobs: &mut IndexMap<u64, RunningJob>,
    session: u64,
    number: u64,
) -> Option<RunningJob>
    ensures over { option_map (λ job. job.number) (get nat_eq jobs.old session) ≡ Some number → get nat_eq jobs.new session ≡ None }
    ensures another { option_map (λ job. job.number) (get nat_eq jobs.old session) ≢ Some number → (s : ℕ) → get nat_eq jobs.new s ≡ get nat_eq jobs.old s }
    ensures others { (other : ℕ) → other ≢ session → get nat_eq jobs.new other ≡ get nat_eq jobs.old other }
{
    match jobs.get(&session) {
        Some(job) if job.number == number => jobs.swap_remove(&session),
        _ => None,
    }
}
