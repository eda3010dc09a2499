//! What an entry asks for is done, once the hub is free.

ghost use Rattle.std.specs.Prelude.{◌≡◌, Some, IfSome, false};
ghost use Rattle.std.specs.List.{list_any};
ghost use Rattle.ftp_workers.specs.Carried.{is_notice, to_stop};
ghost use Rattle.ftp_workers.specs.Kept.{is_download};

use crate::event_sinks::EventSinks;
use crate::handoff::Handoff;
use crate::server_state::ServerState;
use crate::task::Task;
use ftp_base::{Authenticator, DataChanCmd, Gate, Storage};
use ftp_events::{Action, Decision, Entry, EventKind};
use ftp_shared::{JobShare, JournalHub};
use ftp_system::Depot;
use std::sync::Wait;

/// The longest file that the thread of a session sends, in bytes: its socket takes them at once, so the session is soon heard again.
const SMALL: u64 = 4096;

impl<
    H: JournalHub + Drop,
    A: Authenticator + Drop,
    N: EventSinks + Drop,
    D: Depot + Drop,
    G: Gate + Drop,
> ServerState<H, A, N, D, G> {
    /// Hands the job to a worker, keeps which jobs wait, shuts down the link of a job that is to stop, closes the links that the entry closes, and
    /// tells the listeners.
    pub(crate) fn carry_out<R: Wait>(&self, rt: &R, entry: &Entry, job: Option<JobShare>) {
        if let Some(job) = job {
            self.handoff.start(rt, job);
        }
        self.handoff.follow_jobs(rt, entry);
        if let Some(session) = to_stop(entry) {
            self.handoff.stop_job(rt, session);
        }
        self.handoff.close_links(rt, entry);
        if tells_any(entry.actions.as_slice()) {
            self.sinks.lock(rt).hear(entry);
        }
    }

    /// Does what an entry asks for that the thread of its session submitted, which runs a small download itself that starts with it.
    #[inline(never)]
    pub(crate) fn carry_out_here<R: Wait>(&self, rt: &R, entry: &Entry, job: Option<JobShare>) {
        let job = match job {
            Some(job) => self.keep_small(rt, entry, job),
            None => None,
        };
        self.carry_out(rt, entry, job);
    }

    // Keeps the job that starts with an entry where it is a small download. Any other is given back.
    fn keep_small<R: Wait>(&self, rt: &R, entry: &Entry, job: JobShare) -> Option<JobShare>
        ensures same { IfSome result (λ given. given ≡ job) }
        ensures others { is_download entry.now.event.kind ≡ false → result ≡ Some job }
        ensures off { self.now.runs_small ≡ false → result ≡ Some job }
    {
        if !self.runs_small || !is_download(&entry.event.kind) || !self.is_small(&job) {
            return Some(job);
        }
        self.handoff.keep_job(rt, job);
        None
    }

    // Says whether the job is about a small file, by a storage of this look.
    fn is_small(&self, job: &JobShare) -> bool {
        let Ok(job) = job.job(self.alloc) else {
            return false;
        };
        let Ok(storage) = self.depot.store() else {
            drop(job);
            return false;
        };
        let mut storage = storage;
        let found = storage.metadata(&job.user, &job.path);
        drop(job);
        match found {
            Ok(meta) => !meta.is_dir && meta.len <= SMALL,
            Err(_) => false,
        }
    }
}

impl Handoff {
    // Gives a worker the job that starts with an entry. Where there is no room for it, it never ends.
    fn start<R: Wait>(&self, rt: &R, job: JobShare) {
        if self.start_job(rt, job.ticket().session, job.link()) {
            let _ = self.put(rt, Task::Job(job));
        }
    }
}

// Says whether the event asks for a download.
fn is_download(kind: &EventKind) -> bool
    ensures { result ≡ is_download kind.now }
{
    matches!(
        kind,
        EventKind::Transfer {
            command: DataChanCmd::Retr { .. },
            ..
        }
    )
}

// The session whose job is to stop.
fn to_stop(entry: &Entry) -> Option<u64>
    ensures { result ≡ to_stop entry.now }
{
    match entry.decision {
        Decision::Aborting => entry.event.kind.named_session(),
        _ => None,
    }
}

// Says whether the action tells listeners something.
fn is_notice(action: &Action) -> bool
    ensures { result ≡ is_notice action.now }
{
    matches!(action, Action::Notify { .. })
}

// Says whether an action tells listeners something.
fn tells_any(actions: &[Action]) -> bool
    ensures { result ≡ list_any is_notice actions.now }
{
    actions.iter().any(|action| is_notice(action))
}
