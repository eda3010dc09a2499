//! What threads hand to one another.

use crate::closing::{close_all, closes_any, not_taken};
use crate::link_handle::LinkHandle;
use crate::listening::{AcceptorHandle, Listening};
use crate::running_job::{RunningJob, end_job, is_idle, keep_job, start_job, take_kept};
use crate::task::Task;
use crate::waiting_jobs::{JobProgress, ask_job, has_waiting_job, leave_wait, settled_by};
use ftp_events::{Decision, Entry};
use ftp_shared::{JobShare, Others};
use ftp_system::{ControlHandle, Queue};
use indexmap::IndexMap;
use mio::net::{TcpListener, TcpStream};
use std::alloc::Global;
use std::sync::atomic::{AtomicBool, AtomicU64, Ordering};
use std::sync::{Mutex, Wait};
use std::time::Clock;

/// A connection that waits for its job, and what was read of it already.
#[derive(Drop)]
pub(crate) struct PendingConnection {
    pub(crate) stream: TcpStream,
    pub(crate) ahead: Vec<u8>,
}

impl PendingConnection {
    /// A connection of which nothing was read yet.
    pub(crate) fn unread(alloc: Global, stream: TcpStream) -> PendingConnection {
        PendingConnection {
            stream,
            ahead: Vec::new(alloc),
        }
    }
}

/// How long a thread rests without a task, in milliseconds, and how many may rest longer.
const REST: u64 = 60_000;

const FEW: u64 = 4;

/// Links that wait for a job, jobs that run, how far the jobs of sessions have come, ports that were bound for sessions, those that
/// wait for their connections, the handles of control connections, and tasks.
///
/// Each stands behind a lock of its own, and no two of them are held together.
#[derive(Drop)]
pub(crate) struct Handoff {
    links: Mutex<IndexMap<u64, PendingConnection>>,
    // By session.
    running: Mutex<IndexMap<u64, RunningJob>>,
    // By session, while its loop runs.
    progress: Mutex<IndexMap<u64, JobProgress>>,
    bound: Mutex<IndexMap<u64, (u16, TcpListener)>>,
    pub(crate) listeners: Mutex<IndexMap<u64, Listening>>,
    controls: Mutex<IndexMap<u64, ControlHandle>>,
    tasks: Queue<Task>,
    wanted: AtomicU64,
    calls: AtomicU64,
    // The server is to stop: sessions end once none of their jobs runs or waits.
    is_stopping: AtomicBool,
    pub(crate) acceptor: AcceptorHandle,
}

impl Handoff {
    /// Nothing waits. The thread that accepts connections is told that one more thread is wanted.
    pub(crate) fn new(alloc: Global, acceptor: AcceptorHandle) -> Handoff {
        Handoff {
            links: Mutex::new(IndexMap::new(alloc)),
            running: Mutex::new(IndexMap::new(alloc)),
            progress: Mutex::new(IndexMap::new(alloc)),
            bound: Mutex::new(IndexMap::new(alloc)),
            listeners: Mutex::new(IndexMap::new(alloc)),
            controls: Mutex::new(IndexMap::new(alloc)),
            tasks: Queue::new(alloc),
            wanted: AtomicU64::new(0),
            calls: AtomicU64::new(0),
            is_stopping: AtomicBool::new(false),
            acceptor,
        }
    }

    /// Puts a connection where the worker of its job finds it, and says whether there was room under its number.
    pub(crate) fn keep_link<R: Wait>(&self, rt: &R, number: u64, link: PendingConnection) -> bool {
        let mut links = self.links.lock(rt);
        if links.contains_key(&number) {
            return false;
        }
        links.insert(number, link).is_ok()
    }

    pub(crate) fn take_link<R: Wait>(&self, rt: &R, number: u64) -> Option<PendingConnection> {
        self.links.lock(rt).swap_remove(&number)
    }

    /// Closes the links that the entry closes, and those that it does not take.
    pub(crate) fn close_links<R: Wait>(&self, rt: &R, entry: &Entry) {
        let actions = entry.actions.as_slice();
        if closes_any(actions) {
            close_all(&mut self.links.lock(rt), actions);
        }
        self.forget(rt, not_taken(entry));
    }

    /// Closes the link that came with an event and was not taken.
    pub(crate) fn forget<R: Wait>(&self, rt: &R, number: Option<u64>) {
        if let Some(number) = number {
            drop(self.take_link(rt, number));
        }
    }

    /// From now on the job of the session on the link of this number runs. Says whether there was room.
    pub(crate) fn start_job<R: Wait>(&self, rt: &R, session: u64, number: u64) -> bool {
        start_job(&mut self.running.lock(rt), session, number, None)
    }

    /// From now on the job runs, and the thread of its session is to run it. Where there is no room for it, it never ends.
    pub(crate) fn keep_job<R: Wait>(&self, rt: &R, job: JobShare) {
        let _ = keep_job(&mut self.running.lock(rt), job);
    }

    /// Takes the job that the thread of the session is to run.
    pub(crate) fn take_kept<R: Wait>(&self, rt: &R, session: u64) -> Option<JobShare> {
        take_kept(&mut self.running.lock(rt), session)
    }

    /// From now on others can shut down the link of the session's job, unless there is no handle.
    pub(crate) fn begin_job<R: Wait>(&self, rt: &R, session: u64, number: u64, stream: &TcpStream) {
        if let Ok(handle) = LinkHandle::new(stream) {
            let _ = start_job(&mut self.running.lock(rt), session, number, Some(handle));
        }
    }

    /// The job of the session on the link of this number has ended. So has the session where the server is to stop, unless another
    /// job of it runs by now.
    pub(crate) fn end_job<R: Wait>(&self, rt: &R, session: u64, number: u64) {
        drop(end_job(&mut self.running.lock(rt), session, number));
        if self.is_stopping.load(Ordering::SeqCst) {
            self.wake(rt, session);
        }
    }

    /// Keeps which jobs wait for their data connections behind the entry. One that starts was kept as running before.
    pub(crate) fn follow_jobs<R: Wait>(&self, rt: &R, entry: &Entry) {
        if let Decision::Queued { ticket } = entry.decision {
            ask_job(&mut self.progress.lock(rt), ticket);
        }
        for action in entry.actions.as_slice() {
            if let Some(ticket) = settled_by(action) {
                leave_wait(&mut self.progress.lock(rt), ticket);
                if self.is_stopping.load(Ordering::SeqCst) {
                    self.wake(rt, ticket.session);
                }
            }
        }
    }

    /// Shuts down the link of the session's job.
    pub(crate) fn stop_job<R: Wait>(&self, rt: &R, session: u64) {
        if let Some(job) = self.running.lock(rt).get(&session) {
            if let Some(handle) = &job.handle {
                handle.shut_down();
            }
        }
    }

    /// Keeps the port that was bound for a session last, and says whether there was room.
    pub(crate) fn keep_bound<R: Wait>(
        &self,
        rt: &R,
        session: u64,
        port: u16,
        listener: TcpListener,
    ) -> bool {
        self.bound
            .lock(rt)
            .insert(session, (port, listener))
            .is_ok()
    }

    pub(crate) fn take_bound<R: Wait>(&self, rt: &R, session: u64) -> Option<(u16, TcpListener)> {
        self.bound.lock(rt).swap_remove(&session)
    }

    /// From now on others can wake the loop of the session, unless there is no room.
    pub(crate) fn enter<R: Wait>(&self, rt: &R, session: u64, handle: ControlHandle) -> bool {
        let progress = JobProgress { asked: 0, begun: 0 };
        if self.progress.lock(rt).insert(session, progress).is_err() {
            return false;
        }
        let is_in = self.controls.lock(rt).insert(session, handle).is_ok();
        if !is_in {
            drop(self.progress.lock(rt).swap_remove(&session));
        }
        is_in
    }

    /// The loop of the session has ended.
    pub(crate) fn leave<R: Wait>(&self, rt: &R, session: u64) {
        drop(self.controls.lock(rt).swap_remove(&session));
        drop(self.progress.lock(rt).swap_remove(&session));
        drop(self.take_bound(rt, session));
        self.stop_listening(rt, session);
    }

    /// Wakes the loops of sessions that have replies waiting.
    pub(crate) fn wake_all<R: Wait>(&self, rt: &R, others: Others<'_>) {
        let mut others = others;
        for _ in 0..u64::MAX {
            match others.next() {
                Some(session) => self.wake(rt, session),
                None => return,
            }
        }
    }

    /// Wakes the loops of sessions that have replies waiting, but not that of this session.
    pub(crate) fn wake_others<R: Wait>(&self, rt: &R, others: Others<'_>, own: u64) {
        let mut others = others;
        for _ in 0..u64::MAX {
            match others.next() {
                Some(session) if session == own => {}
                Some(session) => self.wake(rt, session),
                None => return,
            }
        }
    }

    fn wake<R: Wait>(&self, rt: &R, session: u64) {
        if let Some(handle) = self.controls.lock(rt).get(&session) {
            handle.wake();
        }
    }

    /// From now on each session ends once none of its jobs runs or waits for its data connection.
    pub(crate) fn begin_stop<R: Wait>(&self, rt: &R) {
        self.is_stopping.store(true, Ordering::SeqCst);
        for handle in self.controls.lock(rt).values() {
            handle.wake();
        }
    }

    /// Says whether the session is to end, as the server is to stop and no job of it waits or runs.
    pub(crate) fn is_to_end<R: Wait>(&self, rt: &R, session: u64) -> bool {
        if !self.is_stopping.load(Ordering::SeqCst) {
            return false;
        }
        // A job that waits no longer was kept as running before.
        let waits = has_waiting_job(&self.progress.lock(rt), session);
        !waits && is_idle(&self.running.lock(rt), session)
    }

    /// Says whether the loops of all sessions have ended.
    pub(crate) fn is_left<R: Wait>(&self, rt: &R) -> bool {
        self.controls.lock(rt).is_empty()
    }

    /// Ends the control connections of all sessions, and closes their ports.
    pub(crate) fn shut_down<R: Wait>(&self, rt: &R) {
        self.stop_all_listening(rt);
        for handle in self.controls.lock(rt).values() {
            handle.shut_down();
        }
    }

    /// Has the task done by a thread, and says whether there was room for it. What is not taken is dropped.
    pub(crate) fn put<R: Wait>(&self, rt: &R, task: Task) -> bool {
        match self.tasks.put(rt, task) {
            Ok(false) => true,
            Ok(true) => {
                self.wanted.fetch_add(1, Ordering::SeqCst);
                let _ = self.acceptor.waker.wake();
                true
            }
            Err(refused) => {
                drop(refused);
                false
            }
        }
    }

    /// The next task, once there is one. None once no more come, or where many rest and none came for a while.
    pub(crate) fn take<R: Wait + Clock>(&self, rt: &R) -> Option<Task> {
        self.tasks.take_or_rest(rt, REST, FEW)
    }

    /// From now on no task comes.
    pub(crate) fn close<R: Wait>(&self, rt: &R) {
        self.tasks.close(rt);
    }

    /// How many threads are wanted that were not asked for before.
    pub(crate) fn wanted(&self) -> u64 {
        self.wanted.swap(0, Ordering::SeqCst)
    }

    /// The number of the next job, from 1.
    pub(crate) fn next_call(&self) -> u64 {
        self.calls.fetch_add(1, Ordering::SeqCst).wrapping_add(1)
    }
}
