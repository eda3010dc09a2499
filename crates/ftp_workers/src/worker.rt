//! A thread of a server.

use crate::desk::{DeskOf, ServerDesk};
use crate::runtime::WorkerRuntime;
use crate::server_state::StateOf;
use crate::services::Services;
use crate::task::Task;
use ftp_shared::JournalHub;
use ftp_system::{LIMIT, SystemEdge};
use std::alloc::{AllocError, Global};
use std::net::{IpAddr, Ipv4Addr};
use std::sync::Arc;

/// A thread that does one task after another, with what it keeps from task to task.
#[derive(Drop)]
pub struct Worker<R: WorkerRuntime, H: JournalHub + Drop, S: Services> {
    pub(crate) rt: R,
    pub(crate) alloc: Global,
    pub(crate) state: Arc<StateOf<H, S>, Global>,
    pub(crate) desk: DeskOf<R, H, S>,
    pub(crate) edge: SystemEdge<R>,
    // Where the pieces of transfers are gathered; empty before the first transfer, and after a control connection.
    pub(crate) buffer: Vec<u8>,
}

impl<R: WorkerRuntime, H: JournalHub + Drop, S: Services> Worker<R, H, S> {
    /// A thread that has done nothing yet.
    pub fn new(
        rt: R,
        state: Arc<StateOf<H, S>, Global>,
        pass: H::Pass,
    ) -> Result<Worker<R, H, S>, AllocError> {
        let theirs = Arc::try_clone(&state)?;
        let alloc = state.alloc;
        Ok(Worker {
            rt,
            alloc,
            desk: ServerDesk::new(rt, theirs, pass),
            edge: SystemEdge::new(rt, alloc, IpAddr::V4(Ipv4Addr::from_bits(0)), LIMIT),
            buffer: Vec::new(alloc),
            state,
        })
    }

    /// Does one task after another, until no more come or it has rested for long.
    pub fn work(&mut self) {
        let rt = self.rt;
        for _ in rt.forever() {
            match self.state.handoff.take(&rt) {
                Some(task) => self.perform(task),
                None => return,
            }
        }
    }

    fn perform(&mut self, task: Task) {
        match task {
            Task::Control(stream, raw) => {
                let _ = self.serve(stream, raw);
                self.state.exit(&self.rt, raw.ip());
            }
            Task::Proxied(stream, raw) => self.pass_on(stream, raw),
            Task::Job(job) => self.run(job),
        }
    }

    /// Ends this worker; the server takes its pass back.
    #[inline(never)]
    pub fn leave(self) {
        let Worker {
            rt,
            alloc: _,
            state,
            desk,
            edge: _,
            buffer: _,
        } = self;
        state.take_back(&rt, desk.into_pass());
    }
}

/// What a thread of a server does, with its pass, until no more tasks come or it has rested for long.
pub fn work<R: WorkerRuntime, H: JournalHub + Drop, S: Services>(
    rt: R,
    state: Arc<StateOf<H, S>, Global>,
    pass: H::Pass,
) {
    if let Some(worker) = new_worker::<R, H, S>(rt, state, pass) {
        let mut worker = worker;
        worker.work();
        Box::into_inner(worker).leave();
    }
}

// A worker outside the stack of its thread, none without memory. It keeps a frame of its own.
#[inline(never)]
fn new_worker<R: WorkerRuntime, H: JournalHub + Drop, S: Services>(
    rt: R,
    state: Arc<StateOf<H, S>, Global>,
    pass: H::Pass,
) -> Option<Box<Worker<R, H, S>>> {
    let alloc = state.alloc;
    let worker = Worker::<R, H, S>::new(rt, state, pass).ok()?;
    Box::new(alloc, worker).ok()
}
