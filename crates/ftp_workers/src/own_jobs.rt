//! Small downloads, which the thread of their session runs itself.

use crate::handoff::PendingConnection;
use crate::runtime::WorkerRuntime;
use crate::server_state::StateOf;
use crate::services::Services;
use crate::task::Task;
use ftp_shared::{JobShare, JournalHub, Submitted};
use ftp_system::{Ahead, Gathered, LIMIT, SocketLink, SystemEdge};
use std::alloc::Global;
use std::mem;
use std::net::{IpAddr, Ipv4Addr};
use std::sync::Arc;

/// What the thread of a session runs jobs with that were kept for it.
#[derive(Drop)]
pub(crate) struct OwnJobs<R: WorkerRuntime, H: JournalHub + Drop, S: Services> {
    rt: R,
    session: u64,
    state: Arc<StateOf<H, S>, Global>,
    // None before the first job.
    pass: Option<H::Pass>,
}

impl<R: WorkerRuntime, H: JournalHub + Drop, S: Services> OwnJobs<R, H, S> {
    pub(crate) fn new(rt: R, session: u64, state: Arc<StateOf<H, S>, Global>) -> OwnJobs<R, H, S> {
        OwnJobs {
            rt,
            session,
            state,
            pass: None,
        }
    }

    /// Says whether the session is to end with the server.
    pub(crate) fn is_to_end(&self) -> bool {
        self.state.handoff.is_to_end(&self.rt, self.session)
    }

    /// Runs the job that was kept, and says whether it did.
    #[inline(never)]
    pub(crate) fn run_kept(&mut self) -> bool {
        match self.state.handoff.take_kept(&self.rt, self.session) {
            Some(job) => self.run(job),
            None => false,
        }
    }

    // Runs a job on its link, and says whether it did. One that is to stop is a worker's.
    #[inline(never)]
    fn run(&mut self, job: JobShare) -> bool {
        if self.pass.is_none() {
            self.pass = self.state.share(&self.rt);
        }
        let pass = match &mut self.pass {
            Some(pass) if !job.is_marked() => pass,
            _ => {
                let _ = self.state.handoff.put(&self.rt, Task::Job(job));
                return false;
            }
        };
        let number = job.link();
        let Some(waiting) = self.state.handoff.take_link(&self.rt, number) else {
            drop(job);
            return false;
        };
        let PendingConnection { stream, ahead } = waiting;
        let alloc = self.state.alloc;
        let link = SocketLink::new(self.rt, alloc, stream, LIMIT);
        // Nothing is gathered of one piece.
        let mut link = Gathered::new(Ahead::new(link, ahead), Vec::new(alloc));
        // It tells the time alone.
        let mut edge = SystemEdge::new(self.rt, alloc, IpAddr::V4(Ipv4Addr::from_bits(0)), LIMIT);
        let served = self
            .state
            .run_on_own_storage(&self.rt, pass, &mut edge, job, &mut link);
        drop(link);
        drop(edge);
        // Where its end was not taken the job never ends.
        if let Some(submitted) = served {
            self.carry_out(submitted);
        }
        self.state.handoff.end_job(&self.rt, self.session, number);
        true
    }

    // Does what the end of a job asks for. The loop of this session looks for its replies by itself.
    fn carry_out(&self, submitted: Submitted) {
        let others = submitted.others();
        self.state
            .handoff
            .wake_others(&self.rt, others, self.session);
        let Submitted { receipt, job } = submitted;
        self.state.carry_out(&self.rt, &receipt.entry, job);
        drop(receipt);
    }

    /// No job is run any more. One that is still kept is given to a worker.
    #[inline(never)]
    pub(crate) fn leave(&mut self) {
        if let Some(job) = self.state.handoff.take_kept(&self.rt, self.session) {
            let _ = self.state.handoff.put(&self.rt, Task::Job(job));
        }
        if let Some(pass) = mem::replace(&mut self.pass, None) {
            self.state.take_back(&self.rt, pass);
        }
    }
}
