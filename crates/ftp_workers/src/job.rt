//! A job, on the link that waits for it.

ghost use Rattle.std.specs.Prelude.{IfSome};
ghost use Rattle.ftp_events.specs.Leads.{views};
ghost use Rattle.ftp_shared.specs.Answers.{moved_in, outcome_in};
ghost use Rattle.ftp_shared.specs.Runs.{IsLastOf, site};
ghost use Rattle.ftp_workers.specs.OwnStorage.{RunsOnItsOwn, StopsOnItsOwn};

use crate::event_sinks::EventSinks;
use crate::handoff::PendingConnection;
use crate::runtime::WorkerRuntime;
use crate::server_state::ServerState;
use crate::services::Services;
use crate::worker::Worker;
use ftp_base::{Authenticator, Edge, Gate, Link};
use ftp_shared::{JobShare, JournalHub, Submitted, serve_job};
use ftp_system::{Ahead, Depot, Gathered, LIMIT, SocketLink, gathering_buffer};
use std::sync::Wait;

impl<R: WorkerRuntime, H: JournalHub + Drop, S: Services> Worker<R, H, S> {
    // The buffer for the next link, which is empty where there is no memory for it.
    fn take_buffer(&mut self) -> Vec<u8> {
        let none = Vec::new(self.alloc);
        let kept = std::mem::replace(&mut self.buffer, none);
        if !kept.is_empty() {
            return kept;
        }
        match gathering_buffer(self.alloc) {
            Ok(buffer) => buffer,
            Err(_) => kept,
        }
    }

    // Runs a job on its link, and does what its end asks for.
    #[inline(never)]
    pub(crate) fn run(&mut self, job: JobShare) {
        let number = job.link();
        let Some(waiting) = self.state.handoff.take_link(&self.rt, number) else {
            drop(job);
            return;
        };
        let PendingConnection { stream, ahead } = waiting;
        let session = job.ticket().session;
        self.state
            .handoff
            .begin_job(&self.rt, session, number, &stream);
        // An ABOR that came before found no link to shut down.
        if job.is_marked() {
            self.state.handoff.stop_job(&self.rt, session);
        }
        let buffer = self.take_buffer();
        let link = SocketLink::new(self.rt, self.alloc, stream, LIMIT);
        let mut link = Gathered::new(Ahead::new(link, ahead), buffer);
        let served = self.state.run_on_own_storage(
            &self.rt,
            &mut self.desk.pass,
            &mut self.edge,
            job,
            &mut link,
        );
        self.buffer = link.into_buffer();
        // Where its end was not taken the job never ends.
        if let Some(submitted) = served {
            self.desk.carry_out(submitted);
        }
        // A job that starts with the end of this one is known before: the session is never without.
        self.state.handoff.end_job(&self.rt, session, number);
    }
}

impl<
    H: JournalHub + Drop,
    A: Authenticator + Drop,
    N: EventSinks + Drop,
    D: Depot + Drop,
    G: Gate + Drop,
> ServerState<H, A, N, D, G> {
    // Runs a job on its link, and on a storage of its own, which is gone before the job's session is woken. None where memory ran
    // out.
    //
    // # Proved
    //
    // - A job of a server is run on a storage of the server's depot that had counted no fault before, and all holds of it that
    //   `serve_job` says of its last entry (`next`, `runs`, `stops`).
    pub(crate) fn run_on_own_storage<R: Wait, K: Link, E: Edge>(
        &self,
        rt: &R,
        pass: &mut H::Pass,
        edge: &mut E,
        job: JobShare,
        link: &mut K,
    ) -> Option<Submitted>
        ensures next { IfSome result (λ s. IsLastOf H.options job s.receipt) }
        ensures runs { IfSome result (λ s. IfSome (outcome_in s.receipt.entry.answer) (λ outcome.
            RunsOnItsOwn (site (views D.Store.files D.Store.rule D.Store.faults D.Store.fault_limit D.Store.calls K.left K.sending K.faults K.fault_limit K.calls) D.Store.reads_take_memory K.takes_memory)
            job outcome link.old link.new)) }
        ensures stops { IfSome result (λ s. IfSome (moved_in s.receipt.entry.answer) (λ told.
            StopsOnItsOwn (site (views D.Store.files D.Store.rule D.Store.faults D.Store.fault_limit D.Store.calls K.left K.sending K.faults K.fault_limit K.calls) D.Store.reads_take_memory K.takes_memory)
            job told link.old link.new)) }
    {
        let Ok(storage) = self.depot.store() else {
            drop(job);
            return None;
        };
        let mut storage = storage;
        let call = self.handoff.next_call();
        serve_job(
            rt,
            self.alloc,
            &self.hub,
            pass,
            job,
            &*self.gate,
            call,
            &mut storage,
            link,
            edge,
        )
        .ok()
    }
}
