//! A control connection, from its first byte to its last.

ghost use Rattle.std.specs.Prelude.{◌≡◌, ◌≤◌, ◌/◌, true};
ghost use Rattle.ftp_talk.specs.Control.{is_opening};

use crate::handoff::Handoff;
use crate::runtime::WorkerRuntime;
use crate::server_state::StateOf;
use crate::services::Services;
use crate::session_edge::SessionEdge;
use crate::stopping::{STOPPING, Stoppable};
use crate::worker::Worker;
use ftp_base::{Control, Edge, Link};
use ftp_events::{Answer, EventKind, HubEvent};
use ftp_shared::JournalHub;
use ftp_system::{ControlHandle, Depot, LIMIT, SocketControl, SystemEdge, told_address};
use ftp_talk::{ServeEnd, serve_control_with};
use std::alloc::Global;
use std::net::{IpAddr, SocketAddr, TcpStream};
use std::sync::Arc;

// How often an idle control connection is looked at, in milliseconds: four times in its idle time, but not more often
// than once in a second, and once in a minute at least; once in ten seconds where its passive port waits a few seconds only.
fn patience(idle_ms: u64, is_legacy: bool) -> u64
    ensures between { (1000 ≤ result) × (result ≤ 60000) }
    ensures legacy { is_legacy ≡ true → result ≤ 10000 }
    ensures quarter { 4000 ≤ idle_ms → idle_ms ≤ 40000 → result ≡ idle_ms / 4 }
{
    let most = if is_legacy { 10_000 } else { 60_000 };
    (idle_ms / 4).max(1000).min(most)
}

impl<R: WorkerRuntime, H: JournalHub + Drop, S: Services> Worker<R, H, S> {
    /// Serves a control connection to its end. None where its socket could not be set up.
    #[inline(never)]
    pub fn serve(&mut self, stream: TcpStream, raw: SocketAddr) -> Option<ServeEnd> {
        let local = stream.local_addr().ok()?;
        let control = self.control(stream)?;
        let Ok(handle) = control.handle() else {
            drop(control);
            return None;
        };
        let session = self.state.hub.draw();
        let trace = self.trace();
        let opening = HubEvent {
            at: self.edge.now(),
            kind: EventKind::Connect {
                session,
                raw: told_address(raw),
                local: told_address(local),
                trace,
            },
        };
        self.talk(control, handle, session, local.ip(), opening, Answer::None)
    }

    // A random word for the trace of a session.
    pub(crate) fn trace(&mut self) -> u64 {
        (self.edge.word() & 0xffff_ffff_ffff_ffff) as u64
    }

    // The control connection over a stream.
    pub(crate) fn control(&self, stream: TcpStream) -> Option<SocketControl> {
        let options = &self.state.options;
        let patience = patience(options.idle_ms, options.mode.is_legacy());
        SocketControl::new(&self.rt, self.alloc, stream, patience, LIMIT).ok()
    }

    // The words of a session, whose loop others can wake from now on, with the shares that its control connection and its edge have
    // of what all threads use. None where memory ran out, or the server has stopped.
    fn enter_session(
        &mut self,
        session: u64,
        handle: ControlHandle,
    ) -> Option<
        (
            <S::Depot as Depot>::Words,
            Arc<StateOf<H, S>, Global>,
            Arc<Handoff, Global>,
        ),
    > {
        let state = Arc::try_clone(&self.state).ok()?;
        let Ok(handoff) = Arc::try_clone(&self.state.handoff) else {
            drop(state);
            return None;
        };
        let Ok(words) = self.state.depot.words() else {
            drop(handoff);
            drop(state);
            return None;
        };
        if self.state.handoff.enter(&self.rt, session, handle) {
            Some((words, state, handoff))
        } else {
            drop(handoff);
            drop(state);
            None
        }
    }

    // Serves a control connection while others can wake its loop, and closes it then. Where it ends by the stop of the server, the
    // client is told so; one that comes behind a stop is not served.
    #[inline(never)]
    pub(crate) fn talk<C: Control + Drop>(
        &mut self,
        control: C,
        handle: ControlHandle,
        session: u64,
        at: IpAddr,
        opening: HubEvent,
        answer: Answer,
    ) -> Option<ServeEnd>
        requires opening { is_opening opening.kind ≡ true }
    {
        match self.enter_session(session, handle) {
            Some((words, state, handoff)) => {
                self.talk_with(control, words, state, handoff, session, at, opening, answer)
            }
            None => {
                drop(opening);
                drop(answer);
                None
            }
        }
    }

    fn talk_with<C: Control + Drop>(
        &mut self,
        control: C,
        words: <S::Depot as Depot>::Words,
        state: Arc<StateOf<H, S>, Global>,
        handoff: Arc<Handoff, Global>,
        session: u64,
        at: IpAddr,
        opening: HubEvent,
        answer: Answer,
    ) -> Option<ServeEnd>
        requires opening { is_opening opening.kind ≡ true }
    {
        let mut words = words;
        let mut control = Stoppable::<R, H, S, C>::new(self.rt, session, state, control);
        // A connection may last, and moves no files.
        self.buffer = Vec::new(self.alloc);
        let system = SystemEdge::new(self.rt, self.alloc, at, LIMIT);
        let mut edge = SessionEdge::new(self.rt, self.alloc, session, handoff, system);
        let end = if control.look() {
            drop(opening);
            drop(answer);
            None
        } else {
            Some(serve_control_with(
                self.alloc,
                &mut self.desk,
                &mut control,
                &mut edge,
                &self.state.authenticator,
                &mut words,
                opening,
                answer,
            ))
        };
        control.end_jobs();
        if control.is_stopped() {
            let _ = control.write(STOPPING);
        }
        self.state.handoff.leave(&self.rt, session);
        let _ = control.close();
        drop(edge);
        drop(control);
        end
    }
}
