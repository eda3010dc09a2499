//! Where the threads of a server submit their events.

ghost use Rattle.std.specs.Prelude.{◌≡◌, ◌+◌, ◌≤◌, Some, None, [], true, false, IfOk, IsErrOf, OnOk, OnErr};
ghost use Rattle.std.specs.Bool.{then_some};
ghost use Rattle.ftp_base.specs.declared.error_kind.ErrorKind.TheVariants.{LocalError};
ghost use Rattle.ftp_base.specs.Outside.{HasRisen};
ghost use Rattle.ftp_shared.specs.Outbox.{has_ticket};
ghost use Rattle.ftp_shared.specs.Desk.{IsVouched, MaySay, RisesBy};
ghost use Rattle.ftp_shared.specs.Next.{IsTurnAt};
ghost use Rattle.ftp_workers.specs.Listening.{may_end_wait};
ghost use Rattle.ftp_workers.specs.Telling.{IsTelling};

use crate::event_sinks::EventSinks;
use crate::server_state::ServerState;
use crate::services::Services;
use ftp_base::{Authenticator, Bytes, ErrorKind, Gate, Storage, StoreError};
use ftp_events::{Answer, HubEvent};
use ftp_options::Options;
use ftp_shared::{AppendError, Desk, JournalHub, Receipt, Submitted, Told, Turn};
use ftp_system::Depot;
use std::alloc::{AllocError, Global};
use std::sync::{Arc, Wait};

/// A desk over the hub that all threads share, with the pass of one thread.
///
/// What an entry asks for is carried out before the entry is told.
#[derive(Drop)]
pub struct ServerDesk<
    R: Wait + Drop,
    H: JournalHub + Drop,
    A: Authenticator + Drop,
    N: EventSinks + Drop,
    D: Depot + Drop,
    G: Gate + Drop,
> {
    pub(crate) rt: R,
    pub(crate) state: Arc<ServerState<H, A, N, D, G>, Global>,
    pub(crate) pass: H::Pass,
    pub(crate) faults: u64,
    pub(crate) refused: u64,
}

/// The desk of a server with these services.
pub type DeskOf<R, H, S> = ServerDesk<
    R,
    H,
    <S as Services>::Authenticator,
    <S as Services>::Sinks,
    <S as Services>::Depot,
    <S as Services>::Gate,
>;

impl<
    R: Wait + Drop,
    H: JournalHub + Drop,
    A: Authenticator + Drop,
    N: EventSinks + Drop,
    D: Depot + Drop,
    G: Gate + Drop,
> ServerDesk<R, H, A, N, D, G> {
    /// # Proved
    ///
    /// - A desk has the pass that it was made with, and gives it back (`pass`; also `ServerDesk::into_pass`).
    pub fn new(
        rt: R,
        state: Arc<ServerState<H, A, N, D, G>, Global>,
        pass: H::Pass,
    ) -> ServerDesk<R, H, A, N, D, G>
        ensures pass { result.pass ≡ pass }
    {
        ServerDesk {
            rt,
            state,
            pass,
            faults: 0,
            refused: 0,
        }
    }

    /// The pass, for another desk over the same server.
    pub fn into_pass(self) -> H::Pass
        ensures { result ≡ self.pass }
    {
        let ServerDesk {
            rt: _,
            state: _,
            pass,
            faults: _,
            refused: _,
        } = self;
        pass
    }

    /// Has an event decided that no control loop has a part in, and does what its entry asks for.
    pub(crate) fn submit_event(
        &mut self,
        event: HubEvent,
        answer: Answer,
    ) -> Result<(), AppendError>
        requires unticketed { has_ticket event.kind ≡ false }
        ensures share { H.counts ≡ true → OnOk result (H.made self.new.pass ≡ H.made self.old.pass + 1) }
        ensures same_share { OnErr result (H.made self.new.pass ≡ H.made self.old.pass) }
        ensures kept_share { H.made self.old.pass ≤ H.made self.new.pass }
        ensures once { H.made self.new.pass ≤ H.made self.old.pass + 1 }
        ensures faults { self.new.faults ≡ self.old.faults }
        ensures refused { self.new.refused ≡ self.old.refused }
    {
        let submitted = self
            .state
            .hub
            .submit(&self.rt, &mut self.pass, event, answer)?;
        self.carry_out(submitted);
        Ok(())
    }

    // Does what the entry of a turn asks for, and tells the session of it. Where there is none, that is counted, and the connection
    // that came with its event is closed. It keeps a frame of its own.
    #[inline(never)]
    fn tell(
        &mut self,
        turn: Result<Turn, AppendError>,
        link: Option<u64>,
    ) -> Result<Told, AppendError>
        ensures told { IsTelling turn result }
        ensures pass { self.new.pass ≡ self.old.pass }
        ensures faults { self.new.faults ≡ self.old.faults }
        ensures unrefused { OnOk result (self.new.refused ≡ self.old.refused) }
        ensures refused_rose { OnErr result (HasRisen self.old.refused self.new.refused) }
        ensures refusals { self.old.refused ≤ self.new.refused }
    {
        let turn = match turn {
            Ok(turn) => turn,
            Err(error) => {
                self.state.handoff.forget(&self.rt, link);
                self.refused = self.refused.saturating_add(1);
                return Err(error);
            }
        };
        self.state.handoff.wake_all(&self.rt, turn.others());
        let Turn { earlier, submitted } = turn;
        let Submitted { receipt, job } = submitted;
        let Receipt { place: _, entry } = receipt;
        if let Some(session) = entry.event.kind.named_session() {
            self.state.handoff.open_port(&self.rt, session, &entry);
        }
        self.state.carry_out_here(&self.rt, &entry, job);
        Ok(Told { earlier, entry })
    }

    // Asks a storage for a directory.
    fn look_for(&mut self, user: &Bytes, path: &Bytes) -> Result<Option<ErrorKind>, AllocError>
        ensures may { IfOk result (λ refusal. MaySay None path.now refusal) }
        ensures fault_rose { IfOk result (λ refusal. refusal ≡ Some LocalError → HasRisen self.old.faults self.new.faults) }
        ensures count { self.old.faults ≤ self.new.faults }
        ensures refused { self.new.refused ≡ self.old.refused }
        ensures pass { self.new.pass ≡ self.old.pass }
    {
        let mut storage = self.state.depot.store()?;
        let found = storage.metadata(user, path);
        match found {
            Ok(meta) => {
                if meta.is_dir {
                    Ok(None)
                } else {
                    Ok(Some(ErrorKind::PermanentDirectoryNotAvailable))
                }
            }
            Err(StoreError::Kind(_)) => Ok(Some(ErrorKind::PermanentDirectoryNotAvailable)),
            Err(StoreError::Failed) => {
                self.faults = self.faults.saturating_add(1);
                Ok(Some(ErrorKind::LocalError))
            }
            Err(StoreError::OutOfMemory) => Err(AllocError),
        }
    }

    /// Does what an entry asks for.
    pub(crate) fn carry_out(&self, submitted: Submitted) {
        self.state.handoff.wake_all(&self.rt, submitted.others());
        let Submitted { receipt, job } = submitted;
        self.state.carry_out(&self.rt, &receipt.entry, job);
        drop(receipt);
    }
}

impl<
    R: Wait + Drop,
    H: JournalHub + Drop,
    A: Authenticator + Drop,
    N: EventSinks + Drop,
    D: Depot + Drop,
    G: Gate + Drop,
> Desk for ServerDesk<R, H, A, N, D, G> {
    ghost view = { λ d. record {
      options = H.options;
      files = None;
      faults = d.faults;
      refused = d.refused;
      journal = None;
      outbox = λ _. [];
      share = then_some H.counts (H.made d.pass);
    } };

    ghost vouches = { true };

    ghost exhausts = { H.exhausts };

    fn options(&self) -> &Options {
        &self.state.options
    }

    fn submit(&mut self, event: HubEvent, answer: Answer) -> Result<Told, AppendError>
        requires unticketed { has_ticket event.kind ≡ false }
        ensures event { IfOk result (λ told. told.entry.event ≡ event) }
        ensures answer { IfOk result (λ told. told.entry.answer ≡ answer) }
        ensures vouched { IfOk result (λ told. IsVouched H.options told.earlier told.entry) }
        ensures share { OnOk result (RisesBy 1 (then_some H.counts (H.made self.old.pass)) (then_some H.counts (H.made self.new.pass))) }
        // Only an event that may end its session's wait has another before it.
        ensures alone { H.counts ≡ true → may_end_wait event.kind ≡ false → OnOk result (H.made self.new.pass ≡ H.made self.old.pass + 1) }
        ensures second { OnOk result (H.made self.new.pass ≤ H.made self.old.pass + 2) }
        ensures same_share { OnErr result (RisesBy 0 (then_some H.counts (H.made self.old.pass)) (then_some H.counts (H.made self.new.pass))) }
        ensures faults { self.new.faults ≡ self.old.faults }
        ensures unrefused { OnOk result (self.new.refused ≡ self.old.refused) }
        ensures refused_rose { OnErr result (HasRisen self.old.refused self.new.refused) }
        ensures refusals { self.old.refused ≤ self.new.refused }
        ensures exhausted { IsErrOf result AppendError.Exhausted → H.exhausts ≡ true }
    {
        self.accept_before(&event);
        let link = event.kind.link_number();
        let turn = self
            .state
            .hub
            .submit_for(&self.rt, &mut self.pass, event, answer);
        self.tell(turn, link)
    }

    fn draw(&mut self) -> u64 {
        self.state.hub.draw()
    }

    fn directory(&mut self, user: &Bytes, path: &Bytes) -> Result<Option<ErrorKind>, AllocError> {
        self.look_for(user, path)
    }
}
