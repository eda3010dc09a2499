//! One event, and what is said on it.

ghost use Rattle.std.specs.Prelude.{◌≡◌, ◌⊎◌, Bool, List, false, true, IfErr, IfOk, OnErr, IsErrOf};
ghost use Rattle.ftp_base.specs.Edge.{EdgeView, Takes, behind_moment};
ghost use Rattle.ftp_base.specs.Outside.{HasRisen};
ghost use Rattle.ftp_events.specs.declared.event.EventKind.{EventKind};
ghost use Rattle.ftp_shared.specs.Outbox.{has_ticket};
ghost use Rattle.ftp_shared.specs.Desk.{DeskView, SameDesk};
ghost use Rattle.ftp_talk.specs.Saying.{OnlyWrites};
ghost use Rattle.ftp_talk.specs.declared.halt.Halt.TheVariants.{Exhausted, Fault, Memory};
ghost use Rattle.ftp_talk.specs.Ground.{Step, Turn, Ground};
ghost use Rattle.ftp_talk.specs.Parts.{epsv_port};
ghost use Rattle.ftp_talk.specs.Pieces.{Pieces};
ghost use Rattle.ftp_talk.specs.Speaking.{Asking, Entered, IsSpoken};

use crate::control_session::ControlSession;
use crate::halt::Halt;
use crate::saying::say_for;
use ftp_base::{Control, Edge};
use ftp_events::{Answer, Decision, EventKind, HubEvent};
use ftp_shared::{AppendError, Desk, Told};

// Submits an event of this moment.
pub(crate) fn submit<D: Desk, E: Edge>(
    desk: &mut D,
    edge: &mut E,
    kind: EventKind,
) -> Result<Told, Halt>
    requires unticketed { has_ticket kind ≡ false }
    ensures entered { IfOk result (λ told. Entered D.vouches (E.view edge.old) (E.view edge.new) (D.view desk.old) (D.view desk.new) told.earlier told.entry kind) }
    ensures taken { Takes behind_moment (E.view edge.old) (E.view edge.new) }
    ensures unpaused { (E.view edge.new).paused ≡ (E.view edge.old).paused }
    ensures refused { OnErr result (SameDesk (D.view desk.old) (D.view desk.new)) }
    ensures refused_rose { OnErr result (HasRisen (D.view desk.old).refused (D.view desk.new).refused) }
    ensures exhausted { IsErrOf result Exhausted → D.exhausts ≡ true }
    ensures only { IfErr result (λ halt. (halt ≡ Memory) ⊎ (halt ≡ Exhausted)) }
{
    let at = edge.now();
    match desk.submit(HubEvent { at, kind }, Answer::None) {
        Ok(told) => Ok(told),
        Err(AppendError::OutOfMemory) => Err(Halt::Memory),
        Err(AppendError::Exhausted) => Err(Halt::Exhausted),
    }
}

// The port that is granted for an EPSV.
fn epsv_port(is_epsv: bool, decision: Decision) -> Option<u16>
    ensures { result ≡ epsv_port is_epsv decision }
{
    match decision {
        Decision::Granted { port } if is_epsv => Some(port),
        _ => None,
    }
}

impl ControlSession {
    // Submits an event, takes in what was decided, and says what is due; for an EPSV the port that is granted is said as an EPSV
    // has it.
    pub(crate) fn submit_for<D: Desk, C: Control, E: Edge>(
        &mut self,
        desk: &mut D,
        control: &mut C,
        edge: &mut E,
        kind: EventKind,
        is_epsv: bool,
    ) -> Result<Decision, Halt>
        requires unticketed { has_ticket kind ≡ false }
        ensures spoke { (g : Ground) (ts : List Turn) (pieces : Pieces) (step : Step) → g.start.vouches ≡ D.vouches →
            Asking g self.old (E.view edge.old) (D.view desk.old) (C.sending control.old).sent ts pieces kind →
            IsSpoken result g self.new (E.view edge.new) (D.view desk.new) (C.sending control.new).sent ts pieces step kind is_epsv }
        ensures control { OnlyWrites (IsErrOf result Fault) (C.left control.old) (C.left control.new) (C.faults control.old) (C.faults control.new) }
        ensures exhausted { IsErrOf result Exhausted → D.exhausts ≡ true }
    {
        match submit(desk, edge, kind) {
            Ok(told) => self.answer(control, edge, &told, is_epsv),
            Err(halt) => Err(halt),
        }
    }

    // Takes in what was told on an event, and says what is due.
    fn answer<C: Control, E: Edge>(
        &mut self,
        control: &mut C,
        edge: &mut E,
        told: &Told,
        is_epsv: bool,
    ) -> Result<Decision, Halt>
        ensures spoke { (g : Ground) (ts : List Turn) (pieces : Pieces) (step : Step) (vouches : Bool) (before : EdgeView) (desk0 desk : DeskView) (kind : EventKind) →
            g.start.vouches ≡ vouches → Asking g self.old before desk0 (C.sending control.old).sent ts pieces kind →
            Entered vouches before (E.view edge.old) desk0 desk told.now.earlier told.now.entry kind →
            IsSpoken result g self.new (E.view edge.new) desk (C.sending control.new).sent ts pieces step kind is_epsv }
        ensures control { OnlyWrites (IsErrOf result Fault) (C.left control.old) (C.left control.new) (C.faults control.old) (C.faults control.new) }
        ensures unexhausted { IsErrOf result Exhausted → ⊥ }
    {
        let decision = told.entry.decision;
        let Ok(()) = self.learn(&told.entry) else {
            return Err(Halt::Memory);
        };
        let session = self.session;
        let port = epsv_port(is_epsv, decision);
        match say_for(
            control,
            edge,
            &mut self.text,
            session,
            port,
            told.earlier.as_slice(),
            told.entry.actions.as_slice(),
        ) {
            Ok(()) => Ok(decision),
            Err(failed) => Err(Halt::from(failed)),
        }
    }
}
