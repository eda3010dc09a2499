//! What comes to pass besides lines: looks at times, and the end.

ghost use Rattle.std.specs.Prelude.{◌≡◌, ◌≤◌, ◌++◌, [], ℕ, List, Option, Some, true, false, IfSome, IfNone, OnErr, IsErrOf, ◌⊎◌};
ghost use Rattle.ftp_base.specs.Outside.{HasRisen};
ghost use Rattle.ftp_talk.specs.Saying.{OnlyWrites};
ghost use Rattle.ftp_talk.specs.declared.halt.Halt.TheVariants.{Exhausted, Fault};
ghost use Rattle.ftp_talk.specs.Ground.{Ground};
ghost use Rattle.ftp_talk.specs.Turns.{Due, LineDue};
ghost use Rattle.ftp_talk.specs.Talk.{MayClose};
ghost use Rattle.ftp_talk.specs.Parts.{HeardLine};
ghost use Rattle.ftp_talk.specs.Extended.{TalkFrontHeard};
ghost use Rattle.ftp_talk.specs.Speaking.{IsCut, Standing, OutcomeHeard, StandsBehind, due_at, end_by, IsAbout};

use crate::control_session::{ControlSession, is_end};
use crate::halt::Halt;
use crate::serving::{Next, ServeEnd, next_of};
use crate::submitting::submit;
use ftp_base::{Control, Edge};
use ftp_events::EventKind;
use ftp_shared::Desk;

// How a talk ends where it goes no further.
pub(crate) fn end_by(halt: Halt) -> ServeEnd
    ensures { result ≡ end_by halt }
{
    match halt {
        Halt::Fault => ServeEnd::WriteFault,
        Halt::Memory => ServeEnd::OutOfMemory,
        Halt::Exhausted => ServeEnd::Exhausted,
    }
}

impl ControlSession {
    // Closes the connection where that is due, or no line is left.
    pub(crate) fn close<D: Desk, C: Control, E: Edge>(
        &mut self,
        desk: &mut D,
        control: &mut C,
        edge: &mut E,
    ) -> ServeEnd
        ensures ended { (g : Ground) (d : Due) (hs : List HeardLine) (rest : List ℕ) → IsAbout g D.vouches D.draws_next →
            Standing d g self.old (E.view edge.old) (D.view desk.old) (C.sending control.old).sent hs rest → MayClose d rest →
            OutcomeHeard result g (E.view edge.new) (D.view desk.new) (C.sending control.new).sent hs }
        ensures no_read_fault { result ≡ ServeEnd.ReadFault → HasRisen (C.faults control.old) (C.faults control.new) }
        ensures write_fault { result ≡ ServeEnd.WriteFault → HasRisen (C.faults control.old) (C.faults control.new) }
        ensures exhausted { result ≡ ServeEnd.Exhausted → D.exhausts ≡ true }
        ensures count { C.faults control.old ≤ C.faults control.new }
    {
        let session = self.session;
        match self.submit_for(desk, control, edge, EventKind::Closed { session }, false) {
            Ok(_) => ServeEnd::Ended,
            Err(halt) => end_by(halt),
        }
    }

    // Closes the connection where the talk was cut short and its session has not ended, and says nothing more.
    pub(crate) fn leave<D: Desk, E: Edge>(&self, desk: &mut D, edge: &mut E)
        ensures { (g : Ground) (hs : List HeardLine) (sent : Option (List ℕ)) → IsAbout g D.vouches D.draws_next →
            IsCut g self.now (E.view edge.old) (D.view desk.old) sent hs →
            TalkFrontHeard g (E.view edge.new) (D.view desk.new) sent hs }
    {
        if self.is_over {
            return;
        }
        let session = self.session;
        match submit(desk, edge, EventKind::Closed { session }) {
            Ok(_) => {}
            Err(_) => {}
        }
    }

    // Ends where a line, a look or a reply was cut short; else goes on as it says. It gives the end where that comes.
    pub(crate) fn proceed<D: Desk, C: Control, E: Edge>(
        &mut self,
        desk: &mut D,
        control: &mut C,
        edge: &mut E,
        next: Result<Next, Halt>,
    ) -> Option<ServeEnd>
        ensures goes_on { IfNone result ((C.left control.new ≡ C.left control.old) × OnErr next ⊥ × ((g : Ground) (hs : List HeardLine) (rest : List ℕ) →
            StandsBehind due_at next g self.old (E.view edge.old) (D.view desk.old) (C.sending control.old).sent hs rest →
            Standing LineDue g self.new (E.view edge.new) (D.view desk.new) (C.sending control.new).sent hs rest)) }
        ensures ended { IfSome result (λ end. (g : Ground) (hs : List HeardLine) (rest : List ℕ) → IsAbout g D.vouches D.draws_next →
            StandsBehind due_at next g self.old (E.view edge.old) (D.view desk.old) (C.sending control.old).sent hs rest →
            OutcomeHeard end g (E.view edge.new) (D.view desk.new) (C.sending control.new).sent hs) }
        ensures no_read_fault { result ≡ Some ServeEnd.ReadFault → HasRisen (C.faults control.old) (C.faults control.new) }
        ensures write_fault { result ≡ Some ServeEnd.WriteFault → IsErrOf next Fault ⊎ HasRisen (C.faults control.old) (C.faults control.new) }
        ensures exhausted { result ≡ Some ServeEnd.Exhausted → IsErrOf next Exhausted ⊎ (D.exhausts ≡ true) }
        ensures count { C.faults control.old ≤ C.faults control.new }
    {
        match next {
            Ok(Next::GoOn) => None,
            Ok(Next::Over) => Some(ServeEnd::Ended),
            Ok(Next::Close) => Some(self.close(desk, control, edge)),
            Err(halt) => {
                self.leave(desk, edge);
                Some(end_by(halt))
            }
        }
    }

    // Looks at the idle time of the session, and then at its slot.
    pub(crate) fn tick<D: Desk, C: Control, E: Edge>(
        &mut self,
        desk: &mut D,
        control: &mut C,
        edge: &mut E,
    ) -> Result<Next, Halt>
        ensures served { (g : Ground) (hs : List HeardLine) (rest : List ℕ) → IsAbout g D.vouches D.draws_next → g.start.ready ≡ false →
            Standing LineDue g self.old (E.view edge.old) (D.view desk.old) (C.sending control.old).sent hs rest →
            StandsBehind due_at result g self.new (E.view edge.new) (D.view desk.new) (C.sending control.new).sent hs rest }
        ensures control { OnlyWrites (IsErrOf result Fault) (C.left control.old) (C.left control.new) (C.faults control.old) (C.faults control.new) }
        ensures exhausted { IsErrOf result Exhausted → D.exhausts ≡ true }
    {
        let session = self.session;
        let decision = self.submit_for(
            desk,
            control,
            edge,
            EventKind::IdleTick { session },
            false,
        )?;
        if is_end(decision) {
            return Ok(Next::Over);
        }
        let session = self.session;
        let looked = self.submit_for(desk, control, edge, EventKind::SlotTick { session }, false)?;
        Ok(next_of(looked, Next::GoOn))
    }
}
