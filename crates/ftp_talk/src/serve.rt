//! The lines of a control connection, one after the other, to their end.

ghost use Rattle.std.specs.Prelude.{◌≡◌, ◌≤◌, ◌++◌, [], ℕ, List, true, Option, Some, length, IfSome, IfNone, IsErrOf};
ghost use Rattle.ftp_base.specs.Outside.{HasRisen};
ghost use Rattle.ftp_control.specs.ControlLine.{IsHeld, held_in, line_in};
ghost use Rattle.ftp_talk.specs.Saying.{OnlyWrites};
ghost use Rattle.ftp_talk.specs.declared.halt.Halt.TheVariants.{Exhausted, Fault};
ghost use Rattle.ftp_talk.specs.Ground.{Ground};
ghost use Rattle.ftp_talk.specs.Extended.{OutcomeWith};
ghost use Rattle.ftp_talk.specs.Parts.{HeardLine};
ghost use Rattle.ftp_talk.specs.Speaking.{Talking, HearsLines, IsGot, IsLineWithin, IsOf, ServesLines, Standing};
ghost use Rattle.ftp_talk.specs.Turns.{LineDue};

use crate::control_session::ControlSession;
use crate::halt::Halt;
use crate::serving::{Next, ServeEnd};
use ftp_base::{Authenticator, Control, Edge};
use ftp_control::{Got, Held, Span, next_control_line, widen};
use ftp_extras::Extras;
use ftp_shared::Desk;

impl ControlSession {
    // Serves what was read.
    fn serve_got<D: Desk, C: Control, E: Edge, A: Authenticator, X: Extras>(
        &mut self,
        desk: &mut D,
        control: &mut C,
        edge: &mut E,
        auth: &A,
        extras: &mut X,
        bytes: &[u8],
        got: Got,
    ) -> Result<Next, Halt>
        requires within { IsLineWithin bytes.now got }
        ensures served { (g : Ground) (x0 : X) (hs : List HeardLine) (rest : List ℕ) → IsOf g D.vouches D.draws_next C.is_always_ready (A.may_answer auth.now) →
            HearsLines (X.may x0) (X.pending x0) (X.may extras.old) (X.pending extras.old) hs →
            Standing LineDue g self.old (E.view edge.old) (D.view desk.old) (C.sending control.old).sent hs (line_in bytes.now got ++ rest) → IsGot C.is_always_ready bytes.now got rest →
            ServesLines (X.may x0) (X.pending x0) (X.may extras.new) (X.pending extras.new) result g self.new (E.view edge.new) (D.view desk.new) (C.sending control.new).sent rest }
        ensures control { OnlyWrites (IsErrOf result Fault) (C.left control.old) (C.left control.new) (C.faults control.old) (C.faults control.new) }
        ensures exhausted { IsErrOf result Exhausted → D.exhausts ≡ true }
        ensures extras_count { X.faults extras.old ≤ X.faults extras.new }
    {
        match got {
            Got::Line(span) => {
                let line = &bytes[span.start..span.end];
                self.serve_line(desk, control, edge, auth, extras, line)
            }
            Got::Wait => self.tick(desk, control, edge),
            Got::Long => {
                let kind = self.too_long();
                self.refuse(desk, control, edge, kind, Next::Close)
            }
            Got::Full => Ok(Next::GoOn),
            Got::End => Ok(Next::GoOn),
        }
    }

    // Reads a line and serves it. It gives the end where that comes.
    fn serve_next<D: Desk, C: Control, E: Edge, A: Authenticator, X: Extras>(
        &mut self,
        desk: &mut D,
        control: &mut C,
        edge: &mut E,
        auth: &A,
        extras: &mut X,
        buffer: &mut [u8],
        held: &mut Held,
    ) -> Option<ServeEnd>
        requires held { IsHeld buffer.old held.old }
        requires room { length buffer.old ≤ 8193 }
        ensures goes_on { IfNone result ((g : Ground) (x0 : X) (hs : List HeardLine) → IsOf g D.vouches D.draws_next C.is_always_ready (A.may_answer auth.now) →
            HearsLines (X.may x0) (X.pending x0) (X.may extras.old) (X.pending extras.old) hs →
            Talking g self.old (E.view edge.old) (D.view desk.old) (C.sending control.old).sent hs (held_in buffer.old held.old) (C.left control.old) →
            (hs1 : List HeardLine) × HearsLines (X.may x0) (X.pending x0) (X.may extras.new) (X.pending extras.new) hs1
            × Talking g self.new (E.view edge.new) (D.view desk.new) (C.sending control.new).sent hs1 (held_in buffer.new held.new) (C.left control.new)) }
        ensures ended { IfSome result (λ end. (g : Ground) (x0 : X) (hs : List HeardLine) → IsOf g D.vouches D.draws_next C.is_always_ready (A.may_answer auth.now) →
            HearsLines (X.may x0) (X.pending x0) (X.may extras.old) (X.pending extras.old) hs →
            Talking g self.old (E.view edge.old) (D.view desk.old) (C.sending control.old).sent hs (held_in buffer.old held.old) (C.left control.old) →
            OutcomeWith (X.may x0) (X.pending x0) end g (E.view edge.new) (D.view desk.new) (C.sending control.new).sent) }
        ensures read_fault { result ≡ Some ServeEnd.ReadFault → HasRisen (C.faults control.old) (C.faults control.new) }
        ensures write_fault { result ≡ Some ServeEnd.WriteFault → HasRisen (C.faults control.old) (C.faults control.new) }
        ensures exhausted { result ≡ Some ServeEnd.Exhausted → D.exhausts ≡ true }
        ensures count { C.faults control.old ≤ C.faults control.new }
        ensures extras_count { X.faults extras.old ≤ X.faults extras.new }
        ensures held { IsHeld buffer.new held.new }
        ensures len { length buffer.new ≡ length buffer.old }
    {
        match next_control_line(buffer, held, control) {
            Ok(Got::End) => Some(self.close(desk, control, edge)),
            Ok(got) => {
                let next = self.serve_got(desk, control, edge, auth, extras, buffer, got);
                self.proceed(desk, control, edge, next)
            }
            Err(_) => {
                self.leave(desk, edge);
                Some(ServeEnd::ReadFault)
            }
        }
    }
}

// Serves the lines to their end, by way of a buffer that becomes one into which any line fits once a line is longer.
pub(crate) fn serve_lines<D: Desk, C: Control, E: Edge, A: Authenticator, X: Extras>(
    state: &mut ControlSession,
    desk: &mut D,
    control: &mut C,
    edge: &mut E,
    auth: &A,
    extras: &mut X,
    buffer: &mut Vec<u8>,
) -> ServeEnd
    requires room { length buffer.old.items ≤ 8193 }
    ensures ended { (g : Ground) → IsOf g D.vouches D.draws_next C.is_always_ready (A.may_answer auth.now) →
        Talking g state.old (E.view edge.old) (D.view desk.old) (C.sending control.old).sent [] [] (C.left control.old) →
        OutcomeWith (X.may extras.old) (X.pending extras.old) result g (E.view edge.new) (D.view desk.new) (C.sending control.new).sent }
    ensures read_fault { result ≡ ServeEnd.ReadFault → HasRisen (C.faults control.old) (C.faults control.new) }
    ensures write_fault { result ≡ ServeEnd.WriteFault → HasRisen (C.faults control.old) (C.faults control.new) }
    ensures exhausted { result ≡ ServeEnd.Exhausted → D.exhausts ≡ true }
    ensures count { C.faults control.old ≤ C.faults control.new }
    ensures extras_count { X.faults extras.old ≤ X.faults extras.new }
{
    let mut held = Held {
        span: Span { start: 0, end: 0 },
        scanned: 0,
    };
    for _ in 0..u64::MAX {
        if widen(buffer, held).is_err() {
            state.leave(desk, edge);
            return ServeEnd::OutOfMemory;
        }
        let bytes = buffer.as_mut_slice();
        if let Some(end) = state.serve_next(desk, control, edge, auth, extras, bytes, &mut held) {
            return end;
        }
    }
    state.leave(desk, edge);
    ServeEnd::OutOfMemory
}
