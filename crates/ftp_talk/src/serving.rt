//! A talk, line by line.

ghost use Rattle.std.specs.Prelude.{◌≡◌, ◌≤◌, ◌++◌, [], ℕ, List, Option, true, false, Ok, unwrap_or, IfOk, IsErrOf};
ghost use Rattle.ftp_control.specs.declared.command.Command.TheVariants as command;
ghost use Rattle.ftp_shared.specs.Outbox.{has_ticket};
ghost use Rattle.ftp_control.specs.Line.{parsed};
ghost use Rattle.ftp_control.specs.ControlLine.{IsLine};
ghost use Rattle.ftp_talk.specs.Saying.{OnlyWrites};
ghost use Rattle.ftp_talk.specs.declared.halt.Halt.TheVariants.{Exhausted, Fault};
ghost use Rattle.ftp_talk.specs.Ground.{Step, Ground, line_of};
ghost use Rattle.ftp_talk.specs.Turns.{LineDue};
ghost use Rattle.ftp_extras.specs.Extra.{gives_password};
ghost use Rattle.ftp_talk.specs.Commands.{is_in};
ghost use Rattle.ftp_talk.specs.Parts.{HeardLine, is_epsv_line};
ghost use Rattle.ftp_talk.specs.Speaking.{IsHearing, IsHeardAs, HearsLines, MayRefuse, ServesLines, Standing, StandsBehind, StandsBehindLine, due_at, IsAbout};
ghost use Rattle.ftp_talk.specs.Serving.{is_out, next_of};

use crate::control_session::{ControlSession, is_end};
use crate::halt::Halt;
use crate::saying::write_all;
use ftp_base::{AuthAnswer, Authenticator, Bytes, Control, Edge};
use ftp_control::{Command, LineError, Password, cut_word, parse_line};
use ftp_events::{Decision, EventKind, Login};
use ftp_extras::{Asker, Extra, Extras};
use ftp_shared::Desk;
use std::alloc::AllocError;

/// How serving a control connection ended.
#[derive(Clone, Copy, Debug, PartialEq, Eq)]
pub enum ServeEnd {
    /// An entry ended the session, and all that was due was sent.
    Ended,
    /// The session was not opened.
    Refused(Decision),
    /// The connection failed where it was read.
    ReadFault,
    /// The connection failed where it was written to.
    WriteFault,
    OutOfMemory,
    /// The desk takes no more events: the count of events is at its end.
    Exhausted,
}

// What comes behind a line.
#[derive(Clone, Copy, Debug, PartialEq, Eq)]
pub(crate) enum Next {
    GoOn,
    // The session has ended.
    Over,
    // The connection is to be closed.
    Close,
}

// What comes behind a decision where the session goes on so.
pub(crate) fn next_of(decision: Decision, on: Next) -> Next
    ensures { result ≡ next_of decision on }
{
    if is_end(decision) { Next::Over } else { on }
}

// Says whether the user is logged in.
fn is_in(login: Login) -> bool
    ensures { result ≡ is_in login }
{
    matches!(login, Login::LoggedIn)
}

// Says whether the password is out to be checked.
fn is_out(decision: Decision) -> bool
    ensures { result ≡ is_out decision }
{
    matches!(decision, Decision::PassOut)
}

// Says whether the line is an EPSV, for which a PASV is carried out.
fn is_epsv_line(extra: &Extra) -> bool
    ensures { result ≡ is_epsv_line extra.now }
{
    matches!(extra, Extra::Epsv)
}

impl ControlSession {
    // Answers a line that was heard, as the extras have it. What they say goes behind the reply, unless the session has ended with
    // its event.
    fn answer_heard<D: Desk, C: Control, E: Edge>(
        &mut self,
        desk: &mut D,
        control: &mut C,
        edge: &mut E,
        command: Command,
        is_refused: bool,
        extra: Extra,
    ) -> Result<Next, Halt>
        ensures served { (g : Ground) (hs : List HeardLine) (x : HeardLine) (rest : List ℕ) → IsAbout g D.vouches D.draws_next →
            Standing LineDue g self.old (E.view edge.old) (D.view desk.old) (C.sending control.old).sent hs (x.line ++ rest) →
            IsHearing self.old x → x.extra ≡ extra → IsHeardAs is_refused x.line command →
            StandsBehindLine result g self.new (E.view edge.new) (D.view desk.new) (C.sending control.new).sent hs x rest }
        ensures control { OnlyWrites (IsErrOf result Fault) (C.left control.old) (C.left control.new) (C.faults control.old) (C.faults control.new) }
        ensures exhausted { IsErrOf result Exhausted → D.exhausts ≡ true }
    {
        let is_epsv = is_epsv_line(&extra);
        let Ok((kind, lines)) = self.ask_heard(desk, edge, command, is_refused, extra) else {
            return Err(Halt::Memory);
        };
        let decision = self.submit_for(desk, control, edge, kind, is_epsv)?;
        if is_end(decision) {
            return Ok(Next::Over);
        }
        match write_all(control, lines.as_slice()) {
            Ok(()) => Ok(Next::GoOn),
            Err(failed) => Err(Halt::from(failed)),
        }
    }

    // Refuses a line that is not heard, or one that is too long and stands next, by the event that tells so.
    pub(crate) fn refuse<D: Desk, C: Control, E: Edge>(
        &mut self,
        desk: &mut D,
        control: &mut C,
        edge: &mut E,
        kind: Result<EventKind, AllocError>,
        on: Next,
    ) -> Result<Next, Halt>
        requires unticketed { IfOk kind (λ k. has_ticket k ≡ false) }
        ensures served { (g : Ground) (hs : List HeardLine) (step : Step) (rest : List ℕ) → IsAbout g D.vouches D.draws_next →
            Standing LineDue g self.old (E.view edge.old) (D.view desk.old) (C.sending control.old).sent hs (line_of step ++ rest) →
            MayRefuse g self.old step kind on rest →
            StandsBehind due_at result g self.new (E.view edge.new) (D.view desk.new) (C.sending control.new).sent hs rest }
        ensures control { OnlyWrites (IsErrOf result Fault) (C.left control.old) (C.left control.new) (C.faults control.old) (C.faults control.new) }
        ensures exhausted { IsErrOf result Exhausted → D.exhausts ≡ true }
    {
        let Ok(kind) = kind else {
            return Err(Halt::Memory);
        };
        let decision = self.submit_for(desk, control, edge, kind, false)?;
        Ok(next_of(decision, on))
    }

    // Serves a password: where it is out to be checked, the authenticator is asked.
    fn serve_password<D: Desk, C: Control, E: Edge, A: Authenticator>(
        &mut self,
        desk: &mut D,
        control: &mut C,
        edge: &mut E,
        auth: &A,
        password: Password,
    ) -> Result<Next, Halt>
        ensures served { (g : Ground) (hs : List HeardLine) (line rest : List ℕ) → IsAbout g D.vouches D.draws_next → g.start.answers ≡ A.may_answer auth.now →
            Standing LineDue g self.old (E.view edge.old) (D.view desk.old) (C.sending control.old).sent hs (line ++ rest) →
            IsLine line → parsed line ≡ Ok (command.Pass password) →
            StandsBehind due_at result g self.new (E.view edge.new) (D.view desk.new) (C.sending control.new).sent hs rest }
        ensures control { OnlyWrites (IsErrOf result Fault) (C.left control.old) (C.left control.new) (C.faults control.old) (C.faults control.new) }
        ensures exhausted { IsErrOf result Exhausted → D.exhausts ≡ true }
    {
        let kind = EventKind::Pass {
            session: self.session,
        };
        let decision = self.submit_for(desk, control, edge, kind, false)?;
        if is_out(decision) {
            let answer = self.ask_authenticator(auth, &password);
            let session = self.session;
            let kind = EventKind::AuthDone { session, answer };
            let checked = self.submit_for(desk, control, edge, kind, false)?;
            return Ok(next_of(checked, Next::GoOn));
        }
        Ok(next_of(decision, Next::GoOn))
    }

    // What the authenticator says of the name and a password.
    fn ask_authenticator<A: Authenticator>(&self, auth: &A, password: &Password) -> AuthAnswer
        ensures { A.may_answer auth.now (unwrap_or self.now.name []) password.now.0 self.now.client result ≡ true }
    {
        match &self.name {
            Some(name) => auth.check(name, &password.0, self.client),
            None => {
                let nobody = Bytes::from_vec(Vec::new(self.alloc));
                auth.check(&nobody, &password.0, self.client)
            }
        }
    }

    // Serves a line that is heard, as the extras have it: that of a command that gives no password, or one that is refused for its
    // parameter.
    fn serve_heard<D: Desk, C: Control, E: Edge, X: Extras>(
        &mut self,
        desk: &mut D,
        control: &mut C,
        edge: &mut E,
        extras: &mut X,
        command: Command,
        line: &[u8],
        is_refused: bool,
    ) -> Result<Next, Halt>
        requires unsecret { gives_password command ≡ false }
        ensures served { (g : Ground) (x0 : X) (hs : List HeardLine) (rest : List ℕ) → IsAbout g D.vouches D.draws_next →
            HearsLines (X.may x0) (X.pending x0) (X.may extras.old) (X.pending extras.old) hs →
            Standing LineDue g self.old (E.view edge.old) (D.view desk.old) (C.sending control.old).sent hs (line.now ++ rest) →
            IsLine line.now → IsHeardAs is_refused line.now command →
            ServesLines (X.may x0) (X.pending x0) (X.may extras.new) (X.pending extras.new) result g self.new (E.view edge.new) (D.view desk.new) (C.sending control.new).sent rest }
        ensures control { OnlyWrites (IsErrOf result Fault) (C.left control.old) (C.left control.new) (C.faults control.old) (C.faults control.new) }
        ensures exhausted { IsErrOf result Exhausted → D.exhausts ≡ true }
        ensures extras_count { X.faults extras.old ≤ X.faults extras.new }
    {
        let asker = Asker {
            name: self.name.as_ref(),
            is_in: is_in(self.login),
            cwd: &self.cwd,
        };
        let Ok(extra) = extras.hear(asker, &command, line) else {
            return Err(Halt::Memory);
        };
        self.answer_heard(desk, control, edge, command, is_refused, extra)
    }

    // Serves a line with its line feed.
    pub(crate) fn serve_line<D: Desk, C: Control, E: Edge, A: Authenticator, X: Extras>(
        &mut self,
        desk: &mut D,
        control: &mut C,
        edge: &mut E,
        auth: &A,
        extras: &mut X,
        line: &[u8],
    ) -> Result<Next, Halt>
        ensures served { (g : Ground) (x0 : X) (hs : List HeardLine) (rest : List ℕ) → IsAbout g D.vouches D.draws_next → g.start.answers ≡ A.may_answer auth.now →
            HearsLines (X.may x0) (X.pending x0) (X.may extras.old) (X.pending extras.old) hs →
            Standing LineDue g self.old (E.view edge.old) (D.view desk.old) (C.sending control.old).sent hs (line.now ++ rest) → IsLine line.now →
            ServesLines (X.may x0) (X.pending x0) (X.may extras.new) (X.pending extras.new) result g self.new (E.view edge.new) (D.view desk.new) (C.sending control.new).sent rest }
        ensures control { OnlyWrites (IsErrOf result Fault) (C.left control.old) (C.left control.new) (C.faults control.old) (C.faults control.new) }
        ensures exhausted { IsErrOf result Exhausted → D.exhausts ≡ true }
        ensures extras_count { X.faults extras.old ≤ X.faults extras.new }
    {
        match parse_line(self.alloc, line) {
            Ok(command) => match command {
                Command::Pass { password } => {
                    self.serve_password(desk, control, edge, auth, password)
                }
                command => self.serve_heard(desk, control, edge, extras, command, line, false),
            },
            Err(LineError::OutOfMemory) => Err(Halt::Memory),
            Err(LineError::Utf8) => {
                let kind = self.refused_as(LineError::Utf8);
                self.refuse(desk, control, edge, kind, Next::Close)
            }
            Err(LineError::InvalidEol) => {
                let kind = self.refused_as(LineError::InvalidEol);
                self.refuse(desk, control, edge, kind, Next::GoOn)
            }
            Err(LineError::InvalidCommand) => {
                let (word, _) = cut_word(line);
                let Ok(word) = Bytes::from_slice(self.alloc, word) else {
                    return Err(Halt::Memory);
                };
                let command = Command::Other { word };
                self.serve_heard(desk, control, edge, extras, command, line, true)
            }
        }
    }
}
