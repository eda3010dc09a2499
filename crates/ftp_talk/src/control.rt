//! Serving a control connection, from the opening of its session on.

ghost use Rattle.std.specs.Prelude.{◌≡◌, ◌-◌, ◌^◌, ◌<◌, ◌≤◌, ◌∷◌, ℕ, List, Option, Some, true, false, IfOk, IfErr, OnOk, OnErr, IsErrOf};
ghost use Rattle.ftp_base.specs.declared.fault.Failed.TheVariants.{Fault};
ghost use Rattle.ftp_base.specs.Outside.{HasRisen, Writes};
ghost use Rattle.ftp_events.specs.declared.entry.Entry.{Entry};
ghost use Rattle.ftp_control.specs.Writing.{WritesFront};
ghost use Rattle.ftp_talk.specs.Saying.{greeting_line, OnlyWrites};
ghost use Rattle.ftp_talk.specs.Ground.{Ground, Start};
ghost use Rattle.ftp_talk.specs.declared.control_session.ControlSession.{ControlSession};
ghost use Rattle.ftp_talk.specs.declared.control_session.Peer.{Peer};
ghost use Rattle.ftp_talk.specs.Extended.{TalkFrontHeard};
ghost use Rattle.ftp_talk.specs.Halts.{halt_by};
ghost use Rattle.ftp_talk.specs.Parts.{HeardLine};
ghost use Rattle.ftp_talk.specs.Speaking.{Begins, IsAbout, IsCut, Knows, end_by};
ghost use Rattle.ftp_talk.specs.Control.{client_of, peer_of, is_opening, is_opened, is_fault, HasOpened, IsUnopened, Serves};
ghost use Rattle.ftp_talk.specs.ControlWith.{ServesWith};

use crate::control_session::{ControlSession, Peer};
use crate::ending::end_by;
use crate::halt::Halt;
use crate::saying::{put_greeting, write_all};
use crate::serve::serve_lines;
use crate::serving::ServeEnd;
use ftp_base::{Authenticator, Bytes, Control, Edge, Failed, IpAddr, Link};
use ftp_events::{Answer, Decision, EventKind, HubEvent};
use ftp_extras::{Extras, NoExtras};
use ftp_options::Options;
use ftp_shared::{AppendError, Desk};
use std::alloc::{AllocError, Global};

// How many bytes the buffer has until a line is longer.
const FIRST_SIZE: usize = 512;

// The client: behind a proxy the one that the header names.
fn client_of(raw: IpAddr, answer: &Answer) -> IpAddr
    ensures { result ≡ client_of raw answer.now }
{
    match answer {
        Answer::Header(Ok(line)) => line.source.ip,
        _ => raw,
    }
}

// The session that an event opens, with its peer and its client.
fn peer_of(kind: &EventKind, answer: &Answer) -> Option<Peer>
    ensures { result ≡ peer_of kind.now answer.now }
{
    match kind {
        EventKind::Connect { session, raw, .. } => Some(Peer {
            session: *session,
            raw: raw.ip,
            client: raw.ip,
        }),
        EventKind::Proxied { number, raw, .. } => Some(Peer {
            session: *number,
            raw: raw.ip,
            client: client_of(raw.ip, answer),
        }),
        _ => None,
    }
}

// Says whether the decision opens a session.
fn is_opened(decision: Decision) -> bool
    ensures { result ≡ is_opened decision }
{
    matches!(decision, Decision::Opened)
}

impl ControlSession {
    // Says the greeting.
    fn greet<L: Link>(&mut self, link: &mut L, greeting: &Option<Bytes>) -> Result<(), Failed>
        ensures wrote { OnOk result (Writes (L.sending link.old).sent (L.sending link.new).sent (greeting_line greeting.now)) }
        ensures front { OnErr result (WritesFront (L.sending link.old).sent (L.sending link.new).sent (greeting_line greeting.now)) }
        ensures link { OnlyWrites (IsErrOf result Fault) (L.left link.old) (L.left link.new) (L.faults link.old) (L.faults link.new) }
        ensures known { (g : Ground) (h : List Entry) → Knows g self.old h → Knows g self.new h }
        ensures over { self.new.is_over ≡ self.old.is_over }
    {
        self.text.clear();
        if put_greeting(&mut self.text, greeting).is_err() {
            return Err(Failed::Memory);
        }
        write_all(link, self.text.as_slice())
    }

    // Closes the session whose greeting was cut short, and gives the end.
    fn cut<D: Desk, E: Edge>(&self, desk: &mut D, edge: &mut E, failed: Failed) -> ServeEnd
        ensures left { (g : Ground) (hs : List HeardLine) (sent : Option (List ℕ)) → IsAbout g D.vouches D.draws_next →
            IsCut g self.now (E.view edge.old) (D.view desk.old) sent hs →
            TalkFrontHeard g (E.view edge.new) (D.view desk.new) sent hs }
        ensures ended { result ≡ end_by (halt_by failed) }
    {
        self.leave(desk, edge);
        end_by(Halt::from(failed))
    }
}

/// Serves a control connection: submits the opening, greets the client, and serves its lines to their end.
///
/// A line has at most 8,192 bytes with its line feed. It reads into one buffer, of 512 bytes until a line is longer and of 8,193
/// from then on, and waits for a second at most before it looks at the times of the session.
///
/// # Proved
///
/// - Where the opening was not decided `Opened`, that decision is the answer, nothing else was submitted, and nothing
///   was sent (`served`).
/// - What is submitted is what the lines ask for: each line one event, of the talk's session, by its command; a
///   password that is out to be checked is followed by an answer that the authenticator may give for it, and nothing
///   else is; a line that is too long or no text is answered, and then the connection is closed; a look at the idle
///   time, and behind it one at the slot, only where the control cannot be read at any time (`served`).
/// - Lookups, bound ports and connections are asked for only of a user who is logged in, where the mode is on, and a
///   connection only to the peer's address; what is not asked for is none, and what is asked for is an answer that may
///   come; moments, words and answers are the next of the edge's lists, where it tells them, and no more are missing
///   than its count rose by (`served`).
/// - Where the desk tells its journal, it grew by the entries of the talk, and where it vouches, each of them is the
///   next one of a right and acted log, with the last replies that this log sends to the session before it; where the
///   share is told, it rose by 1 for each, at least (`served`).
/// - A talk that has ended: the entries stop at the first that ends the session, or at one that closes the connection
///   behind the lines; the greeting, each reply that came earlier and each reply of an entry was sent, whole and in
///   order, and the edge paused as long as all their delays (`served`).
/// - Any other end: the turns so far, then one that closes the connection; none does only where the session had ended,
///   or where the desk took an event no more. A part from the front of what was due was sent, and
///   no byte of a reply before its delay and those of all replies before it were paused (`served`).
/// - An end by a fault only where the control's count rose; so where none of its calls failed the talk ended, was not
///   opened, memory ran out, or the count of events was at its end (`read_fault`, `write_fault`, `complete`). The latter
///   only over a desk whose count can come to its end (`exhausted`; also `Desk::submit`: `exhausted`).
/// - A password is in no event: the event of PASS names the session alone, and no other event stands for its line
///   (`served`).
pub fn serve_control<D: Desk, C: Control, E: Edge, A: Authenticator>(
    alloc: Global,
    desk: &mut D,
    control: &mut C,
    edge: &mut E,
    auth: &A,
    opening: HubEvent,
    answer: Answer,
) -> ServeEnd
    requires opening { is_opening opening.kind ≡ true }

    // What was submitted is what the lines ask for, as edge, storage and authenticator answered, and what was sent is what
    // was replied: all of it at the end of the talk, else a part from the front. A session that may be live is closed.
    ensures served { Serves result opening answer (record {
      edge = E.view edge.old;
      desk = D.view desk.old;
      input = C.left control.old;
      sent = (C.sending control.old).sent;
      answers = A.may_answer auth.now;
      ready = C.is_always_ready;
      vouches = D.vouches;
      draws_next = D.draws_next;
    })
        (E.view edge.new) (D.view desk.new) (C.sending control.new).sent }
    ensures read_fault { result ≡ ServeEnd.ReadFault → HasRisen (C.faults control.old) (C.faults control.new) }
    ensures write_fault { result ≡ ServeEnd.WriteFault → HasRisen (C.faults control.old) (C.faults control.new) }

    // Only a desk whose count of events can come to its end tells that it has.
    ensures exhausted { result ≡ ServeEnd.Exhausted → D.exhausts ≡ true }

    // Where no call of the control failed, the talk came to its end, or none was opened, or no more events were taken.
    ensures complete { C.faults control.new ≡ C.faults control.old → C.faults control.old < 2 ^ 64 - 1 → is_fault result ≡ false }
    ensures count { C.faults control.old ≤ C.faults control.new }
{
    let mut none = NoExtras;
    serve_control_with(alloc, desk, control, edge, auth, &mut none, opening, answer)
}

/// Serves a control connection as `serve_control` does, and on lines of commands more than the profile, as the extras have it:
/// a message of the control layer is told, lines of reply are said, another command is carried out, or a PASV for an EPSV.
///
/// # Proved
///
/// - What `serve_control` proves of a talk holds of the turns of this one, but for the events of the lines on which more was
///   done, and for what was said on them (`served`).
/// - Each line of a command that gives no password was heard, and each that is refused for its parameter, as the word before its
///   first space; with who asked as the entries before it tell, and with what was kept from the heard line before it. What was
///   done on it is what the extras may do, and its event is the one that this gives: the line's own, that of the message, one
///   without a reply, or that of the other command (`served`).
/// - Nothing is done in place of a command of the profile, but that a transfer may be refused as the storage refuses, and that
///   something may be done on a line that is refused for its parameter; what is said is whole replies, behind the replies of its
///   turn, and before those of any later one (`served`).
/// - For an EPSV a PASV is submitted; where its decision grants a port, the line of code 229 that shows this port is said in place
///   of the reply to the PASV, and else that reply (`served`).
/// - Without extras it is the talk of the profile; with what was said on the lines left out, what was sent is the talk's;
///   login, name, directory, offset, slot and transfers of the session are those of its turns without those lines: three laws,
///   `without_extras_it_is_the_talk`, `struck_out_it_is_the_talk` and `extras_leave_the_session`, of what is `served`.
/// - An end by a fault only where the control's count rose (`read_fault`, `write_fault`, `complete`), and by a count of events
///   at its end only over a desk whose count can come to its end (`exhausted`).
pub fn serve_control_with<D: Desk, C: Control, E: Edge, A: Authenticator, X: Extras>(
    alloc: Global,
    desk: &mut D,
    control: &mut C,
    edge: &mut E,
    auth: &A,
    extras: &mut X,
    opening: HubEvent,
    answer: Answer,
) -> ServeEnd
    requires opening { is_opening opening.kind ≡ true }

    // What was submitted is what the lines ask for, or what the extras may do on them, and what was sent is what was replied
    // and said: all of it at the end of the talk, else a part from the front. A session that may be live is closed.
    ensures served { ServesWith (X.may extras.old) (X.pending extras.old) result opening answer (record {
      edge = E.view edge.old;
      desk = D.view desk.old;
      input = C.left control.old;
      sent = (C.sending control.old).sent;
      answers = A.may_answer auth.now;
      ready = C.is_always_ready;
      vouches = D.vouches;
      draws_next = D.draws_next;
    })
        (E.view edge.new) (D.view desk.new) (C.sending control.new).sent }
    ensures read_fault { result ≡ ServeEnd.ReadFault → HasRisen (C.faults control.old) (C.faults control.new) }
    ensures write_fault { result ≡ ServeEnd.WriteFault → HasRisen (C.faults control.old) (C.faults control.new) }

    // Only a desk whose count of events can come to its end tells that it has.
    ensures exhausted { result ≡ ServeEnd.Exhausted → D.exhausts ≡ true }

    // Where no call of the control failed, the talk came to its end, or none was opened, or no more events were taken.
    ensures complete { C.faults control.new ≡ C.faults control.old → C.faults control.old < 2 ^ 64 - 1 → is_fault result ≡ false }
    ensures count { C.faults control.old ≤ C.faults control.new }
    ensures extras_count { X.faults extras.old ≤ X.faults extras.new }
{
    let Ok(buffer) = Vec::from_elem(alloc, 0u8, FIRST_SIZE) else {
        return ServeEnd::OutOfMemory;
    };
    let mut buffer = buffer;
    let mut state = match open_session(alloc, desk, opening, answer) {
        Ok(state) => state,
        Err(end) => return end,
    };
    if let Err(failed) = state.greet(control, &desk.options().greeting) {
        return state.cut(desk, edge, failed);
    }
    serve_lines(&mut state, desk, control, edge, auth, extras, &mut buffer)
}

// Submits the opening of a session, and gives the session where it was opened. It keeps a frame of its own.
#[inline(never)]
fn open_session<D: Desk>(
    alloc: Global,
    desk: &mut D,
    opening: HubEvent,
    answer: Answer,
) -> Result<ControlSession, ServeEnd>
    requires opening { is_opening opening.kind ≡ true }
    ensures opened { IfOk result (λ state. (start : Start) → HasOpened opening answer (record start { desk = D.view desk.old; vouches = D.vouches }) state (D.view desk.new)) }
    ensures unopened { IfErr result (λ end. (start : Start) → IsUnopened end opening answer (record start { desk = D.view desk.old; vouches = D.vouches }) (D.view desk.new)) }
    ensures unbroken { IfErr result (λ end. is_fault end ≡ false) }
    ensures exhausted { IsErrOf result ServeEnd.Exhausted → D.exhausts ≡ true }
{
    let Ok(state) = session_of(alloc, desk.options(), &opening.kind, &answer) else {
        return Err(ServeEnd::OutOfMemory);
    };
    match submit_opening(desk, opening, answer) {
        Ok(()) => Ok(state),
        Err(end) => Err(end),
    }
}

// The session that an event opens, before anything is known of it.
fn session_of(
    alloc: Global,
    options: &Options,
    kind: &EventKind,
    answer: &Answer,
) -> Result<ControlSession, AllocError>
    requires opening { is_opening kind.now ≡ true }
    ensures { IfOk result (λ state. (peer : Peer) × (peer_of kind.now answer.now ≡ Some peer) × Begins state peer options.now) }
{
    let Some(peer) = peer_of(kind, answer) else {
        unreachable!()
    };
    ControlSession::open(alloc, options, peer)
}

// Submits the opening of a session, and tells why it was not opened.
fn submit_opening<D: Desk>(desk: &mut D, opening: HubEvent, answer: Answer) -> Result<(), ServeEnd>
    requires opening { is_opening opening.kind ≡ true }
    ensures opened { OnOk result ((start : Start) (state : ControlSession) (peer : Peer) → peer_of opening.kind answer ≡ Some peer → Begins state peer (D.view desk.old).options →
        HasOpened opening answer (record start { desk = D.view desk.old; vouches = D.vouches }) state (D.view desk.new)) }
    ensures unopened { IfErr result (λ end. (start : Start) → IsUnopened end opening answer (record start { desk = D.view desk.old; vouches = D.vouches }) (D.view desk.new)) }
    ensures unbroken { IfErr result (λ end. is_fault end ≡ false) }
    ensures exhausted { IsErrOf result ServeEnd.Exhausted → D.exhausts ≡ true }
{
    let told = match desk.submit(opening, answer) {
        Ok(told) => told,
        Err(AppendError::OutOfMemory) => return Err(ServeEnd::OutOfMemory),
        Err(AppendError::Exhausted) => return Err(ServeEnd::Exhausted),
    };
    if !is_opened(told.entry.decision) {
        return Err(ServeEnd::Refused(told.entry.decision));
    }
    Ok(())
}
