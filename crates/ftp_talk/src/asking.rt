//! What a command asks of edge and storage before its event is submitted.

ghost use Rattle.std.specs.Prelude.{◌≡◌, [], ℕ, List, Option, Some, IfOk, IfSome, true, false};
ghost use Rattle.ftp_base.specs.declared.error_kind.ErrorKind.{ErrorKind};
ghost use Rattle.ftp_base.specs.declared.error_kind.ErrorKind.TheVariants.{LocalError};
ghost use Rattle.ftp_base.specs.Edge.{IsCounted, next_answer, behind_lookup, behind_port};
ghost use Rattle.ftp_base.specs.Outside.{HasRisen};
ghost use Rattle.ftp_events.specs.declared.entry.Entry.{Entry};
ghost use Rattle.ftp_events.specs.declared.event.EventKind.TheVariants as kind;
ghost use Rattle.ftp_shared.specs.Outbox.{has_ticket};
ghost use Rattle.ftp_control.specs.Line.{parsed};
ghost use Rattle.ftp_transfer.specs.Path.{join_path};
ghost use Rattle.ftp_shared.specs.Desk.{SameDesk, MaySay, drawn_after};
ghost use Rattle.ftp_talk.specs.Commands.{Gives, GivenBy, asked_of, connected_to, of_peer, MayBe, told_as, refused_as, too_long};
ghost use Rattle.ftp_talk.specs.Ground.{Turn, Ground, history};
ghost use Rattle.ftp_talk.specs.Parts.{GivesMore, lines_said};
ghost use Rattle.ftp_talk.specs.Pieces.{Pieces};
ghost use Rattle.ftp_talk.specs.Seen.{IsAsked, missing, behind_asked, failed_in};
ghost use Rattle.ftp_talk.specs.Speaking.{Knows, IsGround, SameEdge, Asked, Asking, IsHeardAs, IsPort, IsMade, Speaking, target_for};

use crate::control_session::ControlSession;
use ftp_base::{Bytes, ControlChanMsg, Edge, ErrorKind, Reply, ReplyCode, ReplyText, SocketAddr};
use ftp_control::{Command, LineError};
use ftp_events::{EventKind, Login, port_target};
use ftp_extras::Extra;
use ftp_shared::Desk;
use ftp_transfer::join_path;
use std::alloc::AllocError;

impl ControlSession {
    // Asks edge and storage for what the command needs, and gives its event.
    pub(crate) fn ask<D: Desk, E: Edge>(
        &self,
        desk: &mut D,
        edge: &mut E,
        command: Command,
    ) -> Result<EventKind, AllocError>
        ensures asked { IfOk result (λ k. (g : Ground) (h : List Entry) → g.start.draws_next ≡ D.draws_next → Knows g self.now h → IsGround g h (E.view edge.old) (D.view desk.old) →
            Asked g h command k (E.view edge.old) (E.view edge.new) (D.view desk.old).faults (D.view desk.new).faults) }
        ensures unticketed { IfOk result (λ k. has_ticket k ≡ false) }
        ensures edge { SameEdge (E.view edge.old) (E.view edge.new) }
        ensures desk { SameDesk (D.view desk.old) (D.view desk.new) }
    {
        let session = self.session;
        match command {
            Command::User { username } => Ok(EventKind::User {
                session,
                name: username,
            }),
            Command::Pass { .. } => Ok(EventKind::Pass { session }),
            Command::Cwd { path } => self.ask_directory(desk, path),
            Command::Port { text } => Ok(self.ask_connection(desk, edge, text)),
            Command::Data(command) => Ok(EventKind::Transfer { session, command }),
            Command::Rest { offset } => Ok(EventKind::Rest { session, offset }),
            Command::Pasv => Ok(self.ask_port(edge)),
            Command::Stou => Ok(EventKind::Stou {
                session,
                word: edge.word(),
            }),
            Command::Abor => Ok(EventKind::Abor { session }),
            Command::Quit => Ok(EventKind::Quit { session }),
            Command::Noop => self.told_as(ReplyCode::CommandOkay, b"Successfully did nothing"),
            Command::TypeCmd => self.told_as(ReplyCode::CommandOkay, b"Always in binary mode"),
            Command::Other { .. } => {
                self.told_as(ReplyCode::CommandSyntaxError, b"Command not implemented")
            }
        }
    }

    // Asks for the event of a line that was heard, on which the extras do this, and gives what is said behind its reply.
    pub(crate) fn ask_heard<D: Desk, E: Edge>(
        &self,
        desk: &mut D,
        edge: &mut E,
        command: Command,
        is_refused: bool,
        extra: Extra,
    ) -> Result<(EventKind, Bytes), AllocError>
        ensures asked { IfOk result (λ k. (g : Ground) (sent : Option (List ℕ)) (ts : List Turn) (pieces : Pieces) (line : List ℕ) → g.start.draws_next ≡ D.draws_next →
            Speaking g self.now (E.view edge.old) (D.view desk.old) sent ts pieces → IsHeardAs is_refused line command →
            GivesMore g (history g ts) line extra k.0 × Asking g self.now (E.view edge.new) (D.view desk.new) sent ts pieces k.0) }
        ensures lines { IfOk result (λ k. k.1 ≡ lines_said extra) }
        ensures unticketed { IfOk result (λ k. has_ticket k.0 ≡ false) }
        ensures edge { SameEdge (E.view edge.old) (E.view edge.new) }
        ensures desk { SameDesk (D.view desk.old) (D.view desk.new) }
    {
        let session = self.session;
        match extra {
            Extra::Pass => self.ask_own(desk, edge, command, is_refused),
            Extra::Tell(message) => Ok((EventKind::Internal { session, message }, self.nothing())),
            Extra::Say(lines) => {
                let message = ControlChanMsg::CommandChannelReply(Reply::None);
                Ok((EventKind::Internal { session, message }, lines))
            }
            Extra::As(other) => self.ask_alone(desk, edge, other),
            Extra::Epsv => self.ask_alone(desk, edge, Command::Pasv),
        }
    }

    // Asks for the event of a line that is served by its own command, or refused.
    fn ask_own<D: Desk, E: Edge>(
        &self,
        desk: &mut D,
        edge: &mut E,
        command: Command,
        is_refused: bool,
    ) -> Result<(EventKind, Bytes), AllocError>
        ensures asked { IfOk result (λ k. (g : Ground) (sent : Option (List ℕ)) (ts : List Turn) (pieces : Pieces) (line : List ℕ) → g.start.draws_next ≡ D.draws_next →
            Speaking g self.now (E.view edge.old) (D.view desk.old) sent ts pieces → IsHeardAs is_refused line command →
            GivenBy g (history g ts) (parsed line) k.0 × Asking g self.now (E.view edge.new) (D.view desk.new) sent ts pieces k.0) }
        ensures lines { IfOk result (λ k. k.1 ≡ []) }
        ensures unticketed { IfOk result (λ k. has_ticket k.0 ≡ false) }
        ensures edge { SameEdge (E.view edge.old) (E.view edge.new) }
        ensures desk { SameDesk (D.view desk.old) (D.view desk.new) }
    {
        if is_refused {
            let refused = self.refused_as(LineError::InvalidCommand)?;
            return Ok((refused, self.nothing()));
        }
        self.ask_alone(desk, edge, command)
    }

    // Asks for the event of a command behind whose reply nothing is said.
    fn ask_alone<D: Desk, E: Edge>(
        &self,
        desk: &mut D,
        edge: &mut E,
        command: Command,
    ) -> Result<(EventKind, Bytes), AllocError>
        ensures asked { IfOk result (λ k. (g : Ground) (sent : Option (List ℕ)) (ts : List Turn) (pieces : Pieces) → g.start.draws_next ≡ D.draws_next →
            Speaking g self.now (E.view edge.old) (D.view desk.old) sent ts pieces →
            Gives g (history g ts) command k.0 × Asking g self.now (E.view edge.new) (D.view desk.new) sent ts pieces k.0) }
        ensures lines { IfOk result (λ k. k.1 ≡ []) }
        ensures unticketed { IfOk result (λ k. has_ticket k.0 ≡ false) }
        ensures edge { SameEdge (E.view edge.old) (E.view edge.new) }
        ensures desk { SameDesk (D.view desk.old) (D.view desk.new) }
    {
        let kind = self.ask(desk, edge, command)?;
        Ok((kind, self.nothing()))
    }

    // No lines behind a reply.
    fn nothing(&self) -> Bytes
        ensures { result ≡ [] }
    {
        Bytes::from_vec(Vec::new(self.alloc))
    }

    // A reply of the control layer.
    fn told_as(&self, code: ReplyCode, text: &[u8]) -> Result<EventKind, AllocError>
        ensures kind { IfOk result (λ k. k ≡ told_as self.now.session code text.now) }
        ensures unticketed { IfOk result (λ k. has_ticket k ≡ false) }
    {
        let msg = ReplyText::from_bytes(Bytes::from_slice(self.alloc, text)?);
        Ok(EventKind::Internal {
            session: self.session,
            message: ControlChanMsg::CommandChannelReply(Reply::CodeAndMsg { code, msg }),
        })
    }

    // The event of a line that is refused.
    pub(crate) fn refused_as(&self, error: LineError) -> Result<EventKind, AllocError>
        ensures kind { IfOk result (λ k. k ≡ refused_as self.now.session error) }
        ensures unticketed { IfOk result (λ k. has_ticket k ≡ false) }
    {
        match error {
            LineError::Utf8 => {
                self.told_as(ReplyCode::CommandSyntaxError, b"Invalid UTF8 in command")
            }
            _ => self.told_as(ReplyCode::ParameterSyntaxError, b"Invalid Parameter"),
        }
    }

    // The event of a line that is too long.
    pub(crate) fn too_long(&self) -> Result<EventKind, AllocError>
        ensures kind { IfOk result (λ k. k ≡ too_long self.now.session) }
        ensures unticketed { IfOk result (λ k. has_ticket k ≡ false) }
    {
        self.told_as(ReplyCode::CommandSyntaxError, b"Command line too long")
    }

    // A CWD, with what the storage says of the directory.
    fn ask_directory<D: Desk>(&self, desk: &mut D, path: Bytes) -> Result<EventKind, AllocError>
        ensures asked { IfOk result (λ k. (refusal : Option ErrorKind) × (k ≡ kind.Cwd self.now.session path refusal)
            × MaySay (D.view desk.old).files (join_path self.now.cwd path) refusal
            × IsCounted (failed_in k) (D.view desk.old).faults (D.view desk.new).faults) }
        ensures unticketed { IfOk result (λ k. has_ticket k ≡ false) }
        ensures desk { SameDesk (D.view desk.old) (D.view desk.new) }
    {
        let joined = join_path(self.alloc, &self.cwd, &path)?;
        let refusal = self.refusal(desk, &joined)?;
        Ok(EventKind::Cwd {
            session: self.session,
            path,
            refusal,
        })
    }

    // What the storage says of a path to the user, who may have given no name yet.
    fn refusal<D: Desk>(&self, desk: &mut D, path: &Bytes) -> Result<Option<ErrorKind>, AllocError>
        ensures may { IfOk result (λ refusal. MaySay (D.view desk.old).files path.now refusal) }
        ensures fault_rose { IfOk result (λ refusal. refusal ≡ Some LocalError → HasRisen (D.view desk.old).faults (D.view desk.new).faults) }
        ensures desk { SameDesk (D.view desk.old) (D.view desk.new) }
    {
        match &self.name {
            Some(name) => desk.directory(name, path),
            None => {
                let unknown = Bytes::from_slice(self.alloc, b"unknown")?;
                desk.directory(&unknown, path)
            }
        }
    }

    // A PORT, with the number of the connection that was made.
    fn ask_connection<D: Desk, E: Edge>(&self, desk: &mut D, edge: &mut E, text: Bytes) -> EventKind
        ensures asked { (number : Option ℕ) × (result ≡ kind.Port self.now.session text number)
            × IsMade (target_for self.now text) (λ n. D.draws_next ≡ true → IfSome (D.view desk.old).journal (λ J. n ≡ drawn_after J)) (E.view edge.old) (E.view edge.new) number }
        ensures unticketed { has_ticket result ≡ false }
        ensures edge { SameEdge (E.view edge.old) (E.view edge.new) }
        ensures desk { SameDesk (D.view desk.old) (D.view desk.new) }
    {
        let number = match self.target(text.as_slice()) {
            Some(to) => connected(desk, edge, to),
            None => None,
        };
        EventKind::Port {
            session: self.session,
            text,
            number,
        }
    }

    // The address to which a PORT connects.
    fn target(&self, text: &[u8]) -> Option<SocketAddr>
        ensures { result ≡ target_for self.now text.now }
    {
        match self.login {
            Login::LoggedIn => self.connected_to(text),
            _ => None,
        }
    }

    // The address that the text gives, where active commands are on and it is one of the peer's.
    fn connected_to(&self, text: &[u8]) -> Option<SocketAddr>
        ensures { result ≡ connected_to self.now.is_active_off self.now.raw text.now }
    {
        if self.is_active_off {
            return None;
        }
        match port_target(text) {
            Some(to) => self.of_peer(to),
            None => None,
        }
    }

    // The address, where it is one of the peer's.
    fn of_peer(&self, to: SocketAddr) -> Option<SocketAddr>
        ensures { result ≡ of_peer self.now.raw to }
    {
        if to.ip.is_same(self.raw) {
            Some(to)
        } else {
            None
        }
    }

    // A PASV, with a word, and what is looked up and bound.
    fn ask_port<E: Edge>(&self, edge: &mut E) -> EventKind
        ensures asked { (word : ℕ) × (lookup bound : Option ℕ) × (result ≡ kind.Pasv self.now.session word lookup bound)
            × IsPort (asked_of self.now.login self.now.host) (asked_of self.now.login self.now.range) (E.view edge.old) (E.view edge.new) word lookup bound }
        ensures unticketed { has_ticket result ≡ false }
        ensures edge { SameEdge (E.view edge.old) (E.view edge.new) }
    {
        let word = (edge.word() & 0xffff) as u16;
        let lookup = self.look_up(edge);
        let bound = self.bind(edge);
        EventKind::Pasv {
            session: self.session,
            word,
            lookup,
            bound,
        }
    }

    // The address of the name that is advertised.
    fn look_up<E: Edge>(&self, edge: &mut E) -> Option<u32>
        ensures may { MayBe (E.view edge.old).meaning.names (asked_of self.now.login self.now.host) result }
        ensures next { IfSome (E.view edge.old).feed (λ f. IsAsked (asked_of self.now.login self.now.host) result (next_answer f.lookups)
            × ((E.view edge.new).feed ≡ Some (behind_asked (asked_of self.now.login self.now.host) behind_lookup f))) }
        ensures missing { IsCounted (missing (asked_of self.now.login self.now.host) result) (E.view edge.old).faults (E.view edge.new).faults }
        ensures edge { SameEdge (E.view edge.old) (E.view edge.new) }
    {
        match (self.login, &self.host) {
            (Login::LoggedIn, Some(name)) => edge.lookup(name),
            _ => None,
        }
    }

    // A port for the session alone.
    fn bind<E: Edge>(&self, edge: &mut E) -> Option<u16>
        ensures may { MayBe (λ (r : ℕ × ℕ). (E.view edge.old).meaning.ports r.0 r.1) (asked_of self.now.login self.now.range) result }
        ensures next { IfSome (E.view edge.old).feed (λ f. IsAsked (asked_of self.now.login self.now.range) result (next_answer f.ports)
            × ((E.view edge.new).feed ≡ Some (behind_asked (asked_of self.now.login self.now.range) behind_port f))) }
        ensures missing { IsCounted (missing (asked_of self.now.login self.now.range) result) (E.view edge.old).faults (E.view edge.new).faults }
        ensures edge { SameEdge (E.view edge.old) (E.view edge.new) }
    {
        match (self.login, self.range) {
            (Login::LoggedIn, Some((lo, hi))) => edge.bind(lo, hi),
            _ => None,
        }
    }
}

// The number of the connection that was made to the address.
fn connected<D: Desk, E: Edge>(desk: &mut D, edge: &mut E, to: SocketAddr) -> Option<u64>
    ensures made { IsMade (Some to) (λ n. D.draws_next ≡ true → IfSome (D.view desk.old).journal (λ J. n ≡ drawn_after J)) (E.view edge.old) (E.view edge.new) result }
    ensures edge { SameEdge (E.view edge.old) (E.view edge.new) }
    ensures desk { SameDesk (D.view desk.old) (D.view desk.new) }
{
    let number = desk.draw();
    if edge.connect(to, number) {
        Some(number)
    } else {
        None
    }
}
