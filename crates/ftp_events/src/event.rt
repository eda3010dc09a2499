//! What happens, and what the outside answers.

ghost use Rattle.std.specs.Prelude.{◌≡◌, false, IfOk};
ghost use Rattle.ftp_events.specs.Covers.{link_number};
ghost use Rattle.ftp_events.specs.Log.{named_session, new_number, has_text};

use crate::decision::Decision;
use ftp_base::{AuthAnswer, Bytes, ControlChanMsg, DataChanCmd, ErrorKind, SocketAddr};
use ftp_proxy::{ProxyError, ProxyHeader};
use ftp_transfer::{Outcome, Ticket};
use std::alloc::{AllocError, Global};

/// What happens to the server.
#[derive(PartialEq, Eq, Drop)]
pub enum EventKind {
    /// A control connection came from `raw` to `local`.
    Connect {
        session: u64,
        raw: SocketAddr,
        local: SocketAddr,
        trace: u64,
    },
    /// A connection came from the proxy at `raw`. Its header says for whom, and where to.
    Proxied {
        number: u64,
        raw: SocketAddr,
        trace: u64,
    },
    /// A data connection came from `raw` to a passive port.
    DataIn {
        number: u64,
        raw: SocketAddr,
        port: u16,
    },
    /// A data connection came from `raw` to the port that was bound for the session alone.
    Accepted {
        session: u64,
        number: u64,
        raw: SocketAddr,
    },
    /// USER (RFC 959, section 4.1.1).
    User {
        session: u64,
        name: Bytes,
    },
    /// PASS (RFC 959, section 4.1.1). The password itself is in no event.
    Pass {
        session: u64,
    },
    /// The authenticator has checked the password.
    AuthDone {
        session: u64,
        answer: AuthAnswer,
    },
    /// PASV (RFC 959, section 4.1.2), with a random word that chooses where the search for a port begins.
    Pasv {
        session: u64,
        word: u16,
        /// The address that the advertised name was looked up to.
        lookup: Option<u32>,
        /// The port that was bound for the session alone.
        bound: Option<u16>,
    },
    /// PORT (RFC 959, section 4.1.2), with the text of the address, and the number of the connection that was made to it.
    Port {
        session: u64,
        text: Bytes,
        number: Option<u64>,
    },
    /// RETR, STOR, APPE, LIST, NLST (RFC 959, section 4.1.3) or MLSD (RFC 3659, section 7).
    Transfer {
        session: u64,
        command: DataChanCmd,
    },
    /// STOU (RFC 959, section 4.1.3), with a random word that chooses the name.
    Stou {
        session: u64,
        word: u128,
    },
    /// REST (RFC 3659, section 5): the next RETR or STOR begins at this byte.
    Rest {
        session: u64,
        offset: u64,
    },
    /// CWD (RFC 959, section 4.1.1), with what the storage said of the directory.
    Cwd {
        session: u64,
        path: Bytes,
        refusal: Option<ErrorKind>,
    },
    /// A transfer that runs has ended.
    End {
        ticket: Ticket,
    },
    /// A piece of a transfer that runs has moved, or was its last.
    Piece {
        ticket: Ticket,
    },
    /// QUIT (RFC 959, section 4.1.1).
    Quit {
        session: u64,
    },
    /// The control connection has ended.
    Closed {
        session: u64,
    },
    /// ABOR (RFC 959, section 4.1.3).
    Abor {
        session: u64,
    },
    /// What the control layer has for the client: an answer to a line, or what the storage did.
    Internal {
        session: u64,
        message: ControlChanMsg,
    },
    /// A look at how long the session's slot has stood.
    SlotTick {
        session: u64,
    },
    /// A look at how long the session has been idle.
    IdleTick {
        session: u64,
    },
    /// Failed logins that are too old are forgotten.
    Sweep,
    /// Ports that are held for sessions that have ended are freed, of which there are none.
    Scavenge,
    /// Every session is to end, and no other is to be opened.
    Shutdown,
}

/// An event, at a moment in milliseconds.
#[derive(PartialEq, Eq, Drop)]
pub struct HubEvent {
    pub at: u64,
    pub kind: EventKind,
}

/// What the outside answered to an event.
#[derive(Clone, Copy, Debug, PartialEq, Eq)]
pub enum Answer {
    /// Nothing was asked.
    None,
    /// The header of the connection was read.
    Header(Result<ProxyHeader, ProxyError>),
    /// The transfer was run, with this outcome.
    Done(Outcome),
    /// A piece of the transfer moved so many bytes, and more may come.
    Moved { bytes: u64 },
}

impl EventKind {
    /// The number that comes as new: that of a PORT where its connection is taken.
    pub fn new_number(&self, decision: Decision) -> Option<u64>
        ensures { result ≡ new_number self.now decision }
    {
        match self {
            EventKind::Connect { session, .. } => Some(*session),
            EventKind::Proxied { number, .. }
            | EventKind::DataIn { number, .. }
            | EventKind::Accepted { number, .. } => Some(*number),
            EventKind::Port { number, .. } => match decision {
                Decision::PortOk => *number,
                _ => None,
            },
            _ => None,
        }
    }

    /// The session that the event or its ticket names.
    ///
    /// # Proved
    ///
    /// - The session that an event names, the connection that comes with it, and the number that comes as new (also
    ///   `EventKind::link_number`; `EventKind::new_number`).
    pub fn named_session(&self) -> Option<u64>
        ensures { result ≡ named_session self.now }
    {
        match self {
            EventKind::Accepted { session, .. }
            | EventKind::User { session, .. }
            | EventKind::Port { session, .. }
            | EventKind::Transfer { session, .. }
            | EventKind::Stou { session, .. }
            | EventKind::Pass { session }
            | EventKind::AuthDone { session, .. }
            | EventKind::Pasv { session, .. }
            | EventKind::Rest { session, .. }
            | EventKind::Cwd { session, .. }
            | EventKind::Quit { session }
            | EventKind::Closed { session }
            | EventKind::Abor { session }
            | EventKind::Internal { session, .. }
            | EventKind::SlotTick { session }
            | EventKind::IdleTick { session } => Some(*session),
            EventKind::End { ticket } | EventKind::Piece { ticket } => Some(ticket.session),
            EventKind::Connect { .. }
            | EventKind::Proxied { .. }
            | EventKind::DataIn { .. }
            | EventKind::Sweep
            | EventKind::Scavenge
            | EventKind::Shutdown => None,
        }
    }

    /// The number of the connection that comes with the event.
    pub fn link_number(&self) -> Option<u64>
        ensures { result ≡ link_number self.now }
    {
        match self {
            EventKind::Proxied { number, .. }
            | EventKind::DataIn { number, .. }
            | EventKind::Accepted { number, .. } => Some(*number),
            EventKind::Port { number, .. } => *number,
            _ => None,
        }
    }

    /// Gives an equal kind.
    pub fn copy(&self, alloc: Global) -> Result<EventKind, AllocError>
        ensures { IfOk result (λ copy. copy ≡ self.now) }
    {
        match self {
            EventKind::User { session, name } => Ok(EventKind::User {
                session: *session,
                name: name.copy(alloc)?,
            }),
            EventKind::Port {
                session,
                text,
                number,
            } => Ok(EventKind::Port {
                session: *session,
                text: text.copy(alloc)?,
                number: *number,
            }),
            EventKind::Transfer { session, command } => Ok(EventKind::Transfer {
                session: *session,
                command: command.copy(alloc)?,
            }),
            EventKind::Cwd {
                session,
                path,
                refusal,
            } => Ok(EventKind::Cwd {
                session: *session,
                path: path.copy(alloc)?,
                refusal: *refusal,
            }),
            EventKind::Internal { session, message } => Ok(EventKind::Internal {
                session: *session,
                message: message.copy(alloc)?,
            }),
            _ => Ok(self.copy_numbers()),
        }
    }

    // Gives an equal kind, for an event without a text.
    fn copy_numbers(&self) -> EventKind
        requires { has_text self.now ≡ false }
        ensures { result ≡ self.now }
    {
        match *self {
            EventKind::Connect {
                session,
                raw,
                local,
                trace,
            } => EventKind::Connect {
                session,
                raw,
                local,
                trace,
            },
            EventKind::Proxied { number, raw, trace } => EventKind::Proxied { number, raw, trace },
            EventKind::DataIn { number, raw, port } => EventKind::DataIn { number, raw, port },
            EventKind::Pass { session } => EventKind::Pass { session },
            EventKind::AuthDone { session, answer } => EventKind::AuthDone { session, answer },
            EventKind::Pasv {
                session,
                word,
                lookup,
                bound,
            } => EventKind::Pasv {
                session,
                word,
                lookup,
                bound,
            },
            EventKind::Stou { session, word } => EventKind::Stou { session, word },
            EventKind::Rest { session, offset } => EventKind::Rest { session, offset },
            EventKind::End { ticket } => EventKind::End { ticket },
            EventKind::Piece { ticket } => EventKind::Piece { ticket },
            EventKind::Quit { session } => EventKind::Quit { session },
            EventKind::Closed { session } => EventKind::Closed { session },
            EventKind::Accepted {
                session,
                number,
                raw,
            } => EventKind::Accepted {
                session,
                number,
                raw,
            },
            EventKind::Abor { session } => EventKind::Abor { session },
            EventKind::SlotTick { session } => EventKind::SlotTick { session },
            EventKind::IdleTick { session } => EventKind::IdleTick { session },
            EventKind::Sweep => EventKind::Sweep,
            EventKind::Scavenge => EventKind::Scavenge,
            EventKind::Shutdown => EventKind::Shutdown,
            _ => unreachable!(),
        }
    }
}

impl HubEvent {
    /// Gives an equal event.
    ///
    /// # Proved
    ///
    /// - A copy of an event is equal to it (also `EventKind::copy`).
    pub fn copy(&self, alloc: Global) -> Result<HubEvent, AllocError>
        ensures { IfOk result (λ copy. copy ≡ self.now) }
    {
        Ok(HubEvent {
            at: self.at,
            kind: self.kind.copy(alloc)?,
        })
    }
}
