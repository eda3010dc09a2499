//! What the server knows of a live session.

ghost use Rattle.std.specs.Prelude.{◌≡◌};
ghost use Rattle.ftp_events.specs.Login.{state_of};
ghost use Rattle.ftp_events.specs.Transfer.{run_of};

use ftp_base::{Bytes, DataChanCmd, IpAddr, SessionState, SocketAddr};
use ftp_transfer::{Job, Ticket};

/// How a session came: its peer, the address that it came to, its client and its trace.
#[derive(Clone, Copy, Debug, PartialEq, Eq)]
pub struct Opening {
    pub raw: SocketAddr,
    pub local: SocketAddr,
    pub client: IpAddr,
    pub trace: u64,
}

/// How far a login is.
#[derive(Clone, Copy, Debug, PartialEq, Eq)]
pub enum Login {
    /// No name is given.
    New,
    /// A name is given.
    Named,
    /// A password is being checked.
    Checking,
    LoggedIn,
}

impl Login {
    /// The state of the control connection.
    pub fn state(self) -> SessionState
        ensures { result ≡ state_of self }
    {
        match self {
            Login::New => SessionState::New,
            Login::Named | Login::Checking => SessionState::WaitPass,
            Login::LoggedIn => SessionState::WaitCmd,
        }
    }
}

/// The place for a session's next data connection.
#[derive(Clone, Copy, Debug, PartialEq, Eq)]
pub enum Slot {
    Empty,
    /// Waits for a connection to this port.
    Waits { port: u16 },
    /// Has the link of this number.
    Linked { number: u64 },
}

/// A transfer that waits for its link, as it was fixed when it was asked for.
#[derive(Debug, Drop)]
pub struct Pending {
    pub ticket: Ticket,
    pub user: Bytes,
    pub command: DataChanCmd,
    /// The file or the directory.
    pub path: Bytes,
    /// Where a RETR or a STOR begins, in bytes.
    pub offset: u64,
}

impl Pending {
    /// The transfer as it starts, on the link of this number.
    ///
    /// # Proved
    ///
    /// - A transfer that starts runs with all that its 150 fixed, on its link.
    pub fn on(self, number: u64) -> Running
        ensures { result ≡ run_of self number }
    {
        Running {
            job: Job {
                ticket: self.ticket,
                user: self.user,
                command: self.command,
                path: self.path,
                offset: self.offset,
                number,
                done: 0,
            },
            marked: false,
        }
    }
}

/// A transfer that runs.
#[derive(Debug, Drop)]
pub struct Running {
    /// With the bytes that its pieces have moved so far.
    pub job: Job,
    /// It is to stop behind its next piece.
    pub marked: bool,
}

#[derive(Drop)]
pub struct Session {
    pub opening: Opening,
    pub login: Login,
    /// The name that was given last.
    pub name: Option<Bytes>,
    /// The working directory, as a path that begins with `/`.
    pub cwd: Bytes,
    /// Where the next RETR or STOR begins, in bytes.
    pub offset: u64,
    pub slot: Slot,
    /// The moment from which the slot's age counts, in milliseconds.
    pub slot_at: u64,
    /// The moment from which the idle time counts, in milliseconds.
    pub active_at: u64,
    /// The transfer that waits in the slot.
    pub pending: Option<Pending>,
    /// How many transfers were queued.
    pub tickets: u64,
    /// How many notifications were sent.
    pub notices: u64,
}
