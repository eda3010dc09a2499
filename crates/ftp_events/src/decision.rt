//! What the server decides on an event, and the classes of that.

ghost use Rattle.std.specs.Prelude.{◌≡◌};
ghost use Rattle.ftp_events.specs.Classes.{life, is_stop, slot_move, gives_up};
ghost use Rattle.ftp_events.specs.Log.{is_refusal};

use ftp_base::{ErrorKind, LockState};
use ftp_proxy::ProxyError;
use ftp_transfer::Ticket;

#[derive(Clone, Copy, Debug, PartialEq, Eq)]
pub enum Decision {
    /// A refusal: the session that is named is not live.
    UnknownNumber,
    /// A refusal: the number that comes as new was used before.
    UsedNumber,
    /// A refusal: the mode knows no such event.
    Misplaced,
    /// A refusal: nobody waits for this.
    NotExpected,
    /// A session is open.
    Opened,
    /// The connection is turned away, and closed.
    Turned,
    /// The header of the connection is none, and the connection is closed.
    HeaderFault(ProxyError),
    /// The data connection goes to the session.
    Attached { session: u64 },
    BadSequence,
    NeedPass,
    /// A password is out to be checked.
    PassOut,
    /// The user is logged in already.
    Reauth,
    LoggedIn,
    /// The login failed; the reply is sent after a delay in milliseconds.
    LoginFailed { lock: Option<LockState>, delay: u32 },
    NotLoggedIn,
    /// The command belongs to a mode that is switched off.
    ModeOff,
    /// No passive port is free for the client.
    Full,
    /// The name that a passive reply has to show was not looked up to an address.
    NoLookup,
    /// The passive port is reserved.
    Granted { port: u16 },
    /// No socket was bound for the session that can be shown to its client.
    NoSocket,
    /// The text of a PORT is no address.
    BadAddress,
    /// The address of a PORT is not the peer's.
    OtherAddress,
    /// The connection that a PORT asked for was not made.
    NoConnection,
    /// The connection that a PORT asked for is there.
    PortOk,
    /// No data connection waits or is awaited for the transfer.
    NoSlot,
    /// The transfer waits for its data connection, or runs.
    Queued { ticket: Ticket },
    /// The transfer has ended.
    Finished,
    /// A piece of the transfer has moved, and it runs on.
    Moved,
    /// The transfer has ended, as it was to be stopped.
    Cut,
    /// The storage cannot begin at a restart offset.
    NoRestart,
    /// The restart offset is kept for the next RETR or STOR.
    RestOk,
    CwdRefused(ErrorKind),
    /// The working directory has changed.
    CwdOk,
    /// What the slot had is dropped.
    Aborted,
    /// The transfer that runs is to stop behind its next piece, and what the slot had is dropped.
    Aborting,
    /// The slot had nothing.
    NothingToAbort,
    /// The client is told the message.
    Told,
    /// The slot may stand on, or the session be idle for longer.
    Early,
    /// The session is at work, and its idle time begins again.
    Waited,
    /// The slot stood for too long, and what it had is dropped.
    SlotDropped,
    /// Failed logins that were too old are forgotten.
    Swept,
    /// No port is held for a session that has ended.
    Scavenged,
    /// The session has ended by its own wish.
    Quit,
    /// The session has ended with its control connection.
    Closed,
    /// The session was idle for too long, and has ended.
    TimedOut,
    /// Every session has ended, and no other will be opened.
    Stopped,
}

/// What a decision makes of the life of the session that it is about.
#[derive(Clone, Copy, Debug, PartialEq, Eq)]
pub enum Life {
    /// It goes on as it was.
    Goes,
    /// It begins.
    Opens,
    /// It ends.
    Ends,
}

/// What a decision makes of the slot of the session that it is about.
#[derive(Clone, Copy, Debug, PartialEq, Eq)]
pub enum SlotMove {
    /// Nothing.
    Keeps,
    /// What the slot has is dropped.
    Empties,
    /// What the slot has is dropped where it waits for a connection.
    EmptiesWaiting,
    /// The slot waits for a connection to this port, and what it had is dropped.
    Awaits { port: u16 },
    /// The connection that was made is the link of the slot, and what that had is dropped.
    Connects,
    /// What the slot has is dropped, as it stood for too long. No port is held for it.
    Expires,
    /// The connection that comes is the link of a slot that waits.
    Links,
    /// The transfer waits in the slot.
    Queues { ticket: Ticket },
    /// The job that ran has ended.
    Finishes,
}

impl Decision {
    /// What it makes of the session's life.
    pub fn life(self) -> Life
        ensures { result ≡ life self }
    {
        match self {
            Decision::Opened => Life::Opens,
            Decision::Quit | Decision::Closed | Decision::TimedOut | Decision::Stopped =>
                Life::Ends,
            _ => Life::Goes,
        }
    }

    /// Says whether it is one of the four refusals, of which nothing is done.
    pub fn is_refusal(self) -> bool
        ensures { result ≡ is_refusal self }
    {
        matches!(
            self,
            Decision::UnknownNumber
                | Decision::UsedNumber
                | Decision::Misplaced
                | Decision::NotExpected
        )
    }

    /// Says whether it ends every live session.
    pub fn is_stop(self) -> bool
        ensures { result ≡ is_stop self }
    {
        matches!(self, Decision::Stopped)
    }

    /// What it makes of the session's slot.
    ///
    /// # Proved
    ///
    /// - What a decision does to the slot of its session, whether that gives up a hold, whether a session begins, goes
    ///   on or ends by it, whether every session ends, and what is refused (also `SlotMove::gives_up`;
    ///   `Decision::life`; `Decision::is_stop`; `Decision::is_refusal`).
    pub fn slot_move(self) -> SlotMove
        ensures { result ≡ slot_move self }
    {
        match self {
            Decision::Granted { port } => SlotMove::Awaits { port },
            Decision::PortOk => SlotMove::Connects,
            Decision::SlotDropped => SlotMove::Expires,
            Decision::Aborted | Decision::Aborting => SlotMove::Empties,
            Decision::Attached { .. } => SlotMove::Links,
            Decision::Queued { ticket } => SlotMove::Queues { ticket },
            Decision::Finished | Decision::Cut => SlotMove::Finishes,
            Decision::Turned => SlotMove::EmptiesWaiting,
            _ => match self.life() {
                Life::Ends => SlotMove::Empties,
                _ => SlotMove::Keeps,
            },
        }
    }
}

impl SlotMove {
    /// Says whether it replaces or drops the slot, whatever that has.
    pub fn gives_up(self) -> bool
        ensures { result ≡ gives_up self }
    {
        matches!(
            self,
            SlotMove::Empties | SlotMove::Awaits { .. } | SlotMove::Connects
        )
    }
}
