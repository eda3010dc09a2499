//! What a hub knows, as plain data.

ghost use Rattle.std.specs.Prelude.{◌≡◌, ◌++◌, List, [], ◌∷◌, IfOk, OnOk, Some, option_to_list, nat_eq};
ghost use Rattle.std.specs.HashMap as map;
ghost use Rattle.ftp_events.specs.declared.entry.Entry.{Entry};
ghost use Rattle.ftp_hub.specs.Stands.{Stands, options_of};
ghost use Rattle.ftp_hub.specs.State.{AreMadeBy, AreOwn, AreTidy, IsForm, IsState, TellsState, TellsJobs, TellsSessions, kept_of, queued_told, session_told, slot_told, told_of};

use crate::hub::Hub;
use crate::tables::sorted_keys;
use ftp_base::{Bytes, DataChanCmd, IpAddr, Rows, SocketAddr};
use ftp_events::{Login, Session, Slot};
use ftp_switchboard::Interval;
use ftp_transfer::Job;
use std::alloc::{AllocError, Global};
use thiserror::Error;

/// How far the login of a session is.
#[derive(Clone, Copy, Debug, PartialEq, Eq)]
pub enum LoginState {
    New,
    Pass,
    Out,
    Cmd,
}

/// The failed logins of a key.
#[derive(Drop)]
pub struct RecordLine {
    pub count: u32,
    pub at: u64,
    pub ip: Option<IpAddr>,
    pub user: Option<Bytes>,
}

/// A live session, without what is in its slot.
#[derive(Drop)]
pub struct SessionLine {
    pub session: u64,
    pub raw: SocketAddr,
    pub local: SocketAddr,
    pub client: IpAddr,
    pub trace: u64,
    pub state: LoginState,
    pub active: u64,
    pub offset: u64,
    pub tickets: u64,
    pub notices: u64,
    pub user: Option<Bytes>,
    pub cwd: Bytes,
}

/// What a slot has.
#[derive(Clone, Copy, Debug, PartialEq, Eq)]
pub enum SlotKind {
    Waits { port: u16 },
    HasLink { number: u64 },
}

/// The slot of a session.
#[derive(Clone, Copy, Debug, PartialEq, Eq)]
pub struct SlotLine {
    pub session: u64,
    pub at: u64,
    pub what: SlotKind,
}

/// The transfer that waits in a slot.
#[derive(Drop)]
pub struct QueuedLine {
    pub session: u64,
    pub nr: u64,
    pub offset: u64,
    pub command: DataChanCmd,
    pub path: Bytes,
}

/// A transfer that runs.
#[derive(Drop)]
pub struct JobLine {
    pub job: Job,
    pub marked: bool,
}

/// Why no hub is made from a state.
#[derive(Clone, Copy, Debug, PartialEq, Eq, Error)]
pub enum StateError {
    /// The first line that is none, counted from 1.
    #[error("line {0} is none of a state")]
    BadLine(u64),
    #[error("a number was not used")]
    Number,
    #[error("a port is not one of the range, or two wait for it")]
    Port,
    #[error("a ticket is not one of its session")]
    Ticket,
    #[error("an address or a session is none of this mode")]
    Mode,
    #[error("a session is not as far as what it has")]
    Login,
    #[error("out of memory")]
    OutOfMemory,
}

impl From<AllocError> for StateError {
    ghost use Rattle.std.specs.Prelude.{◌≡◌};
    ghost use Rattle.ftp_hub.specs.declared.state.StateError.TheVariants.{OutOfMemory};

    ghost from_gives = { λ _ e. e ≡ OutOfMemory };

    fn from(_error: AllocError) -> StateError {
        StateError::OutOfMemory
    }
}

/// All that a hub knows of the events so far.
#[derive(Drop)]
pub struct HubState {
    pub events: u64,
    pub stopped: bool,
    pub used: Rows<Interval>,
    pub records: Rows<RecordLine>,
    pub sessions: Rows<SessionLine>,
    pub slots: Rows<SlotLine>,
    pub queued: Rows<QueuedLine>,
    pub jobs: Rows<JobLine>,
}

impl LoginState {
    // How far a login is.
    fn of(login: Login) -> LoginState
        ensures { result ≡ told_of login }
    {
        match login {
            Login::New => LoginState::New,
            Login::Named => LoginState::Pass,
            Login::Checking => LoginState::Out,
            Login::LoggedIn => LoginState::Cmd,
        }
    }
}

impl SlotKind {
    // What a slot has, where it has anything.
    fn of(slot: Slot) -> Option<SlotKind>
        ensures { result ≡ kept_of slot }
    {
        match slot {
            Slot::Empty => None,
            Slot::Waits { port } => Some(SlotKind::Waits { port }),
            Slot::Linked { number } => Some(SlotKind::HasLink { number }),
        }
    }
}

// The lines of sessions.
#[derive(Drop)]
pub(crate) struct SessionLines {
    alloc: Global,
    pub(crate) sessions: Vec<SessionLine>,
    pub(crate) slots: Vec<SlotLine>,
    pub(crate) queued: Vec<QueuedLine>,
}

impl SessionLines {
    fn none(alloc: Global) -> SessionLines
        ensures sessions { result.sessions.items ≡ [] }
        ensures slots { result.slots.items ≡ [] }
        ensures queued { result.queued.items ≡ [] }
    {
        SessionLines {
            alloc,
            sessions: Vec::new(alloc),
            slots: Vec::new(alloc),
            queued: Vec::new(alloc),
        }
    }

    // Adds those of a session.
    fn add(&mut self, number: u64, session: &Session) -> Result<(), AllocError>
        ensures sessions { OnOk result (self.new.sessions.items ≡ self.old.sessions.items ++ session_told number session.now ∷ []) }
        ensures slots { OnOk result (self.new.slots.items ≡ self.old.slots.items ++ option_to_list (slot_told number session.now)) }
        ensures queued { OnOk result (self.new.queued.items ≡ self.old.queued.items ++ option_to_list (queued_told number session.now)) }
    {
        self.sessions
            .push(session_line(self.alloc, number, session)?)?;
        if let Some(what) = SlotKind::of(session.slot) {
            self.slots.push(SlotLine {
                session: number,
                at: session.slot_at,
                what,
            })?;
        }
        if let Some(line) = queued_line(self.alloc, number, session)? {
            self.queued.push(line)?;
        }
        Ok(())
    }
}

// The line of a session.
fn session_line(alloc: Global, number: u64, session: &Session) -> Result<SessionLine, AllocError>
    ensures { IfOk result (λ line. line ≡ session_told number session.now) }
{
    Ok(SessionLine {
        session: number,
        raw: session.opening.raw,
        local: session.opening.local,
        client: session.opening.client,
        trace: session.opening.trace,
        state: LoginState::of(session.login),
        active: session.active_at,
        offset: session.offset,
        tickets: session.tickets,
        notices: session.notices,
        user: copy_name(alloc, &session.name)?,
        cwd: session.cwd.copy(alloc)?,
    })
}

fn copy_name(alloc: Global, name: &Option<Bytes>) -> Result<Option<Bytes>, AllocError>
    ensures { IfOk result (λ copy. copy ≡ name.now) }
{
    match name {
        None => Ok(None),
        Some(name) => Ok(Some(name.copy(alloc)?)),
    }
}

// The line of the transfer that waits in the slot of a session.
fn queued_line(
    alloc: Global,
    number: u64,
    session: &Session,
) -> Result<Option<QueuedLine>, AllocError>
    ensures { IfOk result (λ line. line ≡ queued_told number session.now) }
{
    match &session.pending {
        None => Ok(None),
        Some(pending) => Ok(Some(QueuedLine {
            session: number,
            nr: pending.ticket.nr,
            offset: pending.offset,
            command: pending.command.copy(alloc)?,
            path: pending.path.copy(alloc)?,
        })),
    }
}

impl Hub {
    /// All that the hub knows of the events so far, as plain data.
    ///
    /// # Proved
    ///
    /// - The state answers every question as the log does, if the hub stands for the log (`state`).
    /// - Its lists have the order and the form of a state's lines, if the hub stands for a log (`form`), and its records are of
    ///   keys that the policy makes (`made`).
    pub fn state(&self) -> Result<HubState, AllocError>
        ensures tells { (log : List Entry) → Stands self.now log → IfOk result (TellsState self.now) }
        ensures state { (log : List Entry) → Stands self.now log → IfOk result (IsState (options_of self.now) log) }
        ensures form { (log : List Entry) → Stands self.now log → IfOk result IsForm }
        ensures made { IfOk result (λ state. AreMadeBy (options_of self.now).lockout state.records) }
    {
        let used = self.numbers.intervals(self.alloc)?;
        let records = self.record_lines()?;
        let lines = self.session_lines()?;
        let jobs = self.job_lines()?;
        let SessionLines {
            alloc: _,
            sessions,
            slots,
            queued,
        } = lines;
        Ok(HubState {
            events: self.count,
            stopped: self.stopped,
            used: Rows::from_vec(used),
            records: Rows::from_vec(records),
            sessions: Rows::from_vec(sessions),
            slots: Rows::from_vec(slots),
            queued: Rows::from_vec(queued),
            jobs: Rows::from_vec(jobs),
        })
    }

    // The lines of every live session, in order of its number.
    pub(crate) fn session_lines(&self) -> Result<SessionLines, AllocError>
        ensures { IfOk result (λ lines. AreTidy (map.get nat_eq self.now.sessions) → TellsSessions self.now.sessions lines.sessions.items lines.slots.items lines.queued.items) }
    {
        let numbers = sorted_keys(self.alloc, &self.sessions)?;
        let mut lines = SessionLines::none(self.alloc);
        for number in &numbers {
            let Some(session) = self.sessions.get(number) else {
                unreachable!()
            };
            lines.add(*number, session)?;
        }
        Ok(lines)
    }

    // The line of every job that runs, in order of its session.
    pub(crate) fn job_lines(&self) -> Result<Vec<JobLine>, AllocError>
        ensures { IfOk result (λ lines. AreOwn (map.get nat_eq self.now.jobs) → TellsJobs self.now.jobs lines.items) }
    {
        let numbers = sorted_keys(self.alloc, &self.jobs)?;
        let mut lines = Vec::new(self.alloc);
        for number in &numbers {
            let Some(running) = self.jobs.get(number) else {
                unreachable!()
            };
            lines.push(JobLine {
                job: running.job.copy(self.alloc)?,
                marked: running.marked,
            })?;
        }
        Ok(lines)
    }
}
