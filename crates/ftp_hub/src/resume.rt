//! A hub's tables from the lines of a state.

ghost use Rattle.std.specs.Prelude.{◌≡◌, ℕ, ◌+◌, ◌==◌, ◌↔◌, List, IfOk, OnOk, Some, None, true, false, length, map as each, nat_eq, if◌then◌else◌};
ghost use Rattle.std.specs.Option.{option_map};
ghost use Rattle.std.specs.HashMap as map;
ghost use Rattle.ftp_events.specs.Counts.{CountsFrom};
ghost use Rattle.ftp_laws.specs.Census.{IsAscending};
ghost use Rattle.ftp_options.specs.Modes.{is_legacy};
ghost use Rattle.ftp_switchboard.specs.Board.{holder_at};
ghost use Rattle.ftp_events.specs.declared.entry.Entry.{Entry};
ghost use Rattle.ftp_events.specs.Right.{IsActed, IsRight};
ghost use Rattle.ftp_hub.specs.Stands.{Stands, options_of};
ghost use Rattle.ftp_hub.specs.State.{HoldsAreTold, IsState, TellsState, bare_session, job_line, told_login, told_pending, queued_line, session_by_lines, session_line, slot_line, told_slot, told_running, with_slot, with_transfer};

use crate::causes::has_v6;
use crate::claims::free_board;
use crate::hub::Hub;
use crate::records::failures_by;
use crate::state::{
    HubState, JobLine, LoginState, QueuedLine, SessionLine, SlotKind, SlotLine, StateError,
};
use crate::tables::put;
use ftp_events::{Counters, Login, Opening, Pending, Running, Session, Slot};
use ftp_handlers::copy_user;
use ftp_options::Options;
use ftp_switchboard::{Numbers, Switchboard};
use ftp_transfer::Ticket;
use std::alloc::{AllocError, Global};
use std::collections::HashMap;
use std::mem;

impl LoginState {
    // How far the login is.
    pub(crate) fn login(self) -> Login
        ensures { result ≡ told_login self }
    {
        match self {
            LoginState::New => Login::New,
            LoginState::Pass => Login::Named,
            LoginState::Out => Login::Checking,
            LoginState::Cmd => Login::LoggedIn,
        }
    }
}

impl SlotKind {
    // The slot.
    pub(crate) fn slot(self) -> Slot
        ensures { result ≡ told_slot self }
    {
        match self {
            SlotKind::Waits { port } => Slot::Waits { port },
            SlotKind::HasLink { number } => Slot::Linked { number },
        }
    }
}

// The session of a line, with nothing in its slot.
fn opened(line: SessionLine) -> Session
    ensures { result ≡ bare_session line }
{
    Session {
        opening: Opening {
            raw: line.raw,
            local: line.local,
            client: line.client,
            trace: line.trace,
        },
        login: line.state.login(),
        name: line.user,
        cwd: line.cwd,
        offset: line.offset,
        slot: Slot::Empty,
        slot_at: 0,
        active_at: line.active,
        pending: None,
        tickets: line.tickets,
        notices: line.notices,
    }
}

// Puts a value into a table, in room that is made for it.
fn put_new<V: Drop>(table: &mut HashMap<u64, V>, number: u64, value: V) -> Result<(), AllocError>
    ensures updates { OnOk result ((s : ℕ) → map.get nat_eq table.new s ≡ (if number == s then Some value else map.get nat_eq table.old s)) }
    ensures len { OnOk result (map.get nat_eq table.old number ≡ None → map.hash_map_len table.new ≡ map.hash_map_len table.old + 1) }
{
    table.reserve(1)?;
    put(table, number, value);
    Ok(())
}

// The sessions of these lines.
pub(crate) fn open_all(
    alloc: Global,
    lines: Vec<SessionLine>,
) -> Result<HashMap<u64, Session>, AllocError>
    requires { IsAscending (each (λ line. line.session) lines.items) }
    ensures sessions { IfOk result (λ table. (s : ℕ) → map.get nat_eq table s ≡ option_map bare_session (session_line lines.items s)) }
    ensures len { IfOk result (λ table. map.hash_map_len table ≡ length lines.items) }
{
    let mut table = HashMap::new(alloc);
    let mut lines = lines;
    while let Some(line) = lines.pop() {
        let number = line.session;
        put_new(&mut table, number, opened(line))?;
    }
    Ok(table)
}

// Puts the slot of a line into its session.
fn fill_slot(sessions: &mut HashMap<u64, Session>, line: SlotLine)
    ensures sessions { (s : ℕ) → map.get nat_eq sessions.new s ≡ (if line.session == s then option_map (with_slot (Some line)) (map.get nat_eq sessions.old s) else map.get nat_eq sessions.old s) }
    ensures len { map.hash_map_len sessions.new ≡ map.hash_map_len sessions.old }
{
    if let Some(session) = sessions.get_mut(&line.session) {
        session.slot = line.what.slot();
        session.slot_at = line.at;
    }
}

// Puts the slots of these lines into their sessions.
pub(crate) fn fill_slots(sessions: &mut HashMap<u64, Session>, lines: Vec<SlotLine>)
    ensures sessions { (s : ℕ) → map.get nat_eq sessions.new s ≡ option_map (with_slot (slot_line lines.items s)) (map.get nat_eq sessions.old s) }
    ensures len { map.hash_map_len sessions.new ≡ map.hash_map_len sessions.old }
{
    let mut lines = lines;
    while let Some(line) = lines.pop() {
        fill_slot(sessions, line);
    }
}

// The transfer of a line, for the user of its session.
fn waiting(alloc: Global, line: QueuedLine, session: &Session) -> Result<Pending, AllocError>
    ensures { IfOk result (λ pending. pending ≡ told_pending line session.now) }
{
    Ok(Pending {
        ticket: Ticket {
            session: line.session,
            nr: line.nr,
        },
        user: copy_user(alloc, session)?,
        command: line.command,
        path: line.path,
        offset: line.offset,
    })
}

// Puts the transfer of a line into the slot of its session.
fn queue_one(
    alloc: Global,
    sessions: &mut HashMap<u64, Session>,
    line: QueuedLine,
) -> Result<(), AllocError>
    ensures sessions { OnOk result ((s : ℕ) → map.get nat_eq sessions.new s ≡ (if line.session == s then option_map (with_transfer (Some line)) (map.get nat_eq sessions.old s) else map.get nat_eq sessions.old s)) }
    ensures len { OnOk result (map.hash_map_len sessions.new ≡ map.hash_map_len sessions.old) }
{
    let number = line.session;
    let Some(session) = sessions.get_mut(&number) else {
        drop(line);
        return Ok(());
    };
    let pending = waiting(alloc, line, session)?;
    drop(mem::replace(&mut session.pending, Some(pending)));
    Ok(())
}

// Puts the transfers of these lines into the slots of their sessions.
pub(crate) fn queue_all(
    alloc: Global,
    sessions: &mut HashMap<u64, Session>,
    lines: Vec<QueuedLine>,
) -> Result<(), AllocError>
    ensures sessions { OnOk result ((s : ℕ) → map.get nat_eq sessions.new s ≡ option_map (with_transfer (queued_line lines.items s)) (map.get nat_eq sessions.old s)) }
    ensures len { OnOk result (map.hash_map_len sessions.new ≡ map.hash_map_len sessions.old) }
{
    let mut lines = lines;
    while let Some(line) = lines.pop() {
        queue_one(alloc, sessions, line)?;
    }
    Ok(())
}

// The jobs of these lines.
pub(crate) fn run_all(
    alloc: Global,
    lines: Vec<JobLine>,
) -> Result<HashMap<u64, Running>, AllocError>
    requires { IsAscending (each (λ line. line.job.ticket.session) lines.items) }
    ensures jobs { IfOk result (λ table. (s : ℕ) → map.get nat_eq table s ≡ option_map told_running (job_line lines.items s)) }
    ensures len { IfOk result (λ table. map.hash_map_len table ≡ length lines.items) }
{
    let mut table = HashMap::new(alloc);
    let mut lines = lines;
    while let Some(line) = lines.pop() {
        let number = line.job.ticket.session;
        put_new(
            &mut table,
            number,
            Running {
                job: line.job,
                marked: line.marked,
            },
        )?;
    }
    Ok(table)
}

// The live sessions of a state's lines, each with its slot and its transfer.
pub(crate) fn sessions_of(
    alloc: Global,
    sessions: Vec<SessionLine>,
    slots: Vec<SlotLine>,
    queued: Vec<QueuedLine>,
) -> Result<HashMap<u64, Session>, AllocError>
    requires { IsAscending (each (λ line. line.session) sessions.items) }
    ensures told { IfOk result (λ table. (s : ℕ) → map.get nat_eq table s ≡ session_by_lines sessions.items slots.items queued.items s) }
    ensures len { IfOk result (λ table. map.hash_map_len table ≡ length sessions.items) }
{
    let mut table = open_all(alloc, sessions)?;
    fill_slots(&mut table, slots);
    queue_all(alloc, &mut table, queued)?;
    Ok(table)
}

// The counters of a hub that goes on with these sessions.
fn counters_from(options: &Options, sessions: &HashMap<u64, Session>) -> Counters
    ensures { CountsFrom options.now (map.hash_map_len sessions.now) result }
{
    if options.collect_metrics {
        Counters::with_sessions(sessions.len() as u64)
    } else {
        Counters::new()
    }
}

impl Hub {
    ghost use Rattle.std.specs.Prelude.{◌⊎◌, ◌&&◌, IfErr, not};
    ghost use Rattle.ftp_events.specs.Counts.{CountsFrom};
    ghost use Rattle.ftp_hub.specs.Refused.{GivesCause, HasCause, IsFirst, IsFirstRefusal, known_by};
    ghost use Rattle.ftp_hub.specs.Stands.{count_of, counters_of};
    ghost use Rattle.ftp_hub.specs.State.{AreMadeBy, IsForm, WaitsAt};
    ghost use Rattle.ftp_hub.specs.declared.state.StateError.{StateError};
    ghost use Rattle.ftp_hub.specs.declared.state.StateError.TheVariants.{OutOfMemory};

    /// A hub that goes on from a state, under these options. Its counters start at 0, but for that of the live sessions. Records
    /// of failed logins under keys that the policy of the options does not make are left out.
    ///
    /// # Proved
    ///
    /// - The hub tells the state (its lists have the order and the form of a state's lines) (`told`), and each port is held by
    ///   the session that waits for it (`holds`).
    /// - It stands for every right and acted log of which this is the state (`stands`), and counts events on (`count`).
    /// - A state is refused where it gives cause to a refusal, and then by the first to which it does (`passed`, `refused`). The
    ///   state of a right and acted log is refused for nothing but want of memory (its records are of keys that the policy
    ///   makes) (`lawful`).
    /// - Its counters have counted the live sessions, where metrics are kept, and nothing else (`counters`).
    pub fn from_state(alloc: Global, options: Options, state: HubState) -> Result<Hub, StateError>
        requires form { IsForm state }
        ensures options { IfOk result (λ hub. options_of hub ≡ options) }
        ensures told { IfOk result (λ hub. TellsState hub state) }
        ensures holds { IfOk result (λ hub. HoldsAreTold hub state) }
        ensures stands { IfOk result (λ hub. (log : List Entry) → IsRight options log → IsActed options log → IsState options log state → Stands hub log) }
        ensures count { IfOk result (λ hub. count_of hub ≡ state.events) }
        ensures passed { OnOk result ((e : StateError) → HasCause options state e → ⊥) }
        ensures refused { IfErr result (λ e. (e ≡ OutOfMemory) ⊎ IsFirstRefusal options state e) }
        ensures lawful { IfErr result (λ e. (log : List Entry) → IsRight options log → IsActed options log → IsState options log state → AreMadeBy options.lockout state.records → e ≡ OutOfMemory) }
        ensures counters { IfOk result (λ hub. CountsFrom options (length state.sessions) (counters_of hub)) }
    {
        let brings_v6 = has_v6(state.records.as_slice());
        let tables = Hub::rebuilt(alloc, options, state)?;
        let hub = tables.checked(brings_v6)?;
        Ok(hub)
    }

    /// A hub that goes on from the state of this one, under the same options.
    ///
    /// # Proved
    ///
    /// - It stands for every log for which this one stands (`stands`), and counts events on (`count`); nothing but want of memory
    ///   refuses it (this one stands for a log) (`memory`).
    pub fn resumed(&self) -> Result<Hub, StateError>
        requires log { (log : List Entry) × Stands self.now log }
        ensures stands { IfOk result (λ hub. (log : List Entry) → Stands self.now log → Stands hub log) }
        ensures count { IfOk result (λ hub. count_of hub ≡ count_of self.now) }
        ensures memory { IfErr result (λ e. e ≡ OutOfMemory) }
    {
        let options = self.options.copy(self.alloc)?;
        let state = self.state()?;
        let hub = Hub::from_state(self.alloc, options, state)?;
        Ok(hub)
    }

    // A hub that tells a state, in which nobody holds a port yet.
    fn rebuilt(alloc: Global, options: Options, state: HubState) -> Result<Hub, StateError>
        requires form { IsForm state }
        ensures options { IfOk result (λ hub. options_of hub ≡ options) }
        ensures told { IfOk result (λ hub. TellsState hub state) }
        ensures counters { IfOk result (λ hub. CountsFrom options (length state.sessions) (counters_of hub)) }
        ensures memory { IfErr result (λ e. e ≡ OutOfMemory) }
    {
        let HubState {
            events,
            stopped,
            used,
            records,
            sessions,
            slots,
            queued,
            jobs,
        } = state;
        let numbers = Numbers::of(alloc, used.as_slice())?;
        let failures = failures_by(alloc, options.lockout, records.into_vec())?;
        let table = sessions_of(
            alloc,
            sessions.into_vec(),
            slots.into_vec(),
            queued.into_vec(),
        )?;
        let running = run_all(alloc, jobs.into_vec())?;
        let board = free_board(alloc, &options);
        let counters = counters_from(&options, &table);
        Ok(Hub {
            alloc,
            options,
            sessions: table,
            jobs: running,
            numbers,
            board,
            failures,
            spare: None,
            spare_copies: None,
            stopped,
            counters,
            count: events,
        })
    }

    // The hub with each port held by the session that waits for it, where nothing is refused.
    fn checked(self, brings_v6: bool) -> Result<Hub, StateError>
        ensures sessions { IfOk result (λ hub. hub.sessions ≡ self.sessions) }
        ensures jobs { IfOk result (λ hub. hub.jobs ≡ self.jobs) }
        ensures numbers { IfOk result (λ hub. hub.numbers ≡ self.numbers) }
        ensures failures { IfOk result (λ hub. hub.failures ≡ self.failures) }
        ensures stopped { IfOk result (λ hub. hub.stopped ≡ self.stopped) }
        ensures options { IfOk result (λ hub. hub.options ≡ self.options) }
        ensures counters { IfOk result (λ hub. hub.counters ≡ self.counters) }
        ensures count { IfOk result (λ hub. hub.count ≡ self.count) }
        ensures held { IfOk result (λ hub. is_legacy self.options.mode ≡ false → (a p s : ℕ) → (holder_at hub.board a p ≡ Some s) ↔ WaitsAt (map.get nat_eq self.sessions s) a p) }
        ensures nobody { IfOk result (λ hub. is_legacy self.options.mode ≡ true → (a p : ℕ) → holder_at hub.board a p ≡ None) }
        ensures passed { OnOk result ((e : StateError) → GivesCause (known_by self) (map.get nat_eq self.sessions) (map.get nat_eq self.jobs) brings_v6 e → ⊥) }
        ensures refused { IfErr result (λ e. (e ≡ OutOfMemory) ⊎ IsFirst (GivesCause (known_by self) (map.get nat_eq self.sessions) (map.get nat_eq self.jobs) brings_v6) e) }
    {
        let board = self.admitted(brings_v6)?;
        let mut hub = self;
        hub.board = board;
        Ok(hub)
    }

    // Says whether addresses of version 6 are brought to ports that the sessions share.
    fn is_barred(&self, brings_v6: bool) -> bool
        ensures { result ≡ (brings_v6 && not (is_legacy self.now.options.mode)) }
    {
        brings_v6 && !self.options.mode.is_legacy()
    }

    // The board of the ports that sessions wait for, where nothing is refused.
    fn admitted(&self, brings_v6: bool) -> Result<Switchboard, StateError>
        ensures held { IfOk result (λ board. is_legacy self.now.options.mode ≡ false → (a p s : ℕ) → (holder_at board a p ≡ Some s) ↔ WaitsAt (map.get nat_eq self.now.sessions s) a p) }
        ensures nobody { IfOk result (λ board. is_legacy self.now.options.mode ≡ true → (a p : ℕ) → holder_at board a p ≡ None) }
        ensures range { IfOk result (λ board. is_legacy self.now.options.mode ≡ false → (board.lo ≡ self.now.options.lo) × (board.hi ≡ self.now.options.hi)) }
        ensures passed { OnOk result ((e : StateError) → GivesCause (known_by self.now) (map.get nat_eq self.now.sessions) (map.get nat_eq self.now.jobs) brings_v6 e → ⊥) }
        ensures refused { IfErr result (λ e. (e ≡ OutOfMemory) ⊎ IsFirst (GivesCause (known_by self.now) (map.get nat_eq self.now.sessions) (map.get nat_eq self.now.jobs) brings_v6) e) }
    {
        self.look_for(StateError::Number)?;
        self.look_for(StateError::Port)?;
        let board = self.claimed_ports()?;
        self.look_for(StateError::Ticket)?;
        if self.is_barred(brings_v6) {
            return Err(StateError::Mode);
        }
        self.look_for(StateError::Mode)?;
        self.look_for(StateError::Login)?;
        Ok(board)
    }
}
