//! A step whose entry is given twice: once to be kept, once to be told. All memory is taken before it.

ghost use Rattle.std.specs.Prelude.{◌≡◌, ◌+◌, ◌-◌, ◌^◌, ◌↔◌, List, ◌∷◌, IfErr, IfOk, OnOk, IsErrOf, IsTrue, None, Some};
ghost use Rattle.std.specs.Option.{option_and_then, option_map};
ghost use Rattle.ftp_events.specs.declared.entry.Entry.{Entry};
ghost use Rattle.ftp_events.specs.Counts.{Counted};
ghost use Rattle.ftp_events.specs.Log.{is_refusal, past_of};
ghost use Rattle.ftp_events.specs.Right.{next_entry};
ghost use Rattle.ftp_handlers.specs.Rooms.{job_in, need_in};
ghost use Rattle.ftp_hub.specs.Stands.{SameAnswers, SameTables, Stands, count_of, counters_of, job_for, options_of};
ghost use Rattle.ftp_hub.specs.Twin.{FitsTwin, arrival_holder, can_start, concerned_in, first_start, job_at, started_job, waiting_in};

use crate::hub::Hub;
use crate::prepare::PrepareError;
use ftp_base::IpAddr;
use ftp_events::{Action, Answer, Decision, Entry, EventKind, HubEvent, Pending};
use ftp_handlers::{Need, Room};
use ftp_transfer::{Job, Ticket};
use std::alloc::{AllocError, Global};
use std::mem;

/// An entry twice, and the job that starts with it.
#[derive(Drop)]
pub struct Twin {
    pub kept: Entry,
    pub told: Entry,
    pub job: Option<Job>,
}

/// Memory for one event and both its entries, with copies of the event and of the transfers that it can start.
pub struct TwinRoom {
    pub(crate) room: Box<Room>,
    pub(crate) copies: Box<Copies>,
}

// Stands where no event is copied.
const NO_EVENT: HubEvent = HubEvent {
    at: 0,
    kind: EventKind::Sweep,
};

/// What is copied for the second entry and for the job.
#[derive(Drop)]
pub(crate) struct Copies {
    pub event: HubEvent,
    /// The transfer that the event asks for, and the one that waits.
    pub asked: Option<Pending>,
    pub waiting: Option<Pending>,
}

impl Copies {
    // Copies of nothing.
    fn blank() -> Copies {
        Copies {
            event: NO_EVENT,
            asked: None,
            waiting: None,
        }
    }

    // Takes the copy of the event out.
    fn take_event(&mut self) -> HubEvent
        ensures event { result ≡ self.old.event }
        ensures same { self.new ≡ record self.old { event = self.new.event } }
    {
        mem::replace(&mut self.event, NO_EVENT)
    }
}

impl TwinRoom {
    /// What has to be done outside before the step.
    pub fn need(&self) -> Need
        ensures { result ≡ need_in self.now.room.value }
    {
        self.room.need()
    }

    /// The job of the transfer that is to be run. It is given once.
    pub fn take_job(&mut self) -> Option<Job>
        ensures job { result ≡ job_in self.old.room.value }
        ensures once { self.new ≡ record self.old { room = self.new.room } }
        ensures same { self.new.room.value ≡ record self.old.room.value { job = None } }
    {
        self.room.take_job()
    }
}

impl Hub {
    /// Takes all memory that the step on the event with its answer can need, and that for a second copy of its entry
    /// and for its job.
    ///
    /// # Proved
    ///
    /// - The room of such a step has all twice, and copies of the event and of the transfers that can start; to prepare
    ///   it changes no answer of a table, and the hub stands for what it stood for (`fits`, `same`, `stands`; also
    ///   `Hub::give_back_twin`).
    pub fn prepare_twin(
        &mut self,
        event: &HubEvent,
        answer: &Answer,
    ) -> Result<TwinRoom, PrepareError>
        ensures fits { IfOk result (λ room. FitsTwin room self.new event.now answer.now) }
        ensures job { IfOk result (λ room. job_in room.room.value ≡ job_for self.new event.now.kind) }
        ensures same { SameAnswers self.old self.new }
        ensures stands { (log : List Entry) → Stands self.old log → Stands self.new log }
        ensures exhausted { IsErrOf result PrepareError.Exhausted ↔ (count_of self.old ≡ 2 ^ 64 - 1) }
    {
        let room = match self.prepare_room(event, true) {
            Ok(room) => room,
            Err(error) => return Err(error),
        };
        let spare = mem::replace(&mut self.spare_copies, None);
        let mut copies = match copies_or_new(self.alloc, spare) {
            Ok(copies) => copies,
            Err(error) => return Err(error),
        };
        match self.copy_for(event, answer, room.pending(), &mut copies) {
            Ok(()) => Ok(TwinRoom { room, copies }),
            Err(_) => {
                self.give_back(room);
                Err(PrepareError::OutOfMemory)
            }
        }
    }

    /// Lets the room of a step go that is not taken.
    pub fn give_back_twin(&mut self, room: TwinRoom)
        ensures { self.new ≡ self.old }
    {
        let TwinRoom { room, copies } = room;
        drop(copies);
        self.give_back(room);
    }

    // Copies of the event and of the transfers that it can start.
    fn copy_for(
        &self,
        event: &HubEvent,
        answer: &Answer,
        asked: &Option<Pending>,
        copies: &mut Copies,
    ) -> Result<(), AllocError>
        ensures event { OnOk result (copies.new.event ≡ event.now) }
        ensures asked { OnOk result (copies.new.asked ≡ asked.now) }
        ensures waiting { OnOk result (copies.new.waiting ≡ waiting_in self.now event.now.kind answer.now) }
    {
        drop(mem::replace(&mut copies.event, event.copy(self.alloc)?));
        copy_pending(self.alloc, asked, &mut copies.asked)?;
        self.copy_waiting(&event.kind, answer, &mut copies.waiting)
    }

    /// Decides the event and changes the tables, and gives the entry twice. It takes no memory.
    ///
    /// # Proved
    ///
    /// - A step for two gives the due entry, a copy that equals it, and the job that starts with it, where one does, if
    ///   the hub stands for the log; the room is of this event and answer (`due`, `told`, `job`).
    /// - Afterwards the hub stands for the log with the entry; a refused event changes no table, and each is counted
    ///   once (`stands`, `refused`, `count`).
    pub fn step_twin(&mut self, room: TwinRoom, event: HubEvent, answer: Answer) -> Twin
        requires { FitsTwin room self.old event answer }
        ensures event { result.kept.event ≡ event }
        ensures answer { result.kept.answer ≡ answer }
        ensures due { (log : List Entry) → Stands self.old log → result.kept ≡ next_entry (options_of self.old) log event answer }
        ensures told { result.told ≡ result.kept }
        ensures job { (log : List Entry) → Stands self.old log → result.job ≡ started_job (options_of self.old) (past_of log) result.kept }
        ensures stands { (log : List Entry) → Stands self.old log → Stands self.new (result.kept ∷ log) }
        ensures options { options_of self.new ≡ options_of self.old }
        ensures count { count_of self.new ≡ count_of self.old + 1 }
        ensures refused { (log : List Entry) → Stands self.old log → IsTrue (is_refusal result.kept.decision) → SameTables self.old self.new }
        ensures counters { (log : List Entry) → Stands self.old log → Counted (options_of self.old) (past_of log) (counters_of self.old) → Counted (options_of self.old) (past_of (result.kept ∷ log)) (counters_of self.new) }
    {
        let TwinRoom { room, copies } = room;
        let mut room = room;
        let mut copies = copies;
        let decision = self.enter(&mut room, &event, answer);
        let (actions, told) = room.take_twin();
        self.spare = Some(room);
        let copy = copies.take_event();
        let job = start(&mut copies, decision, actions.as_slice());
        self.spare_copies = Some(copies);
        Twin {
            kept: Entry {
                event,
                answer,
                decision,
                actions,
            },
            told: Entry {
                event: copy,
                answer,
                decision,
                actions: told,
            },
            job,
        }
    }
}

impl Hub {
    // The session that an event names, or that holds what it comes for.
    fn concerned(&self, kind: &EventKind, answer: &Answer) -> Option<u64>
        ensures { result ≡ concerned_in self.now kind.now answer.now }
    {
        match (kind, answer) {
            (EventKind::DataIn { raw, port, .. }, _) => self.arrival_holder(raw.ip, *port),
            (EventKind::Proxied { .. }, Answer::Header(Ok(line))) => {
                if self.options.mode.is_control_port(line.destination.port) {
                    return None;
                }
                self.arrival_holder(line.source.ip, line.destination.port)
            }
            _ => kind.named_session(),
        }
    }

    // The session that holds what a connection comes for.
    fn arrival_holder(&self, client: IpAddr, port: u16) -> Option<u64>
        ensures { result ≡ arrival_holder self.now client port }
    {
        match client {
            IpAddr::V4(source) => self.board.holder(source, port),
            IpAddr::V6(_) => None,
        }
    }

    // Puts there a copy of the transfer that waits in the slot of the session that an event is about.
    fn copy_waiting(
        &self,
        kind: &EventKind,
        answer: &Answer,
        to: &mut Option<Pending>,
    ) -> Result<(), AllocError>
        ensures { OnOk result (to.new ≡ waiting_in self.now kind.now answer.now) }
    {
        let Some(number) = self.concerned(kind, answer) else {
            let_go(to);
            return Ok(());
        };
        match self.sessions.get(&number) {
            Some(session) => copy_pending(self.alloc, &session.pending, to),
            None => {
                let_go(to);
                Ok(())
            }
        }
    }
}

// The box for the copies of the last event, or a new one.
fn copies_or_new(alloc: Global, spare: Option<Box<Copies>>) -> Result<Box<Copies>, PrepareError>
    ensures { IfErr result (λ error. error ≡ PrepareError.OutOfMemory) }
{
    if let Some(copies) = spare {
        return Ok(copies);
    }
    match Box::new(alloc, Copies::blank()) {
        Ok(copies) => Ok(copies),
        Err(failed) => {
            drop(failed);
            Err(PrepareError::OutOfMemory)
        }
    }
}

// Puts there a copy of the transfer, where there is one, and nothing else.
fn copy_pending(
    alloc: Global,
    pending: &Option<Pending>,
    to: &mut Option<Pending>,
) -> Result<(), AllocError>
    ensures { OnOk result (to.new ≡ pending.now) }
{
    match pending {
        Some(pending) => put_copy(alloc, pending, to),
        None => {
            let_go(to);
            Ok(())
        }
    }
}

// Puts there a copy of the transfer. It stands apart, so that an event without one does not pay for it.
#[inline(never)]
fn put_copy(alloc: Global, pending: &Pending, to: &mut Option<Pending>) -> Result<(), AllocError>
    ensures { OnOk result (to.new ≡ Some pending.now) }
{
    *to = Some(Pending {
        ticket: pending.ticket,
        user: pending.user.copy(alloc)?,
        command: pending.command.copy(alloc)?,
        path: pending.path.copy(alloc)?,
        offset: pending.offset,
    });
    Ok(())
}

// Lets the transfer go that is there, if one is.
fn let_go(to: &mut Option<Pending>)
    ensures { to.new ≡ None }
{
    if to.is_some() {
        drop_pending(to);
    }
}

#[inline(never)]
fn drop_pending(to: &mut Option<Pending>)
    ensures { to.new ≡ None }
{
    drop(mem::replace(to, None));
}

// The ticket and the link of the first job that starts.
fn first_start(actions: &[Action]) -> Option<(Ticket, u64)>
    ensures { result ≡ first_start actions.now }
{
    for action in actions {
        if let Action::Start { ticket, number } = action {
            return Some((*ticket, *number));
        }
    }
    None
}

// Takes the transfer out that an entry can start: the one that it queues, or the one that waits.
#[inline(always)]
fn take_startable(copies: &mut Copies, decision: Decision) -> Option<Pending>
    ensures { result ≡ can_start decision copies.old.asked copies.old.waiting }
{
    match decision {
        Decision::Queued { ticket: _ } => mem::replace(&mut copies.asked, None),
        _ => mem::replace(&mut copies.waiting, None),
    }
}

// The job that starts, where one does.
fn start(copies: &mut Copies, decision: Decision, actions: &[Action]) -> Option<Job>
    ensures { result ≡ option_and_then (λ at. option_map (λ p. job_at p at) (can_start decision copies.old.asked copies.old.waiting)) (first_start actions.now) }
{
    let (ticket, number) = first_start(actions)?;
    let pending = take_startable(copies, decision)?;
    Some(Job {
        ticket,
        user: pending.user,
        command: pending.command,
        path: pending.path,
        offset: pending.offset,
        number,
        done: 0,
    })
}
