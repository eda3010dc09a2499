//! All memory that a step can need, taken before it.

ghost use Rattle.std.specs.Prelude.{◌≡◌, ◌-◌, ◌^◌, ◌<◌, ◌≤◌, ◌↔◌, false, nat_eq, is_some, IfErr, IfOk, IfSome, OnOk, IsErrOf, IsTrue};
ghost use Rattle.std.specs.Option.{option_copied};
ghost use Rattle.std.specs.HashMap as map;
ghost use Rattle.ftp_switchboard.specs.Used.{HasSpare};
ghost use Rattle.ftp_options.specs.Modes.{is_legacy};
ghost use Rattle.ftp_switchboard.specs.Board.{HasRoom};
ghost use Rattle.ftp_events.specs.Leads.{job_of_ticket};
ghost use Rattle.ftp_handlers.specs.Handlers.{CanCount, can_drop, can_reply, is_abor, is_auth, is_pasv, is_port, places_for, telling_for, width_for};
ghost use Rattle.ftp_handlers.specs.Rooms.{CanReply, CanTellDropped, HasCopy, HasLeave, IsReady, job_in, kept_in, leavers_in, need_for, need_in, telling_in, twice_in};
ghost use Rattle.ftp_hub.specs.Leavers.{AreLeavers, is_shutdown};
ghost use Rattle.ftp_hub.specs.Arrivals.{brings_number, may_open, may_start};
ghost use Rattle.ftp_hub.specs.Endings.{is_piece};
ghost use Rattle.ftp_hub.specs.Stands.{Fits, SameAnswers, count_of, named_in, kept_for, pending_for, header_for, job_for, client_for, path_for, path_of, stops_for, used_for};

use crate::hub::Hub;
use crate::jobs::is_piece;
use ftp_base::Bytes;
use ftp_events::{EventKind, HubEvent, Running, Session};
use ftp_handlers::{Extent, Prepared, Room, copy_alone, copy_kept, copy_telling};
use ftp_transfer::{Job, Ticket};
use std::alloc::{AllocError, Global};
use std::mem;
use thiserror::Error;

/// Why a step cannot be prepared.
#[derive(Clone, Copy, Debug, PartialEq, Eq, Error)]
pub enum PrepareError {
    /// The count of events is at its end.
    #[error("the count of events is at its end")]
    Exhausted,
    #[error("out of memory")]
    OutOfMemory,
}

impl From<AllocError> for PrepareError {
    ghost use Rattle.std.specs.Prelude.{◌≡◌};
    ghost use Rattle.ftp_hub.specs.declared.prepare.PrepareError.TheVariants.{OutOfMemory};

    ghost from_gives = { λ _ e. e ≡ OutOfMemory };

    fn from(_error: AllocError) -> PrepareError {
        PrepareError::OutOfMemory
    }
}

impl Hub {
    /// Takes all memory that the step on the event can need.
    ///
    /// # Proved
    ///
    /// - A room fits the hub and the event for which it was taken: the transfer that the event asks for is fixed in it,
    ///   and for the kinds of event that can need them there are places in the tables, room for the texts of replies,
    ///   and what is looked up, as whether the number of a PORT was used (`used` of `Fits`). That nothing is taken for
    ///   the others is no clause (`fits`).
    /// - After `prepare`, whatever it answers, every table answers as before (`same`).
    /// - `prepare` is exhausted exactly at the end of the count of events (`exhausted`; also `run_event`: `exhausted`;
    ///   `Hub::prepare_twin`: `exhausted`).
    /// - The room has the job that is to be run: that of the ticket, where it runs; says so, and gives it once; or it
    ///   says that a header is to be read (`job`, `fits`; also `Room::take_job`: `job`, `once`; `Room::need`).
    pub fn prepare(&mut self, event: &HubEvent) -> Result<Box<Room>, PrepareError>
        ensures fits { IfOk result (λ room. Fits room.value self.new event.now) }
        ensures job { IfOk result (λ room. job_in room.value ≡ job_for self.new event.now.kind) }
        ensures same { SameAnswers self.old self.new }
        ensures exhausted { IsErrOf result PrepareError.Exhausted ↔ (count_of self.old ≡ 2 ^ 64 - 1) }
    {
        self.prepare_room(event, false)
    }

    /// Takes all memory that the step on the event can need, for one entry or for two.
    pub(crate) fn prepare_room(
        &mut self,
        event: &HubEvent,
        twice: bool,
    ) -> Result<Box<Room>, PrepareError>
        ensures fits { IfOk result (λ room. Fits room.value self.new event.now) }
        ensures job { IfOk result (λ room. job_in room.value ≡ job_for self.new event.now.kind) }
        ensures same { SameAnswers self.old self.new }
        ensures exhausted { IsErrOf result PrepareError.Exhausted ↔ (count_of self.old ≡ 2 ^ 64 - 1) }
        ensures twice { IfOk result (λ room. twice_in room.value ≡ twice) }
    {
        if self.count == u64::MAX {
            return Err(PrepareError::Exhausted);
        }
        if self.make_places(&event.kind).is_err() {
            return Err(PrepareError::OutOfMemory);
        }
        let spare = mem::replace(&mut self.spare, None);
        let mut room = room_or_new(self.alloc, spare)?;
        match self.fill_room(&event.kind, twice, &mut room) {
            Ok(()) => Ok(room),
            Err(error) => {
                drop(room);
                Err(error)
            }
        }
    }

    /// Lets the room of a step go that is not taken.
    ///
    /// # Proved
    ///
    /// - A room that is given back changes nothing.
    pub fn give_back(&mut self, room: Box<Room>)
        ensures { self.new ≡ self.old }
    {
        drop(room);
    }

    // Makes the places in the tables that an event of this kind can take.
    fn make_places(&mut self, kind: &EventKind) -> Result<(), AllocError>
        ensures sessions { OnOk result (IsTrue (may_open kind.now) → 0 < map.spare self.new.sessions) }
        ensures jobs { OnOk result (IsTrue (may_start kind.now) → 0 < map.spare self.new.jobs) }
        ensures numbers { OnOk result (IsTrue (brings_number kind.now) → HasSpare self.new.numbers) }
        ensures failures { OnOk result (IsTrue (is_auth kind.now) → CanCount self.new.failures self.new.options) }
        ensures board { OnOk result (IsTrue (is_pasv kind.now) → is_legacy self.old.options.mode ≡ false → IfSome (client_for self.old kind.now) (HasRoom self.new.board)) }
        ensures same { SameAnswers self.old self.new }
    {
        match kind {
            EventKind::Connect { .. } => {
                self.sessions.reserve(1)?;
                self.numbers.make_room()
            }
            EventKind::Proxied { .. } => {
                self.sessions.reserve(1)?;
                self.jobs.reserve(1)?;
                self.numbers.make_room()
            }
            EventKind::DataIn { .. } | EventKind::Accepted { .. } => {
                self.jobs.reserve(1)?;
                self.numbers.make_room()
            }
            EventKind::Transfer { .. }
            | EventKind::Stou { .. }
            | EventKind::End { .. }
            | EventKind::Piece { .. } => self.jobs.reserve(1),
            EventKind::Pasv { .. } => match self.client_of(kind) {
                Some(client) if !self.options.mode.is_legacy() => self.board.reserve_room(client),
                _ => Ok(()),
            },
            EventKind::Port { .. } => self.numbers.make_room(),
            EventKind::AuthDone { .. } => match &mut self.failures {
                Some(failures) => failures.room(),
                None => Ok(()),
            },
            EventKind::User { .. }
            | EventKind::Pass { .. }
            | EventKind::Rest { .. }
            | EventKind::Cwd { .. }
            | EventKind::Closed { .. }
            | EventKind::Quit { .. }
            | EventKind::Abor { .. }
            | EventKind::Internal { .. }
            | EventKind::SlotTick { .. }
            | EventKind::IdleTick { .. }
            | EventKind::Sweep
            | EventKind::Scavenge
            | EventKind::Shutdown => Ok(()),
        }
    }

    // The session that an event names, where it is live.
    fn named(&self, kind: &EventKind) -> Option<&Session>
        ensures { option_copied result ≡ named_in self.now kind.now }
    {
        self.sessions.get(&kind.named_session()?)
    }

    // The address of version 4 that the client of the session has which an event names.
    fn client_of(&self, kind: &EventKind) -> Option<u32>
        ensures { result ≡ client_for self.now kind.now }
    {
        self.named(kind)?.opening.client.ipv4()
    }

    // Memory for the texts and the actions of an event, and what it keeps, asks for or runs.
    fn fill_room(&self, kind: &EventKind, twice: bool, room: &mut Room) -> Result<(), PrepareError>
        ensures ready { OnOk result (IsReady room.new) }
        ensures places { OnOk result (places_for kind.now ≤ room.new.places) }
        ensures letters { OnOk result (IsTrue (can_reply kind.now) → CanReply (width_for self.now.options kind.now) room.new) }
        ensures dropped { OnOk result (IsTrue (can_drop kind.now) → CanTellDropped room.new) }
        ensures kept { OnOk result (kept_in room.new ≡ kept_for self.now kind.now) }
        ensures pending { OnOk result (room.new.pending ≡ pending_for self.now kind.now) }
        ensures job { OnOk result (job_in room.new ≡ job_for self.now kind.now) }
        ensures need { OnOk result (need_in room.new ≡ need_for (is_some (header_for self.now kind.now)) (is_piece kind.now) (job_for self.now kind.now)) }
        ensures counted { OnOk result (room.new.count ≡ self.now.count) }
        ensures used { OnOk result (IsTrue (is_port kind.now) → room.new.used ≡ used_for self.now kind.now) }
        ensures stops { OnOk result (IsTrue (is_abor kind.now) → room.new.stops ≡ stops_for self.now kind.now) }
        ensures full { IfErr result (λ error. error ≡ PrepareError.OutOfMemory) }
        ensures path { OnOk result (HasCopy room.new (path_for self.now kind.now)) }
        ensures telling { OnOk result (telling_in room.new ≡ telling_for kind.now) }
        ensures leavers { OnOk result (IsTrue (is_shutdown kind.now) → AreLeavers (map.get nat_eq self.now.sessions) (leavers_in room.new)) }
        ensures leave { OnOk result (HasLeave room.new) }
        ensures twice { OnOk result (twice_in room.new ≡ twice) }
    {
        let named = self.named(kind);
        let kept = self.copy_kept(kind, named)?;
        self.ask(kind, named, &kept, room)?;
        self.run(kind, twice, room)?;
        let prepared = Prepared {
            kept,
            header: self.needs_header(kind),
            used: self.is_used(kind),
            piece: is_piece(kind),
            stops: self.can_stop(kind),
            telling: copy_telling(self.alloc, kind, twice)?,
            leavers: self.copy_leavers(kind, twice)?,
        };
        let extent = Extent::of(kind, &self.options, twice);
        Ok(room.fill(self.count, prepared, extent)?)
    }

    // The name or the path that an event keeps or tells.
    fn copy_kept(&self, kind: &EventKind, named: Option<&Session>) -> Result<Bytes, AllocError>
        requires { option_copied named ≡ named_in self.now kind.now }
        ensures { IfOk result (λ kept. kept ≡ kept_for self.now kind.now) }
    {
        match named {
            Some(session) => copy_kept(self.alloc, kind, session),
            None => copy_alone(self.alloc, kind),
        }
    }

    // Puts the transfer that an event asks for into the room, with what the event keeps.
    fn ask(
        &self,
        kind: &EventKind,
        named: Option<&Session>,
        kept: &Bytes,
        room: &mut Room,
    ) -> Result<(), AllocError>
        requires session { option_copied named ≡ named_in self.now kind.now }
        requires kept { kept.now ≡ kept_for self.now kind.now }
        ensures pending { OnOk result (room.new.pending ≡ pending_for self.now kind.now) }
        ensures same { room.new ≡ record room.old { pending = room.new.pending } }
    {
        match named {
            Some(session) => room.ask(kind, kept, session),
            None => {
                room.ask_nothing();
                Ok(())
            }
        }
    }

    // Puts the job that an event is the end or a piece of into the room, and its path where that is asked for.
    fn run(&self, kind: &EventKind, asked: bool, room: &mut Room) -> Result<(), AllocError>
        ensures job { OnOk result (job_in room.new ≡ job_for self.now kind.now) }
        ensures path { OnOk result (IsTrue asked → room.new.path ≡ path_for self.now kind.now) }
        ensures same { room.new ≡ record room.old { job = room.new.job; path = room.new.path } }
    {
        match kind {
            EventKind::End { ticket } | EventKind::Piece { ticket } => {
                self.run_job(*ticket, asked, room)
            }
            _ => {
                room.run_nothing();
                Ok(())
            }
        }
    }

    // Apart, so that an event of no job does not pay for it.
    #[inline(never)]
    fn run_job(&self, ticket: Ticket, asked: bool, room: &mut Room) -> Result<(), AllocError>
        ensures job { OnOk result (job_in room.new ≡ job_of_ticket (map.get nat_eq self.now.jobs ticket.session) ticket) }
        ensures path { OnOk result (IsTrue asked → room.new.path ≡ path_of (map.get nat_eq self.now.jobs ticket.session)) }
        ensures same { room.new ≡ record room.old { job = room.new.job; path = room.new.path } }
    {
        let running = self.jobs.get(&ticket.session);
        let path = copy_path(self.alloc, running, asked)?;
        let job = copy_job(self.alloc, running, ticket)?;
        room.run(job, path);
        Ok(())
    }

    // Says whether the event is to be decided by the header of its connection.
    fn needs_header(&self, kind: &EventKind) -> bool
        ensures { result ≡ is_some (header_for self.now kind.now) }
    {
        match kind {
            EventKind::Proxied { number, raw, .. } => {
                self.options.mode.is_proxy()
                    && !raw.ip.is_v6()
                    && !self.numbers.has(*number)
                    && !self.stopped
            }
            _ => false,
        }
    }

    // Says whether the number of the connection that was made for a PORT was used.
    fn is_used(&self, kind: &EventKind) -> bool
        ensures { result ≡ used_for self.now kind.now }
    {
        match kind {
            EventKind::Port {
                number: Some(number),
                ..
            } => self.numbers.has(*number),
            _ => false,
        }
    }

    // Says whether a job of the session that an ABOR names runs, and is not to stop yet.
    fn can_stop(&self, kind: &EventKind) -> bool
        ensures { result ≡ stops_for self.now kind.now }
    {
        match kind {
            EventKind::Abor { session } => match self.jobs.get(session) {
                Some(running) => !running.marked,
                None => false,
            },
            _ => false,
        }
    }
}

// The room of the last event, or a new one.
fn room_or_new(alloc: Global, spare: Option<Box<Room>>) -> Result<Box<Room>, PrepareError>
    ensures { IfErr result (λ error. error ≡ PrepareError.OutOfMemory) }
{
    if let Some(room) = spare {
        return Ok(room);
    }
    match Box::new(alloc, Room::blank(alloc)) {
        Ok(room) => Ok(room),
        Err(failed) => {
            drop(failed);
            Err(PrepareError::OutOfMemory)
        }
    }
}

// The path of a job, where it is asked for.
fn copy_path(alloc: Global, running: Option<&Running>, asked: bool) -> Result<Bytes, AllocError>
    ensures { IfOk result (λ path. IsTrue asked → path ≡ path_of (option_copied running.entry)) }
{
    match running {
        Some(running) if asked => running.job.path.copy(alloc),
        _ => Ok(Bytes::from_vec(Vec::new(alloc))),
    }
}

// The job, where it is that of the ticket and is not to stop.
fn copy_job(
    alloc: Global,
    running: Option<&Running>,
    ticket: Ticket,
) -> Result<Option<Job>, AllocError>
    ensures { IfOk result (λ copy. copy ≡ job_of_ticket (option_copied running.entry) ticket) }
{
    match running {
        Some(running) if running.job.ticket == ticket && !running.marked => {
            Ok(Some(running.job.copy(alloc)?))
        }
        _ => Ok(None),
    }
}
