//! How a room is filled for one event after another.

ghost use Rattle.std.specs.Prelude.{◌≡◌, ◌+◌, ◌*◌, ◌≤◌, true, [], IfOk, OnOk, IsTrue, None};
ghost use Rattle.ftp_handlers.specs.Handlers.{asked_for, kept_by};
ghost use Rattle.ftp_handlers.specs.Rooms.{IsReady, CanReply, CanTellDropped, HasLeave, job_in, kept_in, leavers_in, most_actions, need_for, need_in, telling_in, twice_in};

use crate::copies::{ActionList, Text};
use crate::fixed::fix_transfer;
use crate::leavers::Leavers;
use crate::room::{Extent, MOST_ACTIONS, Need, Room, SHORT_TEXT};
use crate::telling::Telling;
use ftp_base::Bytes;
use ftp_events::{EventKind, Session};
use ftp_transfer::Job;
use std::alloc::{AllocError, Global};

/// What is looked up for an event before its step, but for the transfer that it asks for and the job that is to be run.
#[derive(Drop)]
pub struct Prepared {
    /// The name or the path that the event keeps or tells.
    pub kept: Bytes,
    /// What the event tells, where it is a message.
    pub telling: Telling,
    /// The sessions that a stop ends, in order.
    pub leavers: Leavers,
    /// The header of the connection that the event brings is to be read.
    pub header: bool,
    /// The number that comes with the event was used before.
    pub used: bool,
    /// The event is a piece of the job that is to be run.
    pub piece: bool,
    /// A job of the session that the event names runs, and is not to stop yet.
    pub stops: bool,
}

impl Room {
    /// A room for no event.
    pub fn blank(alloc: Global) -> Room {
        Room {
            alloc,
            count: 0,
            need: Need::Nothing,
            job: None,
            kept: Text::blank(alloc, false),
            path: Bytes::from_vec(Vec::new(alloc)),
            pending: None,
            telling: Telling::none(false),
            leavers: Leavers::none(alloc, false),
            text: Text::blank(alloc, false),
            dropped: Text::blank(alloc, false),
            actions: ActionList::blank(alloc, false),
            used: false,
            stops: false,
        }
    }

    /// Puts the transfer that an event asks for in, as it is fixed now, in the place of what another event asked for.
    pub fn ask(
        &mut self,
        kind: &EventKind,
        kept: &Bytes,
        session: &Session,
    ) -> Result<(), AllocError>
        requires { kept.now ≡ kept_by kind.now session.now }
        ensures pending { OnOk result (self.new.pending ≡ asked_for kind.now session.now) }
        ensures same { self.new ≡ record self.old { pending = self.new.pending } }
    {
        match kind {
            EventKind::Transfer { .. } | EventKind::Stou { .. } => {
                self.pending = fix_transfer(self.alloc, kind, kept, session)?;
                Ok(())
            }
            _ => {
                self.ask_nothing();
                Ok(())
            }
        }
    }

    /// Lets the transfer go that another event asked for.
    pub fn ask_nothing(&mut self)
        ensures pending { self.new.pending ≡ None }
        ensures same { self.new ≡ record self.old { pending = self.new.pending } }
    {
        if self.pending.is_some() {
            self.drop_pending();
        }
    }

    // The transfer is let go apart, so that an event that asks for none does not pay for it.
    #[inline(never)]
    fn drop_pending(&mut self)
        ensures pending { self.new.pending ≡ None }
        ensures same { self.new ≡ record self.old { pending = self.new.pending } }
    {
        self.pending = None;
    }

    /// Puts the job in that is to be run, where there is one, and the path of the one that ends.
    pub fn run(&mut self, job: Option<Job>, path: Bytes)
        ensures job { job_in self.new ≡ job }
        ensures path { self.new.path ≡ path }
        ensures same { self.new ≡ record self.old { job = self.new.job; path = self.new.path } }
    {
        self.job = job;
        self.path = path;
    }

    /// Lets the job and the path of another event go.
    pub fn run_nothing(&mut self)
        ensures job { job_in self.new ≡ None }
        ensures path { self.new.path ≡ [] }
        ensures same { self.new ≡ record self.old { job = self.new.job; path = self.new.path } }
    {
        if self.job.is_some() {
            self.drop_job();
        }
        self.path = Bytes::from_vec(Vec::new(self.alloc));
    }

    #[inline(never)]
    fn drop_job(&mut self)
        ensures job { job_in self.new ≡ None }
        ensures same { self.new ≡ record self.old { job = self.new.job } }
    {
        self.job = None;
    }

    #[inline(always)]
    /// Takes memory for the step on an event at a count of events, with places for the actions of all who leave. Nothing
    /// stays that the room held of another event, but for the transfer that is asked for, the job and its path.
    ///
    /// # Proved
    ///
    /// - A room that was filled is empty, has so many places and so much room for texts, and holds what was looked up for
    ///   the event (four places or more) (`ready`, `places`, `letters`, `dropped`, `counted`, `kept`, `pending`, `job`,
    ///   `need`, `used`; also `Room::ask`: `pending`; `Room::run`: `job`, `path`).
    pub fn fill(&mut self, count: u64, prepared: Prepared, extent: Extent) -> Result<(), AllocError>
        requires places { most_actions ≤ extent.places }
        requires telling { prepared.telling.twice ≡ extent.twice }
        requires leavers { prepared.leavers.twice ≡ extent.twice }
        ensures ready { OnOk result (IsReady self.new) }
        ensures places { OnOk result (extent.places ≤ self.new.places) }
        ensures leave { OnOk result (HasLeave self.new) }
        ensures letters { OnOk result (IsTrue extent.replies → CanReply extent.width self.new) }
        ensures dropped { OnOk result (IsTrue extent.drops → CanTellDropped self.new) }
        ensures twice { OnOk result (twice_in self.new ≡ extent.twice) }
        ensures counted { OnOk result (self.new.count ≡ count) }
        ensures kept { OnOk result (kept_in self.new ≡ prepared.kept) }
        ensures path { OnOk result (self.new.path ≡ self.old.path) }
        ensures pending { OnOk result (self.new.pending ≡ self.old.pending) }
        ensures telling { OnOk result (telling_in self.new ≡ prepared.telling.told) }
        ensures leavers { OnOk result (leavers_in self.new ≡ prepared.leavers.items) }
        ensures job { OnOk result (job_in self.new ≡ job_in self.old) }
        ensures need { OnOk result (need_in self.new ≡ need_for prepared.header prepared.piece (job_in self.old)) }
        ensures used { OnOk result (self.new.used ≡ prepared.used) }
        ensures stops { OnOk result (self.new.stops ≡ prepared.stops) }
    {
        let places = places_with(extent.places, prepared.leavers.len())?;
        let Prepared {
            kept,
            telling,
            leavers,
            header,
            used,
            piece,
            stops,
        } = prepared;
        self.kept.clear(extent.twice);
        self.text.clear(extent.twice);
        self.dropped.clear(extent.twice);
        self.actions.clear(extent.twice);
        self.telling = telling;
        self.leavers = leavers;
        self.count = count;
        self.need = need_for(header, piece, &self.job);
        self.used = used;
        self.stops = stops;
        self.actions.make_places(self.alloc, places, extent.usual)?;
        self.text.make_room(extent.replies, extent.width)?;
        self.dropped.make_room(extent.drops, SHORT_TEXT)?;
        self.kept.hold(kept)
    }
}

// What has to be done outside before the step.
fn need_for(header: bool, piece: bool, job: &Option<Job>) -> Need
    ensures { result ≡ need_for header piece job.now }
{
    match job {
        _ if header => Need::Header,
        Some(job) if piece => Need::Piece(job.ticket),
        Some(job) => Need::Run(job.ticket),
        None => Need::Nothing,
    }
}

// How many actions have places, with those of all who leave.
fn places_with(places: usize, leavers: usize) -> Result<usize, AllocError>
    ensures { IfOk result (λ sum. sum ≡ places + most_actions * leavers) }
{
    let leaving = leavers.checked_mul(MOST_ACTIONS);
    match leaving.and_then(|leaving| leaving.checked_add(places)) {
        Some(sum) => Ok(sum),
        None => Err(AllocError),
    }
}
