//! Memory that is taken ahead of a step, and what the event needs in it.

ghost use Rattle.std.specs.Prelude.{◌≡◌, ◌≤◌, ◌∷◌, ◌↔◌, [], IfNone, IfSome, IsNone, IsTrue, None, Some, if◌then◌else◌};
ghost use Rattle.ftp_handlers.specs.Handlers.{can_drop, can_reply, places_for, width_for};
ghost use Rattle.ftp_handlers.specs.Rooms.{actions_in, job_in, kept_in, leavers_in, most_actions, need_in, telling_in, twice_in};

use crate::copies::{ActionList, Text};
use crate::leavers::Leavers;
use crate::telling::{Telling, Told};
use ftp_base::Bytes;
use ftp_events::{Action, Actions, EventKind, Pending};
use ftp_options::{Options, PassiveHost};
use ftp_transfer::{Job, Ticket};
use std::alloc::Global;
use std::marker::Model;
use std::mem;

/// No text of a reply is longer, in bytes, but for one that shows a host's name.
pub(crate) const SHORT_TEXT: usize = 64;

/// No event has more actions for one session, but for QUIT, the end of an idle session and that of a job, which have one more.
pub(crate) const MOST_ACTIONS: usize = 4;

/// What has to be done outside before the step.
#[derive(Clone, Copy, Debug, PartialEq, Eq)]
pub enum Need {
    Nothing,
    /// The header of the connection that the event brings is read.
    Header,
    /// The transfer is run; its job is in the room.
    Run(Ticket),
    /// A piece of the transfer is moved; its job is in the room.
    Piece(Ticket),
}

/// Memory for one event at one count of events. It is filled for one event after another.
#[derive(Drop)]
pub struct Room {
    pub(crate) alloc: Global,
    pub(crate) count: u64,
    pub(crate) need: Need,
    /// The job that is to be run.
    pub(crate) job: Option<Job>,
    /// The name or the path that the event keeps or tells.
    pub(crate) kept: Text,
    /// Where all is written twice, a copy of the path of the job that ends.
    pub(crate) path: Bytes,
    /// The transfer that the event asks for.
    pub(crate) pending: Option<Pending>,
    /// What the event tells, where it is a message.
    pub(crate) telling: Telling,
    /// The sessions that a stop still has to end.
    pub(crate) leavers: Leavers,
    /// The text of the reply.
    pub(crate) text: Text,
    /// The text of the reply on a transfer that is dropped.
    pub(crate) dropped: Text,
    pub(crate) actions: ActionList,
    /// The number that comes with the event was used before.
    pub(crate) used: bool,
    /// A job of the session that the event names runs, and is not to stop yet.
    pub(crate) stops: bool,
}

impl Model for Room {
    ghost use Rattle.std.specs.Prelude.{◌≡◌};
    ghost use Rattle.ftp_handlers.specs.Rooms.{RoomState};

    ghost Value = { RoomState };

    ghost view = { λ r. record { count = r.count; job = r.job; need = r.need; kept = r.kept; path = r.path; pending = r.pending; telling = r.telling.told; leavers = r.leavers.items; text = r.text; dropped = r.dropped; actions = r.actions.items; places = r.actions.places; twice = r.actions.twice; used = r.used; stops = r.stops } };

    ghost invariant = { λ r. (r.kept.twice ≡ r.actions.twice) × (r.text.twice ≡ r.actions.twice) × (r.dropped.twice ≡ r.actions.twice) × (r.telling.twice ≡ r.actions.twice) × (r.leavers.twice ≡ r.actions.twice) };
}

/// What a room has memory for.
#[derive(Clone, Copy)]
pub struct Extent {
    /// How many actions have places.
    pub places: usize,
    /// A reply has room for its text.
    pub replies: bool,
    /// How many bytes that text can have.
    pub width: usize,
    /// The reply on a transfer that is dropped has room for its text.
    pub drops: bool,
    /// All is written twice.
    pub twice: bool,
    /// How many actions most events of the kind have. Others have as many as they need.
    pub usual: usize,
}

impl Extent {
    /// What an event of this kind can need, for one entry or for two.
    ///
    /// # Proved
    ///
    /// - What a room has memory for: places for four actions, or for five of a QUIT, of the end of an idle session, and
    ///   of the end of a transfer or a piece of it; room for a reply, and for one on a transfer that is dropped, for
    ///   the kinds of event that can get it, and for a name that a reply shows (`places`, `replies`, `width`, `drops`,
    ///   `enough`).
    pub fn of(kind: &EventKind, options: &Options, twice: bool) -> Extent
        ensures places { result.places ≡ places_for kind.now }
        ensures enough { most_actions ≤ result.places }
        ensures replies { result.replies ≡ can_reply kind.now }
        ensures width { result.width ≡ width_for options.now kind.now }
        ensures drops { result.drops ≡ can_drop kind.now }
        ensures twice { result.twice ≡ twice }
    {
        let (places, replies, drops) = match kind {
            EventKind::Connect { .. }
            | EventKind::Closed { .. }
            | EventKind::Internal { .. }
            | EventKind::Sweep
            | EventKind::Scavenge
            | EventKind::Shutdown => (MOST_ACTIONS, false, false),
            EventKind::Proxied { .. }
            | EventKind::DataIn { .. }
            | EventKind::Accepted { .. }
            | EventKind::SlotTick { .. } => (MOST_ACTIONS, false, true),
            EventKind::Pasv { .. } | EventKind::Port { .. } | EventKind::Abor { .. } => {
                (MOST_ACTIONS, true, true)
            }
            EventKind::Quit { .. } | EventKind::IdleTick { .. } => (MOST_ACTIONS + 1, true, false),
            EventKind::User { .. }
            | EventKind::Pass { .. }
            | EventKind::AuthDone { .. }
            | EventKind::Transfer { .. }
            | EventKind::Stou { .. }
            | EventKind::Rest { .. }
            | EventKind::Cwd { .. } => (MOST_ACTIONS, true, false),
            EventKind::End { .. } | EventKind::Piece { .. } => (MOST_ACTIONS + 1, true, true),
        };
        Extent {
            places,
            replies,
            width: width_for(kind, options),
            drops,
            twice,
            usual: usual_places(kind),
        }
    }
}

impl Room {
    /// The transfer that the event asks for.
    pub fn pending(&self) -> &Option<Pending>
        ensures { result.now ≡ self.now.pending }
    {
        &self.pending
    }

    /// What has to be done outside before the step.
    pub fn need(&self) -> Need
        ensures { result ≡ need_in self.now }
    {
        self.need
    }

    /// The actions that were put in so far, in order.
    pub fn actions(&self) -> &[Action]
        ensures { result.now ≡ actions_in self.now }
    {
        self.actions.as_slice()
    }

    /// The job of the transfer that is to be run. It is given once.
    pub fn take_job(&mut self) -> Option<Job>
        ensures job { result ≡ job_in self.old }
        ensures once { self.new ≡ record self.old { job = None } }
    {
        mem::replace(&mut self.job, None)
    }

    /// Takes the actions out that were put in, in order.
    ///
    /// # Proved
    ///
    /// - What is put in comes out in order; where the room is for two, twice, and no handler makes it one for one (it
    ///   has a place, and for a text the room) (also `Room::take_twin`: `first`, `second`; `command`, `ending`:
    ///   `twice`; `Room::reply`, `Room::advertise`, `Room::restart`, `Room::start`: `actions`, `same`).
    pub fn take_actions(&mut self) -> Actions
        ensures { result ≡ actions_in self.old }
    {
        self.actions.take_actions(self.alloc)
    }

    /// Takes the actions out that were put in, in order, twice.
    pub fn take_twin(&mut self) -> (Actions, Actions)
        requires { IsTrue (twice_in self.old) }
        ensures first { result.0 ≡ actions_in self.old }
        ensures second { result.1 ≡ actions_in self.old }
    {
        self.actions.take_both(self.alloc)
    }

    /// Takes out the name or the path that the event keeps or tells.
    pub fn take_kept(&mut self) -> Bytes
        ensures kept { result ≡ kept_in self.old }
        ensures same { self.new ≡ record self.old { kept = self.new.kept } }
    {
        self.kept.take(self.alloc)
    }

    // Takes out the name or the path that the event keeps or tells, and its copy.
    pub(crate) fn take_both(&mut self) -> (Bytes, Bytes)
        ensures kept { result.0 ≡ kept_in self.old }
        ensures copy { result.1 ≡ (if twice_in self.old then kept_in self.old else []) }
        ensures same { self.new ≡ record self.old { kept = self.new.kept } }
    {
        let none = Text::blank(self.alloc, self.actions.is_twice());
        mem::replace(&mut self.kept, none).into_both()
    }

    // Puts back the name or the path that the event keeps or tells, and its copy.
    pub(crate) fn put_both(&mut self, kept: Bytes, copy: Bytes)
        requires copy { copy ≡ (if twice_in self.old then kept else []) }
        ensures kept { kept_in self.new ≡ kept }
        ensures same { self.new ≡ record self.old { kept = self.new.kept } }
    {
        self.kept = Text::from_both(kept, copy, self.actions.is_twice());
    }

    /// Takes out what the event tells, and its copy, which is nothing where all is written once.
    pub(crate) fn take_telling(&mut self) -> Option<(Told, Told)>
        ensures none { IsNone result ↔ (telling_in self.old ≡ None) }
        ensures first { IfSome result (λ both. telling_in self.old ≡ Some both.0) }
        ensures second { IfSome result (λ both. IsTrue (twice_in self.old) → both.1 ≡ both.0) }
        ensures same { self.new ≡ record self.old { telling = self.new.telling } }
    {
        let none = Telling::none(self.actions.is_twice());
        mem::replace(&mut self.telling, none).into_both()
    }

    /// Takes out the next session that a stop ends: its number. Its user is what the event tells from now on.
    pub fn take_leaver(&mut self) -> Option<u64>
        ensures none { IfNone result (leavers_in self.old ≡ []) }
        ensures first { IfSome result (λ number. leavers_in self.old ≡ record { session = number; user = kept_in self.new } ∷ leavers_in self.new) }
        ensures same { self.new ≡ record self.old { leavers = self.new.leavers; kept = self.new.kept } }
    {
        let (number, user) = self.leavers.take()?;
        self.kept = user;
        Some(number)
    }

    /// Takes out the copy of the path of the job that ends, which is there where all is written twice.
    pub(crate) fn take_path(&mut self) -> Bytes
        ensures path { result ≡ self.old.path }
        ensures same { self.new ≡ record self.old { path = self.new.path } }
    {
        let none = Bytes::from_vec(Vec::new(self.alloc));
        mem::replace(&mut self.path, none)
    }

    /// Takes out the transfer that the event asks for.
    pub fn take_pending(&mut self) -> Option<Pending>
        ensures pending { result ≡ self.old.pending }
        ensures same { self.new ≡ record self.old { pending = self.new.pending } }
    {
        mem::replace(&mut self.pending, None)
    }
}

// How many actions most events of this kind have. No clause rests on it.
fn usual_places(kind: &EventKind) -> usize {
    match kind {
        EventKind::Connect { .. }
        | EventKind::Piece { .. }
        | EventKind::Sweep
        | EventKind::Scavenge
        | EventKind::Shutdown => 0,
        EventKind::User { .. }
        | EventKind::Pass { .. }
        | EventKind::Pasv { .. }
        | EventKind::Port { .. }
        | EventKind::Rest { .. }
        | EventKind::Cwd { .. }
        | EventKind::Abor { .. }
        | EventKind::Proxied { .. }
        | EventKind::DataIn { .. }
        | EventKind::Accepted { .. }
        | EventKind::SlotTick { .. } => 1,
        EventKind::AuthDone { .. }
        | EventKind::Transfer { .. }
        | EventKind::Stou { .. }
        | EventKind::Internal { .. }
        | EventKind::Closed { .. } => 2,
        EventKind::Quit { .. } | EventKind::IdleTick { .. } | EventKind::End { .. } => 3,
    }
}

// How many bytes suffice for the text of the reply on an event.
fn width_for(kind: &EventKind, options: &Options) -> usize
    ensures { result ≡ width_for options.now kind.now }
{
    match kind {
        EventKind::Pasv { lookup: None, .. } => match &options.host {
            PassiveHost::Dns(name) => SHORT_TEXT + name.as_slice().len(),
            PassiveHost::FromConnection | PassiveHost::Ip(_) => SHORT_TEXT,
        },
        _ => SHORT_TEXT,
    }
}
