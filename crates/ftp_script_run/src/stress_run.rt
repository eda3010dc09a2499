//! A run, event by event.

ghost use Rattle.std.specs.Prelude.{◌≡◌, ◌+◌, ◌-◌, ◌*◌, ◌^◌, ◌≤◌, ◌<◌, ◌∷◌, [], List, length, map, flat_map, None, OnOk, OnErr, IfOk, IsErrOf};
ghost use Rattle.ftp_base.specs.declared.fault.Failed.TheVariants.{Fault};
ghost use Rattle.ftp_base.specs.Outside.{HasRisen, Writes};
ghost use Rattle.ftp_control.specs.Writing.{WritesFront};
ghost use Rattle.std.specs.List.{range_with_len};
ghost use Rattle.ftp_options.specs.Builder.{settings_of};
ghost use Rattle.ftp_events.specs.declared.entry.Entry.{Entry};
ghost use Rattle.ftp_events.specs.declared.event.Answer.TheVariants as answer;
ghost use Rattle.ftp_events.specs.Right.{next_entry};
ghost use Rattle.ftp_hub.specs.Stands.{Fits, Stands, options_of, count_of};
ghost use Rattle.ftp_script_run.specs.Counts.{AreCounts};
ghost use Rattle.ftp_script_run.specs.Events.{login_of, drawn};
ghost use Rattle.ftp_script_run.specs.Stress.{stress_options, stress_lines};
ghost use Rattle.ftp_script_run.specs.Keeping.{Keeps, HasPlace, Takes};

use crate::counts::Counts;
use crate::draws::Draws;
use crate::events::{chosen, connect};
use ftp_base::{AuthAnswer, Bytes, Failed, Sink};
use ftp_control::write_all;
use ftp_events::{Answer, EventKind, HubEvent};
use ftp_hub::{Hub, PrepareError, Room};
use ftp_options::{Options, ServerBuilder};
use std::alloc::{AllocError, Global};

/// The passive ports, the first and the last.
const PORTS: (u16, u16) = (50000, 50063);

/// How many events are drawn for each session.
const DRAWN: u64 = 16;

/// Lets so many sessions log in, draws sixteen events for each, and writes how often each decision came.
///
/// There are at most 1,000 sessions. An entry is let go as soon as its decision was counted.
///
/// # Proved
///
/// - What is written is how often each decision came in the right and acted log of the drawn events, or after an error
///   a front of that (`wrote`, `front`).
/// - A fault only where the sink's count rose (`fault_rose`, `count`).
pub fn stress<K: Sink>(alloc: Global, seed: u64, sessions: u64, sink: &mut K) -> Result<(), Failed>
    requires some { 1 ≤ sessions }
    requires limit { sessions ≤ 1000 }
    ensures wrote { OnOk result (Writes (K.written sink.old) (K.written sink.new) (stress_lines seed sessions)) }
    ensures fault_rose { IsErrOf result Fault → HasRisen (K.faults sink.old) (K.faults sink.new) }
    ensures count { K.faults sink.old ≤ K.faults sink.new }

    // After an error a part from the front was written.
    ensures front { OnErr result (WritesFront (K.written sink.old) (K.written sink.new) (stress_lines seed sessions)) }
{
    match lines(alloc, seed, sessions) {
        Ok(lines) => write_all(sink, lines.as_slice()),
        Err(_) => Err(Failed::Memory),
    }
}

// The lines of a run.
fn lines(alloc: Global, seed: u64, sessions: u64) -> Result<Vec<u8>, AllocError>
    requires some { 1 ≤ sessions }
    requires limit { sessions ≤ 1000 }
    ensures { IfOk result (λ text. text.items ≡ stress_lines seed sessions) }
{
    let mut run = Run::new(alloc);
    let lines = run.lines(seed, sessions);
    drop(run);
    lines
}

// The hub, and how often it decided so. Of events and entries nothing is kept.
#[derive(Drop)]
struct Run {
    alloc: Global,
    hub: Hub,
    counts: Counts,
}

impl Run {
    // Nothing came.
    fn new(alloc: Global) -> Run
        ensures { Keeps result [] }
    {
        Run {
            alloc,
            hub: Hub::new(alloc, options(alloc)),
            counts: Counts::new(),
        }
    }

    // Runs the logins and the drawn events, and gives the lines of what was counted.
    fn lines(&mut self, seed: u64, sessions: u64) -> Result<Vec<u8>, AllocError>
        requires new { Keeps self.old [] }
        requires some { 1 ≤ sessions }
        requires limit { sessions ≤ 1000 }
        ensures { IfOk result (λ text. text.items ≡ stress_lines seed sessions) }
    {
        self.log_in_all(sessions)?;
        self.draw_all(seed, sessions)?;
        self.counts.lines(self.alloc)
    }

    // Lets all sessions log in.
    fn log_in_all(&mut self, sessions: u64) -> Result<(), AllocError>
        requires limit { sessions ≤ 1000 }
        requires place { HasPlace (4 * sessions) self.old }
        ensures { OnOk result (Takes self.old (flat_map login_of (range_with_len 1 sessions)) self.new) }
    {
        for session in 1..=sessions {
            self.log_in(session)?;
        }
        Ok(())
    }

    // Lets a session log in.
    fn log_in(&mut self, session: u64) -> Result<(), AllocError>
        requires { HasPlace 4 self.old }
        ensures { OnOk result (Takes self.old (login_of session) self.new) }
    {
        let name = Bytes::from_slice(self.alloc, b"ann")?;
        self.take(connect(session))?;
        self.take(EventKind::User { session, name })?;
        self.take(EventKind::Pass { session })?;
        self.take(EventKind::AuthDone {
            session,
            answer: AuthAnswer::Good,
        })
    }

    // Draws sixteen events for each session.
    fn draw_all(&mut self, seed: u64, sessions: u64) -> Result<(), AllocError>
        requires some { 1 ≤ sessions }
        requires limit { sessions ≤ 1000 }
        requires place { HasPlace (16 * sessions) self.old }
        ensures { OnOk result (Takes self.old (map (drawn seed sessions) (range_with_len 1 (16 * sessions))) self.new) }
    {
        let mut draws = Draws::new(seed);
        for k in 1..=DRAWN * sessions {
            let (a, b, c) = (draws.next(), draws.next(), draws.next());
            self.take(chosen(sessions, sessions + k, a, b, c))?;
        }
        Ok(())
    }

    // Runs an event, counts its decision and lets its entry go.
    fn take(&mut self, kind: EventKind) -> Result<(), AllocError>
        requires { HasPlace 1 self.old }
        ensures { OnOk result (Takes self.old (kind ∷ []) self.new) }
    {
        let event = HubEvent { at: 0, kind };
        match self.hub.prepare(&event) {
            Ok(room) => {
                self.count(room, event);
                Ok(())
            }
            Err(PrepareError::OutOfMemory) => {
                drop(event);
                Err(AllocError)
            }
            Err(PrepareError::Exhausted) => unreachable!(),
        }
    }

    // Decides the event in this room, counts its decision and lets its entry go.
    fn count(&mut self, room: Box<Room>, event: HubEvent)
        requires fits { Fits room.value self.old.hub event }
        requires counts { (log : List Entry) × AreCounts self.old.counts.numbers log × (length log < 2 ^ 64 - 1) }
        ensures stands { (log : List Entry) → Stands self.old.hub log → Stands self.new.hub (next_entry (options_of self.old.hub) log event answer.None ∷ log) }
        ensures counts { (log : List Entry) → Stands self.old.hub log → AreCounts self.old.counts.numbers log → AreCounts self.new.counts.numbers (next_entry (options_of self.old.hub) log event answer.None ∷ log) }
        ensures options { options_of self.new.hub ≡ options_of self.old.hub }
        ensures count { count_of self.new.hub ≡ count_of self.old.hub + 1 }
    {
        let entry = self.hub.step(room, event, Answer::None);
        self.counts.add(&entry);
        drop(entry);
    }
}

// Sessions share the listeners of the passive ports; else all is as a builder has it.
#[tactic(auto, unfolding(crate::specs::Stress::stress_options))]
fn options(alloc: Global) -> Options
    ensures { settings_of result ≡ settings_of stress_options }
{
    let mut builder = ServerBuilder::new(alloc);
    builder.pooled_listener_mode();
    builder.passive_ports(PORTS.0, PORTS.1);
    match builder.build() {
        Ok(built) => built.options,
        Err(_) => unreachable!(),
    }
}
