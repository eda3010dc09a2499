//! The state of a text.

ghost use Rattle.std.specs.Prelude.{◌≡◌, ◌<◌, ◌∷◌, ℕ, List, false, length, IfOk, IfErr, OnOk, IsErrOf, map as each};
ghost use Rattle.std.specs.List.{AllByRecursion};
ghost use Rattle.ftp_text.specs.declared.fault.LineFault.TheVariants as fault;
ghost use Rattle.ftp_hub.specs.State.{IsForm};
ghost use Rattle.ftp_hub.specs.declared.state.HubState.{HubState};
ghost use Rattle.ftp_hub.specs.declared.state.StateError.TheVariants as state_error;
ghost use Rattle.ftp_text.specs.declared.state_line.StateLine.{StateLine};
ghost use Rattle.ftp_text.specs.Spelling.{IsStateLine, state_line};
ghost use Rattle.ftp_text.specs.Grammar.{AreInLineOrder, AreStateLines, IsNextLine, may_stand_behind, no_state, with_line, with_lines};
ghost use Rattle.ftp_text.specs.StateText.{IsFirstBadStateLine, IsOfText, IsStateRead, IsSpelledBy, lines_in, state_text};

use crate::fault::LineFault;
use crate::state_line::{StateLine, read_state_line};
use ftp_base::Rows;
use ftp_hub::{HubState, JobLine, QueuedLine, RecordLine, SessionLine, SlotLine, StateError};
use ftp_switchboard::Interval;
use memchr::memchr;
use std::alloc::{AllocError, Global};
use std::marker::Model;

/// The state of a text.
///
/// # Proved
///
/// - What is read is the state whose lines the text has (`found`), with lists in the order and the form of a state's lines
///   (`form`), and the text of a state is read, unless memory runs out (`only`).
/// - The line that is named is the first up to which the lines are those of no state, and no other answer than this and
///   want of memory is given (`bad`, `others`).
pub fn decode_state(alloc: Global, text: &[u8]) -> Result<HubState, StateError>
    ensures found { IfOk result (λ x. IsSpelledBy (lines_in text.now) x) }
    ensures form { IfOk result IsForm }
    ensures only { (x : HubState) (lines : List StateLine) → AreStateLines x lines → text.now ≡ state_text lines → IsStateRead x result }
    ensures bad { (k : ℕ) → IsErrOf result (state_error.BadLine k) → IsFirstBadStateLine k (lines_in text.now) }
    ensures others { IfErr result IsOfText }
{
    let lines = read_lines(alloc, text)?;
    let state = gather(alloc, lines)?;
    Ok(state)
}

// The lines of a text.
fn read_lines(alloc: Global, text: &[u8]) -> Result<Vec<StateLine>, StateError>
    ensures order { IfOk result (λ lines. AreInLineOrder lines.items) }
    ensures fit { IfOk result (λ lines. AllByRecursion IsStateLine lines.items) }
    ensures spelled { IfOk result (λ lines. each state_line lines.items ≡ lines_in text.now) }
    ensures bad { (k : ℕ) → IsErrOf result (state_error.BadLine k) → IsFirstBadStateLine k (lines_in text.now) }
    ensures others { IfErr result IsOfText }
{
    let mut lines = Vec::new(alloc);
    let mut count: u64 = 0;
    let mut rest = text;
    while !rest.is_empty() {
        count += 1;
        let (line, behind) = cut_line(rest);
        match read_next(alloc, &mut lines, line) {
            Ok(()) => rest = behind,
            Err(LineFault::Bad) => return Err(StateError::BadLine(count)),
            Err(LineFault::Memory) => return Err(StateError::OutOfMemory),
        }
    }
    if count == 0 {
        return Err(StateError::BadLine(1));
    }
    Ok(lines)
}

// The first line of a text that has one, and the bytes behind its line feed.
fn cut_line(text: &[u8]) -> (&[u8], &[u8])
    requires some { 0 < length text.now }
    ensures lines { lines_in text.now ≡ result.0.now ∷ lines_in result.1.now }
    ensures shorter { length result.1.now < length text.now }
{
    match memchr(b'\n', text) {
        Some(end) => (&text[..end], &text[end + 1..]),
        None => (text, &[]),
    }
}

// Reads a line, and adds what it says to the lines before it where it may stand behind them.
fn read_next(alloc: Global, lines: &mut Vec<StateLine>, line: &[u8]) -> Result<(), LineFault>
    ensures read { OnOk result (IsNextLine lines.old.items line.now lines.new.items) }
    ensures bad { IsErrOf result fault.Bad → (x : StateLine) → IsStateLine x → state_line x ≡ line.now → may_stand_behind lines.old.items x ≡ false }
{
    let says = read_state_line(alloc, line)?;
    if !may_stand_behind(lines, &says) {
        drop(says);
        return Err(LineFault::Bad);
    }
    lines.push(says)?;
    Ok(())
}

// Says whether a line may stand behind these.
fn may_stand_behind(lines: &[StateLine], line: &StateLine) -> bool
    ensures { result ≡ may_stand_behind lines.now line.now }
{
    match lines.last() {
        Some(before) => line.follows(before),
        None => line.is_first_line(),
    }
}

// What lines say so far.
#[derive(Drop)]
struct Draft {
    events: u64,
    stopped: bool,
    used: Vec<Interval>,
    records: Vec<RecordLine>,
    sessions: Vec<SessionLine>,
    slots: Vec<SlotLine>,
    queued: Vec<QueuedLine>,
    jobs: Vec<JobLine>,
}

impl Model for Draft {
    ghost use Rattle.ftp_hub.specs.State.{IsForm};
    ghost use Rattle.ftp_hub.specs.declared.state.HubState.{HubState};

    ghost Value = { HubState };

    ghost view = { λ d. record {
      events = d.events;
      stopped = d.stopped;
      used = d.used.items;
      records = d.records.items;
      sessions = d.sessions.items;
      slots = d.slots.items;
      queued = d.queued.items;
      jobs = d.jobs.items;
    } };
}

impl Draft {
    fn new(alloc: Global) -> Draft
        ensures { result ≡ no_state }
    {
        Draft {
            events: 0,
            stopped: false,
            used: Vec::new(alloc),
            records: Vec::new(alloc),
            sessions: Vec::new(alloc),
            slots: Vec::new(alloc),
            queued: Vec::new(alloc),
            jobs: Vec::new(alloc),
        }
    }

    // Adds what a line says.
    fn add(&mut self, line: StateLine) -> Result<(), AllocError>
        ensures { OnOk result (self.new ≡ with_line self.old line) }
    {
        match line {
            StateLine::Checkpoint { events, stopped } => {
                self.events = events;
                self.stopped = stopped;
            }
            StateLine::Used(interval) => self.used.push(interval)?,
            StateLine::Record(line) => self.records.push(line)?,
            StateLine::Session(line) => self.sessions.push(line)?,
            StateLine::Slot(line) => self.slots.push(line)?,
            StateLine::Queued(line) => self.queued.push(line)?,
            StateLine::Job(line) => self.jobs.push(line)?,
        }
        Ok(())
    }

    fn into_state(self) -> HubState
        ensures { result ≡ self }
    {
        HubState {
            events: self.events,
            stopped: self.stopped,
            used: Rows::from_vec(self.used),
            records: Rows::from_vec(self.records),
            sessions: Rows::from_vec(self.sessions),
            slots: Rows::from_vec(self.slots),
            queued: Rows::from_vec(self.queued),
            jobs: Rows::from_vec(self.jobs),
        }
    }
}

// What lines say together.
fn gather(alloc: Global, lines: Vec<StateLine>) -> Result<HubState, AllocError>
    ensures { IfOk result (λ x. x ≡ with_lines no_state lines.items) }
{
    let mut draft = Draft::new(alloc);
    for line in lines {
        draft.add(line)?;
    }
    Ok(draft.into_state())
}
