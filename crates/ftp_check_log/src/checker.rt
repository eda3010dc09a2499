//! The check of a printed log, line by line.

ghost use Rattle.std.specs.Prelude.{◌≡◌, ◌↔◌, ◌+◌, ◌-◌, ◌∷◌, ℕ, List, [], Some, None, true, IsTrue, slice_get, IfOk, OnOk, MatchOption};
ghost use Rattle.std.specs.Option.{option_copied};
ghost use Rattle.ftp_hub.specs.Stands.{Fits, count_of};
ghost use Rattle.ftp_text.specs.declared.line.LogLine.{LogLine};
ghost use Rattle.ftp_text.specs.declared.line.LogLine.TheVariants as says;
ghost use Rattle.ftp_text.specs.LogLines.{IsLogLine};
ghost use Rattle.ftp_text.specs.Place.{IsLawful};
ghost use Rattle.ftp_check_log.specs.Checks.{Checks, Takes, TellsBy};

use crate::verdict::Verdict;
use ftp_events::{Action, Actions, Answer, Decision, Entry, HubEvent, Log};
use ftp_hub::{Hub, Room};
use ftp_text::{Item, LogLine, Place, default_options, options_in};
use std::alloc::{AllocError, Global};

/// How far a log is checked. Where entries are not kept, the actions of the last one are all that is.
#[derive(Drop)]
pub struct Checker {
    pub(crate) alloc: Global,
    pub(crate) place: Place,
    // It stands for the entries that were decided.
    pub(crate) hub: Hub,
    // What happened and is not decided yet, and what was answered to it.
    pub(crate) event: Option<HubEvent>,
    pub(crate) answer: Answer,
    // The actions that are due for the last entry, of which so many came.
    pub(crate) due: Actions,
    pub(crate) came: usize,
    // The entries that were decided, where they are kept.
    pub(crate) keeps: bool,
    pub(crate) log: Log,
}

impl Checker {
    /// Nothing is checked. From now on entries are kept, or let go.
    pub fn new(alloc: Global, keeps: bool) -> Checker
        ensures start { (all : List ℕ) → Checks result [] all all }
        ensures lawful { IsLawful result.place }
        ensures keeps { result.keeps ≡ keeps }
    {
        let place = Place::new();
        let options = default_options(alloc);
        let hub = Hub::new(alloc, options);
        let none = Vec::new(alloc);
        let due = Actions::from_vec(none);
        let log = Log::new(alloc);
        Checker {
            alloc,
            place,
            hub,
            event: None,
            answer: Answer::None,
            due,
            came: 0,
            keeps,
            log,
        }
    }

    /// Checks a line, which may stand there: None where it is as it is due.
    pub fn take(&mut self, line: LogLine) -> Result<Option<Verdict>, AllocError>
        requires { IsLogLine line }
        ensures taken { IfOk result (λ ended. Takes line ended self.old self.new) }
        ensures place { self.new.place ≡ self.old.place }
        ensures keeps { self.new.keeps ≡ self.old.keeps }
    {
        match line {
            LogLine::Options(item) => {
                self.set_options(item);
                Ok(None)
            }
            LogLine::Event(event) => Ok(self.happen(event)),
            LogLine::Answer(answer) => {
                self.answer = answer;
                Ok(None)
            }
            LogLine::Decision(decision) => self.decide(decision),
            LogLine::Action(action) => Ok(self.act(&action)),
        }
    }

    // Makes the hub anew, by these options.
    fn set_options(&mut self, item: Item)
        requires { IsLogLine (says.Options item) }
        ensures set { Takes (says.Options item) None self.old self.new }
        ensures place { self.new.place ≡ self.old.place }
        ensures keeps { self.new.keeps ≡ self.old.keeps }
    {
        self.hub = Hub::new(self.alloc, options_in(self.alloc, item));
    }

    // The next event, where no action of the last entry is missing.
    fn happen(&mut self, event: HubEvent) -> Option<Verdict>
        ensures happened { Takes (says.Event event) result self.old self.new }
        ensures place { self.new.place ≡ self.old.place }
        ensures keeps { self.new.keeps ≡ self.old.keeps }
    {
        if self.came < self.due.as_slice().len() {
            drop(event);
            return Some(self.other_actions());
        }
        self.event = Some(event);
        self.answer = Answer::None;
        self.due = Actions::from_vec(Vec::new(self.alloc));
        self.came = 0;
        None
    }

    // Decides what happened, and compares. No decision comes where nothing happened.
    fn decide(&mut self, decision: Decision) -> Result<Option<Verdict>, AllocError>
        ensures decided { IfOk result (λ ended. Takes (says.Decision decision) ended self.old self.new) }
        ensures place { self.new.place ≡ self.old.place }
        ensures keeps { self.new.keeps ≡ self.old.keeps }
    {
        match self.event.take() {
            Some(event) => self.decide_on(event, decision),
            None => Ok(None),
        }
    }

    // Decides the event, and compares.
    fn decide_on(
        &mut self,
        event: HubEvent,
        decision: Decision,
    ) -> Result<Option<Verdict>, AllocError>
        ensures decided { IfOk result (λ ended. Takes (says.Decision decision) ended (record self.old { event = Some event }) self.new) }
        ensures place { self.new.place ≡ self.old.place }
        ensures keeps { self.new.keeps ≡ self.old.keeps }
    {
        match self.hub.prepare(&event) {
            Ok(room) => self.compare(room, event, decision),
            Err(_) => {
                drop(event);
                Err(AllocError)
            }
        }
    }

    // Decides the event in this room, and compares.
    fn compare(
        &mut self,
        room: Box<Room>,
        event: HubEvent,
        decision: Decision,
    ) -> Result<Option<Verdict>, AllocError>
        requires { Fits room.value self.old.hub event }
        ensures compared { IfOk result (λ ended. Takes (says.Decision decision) ended (record self.old { event = Some event }) self.new) }
        ensures place { self.new.place ≡ self.old.place }
        ensures keeps { self.new.keeps ≡ self.old.keeps }
    {
        let entries = self.hub.events();
        let entry = self.hub.step(room, event, self.answer);
        let due = entry.decision;
        if !is_same_decision(due, decision) {
            drop(entry);
            return Ok(Some(Verdict::Decided { entries, due }));
        }
        if let Err(error) = keep(self.alloc, self.keeps, &mut self.log, &entry) {
            drop(entry);
            return Err(error);
        }
        self.due = entry.actions;
        self.came = 0;
        drop(entry.event);
        Ok(None)
    }

    // An action, where it is the next one that is due.
    fn act(&mut self, action: &Action) -> Option<Verdict>
        ensures acted { Takes (says.Action action.now) result self.old self.new }
        ensures place { self.new.place ≡ self.old.place }
        ensures keeps { self.new.keeps ≡ self.old.keeps }
    {
        match self.came_with(action) {
            Some(came) => {
                self.came = came;
                None
            }
            None => Some(self.other_actions()),
        }
    }

    // How many actions of the last entry came with this one, where it is the next one that is due.
    fn came_with(&self, action: &Action) -> Option<usize>
        ensures { MatchOption result (slice_get self.now.due self.now.came ≡ Some action.now → ⊥)
            (λ n. (slice_get self.now.due self.now.came ≡ Some action.now) × (n ≡ self.now.came + 1)) }
    {
        let all = self.due.as_slice().len();
        if self.came >= all {
            return None;
        }
        if !self.is_next(action) {
            return None;
        }
        Some(self.came + 1)
    }

    // Says whether the action is the next one that is due.
    fn is_next(&self, action: &Action) -> bool
        ensures { IsTrue result ↔ slice_get self.now.due self.now.came ≡ Some action.now }
    {
        match self.due.as_slice().get(self.came) {
            Some(due) => is_same_action(due, action),
            None => false,
        }
    }

    // The last entry has other actions.
    fn other_actions(&self) -> Verdict
        ensures { result ≡ Verdict.Acted (count_of self.now.hub - 1) }
    {
        Verdict::Acted {
            entries: self.hub.events().saturating_sub(1),
        }
    }

    /// What the check comes to where the text ends here.
    pub fn end(&self) -> Verdict
        ensures { (lines : List LogLine) (all : List ℕ) → Checks self.now lines all [] → TellsBy result self.now all }
    {
        if !self.place.is_whole() {
            return Verdict::BadText {
                line: self.place.lines,
            };
        }
        if self.came < self.due.as_slice().len() {
            return self.other_actions();
        }
        Verdict::Right {
            entries: self.hub.events(),
        }
    }
}

// Puts a copy of the entry to the log, where entries are kept.
fn keep(alloc: Global, keeps: bool, log: &mut Log, entry: &Entry) -> Result<(), AllocError>
    ensures { OnOk result (keeps ≡ true → log.new.entries ≡ entry.now ∷ log.old.entries) }
{
    if !keeps {
        return Ok(());
    }
    let copy = entry.copy(alloc)?;
    match log.push(copy) {
        Ok(()) => Ok(()),
        Err(_) => Err(AllocError),
    }
}

// Says whether the decisions are equal: `==`, with what it means.
fn is_same_decision(a: Decision, b: Decision) -> bool
    ensures { IsTrue result ↔ a ≡ b }
{
    a == b
}

// Says whether the actions are equal: `==`, with what it means.
fn is_same_action(a: &Action, b: &Action) -> bool
    ensures { IsTrue result ↔ a.now ≡ b.now }
{
    a == b
}
