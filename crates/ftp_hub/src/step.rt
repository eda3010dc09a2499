//! One event: what is decided, how the tables change, and what is done.

ghost use Rattle.std.specs.Prelude.{◌≡◌, ◌+◌, ◌-◌, ◌<◌, ◌≤◌, ◌^◌, [], ◌∷◌, ◌||◌, ℕ, List, IsTrue, true, false, Some, IfSome, IsSomeAnd, is_some, nat_eq};
ghost use Rattle.ftp_events.specs.declared.event.Answer.{Answer};
ghost use Rattle.ftp_events.specs.declared.event.Answer.TheVariants.{Done, Moved};
ghost use Rattle.ftp_events.specs.declared.event.EventKind.TheVariants.{IdleTick, Piece, Sweep};
ghost use Rattle.std.specs.HashMap as map;
ghost use Rattle.ftp_switchboard.specs.Used.{HasSpare, has};
ghost use Rattle.ftp_events.specs.declared.entry.Entry.{Entry};
ghost use Rattle.ftp_events.specs.EndRows.{can_end, can_move};
ghost use Rattle.ftp_events.specs.Log.{is_refusal, job_ticket, named_session, new_number, past_of};
ghost use Rattle.ftp_events.specs.Right.{next_entry};
ghost use Rattle.ftp_events.specs.Words.{is_number};
ghost use Rattle.ftp_handlers.specs.Handlers.{ends_session, is_command, is_port, is_transfer, kept_by, places_for};
ghost use Rattle.ftp_handlers.specs.Rooms.{IsReady, actions_in, kept_in, twice_in};
ghost use Rattle.ftp_hub.specs.Endings.{is_over};
ghost use Rattle.ftp_events.specs.Counts.{Counted};
ghost use Rattle.ftp_hub.specs.Stands.{Stands, Serves, SameHead, SameTables, Fits, ended_in, entry, options_of, count_of, counters_of};

use crate::hub::Hub;
use crate::jobs::{can_end, can_move, cut, finish, is_piece, is_transfer, mark, queue};
use crate::tables::take;
use ftp_events::{Answer, Decision, Ended, Entry, EventKind, HubEvent};
use ftp_handlers::{Room, command, ending, idle_tick};
use ftp_switchboard::Numbers;
use ftp_transfer::{Outcome, Ticket};

impl Hub {
    /// Decides the event and changes the tables. It takes no memory: all that it needs is in the room.
    ///
    /// # Proved
    ///
    /// - The entry is the one that is due after the log, with its event and answer: its decision and its actions are
    ///   those of the definitions, in every mode, if the hub stands for the log; the room fits (`due`, `event`,
    ///   `answer`; also `run_event`: `due`, `event`).
    /// - The hub then stands for the log with the entry: the log is right and acted, and each table answers every
    ///   question as the log does, if the hub stood for the log (`stands`; also `run_event`: `stands`; `run_events`:
    ///   `stands`).
    /// - In legacy mode too the log is right and acted: a PASV is granted the port that was bound for its session,
    ///   where that is in the range and there is an address to show with it; a data connection that came there is
    ///   attached where the slot waits and both peers have one address, and turned away with a `Close` else; nobody
    ///   holds a port, if the hub stands for the log (`due`, `stands`; also `run_event`: `due`, `stands`; `run_events`:
    ///   `stands`).
    /// - What is decided on a password goes by the failures that the log tells of the login's key (`tally` in
    ///   `ftp_events/specs/Lockout.antt`): a login that is let in has no locked key, and `LoginFailed` says what this
    ///   failure makes of the lock; the table of failed logins has of every key what the log tells, if the hub stands
    ///   for the log (`due`, `stands`; also `run_event`: `due`, `stands`).
    /// - The connection of a PORT is taken only where its text gives the address of the session's peer (`address_row`
    ///   in `ftp_events/specs/CommandRows.antt`); its number is used only then, and else may come again, if the hub
    ///   stands for the log (`due`, `stands`; also `run_event`: `due`, `stands`).
    /// - A slot is dropped for its age exactly where it has a link without a transfer for 300,000 ms or more, or waits
    ///   in legacy mode for 15,000 ms or more (`slot_row`, `slot_limit` there), if the hub stands for the log (`due`,
    ///   `stands`; also `run_event`: `due`, `stands`).
    /// - After a stop no session is live, nothing is held, and every connection is turned away; whether a stop came is
    ///   told by the hub as by the log, if the hub stands for the log (`due`, `stands`; also `run_event`: `due`,
    ///   `stands`).
    /// - A refused event changes no table, if the hub stands for the log (`refused`).
    /// - The counters are those of the log with the entry, where metrics are kept, and 0 else, if they were those of the log
    ///   and the hub stands for it (`counters`; also `Hub::step_twin`: `counters`; `run_event`: `counters`; `run_events`:
    ///   `counters`).
    /// - A step gives the due entry also where the allocator has nothing left: it has no answer of want of memory. That
    ///   it asks for none is no clause, if the room is of this event and count (`due`).
    /// - An ABOR of a session whose job runs marks the job, and its next piece or its end cuts it: the transfer is
    ///   cancelled, its session is told 426, its link is closed, and then the ABOR is answered by 226 (`abor_row` in
    ///   `ftp_events/specs/CommandRows.antt`, `unless_marked` in `ftp_events/specs/EndRows.antt`, `cuttings` in
    ///   `ftp_events/specs/Acts.antt`), if the hub stands for the log (`due`, `stands`; also `run_event`: `due`,
    ///   `stands`).
    /// - A header that is none, by whatever error, is decided `HeaderFault` with this error, the caller is told to
    ///   close its connection, and its number is used; one to the control port opens a session whose client is the
    ///   source and whose 227 shows the destination, where no other address is advertised, if the hub stands for the
    ///   log (`due`, `stands`; also `run_event`: `due`, `stands`).
    pub fn step(&mut self, room: Box<Room>, event: HubEvent, answer: Answer) -> Entry
        requires { Fits room.value self.old event }
        ensures event { result.event ≡ event }
        ensures answer { result.answer ≡ answer }
        ensures due { (log : List Entry) → Stands self.old log → result ≡ next_entry (options_of self.old) log event answer }
        ensures stands { (log : List Entry) → Stands self.old log → Stands self.new (result ∷ log) }
        ensures options { options_of self.new ≡ options_of self.old }
        ensures count { count_of self.new ≡ count_of self.old + 1 }
        ensures refused { (log : List Entry) → Stands self.old log → IsTrue (is_refusal result.decision) → SameTables self.old self.new }
        ensures counters { (log : List Entry) → Stands self.old log → Counted (options_of self.old) (past_of log) (counters_of self.old) → Counted (options_of self.old) (past_of (result ∷ log)) (counters_of self.new) }
    {
        let mut room = room;
        let decision = self.enter(&mut room, &event, answer);
        let actions = room.take_actions();
        self.spare = Some(room);
        Entry {
            event,
            answer,
            decision,
            actions,
        }
    }

    // Decides the event, changes the tables, and puts into the room what is done.
    pub(crate) fn enter(&mut self, room: &mut Room, event: &HubEvent, answer: Answer) -> Decision
        requires { Fits room.old self.old event.now }
        ensures due { (log : List Entry) → Stands self.old log → entry event.now answer result (actions_in room.new) ≡ next_entry (options_of self.old) log event.now answer }
        ensures stands { (log : List Entry) → Stands self.old log → Stands self.new (entry event.now answer result (actions_in room.new) ∷ log) }
        ensures options { options_of self.new ≡ options_of self.old }
        ensures count { count_of self.new ≡ count_of self.old + 1 }
        ensures refused { (log : List Entry) → Stands self.old log → IsTrue (is_refusal result) → SameTables self.old self.new }
        ensures counters { (log : List Entry) → Stands self.old log → Counted (options_of self.old) (past_of log) (counters_of self.old) → Counted (options_of self.old) (past_of (entry event.now answer result (actions_in room.new) ∷ log)) (counters_of self.new) }
        ensures twice { twice_in room.new ≡ twice_in room.old }
    {
        let ended = self.ended(&event.kind);
        let decision = self.serve(room, event, answer);
        self.counters
            .note(&self.options, answer, decision, room.actions(), ended);
        self.count += 1;
        decision
    }

    // What is counted of the job whose end the event may tell, where counts are kept.
    fn ended(&self, kind: &EventKind) -> Option<Ended>
        ensures { result ≡ ended_in self.now kind.now }
    {
        match kind {
            EventKind::End { ticket } | EventKind::Piece { ticket }
                if self.options.collect_metrics => {
                match self.jobs.get(&ticket.session) {
                    Some(running) => Some(Ended::of(&running.job)),
                    None => None,
                }
            }
            _ => None,
        }
    }

    // Hands the event to what decides on its kind.
    fn serve(&mut self, room: &mut Room, event: &HubEvent, answer: Answer) -> Decision
        requires { Fits room.old self.old event.now }
        ensures serves { (log : List Entry) → Stands self.old log → Serves self.old self.new log event.now answer result (actions_in room.new) }
        ensures head { SameHead self.old self.new }
        ensures twice { twice_in room.new ≡ twice_in room.old }
    {
        match &event.kind {
            EventKind::Connect { .. } => self.connect(room, event, answer),
            EventKind::Proxied { .. } => self.proxied(room, event, answer),
            EventKind::DataIn { .. } => self.data_in(room, event, answer),
            EventKind::Accepted { .. } => self.accepted(room, event),
            EventKind::User { session, .. }
            | EventKind::Pass { session }
            | EventKind::AuthDone { session, .. }
            | EventKind::Pasv { session, .. }
            | EventKind::Port { session, .. }
            | EventKind::Rest { session, .. }
            | EventKind::Cwd { session, .. }
            | EventKind::Abor { session }
            | EventKind::Internal { session, .. }
            | EventKind::SlotTick { session }
            | EventKind::Transfer { session, .. }
            | EventKind::Stou { session, .. } => self.command(room, event, *session),
            EventKind::IdleTick { session } => self.idle(room, event, *session),
            EventKind::End { ticket } | EventKind::Piece { ticket } => {
                self.end(room, event, answer, *ticket)
            }
            EventKind::Closed { session } | EventKind::Quit { session } => {
                self.close(room, event, *session)
            }
            EventKind::Sweep => self.sweep(room, event),
            // Nothing is held for a session that has ended.
            EventKind::Scavenge => Decision::Scavenged,
            EventKind::Shutdown => self.shutdown(room, event),
        }
    }

    // Failed logins that are too old are forgotten.
    fn sweep(&mut self, room: &mut Room, event: &HubEvent) -> Decision
        requires fits { Fits room.old self.old event.now }
        requires of_this_event { event.now.kind ≡ Sweep }
        ensures serves { (log : List Entry) (answer : Answer) → Stands self.old log → Serves self.old self.new log event.now answer result (actions_in room.new) }
        ensures head { SameHead self.old self.new }
        ensures twice { twice_in room.new ≡ twice_in room.old }
    {
        if let Some(failures) = &mut self.failures {
            failures.sweep(event.at);
        }
        Decision::Swept
    }

    // A command of a session, which may ask for a transfer.
    fn command(&mut self, room: &mut Room, event: &HubEvent, number: u64) -> Decision
        requires fits { Fits room.old self.old event.now }
        requires of_this_event { is_transfer event.now.kind ≡ false → IsTrue (is_command event.now.kind) }
        requires named { named_session event.now.kind ≡ Some number }
        ensures serves { (log : List Entry) (answer : Answer) → Stands self.old log → Serves self.old self.new log event.now answer result (actions_in room.new) }
        ensures head { SameHead self.old self.new }
        ensures twice { twice_in room.new ≡ twice_in room.old }
    {
        let Some(session) = self.sessions.get_mut(&number) else {
            return Decision::UnknownNumber;
        };
        if is_transfer(&event.kind) {
            return queue(
                session,
                number,
                event,
                &mut self.jobs,
                &mut self.board,
                room,
                &self.options,
            );
        }
        let decision = command(
            session,
            event,
            &mut self.board,
            &mut self.failures,
            room,
            &self.options,
        );
        use_number(&mut self.numbers, &event.kind, decision);
        mark(&mut self.jobs, number, decision);
        decision
    }

    // A look at the idle time of a session, which ends where that was too long.
    fn idle(&mut self, room: &mut Room, event: &HubEvent, number: u64) -> Decision
        requires fits { Fits room.old self.old event.now }
        requires of_this_event { event.now.kind ≡ IdleTick number }
        ensures serves { (log : List Entry) (answer : Answer) → Stands self.old log → Serves self.old self.new log event.now answer result (actions_in room.new) }
        ensures head { SameHead self.old self.new }
        ensures twice { twice_in room.new ≡ twice_in room.old }
    {
        let runs = self.jobs.contains_key(&number);
        let Some(session) = self.sessions.get_mut(&number) else {
            return Decision::UnknownNumber;
        };
        let decision = idle_tick(session, event, runs, &self.options);
        if let Decision::TimedOut = decision {
            return self.close(room, event, number);
        }
        decision
    }

    // The end of a session.
    fn close(&mut self, room: &mut Room, event: &HubEvent, number: u64) -> Decision
        requires below { self.old.count < 2 ^ 64 - 1 }
        requires ready { IsReady room.old }
        requires places { places_for event.now.kind ≤ room.old.places }
        requires kept { IfSome (map.get nat_eq self.old.sessions number) (λ v. kept_in room.old ≡ kept_by event.now.kind v) }
        requires over { IfSome (map.get nat_eq self.old.sessions number) (λ v. IsTrue (is_over self.old.options (is_some (map.get nat_eq self.old.jobs number)) event.now.at event.now.kind v)) }
        requires of_this_event { IsTrue (ends_session event.now.kind) }
        requires named { named_session event.now.kind ≡ Some number }
        ensures serves { (log : List Entry) (answer : Answer) → Stands self.old log → Serves self.old self.new log event.now answer result (actions_in room.new) }
        ensures head { SameHead self.old self.new }
        ensures twice { twice_in room.new ≡ twice_in room.old }
    {
        let Some(session) = take(&mut self.sessions, number) else {
            return Decision::UnknownNumber;
        };
        let mut session = session;
        ending(&mut session, event, &mut self.board, room, &self.options)
    }

    // The end of a transfer, or a piece of it, which may be the last.
    fn end(&mut self, room: &mut Room, event: &HubEvent, answer: Answer, ticket: Ticket) -> Decision
        requires fits { Fits room.old self.old event.now }
        requires of_this_event { job_ticket event.now.kind ≡ Some ticket }
        ensures serves { (log : List Entry) → Stands self.old log → Serves self.old self.new log event.now answer result (actions_in room.new) }
        ensures head { SameHead self.old self.new }
        ensures twice { twice_in room.new ≡ twice_in room.old }
    {
        let Some(running) = self.jobs.get(&ticket.session) else {
            return Decision::UnknownNumber;
        };
        if running.job.ticket != ticket {
            return Decision::UnknownNumber;
        }
        if running.marked {
            return self.cut(room, event, ticket);
        }
        match answer {
            Answer::Moved { bytes } => {
                if !is_piece(&event.kind) {
                    return Decision::NotExpected;
                }
                if !can_move(&running.job, bytes) {
                    return Decision::NotExpected;
                }
                self.go_on(event, bytes, ticket)
            }
            Answer::Done(outcome) => {
                if !can_end(&running.job, outcome) {
                    return Decision::NotExpected;
                }
                self.finish(room, event, ticket, outcome)
            }
            Answer::None => Decision::NotExpected,
            Answer::Header(_) => Decision::NotExpected,
        }
    }

    // A piece of a transfer that runs has moved, and more may come.
    fn go_on(&mut self, event: &HubEvent, bytes: u64, ticket: Ticket) -> Decision
        requires of_this_event { event.now.kind ≡ Piece ticket }
        requires runs { IsSomeAnd (map.get nat_eq self.old.jobs ticket.session) (λ r. (r.job.ticket ≡ ticket) × (r.marked ≡ false) × (can_move r.job bytes ≡ true)) }
        ensures serves { (log : List Entry) → Stands self.old log → Serves self.old self.new log event.now (Moved bytes) result [] }
        ensures head { SameHead self.old self.new }
    {
        let Some(running) = self.jobs.get_mut(&ticket.session) else {
            unreachable!()
        };
        running.job.done += bytes;
        if let Some(session) = self.sessions.get_mut(&ticket.session) {
            session.active_at = event.at;
        }
        Decision::Moved
    }

    // A transfer that was to stop has stopped.
    fn cut(&mut self, room: &mut Room, event: &HubEvent, ticket: Ticket) -> Decision
        requires fits { Fits room.old self.old event.now }
        requires of_this_event { job_ticket event.now.kind ≡ Some ticket }
        requires runs { IsSomeAnd (map.get nat_eq self.old.jobs ticket.session) (λ r. (r.job.ticket ≡ ticket) × (r.marked ≡ true)) }
        ensures serves { (log : List Entry) (answer : Answer) → Stands self.old log → Serves self.old self.new log event.now answer result (actions_in room.new) }
        ensures head { SameHead self.old self.new }
        ensures twice { twice_in room.new ≡ twice_in room.old }
    {
        let Some(job) = take(&mut self.jobs, ticket.session) else {
            unreachable!()
        };
        match self.sessions.get_mut(&ticket.session) {
            None => room.cut(ticket.session, ticket, job.job.number),
            Some(session) => cut(session, job, &mut self.jobs, room, event.at),
        }
        Decision::Cut
    }

    // A transfer that runs has ended with an outcome that it accepts.
    fn finish(
        &mut self,
        room: &mut Room,
        event: &HubEvent,
        ticket: Ticket,
        outcome: Outcome,
    ) -> Decision
        requires fits { Fits room.old self.old event.now }
        requires of_this_event { job_ticket event.now.kind ≡ Some ticket }
        requires runs { IsSomeAnd (map.get nat_eq self.old.jobs ticket.session) (λ r. (r.job.ticket ≡ ticket) × (r.marked ≡ false) × (can_end r.job outcome ≡ true)) }
        ensures serves { (log : List Entry) → Stands self.old log → Serves self.old self.new log event.now (Done outcome) result (actions_in room.new) }
        ensures head { SameHead self.old self.new }
        ensures twice { twice_in room.new ≡ twice_in room.old }
    {
        let Some(job) = take(&mut self.jobs, ticket.session) else {
            unreachable!()
        };
        match self.sessions.get_mut(&ticket.session) {
            None => room.complete(ticket, false),
            Some(session) => finish(
                session,
                job,
                outcome,
                &mut self.jobs,
                room,
                event.at,
                &self.options,
            ),
        }
        Decision::Finished
    }
}

// A number that comes with a command is used from now on, where the decision takes it: that of a PORT.
fn use_number(numbers: &mut Numbers, kind: &EventKind, decision: Decision)
    requires of_this_event { IsTrue (is_command kind.now) }
    requires room { IsTrue (is_port kind.now) → HasSpare numbers.old }
    ensures { (n : ℕ) → has numbers.new n ≡ (is_number (new_number kind.now decision) n || has numbers.old n) }
{
    if let (
        EventKind::Port {
            number: Some(number),
            ..
        },
        Decision::PortOk,
    ) = (kind, decision)
    {
        numbers.put(*number);
    }
}
