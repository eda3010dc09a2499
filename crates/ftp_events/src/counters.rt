//! What the server counts, for whoever watches it.
//!
//! Every count stands still at the last value of a u64.

ghost use Rattle.std.specs.Prelude.{◌≡◌, ℕ, ◌+◌, ◌-◌, ◌<◌, ◌^◌, [], ◌∷◌, List, true, false, slice_index};
ghost use Rattle.ftp_options.specs.declared.options.Options.{Options};
ghost use Rattle.ftp_events.specs.declared.entry.Entry.{Entry};
ghost use Rattle.ftp_events.specs.declared.event.HubEvent.{HubEvent};
ghost use Rattle.ftp_events.specs.Classes.{life};
ghost use Rattle.ftp_events.specs.Log.{is_refusal};
ghost use Rattle.ftp_events.specs.Session.{live_after, live_count};
ghost use Rattle.ftp_events.specs.Statuses.{word_of};
ghost use Rattle.ftp_events.specs.Tallies.{saturated, Grows, of_word, of_status, GrowsFor, GrowsWith};
ghost use Rattle.ftp_events.specs.Counts.{Counted, CountsOf, begins, ended_job, entry_of, one_if};

use crate::action::Action;
use crate::counting::{
    count_failure, count_file, count_received, count_replies, count_sent, count_status, delivered,
    finished,
};
use crate::decision::{Decision, Life};
use crate::event::Answer;
use crate::status::{CommandWord, Ended, Status7};
use crate::tallies::{Files, PerCommand, PerStatus};
use ftp_base::DataChanCmd;
use ftp_options::Options;

/// The counts of a server.
#[derive(Drop)]
pub struct Counters {
    session: u64,
    sessions_count: u64,
    auth_failures: u64,
    sent: PerCommand,
    received: PerCommand,
    transferred: PerStatus,
    read: Files,
    written: Files,
    // By the first digit of the code.
    replies: [u64; 10],
}

impl Counters {
    /// Counters at 0.
    pub fn new() -> Counters
        ensures none { (o : Options) → CountsOf o [] result }
        ensures counted { (o : Options) → Counted o [] result }
    {
        let none = Files { count: 0, bytes: 0 };
        Counters {
            session: 0,
            sessions_count: 0,
            auth_failures: 0,
            sent: PerCommand::new(),
            received: PerCommand::new(),
            transferred: PerStatus::new(),
            read: none,
            written: none,
            replies: [0; 10],
        }
    }

    /// Counters of a server that goes on with live sessions. All else is 0.
    pub fn with_sessions(live: u64) -> Counters
        ensures session { result.session ≡ live }
        ensures others { (o : Options) → CountsOf o [] (record result { session = 0 }) }
    {
        let mut counters = Counters::new();
        counters.session = live;
        counters
    }

    /// How many sessions are live.
    pub fn session(&self) -> u64
        ensures { result ≡ self.now.session }
    {
        self.session
    }

    /// How many sessions were opened.
    pub fn sessions_count(&self) -> u64
        ensures { result ≡ self.now.sessions_count }
    {
        self.sessions_count
    }

    /// How many logins failed.
    pub fn auth_failures(&self) -> u64
        ensures { result ≡ self.now.auth_failures }
    {
        self.auth_failures
    }

    /// How many bytes finished transfers by this command have sent.
    pub fn sent_bytes(&self, c: &DataChanCmd) -> u64
        ensures { result ≡ of_word self.now.sent (word_of c.now) }
    {
        self.sent.get(CommandWord::of(c))
    }

    /// How many bytes finished transfers by this command have received.
    pub fn received_bytes(&self, c: &DataChanCmd) -> u64
        ensures { result ≡ of_word self.now.received (word_of c.now) }
    {
        self.received.get(CommandWord::of(c))
    }

    /// How many finished transfers by this command had this status.
    pub fn transferred(&self, c: &DataChanCmd, s: Status7) -> u64
        ensures { result ≡ of_word (of_status self.now.transferred s) (word_of c.now) }
    {
        self.transferred.get(CommandWord::of(c), s)
    }

    /// How many bytes the files had that were sent.
    pub fn read_bytes(&self) -> u64
        ensures { result ≡ self.now.read.bytes }
    {
        self.read.bytes
    }

    /// How many files were sent.
    pub fn read_files(&self) -> u64
        ensures { result ≡ self.now.read.count }
    {
        self.read.count
    }

    /// How many bytes the files were given that were written.
    pub fn written_bytes(&self) -> u64
        ensures { result ≡ self.now.written.bytes }
    {
        self.written.bytes
    }

    /// How many files were written.
    pub fn written_files(&self) -> u64
        ensures { result ≡ self.now.written.count }
    {
        self.written.count
    }

    /// How many replies had a code that begins with this digit.
    pub fn replies(&self, first_digit: u8) -> u64
        ensures { result ≡ slice_index self.now.replies first_digit }
    {
        let i = first_digit as usize;
        if i < self.replies.len() {
            self.replies[i]
        } else {
            0
        }
    }

    /// Counts a session that was opened.
    pub fn inc_session(&mut self)
        ensures session { self.new.session ≡ saturated (self.old.session + 1) }
        ensures opened { self.new.sessions_count ≡ saturated (self.old.sessions_count + 1) }
        ensures others { self.new ≡ record self.old { session = self.new.session; sessions_count = self.new.sessions_count } }
    {
        self.session = self.session.saturating_add(1);
        self.sessions_count = self.sessions_count.saturating_add(1);
    }

    /// Counts a session that has ended.
    pub fn dec_session(&mut self)
        ensures session { self.new.session ≡ self.old.session - 1 }
        ensures others { self.new ≡ record self.old { session = self.new.session } }
    {
        self.session = self.session.saturating_sub(1);
    }

    /// Counts bytes that were sent by this command.
    pub fn inc_sent_bytes(&mut self, n: u64, c: &DataChanCmd)
        ensures sent { GrowsFor (word_of c.now) n self.old.sent self.new.sent }
        ensures others { self.new ≡ record self.old { sent = self.new.sent } }
    {
        self.sent.add(CommandWord::of(c), n);
    }

    /// Counts bytes that were received by this command.
    pub fn inc_received_bytes(&mut self, n: u64, c: &DataChanCmd)
        ensures received { GrowsFor (word_of c.now) n self.old.received self.new.received }
        ensures others { self.new ≡ record self.old { received = self.new.received } }
    {
        self.received.add(CommandWord::of(c), n);
    }

    /// Counts a transfer by this command with this status.
    pub fn inc_transferred(&mut self, c: &DataChanCmd, s: Status7)
        ensures transferred { GrowsWith (word_of c.now) s self.old.transferred self.new.transferred }
        ensures others { self.new ≡ record self.old { transferred = self.new.transferred } }
    {
        self.transferred.add(CommandWord::of(c), s);
    }

    /// Counts an entry with these parts, where counts are kept. A refused entry counts for nothing.
    ///
    /// `ended` tells of the job whose end the event tells, as it ran before the entry.
    ///
    /// # Proved
    ///
    /// - What is counted of an entry: the counts are those of the log with it (`CountsOf` in
    ///   `ftp_events/specs/Counts.antt`), which stand still at the end of their type; a refused entry changes none, and
    ///   none changes where metrics are not kept (`counted`, `refused`; also `Counters::new`: `none`, `counted`).
    pub fn note(
        &mut self,
        options: &Options,
        answer: Answer,
        decision: Decision,
        actions: &[Action],
        ended: Option<Ended>,
    )
        ensures counted { (past : List Entry) (event : HubEvent) →
            is_refusal decision ≡ false →
            live_count past < 2 ^ 64 →
            ended ≡ ended_job options.now past event.kind →
            Counted options.now past self.old →
            Counted options.now (entry_of event answer decision actions.now ∷ past) self.new }
        ensures refused { is_refusal decision ≡ true → self.new ≡ self.old }
    {
        if !options.collect_metrics || decision.is_refusal() {
            return;
        }
        self.count(answer, decision, actions, ended);
    }

    // Counts an entry with these parts.
    fn count(
        &mut self,
        answer: Answer,
        decision: Decision,
        actions: &[Action],
        ended: Option<Ended>,
    )
        ensures { (o : Options) (past : List Entry) (event : HubEvent) →
            live_count past < 2 ^ 64 →
            ended ≡ ended_job o past event.kind →
            CountsOf o past self.old →
            CountsOf o (entry_of event answer decision actions.now ∷ past) self.new }
    {
        self.count_life(decision);
        count_failure(&mut self.auth_failures, decision);
        let end = finished(decision, answer, ended);
        count_sent(&mut self.sent, end);
        count_received(&mut self.received, end);
        count_status(&mut self.transferred, end);
        let told = delivered(decision, answer, actions);
        count_file(&mut self.read, &mut self.written, told);
        count_replies(&mut self.replies, actions);
    }

    // Counts a session that is opened or ends, or all that end.
    fn count_life(&mut self, decision: Decision)
        ensures session { (n : ℕ) → n < 2 ^ 64 → self.old.session ≡ saturated n → self.new.session ≡ saturated (live_after decision n) }
        ensures opened { Grows (one_if (begins (life decision))) self.old.sessions_count self.new.sessions_count }
        ensures others { self.new ≡ record self.old { session = self.new.session; sessions_count = self.new.sessions_count } }
    {
        if decision.is_stop() {
            self.session = 0;
            return;
        }
        match decision.life() {
            Life::Opens => self.inc_session(),
            Life::Ends => self.dec_session(),
            Life::Goes => {}
        }
    }
}
