//! The log.

ghost use Rattle.std.specs.Prelude.{◌≡◌, ◌+◌, ◌++◌, [], ◌∷◌, List, filter_map, OnOk, OnErr, IfOk, nat_eq};
ghost use Rattle.std.specs.HashMap as map;
ghost use Rattle.std.specs.List.{flat_map};
ghost use Rattle.ftp_options.specs.declared.options.Options.{Options};
ghost use Rattle.ftp_events.specs.declared.entry.Entry.{Entry};
ghost use Rattle.ftp_events.specs.Counts.{one_if};
ghost use Rattle.ftp_events.specs.Tallies.{saturated};
ghost use Rattle.ftp_events.specs.Right.{IsRight, IsActed};
ghost use Rattle.ftp_audit.specs.Forms.{log_line_text};
ghost use Rattle.ftp_audit.specs.Lines.{line_by_action, lines_by};
ghost use Rattle.ftp_audit.specs.Tickets.{request_at};
ghost use Rattle.ftp_audit.specs.Written.{HasTaken, Knows, Learns, SameKnown, form_of, is_lockout, lines_on, locked_of, told_lines, log_start};

use crate::form::put_maybe;
use crate::guest::{self, Guest};
use crate::line::{LogForm, line_by_action, line_by_decision};
use crate::request::{self, Requests};
use ftp_base::{Bytes, LockState};
use ftp_events::{Action, Decision, Entry, Log};
use std::alloc::{AllocError, Global};
use std::collections::HashMap;

/// What is known of the sessions that are live and of the transfers that are not settled, and how many logins were locked
/// out, over the entries that were taken.
#[derive(Drop)]
pub struct ServerLog {
    alloc: Global,
    form: LogForm,
    // In milliseconds since the first day of 1970.
    start: u64,
    guests: HashMap<u64, Guest>,
    requests: Requests,
    locked: u64,
}

impl ServerLog {
    /// No entry was taken. The server started at a moment in milliseconds since the first day of 1970, UTC.
    ///
    /// # Proved
    ///
    /// - After the entries of a right and acted log were taken in order, what is known of sessions and transfers is what
    ///   the log tells (`taken`; also `ServerLog::take`: `taken`).
    pub fn new(alloc: Global, form: LogForm, start: u64) -> ServerLog
        ensures taken { (o : Options) → HasTaken o result [] }
        ensures form { form_of result ≡ form }
        ensures start { log_start result ≡ start }
    {
        ServerLog {
            alloc,
            form,
            start,
            guests: HashMap::new(alloc),
            requests: HashMap::new(alloc),
            locked: 0,
        }
    }

    /// Takes the next entry of a log, and writes the lines that it tells behind what the buffer has.
    ///
    /// # Proved
    ///
    /// - The lines that are written are those that the entry tells after the log, each once and none besides, if the
    ///   entries of the log were taken (`told`; also `log_text`).
    /// - After an error nothing is written, and all is known as before (`unchanged`).
    pub fn take(&mut self, entry: &Entry, out: &mut Vec<u8>) -> Result<(), AllocError>
        ensures told { OnOk result ((o : Options) (log : List Entry) → HasTaken o self.old log →
            out.new.items ≡ out.old.items ++ flat_map (log_line_text (form_of self.old) (log_start self.old)) (lines_on o log entry.now)) }
        ensures taken { OnOk result ((o : Options) (log : List Entry) → HasTaken o self.old log →
            IsRight o (entry.now ∷ log) → IsActed o (entry.now ∷ log) → HasTaken o self.new (entry.now ∷ log)) }
        ensures form { form_of self.new ≡ form_of self.old }
        ensures start { log_start self.new ≡ log_start self.old }
        ensures unchanged { OnErr result (SameKnown self.old self.new) }
        ensures unwritten { OnErr result (out.new.items ≡ out.old.items) }
    {
        let text = self.tell(entry)?;
        let before = out.len();
        out.extend_from_slice(text.as_slice())?;
        if let Err(error) = self.know(entry) {
            out.truncate(before);
            return Err(error);
        }
        Ok(())
    }

    /// How many logins were locked out.
    ///
    /// # Proved
    ///
    /// - The count of the logins that the entries tell to have been locked out, which stands still at the end of its type
    ///   (`HasTaken` in `ftp_audit/specs/Written.antt`).
    pub fn locked_logins(&self) -> u64
        ensures { result ≡ locked_of self.now }
    {
        self.locked
    }

    // The lines that an entry tells.
    fn tell(&self, entry: &Entry) -> Result<Vec<u8>, AllocError>
        ensures { IfOk result (λ text. text.items ≡ flat_map (log_line_text (form_of self.now) (log_start self.now)) (lines_by (λ s. map.get nat_eq self.now.guests s) (request_at self.now.requests) entry.now)) }
    {
        let mut text = Vec::new(self.alloc);
        let line = line_by_decision(self.alloc, &self.guests, entry)?;
        put_maybe(&mut text, self.form, self.start, &line)?;
        self.tell_actions(entry, entry.actions.as_slice(), &mut text)?;
        Ok(text)
    }

    // The lines that actions of an entry tell.
    fn tell_actions(
        &self,
        entry: &Entry,
        actions: &[Action],
        text: &mut Vec<u8>,
    ) -> Result<(), AllocError>
        ensures { OnOk result (text.new.items ≡ text.old.items ++ flat_map (log_line_text (form_of self.now) (log_start self.now)) (filter_map (line_by_action (λ s. map.get nat_eq self.now.guests s) (request_at self.now.requests) entry.now) actions.now)) }
    {
        for action in actions {
            let line = line_by_action(self.alloc, &self.guests, &self.requests, entry, action)?;
            put_maybe(text, self.form, self.start, &line)?;
        }
        Ok(())
    }

    // What an entry tells of sessions and transfers.
    fn know(&mut self, entry: &Entry) -> Result<(), AllocError>
        ensures known { OnOk result (Knows self.old self.new entry.now) }
        ensures unchanged { OnErr result (SameKnown self.old self.new) }
    {
        self.learn(entry)?;
        request::hear(&mut self.requests, entry);
        self.locked = more_locked(self.locked, entry.decision);
        Ok(())
    }

    // What needs memory of it. A transfer that is queued changes nothing of its session.
    fn learn(&mut self, entry: &Entry) -> Result<(), AllocError>
        ensures learnt { OnOk result (Learns self.old self.new entry.now) }
        ensures unchanged { OnErr result (SameKnown self.old self.new) }
    {
        match entry.decision {
            Decision::Queued { ticket } => request::ask(
                &mut self.requests,
                self.alloc,
                &self.guests,
                &entry.event.kind,
                ticket,
            ),
            _ => guest::hear(&mut self.guests, self.alloc, entry),
        }
    }
}

/// One more, where a login was locked out.
pub(crate) fn more_locked(locked: u64, decision: Decision) -> u64
    ensures { result ≡ saturated (locked + one_if (is_lockout decision)) }
{
    if is_lockout(decision) {
        locked.saturating_add(1)
    } else {
        locked
    }
}

// A login was locked out.
fn is_lockout(decision: Decision) -> bool
    ensures { result ≡ is_lockout decision }
{
    match decision {
        Decision::LoginFailed {
            lock: Some(LockState::AlreadyLocked),
            ..
        } => true,
        _ => false,
    }
}

/// The lines of a whole log, as that of a journal when all threads were joined.
///
/// # Proved
///
/// - They are the lines that its entries tell, each once and none besides, if the log is right and acted.
pub fn log_text(alloc: Global, form: LogForm, start: u64, log: &Log) -> Result<Bytes, AllocError>
    ensures { IfOk result (λ text. (o : Options) → IsRight o log.now.entries → IsActed o log.now.entries → text ≡ flat_map (log_line_text form start) (told_lines o log.now.entries)) }
{
    let mut taken = ServerLog::new(alloc, form, start);
    let mut text = Vec::new(alloc);
    for entry in log.as_slice() {
        taken.take(entry, &mut text)?;
    }
    Ok(Bytes::from_vec(text))
}
