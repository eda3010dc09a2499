//! A line of the log.

ghost use Rattle.std.specs.Prelude.{◌≡◌, ℕ, IfOk, OnOk, nat_eq, ◌++◌};
ghost use Rattle.std.specs.HashMap as map;
ghost use Rattle.std.specs.Option.{option_copied, option_map};
ghost use Rattle.ftp_audit.specs.Lines.{plain_line, client_of_guest, failure_line, failure_result, line_by_decision, line_by_notice, line_by_action, ending_result, line_result_of, completed_result, completed_bytes, cancelled_bytes, moved_of, name_of_guest, new_path, settled_line, told_by_notice};
ghost use Rattle.ftp_audit.specs.Tickets.{request_at};

use crate::guest::{Guest, client_by};
use crate::request::{Request, Requests, find};
use ftp_base::{Bytes, DataEvent, ErrorKind, EventMeta, IpAddr, LockState, Notice, PresenceEvent};
use ftp_events::{Action, Answer, CommandWord, Decision, Entry};
use ftp_transfer::{Completion, Ticket};
use std::alloc::{AllocError, Global};
use std::collections::HashMap;

/// Which form lines have.
#[derive(Clone, Copy, Debug, PartialEq, Eq)]
pub enum LogForm {
    /// Every line, as docs/FORMATS.md has it.
    Own,
    /// Files that were sent, received or removed, as wu-ftpd's xferlog has them.
    Xferlog,
}

/// What a line tells.
#[derive(Clone, Copy, Debug, PartialEq, Eq)]
pub enum LineWord {
    /// A control connection opens.
    Connect,
    /// A login, or one that fails.
    Login,
    /// A session ends.
    End,
    /// A transfer is settled, by this command.
    Transfer(Option<CommandWord>),
    /// A file is removed.
    Dele,
    /// A directory is removed.
    Rmd,
    /// A directory is made.
    Mkd,
    /// A file or a directory has another path.
    Rnto,
}

/// How what a line tells came out.
#[derive(Clone, Copy, Debug, PartialEq, Eq)]
pub enum LineResult {
    Done,
    Failed,
    /// The key of the login is locked.
    Locked,
    /// The session ended by its own wish.
    Quit,
    /// The session ended with its control connection.
    Closed,
    /// The session was idle for too long.
    TimedOut,
    /// Every session ended.
    Stopped,
    /// The transfer was cut, or cancelled before it ran.
    Aborted,
    /// The storage, or the data connection, refused it.
    Refused(ErrorKind),
    OutOfMemory,
}

/// A line, with its moment in milliseconds since the server started.
#[derive(Drop)]
pub struct LogLine {
    pub at: u64,
    pub session: u64,
    pub client: Option<IpAddr>,
    pub user: Bytes,
    pub word: LineWord,
    /// How many bytes moved, wherever in the file the transfer began.
    pub bytes: u64,
    /// The milliseconds from the start of a transfer on.
    pub millis: u64,
    pub result: LineResult,
    /// Nothing where there is no path.
    pub path: Bytes,
    /// The path that a file or a directory has now.
    pub to: Option<Bytes>,
}

// A line of no transfer.
fn plain_line(
    alloc: Global,
    entry: &Entry,
    session: u64,
    client: Option<IpAddr>,
    user: &[u8],
    word: LineWord,
    outcome: LineResult,
    path: &[u8],
) -> Result<LogLine, AllocError>
    ensures { IfOk result (λ line. line ≡ plain_line entry.now session client user.now word outcome path.now) }
{
    let user = Bytes::from_slice(alloc, user)?;
    let path = Bytes::from_slice(alloc, path)?;
    Ok(LogLine {
        at: entry.event.at,
        session,
        client,
        user,
        word,
        bytes: 0,
        millis: 0,
        result: outcome,
        path,
        to: None,
    })
}

// Where the client of a session is.
fn client_of(guest: Option<&Guest>) -> Option<IpAddr>
    ensures { result ≡ client_of_guest (option_copied guest.entry) }
{
    match guest {
        Some(guest) => Some(guest.client),
        None => None,
    }
}

// The name that a session gave last.
#[tactic(auto, unfolding(crate::specs::Lines::name_of_guest))]
fn name_of(guest: Option<&Guest>) -> &[u8]
    ensures { result.now ≡ name_of_guest (option_copied guest.entry) }
{
    match guest {
        Some(guest) => match &guest.name {
            Some(name) => name.as_slice(),
            None => b"unknown",
        },
        None => b"unknown",
    }
}

// A login that failed, or was locked out.
fn failure_result(lock: Option<LockState>) -> LineResult
    ensures { result ≡ failure_result lock }
{
    match lock {
        Some(LockState::AlreadyLocked) => LineResult::Locked,
        _ => LineResult::Failed,
    }
}

// A login that fails.
fn failure_line(
    alloc: Global,
    entry: &Entry,
    lock: Option<LockState>,
    session: u64,
    guests: &HashMap<u64, Guest>,
) -> Result<LogLine, AllocError>
    ensures { IfOk result (λ line. line ≡ failure_line entry.now lock session (map.get nat_eq guests.now session)) }
{
    let guest = guests.get(&session);
    plain_line(
        alloc,
        entry,
        session,
        client_of(guest),
        name_of(guest),
        LineWord::Login,
        failure_result(lock),
        &[],
    )
}

/// The line that a decision tells.
pub(crate) fn line_by_decision(
    alloc: Global,
    guests: &HashMap<u64, Guest>,
    entry: &Entry,
) -> Result<Option<LogLine>, AllocError>
    ensures { IfOk result (λ line. line ≡ line_by_decision (λ s. map.get nat_eq guests.now s) entry.now entry.now.decision) }
{
    match entry.decision {
        Decision::Opened => {
            let Some(session) = entry.event.kind.new_number(Decision::Opened) else {
                return Ok(None);
            };
            let client = client_by(&entry.event.kind, entry.answer);
            let line = plain_line(
                alloc,
                entry,
                session,
                client,
                b"unknown",
                LineWord::Connect,
                LineResult::Done,
                &[],
            )?;
            Ok(Some(line))
        }
        Decision::LoginFailed { lock, .. } => match entry.event.kind.named_session() {
            Some(session) => Ok(Some(failure_line(alloc, entry, lock, session, guests)?)),
            None => Ok(None),
        },
        _ => Ok(None),
    }
}

// Why a session ends.
fn ending_result(decision: Decision) -> LineResult
    ensures { result ≡ ending_result decision }
{
    match decision {
        Decision::Quit => LineResult::Quit,
        Decision::TimedOut => LineResult::TimedOut,
        Decision::Stopped => LineResult::Stopped,
        _ => LineResult::Closed,
    }
}

// What a notification of a user tells: a word, how it came out, and a path.
#[tactic(auto, unfolding(crate::specs::Lines::told_by_notice))]
fn told_by_notice(decision: Decision, what: &Notice) -> Option<(LineWord, LineResult, &[u8])>
    ensures { option_map (λ told. (told.0, told.1, told.2.now)) result ≡ told_by_notice decision what.now }
{
    let done = LineResult::Done;
    let none: &[u8] = &[];
    match what {
        Notice::Presence(PresenceEvent::LoggedIn) => Some((LineWord::Login, done, none)),
        Notice::Presence(PresenceEvent::LoggedOut) => {
            Some((LineWord::End, ending_result(decision), none))
        }
        Notice::Data(DataEvent::Deleted { path }) => Some((LineWord::Dele, done, path.as_slice())),
        Notice::Data(DataEvent::RemovedDir { path }) => Some((
            LineWord::Rmd,
            done,
            path.as_slice(),
        )),
        Notice::Data(DataEvent::MadeDir { path }) => Some((LineWord::Mkd, done, path.as_slice())),
        Notice::Data(DataEvent::Renamed { from, .. }) => {
            Some((LineWord::Rnto, done, from.as_slice()))
        }
        _ => None,
    }
}

// The path that a file or a directory has once it was renamed.
#[tactic(auto, unfolding(crate::specs::Lines::new_path))]
fn new_path(alloc: Global, what: &Notice) -> Result<Option<Bytes>, AllocError>
    ensures { IfOk result (λ path. path ≡ new_path what.now) }
{
    match what {
        Notice::Data(DataEvent::Renamed { to, .. }) => Ok(Some(to.copy(alloc)?)),
        _ => Ok(None),
    }
}

// The line that a notification of a user tells.
fn line_by_notice(
    alloc: Global,
    entry: &Entry,
    session: u64,
    guests: &HashMap<u64, Guest>,
    meta: &EventMeta,
    what: &Notice,
) -> Result<Option<LogLine>, AllocError>
    ensures { IfOk result (λ line. line ≡ line_by_notice entry.now session (map.get nat_eq guests.now session) meta.now.username what.now) }
{
    let Some((word, outcome, path)) = told_by_notice(entry.decision, what) else {
        return Ok(None);
    };
    let client = client_of(guests.get(&session));
    let user = meta.username.as_slice();
    let mut line = plain_line(alloc, entry, session, client, user, word, outcome, path)?;
    line.to = new_path(alloc, what)?;
    Ok(Some(line))
}

// How a transfer ended.
fn line_result_of(completion: Completion) -> LineResult
    ensures { result ≡ line_result_of completion }
{
    match completion {
        Completion::Sent | Completion::Written | Completion::Listed => LineResult::Done,
        Completion::WriteFailed => LineResult::Failed,
        Completion::Refused(kind) => LineResult::Refused(kind),
        Completion::OutOfMemory => LineResult::OutOfMemory,
    }
}

// How one ended that was not cut, and how many bytes it moved.
fn completed(answer: Answer) -> (u64, LineResult)
    ensures bytes { result.0 ≡ completed_bytes answer }
    ensures outcome { result.1 ≡ completed_result answer }
{
    match answer {
        Answer::Done(outcome) => (outcome.bytes, line_result_of(outcome.result)),
        _ => (0, LineResult::Failed),
    }
}

// How many bytes one had moved that was cut, or was cancelled before it ran.
fn cancelled_bytes(decision: Decision, answer: Answer, moved: u64) -> u64
    ensures { result ≡ cancelled_bytes decision answer moved }
{
    match (decision, answer) {
        (Decision::Cut, Answer::Done(outcome)) => outcome.bytes,
        (Decision::Cut, Answer::Moved { bytes }) => moved.saturating_add(bytes),
        _ => moved,
    }
}

// The line of a transfer, with its bytes and its result.
fn settled_line(
    alloc: Global,
    entry: &Entry,
    ticket: Ticket,
    requests: &Requests,
    bytes: u64,
    outcome: LineResult,
) -> Result<LogLine, AllocError>
    ensures { IfOk result (λ line. line ≡ settled_line entry.now ticket (request_at requests.now ticket) bytes outcome) }
{
    let none: &[u8] = &[];
    let Some(request) = find(requests, ticket) else {
        let word = LineWord::Transfer(None);
        let mut line = plain_line(
            alloc,
            entry,
            ticket.session,
            None,
            b"unknown",
            word,
            outcome,
            none,
        )?;
        line.bytes = bytes;
        return Ok(line);
    };
    let word = LineWord::Transfer(Some(request.word));
    let mut line = plain_line(
        alloc,
        entry,
        ticket.session,
        Some(request.client),
        request.user.as_slice(),
        word,
        outcome,
        request.path.as_slice(),
    )?;
    line.bytes = bytes;
    line.millis = entry
        .event
        .at
        .saturating_sub(request.started.unwrap_or(entry.event.at));
    Ok(line)
}

// How many bytes the pieces of a transfer moved, where it is known.
fn moved_of(requests: &Requests, ticket: Ticket) -> u64
    ensures { result ≡ moved_of (request_at requests.now ticket) }
{
    match find(requests, ticket) {
        Some(request) => request.moved,
        None => 0,
    }
}

/// The line that an action tells.
pub(crate) fn line_by_action(
    alloc: Global,
    guests: &HashMap<u64, Guest>,
    requests: &Requests,
    entry: &Entry,
    action: &Action,
) -> Result<Option<LogLine>, AllocError>
    ensures { IfOk result (λ line. line ≡ line_by_action (λ s. map.get nat_eq guests.now s) (request_at requests.now) entry.now action.now) }
{
    match action {
        Action::Notify {
            session,
            meta,
            what,
        } => line_by_notice(alloc, entry, *session, guests, meta, what),
        Action::Completed { ticket, .. } => {
            let (bytes, outcome) = completed(entry.answer);
            let line = settled_line(alloc, entry, *ticket, requests, bytes, outcome)?;
            Ok(Some(line))
        }
        Action::Cancelled { ticket } => {
            let moved = moved_of(requests, *ticket);
            let bytes = cancelled_bytes(entry.decision, entry.answer, moved);
            let line = settled_line(alloc, entry, *ticket, requests, bytes, LineResult::Aborted)?;
            Ok(Some(line))
        }
        _ => Ok(None),
    }
}
