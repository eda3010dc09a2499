//! Reading a line of a state.

ghost use Rattle.std.specs.Prelude.{◌≡◌, ◌≢◌, ◌∷◌, IfOk, IsErrOf, Some};
ghost use Rattle.ftp_text.specs.declared.fault.LineFault.TheVariants as fault;
ghost use Rattle.ftp_text.specs.Reading.{Gives, by_word};
ghost use Rattle.ftp_text.specs.Spelling.{IsStateLine, line_word_text, state_line};
ghost use Rattle.ftp_text.specs.StateLineReading.{RecordFields, SessionFields, QueuedFields, JobFields, checkpoint_at, used_at, record_of, record_at, opening_at, progress_at, session_of, session_at, slot_kind_at, slot_at, queued_of, queued_at, run_at, job_of, job_at, line_words, line_behind, state_line_of};

use crate::fault::{LineFault, Parsed};
use crate::field::{
    address, fields, first_word, ip, literal, number, optional_ip, optional_number, port, small,
    text_to_end, whole, word, word_value,
};
use crate::state_command::{Lengths, command_in, lengths};
use crate::state_piece::{bit, cut_at, cut_off, is_from_root};
use crate::word::{COMMAND_WORDS, LOGIN_STATES};
use ftp_base::{Bytes, IpAddr, SocketAddr};
use ftp_events::CommandWord;
use ftp_hub::{JobLine, LoginState, QueuedLine, RecordLine, SessionLine, SlotKind, SlotLine};
use ftp_switchboard::Interval;
use ftp_transfer::{Job, Ticket};
use std::alloc::Global;

/// What a line of a state says.
#[derive(Drop)]
pub enum StateLine {
    /// How many events there were, and whether one was a stop.
    Checkpoint { events: u64, stopped: bool },
    /// Numbers that were used.
    Used(Interval),
    Record(RecordLine),
    Session(SessionLine),
    Slot(SlotLine),
    Queued(QueuedLine),
    Job(JobLine),
}

// The number of a session, who it is with, to where, for whom, and its trace id.
type Opening = (u64, (SocketAddr, (SocketAddr, (IpAddr, u64))));

// How far a login is, when the session was active, its offset, and how many transfers and notices it had.
type Progress = (LoginState, (u64, (u64, (u64, u64))));

// The numbers of a session and of a transfer in it, its offset, what it moved, whether it is marked, and its link.
type Run = (u64, (u64, (u64, (u64, (bool, u64)))));

/// What the line says. Its line feed is no part of the line.
///
/// # Proved
///
/// - A line is read exactly where a line of a state is spelled so, each field in the range of its type (`found`, `bad`,
///   `only`).
pub fn read_state_line(alloc: Global, line: &[u8]) -> Result<StateLine, LineFault>
    // What is read is spelled so, each byte of the line.
    ensures found { IfOk result (λ x. (state_line x ≡ line.now) × IsStateLine x) }

    // A line is bad only where nothing is spelled so.
    ensures bad { IsErrOf result fault.Bad → (x : StateLine) → IsStateLine x → state_line x ≢ line.now }

    // What is spelled so is read, unless memory runs out.
    ensures only { (x : StateLine) → IsStateLine x → state_line x ≡ line.now → Gives (λ y. y) result (Some x) }
{
    line_in(alloc, line)
}

#[tactic(auto, unfolding(crate::specs::StateLineReading::state_line_of, crate::specs::Reading::word_value, crate::specs::Reading::word_at,))]
fn line_in(alloc: Global, line: &[u8]) -> Result<StateLine, LineFault>
    ensures { Gives (λ x. x) result (state_line_of line.now) }
{
    let (word, rest) = first_word(line);
    whole(behind(alloc, word, rest)?)
}

// What a word and what stands behind it say.
fn behind<'a>(alloc: Global, word: &[u8], bytes: &'a [u8]) -> Parsed<'a, StateLine>
    ensures { Gives (λ x. (x.0, x.1.now)) result (by_word line_word_text line_words line_behind word.now bytes.now) }
{
    match word {
        b"checkpoint" => checkpoint(bytes),
        b"used" => used(bytes),
        b"record" => fields!(bytes; line = record(alloc) => StateLine::Record(line)),
        b"session" => fields!(bytes; line = session(alloc) => StateLine::Session(line)),
        b"slot" => slot(bytes),
        b"queued" => fields!(bytes; line = queued(alloc) => StateLine::Queued(line)),
        b"job" => fields!(bytes; line = job(alloc) => StateLine::Job(line)),
        _ => Err(LineFault::Bad),
    }
}

#[tactic(auto, unfolding(crate::specs::StateLineReading::checkpoint_at))]
fn checkpoint(bytes: &[u8]) -> Parsed<'_, StateLine>
    ensures { Gives (λ x. (x.0, x.1.now)) result (checkpoint_at bytes.now) }
{
    let rest = literal(b" 1", bytes)?;
    fields!(rest; events = number(), stopped = bit() => StateLine::Checkpoint { events, stopped })
}

#[tactic(auto, unfolding(crate::specs::StateLineReading::used_at))]
fn used(bytes: &[u8]) -> Parsed<'_, StateLine>
    ensures { Gives (λ x. (x.0, x.1.now)) result (used_at bytes.now) }
{
    let (lo, rest) = number(bytes)?;
    let (hi, rest) = number(rest)?;
    if lo > hi {
        return Err(LineFault::Bad);
    }
    Ok((StateLine::Used(Interval { lo, hi }), rest))
}

#[tactic(auto, unfolding(crate::specs::StateLineReading::record_at))]
fn record(alloc: Global, bytes: &[u8]) -> Parsed<'_, RecordLine>
    ensures { Gives (λ x. (x.0, x.1.now)) result (record_at bytes.now) }
{
    fields!(bytes; count = small(4_294_967_296), at = number(), ip = optional_ip(), len = optional_number(),
        text = text_to_end(alloc)
        => record_of(alloc, (count as u32, (at, ip)), len, text.as_slice())?)
}

// The record with this name.
#[tactic(auto, unfolding(crate::specs::StateLineReading::record_of))]
fn record_of(
    alloc: Global,
    fields: (u32, (u64, Option<IpAddr>)),
    len: Option<u64>,
    text: &[u8],
) -> Result<RecordLine, LineFault>
    ensures { Gives (λ x. x) result (record_of (fields.0, (fields.1.0, (fields.1.1, (len, text.now))))) }
{
    let (count, (at, ip)) = fields;
    let (user, rest) = cut_off(alloc, len, text)?;
    if !rest.is_empty() || ip.is_none() && user.is_none() {
        return Err(LineFault::Bad);
    }
    Ok(RecordLine {
        count,
        at,
        ip,
        user,
    })
}

#[tactic(auto, unfolding(crate::specs::StateLineReading::opening_at))]
fn opening(bytes: &[u8]) -> Parsed<'_, Opening>
    ensures { Gives (λ x. (x.0, x.1.now)) result (opening_at bytes.now) }
{
    fields!(bytes; session = number(), raw = address(), local = address(), client = ip(), trace = number()
        => (session, (raw, (local, (client, trace)))))
}

#[tactic(auto, unfolding(crate::specs::StateLineReading::progress_at, crate::specs::Reading::word_value))]
fn progress(bytes: &[u8]) -> Parsed<'_, Progress>
    ensures { Gives (λ x. (x.0, x.1.now)) result (progress_at bytes.now) }
{
    fields!(bytes; state = word_value(&LOGIN_STATES), active = number(), offset = number(), tickets = number(), notices = number()
        => (state, (active, (offset, (tickets, notices)))))
}

#[tactic(auto, unfolding(crate::specs::StateLineReading::session_at))]
fn session(alloc: Global, bytes: &[u8]) -> Parsed<'_, SessionLine>
    ensures { Gives (λ x. (x.0, x.1.now)) result (session_at bytes.now) }
{
    fields!(bytes; opening = opening(), progress = progress(), len = optional_number(), text = text_to_end(alloc)
        => session_of(alloc, opening, progress, len, text.as_slice())?)
}

// The session with this name and directory.
#[tactic(auto, unfolding(crate::specs::StateLineReading::session_of))]
fn session_of(
    alloc: Global,
    opening: Opening,
    progress: Progress,
    len: Option<u64>,
    text: &[u8],
) -> Result<SessionLine, LineFault>
    ensures { Gives (λ x. x) result (session_of (opening, (progress, (len, text.now)))) }
{
    let (user, cwd) = cut_off(alloc, len, text)?;
    if !is_from_root(cwd) {
        return Err(LineFault::Bad);
    }
    let cwd = Bytes::from_slice(alloc, cwd)?;
    let (session, (raw, (local, (client, trace)))) = opening;
    let (state, (active, (offset, (tickets, notices)))) = progress;
    Ok(SessionLine {
        session,
        raw,
        local,
        client,
        trace,
        state,
        active,
        offset,
        tickets,
        notices,
        user,
        cwd,
    })
}

#[tactic(auto, unfolding(crate::specs::StateLineReading::slot_kind_at, crate::specs::Reading::word_value))]
fn slot_kind(bytes: &[u8]) -> Parsed<'_, SlotKind>
    ensures { Gives (λ x. (x.0, x.1.now)) result (slot_kind_at bytes.now) }
{
    let (word, rest) = word(bytes)?;
    match word {
        b"waits" => fields!(rest; port = port() => SlotKind::Waits { port }),
        b"link" => fields!(rest; number = number() => SlotKind::HasLink { number }),
        _ => Err(LineFault::Bad),
    }
}

#[tactic(auto, unfolding(crate::specs::StateLineReading::slot_at))]
fn slot(bytes: &[u8]) -> Parsed<'_, StateLine>
    ensures { Gives (λ x. (x.0, x.1.now)) result (slot_at bytes.now) }
{
    fields!(bytes; session = number(), at = number(), what = slot_kind()
        => StateLine::Slot(SlotLine { session, at, what }))
}

#[tactic(auto, unfolding(crate::specs::StateLineReading::queued_at, crate::specs::Reading::word_value))]
fn queued(alloc: Global, bytes: &[u8]) -> Parsed<'_, QueuedLine>
    ensures { Gives (λ x. (x.0, x.1.now)) result (queued_at bytes.now) }
{
    fields!(bytes; session = number(), nr = number(), offset = number(), word = word_value(&COMMAND_WORDS), lengths = lengths(),
        text = text_to_end(alloc)
        => queued_of(alloc, (session, (nr, offset)), word, lengths, text.as_slice())?)
}

// The waiting transfer with this text.
#[tactic(auto, unfolding(crate::specs::StateLineReading::queued_of))]
fn queued_of(
    alloc: Global,
    fields: (u64, (u64, u64)),
    word: CommandWord,
    lengths: Lengths,
    text: &[u8],
) -> Result<QueuedLine, LineFault>
    ensures { Gives (λ x. x) result (queued_of (fields.0, (fields.1.0, (fields.1.1, (word, (lengths, text.now)))))) }
{
    let (session, (nr, offset)) = fields;
    let (command, path) = command_in(alloc, word, lengths, text)?;
    Ok(QueuedLine {
        session,
        nr,
        offset,
        command,
        path,
    })
}

#[tactic(auto, unfolding(crate::specs::StateLineReading::run_at))]
fn run(bytes: &[u8]) -> Parsed<'_, Run>
    ensures { Gives (λ x. (x.0, x.1.now)) result (run_at bytes.now) }
{
    fields!(bytes; session = number(), nr = number(), offset = number(), done = number(), marked = bit(), link = number()
        => (session, (nr, (offset, (done, (marked, link))))))
}

#[tactic(auto, unfolding(crate::specs::StateLineReading::job_at, crate::specs::Reading::word_value))]
fn job(alloc: Global, bytes: &[u8]) -> Parsed<'_, JobLine>
    ensures { Gives (λ x. (x.0, x.1.now)) result (job_at bytes.now) }
{
    fields!(bytes; run = run(), word = word_value(&COMMAND_WORDS), len = number(), lengths = lengths(), text = text_to_end(alloc)
        => job_of(alloc, run, word, (len, lengths), text.as_slice())?)
}

// The running transfer with this text.
#[tactic(auto, unfolding(crate::specs::StateLineReading::job_of))]
fn job_of(
    alloc: Global,
    run: Run,
    word: CommandWord,
    lengths: (u64, Lengths),
    text: &[u8],
) -> Result<JobLine, LineFault>
    ensures { Gives (λ x. x) result (job_of (run, (word, (lengths.0, (lengths.1, text.now))))) }
{
    let (user, rest) = cut_at(lengths.0, text)?;
    let (command, path) = command_in(alloc, word, lengths.1, rest)?;
    let user = Bytes::from_slice(alloc, user)?;
    let (session, (nr, (offset, (done, (marked, number))))) = run;
    let job = Job {
        ticket: Ticket { session, nr },
        user,
        command,
        path,
        offset,
        number,
        done,
    };
    Ok(JobLine { job, marked })
}
