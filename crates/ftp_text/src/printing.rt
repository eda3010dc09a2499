//! Printing the entries of the log.

ghost use Rattle.std.specs.Prelude.{◌≡◌, ◌++◌, true, OnOk, length};
ghost use Rattle.std.specs.List.{flat_map};
ghost use Rattle.ftp_text.specs.Fields.{field, escape};
ghost use Rattle.ftp_events.specs.declared.action.Action.TheVariants as action;
ghost use Rattle.ftp_events.specs.declared.event.Answer.TheVariants as answer;
ghost use Rattle.ftp_text.specs.Printing.{is_of_own, decision_text, decision_fields, decision_line, header_fields, result_text, outcome_fields, answer_line, notice_text, notice_bytes, first_path, second_path, notify_fields, reply_fields, delivered_text, action_fields, action_line, entry_lines};

use crate::event_writing::put_event;
use crate::word::{ENDS, KINDS, LOCKS};
use crate::writing::{
    put, put_address, put_byte, put_error_kind, put_field, put_number, put_optional_fault,
    put_proxy_error, put_text, put_text_field, put_ticket, put_trace, put_word, put_word_or_none,
};
use ftp_base::{DataEvent, EventMeta, Notice, PresenceEvent, Reply};
use ftp_events::{Action, Answer, Decision, Entry};
use ftp_proxy::{ProxyError, ProxyHeader};
use ftp_transfer::{Completion, Outcome, Ticket};
use std::alloc::AllocError;

/// Writes the lines of an entry at the end of the buffer. After an error the buffer is thrown away.
///
/// # Proved
///
/// - An entry is printed as it is spelled: event, answer, decision, every action.
pub fn put_entry(out: &mut Vec<u8>, entry: &Entry) -> Result<(), AllocError>
    ensures { OnOk result (out.new.items ≡ out.old.items ++ entry_lines entry.now) }
{
    put(out, b"> ")?;
    put_event(out, &entry.event)?;
    put_byte(out, b'\n')?;
    put_answer(out, entry.answer)?;
    put_decision(out, entry.decision)?;
    put_actions(out, entry.actions.as_slice())
}

fn put_answer(out: &mut Vec<u8>, answer: Answer) -> Result<(), AllocError>
    ensures { OnOk result (out.new.items ≡ out.old.items ++ answer_line answer) }
{
    match answer {
        Answer::None => Ok(()),
        Answer::Header(header) => put_header(out, header),
        Answer::Done(outcome) => put_done(out, outcome),
        Answer::Moved { bytes } => put_moved(out, bytes),
    }
}

fn put_header(out: &mut Vec<u8>, header: Result<ProxyHeader, ProxyError>) -> Result<(), AllocError>
    ensures { OnOk result (out.new.items ≡ out.old.items ++ answer_line (answer.Header header)) }
{
    put(out, b"? header")?;
    put_header_fields(out, header)?;
    put_byte(out, b'\n')
}

fn put_header_fields(
    out: &mut Vec<u8>,
    header: Result<ProxyHeader, ProxyError>,
) -> Result<(), AllocError>
    ensures { OnOk result (out.new.items ≡ out.old.items ++ header_fields header) }
{
    match header {
        Ok(header) => {
            put_address(out, header.source)?;
            put_address(out, header.destination)
        }
        Err(error) => put_proxy_error(out, error),
    }
}

fn put_done(out: &mut Vec<u8>, outcome: Outcome) -> Result<(), AllocError>
    ensures { OnOk result (out.new.items ≡ out.old.items ++ answer_line (answer.Done outcome)) }
{
    put(out, b"? done")?;
    put_outcome(out, outcome)?;
    put_byte(out, b'\n')
}

fn put_moved(out: &mut Vec<u8>, bytes: u64) -> Result<(), AllocError>
    ensures { OnOk result (out.new.items ≡ out.old.items ++ answer_line (answer.Moved bytes)) }
{
    put(out, b"? moved")?;
    put_number(out, bytes)?;
    put_byte(out, b'\n')
}

fn put_outcome(out: &mut Vec<u8>, outcome: Outcome) -> Result<(), AllocError>
    ensures { OnOk result (out.new.items ≡ out.old.items ++ outcome_fields outcome) }
{
    put_completion(out, outcome.result)?;
    put_number(out, outcome.bytes)?;
    put_optional_fault(out, outcome.fault)
}

// How a transfer ended: a word of its own, or why the storage refused.
fn put_completion(out: &mut Vec<u8>, completion: Completion) -> Result<(), AllocError>
    ensures { OnOk result (out.new.items ≡ out.old.items ++ field (result_text completion)) }
{
    match completion {
        Completion::Refused(kind) => put_word(out, &KINDS, kind),
        _ => put_word(out, &ENDS, completion),
    }
}

fn put_decision(out: &mut Vec<u8>, decision: Decision) -> Result<(), AllocError>
    ensures { OnOk result (out.new.items ≡ out.old.items ++ decision_line decision) }
{
    put_byte(out, b'=')?;
    put_field(out, decision_text(decision))?;
    put_decision_fields(out, decision)?;
    put_byte(out, b'\n')
}

/// The name of a decision.
pub fn decision_text(decision: Decision) -> &'static [u8]
    ensures { result.now ≡ decision_text decision }
{
    match decision {
        Decision::UnknownNumber => b"unknown",
        Decision::UsedNumber => b"used",
        Decision::Misplaced => b"misplaced",
        Decision::NotExpected => b"notexpected",
        Decision::Opened => b"opened",
        Decision::Turned => b"turned",
        Decision::HeaderFault(_) => b"headerfault",
        Decision::Attached { session: _ } => b"attached",
        Decision::BadSequence => b"badsequence",
        Decision::NeedPass => b"needpass",
        Decision::PassOut => b"passout",
        Decision::Reauth => b"reauth",
        Decision::LoggedIn => b"loggedin",
        Decision::LoginFailed { lock: _, delay: _ } => b"loginfailed",
        Decision::NotLoggedIn => b"notloggedin",
        Decision::ModeOff => b"modeoff",
        Decision::Full => b"full",
        Decision::NoLookup => b"nolookup",
        Decision::Granted { port: _ } => b"granted",
        Decision::NoSocket => b"nosocket",
        Decision::BadAddress => b"badaddress",
        Decision::OtherAddress => b"otheraddress",
        Decision::NoConnection => b"noconnection",
        Decision::PortOk => b"portok",
        Decision::NoSlot => b"noslot",
        Decision::Queued { ticket: _ } => b"queued",
        Decision::Finished => b"finished",
        Decision::NoRestart => b"norestart",
        Decision::RestOk => b"restok",
        Decision::CwdRefused(_) => b"cwdrefused",
        Decision::CwdOk => b"cwdok",
        Decision::Closed => b"closed",
        Decision::Quit => b"quit",
        Decision::Aborted => b"aborted",
        Decision::Aborting => b"aborting",
        Decision::NothingToAbort => b"nothingtoabort",
        Decision::Told => b"told",
        _ => own_text(decision),
    }
}

// The name of a decision on an event of the server's own.
fn own_text(decision: Decision) -> &'static [u8]
    requires { is_of_own decision ≡ true }
    ensures { result.now ≡ decision_text decision }
{
    match decision {
        Decision::Moved => b"moved",
        Decision::Cut => b"cut",
        Decision::Early => b"early",
        Decision::Waited => b"waited",
        Decision::SlotDropped => b"slotdropped",
        Decision::TimedOut => b"timedout",
        Decision::Swept => b"swept",
        Decision::Scavenged => b"scavenged",
        Decision::Stopped => b"stopped",
        _ => unreachable!(),
    }
}

fn put_decision_fields(out: &mut Vec<u8>, decision: Decision) -> Result<(), AllocError>
    ensures { OnOk result (out.new.items ≡ out.old.items ++ decision_fields decision) }
{
    match decision {
        Decision::HeaderFault(error) => put_proxy_error(out, error),
        Decision::Attached { session } => put_number(out, session),
        Decision::LoginFailed { lock, delay } => {
            put_word_or_none(out, b"none", &LOCKS, lock)?;
            put_number(out, u64::from(delay))
        }
        Decision::Granted { port } => put_number(out, u64::from(port)),
        Decision::Queued { ticket } => put_ticket(out, ticket.session, ticket.nr),
        Decision::CwdRefused(kind) => put_error_kind(out, kind),
        _ => Ok(()),
    }
}

fn put_actions(out: &mut Vec<u8>, actions: &[Action]) -> Result<(), AllocError>
    ensures { OnOk result (out.new.items ≡ out.old.items ++ flat_map action_line actions.now) }
{
    for action in actions {
        put_action_line(out, action)?;
    }
    Ok(())
}

fn put_action_line(out: &mut Vec<u8>, action: &Action) -> Result<(), AllocError>
    ensures { OnOk result (out.new.items ≡ out.old.items ++ action_line action.now) }
{
    put_action(out, action)?;
    put_byte(out, b'\n')
}

fn put_action(out: &mut Vec<u8>, action: &Action) -> Result<(), AllocError>
    ensures { OnOk result (out.new.items ≡ out.old.items ++ action_fields action.now) }
{
    match action {
        Action::Completed { ticket, delivered } => put_completed(out, *ticket, *delivered),
        Action::Cancelled { ticket } => {
            put(out, b"- cancelled")?;
            put_ticket(out, ticket.session, ticket.nr)
        }
        Action::Close { number } => {
            put(out, b"- close")?;
            put_number(out, *number)
        }
        Action::Notify {
            session,
            meta,
            what,
        } => {
            put(out, b"- notify")?;
            put_notify(out, *session, meta, what)
        }
        Action::Reply {
            session,
            delay,
            reply,
        } => {
            put(out, b"- reply")?;
            put_number(out, *session)?;
            put_number(out, u64::from(*delay))?;
            put_reply(out, reply)
        }
        Action::Start { ticket, number } => put_start(out, *ticket, *number),
    }
}

fn put_completed(out: &mut Vec<u8>, ticket: Ticket, delivered: bool) -> Result<(), AllocError>
    ensures { OnOk result (out.new.items ≡ out.old.items ++ action_fields (action.Completed ticket delivered)) }
{
    put(out, b"- completed")?;
    put_ticket(out, ticket.session, ticket.nr)?;
    put_field(out, delivered_text(delivered))
}

fn delivered_text(delivered: bool) -> &'static [u8]
    ensures { result.now ≡ delivered_text delivered }
{
    if delivered { b"delivered" } else { b"lost" }
}

fn put_start(out: &mut Vec<u8>, ticket: Ticket, number: u64) -> Result<(), AllocError>
    ensures { OnOk result (out.new.items ≡ out.old.items ++ action_fields (action.Start ticket number)) }
{
    put(out, b"- start")?;
    put_ticket(out, ticket.session, ticket.nr)?;
    put_number(out, number)
}

fn put_reply(out: &mut Vec<u8>, reply: &Reply) -> Result<(), AllocError>
    ensures { OnOk result (out.new.items ≡ out.old.items ++ reply_fields reply.now) }
{
    match reply {
        Reply::None => Ok(()),
        Reply::CodeAndMsg { code, msg } => {
            put_field(out, code.digits())?;
            put_text_field(out, msg.as_slice())
        }
    }
}

fn put_notify(
    out: &mut Vec<u8>,
    session: u64,
    meta: &EventMeta,
    what: &Notice,
) -> Result<(), AllocError>
    ensures { OnOk result (out.new.items ≡ out.old.items ++ notify_fields session meta.now what.now) }
{
    let user = meta.username.as_slice();
    let path = first_path(what);
    put_number(out, session)?;
    put_number(out, meta.sequence_number)?;
    put_trace(out, meta.trace_id.0)?;
    put_field(out, notice_text(what))?;
    put_number(out, notice_bytes(what))?;
    put_number(out, user.len() as u64)?;
    put_number(out, path.len() as u64)?;
    put_three(out, user, path, second_path(what))
}

fn notice_text(what: &Notice) -> &'static [u8]
    ensures { result.now ≡ notice_text what.now }
{
    match what {
        Notice::Presence(PresenceEvent::LoggedIn) => b"login",
        Notice::Presence(PresenceEvent::LoggedOut) => b"logout",
        Notice::Data(DataEvent::Got { .. }) => b"got",
        Notice::Data(DataEvent::Put { .. }) => b"put",
        Notice::Data(DataEvent::Deleted { .. }) => b"deleted",
        Notice::Data(DataEvent::MadeDir { .. }) => b"madedir",
        Notice::Data(DataEvent::RemovedDir { .. }) => b"removeddir",
        Notice::Data(DataEvent::Renamed { .. }) => b"renamed",
    }
}

fn notice_bytes(what: &Notice) -> u64
    ensures { result ≡ notice_bytes what.now }
{
    match what {
        Notice::Data(DataEvent::Got { bytes, .. } | DataEvent::Put { bytes, .. }) => *bytes,
        _ => 0,
    }
}

fn first_path(what: &Notice) -> &[u8]
    ensures { result.now ≡ first_path what.now }
{
    match what {
        Notice::Presence(_) => &[],
        Notice::Data(
            DataEvent::Got { path, .. }
            | DataEvent::Put { path, .. }
            | DataEvent::Deleted { path }
            | DataEvent::MadeDir { path }
            | DataEvent::RemovedDir { path }
            | DataEvent::Renamed { from: path, to: _ },
        ) => path.as_slice(),
    }
}

fn second_path(what: &Notice) -> &[u8]
    ensures { result.now ≡ second_path what.now }
{
    match what {
        Notice::Data(DataEvent::Renamed { to, .. }) => to.as_slice(),
        _ => &[],
    }
}

// The texts one after the other, as one text.
fn put_three(out: &mut Vec<u8>, a: &[u8], b: &[u8], c: &[u8]) -> Result<(), AllocError>
    ensures { OnOk result (out.new.items ≡ out.old.items ++ field (escape (a.now ++ b.now ++ c.now))) }
{
    put_text_field(out, a)?;
    put_text(out, b)?;
    put_text(out, c)
}
