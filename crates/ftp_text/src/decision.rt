//! Reading the decision of an entry.

ghost use Rattle.std.specs.Prelude.{◌≡◌};
ghost use Rattle.ftp_text.specs.Printing.{decision_text};
ghost use Rattle.ftp_text.specs.Reading.{Gives, find_word, word_value};
ghost use Rattle.ftp_text.specs.DecisionReading.{lock_and_delay_at, decision_behind, decision_at};

use crate::fault::{LineFault, Parsed};
use crate::field::{fields, literal, number, port, small, ticket, word, word_or_none, word_value};
use crate::printing::decision_text;
use crate::word::{KINDS, LOCKS, PROXY_ERRORS};
use ftp_base::{ErrorKind, LockState};
use ftp_events::Decision;
use ftp_proxy::ProxyError;
use ftp_transfer::Ticket;

// A decision of each name. The fields of these say nothing.
const HEADS: [Decision; 46] = [
    Decision::UnknownNumber,
    Decision::UsedNumber,
    Decision::Misplaced,
    Decision::NotExpected,
    Decision::Opened,
    Decision::Turned,
    Decision::HeaderFault(ProxyError::HeaderSize),
    Decision::Attached { session: 0 },
    Decision::BadSequence,
    Decision::NeedPass,
    Decision::PassOut,
    Decision::Reauth,
    Decision::LoggedIn,
    Decision::LoginFailed {
        lock: None,
        delay: 0,
    },
    Decision::NotLoggedIn,
    Decision::ModeOff,
    Decision::Full,
    Decision::NoLookup,
    Decision::Granted { port: 0 },
    Decision::NoSocket,
    Decision::BadAddress,
    Decision::OtherAddress,
    Decision::NoConnection,
    Decision::PortOk,
    Decision::NoSlot,
    Decision::Queued {
        ticket: Ticket { session: 0, nr: 0 },
    },
    Decision::Finished,
    Decision::Moved,
    Decision::Cut,
    Decision::NoRestart,
    Decision::RestOk,
    Decision::CwdRefused(ErrorKind::TransientFileNotAvailable),
    Decision::CwdOk,
    Decision::Aborted,
    Decision::Aborting,
    Decision::NothingToAbort,
    Decision::Told,
    Decision::Early,
    Decision::Waited,
    Decision::SlotDropped,
    Decision::Swept,
    Decision::Scavenged,
    Decision::Quit,
    Decision::Closed,
    Decision::TimedOut,
    Decision::Stopped,
];

/// A decision, with the mark before it.
#[tactic(auto, unfolding(crate::specs::DecisionReading::decision_at))]
pub fn decision(bytes: &[u8]) -> Parsed<'_, Decision>
    ensures { Gives (λ x. (x.0, x.1.now)) result (decision_at bytes.now) }
{
    let rest = literal(b"=", bytes)?;
    let (head, rest) = head_in(&HEADS, rest)?;
    behind(head, rest)
}

// The decision of the table that a word names.
#[tactic(auto, unfolding(crate::specs::Reading::word_value))]
fn head_in<'a>(table: &[Decision], bytes: &'a [u8]) -> Parsed<'a, Decision>
    ensures { Gives (λ x. (x.0, x.1.now)) result (word_value decision_text table.now bytes.now) }
{
    let (word, rest) = word(bytes)?;
    match named(table, word) {
        Some(head) => Ok((head, rest)),
        None => Err(LineFault::Bad),
    }
}

fn named(table: &[Decision], word: &[u8]) -> Option<Decision>
    ensures { result ≡ find_word decision_text table.now word.now }
{
    table.iter().copied().find(|d| decision_text(*d) == word)
}

// The decision of this name with the fields that are spelled behind it.
#[tactic(auto, unfolding(crate::specs::Reading::word_value))]
fn behind(head: Decision, bytes: &[u8]) -> Parsed<'_, Decision>
    ensures { Gives (λ x. (x.0, x.1.now)) result (decision_behind head bytes.now) }
{
    match head {
        Decision::HeaderFault(_) =>
            fields!(bytes; error = word_value(&PROXY_ERRORS) => Decision::HeaderFault(error)),
        Decision::Attached { .. } =>
            fields!(bytes; session = number() => Decision::Attached { session }),
        Decision::LoginFailed { .. } =>
            fields!(bytes; (lock, delay) = lock_and_delay() => Decision::LoginFailed { lock, delay }),
        Decision::Granted { .. } => fields!(bytes; port = port() => Decision::Granted { port }),
        Decision::Queued { .. } => {
            let (session, nr, rest) = ticket(bytes)?;
            let ticket = Ticket { session, nr };
            Ok((Decision::Queued { ticket }, rest))
        }
        Decision::CwdRefused(_) =>
            fields!(bytes; kind = word_value(&KINDS) => Decision::CwdRefused(kind)),
        _ => Ok((head, bytes)),
    }
}

// How a failed login stands with the lock, and after how long it is answered.
#[tactic(auto, unfolding(crate::specs::Reading::word_value))]
fn lock_and_delay(bytes: &[u8]) -> Parsed<'_, (Option<LockState>, u32)>
    ensures { Gives (λ x. (x.0, x.1.now)) result (lock_and_delay_at bytes.now) }
{
    fields!(bytes; lock = word_or_none(b"none", &LOCKS), delay = small(4_294_967_296) => (lock, delay as u32))
}
