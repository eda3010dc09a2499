//! Reading the actions of an entry.

ghost use Rattle.std.specs.Prelude.{◌≡◌};
ghost use Rattle.ftp_text.specs.Reading.{Gives, by_word};
ghost use Rattle.ftp_text.specs.ActionReading.{action_word_text, action_words, completed_at, start_at, reply_at, action_behind, action_at};

use crate::fault::{LineFault, Parsed};
use crate::field::{
    fields, literal, number, reply_code, small, text_to_end, ticket, word, word_value,
};
use crate::notice::notify;
use crate::word::{DELIVERIES, REPLY_CODES};
use ftp_base::{Reply, ReplyText};
use ftp_events::Action;
use ftp_transfer::Ticket;
use std::alloc::Global;

/// An action, with the mark before it, up to the end of the line.
#[tactic(auto, unfolding(crate::specs::ActionReading::action_at, crate::specs::Reading::word_value))]
pub fn action(alloc: Global, bytes: &[u8]) -> Parsed<'_, Action>
    ensures { Gives (λ x. (x.0, x.1.now)) result (action_at bytes.now) }
{
    let rest = literal(b"-", bytes)?;
    let (word, rest) = word(rest)?;
    behind(alloc, word, rest)
}

// The action of a word, with what stands behind it.
fn behind<'a>(alloc: Global, word: &[u8], bytes: &'a [u8]) -> Parsed<'a, Action>
    ensures { Gives (λ x. (x.0, x.1.now)) result (by_word action_word_text action_words action_behind word.now bytes.now) }
{
    match word {
        b"completed" => completed(bytes),
        b"cancelled" => {
            let (session, nr, rest) = ticket(bytes)?;
            let ticket = Ticket { session, nr };
            Ok((Action::Cancelled { ticket }, rest))
        }
        b"close" => fields!(bytes; number = number() => Action::Close { number }),
        b"notify" => notify(alloc, bytes),
        b"reply" => reply(alloc, bytes),
        b"start" => start(bytes),
        _ => Err(LineFault::Bad),
    }
}

#[tactic(auto, unfolding(crate::specs::ActionReading::completed_at, crate::specs::Reading::word_value))]
fn completed(bytes: &[u8]) -> Parsed<'_, Action>
    ensures { Gives (λ x. (x.0, x.1.now)) result (completed_at bytes.now) }
{
    let (session, nr, rest) = ticket(bytes)?;
    let (delivered, rest) = word_value(&DELIVERIES, rest)?;
    let ticket = Ticket { session, nr };
    Ok((Action::Completed { ticket, delivered }, rest))
}

#[tactic(auto, unfolding(crate::specs::ActionReading::start_at))]
fn start(bytes: &[u8]) -> Parsed<'_, Action>
    ensures { Gives (λ x. (x.0, x.1.now)) result (start_at bytes.now) }
{
    let (session, nr, rest) = ticket(bytes)?;
    let (number, rest) = number(rest)?;
    let ticket = Ticket { session, nr };
    Ok((Action::Start { ticket, number }, rest))
}

#[tactic(auto, unfolding(crate::specs::ActionReading::reply_at))]
fn reply(alloc: Global, bytes: &[u8]) -> Parsed<'_, Action>
    ensures { Gives (λ x. (x.0, x.1.now)) result (reply_at bytes.now) }
{
    let (session, rest) = number(bytes)?;
    let (delay, rest) = small(4_294_967_296, rest)?;
    let (code, rest) = reply_code(&REPLY_CODES, rest)?;
    let (msg, rest) = text_to_end(alloc, rest)?;
    let msg = ReplyText::from_bytes(msg);
    let action = Action::Reply {
        session,
        delay: delay as u32,
        reply: Reply::CodeAndMsg { code, msg },
    };
    Ok((action, rest))
}
