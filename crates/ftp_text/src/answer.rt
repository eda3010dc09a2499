//! Reading the answer of an entry.

ghost use Rattle.std.specs.Prelude.{◌≡◌};
ghost use Rattle.ftp_text.specs.Reading.{Gives, by_word, find_word};
ghost use Rattle.ftp_text.specs.Printing.{result_text};
ghost use Rattle.ftp_text.specs.LogLines.{answer_word_text};
ghost use Rattle.ftp_text.specs.AnswerReading.{answer_words, results, has_letter, header_at, outcome_at, answer_behind, answer_at};

use crate::fault::{LineFault, Parsed};
use crate::field::{address, fields, literal, number, word, word_or_none, word_value};
use crate::word::{ENDS, FAULTS, KINDS, PROXY_ERRORS};
use ftp_base::value_named;
use ftp_events::Answer;
use ftp_proxy::{ProxyError, ProxyHeader};
use ftp_transfer::{Completion, Outcome};

/// An answer, with the mark before it.
#[tactic(auto, unfolding(crate::specs::AnswerReading::answer_at, crate::specs::Reading::word_value))]
pub fn answer(bytes: &[u8]) -> Parsed<'_, Answer>
    ensures { Gives (λ x. (x.0, x.1.now)) result (answer_at bytes.now) }
{
    let rest = literal(b"?", bytes)?;
    let (word, rest) = word(rest)?;
    behind(word, rest)
}

// The answer of a word, with what stands behind it.
fn behind<'a>(word: &[u8], bytes: &'a [u8]) -> Parsed<'a, Answer>
    ensures { Gives (λ x. (x.0, x.1.now)) result (by_word answer_word_text answer_words answer_behind word.now bytes.now) }
{
    match word {
        b"header" => fields!(bytes; header = header() => Answer::Header(header)),
        b"done" => fields!(bytes; outcome = outcome() => Answer::Done(outcome)),
        b"moved" => fields!(bytes; bytes = number() => Answer::Moved { bytes }),
        _ => Err(LineFault::Bad),
    }
}

// What the header of a proxy says, or why it is none.
#[tactic(auto, unfolding(crate::specs::AnswerReading::header_at, crate::specs::Reading::word_value))]
fn header(bytes: &[u8]) -> Parsed<'_, Result<ProxyHeader, ProxyError>>
    ensures { Gives (λ x. (x.0, x.1.now)) result (header_at bytes.now) }
{
    if has_letter(bytes) {
        return fields!(bytes; error = word_value(&PROXY_ERRORS) => Err(error));
    }
    fields!(bytes; source = address(), destination = address() => Ok(ProxyHeader { source, destination }))
}

// Whether the field begins with a letter.
fn has_letter(bytes: &[u8]) -> bool
    ensures { result ≡ has_letter bytes.now }
{
    match bytes {
        [_, c, ..] => *c >= b'a',
        _ => false,
    }
}

#[tactic(auto, unfolding(crate::specs::AnswerReading::outcome_at, crate::specs::Reading::word_value))]
fn outcome(bytes: &[u8]) -> Parsed<'_, Outcome>
    ensures { Gives (λ x. (x.0, x.1.now)) result (outcome_at bytes.now) }
{
    let (word, rest) = word(bytes)?;
    let result = completion_named(word).ok_or(LineFault::Bad)?;
    fields!(rest; bytes = number(), fault = word_or_none(b"-", &FAULTS) => Outcome { result, bytes, fault })
}

// How a transfer ended: a word of its own, or why the storage refused.
fn completion_named(word: &[u8]) -> Option<Completion>
    ensures { result ≡ find_word result_text results word.now }
{
    match value_named(&ENDS, word) {
        Some(end) => Some(end),
        None => {
            let kind = value_named(&KINDS, word)?;
            Some(Completion::Refused(kind))
        }
    }
}
