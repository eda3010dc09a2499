//! Reading a trace id.

ghost use Rattle.std.specs.Prelude.{◌≡◌, ◌^◌, ◌<◌, ◌≤◌, MatchOption};
ghost use Rattle.std.specs.Char.{digit_value};
ghost use Rattle.std.specs.Str.Parse.{digits_value};
ghost use Rattle.ftp_text.specs.Reading.{Gives, word_as};
ghost use Rattle.ftp_text.specs.ActionReading.{trace_of};

use crate::fault::{LineFault, Parsed};
use crate::field::word;
use crate::writing::put_trace;
use std::alloc::Global;

/// A trace id.
pub fn trace(alloc: Global, bytes: &[u8]) -> Parsed<'_, u64>
    ensures { Gives (λ x. (x.0, x.1.now)) result (word_as trace_of bytes.now) }
{
    let (text, rest) = word(bytes)?;
    let trace = trace_of(alloc, text)?;
    Ok((trace, rest))
}

// The trace id that all of the word spells. It is spelled again, as it has one spelling.
fn trace_of(alloc: Global, word: &[u8]) -> Result<u64, LineFault>
    ensures { Gives (λ x. x) result (trace_of word.now) }
{
    if word.len() < 2 {
        return Err(LineFault::Bad);
    }
    let Some(trace) = value(&word[2..]) else {
        return Err(LineFault::Bad);
    };
    let mut spelled = Vec::new(alloc);
    put_trace(&mut spelled, trace)?;
    if &spelled[1..] == word {
        Ok(trace)
    } else {
        Err(LineFault::Bad)
    }
}

// The value of hexadecimal digits, or None where it needs more than 64 bits. Another byte counts as some number.
fn value(digits: &[u8]) -> Option<u64>
    ensures { MatchOption result (2 ^ 64 ≤ digits_value 16 digits.now)
        (λ n. (n ≡ digits_value 16 digits.now) × (n < 2 ^ 64)) }
{
    let mut value: u64 = 0;
    for c in digits {
        let digit = u64::from(digit(*c));
        if value > (u64::MAX - digit) / 16 {
            return None;
        }
        value = value * 16 + digit;
    }
    Some(value)
}

fn digit(c: u8) -> u8
    ensures value { result ≡ digit_value c }
    ensures small { result ≤ 36 }
{
    match c {
        b'0'..=b'9' => c - b'0',
        b'A'..=b'Z' => c - b'A' + 10,
        b'a'..=b'z' => c - b'a' + 10,
        _ => 36,
    }
}
