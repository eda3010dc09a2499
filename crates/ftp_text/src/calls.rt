//! The calls that fail, as a field lists them.

ghost use Rattle.std.specs.Prelude.{◌≡◌, ◌∷◌, ◌<◌, [], ℕ, List, length, Option, IfSome};
ghost use Rattle.std.specs.List.{slice_split};
ghost use Rattle.std.specs.Option.{option_map_or};
ghost use Rattle.ftp_text.specs.Reading.{Gives, is_comma, each_of, list_of, calls_field, call_of, link_call_of};

use crate::fault::{LineFault, Parsed};
use crate::field::{after, named, number_here, word};
use crate::word::FAULTS;
use ftp_base::{FailingCall, LinkFault, Rows, rise};
use std::alloc::Global;

/// Calls that fail, which contracts see as a list.
pub type FailingCalls<T> = Rows<T>;

/// A call that fails, as all of a word spells it.
pub trait CallText: FailingCall {
    // The call that a word spells.
    ghost spelled: { List ℕ → Option Self };

    fn read(word: &[u8]) -> Result<Self, LineFault>
        ensures { Gives (λ x. x) result (spelled word.now) };
}

impl CallText for u64 {
    ghost spelled = { call_of };

    fn read(word: &[u8]) -> Result<u64, LineFault> {
        call(word)
    }
}

impl CallText for (u64, LinkFault) {
    ghost spelled = { link_call_of };

    fn read(word: &[u8]) -> Result<(u64, LinkFault), LineFault> {
        link_call(word)
    }
}

#[tactic(auto, unfolding(crate::specs::Reading::call_of))]
fn call(word: &[u8]) -> Result<u64, LineFault>
    ensures { Gives (λ x. x) result (call_of word.now) }
{
    let (number, rest) = number_here(word)?;
    if rest.is_empty() {
        Ok(number)
    } else {
        Err(LineFault::Bad)
    }
}

#[tactic(auto, unfolding(crate::specs::Reading::link_call_of))]
fn link_call(word: &[u8]) -> Result<(u64, LinkFault), LineFault>
    ensures { Gives (λ x. x) result (link_call_of word.now) }
{
    let (number, rest) = number_here(word)?;
    let fault = named(&FAULTS, after(b':', rest)?)?;
    Ok((number, fault))
}

/// The failing calls of a field: a hyphen for none, else calls with commas between them, which rise from 1 on.
///
/// # Proved
///
/// - The same of the calls that fail, which rise from 1 on.
#[tactic(auto, unfolding(crate::specs::Reading::calls_field))]
pub fn failing_calls<C: CallText>(alloc: Global, bytes: &[u8]) -> Parsed<'_, FailingCalls<C>>
    ensures { Gives (λ x. (x.0, x.1.now)) result (calls_field C.spelled C.number bytes.now) }
{
    let (word, rest) = word(bytes)?;
    let found = listed(alloc, word)?;
    if !rise(found.as_slice()) {
        return Err(LineFault::Bad);
    }
    Ok((found, rest))
}

// The calls that all of a word lists.
#[tactic(auto, unfolding(crate::specs::Reading::list_of))]
fn listed<C: CallText>(alloc: Global, word: &[u8]) -> Result<FailingCalls<C>, LineFault>
    ensures { Gives (λ x. x) result (list_of C.spelled word.now) }
{
    if word == b"-".as_slice() {
        return Ok(Rows::from_vec(Vec::new(alloc)));
    }
    each(alloc, word)
}

// The calls between the commas.
fn each<C: CallText>(alloc: Global, word: &[u8]) -> Result<FailingCalls<C>, LineFault>
    ensures { Gives (λ x. x) result (each_of C.spelled (slice_split is_comma word.now)) }
{
    let mut calls = Vec::new(alloc);
    let mut rest = Some(word);
    while let Some(left) = rest {
        let (front, behind) = cut(left);
        let call = C::read(front)?;
        calls.push(call)?;
        rest = behind;
    }
    Ok(Rows::from_vec(calls))
}

// What stands before the first comma, and what stands behind it, where there is one.
fn cut(bytes: &[u8]) -> (&[u8], Option<&[u8]>)
    ensures split { slice_split is_comma bytes.now ≡ result.0.now ∷ option_map_or (λ rest. slice_split is_comma rest.now) result.1 [] }
    ensures shorter { IfSome result.1 (λ rest. length rest.now < length bytes.now) }
{
    for (i, b) in bytes.iter().enumerate() {
        if *b == b',' {
            return (&bytes[..i], Some(&bytes[i + 1..]));
        }
    }
    (bytes, None)
}
