//! Reading the options.

ghost use Rattle.std.specs.Prelude.{◌≡◌};
ghost use Rattle.ftp_text.specs.Reading.{Gives};
ghost use Rattle.ftp_text.specs.OptionsReading.{mode_of, listening_at, host_of, part_at, policy_of, lockout_of, rules_at};

use crate::fault::{LineFault, Parsed};
use crate::field::{self, literal};
use crate::text::whole_text;
use crate::word::{ACTIVES, BLOCKS, RESTARTS};
use ftp_options::{
    ActivePassiveMode, FailedLoginsBlock, FailedLoginsPolicy, ListenerMode, PassiveHost,
};
use std::alloc::Global;

/// Who listens, and the first and the last passive port.
type Listening = (ListenerMode, (u16, u16));

/// The host, the commands, the idle time in seconds, the lockout, and whether transfers can begin at an offset.
type Rules = (
    PassiveHost,
    (ActivePassiveMode, (u32, (Option<FailedLoginsPolicy>, bool))),
);

/// Who listens, and on which ports.
#[tactic(auto, unfolding(crate::specs::OptionsReading::listening_at, crate::specs::OptionsReading::mode_at))]
pub fn listening(bytes: &[u8]) -> Parsed<'_, Listening>
    ensures { Gives (λ x. (x.0, x.1.now)) result (listening_at bytes.now) }
{
    let (word, rest) = field::word(bytes)?;
    let mode = mode_of(word)?;
    let (lo, rest) = field::port(rest)?;
    let (hi, rest) = field::port(rest)?;
    if !mode.is_legacy() && lo < 1 || hi < lo {
        return Err(LineFault::Bad);
    }
    Ok(((mode, (lo, hi)), rest))
}

#[tactic(auto, unfolding(crate::specs::OptionsReading::mode_of))]
fn mode_of(word: &[u8]) -> Result<ListenerMode, LineFault>
    ensures { Gives (λ x. x) result (mode_of word.now) }
{
    if word == b"legacy".as_slice() {
        return Ok(ListenerMode::Legacy);
    }
    if word == b"pooled".as_slice() {
        return Ok(ListenerMode::Pooled);
    }
    let (control_port, rest) = field::port_here(literal(b"proxy:", word)?)?;
    if rest.is_empty() {
        Ok(ListenerMode::Proxy { control_port })
    } else {
        Err(LineFault::Bad)
    }
}

/// What else the sessions go by.
#[tactic(auto, unfolding(crate::specs::OptionsReading::rules_at, crate::specs::OptionsReading::host_at, crate::specs::OptionsReading::active_at, crate::specs::OptionsReading::lockout_at, crate::specs::OptionsReading::restart_at))]
pub fn rules(alloc: Global, bytes: &[u8]) -> Parsed<'_, Rules>
    ensures { Gives (λ x. (x.0, x.1.now)) result (rules_at bytes.now) }
{
    let (word, rest) = field::word(bytes)?;
    let host = host_of(alloc, word)?;
    let (active, rest) = field::word_value(&ACTIVES, rest)?;
    let (idle, rest) = field::small(4294967296, rest)?;
    let (word, rest) = field::word(rest)?;
    let lockout = lockout_of(word)?;
    let (restart, rest) = field::word_value(&RESTARTS, rest)?;
    Ok(((host, (active, (idle as u32, (lockout, restart)))), rest))
}

#[tactic(auto, unfolding(crate::specs::OptionsReading::host_of))]
fn host_of(alloc: Global, word: &[u8]) -> Result<PassiveHost, LineFault>
    ensures { Gives (λ x. x) result (host_of word.now) }
{
    if word == b"connection".as_slice() {
        return Ok(PassiveHost::FromConnection);
    }
    match word {
        [b'i', ..] => {
            let (ip, rest) = field::dotted_here(literal(b"ip:", word)?)?;
            if rest.is_empty() {
                Ok(PassiveHost::Ip(ip))
            } else {
                Err(LineFault::Bad)
            }
        }
        _ => {
            let name = whole_text(alloc, literal(b"dns:", word)?)?;
            Ok(PassiveHost::Dns(name))
        }
    }
}

#[tactic(auto, unfolding(crate::specs::OptionsReading::lockout_of))]
fn lockout_of(word: &[u8]) -> Result<Option<FailedLoginsPolicy>, LineFault>
    ensures { Gives (λ x. x) result (lockout_of word.now) }
{
    if word == b"off".as_slice() {
        return Ok(None);
    }
    let policy = policy_of(word)?;
    Ok(Some(policy))
}

#[tactic(auto, unfolding(crate::specs::OptionsReading::policy_of))]
fn policy_of(word: &[u8]) -> Result<FailedLoginsPolicy, LineFault>
    ensures { Gives (λ x. x) result (policy_of word.now) }
{
    let (attempts, rest) = part(word)?;
    let (seconds, rest) = part(rest)?;
    let block = field::named(&BLOCKS, rest)?;
    Ok(FailedLoginsPolicy::new(attempts, 1000 * u64::from(seconds), block))
}

// A number of 32 bits, before a colon.
fn part(bytes: &[u8]) -> Parsed<'_, u32>
    ensures { Gives (λ x. (x.0, x.1.now)) result (part_at bytes.now) }
{
    let (n, rest) = field::small_here(4294967296, bytes)?;
    let rest = literal(b":", rest)?;
    Ok((n as u32, rest))
}
