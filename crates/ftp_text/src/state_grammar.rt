//! Which line may stand behind which.

ghost use Rattle.std.specs.Prelude.{◌≡◌};
ghost use Rattle.std.specs.Ordering.{nat_cmp};
ghost use Rattle.std.specs.Cmp.Lexicographic.{slice_cmp};
ghost use Rattle.ftp_lockout.specs.Keys.{key_cmp};
ghost use Rattle.ftp_hub.specs.State.{record_key};
ghost use Rattle.ftp_hub.specs.declared.state.RecordLine.{RecordLine};
ghost use Rattle.ftp_text.specs.Grammar.{is_first_line, used_follows, precedes, record_follows, session_follows, slot_follows, queued_follows, job_follows, follows};

use crate::state_line::StateLine;
use ftp_base::{Bytes, IpAddr};
use ftp_hub::RecordLine;
use ftp_switchboard::Interval;
use std::cmp::Ordering;

impl StateLine {
    /// Says whether the line may be the first.
    pub(crate) fn is_first_line(&self) -> bool
        ensures { result ≡ is_first_line self.now }
    {
        matches!(self, StateLine::Checkpoint { .. })
    }

    /// Says whether the line may stand behind the other.
    pub(crate) fn follows(&self, before: &StateLine) -> bool
        ensures { result ≡ follows before.now self.now }
    {
        match self {
            StateLine::Checkpoint { .. } => false,
            StateLine::Used(interval) => used_follows(before, *interval),
            StateLine::Record(line) => record_follows(before, line),
            StateLine::Session(line) => session_follows(before, line.session),
            StateLine::Slot(line) => slot_follows(before, line.session),
            StateLine::Queued(line) => queued_follows(before, line.session),
            StateLine::Job(line) => job_follows(before, line.job.ticket.session),
        }
    }
}

// An interval: at least one number lies between it and the one before it.
fn used_follows(before: &StateLine, interval: Interval) -> bool
    ensures { result ≡ used_follows before.now interval }
{
    match before {
        StateLine::Checkpoint { .. } => true,
        StateLine::Used(last) => last.hi < interval.lo && interval.lo - last.hi > 1,
        _ => false,
    }
}

fn record_follows(before: &StateLine, line: &RecordLine) -> bool
    ensures { result ≡ record_follows before.now line.now }
{
    match before {
        StateLine::Checkpoint { .. } | StateLine::Used(_) => true,
        StateLine::Record(last) => precedes(last, line),
        _ => false,
    }
}

// Says whether both records are of one policy, and the key of the second is the higher one.
fn precedes(a: &RecordLine, b: &RecordLine) -> bool
    ensures { result ≡ precedes a.now b.now }
{
    if a.ip.is_some() != b.ip.is_some() || a.user.is_some() != b.user.is_some() {
        return false;
    }
    matches!(key_order(a, b), Ordering::Less)
}

// Where the key of a record stands beside another: by version, by address, by name.
#[tactic(auto, unfolding(ftp_lockout::specs::Keys::key_cmp))]
fn key_order(a: &RecordLine, b: &RecordLine) -> Ordering
    ensures { result ≡ key_cmp (record_key a.now) (record_key b.now) }
{
    let (a_version, a_number) = address(a.ip);
    let (b_version, b_number) = address(b.ip);
    let version = a_version.cmp(&b_version);
    let number = a_number.cmp(&b_number);
    let names = name_order(name(&a.user), name(&b.user));
    version.then(number).then(names)
}

// The version of an address, and its number.
fn address(ip: Option<IpAddr>) -> (u8, u128)
    ensures version { (line : RecordLine) → line.ip ≡ ip → (record_key line).version ≡ result.0 }
    ensures number { (line : RecordLine) → line.ip ≡ ip → (record_key line).number ≡ result.1 }
{
    match ip {
        None => (0, 0),
        Some(IpAddr::V4(number)) => (4, u128::from(number)),
        Some(IpAddr::V6(number)) => (6, number),
    }
}

// The name, and no bytes for none.
fn name(user: &Option<Bytes>) -> &[u8]
    ensures { (line : RecordLine) → line.user ≡ user.now → (record_key line).name ≡ result.now }
{
    match user {
        None => b"",
        Some(user) => user.as_slice(),
    }
}

fn name_order<'a>(a: &'a [u8], b: &'a [u8]) -> Ordering
    ensures { result ≡ slice_cmp nat_cmp a.now b.now }
{
    Ord::cmp(&a, &b)
}

// The line of a session.
fn session_follows(before: &StateLine, number: u64) -> bool
    ensures { result ≡ session_follows before.now number }
{
    match before {
        StateLine::Session(last) => last.session < number,
        StateLine::Slot(last) => last.session < number,
        StateLine::Queued(last) => last.session < number,
        StateLine::Job(_) => false,
        StateLine::Checkpoint { .. } | StateLine::Used(_) | StateLine::Record(_) => true,
    }
}

// The line of its slot.
fn slot_follows(before: &StateLine, number: u64) -> bool
    ensures { result ≡ slot_follows before.now number }
{
    match before {
        StateLine::Session(last) => last.session == number,
        _ => false,
    }
}

// The line of its waiting transfer.
fn queued_follows(before: &StateLine, number: u64) -> bool
    ensures { result ≡ queued_follows before.now number }
{
    match before {
        StateLine::Slot(last) => last.session == number,
        _ => false,
    }
}

// The line of its job.
fn job_follows(before: &StateLine, number: u64) -> bool
    ensures { result ≡ job_follows before.now number }
{
    match before {
        StateLine::Job(last) => last.job.ticket.session < number,
        _ => true,
    }
}
