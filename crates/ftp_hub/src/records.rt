//! The failed logins of a hub as lines, and from lines.

ghost use Rattle.std.specs.Prelude.{◌≡◌, ℕ, ◌<◌, ◌^◌, List, [], filter, true, IfOk, IfSome, OnOk, Some, unwrap_or, if◌then◌else◌};
ghost use Rattle.std.specs.List.{AllByRecursion};
ghost use Rattle.std.specs.Map.{keys_of};
ghost use Rattle.ftp_base.specs.declared.net.IpAddr.TheVariants.{V4, V6};
ghost use Rattle.ftp_lockout.specs.declared.key.LoginKey.{LoginKey};
ghost use Rattle.ftp_lockout.specs.Failures.{failures_of};
ghost use Rattle.ftp_lockout.specs.Keys.{same_key};
ghost use Rattle.ftp_lockout.specs.Logins.{IsOfVersion, IsKey};
ghost use Rattle.ftp_handlers.specs.Handlers.{failures_in, policy_in};
ghost use Rattle.ftp_hub.specs.State.{AreMadeBy, AreRecords, entries_of, failures_told, is_made_by, key_with, record_failures, record_key, recorded_in};

use crate::hub::Hub;
use crate::state::RecordLine;
use ftp_base::{Bytes, IpAddr};
use ftp_lockout::{FailedLoginsCache, Failures, LoginKey};
use ftp_options::{FailedLoginsBlock, FailedLoginsPolicy};
use std::alloc::{AllocError, Global};

// The address of this version and number.
fn address(version: u8, number: u128) -> Option<IpAddr>
    ensures v4 { version ≡ 4 → number < 2 ^ 32 → result ≡ Some (V4 number) }
    ensures v6 { version ≡ 6 → result ≡ Some (V6 number) }
{
    match version {
        4 => match u32::try_from(number) {
            Ok(number) => Some(IpAddr::V4(number)),
            Err(_) => None,
        },
        6 => Some(IpAddr::V6(number)),
        _ => None,
    }
}

// The line of a key of the policy, with its failures.
fn line_of(block_by: FailedLoginsBlock, key: LoginKey, failures: Failures) -> RecordLine
    requires key { IsKey block_by key }
    ensures key { record_key result ≡ key }
    ensures failures { record_failures result ≡ failures }
    ensures made { is_made_by block_by result ≡ true }
{
    let ip = address(key.version, key.number);
    let (ip, user) = match block_by {
        FailedLoginsBlock::UserAndIP => (ip, Some(key.name)),
        FailedLoginsBlock::IP => (ip, None),
        FailedLoginsBlock::User => (None, Some(key.name)),
    };
    RecordLine {
        count: failures.count,
        at: failures.last,
        ip,
        user,
    }
}

// The lines of these records.
fn lines_of(
    alloc: Global,
    block_by: FailedLoginsBlock,
    records: Vec<(LoginKey, Failures)>,
) -> Result<Vec<RecordLine>, AllocError>
    requires keys { AllByRecursion (IsKey block_by) (keys_of records.items) }
    ensures entries { IfOk result (λ lines. entries_of lines.items ≡ records.items) }
    ensures made { IfOk result (λ lines. AllByRecursion (λ line. is_made_by block_by line ≡ true) lines.items) }
{
    let mut lines = Vec::with_capacity(alloc, records.len())?;
    for (key, failures) in records {
        lines.push(line_of(block_by, key, failures))?;
    }
    Ok(lines)
}

// Says whether the key of a line is one that the policy makes.
fn is_made_by(block_by: FailedLoginsBlock, line: &RecordLine) -> bool
    ensures { result ≡ is_made_by block_by line.now }
{
    match block_by {
        FailedLoginsBlock::UserAndIP => line.ip.is_some() && line.user.is_some(),
        FailedLoginsBlock::IP => line.ip.is_some() && line.user.is_none(),
        FailedLoginsBlock::User => line.ip.is_none() && line.user.is_some(),
    }
}

// The key of an address, or of none, with a name.
fn key_with(alloc: Global, ip: Option<IpAddr>, user: Option<Bytes>) -> LoginKey
    ensures key { result ≡ key_with ip (unwrap_or user []) }
    ensures within { IfSome ip IsOfVersion }
{
    let name = match user {
        Some(name) => name,
        None => Bytes::from_vec(Vec::new(alloc)),
    };
    match ip {
        None => LoginKey {
            version: 0,
            number: 0,
            name,
        },
        Some(IpAddr::V4(number)) => LoginKey {
            version: 4,
            number: u128::from(number),
            name,
        },
        Some(IpAddr::V6(number)) => LoginKey {
            version: 6,
            number,
            name,
        },
    }
}

// Gives back the record of a line.
fn restore(alloc: Global, cache: &mut FailedLoginsCache, line: RecordLine) -> Result<(), AllocError>
    requires made { is_made_by cache.old.policy.block_by line ≡ true }
    ensures recorded { OnOk result ((key : LoginKey) → failures_of cache.new key ≡ (if same_key key (record_key line) then Some (record_failures line) else failures_of cache.old key)) }
    ensures policy { cache.new.policy ≡ cache.old.policy }
{
    let RecordLine {
        count,
        at,
        ip,
        user,
    } = line;
    let key = key_with(alloc, ip, user);
    cache.restore(key, Failures { count, last: at })
}

// The table of failed logins of these lines, without those of keys that the policy does not make.
fn cache_of(
    alloc: Global,
    policy: FailedLoginsPolicy,
    lines: Vec<RecordLine>,
) -> Result<FailedLoginsCache, AllocError>
    ensures policy { IfOk result (λ cache. cache.policy ≡ policy) }
    ensures told { IfOk result (λ cache. (key : LoginKey) → failures_of cache key ≡ recorded_in (filter (is_made_by policy.block_by) lines.items) key) }
{
    let mut cache = FailedLoginsCache::new(alloc, policy);
    let mut lines = lines;
    while let Some(line) = lines.pop() {
        if is_made_by(policy.block_by, &line) {
            restore(alloc, &mut cache, line)?;
        }
    }
    Ok(cache)
}

// The table of failed logins of these lines, where they lock at all.
pub(crate) fn failures_by(
    alloc: Global,
    policy: Option<FailedLoginsPolicy>,
    lines: Vec<RecordLine>,
) -> Result<Option<FailedLoginsCache>, AllocError>
    ensures policy { IfOk result (λ failures. policy_in failures ≡ policy) }
    ensures told { IfOk result (λ failures. (key : LoginKey) → failures_in failures key ≡ failures_told policy lines.items key) }
{
    match policy {
        Some(policy) => Ok(Some(cache_of(alloc, policy, lines)?)),
        None => Ok(None),
    }
}

impl Hub {
    // The line of every record, in order of keys.
    pub(crate) fn record_lines(&self) -> Result<Vec<RecordLine>, AllocError>
        ensures told { IfOk result (λ lines. (key : LoginKey) → failures_told self.now.options.lockout lines.items key ≡ failures_in self.now.failures key) }
        ensures made { IfOk result (λ lines. AreMadeBy self.now.options.lockout lines.items) }
        ensures form { IfOk result (λ lines. AreRecords lines.items) }
    {
        match (&self.failures, self.options.lockout) {
            (Some(failures), Some(policy)) => {
                let records = failures.records(self.alloc)?;
                let lines = lines_of(self.alloc, policy.block_by, records)?;
                Ok(lines)
            }
            _ => Ok(Vec::new(self.alloc)),
        }
    }
}
