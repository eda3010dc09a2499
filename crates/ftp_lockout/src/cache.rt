//! The table of failed logins.

ghost use Rattle.std.specs.Prelude.{◌≡◌, ◌<◌, ◌≤◌, ◌∷◌, List, [], length, filter, not, vec_len, vec_capacity, Some, None, IfOk, OnOk, OnErr, IsOk, if◌then◌else◌};
ghost use Rattle.std.specs.List.{AllByRecursion};
ghost use Rattle.std.specs.Map.{keys_of};
ghost use Rattle.ftp_lockout.specs.Keys.{key_of, key_lent, same_key};
ghost use Rattle.ftp_lockout.specs.Failures.{recorded, failures_of, is_expired, one_more, lock_state, is_locked, let_in, swept};
ghost use Rattle.ftp_lockout.specs.Logins.{IsKey};
ghost use Rattle.ftp_lockout.specs.Tally.{Call, StandsFor, Failed, Succeeded, Swept};
ghost use Rattle.ftp_lockout.specs.Places.{AreBlocks, AreInKeyOrder, HasGap, IsGapFor, place_in, records_in};

use crate::blocks::{Block, begin, drop_empty, make_room, open_block, put_at, set_at, take_at};
use crate::key::{LentKey, LoginKey, lent_key};
use crate::places::{Place, failures_at, place_of};
use crate::restoring::{restore, write_down};
use ftp_base::{Bytes, IpAddr, LockState};
use ftp_options::FailedLoginsPolicy;
use std::alloc::{AllocError, Global};
use std::marker::Model;

/// How many logins failed, and at which moment the last of them did.
#[derive(Clone, Copy, Debug, PartialEq, Eq)]
pub struct Failures {
    pub count: u32,
    pub last: u64,
}

/// The failed logins by key, in order of keys. Moments are in milliseconds.
///
/// A key is found in a time that grows with the logarithm of the count of keys. A new one moves at most 128 records, and
/// once in 64 new ones the list of the blocks.
#[derive(Drop)]
pub struct FailedLoginsCache {
    alloc: Global,
    policy: FailedLoginsPolicy,
    blocks: Vec<Block>,
    // The memory of the next block, which has no records.
    next: Block,
}

impl Model for FailedLoginsCache {
    ghost use Rattle.std.specs.Prelude.{◌≡◌, ◌-◌, ◌/◌, [], min, vec_len, vec_capacity};
    ghost use Rattle.ftp_lockout.specs.Failures.{Table};
    ghost use Rattle.ftp_lockout.specs.Logins.{AreKeys};
    ghost use Rattle.ftp_lockout.specs.Places.{AreBlocks, AreInKeyOrder, records_in};

    ghost Value = { Table };

    ghost view = { λ c. record { policy = c.policy; records = records_in c.blocks.items; spare = min (vec_capacity c.blocks - vec_len c.blocks) (vec_capacity c.next / 128) } };

    ghost invariant = { λ c. AreInKeyOrder (records_in c.blocks.items) × AreBlocks c.blocks.items × (c.next.items ≡ []) × AreKeys c.policy.block_by (records_in c.blocks.items) };
}

impl FailedLoginsCache {
    /// No failed login.
    ///
    /// # Proved
    ///
    /// - After any list of calls the table has of each key what the tally of these calls says (`stands`; also
    ///   `FailedLoginsCache::failed`, `FailedLoginsCache::success`, `FailedLoginsCache::sweep`).
    pub fn new(alloc: Global, policy: FailedLoginsPolicy) -> FailedLoginsCache
        ensures policy { result.policy ≡ policy }
        ensures stands { StandsFor result [] }
    {
        FailedLoginsCache {
            alloc,
            policy,
            blocks: Vec::new(alloc),
            next: Vec::new(alloc),
        }
    }

    /// Sets what is recorded of a key. Without memory nothing changes.
    ///
    /// # Proved
    ///
    /// - A record that is given back stands under its key, and no other key changes; without memory nothing is recorded,
    ///   and nothing is lost (`recorded`, `unchanged`).
    pub fn restore(&mut self, key: LoginKey, failures: Failures) -> Result<(), AllocError>
        requires key { IsKey self.old.policy.block_by key }
        ensures recorded { OnOk result ((other : LoginKey) → failures_of self.new other ≡ (if same_key other key then Some failures else failures_of self.old other)) }
        ensures policy { self.new.policy ≡ self.old.policy }
        ensures unchanged { OnErr result (self.new.records ≡ self.old.records) }
    {
        let alloc = self.alloc;
        restore(alloc, &mut self.blocks, &mut self.next, key, failures)?;
        Ok(())
    }

    /// Gives a copy of every record, in order of keys.
    ///
    /// # Proved
    ///
    /// - The records that are given are those of the table, in order of keys, each of the key of some login (`records`,
    ///   `order`, `keys`).
    pub fn records(&self, alloc: Global) -> Result<Vec<(LoginKey, Failures)>, AllocError>
        ensures records { IfOk result (λ records. records.items ≡ self.now.records) }
        ensures order { IfOk result (λ records. AreInKeyOrder records.items) }
        ensures keys { IfOk result (λ records. AllByRecursion (IsKey self.now.policy.block_by) (keys_of records.items)) }
    {
        write_down(alloc, &self.blocks)
    }

    /// Takes the memory that the next `failed` needs.
    pub fn room(&mut self) -> Result<(), AllocError>
        ensures room { OnOk result (0 < self.new.spare) }
        ensures same { self.new ≡ record self.old { spare = self.new.spare } }
    {
        make_room(&mut self.blocks, &mut self.next)
    }

    /// Counts a failed login, and says whether its key is locked from now on, or was.
    ///
    /// # Proved
    ///
    /// - A failed login is counted for its key, from 1 where what was recorded has expired, and no other key changes
    ///   (`counted`).
    /// - It locks the key where the count comes to the policy's limit, and says that it was locked where it goes past
    ///   it (`lock`).
    /// - With room a failed login is counted whether or not memory is left; without memory nothing is recorded, and
    ///   nothing is lost (`room`, `unchanged`; also `FailedLoginsCache::room`: `room`, `same`).
    /// - The policy stays (`policy`; also `FailedLoginsCache::success`, `FailedLoginsCache::sweep`).
    pub fn failed(
        &mut self,
        at: u64,
        ip: IpAddr,
        user: Bytes,
    ) -> Result<Option<LockState>, AllocError>
        ensures counted { OnOk result ((key : LoginKey) → failures_of self.new key ≡ (if same_key key (key_of self.old.policy.block_by ip user)
            then Some (one_more self.old.policy at (failures_of self.old key)) else failures_of self.old key)) }
        ensures lock { IfOk result (λ lock. lock ≡ lock_state self.old.policy (one_more self.old.policy at (failures_of self.old (key_of self.old.policy.block_by ip user))).count) }
        ensures stands { OnOk result ((calls : List Call) → StandsFor self.old calls → StandsFor self.new (Failed at ip user ∷ calls)) }
        ensures policy { self.new.policy ≡ self.old.policy }
        ensures room { 0 < self.old.spare → IsOk result }
        ensures unchanged { OnErr result (self.new.records ≡ self.old.records) }
    {
        let policy = self.policy;
        let key = LoginKey::new(policy.block_by, ip, user);
        let alloc = self.alloc;
        let count = count(alloc, &mut self.blocks, &mut self.next, key, policy, at)?;
        Ok(lock(policy, count))
    }

    /// Removes what is recorded of a login that is let in, unless its key is locked. It takes no memory.
    ///
    /// # Proved
    ///
    /// - A login that is let in is told that its key is locked exactly where it is; else what is recorded of the key
    ///   goes, and no other key changes (`lock`, `removed`).
    pub fn success(&mut self, at: u64, ip: IpAddr, user: &Bytes) -> Option<LockState>
        ensures lock { result ≡ (if is_locked self.old.policy at (failures_of self.old (key_of self.old.policy.block_by ip user.now)) then Some LockState.AlreadyLocked else None) }
        ensures removed { (key : LoginKey) → failures_of self.new key ≡ (if same_key key (key_of self.old.policy.block_by ip user.now)
            then let_in self.old.policy at (failures_of self.old key) else failures_of self.old key) }
        ensures stands { (calls : List Call) → StandsFor self.old calls → StandsFor self.new (Succeeded at ip user.now ∷ calls) }
        ensures policy { self.new.policy ≡ self.old.policy }
        ensures spare { self.old.spare ≤ self.new.spare }
    {
        let policy = self.policy;
        let key = lent_key(policy.block_by, ip, user.as_slice());
        if let_in(&mut self.blocks, key, policy, at) {
            Some(LockState::AlreadyLocked)
        } else {
            None
        }
    }

    /// Removes what has expired, in one pass. It takes no memory.
    ///
    /// # Proved
    ///
    /// - A sweep takes out exactly what has expired (`swept`).
    pub fn sweep(&mut self, at: u64)
        ensures swept { (key : LoginKey) → failures_of self.new key ≡ swept self.old.policy at (failures_of self.old key) }
        ensures stands { (calls : List Call) → StandsFor self.old calls → StandsFor self.new (Swept at ∷ calls) }
        ensures policy { self.new.policy ≡ self.old.policy }
        ensures spare { self.old.spare ≤ self.new.spare }
    {
        let policy = self.policy;
        sweep(&mut self.blocks, policy, at);
    }
}

// Counts a failed login of the key, and gives the count.
fn count(
    alloc: Global,
    blocks: &mut Vec<Block>,
    next: &mut Block,
    key: LoginKey,
    policy: FailedLoginsPolicy,
    at: u64,
) -> Result<u32, AllocError>
    requires order { AreInKeyOrder (records_in blocks.old.items) }
    requires blocks { AreBlocks blocks.old.items }
    requires empty { next.old.items ≡ [] }
    ensures counted { OnOk result ((other : LoginKey) → recorded (records_in blocks.new.items) other ≡ (if same_key other key
        then Some (one_more policy at (recorded (records_in blocks.old.items) other)) else recorded (records_in blocks.old.items) other)) }
    ensures count { IfOk result (λ count. count ≡ (one_more policy at (recorded (records_in blocks.old.items) key)).count) }
    ensures order { AreInKeyOrder (records_in blocks.new.items) }
    ensures blocks { AreBlocks blocks.new.items }
    ensures empty { next.new.items ≡ [] }
    ensures room { vec_len blocks.old < vec_capacity blocks.old → 128 ≤ vec_capacity next.old → IsOk result }
    ensures unchanged { OnErr result (records_in blocks.new.items ≡ records_in blocks.old.items) }
{
    match place_of(blocks, key.lend()) {
        Ok(place) => {
            let failures = more(policy, at, failures_at(blocks, place));
            set_at(blocks, place, failures);
            Ok(failures.count)
        }
        Err(place) => {
            let failures = Failures { count: 1, last: at };
            make_room(blocks, next)?;
            put(alloc, blocks, next, place, (key, failures));
            Ok(failures.count)
        }
    }
}

/// Puts the key before the place. There is memory for it.
pub(crate) fn put(
    alloc: Global,
    blocks: &mut Vec<Block>,
    next: &mut Block,
    place: Place,
    entry: (LoginKey, Failures),
)
    requires order { AreInKeyOrder (records_in blocks.old.items) }
    requires blocks { AreBlocks blocks.old.items }
    requires key { IsGapFor (records_in blocks.old.items) entry.0 (place_in blocks.old.items place) }
    requires gap { 0 < length blocks.old.items → HasGap blocks.old.items place }
    requires room { vec_len blocks.old < vec_capacity blocks.old }
    requires next { 128 ≤ vec_capacity next.old }
    requires empty { next.old.items ≡ [] }
    ensures recorded { (other : LoginKey) → recorded (records_in blocks.new.items) other ≡ (if same_key other entry.0 then Some entry.1 else recorded (records_in blocks.old.items) other) }
    ensures order { AreInKeyOrder (records_in blocks.new.items) }
    ensures blocks { AreBlocks blocks.new.items }
    ensures empty { next.new.items ≡ [] }
{
    if blocks.is_empty() {
        begin(alloc, blocks, next, entry);
        return;
    }
    let place = open_block(alloc, blocks, next, place);
    put_at(blocks, place, entry);
}

// Removes what is recorded of the key, unless it is locked, and says whether it is.
fn let_in(blocks: &mut Vec<Block>, key: LentKey<'_>, policy: FailedLoginsPolicy, at: u64) -> bool
    requires order { AreInKeyOrder (records_in blocks.old.items) }
    requires blocks { AreBlocks blocks.old.items }
    ensures locked { result ≡ is_locked policy at (recorded (records_in blocks.old.items) (key_lent key.entry)) }
    ensures removed { (other : LoginKey) → recorded (records_in blocks.new.items) other ≡ (if same_key other (key_lent key.entry)
        then let_in policy at (recorded (records_in blocks.old.items) other) else recorded (records_in blocks.old.items) other) }
    ensures order { AreInKeyOrder (records_in blocks.new.items) }
    ensures blocks { AreBlocks blocks.new.items }
    ensures len { vec_len blocks.new ≤ vec_len blocks.old }
    ensures capacity { vec_capacity blocks.new ≡ vec_capacity blocks.old }
{
    let Ok(place) = place_of(blocks, key) else {
        return false;
    };
    if locks(policy, at, failures_at(blocks, place)) {
        return true;
    }
    take_at(blocks, place);
    false
}

// Takes out what has expired.
fn sweep(blocks: &mut Vec<Block>, policy: FailedLoginsPolicy, at: u64)
    requires order { AreInKeyOrder (records_in blocks.old.items) }
    requires blocks { AreBlocks blocks.old.items }
    ensures recorded { (key : LoginKey) → recorded (records_in blocks.new.items) key ≡ swept policy at (recorded (records_in blocks.old.items) key) }
    ensures order { AreInKeyOrder (records_in blocks.new.items) }
    ensures blocks { AreBlocks blocks.new.items }
    ensures len { vec_len blocks.new ≤ vec_len blocks.old }
    ensures capacity { vec_capacity blocks.new ≡ vec_capacity blocks.old }
{
    for i in 0..blocks.len() {
        sweep_block(&mut blocks[i], policy, at);
    }
    drop_empty(blocks);
}

// Takes out of a block what has expired.
fn sweep_block(block: &mut Block, policy: FailedLoginsPolicy, at: u64)
    ensures items { block.new.items ≡ filter (λ e. not (is_expired policy at e.1)) block.old.items }
    ensures capacity { vec_capacity block.new ≡ vec_capacity block.old }
{
    block.retain(|record| !expires(policy, at, record.1));
}

// Says whether the age of the failures is above the limit.
fn expires(policy: FailedLoginsPolicy, at: u64, failures: Failures) -> bool
    ensures { result ≡ is_expired policy at failures }
{
    at.saturating_sub(failures.last) > policy.expires_after_ms
}

// One failure more.
fn more(policy: FailedLoginsPolicy, at: u64, failures: Failures) -> Failures
    ensures { result ≡ one_more policy at (Some failures) }
{
    if expires(policy, at, failures) {
        return Failures { count: 1, last: at };
    }
    Failures {
        count: failures.count.saturating_add(1),
        last: at,
    }
}

// What the count says of the lock.
fn lock(policy: FailedLoginsPolicy, count: u32) -> Option<LockState>
    ensures { result ≡ lock_state policy count }
{
    if count == policy.max_attempts {
        return Some(LockState::MaxFailuresReached);
    }
    if count > policy.max_attempts {
        return Some(LockState::AlreadyLocked);
    }
    None
}

// Says whether a key with these failures is locked.
fn locks(policy: FailedLoginsPolicy, at: u64, failures: Failures) -> bool
    ensures { result ≡ is_locked policy at (Some failures) }
{
    !expires(policy, at, failures) && failures.count >= policy.max_attempts
}
