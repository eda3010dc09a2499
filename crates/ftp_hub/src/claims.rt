//! The ports that are held by those who wait for them, put back into a board.

ghost use Rattle.std.specs.Prelude.{◌≡◌, ℕ, ◌≤◌, ◌↔◌, ◌⊎◌, IfErr, IfOk, IsSome, OnOk, None, Some, false, true, nat_eq};
ghost use Rattle.std.specs.List.{list_any};
ghost use Rattle.std.specs.Option.{option_and_then};
ghost use Rattle.std.specs.HashMap as map;
ghost use Rattle.ftp_base.specs.declared.net.IpAddr.TheVariants.{V4};
ghost use Rattle.ftp_options.specs.Modes.{is_legacy};
ghost use Rattle.ftp_switchboard.specs.Board.{SameRange, holder_at};
ghost use Rattle.ftp_events.specs.declared.session.Slot.TheVariants.{Waits};
ghost use Rattle.ftp_events.specs.declared.session.Session.{Session};
ghost use Rattle.ftp_laws.specs.Census.{IsAscending, has as is_listed};
ghost use Rattle.ftp_hub.specs.declared.state.StateError.TheVariants.{OutOfMemory, Port};
ghost use Rattle.ftp_hub.specs.Refused.{FindsHolder, WaitTwice, has_port, has_v6_rival, v6_wait, waits_so};
ghost use Rattle.ftp_hub.specs.State.{WaitsAt};

use crate::hub::Hub;
use crate::state::StateError;
use crate::tables::sorted_keys;
use ftp_base::IpAddr;
use ftp_events::{Session, Slot};
use ftp_options::Options;
use ftp_switchboard::{Switchboard, SwitchboardKey};
use std::alloc::Global;
use std::collections::HashMap;

/// A board of the passive ports on which nobody holds one.
pub(crate) fn free_board(alloc: Global, options: &Options) -> Switchboard
    ensures range { is_legacy options.now.mode ≡ false → (result.lo ≡ options.now.lo) × (result.hi ≡ options.now.hi) }
    ensures free { (a p : ℕ) → holder_at result a p ≡ None }
{
    Switchboard::new(alloc, options.lo.max(1), options.hi.max(1))
}

// Gives the port to the session, where nobody holds it.
fn claim_key(board: &mut Switchboard, key: SwitchboardKey, session: u64) -> Result<(), StateError>
    requires in_range { (board.old.lo ≤ key.port) × (key.port ≤ board.old.hi) }
    ensures claimed { OnOk result (holder_at board.new key.source key.port ≡ Some session) }
    ensures held { OnOk result ((a p s : ℕ) → holder_at board.new a p ≡ Some s → (holder_at board.old a p ≡ Some s) ⊎ ((s ≡ session) × (a ≡ key.source) × (p ≡ key.port))) }
    ensures kept { OnOk result ((a p s : ℕ) → holder_at board.old a p ≡ Some s → holder_at board.new a p ≡ Some s) }
    ensures refused { IfErr result (λ e. (e ≡ OutOfMemory) ⊎ ((e ≡ Port) × IsSome (holder_at board.old key.source key.port))) }
    ensures range { SameRange board.old board.new }
{
    board.reserve_room(key.source)?;
    match board.try_and_claim(key, session) {
        Ok(()) => Ok(()),
        Err(_) => Err(StateError::Port),
    }
}

// Gives the session the port that it waits for, where it waits for one.
fn claim_one(board: &mut Switchboard, number: u64, session: &Session) -> Result<(), StateError>
    requires in_range { (p : ℕ) → session.now.slot ≡ Waits p → (board.old.lo ≤ p) × (p ≤ board.old.hi) }
    ensures claimed { OnOk result ((a p : ℕ) → session.now.opening.client ≡ V4 a → session.now.slot ≡ Waits p → holder_at board.new a p ≡ Some number) }
    ensures held { OnOk result ((a p s : ℕ) → holder_at board.new a p ≡ Some s → (holder_at board.old a p ≡ Some s) ⊎ ((s ≡ number) × (session.now.opening.client ≡ V4 a) × (session.now.slot ≡ Waits p))) }
    ensures kept { OnOk result ((a p s : ℕ) → holder_at board.old a p ≡ Some s → holder_at board.new a p ≡ Some s) }
    ensures refused { IfErr result (λ e. (e ≡ OutOfMemory) ⊎ ((e ≡ Port) × FindsHolder board.old session.now)) }
    ensures range { SameRange board.old board.new }
{
    let Slot::Waits { port } = session.slot else {
        return Ok(());
    };
    let IpAddr::V4(source) = session.opening.client else {
        return Ok(());
    };
    claim_key(board, SwitchboardKey { source, port }, number)?;
    Ok(())
}

// Gives each of these sessions the port that it waits for.
fn claim_all(
    board: &mut Switchboard,
    sessions: &HashMap<u64, Session>,
    numbers: Vec<u64>,
) -> Result<(), StateError>
    requires in_range { (s : ℕ) (v : Session) (p : ℕ) → map.get nat_eq sessions.now s ≡ Some v → v.slot ≡ Waits p → (board.old.lo ≤ p) × (p ≤ board.old.hi) }
    requires free { (a p : ℕ) → holder_at board.old a p ≡ None }
    requires in_order { IsAscending numbers.items }
    ensures claimed { OnOk result ((a p s : ℕ) → is_listed numbers.items s ≡ true → WaitsAt (map.get nat_eq sessions.now s) a p → holder_at board.new a p ≡ Some s) }
    ensures held { OnOk result ((a p s : ℕ) → holder_at board.new a p ≡ Some s → WaitsAt (map.get nat_eq sessions.now s) a p) }
    ensures refused { IfErr result (λ e. (e ≡ OutOfMemory) ⊎ ((e ≡ Port) × WaitTwice (map.get nat_eq sessions.now))) }
    ensures range { SameRange board.old board.new }
{
    let mut numbers = numbers;
    while let Some(number) = numbers.pop() {
        if let Some(session) = sessions.get(&number) {
            claim_one(board, number, session)?;
        }
    }
    Ok(())
}

// The port that a client of version 6 waits for, with its address.
fn v6_wait(session: &Session) -> Option<(u128, u16)>
    ensures { result ≡ v6_wait session.now }
{
    match (session.opening.client, session.slot) {
        (IpAddr::V6(client), Slot::Waits { port }) => Some((client, port)),
        _ => None,
    }
}

impl Hub {
    // That of the session of a number.
    fn v6_wait_of(&self, number: u64) -> Option<(u128, u16)>
        ensures { result ≡ option_and_then v6_wait (map.get nat_eq self.now.sessions number) }
    {
        match self.sessions.get(&number) {
            Some(session) => v6_wait(session),
            None => None,
        }
    }

    // Says whether another session than this waits so.
    fn waits_so(&self, number: u64, wait: (u128, u16), other: u64) -> bool
        ensures { result ≡ waits_so (map.get nat_eq self.now.sessions) number wait other }
    {
        match self.v6_wait_of(other) {
            Some((client, port)) => other != number && client == wait.0 && port == wait.1,
            None => false,
        }
    }

    // Says whether one of these sessions does.
    fn some_waits_so(&self, number: u64, wait: (u128, u16), live: &[u64]) -> bool
        ensures { result ≡ list_any (waits_so (map.get nat_eq self.now.sessions) number wait) live.now }
    {
        live.iter().any(|other| self.waits_so(number, wait, *other))
    }

    // Says whether one of these sessions waits as the session of this number does, for a client of version 6.
    fn has_v6_rival(&self, number: u64, live: &[u64]) -> bool
        ensures { result ≡ has_v6_rival (map.get nat_eq self.now.sessions) live.now number }
    {
        match self.v6_wait_of(number) {
            Some(wait) => self.some_waits_so(number, wait, live),
            None => false,
        }
    }

    // Says whether two of these sessions wait for one port, for one client of version 6.
    fn have_v6_rivals(&self, live: &[u64]) -> bool
        ensures { result ≡ list_any (has_v6_rival (map.get nat_eq self.now.sessions) live.now) live.now }
    {
        live.iter().any(|number| self.has_v6_rival(*number, live))
    }

    // A board on which each session holds the port that it waits for, where the sessions share the ports.
    pub(crate) fn claimed_ports(&self) -> Result<Switchboard, StateError>
        requires in_range { (s : ℕ) (v : Session) → map.get nat_eq self.now.sessions s ≡ Some v → has_port self.now.options v ≡ true }
        ensures held { IfOk result (λ board. is_legacy self.now.options.mode ≡ false → (a p s : ℕ) → (holder_at board a p ≡ Some s) ↔ WaitsAt (map.get nat_eq self.now.sessions s) a p) }
        ensures nobody { IfOk result (λ board. is_legacy self.now.options.mode ≡ true → (a p : ℕ) → holder_at board a p ≡ None) }
        ensures once { OnOk result (is_legacy self.now.options.mode ≡ false → WaitTwice (map.get nat_eq self.now.sessions) → ⊥) }
        ensures refused { IfErr result (λ e. (e ≡ OutOfMemory) ⊎ ((e ≡ Port) × (is_legacy self.now.options.mode ≡ false) × WaitTwice (map.get nat_eq self.now.sessions))) }
        ensures range { IfOk result (λ board. is_legacy self.now.options.mode ≡ false → (board.lo ≡ self.now.options.lo) × (board.hi ≡ self.now.options.hi)) }
    {
        let mut board = free_board(self.alloc, &self.options);
        if self.options.mode.is_legacy() {
            return Ok(board);
        }
        let live = sorted_keys(self.alloc, &self.sessions)?;
        if self.have_v6_rivals(&live) {
            return Err(StateError::Port);
        }
        claim_all(&mut board, &self.sessions, live)?;
        Ok(board)
    }
}
