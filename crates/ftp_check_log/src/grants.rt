//! The last grant of each port to a client, and what released it.

ghost use Rattle.std.specs.Prelude.{◌≡◌, ◌+◌, ◌-◌, ◌<◌, ◌≤◌, ◌&&◌, ◌||◌, ◌==◌, ℕ, false, not, length, slice_get, IsSome, IfOk, OnOk, MatchOption, if◌then◌else◌};
ghost use Rattle.std.specs.BTreeMap as tree;
ghost use Rattle.std.specs.Option.{option_map};
ghost use Rattle.std.specs.Ordering.{nat_cmp};
ghost use Rattle.ftp_events.specs.declared.entry.Entry.{Entry};
ghost use Rattle.ftp_events.specs.Board.{comes_to, ends_hold, gives_hold};
ghost use Rattle.ftp_events.specs.Log.{is_refusal, named_session};
ghost use Rattle.ftp_events.specs.Opening.{opened_number, opening_by, opener};
ghost use Rattle.ftp_events.specs.Words.{is_number};
ghost use Rattle.ftp_check_log.specs.Evidence.{past_at, holder_before, IsFreeSince};
ghost use Rattle.ftp_check_log.specs.Grants.{IsLastGrant};

use crate::reading::{client_in, opened_session};
use ftp_base::{IpAddr, SocketAddr};
use ftp_events::{Decision, Entry, ends_hold, target};
use ftp_options::Options;
use std::alloc::{AllocError, Global};
use std::collections::BTreeMap;

/// Which session a port was granted to, and by which entry.
#[derive(Clone, Copy)]
pub(crate) struct Grant {
    pub(crate) session: u64,
    pub(crate) place: u64,
}

// A port that is granted, and the session that it is granted to.
#[derive(Clone, Copy)]
struct Hold {
    session: u64,
    port: u16,
}

/// The last grant of each port to the client before place `k`.
pub(crate) fn last_grants(
    alloc: Global,
    options: &Options,
    entries: &[Entry],
    k: usize,
    client: IpAddr,
) -> Result<BTreeMap<u16, Grant>, AllocError>
    requires { k ≤ length entries.now }
    ensures { IfOk result (λ last. (p : ℕ) → IsLastGrant options.now entries.now k client p (tree.get nat_cmp last p)) }
{
    let mut clients = BTreeMap::new(alloc);
    let mut last = BTreeMap::new(alloc);
    for place in 0..k {
        take_grant(options, entries, place, client, &clients, &mut last)?;
        take_opening(&entries[place], &mut clients)?;
    }
    Ok(last)
}

// Takes in what the entry at a place grants to the client.
fn take_grant(
    options: &Options,
    entries: &[Entry],
    place: usize,
    client: IpAddr,
    clients: &BTreeMap<u64, IpAddr>,
    last: &mut BTreeMap<u16, Grant>,
) -> Result<(), AllocError>
    requires entry { place < length entries.now }
    requires known { (s : ℕ) → tree.get nat_cmp clients.now s ≡ option_map (λ x. x.client) (opener (past_at entries.now place) s) }
    requires before { (p : ℕ) → IsLastGrant options.now entries.now place client p (tree.get nat_cmp last.old p) }
    ensures { OnOk result ((p : ℕ) → IsLastGrant options.now entries.now (place + 1) client p (tree.get nat_cmp last.new p)) }
{
    match granted(options, entries, place, client, clients) {
        Some(hold) => put_grant(
            last,
            hold.port,
            Grant {
                session: hold.session,
                place: place as u64,
            },
        ),
        None => Ok(()),
    }
}

// Keeps the last grant of a port.
fn put_grant(last: &mut BTreeMap<u16, Grant>, port: u16, grant: Grant) -> Result<(), AllocError>
    ensures { OnOk result ((p : ℕ) → tree.get nat_cmp last.new p ≡ (if port == p then Some grant else tree.get nat_cmp last.old p)) }
{
    last.insert(port, grant)?;
    Ok(())
}

// The port that the entry at a place grants to a session of the client.
fn granted(
    options: &Options,
    entries: &[Entry],
    place: usize,
    client: IpAddr,
    clients: &BTreeMap<u64, IpAddr>,
) -> Option<Hold>
    requires entry { place < length entries.now }
    requires known { (s : ℕ) → tree.get nat_cmp clients.now s ≡ option_map (λ x. x.client) (opener (past_at entries.now place) s) }
    ensures { (e : Entry) → slice_get entries.now place ≡ Some e →
        MatchOption result
        ((p : ℕ) → gives_hold options.now (past_at entries.now place) e client p ≡ false)
        (λ x. (named_session e.event.kind ≡ Some x.session) × (is_refusal e.decision ≡ false) ×
        ((p : ℕ) → gives_hold options.now (past_at entries.now place) e client p ≡ (x.port == p))) }
{
    let entry = &entries[place];
    let Decision::Granted { port } = entry.decision else {
        return None;
    };
    if options.mode.is_legacy() {
        return None;
    }
    let session = entry.event.kind.named_session()?;
    match clients.get(&session) {
        Some(of) if of.is_same(client) => Some(Hold { session, port }),
        _ => None,
    }
}

// Takes in the client of the session that the entry opens.
fn take_opening(entry: &Entry, clients: &mut BTreeMap<u64, IpAddr>) -> Result<(), AllocError>
    ensures { OnOk result ((s : ℕ) → tree.get nat_cmp clients.new s ≡
        (if is_number (opened_number entry.now.event.kind entry.now.decision) s
        then option_map (λ x. x.client) (opening_by entry.now.event.kind entry.now.answer)
        else tree.get nat_cmp clients.old s)) }
{
    let Some(session) = opened_session(entry) else {
        return Ok(());
    };
    match client_in(&entry.event.kind, entry.answer) {
        Some(client) => {
            clients.insert(session, client)?;
        }
        None => {
            clients.remove(&session);
        }
    }
    Ok(())
}

/// The first entry after the last grant of a port that released it.
pub(crate) fn first_release(
    options: &Options,
    entries: &[Entry],
    k: usize,
    grant: Grant,
    to: SocketAddr,
) -> Option<u64>
    requires entry { k ≤ length entries.now }
    requires last { IsLastGrant options.now entries.now k to.ip to.port (Some grant) }
    ensures { MatchOption result (holder_before options.now entries.now k to.ip to.port ≡ Some grant.session)
        (λ r. (holder_before options.now entries.now k to.ip to.port ≡ None) × IsFreeSince options.now entries.now k to.ip to.port (Some r)) }
{
    for place in grant.place as usize + 1..k {
        if ends(options, &entries[place], grant.session, to) {
            return Some(place as u64);
        }
    }
    None
}

// Says whether the entry ends the hold that the session has of the port.
fn ends(options: &Options, entry: &Entry, session: u64, to: SocketAddr) -> bool
    ensures { result ≡ (not (is_refusal entry.now.decision) && (comes_to options.now entry.now to.ip to.port || ends_hold entry.now session)) }
{
    if entry.decision.is_refusal() {
        return false;
    }
    match target(options, &entry.event.kind, entry.answer) {
        Some(at) if at.ip.is_same(to.ip) && at.port == to.port => true,
        _ => ends_hold(entry, session),
    }
}

/// The places of the last grants of the range's ports, in order of ports.
pub(crate) fn places_of(
    alloc: Global,
    options: &Options,
    last: &BTreeMap<u16, Grant>,
) -> Result<Vec<u64>, AllocError>
    requires { (p : ℕ) → options.now.lo ≤ p → p ≤ options.now.hi → IsSome (tree.get nat_cmp last.now p) }
    ensures length { IfOk result (λ places. length places.items ≡ (options.now.hi - options.now.lo) + 1) }
    ensures places { IfOk result (λ places. (i : ℕ) → i < length places.items →
        option_map (λ x. x.place) (tree.get nat_cmp last.now (options.now.lo + i)) ≡ slice_get places.items i) }
{
    let mut places = Vec::new(alloc);
    let count = u32::from(options.hi - options.lo) + 1;
    for i in 0..count {
        let port = options.lo + i as u16;
        match last.get(&port) {
            Some(grant) => places.push(grant.place)?,
            None => unreachable!(),
        }
    }
    Ok(places)
}
