//! Why an entry was decided as it was: the earlier entries that granted its port, or released it.

ghost use Rattle.std.specs.Prelude.{◌≡◌, ◌<◌, ◌++◌, length, reverse, slice_get, IfOk, IfSome, OnOk, if◌then◌else◌};
ghost use Rattle.std.specs.List.{flat_map};
ghost use Rattle.std.specs.Option.{option_map_or};
ghost use Rattle.ftp_events.specs.declared.entry.Entry.{Entry};
ghost use Rattle.ftp_events.specs.Board.{Target, target};
ghost use Rattle.ftp_events.specs.Log.{is_stopped};
ghost use Rattle.ftp_events.specs.Right.{IsRight};
ghost use Rattle.ftp_text.specs.Fields.{number};
ghost use Rattle.ftp_check_log.specs.Evidence.{IsEvidence, IsOnlyEvidence, TellsOf, NoPort, RangeOf, past_at, port_matter, named_client, evidence_text};
ghost use Rattle.ftp_check_log.specs.Grants.{AreHeld, IsLastGrant};

use crate::grants::{Grant, first_release, last_grants, places_of};
use crate::reading::{client_before, is_stopped};
use ftp_base::{IpAddr, SocketAddr};
use ftp_events::{Decision, Entry, Log, target};
use ftp_options::Options;
use ftp_text::writing::{put, put_number, put_optional_number};
use std::alloc::{AllocError, Global};
use thiserror::Error;

/// What the entries before an entry have for its decision. Their places count from 0, with the oldest entry first.
#[derive(Debug, PartialEq, Eq, Drop)]
pub enum Evidence {
    /// The entry that granted the port to its holder.
    HeldBy(u64),
    /// The entry that released the port last; None if it was never granted.
    FreeSince(Option<u64>),
    /// The entries that granted the ports of the range, in order of ports.
    FullBy(Vec<u64>),
    /// Nothing: the decision rests on no port.
    Plain,
}

/// Why there is no evidence.
#[derive(Clone, Copy, Debug, PartialEq, Eq, Error)]
pub enum WhyError {
    #[error("out of memory")]
    OutOfMemory,
}

impl From<AllocError> for WhyError {
    ghost use Rattle.std.specs.Prelude.{◌≡◌};
    ghost use Rattle.ftp_check_log.specs.declared.evidence.WhyError.TheVariants.{OutOfMemory};

    ghost from_gives = { λ _ e. e ≡ OutOfMemory };

    fn from(_error: AllocError) -> WhyError {
        WhyError::OutOfMemory
    }
}

/// Why the entry at place `k` was decided as it was, counted from 0 with the oldest entry first.
///
/// Goes over the entries before it at most three times, with look-ups that take the logarithm of how many sessions were
/// opened and how many ports were granted, and memory for these.
///
/// # Proved
///
/// - In a right log the evidence is the entry that granted the port, where none has released it since; or the entry that
///   released it, where none has granted it since; or, if the range is full, the entry that granted each port
///   (`evidence`).
/// - Every evidence for an entry names the same places (`only`).
pub fn why(alloc: Global, options: &Options, log: &Log, k: u64) -> Result<Evidence, WhyError>
    requires right { IsRight options.now log.now.entries }
    requires entry { k < length log.now.entries }
    ensures evidence { IfOk result (IsEvidence options.now (reverse log.now.entries) k) }
    ensures only { IfOk result (IsOnlyEvidence options.now (reverse log.now.entries) k) }
{
    let asked = Asked {
        alloc,
        options,
        entries: log.as_slice(),
        k: k as usize,
    };
    Ok(asked.evidence()?)
}

// An entry of a log by its place, with what came before it.
#[derive(Clone, Copy)]
struct Asked<'a> {
    alloc: Global,
    options: &'a Options,
    entries: &'a [Entry],
    k: usize,
    ghost below: { k < length entries.now },
}

impl Asked<'_> {
    // The evidence for an entry of a right log.
    fn evidence(&self) -> Result<Evidence, AllocError>
        requires { IsRight self.now.options.now (reverse self.now.entries.now) }
        ensures { IfOk result (IsEvidence self.now.options.now self.now.entries.now self.now.k) }
    {
        let entry = &self.entries[self.k];
        match entry.decision {
            Decision::Attached { .. } => self.of_connection(),
            Decision::Turned => self.of_turned(),
            Decision::Full => self.of_full(),
            _ => Ok(Evidence::Plain),
        }
    }

    // Of a data connection that is turned away: after a stop it rests on no port.
    fn of_turned(&self) -> Result<Evidence, AllocError>
        ensures { (e : Entry) → slice_get self.now.entries.now self.now.k ≡ Some e →
            IfOk result (TellsOf self.now.options.now self.now.entries.now self.now.k (if is_stopped (past_at self.now.entries.now self.now.k) then NoPort else
            option_map_or (port_matter self.now.options.now self.now.entries.now self.now.k) (target self.now.options.now e.event.kind e.answer) NoPort)) }
    {
        if is_stopped(&self.entries[..self.k]) {
            return Ok(Evidence::Plain);
        }
        self.of_connection()
    }

    // Of the port that a data connection came to: its hold, or since when it is free.
    fn of_connection(&self) -> Result<Evidence, AllocError>
        ensures { (e : Entry) → slice_get self.now.entries.now self.now.k ≡ Some e →
            IfOk result (TellsOf self.now.options.now self.now.entries.now self.now.k
            (option_map_or (port_matter self.now.options.now self.now.entries.now self.now.k) (target self.now.options.now e.event.kind e.answer) NoPort)) }
    {
        let entry = &self.entries[self.k];
        match target(self.options, &entry.event.kind, entry.answer) {
            Some(to) => self.of_port(to),
            None => Ok(Evidence::Plain),
        }
    }

    // Of a port of a client: its hold, or since when it is free.
    fn of_port(&self, to: SocketAddr) -> Result<Evidence, AllocError>
        ensures { let t : Target = record { client = to.ip; port = to.port } in
            IfOk result (TellsOf self.now.options.now self.now.entries.now self.now.k (port_matter self.now.options.now self.now.entries.now self.now.k t)) }
    {
        let last = last_grants(self.alloc, self.options, self.entries, self.k, to.ip)?;
        match last.get(&to.port) {
            Some(grant) => Ok(self.of_grant(*grant, to)),
            None => Ok(Evidence::FreeSince(None)),
        }
    }

    // Of a port of a client by its last grant: its hold, or since when it is free.
    fn of_grant(&self, grant: Grant, to: SocketAddr) -> Evidence
        requires { IsLastGrant self.now.options.now self.now.entries.now self.now.k to.ip to.port (Some grant) }
        ensures { let t : Target = record { client = to.ip; port = to.port } in
            TellsOf self.now.options.now self.now.entries.now self.now.k (port_matter self.now.options.now self.now.entries.now self.now.k t) result }
    {
        match first_release(self.options, self.entries, self.k, grant, to) {
            Some(place) => Evidence::FreeSince(Some(place)),
            None => Evidence::HeldBy(grant.place),
        }
    }

    // Of the range, where each of its ports is held for the client of the session that the entry names.
    fn of_full(&self) -> Result<Evidence, AllocError>
        requires { (e : Entry) → slice_get self.now.entries.now self.now.k ≡ Some e →
            IfSome (named_client (past_at self.now.entries.now self.now.k) e.event.kind) (λ a. AreHeld self.now.options.now self.now.entries.now self.now.k a) }
        ensures { (e : Entry) → slice_get self.now.entries.now self.now.k ≡ Some e →
            IfOk result (TellsOf self.now.options.now self.now.entries.now self.now.k (option_map_or (λ a. RangeOf a) (named_client (past_at self.now.entries.now self.now.k) e.event.kind) NoPort)) }
    {
        let entry = &self.entries[self.k];
        match client_before(&self.entries[..self.k], entry.event.kind.named_session()) {
            Some(client) => self.of_range(client),
            None => Ok(Evidence::Plain),
        }
    }

    // Of the range, where each of its ports is held for the client.
    fn of_range(&self, client: IpAddr) -> Result<Evidence, AllocError>
        requires { AreHeld self.now.options.now self.now.entries.now self.now.k client }
        ensures { IfOk result (TellsOf self.now.options.now self.now.entries.now self.now.k (RangeOf client)) }
    {
        let last = last_grants(self.alloc, self.options, self.entries, self.k, client)?;
        Ok(Evidence::FullBy(places_of(self.alloc, self.options, &last)?))
    }
}

/// Writes the evidence, without a line feed behind it.
///
/// # Proved
///
/// - Evidence is written as it is spelled.
pub fn put_evidence(out: &mut Vec<u8>, evidence: &Evidence) -> Result<(), AllocError>
    ensures { OnOk result (out.new.items ≡ out.old.items ++ evidence_text evidence.now) }
{
    match evidence {
        Evidence::HeldBy(place) => {
            put(out, b"held")?;
            put_number(out, *place)
        }
        Evidence::FreeSince(place) => {
            put(out, b"free")?;
            put_optional_number(out, *place)
        }
        Evidence::FullBy(places) => {
            put(out, b"full")?;
            put_places(out, places)
        }
        Evidence::Plain => put(out, b"plain"),
    }
}

// Writes places, with a space before each.
fn put_places(out: &mut Vec<u8>, places: &[u64]) -> Result<(), AllocError>
    ensures { OnOk result (out.new.items ≡ out.old.items ++ flat_map number places.now) }
{
    for place in places {
        put_number(out, *place)?;
    }
    Ok(())
}
