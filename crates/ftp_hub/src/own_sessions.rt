//! The sessions of one client, as the entries of a log open them.

ghost use Rattle.std.specs.Prelude.{◌≡◌, ◌∷◌, ◌||◌, [], List, OnOk};
ghost use Rattle.ftp_events.specs.declared.entry.Entry.{Entry};
ghost use Rattle.ftp_events.specs.declared.decision.Decision.TheVariants.{Opened};
ghost use Rattle.ftp_events.specs.Isolation.{is_common, is_own};
ghost use Rattle.ftp_events.specs.Opening.{opened_number};
ghost use Rattle.ftp_hub.specs.OwnSessions.{Knows, opens_for};

use ftp_base::IpAddr;
use ftp_events::{Answer, Decision, Entry, EventKind};
use std::alloc::{AllocError, Global};
use std::collections::HashSet;

/// The numbers of the sessions that were opened for a client.
#[derive(Drop)]
pub(crate) struct OwnSessions {
    client: IpAddr,
    numbers: HashSet<u64>,
}

impl OwnSessions {
    /// No session of the client.
    pub(crate) fn new(alloc: Global, client: IpAddr) -> OwnSessions
        ensures client { result.client ≡ client }
        ensures knows { Knows result [] }
    {
        OwnSessions {
            client,
            numbers: HashSet::new(alloc),
        }
    }

    /// Says whether the entry is kept for the client: its own, or one that concerns every client.
    pub(crate) fn keeps(&self, e: &Entry) -> bool
        ensures { (log : List Entry) → Knows self.now log →
            result ≡ (is_common e.now.event.kind || is_own log e.now self.now.client) }
    {
        is_common(&e.event.kind) || self.is_own(e)
    }

    /// Takes note of the session that the entry opens, for whomever.
    pub(crate) fn note(&mut self, e: &Entry) -> Result<(), AllocError>
        ensures client { self.new.client ≡ self.old.client }
        ensures knows { OnOk result ((log : List Entry) → Knows self.old log → Knows self.new (e.now ∷ log)) }
    {
        let Some(number) = opened_number(e) else {
            return Ok(());
        };
        if opens_for(e, self.client) {
            self.numbers.insert(number)?;
        } else {
            self.numbers.remove(&number);
        }
        Ok(())
    }

    // Says whether the entry belongs to the client.
    fn is_own(&self, e: &Entry) -> bool
        ensures { (log : List Entry) → Knows self.now log → result ≡ is_own log e.now self.now.client }
    {
        match &e.event.kind {
            EventKind::Connect { .. } | EventKind::Proxied { .. } => opens_for(e, self.client),
            EventKind::DataIn { raw, .. } => raw.ip.is_same(self.client),
            kind => match kind.named_session() {
                Some(number) => self.numbers.contains(&number),
                None => false,
            },
        }
    }
}

// Says whether the event concerns every client.
fn is_common(kind: &EventKind) -> bool
    ensures { result ≡ is_common kind.now }
{
    matches!(
        kind,
        EventKind::Sweep | EventKind::Scavenge | EventKind::Shutdown
    )
}

// The number of the session that the entry opened.
fn opened_number(e: &Entry) -> Option<u64>
    ensures { result ≡ opened_number e.now.event.kind e.now.decision }
{
    match e.decision {
        Decision::Opened => carried_number(&e.event.kind),
        _ => None,
    }
}

// The number that an opened connection carries.
fn carried_number(kind: &EventKind) -> Option<u64>
    ensures { result ≡ opened_number kind.now Opened }
{
    match kind {
        EventKind::Connect { session, .. } => Some(*session),
        EventKind::Proxied { number, .. }
        | EventKind::DataIn { number, .. }
        | EventKind::Accepted { number, .. } => Some(*number),
        _ => None,
    }
}

// Says whether the entry tells of a new control connection of the client.
fn opens_for(e: &Entry, client: IpAddr) -> bool
    ensures { result ≡ opens_for e.now client }
{
    match (&e.event.kind, e.answer) {
        (EventKind::Connect { raw, .. }, _) => raw.ip.is_same(client),
        (EventKind::Proxied { .. }, Answer::Header(Ok(line))) => line.source.ip.is_same(client),
        _ => false,
    }
}
