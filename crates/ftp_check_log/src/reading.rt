//! What an entry, or the entries before a place, tell of sessions and ports.

ghost use Rattle.std.specs.Prelude.{◌≡◌, reverse};
ghost use Rattle.std.specs.Option.{option_and_then, option_map};
ghost use Rattle.ftp_events.specs.Log.{is_stopped, past_of};
ghost use Rattle.ftp_events.specs.Opening.{opened_number, opening_by, opener};

use ftp_base::IpAddr;
use ftp_events::{Answer, Decision, Entry, EventKind};

/// Says whether every session was ended by these entries.
pub(crate) fn is_stopped(before: &[Entry]) -> bool
    ensures { result ≡ is_stopped (past_of (reverse before.now)) }
{
    let mut stopped = false;
    for entry in before {
        stopped = entry.decision.is_stop() || stopped;
    }
    stopped
}

/// The client of a session, if it was opened by these entries.
pub(crate) fn client_before(before: &[Entry], session: Option<u64>) -> Option<IpAddr>
    ensures { result ≡ option_map (λ x. x.client) (option_and_then (opener (past_of (reverse before.now))) session) }
{
    match session {
        Some(session) => client_of(before, session),
        None => None,
    }
}

// The client of a session, if it was opened by these entries.
fn client_of(before: &[Entry], session: u64) -> Option<IpAddr>
    ensures { result ≡ option_map (λ x. x.client) (opener (past_of (reverse before.now)) session) }
{
    let mut client = None;
    for entry in before {
        if opened_session(entry) == Some(session) {
            client = client_in(&entry.event.kind, entry.answer);
        }
    }
    client
}

/// The session that the entry opens.
pub(crate) fn opened_session(entry: &Entry) -> Option<u64>
    ensures { result ≡ opened_number entry.now.event.kind entry.now.decision }
{
    match entry.decision {
        Decision::Opened => entry.event.kind.new_number(Decision::Opened),
        _ => None,
    }
}

/// The client of a session that opens with this event.
pub(crate) fn client_in(kind: &EventKind, answer: Answer) -> Option<IpAddr>
    ensures { result ≡ option_map (λ x. x.client) (opening_by kind.now answer) }
{
    match (kind, answer) {
        (EventKind::Connect { raw, .. }, _) => Some(raw.ip),
        (EventKind::Proxied { .. }, Answer::Header(Ok(line))) => Some(line.source.ip),
        _ => None,
    }
}
