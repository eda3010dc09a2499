//! Which connections an entry closes.

ghost use Rattle.std.specs.Prelude.{◌≡◌, ℕ, None, nat_eq, if◌then◌else◌};
ghost use Rattle.std.specs.List.{list_any};
ghost use Rattle.indexmap.specs.IndexMap.{get};
ghost use Rattle.ftp_workers.specs.Carried.{closes, is_close, is_closed, not_taken, takes};

use crate::handoff::PendingConnection;
use ftp_events::{Action, Decision, Entry};
use indexmap::IndexMap;

// Says whether the action closes a connection.
fn is_close(action: &Action) -> bool
    ensures { result ≡ is_close action.now }
{
    matches!(action, Action::Close { .. })
}

/// Says whether an action closes a connection.
pub(crate) fn closes_any(actions: &[Action]) -> bool
    ensures { result ≡ list_any is_close actions.now }
{
    actions.iter().any(|action| is_close(action))
}

/// Closes the links that the actions close, and no others.
pub(crate) fn close_all(links: &mut IndexMap<u64, PendingConnection>, actions: &[Action])
    ensures { (n : ℕ) → get nat_eq links.new n ≡ (if is_closed actions.now n then None else get nat_eq links.old n) }
{
    for action in actions {
        close(links, action);
    }
}

// Closes the link that the action closes.
fn close(links: &mut IndexMap<u64, PendingConnection>, action: &Action)
    ensures links { (n : ℕ) → get nat_eq links.new n ≡ (if closes n action.now then None else get nat_eq links.old n) }
{
    if let Action::Close { number } = action {
        drop(links.swap_remove(number));
    }
}

// Says whether a session takes the connection that comes with the event.
fn takes(decision: Decision) -> bool
    ensures { result ≡ takes decision }
{
    matches!(
        decision,
        Decision::Opened | Decision::Attached { .. } | Decision::PortOk
    )
}

/// The connection that came with the event and was not taken.
pub(crate) fn not_taken(entry: &Entry) -> Option<u64>
    ensures { result ≡ not_taken entry.now }
{
    if takes(entry.decision) {
        return None;
    }
    entry.event.kind.link_number()
}
