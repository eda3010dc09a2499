//! The numbers that entries carry as new.

ghost use Rattle.std.specs.Prelude.{◌≡◌, None, if◌then◌else◌};
ghost use Rattle.ftp_events.specs.Log.{is_refusal, new_number};
ghost use Rattle.ftp_shared.specs.Desk.{larger};

use ftp_events::Entry;

/// The number that an entry carries as new, unless it was refused.
pub(crate) fn counted_number(entry: &Entry) -> Option<u64>
    ensures { result ≡ (if is_refusal entry.now.decision then None else new_number entry.now.event.kind entry.now.decision) }
{
    if entry.decision.is_refusal() {
        return None;
    }
    entry.event.kind.new_number(entry.decision)
}

/// The larger of two numbers, of which either may be missing.
pub(crate) fn larger(a: Option<u64>, b: Option<u64>) -> Option<u64>
    ensures { result ≡ larger a b }
{
    match a {
        None => b,
        Some(m) => match b {
            None => Some(m),
            Some(n) => Some(m.max(n)),
        },
    }
}
