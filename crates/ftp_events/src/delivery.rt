//! Notifications are handed to listeners.

ghost use Rattle.std.specs.Prelude.{[], ◌∷◌, filter_map};
ghost use Rattle.ftp_events.specs.Delivery.{HearsAll, data_told, presence_told};

use crate::action::Action;
use crate::entry::Entry;
use ftp_base::{DataListener, Notice, PresenceListener};

/// Hands the entry's notifications to the listeners, in order.
///
/// # Proved
///
/// - Listeners hear exactly the notifications of an entry, in order: those of files the one, those of logins and goings
///   the other (`data_events`, `presence_events`).
pub fn deliver<D: DataListener, P: PresenceListener>(entry: &Entry, d: &mut D, p: &mut P)
    ensures data_events { HearsAll (D.heard d.old) (D.heard d.new) (filter_map data_told entry.now.actions) }
    ensures presence_events { HearsAll (P.heard p.old) (P.heard p.new) (filter_map presence_told entry.now.actions) }
{
    for action in entry.actions.as_slice() {
        tell(action, d, p);
    }
}

// Hands over the notification, where the action is one.
fn tell<D: DataListener, P: PresenceListener>(action: &Action, d: &mut D, p: &mut P)
    ensures data_events { HearsAll (D.heard d.old) (D.heard d.new) (filter_map data_told (action.now ∷ [])) }
    ensures presence_events { HearsAll (P.heard p.old) (P.heard p.new) (filter_map presence_told (action.now ∷ [])) }
{
    if let Action::Notify { meta, what, .. } = action {
        match what {
            Notice::Data(event) => d.receive_data_event(event, meta),
            Notice::Presence(event) => p.receive_presence_event(event, meta),
        }
    }
}
