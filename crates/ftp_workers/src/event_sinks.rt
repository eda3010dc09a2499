//! Who is told what happens.

ghost use Rattle.std.specs.Prelude.{Option, List, filter_map};
ghost use Rattle.ftp_base.specs.declared.notice.DataEvent.{DataEvent};
ghost use Rattle.ftp_base.specs.declared.notice.EventMeta.{EventMeta};
ghost use Rattle.ftp_base.specs.declared.notice.PresenceEvent.{PresenceEvent};
ghost use Rattle.ftp_events.specs.Delivery.{HearsAll, data_told, presence_told};

use ftp_base::{DataListener, PresenceListener};
use ftp_events::{Entry, deliver};

/// Both listeners of a server behind one value.
pub trait EventSinks {
    // What was heard of transfers, the oldest first, where that is told.
    ghost data_heard: { Self → Option (List (DataEvent × EventMeta)) };

    // What was heard of logins, the oldest first, where that is told.
    ghost presence_heard: { Self → Option (List (PresenceEvent × EventMeta)) };

    /// Is told the notifications of an entry, in order.
    ///
    /// # Proved
    ///
    /// - The notifications of an entry go to both listeners, in order (`data_events`, `presence_events`).
    fn hear(&mut self, entry: &Entry)
        ensures data_events { HearsAll (data_heard self.old) (data_heard self.new) (filter_map data_told entry.now.actions) }
        ensures presence_events { HearsAll (presence_heard self.old) (presence_heard self.new) (filter_map presence_told entry.now.actions) };
}

/// Two listeners.
#[derive(Drop)]
pub struct Listeners<D: DataListener + Drop, P: PresenceListener + Drop> {
    pub data: D,
    pub presence: P,
}

impl<D: DataListener + Drop, P: PresenceListener + Drop> EventSinks for Listeners<D, P> {
    ghost data_heard = { λ l. D.heard l.data };

    ghost presence_heard = { λ l. P.heard l.presence };

    fn hear(&mut self, entry: &Entry) {
        deliver(entry, &mut self.data, &mut self.presence);
    }
}
