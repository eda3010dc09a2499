//! Listeners: whom the notifications of sessions are handed to.

ghost use Rattle.std.specs.Prelude.{List, Option, None};
ghost use Rattle.ftp_base.specs.declared.notice.DataEvent.{DataEvent};
ghost use Rattle.ftp_base.specs.declared.notice.EventMeta.{EventMeta};
ghost use Rattle.ftp_base.specs.declared.notice.PresenceEvent.{PresenceEvent};
ghost use Rattle.ftp_base.specs.Listener.{Hears};

use crate::notice::{DataEvent, EventMeta, PresenceEvent};

/// Is told what is done with files and directories.
pub trait DataListener {
    // What it heard, the oldest first, where it tells that.
    ghost heard: { Self → Option (List (DataEvent × EventMeta)) };

    // # Proved
    //
    // - A listener that tells what it heard has heard one thing more with each call, and that last; a box hears what it
    //   holds hears (`hears`; also `PresenceListener::receive_presence_event`: `hears`).
    fn receive_data_event(&mut self, e: &DataEvent, m: &EventMeta)
        ensures hears { Hears (heard self.old) (heard self.new) e.now m.now };
}

/// Is told who logs in and out.
pub trait PresenceListener {
    // What it heard, the oldest first, where it tells that.
    ghost heard: { Self → Option (List (PresenceEvent × EventMeta)) };

    fn receive_presence_event(&mut self, e: &PresenceEvent, m: &EventMeta)
        ensures hears { Hears (heard self.old) (heard self.new) e.now m.now };
}

/// Takes note of nothing.
#[derive(Debug, Default, PartialEq, Eq, Drop)]
pub struct NopListener;

impl DataListener for NopListener {
    ghost heard = { λ _. None };

    fn receive_data_event(&mut self, _e: &DataEvent, _m: &EventMeta) {}
}

impl PresenceListener for NopListener {
    ghost heard = { λ _. None };

    fn receive_presence_event(&mut self, _e: &PresenceEvent, _m: &EventMeta) {}
}

impl DataListener for Box<dyn DataListener + Send + Drop> {
    ghost heard = { λ b. (DataListener-box b).heard b.value };

    fn receive_data_event(&mut self, e: &DataEvent, m: &EventMeta) {
        (**self).receive_data_event(e, m)
    }
}

impl PresenceListener for Box<dyn PresenceListener + Send + Drop> {
    ghost heard = { λ b. (PresenceListener-box b).heard b.value };

    fn receive_presence_event(&mut self, e: &PresenceEvent, m: &EventMeta) {
        (**self).receive_presence_event(e, m)
    }
}
