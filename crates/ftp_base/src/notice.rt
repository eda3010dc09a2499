//! What listeners are told.

ghost use Rattle.std.specs.Prelude.{◌≡◌, IfOk};

use crate::bytes::Bytes;
use crate::trace::TraceId;
use std::alloc::{AllocError, Global};

#[derive(Clone, Copy, Debug, PartialEq, Eq)]
pub enum PresenceEvent {
    LoggedIn,
    LoggedOut,
}

/// What was done with a file or a directory; the path is that in the storage.
#[derive(Clone, Debug, PartialEq, Eq, Drop)]
pub enum DataEvent {
    /// A client has got so many bytes of the file.
    Got { path: Bytes, bytes: u64 },
    /// A client has put so many bytes into the file.
    Put { path: Bytes, bytes: u64 },
    Deleted { path: Bytes },
    MadeDir { path: Bytes },
    RemovedDir { path: Bytes },
    Renamed { from: Bytes, to: Bytes },
}

/// Whom a notification is about, and its place among those of the session, counted from 1.
#[derive(Clone, Debug, PartialEq, Eq, Drop)]
pub struct EventMeta {
    pub username: Bytes,
    pub trace_id: TraceId,
    pub sequence_number: u64,
}

#[derive(Clone, Debug, PartialEq, Eq, Drop)]
pub enum Notice {
    Presence(PresenceEvent),
    Data(DataEvent),
}

impl DataEvent {
    /// Gives an equal event.
    pub fn copy(&self, _alloc: Global) -> Result<DataEvent, AllocError>
        ensures { IfOk result (λ copy. copy ≡ self.now) }
    {
        self.clone()
    }
}

impl EventMeta {
    /// Gives an equal value.
    pub fn copy(&self, _alloc: Global) -> Result<EventMeta, AllocError>
        ensures { IfOk result (λ copy. copy ≡ self.now) }
    {
        self.clone()
    }
}

impl Notice {
    /// Gives an equal notification.
    pub fn copy(&self, _alloc: Global) -> Result<Notice, AllocError>
        ensures { IfOk result (λ copy. copy ≡ self.now) }
    {
        self.clone()
    }
}
