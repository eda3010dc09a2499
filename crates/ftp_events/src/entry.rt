//! An entry of the log.

ghost use Rattle.std.specs.Prelude.{◌≡◌, ◌↔◌, IsTrue};

use crate::action::Actions;
use crate::decision::Decision;
use crate::event::{Answer, HubEvent};

/// An event with what was answered, decided and done.
#[derive(PartialEq, Eq, Drop)]
pub struct Entry {
    pub event: HubEvent,
    pub answer: Answer,
    pub decision: Decision,
    pub actions: Actions,
}

impl Entry {
    /// Says whether the entries are equal: `==`, with what it means.
    ///
    /// # Proved
    ///
    /// - `Entry::is_same` is true exactly where its two entries are equal; copies of entries and actions are equal to
    ///   them (also `Entry::copy`, `Actions::copy`, `Action::copy`).
    pub fn is_same(&self, other: &Entry) -> bool
        ensures { IsTrue result ↔ self.now ≡ other.now }
    {
        self == other
    }
}
