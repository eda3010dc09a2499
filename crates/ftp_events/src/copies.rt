//! Copies of actions and entries, equal to what they are made from.

ghost use Rattle.std.specs.Prelude.{◌≡◌, IfOk};

use crate::action::{Action, Actions};
use crate::entry::Entry;
use std::alloc::{AllocError, Global};

impl Actions {
    /// Gives equal actions.
    pub fn copy(&self, alloc: Global) -> Result<Actions, AllocError>
        ensures { IfOk result (λ copy. copy ≡ self.now) }
    {
        Ok(Actions::from_vec(copy_all(alloc, self.as_slice())?))
    }
}

// Gives equal actions.
fn copy_all(alloc: Global, actions: &[Action]) -> Result<Vec<Action>, AllocError>
    ensures { IfOk result (λ copies. copies.items ≡ actions.now) }
{
    let mut copies = Vec::with_capacity(alloc, actions.len())?;
    for action in actions {
        copies.push(action.copy(alloc)?)?;
    }
    Ok(copies)
}

impl Entry {
    /// Gives an equal entry.
    pub fn copy(&self, alloc: Global) -> Result<Entry, AllocError>
        ensures { IfOk result (λ copy. copy ≡ self.now) }
    {
        Ok(Entry {
            event: self.event.copy(alloc)?,
            answer: self.answer,
            decision: self.decision,
            actions: self.actions.copy(alloc)?,
        })
    }
}
