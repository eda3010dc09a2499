//! What the server does because of an event.

ghost use Rattle.std.specs.Prelude.{◌≡◌, IfOk};

use ftp_base::{EventMeta, Notice, Reply};
use ftp_transfer::Ticket;
use std::alloc::{AllocError, Global};
use std::marker::Model;

#[derive(Clone, PartialEq, Eq, Drop)]
pub enum Action {
    /// The transfer has ended; the session is told of it where it is live.
    Completed {
        ticket: Ticket,
        delivered: bool,
    },
    /// The transfer is dropped before it ran.
    Cancelled {
        ticket: Ticket,
    },
    /// A connection is closed.
    Close {
        number: u64,
    },
    /// Listeners are told.
    Notify {
        session: u64,
        meta: EventMeta,
        what: Notice,
    },
    /// A reply is sent after a delay in milliseconds.
    Reply {
        session: u64,
        delay: u32,
        reply: Reply,
    },
    /// The transfer runs from now on, on the link of this number.
    Start {
        ticket: Ticket,
        number: u64,
    },
}

impl Action {
    /// Gives an equal action.
    pub fn copy(&self, _alloc: Global) -> Result<Action, AllocError>
        ensures { IfOk result (λ copy. copy ≡ self.now) }
    {
        self.clone()
    }
}

/// Actions in their order, which contracts see as a list.
#[derive(Drop)]
pub struct Actions {
    items: Vec<Action>,
}

impl Model for Actions {
    ghost use Rattle.std.specs.Prelude.{List};
    ghost use Rattle.ftp_events.specs.declared.action.Action.{Action};

    ghost Value = { List Action };

    ghost view = { λ a. a.items.items };
}

impl PartialEq for Actions {
    ghost use Rattle.std.specs.Cmp.{partial_equiv_from_equiv};
    ghost use Rattle.std.specs.Cmp.Lexicographic.{pointwise, lists_equiv};
    ghost use Rattle.ftp_events.specs.contracts.action.ActionPartialEq.TheImpl.{ghosts};
    ghost use Rattle.ftp_events.specs.contracts.action.ActionEq.TheImpl.Laws.{laws-law};

    ghost eq = { pointwise ghosts.eq };

    ghost laws = { partial_equiv_from_equiv (lists_equiv laws-law) };

    fn eq(&self, other: &Actions) -> bool {
        self.items == other.items
    }
}

impl Eq for Actions {
    ghost use Rattle.std.specs.Cmp.Lexicographic.{lists_equiv};
    ghost use Rattle.ftp_events.specs.contracts.action.ActionEq.TheImpl.Laws.{laws-law};

    ghost laws = { lists_equiv laws-law };
}

impl Actions {
    /// Takes over the actions of a vector.
    pub fn from_vec(items: Vec<Action>) -> Actions
        ensures { result ≡ items.items }
    {
        Actions { items }
    }

    /// Gives back the room that the actions do not need.
    pub fn shrink_to_fit(&mut self)
        ensures { self.new ≡ self.old }
    {
        self.items.shrink_to_fit();
    }

    /// Lends the actions.
    pub fn as_slice(&self) -> &[Action]
        ensures { result.now ≡ self.now }
    {
        self.items.as_slice()
    }
}
