//! The sessions that a stop ends, in order, with the users who are said to have gone.

ghost use Rattle.std.specs.Prelude.{◌≡◌, ◌==◌, ◌++◌, [], ◌∷◌, IfNone, IfSome, OnErr, OnOk, length, if◌then◌else◌};
ghost use Rattle.ftp_events.specs.Login.{logged_user};

use crate::copies::Text;
use crate::fixed::copy_user;
use ftp_base::Bytes;
use ftp_events::Session;
use std::alloc::{AllocError, Global};
use std::collections::VecDeque;
use std::marker::Model;

// A session, and its user.
#[derive(Drop)]
struct Leaver {
    number: u64,
    user: Text,
}

/// The sessions that a stop ends, in order, each with the user who is said to have gone.
#[derive(Drop)]
pub struct Leavers {
    alloc: Global,
    queue: VecDeque<Leaver>,
    // Each name is there twice.
    twice: bool,
}

impl Model for Leavers {
    ghost use Rattle.std.specs.Prelude.{◌≡◌, All, map};
    ghost use Rattle.ftp_handlers.specs.Copies.{LeaversState};

    ghost Value = { LeaversState };

    ghost view = { λ l. record { items = map (λ q. record { session = q.number; user = q.user.items }) l.queue.items; twice = l.twice } };

    ghost invariant = { λ l. All (λ q. q.user.twice ≡ l.twice) l.queue.items };
}

impl Leavers {
    /// Nobody leaves.
    pub fn none(alloc: Global, twice: bool) -> Leavers
        ensures items { result.items ≡ [] }
        ensures twice { result.twice ≡ twice }
    {
        Leavers {
            alloc,
            queue: VecDeque::new(alloc),
            twice,
        }
    }

    /// How many they are.
    pub fn len(&self) -> usize
        ensures { result ≡ length self.now.items }
    {
        self.queue.len()
    }

    /// Says whether nobody leaves.
    pub fn is_empty(&self) -> bool
        ensures { result ≡ (length self.now.items == 0) }
    {
        self.queue.is_empty()
    }

    /// Puts a session behind the others, with its user.
    pub fn add(&mut self, number: u64, session: &Session) -> Result<(), AllocError>
        ensures added { OnOk result (self.new.items ≡ self.old.items ++ record { session = number; user = logged_user session.now.login session.now.name } ∷ []) }
        ensures unchanged { OnErr result (self.new ≡ self.old) }
        ensures twice { self.new.twice ≡ self.old.twice }
    {
        let user = copy_user(self.alloc, session)?;
        let user = Text::of(self.alloc, user, self.twice)?;
        self.queue.push_back(Leaver { number, user })?;
        Ok(())
    }

    /// Takes out the first session, and its user.
    pub(crate) fn take(&mut self) -> Option<(u64, Text)>
        ensures none { IfNone result (self.old.items ≡ []) }
        ensures first { IfSome result (λ leaver. self.old.items ≡ record { session = leaver.0; user = leaver.1.items } ∷ self.new.items) }
        ensures copy { IfSome result (λ leaver. leaver.1.twice ≡ self.old.twice) }
        ensures twice { self.new.twice ≡ self.old.twice }
    {
        let Leaver { number, user } = self.queue.pop_front()?;
        Some((number, user))
    }
}
