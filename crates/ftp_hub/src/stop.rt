//! A stop: who leaves, and how.

ghost use Rattle.std.specs.Prelude.{◌≡◌, ◌++◌, ◌-◌, ◌<◌, ℕ, List, Option, IfOk, IsTrue, None, flat_map, nat_eq};
ghost use Rattle.std.specs.HashMap as map;
ghost use Rattle.ftp_events.specs.declared.entry.Entry.{Entry};
ghost use Rattle.ftp_events.specs.declared.decision.Decision.TheVariants.{Stopped};
ghost use Rattle.ftp_events.specs.declared.event.Answer.{Answer};
ghost use Rattle.ftp_events.specs.declared.event.EventKind.TheVariants.{Shutdown};
ghost use Rattle.ftp_events.specs.declared.session.Running.{Running};
ghost use Rattle.ftp_events.specs.Acts.{session_acts};
ghost use Rattle.ftp_options.specs.declared.options.Options.{Options};
ghost use Rattle.ftp_handlers.specs.Rooms.{HasLeave, actions_in, leavers_in, twice_in};
ghost use Rattle.ftp_hub.specs.Leavers.{AreFew, AreLeavers, is_shutdown, numbers_of};
ghost use Rattle.ftp_hub.specs.Stands.{Fits, SameHead, Serves, Stands};

use crate::hub::Hub;
use crate::tables::{sorted_keys, take};
use ftp_events::{Decision, EventKind, HubEvent, Session};
use ftp_handlers::{Leavers, Room, stop};
use std::alloc::AllocError;
use std::collections::HashMap;

impl Hub {
    /// Takes memory for who leaves with the event: every live session with a stop, and nobody with any other.
    pub(crate) fn copy_leavers(&self, kind: &EventKind, twice: bool) -> Result<Leavers, AllocError>
        ensures leavers { IfOk result (λ leavers. IsTrue (is_shutdown kind.now) → AreLeavers (map.get nat_eq self.now.sessions) leavers.items) }
        ensures twice { IfOk result (λ leavers. leavers.twice ≡ twice) }
    {
        match kind {
            EventKind::Shutdown => self.copy_live(twice),
            _ => Ok(Leavers::none(self.alloc, twice)),
        }
    }

    // Every live session in order of its number, with its user.
    fn copy_live(&self, twice: bool) -> Result<Leavers, AllocError>
        ensures leavers { IfOk result (λ leavers. AreLeavers (map.get nat_eq self.now.sessions) leavers.items) }
        ensures twice { IfOk result (λ leavers. leavers.twice ≡ twice) }
    {
        let numbers = sorted_keys(self.alloc, &self.sessions)?;
        let mut leavers = Leavers::none(self.alloc, twice);
        for number in &numbers {
            let Some(session) = self.sessions.get(number) else {
                unreachable!()
            };
            leavers.add(*number, session)?;
        }
        Ok(leavers)
    }

    // Every live session ends, and no other will be opened.
    pub(crate) fn shutdown(&mut self, room: &mut Room, event: &HubEvent) -> Decision
        requires fits { Fits room.old self.old event.now }
        requires of_this_event { event.now.kind ≡ Shutdown }
        ensures serves { (log : List Entry) (answer : Answer) → Stands self.old log → Serves self.old self.new log event.now answer result (actions_in room.new) }
        ensures head { SameHead self.old self.new }
        ensures twice { twice_in room.new ≡ twice_in room.old }
    {
        leave(&mut self.sessions, room);
        self.board.clear();
        self.stopped = true;
        Decision::Stopped
    }
}

// Takes out every session, in order of its number, with what is done for it.
fn leave(sessions: &mut HashMap<u64, Session>, room: &mut Room)
    requires leavers { AreLeavers (map.get nat_eq sessions.old) (leavers_in room.old) }
    requires places { HasLeave room.old }
    ensures none { (s : ℕ) → map.get nat_eq sessions.new s ≡ None }
    ensures empty { map.hash_map_len sessions.new ≡ 0 }
    ensures actions { AreFew (map.get nat_eq sessions.old) → (o : Options) (answer : Answer) (jobs : ℕ → Option Running) → actions_in room.new ≡ actions_in room.old ++ flat_map (λ s. session_acts o s Shutdown answer Stopped (jobs s) (map.get nat_eq sessions.old s)) (numbers_of (leavers_in room.old)) }
    ensures twice { twice_in room.new ≡ twice_in room.old }
{
    while let Some(number) = room.take_leaver() {
        let Some(session) = take(sessions, number) else {
            unreachable!()
        };
        stop(session, number, room);
    }
}
