//! What the lock holds where the journal is a checkpoint and a tail: the hub, the entries since the checkpoint, and the
//! replies that were not handed out.

ghost use Rattle.std.specs.Prelude.{◌≡◌, ◌≤◌, length};
ghost use Rattle.ftp_options.specs.declared.options.Options.{Options};
ghost use Rattle.ftp_shared.specs.Cut.{KeepsCut};

use crate::AppendError;
use crate::locked::Serving;
use crate::marks::Marks;
use crate::outbox::Outbox;
use crate::ready::{own_session, ready_cut, step};
use crate::receipt::{Submitted, Turn};
use ftp_events::{Answer, HubEvent, Log};
use ftp_hub::Hub;
use ftp_options::Options;
use std::alloc::Global;
use std::marker::PhantomData;

/// A hub with the entries since its checkpoint, which are so many at most.
///
/// The checkpoint is not kept as data: the tables of the hub are all that a state tells, and are that of the checkpoint
/// with the tail replayed.
#[derive(Drop)]
pub struct Cut<L: Serving> {
    alloc: Global,
    hub: Hub,
    tail: Log,
    outbox: Outbox,
    marks: Marks,
    every: u64,
    of: PhantomData<L>,
    ghost some: { 1 ≤ every },
    ghost bounded: { length tail.entries ≤ every },
    ghost kept: { ∥ KeepsCut L.options hub tail.entries outbox ∥₁ },
}

impl<L: Serving> Cut<L> {
    ghost use Rattle.std.specs.Prelude.{◌≡◌, ◌==◌, ◌&&◌, ℕ, ◌-◌, ◌^◌, ◌≤◌, ◌↔◌, [], ◌∷◌, length, nat_lt, List, IfOk, OnErr, IsErrOf, None, if◌then◌else◌};
    ghost use Rattle.std.specs.Option.{option_map_or};
    ghost use Rattle.ftp_events.specs.declared.entry.Entry.{Entry};
    ghost use Rattle.ftp_events.specs.Log.{past_of};
    ghost use Rattle.ftp_events.specs.Right.{next_entry};
    ghost use Rattle.ftp_events.specs.Running.{running_count};
    ghost use Rattle.ftp_events.specs.Session.{live_count};
    ghost use Rattle.ftp_hub.specs.Stands.{Stands, count_of};
    ghost use Rattle.ftp_hub.specs.Twin.{started_job};
    ghost use Rattle.ftp_shared.specs.Outbox.{outbox_of, own_session, outbox_after};
    ghost use Rattle.ftp_shared.specs.Next.{IsNextAt, IsTurnAt, IsTurnOf};

    /// A hub to which nothing has happened. It takes no memory.
    ///
    /// # Proved
    ///
    /// - A new one has an empty tail, and its hub stands for the empty log (there is room for an entry in the tail)
    ///   (`tail`, `stands`, `every`).
    pub fn new(alloc: Global, options: Options, every: u64) -> Cut<L>
        requires options { options ≡ L.options }
        requires some { 1 ≤ every }
        ensures tail { result.tail.entries ≡ [] }
        ensures stands { Stands result.hub [] }
        ensures every { result.every ≡ every }
    {
        Cut {
            alloc,
            hub: Hub::new(alloc, options),
            tail: Log::new(alloc),
            outbox: Outbox::new(alloc),
            marks: Marks::new(alloc),
            every,
            of: PhantomData,
        }
    }

    /// How many entries the tail has.
    ///
    /// # Proved
    ///
    /// - The tail never has more entries than was asked for (`len`, `bounded`).
    pub fn tail(&self) -> u64
        ensures len { result ≡ length self.now.tail.entries }
        ensures bounded { result ≤ self.now.every }
    {
        self.tail.len()
    }

    /// How many events were counted, those before the checkpoint too.
    pub fn events(&self) -> u64
        ensures { result ≡ count_of self.now.hub }
    {
        self.hub.events()
    }

    /// Says whether no job runs and no session is live.
    ///
    /// # Proved
    ///
    /// - It is drained where by a log for which the hub stands no job runs and no session is live.
    pub fn drained(&self) -> bool
        ensures { (log : List Entry) → Stands self.now.hub log → result ≡ ((running_count (past_of log) == 0) && (live_count (past_of log) == 0)) }
    {
        self.hub.drained()
    }

    // Adds the entry, where a full tail gives way to a new checkpoint, and hands a session what it was sent.
    fn take_step(
        &mut self,
        event: HubEvent,
        answer: Answer,
        own: Option<u64>,
    ) -> Result<Turn, AppendError>
        ensures next { IfOk result (λ t. IsNextAt L.options t.submitted.receipt event answer) }
        ensures rest { IfOk result (λ t. IsTurnOf L.options t own event answer) }
        ensures due { IfOk result (λ t. (log : List Entry) → Stands self.old.hub log → t.submitted.receipt.entry ≡ next_entry L.options log event answer) }
        ensures stands { IfOk result (λ t. (log : List Entry) → Stands self.old.hub log → Stands self.new.hub (t.submitted.receipt.entry ∷ log)) }
        ensures place { IfOk result (λ t. t.submitted.receipt.place ≡ count_of self.old.hub) }
        ensures job { IfOk result (λ t. (log : List Entry) → Stands self.old.hub log → t.submitted.job ≡ started_job L.options (past_of log) t.submitted.receipt.entry) }
        ensures tail { IfOk result (λ t. self.new.tail.entries ≡ t.submitted.receipt.entry ∷ (if nat_lt (length self.old.tail.entries) self.old.every then self.old.tail.entries else [])) }
        ensures earlier { IfOk result (λ t. t.earlier ≡ option_map_or (outbox_of self.old.outbox self.old.tail.entries) own []) }
        ensures same_tail { OnErr result (self.new.tail.entries ≡ self.old.tail.entries) }
        ensures exhausted { IsErrOf result AppendError.Exhausted ↔ (count_of self.old.hub ≡ 2 ^ 64 - 1) }
        ensures every { self.new.every ≡ self.old.every }
    {
        let room = match ready_cut(
            self.alloc,
            &mut self.hub,
            &mut self.tail,
            self.every,
            &mut self.outbox,
            &mut self.marks,
            &event,
            &answer,
        ) {
            Ok(room) => room,
            Err(error) => {
                drop(event);
                drop(answer);
                return Err(error);
            }
        };
        Ok(step(
            &mut self.hub,
            &mut self.tail,
            &mut self.outbox,
            &mut self.marks,
            room,
            event,
            answer,
            own,
        ))
    }

    /// Adds the entry of this event, with the answer to it. Its replies wait in the outboxes of their sessions.
    ///
    /// Where the tail is full the checkpoint is made anew before it, and the tail is empty then.
    ///
    /// # Proved
    ///
    /// - The receipt holds the next entry of a right and acted journal, for the event and the answer handed in, with its
    ///   place there (`next`); it is due after every log for which the hub stood, and the hub then stands for that log
    ///   with the entry (`due`, `stands`; also `Cut::append_for`: `due`, `stands`). Its place is the count of events
    ///   (`place`; also `Cut::append_for`: `place`).
    /// - A job comes exactly where the entry has a start, and is the one that starts (`job`; also `Cut::append_for`: `job`).
    /// - The tail has the entry more, or where it was full that entry alone (`tail`, `every`; also `Cut::append_for`:
    ///   `tail`, `every`); an error leaves it as it was (`same_tail`; also `Cut::append_for`: `same_tail`).
    /// - The end of the count is told exactly where the hub has counted so many events, whether or not memory is left
    ///   (`exhausted`; also `Cut::append_for`: `exhausted`).
    pub fn append(&mut self, event: HubEvent, answer: Answer) -> Result<Submitted, AppendError>
        ensures next { IfOk result (λ s. IsNextAt L.options s.receipt event answer) }
        ensures due { IfOk result (λ s. (log : List Entry) → Stands self.old.hub log → s.receipt.entry ≡ next_entry L.options log event answer) }
        ensures stands { IfOk result (λ s. (log : List Entry) → Stands self.old.hub log → Stands self.new.hub (s.receipt.entry ∷ log)) }
        ensures place { IfOk result (λ s. s.receipt.place ≡ count_of self.old.hub) }
        ensures job { IfOk result (λ s. (log : List Entry) → Stands self.old.hub log → s.job ≡ started_job L.options (past_of log) s.receipt.entry) }
        ensures tail { IfOk result (λ s. self.new.tail.entries ≡ s.receipt.entry ∷ (if nat_lt (length self.old.tail.entries) self.old.every then self.old.tail.entries else [])) }
        ensures same_tail { OnErr result (self.new.tail.entries ≡ self.old.tail.entries) }
        ensures exhausted { IsErrOf result AppendError.Exhausted ↔ (count_of self.old.hub ≡ 2 ^ 64 - 1) }
        ensures every { self.new.every ≡ self.old.every }
    {
        let turn = self.take_step(event, answer, None)?;
        let Turn {
            earlier: _,
            submitted,
        } = turn;
        Ok(submitted)
    }

    /// Adds the entry of this event as `append` does, and hands the session that the event names what it was sent before
    /// and was not handed yet, also where the entries that sent it have left the tail.
    ///
    /// # Proved
    ///
    /// - The session that the event names is handed its whole outbox (`earlier`), which is the last of the replies to it of
    ///   a right and acted journal whose next entry the event has (`next`).
    pub fn append_for(&mut self, event: HubEvent, answer: Answer) -> Result<Turn, AppendError>
        ensures next { IfOk result (λ t. IsTurnAt L.options t event answer) }
        ensures due { IfOk result (λ t. (log : List Entry) → Stands self.old.hub log → t.submitted.receipt.entry ≡ next_entry L.options log event answer) }
        ensures stands { IfOk result (λ t. (log : List Entry) → Stands self.old.hub log → Stands self.new.hub (t.submitted.receipt.entry ∷ log)) }
        ensures place { IfOk result (λ t. t.submitted.receipt.place ≡ count_of self.old.hub) }
        ensures job { IfOk result (λ t. (log : List Entry) → Stands self.old.hub log → t.submitted.job ≡ started_job L.options (past_of log) t.submitted.receipt.entry) }
        ensures tail { IfOk result (λ t. self.new.tail.entries ≡ t.submitted.receipt.entry ∷ (if nat_lt (length self.old.tail.entries) self.old.every then self.old.tail.entries else [])) }
        ensures earlier { IfOk result (λ t. t.earlier ≡ option_map_or (outbox_of self.old.outbox self.old.tail.entries) (own_session event.kind) []) }
        ensures same_tail { OnErr result (self.new.tail.entries ≡ self.old.tail.entries) }
        ensures exhausted { IsErrOf result AppendError.Exhausted ↔ (count_of self.old.hub ≡ 2 ^ 64 - 1) }
        ensures every { self.new.every ≡ self.old.every }
    {
        let own = own_session(&event.kind);
        self.take_step(event, answer, own)
    }
}
