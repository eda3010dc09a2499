//! What the lock holds: the hub, its journal, the replies that were not handed out, and the book of steps.

ghost use Rattle.std.specs.Prelude.{◌≡◌, length};
ghost use Rattle.ftp_options.specs.declared.options.Options.{Options};
ghost use Rattle.ftp_shared.specs.Keeps.{Keeps};

use crate::AppendError;
use crate::marks::Marks;
use crate::outbox::Outbox;
use crate::ready::{make_ready, own_session, step};
use crate::receipt::{Receipt, Submitted, Turn};
use crate::settle::{SettleError, compared, count_steps};
use crate::share::{Parts, StepShare};
use ftp_events::{Answer, HubEvent, Log};
use ftp_hub::Hub;
use ftp_options::Options;
use std::alloc::Global;
use std::marker::Brand;
use std::sync::ledger::{Book, Ledger, Share};

/// Which server it is: the ledger of its steps, and its options. Proofs alone see it.
pub trait Serving: Ledger {
    /// The options that the hub is made from.
    ghost options: { Options };
}

impl Serving for Brand {
    ghost use Rattle.ftp_shared.specs.Brands.{some_options};

    ghost options = { some_options };
}

/// A hub with its journal. The journal is right and acted, and the hub stands for it.
#[derive(Drop)]
pub struct Locked<L: Serving> {
    alloc: Global,
    hub: Hub,
    journal: Log,
    outbox: Outbox,
    marks: Marks,
    steps: Book<L>,
    parts: Parts<L>,
    ghost kept: { ∥ Keeps L.options hub journal.entries outbox ∥₁ },
    ghost counted: { steps.total ≡ length journal.entries },
}

impl<L: Serving> Locked<L> {
    ghost use Rattle.std.specs.Prelude.{◌≡◌, ◌≢◌, ◌==◌, ◌&&◌, ℕ, ◌+◌, ◌-◌, ◌^◌, ◌<◌, ◌≤◌, ◌↔◌, [], ◌∷◌, length, sum_by, All, List, IfOk, IfErr, IfSome, IsNone, OnOk, OnErr, IsTrue, Option, None, true, false};
    ghost use Rattle.std.specs.Option.{option_map_or};
    ghost use Rattle.std.specs.Vec.{vec_len};
    ghost use Rattle.ftp_events.specs.Right.{IsRight, IsActed, next_entry};
    ghost use Rattle.ftp_events.specs.Log.{past_of};
    ghost use Rattle.ftp_events.specs.Running.{running_count};
    ghost use Rattle.ftp_events.specs.Session.{live_count};
    ghost use Rattle.ftp_hub.specs.Twin.{started_job};
    ghost use Rattle.ftp_shared.specs.Outbox.{outbox_of, own_session, outbox_after};
    ghost use Rattle.ftp_shared.specs.Next.{IsNextAt, IsTurnAt, IsTurnOf};
    ghost use Rattle.ftp_shared.specs.Settled.{IsFirstOther, IsKept, IsMissing, IsOtherOf, is_missing};

    /// A hub to which nothing has happened, with an empty journal. It takes no memory.
    ///
    /// The book has counted no step, and the share has every part, of which there are so many.
    pub fn new(
        alloc: Global,
        options: Options,
        steps: Book<L>,
        share: Share<L>,
        parts: u64,
    ) -> Locked<L>
        requires options { options ≡ L.options }
        requires none { steps.total ≡ 0 }
        requires some { 0 < parts }
        requires all { share.parts ≡ parts }
        requires fresh { share.amount ≡ 0 }
        ensures journal { result.journal.entries ≡ [] }
        ensures outbox { (s : ℕ) → outbox_of result.outbox result.journal.entries s ≡ [] }
        ensures parts { result.parts.parts ≡ parts }
        ensures returned { result.parts.count ≡ 0 }
    {
        Locked {
            alloc,
            hub: Hub::new(alloc, options),
            journal: Log::new(alloc),
            outbox: Outbox::new(alloc),
            marks: Marks::new(alloc),
            steps,
            parts: Parts::new(share, parts),
        }
    }

    /// Adds the entry of this event, with the answer to it. Its replies wait in the outboxes of their sessions.
    ///
    /// It looks a constant number of times into tables, however long the journal is.
    ///
    /// # Proved
    ///
    /// - The journal grows by exactly one entry, which is due after it for the event and the answer handed in; the
    ///   receipt holds this entry and its place (`due`, `journal`, `place`; also `Locked::append_for`: `due`,
    ///   `journal`, `place`).
    /// - Each outbox grows by the entry's replies to its session (`outbox`).
    /// - A job comes exactly where the entry has a start, and is the one that starts (`job`; also `Locked::append_for`:
    ///   `job`).
    /// - The share counts one step more (`share`).
    /// - An error is want of memory alone, and changes nothing (`only`, `same_journal`, `same_outbox`, `same_share`; also
    ///   `Locked::append_for`: `only`, `same_journal`, `same_outbox`, `same_share`; `Locked::append_piece`: `only`).
    pub fn append(
        &mut self,
        share: &mut StepShare<L>,
        event: HubEvent,
        answer: Answer,
    ) -> Result<Submitted, AppendError>
        ensures next { IfOk result (λ s. IsNextAt L.options s.receipt event answer) }
        ensures due { IfOk result (λ s. s.receipt.entry ≡ next_entry L.options self.old.journal.entries event answer) }
        ensures journal { IfOk result (λ s. self.new.journal.entries ≡ s.receipt.entry ∷ self.old.journal.entries) }
        ensures place { IfOk result (λ s. s.receipt.place ≡ length self.old.journal.entries) }
        ensures job { IfOk result (λ s. s.job ≡ started_job L.options (past_of self.old.journal.entries) s.receipt.entry) }
        ensures outbox { IfOk result (λ o. (s : ℕ) → outbox_of self.new.outbox self.new.journal.entries s ≡ outbox_after None o.receipt.entry (outbox_of self.old.outbox self.old.journal.entries) s) }
        ensures share { OnOk result (share.new.count ≡ share.old.count + 1) }

        // An error is want of memory, and changes nothing.
        ensures only { IfErr result (λ e. e ≡ AppendError.OutOfMemory) }
        ensures same_journal { OnErr result (self.new.journal.entries ≡ self.old.journal.entries) }
        ensures same_outbox { OnErr result ((s : ℕ) → outbox_of self.new.outbox self.new.journal.entries s ≡ outbox_of self.old.outbox self.old.journal.entries s) }
        ensures same_share { OnErr result (share.new.count ≡ share.old.count) }
        ensures same_parts { (self.new.parts.parts ≡ self.old.parts.parts) × (self.new.parts.count ≡ self.old.parts.count) }
    {
        let turn = self.take_step(share, event, answer, None)?;
        let Turn {
            earlier: _,
            submitted,
        } = turn;
        Ok(submitted)
    }

    /// Adds the entry of this event as `append` does, and hands the session that the event names what it was sent before
    /// and was not handed yet. It does not look at the journal for that, and copies nothing.
    ///
    /// The entry's own replies to that session are handed out with the entry. An event of a ticket hands out nothing.
    ///
    /// # Proved
    ///
    /// - The session that the event names is handed its whole outbox, and has an empty one then; every other grows
    ///   (`earlier`, `outbox`).
    pub fn append_for(
        &mut self,
        share: &mut StepShare<L>,
        event: HubEvent,
        answer: Answer,
    ) -> Result<Turn, AppendError>
        ensures next { IfOk result (λ t. IsTurnAt L.options t event answer) }
        ensures due { IfOk result (λ t. t.submitted.receipt.entry ≡ next_entry L.options self.old.journal.entries event answer) }
        ensures journal { IfOk result (λ t. self.new.journal.entries ≡ t.submitted.receipt.entry ∷ self.old.journal.entries) }
        ensures place { IfOk result (λ t. t.submitted.receipt.place ≡ length self.old.journal.entries) }
        ensures job { IfOk result (λ t. t.submitted.job ≡ started_job L.options (past_of self.old.journal.entries) t.submitted.receipt.entry) }
        ensures earlier { IfOk result (λ t. t.earlier ≡ option_map_or (outbox_of self.old.outbox self.old.journal.entries) (own_session event.kind) []) }
        ensures outbox { IfOk result (λ t. (s : ℕ) → outbox_of self.new.outbox self.new.journal.entries s ≡ outbox_after (own_session event.kind) t.submitted.receipt.entry (outbox_of self.old.outbox self.old.journal.entries) s) }
        ensures share { OnOk result (share.new.count ≡ share.old.count + 1) }

        // An error is want of memory, and changes nothing.
        ensures only { IfErr result (λ e. e ≡ AppendError.OutOfMemory) }
        ensures same_journal { OnErr result (self.new.journal.entries ≡ self.old.journal.entries) }
        ensures same_outbox { OnErr result ((s : ℕ) → outbox_of self.new.outbox self.new.journal.entries s ≡ outbox_of self.old.outbox self.old.journal.entries s) }
        ensures same_share { OnErr result (share.new.count ≡ share.old.count) }
        ensures same_parts { (self.new.parts.parts ≡ self.old.parts.parts) × (self.new.parts.count ≡ self.old.parts.count) }
    {
        let own = own_session(&event.kind);
        self.take_step(share, event, answer, own)
    }

    // Adds the entry, and hands a session what it was sent.
    fn take_step(
        &mut self,
        share: &mut StepShare<L>,
        event: HubEvent,
        answer: Answer,
        own: Option<u64>,
    ) -> Result<Turn, AppendError>
        ensures only { IfErr result (λ e. e ≡ AppendError.OutOfMemory) }
        ensures next { IfOk result (λ t. IsNextAt L.options t.submitted.receipt event answer) }
        ensures rest { IfOk result (λ t. IsTurnOf L.options t own event answer) }
        ensures due { IfOk result (λ t. t.submitted.receipt.entry ≡ next_entry L.options self.old.journal.entries event answer) }
        ensures journal { IfOk result (λ t. self.new.journal.entries ≡ t.submitted.receipt.entry ∷ self.old.journal.entries) }
        ensures place { IfOk result (λ t. t.submitted.receipt.place ≡ length self.old.journal.entries) }
        ensures job { IfOk result (λ t. t.submitted.job ≡ started_job L.options (past_of self.old.journal.entries) t.submitted.receipt.entry) }
        ensures earlier { IfOk result (λ t. t.earlier ≡ option_map_or (outbox_of self.old.outbox self.old.journal.entries) own []) }
        ensures outbox { IfOk result (λ t. (s : ℕ) → outbox_of self.new.outbox self.new.journal.entries s ≡ outbox_after own t.submitted.receipt.entry (outbox_of self.old.outbox self.old.journal.entries) s) }
        ensures share { OnOk result (share.new.count ≡ share.old.count + 1) }
        ensures same_journal { OnErr result (self.new.journal.entries ≡ self.old.journal.entries) }
        ensures same_outbox { OnErr result ((s : ℕ) → outbox_of self.new.outbox self.new.journal.entries s ≡ outbox_of self.old.outbox self.old.journal.entries s) }
        ensures same_share { OnErr result (share.new.count ≡ share.old.count) }
        ensures same_parts { (self.new.parts.parts ≡ self.old.parts.parts) × (self.new.parts.count ≡ self.old.parts.count) }
    {
        let Ok(room) = make_ready(
            &mut self.hub,
            &mut self.journal,
            &mut self.outbox,
            &mut self.marks,
            &event,
            &answer,
        ) else {
            drop(event);
            drop(answer);
            return Err(AppendError::OutOfMemory);
        };
        share.add(&mut self.steps);
        Ok(step(
            &mut self.hub,
            &mut self.journal,
            &mut self.outbox,
            &mut self.marks,
            room,
            event,
            answer,
            own,
        ))
    }

    /// Splits a share off, with no step counted, unless it is the last part.
    ///
    /// # Proved
    ///
    /// - No share is given out where a single part is left (`none`).
    pub fn share(&mut self) -> Option<StepShare<L>>
        ensures none { IsNone result ↔ (self.old.parts.parts ≡ 1) }
        ensures fresh { IfSome result (λ share. share.count ≡ 0) }
        ensures parts { IfSome result (λ share. self.new.parts.parts + 1 ≡ self.old.parts.parts) }
        ensures returned { self.new.parts.count ≡ self.old.parts.count }
        ensures journal { self.new.journal.entries ≡ self.old.journal.entries }
        ensures outbox { (s : ℕ) → outbox_of self.new.outbox self.new.journal.entries s ≡ outbox_of self.old.outbox self.old.journal.entries s }
    {
        self.parts.split()
    }

    /// Takes a share back; where the count of parts is at its end, the share is lost.
    pub fn take_back(&mut self, share: StepShare<L>)
        ensures parts { self.old.parts.parts < 2 ^ 64 - 1 → self.new.parts.parts ≡ self.old.parts.parts + 1 }
        ensures returned { self.old.parts.parts < 2 ^ 64 - 1 → self.new.parts.count ≡ self.old.parts.count + share.count }
        ensures journal { self.new.journal.entries ≡ self.old.journal.entries }
        ensures outbox { (s : ℕ) → outbox_of self.new.outbox self.new.journal.entries s ≡ outbox_of self.old.outbox self.old.journal.entries s }
    {
        let len = self.journal.len();
        self.parts.merge(&mut self.steps, share, len);
    }

    /// The options that the hub was made from.
    ///
    /// # Proved
    ///
    /// - The options are those of the server; a hub is drained where by its journal no job runs and no session is live
    ///   (also `Locked::drained`).
    pub fn options(&self) -> &Options
        ensures { result.now ≡ L.options }
    {
        self.hub.options()
    }

    /// How many entries the journal has.
    pub fn len(&self) -> u64
        ensures { result ≡ length self.now.journal.entries }
    {
        self.journal.len()
    }

    /// Says whether no job runs and no session is live.
    pub fn drained(&self) -> bool
        ensures { result ≡ ((running_count (past_of self.now.journal.entries) == 0) && (live_count (past_of self.now.journal.entries) == 0)) }
    {
        self.hub.drained()
    }

    /// Ends the hub, and gives its journal, where the shares and those that were taken back count all of its steps, and
    /// each receipt is the entry at its place. The shares are this hub's.
    ///
    /// # Proved
    ///
    /// - Steps are missing exactly where the shares count another number, and never where all parts are there, if the
    ///   shares are this hub's (`missing`, `counted`, `whole`; also `SharedHub::settle`: `gone`).
    /// - Any other error is about the first receipt that is not the entry at its place (`differs`; also
    ///   `SharedHub::settle`: `differs_so`).
    pub fn settle(self, shares: Vec<StepShare<L>>, receipts: &[Receipt]) -> Result<Log, SettleError>
        ensures journal { IfOk result (λ log. log.entries ≡ self.journal.entries) }
        ensures right { IfOk result (λ log. ∥ IsRight L.options log.entries × IsActed L.options log.entries ∥₁) }
        ensures sum { IfOk result (λ log. self.parts.count + sum_by (λ s. s.count) shares.items ≡ length log.entries) }
        ensures receipts { IfOk result (λ log. All (λ r. IsKept log.entries r) receipts.now) }

        // Steps are missing exactly where the shares count another number than the journal has.
        ensures missing { IfErr result (λ e. is_missing e ≡ true → IsMissing (self.parts.count + sum_by (λ s. s.count) shares.items) (length self.journal.entries) e × (self.parts.count + sum_by (λ s. s.count) shares.items ≢ length self.journal.entries)) }
        ensures counted { self.parts.count + sum_by (λ s. s.count) shares.items ≢ length self.journal.entries → IfErr result (λ e. is_missing e ≡ true) }

        // They never are where the shares are all that were given out and not taken back.
        ensures whole { IfErr result (λ e. is_missing e ≡ true → self.parts.parts + vec_len shares ≢ L.parts) }
        ensures apart { self.parts.parts + vec_len shares ≤ L.parts }

        // Any other error tells of the first receipt that is not the entry at its place.
        ensures differs { IfErr result (λ e. is_missing e ≡ false → IsFirstOther self.journal.entries receipts.now e) }
        ensures differs_so { IfErr result (λ e. is_missing e ≡ false → ∥ IsOtherOf L.options receipts.now e ∥₁) }
    {
        let alloc = self.alloc;
        let journal = self.close(shares)?;
        compared(alloc, journal, receipts)
    }

    // Gives the journal, where the shares count all of its steps.
    fn close(self, shares: Vec<StepShare<L>>) -> Result<Log, SettleError>
        ensures journal { IfOk result (λ log. log.entries ≡ self.journal.entries) }
        ensures right { IfOk result (λ log. ∥ IsRight L.options log.entries × IsActed L.options log.entries ∥₁) }
        ensures sum { IfOk result (λ log. self.parts.count + sum_by (λ s. s.count) shares.items ≡ length log.entries) }
        ensures missing { IfErr result (λ e. IsMissing (self.parts.count + sum_by (λ s. s.count) shares.items) (length self.journal.entries) e) }
        ensures differ { IfErr result (λ e. self.parts.count + sum_by (λ s. s.count) shares.items ≢ length self.journal.entries) }
        ensures whole { IfErr result (λ e. self.parts.parts + vec_len shares ≢ L.parts) }
        ensures apart { self.parts.parts + vec_len shares ≤ L.parts }
    {
        let Locked {
            alloc: _,
            hub,
            journal,
            outbox,
            marks,
            steps,
            parts,
        } = self;
        drop(hub);
        drop(outbox);
        drop(marks);
        let length = journal.len();
        let counted = count_steps(steps, parts, shares, length);
        if counted != length {
            drop(journal);
            return Err(SettleError::Missing { counted, length });
        }
        Ok(journal)
    }
}
