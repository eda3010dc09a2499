//! What threads ask of either hub that they share.

ghost use Rattle.std.specs.Prelude.{◌≡◌, ◌+◌, ◌≤◌, ℕ, Bool, Some, false, true, IfErr, IfOk, IfSome, IsErrOf, OnErr, OnOk};
ghost use Rattle.ftp_events.specs.declared.event.Answer.TheVariants as answer;
ghost use Rattle.ftp_events.specs.EndRows.{can_end, can_move};
ghost use Rattle.ftp_options.specs.declared.options.Options.{Options};
ghost use Rattle.ftp_shared.specs.Jobs.{behind};
ghost use Rattle.ftp_shared.specs.Next.{IsNextAt, IsPieceAt, IsTurnAt, end_of, is_moved, piece_of};
ghost use Rattle.ftp_shared.specs.Outbox.{has_ticket};

use crate::receipt::{FinishError, JobShare, Submitted, Turn};
use crate::{AppendError, JournalFeed};
use ftp_events::{Answer, HubEvent};
use ftp_transfer::Outcome;
use std::alloc::Global;
use std::sync::{Arc, Wait};

/// A hub that threads share, whether it keeps its whole journal or a checkpoint and a tail.
///
/// A thread submits with a pass. That of a `SharedHub` is a share, which counts the entries that are made with it; that of
/// a `CutHub` counts nothing.
pub trait JournalHub {
    /// What a thread submits with.
    type Pass: Drop;

    // The options under which its journal is right.
    ghost options: { Options };

    // Whether a pass counts.
    ghost counts: { Bool };

    // How many entries were made with a pass, where it counts them.
    ghost made: { Self.Pass → ℕ };

    // Whether its count of events can come to its end.
    ghost exhausts: { Bool };

    /// Adds the entry of this event.
    ///
    /// # Proved
    ///
    /// - Over either hub the entry is the next one of a right and acted journal, at its place, and the replies before it
    ///   are the last that this journal sends (`next`; also `JournalHub::submit_for`, `JournalHub::piece` and
    ///   `JournalHub::finish`: `next`).
    /// - A pass that counts has one entry more; where nothing was added it has no more (`share`, `same_share`,
    ///   `kept_share`, `once`; also `JournalHub::submit_for`, `JournalHub::piece` and `JournalHub::finish`: `share`,
    ///   `same_share`, `kept_share`, `once`).
    /// - Only a hub whose count of events can come to its end tells that it has (`exhausted`; also
    ///   `JournalHub::submit_for`, `JournalHub::piece` and `JournalHub::finish`: `exhausted`).
    fn submit<R: Wait>(
        &self,
        rt: &R,
        pass: &mut Self::Pass,
        event: HubEvent,
        answer: Answer,
    ) -> Result<Submitted, AppendError>
        requires unticketed { has_ticket event.kind ≡ false }
        ensures next { IfOk result (λ s. IsNextAt options s.receipt event answer) }
        ensures share { counts ≡ true → OnOk result (made pass.new ≡ made pass.old + 1) }
        ensures same_share { OnErr result (made pass.new ≡ made pass.old) }
        ensures kept_share { made pass.old ≤ made pass.new }
        ensures once { made pass.new ≤ made pass.old + 1 }
        ensures exhausted { IsErrOf result AppendError.Exhausted → exhausts ≡ true };

    /// Adds the entry of this event, and hands the session that it names what it was sent before.
    fn submit_for<R: Wait>(
        &self,
        rt: &R,
        pass: &mut Self::Pass,
        event: HubEvent,
        answer: Answer,
    ) -> Result<Turn, AppendError>
        requires unticketed { has_ticket event.kind ≡ false }
        ensures next { IfOk result (λ t. IsTurnAt options t event answer) }
        ensures share { counts ≡ true → OnOk result (made pass.new ≡ made pass.old + 1) }
        ensures same_share { OnErr result (made pass.new ≡ made pass.old) }
        ensures kept_share { made pass.old ≤ made pass.new }
        ensures once { made pass.new ≤ made pass.old + 1 }
        ensures exhausted { IsErrOf result AppendError.Exhausted → exhausts ≡ true };

    /// Adds a piece of a job, of so many bytes, which moved before. Where the job goes on its share comes back, with these
    /// bytes counted; else it is spent, and a job that starts with the entry comes in its place.
    ///
    /// # Proved
    ///
    /// - A job of which nothing can be told comes back (`given_back`; also `JournalHub::finish`: `given_back`).
    fn piece<R: Wait>(
        &self,
        rt: &R,
        pass: &mut Self::Pass,
        job: JobShare,
        at: u64,
        bytes: u64,
    ) -> Result<Submitted, FinishError>
        requires moves { can_move job bytes ≡ true }
        ensures next { IfOk result (λ s. IsNextAt options s.receipt (piece_of job at) (answer.Moved bytes)) }
        ensures job { IfOk result (λ s. IsPieceAt options s job at bytes) }
        ensures back { IfOk result (λ s. is_moved s.receipt.entry.decision ≡ true → s.job ≡ Some (behind job bytes)) }
        ensures share { counts ≡ true → OnOk result (made pass.new ≡ made pass.old + 1) }
        ensures same_share { OnErr result (made pass.new ≡ made pass.old) }
        ensures kept_share { made pass.old ≤ made pass.new }
        ensures once { made pass.new ≤ made pass.old + 1 }
        ensures given_back { IfErr result (λ e. e.job ≡ job) }
        ensures exhausted { IfErr result (λ e. e.cause ≡ AppendError.Exhausted → exhausts ≡ true) };

    /// Adds the end of a job, and takes its share; an error gives that back. The outcome's bytes are all that moved, those of
    /// pieces that were told with them.
    fn finish<R: Wait>(
        &self,
        rt: &R,
        pass: &mut Self::Pass,
        job: JobShare,
        at: u64,
        outcome: Outcome,
    ) -> Result<Submitted, FinishError>
        requires ends { can_end job outcome ≡ true }
        ensures next { IfOk result (λ s. IsNextAt options s.receipt (end_of job at) (answer.Done outcome)) }
        ensures share { counts ≡ true → OnOk result (made pass.new ≡ made pass.old + 1) }
        ensures same_share { OnErr result (made pass.new ≡ made pass.old) }
        ensures kept_share { made pass.old ≤ made pass.new }
        ensures once { made pass.new ≤ made pass.old + 1 }
        ensures given_back { IfErr result (λ e. e.job ≡ job) }
        ensures exhausted { IfErr result (λ e. e.cause ≡ AppendError.Exhausted → exhausts ≡ true) };

    /// A pass for one more thread, with which no entry was made, unless none is left.
    fn share<R: Wait>(&self, rt: &R) -> Option<Self::Pass>
        ensures fresh { IfSome result (λ pass. made pass ≡ 0) };

    /// Takes a pass back.
    fn take_back<R: Wait>(&self, rt: &R, pass: Self::Pass);

    /// Says whether no job runs and no session is live.
    fn drained<R: Wait>(&self, rt: &R) -> bool;

    /// A number for a new session or connection.
    fn draw(&self) -> u64;

    /// Has each entry told to a feed too. It is called before the first event.
    fn feed_to(&mut self, feed: Arc<JournalFeed, Global>);

    /// Tells the feed how many entries there are: no later one is given there.
    fn end_feed<R: Wait>(&self, rt: &R);
}
