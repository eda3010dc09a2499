//! The desk, and what it tells.

ghost use Rattle.std.specs.Prelude.{◌≡◌, ◌≤◌, ℕ, Bool, true, false, Some, None, IfOk, IfSome, OnOk, OnErr, IsErrOf};
ghost use Rattle.ftp_base.specs.declared.error_kind.ErrorKind.TheVariants.{LocalError};
ghost use Rattle.ftp_base.specs.Outside.{HasRisen};
ghost use Rattle.ftp_shared.specs.Desk.{DeskView, SameDesk, IsVouched, Appends, MaySay, RisesBy, drawn_after};
ghost use Rattle.ftp_shared.specs.Outbox.{has_ticket};

use crate::{AppendError, Replies};
use ftp_base::{Bytes, ErrorKind};
use ftp_events::{Answer, Entry, HubEvent};
use ftp_options::Options;
use std::alloc::AllocError;

/// An entry, and the replies to the session that its event names which came before it and were not handed out yet.
#[derive(Drop)]
pub struct Told {
    pub earlier: Replies,
    pub entry: Entry,
}

/// Decides events, and tells what was decided.
///
/// The end of a job is not submitted here: its event names a ticket.
pub trait Desk {
    // What it tells.
    ghost view: { Self → DeskView };

    // Whether each entry is the next one of some right and acted log.
    ghost vouches: { Bool } = { false };

    // Whether a number that is drawn is the one behind the greatest of the journal.
    ghost draws_next: { Bool } = { false };

    // Whether its count of events can come to its end.
    ghost exhausts: { Bool } = { true };

    /// The options under which its logs are right.
    fn options(&self) -> &Options
        ensures told { result.now ≡ (view self.now).options };

    /// Has the event decided, with the answer to it.
    ///
    /// # Proved
    ///
    /// - The journal, which is right and acted, grows by exactly the entry that is told and is due after it; the
    ///   replies before it are the whole outbox of the session that the event names, and the outboxes change as under
    ///   the lock; a session that was opened just now has an empty one, since no reply goes to a number before that
    ///   (`fresh` of `Appends`), if the event names no ticket (`appended`).
    /// - Each entry is the next one of some right and acted log, and the replies before it are the last that this log
    ///   sends to its session (`vouched`).
    /// - An error changes nothing that is told but the counts of the storage's faults and of the events that were not
    ///   taken; the latter rises then and at no other call (`refused`, `refused_rose`, `unrefused`; also `Desk::draw`:
    ///   `unrefused`; `Desk::directory`: `unrefused`).
    fn submit(&mut self, event: HubEvent, answer: Answer) -> Result<Told, AppendError>
        requires unticketed { has_ticket event.kind ≡ false }
        ensures event { IfOk result (λ told. told.entry.event ≡ event) }
        ensures answer { IfOk result (λ told. told.entry.answer ≡ answer) }
        ensures vouched { IfOk result (λ told. vouches ≡ true → IsVouched (view self.old).options told.earlier told.entry) }
        ensures appended { IfOk result (λ told. IfSome (view self.old).journal (λ J. Appends J (view self.old) (view self.new) told.earlier told.entry)) }
        ensures share { OnOk result (RisesBy 1 (view self.old).share (view self.new).share) }
        ensures options { (view self.new).options ≡ (view self.old).options }
        ensures files { (view self.new).files ≡ (view self.old).files }
        ensures count { (view self.old).faults ≤ (view self.new).faults }
        ensures unrefused { OnOk result ((view self.new).refused ≡ (view self.old).refused) }
        ensures refused_rose { OnErr result (HasRisen (view self.old).refused (view self.new).refused) }
        ensures refused { OnErr result (SameDesk (view self.old) (view self.new)) }
        ensures exhausted { IsErrOf result AppendError.Exhausted → exhausts ≡ true };

    /// A number for a new session or connection; it may come again.
    ///
    /// # Proved
    ///
    /// - A number that is drawn is the one behind the greatest that the journal's counting entries carry as new; 0
    ///   where there is none, and behind the last of all (`drawn`).
    /// - Neither call changes what is told but the count of faults (`same`, `files`; also `Desk::directory`: `same`,
    ///   `files`).
    fn draw(&mut self) -> u64
        ensures drawn { draws_next ≡ true → IfSome (view self.old).journal (λ J. result ≡ drawn_after J) }
        ensures files { (view self.new).files ≡ (view self.old).files }
        ensures unrefused { (view self.new).refused ≡ (view self.old).refused }
        ensures same { SameDesk (view self.old) (view self.new) };

    /// Why a path is no directory of the storage, where it is none.
    ///
    /// # Proved
    ///
    /// - Where the storage tells its map, a path is refused exactly where no directory stands there; the storage's
    ///   failure comes only where its count of faults rose, if the storage shows its directories (`ShowsDirectories`)
    ///   (`may`, `fault_rose`).
    fn directory(&mut self, user: &Bytes, path: &Bytes) -> Result<Option<ErrorKind>, AllocError>
        ensures may { IfOk result (λ refusal. MaySay (view self.old).files path.now refusal) }
        ensures fault_rose { IfOk result (λ refusal. refusal ≡ Some LocalError → HasRisen (view self.old).faults (view self.new).faults) }
        ensures files { (view self.new).files ≡ (view self.old).files }
        ensures unrefused { (view self.new).refused ≡ (view self.old).refused }
        ensures same { SameDesk (view self.old) (view self.new) };
}
