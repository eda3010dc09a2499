//! What an append gives.

ghost use Rattle.std.specs.Prelude.{◌≡◌, ◌+◌, ◌^◌, ◌<◌, [], ◌∷◌, IfNone, IfOk, IfSome, None};
ghost use Rattle.ftp_events.specs.EndRows.{can_end, can_move};
ghost use Rattle.ftp_shared.specs.Jobs.{behind};
ghost use Rattle.ftp_shared.specs.Outbox.{others_in, own_session, waits};

use crate::AppendError;
use crate::marks::Mark;
use crate::ready::own_session;
use ftp_base::{DataChanCmd, Reply};
use ftp_events::{Action, Actions, Entry};
use ftp_transfer::{Job, Outcome, Ticket};
use std::alloc::{AllocError, Global};
use std::marker::Model;

/// No piece of a job has more bytes.
pub(crate) const MOST_BYTES: u64 = 8192;

/// The entry that an append made, and its place in the journal, counted from 0.
#[derive(Drop)]
pub struct Receipt {
    pub place: u64,
    pub entry: Entry,
}

/// The right to tell what became of a job that runs. Contracts see it as the job.
#[derive(Drop)]
pub struct JobShare {
    job: Job,
    mark: Option<Mark>,
}

impl Model for JobShare {
    ghost use Rattle.ftp_transfer.specs.declared.job.Job.{Job};

    ghost Value = { Job };

    ghost view = { λ s. s.job };
}

impl JobShare {
    pub(crate) fn new(job: Job, mark: Option<Mark>) -> JobShare
        ensures { result ≡ job }
    {
        JobShare { job, mark }
    }

    // The same job, of which so many bytes moved more.
    pub(crate) fn behind(self, bytes: u64) -> JobShare
        requires { self.done + bytes < 2 ^ 64 }
        ensures { result ≡ behind self bytes }
    {
        let JobShare { job, mark } = self;
        let mut job = job;
        job.done += bytes;
        JobShare { job, mark }
    }

    pub fn ticket(&self) -> Ticket
        ensures { result ≡ self.now.ticket }
    {
        self.job.ticket
    }

    /// The number of its link.
    pub fn link(&self) -> u64
        ensures { result ≡ self.now.number }
    {
        self.job.number
    }

    /// How many bytes of it were told.
    pub fn done(&self) -> u64
        ensures { result ≡ self.now.done }
    {
        self.job.done
    }

    /// Says whether the job can go on with so many bytes: it moves a file, by 1 to 8,192 bytes, and their count does not pass
    /// its end.
    pub fn can_move(&self, bytes: u64) -> bool
        ensures { result ≡ can_move self.now bytes }
    {
        match &self.job.command {
            DataChanCmd::Retr { .. } | DataChanCmd::Stor { .. } | DataChanCmd::Appe { .. } => {
                1 <= bytes && bytes <= MOST_BYTES && bytes <= u64::MAX - self.job.done
            }
            DataChanCmd::List { .. } | DataChanCmd::Nlst { .. } | DataChanCmd::Mlsd { .. } => false,
        }
    }

    /// Says whether the job can end so: the result suits its command, and the bytes that were told are counted.
    pub fn can_end(&self, outcome: &Outcome) -> bool
        ensures { result ≡ can_end self.now outcome.now }
    {
        outcome.suits(&self.job.command) && self.job.done <= outcome.bytes
    }

    /// Says whether the job was to stop, at some moment of this call. It takes no lock, and no clause rests on it.
    pub fn is_marked(&self) -> bool {
        match &self.mark {
            Some(mark) => mark.is_set(),
            None => false,
        }
    }

    /// Gives an equal job.
    pub fn job(&self, alloc: Global) -> Result<Job, AllocError>
        ensures { IfOk result (λ job. job ≡ self.now) }
    {
        self.job.copy(alloc)
    }
}

/// Nothing was told of the job, and why.
#[derive(Drop)]
pub struct FinishError {
    pub job: JobShare,
    pub cause: AppendError,
}

/// A receipt, and the share of the job that starts with the entry, or of one that goes on.
#[derive(Drop)]
pub struct Submitted {
    pub receipt: Receipt,
    pub job: Option<JobShare>,
}

impl Submitted {
    /// The sessions that have replies waiting because of the entry, so that their loops can be woken. It takes no memory.
    pub fn others(&self) -> Others<'_>
        ensures { result ≡ others_in None self.now.receipt.entry.actions }
    {
        Others::new(&self.receipt.entry.actions, None)
    }
}

/// Replies with their delays in milliseconds, which contracts see as a list.
#[derive(Drop)]
pub struct Replies {
    items: Vec<(u32, Reply)>,
}

impl Model for Replies {
    ghost use Rattle.std.specs.Prelude.{ℕ, List};
    ghost use Rattle.ftp_base.specs.declared.reply.Reply.{Reply};

    ghost Value = { List (ℕ × Reply) };

    ghost view = { λ r. r.items.items };
}

impl Replies {
    pub(crate) fn from_vec(items: Vec<(u32, Reply)>) -> Replies
        ensures { result ≡ items.items }
    {
        Replies { items }
    }

    /// Lends the replies.
    pub fn as_slice(&self) -> &[(u32, Reply)]
        ensures { result.now ≡ self.now }
    {
        self.items.as_slice()
    }
}

/// What a session was sent before the entry and was not handed yet, and then the entry.
#[derive(Drop)]
pub struct Turn {
    pub earlier: Replies,
    pub submitted: Submitted,
}

impl Turn {
    /// The sessions that have replies waiting because of the entry, so that their loops can be woken: all that it replies
    /// to but the one that the event names. It takes no memory.
    ///
    /// # Proved
    ///
    /// - Who is to be woken is read from the entry: for each of its replies the session, but that of the event (also
    ///   `Submitted::others`; `Others::next`: `found`, `none`).
    pub fn others(&self) -> Others<'_>
        ensures { result ≡ others_in (own_session self.now.submitted.receipt.entry.event.kind) self.now.submitted.receipt.entry.actions }
    {
        let entry = &self.submitted.receipt.entry;
        Others::new(&entry.actions, own_session(&entry.event.kind))
    }
}

/// Sessions that have replies waiting, one for each reply, which contracts see as a list of those that are left.
#[derive(Drop)]
pub struct Others<'a> {
    actions: &'a [Action],
    own: Option<u64>,
    next: usize,
}

impl<'a> Model for Others<'a> {
    ghost use Rattle.std.specs.Prelude.{ℕ, List, drop};
    ghost use Rattle.ftp_shared.specs.Outbox.{others_in};

    ghost Value = { List ℕ };

    ghost view = { λ o. others_in o.own (drop o.next o.actions.now) };
}

impl<'a> Others<'a> {
    // Those beside one, because of an entry's actions.
    fn new(actions: &'a Actions, own: Option<u64>) -> Others<'a>
        ensures { result ≡ others_in own actions.now }
    {
        Others {
            actions: actions.as_slice(),
            own,
            next: 0,
        }
    }

    /// The next session.
    pub fn next(&mut self) -> Option<u64>
        ensures none { IfNone result ((self.old ≡ []) × (self.new ≡ [])) }
        ensures found { IfSome result (λ s. self.old ≡ s ∷ self.new) }
    {
        while self.next < self.actions.len() {
            let actions = self.actions;
            let found = waits(self.own, &actions[self.next]);
            self.next += 1;
            if found.is_some() {
                return found;
            }
        }
        None
    }
}

// The session that has a reply waiting because of an action.
fn waits(own: Option<u64>, action: &Action) -> Option<u64>
    ensures { result ≡ waits own action.now }
{
    match action {
        Action::Reply { session, .. } if own != Some(*session) => Some(*session),
        _ => None,
    }
}
