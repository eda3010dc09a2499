//! What a server is told before it serves.

ghost use Rattle.std.specs.Prelude.{◌≡◌, ◌≤◌, Some};

use crate::server::Server;
use ftp_shared::JournalFeed;
use std::alloc::Global;
use std::sync::Arc;

impl<S: Drop> Server<S> {
    /// There are at most so many sessions at a time. A connection that is one too many is told 421 and closed.
    pub fn most_sessions(&mut self, all: u64)
        ensures limit { self.new.limits ≡ record self.old.limits { all = all } }
        ensures every { self.new.every ≡ self.old.every }
        ensures options { self.new.options ≡ self.old.options }
    {
        self.limits.all = all;
    }

    /// There are at most so many sessions of one client address at a time; else as `most_sessions`.
    pub fn most_sessions_of_one(&mut self, of_one: u64)
        ensures limit { self.new.limits ≡ record self.old.limits { of_one = of_one } }
        ensures every { self.new.every ≡ self.old.every }
        ensures options { self.new.options ≡ self.old.options }
    {
        self.limits.of_one = of_one;
    }

    /// Keeps of the journal a checkpoint, and so many entries behind it at most. What the server needs is bounded then by what
    /// is live, and does not grow with what has happened.
    ///
    /// # Proved
    ///
    /// - A server that is told so keeps so many entries at most (`every`, `limits`, `options`; also
    ///   `PreboundListener::checkpoint_every`: `every`, `options`; `Cut::tail`: `bounded`).
    pub fn checkpoint_every(&mut self, every: u64)
        requires some { 1 ≤ every }
        ensures every { self.new.every ≡ Some every }
        ensures limits { self.new.limits ≡ self.old.limits }
        ensures options { self.new.options ≡ self.old.options }
    {
        self.every = Some(every);
    }

    /// Hands each entry of the journal to a feed, in order, once it is decided. A thread of the caller's takes them out; where it
    /// does not keep up, it is told that entries are lost. The caller closes the feed once the server has ended.
    pub fn feed_journal(&mut self, feed: Arc<JournalFeed, Global>)
        ensures limits { self.new.limits ≡ self.old.limits }
        ensures every { self.new.every ≡ self.old.every }
        ensures options { self.new.options ≡ self.old.options }
    {
        self.feed = Some(feed);
    }

    /// Has the thread of each session run its small downloads itself, in place of another thread. `listen_with` does not, as the
    /// caller's gate may hold a download back, and its session would not hear an ABOR meanwhile.
    pub fn run_small_downloads(&mut self)
        ensures limits { self.new.limits ≡ self.old.limits }
        ensures every { self.new.every ≡ self.old.every }
        ensures options { self.new.options ≡ self.old.options }
    {
        self.runs_small = true;
    }
}
