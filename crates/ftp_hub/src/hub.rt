//! The tables of the hub, and what can be asked of them.

ghost use Rattle.std.specs.Prelude.{◌≡◌, None, false};
ghost use Rattle.ftp_options.specs.Modes.{is_legacy};
ghost use Rattle.ftp_lockout.specs.declared.key.LoginKey.{LoginKey};
ghost use Rattle.ftp_handlers.specs.Handlers.{failures_in, policy_in};

use crate::twin::Copies;
use ftp_events::{Counters, Running, Session};
use ftp_handlers::Room;
use ftp_lockout::FailedLoginsCache;
use ftp_options::{FailedLoginsPolicy, Options};
use ftp_switchboard::{Numbers, Switchboard};
use std::alloc::Global;
use std::collections::HashMap;

/// The sessions that are live, the jobs that run, the numbers that were used, the passive ports that are held, and the
/// failed logins.
#[derive(Drop)]
pub struct Hub {
    pub(crate) alloc: Global,
    pub(crate) options: Options,
    pub(crate) sessions: HashMap<u64, Session>,
    // The job that runs for a session, which may have ended.
    pub(crate) jobs: HashMap<u64, Running>,
    pub(crate) numbers: Numbers,
    // Where each session has a listener of its own, nobody holds a port here, and the range is of no use.
    pub(crate) board: Switchboard,
    // There is a table where failed logins lock at all.
    pub(crate) failures: Option<FailedLoginsCache>,
    // The room of the next event, and what is copied for it where its entry is given twice; none before the first.
    pub(crate) spare: Option<Box<Room>>,
    pub(crate) spare_copies: Option<Box<Copies>>,
    // Every session was ended, and no other is opened.
    pub(crate) stopped: bool,
    pub(crate) counters: Counters,
    pub(crate) count: u64,
    ghost lo: { is_legacy options.mode ≡ false → board.lo ≡ options.lo },
    ghost hi: { is_legacy options.mode ≡ false → board.hi ≡ options.hi },
    ghost policy: { policy_in failures ≡ options.lockout },
}

impl Hub {
    ghost use Rattle.std.specs.Prelude.{◌≡◌, ◌==◌, ◌&&◌, [], List, is_some};
    ghost use Rattle.ftp_options.specs.declared.options.Options.{Options};
    ghost use Rattle.ftp_events.specs.declared.entry.Entry.{Entry};
    ghost use Rattle.ftp_events.specs.Counts.{Counted};
    ghost use Rattle.ftp_events.specs.Log.{past_of};
    ghost use Rattle.ftp_events.specs.Session.{session, live_count};
    ghost use Rattle.ftp_events.specs.Running.{running_count};
    ghost use Rattle.ftp_hub.specs.Stands.{Stands, options_of, count_of, counters_of};

    /// A hub to which nothing has happened.
    ///
    /// # Proved
    ///
    /// - A new hub stands for the empty log, in every mode (`stands`; also `Hub::with_count`: `stands`), and has counted
    ///   nothing (`counters`; also `Hub::with_count`: `counters`).
    pub fn new(alloc: Global, options: Options) -> Hub
        ensures stands { Stands result [] }
        ensures options { options_of result ≡ options }
        ensures count { count_of result ≡ 0 }
        ensures counters { Counted options [] (counters_of result) }
    {
        Hub::with_count(alloc, options, 0)
    }

    /// A hub that has counted so many events, to try what happens at the end of the count.
    pub fn with_count(alloc: Global, options: Options, count: u64) -> Hub
        ensures stands { Stands result [] }
        ensures options { options_of result ≡ options }
        ensures count { count_of result ≡ count }
        ensures counters { Counted options [] (counters_of result) }
    {
        let board = Switchboard::new(alloc, options.lo.max(1), options.hi.max(1));
        let failures = no_failures(alloc, options.lockout);
        Hub {
            alloc,
            options,
            sessions: HashMap::new(alloc),
            jobs: HashMap::new(alloc),
            numbers: Numbers::new(alloc),
            board,
            failures,
            spare: None,
            spare_copies: None,
            stopped: false,
            counters: Counters::new(),
            count,
        }
    }

    /// The options that the hub was made from.
    ///
    /// # Proved
    ///
    /// - The options stay those that the hub was made from (also `Hub::step`, `run_event`, `run_events`: `options`).
    pub fn options(&self) -> &Options
        ensures { result.now ≡ options_of self.now }
    {
        &self.options
    }

    /// What was counted over the entries that were not refused, where counts are kept; else every count is 0.
    ///
    /// # Proved
    ///
    /// - The counters that are lent are those that the steps count.
    pub fn counters(&self) -> &Counters
        ensures { result.now ≡ counters_of self.now }
    {
        &self.counters
    }

    /// How many events were counted.
    pub fn events(&self) -> u64
        ensures { result ≡ count_of self.now }
    {
        self.count
    }

    /// How many sessions are live.
    ///
    /// # Proved
    ///
    /// - How many sessions are live, whether one is, how many transfers run, and whether there is neither, if the hub
    ///   stands for the log (also `Hub::is_live`; `Hub::running`; `Hub::drained`).
    pub fn sessions(&self) -> u64
        ensures { (log : List Entry) → Stands self.now log → result ≡ live_count (past_of log) }
    {
        self.sessions.len() as u64
    }

    /// How many jobs run.
    pub fn running(&self) -> u64
        ensures { (log : List Entry) → Stands self.now log → result ≡ running_count (past_of log) }
    {
        self.jobs.len() as u64
    }

    /// Says whether no job runs and no session is live.
    pub fn drained(&self) -> bool
        ensures { (log : List Entry) → Stands self.now log → result ≡ ((running_count (past_of log) == 0) && (live_count (past_of log) == 0)) }
    {
        self.running() == 0 && self.sessions() == 0
    }

    /// Says whether the session is live.
    pub fn is_live(&self, number: u64) -> bool
        ensures { (log : List Entry) → Stands self.now log → result ≡ is_some (session (options_of self.now) (past_of log) number) }
    {
        self.sessions.contains_key(&number)
    }
}

// The table of failed logins, of which there is none yet, where they lock at all.
fn no_failures(alloc: Global, policy: Option<FailedLoginsPolicy>) -> Option<FailedLoginsCache>
    ensures policy { policy_in result ≡ policy }
    ensures none { (key : LoginKey) → failures_in result key ≡ None }
{
    match policy {
        Some(policy) => Some(FailedLoginsCache::new(alloc, policy)),
        None => None,
    }
}
