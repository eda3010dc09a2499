//! What a test puts in the place of the system and of a server's user: a front, an indicator, gates, listeners, an authenticator,
//! a depot.

use crate::files::AnnsFiles;
use ftp_base::{
    AuthAnswer, Authenticator, Bytes, DataEvent, DataListener, EventMeta, Gate, IpAddr,
    PresenceEvent, PresenceListener, SocketAddr,
};
use ftp_extras::NoExtras;
use ftp_options::{Indicator, Shutdown};
use ftp_system::{Depot, Doors, Front, SharedDepot, SharedStorage};
use std::alloc::{AllocError, Global};
use std::sync::atomic::{AtomicBool, AtomicU64, Ordering};
use std::sync::{Arc, Wait};
use std::thread;
use std::time::{Clock, Duration};

/// What fronts, indicators, gates and listeners tell each other and their test.
#[derive(Drop)]
pub struct Board {
    /// The moment that the front gave last.
    pub latest: AtomicU64,
    /// How much later than its clock's the front's moments are.
    pub leap: AtomicU64,
    /// How often the indicator was asked, and how often with another moment.
    pub polls: AtomicU64,
    pub strange_polls: AtomicU64,
    /// The indicator asks for a shutdown.
    pub asks: AtomicBool,
    /// How many transfers have come to the gate, and whether it is open.
    pub arrivals: AtomicU64,
    pub is_open: AtomicBool,
    /// What listeners were told: logins, ends of sessions, downloads, uploads and all else.
    pub logins: AtomicU64,
    pub logouts: AtomicU64,
    pub gots: AtomicU64,
    pub puts: AtomicU64,
    pub others: AtomicU64,
    /// How many storages a depot gave.
    pub stores: AtomicU64,
}

pub type SharedBoard = Arc<Board, Global>;

/// What is counted on a board.
#[derive(Clone, Copy)]
pub enum Sign {
    Polls,
    Arrivals,
    Logins,
    Logouts,
    Gots,
    Puts,
}

impl Board {
    pub fn count(&self, sign: Sign) -> &AtomicU64 {
        match sign {
            Sign::Polls => &self.polls,
            Sign::Arrivals => &self.arrivals,
            Sign::Logins => &self.logins,
            Sign::Logouts => &self.logouts,
            Sign::Gots => &self.gots,
            Sign::Puts => &self.puts,
        }
    }

    /// The front's clock goes forward by so many milliseconds, and polls are counted anew.
    pub fn go_forward(&self, millis: u64) {
        self.leap.store(millis, Ordering::SeqCst);
        self.polls.store(0, Ordering::SeqCst);
    }

    /// Says whether the indicator was asked, and each time with the moment that the front gave last.
    pub fn polls_agree(&self) -> bool {
        self.polls.load(Ordering::SeqCst) > 0 && self.strange_polls.load(Ordering::SeqCst) == 0
    }
}

/// A board on which nothing stands yet.
pub fn new_board(alloc: Global) -> Result<SharedBoard, AllocError> {
    let board = Board {
        latest: AtomicU64::new(0),
        leap: AtomicU64::new(0),
        polls: AtomicU64::new(0),
        strange_polls: AtomicU64::new(0),
        asks: AtomicBool::new(false),
        arrivals: AtomicU64::new(0),
        is_open: AtomicBool::new(false),
        logins: AtomicU64::new(0),
        logouts: AtomicU64::new(0),
        gots: AtomicU64::new(0),
        puts: AtomicU64::new(0),
        others: AtomicU64::new(0),
        stores: AtomicU64::new(0),
    };
    match Arc::new(alloc, board) {
        Ok(board) => Ok(board),
        Err(_) => Err(AllocError),
    }
}

/// Lets ann in by the password x, from 127.0.0.1 and from 192.0.2.0 to 192.0.2.255.
#[derive(Clone, Copy, Debug, PartialEq, Eq)]
pub struct OnlyAnn;

impl Authenticator for OnlyAnn {
    ghost use Rattle.std.specs.Prelude.{true};

    ghost may_answer = { λ _ _ _ _ _. true };

    fn check(&self, user: &Bytes, password: &Bytes, source: IpAddr) -> AuthAnswer {
        let is_near = match source {
            IpAddr::V4(bits) => bits == 0x7f00_0001 || bits >> 8 == 0x00c0_0002,
            IpAddr::V6(_) => false,
        };
        if is_near
            && user.as_slice() == b"ann".as_slice()
            && password.as_slice() == b"x".as_slice()
        {
            AuthAnswer::Good
        } else {
            AuthAnswer::Refused
        }
    }
}

/// Counts on the board what it is told.
#[derive(Drop)]
pub struct Counting {
    pub board: SharedBoard,
}

impl DataListener for Counting {
    ghost use Rattle.std.specs.Prelude.{None};

    ghost heard = { λ _. None };

    fn receive_data_event(&mut self, e: &DataEvent, _m: &EventMeta) {
        match e {
            DataEvent::Got { .. } => self.board.gots.fetch_add(1, Ordering::SeqCst),
            DataEvent::Put { .. } => self.board.puts.fetch_add(1, Ordering::SeqCst),
            _ => self.board.others.fetch_add(1, Ordering::SeqCst),
        };
    }
}

impl PresenceListener for Counting {
    ghost use Rattle.std.specs.Prelude.{None};

    ghost heard = { λ _. None };

    fn receive_presence_event(&mut self, e: &PresenceEvent, _m: &EventMeta) {
        match e {
            PresenceEvent::LoggedIn => self.board.logins.fetch_add(1, Ordering::SeqCst),
            PresenceEvent::LoggedOut => self.board.logouts.fetch_add(1, Ordering::SeqCst),
        };
    }
}

/// A front that tells its latest moment, which is later by the board's leap.
#[derive(Drop)]
pub struct Watched<F: Front + Drop> {
    pub front: F,
    pub board: SharedBoard,
    pub latest: u64,
}

impl<F: Front + Drop> Front for Watched<F> {
    ghost faults = { λ w. F.faults w.front };

    ghost latest = { λ w. w.latest };

    fn open_doors(
        &mut self,
        at: SocketAddr,
        ports: Option<(u16, u16)>,
    ) -> Result<Option<Doors>, AllocError> {
        self.front.open_doors(at, ports)
    }

    fn now(&mut self) -> u64 {
        let leap = self.board.leap.load(Ordering::SeqCst);
        let at = self.front.now().saturating_add(leap);
        self.latest = at;
        self.board.latest.store(at, Ordering::SeqCst);
        at
    }
}

/// Asks for a shutdown from when the board says so, and looks at the moments that it is given.
#[derive(Drop)]
pub struct Asks {
    pub board: SharedBoard,
    pub shutdown: Shutdown,
    /// When it asked first, and with which grace period.
    pub asked: Option<(u64, u64)>,
}

impl Indicator for Asks {
    ghost asked = { λ a. a.asked };

    fn poll(&mut self, at: u64) -> Option<Shutdown> {
        self.board.polls.fetch_add(1, Ordering::SeqCst);
        if at != self.board.latest.load(Ordering::SeqCst) {
            self.board.strange_polls.fetch_add(1, Ordering::SeqCst);
        }
        if self.asked.is_some() {
            return Some(self.shutdown);
        }
        if !self.board.asks.load(Ordering::SeqCst) {
            return None;
        }
        // The front's next moment is a later one.
        self.board.leap.fetch_add(1, Ordering::SeqCst);
        self.asked = Some((at, self.shutdown.grace_ms));
        Some(self.shutdown)
    }
}

/// Holds every transfer back until the board says that it is open.
#[derive(Drop)]
pub struct Held<C: Clock + Drop> {
    pub clock: C,
    pub board: SharedBoard,
}

impl<C: Clock + Drop> Gate for Held<C> {
    fn pass(&self, _call: u64) {
        self.board.arrivals.fetch_add(1, Ordering::SeqCst);
        for _ in 0..u64::MAX {
            if self.board.is_open.load(Ordering::SeqCst) {
                return;
            }
            thread::sleep(&self.clock, Duration::from_millis(1));
        }
    }
}

/// How many turns the first transfer waits for the second.
const TURNS: u32 = 1_000_000;

/// Holds the first transfer back until the second has come, and opens the gate on the board where the first did not wait in vain.
#[derive(Drop)]
pub struct InPairs {
    pub board: SharedBoard,
}

impl Gate for InPairs {
    fn pass(&self, call: u64) {
        if call != 1 {
            self.board.arrivals.fetch_add(1, Ordering::SeqCst);
            return;
        }
        for _ in 0..TURNS {
            if self.board.arrivals.load(Ordering::SeqCst) > 0 {
                self.board.is_open.store(true, Ordering::SeqCst);
                return;
            }
            thread::yield_now();
        }
    }
}

/// A depot of one storage, which counts on the board the storages that it gives.
#[derive(Drop)]
pub struct CountedDepot<R: Wait + Copy + Drop> {
    pub files: SharedDepot<R, AnnsFiles>,
    pub board: SharedBoard,
}

impl<R: Wait + Copy + Drop> Depot for CountedDepot<R> {
    type Store = SharedStorage<R, AnnsFiles>;

    type Words = NoExtras;

    fn store(&self) -> Result<SharedStorage<R, AnnsFiles>, AllocError> {
        self.board.stores.fetch_add(1, Ordering::SeqCst);
        self.files.store()
    }

    fn words(&self) -> Result<NoExtras, AllocError> {
        self.files.words()
    }
}
