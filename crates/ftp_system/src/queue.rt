//! Values for threads, which sleep where there is none.

ghost use Rattle.std.specs.Prelude.{◌≡◌, IfErr};
ghost use Rattle.ftp_system.specs.Queue.{value_of};

use std::alloc::Global;
use std::collections::VecDeque;
use std::sync::{Condvar, CondvarTimeouts, Mutex, Wait};
use std::time::{Clock, Duration};

/// What lies under the lock.
#[derive(Drop)]
struct Waiting<T: Drop> {
    values: VecDeque<T>,
    // How many threads sleep.
    idle: u64,
    closed: bool,
}

impl<T: Drop> Waiting<T> {
    // What is given at once: the oldest value, or none at the end. Where there is neither one thread more sleeps.
    fn given(&mut self) -> Option<Option<T>> {
        if let Some(value) = self.values.pop_front() {
            return Some(Some(value));
        }
        if self.closed {
            return Some(None);
        }
        self.idle = self.idle.saturating_add(1);
        None
    }
}

/// Why a value was not put into a queue. The value comes back.
#[derive(Drop)]
pub enum PutError<T> {
    Closed(T),
    OutOfMemory(T),
}

/// A queue that any thread puts into and takes from, the oldest value first.
pub struct Queue<T: Drop> {
    waiting: Mutex<Waiting<T>>,
    come: Condvar,
}

impl<T: Drop> Drop for Queue<T> {
    fn drop(self) {
        let Queue { waiting, come } = self;
        drop(waiting);
        drop(come);
    }
}

impl<T: Drop> Queue<T> {
    pub fn new(alloc: Global) -> Queue<T> {
        Queue {
            waiting: Mutex::new(Waiting {
                values: VecDeque::new(alloc),
                idle: 0,
                closed: false,
            }),
            come: Condvar::new(),
        }
    }

    /// Puts a value at the end, and says whether a thread is wanted: fewer sleep than values wait.
    ///
    /// # Proved
    ///
    /// - A value that a queue did not take comes back (`returned`).
    pub fn put<R: Wait>(&self, rt: &R, value: T) -> Result<bool, PutError<T>>
        ensures returned { IfErr result (λ e. value_of e ≡ value) }
    {
        let mut waiting = self.waiting.lock(rt);
        if waiting.closed {
            return Err(PutError::Closed(value));
        }
        if let Err(failed) = waiting.values.push_back(value) {
            return Err(PutError::OutOfMemory(failed.value));
        }
        let wanted = waiting.values.len() as u64 > waiting.idle;
        drop(waiting);
        self.come.notify_one();
        Ok(wanted)
    }

    /// Takes the oldest value, and sleeps until there is one. None once the queue is closed and empty.
    pub fn take<R: Wait>(&self, rt: &R) -> Option<T> {
        let mut waiting = self.waiting.lock(rt);
        for _ in rt.forever() {
            if let Some(given) = waiting.given() {
                return given;
            }
            waiting = self.come.wait(rt, waiting);
            waiting.idle = waiting.idle.saturating_sub(1);
        }
        unreachable!()
    }

    /// Takes the oldest value, and sleeps until there is one. None once the queue is closed and empty; and where none came for
    /// so many milliseconds while more threads than a few slept.
    pub fn take_or_rest<R: Wait + Clock>(&self, rt: &R, millis: u64, few: u64) -> Option<T> {
        let mut waiting = self.waiting.lock(rt);
        for _ in rt.forever() {
            if let Some(given) = waiting.given() {
                return given;
            }
            let (again, waited) = self
                .come
                .wait_timeout(rt, waiting, Duration::from_millis(millis));
            waiting = again;
            let are_many = waiting.idle > few;
            waiting.idle = waiting.idle.saturating_sub(1);
            if waited.timed_out() && are_many && waiting.values.is_empty() {
                return None;
            }
        }
        unreachable!()
    }

    /// From now on nothing is put, and nobody sleeps.
    pub fn close<R: Wait>(&self, rt: &R) {
        self.waiting.lock(rt).closed = true;
        self.come.notify_all();
    }
}
