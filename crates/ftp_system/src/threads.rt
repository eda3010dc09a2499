//! Threads of the system.

ghost use Rattle.std.specs.Prelude.{◌≡◌, ◌≤◌, IfSome, IsSome};
ghost use Rattle.ftp_base.specs.Outside.{HasRisen};

use ftp_base::Spawner;
use std::thread::{Builder, Promise, Threads};

/// The stack of a thread, in bytes. What is not used takes no memory.
const STACK: usize = 524_288;

/// Admits every thread, and counts those that could not be made.
#[derive(Drop)]
pub struct SystemThreads {
    faults: u64,
}

impl SystemThreads {
    pub fn new() -> SystemThreads {
        SystemThreads { faults: 0 }
    }
}

impl Spawner for SystemThreads {
    ghost faults = { λ s. s.faults };

    fn admits(&mut self) -> bool {
        true
    }

    fn refused(&mut self) {
        self.faults = self.faults.saturating_add(1);
    }
}

/// Nothing is promised of what a thread gives.
#[derive(Clone, Copy)]
struct NoPromise;

impl Promise<()> for NoPromise {
    ghost use Rattle.std.specs.Prelude.{⊤};

    ghost kept_by = { λ _ _. ⊤ };
}

/// Starts the work in a thread of its own, or gives it back.
///
/// # Proved
///
/// - Work that no thread took comes back, and is counted (`returned`, `fault_rose`, `count`).
pub fn start<R: Threads, P: Spawner, F: FnOnce() + Send + 'static>(
    rt: &R,
    spawner: &mut P,
    work: F,
) -> Option<F>
    requires callable { F.pre work }
    ensures returned { IfSome result (λ f. f ≡ work) }
    ensures fault_rose { IsSome result → HasRisen (P.faults spawner.old) (P.faults spawner.new) }
    ensures count { P.faults spawner.old ≤ P.faults spawner.new }
{
    if !spawner.admits() {
        return Some(work);
    }
    match Builder::new()
        .stack_size(STACK)
        .spawn_with(rt, NoPromise, work)
    {
        Ok(handle) => {
            drop(handle);
            None
        }
        Err(refused) => {
            let work = refused.value;
            spawner.refused();
            Some(work)
        }
    }
}
