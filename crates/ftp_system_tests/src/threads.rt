//! Threads of the system.

use crate::same::same;
use ftp_base::Spawner;
use ftp_system::{Queue, SystemThreads, start};
use std::sync::Arc;

/// Lets no thread be started, and counts those that were asked for.
#[derive(Drop)]
struct NoThreads {
    faults: u64,
}

impl Spawner for NoThreads {
    ghost faults = { λ s. s.faults };

    fn admits(&mut self) -> bool {
        self.faults = self.faults.saturating_add(1);
        false
    }

    fn refused(&mut self) {
        self.faults = self.faults.saturating_add(1);
    }
}

#[test]
fn work_is_done_by_a_thread_of_its_own(rt: HostRuntime) {
    let queue = Arc::new(rt.alloc(), Queue::new(rt.alloc())).expect(&rt, "a value");
    let theirs = Arc::try_clone(&queue).expect(&rt, "a copy");
    let refused = start(&rt, &mut SystemThreads::new(), move || {
        let _ = theirs.put(&rt, 7u64);
    });
    same(&rt, &refused.is_none(), &true);
    // It comes from the other thread, for which this one waits.
    same(&rt, &queue.take(&rt), &Some(7));
}

#[test]
fn work_that_no_thread_takes_comes_back(rt: HostRuntime) {
    let queue = Arc::new(rt.alloc(), Queue::new(rt.alloc())).expect(&rt, "a value");
    let theirs = Arc::try_clone(&queue).expect(&rt, "a copy");
    let mut none = NoThreads { faults: 0 };
    let refused = start(&rt, &mut none, move || {
        let _ = theirs.put(&rt, 7u64);
    });
    let work = refused.expect(&rt, "the work is gone");
    work();
    same(&rt, &(queue.take(&rt), none.faults), &(Some(7), 1));
}
