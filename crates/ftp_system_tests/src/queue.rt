//! Values for threads.

use crate::same::same;
use ftp_system::{PutError, Queue};
use std::alloc::{AllocError, Global};
use std::sync::Wait;
use std::thread;
use std::time::{Clock, Duration};

#[test]
fn the_oldest_value_comes_first(rt: HostRuntime) {
    let queue = Queue::new(rt.alloc());
    // Nobody sleeps, so a thread is wanted for each.
    for value in [1, 2, 3] {
        same(&rt, &matches!(queue.put(&rt, value), Ok(true)), &true);
    }
    for value in [1, 2] {
        same(&rt, &queue.take(&rt), &Some(value));
    }
    queue.close(&rt);
    same(
        &rt,
        &matches!(queue.put(&rt, 4), Err(PutError::Closed(4))),
        &true,
    );
    // What was put before is taken all the same.
    for value in [Some(3), None] {
        same(&rt, &queue.take(&rt), &value);
    }
}

/// Takes all values up to the end.
fn take_all<R: Wait>(rt: &R, alloc: Global, queue: &Queue<u64>) -> Result<Vec<u64>, AllocError> {
    let mut values = Vec::new(alloc);
    for _ in rt.forever() {
        match queue.take(rt) {
            Some(value) => values.push(value)?,
            None => break,
        }
    }
    Ok(values)
}

/// Puts values in a row until the thread that takes them sleeps, and says how many that were.
fn put_until_asleep<R: Wait + Clock>(rt: &R, queue: &Queue<u64>) -> Option<u64> {
    let mut put = None;
    for value in 0..1000 {
        if let Ok(false) = queue.put(rt, value) {
            put = Some(value + 1);
            break;
        }
        thread::sleep(rt, Duration::from_millis(5));
    }
    queue.close(rt);
    put
}

/// Says whether the values are those in a row, so many.
fn is_row(values: &[u64], put: u64) -> bool {
    (0..put).eq(values.iter().copied())
}

#[test]
fn a_thread_that_sleeps_takes_the_next_value(rt: HostRuntime) {
    let queue = Queue::new(rt.alloc());
    let alloc = rt.alloc();
    let (taken, put) = thread::join(
        &rt,
        || take_all(&rt, alloc, &queue),
        || put_until_asleep(&rt, &queue),
    );
    let put = put.expect(&rt, "nobody slept");
    let taken = taken.expect(&rt, "values");
    same(&rt, &is_row(taken.as_slice(), put), &true);
}

#[test]
fn a_thread_that_rests_too_long_ends(rt: HostRuntime) {
    let queue = Queue::new(rt.alloc());
    same(&rt, &matches!(queue.put(&rt, 1), Ok(true)), &true);
    for value in [Some(1), None] {
        same(&rt, &queue.take_or_rest(&rt, 10, 0), &value);
    }
    // It sleeps no more.
    same(&rt, &matches!(queue.put(&rt, 2), Ok(true)), &true);
}
