//! Numbers that were used, as intervals.

use crate::same::same;
use ftp_switchboard::{Interval, Numbers};
use std::alloc::{AllocError, Global};

/// Numbers in the order in which they are put, and their intervals.
const ROWS: [(&[u64], &[Interval]); 2] = [
    (&[1, 3, 2, 2], &[Interval { lo: 1, hi: 3 }]),
    // The highest number can be put.
    (
        &[u64::MAX, 0, u64::MAX - 1, 0],
        &[
            Interval { lo: 0, hi: 0 },
            Interval {
                lo: u64::MAX - 1,
                hi: u64::MAX,
            },
        ],
    ),
];

fn numbers(alloc: Global, of: &[u64]) -> Result<Numbers, AllocError> {
    let mut numbers = Numbers::new(alloc);
    for n in of {
        numbers.make_room()?;
        numbers.put(*n);
    }
    Ok(numbers)
}

#[test]
fn numbers_in_a_row_are_one_interval(rt: HostRuntime) {
    for (of, intervals) in &ROWS {
        let numbers = numbers(rt.alloc(), of).expect(&rt, "numbers");
        let found = numbers.intervals(rt.alloc()).expect(&rt, "intervals");
        same(&rt, &found.as_slice(), intervals);
    }
}

#[test]
fn a_number_that_was_put_is_told(rt: HostRuntime) {
    let numbers = numbers(rt.alloc(), &[1, 3, 2, 2, u64::MAX]).expect(&rt, "numbers");
    for (number, is_told) in [
        (0, false),
        (1, true),
        (3, true),
        (4, false),
        (u64::MAX, true),
    ] {
        same(&rt, &(number, numbers.has(number)), &(number, is_told));
    }
}
