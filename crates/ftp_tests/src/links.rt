//! A link is lent and written through.

use crate::same::same;
use ftp_base::{Failed, InsertError, Link, LinkTable, MemoryLink};
use std::alloc::{AllocError, Global};

/// Inserts a link that gives bytes, two in a call, and says whether its number was free.
fn is_inserted(
    table: &mut LinkTable<MemoryLink>,
    alloc: Global,
    number: u64,
    input: &[u8],
) -> Result<bool, AllocError> {
    let input = input.to_vec(alloc)?;
    let link = MemoryLink::new(alloc, input, 2, Vec::new(alloc));
    match table.insert(number, link) {
        Ok(()) => Ok(true),
        Err(InsertError::Taken(_)) => Ok(false),
        Err(InsertError::OutOfMemory(_)) => Err(AllocError),
    }
}

/// Reads from the link at a number.
fn read_at<L: Link>(
    table: &mut LinkTable<L>,
    number: u64,
    out: &mut [u8],
) -> Option<Result<usize, Failed>> {
    match table.get_mut(number) {
        None => None,
        Some(link) => Some(link.read(out)),
    }
}

/// Closes the link at a number, and says whether it is closed then.
fn close_at(table: &mut LinkTable<MemoryLink>, number: u64) -> Option<bool> {
    if let Some(link) = table.get_mut(number) {
        let _ = link.close();
    }
    Some(table.get(number)?.is_closed())
}

const INSERTED: [(&[u8], bool); 2] = [(b"abc", true), (b"xyz", false)];

const READ: [(u64, Option<Result<usize, Failed>>); 2] = [(7, Some(Ok(2))), (8, None)];

#[test]
fn a_number_has_one_link_which_is_lent(rt: HostRuntime) {
    let mut table = LinkTable::new(rt.alloc());
    for (input, is_free) in &INSERTED {
        let inserted = is_inserted(&mut table, rt.alloc(), 7, input);
        same(&rt, &inserted, &Ok(*is_free));
    }
    let numbers = table.numbers(rt.alloc()).expect(&rt, "numbers");
    same(&rt, &numbers.as_slice(), &[7].as_slice());
    let mut out = [0; 4];
    for (number, read) in &READ {
        same(&rt, &read_at(&mut table, *number, &mut out), read);
        same(&rt, &out, b"ab\0\0");
    }
    same(&rt, &close_at(&mut table, 7), &Some(true));
}
