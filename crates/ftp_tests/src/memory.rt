//! Sources, sinks and links in memory, with calls that fail.

use crate::same::same;
use crate::values::source;
use ftp_base::{Failed, Link, LinkFault, MemoryLink, MemorySink, Sink, Source};
use std::alloc::{AllocError, Global};

/// What a call reads, and what its four bytes are then.
const READ: [(Result<usize, Failed>, &[u8; 4]); 6] = [
    (Ok(2), b"ab\0\0"),
    (Err(Failed::Fault), b"ab\0\0"),
    (Err(Failed::Fault), b"ab\0\0"),
    (Ok(2), b"cd\0\0"),
    (Ok(1), b"ed\0\0"),
    (Ok(0), b"ed\0\0"),
];

#[test]
fn a_source_is_read_in_pieces(rt: HostRuntime) {
    let mut source = source(rt.alloc(), b"abcde", 2, &[2, 3]).expect(&rt, "a source");
    let mut out = [0; 4];
    for (read, shown) in &READ {
        same(&rt, &source.read(&mut out), read);
        same(&rt, &out, *shown);
    }
}

fn sink(alloc: Global, fails: &[u64]) -> Result<MemorySink, AllocError> {
    Ok(MemorySink::new(alloc, 4, fails.to_vec(alloc)?))
}

const WRITTEN: [(&[u8], Result<usize, Failed>); 3] = [
    (b"hello", Err(Failed::Fault)),
    (b"hello", Ok(4)),
    (b"o", Ok(1)),
];

#[test]
fn a_sink_keeps_what_it_took(rt: HostRuntime) {
    let mut sink = sink(rt.alloc(), &[1]).expect(&rt, "a sink");
    for (bytes, written) in &WRITTEN {
        same(&rt, &sink.write(bytes), written);
    }
    same(&rt, &sink.written(), &b"hello".as_slice());
}

fn link(alloc: Global, fails: &[(u64, LinkFault)]) -> Result<MemoryLink, AllocError> {
    let fails = fails.to_vec(alloc)?;
    Ok(MemoryLink::new(alloc, b"in".to_vec(alloc)?, 3, fails))
}

/// What is written and how that goes, with the last fault then.
const SENT: [(&[u8], Result<usize, Failed>, Option<LinkFault>); 3] = [
    (b"hello", Ok(3), None),
    (b"lo", Err(Failed::Fault), Some(LinkFault::Reset)),
    (b"lo", Ok(2), Some(LinkFault::Reset)),
];

#[test]
fn the_listed_call_fails_and_the_next_goes_on(rt: HostRuntime) {
    let mut link = link(rt.alloc(), &[(2, LinkFault::Reset)]).expect(&rt, "a link");
    for (bytes, written, fault) in &SENT {
        same(&rt, &link.write(bytes), written);
        same(&rt, &link.last_fault(), fault);
    }
    same(&rt, &link.sent(), &b"hello".as_slice());
    same(&rt, &(link.close(), link.is_closed()), &(Ok(()), true));
}
