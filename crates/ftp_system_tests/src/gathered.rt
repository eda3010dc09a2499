//! Pieces over a link in memory, some of whose calls fail: a call that is made too early or too often meets a fault.

use crate::same::same;
use ftp_base::{Failed, Link, LinkFault, MemoryLink, Source};
use ftp_system::{Gathered, gathering_buffer};
use std::alloc::{AllocError, Global};
use std::process::Abort;

/// A transfer's piece, which is gathered. What is shorter goes at once.
const PIECE: usize = 8192;

/// A link that gives `abcdef`, moves all that it is handed, and fails at this call.
fn link(alloc: Global, fails: u64) -> Result<MemoryLink, AllocError> {
    let fails = [(fails, LinkFault::Reset)].to_vec(alloc)?;
    Ok(MemoryLink::new(alloc, b"abcdef".to_vec(alloc)?, 1_000_000, fails))
}

/// What is done after the pieces were written.
#[derive(Clone, Copy)]
enum Last {
    Nothing,
    Flush,
    Close,
    Read,
    Short,
}

/// Does the last thing, and says whether it went well.
fn done<L: Link>(gathered: &mut Gathered<L>, last: Last) -> bool {
    match last {
        Last::Nothing => true,
        Last::Flush => gathered.flush().is_ok(),
        Last::Close => gathered.close().is_ok(),
        Last::Read => gathered.read(&mut [0; 3]) == Ok(3),
        Last::Short => gathered.write(b"end") == Ok(3),
    }
}

/// A piece of one letter.
fn piece(alloc: Global, letter: u8) -> Result<Vec<u8>, AllocError> {
    Vec::from_elem(alloc, letter, PIECE)
}

/// So many letters of each piece that was sent, in their order, and of an end of three.
fn sent_pieces(alloc: Global, letters: &[u8], end: &[u8]) -> Result<Vec<u8>, AllocError> {
    let mut sent = Vec::new(alloc);
    for letter in letters {
        sent.extend_from_slice(piece(alloc, *letter)?.as_slice())?;
    }
    sent.extend_from_slice(end)?;
    Ok(sent)
}

/// How many pieces the buffer takes, which call fails, what is done last, whether that goes well; what was sent then, and whether
/// the link is closed.
type Row = (usize, u64, Last, bool, &'static [u8], &'static [u8], bool);

const ROWS: [Row; 10] = [
    // Nothing goes before it has to.
    (3, 1, Last::Nothing, true, b"", b"", false),
    // All goes in one call, and the link stays open.
    (3, 2, Last::Flush, true, b"xyz", b"", false),
    (3, 1, Last::Flush, false, b"", b"", false),
    // All goes in one call, and then the link is closed.
    (3, 3, Last::Close, true, b"xyz", b"", true),
    (3, 2, Last::Close, false, b"xyz", b"", false),
    // What is shorter than a piece takes all with it.
    (4, 2, Last::Short, true, b"xyz", b"end", false),
    (4, 1, Last::Short, false, b"", b"", false),
    // All goes before anything is read, and that in one call.
    (3, 3, Last::Read, true, b"xyz", b"", false),
    (3, 2, Last::Read, false, b"xyz", b"", false),
    // What the buffer has no more room for goes ahead of what comes.
    (2, 2, Last::Nothing, true, b"xy", b"", false),
];

/// A link, which fails at a call, behind a buffer for so many pieces.
fn gathered(alloc: Global, fails: u64, room: usize) -> Result<Gathered<MemoryLink>, AllocError> {
    let buffer = Vec::from_elem(alloc, 0u8, room.saturating_mul(PIECE))?;
    Ok(Gathered::new(link(alloc, fails)?, buffer))
}

/// Writes three pieces, and says whether each is taken whole.
fn takes_three(alloc: Global, gathered: &mut Gathered<MemoryLink>) -> Result<bool, AllocError> {
    let mut is_taken = true;
    for letter in b"xyz" {
        let piece = piece(alloc, *letter)?;
        is_taken = gathered.write(piece.as_slice()) == Ok(PIECE) && is_taken;
    }
    Ok(is_taken)
}

/// Compares what a link was sent, and whether it is closed.
fn compare(rt: &impl Abort, alloc: Global, link: &MemoryLink, row: &Row) {
    let (room, fails, _, _, letters, end, is_closed) = row;
    let sent = sent_pieces(alloc, letters, end).expect(rt, "pieces");
    let due = (room, fails, sent.as_slice(), *is_closed);
    same(rt, &(room, fails, link.sent(), link.is_closed()), &due);
}

#[test]
fn pieces_go_together_in_their_order(rt: HostRuntime) {
    for row in &ROWS {
        let (room, fails, last, goes, ..) = *row;
        let mut gathered = gathered(rt.alloc(), fails, room).expect(&rt, "a link");
        same(&rt, &takes_three(rt.alloc(), &mut gathered), &Ok(true));
        same(
            &rt,
            &(room, fails, done(&mut gathered, last)),
            &(room, fails, goes),
        );
        let (link, _, _) = gathered.into_rest(rt.alloc()).expect(&rt, "the rest");
        compare(&rt, rt.alloc(), &link, row);
    }
}

/// A link, which fails at a call, behind the buffer of a transfer.
fn over(alloc: Global, fails: u64) -> Result<Gathered<MemoryLink>, AllocError> {
    Ok(Gathered::new(link(alloc, fails)?, gathering_buffer(alloc)?))
}

#[test]
fn small_reads_are_answered_from_a_large_one(rt: HostRuntime) {
    let mut gathered = over(rt.alloc(), 2).expect(&rt, "a link");
    let mut taken = [0; 2];
    for pair in [b"ab", b"cd"] {
        same(&rt, &(gathered.read(&mut taken), &taken), &(Ok(2), pair));
    }
    let (_, buffer, rest) = gathered.into_rest(rt.alloc()).expect(&rt, "the rest");
    let due = (131_072, b"ef".as_slice());
    same(&rt, &(buffer.len(), rest.as_slice()), &due);
}

#[test]
fn a_fault_of_the_link_is_told(rt: HostRuntime) {
    let mut gathered = over(rt.alloc(), 1).expect(&rt, "a link");
    same(&rt, &gathered.last_fault(), &None);
    same(&rt, &gathered.read(&mut [0; 2]), &Err(Failed::Fault));
    same(&rt, &gathered.last_fault(), &Some(LinkFault::Reset));
}
