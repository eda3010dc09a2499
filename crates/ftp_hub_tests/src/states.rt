//! Texts of states, and texts that no state has.

use crate::same::same;
use ftp_base::Bytes;
use ftp_hub::StateError;
use ftp_text::{decode_state, encode_state};
use std::alloc::{AllocError, Global};

// A client that logged in and asked for a passive port.
const ANN: &[u8] = b"checkpoint 1 5 0\n\
    used 1 1\n\
    session 1 10.0.0.1:4000 10.0.0.9:21 10.0.0.1 1 cmd 1 0 0 1 3 ann/\n\
    slot 1 1 waits 50000\n";

// Records of addresses and names, sessions in each state, a slot with a link and a waiting transfer, and two jobs.
const MANY: &[u8] = b"checkpoint 1 18446744073709551615 1\n\
    used 1 4\n\
    used 6 18446744073709551615\n\
    record 3 70 10.0.0.1 3 ann\n\
    record 1 71 10.0.0.1 3 bob\n\
    record 4294967295 0 [00000000000000000000000000000001] 0 \n\
    session 1 10.0.0.1:4000 10.0.0.9:21 10.0.0.1 1 new 0 0 0 0 - /\n\
    session 2 [00000000000000000000000000000001]:4000 10.0.0.9:21 10.0.0.1 2 pass 1 0 0 0 3 a\\xc3\\xa4/\n\
    session 3 10.0.0.1:4000 10.0.0.9:21 10.0.0.1 3 out 5 0 0 0 0 /\n\
    session 4 10.0.0.1:4000 10.0.0.9:21 10.0.0.1 4 cmd 5 7 3 1 3 ann/a b\n\
    slot 4 9 link 11\n\
    queued 4 3 7 list 2 - -l/a b\n\
    session 6 10.0.0.1:4000 10.0.0.9:21 10.0.0.1 4 cmd 5 0 3 1 3 ann/\n\
    job 4 2 7 8192 1 12 stor 3 - 2 annf1/a b/f1\n\
    job 5 1 0 0 0 13 mlsd 0 - - /\n";

fn written_again(alloc: Global, text: &[u8]) -> Result<Bytes, StateError> {
    let state = decode_state(alloc, text)?;
    Ok(encode_state(alloc, &state)?)
}

fn is_text(alloc: Global, text: &[u8]) -> bool {
    match written_again(alloc, text) {
        Ok(again) => again.as_slice() == text,
        Err(_) => false,
    }
}

#[test]
fn a_state_is_written_as_it_was_read(rt: HostRuntime) {
    let alloc = rt.alloc();
    for text in [ANN, MANY, b"checkpoint 1 0 0\n"] {
        same(&rt, &is_text(alloc, text), &true);
    }
}

/// The number of the first bad line, or 0 where the text is a state's.
fn bad_line(alloc: Global, text: &[u8]) -> Result<u64, AllocError> {
    match decode_state(alloc, text) {
        Ok(_) => Ok(0),
        Err(StateError::BadLine(number)) => Ok(number),
        Err(_) => Err(AllocError),
    }
}

const BAD_LINES: [(&[u8], u64); 22] = [
    // The last line may lack its line feed, and no line is skipped.
    (b"checkpoint 1 5 0\nused 1 1", 0),
    (b"", 1),
    (b"used 1 1\n", 1),
    (b"checkpoint 2 5 0\n", 1),
    (b"checkpoint 1 5 2\n", 1),
    (b"checkpoint 1 05 0\n", 1),
    (b"checkpoint 1 5 0\n\n", 2),
    (b"checkpoint 1 5 0\n# nothing\n", 2),
    (b"checkpoint 1 5 0\ncheckpoint 1 5 0\n", 2),
    // Intervals that are none, or touch.
    (b"checkpoint 1 5 0\nused 2 1\n", 2),
    (b"checkpoint 1 5 0\nused 1 1\nused 2 2\n", 3),
    // A key that stands already, keys of two policies, and no key.
    (b"checkpoint 1 5 0\nrecord 1 0 - 1 a\nrecord 1 0 - 1 a\n", 3),
    (
        b"checkpoint 1 5 0\nrecord 1 0 - 1 a\nrecord 1 0 10.0.0.1 1 a\n",
        3,
    ),
    (b"checkpoint 1 5 0\nrecord 1 0 - - \n", 2),
    // Lengths that are not those of the text.
    (b"checkpoint 1 5 0\nrecord 1 0 - 3 an\n", 2),
    (b"checkpoint 1 5 0\nrecord 1 0 - 1 an\n", 2),
    (b"checkpoint 1 5 0\nrecord 1 0 - 4 \\xc3\\xa4\n", 2),
    // A directory that is none, numbers that do not rise, and what has no session or no slot.
    (
        b"checkpoint 1 5 0\nsession 1 10.0.0.1:1 10.0.0.9:21 10.0.0.1 1 new 0 0 0 0 - a\n",
        2,
    ),
    (b"checkpoint 1 5 0\nslot 1 1 waits 50000\n", 2),
    (
        b"checkpoint 1 5 0\nused 1 1\nsession 1 10.0.0.1:1 10.0.0.9:21 10.0.0.1 1 cmd 0 0 0 0 0 /\nqueued 1 1 0 retr - 1 f/f\n",
        4,
    ),
    (
        b"checkpoint 1 5 0\njob 2 1 0 0 0 3 retr 0 - 1 f/f\njob 2 2 0 0 0 4 retr 0 - 1 f/f\n",
        3,
    ),
    (b"checkpoint 1 5 0\njob 2 1 0 0 0 3 nlst 0 1 1 af/f\n", 2),
];

#[test]
fn the_first_bad_line_is_told(rt: HostRuntime) {
    for (text, due) in &BAD_LINES {
        same(&rt, &bad_line(rt.alloc(), text), &Ok(*due));
    }
}
