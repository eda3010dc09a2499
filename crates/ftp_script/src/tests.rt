//! The limits of scripts, and words that are no command. What scripts print is in the stored run of `ftp_script_cases`.

use ftp_base::{MemorySink, MemorySource};
use ftp_script_run::{
    Status, a_line_has_one_item, bytes_are_one_script, run_script, settled_runs_are_determined,
    taken_transfers_are_done, told_faults_are_listed,
};
use std::alloc::{AllocError, Global};

/// How a script ends.
fn end_of(alloc: Global, script: &[u8]) -> Result<Status, AllocError> {
    let words = [b"script".to_vec(alloc)?];
    let mut source = MemorySource::new(script.to_vec(alloc)?, 65536, Vec::new(alloc));
    let mut sink = MemorySink::new(alloc, 65536, Vec::new(alloc));
    Ok(run_script(alloc, &words, &mut source, &mut sink))
}

/// So many lines of a comment of 65,535 bytes and a line feed, and a line of so many bytes.
fn comments(alloc: Global, lines: u32, last: u32) -> Result<Vec<u8>, AllocError> {
    let mut script = Vec::new(alloc);
    for _ in 0..lines {
        script.extend_from_slice(&[b'#'; 65535])?;
        script.push(b'\n')?;
    }
    for _ in 0..last {
        script.push(b'#')?;
    }
    Ok(script)
}

/// How a script of comments ends.
fn end_of_comments(alloc: Global, lines: u32, last: u32) -> Result<Status, AllocError> {
    let script = comments(alloc, lines, last)?;
    end_of(alloc, script.as_slice())
}

const LIMITS: [(u32, u32, Status); 4] = [
    (0, 65536, Status::Done),
    (0, 65537, Status::BadLine(1)),
    (256, 0, Status::Done),
    (256, 1, Status::BadLine(257)),
];

#[test]
fn a_line_and_a_script_have_their_limits(rt: HostRuntime) {
    for (lines, last, status) in &LIMITS {
        let end = end_of_comments(rt.alloc(), *lines, *last);
        assert_eq!(rt; end, Ok(*status));
    }
}

/// The statuses of runs with none of the words, both and one, where the first read fails, and the next run reads on from there.
fn codes(alloc: Global) -> Result<Vec<u8>, AllocError> {
    let words = [b"script".to_vec(alloc)?, b"script".to_vec(alloc)?];
    let words = words.as_slice();
    let fails = [1].to_vec(alloc)?;
    let mut source = MemorySource::new(b"0 fly".to_vec(alloc)?, 1, fails);
    let mut sink = MemorySink::new(alloc, 1, Vec::new(alloc));
    let mut codes = Vec::new(alloc);
    for count in [0, 2, 1, 1] {
        let status = run_script(alloc, &words[..count], &mut source, &mut sink);
        codes.push(status.code())?;
    }
    Ok(codes)
}

#[test]
fn other_words_are_no_command(rt: HostRuntime) {
    let codes = codes(rt.alloc()).expect(&rt, "statuses");
    assert_eq!(rt; codes.as_slice(), [64, 64, 3, 2].as_slice());
}

#[test]
fn the_laws_of_scripts_can_be_called() {
    a_line_has_one_item();
    bytes_are_one_script();
    taken_transfers_are_done();
    settled_runs_are_determined();
    told_faults_are_listed();
}
