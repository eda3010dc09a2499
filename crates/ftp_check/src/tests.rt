//! Whole checks, with the lines that are written for them.

ghost use Rattle.std.specs.Prelude.{◌≤◌};

use ftp_base::{MemorySink, MemorySource};
use ftp_check_log::{CHECK_HELP, CHECK_VERSION, CheckStatus, run_check};
use std::alloc::{AllocError, Global};
use std::process::Abort;

const POOLED: &str = "options pooled 50000 50001 connection passive 600 off restart\n";

const CONNECT: &str = "> 0 connect 1 10.0.0.1:4000 10.0.0.9:21 1\n";

const OPENED: &str = "= opened\n";

const USER: &str = "> 0 user 1 ann\n";

const NEED_PASS: &str = "= needpass\n";

const PASSWORD: &str = "- reply 1 0 331 Password Required\n";

const LOGIN: &str = "> 0 pass 1
= passout
> 0 auth 1 good
= loggedin
- notify 1 1 0x1 login 0 3 0 ann
- reply 1 0 230 User logged in, proceed
";

/// The parts, one behind the other.
fn joined(alloc: Global, parts: &[&str]) -> Result<Vec<u8>, AllocError> {
    let mut text = Vec::new(alloc);
    for part in parts {
        text.extend_from_slice(part.as_bytes())?;
    }
    Ok(text)
}

/// The words of a command, with a space between them.
fn words_of(alloc: Global, command: &str) -> Result<Vec<Vec<u8>>, AllocError> {
    let mut words = Vec::new(alloc);
    for word in command.split(' ') {
        words.push(word.as_bytes().to_vec(alloc)?)?;
    }
    Ok(words)
}

/// Does what a command asks for, by a log that comes in pieces. Of the calls of its source and of the sink the given ones
/// fail.
fn checked(
    alloc: Global,
    command: &str,
    parts: &[&str],
    chunk: u32,
    reads: &[u64],
    writes: &[u64],
) -> Result<(CheckStatus, Vec<u8>), AllocError>
    requires { 1 ≤ chunk }
{
    let log = joined(alloc, parts)?;
    let mut source = MemorySource::new(log, chunk, reads.to_vec(alloc)?);
    let mut sink = MemorySink::new(alloc, 65536, writes.to_vec(alloc)?);
    let words = words_of(alloc, command)?;
    let status = run_check(alloc, words.as_slice(), &mut source, &mut sink);
    Ok((status, sink.written().to_vec(alloc)?))
}

/// A command, the parts of its log, how it ends, and what it writes.
type Row = (
    &'static str,
    &'static [&'static str],
    CheckStatus,
    &'static str,
);

/// Does what commands ask for, by logs that come in pieces, and compares how they end and what they write.
fn compare(rt: &impl Abort, alloc: Global, rows: &[Row]) {
    for (command, parts, status, line) in rows {
        for chunk in [7, 65536] {
            let run = checked(alloc, command, parts, chunk, &[], &[]);
            let (found, written) = run.expect(rt, "a check");
            is_as_due(rt, (found, written.as_slice()), (*status, line.as_bytes()));
        }
    }
}

/// A command ended so, and wrote this.
fn is_as_due(rt: &impl Abort, found: (CheckStatus, &[u8]), due: (CheckStatus, &[u8])) {
    assert_eq!(rt; found, due);
}

/// A login is right, and each change of it is named.
const LOGINS: [Row; 3] = [
    (
        "check",
        &[POOLED, CONNECT, OPENED, USER, NEED_PASS, PASSWORD, LOGIN],
        CheckStatus::Done,
        "right 4\n",
    ),
    (
        "check",
        &[
            POOLED, CONNECT, "= used\n", USER, NEED_PASS, PASSWORD, LOGIN,
        ],
        CheckStatus::Wrong,
        "wrong 0 due opened\n",
    ),
    (
        "check",
        &[POOLED, CONNECT, OPENED, USER, NEED_PASS, LOGIN],
        CheckStatus::Wrong,
        "actions 1\n",
    ),
];

#[test]
fn a_login_is_right_and_each_change_of_it_is_named(rt: HostRuntime) {
    compare(&rt, rt.alloc(), &LOGINS);
}

const BAD_TEXTS: [Row; 7] = [
    (
        "check",
        &[POOLED, CONNECT, "= opened"],
        CheckStatus::BadText(3),
        "",
    ),
    (
        "check",
        &[POOLED, CONNECT, OPENED, USER],
        CheckStatus::BadText(4),
        "",
    ),
    (
        "check",
        &[CONNECT, OPENED, "\n", USER],
        CheckStatus::BadText(3),
        "",
    ),
    (
        "check",
        &["# a log\n", CONNECT, OPENED],
        CheckStatus::BadText(1),
        "",
    ),
    (
        "check",
        &[CONNECT, OPENED, POOLED],
        CheckStatus::BadText(3),
        "",
    ),
    (
        "check",
        &[CONNECT, OPENED, "- reply 1 0 331\n", USER],
        CheckStatus::BadText(3),
        "",
    ),
    (
        "check",
        &[CONNECT, OPENED, "link 1 sent .\n"],
        CheckStatus::BadText(3),
        "",
    ),
];

#[test]
fn a_bad_text_is_known_by_its_line(rt: HostRuntime) {
    compare(&rt, rt.alloc(), &BAD_TEXTS);
}

const UNDECIDED: [Row; 2] = [
    (
        "check",
        &[
            CONNECT,
            OPENED,
            USER,
            "? done sent 0 -\n",
            NEED_PASS,
            PASSWORD,
        ],
        CheckStatus::Done,
        "right 2\n",
    ),
    ("check", &[], CheckStatus::Done, "right 0\n"),
];

#[test]
fn an_answer_that_decides_nothing_is_right(rt: HostRuntime) {
    compare(&rt, rt.alloc(), &UNDECIDED);
}

// Two more sessions of the client log in, and each of the three asks for a port, of which there are two.
const TWO_MORE: &str = "> 0 connect 2 10.0.0.1:4000 10.0.0.9:21 2
= opened
> 0 user 2 ann
= needpass
- reply 2 0 331 Password Required
> 0 pass 2
= passout
> 0 auth 2 good
= loggedin
- notify 2 1 0x2 login 0 3 0 ann
- reply 2 0 230 User logged in, proceed
> 0 connect 3 10.0.0.1:4000 10.0.0.9:21 3
= opened
> 0 user 3 ann
= needpass
- reply 3 0 331 Password Required
> 0 pass 3
= passout
> 0 auth 3 good
= loggedin
- notify 3 1 0x3 login 0 3 0 ann
- reply 3 0 230 User logged in, proceed
> 1 pasv 1 0 - -
= granted 50000
- reply 1 0 227 Entering Passive Mode (10,0,0,9,195,80)
> 1 pasv 2 0 - -
= granted 50001
- reply 2 0 227 Entering Passive Mode (10,0,0,9,195,81)
> 1 pasv 3 0 - -
= full
- reply 3 0 425 Could not allocate passive port
";

const ENTRIES: &[&str] = &[
    POOLED, CONNECT, OPENED, USER, NEED_PASS, PASSWORD, LOGIN, TWO_MORE,
];

const EXPLAINED: [Row; 5] = [
    ("why 14", ENTRIES, CheckStatus::Done, "full 12 13\n"),
    ("why 13", ENTRIES, CheckStatus::Done, "plain\n"),
    ("why 15", ENTRIES, CheckStatus::NoEntry, ""),
    (
        "why 18446744073709551616",
        ENTRIES,
        CheckStatus::NoEntry,
        "",
    ),
    (
        "why 0",
        &[
            POOLED, CONNECT, OPENED, USER, NEED_PASS, PASSWORD, LOGIN, TWO_MORE, CONNECT,
        ],
        CheckStatus::BadText(44),
        "",
    ),
];

#[test]
fn an_entry_is_explained_or_there_is_none(rt: HostRuntime) {
    compare(&rt, rt.alloc(), &EXPLAINED);
}

#[test]
fn faults_are_told(rt: HostRuntime) {
    let parts = [CONNECT, OPENED];
    let read = checked(rt.alloc(), "check", &parts, 10, &[3], &[]);
    let (status, written) = read.expect(&rt, "a check");
    is_as_due(
        &rt,
        (status, written.as_slice()),
        (CheckStatus::ReadFault, b""),
    );
    let write = checked(rt.alloc(), "check", &parts, 10, &[], &[1]);
    let (status, written) = write.expect(&rt, "a check");
    is_as_due(
        &rt,
        (status, written.as_slice()),
        (CheckStatus::WriteFault, b""),
    );
}

/// How a command ends and what it prints, of words with a space between them, where every read would fail.
fn told(alloc: Global, words: &str) -> Result<(CheckStatus, Vec<u8>), AllocError> {
    let list = words_of(alloc, words)?;
    let mut source = MemorySource::new(Vec::new(alloc), 1, [1].to_vec(alloc)?);
    let mut sink = MemorySink::new(alloc, 65536, Vec::new(alloc));
    let status = run_check(alloc, list.as_slice(), &mut source, &mut sink);
    Ok((status, sink.written().to_vec(alloc)?))
}

const WORDS: [(&str, CheckStatus, &[u8]); 9] = [
    ("--help", CheckStatus::Done, CHECK_HELP),
    ("--version", CheckStatus::Done, CHECK_VERSION),
    ("", CheckStatus::Usage, b""),
    ("Check", CheckStatus::Usage, b""),
    ("check check", CheckStatus::Usage, b""),
    ("--help check", CheckStatus::Usage, b""),
    ("why", CheckStatus::Usage, b""),
    ("why 01", CheckStatus::Usage, b""),
    ("why 1 2", CheckStatus::Usage, b""),
];

#[test]
fn words_are_commands_or_usage(rt: HostRuntime) {
    for (words, status, text) in &WORDS {
        let (found, written) = told(rt.alloc(), words).expect(&rt, "an answer");
        is_as_due(&rt, (found, written.as_slice()), (*status, text));
    }
}
