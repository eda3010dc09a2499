//! Transfers over memory, each with the bytes that it leaves.

pub mod trial;

use crate::same::same;
use crate::values::{self, File};
use ftp_base::{ErrorKind, LinkFault, MemoryStorage};
use ftp_transfer::{Completion, Outcome};
use std::alloc::{AllocError, Global};
use std::process::Abort;
use trial::{Fails, Left, Trial, Word};

/// A transfer: its word, path and offset, what its link gives and how that fails; how it has to end and with how many bytes, what it
/// has to send, and the file that has to stand at its path then.
type Row<'a> = (
    Word,
    &'a [u8],
    u64,
    &'a [u8],
    Option<Fails>,
    Completion,
    u64,
    &'a [u8],
    Option<&'a [u8]>,
);

fn trial_of<'a>(row: &Row<'a>) -> Trial<'a> {
    let (word, path, offset, input, fails, ..) = *row;
    Trial {
        word,
        path,
        offset,
        input,
        fails,
    }
}

/// A transfer left what its row says.
fn is_as_due(rt: &impl Abort, row: &Row<'_>, left: &Left) {
    let (_, _, _, _, fails, result, bytes, sent, file) = *row;
    let due = Outcome {
        result,
        bytes,
        fault: fails.map(|fails| fails.2),
    };
    same(
        rt,
        &(left.outcome, left.sent.as_slice(), left.file.as_deref()),
        &(Some(due), sent, file),
    );
}

/// Runs transfers one after the other on a storage, and compares what each of them leaves.
fn compare(rt: &impl Abort, alloc: Global, storage: &mut MemoryStorage, rows: &[Row<'_>]) {
    for row in rows {
        let left = trial_of(row).run(storage, alloc).expect(rt, "a transfer");
        is_as_due(rt, row, &left);
    }
}

/// The same on a storage with these directories and files, none of whose calls fails.
fn compare_in(
    rt: &impl Abort,
    alloc: Global,
    directories: &[&[u8]],
    files: &[File<'_>],
    rows: &[Row<'_>],
) {
    let storage = values::storage(alloc, u64::MAX, &[], directories, files);
    compare(rt, alloc, &mut storage.expect(rt, "a storage"), rows);
}

const HELLO: [File<'static>; 1] = [(b"/a", b"Hello")];

const WHOLE: Option<&[u8]> = Some(b"Hello World");

const STORED_AND_SENT: [Row<'static>; 6] = [
    (
        Word::Stor,
        b"/a",
        0,
        b"Hello",
        None,
        Completion::Written,
        5,
        b"",
        Some(b"Hello"),
    ),
    (
        Word::Appe,
        b"/a",
        0,
        b" World",
        None,
        Completion::Written,
        6,
        b"",
        WHOLE,
    ),
    (
        Word::Retr,
        b"/a",
        0,
        b"",
        None,
        Completion::Sent,
        11,
        b"Hello World",
        WHOLE,
    ),
    (
        Word::Retr,
        b"/a",
        6,
        b"",
        None,
        Completion::Sent,
        5,
        b"World",
        WHOLE,
    ),
    (
        Word::Retr,
        b"/a",
        99,
        b"",
        None,
        Completion::Sent,
        0,
        b"",
        WHOLE,
    ),
    (
        Word::Retr,
        b"/a",
        u64::MAX,
        b"",
        None,
        Completion::Sent,
        0,
        b"",
        WHOLE,
    ),
];

#[test]
fn a_file_is_stored_then_appended_to_then_sent(rt: HostRuntime) {
    compare_in(&rt, rt.alloc(), &[], &[], &STORED_AND_SENT);
}

/// So many bytes.
fn numbered(alloc: Global, size: usize) -> Result<Vec<u8>, AllocError> {
    let mut bytes = Vec::new(alloc);
    for at in 0..size {
        bytes.push((at % 251) as u8)?;
    }
    Ok(bytes)
}

/// Bytes that are stored, and then sent.
fn both(file: &[u8]) -> [Row<'_>; 2] {
    let n = file.len() as u64;
    [
        (
            Word::Stor,
            b"/a",
            0,
            file,
            None,
            Completion::Written,
            n,
            b"",
            Some(file),
        ),
        (
            Word::Retr,
            b"/a",
            0,
            b"",
            None,
            Completion::Sent,
            n,
            file,
            Some(file),
        ),
    ]
}

#[test]
fn files_about_as_long_as_a_piece_are_stored_and_sent(rt: HostRuntime) {
    for size in [0, 1, 8191, 8192, 8193] {
        let bytes = numbered(rt.alloc(), size).expect(&rt, "bytes");
        compare_in(&rt, rt.alloc(), &[], &[], &both(bytes.as_slice()));
    }
}

const NESTED: &[u8] = b"/uploads/nested.txt";

const NO_DIRECTORY: Completion = Completion::Refused(ErrorKind::PermanentDirectoryNotAvailable);

const WITHOUT_DIRECTORY: [Row<'static>; 1] = [(
    Word::Stor,
    NESTED,
    0,
    b"Hello",
    None,
    NO_DIRECTORY,
    0,
    b"",
    None,
)];

const WITH_DIRECTORY: [Row<'static>; 1] = [(
    Word::Stor,
    NESTED,
    0,
    b"Hello",
    None,
    Completion::Written,
    5,
    b"",
    Some(b"Hello"),
)];

#[test]
fn a_file_is_stored_only_in_a_directory(rt: HostRuntime) {
    compare_in(&rt, rt.alloc(), &[], &[], &WITHOUT_DIRECTORY);
    compare_in(&rt, rt.alloc(), &[b"/uploads"], &[], &WITH_DIRECTORY);
}

const LIST: &[u8] = b"-rw-rw-rw- 1 ftp ftp            5 Jan 01 1970 a\r\n\
                      drwxrwxrwx 1 ftp ftp            0 Jan 01 1970 b\r\n";

const MLSD: &[u8] = b"type=file;size=5; a\r\ntype=dir; b\r\n";

const LISTINGS: [Row<'static>; 3] = [
    (
        Word::List,
        b"/",
        0,
        b"",
        None,
        Completion::Listed,
        98,
        LIST,
        None,
    ),
    (
        Word::Nlst,
        b"/",
        0,
        b"",
        None,
        Completion::Listed,
        6,
        b"a\r\nb\r\n",
        None,
    ),
    (
        Word::Mlsd,
        b"/",
        0,
        b"",
        None,
        Completion::Listed,
        34,
        MLSD,
        None,
    ),
];

#[test]
fn a_directory_is_listed_in_three_forms(rt: HostRuntime) {
    compare_in(&rt, rt.alloc(), &[b"/b"], &HELLO, &LISTINGS);
}

/// The second call of a link for three bytes or for two is reset.
const THREE: Option<Fails> = Some((3, 2, LinkFault::Reset));

const TWO: Option<Fails> = Some((2, 2, LinkFault::Reset));

const FIRST: Option<Fails> = Some((65536, 1, LinkFault::BrokenPipe));

const CLOSED: Completion = Completion::Refused(ErrorKind::ConnectionClosed);

const CUT_OFF: [Row<'static>; 3] = [
    (
        Word::List,
        b"/",
        0,
        b"",
        THREE,
        Completion::WriteFailed,
        3,
        b"-rw",
        None,
    ),
    (
        Word::Retr,
        b"/a",
        0,
        b"",
        FIRST,
        CLOSED,
        0,
        b"",
        Some(b"Hello"),
    ),
    (
        Word::Stor,
        b"/a",
        0,
        b"World",
        TWO,
        CLOSED,
        2,
        b"",
        Some(b"Wo"),
    ),
];

#[test]
fn a_transfer_ends_where_its_link_fails(rt: HostRuntime) {
    compare_in(&rt, rt.alloc(), &[], &HELLO, &CUT_OFF);
}

const FILLED: [Row<'static>; 1] = [(
    Word::Stor,
    b"/a",
    7,
    b"!",
    None,
    Completion::Written,
    1,
    b"",
    Some(b"Hello\0\0!"),
)];

#[test]
fn zeros_fill_a_file_up_to_an_offset_past_its_end(rt: HostRuntime) {
    compare_in(&rt, rt.alloc(), &[], &HELLO, &FILLED);
}

const ABSENT: Completion = Completion::Refused(ErrorKind::PermanentFileNotAvailable);

const TOO_LONG: Completion = Completion::Refused(ErrorKind::ExceededStorageAllocationError);

const ABSENT_OR_TOO_LONG: [Row<'static>; 3] = [
    (Word::Retr, b"/a", 6, b"", None, ABSENT, 0, b"", None),
    (
        Word::Stor,
        b"/a",
        u64::MAX,
        b"Hello",
        None,
        TOO_LONG,
        0,
        b"",
        None,
    ),
    (
        Word::Stor,
        b"/a",
        0,
        b"Hello",
        None,
        TOO_LONG,
        0,
        b"",
        Some(b""),
    ),
];

#[test]
fn a_storage_refuses_what_is_absent_or_too_long(rt: HostRuntime) {
    let mut small = MemoryStorage::new(rt.alloc(), 4, Vec::new(rt.alloc()));
    compare(&rt, rt.alloc(), &mut small, &ABSENT_OR_TOO_LONG);
}

const FAILED: Completion = Completion::Refused(ErrorKind::LocalError);

const NOTHING_APPENDED: [Row<'static>; 1] = [(
    Word::Appe,
    b"/a",
    0,
    b"Hello",
    None,
    FAILED,
    0,
    b"",
    None,
)];

#[test]
fn nothing_is_appended_where_the_storage_fails(rt: HostRuntime) {
    let storage = values::storage(rt.alloc(), u64::MAX, &[1], &[], &[]);
    let mut storage = storage.expect(&rt, "a storage");
    compare(&rt, rt.alloc(), &mut storage, &NOTHING_APPENDED);
}

/// A file of 9,000 bytes goes in two pieces and an end.
#[test]
fn pieces(rt: HostRuntime) {
    let bytes = numbered(rt.alloc(), 9000).expect(&rt, "bytes");
    let mut storage = MemoryStorage::new(rt.alloc(), u64::MAX, Vec::new(rt.alloc()));
    for row in &both(bytes.as_slice()) {
        let run = trial_of(row).run_in_pieces(&mut storage, rt.alloc());
        let (left, sizes) = run.expect(&rt, "a transfer");
        same(&rt, &sizes.as_slice(), &[8192, 808].as_slice());
        is_as_due(&rt, row, &left);
    }
}
