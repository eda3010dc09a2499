//! Lines of a client, and what it is sent.

ghost use Rattle.std.specs.Prelude.{◌≤◌};

use crate::same::same;
use crate::talk::{FileWords, talk};
use ftp_base::MemoryLink;
use ftp_talk::ServeEnd;
use std::alloc::{AllocError, Global};
use std::process::Abort;

const GREETING: &[u8] = b"220 Welcome to the libunftp FTP server\r\n";

/// Lines of a client, what it is sent behind the greeting, and the path of the transfer that starts, if one does.
type Row<'a> = (&'a [u8], &'a [u8], &'a [u8]);

const ROWS: [Row<'static>; 10] = [
    (
        b"user ann\r\npAsS x\r\npasv\r\nquit\r\n",
        b"331 Password Required\r\n230 User logged in, proceed\r\n\
          227 Entering Passive Mode (10,0,0,9,195,80)\r\n221 Bye!\r\n",
        b"",
    ),
    // Of the line end the line feed is enough, and a rest without one is no line.
    (
        b"USER ann\nPASS y\nUSER ann\nPASS x\nQUIT",
        b"331 Password Required\r\n530 Authentication failed\r\n\
          331 Password Required\r\n230 User logged in, proceed\r\n",
        b"",
    ),
    (
        b"NOOP\r\nTYPE I\r\nSYST\r\nREST 1303 343\r\nPASV\r\nPASS\r\nQUIT x\r\nBYE\r\n",
        b"200 Successfully did nothing\r\n200 Always in binary mode\r\n500 Command not implemented\r\n\
          501 Invalid Parameter\r\n530 Please authenticate\r\n503 Please supply a username first\r\n\
          501 Invalid Parameter\r\n221 Bye!\r\n",
        b"",
    ),
    // A carriage return goes as CR NUL.
    (
        b"USER ann\r\nPASS x\r\nCWD up\r\nCWD a\r\0b\r\nCWD a\rb\r\n",
        b"331 Password Required\r\n230 User logged in, proceed\r\n\
          250 Successfully changed working directory\r\n250 Successfully changed working directory\r\n\
          550 Directory not found\r\n",
        b"",
    ),
    (
        b"USER ann\r\nPASS x\r\nLIST -la --\r\nPORT 10,0,0,2,117,48\r\nPORT 10,0,0,1,117\r\n",
        b"331 Password Required\r\n230 User logged in, proceed\r\n425 No data connection established\r\n\
          425 Could not establish data connection\r\n501 Invalid address format\r\n",
        b"",
    ),
    (
        b"USER ann\r\nPASS x\r\nPORT 10,0,0,1,117,48\r\nLIST -la -- folder with space\r\n",
        b"331 Password Required\r\n230 User logged in, proceed\r\n200 PORT command successful\r\n\
          150 Sending directory list\r\n",
        b"/folder with space",
    ),
    (
        b"USER ann\r\nPASS x\r\nCWD up\r\nPORT 10,0,0,1,117,48\r\nLIST -la --\r\n",
        b"331 Password Required\r\n230 User logged in, proceed\r\n\
          250 Successfully changed working directory\r\n200 PORT command successful\r\n\
          150 Sending directory list\r\n",
        b"/up",
    ),
    (
        b"USER ann\r\nPASS x\r\nPORT 10,0,0,1,117,48\r\nLIST -a  -b\r\n",
        b"331 Password Required\r\n230 User logged in, proceed\r\n200 PORT command successful\r\n\
          150 Sending directory list\r\n",
        b"/ -b",
    ),
    (
        b"NOOP \xff\r\nNOOP\r\n",
        b"500 Invalid UTF8 in command\r\n",
        b"",
    ),
    (b"USER Dolores\r", b"", b""),
];

/// Compares a row with its talk, which comes, as the replies go, in pieces of so many bytes.
pub fn compare(rt: &impl Abort, alloc: Global, row: Row<'_>, chunk: u32, words: Option<FileWords>)
    requires { 1 ≤ chunk }
{
    let (lines, replies, path) = row;
    let lines = Vec::from_slice(alloc, lines).expect(rt, "lines");
    let mut link = MemoryLink::new(alloc, lines, chunk, Vec::new(alloc));
    let talked = talk(rt, alloc, &mut link, words);
    let started = talked.path(alloc).expect(rt, "a path");
    let found = (link.sent().strip_prefix(GREETING), started.as_slice());
    same(rt, &found, &(Some(replies), path));
    same(rt, &talked.end, &ServeEnd::Ended);
}

/// Compares a row with its talk, in one packet and byte by byte.
fn compare_both(rt: &impl Abort, alloc: Global, row: Row<'_>) {
    for chunk in [1, 65536] {
        compare(rt, alloc, row, chunk, None);
    }
}

#[test]
fn a_client_logs_in_asks_for_a_port_and_quits(rt: HostRuntime) {
    let replies = [
        GREETING,
        b"331 Password Required\r\n",
        b"230 User logged in, proceed\r\n",
        b"227 Entering Passive Mode (10,0,0,9,195,80)\r\n",
        b"221 Bye!\r\n",
    ];
    let lines = Vec::from_slice(rt.alloc(), b"USER ann\r\nPASS x\r\nPASV\r\nQUIT\r\n");
    let lines = lines.expect(&rt, "lines");
    let mut link = MemoryLink::new(rt.alloc(), lines, 65536, Vec::new(rt.alloc()));
    let end = talk(&rt, rt.alloc(), &mut link, None).end;
    let mut rest = link.sent();
    for reply in replies {
        let n = reply.len().min(rest.len());
        let (line, behind) = rest.split_at(n);
        assert_eq!(rt; line, reply, "the end: {end:?}");
        rest = behind;
    }
    assert_eq!(rt; rest, b"".as_slice());
    assert_eq!(rt; end, ServeEnd::Ended);
}

#[test]
fn lines_are_answered_in_their_order_whatever_their_pieces(rt: HostRuntime) {
    for row in &ROWS {
        compare_both(&rt, rt.alloc(), *row);
    }
}

const SHORT: &[u8] = b"NOOP\r\n";

/// What is sent for a long line between two short ones, for one before a short one, and for one that is too long.
const BETWEEN: &[u8] =
    b"200 Successfully did nothing\r\n500 Command not implemented\r\n200 Successfully did nothing\r\n";

const BEFORE: &[u8] = b"500 Command not implemented\r\n200 Successfully did nothing\r\n";

const CLOSED: &[u8] = b"500 Command line too long\r\n";

/// Some lines, a word of so many letters on a line, and then a short line.
fn with_long_word(alloc: Global, front: &[u8], letters: usize) -> Result<Vec<u8>, AllocError> {
    let mut word = Vec::new(alloc);
    word.resize(letters, b'X')?;
    let mut lines = Vec::from_slice(alloc, front)?;
    lines.extend_from_slice(word.as_slice())?;
    lines.extend_from_slice(b"\r\nNOOP\r\n")?;
    Ok(lines)
}

/// A buffer has room for 512 bytes at first. The short line has six bytes, and the line end has two.
const LENGTHS: [(&[u8], usize, &[u8]); 9] = [
    (SHORT, 503, BETWEEN),
    (SHORT, 504, BETWEEN),
    (SHORT, 505, BETWEEN),
    (SHORT, 509, BETWEEN),
    (SHORT, 510, BETWEEN),
    (SHORT, 511, BETWEEN),
    (SHORT, 8190, BETWEEN),
    (b"", 8190, BEFORE),
    (b"", 8191, CLOSED),
];

#[test]
fn a_line_has_at_most_8192_bytes_also_behind_a_short_one(rt: HostRuntime) {
    for (front, letters, replies) in &LENGTHS {
        let lines = with_long_word(rt.alloc(), front, *letters).expect(&rt, "lines");
        compare_both(&rt, rt.alloc(), (lines.as_slice(), replies, b""));
    }
}
