//! Words beside the profile's, over a storage in memory.

use crate::same::same;
use crate::values::{File, storage};
use ftp_base::{Bytes, ControlChanMsg, MemoryStorage, StoreError};
use ftp_control::{Command, parse_line};
use ftp_extras::{Asker, Extra, Extras, FileExtras, Offers};
use std::alloc::{AllocError, Global};
use std::process::Abort;

/// The words over a storage with some directories, and a file of five bytes.
fn words(alloc: Global) -> Result<FileExtras<MemoryStorage>, StoreError> {
    let offers = Offers {
        is_behind_tls: false,
        can_restart: true,
    };
    let directories = [b"/usr".as_slice(), b"/usr/dm", b"/usr/dm/bin"];
    let files: [File<'_>; 1] = [(b"/usr/dm/f", b"hello")];
    let store = storage(alloc, 9, &[], &directories, &files)?;
    Ok(FileExtras::new(alloc, offers, store))
}

/// What is done, as a text: the bytes that are said, the line of a reply, or else the name of a message.
fn text_of(alloc: Global, extra: &Extra) -> Result<Bytes, AllocError> {
    match extra {
        Extra::Pass => Bytes::from_slice(alloc, b"pass"),
        Extra::Tell(ControlChanMsg::CommandChannelReply(reply)) => reply.encode(alloc),
        Extra::Tell(message) => Bytes::from_slice(alloc, message.label().as_bytes()),
        Extra::Say(bytes) => bytes.copy(alloc),
        Extra::As(Command::Cwd { path }) => path.copy(alloc),
        Extra::As(_) => Bytes::from_slice(alloc, b"another"),
        Extra::Epsv => Bytes::from_slice(alloc, b"epsv"),
    }
}

/// What is done on a command in a directory whose name has a quote.
fn done(
    words: &mut FileExtras<MemoryStorage>,
    alloc: Global,
    is_in: bool,
    command: &Command,
    line: &[u8],
) -> Result<Bytes, AllocError> {
    if let Command::Pass { .. } = command {
        return Bytes::from_slice(alloc, b"password");
    }
    let cwd = Bytes::from_slice(alloc, b"/usr/dm/foo\"bar")?;
    let asker = Asker {
        name: None,
        is_in,
        cwd: &cwd,
    };
    text_of(alloc, &words.hear(asker, command, line)?)
}

/// What is done on a line.
fn heard(
    words: &mut FileExtras<MemoryStorage>,
    alloc: Global,
    is_in: bool,
    line: &[u8],
) -> Result<Bytes, AllocError> {
    match parse_line(alloc, line) {
        Ok(command) => done(words, alloc, is_in, &command, line),
        Err(_) => Bytes::from_slice(alloc, b"refused"),
    }
}

/// A line, and what is done on it.
type Row = (&'static [u8], &'static [u8]);

/// The lines in their order are answered so, before the login or behind it.
fn compare(rt: &impl Abort, alloc: Global, is_in: bool, rows: &[Row]) {
    let mut words = words(alloc).expect(rt, "words");
    for (line, due) in rows {
        let found = heard(&mut words, alloc, is_in, line).expect(rt, "an answer");
        same(rt, &found.as_slice(), due);
    }
}

// The replies are those of RFC 959, section 5.4 and its appendix on directories, of RFC 2428, section 3, and of RFC 3659, sections 4
// and 7.
const OF_A_SESSION: [Row; 16] = [
    (
        b"PWD\r\n",
        b"257 \"/usr/dm/foo\"\"bar\" is the current directory\r\n",
    ),
    (b"cdup\r\n", b"/usr/dm"),
    (b"SYST\r\n", b"215 UNIX Type: L8\r\n"),
    (b"STRU R\r\n", b"504 Not implemented for that parameter\r\n"),
    (b"SIZE /usr/dm/f\r\n", b"213 5\r\n"),
    (b"SIZE /usr/dm\r\n", b"550 Not a file\r\n"),
    (
        b"MLST /usr/dm/f\r\n",
        b"250-Facts\r\n type=file;size=5; /usr/dm/f\r\n250 End\r\n",
    ),
    (b"RETR /usr/dm/none\r\n", b"storageerror"),
    (b"RETR /usr/dm/f\r\n", b"pass"),
    (b"NLST *\r\n", b"pass"),
    (b"PASV\r\n", b"pass"),
    (b"EPSV\r\n", b"epsv"),
    (b"epsv 1\r\n", b"epsv"),
    (
        b"EPSV 2\r\n",
        b"522 Network protocol not supported, use (1)\r\n",
    ),
    (b"EPSV ALL\r\n", b"200 Noted\r\n"),
    (b"FOO\r\n", b"pass"),
];

#[test]
fn the_words_of_a_session_are_answered(rt: HostRuntime) {
    compare(&rt, rt.alloc(), true, &OF_A_SESSION);
}

const OF_FILES: [Row; 17] = [
    (b"RNTO /usr/g\r\n", b"503 Use RNFR first\r\n"),
    (b"RNFR /usr/dm\r\n", b"350 Ready for RNTO\r\n"),
    (b"NOOP\r\n", b"pass"),
    (b"RNTO /usr/g\r\n", b"503 Use RNFR first\r\n"),
    (b"RNFR /usr/dm\r\n", b"350 Ready for RNTO\r\n"),
    (b"RNTO /usr/dm/bin/x\r\n", b"storageerror"),
    (b"RNFR /usr/dm\r\n", b"350 Ready for RNTO\r\n"),
    (b"RNTO /usr/g\r\n", b"renamesuccess"),
    (b"SIZE /usr/g/f\r\n", b"213 5\r\n"),
    (b"SIZE /usr/dm/f\r\n", b"storageerror"),
    (b"RMD /usr/g\r\n", b"storageerror"),
    (b"MKD /usr/g/bin/a\r\n", b"mkdirsuccess"),
    (b"RMD /usr/g/bin/a\r\n", b"rmdirsuccess"),
    (b"DELE /usr/g/bin\r\n", b"storageerror"),
    (b"DELE /usr/g/f\r\n", b"delfilesuccess"),
    (b"DELE /usr/g/f\r\n", b"storageerror"),
    (
        b"MFMT 20021301000000 /usr/g\r\n",
        b"501 Invalid Parameter\r\n",
    ),
];

#[test]
fn files_are_renamed_and_removed(rt: HostRuntime) {
    compare(&rt, rt.alloc(), true, &OF_FILES);
}

const BEFORE_THE_LOGIN: [Row; 6] = [
    (b"DELE /usr/dm/f\r\n", b"530 Please authenticate\r\n"),
    (b"PWD\r\n", b"530 Please authenticate\r\n"),
    (b"RETR /usr/dm/none\r\n", b"pass"),
    (b"OPTS UTF8 ON\r\n", b"200 Always in UTF8 mode\r\n"),
    (b"EPSV\r\n", b"530 Please authenticate\r\n"),
    (b"PBSZ 0\r\n", b"pass"),
];

#[test]
fn before_the_login_only_open_words_are_answered(rt: HostRuntime) {
    compare(&rt, rt.alloc(), false, &BEFORE_THE_LOGIN);
}
