//! Visits of one client or two, who are answered line by line as is due.

use crate::client::GREETING;
use crate::doubles::Sign::{Gots, Logins, Logouts, Puts};
use crate::setting::{FILE, Host, OTHER, served};
use crate::steps::Act::{self, One, Reach, Two};
use crate::steps::Phase;
use crate::steps::Step::{
    Ask, AskInVain, Begin, Come, Connect, Enter, Fetch, Get, Hear, Leave, LogIn, Pasv, Quit, Send,
};
use ftp_options::ListenerMode;
use std::net::{TcpListener, TcpStream};
use std::test::Fail;

const POOLED: ListenerMode = ListenerMode::Pooled;

const PROXY: ListenerMode = ListenerMode::Proxy { control_port: 2121 };

/// What a proxy sends ahead of the control connections of two clients, and of their data connections.
pub const ONE: &[u8] = b"PROXY TCP4 192.0.2.7 198.51.100.1 40000 2121\r\n";

pub const TWO: &[u8] = b"PROXY TCP4 192.0.2.8 198.51.100.1 40000 2121\r\n";

pub const ONES_DATA: &[u8] = b"PROXY TCP4 192.0.2.7 198.51.100.1 40001 50000\r\n";

pub const TWOS_DATA: &[u8] = b"PROXY TCP4 192.0.2.8 198.51.100.1 40001 50000\r\n";

pub const SENT: &str = "226 Successfully sent\r\n";

const WRITTEN: &str = "226 File successfully written\r\n";

pub const SENDING: &str = "150 Sending data\r\n";

const READY: &str = "150 Ready to receive data\r\n";

pub const NAMED: &str = "331 Password Required\r\n";

pub const REFUSED: &str = "530 Authentication failed\r\n";

/// A client uploads nothing, and stops his upload while the server waits for it (RFC 959, section 4.1.3: 426 for the transfer, and
/// then 226).
const STOPPED: &[Act] = &[
    One(Enter(b"")),
    One(Begin(b"", "STOR c.txt\r\n", READY)),
    One(Ask("ABOR\r\n", "426 Datachannel unexpectedly closed\r\n")),
    One(Hear("226 Closed data channel\r\n")),
    One(Quit),
];

/// A session asks for a port again and again, and another wants it; there is one. It is free at once behind ABOR, and behind the
/// end of its session.
const ONE_PORT: &[Act] = &[
    One(Enter(b"")),
    Two(Enter(b"")),
    One(Pasv),
    One(Pasv),
    One(Pasv),
    Two(Ask("PASV\r\n", "425 No data connection established\r\n")),
    One(Connect(b"")),
    One(Ask("RETR a.txt\r\n", SENDING)),
    One(Fetch(FILE)),
    One(Hear(SENT)),
    One(Pasv),
    One(Ask("ABOR\r\n", "226 Closed data channel\r\n")),
    Two(Pasv),
    Two(Quit),
    One(Pasv),
];

/// A client sends on right behind each header, and a stranger, who holds no port there, comes to his port before him and is closed.
const BESIDE_A_STRANGER: &[Act] = &[
    One(Come(
        b"PROXY TCP4 192.0.2.7 198.51.100.1 40000 2121\r\nUSER ann\r\n",
        GREETING,
    )),
    One(Hear(NAMED)),
    One(Ask("PASS x\r\n", "230 User logged in, proceed\r\n")),
    One(Pasv),
    One(Connect(b"PROXY TCP4 192.0.2.9 198.51.100.1 40001 50000\r\n")),
    One(Fetch(b"")),
    One(Connect(b"PROXY TCP4 192.0.2.7 198.51.100.1 40002 50000\r\nwith the header")),
    One(Ask("STOR c.txt\r\n", READY)),
    One(Send(b"")),
    One(Hear(WRITTEN)),
    One(Get(ONES_DATA, "RETR c.txt\r\n", b"with the header")),
    One(Quit),
];

/// Two clients store to one path. The upload of the first has begun once its file is there, which is read as it is.
const ONE_STORES: &[Act] = &[
    One(Enter(ONE)),
    Two(Enter(TWO)),
    One(Begin(ONES_DATA, "STOR c.txt\r\n", READY)),
];

const TWO_READS: &[Act] = &[Two(Get(TWOS_DATA, "RETR c.txt\r\n", b""))];

const ONE_AFTER_THE_OTHER: &[Act] = &[
    Two(Begin(TWOS_DATA, "STOR c.txt\r\n", READY)),
    Two(Hear("450 File not found\r\n")),
    One(Send(b"first")),
    One(Hear(WRITTEN)),
    Two(Begin(TWOS_DATA, "STOR c.txt\r\n", READY)),
    Two(Send(b"second")),
    Two(Hear(WRITTEN)),
    One(Get(ONES_DATA, "RETR c.txt\r\n", b"second")),
];

/// The links of two clients wait at once: each transfer has its own, and one that ABOR drops is closed.
const LINKS_WAIT: &[Act] = &[
    One(Enter(ONE)),
    One(Pasv),
    One(Connect(ONES_DATA)),
    Two(Enter(TWO)),
    Two(Get(TWOS_DATA, "RETR b.txt\r\n", OTHER)),
    Two(Pasv),
    Two(Connect(TWOS_DATA)),
    One(Ask("RETR a.txt\r\n", SENDING)),
    One(Fetch(FILE)),
    One(Hear(SENT)),
    Two(Ask("ABOR\r\n", "226 Closed data channel\r\n")),
    Two(Fetch(b"")),
];

/// A client comes once more than he may, and one of another address.
const ONE_TOO_MANY: &[Act] = &[
    One(Enter(ONE)),
    Two(Come(ONE, "421 Too many sessions, closing control connection\r\n")),
    Two(Hear("")),
    Two(Enter(TWO)),
    Two(Leave),
    One(Quit),
    One(Leave),
];

/// Once a session is over, another is served.
const ONE_AGAIN: &[Act] = &[One(Enter(ONE)), Reach(Logins, 3, 3)];

/// More than two pieces of a transfer.
const UPLOAD: &[u8] = &[b'u'; 20_000];

/// Ann comes after others were refused, changes her directory, stores a file of more than one piece, lists, fetches what was stored,
/// and does not wait for a large file, which she has not got then. She comes again, and her connection fails.
pub const ANN_ALONE: &[Act] = &[
    One(Come(b"", GREETING)),
    One(Ask("USER ann\r\n", NAMED)),
    One(Ask("PASS y\r\n", REFUSED)),
    One(Ask("PASV\r\n", "530 Please authenticate\r\n")),
    One(Ask("USER eve\r\n", NAMED)),
    One(Ask("PASS x\r\n", REFUSED)),
    One(LogIn),
    One(Ask(
        "CWD /\r\n",
        "250 Successfully changed working directory\r\n",
    )),
    One(Begin(b"", "STOR up\r\n", READY)),
    One(Send(UPLOAD)),
    One(Hear(WRITTEN)),
    One(Begin(b"", "NLST\r\n", "150 Sending directory list\r\n")),
    One(Fetch(b"a.txt\r\nb.txt\r\nbig\r\nup\r\n")),
    One(Hear("226 Listed the directory\r\n")),
    One(Get(b"", "RETR up\r\n", UPLOAD)),
    One(Pasv),
    One(Connect(b"")),
    One(Send(b"")),
    One(Ask("RETR big\r\n", SENDING)),
    One(Hear("426 Connection closed\r\n")),
    One(Quit),
    Two(Enter(b"")),
    Two(AskInVain("NOOP\r\n")),
    Two(Leave),
    Reach(Logouts, 2, 2),
    Reach(Logins, 2, 2),
    Reach(Gots, 1, 1),
    Reach(Puts, 1, 1),
];

#[test]
fn clients_are_answered_as_is_due(rt: HostRuntime) -> Result<(), Fail> {
    let types: Option<(TcpListener, TcpStream)> = None;
    drop(types);
    let uploads: [Phase<'_>; 3] = [(1, ONE_STORES), (1000, TWO_READS), (1, ONE_AFTER_THE_OTHER)];
    for (what, mode, most, visit) in [
        ("a stop", POOLED, 10, [(1, STOPPED)].as_slice()),
        ("a port", ListenerMode::Legacy, 10, &[(1, ONE_PORT)]),
        ("a stranger", PROXY, 10, &[(1, BESIDE_A_STRANGER)]),
        ("links", PROXY, 10, &[(1, LINKS_WAIT)]),
        ("uploads", PROXY, 10, &uploads),
        ("a limit", PROXY, 1, &[(1, ONE_TOO_MANY), (100, ONE_AGAIN)]),
        ("listeners", POOLED, 10, &[(1, ANN_ALONE)]),
    ] {
        let met = served(&rt, rt.alloc(), mode, Some(most), Host::Plain, visit);
        assert!(rt; met.is_ok(), "{what}: {met:?}");
    }
    Ok(())
}
