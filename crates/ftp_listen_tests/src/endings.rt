//! Why a server ends.

use crate::client::GREETING;
use crate::doubles::Sign::Arrivals;
use crate::doubles::{Held, new_board};
use crate::setting::{FILE, Host, Setting, Stopped, visited};
use crate::steps::Act::{self, One, Open, Reach, Stop, Two};
use crate::steps::Step::{Ask, Begin, Come, Connect, Enter, Fetch, Hear, Leave, Pasv};
use crate::visits::{SENDING, SENT};
use ftp_options::{ListenerMode, ServerError, Shutdown};
use ftp_system::ServerRuntime;
use std::alloc::Global;
use std::net::{TcpListener, TcpStream};
use std::sync::Arc;
use std::sync::atomic::Ordering;
use std::test::Fail;

/// What a client is told whose session ends with the server (RFC 959, section 4.2).
const STOPPING: &str = "421 Server is stopping, closing control connection\r\n";

const NOBODY: &[Act] = &[];

/// A client asks for the file, and leaves once its transfer waits at the gate.
const LEFT: &[Act] = &[
    One(Enter(b"")),
    One(Begin(b"", "RETR a.txt\r\n", SENDING)),
    Reach(Arrivals, 1, 1),
    One(Leave),
];

/// Two clients of a server that is to shut down: one does nothing, and is sent away at once; the transfer of the other waits at the
/// gate, goes on to its end, and is told so before that client is sent away too.
const STAYED: &[Act] = &[
    Two(Come(b"", GREETING)),
    One(Enter(b"")),
    One(Begin(b"", "RETR a.txt\r\n", SENDING)),
    Reach(Arrivals, 1, 1),
    Stop,
    Two(Hear(STOPPING)),
    Two(Hear("")),
    Open,
    One(Fetch(FILE)),
    One(Hear(SENT)),
    One(Hear(STOPPING)),
    One(Hear("")),
];

/// The same, but the other was told that its transfer begins, and connects for it only after the shutdown.
const LATE: &[Act] = &[
    Two(Come(b"", GREETING)),
    One(Enter(b"")),
    One(Pasv),
    One(Ask("RETR a.txt\r\n", SENDING)),
    Stop,
    Open,
    Two(Hear(STOPPING)),
    Two(Hear("")),
    One(Connect(b"")),
    One(Fetch(FILE)),
    One(Hear(SENT)),
    One(Hear(STOPPING)),
    One(Hear("")),
];

/// How a server ended over a gate that holds transfers back, where it is asked to shut down in this time, behind the visit at the
/// latest; and whether every poll was given the moment that the front gave last.
fn shut_down<R: ServerRuntime>(
    rt: &R,
    alloc: Global,
    grace: u64,
    visit: &[Act],
) -> Result<(Result<(), Stopped>, bool), Stopped> {
    let board = new_board(alloc)?;
    let gate = Held {
        clock: *rt,
        board: Arc::try_clone(&board)?,
    };
    let setting = Setting::new(alloc, &board, ListenerMode::Pooled);
    let shutdown = Shutdown::new().grace_period(grace);
    let host = Host::Watched(gate, shutdown);
    let ended = visited(rt, &setting, host, &[(1, visit)]);
    board.is_open.store(true, Ordering::SeqCst);
    Ok((ended, board.polls_agree()))
}

#[test]
fn a_shutdown_lets_a_transfer_end_and_tells_its_clients(rt: HostRuntime) -> Result<(), Fail> {
    let types: Option<(TcpListener, TcpStream)> = None;
    drop(types);
    for (grace, visit, is_whole) in [
        (0, NOBODY, true),
        (0, LEFT, false),
        (30_000, STAYED, true),
        (30_000, LATE, true),
    ] {
        let (ended, polls_agree) = shut_down(&rt, rt.alloc(), grace, visit)?;
        assert!(rt; polls_agree);
        let is_due = match &ended {
            Ok(()) => is_whole,
            Err(stopped) => !is_whole && matches!(stopped, Stopped::Server(ServerError::Shutdown)),
        };
        assert!(rt; is_due, "{ended:?}");
    }
    Ok(())
}
