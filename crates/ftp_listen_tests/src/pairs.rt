//! Two transfers, of which each has to see the other started.

use crate::doubles::{InPairs, new_board};
use crate::setting::{FILE, Host, OTHER, Setting, Stopped, visited};
use crate::steps::Act::{self, One, Two};
use crate::steps::Step::{Ask, Connect, Enter, Fetch, Hear, Pasv, Quit};
use crate::visits::{ONE, ONES_DATA, SENDING, SENT, TWO, TWOS_DATA};
use ftp_options::{ListenerMode, Shutdown};
use ftp_system::ServerRuntime;
use std::alloc::Global;
use std::net::{TcpListener, TcpStream};
use std::sync::Arc;
use std::sync::atomic::Ordering;
use std::test::Fail;

/// Two clients ask for a file each at a time, and wait for them one after the other.
const FETCHED: &[Act] = &[
    One(Enter(ONE)),
    One(Pasv),
    One(Connect(ONES_DATA)),
    Two(Enter(TWO)),
    Two(Pasv),
    Two(Connect(TWOS_DATA)),
    One(Ask("RETR a.txt\r\n", SENDING)),
    Two(Ask("RETR b.txt\r\n", SENDING)),
    One(Fetch(FILE)),
    One(Hear(SENT)),
    Two(Fetch(OTHER)),
    Two(Hear(SENT)),
    One(Quit),
    Two(Quit),
];

/// Serves both, and says whether the first transfer saw the second started.
fn served_in_pairs<R: ServerRuntime>(rt: &R, alloc: Global) -> Result<bool, Stopped> {
    let board = new_board(alloc)?;
    let gate = InPairs {
        board: Arc::try_clone(&board)?,
    };
    let setting = Setting::new(alloc, &board, ListenerMode::Proxy { control_port: 2121 });
    let host = Host::Watched(gate, Shutdown::new());
    visited(rt, &setting, host, &[(1, FETCHED)])?;
    Ok(board.is_open.load(Ordering::SeqCst))
}

#[test]
fn two_transfers_see_each_other_started(rt: HostRuntime) -> Result<(), Fail> {
    let types: Option<(TcpListener, TcpStream)> = None;
    drop(types);
    let have_met = served_in_pairs(&rt, rt.alloc())?;
    assert!(rt; have_met);
    Ok(())
}
