//! How long a name is locked.

use crate::client::GREETING;
use crate::doubles::Sign::Polls;
use crate::setting::{Host, served};
use crate::steps::Act::{self, Leap, One, Reach};
use crate::steps::Step::{Ask, AskSlow, Come, LogIn};
use crate::visits::{NAMED, REFUSED};
use ftp_options::{ListenerMode, Shutdown};
use ftp_system::OpenGate;
use std::net::{TcpListener, TcpStream};
use std::test::Fail;

/// A client locks ann's name, waits for the delay of a locked name, and comes in once the lock is forgotten, two hours later.
const LOCKED: &[Act] = &[
    One(Come(b"", GREETING)),
    One(Ask("USER ann\r\n", NAMED)),
    One(Ask("PASS y\r\n", REFUSED)),
    One(Ask("USER ann\r\n", NAMED)),
    One(Ask("PASS y\r\n", REFUSED)),
    One(Ask("USER ann\r\n", NAMED)),
    One(Ask("PASS y\r\n", REFUSED)),
    One(Ask("USER ann\r\n", NAMED)),
    One(AskSlow("PASS x\r\n", REFUSED, 1500)),
    Leap(7_200_000),
    Reach(Polls, 3, u64::MAX),
    One(LogIn),
];

#[test]
fn a_lock_delays_and_is_forgotten(rt: HostRuntime) -> Result<(), Fail> {
    let types: Option<(TcpListener, TcpStream)> = None;
    drop(types);
    let host = Host::Watched(OpenGate, Shutdown::new());
    let mode = ListenerMode::Pooled;
    Ok(served(&rt, rt.alloc(), mode, None, host, &[(1, LOCKED)])?)
}
