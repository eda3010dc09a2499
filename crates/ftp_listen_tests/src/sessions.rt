//! A session of each mode, whose client compares every reply.

use crate::setting::{FILE, Host, served};
use crate::steps::Act::{self, One};
use crate::steps::Step::{Enter, Get, Quit};
use crate::visits::{ONE, ONES_DATA};
use ftp_options::ListenerMode;
use std::net::{TcpListener, TcpStream};
use std::test::Fail;

/// A client logs in, fetches the file and leaves; alone, and behind a proxy that sends headers of version 1 and of version 2.
const ALONE: &[Act] = &[
    One(Enter(b"")),
    One(Get(b"", "RETR a.txt\r\n", FILE)),
    One(Quit),
];

const BEHIND_VERSION_1: &[Act] = &[
    One(Enter(ONE)),
    One(Get(ONES_DATA, "RETR a.txt\r\n", FILE)),
    One(Quit),
];

// From 192.0.2.7:40000 to 198.51.100.1:2121, and from 192.0.2.7:40001 to 198.51.100.1:50000.
const BEHIND_VERSION_2: &[Act] = &[
    One(Enter(b"\r\n\r\n\0\r\nQUIT\n\x21\x11\0\x0c\xc0\0\x02\x07\xc6\x33\x64\x01\x9c\x40\x08\x49")),
    One(Get(
        b"\r\n\r\n\0\r\nQUIT\n\x21\x11\0\x0c\xc0\0\x02\x07\xc6\x33\x64\x01\x9c\x41\xc3\x50",
        "RETR a.txt\r\n",
        FILE,
    )),
    One(Quit),
];

#[test]
fn a_file_is_fetched_in_each_mode(rt: HostRuntime) -> Result<(), Fail> {
    let types: Option<(TcpListener, TcpStream)> = None;
    drop(types);
    let proxy = ListenerMode::Proxy { control_port: 2121 };
    for (mode, visit) in [
        (ListenerMode::Legacy, ALONE),
        (ListenerMode::Pooled, ALONE),
        (proxy, BEHIND_VERSION_1),
        (proxy, BEHIND_VERSION_2),
    ] {
        let host = if mode == ListenerMode::Legacy {
            Host::Plain
        } else {
            Host::Prebound
        };
        let met = served(&rt, rt.alloc(), mode, None, host, &[(1, visit)]);
        assert!(rt; met.is_ok(), "{mode:?}: {met:?}");
    }
    Ok(())
}
