//! Texts that say where a server listens, and addresses in both spellings.

use crate::loopback::loopback;
use crate::same::same;
use ftp_base::{IpAddr, SocketAddr};
use ftp_system::{bind_address, port_of, std_address, told_address};
use std::alloc::Global;
use std::process::Abort;

/// The address `::1` and a port.
fn loopback_6(port: u16) -> SocketAddr {
    SocketAddr {
        ip: IpAddr::V6(1),
        port,
    }
}

const LOOPBACK: IpAddr = IpAddr::V4(0x7f00_0001);

const ADDRESSES: [(&[u8], Option<(IpAddr, u16)>); 13] = [
    (b"127.0.0.1:21", Some((LOOPBACK, 21))),
    (b"127.0.0.1:0", Some((LOOPBACK, 0))),
    (b"127.0.0.1:65535", Some((LOOPBACK, 65535))),
    (b"[::1]:2121", Some((IpAddr::V6(1), 2121))),
    (b"127.0.0.1:65536", None),
    (b"127.0.0.1:021", None),
    (b"127.0.0.1:", None),
    (b"127.0.0.1", None),
    (b"[127.0.0.1]:21", None),
    (b"::1:21", None),
    (b"localhost:21", None),
    (b":21", None),
    (b"", None),
];

/// The address of a text and its port.
fn read(text: &[u8]) -> Option<(IpAddr, u16)> {
    let at = bind_address(text)?;
    Some((at.ip, at.port))
}

#[test]
fn an_address_is_read_with_its_port(rt: HostRuntime) {
    for (text, at) in &ADDRESSES {
        same(&rt, &read(text), at);
    }
    same(
        &rt,
        &(port_of(b"2121"), port_of(b"+1")),
        &(Some(2121), None),
    );
}

/// An address is spelled so by the system, and told as it was.
fn compare(rt: &impl Abort, alloc: Global, at: SocketAddr, text: &str) {
    let systems = std_address(at);
    let spelled = format!(in alloc; "{systems}").expect(rt, "a text");
    same(rt, &(spelled.as_str(), told_address(systems)), &(text, at));
}

#[test]
fn an_address_is_the_same_in_both_spellings(rt: HostRuntime) {
    compare(&rt, rt.alloc(), loopback(21), "127.0.0.1:21");
    compare(&rt, rt.alloc(), loopback_6(2121), "[::1]:2121");
}
