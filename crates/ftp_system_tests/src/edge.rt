//! The clock, words, names and sockets of the system.

use crate::loopback::{caller, loopback};
use crate::same::same;
use ftp_base::{Bytes, Edge, SocketAddr};
use ftp_system::{SystemEdge, told_address};
use mio::net::{TcpListener, TcpStream};
use std::alloc::Global;
use std::net::{IpAddr, Ipv4Addr, Net};
use std::process::Abort;
use std::random::RandomSource;
use std::time::Clock;

/// An edge at the loopback address, which waits for a connection for ten seconds at most.
fn edge<R: Net + Clock + RandomSource + Drop>(rt: R, alloc: Global) -> SystemEdge<R> {
    SystemEdge::new(rt, alloc, IpAddr::V4(Ipv4Addr::new(127, 0, 0, 1)), 10_000)
}

#[test]
fn moments_go_on_and_words_differ(rt: HostRuntime) {
    let mut edge = edge(rt, rt.alloc());
    let mut last = edge.now();
    let mut goes_on = true;
    for _turn in 0..1000 {
        let at = edge.now();
        goes_on = goes_on && last <= at;
        last = at;
    }
    edge.pause(50);
    let has_paused = edge.now().saturating_sub(last) >= 50;
    same(&rt, &(goes_on, has_paused), &(true, true));
    same(&rt, &(edge.word() == edge.word()), &false);
}

const NAMES: [(&[u8], Option<u32>); 3] = [
    (b"localhost", Some(0x7f00_0001)),
    (b"10.0.0.9", Some(0x0a00_0009)),
    (b"\xff", None),
];

#[test]
fn a_name_has_an_address(rt: HostRuntime) {
    let mut edge = edge(rt, rt.alloc());
    for (name, ip) in &NAMES {
        let name = Bytes::from_slice(rt.alloc(), name).expect(&rt, "bytes");
        same(&rt, &edge.lookup(&name), ip);
    }
}

/// Where a listener listens.
fn address(rt: &impl Abort, listener: &TcpListener) -> SocketAddr {
    told_address(listener.local_addr().expect(rt, "an address"))
}

/// The own address of a connection, and that of its other end.
fn ends(rt: &impl Abort, stream: &TcpStream) -> (SocketAddr, SocketAddr) {
    let own = stream.local_addr().expect(rt, "an address");
    let other = stream.peer_addr().expect(rt, "an address");
    (told_address(own), told_address(other))
}

#[test]
fn a_port_is_bound_and_a_connection_made_to_it(rt: HostRuntime) {
    let mut edge = edge(rt, rt.alloc());
    let port = edge.bind(49152, 65535).expect(&rt, "a port");
    let (kept, listener) = edge.take_bound().expect(&rt, "a listener");
    same(
        &rt,
        &(kept, address(&rt, &listener)),
        &(port, loopback(port)),
    );
    // Who holds a port keeps it.
    same(&rt, &edge.bind(port, port), &None);
    same(&rt, &edge.connect(loopback(port), 7), &true);
    let (number, stream) = edge.take_made().expect(&rt, "a connection");
    let ends = ends(&rt, &stream);
    let from = caller(&rt, &listener);
    same(&rt, &(number, ends), &(7, (from, loopback(port))));
    same(
        &rt,
        &(edge.take_bound().is_none() && edge.take_made().is_none()),
        &true,
    );
    // Where nobody listens no connection is made.
    drop(listener);
    let connects = edge.connect(loopback(port), 8);
    same(&rt, &(connects, edge.take_made().is_none()), &(false, true));
}

#[test]
fn port_0_is_never_bound(rt: HostRuntime) {
    let mut edge = edge(rt, rt.alloc());
    same(&rt, &edge.bind(0, 0), &None);
    same(&rt, &edge.bind(50001, 50000), &None);
    same(&rt, &edge.take_bound().is_none(), &true);
}
