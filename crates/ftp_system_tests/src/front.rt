//! Where a server listens.

use crate::loopback::{address, caller, loopback, now};
use crate::same::same;
use ftp_base::SocketAddr;
use ftp_system::{Doors, Front, SystemFront, std_address, told_address};
use mio::{Events, Poll, Token};
use std::alloc::Global;
use std::net::{Net, TcpListener, TcpStream};
use std::process::Abort;
use std::time::Duration;

/// A connection to a listener at this address, and its own address.
fn client<N: Net<Listener = TcpListener, Stream = TcpStream> + Abort>(
    rt: &N,
    at: SocketAddr,
) -> (TcpStream, SocketAddr) {
    let client = TcpStream::connect(rt, std_address(at)).expect(rt, "a connection");
    let own = client.local_addr().expect(rt, "an address");
    (client, told_address(own))
}

/// Doors at an address, with passive ports or without; none where it is in use.
fn doors<F: Front>(
    rt: &impl Abort,
    front: &mut F,
    at: SocketAddr,
    ports: Option<(u16, u16)>,
) -> Option<Doors> {
    front.open_doors(at, ports).expect(rt, "doors")
}

#[test]
fn doors_are_open_until_they_are_dropped(rt: HostRuntime) {
    let mut front = SystemFront::new(rt, rt.alloc());
    let open = doors(&rt, &mut front, loopback(0), None).expect(&rt, "doors");
    let at = address(&rt, &open.control);
    same(&rt, &(at.port > 0, at.ip), &(true, loopback(0).ip));
    same(&rt, &(open.ports.is_empty() && open.poll.is_none()), &true);
    let (_stream, own) = client(&rt, at);
    let (_, from) = open.control.accept().expect(&rt, "a connection");
    same(&rt, &told_address(from), &own);
    // An address in use is no door, neither for control connections nor for data connections.
    let again = doors(&rt, &mut front, at, None);
    same(&rt, &again.is_none(), &true);
    let passive = doors(&rt, &mut front, loopback(0), Some((at.port, at.port)));
    same(&rt, &passive.is_none(), &true);
}

/// The token of the event that comes first.
fn first_token(rt: &impl Abort, alloc: Global, poll: &mut Poll) -> Token {
    let mut events = Events::with_capacity(alloc, 4).expect(rt, "events");
    let wait = Some(Duration::from_secs(10));
    poll.poll(&mut events, wait).expect(rt, "a poll");
    let first = events.iter().next().expect(rt, "an event");
    first.token()
}

/// A port that was free just now.
fn free_port<N: Net<Listener = TcpListener, Stream = TcpStream> + Abort>(rt: &N) -> u16 {
    let free = TcpListener::bind(rt, "127.0.0.1:0").expect(rt, "a listener");
    address(rt, &free).port
}

#[test]
fn passive_ports_tell_who_comes(rt: HostRuntime) {
    let mut front = SystemFront::new(rt, rt.alloc());
    let port = free_port(&rt);
    let doors = doors(&rt, &mut front, loopback(0), Some((port, port))).expect(&rt, "doors");
    let Doors {
        control: _,
        ports,
        poll,
    } = doors;
    let mut poll = poll.expect(&rt, "a poll");
    let [(bound, listener)] = ports.as_slice() else {
        panic!(rt; "one port");
    };
    same(&rt, bound, &port);
    let (_stream, own) = client(&rt, loopback(port));
    same(&rt, &first_token(&rt, rt.alloc(), &mut poll), &Token(0));
    same(&rt, &caller(&rt, listener), &own);
}

#[test]
fn a_front_tells_the_time(rt: HostRuntime) {
    let mut front = SystemFront::new(rt, rt.alloc());
    let before = now(&rt);
    let at = front.now();
    let is_now = before <= at as u128 && at as u128 <= now(&rt);
    same(&rt, &(is_now, at <= front.now()), &(true, true));
}
