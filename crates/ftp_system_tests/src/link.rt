//! Data connections over sockets.

use crate::loopback::{is_at_end, pair, receive, send};
use crate::same::same;
use ftp_base::{Failed, Link, LinkFault, Source};
use ftp_system::SocketLink;
use mio::net::TcpStream;
use std::alloc::Global;
use std::net::{self, Net, Shutdown};
use std::process::Abort;
use std::time::{Clock, Duration};
use std::{io, thread};

/// A link that waits for so many milliseconds at most.
fn link<N: Net + Drop>(
    net: N,
    alloc: Global,
    stream: net::TcpStream,
    limit: u64,
) -> io::Result<SocketLink<N>> {
    stream.set_nonblocking(true)?;
    let stream = TcpStream::from_std(stream);
    Ok(SocketLink::new(net, alloc, stream, limit))
}

#[test]
fn bytes_go_both_ways_up_to_the_end(rt: HostRuntime) {
    let (client, server) = pair(&rt);
    let mut link = link(rt, rt.alloc(), server, 10_000).expect(&rt, "a link");
    let mut taken = [0; 4];
    send(&rt, &client, b"abcdef");
    same(&rt, &(link.read(&mut taken), &taken), &(Ok(4), b"abcd"));
    same(&rt, &(link.read(&mut taken), &taken), &(Ok(2), b"efcd"));
    same(&rt, &link.write(b"wxyz"), &Ok(4));
    receive(&rt, &client, &mut taken);
    same(&rt, &taken, b"wxyz");
    client.shutdown(Shutdown::Write).expect(&rt, "an end");
    same(&rt, &link.read(&mut taken), &Ok(0));
    same(&rt, &(link.close(), link.last_fault()), &(Ok(()), None));
    same(&rt, &is_at_end(&rt, &client), &true);
}

/// Sends bytes after so many milliseconds.
fn send_later<R: Clock + Abort>(rt: &R, client: &net::TcpStream, bytes: &[u8], millis: u64) {
    thread::sleep(rt, Duration::from_millis(millis));
    send(rt, client, bytes);
}

#[test]
fn a_read_waits_for_what_comes(rt: HostRuntime) {
    let (client, server) = pair(&rt);
    let mut link = link(rt, rt.alloc(), server, 30_000).expect(&rt, "a link");
    let mut taken = [0; 4];
    let (_, read) = thread::join(
        &rt,
        || send_later(&rt, &client, b"late", 50),
        || link.read(&mut taken),
    );
    same(&rt, &(read, &taken), &(Ok(4), b"late"));
}

#[test]
fn a_wait_beyond_the_limit_is_a_fault(rt: HostRuntime) {
    let (client, server) = pair(&rt);
    let mut link = link(rt, rt.alloc(), server, 50).expect(&rt, "a link");
    same(&rt, &link.read(&mut [0; 4]), &Err(Failed::Fault));
    same(&rt, &link.last_fault(), &Some(LinkFault::Other));
    drop(client);
}

#[test]
fn a_peer_that_resets_is_a_fault(rt: HostRuntime) {
    let (client, server) = pair(&rt);
    let mut link = link(rt, rt.alloc(), server, 10_000).expect(&rt, "a link");
    // A connection that is closed with bytes which were not read is reset.
    same(&rt, &link.write(b"x"), &Ok(1));
    drop(client);
    same(&rt, &link.read(&mut [0; 4]), &Err(Failed::Fault));
    same(&rt, &link.last_fault(), &Some(LinkFault::Reset));
}

#[test]
fn a_write_to_a_closed_connection_is_a_fault(rt: HostRuntime) {
    let (client, server) = pair(&rt);
    let mut link = link(rt, rt.alloc(), server, 10_000).expect(&rt, "a link");
    same(&rt, &link.close(), &Ok(()));
    same(&rt, &link.write(b"x"), &Err(Failed::Fault));
    same(&rt, &link.last_fault(), &Some(LinkFault::BrokenPipe));
    same(&rt, &is_at_end(&rt, &client), &true);
}
