//! A header of a proxy, and what came with it.

use crate::same::same;
use ftp_base::{Control, IpAddr, LinkFault, MemoryLink, SocketAddr, Source};
use ftp_proxy::{ProxyHeader, read_proxy_header};
use ftp_system::{Ahead, Gathered, gathering_buffer};
use std::alloc::{AllocError, Global};

const HEADER: ProxyHeader = ProxyHeader {
    source: SocketAddr {
        ip: IpAddr::V4(0xc000_0207),
        port: 40000,
    },
    destination: SocketAddr {
        ip: IpAddr::V4(0xc633_6401),
        port: 2121,
    },
};

/// A connection from 192.0.2.7 to 198.51.100.1, on which a command came with the header, and whose second call fails.
fn passed_on(alloc: Global) -> Result<MemoryLink, AllocError> {
    let bytes = b"PROXY TCP4 192.0.2.7 198.51.100.1 40000 2121\r\nUSER".to_vec(alloc)?;
    let fails = [(2, LinkFault::Reset)].to_vec(alloc)?;
    Ok(MemoryLink::new(alloc, bytes, 1_000_000, fails))
}

#[test]
fn a_header_is_read_in_one_call_and_then_what_came_with_it(rt: HostRuntime) {
    let alloc = rt.alloc();
    let mut gathered = Gathered::new(
        passed_on(alloc).expect(&rt, "a link"),
        gathering_buffer(alloc).expect(&rt, "a buffer"),
    );
    same(&rt, &read_proxy_header(&mut gathered), &Ok(HEADER));
    let (link, _, rest) = gathered.into_rest(alloc).expect(&rt, "the rest");
    let mut ahead = Ahead::new(link, rest);
    let mut taken = [0; 3];
    same(
        &rt,
        &(ahead.ready(0), ahead.read(&mut taken), &taken),
        &(Ok(true), Ok(3), b"USE"),
    );
    same(
        &rt,
        &(ahead.ready(0), ahead.read(&mut taken), &taken),
        &(Ok(true), Ok(1), b"RSE"),
    );
    // Then it is the connection that is asked.
    same(&rt, &(ahead.read(&mut taken).is_err()), &true);
    same(&rt, &(ahead.inner().sent().is_empty()), &true);
}
