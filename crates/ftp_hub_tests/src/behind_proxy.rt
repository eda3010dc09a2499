//! A hub behind a proxy, by a header that was read elsewhere.

use crate::same::same;
use crate::values::step;
use ftp_base::MemoryLink;
use ftp_events::{Answer, Decision};
use ftp_hub::Hub;
use ftp_options::{Options, ServerBuilder};
use ftp_proxy::{ProxyHeader, read_proxy_header};
use std::alloc::Global;
use std::process::Abort;

/// The port of the proxy that opens sessions.
const CONTROL: u16 = 2121;

fn options(rt: &impl Abort, alloc: Global) -> Options {
    let mut builder = ServerBuilder::new(alloc);
    builder.proxy_protocol_mode(CONTROL);
    builder.passive_ports(50000, 50001);
    builder.build().ok().expect(rt, "options").options
}

/// The header of a client that comes to open a session.
fn header(rt: &impl Abort, alloc: Global) -> ProxyHeader {
    let text = b"PROXY TCP4 10.0.0.1 198.51.100.1 4000 2121\r\n";
    let text = text.to_vec(alloc).expect(rt, "a text");
    let mut link = MemoryLink::new(alloc, text, 2, Vec::new(alloc));
    read_proxy_header(&mut link).ok().expect(rt, "a header")
}

/// What is decided on the first connection of the proxy.
fn decided(rt: &impl Abort, alloc: Global, hub: &mut Hub, answer: Answer) -> Decision {
    step(rt, alloc, hub, b"0 proxied 1 10.9.9.9:1 1", answer).decision
}

#[test]
fn a_connection_of_the_proxy_needs_its_header(rt: HostRuntime) {
    let alloc = rt.alloc();
    let mut hub = Hub::new(alloc, options(&rt, alloc));
    let early = decided(&rt, alloc, &mut hub, Answer::None);
    let header = Answer::Header(Ok(header(&rt, alloc)));
    let late = decided(&rt, alloc, &mut hub, header);
    same(
        &rt,
        &(early, late),
        &(Decision::NotExpected, Decision::Opened),
    );
}
