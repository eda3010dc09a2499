//! Who holds a port by a log.

use crate::same::same;
use crate::values::{ANN, log_of, pooled};
use ftp_events::holder_of;
use std::alloc::Global;
use std::process::Abort;

/// The client's address, 10.0.0.1.
const CLIENT: u32 = 0x0a00_0001;

/// A session is granted the second port.
const GRANTED: &[&[u8]] = &[b"0 pasv 1 1 - -"];

/// It leaves.
const LEFT: &[&[u8]] = &[b"0 closed 1"];

/// Who holds a port for a client when these scripts have happened.
fn holder(
    rt: &impl Abort,
    alloc: Global,
    scripts: &[&[&[u8]]],
    client: u32,
    port: u16,
) -> Option<u64> {
    let log = log_of(rt, alloc, pooled(rt, alloc), scripts);
    holder_of(&pooled(rt, alloc), &log, client, port)
}

const BEFORE: &[&[&[u8]]] = &[ANN, GRANTED];

/// What has happened, a client's address and a port, and the session that holds it.
const ROWS: [(&[&[&[u8]]], u32, u16, Option<u64>); 4] = [
    (BEFORE, CLIENT, 50001, Some(1)),
    (BEFORE, CLIENT, 50000, None),
    (BEFORE, CLIENT + 1, 50001, None),
    (&[ANN, GRANTED, LEFT], CLIENT, 50001, None),
];

#[test]
fn a_log_tells_who_holds_a_port(rt: HostRuntime) {
    for (scripts, client, port, session) in &ROWS {
        let found = holder(&rt, rt.alloc(), scripts, *client, *port);
        same(&rt, &found, session);
    }
}
