//! The part of a log that belongs to one client, run with nobody else there.

use crate::same::same;
use crate::values::{ANN, decisions_of, log_of, pooled};
use ftp_events::{Decision, Log, replies_of};
use ftp_hub::isolation;
use std::alloc::{AllocError, Global};
use std::process::Abort;

/// Another client logs in too, each takes a port, and a data connection of each comes to it.
const BOTH: &[&[u8]] = &[
    b"0 connect 2 10.0.0.2:4000 10.0.0.9:21 2",
    b"0 user 2 ann",
    b"0 pass 2",
    b"0 auth 2 good",
    b"0 pasv 1 0 - -",
    b"0 pasv 2 0 - -",
    b"0 data 11 10.0.0.2:1 50000",
    b"0 data 12 10.0.0.1:1 50000",
];

/// The log of what belongs to 10.0.0.1, on a hub of its own.
fn alone(rt: &impl Abort, alloc: Global) -> Log {
    let log = log_of(rt, alloc, pooled(rt, alloc), &[ANN, BOTH]);
    isolation(alloc, pooled(rt, alloc), &log, 0x0a00_0001).expect(rt, "a log")
}

/// What session 1 is sent.
fn sent(alloc: Global, log: &Log) -> Result<Vec<u8>, AllocError> {
    let replies = replies_of(alloc, log, 1)?;
    let mut sent = Vec::new(alloc);
    for reply in replies.as_slice() {
        sent.extend_from_slice(reply.encode(alloc)?.as_slice())?;
    }
    Ok(sent)
}

/// A connection, a login, a port and the data connection that comes to it.
const DECISIONS: [Decision; 6] = [
    Decision::Opened,
    Decision::NeedPass,
    Decision::PassOut,
    Decision::LoggedIn,
    Decision::Granted { port: 50000 },
    Decision::Attached { session: 1 },
];

#[test]
fn a_client_is_served_as_with_nobody_else_there(rt: HostRuntime) {
    let alone = alone(&rt, rt.alloc());
    let found = decisions_of(rt.alloc(), &alone).expect(&rt, "decisions");
    same(&rt, &found.as_slice(), &DECISIONS.as_slice());
    // A name, a password and a PASV have their replies (RFC 959, sections 4.1.2 and 5.4).
    let replies = b"331 Password Required\r\n230 User logged in, proceed\r\n\
                    227 Entering Passive Mode (10,0,0,9,195,80)\r\n";
    let sent = sent(rt.alloc(), &alone).expect(&rt, "replies");
    same(&rt, &sent.as_slice(), &replies.as_slice());
}
