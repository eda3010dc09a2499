//! Which earlier entries the decisions on ports rest on, in logs of runs on a fresh hub.

ghost use Rattle.ftp_events.specs.Right.{IsRight};

use crate::same::{holds, same};
use crate::values::{ANN, log_of, pooled};
use ftp_check_log::{put_evidence, why};
use ftp_events::Log;
use ftp_options::Options;
use std::alloc::Global;
use std::process::Abort;

/// Two more logins, and a PASV of each.
const FULL: &[&[u8]] = &[
    b"0 connect 2 10.0.0.1:4000 10.0.0.9:21 2",
    b"0 user 2 ann",
    b"0 pass 2",
    b"0 auth 2 good",
    b"0 connect 3 10.0.0.1:4000 10.0.0.9:21 3",
    b"0 user 3 ann",
    b"0 pass 3",
    b"0 auth 3 good",
    b"0 pasv 1 0 - -",
    b"0 pasv 2 0 - -",
    b"0 pasv 3 0 - -",
];

/// A port that is granted, connected to by a stranger and twice by its client, granted again and given up by an ABOR, and
/// connected to once more.
const COMING_AND_GOING: &[&[u8]] = &[
    b"0 pasv 1 0 - -",
    b"0 data 11 10.0.0.2:4001 50000",
    b"0 data 12 10.0.0.1:4001 50000",
    b"0 data 13 10.0.0.1:4001 50000",
    b"0 pasv 1 0 - -",
    b"0 abor 1",
    b"0 data 14 10.0.0.1:4001 50000",
];

/// The printed evidence for the entry at place `k`.
fn told(rt: &impl Abort, alloc: Global, options: &Options, log: &Log, k: u64) -> Vec<u8>
    requires right { IsRight options.now log.now.entries }
{
    holds(rt, k < log.len());
    let evidence = why(alloc, options, log, k).ok().expect(rt, "evidence");
    let mut text = Vec::new(alloc);
    put_evidence(&mut text, &evidence).expect(rt, "a text");
    text
}

/// The place of an entry, and its printed evidence.
type Row = (u64, &'static [u8]);

/// Compares the printed evidence for entries of the log of these lines.
fn compare(rt: &impl Abort, alloc: Global, lines: &[&[&[u8]]], rows: &[Row]) {
    let options = pooled(rt, alloc);
    let copy = options.copy(alloc).expect(rt, "options");
    let log = log_of(rt, alloc, copy, lines);
    for (k, text) in rows {
        same(rt, &told(rt, alloc, &options, &log, *k).as_slice(), text);
    }
}

const OF_GRANTS: [Row; 2] = [(13, b"plain"), (14, b"full 12 13")];

#[test]
fn a_full_range_names_the_grant_of_each_port(rt: HostRuntime) {
    compare(&rt, rt.alloc(), &[ANN, FULL], &OF_GRANTS);
}

const OF_CONNECTIONS: [Row; 5] = [
    (4, b"plain"),
    (5, b"free -"),
    (6, b"held 4"),
    (7, b"free 6"),
    (10, b"free 9"),
];

#[test]
fn a_connection_names_the_grant_or_the_release_of_its_port(rt: HostRuntime) {
    compare(&rt, rt.alloc(), &[ANN, COMING_AND_GOING], &OF_CONNECTIONS);
}
