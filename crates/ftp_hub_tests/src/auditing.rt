//! A caller that has an audit hear what happens on a hub.

use crate::same::same;
use crate::values::{pooled, step};
use ftp_audit::Audit;
use ftp_events::Answer;
use ftp_hub::Hub;
use std::alloc::Global;
use std::process::Abort;

/// Two sessions that log in and leave, one behind the other.
const VISITS: [&[u8]; 10] = [
    b"0 connect 1 10.0.0.1:4000 10.0.0.1:21 1",
    b"0 user 1 ann",
    b"0 pass 1",
    b"0 auth 1 good",
    b"0 quit 1",
    b"0 connect 2 10.0.0.1:4000 10.0.0.1:21 2",
    b"0 user 2 ann",
    b"0 pass 2",
    b"0 auth 2 good",
    b"0 quit 2",
];

/// The line of a script happens on the hub, and the audit hears of it.
fn hear(rt: &impl Abort, alloc: Global, hub: &mut Hub, audit: &mut Audit, line: &[u8]) {
    let entry = step(rt, alloc, hub, line, Answer::None);
    let taken = audit.take(&entry);
    drop(entry);
    taken.ok().expect(rt, "an entry that fits");
}

#[test]
fn an_audit_hears_what_happens_on_a_hub(rt: HostRuntime) {
    let alloc = rt.alloc();
    let mut hub = Hub::new(alloc, pooled(&rt, alloc));
    let mut audit = Audit::new(alloc);
    for line in VISITS {
        hear(&rt, alloc, &mut hub, &mut audit, line);
    }
    drop(hub);
    let report = audit.report().expect(&rt, "a report");
    same(
        &rt,
        &report.as_slice(),
        &b"got 0 0 put 0 0 in 2 out 2 ann\n".as_slice(),
    );
}
