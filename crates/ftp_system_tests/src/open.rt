//! What lets everything pass and asks for nothing.

use crate::same::same;
use ftp_base::Gate;
use ftp_options::Indicator;
use ftp_system::{NeverAsks, OpenGate};

#[test]
fn nobody_is_held_and_nothing_asked(rt: HostRuntime) {
    OpenGate.pass(1);
    same(&rt, &NeverAsks.poll(u64::MAX), &None);
}
