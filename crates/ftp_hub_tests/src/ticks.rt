//! Looks at the times of a session, where its client is late.

use crate::counting::Counts;
use crate::late::LateControl;
use crate::same::same;
use crate::talk::talk;
use ftp_talk::ServeEnd;

const COUNTS: Counts = Counts {
    connects: 1,
    idle_ticks: 1,
    slot_ticks: 1,
    internals: 1,
    quits: 1,
    others: 0,
};

const SENT: &[u8] =
    b"220 Welcome to the libunftp FTP server\r\n200 Successfully did nothing\r\n221 Bye!\r\n";

#[test]
fn a_wait_is_a_look_at_the_idle_time_and_one_at_the_slot(rt: HostRuntime) {
    let control = LateControl::new(rt.alloc(), b"NOOP\r\nQUIT\r\n");
    let mut control = control.expect(&rt, "lines");
    let talked = talk(&rt, rt.alloc(), &mut control, None);
    same(
        &rt,
        &(talked.end, talked.counts),
        &(ServeEnd::Ended, COUNTS),
    );
    same(&rt, &control.sent(), &SENT);
}
