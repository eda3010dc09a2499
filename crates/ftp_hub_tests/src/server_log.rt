//! A visit and its lines: a login that fails, one that is let in, an upload, and the end of the session.

use crate::same::same;
use crate::values::{log_of, pooled};
use ftp_audit::{LogForm, log_text};

// 2026-11-28T13:57:01Z, in milliseconds since the first day of 1970.
const START: u64 = 1_795_874_221_000;

const VISIT: &[&[u8]] = &[
    b"0 connect 7 192.0.2.5:4000 192.0.2.9:21 1",
    b"10 user 7 ann",
    b"10 pass 7",
    b"20 auth 7 refused",
    b"30 user 7 ann",
    b"30 pass 7",
    b"40 auth 7 good",
    b"900 pasv 7 0 - -",
    b"900 data 14 192.0.2.5:4001 50000",
    b"1000 stor 7 a b",
    b"1250 end 7.1",
    b"2000 closed 7",
];

/// Both forms of the lines.
const FORMS: [(LogForm, &[u8]); 2] = [
    (
        LogForm::Own,
        b"2026-11-28T13:57:01.000Z 7 192.0.2.5 unknown connect 0 0 ok -\n\
          2026-11-28T13:57:01.020Z 7 192.0.2.5 ann login 0 0 failed -\n\
          2026-11-28T13:57:01.040Z 7 192.0.2.5 ann login 0 0 ok -\n\
          2026-11-28T13:57:02.250Z 7 192.0.2.5 ann STOR 5 250 ok /a\\x20b\n\
          2026-11-28T13:57:03.000Z 7 192.0.2.5 ann end 0 0 closed -\n",
    ),
    (
        LogForm::Xferlog,
        b"Sat Nov 28 13:57:02 2026 0 192.0.2.5 5 /a_b b _ i r ann ftp 0 * c\n",
    ),
];

#[test]
fn a_visit_has_its_lines_in_both_forms(rt: HostRuntime) {
    let log = log_of(&rt, rt.alloc(), pooled(&rt, rt.alloc()), &[VISIT]);
    for (form, lines) in &FORMS {
        let found = log_text(rt.alloc(), *form, START, &log).expect(&rt, "a text");
        same(&rt, &found.as_slice(), lines);
    }
}
