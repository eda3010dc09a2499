//! Lines of the control connection, and what they ask for.

use crate::same::same;
use ftp_control::parse_line;
use std::alloc::{AllocError, Global};

/// Lines, and what they ask for as it is printed, or why they are none.
const ROWS: [(&[u8], &str); 4] = [
    (
        b"uSeR Al\r\n",
        "Ok(User { username: Bytes { items: [65, 108] } })",
    ),
    (b"USER Al\r", "Err(InvalidEol)"),
    (
        b"LIST -la -- a b\r\n",
        "Ok(Data(List { options: None, path: Some(Bytes { items: [97, 32, 98] }) }))",
    ),
    (b"REST 1303 343\r\n", "Err(InvalidCommand)"),
];

fn printed(alloc: Global, line: &[u8]) -> Result<String, AllocError> {
    format!(in alloc; "{:?}", parse_line(alloc, line))
}

#[test]
fn a_line_asks_for_a_command_or_is_refused(rt: HostRuntime) {
    for (line, due) in &ROWS {
        let found = printed(rt.alloc(), line).expect(&rt, "a text");
        same(&rt, &found.as_str(), due);
    }
}

#[test]
fn a_password_is_shown_nowhere(rt: HostRuntime) {
    let found = printed(rt.alloc(), b"PASS secret\r\n").expect(&rt, "a text");
    same(&rt, &found.as_str(), &"Ok(Pass { password: ******* })");
}
