//! What is printed: replies, numbers, paths and times.

use crate::same::same;
use ftp_base::{
    Bytes, ControlChanMsg, IpAddr, Meta, PortAllocationError, Reply, ReplyCode, ReplyText,
    SocketAddr, TraceId,
};
use ftp_events::{make_pasv_reply, port_target, reply_of};
use ftp_options::PassiveHost;
use ftp_transfer::{HumanDuration, format_facts, join_path};
use std::alloc::{AllocError, Global};
use std::process::Abort;

fn joined(alloc: Global, cwd: &[u8], arg: &[u8]) -> Result<Bytes, AllocError> {
    let cwd = Bytes::from_slice(alloc, cwd)?;
    let arg = Bytes::from_slice(alloc, arg)?;
    join_path(alloc, &cwd, &arg)
}

/// A text is this one.
fn is_text(rt: &impl Abort, found: Result<Bytes, AllocError>, due: &[u8]) {
    let found = found.expect(rt, "a text");
    same(rt, &found.as_slice(), &due);
}

/// A reply to a name, as it is sent.
fn asked_for_a_password(alloc: Global) -> Result<Bytes, AllocError> {
    let reply = Reply::CodeAndMsg {
        code: ReplyCode::NeedPassword,
        msg: ReplyText::from_static(b"Password Required"),
    };
    reply.encode(alloc)
}

/// The address 127.0.0.1.
const LOOPBACK: u32 = 0x7f00_0001;

/// The reply to a PASV at 10.0.0.9 for port 50000, as it is sent.
fn passive(alloc: Global, host: &PassiveHost) -> Result<Bytes, AllocError> {
    let reply = make_pasv_reply(alloc, host, 0x0a00_0009, None, 50000)?;
    reply.encode(alloc)
}

/// The reply to a login that succeeds, as it is sent.
fn let_in(alloc: Global) -> Result<Bytes, AllocError> {
    let username = Bytes::from_slice(alloc, b"ada")?;
    let trace_id = TraceId::new(7);
    let reply = reply_of(alloc, &ControlChanMsg::AuthSuccess { username, trace_id })?;
    reply.encode(alloc)
}

// RFC 959, section 4.1.2: h1,h2,h3,h4,p1,p2, and 50000 is 195 * 256 + 80.
#[test]
fn a_reply_ends_in_cr_lf_and_a_passive_one_shows_six_numbers(rt: HostRuntime) {
    let alloc = rt.alloc();
    is_text(
        &rt,
        asked_for_a_password(alloc),
        b"331 Password Required\r\n",
    );
    is_text(&rt, let_in(alloc), b"230 User logged in, proceed\r\n");
    is_text(&rt, Reply::None.encode(alloc), b"");
    is_text(
        &rt,
        passive(alloc, &PassiveHost::FromConnection),
        b"227 Entering Passive Mode (10,0,0,9,195,80)\r\n",
    );
    is_text(
        &rt,
        passive(alloc, &PassiveHost::Ip(LOOPBACK)),
        b"227 Entering Passive Mode (127,0,0,1,195,80)\r\n",
    );
}

/// Texts of six numbers and others, and their addresses; 30000 is 117 * 256 + 48.
const TARGETS: [(&[u8], Option<SocketAddr>); 4] = [
    (
        b"127,0,0,1,117,48",
        Some(SocketAddr {
            ip: IpAddr::V4(LOOPBACK),
            port: 30000,
        }),
    ),
    (b"127,0,0,1,117", None),
    (b"127,0,0,1,117,48,1", None),
    (b"127,0,0,1,x,48", None),
];

#[test]
fn six_numbers_are_an_address(rt: HostRuntime) {
    for (text, found) in &TARGETS {
        same(&rt, &port_target(text), found);
    }
}

const TRACE_IDS: [(u64, &[u8]); 2] = [(255, b"0xff"), (0, b"0x0")];

#[test]
fn a_trace_id_is_hexadecimal(rt: HostRuntime) {
    for (id, text) in &TRACE_IDS {
        is_text(&rt, TraceId::new(*id).text(rt.alloc()), text);
    }
}

/// A directory, an argument, and the path that it leads to.
const PATHS: [(&[u8], &[u8], &[u8]); 5] = [
    (b"/uploads", b"a", b"/uploads/a"),
    (b"/uploads", b"../a", b"/uploads/../a"),
    (b"/", b"a", b"/a"),
    (b"/uploads", b"/a", b"/a"),
    (b"/uploads", b"", b"/uploads/"),
];

#[test]
fn an_argument_leads_from_a_directory(rt: HostRuntime) {
    for (cwd, arg, path) in &PATHS {
        is_text(&rt, joined(rt.alloc(), cwd, arg), path);
    }
}

const DURATIONS: [(u64, &[u8]); 4] = [
    (3_661_001, b"1h 1m 1s 1ms"),
    (0, b"0ms"),
    (60_000, b"1m 0s 0ms"),
    (1_000, b"1s 0ms"),
];

#[test]
fn leading_zero_parts_are_dropped(rt: HostRuntime) {
    for (millis, text) in &DURATIONS {
        is_text(&rt, HumanDuration(*millis).text(rt.alloc()), text);
    }
}

// RFC 3659, section 7: a fact is a name, an equals sign, a value and a semicolon.
const FACTS: [(Meta, &[u8]); 2] = [
    (
        Meta {
            is_dir: false,
            len: 5,
        },
        b"type=file;size=5;",
    ),
    (
        Meta {
            is_dir: true,
            len: 0,
        },
        b"type=dir;",
    ),
];

#[test]
fn a_file_tells_its_type_and_size_and_a_directory_its_type(rt: HostRuntime) {
    for (meta, facts) in &FACTS {
        is_text(&rt, format_facts(rt.alloc(), meta), facts);
    }
}

#[test]
fn a_port_that_is_not_given_is_told(rt: HostRuntime) {
    let text = format!(in rt.alloc(); "{PortAllocationError}").expect(&rt, "a text");
    same(&rt, &text.as_str(), &"Could not allocate port");
}
