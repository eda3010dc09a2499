//! Headers of proxies, from sources that give them in pieces and fail.

use crate::same::{same, shows};
use crate::values::source;
use ftp_base::{IpAddr, SocketAddr, Source};
use ftp_proxy::{ProxyError, ProxyHeader, ReadError, read_proxy_header};
use std::alloc::Global;
use std::process::Abort;

/// 255.255.255.255:65535.
const HIGHEST: SocketAddr = SocketAddr {
    ip: IpAddr::V4(0xffff_ffff),
    port: 65535,
};

const LONGEST: ProxyHeader = ProxyHeader {
    source: HIGHEST,
    destination: HIGHEST,
};

const SHORT: ProxyHeader = ProxyHeader {
    source: SocketAddr {
        ip: IpAddr::V4(0x0102_0304),
        port: 9,
    },
    destination: SocketAddr {
        ip: IpAddr::V4(0x0506_0708),
        port: 10,
    },
};

const ENDED: ProxyError = ProxyError::ReadError(ReadError::UnexpectedEof);

const ROWS: [(&[u8], Result<ProxyHeader, ProxyError>); 12] = [
    (
        b"PROXY TCP4 255.255.255.255 255.255.255.255 65535 65535\r\n",
        Ok(LONGEST),
    ),
    (b"PROXY TCP4 1.2.3.4 5.6.7.8 9 10\r\nUSER", Ok(SHORT)),
    (
        b"PROXY TCP4 255.255.255.255 255.255.255.255 65535 65535\n",
        Err(ProxyError::CrlfError),
    ),
    (b"PROXY TCP4\r\n", Err(ProxyError::HeaderSize)),
    (b"PROXY UNKNOWN\r\n", Err(ProxyError::UnsupportedVersion)),
    // The line feed is to be among the first 108 bytes.
    (&[b'A'; 108], Err(ProxyError::NotProxyHdr)),
    (
        b"AAAAAAAAAAAAAAAAAAAAAAAAAAAAAAAAAAAAAAAAAAAAAAAAAAAAAAAAAAAA\
          AAAAAAAAAAAAAAAAAAAAAAAAAAAAAAAAAAAAAAAAAAAAAAA\n",
        Err(ProxyError::CrlfError),
    ),
    (
        b"AAAAAAAAAAAAAAAAAAAAAAAAAAAAAAAAAAAAAAAAAAAAAAAAAAAAAAAAAAAA\
          AAAAAAAAAAAAAAAAAAAAAAAAAAAAAAAAAAAAAAAAAAAAAAAA\n",
        Err(ProxyError::NotProxyHdr),
    ),
    (b"PROXY TCP4 127.0.0.1", Err(ENDED)),
    (b"", Err(ENDED)),
    (
        b"PROXY TCP4 01.0.0.1 1.1.1.1 1 1\r\n",
        Err(ProxyError::DecodeError),
    ),
    (b"PROXY TCP6 ::1 ::2 1 2\r\n", Err(ProxyError::IPv4Required)),
];

/// Compares what is read, whatever the pieces.
fn compare(rt: &impl Abort, alloc: Global, bytes: &[u8], due: &Result<ProxyHeader, ProxyError>) {
    for chunk in [1, 55, 65536] {
        let mut source = source(alloc, bytes, chunk, &[]).expect(rt, "a source");
        same(rt, &read_proxy_header(&mut source), due);
    }
}

#[test]
fn a_header_is_read_whatever_the_pieces(rt: HostRuntime) {
    for (bytes, due) in &ROWS {
        compare(&rt, rt.alloc(), bytes, due);
    }
}

#[test]
fn a_header_leaves_what_stands_behind_it(rt: HostRuntime) {
    let source = source(rt.alloc(), b"PROXY UNKNOWN\r\nUSER", 65536, &[]);
    let mut source = source.expect(&rt, "a source");
    let read = read_proxy_header(&mut source);
    same(&rt, &read, &Err(ProxyError::UnsupportedVersion));
    let mut rest = [0; 5];
    same(&rt, &source.read(&mut rest), &Ok(4));
    same(&rt, &rest, b"USER\0");
}

#[test]
fn a_failing_call_is_a_fault(rt: HostRuntime) {
    let source = source(rt.alloc(), b"PROXY UNKNOWN\r\n", 3, &[5]);
    let read = read_proxy_header(&mut source.expect(&rt, "a source"));
    same(&rt, &read, &Err(ProxyError::ReadError(ReadError::Fault)));
}

const ERRORS: [(ProxyError, &str); 7] = [
    (ProxyError::HeaderSize, "header size is incorrect"),
    (ProxyError::CrlfError, "header doesn't end with CRLF"),
    (
        ProxyError::NotProxyHdr,
        "header does not match the supported proxy protocol v1",
    ),
    (ProxyError::DecodeError, "proxy protocol parse error"),
    (ProxyError::IPv4Required, "only IPv4 is supported"),
    (
        ProxyError::UnsupportedVersion,
        "unsupported proxy protocol version",
    ),
    (
        ProxyError::ReadError(ReadError::Fault),
        "error reading from stream",
    ),
];

#[test]
fn the_errors_of_a_header_are_told(rt: HostRuntime) {
    for (e, text) in &ERRORS {
        shows(&rt, rt.alloc(), e, text);
    }
}
