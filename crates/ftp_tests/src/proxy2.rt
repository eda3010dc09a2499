//! Headers of version 2, and what a header of either version counts as.

ghost use Rattle.std.specs.Prelude.{◌≤◌};

use crate::same::same;
use crate::values::source;
use ftp_base::{IpAddr, SocketAddr, SocketAddrPair, Source};
use ftp_proxy::{
    Body, Field, Header2, Proxy2Error, ProxyError, ProxyHeader, ReadError, encode2, read_header2,
    read_proxy_any, to_answer,
};
use std::alloc::{AllocError, Global};
use std::process::Abort;

/// From 192.0.2.7:40000 to 198.51.100.1:2121, over a stream of version 4, without fields.
const HEADER: &[u8] =
    b"\r\n\r\n\0\r\nQUIT\n\x21\x11\0\x0c\xc0\0\x02\x07\xc6\x33\x64\x01\x9c\x40\x08\x49";

/// The same with a field of the kind 4, which is empty.
const WITH_FIELD: &[u8] =
    b"\r\n\r\n\0\r\nQUIT\n\x21\x11\0\x0f\xc0\0\x02\x07\xc6\x33\x64\x01\x9c\x40\x08\x49\x04\0\0";

/// The same with a field of the kind 5, which names the connection `id`.
const WITH_ID: &[u8] =
    b"\r\n\r\n\0\r\nQUIT\n\x21\x11\0\x11\xc0\0\x02\x07\xc6\x33\x64\x01\x9c\x40\x08\x49\x05\0\x02id";

const SOURCE: SocketAddr = SocketAddr {
    ip: IpAddr::V4(0xc000_0207),
    port: 40000,
};

const DESTINATION: SocketAddr = SocketAddr {
    ip: IpAddr::V4(0xc633_6401),
    port: 2121,
};

/// How many bytes a call of a source reads at most.
const PIECES: [u32; 3] = [1, 13, 65536];

/// The family of a header, and its addresses of version 4.
fn pair_of(header: &Header2) -> Option<(u8, SocketAddrPair)> {
    match &header.body {
        Body::Inet { pair, .. } => Some((header.family, *pair)),
        _ => None,
    }
}

/// The kind of each field of a header and the value behind it.
fn fields_of(alloc: Global, header: &Header2) -> Result<Vec<u8>, AllocError> {
    let mut found = Vec::new(alloc);
    if let Body::Inet { fields, .. } = &header.body {
        for field in fields.as_slice() {
            found.push(field.kind)?;
            found.extend_from_slice(field.value.as_slice())?;
        }
    }
    Ok(found)
}

/// Compares a header: its addresses and its fields, and the bytes as which it is written again.
fn compare(rt: &impl Abort, alloc: Global, header: &Header2, fields: &[u8], bytes: &[u8]) {
    let pair = SocketAddrPair {
        source: SOURCE,
        destination: DESTINATION,
    };
    same(rt, &pair_of(header), &Some((0x11, pair)));
    let found = fields_of(alloc, header).expect(rt, "fields");
    same(rt, &found.as_slice(), &fields);
    let written = encode2(alloc, header).expect(rt, "a header");
    same(rt, &written.as_slice(), &bytes);
}

const FIELDS: [(&[u8], &[u8]); 3] = [
    (HEADER, b""),
    (WITH_FIELD, &[4]),
    (WITH_ID, &[Field::UNIQUE_ID, b'i', b'd']),
];

#[test]
fn a_header_is_read_whatever_the_pieces_and_written_again(rt: HostRuntime) {
    for (bytes, fields) in &FIELDS {
        for chunk in PIECES {
            let mut source = source(rt.alloc(), bytes, chunk, &[]).expect(&rt, "a source");
            let header = read_header2(rt.alloc(), &mut source).expect(&rt, "a header");
            compare(&rt, rt.alloc(), &header, fields, bytes);
        }
    }
}

/// Why no header of version 2 is read.
const CAUSES: [(&[u8], Proxy2Error); 6] = [
    (
        b"\r\n\r\n\0\r\nQUIX\n",
        Proxy2Error::NotSignature { at: 10 },
    ),
    (
        b"\r\n\r\n\0\r\nQUIT\n\x11\x11\0\x0c",
        Proxy2Error::BadVersion(0x11),
    ),
    (
        b"\r\n\r\n\0\r\nQUIT\n\x21\x41\0\x0c",
        Proxy2Error::BadFamily(0x41),
    ),
    (
        b"\r\n\r\n\0\r\nQUIT\n\x21\x11\0\x0b",
        Proxy2Error::ShortBlock {
            length: 11,
            needed: 12,
        },
    ),
    // A field whose length is cut off by the end of the block.
    (
        b"\r\n\r\n\0\r\nQUIT\n\x21\x11\0\x0e\xc0\0\x02\x07\xc6\x33\x64\x01\x9c\x40\x08\x49\x04\0",
        Proxy2Error::BadField { at: 12 },
    ),
    (
        b"\r\n\r\n\0\r\nQUIT\n\x21\x11\0\x0c\xc0\0",
        Proxy2Error::UnexpectedEof,
    ),
];

#[test]
fn each_cause_is_told(rt: HostRuntime) {
    for (bytes, cause) in &CAUSES {
        for chunk in PIECES {
            let mut source = source(rt.alloc(), bytes, chunk, &[]).expect(&rt, "a source");
            same(&rt, &read_header2(rt.alloc(), &mut source), &Err(*cause));
        }
    }
}

/// What a header of either version counts as, read from a source of such pieces, some of whose calls fail.
fn compare_any(
    rt: &impl Abort,
    alloc: Global,
    bytes: &[u8],
    chunk: u32,
    fails: &[u64],
    due: Result<ProxyHeader, ProxyError>,
)
    requires { 1 ≤ chunk }
{
    let mut source = source(alloc, bytes, chunk, fails).expect(rt, "a source");
    let found = to_answer(read_proxy_any(alloc, &mut source));
    same(rt, &found, &Some(due));
}

const GOOD: ProxyHeader = ProxyHeader {
    source: SOURCE,
    destination: DESTINATION,
};

const ENDED: ProxyError = ProxyError::ReadError(ReadError::UnexpectedEof);

/// The first byte tells the version.
const ANSWERS: [(&[u8], Result<ProxyHeader, ProxyError>); 13] = [
    (
        b"PROXY TCP4 192.0.2.7 198.51.100.1 40000 2121\r\nUSER",
        Ok(GOOD),
    ),
    (HEADER, Ok(GOOD)),
    (WITH_FIELD, Ok(GOOD)),
    (b"\r\n\r\nQUIT", Err(ProxyError::DecodeError)),
    (b"\r\n\r\n\0\r\nQUIT\n\x21\x11\0\x0c", Err(ENDED)),
    (b"PROXY", Err(ENDED)),
    (b"\n", Err(ProxyError::HeaderSize)),
    (b"", Err(ENDED)),
    // What a balancer sends to see whether a server is there, without addresses and with some, names no client.
    (
        b"\r\n\r\n\0\r\nQUIT\n\x20\0\0\0",
        Err(ProxyError::UnsupportedVersion),
    ),
    (
        b"\r\n\r\n\0\r\nQUIT\n\x20\x11\0\x0c\xc0\0\x02\x07\xc6\x33\x64\x01\x9c\x40\x08\x49",
        Err(ProxyError::UnsupportedVersion),
    ),
    (
        b"\r\n\r\n\0\r\nQUIT\n\x21\0\0\0",
        Err(ProxyError::UnsupportedVersion),
    ),
    // Datagrams.
    (
        b"\r\n\r\n\0\r\nQUIT\n\x21\x12\0\x0c\xc0\0\x02\x07\xc6\x33\x64\x01\x9c\x40\x08\x49",
        Err(ProxyError::UnsupportedVersion),
    ),
    // A client of IP version 6.
    (
        b"\r\n\r\n\0\r\nQUIT\n\x21\x21\0\x24\0\0\0\0\0\0\0\0\0\0\0\0\0\0\0\0\0\0\0\0\0\0\0\0\0\0\0\0\0\0\0\0\0\0\0\0",
        Err(ProxyError::IPv4Required),
    ),
];

#[test]
fn a_header_of_either_version_counts_as_one_of_version_1(rt: HostRuntime) {
    for (bytes, due) in &ANSWERS {
        for chunk in PIECES {
            compare_any(&rt, rt.alloc(), bytes, chunk, &[], *due);
        }
    }
}

#[test]
fn a_failing_call_is_a_fault(rt: HostRuntime) {
    let fault = Err(ProxyError::ReadError(ReadError::Fault));
    for fails in [1, 5, 17] {
        compare_any(&rt, rt.alloc(), HEADER, 3, &[fails], fault);
    }
}

#[test]
fn a_header_leaves_what_stands_behind_it(rt: HostRuntime) {
    let bytes =
        b"\r\n\r\n\0\r\nQUIT\n\x21\x11\0\x0f\xc0\0\x02\x07\xc6\x33\x64\x01\x9c\x40\x08\x49\x04\0\0U";
    for chunk in PIECES {
        let mut source = source(rt.alloc(), bytes, chunk, &[]).expect(&rt, "a source");
        let is_read = read_proxy_any(rt.alloc(), &mut source).is_ok();
        let mut rest = [0; 2];
        let left = source.read(&mut rest);
        same(&rt, &(is_read, left, &rest), &(true, Ok(1), b"U\0"));
    }
}
