//! How a running gateway is asked for something.

use crate::duties::{DONE, REFUSED};
use crate::request::Request;
use std::io;
use std::io::{Read, Write};
use std::net::Net;
use std::os::unix::net::UnixStream;

// What a gateway at a socket answers, up to the end of the connection: a stop is answered by that alone.
fn answer<R: Net + AllocGlobal>(rt: &R, path: &str, request: Request) -> io::Result<Vec<u8>> {
    let mut gateway = UnixStream::connect(rt, path)?;
    gateway.write_all(request.text())?;
    let mut answer = Vec::new(rt.alloc());
    gateway.read_to_end(&mut answer)?;
    Ok(answer)
}

/// Asks the gateway at a socket for something, writes what it answers, and says whether it was done. A stop is done once the
/// gateway has ended.
pub fn ask<R: Net + Print + AllocGlobal>(rt: &R, path: &str, request: Request) -> io::Result<bool> {
    let answer = answer(rt, path, request)?;
    let Ok(text) = std::str::from_utf8(answer.as_slice()) else {
        return Ok(false);
    };
    if request == Request::Stop && text.is_empty() {
        return Ok(true);
    }
    match text.strip_prefix(DONE) {
        Some(rest) => {
            print!(rt; "{rest}")?;
            Ok(true)
        }
        None => {
            let why = text.strip_prefix(REFUSED).unwrap_or(text);
            print!(rt; "{why}")?;
            Ok(false)
        }
    }
}
