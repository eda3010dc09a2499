//! Readers and writers as sources and sinks.

use crate::same::same;
use ftp_base::{Failed, Sink, Source};
use ftp_text::{Input, Output};
use std::io;
use std::io::{Read, Write};

/// Gives nothing and takes nothing.
#[derive(Drop)]
struct Broken;

impl Read for Broken {
    fn read(&mut self, _buf: &mut [u8]) -> io::Result<usize> {
        Err(io::Error::from(io::ErrorKind::BrokenPipe))
    }
}

impl Write for Broken {
    fn write(&mut self, _buf: &[u8]) -> io::Result<usize> {
        Err(io::Error::from(io::ErrorKind::BrokenPipe))
    }

    fn flush(&mut self) -> io::Result<()> {
        Ok(())
    }
}

#[test]
fn an_input_gives_bytes_or_fails(rt: HostRuntime) {
    let mut out = [0; 4];
    let mut good = Input::new(b"ab".as_slice());
    same(&rt, &(good.read(&mut out), &out), &(Ok(2), b"ab\0\0"));
    same(&rt, &good.read(&mut out), &Ok(0));
    same(&rt, &Input::new(Broken).read(&mut out), &Err(Failed::Fault));
}

#[test]
fn an_output_takes_bytes_or_fails(rt: HostRuntime) {
    let mut taken = Vec::new(rt.alloc());
    let wrote = Output::new(&mut taken).write(b"ab");
    same(&rt, &wrote, &Ok(2));
    same(&rt, &taken.as_slice(), &b"ab".as_slice());
    same(&rt, &Output::new(Broken).write(b"ab"), &Err(Failed::Fault));
}
