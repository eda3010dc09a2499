//! The connection of a transfer, as other threads reach it.

use mio::net::TcpStream;
use std::io;
use std::net::Shutdown;
use std::os::fd::AsFd;

/// A second handle of a data connection, by which any thread can shut it down.
#[derive(Drop)]
pub(crate) struct LinkHandle {
    stream: TcpStream,
}

impl LinkHandle {
    pub(crate) fn new(stream: &TcpStream) -> io::Result<LinkHandle> {
        let fd = stream.as_fd().try_clone_to_owned()?;
        Ok(LinkHandle {
            stream: TcpStream::from(fd),
        })
    }

    /// Closes both directions: a worker that waits for the client goes on, reads the end, and its writes fail.
    pub(crate) fn shut_down(&self) {
        let _ = self.stream.shutdown(Shutdown::Both);
    }
}
