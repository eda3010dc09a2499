//! The stream of a control connection: waits for it, reads of its text, and its end.

ghost use Rattle.std.specs.Io.{ReadsAtMost, WritesAtMost};

use crate::telnet::Telnet;
use crate::waiting::wait_slice;
use mio::net::TcpStream;
use mio::unix::SourceFd;
use mio::{Events, Interest, Poll, Token};
use std::io;
use std::io::{ErrorKind, Read, Write};
use std::os::fd::AsRawFd;
use std::time::Duration;

pub(crate) const STREAM: Token = Token(0);

pub(crate) const WAKER: Token = Token(1);

/// How long a close waits for what still comes, in waits of so many milliseconds, and how many pieces it takes at most.
const LINGER: u64 = 250;

const LINGERS: u32 = 8;

const PIECES: u32 = 128;

/// How many bytes are looked at, and how often, before a stream is said to have text.
const FRONT: usize = 64;

const LOOKS: u32 = 64;

/// What waits have told of a stream.
#[derive(Clone, Copy)]
pub(crate) struct Seen {
    // There is something to read, or the end.
    pub(crate) readable: bool,
    // The last read filled its piece or may have ended at urgent data, so there may be more.
    pub(crate) unsure: bool,
    // Urgent data came once.
    pub(crate) urgent: bool,
    // Urgent data has not been read past since the last read.
    pub(crate) priority: bool,
    // The last byte that was read is CR.
    pub(crate) behind_cr: bool,
    // The peer sends no more.
    pub(crate) ended: bool,
    // The waker ended a wait, and `ready` has not said so yet.
    pub(crate) woken: bool,
}

impl Seen {
    // No wait has told anything.
    pub(crate) const NOTHING: Seen = Seen {
        readable: false,
        unsure: false,
        urgent: false,
        priority: false,
        behind_cr: false,
        ended: false,
        woken: false,
    };

    // Takes note of what was read.
    fn take(&mut self, bytes: &[u8]) {
        self.behind_cr = bytes.last() == Some(&b'\r');
        self.priority = false;
        self.readable = self.ended;
    }

    // Says whether the LF of a line stands next, where there is nothing to read: no read gives urgent data, and Python's ftplib
    // sends its ABOR as such.
    fn hides_lf(&self) -> bool {
        self.behind_cr && self.priority
    }
}

/// The `Poll` of a stream, and what its waits have told.
#[derive(Drop)]
pub(crate) struct Watch {
    pub(crate) poll: Poll,
    pub(crate) events: Events,
    pub(crate) seen: Seen,
}

// Takes note of the last wait, and says whether the stream may be written.
fn note(events: &Events, seen: &mut Seen) -> bool {
    let mut writable = false;
    for event in events.iter() {
        if event.token() == STREAM {
            let ended = event.is_read_closed() || event.is_error();
            seen.ended = seen.ended || ended;
            seen.priority = event.is_priority();
            seen.urgent = seen.urgent || seen.priority;
            seen.readable = seen.readable || event.is_readable() || ended;
            writable = writable || event.is_writable() || event.is_error();
        } else {
            seen.woken = true;
        }
    }
    writable
}

// What is waited for where the stream is to be read. Urgent data is told of once, and behind CR: where it came last, it would
// be told of again and again.
fn reading(seen: &Seen) -> Interest {
    if seen.urgent && !seen.behind_cr {
        Interest::READABLE
    } else {
        Interest::READABLE | Interest::PRIORITY
    }
}

impl Watch {
    // From now on waits for the stream in this direction. What it can do already is told again.
    fn turn(&self, stream: &TcpStream, interest: Interest) -> io::Result<()> {
        let descriptor = stream.as_raw_fd();
        self.poll
            .registry()
            .reregister(&mut SourceFd(&descriptor), STREAM, interest)
    }

    // Waits until the stream may be read, or where that is asked for be written, so many milliseconds at most.
    fn wait(&mut self, to_write: bool, limit: u64) -> io::Result<()> {
        let mut left = limit;
        for _ in 0..u64::MAX {
            left = wait_slice(&mut self.poll, &mut self.events, left)?;
            let writable = note(&self.events, &mut self.seen);
            if (to_write && writable) || (!to_write && self.seen.readable) {
                return Ok(());
            }
        }
        Err(io::Error::from(ErrorKind::TimedOut))
    }

    // Waits for bytes, the end, a wake or the time, and says whether there is something to read.
    pub(crate) fn wait_ready(&mut self, stream: &TcpStream, millis: u64) -> io::Result<bool> {
        if self.seen.readable {
            return Ok(true);
        }
        if self.seen.unsure {
            self.turn(stream, reading(&self.seen))?;
            self.seen.unsure = false;
        }
        let millis = if self.seen.woken { 0 } else { millis };
        self.poll
            .poll(&mut self.events, Some(Duration::from_millis(millis)))?;
        note(&self.events, &mut self.seen);
        // Where there is something to read, the wake is left for a later call to tell.
        self.seen.woken = self.seen.woken && self.seen.readable;
        Ok(self.seen.readable)
    }

    // Reads, and waits where there is nothing yet.
    fn read_patiently(
        &mut self,
        stream: &TcpStream,
        limit: u64,
        out: &mut [u8],
    ) -> io::Result<usize>
        ensures within { ReadsAtMost result out.new }
    {
        if out.is_empty() {
            return Ok(0);
        }
        let mut reader = stream;
        for _ in 0..u64::MAX {
            match reader.read(out) {
                Ok(n) => {
                    self.seen.ended = self.seen.ended || n == 0;
                    self.seen.unsure = n == out.len() || self.seen.urgent;
                    self.seen.take(&out[..n]);
                    return Ok(n);
                }
                Err(e) if e.kind() == ErrorKind::Interrupted => {}
                Err(e) if e.kind() == ErrorKind::WouldBlock && self.seen.hides_lf() => {
                    out[0] = b'\n';
                    self.seen.take(&out[..1]);
                    return Ok(1);
                }
                Err(e) if e.kind() == ErrorKind::WouldBlock => {
                    self.seen.readable = false;
                    self.wait(false, limit)?
                }
                Err(e) => return Err(e),
            }
        }
        Err(io::Error::from(ErrorKind::Other))
    }

    // Reads until there is text or the end, and keeps the text alone.
    pub(crate) fn read_text(
        &mut self,
        stream: &TcpStream,
        telnet: &mut Telnet,
        limit: u64,
        out: &mut [u8],
    ) -> io::Result<usize>
        ensures within { ReadsAtMost result out.new }
    {
        for _ in 0..u64::MAX {
            let n = self.read_patiently(stream, limit, out)?;
            let kept = telnet.strip(&mut out[..n]);
            if n == 0 || kept > 0 {
                return Ok(kept);
            }
        }
        Err(io::Error::from(ErrorKind::Other))
    }

    // Writes some bytes, and waits where there is no room yet.
    pub(crate) fn write_patiently(
        &mut self,
        stream: &TcpStream,
        limit: u64,
        bytes: &[u8],
    ) -> io::Result<usize>
        ensures within { WritesAtMost result bytes.now }
    {
        let mut writer = stream;
        for _ in 0..u64::MAX {
            match writer.write(bytes) {
                Ok(n) => return Ok(n),
                Err(e) if e.kind() == ErrorKind::Interrupted => {}
                Err(e) if e.kind() == ErrorKind::WouldBlock => {
                    self.turn(stream, Interest::WRITABLE)?;
                    let waited = self.wait(true, limit);
                    self.turn(stream, reading(&self.seen))?;
                    waited?
                }
                Err(e) => return Err(e),
            }
        }
        Err(io::Error::from(ErrorKind::Other))
    }

    // Reads what still comes once nothing more is sent, up to the end or for a while: a socket that is closed before takes from
    // its peer what that has not read yet.
    pub(crate) fn linger(&mut self, stream: &TcpStream) {
        let mut piece = [0u8; 512];
        let mut reader = stream;
        let mut waits = 0;
        for _ in 0..PIECES {
            match reader.read(&mut piece) {
                Ok(0) => return,
                Ok(_) => {}
                Err(e) if e.kind() == ErrorKind::WouldBlock && waits < LINGERS => {
                    waits += 1;
                    self.seen.readable = false;
                    // A wait that was too long counts as any other.
                    let _ = self.wait(false, LINGER);
                }
                Err(_) => return,
            }
        }
    }
}

// Takes Telnet commands off the front of a stream that may be read, and says whether text or the end stands there. Where
// commands come without end, it says so later.
pub(crate) fn is_text_next(
    stream: &TcpStream,
    seen: &mut Seen,
    telnet: &mut Telnet,
) -> io::Result<bool> {
    let mut front = [0u8; FRONT];
    let mut reader = stream;
    for _ in 0..LOOKS {
        let n = match stream.peek(&mut front) {
            Ok(n) => n,
            Err(e) if e.kind() == ErrorKind::Interrupted => continue,
            Err(e) if e.kind() == ErrorKind::WouldBlock => {
                seen.readable = seen.hides_lf();
                return Ok(seen.readable);
            }
            // It is told once, so no read would meet it.
            Err(e) => return Err(e),
        };
        if n == 0 || telnet.has_text(&front[..n]) {
            return Ok(true);
        }
        match reader.read(&mut front[..n]) {
            Ok(taken) => {
                telnet.strip(&mut front[..taken]);
            }
            Err(e) if e.kind() == ErrorKind::Interrupted || e.kind() == ErrorKind::WouldBlock => {}
            Err(e) => return Err(e),
        }
    }
    Ok(false)
}
