//! The socket by which a running gateway is asked for something, and its turns.

ghost use Rattle.std.specs.Prelude.{◌≡◌};

use crate::duties::Duties;
use crate::request::Request;
use ftp_options::{Indicator, Shutdown};
use std::alloc::{AllocError, Global};
use std::fs::File;
use std::io::{Read, Write};
use std::net::Net;
use std::os::unix::fs::FileTypeExt;
use std::os::unix::net::{UnixListener, UnixStream};
use std::rt::Files;
use std::sync::{Arc, Mutex, Wait};
use std::time::Clock;
use std::{io, mem};

/// How many callers there may be at a time.
const CALLERS: usize = 16;

/// How long a caller may say nothing, in milliseconds.
const PATIENCE: u64 = 5000;

/// How often the counts are written, in milliseconds.
const COUNTS_EVERY: u64 = 10_000;

/// One who has called, and when.
#[derive(Drop)]
struct Caller {
    stream: UnixStream,
    since: u64,
}

/// Those who have asked for a stop. The end of their connections, which is that of the gateway, answers them.
pub type Waiting = Arc<Mutex<Vec<UnixStream>>, Global>;

/// What came of a caller.
#[derive(Drop)]
enum Heard {
    /// Nothing was said yet.
    Waits(Caller),
    /// A stop was asked for.
    Stop(UnixStream),
    /// It was answered, or is gone.
    Over,
}

/// Does what callers at a Unix socket ask for, and asks for a shutdown once one of them does.
#[derive(Drop)]
pub struct ControlSocket<R: Wait + Copy + Drop> {
    listener: Option<UnixListener>,
    duties: Duties<R>,
    callers: Vec<Caller>,
    waiting: Waiting,
    grace_ms: u64,
    // When the first turn was.
    started: Option<u64>,
    asked: Option<(u64, u64)>,
    // When the counts are written next.
    counts_at: u64,
}

// What a caller says, where it has said something.
fn said(stream: &mut UnixStream) -> io::Result<Option<Request>> {
    let mut line = [0; 16];
    let n = stream.read(&mut line)?;
    Ok(Request::of(&line[..n]))
}

// Whether a socket stands at a path at which nobody listens.
fn is_left_behind<R: Files + Net>(rt: &R, path: &str) -> bool {
    match rt.symlink_metadata(path) {
        Ok(found) => found.file_type().is_socket() && UnixStream::connect(rt, path).is_err(),
        Err(_) => false,
    }
}

// A listener at a path, where nothing may stand but a socket that was left behind.
fn listener_at<R: Files + Net>(rt: &R, path: &str) -> io::Result<UnixListener> {
    if is_left_behind(rt, path) {
        rt.remove_file(path)?;
    }
    let listener = UnixListener::bind(rt, path)?;
    listener.set_nonblocking(true)?;
    Ok(listener)
}

impl<R: Wait + Files<File = File> + Clock + AllocGlobal + Copy + Drop> ControlSocket<R> {
    /// Listens at a path, or nowhere, where a shutdown is never asked for.
    pub fn bind<N: Files + Net>(
        net: &N,
        path: Option<&str>,
        grace_ms: u64,
        duties: Duties<R>,
        waiting: Waiting,
    ) -> io::Result<ControlSocket<R>> {
        let listener = match path {
            Some(path) => Some(listener_at(net, path)?),
            None => None,
        };
        let callers = Vec::new(duties.alloc);
        Ok(ControlSocket {
            listener,
            duties,
            callers,
            waiting,
            grace_ms,
            started: None,
            asked: None,
            counts_at: 0,
        })
    }

    // Has the counts written from time to time.
    fn count(&mut self, at: u64)
        ensures asked { self.new.asked ≡ self.old.asked }
        ensures grace { self.new.grace_ms ≡ self.old.grace_ms }
    {
        if at >= self.counts_at {
            self.duties.count();
            self.counts_at = at.saturating_add(COUNTS_EVERY);
        }
    }

    // Takes in who calls, unless there are too many.
    fn accept(&mut self, at: u64)
        ensures asked { self.new.asked ≡ self.old.asked }
        ensures grace { self.new.grace_ms ≡ self.old.grace_ms }
    {
        let Some(listener) = &self.listener else {
            return;
        };
        for _ in self.callers.len()..CALLERS {
            let Ok((stream, _)) = listener.accept() else {
                return;
            };
            if stream.set_nonblocking(true).is_ok() {
                let _ = self.callers.push(Caller { stream, since: at });
            }
        }
    }

    // The answer to a request that is no stop, or to a line that is none.
    fn answer(&self, request: Option<Request>, at: u64) -> Result<String, AllocError> {
        match request {
            Some(Request::Reload) => self.duties.reload(),
            Some(Request::Status) => {
                let started = self.started.unwrap_or(at);
                self.duties.status(at.saturating_sub(started))
            }
            Some(Request::Stop) | None => self.duties.refused("there is no such request"),
        }
    }

    // Hears a caller, and answers it.
    fn hear(&self, caller: Caller, at: u64) -> Heard {
        let mut caller = caller;
        let request = match said(&mut caller.stream) {
            Ok(request) => request,
            Err(error) if error.kind() == io::ErrorKind::WouldBlock => {
                return if at.saturating_sub(caller.since) < PATIENCE {
                    Heard::Waits(caller)
                } else {
                    Heard::Over
                };
            }
            Err(_) => return Heard::Over,
        };
        if let Some(Request::Stop) = request {
            return Heard::Stop(caller.stream);
        }
        if let Ok(answer) = self.answer(request, at) {
            let _ = caller.stream.write_all(answer.as_bytes());
        }
        Heard::Over
    }

    // Has a caller wait for the end.
    fn keep(&self, stream: UnixStream) {
        let _ = self.waiting.lock(&self.duties.rt).push(stream);
    }

    // Hears all callers, and says whether one of them asks for a stop.
    fn hear_all(&mut self, at: u64) -> bool
        ensures asked { self.new.asked ≡ self.old.asked }
        ensures grace { self.new.grace_ms ≡ self.old.grace_ms }
    {
        let waiting = Vec::new(self.duties.alloc);
        let callers = mem::replace(&mut self.callers, waiting);
        let mut is_asked = false;
        for caller in callers {
            match self.hear(caller, at) {
                Heard::Waits(caller) => {
                    let _ = self.callers.push(caller);
                }
                Heard::Stop(stream) => {
                    is_asked = true;
                    self.keep(stream);
                }
                Heard::Over => {}
            }
        }
        is_asked
    }
}

impl<R: Wait + Files<File = File> + Clock + AllocGlobal + Copy + Drop> Indicator
    for ControlSocket<R> {
    ghost asked = { λ s. s.asked };

    fn poll(&mut self, at: u64) -> Option<Shutdown> {
        self.count(at);
        if self.asked.is_none() {
            if self.started.is_none() {
                self.started = Some(at);
            }
            self.accept(at);
            if !self.hear_all(at) {
                return None;
            }
            self.asked = Some((at, self.grace_ms));
        }
        let (_, grace_ms) = self.asked?;
        Some(Shutdown::new().grace_period(grace_ms))
    }
}
