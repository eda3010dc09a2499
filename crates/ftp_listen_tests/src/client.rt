//! A client that waits for each reply.

use std::alloc::{AllocError, Global};
use std::io::{ErrorKind, Read, Write};
use std::net::{Net, SocketAddr, TcpStream};
use std::time::{Clock, Duration};
use std::{io, thread};

pub const GREETING: &str = "220 Welcome to the libunftp FTP server\r\n";

/// How long it waits for a line, in milliseconds.
const PATIENCE: u64 = 20_000;

/// How often it calls at a door that is not open yet, and how long it waits in between, in milliseconds.
const CALLS: u32 = 1000;

const PAUSE: u64 = 10;

/// Why a client gave up.
#[derive(Debug, Drop)]
pub enum Met {
    Fault(ErrorKind),
    /// This came, in place of what was due.
    Other(Vec<u8>),
    /// A count was another than was due.
    OtherCount,
    /// A reply came before its time.
    TooEarly,
    /// No client is there, or no data connection of it.
    Nobody,
    OutOfMemory,
}

impl From<io::Error> for Met {
    fn from(error: io::Error) -> Met {
        Met::Fault(error.kind())
    }
}

impl From<AllocError> for Met {
    fn from(_error: AllocError) -> Met {
        Met::OutOfMemory
    }
}

/// One end of a control connection, and of a data connection where there is one.
#[derive(Drop)]
pub struct Client {
    alloc: Global,
    stream: TcpStream,
    data: Option<TcpStream>,
}

/// A connection to a door that may not be open yet.
fn connected<R: Net<Stream = TcpStream> + Clock>(rt: &R, to: SocketAddr) -> io::Result<TcpStream> {
    for _ in 0..CALLS {
        if let Ok(stream) = TcpStream::connect(rt, to) {
            stream.set_read_timeout(Some(Duration::from_millis(PATIENCE)))?;
            return Ok(stream);
        }
        thread::sleep(rt, Duration::from_millis(PAUSE));
    }
    Err(io::Error::from(ErrorKind::ConnectionRefused))
}

/// The same, on which this is sent ahead.
fn connected_behind<R: Net<Stream = TcpStream> + Clock>(
    rt: &R,
    to: SocketAddr,
    header: &[u8],
) -> io::Result<TcpStream> {
    let mut stream = connected(rt, to)?;
    stream.write_all(header)?;
    Ok(stream)
}

impl Client {
    /// Connects, sends what stands before the first line, and is told this line first.
    pub fn told<R: Net<Stream = TcpStream> + Clock>(
        rt: &R,
        alloc: Global,
        door: SocketAddr,
        header: &[u8],
        line: &str,
    ) -> Result<Client, Met> {
        let mut client = Client {
            alloc,
            stream: connected_behind(rt, door, header)?,
            data: None,
        };
        client.hear(line)?;
        Ok(client)
    }

    /// Connects, sends what stands before the first line, is greeted, and logs in.
    pub fn entered<R: Net<Stream = TcpStream> + Clock>(
        rt: &R,
        alloc: Global,
        door: SocketAddr,
        header: &[u8],
    ) -> Result<Client, Met> {
        let mut client = Client::told(rt, alloc, door, header, GREETING)?;
        client.log_in()?;
        Ok(client)
    }

    /// Waits for a line, with its end, or for the end, where nothing is due; it has to be this one.
    pub fn hear(&mut self, line: &str) -> Result<(), Met> {
        let mut heard = Vec::new(self.alloc);
        let mut byte = [0u8; 1];
        for _ in 0..u64::MAX {
            if self.stream.read(&mut byte)? == 0 {
                break;
            }
            if heard.push(byte[0]).is_err() {
                return Err(Met::OutOfMemory);
            }
            if byte[0] == b'\n' {
                break;
            }
        }
        if heard.as_slice() == line.as_bytes() {
            Ok(())
        } else {
            Err(Met::Other(heard))
        }
    }

    /// Sends a line, and waits for its reply, both with their ends.
    pub fn ask(&mut self, line: &str, reply: &str) -> Result<(), Met> {
        self.stream.write_all(line.as_bytes())?;
        self.hear(reply)
    }

    /// The same, where the reply may not come before so many milliseconds have gone by.
    pub fn ask_slow<C: Clock>(
        &mut self,
        clock: &C,
        line: &str,
        reply: &str,
        least: u128,
    ) -> Result<(), Met> {
        let begun = clock.monotonic()?.as_millis();
        self.ask(line, reply)?;
        if clock.monotonic()?.as_millis().saturating_sub(begun) < least {
            return Err(Met::TooEarly);
        }
        Ok(())
    }

    /// Sends a line, and leaves the reply where it has come.
    pub fn ask_in_vain(&mut self, line: &str) -> Result<(), Met> {
        self.stream.write_all(line.as_bytes())?;
        self.stream.peek(&mut [0; 1])?;
        Ok(())
    }

    /// Logs in.
    pub fn log_in(&mut self) -> Result<(), Met> {
        self.ask("USER ann\r\n", "331 Password Required\r\n")?;
        self.ask("PASS x\r\n", "230 User logged in, proceed\r\n")
    }

    /// Makes a data connection, on which this is sent ahead.
    pub fn connect<R: Net<Stream = TcpStream> + Clock>(
        &mut self,
        rt: &R,
        to: SocketAddr,
        header: &[u8],
    ) -> Result<(), Met> {
        self.data = Some(connected_behind(rt, to, header)?);
        Ok(())
    }

    /// Sends these bytes on the data connection, and closes it.
    pub fn send(&mut self, bytes: &[u8]) -> Result<(), Met> {
        let mut data = self.take_data()?;
        data.write_all(bytes)?;
        Ok(())
    }

    /// Reads the data connection to its end, which has to give these bytes.
    pub fn fetch(&mut self, file: &[u8]) -> Result<(), Met> {
        let mut data = self.take_data()?;
        let mut fetched = Vec::new(self.alloc);
        data.read_to_end(&mut fetched)?;
        if fetched.as_slice() == file {
            Ok(())
        } else {
            Err(Met::Other(fetched))
        }
    }

    fn take_data(&mut self) -> Result<TcpStream, Met> {
        self.data.take().ok_or(Met::Nobody)
    }
}
