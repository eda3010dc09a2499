//! Connections over the loopback address, and the time that calls take.

use ftp_base::{IpAddr, SocketAddr};
use ftp_system::told_address;
use std::io;
use std::io::{Read, Write};
use std::net::{Net, TcpListener, TcpStream};
use std::process::Abort;
use std::time::{Clock, Duration};

/// How long a client waits for bytes, in seconds.
const PATIENCE: u64 = 10;

/// The loopback address, 127.0.0.1, and a port.
pub fn loopback(port: u16) -> SocketAddr {
    SocketAddr {
        ip: IpAddr::V4(0x7f00_0001),
        port,
    }
}

/// Where a listener listens.
pub fn address(rt: &impl Abort, listener: &TcpListener) -> SocketAddr {
    told_address(listener.local_addr().expect(rt, "an address"))
}

/// From where the next connection comes, which is closed then.
pub fn caller(rt: &impl Abort, listener: &mio::net::TcpListener) -> SocketAddr {
    let (_, from) = listener.accept().expect(rt, "a connection");
    told_address(from)
}

/// Both ends of a connection: the client's, which waits for bytes a while, and the server's.
pub fn pair<R: Net<Listener = TcpListener, Stream = TcpStream> + Abort>(
    rt: &R,
) -> (TcpStream, TcpStream) {
    connected(rt).expect(rt, "a connection")
}

fn connected<N: Net<Listener = TcpListener, Stream = TcpStream>>(
    net: &N,
) -> io::Result<(TcpStream, TcpStream)> {
    let listener = TcpListener::bind(net, "127.0.0.1:0")?;
    let client = TcpStream::connect(net, listener.local_addr()?)?;
    client.set_read_timeout(Some(Duration::from_secs(PATIENCE)))?;
    let (server, _) = listener.accept()?;
    Ok((client, server))
}

/// Sends all of the bytes.
pub fn send(rt: &impl Abort, mut stream: &TcpStream, bytes: &[u8]) {
    stream.write_all(bytes).expect(rt, "sent bytes");
}

/// Receives as many bytes as there is room for.
pub fn receive(rt: &impl Abort, mut stream: &TcpStream, out: &mut [u8]) {
    stream.read_exact(out).expect(rt, "received bytes");
}

/// Says whether the peer has closed the connection, with no byte before.
pub fn is_at_end(rt: &impl Abort, mut stream: &TcpStream) -> bool {
    stream.read(&mut [0; 1]).expect(rt, "an end") == 0
}

/// The moment in milliseconds.
pub fn now<R: Clock + Abort>(rt: &R) -> u128 {
    rt.monotonic().expect(rt, "a moment").as_millis()
}

/// How many milliseconds have gone by since a moment.
pub fn since<R: Clock + Abort>(rt: &R, begun: u128) -> u128 {
    now(rt).saturating_sub(begun)
}
