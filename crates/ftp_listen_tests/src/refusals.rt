//! Where a server does not listen, and a connection that has ended.

use crate::client::Met;
use crate::doubles::new_board;
use crate::place::Place;
use crate::setting::{Door, Setting, Stopped};
use ftp_options::{ListenerMode, ServerError};
use ftp_system::ServerRuntime;
use std::alloc::Global;
use std::io;
use std::io::Read;
use std::net::{Net, Shutdown, TcpListener, TcpStream};
use std::test::Fail;

#[test]
fn an_address_in_use_is_a_fault(rt: HostRuntime) -> Result<(), Fail> {
    let types: Option<(TcpListener, TcpStream)> = None;
    drop(types);
    let alloc = rt.alloc();
    let place = Place::drawn(&rt, ListenerMode::Legacy)?;
    let text = place.text(alloc)?;
    let owner = TcpListener::bind(&rt, place.door())?;
    let board = new_board(alloc)?;
    let legacy = Setting::new(alloc, &board, ListenerMode::Legacy);
    let ended = legacy.serve(&rt, Door::At(text.as_str()))?;
    assert_eq!(rt; ended, Err(ServerError::Io));
    for mode in [
        ListenerMode::Pooled,
        ListenerMode::Proxy { control_port: 21 },
    ] {
        let ended = Setting::new(alloc, &board, mode).serve_prebound(&rt, text.as_str())?;
        assert_eq!(rt; ended, Err(ServerError::Io));
    }
    drop(owner);
    Ok(())
}

#[test]
fn what_is_no_address_is_told(rt: HostRuntime) -> Result<(), Fail> {
    let types: Option<(TcpListener, TcpStream)> = None;
    drop(types);
    let texts = [
        "nonsense",
        "",
        "127.0.0.1",
        "127.0.0.1:",
        "127.0.0.1:65536",
        "127.0.0.1:021",
        "127.0.0.01:21",
        "::1:21",
        "[::1]",
        "[127.0.0.1]:21",
        "localhost:21",
    ];
    let board = new_board(rt.alloc())?;
    for text in texts {
        let legacy = Setting::new(rt.alloc(), &board, ListenerMode::Legacy);
        let ended = legacy.serve(&rt, Door::At(text))?;
        assert_eq!(rt; ended, Err(ServerError::Address), "at {text}");
    }
    let pooled = Setting::new(rt.alloc(), &board, ListenerMode::Pooled);
    let ended = pooled.serve_prebound(&rt, "[::1]:2121")?;
    assert_eq!(rt; ended, Err(ServerError::Ipv6OutsideLegacy));
    Ok(())
}

/// The two ends of a connection, of which the first sends nothing more.
fn ended_stream<R: ServerRuntime>(rt: &R) -> io::Result<(TcpStream, TcpStream)> {
    let listener = TcpListener::bind(rt, Place::drawn(rt, ListenerMode::Pooled)?.door())?;
    let client = TcpStream::connect(rt, listener.local_addr()?)?;
    client.shutdown(Shutdown::Write)?;
    let (stream, _) = listener.accept()?;
    Ok((client, stream))
}

/// Serves a connection whose client sends nothing, and gives what the client is sent.
fn serve_ended<R: ServerRuntime>(rt: &R, alloc: Global) -> Result<Vec<u8>, Stopped> {
    let Ok((client, stream)) = ended_stream(rt) else {
        return Err(Stopped::NoPlace);
    };
    let board = new_board(alloc)?;
    let pooled = Setting::new(alloc, &board, ListenerMode::Pooled);
    if let Err(error) = pooled.serve(rt, Door::Within(stream))? {
        return Err(Stopped::Server(error));
    }
    let mut client = client;
    let mut sent = Vec::new(alloc);
    match client.read_to_end(&mut sent) {
        Ok(_) => Ok(sent),
        Err(error) => Err(Stopped::Client(Met::from(error))),
    }
}

#[test]
fn a_connection_that_has_ended_is_served_to_its_end(rt: HostRuntime) -> Result<(), Fail> {
    let types: Option<(TcpListener, TcpStream)> = None;
    drop(types);
    let sent = serve_ended(&rt, rt.alloc())?;
    assert_eq!(rt;
        sent.as_slice(),
        b"220 Welcome to the libunftp FTP server\r\n".as_slice()
    );
    Ok(())
}
