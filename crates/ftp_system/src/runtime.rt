//! What a server over sockets uses of the runtime.

use std::net::{Net, TcpListener, TcpStream};
use std::random::RandomSource;
use std::sync::Wait;
use std::thread::Threads;
use std::time::Clock;

/// All that a server uses of the runtime: the bound of functions that start threads or serve in them.
///
/// A type whose trait methods are called with no handle takes the least bound that it needs, as `Net` or `Wait`.
pub trait ServerRuntime: Net<Listener = TcpListener, Stream = TcpStream>
    + Threads
    + Wait
    + Clock
    + RandomSource
    + Copy
    + Drop
    + Send
    + Sync
    + 'static {}

impl<
    R: Net<Listener = TcpListener, Stream = TcpStream>
        + Threads
        + Wait
        + Clock
        + RandomSource
        + Copy
        + Drop
        + Send
        + Sync
        + 'static,
> ServerRuntime for R {}
