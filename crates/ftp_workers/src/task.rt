//! What threads are asked to do.

use ftp_shared::JobShare;
use std::net::{SocketAddr, TcpStream};

/// What one thread does at a time.
#[derive(Drop)]
pub(crate) enum Task {
    /// Serve a control connection.
    Control(TcpStream, SocketAddr),
    /// Read the header of a connection that a proxy passed on, and do what it says.
    Proxied(TcpStream, SocketAddr),
    /// Run a job, on its link.
    Job(JobShare),
}
