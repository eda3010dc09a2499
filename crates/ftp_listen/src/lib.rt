//! A server that listens, with a thread for each session and for each transfer.
//!
//! It ends well only where a shutdown was asked for, and each error has its cause.
//! Begin with `Server`.
#![tactic(auto)]

mod acceptor;
mod listening;
mod parts;
mod place;
mod prebound;
mod running;
mod server;
mod single;
mod spawning;

pub use parts::Parts;
pub use place::listen_address;
pub use prebound::PreboundListener;
pub use server::Server;
