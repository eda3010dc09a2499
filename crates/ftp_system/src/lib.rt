//! The edge of a server: sockets, the clock, names, locks and threads behind the traits of the outside.
//!
//! What is here tells no content, and counts its faults; that the system does what it is asked is trusted.
//! Begin with `link` and `control`.
#![tactic(auto)]

mod address;
mod ahead;
mod control;
mod counts;
mod depot;
mod doors;
mod edge;
mod faults;
mod gathered;
mod link;
mod listen;
mod open;
mod queue;
mod runtime;
mod shared;
mod stream;
mod telnet;
mod threads;
mod uploads;
mod waiting;

pub use address::{std_address, told_address};
pub use ahead::Ahead;
pub use control::{ControlHandle, SocketControl};
pub use counts::{SessionCounts, SessionLimits};
pub use depot::Depot;
pub use doors::{Doors, Front, SystemFront};
pub use edge::SystemEdge;
pub use gathered::{GATHERED, Gathered, gathering_buffer};
pub use link::{LIMIT, SocketLink};
pub use listen::{bind_address, port_of};
pub use open::{NeverAsks, OpenGate};
pub use queue::{PutError, Queue};
pub use runtime::ServerRuntime;
pub use shared::{SharedDepot, SharedStorage};
pub use telnet::Telnet;
pub use threads::{SystemThreads, start};
pub use uploads::Uploads;
