//! What the threads of a server share, and what each of them does.
//!
//! Each entry that is made here is the next one of a right log, and what it asks for is carried out once the hub is free.
//! Begin with `ServerState` and `work`.
#![tactic(auto)]

mod admitting;
mod carrying;
mod closing;
mod control;
mod desk;
mod door;
mod event_sinks;
mod handoff;
mod job;
mod link_handle;
mod listening;
mod own_jobs;
mod proxied;
mod proxy_header;
mod running_job;
mod runtime;
mod server_state;
mod services;
mod session_edge;
mod stopping;
mod task;
mod waiting_jobs;
mod worker;

pub use desk::{DeskOf, ServerDesk};
pub use event_sinks::{EventSinks, Listeners};
pub use listening::AcceptorHandle;
pub use proxy_header::answer_proxied;
pub use runtime::WorkerRuntime;
pub use server_state::{ServerState, StateOf};
pub use services::{Services, SharedServices};
pub use worker::{Worker, work};
