//! The hub: a state machine over events, whose log is always the right one.
//!
//! `prepare` takes all memory that an event can need, and `step` decides, changes the tables and takes
//! none. Begin with `run_event`.
#![tactic(auto)]

mod arrivals;
mod causes;
mod claims;
mod data_links;
mod hub;
mod jobs;
mod laws;
mod own_sessions;
mod prepare;
mod records;
mod replay;
mod resume;
mod run;
mod state;
mod step;
mod stop;
mod tables;
mod twin;

pub use ftp_handlers::{
    Need, Room, appe, cwd, list, mlsd, nlst, pass, pasv, quit, rest, retr, stor, stou,
};
pub use hub::Hub;
pub use laws::{sessions_are_told, states_of_logs_pass, states_stand_for_logs};
pub use prepare::PrepareError;
pub use replay::isolation;
pub use run::{RunError, covers, keep, run_event, run_events};
pub use state::{
    HubState, JobLine, LoginState, QueuedLine, RecordLine, SessionLine, SlotKind, SlotLine,
    StateError,
};
pub use twin::{Twin, TwinRoom};
