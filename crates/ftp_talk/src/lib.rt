//! The talk on a control connection: lines in, events to a desk, replies out.
//!
//! What is submitted is what the lines ask for, and what is sent is what was replied.
//! Begin with `serve_control`, and with specs/Talk.antt.
#![tactic(auto)]

mod asking;
mod control;
mod control_session;
mod ending;
mod halt;
mod laws;
mod saying;
mod serve;
mod serving;
mod submitting;

pub use control::{serve_control, serve_control_with};
pub use control_session::Peer;
pub use laws::{
    extras_leave_the_session, struck_out_it_is_the_talk, without_extras_it_is_the_talk,
};
pub use serving::ServeEnd;
