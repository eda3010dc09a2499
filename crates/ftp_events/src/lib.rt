//! Events, decisions and actions of the server, and in specs/ what they have to be.
//!
//! A log is right where each decision is the one that is due after the entries before it.
//! Begin with `Entry`, and with specs/Right.antt.
#![tactic(auto)]

mod action;
mod copies;
mod counters;
mod counting;
mod decision;
mod delivery;
mod entry;
mod event;
mod log;
mod paths;
mod port_text;
mod questions;
mod session;
mod status;
mod tallies;
mod text;
pub mod wording;

pub use action::{Action, Actions};
pub use counters::Counters;
pub use decision::{Decision, Life, SlotMove};
pub use delivery::deliver;
pub use entry::Entry;
pub use event::{Answer, EventKind, HubEvent};
pub use log::Log;
pub use paths::command_path;
pub use port_text::port_target;
pub use questions::{ends_hold, holder_of, replies_of, target};
pub use session::{Login, Opening, Pending, Running, Session, Slot};
pub use status::{CommandWord, Ended, Status7};
pub use text::{
    make_pasv_reply, refusal, reply_of, unique_name, words_of, write_offset_text,
    write_passive_text, write_words,
};
