//! The lines of scripts, of logs and of a hub's state: their fields, and events, the set-up of a script, the entries of a log and a
//! state in them; and readers and writers as sources and sinks of them.
//!
//! Each value has one spelling, so a field, a line or a state is read exactly where something is spelled so; a fault of a reader
//! or a writer is counted once. Begin with `field`, `read_item`, `put_entry`, `read_log_line`, `Input` and specs/Fields.antt, and
//! for states with `encode_state`, `decode_state` and specs/Grammar.antt.
#![tactic(auto)]

mod action;
mod answer;
mod calls;
mod decision;
mod event;
mod event_word;
mod event_writing;
mod fault;
pub mod field;
mod laws;
mod line;
mod message;
mod notice;
mod options;
mod place;
mod printing;
mod settings;
mod setup;
mod state_command;
mod state_decoding;
mod state_encoding;
mod state_grammar;
mod state_laws;
mod state_line;
mod state_piece;
mod state_writing;
mod streams;
mod text;
mod trace;
mod word;
pub mod writing;

pub use calls::{CallText, FailingCalls, failing_calls};
pub use event::read_event;
pub use event_writing::put_event;
pub use fault::{LineFault, Parsed};
pub use laws::{one_line_is_the_first_bad, printed_logs_have_no_bad_line};
pub use line::{LogLine, read_log_line};
pub use message::{message_to_end, put_message};
pub use place::{LONGEST_LOG, Place, Stage, first_bad_line};
pub use printing::{decision_text, put_entry};
pub use settings::{default_options, options_in};
pub use setup::{Item, put_file, put_sent, read_item};
pub use state_decoding::decode_state;
pub use state_encoding::encode_state;
pub use state_laws::{
    a_state_has_one_text, lines_give_lists_in_order, lists_in_order_have_lines,
    states_of_logs_begin_at_the_root,
};
pub use state_line::{StateLine, read_state_line};
pub use streams::{Input, Output};
pub use text::whole_text;
