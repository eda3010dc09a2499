//! What the program does: runs a script of events from a source, and writes the log that is due for it to a sink, or what
//! its users moved; or tells how often each decision came in a run of drawn events.
//!
//! What is written is the printed log of exactly the script that was read, or the report on it, or the number of the first
//! bad line.
//! Begin with `run_script`.
#![tactic(auto)]

mod admission;
mod auditing;
mod command;
mod counts;
mod draws;
mod events;
mod fitting;
mod head;
mod head_reading;
mod laws;
mod printing;
mod resumed;
mod resuming;
mod run;
mod script;
mod status;
mod stress_laws;
mod stress_run;
mod telling;
mod text_laws;
mod text_script;

pub use admission::{LONGEST_LINE, LONGEST_SCRIPT, MAX_FILE};
pub use command::{Command, Ending, Told, command_of};
pub use laws::{
    saved_scripts_go_on, settled_runs_are_determined, taken_transfers_are_done,
    told_faults_are_listed,
};
pub use script::run_script;
pub use status::Status;
pub use stress_laws::every_decision_is_counted;
pub use stress_run::stress;
pub use telling::{HELP, VERSION};
pub use text_laws::{a_line_has_one_item, bytes_are_one_script};
pub use text_script::{BUFFER_SIZE, ScriptError, ScriptReader};
