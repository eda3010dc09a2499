//! A check of printed logs: whether each decision and each action is the one that is due.
//!
//! A log is right exactly where it is the print of a right and acted log; else the first place that is not so is named.
//! Begin with `check` and specs/Verdicts.antt; why an entry was decided as it was is in `explain` and `why`, and in
//! specs/Explanations.antt and specs/Evidence.antt.
#![tactic(auto)]

mod check_run;
mod checker;
mod command;
mod evidence;
mod explanation;
mod grants;
mod pending;
mod reading;
mod source;
mod status;
mod telling;
mod verdict;

pub use check_run::run_check;
pub use command::{CheckCommand, check_command};
pub use evidence::{Evidence, WhyError, put_evidence, why};
pub use explanation::{Explanation, explain};
pub use source::check;
pub use status::CheckStatus;
pub use telling::{CHECK_HELP, CHECK_VERSION};
pub use verdict::Verdict;
