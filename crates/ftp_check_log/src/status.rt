//! How a check ends.

ghost use Rattle.std.specs.Prelude.{◌≡◌};
ghost use Rattle.std.specs.Process.{exit_status};
ghost use Rattle.ftp_check_log.specs.CheckStatuses.{check_code, after_write, verdict_status, explanation_status};

use crate::{Explanation, Verdict};
use ftp_base::Failed;
use std::process::ExitCode;

#[derive(Clone, Copy, Debug, PartialEq, Eq)]
pub enum CheckStatus {
    /// The log is right, or what was asked for was told.
    Done,
    /// An entry has another decision than the due one, or other actions.
    Wrong,
    /// The first line that no printed log can have there, counted from 1.
    BadText(u64),
    /// The source failed.
    ReadFault,
    /// The sink failed.
    WriteFault,
    OutOfMemory,
    /// The log is right, and has no entry at the place that was asked for.
    NoEntry,
    /// The words are no command.
    Usage,
}

impl CheckStatus {
    /// The exit status of the program, as a number.
    ///
    /// # Proved
    ///
    /// - The exit codes, as a number and as what a program ends with (also `CheckStatus::exit_code`).
    pub fn code(self) -> u8
        ensures { result ≡ check_code self }
    {
        match self {
            CheckStatus::Done => 0,
            CheckStatus::Wrong => 1,
            CheckStatus::BadText(_) => 2,
            CheckStatus::ReadFault => 3,
            CheckStatus::WriteFault => 4,
            CheckStatus::OutOfMemory => 5,
            CheckStatus::NoEntry => 6,
            CheckStatus::Usage => 64,
        }
    }

    /// What the program ends with.
    pub fn exit_code(self) -> ExitCode
        ensures { exit_status result ≡ check_code self }
    {
        ExitCode::from(self.code())
    }

    /// The status of a check that came to this.
    pub(crate) fn of(verdict: Verdict) -> CheckStatus
        ensures { result ≡ verdict_status verdict }
    {
        match verdict {
            Verdict::Right { .. } => CheckStatus::Done,
            Verdict::Decided { .. } | Verdict::Acted { .. } => CheckStatus::Wrong,
            Verdict::BadText { line } => CheckStatus::BadText(line),
        }
    }

    /// The status where an entry is explained so.
    pub(crate) fn of_explanation(explanation: &Explanation) -> CheckStatus
        ensures { result ≡ explanation_status explanation.now }
    {
        match explanation {
            Explanation::Found(_) => CheckStatus::Done,
            Explanation::NoEntry => CheckStatus::NoEntry,
            Explanation::Wrong(verdict) => CheckStatus::of(*verdict),
        }
    }

    /// The status of a run whose last write went so.
    pub(crate) fn after(self, last: Result<(), Failed>) -> CheckStatus
        ensures { result ≡ after_write last self }
    {
        match last {
            Ok(()) => self,
            Err(Failed::Fault) => CheckStatus::WriteFault,
            Err(Failed::Memory) => CheckStatus::OutOfMemory,
        }
    }
}
