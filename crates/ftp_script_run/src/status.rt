//! How a run ends.

ghost use Rattle.std.specs.Prelude.{◌≡◌};
ghost use Rattle.std.specs.Process.{exit_status};
ghost use Rattle.ftp_script_run.specs.Statuses.{code_of, stopped_by, ended_by};

use ftp_base::Failed;
use std::process::ExitCode;

#[derive(Clone, Copy, Debug, PartialEq, Eq)]
pub enum Status {
    /// The source was read to its end, and all was written.
    Done,
    /// The first line that is none of a script, counted from 1.
    BadLine(u64),
    /// The source failed.
    ReadFault,
    /// The sink failed.
    WriteFault,
    OutOfMemory,
    /// The words are no command.
    Usage,
}

impl Status {
    /// The exit status of the program, as a number.
    ///
    /// # Proved
    ///
    /// - The exit codes, as a number and as what a program ends with (also `Status::exit_code`).
    pub fn code(self) -> u8
        ensures { result ≡ code_of self }
    {
        match self {
            Status::Done => 0,
            Status::BadLine(_) => 2,
            Status::ReadFault => 3,
            Status::WriteFault => 4,
            Status::OutOfMemory => 5,
            Status::Usage => 64,
        }
    }

    /// What the program ends with.
    pub fn exit_code(self) -> ExitCode
        ensures { exit_status result ≡ code_of self }
    {
        ExitCode::from(self.code())
    }

    /// The status of a run whose last write went so.
    pub(crate) fn after(self, last: Result<(), Failed>) -> Status
        ensures { result ≡ ended_by last self }
    {
        match last {
            Ok(()) => self,
            Err(failed) => Status::stopped_by(failed),
        }
    }

    /// The status of a run that a failed write stopped.
    pub(crate) fn stopped_by(failed: Failed) -> Status
        ensures { result ≡ stopped_by failed }
    {
        match failed {
            Failed::Fault => Status::WriteFault,
            Failed::Memory => Status::OutOfMemory,
        }
    }
}
