//! Jobs, and what became of them.

ghost use Rattle.std.specs.Prelude.{◌≡◌, IfOk};
ghost use Rattle.ftp_transfer.specs.Transfer.{suits};

use ftp_base::{Bytes, DataChanCmd, ErrorKind, LinkFault};
use std::alloc::{AllocError, Global};

/// Names a transfer: those of a session are numbered from 1.
#[derive(Clone, Copy, Debug, PartialEq, Eq)]
pub struct Ticket {
    pub session: u64,
    pub nr: u64,
}

/// A transfer, as it was fixed when it was asked for.
#[derive(Clone, Debug, PartialEq, Eq, Drop)]
pub struct Job {
    pub ticket: Ticket,
    pub user: Bytes,
    pub command: DataChanCmd,
    /// The file or the directory.
    pub path: Bytes,
    /// Where a RETR or a STOR begins, in bytes.
    pub offset: u64,
    /// The link's number.
    pub number: u64,
    /// How many bytes earlier pieces moved.
    pub done: u64,
}

impl Job {
    /// Gives an equal job.
    pub fn copy(&self, _alloc: Global) -> Result<Job, AllocError>
        ensures { IfOk result (λ copy. copy ≡ self.now) }
    {
        self.clone()
    }
}

/// How a transfer ended.
#[derive(Clone, Copy, Debug, PartialEq, Eq)]
pub enum Completion {
    Sent,
    Written,
    Listed,
    /// A listing could not be sent.
    WriteFailed,
    Refused(ErrorKind),
    OutOfMemory,
}

#[derive(Clone, Copy, Debug, PartialEq, Eq)]
pub struct Outcome {
    pub result: Completion,
    /// How many bytes moved, those of earlier pieces with them, also where the transfer did not succeed.
    pub bytes: u64,
    /// What the link met, where that ended the transfer.
    pub fault: Option<LinkFault>,
}

/// What a piece of a transfer came to.
#[derive(Clone, Copy, Debug, PartialEq, Eq)]
pub enum PieceResult {
    /// So many bytes moved, and more may come.
    More { bytes: u64 },
    /// The transfer is over.
    Ended(Outcome),
}

impl Outcome {
    /// Says whether the command can end so.
    pub fn suits(&self, command: &DataChanCmd) -> bool
        ensures { result ≡ suits self.now.result command.now }
    {
        match self.result {
            Completion::Sent => matches!(command, DataChanCmd::Retr { .. }),
            Completion::Written => {
                matches!(command, DataChanCmd::Stor { .. } | DataChanCmd::Appe { .. })
            }
            Completion::Listed | Completion::WriteFailed => matches!(
                command,
                DataChanCmd::List { .. } | DataChanCmd::Nlst { .. } | DataChanCmd::Mlsd { .. }
            ),
            Completion::Refused(_) | Completion::OutOfMemory => true,
        }
    }
}
