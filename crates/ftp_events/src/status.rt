//! What is counted of a transfer that has ended: by which command, and with which status.

ghost use Rattle.std.specs.Prelude.{◌≡◌};
ghost use Rattle.ftp_events.specs.Statuses.{word_of, receives, ended_of, status_of, completion_status, refusal_status, fault_status};

use ftp_base::{DataChanCmd, ErrorKind, LinkFault};
use ftp_transfer::{Completion, Job, Outcome};

/// The word of a command that moves bytes.
#[derive(Clone, Copy, Debug, PartialEq, Eq)]
pub enum CommandWord {
    Retr,
    Stor,
    Appe,
    List,
    Nlst,
    Mlsd,
}

/// How a transfer has ended, for the counts.
#[derive(Clone, Copy, Debug, PartialEq, Eq)]
pub enum Status7 {
    Success,
    /// The file is not there.
    ClientError,
    /// The storage failed, or the link for another reason than those below.
    ServerError,
    /// The storage forbids it.
    PermissionError,
    /// The client broke the connection off.
    ClientInterrupted,
    /// The connection was aborted.
    NetworkError,
    /// It failed for any other reason.
    UnknownError,
}

/// What is counted of a transfer that has ended.
#[derive(Clone, Copy, Debug, PartialEq, Eq)]
pub struct Ended {
    pub word: CommandWord,
    /// The transfer began at the first byte of the file.
    pub from_start: bool,
}

impl CommandWord {
    /// The word of a command.
    pub fn of(command: &DataChanCmd) -> CommandWord
        ensures { result ≡ word_of command.now }
    {
        match command {
            DataChanCmd::Retr { .. } => CommandWord::Retr,
            DataChanCmd::Stor { .. } => CommandWord::Stor,
            DataChanCmd::Appe { .. } => CommandWord::Appe,
            DataChanCmd::List { .. } => CommandWord::List,
            DataChanCmd::Nlst { .. } => CommandWord::Nlst,
            DataChanCmd::Mlsd { .. } => CommandWord::Mlsd,
        }
    }

    /// Says whether a command with this word receives bytes; every other sends them.
    pub fn receives(self) -> bool
        ensures { result ≡ receives self }
    {
        matches!(self, CommandWord::Stor | CommandWord::Appe)
    }
}

impl Ended {
    /// What is counted of a job.
    ///
    /// # Proved
    ///
    /// - How a transfer that has ended is counted, by its outcome and what the link met (also `Ended::status`).
    pub fn of(job: &Job) -> Ended
        ensures { result ≡ ended_of job.now }
    {
        Ended {
            word: CommandWord::of(&job.command),
            from_start: job.offset == 0,
        }
    }

    /// The status that is counted for an outcome, if any.
    pub fn status(self, outcome: Outcome) -> Option<Status7>
        ensures { result ≡ status_of self outcome }
    {
        match self.word {
            CommandWord::Retr | CommandWord::Stor if !self.from_start => None,
            _ => completion_status(self.word, outcome.fault, outcome.result),
        }
    }
}

// The status of a transfer, by how it has ended.
fn completion_status(
    word: CommandWord,
    fault: Option<LinkFault>,
    completion: Completion,
) -> Option<Status7>
    ensures { result ≡ completion_status word fault completion }
{
    match completion {
        Completion::Sent | Completion::Written | Completion::Listed => Some(Status7::Success),
        Completion::WriteFailed => fault_status(word, fault),
        Completion::Refused(kind) => refusal_status(word, fault, kind),
        Completion::OutOfMemory => Some(Status7::UnknownError),
    }
}

// The status of a transfer that was refused.
fn refusal_status(word: CommandWord, fault: Option<LinkFault>, kind: ErrorKind) -> Option<Status7>
    ensures { result ≡ refusal_status word fault kind }
{
    match kind {
        ErrorKind::PermanentFileNotAvailable => Some(Status7::ClientError),
        ErrorKind::TransientFileNotAvailable | ErrorKind::LocalError => Some(Status7::ServerError),
        ErrorKind::PermissionDenied => Some(Status7::PermissionError),
        ErrorKind::ConnectionClosed => fault_status(word, fault),
        _ => Some(Status7::UnknownError),
    }
}

// The status of a transfer that the link broke off.
fn fault_status(word: CommandWord, fault: Option<LinkFault>) -> Option<Status7>
    ensures { result ≡ fault_status word fault }
{
    match (fault, word) {
        (None, _) | (Some(LinkFault::BrokenPipe), CommandWord::Retr) => None,
        (Some(LinkFault::Reset | LinkFault::BrokenPipe), _) => Some(Status7::ClientInterrupted),
        (Some(LinkFault::Aborted), _) => Some(Status7::NetworkError),
        (Some(LinkFault::Other), _) => Some(Status7::ServerError),
    }
}
