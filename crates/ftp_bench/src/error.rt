//! Why nothing was counted.

ghost use Rattle.std.specs.Prelude.{◌≡◌};
ghost use Rattle.ftp_bench.specs.declared.error.BenchError.TheVariants.{Run, Storage, OutOfMemory};

use ftp_base::StoreError;
use ftp_events::Entry;
use ftp_hub::RunError;
use ftp_shared::AppendError;
use ftp_switchboard::SwitchboardError;
use ftp_transfer::Completion;
use std::alloc::{AllocError, AllocFailed};

/// Why nothing was counted.
#[derive(Clone, Copy)]
pub enum BenchError {
    /// No port was free, or one was held.
    Port(SwitchboardError),
    /// The storage did not take the file.
    Storage(StoreError),
    /// A transfer ended so before all bytes moved.
    Transfer(Completion),
    /// An event was not run.
    Run(RunError),
    /// The shared hub had no share left to give.
    NoShare,
    /// The journal of the shared hub has entries of somebody else.
    Others,
    /// The talk stopped before its end.
    Stopped,
    OutOfMemory,
}

impl From<SwitchboardError> for BenchError {
    fn from(error: SwitchboardError) -> BenchError {
        BenchError::Port(error)
    }
}

impl From<StoreError> for BenchError {
    ghost from_gives = { λ error e. e ≡ Storage error };

    fn from(error: StoreError) -> BenchError {
        BenchError::Storage(error)
    }
}

impl From<RunError> for BenchError {
    ghost from_gives = { λ error e. e ≡ Run error };

    fn from(error: RunError) -> BenchError {
        BenchError::Run(error)
    }
}

impl From<AllocError> for BenchError {
    ghost from_gives = { λ _ e. e ≡ OutOfMemory };

    fn from(_: AllocError) -> BenchError {
        BenchError::OutOfMemory
    }
}

impl From<AllocFailed<Entry>> for BenchError {
    ghost from_gives = { λ _ e. e ≡ OutOfMemory };

    fn from(_: AllocFailed<Entry>) -> BenchError {
        BenchError::OutOfMemory
    }
}

impl From<AppendError> for BenchError {
    ghost from_gives = { λ _ e. e ≡ OutOfMemory };

    // A hub that keeps its whole journal answers nothing else.
    fn from(_: AppendError) -> BenchError {
        BenchError::OutOfMemory
    }
}
