//! How an error of the system refuses a call of a storage.

ghost use Rattle.std.specs.Prelude.{◌≡◌, Ok, IfOk};
ghost use Rattle.ftp_disk.specs.Refusal.{refusal_of};

use ftp_base::{ErrorKind, StoreError};
use std::io;

/// What a call of a storage comes to.
pub(crate) type Answer<T> = Result<T, StoreError>;

/// How an error of the system refuses a call of a storage.
///
/// # Proved
///
/// - Each error of the system is told as the one table says: what is missing, what is not permitted, what is full, what
///   is busy, which names are bad; any other is a fault.
pub fn refusal(kind: io::ErrorKind) -> StoreError
    ensures { result ≡ refusal_of kind }
{
    match kind {
        io::ErrorKind::NotFound => StoreError::Kind(ErrorKind::PermanentFileNotAvailable),
        io::ErrorKind::NotADirectory => StoreError::Kind(ErrorKind::PermanentDirectoryNotAvailable),
        io::ErrorKind::DirectoryNotEmpty => StoreError::Kind(ErrorKind::PermanentDirectoryNotEmpty),
        io::ErrorKind::PermissionDenied
        | io::ErrorKind::ReadOnlyFilesystem
        | io::ErrorKind::FilesystemLoop => StoreError::Kind(ErrorKind::PermissionDenied),
        io::ErrorKind::StorageFull => StoreError::Kind(ErrorKind::InsufficientStorageSpaceError),
        io::ErrorKind::QuotaExceeded | io::ErrorKind::FileTooLarge => {
            StoreError::Kind(ErrorKind::ExceededStorageAllocationError)
        }
        io::ErrorKind::InvalidFilename
        | io::ErrorKind::InvalidInput
        | io::ErrorKind::IsADirectory
        | io::ErrorKind::AlreadyExists => StoreError::Kind(ErrorKind::FileNameNotAllowedError),
        io::ErrorKind::ResourceBusy | io::ErrorKind::ExecutableFileBusy => {
            StoreError::Kind(ErrorKind::TransientFileNotAvailable)
        }
        io::ErrorKind::OutOfMemory => StoreError::OutOfMemory,
        _ => StoreError::Failed,
    }
}

/// What the system gave, or how its error refuses a call of a storage.
pub(crate) fn told<T>(answer: io::Result<T>) -> Answer<T>
    ensures { IfOk result (λ given. answer ≡ Ok given) }
{
    match answer {
        Ok(given) => Ok(given),
        Err(error) => Err(refusal(error.kind())),
    }
}
