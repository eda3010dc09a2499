//! Why a storage refuses a call.

/// Why a storage refuses a call.
#[derive(Clone, Copy, Debug, PartialEq, Eq)]
pub enum ErrorKind {
    TransientFileNotAvailable,
    PermanentFileNotAvailable,
    PermanentDirectoryNotAvailable,
    PermanentDirectoryNotEmpty,
    PermissionDenied,
    ConnectionClosed,
    LocalError,
    PageTypeUnknown,
    InsufficientStorageSpaceError,
    ExceededStorageAllocationError,
    FileNameNotAllowedError,
    CommandNotImplemented,
}
