//! What holds of every run of a job. The function does nothing: its clause is the law.

ghost use Rattle.ftp_transfer.specs.Uploads.{UploadsAreWritten};

/// A STOR to a storage in memory that has room for it, and of which no call failed but the link's close, is
/// written, or memory ran out.
///
/// # Proved
///
/// - A STOR to a storage in memory that has room for it is written, or memory ran out, where no call but the link's
///   close failed.
pub fn uploads_are_written()
    ensures { UploadsAreWritten }
{}
