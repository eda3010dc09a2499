//! The texts of replies that are told both by a message and in an entry.

/// The text on a login that succeeded.
pub const LOGGED_IN: &[u8] = b"User logged in, proceed";

/// The text on a login that failed.
pub const AUTH_FAILED: &[u8] = b"Authentication failed";

/// The text on another working directory.
pub const CWD_CHANGED: &[u8] = b"Successfully changed working directory";

/// The text on a download that is done.
pub const SENT: &[u8] = b"Successfully sent";

/// The text on an upload that is done.
pub const WRITTEN: &[u8] = b"File successfully written";

/// The text on a listing that is done.
pub const LISTED: &[u8] = b"Listed the directory";

/// The text on a listing that could not be sent.
pub const WRITE_FAILED: &[u8] = b"Failed to write file";

/// The text on a transfer whose data connection has broken off, or will not come.
pub const BROKEN_OFF: &[u8] = b"Datachannel unexpectedly closed";

/// The text on a name that was not looked up, before that name and a closing quote.
pub const UNRESOLVED: &[u8] = b"Could not resolve DNS address '";
