//! Why a header is none.

ghost use Rattle.std.specs.Prelude.{◌≡◌, Some};
ghost use Rattle.ftp_proxy.specs.Texts.{error_text};

use std::error::Error;
use std::fmt;

/// Why no line was read.
#[derive(Clone, Copy, Debug, PartialEq, Eq)]
pub enum ReadError {
    /// The source ended before a line feed.
    UnexpectedEof,
    /// The source failed.
    Fault,
}

#[derive(Clone, Copy, Debug, PartialEq, Eq)]
pub enum ProxyError {
    /// The line is too short.
    HeaderSize,
    /// No carriage return stands before the line feed.
    CrlfError,
    /// No line feed is among the bytes that a line can have.
    NotProxyHdr,
    /// The line is not spelled as a header.
    DecodeError,
    /// The addresses are of version 6.
    IPv4Required,
    /// The proxy does not tell the addresses.
    UnsupportedVersion,
    ReadError(ReadError),
}

impl From<ReadError> for ProxyError {
    ghost use Rattle.ftp_proxy.specs.declared.error.ProxyError.{ProxyError};

    ghost from_gives = { λ e result. result ≡ ProxyError.ReadError e };

    fn from(e: ReadError) -> ProxyError {
        ProxyError::ReadError(e)
    }
}

impl fmt::Display for ProxyError {
    ghost output = { λ e. Some (error_text e) };

    // # Proved
    //
    // - Each error prints one text, which `error_text` has (`ftp_proxy/specs/Texts.antt`).
    fn fmt<W: fmt::Write>(&self, f: &mut fmt::Formatter<W>) -> fmt::Result {
        match self {
            ProxyError::HeaderSize => write!(f, "header size is incorrect"),
            ProxyError::CrlfError => write!(f, "header doesn't end with CRLF"),
            ProxyError::NotProxyHdr => {
                write!(f, "header does not match the supported proxy protocol v1")
            }
            ProxyError::DecodeError => write!(f, "proxy protocol parse error"),
            ProxyError::IPv4Required => write!(f, "only IPv4 is supported"),
            ProxyError::UnsupportedVersion => write!(f, "unsupported proxy protocol version"),
            ProxyError::ReadError(_) => write!(f, "error reading from stream"),
        }
    }
}

impl Error for ProxyError {}
