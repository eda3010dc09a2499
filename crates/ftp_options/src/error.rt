//! Why a server is not built, or does not listen.

ghost use Rattle.std.specs.Prelude.{Some};
ghost use Rattle.ftp_options.specs.Texts.{fault_text, error_text};

use crate::escape::Escaped;
use ftp_base::Bytes;
use std::error::Error;
use std::fmt;

/// What is wrong with the registrations of SITE commands.
#[derive(Debug, PartialEq, Eq, Drop)]
pub enum ConfigFault {
    /// This name is empty, or has a byte that is no letter, digit, hyphen or underscore.
    InvalidName(Bytes),
    /// A handler was registered as `MD5`, which is built in.
    Md5,
    /// Two handlers were registered under this name, which is in upper case.
    Duplicate(Bytes),
    /// A provider of user details was asked for when a name was registered already.
    ProviderAfterSite,
}

impl fmt::Display for ConfigFault {
    ghost output = { λ fault. Some (fault_text fault) };

    fn fmt<W: fmt::Write>(&self, f: &mut fmt::Formatter<W>) -> fmt::Result {
        match self {
            ConfigFault::InvalidName(name) => {
                let name = Escaped::new(name);
                write!(f, "Invalid SITE command name: \"{name}\"")
            }
            ConfigFault::Md5 => write!(f, "Cannot replace built-in SITE command MD5"),
            ConfigFault::Duplicate(name) => {
                let name = Escaped::new(name);
                write!(f, "Cannot register SITE command {name} more than once")
            }
            ConfigFault::ProviderAfterSite => write!(
                f,
                "user_detail_provider() must be called before any site_command() registrations"
            ),
        }
    }
}

/// Why a server is not built, or does not listen.
#[derive(Debug, PartialEq, Eq, Drop)]
pub enum ServerError {
    /// SITE commands were registered wrongly.
    Configuration(ConfigFault),
    /// The first passive port is above the last.
    EmptyRange,
    /// The first passive port is 0 where sessions share the ports.
    PortZero,
    /// The address is one of IP version 6, and sessions share the ports.
    Ipv6OutsideLegacy,
    /// FTPS is required of somebody.
    FtpsRequired,
    /// The text is no address.
    Address,
    /// A socket failed.
    Io,
    /// A thread was not started.
    Listener,
    /// Transfers were running when the grace period of a shutdown ended.
    Shutdown,
    OutOfMemory,
}

impl fmt::Display for ServerError {
    ghost output = { λ e. Some (error_text e) };

    // # Proved
    //
    // - What errors and requirements print (`ftp_options/specs/Texts.antt`, `Ftps.antt`); a name stands in them with
    //   each byte that cannot be printed as a backslash, `x` and two digits (also `ConfigFault::fmt`;
    //   `FtpsRequired::fmt`).
    fn fmt<W: fmt::Write>(&self, f: &mut fmt::Formatter<W>) -> fmt::Result {
        match self {
            ServerError::Configuration(fault) => write!(f, "server error: {fault}"),
            ServerError::EmptyRange => write!(f, "server error: empty passive port range"),
            ServerError::PortZero => write!(f, "server error: passive port 0"),
            ServerError::Ipv6OutsideLegacy => write!(f, "server error: IPv6 outside legacy mode"),
            ServerError::FtpsRequired => write!(f, "server error: FTPS is not available"),
            ServerError::Address => write!(f, "server error: could not parse address"),
            ServerError::Io => write!(f, "server error: io error"),
            ServerError::Listener => write!(f, "server error: listener error"),
            ServerError::Shutdown => write!(f, "server error: shutdown grace period expired"),
            ServerError::OutOfMemory => write!(f, "server error: out of memory"),
        }
    }
}

impl Error for ServerError {}
