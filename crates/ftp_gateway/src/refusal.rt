//! Why a gateway does not serve.

use ftp_base::Bytes;
use ftp_config::{ConfigError, UsersError, key_name};
use ftp_options::ServerError;
use std::alloc::{AllocError, Global};
use std::io;

/// Why a gateway does not serve, or serves no more.
#[derive(Drop)]
pub enum Refusal {
    /// The file of users, or the configuration file, cannot be read.
    Unreadable(Bytes),
    /// A log, or the file of the counts, cannot be written.
    Unwritable(Bytes),
    Config(ConfigError),
    /// TLS is to end at a proxy, and none stands before the gateway.
    TlsWithoutProxy,
    Users(UsersError),
    /// The home of this user is no directory.
    Home(Bytes),
    /// The control socket cannot be made.
    ControlSocket,
    Server(ServerError),
    OutOfMemory,
}

impl From<AllocError> for Refusal {
    ghost use Rattle.std.specs.Prelude.{◌≡◌};
    ghost use Rattle.ftp_gateway.specs.declared.refusal.Refusal.TheVariants as refusal;

    ghost from_gives = { λ _ r. r ≡ refusal.OutOfMemory };

    fn from(_e: AllocError) -> Refusal {
        Refusal::OutOfMemory
    }
}

// A name as text, where it is one.
fn shown(name: &Bytes) -> &str {
    std::str::from_utf8(name.as_slice()).unwrap_or("?")
}

/// Why, as a line without its end.
pub fn reason(alloc: Global, refusal: &Refusal) -> Result<String, AllocError> {
    match refusal {
        Refusal::Unreadable(path) => {
            let path = shown(path);
            format!(in alloc; "{path}: cannot be read")
        }
        Refusal::Unwritable(path) => {
            let path = shown(path);
            format!(in alloc; "{path}: cannot be written")
        }
        Refusal::Config(ConfigError::Syntax(error)) => format!(in alloc; "{error}"),
        Refusal::Config(ConfigError::UnknownKey(name)) => {
            let name = shown(name);
            format!(in alloc; "there is no key {name}")
        }
        Refusal::Config(ConfigError::Value(key)) => {
            let name = key_name(*key);
            format!(in alloc; "the key {name} has no value that it takes")
        }
        Refusal::TlsWithoutProxy => {
            format!(in alloc; "tls_at_proxy is for the mode proxy alone")
        }
        Refusal::Users(UsersError::Line(number)) => {
            format!(in alloc; "line {number} of the users is no user's")
        }
        Refusal::Home(name) => {
            let name = shown(name);
            format!(in alloc; "the home of {name} is no directory")
        }
        Refusal::ControlSocket => format!(in alloc; "the control socket cannot be made"),
        Refusal::Server(error) => format!(in alloc; "{error}"),
        Refusal::Config(ConfigError::OutOfMemory)
        | Refusal::Users(UsersError::OutOfMemory)
        | Refusal::OutOfMemory => format!(in alloc; "out of memory"),
    }
}

/// Says why.
pub fn tell<R: Print + AllocGlobal>(rt: &R, refusal: &Refusal) -> io::Result<()> {
    let text = reason(rt.alloc(), refusal)?;
    println!(rt; "{text}")
}
