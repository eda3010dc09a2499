//! What a gateway is started with: its two files, and what they name.

use crate::refusal::Refusal;
use crate::settings::{can_end_tls, options};
use ftp_base::Bytes;
use ftp_config::{GatewayConfig, Users, read_config};
use ftp_listen::listen_address;
use ftp_options::Options;
use std::alloc::Global;
use std::fs;
use std::rt::Files;

/// What the two files say, with the options of the server.
#[derive(Drop)]
pub struct Setup {
    pub config: GatewayConfig,
    pub options: Options,
    pub users: Users,
}

// The bytes of a file.
fn bytes_of<R: Files + AllocGlobal>(rt: &R, path: &str) -> Result<Vec<u8>, Refusal> {
    match fs::read(rt, path) {
        Ok(bytes) => Ok(bytes),
        Err(_) => Err(Refusal::Unreadable(Bytes::from_slice(rt.alloc(), path.as_bytes())?)),
    }
}

// What a configuration file says.
fn config_at<R: Files + AllocGlobal>(rt: &R, path: &str) -> Result<GatewayConfig, Refusal> {
    let alloc = rt.alloc();
    let text = bytes_of(rt, path)?;
    let Ok(text) = std::str::from_utf8(text.as_slice()) else {
        return Err(Refusal::Unreadable(Bytes::from_slice(alloc, path.as_bytes())?));
    };
    match read_config(alloc, text) {
        Ok(config) => Ok(config),
        Err(error) => Err(Refusal::Config(error)),
    }
}

// The options of a configuration, which names an address where such a server can listen, and a place where TLS can end.
fn options_of(alloc: Global, config: &GatewayConfig) -> Result<Options, Refusal> {
    let options = match options(alloc, config) {
        Ok(options) => options,
        Err(error) => return Err(Refusal::Server(error)),
    };
    if !can_end_tls(config) {
        return Err(Refusal::TlsWithoutProxy);
    }
    match listen_address(config.listen.as_slice(), config.mode) {
        Ok(_) => Ok(options),
        Err(error) => Err(Refusal::Server(error)),
    }
}

/// Reads a configuration file, and the file of users that it names. Where they are taken, a server of them fails only for what the
/// machine has.
pub fn read_setup<R: Files + AllocGlobal>(rt: &R, path: &str) -> Result<Setup, Refusal> {
    let config = config_at(rt, path)?;
    let options = options_of(rt.alloc(), &config)?;
    let users = read_users(rt, &config.users_file)?;
    Ok(Setup {
        config,
        options,
        users,
    })
}

/// Reads a file of users, of whom each has a directory as home.
pub fn read_users<R: Files + AllocGlobal>(rt: &R, path: &Bytes) -> Result<Users, Refusal> {
    let alloc = rt.alloc();
    let Ok(text) = std::str::from_utf8(path.as_slice()) else {
        return Err(Refusal::Unreadable(path.copy(alloc)?));
    };
    let lines = bytes_of(rt, text)?;
    let users = match Users::read(alloc, lines.as_slice()) {
        Ok(users) => users,
        Err(error) => return Err(Refusal::Users(error)),
    };
    check_homes(rt, &users)?;
    Ok(users)
}

// Refuses a user whose home is no directory.
fn check_homes<R: Files + AllocGlobal>(rt: &R, users: &Users) -> Result<(), Refusal> {
    for (name, user) in users.iter() {
        if !is_directory(rt, user.home.as_str()) {
            return Err(Refusal::Home(Bytes::from_slice(rt.alloc(), name.as_slice())?));
        }
    }
    Ok(())
}

// Whether a directory stands at a path, or a link that leads to one.
fn is_directory<R: Files>(rt: &R, path: &str) -> bool {
    match fs::metadata(rt, path) {
        Ok(found) => found.is_dir(),
        Err(_) => false,
    }
}
