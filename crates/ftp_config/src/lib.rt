//! The configuration of a gateway, in TOML, and its users, with hashes of their passwords by PBKDF2 (RFC 8018, section 5.2).
//!
//! Each key is known and has a value that it takes, or the file is refused with the key; the users are those that the lines of
//! their file spell, or the first bad line is named by its number. Begin with `read_config`, `Users` and specs/Line.antt.
#![tactic(auto)]

mod config;
mod error;
mod hmac;
mod home;
mod key;
mod laws;
mod line;
mod mkpasswd;
mod number;
mod parts;
mod pbkdf2;
mod user;
mod users;
mod value;

pub use config::{GatewayConfig, read_config};
pub use error::ConfigError;
pub use home::Home;
pub use key::{Key, config_key, key_name};
pub use laws::lines_are_spelled;
pub use mkpasswd::hash_line;
pub use pbkdf2::{derived_key, same_key};
pub use user::{Credential, PasswordHash, Rights, User};
pub use users::{Users, UsersError};
