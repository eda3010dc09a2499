//! Why a configuration file is refused.

use crate::key::Key;
use ftp_base::Bytes;
use std::alloc::AllocError;

/// Why a text is no configuration.
#[derive(Drop)]
pub enum ConfigError {
    /// It is no TOML. The error tells the line.
    Syntax(toml::de::Error),
    /// It has a key that is none of `Key`.
    UnknownKey(Bytes),
    /// What it has at a key is nothing that the key takes, or it lacks a key that has no default.
    Value(Key),
    OutOfMemory,
}

impl From<AllocError> for ConfigError {
    ghost use Rattle.std.specs.Prelude.{◌≡◌};
    ghost use Rattle.ftp_config.specs.declared.error.ConfigError.TheVariants as error;

    ghost from_gives = { λ _ e. e ≡ error.OutOfMemory };

    fn from(_e: AllocError) -> ConfigError {
        ConfigError::OutOfMemory
    }
}
