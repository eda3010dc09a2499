//! Values of keys in the table of a document.

ghost use Rattle.std.specs.Prelude.{◌≡◌, Some, true, IfOk, IfErr, option_map, option_and_then, codes};
ghost use Rattle.toml.specs.Data.{as_str};
ghost use Rattle.toml.specs.View.{table_view, view};
ghost use Rattle.ftp_config.specs.Config.{value_at, text_or, maybe_text, number_or, flag_or, mode_named, block_named, is_text, is_count_in, is_flag, within, is_port_value, has_known_keys, takes_value, IsFaultIn};
ghost use Rattle.ftp_config.specs.declared.key.Key.TheVariants as key;

use crate::error::ConfigError;
use crate::key::{Key, config_key, key_name};
use ftp_base::Bytes;
use ftp_options::{FailedLoginsBlock, ListenerMode};
use std::alloc::Global;
use toml::{Table, Value};

// Each key of the table is known.
pub(crate) fn check_keys(alloc: Global, table: &Table) -> Result<(), ConfigError>
    ensures known { IfOk result (λ _. has_known_keys (table_view table.now) ≡ true) }
    ensures refused { IfErr result (IsFaultIn (table_view table.now)) }
{
    for name in table.keys() {
        if config_key(name.as_str()).is_none() {
            return Err(ConfigError::UnknownKey(Bytes::from_slice(alloc, name.as_bytes())?));
        }
    }
    Ok(())
}

// What a table has at a key.
fn at(table: &Table, key: Key) -> Option<&Value>
    ensures { option_map (λ v. view v.now) result ≡ value_at key (table_view table.now) }
{
    table.get(key_name(key))
}

// The text at a key, or the usual one.
pub(crate) fn text_at(
    alloc: Global,
    table: &Table,
    key: Key,
    usual: &[u8],
) -> Result<Bytes, ConfigError>
    requires kind { takes_value key ≡ is_text }
    ensures written { IfOk result (λ text. text_or usual.now (value_at key (table_view table.now)) ≡ Some text) }
    ensures refused { IfErr result (IsFaultIn (table_view table.now)) }
{
    let Some(value) = at(table, key) else {
        return Ok(Bytes::from_slice(alloc, usual)?);
    };
    let Some(text) = value.as_str() else {
        return Err(ConfigError::Value(key));
    };
    Ok(Bytes::from_slice(alloc, text.as_bytes())?)
}

// The text at a key, if there is one.
pub(crate) fn maybe_text_at(
    alloc: Global,
    table: &Table,
    key: Key,
) -> Result<Option<Bytes>, ConfigError>
    requires kind { takes_value key ≡ is_text }
    ensures written { IfOk result (λ text. maybe_text (value_at key (table_view table.now)) ≡ Some text) }
    ensures refused { IfErr result (IsFaultIn (table_view table.now)) }
{
    let Some(value) = at(table, key) else {
        return Ok(None);
    };
    let Some(text) = value.as_str() else {
        return Err(ConfigError::Value(key));
    };
    Ok(Some(Bytes::from_slice(alloc, text.as_bytes())?))
}

// An integer of the range.
fn within(n: i64, lo: u32, hi: u32) -> Option<u32>
    ensures { result ≡ within lo hi n }
{
    let n = u32::try_from(n).ok()?;
    if lo <= n && n <= hi { Some(n) } else { None }
}

// The number at a key, or the usual one.
pub(crate) fn number(
    table: &Table,
    key: Key,
    lo: u32,
    hi: u32,
    usual: u32,
) -> Result<u32, ConfigError>
    requires kind { takes_value key ≡ is_count_in lo hi }
    ensures written { IfOk result (λ n. number_or lo hi usual (value_at key (table_view table.now)) ≡ Some n) }
    ensures refused { IfErr result (IsFaultIn (table_view table.now)) }
{
    let Some(value) = at(table, key) else {
        return Ok(usual);
    };
    let Some(n) = value.as_integer() else {
        return Err(ConfigError::Value(key));
    };
    within(n, lo, hi).ok_or(ConfigError::Value(key))
}

// The port at a key, or the usual one.
pub(crate) fn port(table: &Table, key: Key, usual: u16) -> Result<u16, ConfigError>
    requires kind { takes_value key ≡ is_port_value }
    ensures written { IfOk result (λ n. number_or 1 65535 usual (value_at key (table_view table.now)) ≡ Some n) }
    ensures refused { IfErr result (IsFaultIn (table_view table.now)) }
{
    let n = number(table, key, 1, 65535, u32::from(usual))?;
    let port = n as u16;
    Ok(port)
}

// The yes or no at a key, or the usual one.
pub(crate) fn flag(table: &Table, key: Key, usual: bool) -> Result<bool, ConfigError>
    requires kind { takes_value key ≡ is_flag }
    ensures written { IfOk result (λ flag. flag_or usual (value_at key (table_view table.now)) ≡ Some flag) }
    ensures refused { IfErr result (IsFaultIn (table_view table.now)) }
{
    let Some(value) = at(table, key) else {
        return Ok(usual);
    };
    value.as_bool().ok_or(ConfigError::Value(key))
}

// The mode that a word names.
fn mode_named(word: &[u8], control_port: u16) -> Option<ListenerMode>
    ensures { result ≡ mode_named control_port word.now }
{
    if word == b"pooled".as_slice() {
        Some(ListenerMode::Pooled)
    } else if word == b"legacy".as_slice() {
        Some(ListenerMode::Legacy)
    } else if word == b"proxy".as_slice() {
        Some(ListenerMode::Proxy { control_port })
    } else {
        None
    }
}

// The mode that the table names, or the usual one.
pub(crate) fn mode(table: &Table, control_port: u16) -> Result<ListenerMode, ConfigError>
    ensures written { IfOk result (λ mode. option_and_then (mode_named control_port) (text_or (codes "pooled") (value_at key.Mode (table_view table.now))) ≡ Some mode) }
    ensures refused { IfErr result (IsFaultIn (table_view table.now)) }
{
    let Some(value) = at(table, Key::Mode) else {
        return Ok(ListenerMode::Pooled);
    };
    let Some(word) = value.as_str() else {
        return Err(ConfigError::Value(Key::Mode));
    };
    mode_named(word.as_bytes(), control_port).ok_or(ConfigError::Value(Key::Mode))
}

// What a word says that failed logins are counted by.
fn block_named(word: &[u8]) -> Option<Option<FailedLoginsBlock>>
    ensures { result ≡ block_named word.now }
{
    if word == b"ip".as_slice() {
        Some(Some(FailedLoginsBlock::IP))
    } else if word == b"user".as_slice() {
        Some(Some(FailedLoginsBlock::User))
    } else if word == b"both".as_slice() {
        Some(Some(FailedLoginsBlock::UserAndIP))
    } else if word == b"off".as_slice() {
        Some(None)
    } else {
        None
    }
}

// What failed logins are counted by.
pub(crate) fn lockout(table: &Table) -> Result<Option<FailedLoginsBlock>, ConfigError>
    ensures written { IfOk result (λ block. option_and_then block_named (text_or (codes "ip") (value_at key.Lockout (table_view table.now))) ≡ Some block) }
    ensures refused { IfErr result (IsFaultIn (table_view table.now)) }
{
    let Some(value) = at(table, Key::Lockout) else {
        return Ok(Some(FailedLoginsBlock::IP));
    };
    let Some(word) = value.as_str() else {
        return Err(ConfigError::Value(Key::Lockout));
    };
    block_named(word.as_bytes()).ok_or(ConfigError::Value(Key::Lockout))
}

// The text at the key that has no default.
pub(crate) fn users_file(alloc: Global, table: &Table) -> Result<Bytes, ConfigError>
    ensures written { IfOk result (λ text. option_and_then as_str (value_at key.UsersFile (table_view table.now)) ≡ Some text) }
    ensures refused { IfErr result (IsFaultIn (table_view table.now)) }
{
    let Some(text) = at(table, Key::UsersFile).and_then(Value::as_str) else {
        return Err(ConfigError::Value(Key::UsersFile));
    };
    Ok(Bytes::from_slice(alloc, text.as_bytes())?)
}
