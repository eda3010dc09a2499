//! What a configuration file says.

ghost use Rattle.std.specs.Prelude.{◌≡◌, Some, true, IfOk, IfErr};
ghost use Rattle.toml.specs.Data.{Members};
ghost use Rattle.toml.specs.Parse.{parse_document};
ghost use Rattle.toml.specs.View.{table_view};
ghost use Rattle.ftp_config.specs.Config.{has_known_keys, IsConfigOf, IsFaultIn, IsFaultOf};

use crate::error::ConfigError;
use crate::key::Key;
use crate::value::{
    check_keys, flag, lockout, maybe_text_at, mode, number, port, text_at, users_file,
};
use ftp_base::Bytes;
use ftp_options::{FailedLoginsBlock, ListenerMode};
use std::alloc::Global;
use toml::Table;

const MOST: u32 = u32::MAX;

/// What a configuration file says, with the usual value where it says nothing.
#[derive(Drop)]
pub struct GatewayConfig {
    pub users_file: Bytes,
    pub listen: Bytes,
    pub mode: ListenerMode,
    pub proxy_control_port: u16,
    /// Whether the proxy ends TLS for its clients.
    pub tls_at_proxy: bool,
    pub pasv_min_port: u16,
    pub pasv_max_port: u16,
    pub pasv_address: Option<Bytes>,
    pub port_enable: bool,
    pub banner: Bytes,
    /// In seconds, as all times here.
    pub idle_session_timeout: u32,
    pub shutdown_grace: u32,
    pub max_clients: u32,
    pub max_per_ip: u32,
    pub lockout: Option<FailedLoginsBlock>,
    pub lockout_failures: u32,
    pub lockout_forget: u32,
    /// Whether an upload takes its place only once it came whole.
    pub whole_uploads: bool,
    /// Where transfers are told in xferlog's form.
    pub xferlog_file: Option<Bytes>,
    /// Where all that is told of sessions stands.
    pub log_file: Option<Bytes>,
    /// Where the counters stand, as Prometheus reads them.
    pub metrics_file: Option<Bytes>,
    pub control_socket: Option<Bytes>,
}

// What a table says, of which each key is known.
fn config_in(alloc: Global, table: &Table) -> Result<GatewayConfig, ConfigError>
    ensures said { IfOk result (IsConfigOf (table_view table.now)) }
    ensures refused { IfErr result (IsFaultIn (table_view table.now)) }
{
    let proxy_control_port = port(table, Key::ProxyControlPort, 21)?;
    // The texts come last, so that an error behind them has few of them to let go.
    Ok(GatewayConfig {
        mode: mode(table, proxy_control_port)?,
        proxy_control_port,
        tls_at_proxy: flag(table, Key::TlsAtProxy, false)?,
        pasv_min_port: port(table, Key::PasvMinPort, 20_000)?,
        pasv_max_port: port(table, Key::PasvMaxPort, 20_099)?,
        port_enable: flag(table, Key::PortEnable, false)?,
        idle_session_timeout: number(table, Key::IdleSessionTimeout, 1, MOST, 600)?,
        shutdown_grace: number(table, Key::ShutdownGrace, 1, MOST, 30)?,
        max_clients: number(table, Key::MaxClients, 1, MOST, 500)?,
        max_per_ip: number(table, Key::MaxPerIp, 1, MOST, 20)?,
        lockout: lockout(table)?,
        lockout_failures: number(table, Key::LockoutFailures, 1, MOST, 5)?,
        lockout_forget: number(table, Key::LockoutForget, 1, MOST, 600)?,
        whole_uploads: flag(table, Key::WholeUploads, false)?,
        users_file: users_file(alloc, table)?,
        listen: text_at(alloc, table, Key::Listen, b"0.0.0.0:21")?,
        banner: text_at(alloc, table, Key::Banner, b"FTP")?,
        pasv_address: maybe_text_at(alloc, table, Key::PasvAddress)?,
        xferlog_file: maybe_text_at(alloc, table, Key::XferlogFile)?,
        log_file: maybe_text_at(alloc, table, Key::LogFile)?,
        metrics_file: maybe_text_at(alloc, table, Key::MetricsFile)?,
        control_socket: maybe_text_at(alloc, table, Key::ControlSocket)?,
    })
}

/// Reads a configuration file.
///
/// # Proved
///
/// - What is read is what the text says as TOML, with the usual value at each key that it lacks; no key is unknown (`said`).
/// - A text is refused only for what it has: where it is no TOML, has an unknown key, or has at the key that is told a
///   value that the key does not take (`refused`; `IsFaultOf`, `takes_value` in `ftp_config/specs/Config.antt`).
pub fn read_config(alloc: Global, text: &str) -> Result<GatewayConfig, ConfigError>
    ensures said { IfOk result (λ config. (document : Members) × (parse_document text.now ≡ Some document) × (has_known_keys document ≡ true) × IsConfigOf document config) }
    ensures refused { IfErr result (IsFaultOf text.now) }
{
    let table = match toml::table_from_str(alloc, text) {
        Ok(table) => table,
        Err(e) if e.is_memory() => return Err(ConfigError::OutOfMemory),
        Err(e) => return Err(ConfigError::Syntax(e)),
    };
    check_keys(alloc, &table)?;
    config_in(alloc, &table)
}
