//! The options of a gateway.

ghost use Rattle.std.specs.Prelude.{◌≡◌, ◌≤◌, ◌<◌, true, false, IfOk, IsErrOf, OnOk};
ghost use Rattle.ftp_options.specs.Builder.{settings_of};
ghost use Rattle.ftp_options.specs.Modes.{is_proxy};
ghost use Rattle.ftp_gateway.specs.Sets.{AreSettingsOf, commands_of, lockout_of, HasHost};

use ftp_base::Bytes;
use ftp_config::GatewayConfig;
use ftp_options::{
    ActivePassiveMode, FailedLoginsPolicy, ListenerMode, Options, PassiveHost, ServerBuilder,
    ServerError,
};
use std::alloc::{AllocError, Global};

// Which commands open data connections.
fn commands(port_enable: bool) -> ActivePassiveMode
    ensures { result ≡ commands_of port_enable }
{
    if port_enable {
        ActivePassiveMode::ActiveAndPassive
    } else {
        ActivePassiveMode::PassiveOnly
    }
}

// When failed logins lock.
fn lockout(config: &GatewayConfig) -> Option<FailedLoginsPolicy>
    ensures { result ≡ lockout_of config.now }
{
    let block = config.lockout?;
    let forget = u64::from(config.lockout_forget) * 1000;
    Some(FailedLoginsPolicy::new(config.lockout_failures, forget, block))
}

// What a 227 shows.
fn host(alloc: Global, address: &Option<Bytes>) -> Result<PassiveHost, AllocError>
    ensures { IfOk result (HasHost address.now) }
{
    match address {
        Some(text) => Ok(PassiveHost::parse(text.copy(alloc)?)),
        None => Ok(PassiveHost::FromConnection),
    }
}

/// The options of a configuration.
///
/// # Proved
///
/// - They are what the configuration says, and else the defaults (`built`; `AreSettingsOf` in `ftp_gateway/specs/Sets.antt`).
/// - A range of passive ports is refused where it is empty, and only then (`empty_range`, `range`).
pub fn options(alloc: Global, config: &GatewayConfig) -> Result<Options, ServerError>
    ensures built { IfOk result (λ options. AreSettingsOf config.now (settings_of options)) }
    ensures empty_range { IsErrOf result ServerError.EmptyRange → config.now.pasv_max_port < config.now.pasv_min_port }
    ensures range { OnOk result (config.now.pasv_min_port ≤ config.now.pasv_max_port) }
{
    let (Ok(host), Ok(banner)) = (host(alloc, &config.pasv_address), config.banner.copy(alloc))
    else {
        return Err(ServerError::OutOfMemory);
    };
    let mut builder = ServerBuilder::new(alloc);
    match config.mode {
        ListenerMode::Legacy => {}
        ListenerMode::Pooled => builder.pooled_listener_mode(),
        ListenerMode::Proxy { control_port } => builder.proxy_protocol_mode(control_port),
    }
    builder.passive_ports(config.pasv_min_port, config.pasv_max_port);
    builder.passive_host(host);
    builder.active_passive_mode(commands(config.port_enable));
    builder.greeting(banner);
    builder.idle_session_timeout(u64::from(config.idle_session_timeout));
    if let Some(policy) = lockout(config) {
        builder.failed_logins_policy(policy);
    }
    if config.metrics_file.is_some() {
        builder.metrics();
    }
    match builder.build() {
        Ok(built) => Ok(built.options),
        Err(error) => Err(error),
    }
}

/// Whether TLS can end where a configuration says: at a proxy before the gateway, or nowhere.
pub fn can_end_tls(config: &GatewayConfig) -> bool
    ensures proxy { config.now.tls_at_proxy ≡ true → result ≡ is_proxy config.now.mode }
    ensures nowhere { config.now.tls_at_proxy ≡ false → result ≡ true }
{
    !config.tls_at_proxy || config.mode.is_proxy()
}
