//! The options that an options line asks for.

ghost use Rattle.std.specs.Prelude.{◌≡◌, ◌*◌, None, Some};
ghost use Rattle.std.specs.Option.{option_or};
ghost use Rattle.ftp_options.specs.Builder.{refusal, settings_of};
ghost use Rattle.ftp_text.specs.Setup.{IsItem};
ghost use Rattle.ftp_text.specs.Settings.{settings_in, restart_features};

use crate::setup::Item;
use ftp_base::FEATURE_RESTART;
use ftp_options::{
    ActivePassiveMode, FailedLoginsPolicy, ListenerMode, Options, PassiveHost, ServerBuilder,
};
use std::alloc::Global;

/// The options that are in force where no line says otherwise.
pub fn default_options(alloc: Global) -> Options
    ensures { settings_of result ≡ settings_in None }
{
    built(ServerBuilder::new(alloc))
}

/// The options that the item asks for.
pub fn options_in(alloc: Global, item: Item) -> Options
    requires { IsItem item }
    ensures { settings_of result ≡ settings_in (Some item) }
{
    match item {
        Item::Options {
            mode,
            lo,
            hi,
            host,
            active,
            idle,
            lockout,
            restart,
        } => {
            let mut builder = ServerBuilder::new(alloc);
            set_listening(&mut builder, mode, lo, hi);
            set_rules(&mut builder, host, active, idle, lockout, restart);
            built(builder)
        }
        other => {
            drop(other);
            default_options(alloc)
        }
    }
}

// The options that the builder gives.
fn built(builder: ServerBuilder) -> Options
    requires { refusal builder ≡ None }
    ensures { settings_of result ≡ builder.settings }
{
    match builder.build() {
        Ok(built) => built.options,
        Err(_) => unreachable!(),
    }
}

// Sets who listens, on a builder on which no mode was set.
fn set_listening(builder: &mut ServerBuilder, mode: ListenerMode, lo: u16, hi: u16)
    requires { builder.old.settings.mode ≡ ListenerMode.Legacy }
    ensures { builder.new ≡ record builder.old { settings = record builder.old.settings { mode = mode; lo = lo; hi = hi } } }
{
    match mode {
        ListenerMode::Legacy => {}
        ListenerMode::Pooled => builder.pooled_listener_mode(),
        ListenerMode::Proxy { control_port } => builder.proxy_protocol_mode(control_port),
    }
    builder.passive_ports(lo, hi);
}

// Sets what else the sessions go by. The idle time is in seconds.
fn set_rules(
    builder: &mut ServerBuilder,
    host: PassiveHost,
    active: ActivePassiveMode,
    idle: u32,
    lockout: Option<FailedLoginsPolicy>,
    restart: bool,
)
    ensures { builder.new ≡ record builder.old {
      settings = record builder.old.settings {
        host = host;
        active_passive = active;
        idle_ms = idle * 1000;
        lockout = option_or lockout builder.old.settings.lockout;
        features = restart_features restart;
      };
    } }
{
    builder.passive_host(host);
    builder.active_passive_mode(active);
    builder.idle_session_timeout(u64::from(idle));
    if let Some(policy) = lockout {
        builder.failed_logins_policy(policy);
    }
    builder.storage_features(features(restart));
}

// What the storage can do, where transfers can begin at a restart offset or not.
fn features(restart: bool) -> u32
    ensures { result ≡ restart_features restart }
{
    if restart { FEATURE_RESTART } else { 0 }
}
