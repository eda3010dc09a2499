//! The keys of a configuration file. Where vsftpd has a key for the same, it has the same name.

ghost use Rattle.std.specs.Prelude.{◌≡◌};
ghost use Rattle.ftp_config.specs.Keys.{key_name, config_key};

/// A key of a configuration file.
#[derive(Clone, Copy, Debug, PartialEq, Eq)]
pub enum Key {
    /// The file of users.
    UsersFile,
    /// Where control connections are accepted: an address with a port.
    Listen,
    /// Who listens for data connections: `pooled`, `legacy` or `proxy`.
    Mode,
    /// The control port of the proxy, where the mode is `proxy`.
    ProxyControlPort,
    /// Whether the proxy ends TLS for its clients, where the mode is `proxy`.
    TlsAtProxy,
    PasvMinPort,
    PasvMaxPort,
    /// What a 227 shows: an address of IP version 4, or a name; without it the address that the client connected to.
    PasvAddress,
    /// Whether PORT is taken.
    PortEnable,
    Banner,
    /// In seconds.
    IdleSessionTimeout,
    /// For how many seconds a shutdown waits for transfers.
    ShutdownGrace,
    MaxClients,
    MaxPerIp,
    /// What failed logins are counted by: `ip`, `user`, `both` or `off`.
    Lockout,
    /// How many failed logins lock.
    LockoutFailures,
    /// For how many seconds a failed login counts.
    LockoutForget,
    /// Whether an upload takes its place only once it came whole.
    WholeUploads,
    /// The log of transfers in xferlog's form.
    XferlogFile,
    /// The log of sessions, logins and transfers.
    LogFile,
    /// The file of the counters, as Prometheus reads them.
    MetricsFile,
    /// The socket by which a running gateway is told to stop or to reload.
    ControlSocket,
}

const KEYS: [Key; 22] = [
    Key::UsersFile,
    Key::Listen,
    Key::Mode,
    Key::ProxyControlPort,
    Key::TlsAtProxy,
    Key::PasvMinPort,
    Key::PasvMaxPort,
    Key::PasvAddress,
    Key::PortEnable,
    Key::Banner,
    Key::IdleSessionTimeout,
    Key::ShutdownGrace,
    Key::MaxClients,
    Key::MaxPerIp,
    Key::Lockout,
    Key::LockoutFailures,
    Key::LockoutForget,
    Key::WholeUploads,
    Key::XferlogFile,
    Key::LogFile,
    Key::MetricsFile,
    Key::ControlSocket,
];

/// How a key is written.
pub fn key_name(key: Key) -> &'static str
    ensures { result.now ≡ key_name key }
{
    match key {
        Key::UsersFile => "users_file",
        Key::Listen => "listen",
        Key::Mode => "mode",
        Key::ProxyControlPort => "proxy_control_port",
        Key::TlsAtProxy => "tls_at_proxy",
        Key::PasvMinPort => "pasv_min_port",
        Key::PasvMaxPort => "pasv_max_port",
        Key::PasvAddress => "pasv_address",
        Key::PortEnable => "port_enable",
        Key::Banner => "ftpd_banner",
        Key::IdleSessionTimeout => "idle_session_timeout",
        Key::ShutdownGrace => "shutdown_grace",
        Key::MaxClients => "max_clients",
        Key::MaxPerIp => "max_per_ip",
        Key::Lockout => "lockout",
        Key::LockoutFailures => "lockout_failures",
        Key::LockoutForget => "lockout_forget",
        Key::WholeUploads => "whole_uploads",
        Key::XferlogFile => "xferlog_file",
        Key::LogFile => "log_file",
        Key::MetricsFile => "metrics_file",
        Key::ControlSocket => "control_socket",
    }
}

/// The key that is written so.
///
/// # Proved
///
/// - A key is found by its whole name, and by no other (`key_name`, `config_key` in `ftp_config/specs/Keys.antt`).
pub fn config_key(name: &str) -> Option<Key>
    ensures { result ≡ config_key name.now }
{
    KEYS.iter().copied().find(|key| key_name(*key) == name)
}
