//! The options of a server.

ghost use Rattle.std.specs.Prelude.{◌≡◌, ◌≤◌, false, IfOk};
ghost use Rattle.ftp_options.specs.Modes.{is_legacy, is_pooled, is_proxy, is_control_port, is_passive_off, is_active_off};
ghost use Rattle.ftp_options.specs.Features.{has_restart};

use crate::ftps::TlsFlags;
use crate::host::PassiveHost;
use crate::lockout::FailedLoginsPolicy;
use ftp_base::{Bytes, FEATURE_RESTART};
use std::alloc::{AllocError, Global};

/// Who listens for data connections.
#[derive(Clone, Copy, Debug, PartialEq, Eq)]
pub enum ListenerMode {
    /// Each session has a listener of its own.
    Legacy,
    /// All sessions share the listeners of the passive ports.
    Pooled,
    /// All connections come through a proxy, each with a line that tells where from and where to. Those to the
    /// control port open sessions.
    Proxy { control_port: u16 },
}

impl ListenerMode {
    /// # Proved
    ///
    /// - Which mode it is, and whether a port is the control port of the proxy; which commands are off; whether a name
    ///   lacks its lookup (also `ListenerMode::is_pooled`; `ListenerMode::is_proxy`; `ListenerMode::is_control_port`;
    ///   `ActivePassiveMode::is_passive_off`; `ActivePassiveMode::is_active_off`; `PassiveHost::lacks_lookup`).
    pub fn is_legacy(self) -> bool
        ensures { result ≡ is_legacy self }
    {
        matches!(self, ListenerMode::Legacy)
    }

    pub fn is_pooled(self) -> bool
        ensures { result ≡ is_pooled self }
    {
        matches!(self, ListenerMode::Pooled)
    }

    pub fn is_proxy(self) -> bool
        ensures { result ≡ is_proxy self }
    {
        matches!(self, ListenerMode::Proxy { .. })
    }

    /// Says whether connections that a proxy passes on to this port open sessions.
    pub fn is_control_port(self, port: u16) -> bool
        ensures { result ≡ is_control_port self port }
    {
        matches!(self, ListenerMode::Proxy { control_port } if control_port == port)
    }
}

/// Which commands open data connections.
#[derive(Clone, Copy, Debug, PartialEq, Eq)]
pub enum ActivePassiveMode {
    /// The client connects, after a passive command.
    PassiveOnly,
    /// The server connects, after a PORT command.
    ActiveOnly,
    ActiveAndPassive,
}

impl ActivePassiveMode {
    /// Says whether passive commands are refused.
    pub fn is_passive_off(self) -> bool
        ensures { result ≡ is_passive_off self }
    {
        matches!(self, ActivePassiveMode::ActiveOnly)
    }

    /// Says whether PORT commands are refused.
    pub fn is_active_off(self) -> bool
        ensures { result ≡ is_active_off self }
    {
        matches!(self, ActivePassiveMode::PassiveOnly)
    }
}

/// Who may ask for the MD5 digest of a file.
#[derive(Clone, Copy, Debug, PartialEq, Eq)]
pub enum SiteMd5 {
    All,
    /// All users but the anonymous one.
    Accounts,
    None,
}

/// Lawful options: the passive ports are `lo` to `hi`, both included, and 0 is none of them
/// where sessions share the ports.
#[derive(Debug, PartialEq, Eq, Drop)]
pub struct Options {
    pub mode: ListenerMode,
    pub lo: u16,
    pub hi: u16,
    pub host: PassiveHost,
    pub active_passive: ActivePassiveMode,
    /// The idle time of a session, in milliseconds.
    pub idle_ms: u64,
    /// When failed logins lock a name or an address, where they ever do.
    pub lockout: Option<FailedLoginsPolicy>,
    /// What the storage can do: the sum of the `FEATURE_` constants.
    pub features: u32,
    pub site_md5: SiteMd5,
    pub tls_flags: TlsFlags,
    pub collect_metrics: bool,
    /// What a new control connection is greeted with; `None` stands for `Welcome to the libunftp FTP server`.
    pub greeting: Option<Bytes>,
    pub ghost ordered: { lo ≤ hi },
    pub ghost listens: { is_legacy mode ≡ false → 1 ≤ lo },
}

impl Options {
    /// Gives equal options.
    ///
    /// # Proved
    ///
    /// - Copies are equal (also `PassiveHost::copy`).
    pub fn copy(&self, _alloc: Global) -> Result<Options, AllocError>
        ensures { IfOk result (λ copy. copy ≡ self.now) }
    {
        Ok(Options {
            mode: self.mode,
            lo: self.lo,
            hi: self.hi,
            host: self.host.clone()?,
            active_passive: self.active_passive,
            idle_ms: self.idle_ms,
            lockout: self.lockout,
            features: self.features,
            site_md5: self.site_md5,
            tls_flags: self.tls_flags,
            collect_metrics: self.collect_metrics,
            greeting: self.greeting.clone()?,
        })
    }

    /// Transfers can begin at a restart offset.
    ///
    /// # Proved
    ///
    /// - Transfers can begin at a restart offset exactly where the storage has that feature.
    pub fn has_restart(&self) -> bool
        ensures { result ≡ has_restart self.now.features }
    {
        self.features & FEATURE_RESTART == FEATURE_RESTART
    }
}
