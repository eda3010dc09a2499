//! The builder of a server's options.

ghost use Rattle.std.specs.Prelude.{◌≡◌, ◌*◌, ◌-◌, ◌^◌, ◌↔◌, min, true, [], None, Some, IfOk, IsOk, OnOk, OnErr, IsErrOf};
ghost use Rattle.ftp_options.specs.Builder.{defaults, draft_of, refusal, settings_of};
ghost use Rattle.ftp_options.specs.Site.{fault_of, registered, provided, FindsOneMore};

use crate::error::{ConfigFault, ServerError};
use crate::ftps::{FtpsRequired, TlsFlags};
use crate::host::PassiveHost;
use crate::lockout::FailedLoginsPolicy;
use crate::options::{ActivePassiveMode, ListenerMode, Options, SiteMd5};
use crate::site::{Handler, SiteHandlers, is_md5, is_name, upper};
use ftp_base::{Bytes, FEATURE_RESTART};
use std::alloc::{AllocError, Global};
use std::marker::Model;

/// The first passive port and the last of a builder on which none were set.
const PASSIVE_PORTS: (u16, u16) = (49152, 65535);

/// The idle time of a builder on which none was set, in milliseconds.
const IDLE_MS: u64 = 600_000;

/// What a server is built from, with handlers of the type `H`.
///
/// A setter may be called again: the last value counts.
#[derive(Drop)]
pub struct ServerBuilder<H = Handler> {
    mode: ListenerMode,
    lo: u16,
    hi: u16,
    host: PassiveHost,
    active_passive: ActivePassiveMode,
    idle_ms: u64,
    lockout: Option<FailedLoginsPolicy>,
    features: u32,
    site_md5: SiteMd5,
    tls_flags: TlsFlags,
    collect_metrics: bool,
    greeting: Option<Bytes>,
    ftps_control: FtpsRequired,
    ftps_data: FtpsRequired,
    fault: Option<ConfigFault>,
    handlers: SiteHandlers<H>,
    alloc: Global,
}

impl<H> Model for ServerBuilder<H> {
    ghost use Rattle.ftp_options.specs.Settings.{Draft};

    ghost Value = { Draft H };

    ghost view = { λ b. record {
      settings = record {
        mode = b.mode;
        lo = b.lo;
        hi = b.hi;
        host = b.host;
        active_passive = b.active_passive;
        idle_ms = b.idle_ms;
        lockout = b.lockout;
        features = b.features;
        site_md5 = b.site_md5;
        tls_flags = b.tls_flags;
        collect_metrics = b.collect_metrics;
        greeting = b.greeting;
      };
      ftps_control = b.ftps_control;
      ftps_data = b.ftps_data;
      fault = b.fault;
      handlers = b.handlers;
    } };
}

/// What was built.
#[derive(Drop)]
pub struct Built<H = Handler> {
    pub options: Options,
    pub handlers: SiteHandlers<H>,
}

impl ServerBuilder {
    /// Legacy mode, the passive ports 49152 to 65535, an idle time of ten minutes, and a storage that can restart.
    ///
    /// # Proved
    ///
    /// - A new builder has the defaults: legacy mode, ports 49152 to 65535, the address of the control connection,
    ///   passive mode alone, ten minutes, no lockout, a storage that can restart.
    pub fn new(alloc: Global) -> ServerBuilder
        ensures { result ≡ draft_of defaults [] }
    {
        ServerBuilder {
            mode: ListenerMode::Legacy,
            lo: PASSIVE_PORTS.0,
            hi: PASSIVE_PORTS.1,
            host: PassiveHost::FromConnection,
            active_passive: ActivePassiveMode::PassiveOnly,
            idle_ms: IDLE_MS,
            lockout: None,
            features: FEATURE_RESTART,
            site_md5: SiteMd5::Accounts,
            tls_flags: TlsFlags::default(),
            collect_metrics: false,
            greeting: None,
            ftps_control: FtpsRequired::None,
            ftps_data: FtpsRequired::None,
            fault: None,
            handlers: SiteHandlers::new(alloc),
            alloc,
        }
    }
}

impl<H: Drop> ServerBuilder<H> {
    /// Which commands open data connections.
    pub fn active_passive_mode(&mut self, m: ActivePassiveMode)
        ensures { self.new ≡ record self.old { settings = record self.old.settings { active_passive = m } } }
    {
        self.active_passive = m;
    }

    /// What a new control connection is greeted with.
    pub fn greeting(&mut self, b: Bytes)
        ensures { self.new ≡ record self.old { settings = record self.old.settings { greeting = Some b } } }
    {
        self.greeting = Some(b);
    }

    /// The idle time in seconds; above the largest count of milliseconds it is that one.
    pub fn idle_session_timeout(&mut self, secs: u64)
        ensures { self.new ≡ record self.old { settings = record self.old.settings { idle_ms = min (secs * 1000) (2 ^ 64 - 1) } } }
    {
        self.idle_ms = secs.saturating_mul(1000);
    }

    /// Entries are counted.
    pub fn metrics(&mut self)
        ensures { self.new ≡ record self.old { settings = record self.old.settings { collect_metrics = true } } }
    {
        self.collect_metrics = true;
    }

    /// Which address a passive reply advertises.
    pub fn passive_host(&mut self, h: PassiveHost)
        ensures { self.new ≡ record self.old { settings = record self.old.settings { host = h } } }
    {
        self.host = h;
    }

    /// The passive ports, both included.
    pub fn passive_ports(&mut self, lo: u16, hi: u16)
        ensures { self.new ≡ record self.old { settings = record self.old.settings { lo = lo; hi = hi } } }
    {
        self.lo = lo;
        self.hi = hi;
    }

    /// Sessions share the listeners of the passive ports.
    ///
    /// # Proved
    ///
    /// - Each setter sets its value and nothing else; the idle time is in seconds, and stands still at the largest
    ///   count of milliseconds (also `ServerBuilder::proxy_protocol_mode`; `ServerBuilder::passive_ports`;
    ///   `ServerBuilder::passive_host`; `ServerBuilder::active_passive_mode`; `ServerBuilder::idle_session_timeout`;
    ///   `ServerBuilder::failed_logins_policy`; `ServerBuilder::storage_features`; `ServerBuilder::greeting`;
    ///   `ServerBuilder::metrics`; `ServerBuilder::sitemd5`; `ServerBuilder::ftps_required`;
    ///   `ServerBuilder::ftps_tls_flags`).
    pub fn pooled_listener_mode(&mut self)
        ensures { self.new ≡ record self.old { settings = record self.old.settings { mode = ListenerMode.Pooled } } }
    {
        self.mode = ListenerMode::Pooled;
    }

    /// Connections come through a proxy; those that it took at its own port `external_control_port` open sessions.
    pub fn proxy_protocol_mode(&mut self, external_control_port: u16)
        ensures { self.new ≡ record self.old { settings = record self.old.settings { mode = ListenerMode.Proxy external_control_port } } }
    {
        self.mode = ListenerMode::Proxy {
            control_port: external_control_port,
        };
    }

    /// Who may ask for the MD5 digest of a file.
    pub fn sitemd5(&mut self, m: SiteMd5)
        ensures { self.new ≡ record self.old { settings = record self.old.settings { site_md5 = m } } }
    {
        self.site_md5 = m;
    }

    /// When failed logins lock a name or an address.
    pub fn failed_logins_policy(&mut self, p: FailedLoginsPolicy)
        ensures { self.new ≡ record self.old { settings = record self.old.settings { lockout = Some p } } }
    {
        self.lockout = Some(p);
    }

    /// Who has to use FTPS on the control connection, and on data connections.
    pub fn ftps_required(&mut self, control: FtpsRequired, datachan: FtpsRequired)
        ensures { self.new ≡ record self.old { ftps_control = control; ftps_data = datachan } }
    {
        self.ftps_control = control;
        self.ftps_data = datachan;
    }

    /// The versions of TLS, and the ways to resume a session.
    pub fn ftps_tls_flags(&mut self, f: TlsFlags)
        ensures { self.new ≡ record self.old { settings = record self.old.settings { tls_flags = f } } }
    {
        self.tls_flags = f;
    }

    /// What the storage can do: the sum of the `FEATURE_` constants.
    pub fn storage_features(&mut self, features: u32)
        ensures { self.new ≡ record self.old { settings = record self.old.settings { features = features } } }
    {
        self.features = features;
    }

    /// Users have details that a provider gives. It comes before all names: those that are registered are forgotten.
    ///
    /// # Proved
    ///
    /// - A provider of user details behind a name that is registered is a fault, and forgets the names.
    pub fn user_detail_provider(&mut self)
        ensures { self.new ≡ provided self.old }
    {
        if self.handlers.is_empty() {
            return;
        }
        self.handlers = SiteHandlers::new(self.alloc);
        if self.fault.is_none() {
            self.fault = Some(ConfigFault::ProviderAfterSite);
        }
    }

    /// Registers a handler of a SITE command, under its name in upper case. The first fault of all calls is kept, and
    /// then no handler is registered.
    ///
    /// # Proved
    ///
    /// - A handler is registered under its name in upper case, and is found under it in any case, and every other one
    ///   as before, while there is no fault; the first fault of all calls is kept, and nothing is registered after it:
    ///   a name that is none, then `MD5`, then a name that is there (`fault_of` in `ftp_options/specs/Site.antt`)
    ///   (`registered`, `found`, `unchanged`).
    pub fn site_command(&mut self, name: &[u8], handler: H) -> Result<(), AllocError>
        ensures registered { OnOk result (self.new ≡ registered name.now handler self.old) }
        ensures found { OnOk result (self.new.fault ≡ None → FindsOneMore name.now handler self.old.handlers self.new.handlers) }
        ensures unchanged { OnErr result (self.new ≡ self.old) }
    {
        if self.fault.is_some() {
            return Ok(());
        }
        if let Some(fault) = self.fault_of(name)? {
            self.fault = Some(fault);
            return Ok(());
        }
        self.handlers.insert(self.alloc, name, handler)
    }

    // What is wrong with a registration under the name.
    fn fault_of(&self, name: &[u8]) -> Result<Option<ConfigFault>, AllocError>
        ensures { IfOk result (λ fault. fault ≡ fault_of self.now.handlers name.now) }
    {
        if !is_name(name) {
            return Ok(Some(ConfigFault::InvalidName(Bytes::from_slice(self.alloc, name)?)));
        }
        if is_md5(name) {
            return Ok(Some(ConfigFault::Md5));
        }
        if self.handlers.find(name).is_some() {
            return Ok(Some(ConfigFault::Duplicate(upper(self.alloc, name)?)));
        }
        Ok(None)
    }

    /// The options that were set, or the first reason why they are not lawful.
    ///
    /// # Proved
    ///
    /// - Options are built as set, with the handlers, exactly where nothing speaks against it; else the first refusal
    ///   in order comes, each exactly where it is the first: a fault of the registrations, an empty range, port 0
    ///   outside legacy mode, FTPS that is required of somebody (`refusal` in `ftp_options/specs/Builder.antt`)
    ///   (`built`, `ok`, `configuration`, `empty_range`, `port_zero`, `ftps_required`).
    pub fn build(mut self) -> Result<Built<H>, ServerError>
        ensures built { IfOk result (λ built. draft_of (settings_of built.options) built.handlers ≡ self) }
        ensures ok { IsOk result ↔ (refusal self ≡ None) }

        // The first of these that applies, in this order.
        ensures configuration { (fault : ConfigFault) → IsErrOf result (ServerError.Configuration fault) ↔ (refusal self ≡ Some (ServerError.Configuration fault)) }
        ensures empty_range { IsErrOf result ServerError.EmptyRange ↔ (refusal self ≡ Some ServerError.EmptyRange) }
        ensures port_zero { IsErrOf result ServerError.PortZero ↔ (refusal self ≡ Some ServerError.PortZero) }
        ensures ftps_required { IsErrOf result ServerError.FtpsRequired ↔ (refusal self ≡ Some ServerError.FtpsRequired) }
    {
        if let Some(fault) = self.fault.take() {
            return Err(ServerError::Configuration(fault));
        }
        if self.lo > self.hi {
            return Err(ServerError::EmptyRange);
        }
        if self.lo == 0 && !self.mode.is_legacy() {
            return Err(ServerError::PortZero);
        }
        if self.ftps_control.is_enforced() || self.ftps_data.is_enforced() {
            return Err(ServerError::FtpsRequired);
        }
        let options = Options {
            mode: self.mode,
            lo: self.lo,
            hi: self.hi,
            host: self.host,
            active_passive: self.active_passive,
            idle_ms: self.idle_ms,
            lockout: self.lockout,
            features: self.features,
            site_md5: self.site_md5,
            tls_flags: self.tls_flags,
            collect_metrics: self.collect_metrics,
            greeting: self.greeting,
        };
        Ok(Built {
            options,
            handlers: self.handlers,
        })
    }
}
