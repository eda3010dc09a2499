//! The address that a passive reply advertises.

ghost use Rattle.std.specs.Prelude.{◌≡◌, IfOk};
ghost use Rattle.ftp_options.specs.Host.{IsHostOf, lacks_lookup};

use ftp_base::Bytes;
use std::alloc::{AllocError, Global};
use std::net::Ipv4Addr;

/// Which address a passive reply advertises.
#[derive(Clone, Debug, PartialEq, Eq, Drop)]
pub enum PassiveHost {
    /// The address that the control connection came to.
    FromConnection,
    /// This IPv4 address, as one number in network order.
    Ip(u32),
    /// The address that this name has when the reply is made.
    Dns(Bytes),
}

impl PassiveHost {
    /// The host that a text names: a dotted IPv4 address, else a name to look up.
    ///
    /// # Proved
    ///
    /// - A text is the host of its dotted address, and else a name.
    pub fn parse(text: Bytes) -> PassiveHost
        ensures { IsHostOf text result }
    {
        match Ipv4Addr::parse_ascii(text.as_slice()) {
            Ok(ip) => PassiveHost::Ip(ip.to_bits()),
            Err(_) => PassiveHost::Dns(text),
        }
    }

    /// Says whether the host is a name, and its look-up gave no address.
    pub fn lacks_lookup(&self, lookup: Option<u32>) -> bool
        ensures { result ≡ lacks_lookup self.now lookup }
    {
        matches!(self, PassiveHost::Dns(_)) && lookup.is_none()
    }

    /// Gives an equal host.
    pub fn copy(&self, _alloc: Global) -> Result<PassiveHost, AllocError>
        ensures { IfOk result (λ copy. copy ≡ self.now) }
    {
        self.clone()
    }
}
