//! What is asked for of connections over TLS. Here they are values that are set and kept.

ghost use Rattle.std.specs.Prelude.{⊤, ◌≡◌, [], ◌∷◌, codes, Some};
ghost use Rattle.ftp_options.specs.Ftps.{required_of, client_auth_of, required_text, is_enforced};

use bitflags::{Flag, Flags, bitflag_items};
use std::fmt;

/// Who has to use FTPS.
#[derive(Clone, Copy, Debug, PartialEq, Eq)]
pub enum FtpsRequired {
    All,
    /// All users but the anonymous one.
    Accounts,
    None,
}

impl FtpsRequired {
    /// All for true, nobody for false.
    pub fn from_bool(on: bool) -> FtpsRequired
        ensures { result ≡ required_of on }
    {
        if on {
            FtpsRequired::All
        } else {
            FtpsRequired::None
        }
    }

    /// Says whether anybody has to use FTPS.
    pub fn is_enforced(self) -> bool
        ensures { result ≡ is_enforced self }
    {
        !matches!(self, FtpsRequired::None)
    }
}

impl fmt::Display for FtpsRequired {
    ghost output = { λ required. Some (required_text required) };

    fn fmt<W: fmt::Write>(&self, f: &mut fmt::Formatter<W>) -> fmt::Result {
        match self {
            FtpsRequired::All => write!(f, "All users, including anonymous, requires FTPS"),
            FtpsRequired::Accounts => write!(f, "All non-anonymous users requires FTPS"),
            FtpsRequired::None => write!(f, "FTPS not enforced"),
        }
    }
}

/// Whether a client shows a certificate.
#[derive(Clone, Copy, Debug, PartialEq, Eq)]
pub enum FtpsClientAuth {
    Off,
    /// It is asked for one, and may have none.
    Request,
    Require,
}

impl FtpsClientAuth {
    /// Required for true, off for false.
    pub fn from_bool(on: bool) -> FtpsClientAuth
        ensures { result ≡ client_auth_of on }
    {
        if on {
            FtpsClientAuth::Require
        } else {
            FtpsClientAuth::Off
        }
    }
}

impl Default for FtpsClientAuth {
    ghost use Rattle.ftp_options.specs.declared.ftps.FtpsClientAuth.TheVariants as auth;

    ghost is_default = { λ a. a ≡ auth.Off };

    fn default() -> FtpsClientAuth {
        FtpsClientAuth::Off
    }
}

/// Versions of TLS and ways to resume a session, as a set of bits.
#[derive(Clone, Copy, Debug, PartialEq, Eq, PartialOrd, Ord, Hash)]
pub struct TlsFlags(u32);

bitflag_items! {
    impl TlsFlags: u32 {
        /// TLS 1.2.
        const V1_2 = 1;
        /// TLS 1.3.
        const V1_3 = 2;
        /// Sessions are resumed by their number.
        const RESUMPTION_SESS_ID = 8;
        /// Sessions are resumed by tickets.
        const RESUMPTION_TICKETS = 16;
        const LATEST_VERSIONS = 3;
    }
}

impl Flags for TlsFlags {
    type Bits = u32;

    ghost exact = { ⊤ };

    ghost table = { (codes "V1_2", 1) ∷ (codes "V1_3", 2) ∷ (codes "RESUMPTION_SESS_ID", 8) ∷ (codes "RESUMPTION_TICKETS", 16) ∷ (codes "LATEST_VERSIONS", 3) ∷ [] };

    ghost set_of = { λ f. f.0 };

    fn flags<'a>() -> &'a [Flag<TlsFlags>] {
        TlsFlags::FLAGS
    }

    fn bits(&self) -> u32 {
        self.0
    }

    fn from_bits_retain(bits: u32) -> TlsFlags {
        TlsFlags(bits)
    }
}

impl Default for TlsFlags {
    ghost is_default = { λ f. f.0 ≡ 25 };

    /// TLS 1.2, and both ways to resume a session.
    fn default() -> TlsFlags {
        TlsFlags::V1_2
            .union(TlsFlags::RESUMPTION_SESS_ID)
            .union(TlsFlags::RESUMPTION_TICKETS)
    }
}
