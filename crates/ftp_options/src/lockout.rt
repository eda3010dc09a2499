//! When failed logins lock a key, and for how long.

ghost use Rattle.std.specs.Prelude.{◌≡◌};

/// What failed logins are counted by.
#[derive(Clone, Copy, Debug, PartialEq, Eq)]
pub enum FailedLoginsBlock {
    /// The name from that address.
    UserAndIP,
    /// The address, whatever the name.
    IP,
    /// The name, whatever the address.
    User,
}

/// How many failed logins lock a key, and after how many milliseconds they count no more.
#[derive(Clone, Copy, Debug, PartialEq, Eq)]
pub struct FailedLoginsPolicy {
    pub max_attempts: u32,
    pub expires_after_ms: u64,
    pub block_by: FailedLoginsBlock,
}

impl FailedLoginsPolicy {
    /// # Proved
    ///
    /// - A policy on failed logins is what it is made of; so are a shutdown, and what is made of a yes or no
    ///   (`attempts`, `expiry`, `block`; also `Shutdown::new`; `Shutdown::grace_period`; `FtpsRequired::from_bool`;
    ///   `FtpsClientAuth::from_bool`).
    pub fn new(
        max_attempts: u32,
        expires_after_ms: u64,
        block_by: FailedLoginsBlock,
    ) -> FailedLoginsPolicy
        ensures attempts { result.max_attempts ≡ max_attempts }
        ensures expiry { result.expires_after_ms ≡ expires_after_ms }
        ensures block { result.block_by ≡ block_by }
    {
        FailedLoginsPolicy {
            max_attempts,
            expires_after_ms,
            block_by,
        }
    }
}

impl Default for FailedLoginsPolicy {
    ghost use Rattle.ftp_options.specs.declared.lockout.FailedLoginsBlock.TheVariants.{UserAndIP};

    ghost is_default = { λ p. p ≡ record { max_attempts = 3; expires_after_ms = 120000; block_by = UserAndIP } };

    /// Three failed logins of a name from an address, within two minutes each.
    fn default() -> FailedLoginsPolicy {
        FailedLoginsPolicy::new(3, 120_000, FailedLoginsBlock::UserAndIP)
    }
}
