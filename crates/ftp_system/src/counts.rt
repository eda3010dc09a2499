//! How many sessions there are, of each client address and in all.

ghost use Rattle.std.specs.Prelude.{◌≡◌, ◌≢◌, ◌+◌, ◌-◌, ℕ, nat_lt, ◌&&◌, true, Ok, IfOk};
ghost use Rattle.ftp_system.specs.Counts.{OthersStay, count_at};

use std::alloc::{AllocError, Global};
use std::collections::BTreeMap;

/// How many sessions there may be at a time.
#[derive(Clone, Copy, Debug, PartialEq, Eq)]
pub struct SessionLimits {
    pub all: u64,
    /// Of one client address.
    pub of_one: u64,
}

/// How many sessions there are of each client address, which is told as a number, and in all.
#[derive(Drop)]
pub struct SessionCounts {
    counts: BTreeMap<u128, u64>,
    all: u64,
}

impl SessionCounts {
    /// There is no session.
    ///
    /// # Proved
    ///
    /// - A session is admitted exactly where there are fewer in all and fewer of its client than the limits say, and is
    ///   counted then, once; other clients stay (`count_at` in `ftp_system/specs/Counts.antt`) (`all`, `none`; also
    ///   `SessionCounts::admit`: `admits`, `all`, `own`, `others`, `unchanged`; `SessionCounts::leave`: `all`, `own`,
    ///   `others`).
    pub fn new(alloc: Global) -> SessionCounts
        ensures all { result.all ≡ 0 }
        ensures none { (address : ℕ) → count_at result address ≡ 0 }
    {
        SessionCounts {
            counts: BTreeMap::new(alloc),
            all: 0,
        }
    }

    // How many sessions there are of an address.
    fn of(&self, address: u128) -> u64
        ensures { result ≡ count_at self.now address }
    {
        match self.counts.get(&address) {
            Some(count) => *count,
            None => 0,
        }
    }

    /// Counts one more session of an address, and says whether the limits admit it.
    pub fn admit(&mut self, address: u128, limits: SessionLimits) -> Result<bool, AllocError>
        ensures admits { IfOk result (λ is_admitted. is_admitted ≡ (nat_lt self.old.all limits.all && nat_lt (count_at self.old address) limits.of_one)) }
        ensures all { result ≡ Ok true → self.new.all ≡ self.old.all + 1 }
        ensures own { result ≡ Ok true → count_at self.new address ≡ count_at self.old address + 1 }
        ensures others { OthersStay address self.old self.new }
        ensures unchanged { result ≢ Ok true → (self.new.all ≡ self.old.all) × (count_at self.new address ≡ count_at self.old address) }
    {
        let own = self.of(address);
        if self.all >= limits.all || own >= limits.of_one {
            return Ok(false);
        }
        self.counts.insert(address, own + 1)?;
        self.all += 1;
        Ok(true)
    }

    /// A session of an address that was counted has ended.
    pub fn leave(&mut self, address: u128)
        ensures all { self.new.all ≡ self.old.all - 1 }
        ensures own { count_at self.new address ≡ count_at self.old address - 1 }
        ensures others { OthersStay address self.old self.new }
    {
        let own = self.of(address);
        if own <= 1 {
            self.counts.remove(&address);
        } else if let Some(count) = self.counts.get_mut(&address) {
            *count = own - 1;
        }
        self.all = self.all.saturating_sub(1);
    }
}
