//! A count of looks.

ghost use Rattle.std.specs.Prelude.{◌≡◌, ◌+◌, ◌<◌};

use std::marker::Model;

/// How many words and pairs were looked at.
#[derive(Debug, Drop)]
pub struct Looks {
    count: u64,
}

impl Model for Looks {
    ghost use Rattle.std.specs.Prelude.{ℕ};
    ghost use Rattle.std.specs.Coded.{coded_ℕ};

    ghost Value = { ℕ };

    ghost coded = { coded_ℕ };

    ghost view = { λ l. l.count };
}

impl Looks {
    /// No look yet.
    ///
    /// # Proved
    ///
    /// - Looks are counted from 0 (also `Looks::count`).
    pub fn new() -> Looks
        ensures { result ≡ 0 }
    {
        Looks { count: 0 }
    }

    /// The looks so far.
    pub fn count(&self) -> u64
        ensures { result ≡ self.now }
    {
        self.count
    }

    // Counts a look.
    pub(crate) fn add(&mut self)
        requires { self.old < u64.MAX }
        ensures { self.new ≡ self.old + 1 }
    {
        self.count += 1;
    }
}
