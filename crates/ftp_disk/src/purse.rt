//! How much of its budget a home holds.

ghost use Rattle.std.specs.Prelude.{◌≡◌, ◌+◌, ◌-◌, ◌≤◌, max, nat_le, true, false};

/// A budget, and how many bytes are held of it.
///
/// # Proved
///
/// - What is held is at most the budget, or what was found when the budget was set, where that was more.
#[derive(Debug, Drop)]
pub struct Purse {
    budget: u64,
    held: u64,
    // How much was held when the budget was set.
    found: u64,
    ghost within: { held ≤ max budget found },
}

impl Purse {
    /// The purse of a home in which so many bytes were found.
    pub fn new(budget: u64, found: u64) -> Purse
        ensures budget { result.budget ≡ budget }
        ensures held { result.held ≡ found }
    {
        Purse {
            budget,
            held: found,
            found,
        }
    }

    /// Takes bytes, and says whether the budget has room for them.
    ///
    /// # Proved
    ///
    /// - Bytes are taken exactly where what is held, with them, is at most the budget (`room`, `taken`, `unchanged`).
    pub fn take(&mut self, n: u64) -> bool
        ensures room { result ≡ nat_le (self.old.held + n) self.old.budget }
        ensures taken { result ≡ true → self.new.held ≡ self.old.held + n }
        ensures unchanged { result ≡ false → self.new.held ≡ self.old.held }
        ensures budget { self.new.budget ≡ self.old.budget }
    {
        if n > self.budget || self.held > self.budget - n {
            return false;
        }
        self.held += n;
        true
    }

    /// Gives bytes back.
    pub fn give_back(&mut self, n: u64)
        ensures held { self.new.held ≡ self.old.held - n }
        ensures budget { self.new.budget ≡ self.old.budget }
    {
        self.held = self.held.saturating_sub(n);
    }

    /// Sets another budget. What is held stays, where it is more too.
    pub fn set_budget(&mut self, budget: u64)
        ensures budget { self.new.budget ≡ budget }
        ensures held { self.new.held ≡ self.old.held }
    {
        *self = Purse::new(budget, self.held);
    }

    /// Whether so many bytes may be held beside the others.
    pub fn has_room(&self, n: u64) -> bool
        ensures { result ≡ nat_le (self.now.held + n) self.now.budget }
    {
        n <= self.budget && self.held <= self.budget - n
    }
}
