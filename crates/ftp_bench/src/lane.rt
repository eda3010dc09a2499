//! Which sessions a thread brings events of.

ghost use Rattle.std.specs.Prelude.{◌≡◌, ◌+◌, ◌<◌, ◌≤◌};
ghost use Rattle.ftp_bench.specs.Appending.{events_in};

/// The sessions from one on and below another, and how many events come of them in all.
#[derive(Clone, Copy, Debug, PartialEq, Eq)]
pub struct Lane {
    pub first: u32,
    pub end: u32,
    pub rounds: u32,
}

impl Lane {
    /// How many events come in all, with the connections of the sessions.
    pub fn events(self) -> u64
        ensures { result ≡ events_in self }
    {
        self.end.saturating_sub(self.first) as u64 + self.rounds as u64
    }

    /// Two lanes beside each other, with half of the sessions and of the events each.
    pub fn split(self) -> (Lane, Lane)
        ensures ends { (result.0.first ≡ self.first) × (result.1.end ≡ self.end) }
        ensures beside { result.0.end ≡ result.1.first }
        ensures rounds { result.0.rounds + result.1.rounds ≡ self.rounds }
    {
        let middle = ((self.first as u64 + self.end as u64) / 2) as u32;
        let half = self.rounds / 2;
        let front = Lane {
            first: self.first,
            end: middle,
            rounds: half,
        };
        let back = Lane {
            first: middle,
            end: self.end,
            rounds: self.rounds - half,
        };
        (front, back)
    }

    /// The session of the event before which so many came: they go round. A lane without sessions has its first.
    ///
    /// # Proved
    ///
    /// - A thread brings events of its own lane of sessions alone; the lanes of two threads lie beside each other, and
    ///   their rounds are those of the whole (`own`; also `user`: `session`; `Lane::split`: `ends`, `beside`,
    ///   `rounds`).
    pub fn session(self, turn: u32) -> u64
        ensures own { self.first < self.end → (self.first ≤ result) × (result < self.end) }
    {
        if self.first >= self.end {
            return self.first as u64;
        }
        self.first as u64 + (turn % (self.end - self.first)) as u64
    }
}
