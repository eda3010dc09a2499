//! What a server asks before it starts a thread, and what a worker passes before a transfer.

ghost use Rattle.std.specs.Prelude.{ℕ, ◌≤◌, IsFalse};
ghost use Rattle.ftp_base.specs.Outside.{HasRisen};

/// Says whether threads may be started. Who starts them tells it of those that could not be made.
pub trait Spawner {
    // How many threads were not started.
    ghost faults: { Self → ℕ };

    /// Says whether the next thread may be started.
    ///
    /// # Proved
    ///
    /// - Threads are refused, and one that could not be made is told, only where the count rises; an indicator keeps
    ///   the moment and the time of its first asking (`fault_rose`; also `Spawner::refused`: `fault_rose`;
    ///   `Indicator::poll`: `first`, `kept`).
    fn admits(&mut self) -> bool
        ensures fault_rose { IsFalse result → HasRisen (faults self.old) (faults self.new) }
        ensures count { faults self.old ≤ faults self.new };

    /// Is told that a thread could not be made.
    fn refused(&mut self)
        ensures fault_rose { HasRisen (faults self.old) (faults self.new) }
        ensures count { faults self.old ≤ faults self.new };
}

/// Stands before each transfer; a worker that passes it may have to wait.
pub trait Gate {
    /// Returns once the transfer with this number may start. Transfers are numbered from 1.
    fn pass(&self, call: u64);
}
