//! The control connection.

ghost use Rattle.std.specs.Prelude.{◌≡◌, ◌≢◌, ◌≤◌, Bool, true, false, Ok, IfErr, OnErr};
ghost use Rattle.ftp_base.specs.declared.fault.Failed.TheVariants.{Fault};
ghost use Rattle.ftp_base.specs.Outside.{HasRisen};

use crate::fault::Failed;
use crate::memory_link::MemoryLink;
use crate::outside::Link;

/// A connection that says whether it can be read.
pub trait Control: Link {
    // Whether it can be read at any time, as one in memory.
    ghost is_always_ready: { Bool } = { false };

    /// Waits for bytes or the end, for so many milliseconds at most, and says whether one of them came.
    ///
    /// # Proved
    ///
    /// - To ask a control connection whether it can be read fails only where its count rose, takes and sends nothing,
    ///   and is none of its calls. One that is always ready, as that in memory, never says that it can not; when
    ///   another one says so is no clause (`fault_rose`, `left`, `sent`, `uncounted`, `always`).
    fn ready(&mut self, millis: u64) -> Result<bool, Failed>
        ensures always { is_always_ready ≡ true → result ≢ Ok false }
        ensures only_fault { IfErr result (λ e. e ≡ Fault) }
        ensures fault_rose { OnErr result (HasRisen (Self.faults self.old) (Self.faults self.new)) }

        // Nothing is sent, nothing is taken of what is left to be read, and it is none of the calls of the connection.
        ensures left { Self.left self.new ≡ Self.left self.old }
        ensures sent { (Self.sending self.new).sent ≡ (Self.sending self.old).sent }
        ensures closed { (Self.sending self.new).closed ≡ (Self.sending self.old).closed }
        ensures last_fault { (Self.sending self.new).last_fault ≡ (Self.sending self.old).last_fault }
        ensures uncounted { Self.calls self.new ≡ Self.calls self.old }
        ensures count { Self.faults self.old ≤ Self.faults self.new }
        ensures limit { Self.fault_limit self.new ≤ Self.fault_limit self.old };
}

impl Control for MemoryLink {
    ghost is_always_ready = { true };

    fn ready(&mut self, _millis: u64) -> Result<bool, Failed>
        ensures always { result ≡ Ok true }
        ensures unchanged { self.new ≡ self.old }
    {
        Ok(true)
    }
}
