//! The traits of the outside: where bytes come from, where they go, and what keeps files.
//!
//! What an object holds is told or not told: `None` tells nothing. The count of faults never falls, and their limit
//! never rises. A count at the end of its type stands still, so there a fault may always be answered.

ghost use Rattle.std.specs.Prelude.{◌≡◌, ℕ, ◌-◌, ◌^◌, ◌<◌, ◌≤◌, ◌++◌, List, length, take, Bool, true, false, Option, Some, None, IsSome, IfOk, IfErr, OnOk, OnErr, IfSome, IsErrOf};
ghost use Rattle.ftp_base.specs.declared.fault.Failed.TheVariants.{Fault, Memory};
ghost use Rattle.ftp_base.specs.declared.fault.LinkFault.{LinkFault};
ghost use Rattle.ftp_base.specs.Calls.{Calls, AllWell, OneMore};
ghost use Rattle.ftp_base.specs.Kept.{CountsOn, OnlySends, OnlyReads, OnlyCloses};
ghost use Rattle.ftp_base.specs.Memory.{LinkMet, LinkFailed, StorageMet};
ghost use Rattle.ftp_base.specs.Outside.{HasRisen, ReadsFront, Writes, Sending, nothing_sent};

use crate::fault::{Failed, LinkFault};

/// Gives bytes, as a connection, a file or standard input does.
pub trait Source {
    // What is left to be read, where the source tells it.
    ghost left: { Self → Option (List ℕ) };

    // How many calls failed.
    ghost faults: { Self → ℕ };

    // The most faults that will ever be counted.
    ghost fault_limit: { Self → ℕ } = { λ _. 2 ^ 64 - 1 };

    // The other direction, where the source is a connection.
    ghost sending: { Self → Sending } = { λ _. nothing_sent };

    // Whether the source is a connection, of which each failed read leaves a last fault.
    ghost is_link: { Bool } = { false };

    // The calls of a connection, and which of them fail, with which fault, where it tells that.
    ghost calls: { Self → Option (Calls (ℕ × LinkFault)) } = { λ _. None };

    /// Reads to the front of `out`, and says how many bytes: none exactly at the end, where `out` has room.
    ///
    /// # Proved
    ///
    /// - What a call of a source, a sink and a link means: bytes from the front, faults only where the count rose, a
    ///   last fault where a read or write of a link failed, what stays (`read`, `fault_rose`, `met`, `unchanged`,
    ///   `only_reads`; also `Sink::write`: `wrote`, `some`, `fault_rose`, `unchanged`, `counts`; `Link::write`:
    ///   `wrote`, `some`, `fault_rose`, `met`, `unchanged`, `only_sends`; `Link::close`: `closed`, `unchanged`,
    ///   `fault_rose`, `only_closes`).
    /// - The objects in memory move at most a chunk, exactly the bytes that are there, and fail exactly the listed
    ///   calls (`moved`, `read`, `fails`, `counted`, `fault_counted`; also `MemorySink::write`, `MemoryLink::write`:
    ///   `moved`, `wrote`, `fails`, `counted`, `fault_counted`; `MemoryLink::read`: `moved`, `read`, `fails`,
    ///   `counted`, `fault_counted`).
    fn read(&mut self, out: &mut [u8]) -> Result<usize, Failed>
        ensures within { IfOk result (λ n. n ≤ length out.new) }
        ensures read { IfOk result (λ n. IfSome (left self.old) (λ l. ReadsFront l (left self.new) n out.new)) }
        ensures last_fault { OnOk result ((sending self.new).last_fault ≡ (sending self.old).last_fault) }
        ensures only_fault { IfErr result (λ e. e ≡ Fault) }
        ensures met { OnErr result (is_link ≡ true → IsSome (sending self.new).last_fault) }

        // Where calls are told, exactly the listed ones fail, with the fault that is listed.
        ensures unlisted { OnOk result (AllWell (λ call. call.0) (calls self.old) (calls self.new)) }
        ensures as_listed { OnErr result (LinkMet (calls self.old) (calls self.new) (sending self.new).last_fault) }
        ensures made { OneMore (calls self.old) (calls self.new) }
        ensures fault_rose { OnErr result (HasRisen (faults self.old) (faults self.new)) }
        ensures unchanged { OnErr result (left self.new ≡ left self.old) }
        ensures only_reads { OnlyReads sending faults fault_limit self.old self.new };
}

/// Takes bytes, as a file or standard output does.
pub trait Sink {
    // What was written, where the sink tells it.
    ghost written: { Self → Option (List ℕ) };

    // How many calls failed.
    ghost faults: { Self → ℕ };

    // The most faults that will ever be counted.
    ghost fault_limit: { Self → ℕ } = { λ _. 2 ^ 64 - 1 };

    // The calls, and which of them fail, where the sink tells that.
    ghost calls: { Self → Option (Calls ℕ) } = { λ _. None };

    /// Writes bytes from the front, and says how many: at least one, where there is one.
    fn write(&mut self, bytes: &[u8]) -> Result<usize, Failed>
        ensures within { IfOk result (λ n. n ≤ length bytes.now) }
        ensures some { IfOk result (λ n. 0 < length bytes.now → 0 < n) }
        ensures wrote { IfOk result (λ n. Writes (written self.old) (written self.new) (take n bytes.now)) }
        ensures fault_rose { IsErrOf result Fault → HasRisen (faults self.old) (faults self.new) }
        ensures memory { IsErrOf result Memory → faults self.new ≡ faults self.old }
        ensures unlisted { OnOk result (AllWell (λ call. call) (calls self.old) (calls self.new)) }
        ensures as_listed { IsErrOf result Fault → StorageMet (calls self.old) (calls self.new) }
        ensures made { (IsErrOf result Memory → ⊥) → OneMore (calls self.old) (calls self.new) }
        ensures uncounted { IsErrOf result Memory → calls self.new ≡ calls self.old }
        ensures unchanged { OnErr result (written self.new ≡ written self.old) }
        ensures counts { CountsOn faults fault_limit self.old self.new };
}

/// Both directions of a connection, under one count of faults.
pub trait Link: Source {
    // Whether a write may fail for want of memory.
    ghost takes_memory: { Bool } = { true };

    /// Sends bytes from the front, and says how many: at least one, where there is one.
    fn write(&mut self, bytes: &[u8]) -> Result<usize, Failed>
        ensures within { IfOk result (λ n. n ≤ length bytes.now) }
        ensures some { IfOk result (λ n. 0 < length bytes.now → 0 < n) }
        ensures wrote { IfOk result (λ n. Writes (Self.sending self.old).sent (Self.sending self.new).sent (take n bytes.now)) }
        ensures last_fault { OnOk result ((Self.sending self.new).last_fault ≡ (Self.sending self.old).last_fault) }
        ensures met { IsErrOf result Fault → IsSome (Self.sending self.new).last_fault }
        ensures fault_rose { IsErrOf result Fault → HasRisen (Self.faults self.old) (Self.faults self.new) }
        ensures memory { IsErrOf result Memory → (Self.faults self.new ≡ Self.faults self.old) }
        ensures takes_memory { IsErrOf result Memory → takes_memory ≡ true }
        ensures unlisted { OnOk result (AllWell (λ call. call.0) (Self.calls self.old) (Self.calls self.new)) }
        ensures as_listed { IsErrOf result Fault → LinkMet (Self.calls self.old) (Self.calls self.new) (Self.sending self.new).last_fault }
        ensures made { (IsErrOf result Memory → ⊥) → OneMore (Self.calls self.old) (Self.calls self.new) }
        ensures uncounted { IsErrOf result Memory → Self.calls self.new ≡ Self.calls self.old }
        ensures memory_last { IsErrOf result Memory → ((Self.sending self.new).last_fault ≡ (Self.sending self.old).last_fault) }
        ensures unchanged { OnErr result ((Self.sending self.new).sent ≡ (Self.sending self.old).sent) }
        ensures only_sends { OnlySends Self.left Self.sending Self.faults Self.fault_limit self.old self.new };

    /// Sends what was gathered of the bytes that writes took.
    fn flush(&mut self) -> Result<(), Failed>
        ensures last_fault { OnOk result ((Self.sending self.new).last_fault ≡ (Self.sending self.old).last_fault) }
        ensures only_fault { IfErr result (λ e. e ≡ Fault) }
        ensures met { OnErr result (IsSome (Self.sending self.new).last_fault) }
        ensures fault_rose { OnErr result (HasRisen (Self.faults self.old) (Self.faults self.new)) }

        // It is none of the calls that are counted: where they are told, it does not fail.
        ensures as_listed { OnErr result (LinkMet (Self.calls self.old) (Self.calls self.new) (Self.sending self.new).last_fault) }
        ensures uncounted { Self.calls self.new ≡ Self.calls self.old }
        ensures unchanged { (Self.sending self.new).sent ≡ (Self.sending self.old).sent }
        ensures only_sends { OnlySends Self.left Self.sending Self.faults Self.fault_limit self.old self.new };

    /// Closes both directions. What was sent and what is left to be read stay as they are.
    fn close(&mut self) -> Result<(), Failed>
        ensures closed { OnOk result ((Self.sending self.new).closed ≡ true) }
        ensures only_fault { IfErr result (λ e. e ≡ Fault) }
        ensures fault_rose { OnErr result (HasRisen (Self.faults self.old) (Self.faults self.new)) }
        ensures unlisted { OnOk result (AllWell (λ call. call.0) (Self.calls self.old) (Self.calls self.new)) }
        ensures as_listed { OnErr result (LinkFailed (Self.calls self.old) (Self.calls self.new)) }
        ensures made { OneMore (Self.calls self.old) (Self.calls self.new) }
        ensures unchanged { OnErr result ((Self.sending self.new).closed ≡ (Self.sending self.old).closed) }
        ensures only_closes { OnlyCloses Self.left Self.sending Self.faults Self.fault_limit self.old self.new };

    /// What the last read or write that failed met; nothing before any failed.
    fn last_fault(&self) -> Option<LinkFault>
        ensures { result ≡ (Self.sending self.now).last_fault };

    // A link is a connection.
    ghost connects: { Self.is_link ≡ true };
}
