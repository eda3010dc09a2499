//! Bytes in memory as a source.

ghost use Rattle.std.specs.Prelude.{◌≡◌, ◌↔◌, ◌<◌, ◌≤◌, min, length, IsTrue, Some, IfOk, IfErr, OnOk, OnErr, IsErrOf, IsPermutation};
ghost use Rattle.ftp_base.specs.declared.fault.Failed.TheVariants.{Fault};
ghost use Rattle.ftp_base.specs.Calls.{rises_above, after_call, after_fault};
ghost use Rattle.ftp_base.specs.Kept.{CountsOn};
ghost use Rattle.ftp_base.specs.Memory.{faults_of, fails_next, fault_limit};
ghost use Rattle.ftp_base.specs.Outside.{HasRisen, ReadsFront};

use crate::calls::Calls;
use crate::chunk::read_chunk;
use crate::fault::Failed;
use crate::outside::Source;
use std::marker::Model;

/// A source of given bytes, that reads at most `chunk` of them in a call and fails given calls.
#[derive(Drop)]
pub struct MemorySource {
    bytes: Vec<u8>,
    at: usize,
    chunk: u32,
    calls: Calls<u64>,
}

impl Model for MemorySource {
    ghost use Rattle.std.specs.Prelude.{◌≤◌, length, drop};
    ghost use Rattle.ftp_base.specs.Memory.{SourceState};

    ghost Value = { SourceState };

    ghost view = { λ s. record { left = drop s.at s.bytes.items; chunk = s.chunk; calls = s.calls } };

    ghost invariant = { λ s. (1 ≤ s.chunk) × (s.at ≤ length s.bytes.items) };
}

impl MemorySource {
    /// Calls are counted from 1.
    ///
    /// # Proved
    ///
    /// - No more calls of an object in memory fail than are listed: the limit of its faults is at first the length of
    ///   its list, where that rises, and no call raises it (`limit`; also `MemorySink::new`, `MemoryLink::new`,
    ///   `MemoryStorage::new`).
    pub fn new(bytes: Vec<u8>, chunk: u32, fails: Vec<u64>) -> MemorySource
        requires { 1 ≤ chunk }
        ensures left { result.left ≡ bytes.items }
        ensures chunk { result.chunk ≡ chunk }
        ensures no_call { result.calls.made ≡ 0 }
        ensures no_fault { result.calls.faults ≡ 0 }
        ensures failing { IsPermutation fails.items result.calls.failing }
        ensures limit { IsTrue (rises_above (λ call. call) 0 fails.items) → fault_limit result.calls ≡ length fails.items }
    {
        MemorySource {
            bytes,
            at: 0,
            chunk,
            calls: Calls::new(fails),
        }
    }
}

impl Source for MemorySource {
    ghost left = { λ s. Some s.left };

    ghost faults = { λ s. s.calls.faults };

    ghost fault_limit = { λ s. fault_limit s.calls };

    fn read(&mut self, out: &mut [u8]) -> Result<usize, Failed>
        ensures within { IfOk result (λ n. n ≤ length out.new) }
        ensures moved { IfOk result (λ n. n ≡ min self.old.chunk (min (length out.old) (length self.old.left))) }
        ensures read { IfOk result (λ n. ReadsFront self.old.left (Some self.new.left) n out.new) }
        ensures counted { OnOk result (self.new.calls ≡ after_call self.old.calls) }

        // Exactly the listed calls fail.
        ensures fails { IsErrOf result Fault ↔ IsTrue (fails_next self.old.calls) }
        ensures only_fault { IfErr result (λ e. e ≡ Fault) }
        ensures fault_counted { OnErr result (self.new.calls ≡ after_fault self.old.calls) }
        ensures fault_rose { OnErr result (HasRisen self.old.calls.faults self.new.calls.faults) }
        ensures unchanged { OnErr result (self.new.left ≡ self.old.left) }

        ensures counts { CountsOn faults_of fault_limit self.old.calls self.new.calls }
        ensures chunk { self.new.chunk ≡ self.old.chunk }
    {
        if self.calls.next_failing().is_some() {
            self.calls.count_fault();
            return Err(Failed::Fault);
        }
        self.calls.count_call();
        Ok(read_chunk(self.bytes.as_slice(), &mut self.at, self.chunk, out))
    }
}
