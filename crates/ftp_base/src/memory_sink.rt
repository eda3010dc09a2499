//! Bytes in memory as a sink.

ghost use Rattle.std.specs.Prelude.{◌≡◌, ◌↔◌, ℕ, ◌<◌, ◌≤◌, [], ◌++◌, IsTrue, min, length, take, Some, IfOk, OnOk, OnErr, IsErrOf, IsPermutation};
ghost use Rattle.ftp_base.specs.declared.fault.Failed.TheVariants.{Fault, Memory};
ghost use Rattle.ftp_base.specs.Calls.{rises_above, after_call, after_fault, NoneFailed};
ghost use Rattle.ftp_base.specs.Kept.{CountsOn};
ghost use Rattle.ftp_base.specs.Memory.{faults_of, fails_next, fault_limit, StorageMet};
ghost use Rattle.ftp_base.specs.Outside.{HasRisen};

use crate::calls::Calls;
use crate::chunk::append_chunk;
use crate::fault::Failed;
use crate::outside::Sink;
use std::alloc::Global;
use std::marker::Model;

/// A sink that keeps what it is given, writes at most `chunk` bytes in a call and fails given calls.
#[derive(Drop)]
pub struct MemorySink {
    written: Vec<u8>,
    chunk: u32,
    calls: Calls<u64>,
}

impl Model for MemorySink {
    ghost use Rattle.std.specs.Prelude.{◌≤◌};
    ghost use Rattle.ftp_base.specs.Memory.{SinkState};

    ghost Value = { SinkState };

    ghost view = { λ s. record { written = s.written.items; chunk = s.chunk; calls = s.calls } };

    ghost invariant = { λ s. 1 ≤ s.chunk };
}

impl MemorySink {
    /// Calls are counted from 1.
    pub fn new(alloc: Global, chunk: u32, fails: Vec<u64>) -> MemorySink
        requires { 1 ≤ chunk }
        ensures written { result.written ≡ [] }
        ensures chunk { result.chunk ≡ chunk }
        ensures no_call { result.calls.made ≡ 0 }
        ensures no_fault { result.calls.faults ≡ 0 }
        ensures failing { IsPermutation fails.items result.calls.failing }
        ensures limit { IsTrue (rises_above (λ call. call) 0 fails.items) → fault_limit result.calls ≡ length fails.items }
    {
        MemorySink {
            written: Vec::new(alloc),
            chunk,
            calls: Calls::new(fails),
        }
    }

    /// What was written, in the order of the calls.
    pub fn written(&self) -> &[u8]
        ensures { result.now ≡ self.now.written }
    {
        self.written.as_slice()
    }
}

impl Sink for MemorySink {
    ghost written = { λ s. Some s.written };

    ghost faults = { λ s. s.calls.faults };

    ghost fault_limit = { λ s. fault_limit s.calls };

    ghost calls = { λ s. Some s.calls };

    fn write(&mut self, bytes: &[u8]) -> Result<usize, Failed>
        ensures within { IfOk result (λ n. n ≤ length bytes.now) }
        ensures some { IfOk result (λ n. 0 < length bytes.now → 0 < n) }
        ensures moved { IfOk result (λ n. n ≡ min self.old.chunk (length bytes.now)) }
        ensures wrote { IfOk result (λ n. self.new.written ≡ self.old.written ++ take n bytes.now) }
        ensures counted { OnOk result (self.new.calls ≡ after_call self.old.calls) }

        // Exactly the listed calls fail with a fault.
        ensures fails { IsErrOf result Fault ↔ IsTrue (fails_next self.old.calls) }
        ensures fault_counted { IsErrOf result Fault → self.new.calls ≡ after_fault self.old.calls }
        ensures fault_rose { IsErrOf result Fault → HasRisen self.old.calls.faults self.new.calls.faults }
        ensures unlisted { OnOk result (NoneFailed (λ call. call) self.old.calls self.new.calls) }
        ensures as_listed { IsErrOf result Fault → StorageMet (Some self.old.calls) (Some self.new.calls) }
        ensures memory { IsErrOf result Memory → self.new ≡ self.old }
        ensures unchanged { OnErr result (self.new.written ≡ self.old.written) }

        ensures counts { CountsOn faults_of fault_limit self.old.calls self.new.calls }
        ensures chunk { self.new.chunk ≡ self.old.chunk }
    {
        if self.calls.next_failing().is_some() {
            self.calls.count_fault();
            return Err(Failed::Fault);
        }
        let Ok(n) = append_chunk(&mut self.written, self.chunk, bytes) else {
            return Err(Failed::Memory);
        };
        self.calls.count_call();
        Ok(n)
    }
}
