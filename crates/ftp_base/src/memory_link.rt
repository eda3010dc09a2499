//! Both directions of a connection in memory.

ghost use Rattle.std.specs.Prelude.{◌≡◌, ◌↔◌, ◌<◌, ◌≤◌, [], ◌++◌, true, false, IsTrue, min, length, take, Some, None, refl, IsSome, IsOk, IfOk, IfErr, OnOk, OnErr, IsErrOf, IsPermutation};
ghost use Rattle.ftp_base.specs.declared.fault.Failed.TheVariants.{Fault, Memory};
ghost use Rattle.ftp_base.specs.declared.fault.LinkFault.{LinkFault};
ghost use Rattle.ftp_base.specs.Calls.{rises_above, after_call, after_fault, NoneFailed};
ghost use Rattle.ftp_base.specs.Kept.{OnlySends, OnlyReads, OnlyCloses};
ghost use Rattle.ftp_base.specs.Memory.{link_left, link_sending, link_faults, link_limit, link_fails_next, link_fault_limit, IsNextFault, LinkMet, LinkFailed};
ghost use Rattle.ftp_base.specs.Outside.{HasRisen, ReadsFront, Sending};

use crate::calls::Calls;
use crate::chunk::{append_chunk, read_chunk};
use crate::fault::{Failed, LinkFault};
use crate::outside::{Link, Source};
use std::alloc::Global;
use std::marker::Model;

/// A connection that gives given bytes and keeps what it is sent.
///
/// It moves at most `chunk` bytes in a call. Reads, writes and closes are counted together, from 1, and given calls
/// of them fail. Closing forbids no later call.
#[derive(Drop)]
pub struct MemoryLink {
    bytes: Vec<u8>,
    at: usize,
    sent: Vec<u8>,
    closed: bool,
    last_fault: Option<LinkFault>,
    chunk: u32,
    calls: Calls<(u64, LinkFault)>,
}

impl Model for MemoryLink {
    ghost use Rattle.std.specs.Prelude.{◌≤◌, length, drop};
    ghost use Rattle.ftp_base.specs.Memory.{LinkState};

    ghost Value = { LinkState };

    ghost view = { λ s. record { left = drop s.at s.bytes.items; sent = s.sent.items; closed = s.closed; last_fault = s.last_fault; chunk = s.chunk; calls = s.calls } };

    ghost invariant = { λ s. (1 ≤ s.chunk) × (s.at ≤ length s.bytes.items) };
}

impl MemoryLink {
    /// Where `fails` names a call twice, it meets one of the faults that stand there.
    ///
    /// # Proved
    ///
    /// - Calls that are listed in rising order are kept as they are listed, and whether they rise (`kept`; also
    ///   `MemoryStorage::new`; also `rise`).
    pub fn new(
        alloc: Global,
        bytes: Vec<u8>,
        chunk: u32,
        fails: Vec<(u64, LinkFault)>,
    ) -> MemoryLink
        requires { 1 ≤ chunk }
        ensures left { result.left ≡ bytes.items }
        ensures sent { result.sent ≡ [] }
        ensures closed { result.closed ≡ false }
        ensures last_fault { result.last_fault ≡ None }
        ensures chunk { result.chunk ≡ chunk }
        ensures no_call { result.calls.made ≡ 0 }
        ensures no_fault { result.calls.faults ≡ 0 }
        ensures failing { IsPermutation fails.items result.calls.failing }
        ensures kept { IsTrue (rises_above (λ call. call.0) 0 fails.items) → result.calls.failing ≡ fails.items }
        ensures limit { IsTrue (rises_above (λ call. call.0) 0 fails.items) → link_fault_limit result.calls ≡ length fails.items }
    {
        MemoryLink {
            bytes,
            at: 0,
            sent: Vec::new(alloc),
            closed: false,
            last_fault: None,
            chunk,
            calls: Calls::new(fails),
        }
    }

    /// What was sent, in the order of the calls.
    pub fn sent(&self) -> &[u8]
        ensures { result.now ≡ self.now.sent }
    {
        self.sent.as_slice()
    }

    pub fn is_closed(&self) -> bool
        ensures { result ≡ self.now.closed }
    {
        self.closed
    }
}

impl Source for MemoryLink {
    ghost left = { link_left };

    ghost faults = { link_faults };

    ghost fault_limit = { link_limit };

    ghost sending = { link_sending };

    ghost is_link = { true };

    ghost calls = { λ s. Some s.calls };

    fn read(&mut self, out: &mut [u8]) -> Result<usize, Failed>
        ensures within { IfOk result (λ n. n ≤ length out.new) }
        ensures moved { IfOk result (λ n. n ≡ min self.old.chunk (min (length out.old) (length self.old.left))) }
        ensures read { IfOk result (λ n. ReadsFront self.old.left (Some self.new.left) n out.new) }
        ensures last_fault { OnOk result (self.new.last_fault ≡ self.old.last_fault) }
        ensures counted { OnOk result (self.new.calls ≡ after_call self.old.calls) }

        // Exactly the listed calls fail.
        ensures fails { IsErrOf result Fault ↔ IsTrue (link_fails_next self.old.calls) }
        ensures fault { OnErr result (IsNextFault self.old.calls self.new.last_fault) }
        ensures only_fault { IfErr result (λ e. e ≡ Fault) }
        ensures met { OnErr result (IsSome self.new.last_fault) }
        ensures fault_counted { OnErr result (self.new.calls ≡ after_fault self.old.calls) }
        ensures fault_rose { OnErr result (HasRisen self.old.calls.faults self.new.calls.faults) }
        ensures unlisted { OnOk result (NoneFailed (λ call. call.0) self.old.calls self.new.calls) }
        ensures as_listed { OnErr result (LinkMet (Some self.old.calls) (Some self.new.calls) self.new.last_fault) }
        ensures unchanged { OnErr result (self.new.left ≡ self.old.left) }

        ensures only_reads { OnlyReads link_sending link_faults link_limit self.old self.new }
        ensures chunk { self.new.chunk ≡ self.old.chunk }
    {
        if let Some((_, fault)) = self.calls.next_failing() {
            self.calls.count_fault();
            self.last_fault = Some(fault);
            return Err(Failed::Fault);
        }
        self.calls.count_call();
        Ok(read_chunk(self.bytes.as_slice(), &mut self.at, self.chunk, out))
    }
}

impl Link for MemoryLink {
    fn write(&mut self, bytes: &[u8]) -> Result<usize, Failed>
        ensures within { IfOk result (λ n. n ≤ length bytes.now) }
        ensures some { IfOk result (λ n. 0 < length bytes.now → 0 < n) }
        ensures moved { IfOk result (λ n. n ≡ min self.old.chunk (length bytes.now)) }
        ensures wrote { IfOk result (λ n. self.new.sent ≡ self.old.sent ++ take n bytes.now) }
        ensures last_fault { OnOk result (self.new.last_fault ≡ self.old.last_fault) }
        ensures counted { OnOk result (self.new.calls ≡ after_call self.old.calls) }

        // Exactly the listed calls fail with a fault.
        ensures fails { IsErrOf result Fault ↔ IsTrue (link_fails_next self.old.calls) }
        ensures fault { IsErrOf result Fault → IsNextFault self.old.calls self.new.last_fault }
        ensures met { IsErrOf result Fault → IsSome self.new.last_fault }
        ensures fault_counted { IsErrOf result Fault → self.new.calls ≡ after_fault self.old.calls }
        ensures fault_rose { IsErrOf result Fault → HasRisen self.old.calls.faults self.new.calls.faults }
        ensures unlisted { OnOk result (NoneFailed (λ call. call.0) self.old.calls self.new.calls) }
        ensures as_listed { IsErrOf result Fault → LinkMet (Some self.old.calls) (Some self.new.calls) self.new.last_fault }
        ensures memory { IsErrOf result Memory → self.new ≡ self.old }
        ensures unchanged { OnErr result (self.new.sent ≡ self.old.sent) }

        ensures only_sends { OnlySends link_left link_sending link_faults link_limit self.old self.new }
        ensures chunk { self.new.chunk ≡ self.old.chunk }
    {
        if let Some((_, fault)) = self.calls.next_failing() {
            self.calls.count_fault();
            self.last_fault = Some(fault);
            return Err(Failed::Fault);
        }
        let Ok(n) = append_chunk(&mut self.sent, self.chunk, bytes) else {
            return Err(Failed::Memory);
        };
        self.calls.count_call();
        Ok(n)
    }

    fn flush(&mut self) -> Result<(), Failed>
        ensures ok { IsOk result }
        ensures unchanged { self.new ≡ self.old }
    {
        Ok(())
    }

    fn close(&mut self) -> Result<(), Failed>
        ensures closed { OnOk result (self.new.closed ≡ true) }
        ensures counted { OnOk result (self.new.calls ≡ after_call self.old.calls) }

        // Exactly the listed calls fail.
        ensures fails { IsErrOf result Fault ↔ IsTrue (link_fails_next self.old.calls) }
        ensures only_fault { IfErr result (λ e. e ≡ Fault) }
        ensures fault_counted { OnErr result (self.new.calls ≡ after_fault self.old.calls) }
        ensures fault_rose { OnErr result (HasRisen self.old.calls.faults self.new.calls.faults) }
        ensures unlisted { OnOk result (NoneFailed (λ call. call.0) self.old.calls self.new.calls) }
        ensures as_listed { OnErr result (LinkFailed (Some self.old.calls) (Some self.new.calls)) }
        ensures unchanged { OnErr result (self.new.closed ≡ self.old.closed) }

        ensures only_closes { OnlyCloses link_left link_sending link_faults link_limit self.old self.new }
        ensures chunk { self.new.chunk ≡ self.old.chunk }
    {
        if self.calls.next_failing().is_some() {
            self.calls.count_fault();
            return Err(Failed::Fault);
        }
        self.calls.count_call();
        self.closed = true;
        Ok(())
    }

    fn last_fault(&self) -> Option<LinkFault>
        ensures { result ≡ self.now.last_fault }
    {
        self.last_fault
    }

    ghost connects = { refl };
}
