//! Bytes that are sent whole.

ghost use Rattle.std.specs.Prelude.{◌≡◌, ◌≢◌, ◌<◌, ◌≤◌, true, false, length, take, Some, None, IsSome, IfOk, OnOk, OnErr, IsErrOf};
ghost use Rattle.ftp_base.specs.declared.fault.Failed.TheVariants.{Fault, Memory};
ghost use Rattle.ftp_base.specs.Calls.{AllWell};
ghost use Rattle.ftp_base.specs.Kept.{OnlySends};
ghost use Rattle.ftp_base.specs.Memory.{LinkMet};
ghost use Rattle.ftp_base.specs.Outside.{HasRisen, Writes};
ghost use Rattle.ftp_transfer.specs.Run.{LinkRose};

use ftp_base::{Failed, Link};

/// How many bytes went, and why not all of them, where they did not.
#[derive(Clone, Copy, Debug, PartialEq, Eq)]
pub struct SendResult {
    pub sent: usize,
    pub stopped: Option<Failed>,
}

/// Sends bytes until all of them went, or the link does not take more, and then what the link gathered of them.
pub fn send_out<L: Link>(link: &mut L, bytes: &[u8]) -> SendResult
    ensures within { result.sent ≤ length bytes.now }
    ensures all { result.stopped ≡ None → result.sent ≡ length bytes.now }
    ensures wrote { Writes (L.sending link.old).sent (L.sending link.new).sent (take result.sent bytes.now) }
    ensures only_sends { OnlySends L.left L.sending L.faults L.fault_limit link.old link.new }
    ensures last_fault { result.stopped ≢ Some Fault → (L.sending link.new).last_fault ≡ (L.sending link.old).last_fault }
    ensures met { result.stopped ≡ Some Fault → IsSome (L.sending link.new).last_fault }
    ensures fault_rose { result.stopped ≡ Some Fault → LinkRose (L.faults link.old) (L.faults link.new) (L.calls link.old) (L.calls link.new) (L.sending link.new).last_fault }
    ensures link_well { result.stopped ≢ Some Fault → AllWell (λ call. call.0) (L.calls link.old) (L.calls link.new) }
    ensures no_memory { L.takes_memory ≡ false → result.stopped ≡ Some Memory → ⊥ }
{
    let sending = send(link, bytes);
    if sending.stopped.is_some() {
        return sending;
    }
    match link.flush() {
        Ok(()) => sending,
        Err(failed) => SendResult {
            sent: sending.sent,
            stopped: Some(failed),
        },
    }
}

/// Sends bytes from the front until all of them went, or the link does not take more.
pub fn send<L: Link>(link: &mut L, bytes: &[u8]) -> SendResult
    ensures within { result.sent ≤ length bytes.now }
    ensures all { result.stopped ≡ None → result.sent ≡ length bytes.now }
    ensures wrote { Writes (L.sending link.old).sent (L.sending link.new).sent (take result.sent bytes.now) }
    ensures only_sends { OnlySends L.left L.sending L.faults L.fault_limit link.old link.new }
    ensures last_fault { result.stopped ≢ Some Fault → (L.sending link.new).last_fault ≡ (L.sending link.old).last_fault }
    ensures met { result.stopped ≡ Some Fault → IsSome (L.sending link.new).last_fault }
    ensures fault_rose { result.stopped ≡ Some Fault → LinkRose (L.faults link.old) (L.faults link.new) (L.calls link.old) (L.calls link.new) (L.sending link.new).last_fault }
    ensures link_well { result.stopped ≢ Some Fault → AllWell (λ call. call.0) (L.calls link.old) (L.calls link.new) }
    ensures no_memory { L.takes_memory ≡ false → result.stopped ≡ Some Memory → ⊥ }
{
    let mut sent = 0;
    while sent < bytes.len() {
        match send_some(link, &bytes[sent..]) {
            Ok(n) => sent += n,
            Err(failed) => {
                return SendResult {
                    sent,
                    stopped: Some(failed),
                };
            }
        }
    }
    SendResult {
        sent,
        stopped: None,
    }
}

/// Sends bytes from the front, at least one of them, and says how many.
fn send_some<L: Link>(link: &mut L, bytes: &[u8]) -> Result<usize, Failed>
    requires left { 0 < length bytes.now }

    ensures within { IfOk result (λ n. n ≤ length bytes.now) }
    ensures some { IfOk result (λ n. 0 < n) }
    ensures wrote { IfOk result (λ n. Writes (L.sending link.old).sent (L.sending link.new).sent (take n bytes.now)) }
    ensures last_fault { OnOk result ((L.sending link.new).last_fault ≡ (L.sending link.old).last_fault) }
    ensures met { IsErrOf result Fault → IsSome (L.sending link.new).last_fault }
    ensures fault_rose { IsErrOf result Fault → HasRisen (L.faults link.old) (L.faults link.new) }
    ensures takes_memory { IsErrOf result Memory → L.takes_memory ≡ true }
    ensures unlisted { OnOk result (AllWell (λ call. call.0) (L.calls link.old) (L.calls link.new)) }
    ensures as_listed { IsErrOf result Fault → LinkMet (L.calls link.old) (L.calls link.new) (L.sending link.new).last_fault }
    ensures uncounted { IsErrOf result Memory → L.calls link.new ≡ L.calls link.old }
    ensures memory_last { IsErrOf result Memory → (L.sending link.new).last_fault ≡ (L.sending link.old).last_fault }
    ensures unchanged { OnErr result ((L.sending link.new).sent ≡ (L.sending link.old).sent) }
    ensures only_sends { OnlySends L.left L.sending L.faults L.fault_limit link.old link.new }
{
    link.write(bytes)
}
