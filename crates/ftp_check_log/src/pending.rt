//! What was read of a source and is not taken yet.

ghost use Rattle.std.specs.Prelude.{◌≡◌, ◌-◌, ◌≤◌, ◌++◌, ◌↔◌, [], length, drop, IsTrue, OnOk, IfSome, IsErrOf};
ghost use Rattle.ftp_base.specs.declared.fault.Failed.TheVariants.{Fault};
ghost use Rattle.ftp_base.specs.Outside.{HasRisen};
ghost use Rattle.ftp_control.specs.Lines.{Rest};
ghost use Rattle.ftp_check_log.specs.Pending.{unread, IsInBounds, HasFeed, ShowsLine};

use ftp_base::{Failed, Source};
use ftp_text::LONGEST_LOG;
use ftp_text::writing::put;
use memchr::memchr;
use std::alloc::Global;

// So many bytes are asked for at once.
const PIECE: usize = 65_536;

/// Bytes of a source that were read and are not taken yet.
#[derive(Drop)]
pub struct Pending {
    alloc: Global,
    bytes: Vec<u8>,
    // So many of the bytes are taken.
    start: usize,
}

impl Pending {
    /// Nothing was read.
    pub fn new(alloc: Global) -> Pending
        ensures none { unread result ≡ [] }
        ensures kept { IsInBounds result }
    {
        Pending {
            alloc,
            bytes: Vec::new(alloc),
            start: 0,
        }
    }

    /// The bytes that are not taken yet.
    pub fn unread(&self) -> &[u8]
        requires { IsInBounds self.now }
        ensures { result.now ≡ unread self.now }
    {
        &self.bytes.as_slice()[self.start..]
    }

    /// Takes all but the last `rest` bytes.
    pub fn take_to(&mut self, rest: usize)
        requires kept { IsInBounds self.old }
        requires within { rest ≤ length (unread self.old) }
        ensures rest { unread self.new ≡ drop (length (unread self.old) - rest) (unread self.old) }
        ensures kept { IsInBounds self.new }
    {
        self.start = self.bytes.len() - rest;
    }

    /// Reads on until the bytes show their first line.
    pub fn fill<S: Source>(&mut self, source: &mut S) -> Result<(), Failed>
        requires kept { IsInBounds self.old }
        ensures told { OnOk result (IfSome (S.left source.old) (λ left. Rest (unread self.new) (S.left source.new) (unread self.old ++ left))) }
        ensures shown { OnOk result (IfSome (S.left source.old) (λ _. ShowsLine (unread self.new) (S.left source.new))) }
        ensures kept { OnOk result (IsInBounds self.new) }
        ensures fault_rose { IsErrOf result Fault → HasRisen (S.faults source.old) (S.faults source.new) }
        ensures count { S.faults source.old ≤ S.faults source.new }
    {
        if has_feed(self.unread()) {
            return Ok(());
        }
        let mut bytes = Vec::new(self.alloc);
        append(&mut bytes, self.unread())?;
        read_line(&mut bytes, source)?;
        self.bytes = bytes;
        self.start = 0;
        Ok(())
    }
}

// Reads behind the bytes until a line feed came, or nothing is left, or they are as many as a log can have.
fn read_line<S: Source>(bytes: &mut Vec<u8>, source: &mut S) -> Result<(), Failed>
    ensures told { OnOk result (IfSome (S.left source.old) (λ left. Rest bytes.new.items (S.left source.new) (bytes.old.items ++ left))) }
    ensures shown { OnOk result (IfSome (S.left source.old) (λ _. ShowsLine bytes.new.items (S.left source.new))) }
    ensures fault_rose { IsErrOf result Fault → HasRisen (S.faults source.old) (S.faults source.new) }
    ensures count { S.faults source.old ≤ S.faults source.new }
{
    let mut piece = [0u8; PIECE];
    while bytes.len() < LONGEST_LOG {
        let n = source.read(&mut piece)?;
        if n == 0 {
            return Ok(());
        }
        let read = &piece[..n];
        append(bytes, read)?;
        if has_feed(read) {
            return Ok(());
        }
    }
    Ok(())
}

fn append(bytes: &mut Vec<u8>, more: &[u8]) -> Result<(), Failed>
    ensures all { OnOk result (bytes.new.items ≡ bytes.old.items ++ more.now) }
    ensures no_fault { IsErrOf result Fault → ⊥ }
{
    match put(bytes, more) {
        Ok(()) => Ok(()),
        Err(_) => Err(Failed::Memory),
    }
}

// Says whether a line feed is among the bytes.
fn has_feed(bytes: &[u8]) -> bool
    ensures { IsTrue result ↔ HasFeed bytes.now }
{
    match memchr(b'\n', bytes) {
        Some(_) => true,
        None => false,
    }
}
