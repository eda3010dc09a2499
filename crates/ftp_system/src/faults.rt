//! The calls of a connection that failed.

ghost use Rattle.std.specs.Prelude.{◌≡◌, ◌≤◌, IsSome};
ghost use Rattle.ftp_base.specs.declared.fault.Failed.TheVariants.{Fault};
ghost use Rattle.ftp_base.specs.Outside.{HasRisen};

use ftp_base::{Failed, LinkFault};
use std::io::ErrorKind;

/// How many calls of a connection failed, and what the last read or write that failed met.
#[derive(Clone, Copy)]
pub(crate) struct Faults {
    pub(crate) count: u64,
    pub(crate) last: Option<LinkFault>,
}

/// Which fault of a connection an error of the system is.
pub(crate) fn link_fault(kind: ErrorKind) -> LinkFault {
    match kind {
        ErrorKind::ConnectionReset => LinkFault::Reset,
        ErrorKind::BrokenPipe => LinkFault::BrokenPipe,
        ErrorKind::ConnectionAborted => LinkFault::Aborted,
        _ => LinkFault::Other,
    }
}

impl Faults {
    pub(crate) const NONE: Faults = Faults {
        count: 0,
        last: None,
    };

    /// Counts a call that failed.
    pub(crate) fn count(&mut self) -> Failed
        ensures fault { result ≡ Fault }
        ensures fault_rose { HasRisen self.old.count self.new.count }
        ensures count { self.old.count ≤ self.new.count }
        ensures last { self.new.last ≡ self.old.last }
    {
        self.count = self.count.saturating_add(1);
        Failed::Fault
    }

    /// Counts a read or a write that failed, with what it met.
    pub(crate) fn meet(&mut self, fault: LinkFault) -> Failed
        ensures fault { result ≡ Fault }
        ensures fault_rose { HasRisen self.old.count self.new.count }
        ensures count { self.old.count ≤ self.new.count }
        ensures met { IsSome self.new.last }
    {
        self.last = Some(fault);
        self.count()
    }
}
