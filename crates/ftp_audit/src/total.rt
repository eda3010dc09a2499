//! Sums.

ghost use Rattle.std.specs.Prelude.{◌≡◌, ◌<◌, ◌+◌, ◌^◌};
ghost use Rattle.ftp_audit.specs.Totals.{nothing, told, minus, add, moved};
ghost use Rattle.ftp_audit.specs.Bounds.{IsWithin};

use ftp_base::{DataEvent, Notice, PresenceEvent};

// Each number of a sum with that of another.
macro_rules! by_number {
    ($one:ident, $call:ident, $other:ident) => {
        Total {
            got_files: $one.got_files.$call($other.got_files),
            got_bytes: $one.got_bytes.$call($other.got_bytes),
            put_files: $one.put_files.$call($other.put_files),
            put_bytes: $one.put_bytes.$call($other.put_bytes),
            logins: $one.logins.$call($other.logins),
            logouts: $one.logouts.$call($other.logouts),
        }
    };
}

/// Files and bytes that clients got and put, logins and logouts.
#[derive(Clone, Copy, Debug, PartialEq, Eq)]
pub struct Total {
    pub got_files: u64,
    pub got_bytes: u128,
    pub put_files: u64,
    pub put_bytes: u128,
    pub logins: u64,
    pub logouts: u64,
}

impl Total {
    /// Nothing moved, and nobody came or went.
    pub fn new() -> Total
        ensures { result ≡ nothing }
    {
        Total {
            got_files: 0,
            got_bytes: 0,
            put_files: 0,
            put_bytes: 0,
            logins: 0,
            logouts: 0,
        }
    }

    /// What a notification tells.
    pub fn told(what: &Notice) -> Total
        ensures told { result ≡ told what.now }
        ensures within { IsWithin 1 result }
    {
        let mut total = Total::new();
        match what {
            Notice::Data(DataEvent::Got { bytes, .. }) => {
                total.got_files = 1;
                total.got_bytes = u128::from(*bytes);
            }
            Notice::Data(DataEvent::Put { bytes, .. }) => {
                total.put_files = 1;
                total.put_bytes = u128::from(*bytes);
            }
            Notice::Presence(PresenceEvent::LoggedIn) => total.logins = 1,
            Notice::Presence(PresenceEvent::LoggedOut) => total.logouts = 1,
            _ => {}
        }
        total
    }

    /// Both together.
    pub fn and(self, more: Total) -> Total
        ensures { result ≡ add self more }
    {
        by_number!(self, saturating_add, more)
    }

    /// What is above an earlier sum.
    pub fn since(self, earlier: Total) -> Total
        ensures { result ≡ minus self earlier }
    {
        by_number!(self, saturating_sub, earlier)
    }

    /// The bytes that were got and put.
    pub fn moved(self) -> u128
        ensures { result ≡ moved self }
    {
        self.got_bytes.saturating_add(self.put_bytes)
    }
}
