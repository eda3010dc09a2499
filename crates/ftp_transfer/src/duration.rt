//! Durations for people.

ghost use Rattle.std.specs.Prelude.{◌≡◌, IfOk};
ghost use Rattle.ftp_transfer.specs.Duration.{duration_text};

use ftp_base::Bytes;
use std::alloc::{AllocError, Global};

/// A number of milliseconds.
#[derive(Clone, Copy, Debug, PartialEq, Eq)]
pub struct HumanDuration(pub u64);

impl HumanDuration {
    /// Hours, minutes, seconds and milliseconds, without the leading ones that are zero.
    pub fn text(self, alloc: Global) -> Result<Bytes, AllocError>
        ensures { IfOk result (λ text. text ≡ duration_text self.0) }
    {
        let hours = self.0 / 3_600_000;
        let minutes = self.0 / 60_000 % 60;
        let seconds = self.0 / 1_000 % 60;
        let millis = self.0 % 1_000;
        let text = if hours > 0 {
            format!(in alloc; "{hours}h {minutes}m {seconds}s {millis}ms")?
        } else if minutes > 0 {
            format!(in alloc; "{minutes}m {seconds}s {millis}ms")?
        } else if seconds > 0 {
            format!(in alloc; "{seconds}s {millis}ms")?
        } else {
            format!(in alloc; "{millis}ms")?
        };
        Ok(Bytes::from_vec(text.into_bytes()))
    }
}
