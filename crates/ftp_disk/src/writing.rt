//! How an open file is cut and written to, within the budget of the home that it lies in.

ghost use Rattle.std.specs.Prelude.{◌≡◌};

use crate::budget::Budget;
use crate::file_system::FileSystem;
use crate::files::Files;
use crate::refusals::{Answer, refusal, told};
use ftp_base::StoreError;
use std::io;
use std::io::{Seek, SeekFrom};
use std::sync::Wait;

/// Goes to a place of a file.
pub(crate) fn go_to<F: Seek>(file: &mut F, to: SeekFrom) -> Answer<u64> {
    told(file.seek(to))
}

/// Refuses a place that no file of the system reaches.
pub(crate) fn check_reach(at: u64) -> Answer<()> {
    match i64::try_from(at) {
        Ok(_) => Ok(()),
        Err(_) => Err(refusal(io::ErrorKind::FileTooLarge)),
    }
}

impl<R: Wait, S: FileSystem> Files<R, S> {
    /// Cuts a file at a place, or fills it with zeros up to there, and goes to that place. One that ends there is left alone, as ext4
    /// writes out a file that was cut to nothing when it is closed.
    pub(crate) fn cut(&self, budget: &Budget, file: &mut S::File, start: u64) -> Answer<()> {
        let len = go_to(file, SeekFrom::End(0))?;
        if len == start {
            return Ok(());
        }
        let grant = budget.grant(&self.rt, start.saturating_sub(len))?;
        if let Err(error) = self.system.set_len(file, len, start, &grant) {
            budget.give_back(&self.rt, grant);
            return Err(refusal(error.kind()));
        }
        grant.spend();
        budget.free(&self.rt, len.saturating_sub(start));
        go_to(file, SeekFrom::Start(start))?;
        Ok(())
    }

    /// Writes bytes at the end of a file, which stands at this place. What was written before an error is cut off again.
    pub(crate) fn put(
        &self,
        budget: &Budget,
        file: &mut S::File,
        at: u64,
        bytes: &[u8],
    ) -> Answer<()> {
        let grant = budget.grant(&self.rt, bytes.len() as u64)?;
        let Err(error) = self.system.write(file, bytes, &grant) else {
            grant.spend();
            return Ok(());
        };
        if self.system.set_len(file, at, at, &grant).is_err() {
            grant.spend();
            return Err(StoreError::Failed);
        }
        budget.give_back(&self.rt, grant);
        Err(refusal(error.kind()))
    }
}
