//! Uploads that stand beside their path until they came whole.

ghost use Rattle.std.specs.Prelude.{◌≡◌, true, is_some, IfOk, IfSome, OnOk};
ghost use Rattle.ftp_disk.specs.FileSystem.{IsUnlinked};

use crate::budget::Budget;
use crate::file_system::FileSystem;
use crate::files::Files;
use crate::home::Writable;
use crate::opened::{Apart, Opened, Use};
use crate::opening::{create, in_directory, resolve_writable};
use crate::refusals::{Answer, refusal};
use crate::standing::Standing;
use ftp_base::{ErrorKind, StoreError};
use std::alloc::Global;
use std::sync::Wait;

/// The file of which another one takes the place, with its lock.
pub(crate) fn open_replaced<S: FileSystem>(
    system: &S,
    alloc: Global,
    onto: &Writable,
) -> Answer<Option<S::File>>
    ensures unlinked { OnOk result (IsUnlinked (S.told system.now) onto.now) }
{
    let found = resolve_writable(system, alloc, onto)?;
    match found {
        Standing::Directory => Err(StoreError::Kind(ErrorKind::FileNameNotAllowedError)),
        Standing::File(_) => {
            let file = create(system, onto)?;
            Ok(Some(file))
        }
        Standing::Nothing => Ok(None),
    }
}

/// Opens a file beside a path with its lock, unless another upload has that, and makes it where there is none.
pub(crate) fn open_beside<S: FileSystem>(
    system: &S,
    alloc: Global,
    from: &Writable,
) -> Answer<S::File>
    ensures unlinked { OnOk result (IsUnlinked (S.told system.now) from.now) }
{
    let found = resolve_writable(system, alloc, from)?;
    let file = match found {
        Standing::Directory => {
            return Err(StoreError::Kind(ErrorKind::FileNameNotAllowedError));
        }
        Standing::File(_) => create(system, from)?,
        Standing::Nothing => in_directory(create(system, from))?,
    };
    match system.is_at(&file, from.as_place()) {
        Ok(true) => Ok(file),
        // Its upload ended between the opening and the lock.
        Ok(false) | Err(_) => Err(StoreError::Kind(ErrorKind::TransientFileNotAvailable)),
    }
}

impl<R: Wait, S: FileSystem> Files<R, S> {
    // Removes what an upload wrote beside its path, and gives its bytes back.
    fn remove(&self, budget: &Budget, from: &Writable) {
        if let Ok(Standing::File(len)) = resolve_writable(&self.system, self.alloc, from) {
            if self.system.remove_file(from).is_ok() {
                budget.free(&self.rt, len);
            }
        }
    }

    // Opens a file beside a path, of which nothing is left.
    fn open_empty(&self, budget: &Budget, from: &Writable) -> Answer<S::File> {
        let mut file = open_beside(&self.system, self.alloc, from)?;
        if let Err(error) = self.cut(budget, &mut file, 0) {
            self.remove(budget, from);
            return Err(error);
        }
        Ok(file)
    }

    /// Begins an upload beside its path.
    pub(crate) fn begin_beside(
        &self,
        by: Use,
        from: Writable,
        onto: Writable,
        budget: Budget,
    ) -> Answer<Opened<S::File>>
        ensures unlinked { OnOk result (IsUnlinked (S.told self.now.system) onto) }
        ensures apart { IfOk result (λ opened. is_some opened.apart ≡ true) }
    {
        let replaced = open_replaced(&self.system, self.alloc, &onto)?;
        let file = self.open_empty(&budget, &from)?;
        let apart = Apart {
            from,
            onto,
            budget,
            replaced,
        };
        Ok(Opened {
            by,
            file,
            at: 0,
            apart: Some(apart),
        })
    }

    /// Removes what an upload has written beside its path, where it stands there.
    pub(crate) fn leave_off(&self, opened: &Opened<S::File>) {
        if let Some(apart) = &opened.apart {
            self.remove(&apart.budget, &apart.from);
        }
    }

    /// Renames an upload that came whole, and stands beside its path, to its path. The bytes that it takes the place of are given
    /// back to the budget then.
    ///
    /// # Proved
    ///
    /// - An upload that stands beside its path is in its place only where the system renamed it (`renamed`).
    pub(crate) fn finish(&self, opened: &Opened<S::File>) -> Answer<()>
        ensures renamed { OnOk result (IfSome opened.now.apart (λ apart. S.renamed self.now.system apart.from apart.onto)) }
    {
        let Some(apart) = &opened.apart else {
            return Ok(());
        };
        let found = resolve_writable(&self.system, self.alloc, &apart.onto)?;
        // What came to stand there meanwhile is not replaced while another upload writes to it.
        let _lock = match (&apart.replaced, found) {
            (None, Standing::File(_)) => open_replaced(&self.system, self.alloc, &apart.onto)?,
            _ => None,
        };
        resolve_writable(&self.system, self.alloc, &apart.from)?;
        match self.system.rename(&apart.from, &apart.onto) {
            Ok(()) => {
                if let Standing::File(len) = found {
                    apart.budget.free(&self.rt, len);
                }
                Ok(())
            }
            Err(error) => Err(refusal(error.kind())),
        }
    }
}
