//! The budgets of homes, which all uploads there share.

ghost use Rattle.std.specs.Prelude.{◌≡◌, true, false, IfOk, IfErr};
ghost use Rattle.ftp_base.specs.declared.error_kind.ErrorKind.TheVariants.{ExceededStorageAllocationError};

use crate::purse::Purse;
use ftp_base::{ErrorKind, StoreError};
use std::alloc::{AllocError, Global};
use std::marker::Model;
use std::sync::{Arc, Mutex, Wait};

/// Leave to write so many bytes, which are held of the budget then. It is spent by them, or given back.
pub struct Grant {
    bytes: u64,
}

impl Grant {
    /// The bytes were written.
    pub fn spend(self) {
        let Grant { bytes: _ } = self;
    }
}

/// The budget of a home, if it has one, which contracts see as whether it has.
#[derive(Drop)]
pub struct Budget {
    purse: Option<Arc<Mutex<Purse>, Global>>,
}

impl Model for Budget {
    ghost use Rattle.std.specs.Prelude.{Bool, is_some};

    ghost Value = { Bool };

    ghost view = { λ b. is_some b.purse };
}

impl Budget {
    /// No budget: there is room for everything.
    pub fn none() -> Budget
        ensures { result ≡ false }
    {
        Budget { purse: None }
    }

    /// A budget of so many bytes, of which some were found to be held.
    pub fn new(alloc: Global, bytes: u64, found: u64) -> Result<Budget, AllocError>
        ensures { IfOk result (λ budget. budget ≡ true) }
    {
        let purse = Arc::new(alloc, Mutex::new(Purse::new(bytes, found)))?;
        Ok(Budget { purse: Some(purse) })
    }

    /// The same budget once more.
    pub fn share(&self) -> Result<Budget, AllocError>
        ensures { IfOk result (λ budget. budget ≡ self.now) }
    {
        match &self.purse {
            Some(purse) => Ok(Budget {
                purse: Some(Arc::try_clone(purse)?),
            }),
            None => Ok(Budget { purse: None }),
        }
    }

    /// From now on it is so many bytes.
    pub fn set<R: Wait>(&self, rt: &R, bytes: u64) {
        if let Some(purse) = &self.purse {
            purse.lock(rt).set_budget(bytes);
        }
    }

    /// Takes bytes out, where there is room for them.
    ///
    /// # Proved
    ///
    /// - The leave is for as many bytes as were asked for, and who gets none is told that the budget is exceeded (`granted`, `refused`).
    pub fn grant<R: Wait>(&self, rt: &R, bytes: u64) -> Result<Grant, StoreError>
        ensures granted { IfOk result (λ grant. grant.bytes ≡ bytes) }
        ensures refused { IfErr result (λ e. e ≡ StoreError.Kind ExceededStorageAllocationError) }
    {
        if let Some(purse) = &self.purse {
            if bytes > 0 && !purse.lock(rt).take(bytes) {
                return Err(StoreError::Kind(ErrorKind::ExceededStorageAllocationError));
            }
        }
        Ok(Grant { bytes })
    }

    /// Refuses bytes for which there is no room.
    pub fn check<R: Wait>(&self, rt: &R, bytes: u64) -> Result<(), StoreError>
        ensures refused { IfErr result (λ e. e ≡ StoreError.Kind ExceededStorageAllocationError) }
    {
        match &self.purse {
            Some(purse) if bytes > 0 && !purse.lock(rt).has_room(bytes) => {
                Err(StoreError::Kind(ErrorKind::ExceededStorageAllocationError))
            }
            _ => Ok(()),
        }
    }

    /// Bytes that were granted were not written.
    pub fn give_back<R: Wait>(&self, rt: &R, grant: Grant) {
        let Grant { bytes } = grant;
        self.free(rt, bytes);
    }

    /// So many bytes went with a file, or were cut off it.
    pub fn free<R: Wait>(&self, rt: &R, bytes: u64) {
        if let Some(purse) = &self.purse {
            purse.lock(rt).give_back(bytes);
        }
    }
}
