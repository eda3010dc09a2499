//! A file that is kept open between the pieces of a transfer.

ghost use Rattle.std.specs.Prelude.{◌≡◌, IsTrue};

use crate::budget::Budget;
use crate::home::Writable;
use ftp_base::Bytes;
use std::alloc::{AllocError, Global};

/// What a file was opened for.
#[derive(Clone, Copy, Debug, PartialEq, Eq)]
pub(crate) enum Access {
    Read,
    Write,
}

/// Who opened a file, by which path, and what for.
#[derive(Drop)]
pub(crate) struct Use {
    user: Bytes,
    path: Bytes,
    access: Access,
}

impl Use {
    pub(crate) fn new(
        alloc: Global,
        user: &Bytes,
        path: &Bytes,
        access: Access,
    ) -> Result<Use, AllocError> {
        Ok(Use {
            user: user.copy(alloc)?,
            path: path.copy(alloc)?,
            access,
        })
    }

    pub(crate) fn is(&self, user: &Bytes, path: &Bytes, access: Access) -> bool
        ensures user { IsTrue result → self.now.user ≡ user.now }
        ensures path { IsTrue result → self.now.path ≡ path.now }
        ensures access { IsTrue result → self.now.access ≡ access }
    {
        self.access == access && self.path == *path && self.user == *user
    }
}

/// Where an upload stands until it came whole, where it is to stand then, and the home's budget.
#[derive(Drop)]
pub(crate) struct Apart<F> {
    pub(crate) from: Writable,
    pub(crate) onto: Writable,
    pub(crate) budget: Budget,
    /// The file of which it takes the place, with its lock.
    pub(crate) replaced: Option<F>,
}

/// A file that is open, and the place of the byte that is read or written next.
#[derive(Drop)]
pub(crate) struct Opened<F> {
    pub(crate) by: Use,
    pub(crate) file: F,
    pub(crate) at: u64,
    /// None where the file stands at the path by which it was opened.
    pub(crate) apart: Option<Apart<F>>,
}
