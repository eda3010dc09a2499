//! One storage for all transfers.

ghost use Rattle.std.specs.Prelude.{◌≡◌, ◌+◌, ◌^◌, ◌<◌, ◌≤◌, true, length, IfOk, IsErrOf};

use crate::depot::Depot;
use crate::uploads::Uploads;
use ftp_base::{Bytes, ErrorKind, FileBytes, FileInfo, Meta, Storage, StoreError, count_failed};
use ftp_extras::NoExtras;
use std::alloc::{AllocError, Global};
use std::sync::{Arc, Mutex, Wait};

/// A storage behind a lock, and beside it which paths are being written, each of which refuses a second upload.
#[derive(Drop)]
pub struct SharedDepot<R: Wait + Copy + Drop, S: Storage + Drop> {
    rt: R,
    alloc: Global,
    files: Arc<Mutex<S>, Global>,
    uploads: Arc<Mutex<Uploads>, Global>,
    features: u32,
}

impl<R: Wait + Copy + Drop, S: Storage + Drop> SharedDepot<R, S> {
    /// What the storage can do is asked once.
    pub fn new(rt: R, alloc: Global, storage: S) -> Result<SharedDepot<R, S>, AllocError> {
        let features = storage.features();
        let files = Arc::new(alloc, Mutex::new(storage))?;
        let uploads = Arc::new(alloc, Mutex::new(Uploads::new(alloc)))?;
        Ok(SharedDepot {
            rt,
            alloc,
            files,
            uploads,
            features,
        })
    }
}

impl<R: Wait + Copy + Drop, S: Storage + Drop> Depot for SharedDepot<R, S> {
    type Store = SharedStorage<R, S>;

    type Words = NoExtras;

    fn store(&self) -> Result<SharedStorage<R, S>, AllocError> {
        let files = Arc::try_clone(&self.files)?;
        let uploads = Arc::try_clone(&self.uploads)?;
        Ok(SharedStorage {
            rt: self.rt,
            alloc: self.alloc,
            files,
            uploads,
            own: None,
            loan: None,
            features: self.features,
            faults: 0,
        })
    }

    fn words(&self) -> Result<NoExtras, AllocError> {
        Ok(NoExtras)
    }
}

/// The storage of a `SharedDepot`, for one transfer. The lock is taken for each call, but a file that the storage lends is read
/// as it was at the first read. Once it is dropped, its upload is over.
pub struct SharedStorage<R: Wait + Drop, S: Storage + Drop> {
    rt: R,
    alloc: Global,
    files: Arc<Mutex<S>, Global>,
    uploads: Arc<Mutex<Uploads>, Global>,
    // The path to which this one's upload writes.
    own: Option<Bytes>,
    // The file that this one reads, where it was lent.
    loan: Option<Loan>,
    features: u32,
    faults: u64,
}

/// A file that was lent, with who reads it.
#[derive(Drop)]
struct Loan {
    user: Bytes,
    path: Bytes,
    bytes: FileBytes,
}

impl Loan {
    fn new(alloc: Global, user: &Bytes, path: &Bytes, bytes: FileBytes) -> Result<Loan, AllocError>
        ensures { IfOk result (λ loan. loan.bytes ≡ bytes) }
    {
        Ok(Loan {
            user: user.copy(alloc)?,
            path: path.copy(alloc)?,
            bytes,
        })
    }

    fn is_of(&self, user: &Bytes, path: &Bytes) -> bool {
        self.user == *user && self.path == *path
    }
}

impl<R: Wait + Drop, S: Storage + Drop> Drop for SharedStorage<R, S> {
    fn drop(mut self) {
        self.end_upload();
        let SharedStorage {
            rt: _,
            alloc: _,
            files: _,
            uploads: _,
            own: _,
            loan: _,
            features: _,
            faults: _,
        } = self;
    }
}

impl<R: Wait + Drop, S: Storage + Drop> SharedStorage<R, S> {
    // Has an upload to the path begin, and says whether no other is under way there. One that began before is over.
    fn begin_upload(&mut self, path: &Bytes) -> Result<bool, AllocError>
        ensures features { self.new.features ≡ self.old.features }
        ensures faults { self.new.faults ≡ self.old.faults }
    {
        self.end_upload();
        let own = path.copy(self.alloc)?;
        let is_free = self.uploads.lock(&self.rt).begin(path.as_slice())?;
        if is_free {
            self.own = Some(own);
        }
        Ok(is_free)
    }

    // The upload that began last is over.
    fn end_upload(&mut self)
        ensures features { self.new.features ≡ self.old.features }
        ensures faults { self.new.faults ≡ self.old.faults }
    {
        if let Some(path) = std::mem::replace(&mut self.own, None) {
            self.uploads.lock(&self.rt).end(path.as_slice());
        }
    }
}

impl<R: Wait + Drop, S: Storage + Drop> Storage for SharedStorage<R, S> {
    ghost use Rattle.std.specs.Prelude.{None};

    ghost abilities = { λ s. s.features };

    ghost files = { λ _. None };

    ghost rule = { λ _ _ _ _. None };

    ghost faults = { λ s. s.faults };

    ghost reads_take_memory = { S.reads_take_memory };

    fn features(&self) -> u32 {
        self.features
    }

    fn metadata(&mut self, user: &Bytes, path: &Bytes) -> Result<Meta, StoreError> {
        let found = self.files.lock(&self.rt).metadata(user, path);
        count_failed(found, &mut self.faults)
    }

    fn list(&mut self, user: &Bytes, path: &Bytes) -> Result<Vec<FileInfo>, StoreError> {
        let found = self.files.lock(&self.rt).list(user, path);
        count_failed(found, &mut self.faults)
    }

    fn read_at(
        &mut self,
        user: &Bytes,
        path: &Bytes,
        at: u64,
        out: &mut [u8],
    ) -> Result<usize, StoreError> {
        if let Some(loan) = &self.loan {
            if loan.is_of(user, path) {
                return Ok(loan.bytes.read_at(at, out));
            }
        }
        // A file that the storage lends needs the lock no more afterwards.
        let mut files = self.files.lock(&self.rt);
        let Some(bytes) = files.lend(user, path) else {
            let read = files.read_at(user, path, at, out);
            return count_failed(read, &mut self.faults);
        };
        drop(files);
        let n = bytes.read_at(at, out);
        self.loan = Loan::new(self.alloc, user, path, bytes).ok();
        Ok(n)
    }

    fn begin(&mut self, user: &Bytes, path: &Bytes, start: u64) -> Result<(), StoreError> {
        self.loan = None;
        if !self.begin_upload(path)? {
            return Err(StoreError::Kind(ErrorKind::TransientFileNotAvailable));
        }
        let begun = self.files.lock(&self.rt).begin(user, path, start);
        if begun.is_err() {
            self.end_upload();
        }
        count_failed(begun, &mut self.faults)
    }

    fn append(&mut self, user: &Bytes, path: &Bytes, bytes: &[u8]) -> Result<(), StoreError> {
        self.loan = None;
        let grown = self.files.lock(&self.rt).append(user, path, bytes);
        count_failed(grown, &mut self.faults)
    }

    fn settle(&mut self, user: &Bytes, path: &Bytes) -> Result<(), StoreError> {
        let settled = self.files.lock(&self.rt).settle(user, path);
        count_failed(settled, &mut self.faults)
    }
}
