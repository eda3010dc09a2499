//! Files that one user alone is told of.

use ftp_base::{Bytes, ErrorKind, FileInfo, MemoryStorage, Meta, Storage, StoreError};

/// Tells ann alone what stands at a path; all else is that of the files.
#[derive(Drop)]
pub struct AnnsFiles {
    files: MemoryStorage,
}

impl AnnsFiles {
    pub fn new(files: MemoryStorage) -> AnnsFiles {
        AnnsFiles { files }
    }
}

impl Storage for AnnsFiles {
    ghost use Rattle.std.specs.Prelude.{None, true};
    ghost use Rattle.ftp_base.specs.MemoryStorage.{storage_faults, storage_limit};

    ghost abilities = { λ _. 1 };

    ghost files = { λ _. None };

    ghost rule = { λ _ _ _ _. None };

    ghost faults = { λ s. storage_faults s.files };

    ghost fault_limit = { λ s. storage_limit s.files };

    ghost reads_take_memory = { true };

    fn features(&self) -> u32 {
        self.files.features()
    }

    fn metadata(&mut self, user: &Bytes, path: &Bytes) -> Result<Meta, StoreError> {
        if user.as_slice() != b"ann".as_slice() {
            return Err(StoreError::Kind(ErrorKind::PermissionDenied));
        }
        self.files.metadata(user, path)
    }

    fn list(&mut self, user: &Bytes, path: &Bytes) -> Result<Vec<FileInfo>, StoreError> {
        self.files.list(user, path)
    }

    fn read_at(
        &mut self,
        user: &Bytes,
        path: &Bytes,
        at: u64,
        out: &mut [u8],
    ) -> Result<usize, StoreError> {
        self.files.read_at(user, path, at, out)
    }

    fn begin(&mut self, user: &Bytes, path: &Bytes, start: u64) -> Result<(), StoreError> {
        self.files.begin(user, path, start)
    }

    fn append(&mut self, user: &Bytes, path: &Bytes, bytes: &[u8]) -> Result<(), StoreError> {
        self.files.append(user, path, bytes)
    }

    fn settle(&mut self, user: &Bytes, path: &Bytes) -> Result<(), StoreError> {
        self.files.settle(user, path)
    }
}
