//! A storage in memory as an archive. It knows no dates, and its looks and changes are none of its counted calls.

ghost use Rattle.std.specs.Prelude.{◌≡◌};
ghost use Rattle.ftp_extras.specs.MemoryArchive.{kind_at, remove_refusal, emptied_refusal, target_refusal, rename_refusal};

use crate::archive::{Archive, Found};
use ftp_base::{Bytes, ErrorKind, MemoryStorage, StoreError, is_below, parent_of};

// Says whether a directory stands at a path, where anything does.
fn kind_at(store: &MemoryStorage, path: &[u8]) -> Option<bool>
    ensures { result ≡ kind_at store.now.files path.now }
{
    match store.meta(path) {
        Some(meta) => Some(meta.is_dir),
        None => None,
    }
}

// How it is refused to remove a file.
fn remove_refusal(kind: Option<bool>) -> Option<ErrorKind>
    ensures { result ≡ remove_refusal kind }
{
    match kind {
        Some(false) => None,
        _ => Some(ErrorKind::PermanentFileNotAvailable),
    }
}

// How it is refused to remove what is to be an empty directory.
fn emptied_refusal(kind: Option<bool>, is_root: bool, has_children: bool) -> Option<ErrorKind>
    ensures { result ≡ emptied_refusal kind is_root has_children }
{
    match kind {
        Some(true) if is_root => Some(ErrorKind::PermissionDenied),
        Some(true) if has_children => Some(ErrorKind::PermanentDirectoryNotEmpty),
        Some(true) => None,
        _ => Some(ErrorKind::PermanentDirectoryNotAvailable),
    }
}

// How it is refused that something takes a path.
fn target_refusal(is_dir: bool, target: Option<bool>, is_below: bool) -> Option<ErrorKind>
    ensures { result ≡ target_refusal is_dir target is_below }
{
    match (is_dir, target) {
        (_, None) if !is_below => None,
        (false, Some(false)) => None,
        _ => Some(ErrorKind::FileNameNotAllowedError),
    }
}

// How a rename is refused.
fn rename_refusal(store: &MemoryStorage, from: &[u8], to: &[u8]) -> Option<ErrorKind>
    ensures { result ≡ rename_refusal store.now.files from.now to.now }
{
    let Some(is_dir) = kind_at(store, from) else {
        return Some(ErrorKind::PermanentFileNotAvailable);
    };
    if from == b"/".as_slice() {
        return Some(ErrorKind::PermissionDenied);
    }
    match kind_at(store, parent_of(to)) {
        Some(true) => target_refusal(is_dir, kind_at(store, to), is_below(from, to)),
        _ => Some(ErrorKind::PermanentDirectoryNotAvailable),
    }
}

impl Archive for MemoryStorage {
    ghost use Rattle.ftp_extras.specs.MemoryArchive.{memory_refusal};

    ghost refusals = { λ s files user r. memory_refusal files r };

    fn look(&mut self, user: &Bytes, path: &Bytes) -> Result<Found, StoreError> {
        let _ = user;
        match self.meta(path.as_slice()) {
            Some(meta) => Ok(Found {
                meta,
                modified: None,
            }),
            None => Err(StoreError::Kind(ErrorKind::PermanentFileNotAvailable)),
        }
    }

    fn remove(&mut self, user: &Bytes, path: &Bytes) -> Result<(), StoreError> {
        let _ = user;
        if let Some(kind) = remove_refusal(kind_at(self, path.as_slice())) {
            return Err(StoreError::Kind(kind));
        }
        self.take_away(path.as_slice());
        Ok(())
    }

    fn make_directory(&mut self, user: &Bytes, path: &Bytes) -> Result<(), StoreError> {
        let _ = user;
        self.mkdir_at(path.as_slice())
    }

    fn remove_directory(&mut self, user: &Bytes, path: &Bytes) -> Result<(), StoreError> {
        let _ = user;
        let path = path.as_slice();
        let has_children = self.has_children(path)?;
        let kind = kind_at(self, path);
        if let Some(kind) = emptied_refusal(kind, path == b"/".as_slice(), has_children) {
            return Err(StoreError::Kind(kind));
        }
        self.take_away(path);
        Ok(())
    }

    fn rename(&mut self, user: &Bytes, from: &Bytes, to: &Bytes) -> Result<(), StoreError> {
        let _ = user;
        if let Some(kind) = rename_refusal(self, from.as_slice(), to.as_slice()) {
            return Err(StoreError::Kind(kind));
        }
        self.move_to(from.as_slice(), to.as_slice())?;
        Ok(())
    }

    fn set_modified(&mut self, user: &Bytes, path: &Bytes, at: &Bytes) -> Result<(), StoreError> {
        let _ = user;
        let _ = path;
        let _ = at;
        Err(StoreError::Kind(ErrorKind::CommandNotImplemented))
    }
}
