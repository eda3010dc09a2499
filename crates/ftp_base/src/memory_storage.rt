//! A storage in memory.

mod changes;
mod listing;
mod storage;
mod stored_files;

use crate::bytes::Bytes;
use crate::calls::Calls;
use crate::error_kind::ErrorKind;
use crate::file_bytes::FileBytes;
use crate::path::{is_root, parent_of};
use crate::storage::{FileInfo, StoreError, StoreResult};
use listing::{infos_of, places_in};
use std::alloc::{AllocError, Global};
use std::collections::BTreeMap;
use std::marker::Model;
pub use stored_files::StoredFiles;

/// A directory, or a file with its bytes.
#[derive(Drop)]
pub(crate) struct Node {
    pub(crate) is_dir: bool,
    pub(crate) bytes: FileBytes,
}

impl Node {
    ghost use Rattle.std.specs.Prelude.{◌≡◌, ◌++◌, IfOk, OnOk, OnErr};
    ghost use Rattle.ftp_base.specs.Storage.{cut};
    ghost use Rattle.ftp_base.specs.MemoryStorage.{item_of, standing_item};

    /// Cuts the bytes at a place, or fills them with zeros up to there.
    fn cut(&mut self, start: usize) -> Result<(), AllocError>
        ensures kind { self.new.is_dir ≡ self.old.is_dir }
        ensures begun { OnOk result (self.new.bytes ≡ cut self.old.bytes start) }
        ensures unchanged { OnErr result (self.new.bytes ≡ self.old.bytes) }
    {
        self.bytes.cut(start)
    }

    /// What stands where the node does.
    fn standing(&self) -> Standing<'_>
        ensures { standing_item result ≡ item_of self.now }
    {
        if self.is_dir {
            Standing::Directory
        } else {
            Standing::File(&self.bytes)
        }
    }

    /// An equal node.
    fn share(&self) -> Result<Node, AllocError>
        ensures { IfOk result (λ copy. item_of copy ≡ item_of self.now) }
    {
        Ok(Node {
            is_dir: self.is_dir,
            bytes: self.bytes.share()?,
        })
    }

    /// Puts bytes at the end.
    fn grow(&mut self, bytes: &[u8]) -> Result<(), AllocError>
        ensures kind { self.new.is_dir ≡ self.old.is_dir }
        ensures grown { OnOk result (self.new.bytes ≡ self.old.bytes ++ bytes.now) }
        ensures unchanged { OnErr result (self.new.bytes ≡ self.old.bytes) }
    {
        self.bytes.grow(bytes)
    }
}

/// Keeps files under their paths.
///
/// `/` is a directory. A path lies in what stands before its last `/`, or in `/` where that is empty. Reads, listings,
/// looks at metadata, begins and appends are counted together, from 1, and given calls of them fail.
#[derive(Drop)]
pub struct MemoryStorage {
    nodes: BTreeMap<Vec<u8>, Node>,
    max_file: u64,
    calls: Calls<u64>,
    alloc: Global,
}

/// What was found at a path.
#[derive(Clone, Copy)]
pub(crate) enum Standing<'a> {
    Directory,
    File(&'a FileBytes),
}

impl Model for MemoryStorage {
    ghost use Rattle.ftp_base.specs.MemoryStorage.{MemoryState, state_code};

    ghost Value = { MemoryState };

    ghost coded = { state_code };

    ghost use Rattle.ftp_base.specs.MemoryStorage.{files_of};

    ghost view = { λ s. record { files = files_of s.nodes.entries; max_file = s.max_file; calls = s.calls } };
}

impl MemoryStorage {
    ghost use Rattle.std.specs.Prelude.{◌≡◌, ◌≢◌, ◌↔◌, ◌≤◌, ◌++◌, false, length, Some, None, IsTrue, IsSome, IsErr, IfOk, IfErr, OnOk, OnErr, MatchResult, IsPermutation};
    ghost use Rattle.std.specs.FinMap as map;
    ghost use Rattle.std.specs.Option.{option_map};
    ghost use Rattle.ftp_base.specs.Calls.{rises_above, NoneFailed};
    ghost use Rattle.ftp_base.specs.Memory.{fails_next, fault_limit, StorageMet};
    ghost use Rattle.ftp_base.specs.MemoryStorage.{standing_item, counted, failed, item_of, file_refusal, directory_refusal, append_refusal, if_within};
    ghost use Rattle.std.specs.Str.{bytes_eq};
    ghost use Rattle.ftp_base.specs.Storage.{Directory, root, item, contents, with_file, old_bytes, cut, listing, files_in_order, Refuses};

    /// An empty storage whose files have at most so many bytes.
    pub fn new(alloc: Global, max_file: u64, fails: Vec<u64>) -> MemoryStorage
        ensures files { result.files ≡ map.empty }
        ensures max_file { result.max_file ≡ max_file }
        ensures no_call { result.calls.made ≡ 0 }
        ensures no_fault { result.calls.faults ≡ 0 }
        ensures failing { IsPermutation fails.items result.calls.failing }
        ensures kept { IsTrue (rises_above (λ call. call) 0 fails.items) → result.calls.failing ≡ fails.items }
        ensures limit { IsTrue (rises_above (λ call. call) 0 fails.items) → fault_limit result.calls ≡ length fails.items }
    {
        MemoryStorage {
            nodes: BTreeMap::new(alloc),
            max_file,
            calls: Calls::new(fails),
            alloc,
        }
    }

    /// Makes a directory. It is not counted among the calls.
    ///
    /// # Proved
    ///
    /// - The storage in memory: directories and files are made where nothing refuses, how a directory is refused can be
    ///   asked, files are cut, grown and read at a place, listings are in order of names, and exactly the listed calls
    ///   fail (`made`, `refused`, `unchanged`; also `MemoryStorage::directory_refusal`; `MemoryStorage::put_file`:
    ///   `stored`, `refused`, `unchanged`; `MemoryStorage::begin`: `begun`, `counted`; `MemoryStorage::append`:
    ///   `grown`, `counted`; `MemoryStorage::read_at`: `read`, `counted`; `MemoryStorage::list`: `listed`, `counted`).
    pub fn mkdir(&mut self, path: Bytes) -> StoreResult<()>
        ensures made { OnOk result (self.new ≡ record self.old { files = map.insert self.old.files path Directory }) }
        ensures refused { MatchResult result (λ _. directory_refusal self.old.files path ≡ None) (Refuses (directory_refusal self.old.files path)) }
        ensures no_fault { IfErr result (λ e. e ≢ StoreError.Failed) }
        ensures unchanged { OnErr result (self.new ≡ self.old) }
    {
        if let Some(kind) = self.directory_refusal(path.as_slice()) {
            return Err(StoreError::Kind(kind));
        }
        let node = Node {
            is_dir: true,
            bytes: FileBytes::new(self.alloc, Vec::new(self.alloc))?,
        };
        self.put(path.as_slice(), node)?;
        Ok(())
    }

    /// Puts a file under a path, where there may be one. It is not counted among the calls.
    pub fn put_file(&mut self, path: Bytes, bytes: Vec<u8>) -> StoreResult<()>
        ensures stored { OnOk result (self.new ≡ record self.old { files = with_file self.old.files path bytes.items }) }
        ensures refused { MatchResult result (λ _. file_refusal self.old.files self.old.max_file path (length bytes.items) ≡ None) (Refuses (file_refusal self.old.files self.old.max_file path (length bytes.items))) }
        ensures no_fault { IfErr result (λ e. e ≢ StoreError.Failed) }
        ensures unchanged { OnErr result (self.new ≡ self.old) }
    {
        if let Some(kind) = self.file_refusal(path.as_slice(), bytes.as_slice().len() as u64) {
            return Err(StoreError::Kind(kind));
        }
        let node = Node {
            is_dir: false,
            bytes: FileBytes::new(self.alloc, bytes)?,
        };
        self.put(path.as_slice(), node)?;
        Ok(())
    }

    /// The files, each with its path and its bytes, in byte order of paths.
    ///
    /// # Proved
    ///
    /// - The files of a storage in memory, each with its bytes, in byte order of their paths.
    pub fn files(&self) -> StoredFiles<'_>
        ensures { result ≡ files_in_order self.now.files }
    {
        StoredFiles {
            nodes: self.nodes.iter(),
        }
    }

    /// How a directory is refused.
    pub fn directory_refusal(&self, path: &[u8]) -> Option<ErrorKind>
        ensures { result ≡ directory_refusal self.now.files path.now }
    {
        let Some(Standing::Directory) = self.find(parent_of(path)) else {
            return Some(ErrorKind::PermanentDirectoryNotAvailable);
        };
        match self.find(path) {
            Some(_) => Some(ErrorKind::FileNameNotAllowedError),
            None => None,
        }
    }

    /// What stands at a path.
    fn find(&self, path: &[u8]) -> Option<Standing<'_>>
        ensures { option_map standing_item result ≡ item self.now.files path.now }
    {
        if is_root(path) {
            return Some(Standing::Directory);
        }
        let node = self.nodes.get(path)?;
        Some(node.standing())
    }

    /// How a file is refused that would have so many bytes.
    fn file_refusal(&self, path: &[u8], len: u64) -> Option<ErrorKind>
        ensures { result ≡ file_refusal self.now.files self.now.max_file path.now len }
    {
        let Some(Standing::Directory) = self.find(parent_of(path)) else {
            return Some(ErrorKind::PermanentDirectoryNotAvailable);
        };
        if let Some(Standing::Directory) = self.find(path) {
            return Some(ErrorKind::FileNameNotAllowedError);
        }
        self.size_refusal(len)
    }

    fn size_refusal(&self, len: u64) -> Option<ErrorKind>
        ensures { result ≡ if_within len self.now.max_file }
    {
        if len > self.max_file {
            Some(ErrorKind::ExceededStorageAllocationError)
        } else {
            None
        }
    }

    /// How bytes are refused that would be put at the end of a file.
    fn append_refusal(&self, path: &[u8], len: usize) -> Option<ErrorKind>
        ensures { result ≡ append_refusal (contents self.now.files path.now) self.now.max_file len }
    {
        let Some(Standing::File(bytes)) = self.find(path) else {
            return Some(ErrorKind::PermanentFileNotAvailable);
        };
        let had = bytes.as_slice().len() as u64;
        if self.max_file < had || self.max_file - had < len as u64 {
            return Some(ErrorKind::ExceededStorageAllocationError);
        }
        None
    }

    /// What a listing shows of a directory.
    fn children(&self, dir: &[u8]) -> Result<Vec<FileInfo>, AllocError>
        ensures { IfOk result (λ found. found.items ≡ listing self.now.files dir.now) }
    {
        let places = places_in(self.alloc, &self.nodes, dir)?;
        infos_of(self.alloc, places)
    }

    /// Cuts the file at a path, absent or not, at a place, or fills it with zeros up to there.
    fn cut(&mut self, path: &[u8], start: u64) -> Result<(), AllocError>
        requires other { bytes_eq path.now root ≡ false }
        requires file { item self.old.files path.now ≢ Some Directory }
        ensures begun { OnOk result (self.new ≡ record self.old { files = with_file self.old.files path.now (cut (old_bytes self.old.files path.now) start) }) }
        ensures unchanged { OnErr result (self.new ≡ self.old) }
    {
        if let Some(node) = self.nodes.get_mut(path) {
            node.cut(start as usize)?;
            return Ok(());
        }
        let mut bytes = Vec::new(self.alloc);
        bytes.resize(start as usize, 0)?;
        let file = FileBytes::new(self.alloc, bytes)?;
        self.put(
            path,
            Node {
                is_dir: false,
                bytes: file,
            },
        )
    }

    /// Puts bytes at the end of the file at a path.
    fn grow(&mut self, path: &[u8], bytes: &[u8]) -> Result<(), AllocError>
        requires file { IsSome (contents self.old.files path.now) }
        ensures grown { OnOk result (self.new ≡ record self.old { files = with_file self.old.files path.now (old_bytes self.old.files path.now ++ bytes.now) }) }
        ensures unchanged { OnErr result (self.new ≡ self.old) }
    {
        let Some(node) = self.nodes.get_mut(path) else {
            unreachable!();
        };
        node.grow(bytes)?;
        Ok(())
    }

    /// Puts a node under a path.
    fn put(&mut self, path: &[u8], node: Node) -> Result<(), AllocError>
        ensures stored { OnOk result (self.new ≡ record self.old { files = map.insert self.old.files path.now (item_of node) }) }
        ensures unchanged { OnErr result (self.new ≡ self.old) }
    {
        let key = Vec::from_slice(self.alloc, path)?;
        self.nodes.insert(key, node)?;
        Ok(())
    }

    /// Counts a call, and says whether it fails.
    fn count(&mut self) -> StoreResult<()>
        ensures fails { IsErr result ↔ IsTrue (fails_next self.old.calls) }
        ensures only { IfErr result (λ e. e ≡ StoreError.Failed) }
        ensures counted { OnOk result (self.new ≡ counted self.old) }
        ensures fault_counted { OnErr result (self.new ≡ failed self.old) }
        ensures limit { fault_limit self.new.calls ≤ fault_limit self.old.calls }
        ensures unlisted { OnOk result (NoneFailed (λ call. call) self.old.calls self.new.calls) }
        ensures as_listed { OnErr result (StorageMet (Some self.old.calls) (Some self.new.calls)) }
    {
        if self.calls.next_failing().is_some() {
            self.calls.count_fault();
            return Err(StoreError::Failed);
        }
        self.calls.count_call();
        Ok(())
    }
}
