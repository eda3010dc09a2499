//! Looks at a storage in memory and changes of it that are not counted among its calls.

ghost use Rattle.std.specs.Prelude.{◌≡◌, ◌++◌, IfOk, OnOk};
ghost use Rattle.std.specs.FinMap as map;
ghost use Rattle.std.specs.List.{fold};
ghost use Rattle.ftp_base.specs.MemoryStorage.{item_of, files_of, items};
ghost use Rattle.ftp_base.specs.Moved.{moved_path, with_moved};

use super::storage::meta_at;
use super::{MemoryStorage, Node};
use crate::bytes::Bytes;
use crate::path::is_below;
use crate::storage::{Meta, StoreError, StoreResult};
use std::alloc::{AllocError, Global};
use std::collections::BTreeMap;

impl MemoryStorage {
    ghost use Rattle.std.specs.Prelude.{◌≡◌, ◌≢◌, None, IfOk, IfErr, OnOk, OnErr, MatchResult};
    ghost use Rattle.ftp_base.specs.MemoryStorage.{directory_refusal};
    ghost use Rattle.std.specs.FinMap as map;
    ghost use Rattle.std.specs.Option.{option_map};
    ghost use Rattle.ftp_base.specs.Moved.{moved, has_children};
    ghost use Rattle.ftp_base.specs.Storage.{Directory, item, meta_of, Refuses};

    /// What stands at a path. It is not counted among the calls.
    pub fn meta(&self, path: &[u8]) -> Option<Meta>
        ensures { result ≡ option_map meta_of (item self.now.files path.now) }
    {
        match self.find(path) {
            Some(standing) => Some(meta_at(standing)),
            None => None,
        }
    }

    /// Says whether a directory has children. It is not counted among the calls.
    pub fn has_children(&self, dir: &[u8]) -> Result<bool, AllocError>
        ensures { IfOk result (λ has. has ≡ has_children self.now.files dir.now) }
    {
        Ok(!self.children(dir)?.is_empty())
    }

    /// Makes a directory, as `MemoryStorage::mkdir`.
    pub fn mkdir_at(&mut self, path: &[u8]) -> StoreResult<()>
        ensures made { OnOk result (self.new ≡ record self.old { files = map.insert self.old.files path.now Directory }) }
        ensures refused { MatchResult result (λ _. directory_refusal self.old.files path.now ≡ None) (Refuses (directory_refusal self.old.files path.now)) }
        ensures no_fault { IfErr result (λ e. e ≢ StoreError.Failed) }
        ensures unchanged { OnErr result (self.new ≡ self.old) }
    {
        let path = Bytes::from_slice(self.alloc, path)?;
        self.mkdir(path)
    }

    /// Takes away what stands at a path, if anything does. It is not counted among the calls.
    ///
    /// # Proved
    ///
    /// - What stands at a path of a storage in memory can be taken away, and moved with all that lies below it; that a
    ///   directory has children can be asked (`taken`; also `MemoryStorage::move_to`: `moved`, `unchanged`;
    ///   `MemoryStorage::has_children`; `MemoryStorage::meta`).
    pub fn take_away(&mut self, path: &[u8])
        ensures taken { self.new ≡ record self.old { files = map.remove self.old.files path.now } }
    {
        self.nodes.remove(path);
    }

    /// Moves what stands at a path, and all that lies below it, to another path. It is not counted among the calls.
    pub fn move_to(&mut self, from: &[u8], to: &[u8]) -> Result<(), AllocError>
        ensures moved { OnOk result (self.new ≡ record self.old { files = moved self.old.files from.now to.now }) }
        ensures unchanged { OnErr result (self.new ≡ self.old) }
    {
        if from == to {
            return Ok(());
        }
        self.nodes = moved_nodes(self.alloc, &self.nodes, from, to)?;
        Ok(())
    }
}

/// The nodes once what stands at a path, and all that lies below it, is moved to another path.
fn moved_nodes(
    alloc: Global,
    nodes: &BTreeMap<Vec<u8>, Node>,
    from: &[u8],
    to: &[u8],
) -> Result<BTreeMap<Vec<u8>, Node>, AllocError>
    ensures moved { IfOk result (λ new. files_of new.entries ≡ fold (with_moved from.now to.now) map.empty (items nodes.now.entries)) }
    ensures ordered { IfOk result (λ new. map.entries (files_of nodes.now.entries) ≡ items nodes.now.entries) }
{
    let mut moved = BTreeMap::new(alloc);
    for (path, node) in nodes.iter() {
        put_moved(alloc, &mut moved, path.as_slice(), node, from, to)?;
    }
    Ok(moved)
}

/// Puts a copy of what stands at a path where it stands once another path is moved.
fn put_moved(
    alloc: Global,
    moved: &mut BTreeMap<Vec<u8>, Node>,
    path: &[u8],
    node: &Node,
    from: &[u8],
    to: &[u8],
) -> Result<(), AllocError>
    ensures { OnOk result (files_of moved.new.entries ≡ with_moved from.now to.now (files_of moved.old.entries) (path.now, item_of node.now)) }
{
    if path == to {
        return Ok(());
    }
    let path = moved_path(alloc, path, from, to)?;
    let node = node.share()?;
    moved.insert(path, node)?;
    Ok(())
}

/// Where what stands at a path stands once another path is moved.
fn moved_path(alloc: Global, path: &[u8], from: &[u8], to: &[u8]) -> Result<Vec<u8>, AllocError>
    ensures { IfOk result (λ new. new.items ≡ moved_path from.now to.now path.now) }
{
    if path == from {
        return Vec::from_slice(alloc, to);
    }
    if !is_below(from, path) {
        return Vec::from_slice(alloc, path);
    }
    let (_, behind) = path.split_at(from.len());
    let mut new = Vec::from_slice(alloc, to)?;
    new.extend_from_slice(behind)?;
    Ok(new)
}
