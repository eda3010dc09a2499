//! What a listing of a storage in memory shows.

ghost use Rattle.std.specs.Prelude.{◌≡◌, ◌<◌, map as map_list, length, take, false, nat_eq, IfOk, IfSome};
ghost use Rattle.std.specs.Cmp.Lexicographic.{slice_cmp};
ghost use Rattle.std.specs.FinMap as map;
ghost use Rattle.std.specs.List.{slice_index, starts_with};
ghost use Rattle.std.specs.Ordering.{nat_cmp};
ghost use Rattle.std.specs.declared.cmp.Ordering.TheVariants.{Less};
ghost use Rattle.ftp_base.specs.MemoryStorage.{NoneBetween, files_of, front, placed};
ghost use Rattle.ftp_base.specs.Storage.{name, children, info_of};

use super::Node;
use super::storage::meta_at;
use crate::bytes::Bytes;
use crate::path::{is_child, is_root, name_of};
use crate::storage::{FileInfo, Meta};
use std::alloc::{AllocError, Global};
use std::collections::BTreeMap;

/// A child's name and path.
type Place = (Vec<u8>, Vec<u8>);

/// The children of a directory under their names and paths.
///
/// Of all that lies under a child, one path is looked at.
pub(crate) fn places_in(
    alloc: Global,
    nodes: &BTreeMap<Vec<u8>, Node>,
    dir: &[u8],
) -> Result<BTreeMap<Place, Meta>, AllocError>
    ensures { IfOk result (λ places. placed places.entries ≡ map.entries (children (files_of nodes.now.entries) dir.now)) }
{
    let front = front_of(alloc, dir)?;
    let mut from = Vec::from_slice(alloc, front.as_slice())?;
    let mut places = BTreeMap::new(alloc);
    while let Some((path, node)) = nodes.range(&from..).next() {
        if !path.as_slice().starts_with(front.as_slice()) {
            break;
        }
        if is_child(dir, path.as_slice()) {
            let place = place_of(alloc, path.as_slice())?;
            places.insert(place, meta_at(node.standing()))?;
        }
        from = next_after(alloc, dir, path.as_slice())?;
    }
    Ok(places)
}

/// What the paths in a directory begin with.
fn front_of(alloc: Global, dir: &[u8]) -> Result<Vec<u8>, AllocError>
    ensures { IfOk result (λ found. found.items ≡ front dir.now) }
{
    let mut front = Vec::new(alloc);
    if !is_root(dir) {
        front.extend_from_slice(dir)?;
        front.push(b'/')?;
    }
    Ok(front)
}

/// A later path, with no path of the directory in between.
fn next_after(alloc: Global, dir: &[u8], path: &[u8]) -> Result<Vec<u8>, AllocError>
    ensures later { IfOk result (λ next. slice_cmp nat_cmp path.now next.items ≡ Less) }
    ensures skipped { IfOk result (λ next. NoneBetween dir.now path.now next.items) }
{
    match aside(dir, path) {
        Some(at) => {
            let mut next = Vec::from_slice(alloc, &path[..at])?;
            next.push(b'/' + 1)?;
            Ok(next)
        }
        None => {
            let mut next = Vec::from_slice(alloc, path)?;
            next.push(0)?;
            Ok(next)
        }
    }
}

/// Where the first `/` stands in a path behind what does not lead to the directory.
fn aside(dir: &[u8], path: &[u8]) -> Option<usize>
    ensures { IfSome result (λ at. (at < length path.now) × (slice_index path.now at ≡ 47) × (starts_with nat_eq dir.now (take at path.now) ≡ false)) }
{
    let mut at = 0;
    while at < path.len() {
        if path[at] == b'/' && !dir.starts_with(&path[..at]) {
            return Some(at);
        }
        at += 1;
    }
    None
}

fn place_of(alloc: Global, path: &[u8]) -> Result<Place, AllocError>
    ensures { IfOk result (λ place. (place.0.items ≡ name path.now) × (place.1.items ≡ path.now)) }
{
    let name = Vec::from_slice(alloc, name_of(path))?;
    let path = Vec::from_slice(alloc, path)?;
    Ok((name, path))
}

/// What a listing shows of children, in their order.
pub(crate) fn infos_of(
    alloc: Global,
    places: BTreeMap<Place, Meta>,
) -> Result<Vec<FileInfo>, AllocError>
    ensures { IfOk result (λ found. found.items ≡ map_list info_of (placed places.entries)) }
{
    let mut found = Vec::new(alloc);
    for (place, meta) in places {
        found.push(FileInfo {
            name: Bytes::from_vec(place.0),
            meta,
            looks: None,
        })?;
    }
    Ok(found)
}
