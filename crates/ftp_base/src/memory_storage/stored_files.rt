//! The files of a storage in memory, one after another.

use super::Node;
use std::collections::btree_map::Iter;
use std::marker::Model;

/// What is left of the files of a storage, each with its path and its bytes.
#[derive(Drop)]
pub struct StoredFiles<'a> {
    pub(super) nodes: Iter<'a, Vec<u8>, Node>,
}

impl<'a> Model for StoredFiles<'a> {
    ghost use Rattle.std.specs.Prelude.{List, ℕ};
    ghost use Rattle.ftp_base.specs.MemoryStorage.{files_among};

    ghost Value = { List (List ℕ × List ℕ) };

    ghost view = { λ s. files_among s.nodes };
}

impl<'a> Iterator for StoredFiles<'a> {
    ghost use Rattle.std.specs.Iterator.{YieldsFirstBy, item_count};

    type Item = (&'a [u8], &'a [u8]);

    ghost next_gives = { YieldsFirstBy (λ f. (f.0.now, f.1.now)) (λ s. s) };

    ghost remaining = { item_count (λ s. s) };

    fn next(&mut self) -> Option<(&'a [u8], &'a [u8])> {
        while let Some((path, node)) = self.nodes.next() {
            if !node.is_dir {
                return Some((path.as_slice(), node.bytes.as_slice()));
            }
        }
        None
    }
}
