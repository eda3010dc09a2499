//! Which paths are being written.

ghost use Rattle.std.specs.Prelude.{◌≡◌, ℕ, List, not, true, false, IfOk, OnOk, OnErr};
ghost use Rattle.ftp_system.specs.Uploads.{OthersStay, is_written};

use std::alloc::{AllocError, Global};
use std::collections::BTreeSet;

/// The paths that uploads write to, of which each has one upload at a time.
#[derive(Drop)]
pub struct Uploads {
    paths: BTreeSet<Vec<u8>>,
    alloc: Global,
}

impl Uploads {
    /// Nothing is written to.
    ///
    /// # Proved
    ///
    /// - An upload begins exactly where none to its path is under way, and from then on one is, until it ends; other
    ///   paths stay (`is_written` in `ftp_system/specs/Uploads.antt`) (`none`; also `Uploads::begin`: `free`, `begun`,
    ///   `others`, `unchanged`; `Uploads::end`: `ended`, `others`).
    pub fn new(alloc: Global) -> Uploads
        ensures none { (path : List ℕ) → is_written result path ≡ false }
    {
        Uploads {
            paths: BTreeSet::new(alloc),
            alloc,
        }
    }

    /// Has an upload to the path begin, and says whether none was under way.
    pub fn begin(&mut self, path: &[u8]) -> Result<bool, AllocError>
        ensures free { IfOk result (λ is_free. is_free ≡ not (is_written self.old path.now)) }
        ensures begun { OnOk result (is_written self.new path.now ≡ true) }
        ensures others { OthersStay path.now self.old self.new }
        ensures unchanged { OnErr result (is_written self.new path.now ≡ is_written self.old path.now) }
    {
        let path = Vec::from_slice(self.alloc, path)?;
        Ok(self.paths.insert(path)?)
    }

    /// The upload to the path is over.
    pub fn end(&mut self, path: &[u8])
        ensures ended { is_written self.new path.now ≡ false }
        ensures others { OthersStay path.now self.old self.new }
    {
        self.paths.remove(path);
    }
}
