//! The budgets of the users' homes.

use ftp_config::Users;
use ftp_disk::{Budget, FileSystem, usage};
use std::alloc::{AllocError, Global};
use std::collections::BTreeMap;
use std::sync::Wait;

/// The budgets of directories, which are those of all users who have their home there.
#[derive(Drop)]
pub struct Budgets {
    by_root: BTreeMap<Vec<u8>, Budget>,
}

// The bytes of each directory that has a budget; of several the fewest.
fn sizes(alloc: Global, users: &Users) -> Result<BTreeMap<Vec<u8>, u64>, AllocError> {
    let mut sizes = BTreeMap::new(alloc);
    for (_, user) in users.iter() {
        let Some(mut bytes) = user.budget else {
            continue;
        };
        let root = user.home.as_str().as_bytes();
        if let Some(other) = sizes.get(root) {
            bytes = bytes.min(*other);
        }
        sizes.insert(Vec::from_slice(alloc, root)?, bytes)?;
    }
    Ok(sizes)
}

impl Budgets {
    /// Nothing has a budget.
    pub fn none(alloc: Global) -> Budgets {
        Budgets {
            by_root: BTreeMap::new(alloc),
        }
    }

    /// The budgets of the users' homes. One that there was before goes on with what is held of it, and any other begins with
    /// what its directory holds.
    pub fn of<R: Wait, S: FileSystem>(
        rt: &R,
        system: &S,
        alloc: Global,
        users: &Users,
        before: &Budgets,
    ) -> Result<Budgets, AllocError> {
        let sizes = sizes(alloc, users)?;
        let budgets = Budgets::over(system, alloc, &sizes, before)?;
        budgets.set(rt, &sizes);
        Ok(budgets)
    }

    // A budget for each directory, as it was before or begun.
    fn over<S: FileSystem>(
        system: &S,
        alloc: Global,
        sizes: &BTreeMap<Vec<u8>, u64>,
        before: &Budgets,
    ) -> Result<Budgets, AllocError> {
        let mut by_root = BTreeMap::new(alloc);
        for (root, bytes) in sizes.iter() {
            let name = Vec::from_slice(alloc, root.as_slice())?;
            let budget = match before.by_root.get(root.as_slice()) {
                Some(budget) => budget.share()?,
                None => begun(system, alloc, root.as_slice(), *bytes)?,
            };
            by_root.insert(name, budget)?;
        }
        Ok(Budgets { by_root })
    }

    // Each budget holds as many bytes as its directory may have now.
    fn set<R: Wait>(&self, rt: &R, sizes: &BTreeMap<Vec<u8>, u64>) {
        for (root, budget) in self.by_root.iter() {
            if let Some(bytes) = sizes.get(root.as_slice()) {
                budget.set(rt, *bytes);
            }
        }
    }

    /// The budget of a directory, if it has one.
    pub fn find(&self, root: &str) -> Result<Budget, AllocError> {
        match self.by_root.get(root.as_bytes()) {
            Some(budget) => budget.share(),
            None => Ok(Budget::none()),
        }
    }
}

// A budget of a directory, of which is held what lies there.
fn begun<S: FileSystem>(
    system: &S,
    alloc: Global,
    root: &[u8],
    bytes: u64,
) -> Result<Budget, AllocError> {
    let found = match std::str::from_utf8(root) {
        Ok(root) => usage(system, alloc, root)?,
        Err(_) => 0,
    };
    Budget::new(alloc, bytes, found)
}
