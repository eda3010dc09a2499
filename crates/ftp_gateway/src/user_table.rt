//! The users of a file, with their homes.

use crate::budgets::Budgets;
use crate::homes::homes_of;
use ftp_config::Users;
use ftp_disk::{FileSystem, Homes};
use std::alloc::{AllocError, Global};
use std::sync::{Arc, Wait};

/// The users of a file, with their homes.
#[derive(Drop)]
pub struct UserTable {
    pub users: Users,
    pub homes: Arc<Homes, Global>,
    pub budgets: Budgets,
}

impl UserTable {
    /// The users with their homes, whose budgets go on where there were such before.
    pub fn new<R: Wait, S: FileSystem>(
        rt: &R,
        system: &S,
        alloc: Global,
        users: Users,
        before: &Budgets,
    ) -> Result<UserTable, AllocError> {
        let budgets = Budgets::of(rt, system, alloc, &users, before)?;
        let homes = homes_of(alloc, &users, &budgets)?;
        Ok(UserTable {
            users,
            homes: Arc::new(alloc, homes)?,
            budgets,
        })
    }
}
