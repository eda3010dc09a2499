//! The users that count now.

ghost use Rattle.std.specs.Prelude.{◌≡◌, ℕ, List, Bool, true, IfOk};
ghost use Rattle.std.specs.Arc.{arc_value};
ghost use Rattle.ftp_base.specs.declared.login.AuthAnswer.{AuthAnswer};
ghost use Rattle.ftp_config.specs.Users.{user_named};
ghost use Rattle.ftp_config.specs.Verdict.{answer_for};

use crate::user_table::UserTable;
use std::alloc::{AllocError, Global};
use std::sync::{Arc, Mutex, Wait};

/// Gives the users that count.
pub trait UserSource {
    // Whether users that it gave have this answer for a name and a password.
    ghost may_answer: { Self → List ℕ → List ℕ → AuthAnswer → Bool };

    /// The users that count now.
    fn users(&self) -> Result<Arc<UserTable, Global>, AllocError>
        ensures given { IfOk result (λ table. (name password : List ℕ) →
            may_answer self.now name password (answer_for (user_named name (arc_value table).users) password) ≡ true) };
}

/// The users of a file as it was read last.
#[derive(Drop)]
pub struct CurrentUsers<R: Wait + Drop> {
    rt: R,
    table: Arc<Mutex<Arc<UserTable, Global>>, Global>,
}

impl<R: Wait + Copy + Drop> CurrentUsers<R> {
    /// The users that were read first.
    pub fn new(rt: R, alloc: Global, table: UserTable) -> Result<CurrentUsers<R>, AllocError> {
        let table = Arc::new(alloc, table)?;
        Ok(CurrentUsers {
            rt,
            table: Arc::new(alloc, Mutex::new(table))?,
        })
    }

    /// The same, for another thread.
    pub fn share(&self) -> Result<CurrentUsers<R>, AllocError> {
        Ok(CurrentUsers {
            rt: self.rt,
            table: Arc::try_clone(&self.table)?,
        })
    }

    /// From now on these users count. Who serves the ones before goes on with them.
    pub fn set(&self, alloc: Global, table: UserTable) -> Result<(), AllocError> {
        let table = Arc::new(alloc, table)?;
        *self.table.lock(&self.rt) = table;
        Ok(())
    }
}

impl<R: Wait + Drop> UserSource for CurrentUsers<R> {
    ghost may_answer = { λ _ _ _ _. true };

    fn users(&self) -> Result<Arc<UserTable, Global>, AllocError> {
        let table = self.table.lock(&self.rt);
        Arc::try_clone(&*table)
    }
}
