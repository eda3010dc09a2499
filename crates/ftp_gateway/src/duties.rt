//! What a running gateway does for who asks it at its control socket.

use crate::activity::Activity;
use crate::current_users::{CurrentUsers, UserSource};
use crate::records::RecordFiles;
use crate::refusal::{Refusal, reason};
use crate::setup::read_users;
use crate::user_table::UserTable;
use ftp_base::Bytes;
use ftp_disk::Below;
use std::alloc::{AllocError, Global};
use std::fs::File;
use std::rt::Files;
use std::sync::{Arc, Wait};
use std::time::Clock;

/// What stands before an answer to what was done.
pub const DONE: &str = "ok\n";

/// What stands before why a request was not done.
pub const REFUSED: &str = "refused\n";

/// What a gateway reads anew and tells of.
#[derive(Drop)]
pub struct Duties<R: Wait + Copy + Drop> {
    pub rt: R,
    pub alloc: Global,
    pub users_file: Bytes,
    pub users: CurrentUsers<R>,
    pub activity: Activity,
    pub records: Arc<RecordFiles<R>, Global>,
}

impl<R: Wait + Files<File = File> + Clock + AllocGlobal + Copy + Drop> Duties<R> {
    /// Has the users of the file count from now on. Where it has a fault, those count that did.
    fn read_users_anew(&self) -> Result<(), Refusal> {
        let users = read_users(&self.rt, &self.users_file)?;
        let before = self.users.users()?;
        let system = Below::new(self.rt);
        let table = UserTable::new(&self.rt, &system, self.alloc, users, &before.budgets)?;
        self.users.set(self.alloc, table)?;
        Ok(())
    }

    /// Opens the logs and reads the file of users anew, and says whether both was done, or why not.
    pub fn reload(&self) -> Result<String, AllocError> {
        let reopened = self.records.reopen();
        match self.read_users_anew().and(reopened) {
            Ok(()) => String::from_str(self.alloc, DONE),
            Err(refusal) => self.refused(reason(self.alloc, &refusal)?.as_str()),
        }
    }

    /// Writes the counts anew.
    pub fn count(&self) {
        let _ = self.records.write_metrics();
    }

    /// Tells for how many milliseconds the gateway serves, how many users there are, and what was done.
    pub fn status(&self, millis: u64) -> Result<String, AllocError> {
        let users = self.users.users()?.users.iter().count();
        let seconds = millis / 1000;
        let sessions = self.activity.sessions();
        let downloads = self.activity.downloads();
        let uploads = self.activity.uploads();
        format!(in self.alloc;
            "{DONE}uptime {seconds} s\nusers {users}\nsessions {sessions}\ndownloads {downloads}\nuploads {uploads}\n"
        )
    }

    /// Says why a request is not done.
    pub fn refused(&self, why: &str) -> Result<String, AllocError> {
        format!(in self.alloc; "{REFUSED}{why}\n")
    }
}
