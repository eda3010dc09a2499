//! What a session of a gateway may do beyond the profile.

ghost use Rattle.std.specs.Prelude.{◌≡◌, ℕ, List, Option, IfOk};

use crate::current_users::{CurrentUsers, UserSource};
use ftp_control::Command;
use ftp_disk::{Below, DiskStorage};
use ftp_extras::{Asker, Extra, Extras, FileExtras, Offers};
use std::alloc::{AllocError, Global};
use std::fs::File;
use std::rt::Files;
use std::sync::{Arc, Wait};
use std::time::Clock;

/// A storage over the homes of the users that count now.
pub fn storage_of<R: Wait + Files<File = File> + Clock + Copy + Drop>(
    rt: R,
    alloc: Global,
    users: &CurrentUsers<R>,
) -> Result<DiskStorage<R, Below<R>>, AllocError>
    ensures { IfOk result (λ store. store.faults ≡ 0) }
{
    let table = users.users()?;
    let homes = Arc::try_clone(&table.homes)?;
    Ok(DiskStorage::new(rt, alloc, Below::new(rt), homes))
}

/// The words that look at files and change them, over the homes of the users that count when a line comes: a session goes on in
/// the home that its name has then, as its transfers do.
#[derive(Drop)]
pub struct HomeWords<R: Wait + Files<File = File> + Clock + Copy + Drop> {
    rt: R,
    alloc: Global,
    users: CurrentUsers<R>,
    words: FileExtras<DiskStorage<R, Below<R>>>,
}

impl<R: Wait + Files<File = File> + Clock + Copy + Drop> HomeWords<R> {
    /// The words of one session, before its first line.
    pub fn new(
        rt: R,
        alloc: Global,
        users: CurrentUsers<R>,
        offers: Offers,
    ) -> Result<HomeWords<R>, AllocError> {
        let store = storage_of(rt, alloc, &users)?;
        Ok(HomeWords {
            rt,
            alloc,
            users,
            words: FileExtras::new(alloc, offers, store),
        })
    }
}

impl<R: Wait + Files<File = File> + Clock + Copy + Drop> Extras for HomeWords<R> {
    ghost use Rattle.ftp_extras.specs.Answers.{MayDo};

    ghost pending = { λ x. x.words.pending };

    ghost may = { λ x who before c line y after. MayDo x.words.offers who before c line y after };

    ghost faults = { λ _. 0 };

    // Each line is answered over a storage that was not called before, so no failed call is counted.
    fn hear(
        &mut self,
        asker: Asker<'_>,
        command: &Command,
        line: &[u8],
    ) -> Result<Extra, AllocError> {
        let store = storage_of(self.rt, self.alloc, &self.users)?;
        self.words.go_on_over(store);
        self.words.hear(asker, command, line)
    }
}
