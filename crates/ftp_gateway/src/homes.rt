//! The homes of the users of a file.

ghost use Rattle.std.specs.Prelude.{◌≡◌, ◌++◌, ◌∷◌, [], IfOk};
ghost use Rattle.ftp_gateway.specs.Owned.{AreHomesOf, IsHome, is_writer};

use crate::budgets::Budgets;
use ftp_config::{Rights, User, Users};
use ftp_disk::{FileSystem, Home, Homes, remove_leftovers};
use std::alloc::{AllocError, Global};
use std::collections::BTreeMap;

// Whether a user may write.
fn is_writer(rights: Rights) -> bool
    ensures { result ≡ is_writer rights }
{
    match rights {
        Rights::ReadOnly => false,
        Rights::ReadWrite => true,
    }
}

// The home of a user.
fn home(alloc: Global, user: &User, budgets: &Budgets) -> Result<Home, AllocError>
    ensures { IfOk result (IsHome user.now) }
{
    Ok(Home {
        root: String::from_str(alloc, user.home.as_str())?,
        may_write: is_writer(user.rights),
        budget: budgets.find(user.home.as_str())?,
    })
}

/// The homes of users.
///
/// # Proved
///
/// - Each name has the home of its user, with the right to write there that the user has, and no other (`AreHomesOf` in
///   `ftp_gateway/specs/Owned.antt`).
pub fn homes_of(alloc: Global, users: &Users, budgets: &Budgets) -> Result<Homes, AllocError>
    ensures { IfOk result (AreHomesOf users.now) }
{
    let mut homes = Homes::new(alloc);
    for (name, user) in users.iter() {
        let home = home(alloc, user, budgets)?;
        homes.add(Vec::from_slice(alloc, name.as_slice())?, home)?;
    }
    Ok(homes)
}

/// Removes what uploads left in the homes of users as a gateway was killed, in each directory once.
pub fn clear_homes<S: FileSystem>(
    system: &S,
    alloc: Global,
    users: &Users,
) -> Result<(), AllocError> {
    let budgets = Budgets::none(alloc);
    let mut cleared = BTreeMap::new(alloc);
    for (_, user) in users.iter() {
        let root = user.home.as_str().as_bytes();
        if is_writer(user.rights) && !cleared.contains_key(root) {
            clear_home(system, alloc, user, &budgets)?;
            cleared.insert(Vec::from_slice(alloc, root)?, ())?;
        }
    }
    Ok(())
}

// Removes what uploads left in the home of a user.
fn clear_home<S: FileSystem>(
    system: &S,
    alloc: Global,
    user: &User,
    budgets: &Budgets,
) -> Result<(), AllocError> {
    let home = home(alloc, user, budgets)?;
    remove_leftovers(system, alloc, &home)
}
