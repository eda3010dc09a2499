//! Keys of failed logins.

ghost use Rattle.std.specs.Prelude.{◌≡◌, ℕ, List, [], IfOk};
ghost use Rattle.std.specs.Ordering.{nat_cmp};
ghost use Rattle.std.specs.Cmp.Lexicographic.{slice_cmp};
ghost use Rattle.ftp_lockout.specs.Keys.{key_at, key_cmp, key_of, key_lent};
ghost use Rattle.ftp_lockout.specs.Logins.{IsOfVersion};

use ftp_base::{Bytes, IpAddr};
use ftp_options::FailedLoginsBlock;
use std::alloc::{AllocError, Global};
use std::cmp::Ordering;

/// What failed logins are counted by. Without an address the version is 0, without a name the name is empty.
#[derive(Clone, Debug, Drop)]
pub struct LoginKey {
    pub version: u8,
    pub number: u128,
    pub name: Bytes,
}

impl LoginKey {
    /// Gives an equal key.
    pub fn copy(&self, _alloc: Global) -> Result<LoginKey, AllocError>
        ensures { IfOk result (λ copy. copy ≡ self.now) }
    {
        self.clone()
    }

    /// The key of a login.
    pub(crate) fn new(block_by: FailedLoginsBlock, ip: IpAddr, user: Bytes) -> LoginKey
        ensures key { result ≡ key_of block_by ip user }
        ensures within { IsOfVersion ip }
    {
        let (version, number) = address(ip);
        match block_by {
            FailedLoginsBlock::UserAndIP => LoginKey {
                version,
                number,
                name: user,
            },
            FailedLoginsBlock::IP => LoginKey {
                version,
                number,
                name: emptied(user),
            },
            FailedLoginsBlock::User => LoginKey {
                version: 0,
                number: 0,
                name: user,
            },
        }
    }

    /// Lends the name.
    pub(crate) fn lend(&self) -> LentKey<'_>
        ensures { key_lent result ≡ self.now }
    {
        LentKey {
            version: self.version,
            number: self.number,
            name: self.name.as_slice(),
        }
    }

    /// Where the key stands beside another: by version, by address, by name.
    #[tactic(auto, unfolding(crate::specs::Keys::key_cmp))]
    pub(crate) fn order(&self, other: LentKey<'_>) -> Ordering
        ensures { result ≡ key_cmp self.now (key_lent other.entry) }
    {
        let version = self.version.cmp(&other.version);
        let number = self.number.cmp(&other.number);
        let name = name_order(self.name.as_slice(), other.name);
        version.then(number).then(name)
    }
}

/// A key whose name is lent.
#[derive(Clone, Copy, Debug)]
pub(crate) struct LentKey<'a> {
    pub(crate) version: u8,
    pub(crate) number: u128,
    pub(crate) name: &'a [u8],
}

/// The key of a login, with the name lent.
pub(crate) fn lent_key(block_by: FailedLoginsBlock, ip: IpAddr, user: &[u8]) -> LentKey<'_>
    ensures { key_lent result ≡ key_of block_by ip user.now }
{
    let (version, number) = address(ip);
    match block_by {
        FailedLoginsBlock::UserAndIP => LentKey {
            version,
            number,
            name: user,
        },
        FailedLoginsBlock::IP => LentKey {
            version,
            number,
            name: b"",
        },
        FailedLoginsBlock::User => LentKey {
            version: 0,
            number: 0,
            name: user,
        },
    }
}

// The version of an address, and its number.
fn address(ip: IpAddr) -> (u8, u128)
    ensures key { (name : List ℕ) → key_at ip name ≡ record { version = result.0; number = result.1; name = name } }
    ensures within { IsOfVersion ip }
{
    match ip {
        IpAddr::V4(number) => (4, u128::from(number)),
        IpAddr::V6(number) => (6, number),
    }
}

// No bytes, in the memory of these.
fn emptied(bytes: Bytes) -> Bytes
    ensures { result ≡ [] }
{
    let mut none = bytes.into_vec();
    none.clear();
    Bytes::from_vec(none)
}

fn name_order<'a>(a: &'a [u8], b: &'a [u8]) -> Ordering
    ensures { result ≡ slice_cmp nat_cmp a.now b.now }
{
    Ord::cmp(&a, &b)
}
