//! A user, and what lets it in.

ghost use Rattle.std.specs.Prelude.{◌≡◌, ◌↔◌, IsTrue};

use crate::home::Home;
use crate::pbkdf2::{derived_key, same_key};
use ftp_base::{AuthAnswer, Bytes};

/// What a user may do below its home.
#[derive(Clone, Copy, Debug, PartialEq, Eq)]
pub enum Rights {
    ReadOnly,
    ReadWrite,
}

/// What is stored in place of a password: the key that it derives by the salt in so many rounds.
#[derive(Drop)]
pub struct PasswordHash {
    pub rounds: u32,
    pub salt: Bytes,
    pub key: [u8; 32],
}

/// Which passwords let a user in.
#[derive(Drop)]
pub enum Credential {
    /// Every password.
    Any,
    /// No password, as the account is disabled.
    Disabled,
    /// A password that derives the key.
    Hash(PasswordHash),
}

/// A user of the file.
#[derive(Drop)]
pub struct User {
    pub credential: Credential,
    pub rights: Rights,
    pub home: Home,
    /// How many bytes may lie below the home.
    pub budget: Option<u64>,
}

impl PasswordHash {
    ghost use Rattle.ftp_config.specs.Pbkdf2.{derived_key};

    /// Says whether a password derives the key.
    ///
    /// # Proved
    ///
    /// - A password is right exactly where the key that it derives by the salt in so many rounds is the stored one.
    pub fn verify(&self, password: &[u8]) -> bool
        ensures { IsTrue result ↔ (derived_key password.now self.now.salt self.now.rounds ≡ self.now.key) }
    {
        let key = derived_key(password, self.salt.as_slice(), self.rounds);
        same_key(&key, &self.key)
    }
}

impl Credential {
    ghost use Rattle.ftp_config.specs.Verdict.{hash_or, said_by};

    // Its hash, or a stand-in where it has none.
    pub(crate) fn hash_or<'a>(&'a self, stand_in: &'a PasswordHash) -> &'a PasswordHash
        ensures { result.now ≡ hash_or self.now stand_in.now }
    {
        match self {
            Credential::Hash(hash) => hash,
            Credential::Any | Credential::Disabled => stand_in,
        }
    }

    // What is said where the password is right for its hash, or is not.
    pub(crate) fn answer(&self, right: bool) -> AuthAnswer
        ensures { result ≡ said_by self.now right }
    {
        match self {
            Credential::Any => AuthAnswer::Good,
            Credential::Disabled => AuthAnswer::Disabled,
            Credential::Hash(_) => if right {
                AuthAnswer::Good
            } else {
                AuthAnswer::Refused
            },
        }
    }
}
