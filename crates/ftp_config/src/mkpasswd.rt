//! The hash of a password, as `mkpasswd` prints it.

ghost use Rattle.std.specs.Prelude.{◌≡◌, ◌<◌, length, Some, string_bytes, option_map, IfOk};
ghost use Rattle.ftp_base.specs.declared.login.AuthAnswer.TheVariants.{Good};
ghost use Rattle.ftp_config.specs.Line.{hash_text, hash_of, credential_of};
ghost use Rattle.ftp_config.specs.Verdict.{hash_by, answer_of};

use crate::pbkdf2::derived_key;
use std::alloc::{AllocError, Global};

/// The HASH of a line: `$pbkdf2-sha256$ROUNDS$SALT$KEY`, with the key that the password and the salt give in so many rounds.
///
/// # Proved
///
/// - The text is read back as the hash of the password by the salt in so many rounds (`hash`), and where a line has it, Good is
///   said to the password (`good`).
pub fn hash_line(
    alloc: Global,
    password: &[u8],
    salt: &[u8],
    rounds: u32,
) -> Result<String, AllocError>
    requires in_range { 0 < rounds }
    ensures hash { IfOk result (λ text. hash_of (string_bytes text) ≡ Some (hash_by password.now salt.now rounds)) }
    ensures good { IfOk result (λ text. option_map (λ credential. answer_of credential password.now) (credential_of (string_bytes text)) ≡ Some Good) }
{
    let key = derived_key(password, salt, rounds);
    hash_text(alloc, rounds, salt, key.as_slice())
}

fn hash_text(alloc: Global, rounds: u32, salt: &[u8], key: &[u8]) -> Result<String, AllocError>
    requires in_range { 0 < rounds }
    requires whole { length key.now ≡ 32 }
    ensures text { IfOk result (λ text. string_bytes text ≡ hash_text rounds salt.now key.now) }
    ensures hash { IfOk result (λ text. hash_of (string_bytes text) ≡ Some (record { rounds = rounds; salt = salt.now; key = key.now })) }
{
    let salt_hex = hex::encode(alloc, salt)?;
    let key_hex = hex::encode(alloc, key)?;
    let (salt_hex, key_hex) = (salt_hex.as_str(), key_hex.as_str());
    format!(in alloc; "$pbkdf2-sha256${rounds}${salt_hex}${key_hex}")
}
