//! The line of a user.

ghost use Rattle.std.specs.Prelude.{◌≡◌, length, map, IfOk};
ghost use Rattle.std.specs.Result.{result_ok};
ghost use Rattle.hex.specs.Hex.{decode_of, decode_sized};
ghost use Rattle.ftp_config.specs.Line.{hash_with, is_scheme, hash_of_parts, hash_of, credential_of, rights_of, last_byte, unit_size, without_unit, budget_size, user_with, user_of_fields, spelled_user};

use crate::home::Home;
use crate::number::rounds_of;
use crate::parts::parts;
use crate::user::{Credential, PasswordHash, Rights, User};
use ftp_base::{Bytes, decimal_in};
use hex::FromHexError;
use std::alloc::{AllocError, Global};

// The bytes that hexadecimal digits spell.
fn salt_of(alloc: Global, digits: &[u8]) -> Result<Option<Bytes>, AllocError>
    ensures { IfOk result (λ salt. salt ≡ result_ok (decode_of digits.now)) }
{
    match hex::decode(alloc, digits) {
        Ok(bytes) => Ok(Some(Bytes::from_vec(bytes))),
        Err(FromHexError::OutOfMemory) => Err(AllocError),
        Err(_) => Ok(None),
    }
}

// The 32 bytes that hexadecimal digits spell.
fn key_of(digits: &[u8]) -> Option<[u8; 32]>
    ensures { result ≡ result_ok (decode_sized digits.now 32) }
{
    let mut key = [0; 32];
    match hex::decode_to_slice(digits, &mut key) {
        Ok(()) => Some(key),
        Err(_) => None,
    }
}

#[tactic(auto, unfolding(crate::specs::Line::hash_with))]
fn hash_with(
    alloc: Global,
    rounds: &[u8],
    salt: &[u8],
    key: &[u8],
) -> Result<Option<PasswordHash>, AllocError>
    ensures { IfOk result (λ hash. hash ≡ hash_with rounds.now salt.now key.now) }
{
    let Some(rounds) = rounds_of(rounds) else {
        return Ok(None);
    };
    let Some(salt) = salt_of(alloc, salt)? else {
        return Ok(None);
    };
    let Some(key) = key_of(key) else {
        return Ok(None);
    };
    Ok(Some(PasswordHash { rounds, salt, key }))
}

// Says whether the first two parts of a hash name the one scheme that there is.
fn is_scheme(front: &[u8], scheme: &[u8]) -> bool
    ensures { result ≡ is_scheme front.now scheme.now }
{
    front.is_empty() && scheme == b"pbkdf2-sha256".as_slice()
}

/// The hash that a text spells: `$pbkdf2-sha256$ROUNDS$SALT$KEY`.
fn hash_of(alloc: Global, text: &[u8]) -> Result<Option<PasswordHash>, AllocError>
    ensures { IfOk result (λ hash. hash ≡ hash_of text.now) }
{
    let parts = parts(alloc, text, b'$')?;
    match parts.as_slice() {
        [front, scheme, rounds, salt, key] => {
            if !is_scheme(*front, *scheme) {
                return Ok(None);
            }
            hash_with(alloc, *rounds, *salt, *key)
        }
        _ => Ok(None),
    }
}

#[tactic(auto, unfolding(crate::specs::Line::credential_of))]
fn credential_of(alloc: Global, text: &[u8]) -> Result<Option<Credential>, AllocError>
    ensures { IfOk result (λ credential. credential ≡ credential_of text.now) }
{
    if text == b"*".as_slice() {
        return Ok(Some(Credential::Any));
    }
    if text == b"!".as_slice() {
        return Ok(Some(Credential::Disabled));
    }
    let Some(hash) = hash_of(alloc, text)? else {
        return Ok(None);
    };
    Ok(Some(Credential::Hash(hash)))
}

#[tactic(auto, unfolding(crate::specs::Line::rights_of))]
fn rights_of(text: &[u8]) -> Option<Rights>
    ensures { result ≡ rights_of text.now }
{
    if text == b"rw".as_slice() {
        return Some(Rights::ReadWrite);
    }
    if text == b"ro".as_slice() {
        return Some(Rights::ReadOnly);
    }
    None
}

// How many bytes the unit at the end stands for.
fn unit_size(text: &[u8]) -> u64
    ensures { result ≡ unit_size (last_byte text.now) }
{
    match text.last() {
        Some(b'K') => 1 << 10,
        Some(b'M') => 1 << 20,
        Some(b'G') => 1 << 30,
        _ => 1,
    }
}

fn without_unit(text: &[u8]) -> &[u8]
    ensures { result.now ≡ without_unit text.now }
{
    if unit_size(text) == 1 {
        text
    } else {
        &text[..text.len() - 1]
    }
}

fn budget_size(text: &[u8]) -> Option<u64>
    ensures { result ≡ budget_size text.now }
{
    let n = decimal_in(without_unit(text))?;
    n.checked_mul(unit_size(text))
}

#[tactic(auto, unfolding(crate::specs::Line::user_with))]
fn user_with(
    alloc: Global,
    name: &[u8],
    hash: &[u8],
    rights: &[u8],
    home: &[u8],
    budget: Option<u64>,
) -> Result<Option<(Bytes, User)>, AllocError>
    ensures { IfOk result (λ user. user ≡ user_with name.now hash.now rights.now home.now budget) }
{
    let Some(credential) = credential_of(alloc, hash)? else {
        return Ok(None);
    };
    let Some(rights) = rights_of(rights) else {
        return Ok(None);
    };
    let Some(home) = Home::of(alloc, home)? else {
        return Ok(None);
    };
    if name.is_empty() {
        return Ok(None);
    }
    let name = Bytes::from_slice(alloc, name)?;
    Ok(Some((
        name,
        User {
            credential,
            rights,
            home,
            budget,
        },
    )))
}

/// The user that a line spells, with its name.
pub(crate) fn spelled_user(alloc: Global, line: &[u8]) -> Result<Option<(Bytes, User)>, AllocError>
    ensures { IfOk result (λ user. user ≡ spelled_user line.now) }
{
    let fields = parts(alloc, line, b':')?;
    match fields.as_slice() {
        [name, hash, rights, home] => user_with(alloc, *name, *hash, *rights, *home, None),
        [name, hash, rights, home, budget] => {
            let Some(budget) = budget_size(*budget) else {
                return Ok(None);
            };
            user_with(alloc, *name, *hash, *rights, *home, Some(budget))
        }
        _ => Ok(None),
    }
}
