//! PBKDF2 with HMAC and SHA-256 (RFC 8018, section 5.2).

ghost use Rattle.std.specs.Prelude.{◌≡◌, ◌↔◌, IsTrue};
ghost use Rattle.ftp_config.specs.Pbkdf2.{xor_bytes, derived_key};

use crate::hmac::Keyed;

// Combines two codes, byte by byte.
fn combine(key: &mut [u8; 32], code: &[u8; 32])
    ensures { key.new ≡ xor_bytes key.old code.now }
{
    for i in 0..32 {
        key[i] ^= code[i];
    }
}

/// The key of 32 bytes that a password and a salt give in so many rounds, of which there is at least one.
///
/// # Proved
///
/// - The key is that of PBKDF2 with HMAC and SHA-256, by definitions over the kit's definition of SHA-256.
pub fn derived_key(password: &[u8], salt: &[u8], rounds: u32) -> [u8; 32]
    ensures { result ≡ derived_key password.now salt.now rounds }
{
    let keyed = Keyed::new(password);
    let mut code = keyed.code(salt, &[0, 0, 0, 1]);
    let mut key = code;
    for i in 0..rounds.saturating_sub(1) {
        code = keyed.code(code.as_slice(), &[]);
        combine(&mut key, &code);
    }
    key
}

/// Says whether two keys are the same, after a look at each byte of both, so that the time does not tell where they differ;
/// no clause says that.
///
/// # Proved
///
/// - Two keys are said to be the same exactly where they are.
pub fn same_key(a: &[u8; 32], b: &[u8; 32]) -> bool
    ensures { IsTrue result ↔ (a.now ≡ b.now) }
{
    let mut differs = 0;
    for i in 0..32 {
        differs |= a[i] ^ b[i];
    }
    differs == 0
}
