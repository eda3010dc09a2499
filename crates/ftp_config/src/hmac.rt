//! HMAC with SHA-256 (RFC 2104).

ghost use Rattle.std.specs.Prelude.{◌≡◌, ◌≤◌, ◌++◌, length, map, drop, bit_xor};
ghost use Rattle.sha2.specs.Hashers.{Holds256};
ghost use Rattle.ftp_config.specs.Hmac.{short_key, key_block, padded, hmac};

use sha2::{Digest, Sha256};

// Copies the bytes to the front of the block.
fn put_front(block: &mut [u8; 64], bytes: &[u8])
    requires { length bytes.now ≤ 64 }
    ensures { block.new ≡ bytes.now ++ drop (length bytes.now) block.old }
{
    block[..bytes.len()].copy_from_slice(bytes);
}

fn key_block(key: &[u8]) -> [u8; 64]
    ensures { result ≡ key_block key.now }
{
    let mut block = [0; 64];
    if key.len() > 64 {
        let digest = Sha256::digest(key);
        put_front(&mut block, digest.as_slice());
    } else {
        put_front(&mut block, key);
    }
    block
}

// Combines each byte with the pad.
fn put_pad(block: &mut [u8; 64], pad: u8)
    ensures { block.new ≡ map (λ b. bit_xor b pad) block.old }
{
    for i in 0..64 {
        block[i] ^= pad;
    }
}

// A hasher that has read the key's block with the pad.
fn hasher_of(key: &[u8], pad: u8) -> Sha256
    ensures { Holds256 result (padded key.now pad) }
{
    let mut block = key_block(key);
    put_pad(&mut block, pad);
    let mut hasher = Sha256::new();
    hasher.update(block.as_slice());
    hasher
}

// A hasher is copied without memory.
fn copy(hasher: &Sha256) -> Sha256
    ensures { result ≡ hasher.now }
{
    hasher.clone().unwrap()
}

/// What HMAC has read of a key, for any number of texts.
#[derive(Drop)]
pub(crate) struct Keyed {
    inner: Sha256,
    outer: Sha256,
}

impl Keyed {
    ghost use Rattle.std.specs.Prelude.{◌≡◌, ◌++◌, List, ℕ};
    ghost use Rattle.ftp_config.specs.Hmac.{hmac};
    ghost use Rattle.ftp_config.specs.Keyed.{IsKeyedBy};

    /// Reads a key.
    pub(crate) fn new(key: &[u8]) -> Keyed
        ensures { IsKeyedBy result key.now }
    {
        Keyed {
            inner: hasher_of(key, 0x36),
            outer: hasher_of(key, 0x5c),
        }
    }

    /// The code of a text and what stands behind it.
    pub(crate) fn code(&self, text: &[u8], end: &[u8]) -> [u8; 32]
        ensures { (key : List ℕ) → IsKeyedBy self.now key → result ≡ hmac key (text.now ++ end.now) }
    {
        let mut inner = copy(&self.inner);
        inner.update(text);
        inner.update(end);
        let digest = inner.finalize();
        let mut outer = copy(&self.outer);
        outer.update(digest.as_slice());
        outer.finalize()
    }
}
