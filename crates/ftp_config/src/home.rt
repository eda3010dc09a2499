//! The directory of a user's files.

ghost use Rattle.std.specs.Prelude.{◌≡◌, true, is_some, IfSome, IfOk};
ghost use Rattle.std.specs.List.{list_any};
ghost use Rattle.std.specs.Str.{is_utf8};
ghost use Rattle.ftp_config.specs.Home.{is_rooted, is_control, is_home, spelled_home};

use std::alloc::{AllocError, Global};
use std::marker::Model;

/// The directory below which a user's files lie: an absolute path of text without control characters.
#[derive(Drop)]
pub struct Home {
    path: String,
}

impl Model for Home {
    ghost use Rattle.std.specs.Prelude.{◌≡◌, true, ℕ, List, string_bytes};
    ghost use Rattle.ftp_config.specs.Home.{is_home};

    ghost Value = { List ℕ };

    ghost view = { λ h. string_bytes h.path };

    ghost invariant = { λ h. is_home (string_bytes h.path) ≡ true };
}

impl Home {
    /// The home that the bytes spell.
    pub(crate) fn of(alloc: Global, path: &[u8]) -> Result<Option<Home>, AllocError>
        ensures { IfOk result (λ home. home ≡ spelled_home path.now) }
    {
        let Some(path) = home_path(path) else {
            return Ok(None);
        };
        let path = String::from_str(alloc, path)?;
        Ok(Some(Home { path }))
    }

    /// Lends the path.
    ///
    /// # Proved
    ///
    /// - A home is an absolute path, and has no control character (`absolute`).
    pub fn as_str(&self) -> &str
        ensures same { result.now ≡ self.now }
        ensures absolute { is_home result.now ≡ true }
    {
        self.path.as_str()
    }
}

// The bytes as a text, where they may be a home.
fn home_path(path: &[u8]) -> Option<&str>
    ensures found { IfSome result (λ text. text.now ≡ path.now) }
    ensures home { is_some result ≡ is_home path.now }
{
    if !is_rooted(path) || has_control(path) {
        return None;
    }
    match std::str::from_utf8(path) {
        Ok(text) => Some(text),
        Err(_) => None,
    }
}

fn is_rooted(path: &[u8]) -> bool
    ensures { result ≡ is_rooted path.now }
{
    match path {
        [b'/', ..] => true,
        _ => false,
    }
}

fn has_control(path: &[u8]) -> bool
    ensures { result ≡ list_any is_control path.now }
{
    path.iter().any(|b| *b < 32 || *b == 127)
}
