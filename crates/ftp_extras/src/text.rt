//! Paths and names as they are sent in replies.

ghost use Rattle.std.specs.Prelude.{◌≡◌, ◌++◌, IfOk, OnOk};
ghost use Rattle.std.specs.List.{flat_map};
ghost use Rattle.ftp_places.specs.Names.{names_of as led_through};
ghost use Rattle.ftp_places.specs.Place.{slashed, trail_of};
ghost use Rattle.ftp_extras.specs.Texts.{resolved, sent_byte, sent_text, quoted_byte, quoted};

use ftp_places::names_of;
use std::alloc::{AllocError, Global};

// Puts a byte as it is sent.
fn put_byte(text: &mut Vec<u8>, b: u8) -> Result<(), AllocError>
    ensures { OnOk result (text.new.items ≡ text.old.items ++ sent_byte b) }
{
    match b {
        b'\r' => text.extend_from_slice(b"\r\0")?,
        b'\n' => text.push(0)?,
        _ => text.push(b)?,
    }
    Ok(())
}

// Puts a byte as it is sent in quotes.
fn put_quoted_byte(text: &mut Vec<u8>, b: u8) -> Result<(), AllocError>
    ensures { OnOk result (text.new.items ≡ text.old.items ++ quoted_byte b) }
{
    if b == b'"' {
        text.extend_from_slice(b"\"\"")?;
        return Ok(());
    }
    put_byte(text, b)
}

/// A path or a name as it is sent.
pub(crate) fn sent(alloc: Global, bytes: &[u8]) -> Result<Vec<u8>, AllocError>
    ensures { IfOk result (λ text. text.items ≡ sent_text bytes.now) }
{
    let mut text = Vec::new(alloc);
    for b in bytes {
        put_byte(&mut text, *b)?;
    }
    Ok(text)
}

// A path as it is sent between quotes.
fn sent_in_quotes(alloc: Global, path: &[u8]) -> Result<Vec<u8>, AllocError>
    ensures { IfOk result (λ text. text.items ≡ flat_map quoted_byte path.now) }
{
    let mut text = Vec::new(alloc);
    for b in path {
        put_quoted_byte(&mut text, *b)?;
    }
    Ok(text)
}

/// Puts a path in quotes.
pub(crate) fn put_quoted(text: &mut Vec<u8>, path: &[u8]) -> Result<(), AllocError>
    ensures { OnOk result (text.new.items ≡ text.old.items ++ quoted path.now) }
{
    let path = sent_in_quotes(*text.allocator(), path)?;
    text.extend_from_slice(b"\"")?;
    text.extend_from_slice(path.as_slice())?;
    text.extend_from_slice(b"\"")?;
    Ok(())
}

// Puts a slash and a name.
fn put_slashed(text: &mut Vec<u8>, name: &[u8]) -> Result<(), AllocError>
    ensures { OnOk result (text.new.items ≡ text.old.items ++ slashed name.now) }
{
    text.push(b'/')?;
    text.extend_from_slice(name)?;
    Ok(())
}

// The names that a path leads through, with a slash before each.
fn trail_of(alloc: Global, path: &[u8]) -> Result<Vec<u8>, AllocError>
    ensures { IfOk result (λ text. text.items ≡ trail_of (led_through path.now)) }
{
    let names = names_of(alloc, path)?;
    let mut text = Vec::new(alloc);
    for name in &names {
        put_slashed(&mut text, *name)?;
    }
    Ok(text)
}

/// The path that a path leads to from the root.
pub(crate) fn resolved(alloc: Global, path: &[u8]) -> Result<Vec<u8>, AllocError>
    ensures { IfOk result (λ text. text.items ≡ resolved path.now) }
{
    let text = trail_of(alloc, path)?;
    if text.is_empty() {
        return Vec::from_slice(alloc, b"/");
    }
    Ok(text)
}
