//! The names that a path leads through.

ghost use Rattle.std.specs.Prelude.{◌≡◌, map, is_some, IfSome, IfOk, OnOk};
ghost use Rattle.std.specs.List.{list_any, slice_split};
ghost use Rattle.ftp_places.specs.Names.{is_separator, is_nul, is_here, is_up, go, names_of, is_file_name};

use std::alloc::{AllocError, Global};

fn is_here(name: &[u8]) -> bool
    ensures { result ≡ is_here name.now }
{
    name.is_empty() || name == b".".as_slice()
}

fn is_up(name: &[u8]) -> bool
    ensures { result ≡ is_up name.now }
{
    name == b"..".as_slice()
}

// Goes to a name.
fn go<'a>(names: &mut Vec<&'a [u8]>, name: &'a [u8]) -> Result<(), AllocError>
    ensures { OnOk result (map (λ n. n.now) names.new.items ≡ go (map (λ n. n.now) names.old.items) name.now) }
{
    if is_here(name) {
        return Ok(());
    }
    if is_up(name) {
        names.pop();
        return Ok(());
    }
    names.push(name)?;
    Ok(())
}

// What stands between the slashes of a path.
fn parts(alloc: Global, path: &[u8]) -> Result<Vec<&[u8]>, AllocError>
    ensures { IfOk result (λ parts. map (λ n. n.now) parts.items ≡ slice_split is_separator path.now) }
{
    path.split(|b| *b == b'/').collect(alloc)
}

/// The names that a path leads through from the root, from which `..` leads nowhere else.
pub fn names_of<'a>(alloc: Global, path: &'a [u8]) -> Result<Vec<&'a [u8]>, AllocError>
    ensures { IfOk result (λ names. map (λ n. n.now) names.items ≡ names_of path.now) }
{
    let parts = parts(alloc, path)?;
    let mut names = Vec::new(alloc);
    for name in &parts {
        go(&mut names, *name)?;
    }
    Ok(names)
}

fn has_separator(name: &[u8]) -> bool
    ensures { result ≡ list_any is_separator name.now }
{
    name.iter().any(|b| *b == b'/')
}

fn has_nul(name: &[u8]) -> bool
    ensures { result ≡ list_any is_nul name.now }
{
    name.iter().any(|b| *b == 0)
}

/// The name as a text, where a file may have it.
pub(crate) fn file_name(name: &[u8]) -> Option<&str>
    ensures found { IfSome result (λ text. text.now ≡ name.now) }
    ensures named { is_some result ≡ is_file_name name.now }
{
    if is_here(name) || is_up(name) {
        return None;
    }
    if has_separator(name) || has_nul(name) {
        return None;
    }
    match std::str::from_utf8(name) {
        Ok(text) => Some(text),
        Err(_) => None,
    }
}
