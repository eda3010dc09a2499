//! Which names of a home's files clients may use and see.

ghost use Rattle.std.specs.Prelude.{◌≡◌, ◌++◌, IfOk};
ghost use Rattle.std.specs.List.{list_all, list_any};
ghost use Rattle.ftp_places.specs.Names.{names_of};
ghost use Rattle.ftp_disk.specs.Visible.{UploadsAreHidden, ends_line, is_upload_name, is_visible_name, upload_mark};

use ftp_places::names_of;
use std::alloc::{AllocError, Global};

fn has_line_end(name: &[u8]) -> bool
    ensures { result ≡ list_any ends_line name.now }
{
    name.iter().any(|b| *b == b'\r' || *b == b'\n')
}

/// Whether the name is that of an upload that did not come whole.
pub(crate) fn is_upload_name(name: &[u8]) -> bool
    ensures { result ≡ is_upload_name name.now }
{
    name.starts_with(b".ftp-upload-")
}

/// The name under which an upload to a file of this name stands until it came whole.
pub(crate) fn upload_name(alloc: Global, name: &[u8]) -> Result<Vec<u8>, AllocError>
    ensures { IfOk result (λ apart. apart.items ≡ upload_mark ++ name.now) }
{
    let mut apart = Vec::from_slice(alloc, b".ftp-upload-")?;
    apart.extend_from_slice(name)?;
    Ok(apart)
}

/// Whether clients may use the name: it fits on a line, and is not that of an upload that did not come whole.
pub(crate) fn is_visible(name: &[u8]) -> bool
    ensures { result ≡ is_visible_name name.now }
{
    !has_line_end(name) && !is_upload_name(name)
}

// Whether clients may use each of the names.
fn all_visible(names: &[&[u8]]) -> bool
    ensures { result ≡ list_all (λ name. is_visible_name name.now) names.now }
{
    names.iter().all(|name| is_visible(*name))
}

/// Whether clients may use each name that a path leads through.
pub(crate) fn are_visible(alloc: Global, path: &[u8]) -> Result<bool, AllocError>
    ensures { IfOk result (λ visible. visible ≡ list_all is_visible_name (names_of path.now)) }
{
    let names = names_of(alloc, path)?;
    Ok(all_visible(names.as_slice()))
}

/// Clients use no name under which an upload stands until it came whole. The function does nothing: its clause is the law.
pub fn uploads_are_hidden()
    ensures hidden { UploadsAreHidden }
{}
