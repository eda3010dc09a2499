//! Paths: the directory that one lies in, and what it is called there.

ghost use Rattle.std.specs.Prelude.{◌≡◌, ◌-◌, not, length};
ghost use Rattle.std.specs.List.{suffix_len};
ghost use Rattle.std.specs.Str.{bytes_eq};
ghost use Rattle.ftp_base.specs.Moved.{is_below};
ghost use Rattle.ftp_base.specs.Storage.{root, is_slash, parent, name, is_child};

/// Says whether a path lies in a directory.
pub(crate) fn is_child(dir: &[u8], path: &[u8]) -> bool
    ensures { result ≡ is_child dir.now path.now }
{
    parent_of(path) == dir && !is_root(path)
}

pub(crate) fn is_root(path: &[u8]) -> bool
    ensures { result ≡ bytes_eq path.now root }
{
    path == b"/".as_slice()
}

/// The directory that a path lies in.
pub fn parent_of(path: &[u8]) -> &[u8]
    ensures { result.now ≡ parent path.now }
{
    let start = name_start(path);
    if start <= 1 {
        return b"/".as_slice();
    }
    &path[..start - 1]
}

/// Says whether a path lies below a directory.
pub fn is_below(dir: &[u8], path: &[u8]) -> bool
    ensures { result ≡ is_below dir.now path.now }
{
    path.starts_with(dir) && path.len() > dir.len() && path[dir.len()] == b'/'
}

/// What a path is called in its directory.
pub(crate) fn name_of(path: &[u8]) -> &[u8]
    ensures { result.now ≡ name path.now }
{
    &path[name_start(path)..]
}

/// Where the name begins that a path ends in: behind its last `/`.
fn name_start(path: &[u8]) -> usize
    ensures { result ≡ length path.now - suffix_len (λ b. not (is_slash b)) path.now }
{
    let mut start = path.len();
    while start > 0 && path[start - 1] != b'/' {
        start -= 1;
    }
    start
}
