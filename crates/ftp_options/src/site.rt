//! Handlers of SITE commands, by name.

ghost use Rattle.std.specs.Prelude.{◌≡◌, codes, IfOk};
ghost use Rattle.std.specs.List.{list_all};
ghost use Rattle.std.specs.Str.{bytes_eq};
ghost use Rattle.std.specs.Ordering.{nat_cmp};
ghost use Rattle.std.specs.Cmp.Lexicographic.{slice_cmp};
ghost use Rattle.ftp_options.specs.Site.{upper, is_name, is_name_byte};

use ftp_base::{Bytes, Reply};
use std::alloc::{AllocError, Global};
use std::cmp::Ordering;
use std::marker::Model;

/// What was asked for, and by whom.
#[derive(Debug, PartialEq, Eq, Drop)]
pub struct SiteCommandContext {
    /// The name of the command.
    pub command: Bytes,
    /// What stood behind the name.
    pub arguments: Bytes,
    /// The name that the session gave, where it gave one.
    pub username: Option<Bytes>,
}

/// Answers a SITE command.
pub trait SiteCommandHandler {
    fn handle(&self, context: &SiteCommandContext) -> Reply;
}

/// A handler, whatever its type.
pub type Handler = Box<dyn SiteCommandHandler + Drop>;

/// The handlers that were registered, each under its name in upper case.
///
/// A name is found in a time that grows with the logarithm of the count of names.
#[derive(Drop)]
pub struct SiteHandlers<H = Handler> {
    sites: Vec<(Bytes, H)>,
}

impl<H> Model for SiteHandlers<H> {
    ghost use Rattle.std.specs.Prelude.{ℕ, List};
    ghost use Rattle.std.specs.Map.{keys_of};
    ghost use Rattle.std.specs.Ordering.{nat_cmp};
    ghost use Rattle.std.specs.Cmp.Lexicographic.{slice_cmp};
    ghost use Rattle.std.specs.List.Sorted.{IsStrictlySortedBy};

    ghost Value = { List (List ℕ × H) };

    ghost view = { λ h. h.sites.items };

    ghost invariant = { λ h. IsStrictlySortedBy (slice_cmp nat_cmp) (keys_of h.sites.items) };
}

impl<H: Drop> SiteHandlers<H> {
    ghost use Rattle.std.specs.Prelude.{◌≡◌, ◌==◌, [], length, None, OnOk, OnErr};
    ghost use Rattle.std.specs.Option.{option_copied};
    ghost use Rattle.std.specs.Ordering.{nat_cmp};
    ghost use Rattle.std.specs.Cmp.Lexicographic.{slice_cmp};
    ghost use Rattle.std.specs.List.Sorted.{IsSearchInRange, IsBinarySearchResult};
    ghost use Rattle.ftp_options.specs.Site.{handler_of, with_handler, upper, FindsOneMore};

    /// No handler.
    pub(crate) fn new(alloc: Global) -> SiteHandlers<H>
        ensures { result ≡ [] }
    {
        SiteHandlers {
            sites: Vec::new(alloc),
        }
    }

    pub fn is_empty(&self) -> bool
        ensures { result ≡ (length self.now == 0) }
    {
        self.sites.is_empty()
    }

    /// The handler that is registered under the name in upper case.
    ///
    /// # Proved
    ///
    /// - The handler that is registered under a name, whatever its case, and none exactly where there is none.
    pub fn find(&self, name: &[u8]) -> Option<&H>
        ensures { option_copied result ≡ handler_of self.now name.now }
    {
        match self.place_of(name) {
            Ok(place) => Some(&self.sites[place].1),
            Err(_) => None,
        }
    }

    /// Registers a handler under the name in upper case, which has none.
    pub(crate) fn insert(
        &mut self,
        alloc: Global,
        name: &[u8],
        handler: H,
    ) -> Result<(), AllocError>
        requires absent { handler_of self.old name.now ≡ None }
        ensures inserted { OnOk result (self.new ≡ with_handler self.old name.now handler) }
        ensures found { OnOk result (FindsOneMore name.now handler self.old self.new) }
        ensures unchanged { OnErr result (self.new ≡ self.old) }
    {
        let Err(place) = self.place_of(name) else {
            unreachable!();
        };
        let name = upper(alloc, name)?;
        self.sites.insert(place, (name, handler))?;
        Ok(())
    }

    // The place of the name in upper case, or the place where it would go.
    fn place_of(&self, name: &[u8]) -> Result<usize, usize>
        ensures range { IsSearchInRange result (length self.now) }
        ensures place { IsBinarySearchResult (λ site. slice_cmp nat_cmp site.0 (upper name.now)) self.now result }
    {
        self.sites
            .binary_search_by(|site| order(site.0.as_slice(), name))
    }
}

/// The name in upper case.
pub(crate) fn upper(alloc: Global, name: &[u8]) -> Result<Bytes, AllocError>
    ensures { IfOk result (λ bytes. bytes ≡ upper name.now) }
{
    Ok(Bytes::from_vec(name.to_ascii_uppercase(alloc)?))
}

/// Says whether a command can have this name: letters, digits, hyphens and underscores, at least one.
pub(crate) fn is_name(name: &[u8]) -> bool
    ensures { result ≡ is_name name.now }
{
    !name.is_empty() && are_name_bytes(name)
}

fn are_name_bytes(name: &[u8]) -> bool
    ensures { result ≡ list_all is_name_byte name.now }
{
    name.iter()
        .all(|b| b.is_ascii_alphanumeric() || *b == b'-' || *b == b'_')
}

/// Says whether the name is `MD5` in any case.
pub(crate) fn is_md5(name: &[u8]) -> bool
    ensures { result ≡ bytes_eq (upper name.now) (codes "MD5") }
{
    name.eq_ignore_ascii_case(b"MD5")
}

// Where a registered name stands beside another in upper case.
fn order(site: &[u8], name: &[u8]) -> Ordering
    ensures { result ≡ slice_cmp nat_cmp site.now (upper name.now) }
{
    let (mut left, mut right) = (site, name);
    while let ([a, behind_a @ ..], [b, behind_b @ ..]) = (left, right) {
        let order = a.cmp(&b.to_ascii_uppercase());
        if order != Ordering::Equal {
            return order;
        }
        (left, right) = (behind_a, behind_b);
    }
    left.len().cmp(&right.len())
}
