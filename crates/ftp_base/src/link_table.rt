//! Links by number.

ghost use Rattle.std.specs.Prelude.{◌≡◌, ◌↔◌, is_some, IsSome, IsErrOf, IfOk, IfErr, OnOk, OnErr, nat_eq};
ghost use Rattle.std.specs.Option.{option_copied, option_copied_mut};
ghost use Rattle.std.specs.FinMap as map;
ghost use Rattle.std.specs.HashMap.{keys, IsUnique};
ghost use Rattle.std.specs.Borrow.{sem};

use std::alloc::{AllocError, Global};
use std::collections::HashMap;
use std::marker::Model;

/// A finite map from numbers to links.
#[derive(Drop)]
pub struct LinkTable<L> {
    links: HashMap<u64, L>,
}

impl<L> Model for LinkTable<L> {
    ghost use Rattle.std.specs.Prelude.{ℕ};
    ghost use Rattle.std.specs.Ordering.{nat_cmp};
    ghost use Rattle.std.specs.FinMap as map;
    ghost use Rattle.std.specs.Coded.{coded_ℕ};

    ghost Value = { map.FinMap nat_cmp L };

    ghost coded = { map.code coded_ℕ L.code };

    ghost view = { λ a. map.from_entries a.links.entries };
}

/// Why a link was not put into a table. The link comes back.
#[derive(Drop)]
pub enum InsertError<L> {
    /// The number has a link.
    Taken(L),
    OutOfMemory(L),
}

/// The numbers, in any order.
fn keys_of<L>(alloc: Global, links: &HashMap<u64, L>) -> Result<Vec<u64>, AllocError>
    ensures keys { IfOk result (λ v. v.items ≡ keys links.now) }
    ensures unique { IsUnique nat_eq links.now }
{
    let keys = links.keys();
    keys.copied().collect(alloc)
}

impl<L> LinkTable<L> {
    ghost use Rattle.ftp_base.specs.LinkTable.{LendsLink, link_of};

    pub fn new(alloc: Global) -> LinkTable<L>
        ensures { result ≡ map.empty }
    {
        LinkTable {
            links: HashMap::new(alloc),
        }
    }

    pub fn has(&self, number: u64) -> bool
        ensures { result ≡ is_some (map.get self.now number) }
    {
        self.links.contains_key(&number)
    }

    pub fn get(&self, number: u64) -> Option<&L>
        ensures { option_copied result ≡ map.get self.now number }
    {
        self.links.get(&number)
    }

    /// The numbers that have a link, in ascending order.
    pub fn numbers(&self, alloc: Global) -> Result<Vec<u64>, AllocError>
        ensures { IfOk result (λ numbers. numbers.items ≡ map.keys self.now) }
    {
        let mut numbers = keys_of(alloc, &self.links)?;
        numbers.sort_unstable();
        Ok(numbers)
    }

    /// Lends the link for writing.
    pub fn get_mut(&mut self, number: u64) -> Option<&mut L>
        ensures* writes_back { sem 𝓛 (LendsLink L.row self.entry number result) }
        ensures value { option_copied_mut result ≡ map.get self.old number }
    {
        self.links.get_mut(&number)
    }

    /// Puts a link at a number that has none.
    ///
    /// # Proved
    ///
    /// - A table of links is a map from numbers: put, refused exactly where taken, found, lent, listed in order
    ///   (`inserted`, `taken`, `returned`, `unchanged`; also `LinkTable::get`; `LinkTable::get_mut`: `writes_back`,
    ///   `value`; `LinkTable::has`; `LinkTable::numbers`).
    pub fn insert(&mut self, number: u64, link: L) -> Result<(), InsertError<L>>
        ensures inserted { OnOk result (self.new ≡ map.insert self.old number link) }
        ensures taken { IsErrOf result (InsertError.Taken link) ↔ IsSome (map.get self.old number) }
        ensures returned { IfErr result (λ e. link_of e ≡ link) }
        ensures unchanged { OnErr result (self.new ≡ self.old) }
    {
        if self.has(number) {
            return Err(InsertError::Taken(link));
        }
        match self.links.insert(number, link) {
            Ok(None) => Ok(()),
            Ok(Some(_old)) => unreachable!(),
            Err(failed) => Err(InsertError::OutOfMemory(failed.value.1)),
        }
    }
}
