//! Names by a pattern.
//!
//! A row has an answer for each end of a name, for the whole name first: whether it matches what was taken of the pattern, from
//! the back.

ghost use Rattle.std.specs.Prelude.{◌≡◌, ◌+◌, ◌<◌, ◌==◌, ◌&&◌, ◌||◌, ℕ, List, [], ◌∷◌, ◌++◌, true, false, length, replicate, get_or, IfOk, OnOk};
ghost use Rattle.std.specs.List.{list_any};
ghost use Rattle.ftp_disk.specs.Patterns.{AreAnswers, are_options, is_wild, matches, pattern_in, stands_for};

use std::alloc::AllocError;

// Says whether the name has a wildcard.
pub(crate) fn is_wild(name: &[u8]) -> bool
    ensures { result ≡ is_wild name.now }
{
    name.iter().any(|b| *b == b'*' || *b == b'?')
}

fn has_blank(name: &[u8]) -> bool
    ensures { result ≡ list_any (λ b. b == 32) name.now }
{
    name.iter().any(|b| *b == b' ')
}

// Says whether the name is options of a listing.
fn are_options(name: &[u8]) -> bool
    ensures { result ≡ are_options name.now }
{
    matches!(name, [b'-', ..]) && !has_blank(name)
}

/// The pattern that a name stands for where no file has it.
pub(crate) fn pattern_in(name: &[u8]) -> &[u8]
    ensures { result.now ≡ pattern_in name.now }
{
    if are_options(name) { b"*" } else { name }
}

// Says whether a byte of a name is one for which this byte of a pattern stands, and what is behind matches.
fn goes_on(p: u8, b: u8, behind: bool) -> bool
    ensures { result ≡ (stands_for p b && behind) }
{
    (p == b'?' || b == p) && behind
}

fn either(here: bool, behind: bool) -> bool
    ensures { result ≡ (here || behind) }
{
    here || behind
}

// Takes one byte more of a pattern, which is no `*`.
fn take_one(row: &mut [bool], name: &[u8], p: u8)
    requires room { length row.old ≡ length name.now + 1 }
    ensures same_length { length row.new ≡ length row.old }
    ensures before { (k : ℕ) → k < length name.now → get_or row.new k false ≡ (stands_for p (get_or name.now k 0) && get_or row.old (k + 1) false) }
    ensures end { get_or row.new (length name.now) false ≡ false }
{
    for (j, b) in name.iter().enumerate() {
        row[j] = goes_on(p, *b, row[j + 1]);
    }
    row[name.len()] = false;
}

// Takes one byte more of a pattern, which is `*`.
fn take_any(row: &mut [bool], end: usize)
    requires room { length row.old ≡ end + 1 }
    ensures same_length { length row.new ≡ length row.old }
    ensures before { (k : ℕ) → k < end → get_or row.new k false ≡ (get_or row.old k false || get_or row.new (k + 1) false) }
    ensures end { get_or row.new end false ≡ get_or row.old end false }
{
    let mut j = end;
    while j > 0 {
        j -= 1;
        row[j] = either(row[j], row[j + 1]);
    }
}

// Takes one byte more of a pattern.
fn take_byte(row: &mut [bool], name: &[u8], p: u8)
    requires room { length row.old ≡ length name.now + 1 }
    ensures same_length { length row.new ≡ length row.old }
    ensures answers { (pattern : List ℕ) → AreAnswers pattern name.now row.old → AreAnswers (p ∷ pattern) name.now row.new }
{
    if p == b'*' {
        take_any(row, name.len());
    } else {
        take_one(row, name, p);
    }
}

// Takes a pattern whole.
fn take_all(row: &mut [bool], pattern: &[u8], name: &[u8])
    requires room { length row.old ≡ length name.now + 1 }
    requires none { AreAnswers [] name.now row.old }
    ensures same_length { length row.new ≡ length row.old }
    ensures answers { AreAnswers pattern.now name.now row.new }
{
    let mut i = pattern.len();
    while i > 0 {
        i -= 1;
        take_byte(row, name, pattern[i]);
    }
}

// Takes nothing of a pattern: of the ends of a name the empty one alone matches that.
fn take_none(row: &mut Vec<bool>, name: &[u8]) -> Result<(), AllocError>
    ensures { OnOk result (row.new.items ≡ replicate (length name.now) false ++ true ∷ []) }
{
    row.clear();
    row.resize(name.len(), false)?;
    row.push(true)?;
    Ok(())
}

/// Says whether a name matches a pattern, in a time that grows with the product of their lengths. The row is room for the answers.
pub(crate) fn matches(pattern: &[u8], name: &[u8], row: &mut Vec<bool>) -> Result<bool, AllocError>
    ensures { IfOk result (λ found. found ≡ matches pattern.now name.now) }
{
    take_none(row, name)?;
    take_all(row.as_mut_slice(), pattern, name);
    Ok(row[0])
}
