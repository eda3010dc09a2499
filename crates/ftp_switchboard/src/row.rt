//! The row of one source: a bit for each port of the range, and the ports that are held, with their sessions.
//!
//! Words and pairs are read by `look` and `pair` alone.

ghost use Rattle.std.specs.Prelude.{◌≡◌, ◌≢◌, ℕ, ◌+◌, ◌-◌, ◌/◌, ◌^◌, ◌<◌, ◌≤◌, [], length, get_or, replicate, set, take as list_take, vec_len, vec_capacity, IfOk, OnOk, OnErr};
ghost use Rattle.std.specs.List.{insert, remove};
ghost use Rattle.ftp_switchboard.specs.Bits.{bit_of, HasPlace};

use crate::looks::Looks;
use std::alloc::{AllocError, Global};

// Port `lo + j` of a range from `lo` is bit `j % 64` of word `j / 64`. The pairs of a port and a session stand in order
// of ports.
#[derive(Drop)]
pub(crate) struct Row {
    words: Vec<u64>,
    pairs: Vec<(u16, u64)>,
}

impl Row {
    // No port is held, and there is a place for one.
    pub(crate) fn new(alloc: Global, width: usize) -> Result<Row, AllocError>
        ensures words { IfOk result (λ row. row.words.items ≡ replicate width 0) }
        ensures pairs { IfOk result (λ row. row.pairs.items ≡ []) }
        ensures place { IfOk result (λ row. HasPlace row) }
    {
        let words = vec![in alloc; 0u64; width]?;
        let pairs = Vec::with_capacity(alloc, 1)?;
        Ok(Row { words, pairs })
    }

    // How many ports are held.
    pub(crate) fn len(&self) -> usize
        ensures len { result ≡ vec_len self.now.pairs }
    {
        self.pairs.len()
    }

    // Word `j`.
    pub(crate) fn look(&self, j: u32, looks: &mut Looks) -> u64
        requires within { j < length self.now.words.items }
        requires count { looks.old < u64.MAX }
        ensures word { result ≡ get_or self.now.words.items j 0 }
        ensures looks { looks.new ≡ looks.old + 1 }
    {
        looks.add();
        self.words[j as usize]
    }

    // Pair `i`: a port and its session.
    pub(crate) fn pair(&self, i: u32, looks: &mut Looks) -> (u16, u64)
        requires within { i < length self.now.pairs.items }
        requires count { looks.old < u64.MAX }
        ensures pair { result ≡ get_or self.now.pairs.items i (0, 0) }
        ensures looks { looks.new ≡ looks.old + 1 }
    {
        looks.add();
        self.pairs[i as usize]
    }

    // Makes a place for one more pair.
    pub(crate) fn make_place(&mut self) -> Result<(), AllocError>
        ensures ok { OnOk result (HasPlace self.new) }
        ensures kept { HasPlace self.old → HasPlace self.new }
        ensures words { self.new.words ≡ self.old.words }
        ensures pairs { self.new.pairs.items ≡ self.old.pairs.items }
    {
        self.pairs.reserve(1)
    }

    // Sets bit `j`, and puts in a pair before the place.
    pub(crate) fn put(&mut self, j: u32, place: u32, pair: (u16, u64))
        requires bit { j / 64 < length self.old.words.items }
        requires within { place ≤ length self.old.pairs.items }
        requires place { HasPlace self.old }
        ensures bit { bit_of self.new.words.items j ≡ 1 }
        ensures others { (i : ℕ) → i ≢ j → bit_of self.new.words.items i ≡ bit_of self.old.words.items i }
        ensures width { length self.new.words.items ≡ length self.old.words.items }
        ensures pairs { self.new.pairs.items ≡ insert self.old.pairs.items place pair }
    {
        self.words[(j / 64) as usize] |= 1 << (j % 64);
        match self.pairs.insert(place as usize, pair) {
            Ok(()) => {}
            Err(_) => unreachable!(),
        }
    }

    // Clears bit `j`, and takes out the pair at the place.
    pub(crate) fn take(&mut self, j: u32, place: u32)
        requires bit { j / 64 < length self.old.words.items }
        requires within { place < length self.old.pairs.items }
        ensures bit { bit_of self.new.words.items j ≡ 0 }
        ensures others { (i : ℕ) → i ≢ j → bit_of self.new.words.items i ≡ bit_of self.old.words.items i }
        ensures width { length self.new.words.items ≡ length self.old.words.items }
        ensures pairs { self.new.pairs.items ≡ remove self.old.pairs.items place }
        ensures place { HasPlace self.new }
    {
        self.clear(j);
        self.pairs.remove(place as usize);
    }

    // Clears bit `j`.
    pub(crate) fn clear(&mut self, j: u32)
        requires bit { j / 64 < length self.old.words.items }
        ensures bit { bit_of self.new.words.items j ≡ 0 }
        ensures others { (i : ℕ) → i ≢ j → bit_of self.new.words.items i ≡ bit_of self.old.words.items i }
        ensures width { length self.new.words.items ≡ length self.old.words.items }
        ensures pairs { self.new.pairs ≡ self.old.pairs }
    {
        self.words[(j / 64) as usize] &= !(1 << (j % 64));
    }

    // Puts the pair at the place, over the one that stood there.
    pub(crate) fn write(&mut self, place: u32, pair: (u16, u64))
        requires within { place < length self.old.pairs.items }
        ensures words { self.new.words ≡ self.old.words }
        ensures pairs { self.new.pairs.items ≡ set self.old.pairs.items place pair }
    {
        self.pairs[place as usize] = pair;
    }

    // Takes out the pairs from the place on.
    pub(crate) fn truncate(&mut self, place: u32)
        ensures words { self.new.words ≡ self.old.words }
        ensures pairs { self.new.pairs.items ≡ list_take place self.old.pairs.items }
    {
        self.pairs.truncate(place as usize);
    }
}
