//! Where a key stands among the records, or would stand.

ghost use Rattle.std.specs.Prelude.{◌≡◌, ℕ, ◌+◌, ◌<◌, length, take, drop, slice_get, Some, IfOk, IfErr};
ghost use Rattle.std.specs.declared.cmp.Ordering.TheVariants.{Less};
ghost use Rattle.std.specs.Ordering.{is_gt};
ghost use Rattle.ftp_lockout.specs.Keys.{key_cmp, key_lent};
ghost use Rattle.ftp_lockout.specs.Failures.{recorded};
ghost use Rattle.ftp_lockout.specs.Places.{AreBlocks, AreInKeyOrder, HasGap, HasPlace, IsAt, IsGapFor, place_in, records_in};

use crate::blocks::Block;
use crate::cache::Failures;
use crate::key::{LentKey, LoginKey};

/// A place among the records: the block, and which of its records.
#[derive(Clone, Copy, Debug)]
pub(crate) struct Place {
    pub(crate) block: usize,
    pub(crate) index: usize,
}

// The last block that begins with no higher key; the first, where there is none.
fn block_of(blocks: &[Block], key: LentKey<'_>) -> usize
    requires some { 0 < length blocks.now }
    requires order { AreInKeyOrder (records_in blocks.now) }
    requires blocks { AreBlocks blocks.now }
    ensures within { result < length blocks.now }
    ensures lower { (i : ℕ) (r : LoginKey × Failures) → slice_get (records_in (take result blocks.now)) i ≡ Some r → key_cmp r.0 (key_lent key.entry) ≡ Less }
    ensures higher { (i : ℕ) (r : LoginKey × Failures) → slice_get (records_in (drop (result + 1) blocks.now)) i ≡ Some r → key_cmp (key_lent key.entry) r.0 ≡ Less }
{
    let mut low = 0;
    let mut high = blocks.len();
    while low + 1 < high {
        let middle = low + (high - low) / 2;
        if begins_higher(&blocks[middle], key) {
            high = middle;
        } else {
            low = middle;
        }
    }
    low
}

// Says whether the block begins with a higher key.
fn begins_higher(block: &Block, key: LentKey<'_>) -> bool
    requires filled { 0 < length block.now.items }
    ensures { (r : LoginKey × Failures) → slice_get block.now.items 0 ≡ Some r → result ≡ is_gt (key_cmp r.0 (key_lent key.entry)) }
{
    block[0].0.order(key).is_gt()
}

/// The place of the key, or the place where it would go.
pub(crate) fn place_of(blocks: &[Block], key: LentKey<'_>) -> Result<Place, Place>
    requires order { AreInKeyOrder (records_in blocks.now) }
    requires blocks { AreBlocks blocks.now }
    ensures found { IfOk result (λ p. IsAt (records_in blocks.now) (key_lent key.entry) (place_in blocks.now p)) }
    ensures place { IfOk result (HasPlace blocks.now) }
    ensures absent { IfErr result (λ p. IsGapFor (records_in blocks.now) (key_lent key.entry) (place_in blocks.now p)) }
    ensures gap { IfErr result (λ p. 0 < length blocks.now → HasGap blocks.now p) }
{
    if blocks.is_empty() {
        return Err(Place { block: 0, index: 0 });
    }
    let block = block_of(blocks, key);
    match place_in_block(&blocks[block], key) {
        Ok(index) => Ok(Place { block, index }),
        Err(index) => Err(Place { block, index }),
    }
}

/// What is recorded at the place.
pub(crate) fn failures_at(blocks: &[Block], place: Place) -> Failures
    requires order { AreInKeyOrder (records_in blocks.now) }
    requires place { HasPlace blocks.now place }
    ensures { (key : LoginKey) → IsAt (records_in blocks.now) key (place_in blocks.now place) → recorded (records_in blocks.now) key ≡ Some result }
{
    blocks[place.block][place.index].1
}

// The place of the key in a block, or the place where it would go.
fn place_in_block(block: &Block, key: LentKey<'_>) -> Result<usize, usize>
    requires { AreInKeyOrder block.now.items }
    ensures found { IfOk result (IsAt block.now.items (key_lent key.entry)) }
    ensures absent { IfErr result (IsGapFor block.now.items (key_lent key.entry)) }
{
    block.binary_search_by(|record| record.0.order(key))
}
