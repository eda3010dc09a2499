//! Records in order of keys, in blocks, so that a new one moves those of its block alone.

ghost use Rattle.std.specs.Prelude.{◌≡◌, ◌<◌, ◌≤◌, ◌∷◌, [], length, take, drop, set, slice_get, vec_len, vec_capacity, Some, OnOk, IsOk, if◌then◌else◌};
ghost use Rattle.std.specs.List.{insert, remove};
ghost use Rattle.ftp_lockout.specs.Keys.{same_key};
ghost use Rattle.ftp_lockout.specs.Failures.{recorded};
ghost use Rattle.ftp_lockout.specs.Places.{AreBlocks, AreInKeyOrder, AreRoomy, HasGap, HasPlace, IsAt, IsOpen, place_in, records_in};

use crate::cache::Failures;
use crate::key::LoginKey;
use crate::places::Place;
use std::alloc::{AllocError, Global};
use std::mem;

/// How many records a block has at most.
const BLOCK: usize = 128;

/// How many records a full block keeps where it is halved.
const HALF: usize = 64;

/// Records in order of keys, at least one.
pub(crate) type Block = Vec<(LoginKey, Failures)>;

/// Takes the memory that one more key needs.
pub(crate) fn make_room(blocks: &mut Vec<Block>, next: &mut Block) -> Result<(), AllocError>
    requires empty { next.old.items ≡ [] }
    ensures room { OnOk result (vec_len blocks.new < vec_capacity blocks.new) }
    ensures next { OnOk result (128 ≤ vec_capacity next.new) }
    ensures items { blocks.new.items ≡ blocks.old.items }
    ensures empty { next.new.items ≡ [] }
    ensures succeeds { vec_len blocks.old < vec_capacity blocks.old → 128 ≤ vec_capacity next.old → IsOk result }
{
    blocks.reserve(1)?;
    next.reserve(BLOCK)
}

/// Sets what is recorded of the key at the place.
pub(crate) fn set_at(blocks: &mut Vec<Block>, place: Place, failures: Failures)
    requires order { AreInKeyOrder (records_in blocks.old.items) }
    requires blocks { AreBlocks blocks.old.items }
    requires place { HasPlace blocks.old.items place }
    ensures recorded { (key other : LoginKey) → IsAt (records_in blocks.old.items) key (place_in blocks.old.items place) →
        recorded (records_in blocks.new.items) other ≡ (if same_key other key then Some failures else recorded (records_in blocks.old.items) other) }
    ensures order { AreInKeyOrder (records_in blocks.new.items) }
    ensures blocks { AreBlocks blocks.new.items }
    ensures len { vec_len blocks.new ≡ vec_len blocks.old }
    ensures capacity { vec_capacity blocks.new ≡ vec_capacity blocks.old }
{
    write(&mut blocks[place.block], place.index, failures);
}

// Sets what is recorded at the place of a block.
fn write(block: &mut Block, index: usize, failures: Failures)
    requires { index < length block.old.items }
    ensures items { (r : LoginKey × Failures) → slice_get block.old.items index ≡ Some r → block.new.items ≡ set block.old.items index (r.0, failures) }
    ensures capacity { vec_capacity block.new ≡ vec_capacity block.old }
{
    block[index].1 = failures;
}

/// Makes a place where a key would go one of a block that is not full: a full block is halved, by way of the next one.
pub(crate) fn open_block(
    alloc: Global,
    blocks: &mut Vec<Block>,
    next: &mut Block,
    place: Place,
) -> Place
    requires blocks { AreBlocks blocks.old.items }
    requires gap { HasGap blocks.old.items place }
    requires room { vec_len blocks.old < vec_capacity blocks.old }
    requires next { 128 ≤ vec_capacity next.old }
    requires empty { next.old.items ≡ [] }
    ensures records { records_in blocks.new.items ≡ records_in blocks.old.items }
    ensures same { place_in blocks.new.items result ≡ place_in blocks.old.items place }
    ensures blocks { AreBlocks blocks.new.items }
    ensures gap { HasGap blocks.new.items result }
    ensures open { IsOpen blocks.new.items result }
    ensures empty { next.new.items ≡ [] }
{
    if blocks[place.block].len() < BLOCK {
        return place;
    }
    let mut behind = mem::replace(next, Vec::new(alloc));
    halve(&mut blocks[place.block], &mut behind);
    add_block(blocks, place.block + 1, behind);
    if place.index <= HALF {
        return place;
    }
    Place {
        block: place.block + 1,
        index: place.index - HALF,
    }
}

// Moves the records behind the first 64 to the front of another block, which has memory for them.
fn halve(block: &mut Block, behind: &mut Block)
    requires empty { behind.old.items ≡ [] }
    requires len { length block.old.items ≡ 128 }
    requires room { 128 ≤ vec_capacity behind.old }
    ensures front { block.new.items ≡ take 64 block.old.items }
    ensures rest { behind.new.items ≡ drop 64 block.old.items }
    ensures capacity { vec_capacity block.new ≡ vec_capacity block.old }
    ensures roomy { 128 ≤ vec_capacity behind.new }
{
    while block.len() > HALF {
        let Some(entry) = block.pop() else {
            unreachable!()
        };
        put_first(behind, entry);
    }
}

// Puts a record before all others. There is memory for it.
fn put_first(block: &mut Block, entry: (LoginKey, Failures))
    requires room { vec_len block.old < vec_capacity block.old }
    ensures items { block.new.items ≡ entry ∷ block.old.items }
    ensures capacity { vec_capacity block.old ≤ vec_capacity block.new }
{
    if block.insert(0, entry).is_err() {
        unreachable!()
    }
}

// Puts a block before the place. There is memory for it.
fn add_block(blocks: &mut Vec<Block>, at: usize, block: Block)
    requires within { at ≤ vec_len blocks.old }
    requires room { vec_len blocks.old < vec_capacity blocks.old }
    ensures items { blocks.new.items ≡ insert blocks.old.items at block }
{
    if blocks.insert(at, block).is_err() {
        unreachable!()
    }
}

/// Begins with the key, where there is none yet.
pub(crate) fn begin(
    alloc: Global,
    blocks: &mut Vec<Block>,
    next: &mut Block,
    entry: (LoginKey, Failures),
)
    requires none { blocks.old.items ≡ [] }
    requires room { vec_len blocks.old < vec_capacity blocks.old }
    requires next { 128 ≤ vec_capacity next.old }
    requires empty { next.old.items ≡ [] }
    ensures records { records_in blocks.new.items ≡ entry ∷ [] }
    ensures blocks { AreBlocks blocks.new.items }
    ensures empty { next.new.items ≡ [] }
{
    let mut first = mem::replace(next, Vec::new(alloc));
    put_first(&mut first, entry);
    add_block(blocks, 0, first);
}

/// Puts the key before the place, in a block that is not full.
pub(crate) fn put_at(blocks: &mut Vec<Block>, place: Place, entry: (LoginKey, Failures))
    requires blocks { AreBlocks blocks.old.items }
    requires gap { HasGap blocks.old.items place }
    requires open { IsOpen blocks.old.items place }
    ensures records { records_in blocks.new.items ≡ insert (records_in blocks.old.items) (place_in blocks.old.items place) entry }
    ensures blocks { AreBlocks blocks.new.items }
{
    add(&mut blocks[place.block], place.index, entry);
}

// Puts a record before the place in a block. There is memory for it.
fn add(block: &mut Block, index: usize, entry: (LoginKey, Failures))
    requires within { index ≤ length block.old.items }
    requires room { length block.old.items < vec_capacity block.old }
    ensures items { block.new.items ≡ insert block.old.items index entry }
    ensures capacity { vec_capacity block.old ≤ vec_capacity block.new }
{
    if block.insert(index, entry).is_err() {
        unreachable!()
    }
}

/// Takes out what is recorded at the place, and its block where it was the last one.
pub(crate) fn take_at(blocks: &mut Vec<Block>, place: Place)
    requires blocks { AreBlocks blocks.old.items }
    requires place { HasPlace blocks.old.items place }
    ensures records { records_in blocks.new.items ≡ remove (records_in blocks.old.items) (place_in blocks.old.items place) }
    ensures blocks { AreBlocks blocks.new.items }
    ensures len { vec_len blocks.new ≤ vec_len blocks.old }
    ensures capacity { vec_capacity blocks.new ≡ vec_capacity blocks.old }
{
    if blocks[place.block].len() == 1 {
        blocks.remove(place.block);
        return;
    }
    blocks[place.block].remove(place.index);
}

/// Lets the blocks go that have no record.
pub(crate) fn drop_empty(blocks: &mut Vec<Block>)
    requires roomy { AreRoomy blocks.old.items }
    ensures records { records_in blocks.new.items ≡ records_in blocks.old.items }
    ensures blocks { AreBlocks blocks.new.items }
    ensures len { vec_len blocks.new ≤ vec_len blocks.old }
    ensures capacity { vec_capacity blocks.new ≡ vec_capacity blocks.old }
{
    blocks.retain(|block| !block.is_empty());
}
