//! Records that are written down, and given back.

ghost use Rattle.std.specs.Prelude.{◌≡◌, ◌++◌, [], Some, IfOk, OnOk, OnErr, if◌then◌else◌};
ghost use Rattle.ftp_lockout.specs.Keys.{same_key};
ghost use Rattle.ftp_lockout.specs.Failures.{recorded};
ghost use Rattle.ftp_lockout.specs.Places.{AreBlocks, AreInKeyOrder, records_in};

use crate::blocks::{Block, make_room, set_at};
use crate::cache::{Failures, put};
use crate::key::LoginKey;
use crate::places::place_of;
use std::alloc::{AllocError, Global};

/// Sets what is recorded of the key.
pub(crate) fn restore(
    alloc: Global,
    blocks: &mut Vec<Block>,
    next: &mut Block,
    key: LoginKey,
    failures: Failures,
) -> Result<(), AllocError>
    requires order { AreInKeyOrder (records_in blocks.old.items) }
    requires blocks { AreBlocks blocks.old.items }
    requires empty { next.old.items ≡ [] }
    ensures recorded { OnOk result ((other : LoginKey) → recorded (records_in blocks.new.items) other ≡ (if same_key other key then Some failures else recorded (records_in blocks.old.items) other)) }
    ensures order { AreInKeyOrder (records_in blocks.new.items) }
    ensures blocks { AreBlocks blocks.new.items }
    ensures empty { next.new.items ≡ [] }
    ensures unchanged { OnErr result (records_in blocks.new.items ≡ records_in blocks.old.items) }
{
    match place_of(blocks, key.lend()) {
        Ok(place) => set_at(blocks, place, failures),
        Err(place) => {
            make_room(blocks, next)?;
            put(alloc, blocks, next, place, (key, failures));
        }
    }
    Ok(())
}

/// Gives a copy of every record of the blocks.
pub(crate) fn write_down(
    alloc: Global,
    blocks: &[Block],
) -> Result<Vec<(LoginKey, Failures)>, AllocError>
    requires order { AreInKeyOrder (records_in blocks.now) }
    ensures records { IfOk result (λ records. records.items ≡ records_in blocks.now) }
    ensures order { IfOk result (λ records. AreInKeyOrder records.items) }
{
    let mut records = Vec::new(alloc);
    for block in blocks {
        copy_block(alloc, &mut records, block)?;
    }
    Ok(records)
}

// Adds a copy of each record of a block.
fn copy_block(
    alloc: Global,
    records: &mut Vec<(LoginKey, Failures)>,
    block: &Block,
) -> Result<(), AllocError>
    ensures { OnOk result (records.new.items ≡ records.old.items ++ block.now.items) }
{
    for record in block {
        records.push((record.0.copy(alloc)?, record.1))?;
    }
    Ok(())
}
