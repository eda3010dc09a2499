//! Changes of a row that keep its bits and its pairs alike.

ghost use Rattle.std.specs.Prelude.{◌≡◌, ℕ, ◌+◌, ◌^◌, ◌<◌, ◌≤◌, ◌↔◌, nat_eq, length, IsTrue, Some, None, if◌then◌else◌};
ghost use Rattle.ftp_switchboard.specs.Board.{holder_among};
ghost use Rattle.ftp_switchboard.specs.Bits.{HasPlace, IsRow, port_at, session_of};

use crate::looks::Looks;
use crate::row::Row;
use crate::search::place_of;
use std::collections::BTreeSet;

// The ports from `lo` to `hi`, both included.
#[derive(Clone, Copy)]
pub(crate) struct Range {
    pub(crate) lo: u16,
    pub(crate) hi: u16,
}

// The session holds the port from now on.
pub(crate) fn hold(row: &mut Row, range: Range, port: u16, session: u64, looks: &mut Looks)
    requires in_range { (range.lo ≤ port) × (port ≤ range.hi) × (1 ≤ range.lo) }
    requires row { IsRow range.lo range.hi row.old }
    requires free { session_of row.old.pairs.items port ≡ None }
    requires place { HasPlace row.old }
    requires looks { looks.old + 16 ≤ u64.MAX }
    ensures row { IsRow range.lo range.hi row.new }
    ensures some { 0 < length row.new.pairs.items }
    ensures sessions { (p : ℕ) → session_of row.new.pairs.items p ≡ (if nat_eq port p then Some session else session_of row.old.pairs.items p) }
    ensures looks { (looks.old ≤ looks.new) × (looks.new ≤ looks.old + 16) }
{
    let place = place_of(row, port, looks);
    row.put((port - range.lo) as u32, place, (port, session));
}

// Nobody holds the port of this pair from now on.
pub(crate) fn free(row: &mut Row, range: Range, port: u16, place: u32)
    requires row { IsRow range.lo range.hi row.old }
    requires within { place < length row.old.pairs.items }
    requires port { port_at row.old.pairs.items place ≡ port }
    ensures row { IsRow range.lo range.hi row.new }
    ensures sessions { (p : ℕ) → session_of row.new.pairs.items p ≡ (if nat_eq port p then None else session_of row.old.pairs.items p) }
    ensures place { HasPlace row.new }
{
    row.take((port - range.lo) as u32, place);
}

// Takes the ports from sessions that are not among the live ones, and says whether any port is held still.
pub(crate) fn keep_live(row: &mut Row, range: Range, live: &BTreeSet<u64>) -> bool
    requires row { IsRow range.lo range.hi row.old }
    requires few { length row.old.pairs.items < 2 ^ 16 }
    ensures row { IsRow range.lo range.hi row.new }
    ensures sessions { (p : ℕ) → session_of row.new.pairs.items p ≡ holder_among live.now (session_of row.old.pairs.items p) }
    ensures some { IsTrue result ↔ (0 < length row.new.pairs.items) }
{
    let looks = &mut Looks::new();
    let mut kept = 0;
    for place in 0..row.len() as u32 {
        let (port, session) = row.pair(place, looks);
        if !live.contains(&session) {
            row.clear((port - range.lo) as u32);
            continue;
        }
        row.write(kept, (port, session));
        kept += 1;
    }
    row.truncate(kept);
    kept > 0
}
