//! The searches in a row: for a port that is free, and for the pair of a port.

ghost use Rattle.std.specs.Prelude.{◌≡◌, ℕ, ◌+◌, ◌-◌, ◌*◌, ◌/◌, ◌^◌, ◌<◌, ◌≤◌, length, get_or, IfSome, IfNone, Some, None};
ghost use Rattle.std.specs.Int.{bit_at};
ghost use Rattle.std.specs.Option.{option_map};
ghost use Rattle.ftp_base.specs.Ports.{first_free};
ghost use Rattle.ftp_switchboard.specs.Board.{words_for};
ghost use Rattle.ftp_switchboard.specs.Bits.{AreSet, Ascends, IsNextClear, IsPlace, IsRow, session_of};

use crate::looks::Looks;
use crate::row::Row;

// The first port from the word's on, going round the range once, that the row has free.
pub(crate) fn free_port(row: &Row, lo: u16, hi: u16, word: u16, looks: &mut Looks) -> Option<u16>
    requires in_range { lo ≤ hi }
    requires row { IsRow lo hi row.now }
    requires looks { looks.old ≤ u64.MAX - 1059 }
    ensures free { result ≡ first_free (session_of row.now.pairs.items) lo hi word }
    ensures looks { (looks.old ≤ looks.new) × (looks.new ≤ looks.old + (words_for lo hi + 1)) }
{
    let count = (hi - lo) as u32 + 1;
    let start = word as u32 % count;
    if let Some(place) = next_clear(row, start, count, looks) {
        return Some(lo + place as u16);
    }
    match next_clear(row, 0, start, looks) {
        Some(place) => Some(lo + place as u16),
        None => None,
    }
}

// The first of these places whose bit is clear. Each word is looked at once.
fn next_clear(row: &Row, from: u32, to: u32, looks: &mut Looks) -> Option<u32>
    requires within { to ≤ 64 * length row.now.words.items }
    requires order { from ≤ to }
    requires short { to ≤ 2 ^ 16 }
    requires looks { looks.old + ((to + 63) / 64 - from / 64) ≤ u64.MAX }
    ensures found { IfSome result (IsNextClear row.now.words.items from to) }
    ensures none { IfNone result (AreSet row.now.words.items from to) }
    ensures looks { (looks.old ≤ looks.new) × (looks.new ≤ looks.old + ((to + 63) / 64 - from / 64)) }
{
    for j in from / 64..(to + 63) / 64 {
        let skipped = from.saturating_sub(j * 64);
        if let Some(bit) = first_clear(row.look(j, looks), skipped) {
            let place = j * 64 + bit;
            return if place < to { Some(place) } else { None };
        }
    }
    None
}

// The first bit from the skipped ones on that is clear.
fn first_clear(word: u64, skipped: u32) -> Option<u32>
    requires { skipped < 64 }
    ensures within { IfSome result (λ bit. (skipped ≤ bit) × (bit < 64)) }
    ensures clear { IfSome result (λ bit. bit_at word bit ≡ 0) }
    ensures before { IfSome result (λ bit. (k : ℕ) → skipped ≤ k → k < bit → bit_at word k ≡ 1) }
    ensures none { IfNone result ((k : ℕ) → skipped ≤ k → k < 64 → bit_at word k ≡ 1) }
{
    let free = !word & (u64::MAX << skipped);
    if free == 0 {
        return None;
    }
    Some(free.trailing_zeros())
}

// The place of the port's pair, and its session.
pub(crate) fn find(row: &Row, port: u16, looks: &mut Looks) -> Option<(u32, u64)>
    requires order { Ascends row.now.pairs.items }
    requires few { length row.now.pairs.items < 2 ^ 16 }
    requires looks { looks.old + 17 ≤ u64.MAX }
    ensures session { option_map (λ found. found.1) result ≡ session_of row.now.pairs.items port }
    ensures found { IfSome result (λ found. (found.0 < length row.now.pairs.items) × (get_or row.now.pairs.items found.0 (0, 0) ≡ (port, found.1))) }
    ensures looks { (looks.old ≤ looks.new) × (looks.new ≤ looks.old + 17) }
{
    let place = place_of(row, port, looks);
    if place as usize == row.len() {
        return None;
    }
    let (found, session) = row.pair(place, looks);
    if found != port {
        return None;
    }
    Some((place, session))
}

// The place of the first pair whose port is not below this one, found by halving.
pub(crate) fn place_of(row: &Row, port: u16, looks: &mut Looks) -> u32
    requires order { Ascends row.now.pairs.items }
    requires few { length row.now.pairs.items < 2 ^ 16 }
    requires looks { looks.old + 16 ≤ u64.MAX }
    ensures place { IsPlace row.now.pairs.items port result }
    ensures looks { (looks.old ≤ looks.new) × (looks.new ≤ looks.old + 16) }
{
    let mut low = 0;
    let mut high = row.len() as u32;
    while low < high {
        let middle = low + (high - low) / 2;
        if row.pair(middle, looks).0 < port {
            low = middle + 1;
        } else {
            high = middle;
        }
    }
    low
}
