//! The table of rows by source, and the spare row beside it.
//!
//! A source that holds no port has no row, so that memory follows what is held.

ghost use Rattle.std.specs.Prelude.{◌≡◌, ◌≢◌, ℕ, ◌+◌, ◌-◌, ◌<◌, ◌≤◌, ◌&&◌, IfOk, IfSome, OnOk, Some, None, if◌then◌else◌};
ghost use Rattle.std.specs.Option.{option_map};
ghost use Rattle.ftp_base.specs.Ports.{first_free};
ghost use Rattle.ftp_switchboard.specs.Board.{holder_among, is_key, is_of, still_holder, words_for};
ghost use Rattle.ftp_switchboard.specs.Bits.{IsSpare};
ghost use Rattle.ftp_switchboard.specs.Rows.{AreInOrder, AreRows, StandsAt, holder_in, places_in};

use crate::key::SwitchboardKey;
use crate::looks::Looks;
use crate::ports::{Range, free, hold, keep_live};
use crate::row::Row;
use crate::search::{find, free_port};
use std::alloc::{AllocError, Global};
use std::collections::{BTreeSet, HashMap};

// The row of each source that holds a port.
pub(crate) type Rows = HashMap<u32, Row>;

// The place of the key's pair in its source's row, and its session.
pub(crate) fn locate(rows: &Rows, key: SwitchboardKey, looks: &mut Looks) -> Option<(u32, u64)>
    requires order { AreInOrder rows.now }
    requires looks { looks.old + 17 ≤ u64.MAX }
    ensures session { option_map (λ found. found.1) result ≡ holder_in rows.now key.source key.port }
    ensures found { IfSome result (λ found. StandsAt rows.now key found.0 found.1) }
    ensures looks { (looks.old ≤ looks.new) × (looks.new ≤ looks.old + 17) }
{
    match rows.get(&key.source) {
        Some(row) => find(row, key.port, looks),
        None => None,
    }
}

// The first port from the word's on, going round the range once, that nobody holds for the source.
pub(crate) fn free_port_of(
    rows: &Rows,
    range: Range,
    source: u32,
    word: u16,
    looks: &mut Looks,
) -> Option<u16>
    requires in_range { range.lo ≤ range.hi }
    requires rows { AreRows range.lo range.hi rows.now }
    requires looks { looks.old ≤ u64.MAX - 1059 }
    ensures free { result ≡ first_free (holder_in rows.now source) range.lo range.hi word }
    ensures looks { (looks.old ≤ looks.new) × (looks.new ≤ looks.old + (words_for range.lo range.hi + 1)) }
{
    match rows.get(&source) {
        Some(row) => free_port(row, range.lo, range.hi, word, looks),
        None => Some(port_of(range, word)),
    }
}

// The port of the word, where nobody holds any.
pub(crate) fn port_of(range: Range, word: u16) -> u16
    requires in_range { range.lo ≤ range.hi }
    ensures in_range { result ≤ range.hi }
    ensures first { first_free (λ p. None) range.lo range.hi word ≡ Some result }
{
    let count = (range.hi - range.lo) as u32 + 1;
    range.lo + (word as u32 % count) as u16
}

// The session holds the key from now on, in room that was made.
pub(crate) fn put(
    rows: &mut Rows,
    spare: &mut Option<Row>,
    range: Range,
    key: SwitchboardKey,
    session: u64,
    looks: &mut Looks,
)
    requires in_range { (1 ≤ range.lo) × (range.lo ≤ key.port) × (key.port ≤ range.hi) }
    requires rows { AreRows range.lo range.hi rows.old }
    requires spare { IfSome spare.old (IsSpare range.lo range.hi) }
    requires room { 0 < places_in rows.old spare.old key.source }
    requires free { holder_in rows.old key.source key.port ≡ None }
    requires looks { looks.old + 16 ≤ u64.MAX }
    ensures rows { AreRows range.lo range.hi rows.new }
    ensures spare { IfSome spare.new (IsSpare range.lo range.hi) }
    ensures holders { (a p : ℕ) → holder_in rows.new a p ≡
        (if is_key a p key.source key.port then Some session else holder_in rows.old a p) }
    ensures looks { (looks.old ≤ looks.new) × (looks.new ≤ looks.old + 16) }
{
    if let Some(row) = rows.get_mut(&key.source) {
        hold(row, range, key.port, session, looks);
        return;
    }
    let Some(mut row) = spare.take() else {
        unreachable!()
    };
    hold(&mut row, range, key.port, session, looks);
    match rows.insert(key.source, row) {
        Ok(_) => {}
        Err(_) => unreachable!(),
    }
}

// Nobody holds the key from now on, whose pair stands at the place. A row that is left empty leaves the table.
pub(crate) fn take(
    rows: &mut Rows,
    spare: &mut Option<Row>,
    range: Range,
    key: SwitchboardKey,
    place: u32,
)
    requires rows { AreRows range.lo range.hi rows.old }
    requires spare { IfSome spare.old (IsSpare range.lo range.hi) }
    requires stands { (session : ℕ) × StandsAt rows.old key place session }
    ensures rows { AreRows range.lo range.hi rows.new }
    ensures spare { IfSome spare.new (IsSpare range.lo range.hi) }
    ensures holders { (a p : ℕ) → holder_in rows.new a p ≡
        (if is_key a p key.source key.port then None else holder_in rows.old a p) }
    ensures room { (a : ℕ) → a ≢ key.source → 0 < places_in rows.old spare.old a → 0 < places_in rows.new spare.new a }
{
    let Some(row) = rows.get_mut(&key.source) else {
        unreachable!()
    };
    free(row, range, key.port, place);
    if row.len() > 0 {
        return;
    }
    let emptied = rows.remove(&key.source);
    if spare.is_some() {
        return;
    }
    *spare = emptied;
}

// Takes the key from the session, where it holds it.
pub(crate) fn give_up(
    rows: &mut Rows,
    spare: &mut Option<Row>,
    range: Range,
    key: SwitchboardKey,
    session: u64,
    looks: &mut Looks,
)
    requires order { AreInOrder rows.old }
    requires rows { AreRows range.lo range.hi rows.old }
    requires spare { IfSome spare.old (IsSpare range.lo range.hi) }
    requires looks { looks.old + 17 ≤ u64.MAX }
    ensures rows { AreRows range.lo range.hi rows.new }
    ensures spare { IfSome spare.new (IsSpare range.lo range.hi) }
    ensures holders { (a p : ℕ) → holder_in rows.new a p ≡
        (if is_key a p key.source key.port && is_of session (holder_in rows.old a p) then None else holder_in rows.old a p) }
    ensures room { (a : ℕ) → a ≢ key.source → 0 < places_in rows.old spare.old a → 0 < places_in rows.new spare.new a }
    ensures looks { (looks.old ≤ looks.new) × (looks.new ≤ looks.old + 17) }
{
    let Some((place, holder)) = locate(rows, key, looks) else {
        return;
    };
    if holder == session {
        take(rows, spare, range, key, place);
    }
}

// Takes the session's present port for the key's source from it, if it has one and it is not the key's.
pub(crate) fn give_up_present(
    rows: &mut Rows,
    spare: &mut Option<Row>,
    range: Range,
    key: SwitchboardKey,
    present: Option<u16>,
    session: u64,
    looks: &mut Looks,
)
    requires order { AreInOrder rows.old }
    requires rows { AreRows range.lo range.hi rows.old }
    requires spare { IfSome spare.old (IsSpare range.lo range.hi) }
    requires looks { looks.old + 17 ≤ u64.MAX }
    ensures rows { AreRows range.lo range.hi rows.new }
    ensures spare { IfSome spare.new (IsSpare range.lo range.hi) }
    ensures holders { (a p : ℕ) → holder_in rows.new a p ≡
        (if is_key a p key.source key.port then holder_in rows.old a p
        else still_holder key.source present session a p (holder_in rows.old a p)) }
    ensures looks { (looks.old ≤ looks.new) × (looks.new ≤ looks.old + 17) }
{
    let Some(port) = present else {
        return;
    };
    if port == key.port {
        return;
    }
    let old = SwitchboardKey {
        source: key.source,
        port,
    };
    give_up(rows, spare, range, old, session, looks);
}

// Makes room, so that the source's next port takes no memory.
pub(crate) fn make_room(
    rows: &mut Rows,
    spare: &mut Option<Row>,
    range: Range,
    source: u32,
    alloc: Global,
) -> Result<(), AllocError>
    requires in_range { range.lo ≤ range.hi }
    requires rows { AreRows range.lo range.hi rows.old }
    requires spare { IfSome spare.old (IsSpare range.lo range.hi) }
    ensures ok { OnOk result (0 < places_in rows.new spare.new source) }
    ensures rows { AreRows range.lo range.hi rows.new }
    ensures spare { IfSome spare.new (IsSpare range.lo range.hi) }
    ensures holders { (a p : ℕ) → holder_in rows.new a p ≡ holder_in rows.old a p }
    ensures room { (a : ℕ) → 0 < places_in rows.old spare.old a → 0 < places_in rows.new spare.new a }
{
    if let Some(row) = rows.get_mut(&source) {
        return row.make_place();
    }
    rows.reserve(1)?;
    if spare.is_some() {
        return Ok(());
    }
    *spare = Some(empty_row(range, alloc)?);
    Ok(())
}

// A row of the range of which no port is held.
fn empty_row(range: Range, alloc: Global) -> Result<Row, AllocError>
    requires in_range { range.lo ≤ range.hi }
    ensures spare { IfOk result (IsSpare range.lo range.hi) }
{
    let count = (range.hi - range.lo) as usize + 1;
    Row::new(alloc, (count + 63) / 64)
}

// Takes the ports from sessions that are not among the live ones.
pub(crate) fn keep_sessions(rows: &mut Rows, range: Range, live: &BTreeSet<u64>)
    requires order { AreInOrder rows.old }
    requires rows { AreRows range.lo range.hi rows.old }
    ensures rows { AreRows range.lo range.hi rows.new }
    ensures holders { (a p : ℕ) → holder_in rows.new a p ≡ holder_among live.now (holder_in rows.old a p) }
{
    rows.retain(|_, row| keep_live(row, range, live));
}
