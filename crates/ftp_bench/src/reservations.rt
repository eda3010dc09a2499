//! The reservations that are measured.

ghost use Rattle.std.specs.Prelude.{◌≡◌, ◌+◌, ◌*◌, ◌<◌, ◌≤◌, ℕ, Some, IfOk, OnOk};
ghost use Rattle.ftp_switchboard.specs.Board.{holder_at};

use crate::command::Search;
use crate::error::BenchError;
use ftp_switchboard::{Looks, Switchboard, SwitchboardKey};
use std::alloc::Global;

const CLIENT: u32 = 1;

/// The session that holds the ports.
const HOLDER: u64 = 1;

/// The session that reserves.
const SESSION: u64 = 2;

/// Reserves ports as asked, and says how many words and pairs were looked at.
///
/// # Proved
///
/// - So many reservations take 1,059 looks each at most (`few`).
pub fn count_looks(alloc: Global, search: Search) -> Result<u64, BenchError>
    ensures few { IfOk result (λ n. n ≤ search.rounds * 1059) }
{
    let mut board = Switchboard::new(alloc, 1, u16::MAX);
    hold_ports(&mut board, search.first, search.end)?;
    let mut looks = Looks::new();
    let mut present = None;
    for _done in 0..search.rounds {
        board.reserve_room(CLIENT)?;
        let port = board.reserve(CLIENT, SESSION, search.word, present, &mut looks)?;
        present = Some(port);
    }
    Ok(looks.count())
}

/// Gives the client the ports from one on, below another.
///
/// # Proved
///
/// - The client holds each port that it is to hold (`held`, `range`).
fn hold_ports(board: &mut Switchboard, first: u16, end: u16) -> Result<(), BenchError>
    requires range { (board.old.lo ≡ 1) × (board.old.hi ≡ 65535) }
    ensures range { (board.new.lo ≡ 1) × (board.new.hi ≡ 65535) }
    ensures held { OnOk result ((p : ℕ) → 1 ≤ p → first ≤ p → p < end → holder_at board.new 1 p ≡ Some 1) }
{
    for port in first.max(1)..end {
        board.reserve_room(CLIENT)?;
        let key = SwitchboardKey {
            source: CLIENT,
            port,
        };
        board.try_and_claim(key, HOLDER)?;
    }
    Ok(())
}
