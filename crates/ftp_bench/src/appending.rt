//! The appends that are measured.

ghost use Rattle.std.specs.Prelude.{◌≡◌, ◌+◌, IfOk};

use crate::command::{Appends, Way};
use crate::error::BenchError;
use crate::lane::Lane;
use crate::plain::run_all;
use crate::shared::share_all;
use ftp_options::{Options, ServerBuilder};
use std::alloc::Global;
use std::sync::Wait;
use std::thread::Threads;

/// Connects sessions, appends events of theirs, and says how many entries were taken in all.
///
/// # Proved
///
/// - Appends that give a number are so many entries: one for each session that connects, and one for each round; by a
///   hub by itself, whose entries are kept or let go, and by one, two or four threads over one hub, whose journal has
///   no other (`taken`; also `run_all`, `share_all`).
pub fn append_all<R: Threads + Wait + Sync>(
    rt: &R,
    alloc: Global,
    appends: Appends,
) -> Result<u64, BenchError>
    ensures taken { IfOk result (λ n. n ≡ appends.sessions + appends.rounds) }
{
    let options = options(alloc);
    let lane = Lane {
        first: 0,
        end: appends.sessions,
        rounds: appends.rounds,
    };
    match appends.way {
        Way::Run => run_all(alloc, options, lane, false),
        Way::Log => run_all(alloc, options, lane, true),
        Way::Shared(crew) => share_all(rt, alloc, options, crew, lane),
    }
}

/// Sessions share the listeners of the passive ports; else all is as a builder has it.
pub fn options(alloc: Global) -> Options {
    let mut builder = ServerBuilder::new(alloc);
    builder.pooled_listener_mode();
    builder.passive_ports(50000, 50063);
    match builder.build() {
        Ok(built) => built.options,
        Err(_) => unreachable!(),
    }
}
