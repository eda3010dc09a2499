//! ftp_bench: moves the same bytes through transfers and plainly, reserves ports, appends entries, and serves a control
//! connection in memory, to be measured from outside.
//!
//! `ftp_bench KIND MEBIBYTES ROUNDS` moves so many mebibytes so often, in chunks of 64 KiB, and writes how many bytes
//! moved in all. KIND is `retr`, `stor`, `quota` for `stor` within a budget, or `copy` for a plain copy.
//! `ftp_bench reserve FIRST END WORD ROUNDS` reserves one of the ports from 1 to 65535 so often, each time in place of the
//! last, for a client that holds those from FIRST on and below END, and writes how many words and pairs were looked at in
//! all. `ftp_bench append WAY SESSIONS ROUNDS` lets so many sessions connect, then appends so many events of theirs, and
//! writes how many entries were taken in all. WAY is `run` for a hub by itself, `log` for one whose entries are kept, or
//! `one`, `two` or `four` for so many threads that share a hub. `ftp_bench talk PACKETS` lets a client send a packet of 100
//! commands so often, and writes how many lines it was sent.
//! `ftp_bench --help` and `ftp_bench --version` write a text.
//! All end with status 0; other words are answered by 64, and what goes wrong by 1.
#![tactic(auto)]

mod appending;
mod asking;
mod client;
mod command;
mod error;
mod lane;
mod moving;
mod plain;
mod reservations;
mod serving;
mod shared;

use appending::append_all;
use command::Command;
use moving::move_bytes;
use reservations::count_looks;
use serving::count_replies;
use std::alloc::Global;
use std::process::ExitCode;
use std::sync::Wait;
use std::thread::Threads;
use std::{env, io};

const HELP: &str = "\
Usage: ftp_bench KIND MEBIBYTES ROUNDS
       ftp_bench reserve FIRST END WORD ROUNDS
       ftp_bench append WAY SESSIONS ROUNDS
       ftp_bench talk PACKETS
Moves so many mebibytes so often over memory, and writes how many bytes moved in all.
KIND is retr for downloads, stor for uploads, quota for uploads within a budget, or copy for plain copies.
Or reserves a port so often, from the word on, where those from FIRST on and below END are held, and writes how many looks it took.
Or lets sessions connect, appends so many events of theirs, and writes how many entries were taken.
WAY is run for a hub by itself, log for one whose entries are kept, or one, two or four for threads that share a hub.
Or serves a client in memory who sends a packet of 100 commands so often, and writes how many lines it was sent.
";

const VERSION: &str = "ftp_bench 0.1.0\n";

fn main(rt: HostRuntime) -> ExitCode {
    let Ok(words) = env::args(&rt) else {
        return ExitCode::from(1);
    };
    let Ok(words) = words.skip(1).collect::<Vec<String>>(rt.alloc()) else {
        return ExitCode::from(1);
    };
    match Command::of(words.as_slice()) {
        Some(command) => answer(&rt, rt.alloc(), command),
        None => ExitCode::from(64),
    }
}

/// Does what a command asks for, and writes its answer.
fn answer<R: Threads + Wait + Sync + Print>(rt: &R, alloc: Global, command: Command) -> ExitCode {
    let counted = match command {
        Command::Help => return status_of(print!(rt; "{HELP}")),
        Command::Version => return status_of(print!(rt; "{VERSION}")),
        Command::Talk(packets) => count_replies(alloc, packets),
        Command::Move(load) => move_bytes(alloc, load),
        Command::Reserve(search) => count_looks(alloc, search),
        Command::Append(appends) => append_all(rt, alloc, appends),
    };
    match counted {
        Ok(count) => status_of(println!(rt; "{count}")),
        Err(_) => ExitCode::from(1),
    }
}

/// The status behind an answer that was written, or was not.
fn status_of(written: io::Result<()>) -> ExitCode {
    match written {
        Ok(()) => ExitCode::SUCCESS,
        Err(_) => ExitCode::from(1),
    }
}
