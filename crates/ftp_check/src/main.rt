//! Checks a printed log from standard input: whether each decision and each action is the one that is due.
//!
//! The commands are `ftp_check check` and `ftp_check why K`, and `--help` and `--version` alone. It ends with 0 where the
//! log is right, 1 where an entry is wrong, 2 at a bad line, 3 where standard input fails, 4 where standard output fails,
//! 5 where memory runs out, 6 where a right log has no entry K, and 64 where the words are no command.
//! Begin with `run_check` of `ftp_check_log`.
#![tactic(auto)]

use ftp_check_log::{CheckStatus, run_check};
use ftp_text::{Input, Output};
use std::process::ExitCode;
use std::{env, io};

/// The words behind the program's name.
fn words(rt: &HostRuntime) -> io::Result<Vec<Vec<u8>>> {
    let mut words = Vec::new(rt.alloc());
    for word in env::args(rt)?.skip(1) {
        words.push(word.into_bytes())?;
    }
    Ok(words)
}

fn main(rt: HostRuntime) -> ExitCode {
    let status = match words(&rt) {
        Ok(words) => run_check(
            rt.alloc(),
            words.as_slice(),
            &mut Input::new(rt.stdin()),
            &mut Output::new(rt.stdout()),
        ),
        Err(error) if error.kind() == io::ErrorKind::OutOfMemory => CheckStatus::OutOfMemory,
        Err(_) => CheckStatus::Usage,
    };
    status.exit_code()
}

#[cfg(test)]
mod tests;
