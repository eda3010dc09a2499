//! Runs a script of events from standard input, anew or from a state on, and prints the log that is due for it, or what its
//! users moved, or the log and the state of the hub; or counts the decisions of a run of drawn events.
//!
//! The commands are `ftp_script script`, `ftp_script audit`, `ftp_script save`, `ftp_script resume`, `ftp_script stress SEED
//! SESSIONS`, and `--help` and `--version` alone. It ends with 0 where all was read and written, 2 at a bad line, 3 where standard input fails, 4 where
//! standard output fails, 5 where memory runs out, and 64 where the words are no command.
//! Begin with `run_script` of `ftp_script_run`.
#![tactic(auto)]

use ftp_script_run::{Status, run_script};
use ftp_text::{Input, Output};
use std::process::ExitCode;
use std::{env, io};

/// The words behind the program's name.
fn words(rt: &HostRuntime) -> io::Result<Vec<Vec<u8>>> {
    let mut words = Vec::new(rt.alloc());
    for word in env::args(rt)?.skip(1) {
        words.push(word.into_bytes())?;
    }
    Ok(words)
}

fn main(rt: HostRuntime) -> ExitCode {
    let status = match words(&rt) {
        Ok(words) => run_script(
            rt.alloc(),
            words.as_slice(),
            &mut Input::new(rt.stdin()),
            &mut Output::new(rt.stdout()),
        ),
        Err(error) if error.kind() == io::ErrorKind::OutOfMemory => Status::OutOfMemory,
        Err(_) => Status::Usage,
    };
    status.exit_code()
}

#[cfg(test)]
mod tests;
