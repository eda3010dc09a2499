//! Runs commands of `ftp_script` over the cases that standard input gives, and prints what each of them wrote and how it ended.
//!
//! It has no test: its stored run is one, with the cases in `stdin` and what is due for them in `stdout`.
//! Begin with `Case::print`.
#![tactic(auto)]

mod case;

use case::Case;
use std::alloc::{AllocError, Global};
use std::io;
use std::io::Write;
use std::process::ExitCode;

/// What begins a case, behind the line feed of the one before it.
const MARK: &str = "\n%% ";

/// What the cases print, one after the other. What stands before the first is a comment.
fn print_all(alloc: Global, text: &str) -> Result<Vec<u8>, AllocError> {
    let mut out = Vec::new(alloc);
    for lines in text.split(MARK).skip(1) {
        Case::of(lines).print(alloc, &mut out)?;
    }
    Ok(out)
}

fn run(rt: &HostRuntime) -> io::Result<()> {
    let text = io::read_to_string(rt.alloc(), rt.stdin())?;
    let out = print_all(rt.alloc(), text.as_str())?;
    rt.stdout().write_all(out.as_slice())
}

fn main(rt: HostRuntime) -> ExitCode {
    match run(&rt) {
        Ok(()) => ExitCode::SUCCESS,
        Err(_) => ExitCode::from(1),
    }
}
