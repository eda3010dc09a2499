//! A server of files in memory, at first of none, which everybody may log in to.
//!
//! `ftp_serve ADDRESS MODE LO HI` listens at an address such as `127.0.0.1:2121`, with the passive ports LO to HI. MODE is
//! `legacy`, `pooled` or `proxy:PORT`. With EVERY behind these words its journal is a checkpoint and so many entries at most,
//! and its memory is bounded by what is live. With `record` before these words it also writes the printed log of what is decided, as
//! it grows. `ftp_serve --help` and `ftp_serve --version` write a text. It ends with 0 where it was shut down, with 1 where it
//! could not serve, and writes why, and with 64 where the words are no command.
#![tactic(auto)]

ghost use Rattle.std.specs.Prelude.{◌≡◌, ◌∷◌, ℕ, List, map, string_bytes, codes, IfSome, IsNone};

mod command;
mod recording;
mod service;
mod serving;

use command::Command;
use serving::{serve, serve_recorded};
use std::env;
use std::net::{TcpListener, TcpStream};
use std::process::ExitCode;

const HELP: &str = "\
Usage: ftp_serve [record] ADDRESS MODE LO HI [EVERY]
Serves files in memory, at first none, to every name and password.
ADDRESS is where it listens, as 127.0.0.1:2121 or [::1]:2121.
MODE is legacy where each session has a passive port of its own, pooled where
sessions share the passive ports, and proxy:PORT behind a proxy whose own
control port is PORT. The passive ports are LO to HI.
With EVERY it keeps so many entries at most behind a checkpoint, and its memory
does not grow with what has happened.
With record the printed log of what is decided is written as it grows.
";

const VERSION: &str = "ftp_serve 0.1.0\n";

// The words behind `record`, where that is the first of them.
fn behind_record(words: &[String]) -> Option<&[String]>
    ensures found { IfSome result (λ rest. map string_bytes words.now ≡ codes "record" ∷ map string_bytes rest.now) }
    ensures none { IsNone result → (rest : List (List ℕ)) → map string_bytes words.now ≡ codes "record" ∷ rest → ⊥ }
{
    match words.split_first() {
        Some((word, rest)) if word.as_bytes() == b"record".as_slice() => Some(rest),
        _ => None,
    }
}

fn main(rt: HostRuntime) -> ExitCode {
    // The check looks for the types of a bound among those of the function.
    let types: Option<(TcpListener, TcpStream)> = None;
    drop(types);
    let Ok(words) = env::args(&rt) else {
        return ExitCode::from(1);
    };
    let Ok(words) = words.skip(1).collect::<Vec<String>>(rt.alloc()) else {
        return ExitCode::from(1);
    };
    let words = words.as_slice();
    let behind = behind_record(words);
    let is_recorded = behind.is_some();
    let words = behind.unwrap_or(words);
    let Some(command) = Command::of(words) else {
        return ExitCode::from(64);
    };
    let ended = match command {
        Command::Help => print!(rt; "{HELP}"),
        Command::Version => print!(rt; "{VERSION}"),
        Command::Serve(service) => {
            let served = if is_recorded {
                serve_recorded(&rt, rt.alloc(), words, service, &mut rt.stdout())
            } else {
                serve(&rt, rt.alloc(), words, service, None)
            };
            match served {
                Ok(()) => Ok(()),
                Err(error) => {
                    let _ = println!(rt; "{error}");
                    return ExitCode::from(1);
                }
            }
        }
    };
    match ended {
        Ok(()) => ExitCode::SUCCESS,
        Err(_) => ExitCode::from(1),
    }
}
