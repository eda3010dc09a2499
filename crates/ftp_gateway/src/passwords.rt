//! Hashes of passwords, as a file of users has them.

use ftp_config::hash_line;
use std::io;
use std::random::RandomSource;

/// How often the code of a password is made anew.
const ROUNDS: u32 = 200_000;

/// Reads a password from the first line of the input, and writes its hash by a new salt.
pub fn make<R: Input + Print + RandomSource + AllocGlobal>(rt: &R) -> io::Result<()> {
    let alloc = rt.alloc();
    let mut line = String::new(alloc);
    rt.read_line(&mut line)?;
    let line = line.as_str();
    let password = line.strip_suffix('\n').unwrap_or(line);
    let mut salt = [0u8; 16];
    rt.fill_bytes(&mut salt)?;
    let hash = hash_line(alloc, password.as_bytes(), &salt, ROUNDS)?;
    let hash = hash.as_str();
    println!(rt; "{hash}")
}
