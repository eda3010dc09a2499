//! Moves of at most a chunk of bytes.

ghost use Rattle.std.specs.Prelude.{◌≡◌, ◌+◌, ◌≤◌, ◌++◌, min, length, take, drop, IfOk, OnErr};

use std::alloc::AllocError;

/// Copies bytes from a place on to the front of `out`, as many as fit into it and the chunk, and moves the place behind
/// them.
pub fn read_chunk(bytes: &[u8], at: &mut usize, chunk: u32, out: &mut [u8]) -> usize
    requires { at.old ≤ length bytes.now }
    ensures moved { result ≡ min chunk (min (length out.old) (length (drop at.old bytes.now))) }
    ensures front { take result out.new ≡ take result (drop at.old bytes.now) }
    ensures behind { at.new ≡ at.old + result }
{
    let left = &bytes[*at..];
    let n = left.len().min(out.len()).min(chunk as usize);
    out[..n].copy_from_slice(&left[..n]);
    *at += n;
    n
}

/// Appends bytes from the front, as many as a chunk has.
pub fn append_chunk(all: &mut Vec<u8>, chunk: u32, bytes: &[u8]) -> Result<usize, AllocError>
    ensures moved { IfOk result (λ n. n ≡ min chunk (length bytes.now)) }
    ensures wrote { IfOk result (λ n. all.new.items ≡ all.old.items ++ take n bytes.now) }
    ensures unchanged { OnErr result (all.new.items ≡ all.old.items) }
{
    let n = bytes.len().min(chunk as usize);
    all.extend_from_slice(&bytes[..n])?;
    Ok(n)
}
