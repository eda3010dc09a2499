//! A line of version 1 whose first byte was read before.

ghost use Rattle.std.specs.Prelude.{◌≡◌, ◌∷◌, ◌≤◌, slice_index, IfOk, IfErr, OnOk, OnErr, IfSome};
ghost use Rattle.ftp_proxy.specs.Line.{IsAnswer, IsTaken, IsNext};
ghost use Rattle.ftp_proxy.specs.Any.{IsLineRead, IsReadLine};
ghost use Rattle.ftp_proxy.specs.Reading.{ReadsWell, ReadsToFault};

use crate::{ProxyError, ProxyHeader, ReadError, read_proxy_header};
use ftp_base::{Failed, Source};

/// The most bytes that are read for a line.
const LONGEST: usize = 108;

/// Reads the line, a byte in each call, and nothing behind its line feed.
pub fn read_behind<S: Source>(source: &mut S, first: u8) -> Result<ProxyHeader, ProxyError>
    ensures line { IfSome (S.left source.old) (λ left. IsAnswer (first ∷ left) result) }
    ensures taken { IfSome (S.left source.old) (λ left. IsTaken (first ∷ left) result (S.left source.new)) }
    ensures went { IsLineRead S.sending S.faults S.fault_limit S.calls S.is_link source.old source.new result }
{
    let mut bytes = [0; LONGEST];
    bytes[0] = first;
    let len = read_line(source, &mut bytes)?;
    read_proxy_header(&mut Front {
        rest: &bytes[..len],
    })
}

// Reads up to and with the first line feed, of which the first byte stands in the buffer, and says how many bytes that are.
fn read_line<S: Source>(source: &mut S, bytes: &mut [u8; LONGEST]) -> Result<usize, ProxyError>
    ensures line { IfSome (S.left source.old) (λ left. IsReadLine (slice_index bytes.old 0 ∷ left) bytes.new result (S.left source.new)) }
    ensures within { IfOk result (λ n. n ≤ 108) }
    ensures went { IsLineRead S.sending S.faults S.fault_limit S.calls S.is_link source.old source.new result }
{
    for i in 1..LONGEST {
        if bytes[i - 1] == b'\n' {
            return Ok(i);
        }
        let Some(byte) = read_byte(source)? else {
            return Ok(i);
        };
        bytes[i] = byte;
    }
    Ok(LONGEST)
}

/// Reads one byte; none at the end of the source.
pub fn read_byte<S: Source>(source: &mut S) -> Result<Option<u8>, ProxyError>
    ensures next { IfOk result (λ byte. IfSome (S.left source.old) (λ left. IsNext left byte (S.left source.new))) }
    ensures only_fault { IfErr result (λ e. e ≡ ProxyError.ReadError ReadError.Fault) }
    ensures unchanged { OnErr result (S.left source.new ≡ S.left source.old) }
    ensures well { OnOk result (ReadsWell S.sending S.faults S.fault_limit S.calls source.old source.new) }
    ensures fault { OnErr result (ReadsToFault S.sending S.faults S.fault_limit S.calls S.is_link source.old source.new) }
{
    let mut byte = [0];
    match source.read(&mut byte) {
        Ok(0) => Ok(None),
        Ok(_) => Ok(Some(byte[0])),
        Err(_) => Err(ProxyError::ReadError(ReadError::Fault)),
    }
}

// Bytes that were read before.
#[derive(Drop)]
struct Front<'a> {
    rest: &'a [u8],
}

impl Source for Front<'_> {
    ghost use Rattle.std.specs.Prelude.{Some};

    ghost left = { λ f. Some f.rest.now };

    ghost faults = { λ _. 0 };

    fn read(&mut self, out: &mut [u8]) -> Result<usize, Failed> {
        let n = out.len().min(self.rest.len());
        let (front, rest) = self.rest.split_at(n);
        out[..n].copy_from_slice(front);
        self.rest = rest;
        Ok(n)
    }
}
