//! The line at the front of a source, byte by byte.

ghost use Rattle.std.specs.Prelude.{◌≡◌, ℕ, ◌≤◌, ◌<◌, ◌∷◌, [], List, length, take, drop, Some, None, IfOk, IfErr, OnOk, OnErr, IfSome, IsSome, IsErrOf, MatchOption, true};
ghost use Rattle.ftp_base.specs.Calls.{AllWell};
ghost use Rattle.ftp_base.specs.Kept.{OnlyReads};
ghost use Rattle.ftp_base.specs.Memory.{LinkMet};
ghost use Rattle.ftp_base.specs.Outside.{HasRisen};
ghost use Rattle.ftp_proxy.specs.Line.{untaken, IsAnswer, IsTaken, IsLine, IsCutShort, IsFront, IsNext};

use crate::error::{ProxyError, ReadError};
use crate::header::{self, ProxyHeader};
use ftp_base::{Failed, Source};

/// The most bytes that are read for a line.
const LONGEST: usize = 108;

/// The least bytes that stand before the line feed.
const SHORTEST: usize = 13;

/// Reads the header, a byte in each call, and nothing behind its line feed. It takes no memory.
///
/// At most 108 bytes are read.
///
/// # Proved
///
/// - The answer is the outcome of the line at the front of all that the source has, whatever the pieces in which it
///   gives that: the header, or the one error that the bytes ask for (`line`).
/// - The line is taken up to and with its line feed, and nothing behind it; without one 108 bytes, or all where there
///   are fewer; after a fault some bytes from the front of that (`taken`).
/// - A fault only where the source's count rose; no count falls, and no limit rises (`fault_rose`, `only_reads`).
/// - Of a link: nothing is sent or closed, and its last fault stays, unless the fault came from it (`only_reads`,
///   `last_fault`, `met`).
pub fn read_proxy_header<S: Source>(source: &mut S) -> Result<ProxyHeader, ProxyError>
    ensures line { IfSome (S.left source.old) (λ left. IsAnswer left result) }
    ensures taken { IfSome (S.left source.old) (λ left. IsTaken left result (S.left source.new)) }
    ensures last_fault { (IsErrOf result (ProxyError.ReadError ReadError.Fault) → ⊥) → (S.sending source.new).last_fault ≡ (S.sending source.old).last_fault }
    ensures met { IsErrOf result (ProxyError.ReadError ReadError.Fault) → S.is_link ≡ true → IsSome (S.sending source.new).last_fault }
    ensures unlisted { (IsErrOf result (ProxyError.ReadError ReadError.Fault) → ⊥) → AllWell (λ call. call.0) (S.calls source.old) (S.calls source.new) }
    ensures as_listed { IsErrOf result (ProxyError.ReadError ReadError.Fault) → LinkMet (S.calls source.old) (S.calls source.new) (S.sending source.new).last_fault }
    ensures fault_rose { IsErrOf result (ProxyError.ReadError ReadError.Fault) → HasRisen (S.faults source.old) (S.faults source.new) }
    ensures only_reads { OnlyReads S.sending S.faults S.fault_limit source.old source.new }
{
    let mut bytes = [0; LONGEST];
    let Some(end) = read_line(source, &mut bytes)? else {
        return Err(ProxyError::NotProxyHdr);
    };
    if end < SHORTEST {
        return Err(ProxyError::HeaderSize);
    }
    match &bytes[..end] {
        [text @ .., b'\r'] => header::header(text),
        _ => Err(ProxyError::CrlfError),
    }
}

// Reads up to and with the first line feed, and says where it is; none where all of the buffer has none.
fn read_line<S: Source>(
    source: &mut S,
    bytes: &mut [u8; LONGEST],
) -> Result<Option<usize>, ReadError>
    ensures found { IfOk result (λ found. IfSome (S.left source.old) (λ left. IsLine left bytes.new found)) }
    ensures within { IfOk result (λ found. IfSome found (λ end. end < LONGEST)) }
    ensures end { IsErrOf result ReadError.UnexpectedEof → IfSome (S.left source.old) (λ left. IsCutShort left) }
    ensures taken { OnOk result (IfSome (S.left source.old) (λ left. S.left source.new ≡ Some (untaken left))) }
    ensures all { IsErrOf result ReadError.UnexpectedEof → IfSome (S.left source.old) (λ left. S.left source.new ≡ Some (untaken left)) }
    ensures front { IsErrOf result ReadError.Fault → IfSome (S.left source.old) (λ left. IsFront left (S.left source.new)) }
    ensures last_fault { (IsErrOf result ReadError.Fault → ⊥) → (S.sending source.new).last_fault ≡ (S.sending source.old).last_fault }
    ensures met { IsErrOf result ReadError.Fault → S.is_link ≡ true → IsSome (S.sending source.new).last_fault }
    ensures unlisted { (IsErrOf result ReadError.Fault → ⊥) → AllWell (λ call. call.0) (S.calls source.old) (S.calls source.new) }
    ensures as_listed { IsErrOf result ReadError.Fault → LinkMet (S.calls source.old) (S.calls source.new) (S.sending source.new).last_fault }
    ensures fault_rose { IsErrOf result ReadError.Fault → HasRisen (S.faults source.old) (S.faults source.new) }
    ensures only_reads { OnlyReads S.sending S.faults S.fault_limit source.old source.new }
{
    for i in 0..LONGEST {
        let Some(byte) = read_byte(source)? else {
            return Err(ReadError::UnexpectedEof);
        };
        bytes[i] = byte;
        if byte == b'\n' {
            return Ok(Some(i));
        }
    }
    Ok(None)
}

// Reads one byte; none at the end of the source.
fn read_byte<S: Source>(source: &mut S) -> Result<Option<u8>, ReadError>
    ensures next { IfOk result (λ byte. IfSome (S.left source.old) (λ left. IsNext left byte (S.left source.new))) }
    ensures last_fault { OnOk result ((S.sending source.new).last_fault ≡ (S.sending source.old).last_fault) }
    ensures met { OnErr result (S.is_link ≡ true → IsSome (S.sending source.new).last_fault) }
    ensures only_fault { IfErr result (λ e. e ≡ ReadError.Fault) }
    ensures unlisted { OnOk result (AllWell (λ call. call.0) (S.calls source.old) (S.calls source.new)) }
    ensures as_listed { OnErr result (LinkMet (S.calls source.old) (S.calls source.new) (S.sending source.new).last_fault) }
    ensures fault_rose { OnErr result (HasRisen (S.faults source.old) (S.faults source.new)) }
    ensures unchanged { OnErr result (S.left source.new ≡ S.left source.old) }
    ensures only_reads { OnlyReads S.sending S.faults S.fault_limit source.old source.new }
{
    let mut byte = [0];
    match source.read(&mut byte) {
        Ok(0) => Ok(None),
        Ok(_) => Ok(Some(byte[0])),
        Err(_) => Err(ReadError::Fault),
    }
}
