//! A header of either version.

ghost use Rattle.std.specs.Prelude.{◌≡◌, ◌==◌, ◌∷◌, IfSome, IsSome, true, false};
ghost use Rattle.ftp_base.specs.Calls.{AllWell};
ghost use Rattle.ftp_base.specs.Kept.{OnlyReads};
ghost use Rattle.ftp_base.specs.Memory.{LinkMet};
ghost use Rattle.ftp_base.specs.Outside.{HasRisen};
ghost use Rattle.ftp_proxy.specs.Any.{IsAnyAnswer, IsAnyTaken, IsAnyRead, any_failed, as_version1, as_version2, counts_as, refusal_as, answered};

use crate::head::{HEAD, SIGNATURE};
use crate::v2_error::Proxy2Error;
use crate::v2_header::{Body, Header2};
use crate::v2_reader::read_from;
use crate::version1::{read_behind, read_byte};
use crate::{ProxyError, ProxyHeader, ReadError};
use ftp_base::Source;
use std::alloc::Global;

/// The family byte of a stream over IP version 4.
const STREAM4: u8 = 0x11;

/// The family byte of a stream over IP version 6.
const STREAM6: u8 = 0x21;

/// A header of either version.
#[derive(Debug, PartialEq, Eq, Drop)]
pub enum AnyHeader {
    V1(ProxyHeader),
    V2(Header2),
}

/// Why no header was read, by the version that the first byte tells.
#[derive(Clone, Copy, Debug, PartialEq, Eq)]
pub enum AnyError {
    V1(ProxyError),
    V2(Proxy2Error),
}

impl From<ProxyError> for AnyError {
    ghost use Rattle.ftp_proxy.specs.declared.any.AnyError.TheVariants.{V1};

    ghost from_gives = { λ e any. any ≡ V1 e };

    fn from(e: ProxyError) -> AnyError {
        AnyError::V1(e)
    }
}

/// Reads a header of version 2 where the first byte is CR, else one of version 1.
///
/// The first byte is read alone. A header of version 1 takes no memory.
///
/// # Proved
///
/// - A header of either version is read as by the reader of the version that the first byte tells, with all that this
///   reader says; what it counts as is a function of that (`answered` in `ftp_proxy/specs/Any.antt`) (`header`,
///   `taken`, `last_fault`, `met`, `unlisted`, `as_listed`, `fault_rose`, `only_reads`; also `to_answer`).
pub fn read_proxy_any<S: Source>(alloc: Global, source: &mut S) -> Result<AnyHeader, AnyError>
    ensures header { IfSome (S.left source.old) (λ left. IsAnyAnswer left result) }
    ensures taken { IfSome (S.left source.old) (λ left. IsAnyTaken left result (S.left source.new)) }
    ensures last_fault { any_failed result ≡ false → (S.sending source.new).last_fault ≡ (S.sending source.old).last_fault }
    ensures met { any_failed result ≡ true → S.is_link ≡ true → IsSome (S.sending source.new).last_fault }
    ensures unlisted { any_failed result ≡ false → AllWell (λ call. call.0) (S.calls source.old) (S.calls source.new) }
    ensures as_listed { any_failed result ≡ true → LinkMet (S.calls source.old) (S.calls source.new) (S.sending source.new).last_fault }
    ensures fault_rose { any_failed result ≡ true → HasRisen (S.faults source.old) (S.faults source.new) }
    ensures only_reads { OnlyReads S.sending S.faults S.fault_limit source.old source.new }
{
    read_any(alloc, source)
}

// Reads the first byte, and then the header of its version.
fn read_any<S: Source>(alloc: Global, source: &mut S) -> Result<AnyHeader, AnyError>
    ensures read { IfSome (S.left source.old) (λ left. IsAnyAnswer left result × IsAnyTaken left result (S.left source.new)) }
    ensures went { IsAnyRead S.sending S.faults S.fault_limit S.calls S.is_link source.old source.new (any_failed result) }
{
    let Some(first) = read_byte(source)? else {
        return Err(AnyError::V1(ProxyError::ReadError(ReadError::UnexpectedEof)));
    };
    read_any_behind(alloc, source, first)
}

// Reads a header whose first byte was read.
fn read_any_behind<S: Source>(
    alloc: Global,
    source: &mut S,
    first: u8,
) -> Result<AnyHeader, AnyError>
    ensures read { IfSome (S.left source.old) (λ left. IsAnyAnswer (first ∷ left) result × IsAnyTaken (first ∷ left) result (S.left source.new)) }
    ensures went { IsAnyRead S.sending S.faults S.fault_limit S.calls S.is_link source.old source.new (any_failed result) }
{
    if is_version2(first) {
        let mut head = [0; HEAD];
        head[0] = first;
        return version2(read_from(alloc, source, head, 1));
    }
    version1(read_behind(source, first))
}

// Says whether a header that begins with this byte is of version 2.
fn is_version2(first: u8) -> bool
    ensures { result ≡ (first == 13) }
{
    first == SIGNATURE[0]
}

fn version1(read: Result<ProxyHeader, ProxyError>) -> Result<AnyHeader, AnyError>
    ensures { result ≡ as_version1 read }
{
    match read {
        Ok(header) => Ok(AnyHeader::V1(header)),
        Err(e) => Err(AnyError::V1(e)),
    }
}

fn version2(read: Result<Header2, Proxy2Error>) -> Result<AnyHeader, AnyError>
    ensures { result ≡ as_version2 read }
{
    match read {
        Ok(header) => Ok(AnyHeader::V2(header)),
        Err(e) => Err(AnyError::V2(e)),
    }
}

/// What a connection is decided by: the header, or why there is none; nothing where memory ran out.
///
/// A header of version 2 counts where it is of a stream over IP version 4.
pub fn to_answer(read: Result<AnyHeader, AnyError>) -> Option<Result<ProxyHeader, ProxyError>>
    ensures { result ≡ answered read }
{
    match read {
        Ok(AnyHeader::V1(header)) => Some(Ok(header)),
        Err(AnyError::V1(e)) => Some(Err(e)),
        Ok(AnyHeader::V2(header)) => Some(counts_as(header.family, &header.body)),
        Err(AnyError::V2(e)) => Some(Err(refusal_as(e)?)),
    }
}

// A header of version 2, by its family and its body.
fn counts_as(family: u8, body: &Body) -> Result<ProxyHeader, ProxyError>
    ensures { result ≡ counts_as family body.now }
{
    match body {
        Body::Inet { pair, .. } if family == STREAM4 => Ok(ProxyHeader {
            source: pair.source,
            destination: pair.destination,
        }),
        Body::Inet6 { .. } if family == STREAM6 => Err(ProxyError::IPv4Required),
        _ => Err(ProxyError::UnsupportedVersion),
    }
}

// A refusal of version 2; nothing where memory ran out.
fn refusal_as(e: Proxy2Error) -> Option<ProxyError>
    ensures { result ≡ refusal_as e }
{
    match e {
        Proxy2Error::BadVersion(_) => Some(ProxyError::UnsupportedVersion),
        Proxy2Error::UnexpectedEof => Some(ProxyError::ReadError(ReadError::UnexpectedEof)),
        Proxy2Error::Fault => Some(ProxyError::ReadError(ReadError::Fault)),
        Proxy2Error::OutOfMemory => None,
        Proxy2Error::NotSignature { .. }
        | Proxy2Error::BadFamily(_)
        | Proxy2Error::ShortBlock { .. }
        | Proxy2Error::BadField { .. } => Some(ProxyError::DecodeError),
    }
}
