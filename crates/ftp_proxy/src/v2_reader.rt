//! The header at the front of a source.

ghost use Rattle.std.specs.Prelude.{◌≡◌, ℕ, ◌<◌, ◌≤◌, ◌++◌, true, List, length, Ok, IfOk, IfSome, IsErrOf, IsSome, OnOk};
ghost use Rattle.std.specs.Int.{w128, from_be_bytes};
ghost use Rattle.ftp_base.specs.Calls.{AllWell};
ghost use Rattle.ftp_base.specs.Kept.{OnlyReads};
ghost use Rattle.ftp_base.specs.Memory.{LinkMet};
ghost use Rattle.ftp_base.specs.Outside.{HasRisen};
ghost use Rattle.ftp_proxy.specs.V2Header.{IsHeader};
ghost use Rattle.ftp_proxy.specs.Reading.{needed, block_len, body_of, unix, pair4, pair6, fields_at, IsAnswer, IsTaken, IsFound, IsReadAs, IsRead, Begun, HeadIs, Fills, Reads, ReadsParts, ReadsFrom};

use crate::fields::fields;
use crate::head::{self, HEAD, INET, INET6, NAME, UNIX};
use crate::v2_error::Proxy2Error;
use crate::v2_header::{Body, Fields, Header2};
use ftp_base::{Bytes, IpAddr, SocketAddr, SocketAddrPair, Source};
use std::alloc::Global;

/// Reads the header, and nothing behind the byte that decides.
///
/// Each of the first sixteen bytes is read by a call of its own. Only names, fields and blocks that are not looked into
/// take memory.
///
/// # Proved
///
/// - A header that is read stood at the front of all that the source had, and is all that was taken (`found`).
/// - A header that stands at the front is read, whatever the pieces in which the source gives it, unless the source
///   fails or memory runs out (`only`).
/// - Else the answer is the first cause from the left, and nothing is taken behind the byte that decides; after a fault
///   or for want of memory some bytes from the front of that were taken (`header`, `taken`).
/// - A fault only where the source's count rose; no count falls, and no limit rises (`fault_rose`, `only_reads`).
/// - Of a link: nothing is sent or closed, and its last fault stays, unless the fault came from it (`only_reads`,
///   `last_fault`, `met`).
pub fn read_header2<S: Source>(alloc: Global, source: &mut S) -> Result<Header2, Proxy2Error>
    // What is read stood at the front, and is all that was taken.
    ensures found { IfOk result (λ h. IfSome (S.left source.old) (λ left. IsFound left h (S.left source.new))) }

    // A header at the front is read.
    ensures only { IfSome (S.left source.old) (λ left. (h : Header2) (header rest : List ℕ) → IsHeader header h → left ≡ header ++ rest → IsReadAs h result) }

    // The first cause from the left is answered, and nothing is taken behind the byte that decides.
    ensures header { IfSome (S.left source.old) (λ left. IsAnswer left result) }
    ensures taken { IfSome (S.left source.old) (λ left. IsTaken left result (S.left source.new)) }
    ensures last_fault { (IsErrOf result Proxy2Error.Fault → ⊥) → (S.sending source.new).last_fault ≡ (S.sending source.old).last_fault }
    ensures met { IsErrOf result Proxy2Error.Fault → S.is_link ≡ true → IsSome (S.sending source.new).last_fault }
    ensures unlisted { (IsErrOf result Proxy2Error.Fault → ⊥) → AllWell (λ call. call.0) (S.calls source.old) (S.calls source.new) }
    ensures as_listed { IsErrOf result Proxy2Error.Fault → LinkMet (S.calls source.old) (S.calls source.new) (S.sending source.new).last_fault }
    ensures fault_rose { IsErrOf result Proxy2Error.Fault → HasRisen (S.faults source.old) (S.faults source.new) }
    ensures only_reads { OnlyReads S.sending S.faults S.fault_limit source.old source.new }
{
    read_from(alloc, source, [0; HEAD], 0)
}

/// Reads the header of which so many bytes were read already, which begin the first sixteen.
pub fn read_from<S: Source>(
    alloc: Global,
    source: &mut S,
    head: [u8; HEAD],
    begun: usize,
) -> Result<Header2, Proxy2Error>
    requires { begun < 16 }
    ensures read { (all : List ℕ) → Begun all head begun (S.left source.old) → ReadsFrom all result (S.left source.new) }
    ensures went { IsRead S.sending S.faults S.fault_limit S.calls S.is_link source.old source.new result }
{
    let mut head = head;
    read_head(source, &mut head, begun)?;
    let body = read_body(alloc, source, &head)?;
    let family = head[13];
    Ok(Header2 { family, body })
}

// Reads the first sixteen bytes, each of which is looked at as it comes.
fn read_head<S: Source>(
    source: &mut S,
    head: &mut [u8; HEAD],
    begun: usize,
) -> Result<(), Proxy2Error>
    requires { begun < 16 }
    ensures head { (all : List ℕ) → Begun all head.old begun (S.left source.old) → HeadIs all head.new result (S.left source.new) }
    ensures long { OnOk result (needed head.new ≤ block_len head.new) }
    ensures went { IsRead S.sending S.faults S.fault_limit S.calls S.is_link source.old source.new result }
{
    for i in begun..HEAD {
        fill(source, &mut head[i..i + 1])?;
        if let Some(e) = head::refusal_at(head, i) {
            return Err(e);
        }
    }
    Ok(())
}

// Reads the block, and what it says by command and family.
fn read_body<S: Source>(
    alloc: Global,
    source: &mut S,
    head: &[u8; HEAD],
) -> Result<Body, Proxy2Error>
    requires { needed head.now ≤ block_len head.now }
    ensures block { IfSome (S.left source.old) (λ left. Reads (block_len head.now) (body_of head.now) left result (S.left source.new)) }
    ensures went { IsRead S.sending S.faults S.fault_limit S.calls S.is_link source.old source.new result }
{
    let len = usize::from(head::block_len(head));
    if head::is_local(head) {
        return Ok(Body::LocalBlock(read_bytes(alloc, source, len)?));
    }
    let family = head[13];
    if head::is_family(INET, family) {
        let (addresses, fields) = read_front::<S, 12>(alloc, source, len)?;
        let pair = pair4(&addresses);
        return Ok(Body::Inet { pair, fields });
    }
    if head::is_family(INET6, family) {
        let (addresses, fields) = read_front::<S, 36>(alloc, source, len)?;
        let pair = pair6(&addresses);
        return Ok(Body::Inet6 { pair, fields });
    }
    if head::is_family(UNIX, family) {
        return read_unix(alloc, source, len);
    }
    Ok(Body::UnspecBlock(read_bytes(alloc, source, len)?))
}

fn read_unix<S: Source>(alloc: Global, source: &mut S, len: usize) -> Result<Body, Proxy2Error>
    requires long { 216 ≤ len }
    requires small { len ≤ 65535 }
    ensures block { IfSome (S.left source.old) (λ left. Reads len unix left result (S.left source.new)) }
    ensures went { IsRead S.sending S.faults S.fault_limit S.calls S.is_link source.old source.new result }
{
    let (names, fields) = read_front::<S, 216>(alloc, source, len)?;
    let (from, to) = names.split_at(NAME);
    let source = Bytes::from_slice(alloc, from)?;
    let destination = Bytes::from_slice(alloc, to)?;
    Ok(Body::Unix {
        source,
        destination,
        fields,
    })
}

// A block whose first bytes are addresses or names, and the others fields.
fn read_front<S: Source, const N: usize>(
    alloc: Global,
    source: &mut S,
    len: usize,
) -> Result<([u8; N], Fields), Proxy2Error>
    requires near { N ≤ 216 }
    requires long { N ≤ len }
    requires small { len ≤ 65535 }
    ensures block { ReadsParts N len (S.left source.old) result (S.left source.new) }
    ensures went { IsRead S.sending S.faults S.fault_limit S.calls S.is_link source.old source.new result }
{
    let front = read_array::<S, N>(source)?;
    let fields = read_fields(alloc, source, N, len - N)?;
    Ok((front, fields))
}

// So many bytes of a block from this place on, as fields.
fn read_fields<S: Source>(
    alloc: Global,
    source: &mut S,
    place: usize,
    len: usize,
) -> Result<Fields, Proxy2Error>
    requires near { place ≤ 216 }
    requires small { len ≤ 65535 }
    ensures block { IfSome (S.left source.old) (λ left. Reads len (λ bytes. fields_at (length bytes) place bytes) left result (S.left source.new)) }
    ensures went { IsRead S.sending S.faults S.fault_limit S.calls S.is_link source.old source.new result }
{
    let bytes = read_bytes(alloc, source, len)?;
    fields(alloc, place, bytes.as_slice())
}

fn read_bytes<S: Source>(alloc: Global, source: &mut S, len: usize) -> Result<Bytes, Proxy2Error>
    ensures block { IfSome (S.left source.old) (λ left. Reads len (λ bytes. Ok bytes) left result (S.left source.new)) }
    ensures len { IfOk result (λ bytes. length bytes ≡ len) }
    ensures went { IsRead S.sending S.faults S.fault_limit S.calls S.is_link source.old source.new result }
{
    let mut bytes = Vec::from_elem(alloc, 0u8, len)?;
    fill(source, bytes.as_mut_slice())?;
    Ok(Bytes::from_vec(bytes))
}

fn read_array<S: Source, const N: usize>(source: &mut S) -> Result<[u8; N], Proxy2Error>
    ensures block { IfSome (S.left source.old) (λ left. Reads N (λ bytes. Ok bytes) left result (S.left source.new)) }
    ensures went { IsRead S.sending S.faults S.fault_limit S.calls S.is_link source.old source.new result }
{
    let mut bytes = [0; N];
    fill(source, &mut bytes)?;
    Ok(bytes)
}

// Reads until all of `out` is read.
fn fill<S: Source>(source: &mut S, out: &mut [u8]) -> Result<(), Proxy2Error>
    ensures filled { IfSome (S.left source.old) (λ left. Fills left out.new result (S.left source.new)) }
    ensures went { IsRead S.sending S.faults S.fault_limit S.calls S.is_link source.old source.new result }
{
    let mut filled = 0;
    while filled < out.len() {
        match source.read(&mut out[filled..]) {
            Ok(0) => return Err(Proxy2Error::UnexpectedEof),
            Ok(n) => filled += n,
            Err(_) => return Err(Proxy2Error::Fault),
        }
    }
    Ok(())
}

// Both ends, of version 4.
fn pair4(block: &[u8; 12]) -> SocketAddrPair
    ensures { result ≡ pair4 block.now }
{
    let source = u32::from_be_bytes([block[0], block[1], block[2], block[3]]);
    let destination = u32::from_be_bytes([block[4], block[5], block[6], block[7]]);
    SocketAddrPair {
        source: SocketAddr {
            ip: IpAddr::V4(source),
            port: u16::from_be_bytes([block[8], block[9]]),
        },
        destination: SocketAddr {
            ip: IpAddr::V4(destination),
            port: u16::from_be_bytes([block[10], block[11]]),
        },
    }
}

// Both ends, of version 6.
fn pair6(block: &[u8; 36]) -> SocketAddrPair
    ensures { result ≡ pair6 block.now }
{
    SocketAddrPair {
        source: SocketAddr {
            ip: IpAddr::V6(number16(&block[..16])),
            port: u16::from_be_bytes([block[32], block[33]]),
        },
        destination: SocketAddr {
            ip: IpAddr::V6(number16(&block[16..32])),
            port: u16::from_be_bytes([block[34], block[35]]),
        },
    }
}

// The number of sixteen bytes, the high ones first.
fn number16(bytes: &[u8]) -> u128
    requires { length bytes.now ≡ 16 }
    ensures { result ≡ from_be_bytes w128 bytes.now }
{
    u128::from_be_bytes([
        bytes[0], bytes[1], bytes[2], bytes[3], bytes[4], bytes[5], bytes[6], bytes[7], bytes[8],
        bytes[9], bytes[10], bytes[11], bytes[12], bytes[13], bytes[14], bytes[15],
    ])
}
