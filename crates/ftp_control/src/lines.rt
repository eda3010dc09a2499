//! Lines of a source, in whatever pieces it gives them.

ghost use Rattle.std.specs.Prelude.{◌≡◌, ℕ, ◌+◌, ◌-◌, ◌<◌, ◌≤◌, ◌++◌, [], length, Some, IfOk, OnErr, IfSome, MatchOption, IsErrOf};
ghost use Rattle.std.specs.List.{position_or_len};
ghost use Rattle.ftp_base.specs.Outside.{HasRisen};
ghost use Rattle.ftp_control.specs.Lines.{is_line_feed, behind_line, bytes_in, IsWithin, Rest, TakesAtMost, IsNext};

use ftp_base::{Failed, Source};
use memchr::memchr;

/// Why no line was found.
#[derive(Clone, Copy, Debug, PartialEq, Eq)]
pub enum NextLineError {
    /// The line does not fit.
    Long,
    /// The source failed.
    Fault,
}

/// A part of a buffer, up to the byte before `end`.
#[derive(Clone, Copy, Debug, PartialEq, Eq)]
pub struct Span {
    pub start: usize,
    pub end: usize,
}

/// Finds the next line in the buffer, and moves the span of what is held behind it. It reads as much as that needs.
///
/// A line is at most one byte shorter than the buffer, its line feed not counted, and the last may lack its line feed.
///
/// # Proved
///
/// - The next line of what is held and left, in whatever pieces the source gives it; the end; too long exactly where it
///   does not fit (`told`, `line`, `taken`).
/// - A call takes no more from the front of what is held and left than the buffer has bytes, whatever it answers
///   (`ahead`).
/// - A fault only where the source's count rose (`fault_rose`, `count`).
pub fn next_line<S: Source>(
    buffer: &mut [u8],
    held: &mut Span,
    source: &mut S,
) -> Result<Option<Span>, NextLineError>
    requires within { IsWithin buffer.old held.old }
    requires room { 0 < length buffer.old }

    // What was held and left gives the line, or is at its end, or begins with a line that is too long.
    ensures told { IfSome (S.left source.old) (λ left. IsNext (length buffer.old - 1) (bytes_in buffer.old held.old ++ left)
        result buffer.new (bytes_in buffer.new held.new) (S.left source.new)) }

    // Of what was held and left no more is taken from the source than the buffer has bytes.
    ensures ahead { IfSome (S.left source.old) (λ left. TakesAtMost (length buffer.old) (bytes_in buffer.old held.old ++ left) (S.left source.new)) }

    // The line and its line feed stand before what is held, and are the bytes that went.
    ensures line { IfOk result (λ found. IfSome found (λ line. IsWithin buffer.new line)) }
    ensures moved { IfOk result (λ found. IfSome found (λ line. line.start < held.new.start)) }
    ensures taken { IfOk result (λ found. IfSome found (λ line. IfSome (S.left source.old)
        (λ left. held.new.start - line.start + length (behind_line (bytes_in buffer.old held.old ++ left)) ≡ length (bytes_in buffer.old held.old ++ left)))) }
    ensures fault_rose { IsErrOf result NextLineError.Fault → HasRisen (S.faults source.old) (S.faults source.new) }
    ensures count { S.faults source.old ≤ S.faults source.new }

    // The next call can be made.
    ensures within { IsWithin buffer.new held.new }
    ensures len { length buffer.new ≡ length buffer.old }
{
    let mut scanned = 0;
    loop {
        if let Some(i) = line_feed(&buffer[held.start..held.end], scanned) {
            let line = Span {
                start: held.start,
                end: held.start + i,
            };
            held.start += i + 1;
            return Ok(Some(line));
        }
        scanned = held.end - held.start;
        if scanned == buffer.len() {
            return Err(NextLineError::Long);
        }
        *held = make_room(buffer, *held);
        let Ok(n) = read_more(buffer, *held, source) else {
            return Err(NextLineError::Fault);
        };
        if n == 0 {
            if scanned == 0 {
                return Ok(None);
            }
            let line = *held;
            held.start = held.end;
            return Ok(Some(line));
        }
        held.end += n;
    }
}

// Where the first line feed is, given that none stands before `from`.
pub(crate) fn line_feed(bytes: &[u8], from: usize) -> Option<usize>
    requires in_range { from ≤ length bytes.now }
    requires none_before { from ≤ position_or_len is_line_feed bytes.now }
    ensures { MatchOption result (position_or_len is_line_feed bytes.now ≡ length bytes.now)
        (λ i. (i < length bytes.now) × (position_or_len is_line_feed bytes.now ≡ i)) }
{
    match memchr(b'\n', &bytes[from..]) {
        Some(i) => Some(from + i),
        None => None,
    }
}

// Moves the span's bytes to the front where the buffer is full behind them.
pub(crate) fn make_room(buffer: &mut [u8], span: Span) -> Span
    requires { IsWithin buffer.old span }
    ensures same { bytes_in buffer.new result ≡ bytes_in buffer.old span }
    ensures size { result.end - result.start ≡ span.end - span.start }
    ensures room { result.end ≡ length buffer.new → result.start ≡ 0 }
    ensures within { IsWithin buffer.new result }
    ensures len { length buffer.new ≡ length buffer.old }
{
    if span.end < buffer.len() {
        return span;
    }
    buffer.copy_within(span.start..span.end, 0);
    Span {
        start: 0,
        end: span.end - span.start,
    }
}

// Reads behind the span, and says how many bytes: none exactly at the end of the source.
pub(crate) fn read_more<S: Source>(
    buffer: &mut [u8],
    span: Span,
    source: &mut S,
) -> Result<usize, Failed>
    requires within { IsWithin buffer.old span }
    requires room { span.end < length buffer.old }
    ensures told { IfOk result (λ n. IfSome (S.left source.old)
        (λ l. Rest (bytes_in buffer.new (record span { end = span.end + n })) (S.left source.new) (bytes_in buffer.old span ++ l))) }
    ensures end { IfOk result (λ n. n ≡ 0 → IfSome (S.left source.old) (λ l. (l ≡ []) × (S.left source.new ≡ Some []))) }
    ensures within { IfOk result (λ n. span.end + n ≤ length buffer.new) }
    ensures others { bytes_in buffer.new span ≡ bytes_in buffer.old span }
    ensures sent { (S.sending source.new).sent ≡ (S.sending source.old).sent }
    ensures len { length buffer.new ≡ length buffer.old }
    ensures fault_rose { OnErr result (HasRisen (S.faults source.old) (S.faults source.new)) }
    ensures count { S.faults source.old ≤ S.faults source.new }
    ensures unchanged { OnErr result (S.left source.new ≡ S.left source.old) }
{
    let n = source.read(&mut buffer[span.end..])?;
    Ok(n)
}
