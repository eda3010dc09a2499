//! Lines of a control connection, in whatever pieces they come.

ghost use Rattle.std.specs.Prelude.{◌≡◌, ◌≢◌, ℕ, ◌+◌, ◌-◌, ◌<◌, ◌≤◌, ◌++◌, [], length, Some, true, Ok, IfOk, OnOk, OnErr, IfSome, MatchOption};
ghost use Rattle.std.specs.List.{position_or_len};
ghost use Rattle.ftp_base.specs.Outside.{HasRisen};
ghost use Rattle.ftp_control.specs.Lines.{is_line_feed, bytes_in, IsWithin, Rest};
ghost use Rattle.ftp_control.specs.ControlLine.{IsHeld, IsFound, held_in, line_in};
ghost use Rattle.ftp_control.specs.declared.control_line.Got.TheVariants.{Wait, End, Full};

use crate::lines::{Span, line_feed, make_room, read_more};
use ftp_base::{Control, Failed};
use std::alloc::AllocError;

/// A line has at most so many bytes, with its line feed.
pub const LINE_SIZE: usize = 8192;

// Any line fits into so many bytes, with one byte more.
const BUFFER_SIZE: usize = 8193;

/// What a search for a line found.
#[derive(Clone, Copy, Debug, PartialEq, Eq)]
pub enum Got {
    /// A line with its line feed.
    Line(Span),
    /// The end; what stands before it is no line.
    End,
    /// A line that is too long.
    Long,
    /// As much as the buffer holds, and no line in it: a longer buffer is due.
    Full,
    /// Nothing yet.
    Wait,
}

/// The part of a buffer that was read and is no line yet, and how many of its bytes were searched for a line feed.
#[derive(Clone, Copy, Debug, PartialEq, Eq)]
pub struct Held {
    pub span: Span,
    pub scanned: usize,
}

/// Finds the next line, and takes it from what is held. It reads as much as that needs, and before each read waits for a
/// second at most.
///
/// The buffer has at most 8,193 bytes, one more than the longest line. A shorter one may be full before the end of a line, and is
/// then due to be widened.
///
/// # Proved
///
/// - A line that is found is one: it ends at its first line feed, and has at most 8,192 bytes with it; that a line is
///   too long, or that none is left, is seen in what is held (`found`).
/// - Only a buffer of fewer than 8,193 bytes is full before the end of a line (`full`).
/// - Where the control tells its bytes, the line, what is held behind it and what is left are what was held and left,
///   in whatever pieces they come; at the end nothing is left (`told`, `end`).
/// - Nothing is sent; a fault only where the control's count rose; a control that can be read at any time is not waited
///   for (`sent`, `fault_rose`, `always`).
pub fn next_control_line<C: Control>(
    buffer: &mut [u8],
    held: &mut Held,
    control: &mut C,
) -> Result<Got, Failed>
    requires held { IsHeld buffer.old held.old }
    requires room { length buffer.old ≤ 8193 }
    ensures found { IfOk result (λ got. IsFound buffer.new got (held_in buffer.new held.new)) }

    // The line, what is held behind it and what is left are what was held and left.
    ensures told { IfOk result (λ got. IfSome (C.left control.old)
        (λ left. Rest (line_in buffer.new got ++ held_in buffer.new held.new) (C.left control.new) (held_in buffer.old held.old ++ left))) }
    ensures full { result ≡ Ok Full → length buffer.old < 8193 }
    ensures end { result ≡ Ok End → IfSome (C.left control.old) (λ left. C.left control.new ≡ Some []) }
    ensures always { C.is_always_ready ≡ true → result ≢ Ok Wait }
    ensures sent { (C.sending control.new).sent ≡ (C.sending control.old).sent }
    ensures fault_rose { OnErr result (HasRisen (C.faults control.old) (C.faults control.new)) }
    ensures count { C.faults control.old ≤ C.faults control.new }

    // The next call can be made.
    ensures held { IsHeld buffer.new held.new }
    ensures len { length buffer.new ≡ length buffer.old }
{
    loop {
        let span = held.span;
        if let Some(i) = line_feed(&buffer[span.start..span.end], held.scanned) {
            if i >= LINE_SIZE {
                return Ok(Got::Long);
            }
            let behind = span.start + (i + 1);
            *held = Held {
                span: Span {
                    start: behind,
                    end: span.end,
                },
                scanned: 0,
            };
            return Ok(Got::Line(Span {
                start: span.start,
                end: behind,
            }));
        }
        let scanned = span.end - span.start;
        if scanned == buffer.len() {
            if scanned < BUFFER_SIZE {
                return Ok(Got::Full);
            }
            return Ok(Got::Long);
        }
        let span = make_room(buffer, span);
        *held = Held { span, scanned };
        let Ok(is_ready) = control.ready(1000) else {
            return Err(Failed::Fault);
        };
        if !is_ready {
            return Ok(Got::Wait);
        }
        let Ok(n) = read_more(buffer, span, control) else {
            return Err(Failed::Fault);
        };
        if n == 0 {
            return Ok(Got::End);
        }
        *held = Held {
            span: Span {
                start: span.start,
                end: span.end + n,
            },
            scanned,
        };
    }
}

/// Makes a buffer that is full of what is held one of 8,193 bytes, into which any line fits.
///
/// # Proved
///
/// - What is held stays, and a buffer that it fills has 8,193 bytes afterwards; without memory nothing changes (`same`,
///   `widened`, `unchanged`).
pub fn widen(buffer: &mut Vec<u8>, held: Held) -> Result<(), AllocError>
    requires held { IsHeld buffer.old.items held }
    requires room { length buffer.old.items ≤ 8193 }
    ensures same { held_in buffer.new.items held ≡ held_in buffer.old.items held }
    ensures widened { OnOk result (length (held_in buffer.old.items held) ≡ length buffer.old.items → length buffer.new.items ≡ 8193) }
    ensures unchanged { OnErr result (buffer.new.items ≡ buffer.old.items) }

    // The next search can be made.
    ensures held { IsHeld buffer.new.items held }
    ensures room { length buffer.new.items ≤ 8193 }
{
    if held.span.end - held.span.start < buffer.len() {
        return Ok(());
    }
    buffer.resize(BUFFER_SIZE, 0)?;
    Ok(())
}
