//! Reading a script from a source.

ghost use Rattle.std.specs.Prelude.{◌≡◌, ℕ, ◌<◌, ◌≤◌, ◌+◌, ◌-◌, ◌++◌, List, [], length, Option, Some, None, IfOk, IfSome, OnOk, IsErrOf};
ghost use Rattle.ftp_base.specs.Outside.{HasRisen};
ghost use Rattle.ftp_control.specs.Lines.{bytes_in, behind_line, IsWithin, Rest, TakesAtMost};
ghost use Rattle.ftp_text.specs.declared.setup.Item.{Item};
ghost use Rattle.ftp_text.specs.Setup.{IsItem};
ghost use Rattle.ftp_script_run.specs.SetUp.{IsSetUp};
ghost use Rattle.ftp_script_run.specs.ScriptReader.{IsLawful, Follows, HasRead, ReadsAhead, Answers, IsLetIn, IfLine, IsFault, NextIs, next_of};

use crate::admission::{Admission, LONGEST_LINE};
use ftp_audit::Quota;
use ftp_base::{MemoryStorage, Source};
use ftp_control::{NextLineError, Span, next_line};
use ftp_text::{Item, LineFault};
use std::alloc::{AllocError, Global};

/// How many bytes the buffer of a reader has: any line fits with its line feed.
pub const BUFFER_SIZE: usize = LONGEST_LINE + 1;

/// Why there is no next item.
#[derive(Clone, Copy, Debug, PartialEq, Eq)]
pub enum ScriptError {
    Memory,
    /// The source failed.
    Fault,
    /// The first bad line, counted from 1.
    BadLine(u64),
}

impl From<AllocError> for ScriptError {
    ghost use Rattle.std.specs.Prelude.{◌≡◌};
    ghost use Rattle.ftp_script_run.specs.declared.text_script.ScriptError.TheVariants.{Memory};

    ghost from_gives = { λ _ e. e ≡ Memory };

    fn from(_error: AllocError) -> ScriptError {
        ScriptError::Memory
    }
}

/// How far a script is read, by way of a buffer of `BUFFER_SIZE` bytes.
#[derive(Drop)]
pub struct ScriptReader {
    admission: Admission,
    held: Span,
    taken: usize,
    number: u64,
}

impl ScriptReader {
    /// Nothing is read.
    pub fn new(alloc: Global) -> ScriptReader
        ensures lawful { (buffer : List ℕ) → length buffer ≡ 65537 → IsLawful result buffer }
        ensures start { (buffer bytes : List ℕ) → HasRead [] bytes result buffer (Some bytes) }
        ensures none { Follows result [] }
    {
        ScriptReader::behind(alloc, Span { start: 0, end: 0 })
    }

    /// Nothing is read but what the buffer holds.
    pub(crate) fn behind(alloc: Global, held: Span) -> ScriptReader
        ensures lawful { (buffer : List ℕ) → length buffer ≡ 65537 → IsWithin buffer held → IsLawful result buffer }
        ensures start { (buffer bytes : List ℕ) (left : Option (List ℕ)) → Rest (bytes_in buffer held) left bytes → HasRead [] bytes result buffer left }
        ensures none { Follows result [] }
    {
        ScriptReader {
            admission: Admission::new(alloc),
            held,
            taken: 0,
            number: 0,
        }
    }

    /// How many lines were read.
    pub(crate) fn lines(&self) -> u64
        ensures { result ≡ self.now.number }
    {
        self.number
    }

    /// The item of the next line, or None at the end of the script. Until an event comes, the storage is the one that
    /// the lines before set up.
    ///
    /// # Proved
    ///
    /// - The items that are read are those of the script that the source's bytes are, in order; the end and the number
    ///   of the first bad line are the script's; which lines may follow which, and a directory or file only where the
    ///   storage that the lines before set up takes it as new; at a fault the items before are those of the whole lines
    ///   that were read, and of the next line a part is held (`told`; also `ScriptReader::new`: `start`).
    /// - Behind the lines of the items before at most one buffer was taken of the source, whatever is answered
    ///   (`ahead`).
    /// - A fault only where the source's count rose (`fault_rose`, `count`).
    pub fn next_item<S: Source>(
        &mut self,
        alloc: Global,
        buffer: &mut [u8],
        source: &mut S,
        storage: &Quota<MemoryStorage>,
    ) -> Result<Option<Item>, ScriptError>
        requires lawful { IsLawful self.old buffer.old }
        ensures told { (before : List Item) (all : List ℕ) → HasRead before all self.old buffer.old (S.left source.old) → IsSetUp storage.now before →
            Answers before all result self.new buffer.new (S.left source.new) }

        // Whatever is answered, at most one buffer was taken from the source behind the lines before.
        ensures ahead { (before : List Item) (all : List ℕ) → HasRead before all self.old buffer.old (S.left source.old) → ReadsAhead before all (S.left source.new) }

        // Whether or not the source tells its bytes, the item is lawful and may stand there.
        ensures item { IfOk result (λ found. IfSome found IsItem) }
        ensures let_in { (before : List Item) → Follows self.old before → IsSetUp storage.now before → IfOk result (λ found. IfSome found (λ i. IsLetIn before i self.new)) }
        ensures fault_rose { IsErrOf result ScriptError.Fault → HasRisen (S.faults source.old) (S.faults source.new) }
        ensures count { S.faults source.old ≤ S.faults source.new }

        // The next call can be made, and the reader is further on.
        ensures lawful { OnOk result (IsLawful self.new buffer.new) }
        ensures moved { IfOk result (λ found. IfSome found (λ i. self.old.taken < self.new.taken)) }
        ensures near { (k : ℕ) → IsErrOf result (ScriptError.BadLine k) → k ≤ self.old.number + 1 }
    {
        let line = match advance(buffer, &mut self.held, source) {
            Next::Line(line) => line,
            Next::End => return Ok(None),
            Next::Long => return Err(ScriptError::BadLine(self.number + 1)),
            Next::Fault => return Err(ScriptError::Fault),
        };
        self.taken += self.held.start - line.start;
        self.number += 1;
        let line = &buffer[line.start..line.end];
        match self.admission.line(alloc, self.taken, line, storage) {
            Ok(item) => Ok(Some(item)),
            Err(LineFault::Bad) => Err(ScriptError::BadLine(self.number)),
            Err(LineFault::Memory) => Err(ScriptError::Memory),
        }
    }
}

// What comes next of a source.
enum Next {
    Line(Span),
    End,
    Long,
    Fault,
}

fn advance<S: Source>(buffer: &mut [u8], held: &mut Span, source: &mut S) -> Next
    requires within { IsWithin buffer.old held.old }
    requires room { length buffer.old ≡ 65537 }
    ensures told { IfSome (S.left source.old) (λ left. NextIs (bytes_in buffer.old held.old ++ left) result buffer.new (bytes_in buffer.new held.new) (S.left source.new)) }
    ensures ahead { IfSome (S.left source.old) (λ left. TakesAtMost 65537 (bytes_in buffer.old held.old ++ left) (S.left source.new)) }
    ensures line { IfLine result (λ line. IsWithin buffer.new line × (line.start < held.new.start)) }
    ensures taken { IfLine result (λ line. IfSome (S.left source.old)
        (λ left. held.new.start - line.start + length (behind_line (bytes_in buffer.old held.old ++ left)) ≡ length (bytes_in buffer.old held.old ++ left))) }
    ensures within { IsWithin buffer.new held.new }
    ensures len { length buffer.new ≡ 65537 }
    ensures fault_rose { IsFault result → HasRisen (S.faults source.old) (S.faults source.new) }
    ensures count { S.faults source.old ≤ S.faults source.new }
{
    match next_line(buffer, held, source) {
        Ok(found) => next_of(found),
        Err(NextLineError::Long) => Next::Long,
        Err(NextLineError::Fault) => Next::Fault,
    }
}

fn next_of(found: Option<Span>) -> Next
    ensures { result ≡ next_of found }
{
    match found {
        Some(line) => Next::Line(line),
        None => Next::End,
    }
}
