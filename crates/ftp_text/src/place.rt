//! How far a printed log is read, line by line.

ghost use Rattle.std.specs.Prelude.{◌≡◌, ℕ, ◌<◌, ◌++◌, ◌∷◌, [], List, true, false, length, IfOk, OnOk, IfNone, IfSome, IsErrOf, MatchOption};
ghost use Rattle.std.specs.List.{position_or_len};
ghost use Rattle.ftp_control.specs.Lines.{is_line_feed, first_line, behind_line};
ghost use Rattle.ftp_text.specs.declared.fault.LineFault.TheVariants as fault;
ghost use Rattle.ftp_text.specs.declared.line.LogLine.{LogLine};
ghost use Rattle.ftp_text.specs.LogText.{text_of, IsLog, ComesNext, IsFirstBad, HasFirstBad, IsPrinted};
ghost use Rattle.ftp_text.specs.Place.{stage_after, is_whole, HasRead, IsLawful};

use crate::fault::{LineFault, Parsed};
use crate::line::{LogLine, read_log_line};
use memchr::memchr;
use std::alloc::{AllocError, Global};

/// No printed log is longer, in bytes.
pub const LONGEST_LOG: usize = 67_108_864;

/// Behind which line a log is read.
#[derive(Clone, Copy, Debug, PartialEq, Eq)]
pub enum Stage {
    /// Behind none.
    Start,
    /// Behind the options.
    Opened,
    /// Behind an event, which is to be decided.
    Happened,
    /// Behind an answer to an event, which is to be decided.
    Answered,
    /// Behind a decision or an action.
    Decided,
}

/// How far a printed log is read.
#[derive(Clone, Copy, Debug, PartialEq, Eq)]
pub struct Place {
    pub stage: Stage,
    /// How many lines were read.
    pub lines: u64,
    /// How many bytes these are, with their line feeds.
    pub taken: usize,
}

impl Stage {
    /// The stage behind a line, where it may stand here.
    pub fn after(self, line: &LogLine) -> Option<Stage>
        ensures { result ≡ stage_after self line.now }
    {
        match (self, line) {
            (Stage::Start, LogLine::Options(_)) => Some(Stage::Opened),
            (Stage::Start | Stage::Opened | Stage::Decided, LogLine::Event(_)) => {
                Some(Stage::Happened)
            }
            (Stage::Happened, LogLine::Answer(_)) => Some(Stage::Answered),
            (Stage::Happened | Stage::Answered, LogLine::Decision(_)) => Some(Stage::Decided),
            (Stage::Decided, LogLine::Action(_)) => Some(Stage::Decided),
            _ => None,
        }
    }

    /// Says whether a log can end here.
    pub fn is_whole(self) -> bool
        ensures { result ≡ is_whole self }
    {
        !matches!(self, Stage::Happened | Stage::Answered)
    }
}

impl Place {
    /// Nothing is read.
    pub fn new() -> Place
        ensures start { (all : List ℕ) → HasRead [] all all result }
        ensures lawful { IsLawful result }
    {
        Place {
            stage: Stage::Start,
            lines: 0,
            taken: 0,
        }
    }

    /// What the next line of the text says, and the bytes behind it. After an error the number of lines counts this
    /// line too.
    ///
    /// # Proved
    ///
    /// - A line is read where a printed log can have it behind the lines before it, and else it is the first bad one;
    ///   an entry that is not whole at the end is bad at its last line (`line`, `bad`; also `Place::is_whole`: `whole`,
    ///   `unfinished`).
    pub fn read<'a>(&mut self, alloc: Global, text: &'a [u8]) -> Parsed<'a, LogLine>
        requires lawful { IsLawful self.old }
        requires some { 0 < length text.now }
        ensures line { (before : List LogLine) (all : List ℕ) → HasRead before all text.now self.old →
            IfOk result (λ x. ComesNext before text.now x.0 × HasRead (before ++ x.0 ∷ []) all x.1.now self.new) }

        // A line is bad only where no printed log has it behind the lines before it.
        ensures bad { (before : List LogLine) (all : List ℕ) → HasRead before all text.now self.old → IsErrOf result fault.Bad → IsFirstBad self.new.lines before text.now }
        ensures shorter { IfOk result (λ x. length x.1.now < length text.now) }
        ensures lawful { OnOk result (IsLawful self.new) }
    {
        self.lines += 1;
        let Some((line, rest)) = cut_line(text) else {
            return Err(LineFault::Bad);
        };
        if line.len() >= LONGEST_LOG - self.taken {
            return Err(LineFault::Bad);
        }
        let says = match read_log_line(alloc, line) {
            Ok(says) => says,
            Err(fault) => return Err(fault),
        };
        let Some(stage) = self.stage.after(&says) else {
            drop(says);
            return Err(LineFault::Bad);
        };
        self.stage = stage;
        self.taken += line.len() + 1;
        Ok((says, rest))
    }

    /// Says whether a printed log can end here.
    pub fn is_whole(&self) -> bool
        ensures whole { (before : List LogLine) (all : List ℕ) → HasRead before all [] self.now → result ≡ true → IsLog before × (text_of before ≡ all) }
        ensures unfinished { (before : List LogLine) (all : List ℕ) → HasRead before all [] self.now → result ≡ false → IsFirstBad self.now.lines before [] }
    {
        self.stage.is_whole()
    }
}

// The first line of the text and what stands behind it, where the line has its line feed.
fn cut_line(text: &[u8]) -> Option<(&[u8], &[u8])>
    ensures { MatchOption result (position_or_len is_line_feed text.now ≡ length text.now)
        (λ x. (position_or_len is_line_feed text.now < length text.now) × (x.0.now ≡ first_line text.now) × (x.1.now ≡ behind_line text.now)) }
{
    match memchr(b'\n', text) {
        Some(end) => Some((&text[..end], &text[end + 1..])),
        None => None,
    }
}

/// The number of the first line that no printed log has, or None where the text is that of a printed log: an options
/// line or none, and the lines of entries.
///
/// # Proved
///
/// - Where no line is named, the text is an options line or none and the print of a log, of at most 67,108,864 bytes
///   (`printed`).
/// - The line that is named is the first that no printed log has with the lines before it, or the one with which the
///   text is too long (`bad`).
pub fn first_bad_line(alloc: Global, text: &[u8]) -> Result<Option<u64>, AllocError>
    ensures printed { IfOk result (λ bad. IfNone bad (IsPrinted text.now)) }
    ensures bad { IfOk result (λ bad. IfSome bad (λ k. HasFirstBad k text.now)) }
{
    let mut place = Place::new();
    let mut rest = text;
    while !rest.is_empty() {
        match place.read(alloc, rest) {
            Ok((line, behind)) => {
                drop(line);
                rest = behind;
            }
            Err(LineFault::Bad) => return Ok(Some(place.lines)),
            Err(LineFault::Memory) => return Err(AllocError),
        }
    }
    if place.is_whole() {
        Ok(None)
    } else {
        Ok(Some(place.lines))
    }
}
