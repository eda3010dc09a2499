//! What a check comes to.

use ftp_events::Decision;

/// What a check of a printed log comes to.
#[derive(Clone, Copy, Debug, PartialEq, Eq)]
pub enum Verdict {
    /// The log is right and acted, with so many entries.
    Right { entries: u64 },
    /// So many entries from the front are right and acted, and for the next another decision is due.
    Decided { entries: u64, due: Decision },
    /// So many entries from the front are right and acted, and the next has the decision that is due and other actions.
    Acted { entries: u64 },
    /// The first line that no printed log with the lines before it can have, counted from 1.
    BadText { line: u64 },
}
