//! What holds of the texts of printed logs. The functions do nothing: their clauses are the laws.

ghost use Rattle.ftp_text.specs.Laws.{PrintedLogsHaveNoBadLine, OneLineIsTheFirstBad};

/// The text of a printed log has no bad line.
///
/// # Proved
///
/// - The text of a printed log has no bad line, so none is named exactly where the text is that of a printed log,
///   unless memory runs out.
pub fn printed_logs_have_no_bad_line()
    ensures { PrintedLogsHaveNoBadLine }
{}

/// A text has at most one first bad line.
///
/// # Proved
///
/// - A text has at most one first bad line.
pub fn one_line_is_the_first_bad()
    ensures { OneLineIsTheFirstBad }
{}
