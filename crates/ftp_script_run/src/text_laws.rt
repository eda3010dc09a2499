//! What holds of lines and of scripts. The functions do nothing: their clauses are the laws.

ghost use Rattle.ftp_script_run.specs.Laws.{LineHasOneItem, BytesAreOneScript};

/// A line is that of at most one item.
///
/// # Proved
///
/// - A line is that of at most one item.
pub fn a_line_has_one_item()
    ensures { LineHasOneItem }
{}

/// All bytes are a script of some items, up to its end or to a first bad line, and in no other way.
///
/// # Proved
///
/// - All bytes are one script: of some items, up to the end or to a first bad line, and in no other way.
pub fn bytes_are_one_script()
    ensures { BytesAreOneScript }
{}
