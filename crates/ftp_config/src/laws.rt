//! The law of all lines. The function does nothing: its clause is the law.

ghost use Rattle.ftp_config.specs.Grammar.{LinesAreSpelled};

/// A line is read as a user of a name exactly where it is spelled so.
///
/// # Proved
///
/// - A line is read as a user exactly where it is `NAME:HASH:RIGHTS:HOME`, or that with `:BUDGET` behind it, and its fields spell
///   what the user has (`spelled`).
pub fn lines_are_spelled()
    ensures spelled { LinesAreSpelled }
{}
