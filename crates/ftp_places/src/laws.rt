//! The law of all paths. The function does nothing: its clause is the law.

ghost use Rattle.ftp_places.specs.Laws.{NamesArePlain};

/// A path leads through no name that is empty, `.` or `..`, or has a slash.
pub fn names_are_plain()
    ensures plain { NamesArePlain }
{}
