//! What holds of all dates.

ghost use Rattle.ftp_places.specs.Date.{HasOneDate};

/// Each day has one date.
///
/// # Proved
///
/// - Two dates that the calendar has, and whose day is the same, are the same (`unique`).
pub fn a_day_has_one_date()
    ensures unique { HasOneDate }
{}
