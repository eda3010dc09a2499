//! Dates of the Gregorian calendar, whose days are counted from the year 0 on.

ghost use Rattle.std.specs.Prelude.{◌≡◌, ◌+◌, ◌-◌, ◌<◌, ◌≤◌};
ghost use Rattle.ftp_places.specs.Date.{IsDateOf, is_leap_year, days_of_year, days_of_month, days_before_year, days_of_months};

/// A date.
#[derive(Clone, Copy)]
pub struct Date {
    pub year: u64,
    /// From 1.
    pub month: u64,
    /// From 1.
    pub day: u64,
}

fn is_leap_year(year: u64) -> bool
    ensures { result ≡ is_leap_year year }
{
    year % 4 == 0 && (year % 100 != 0 || year % 400 == 0)
}

fn days_of_year(year: u64) -> u64
    ensures { result ≡ days_of_year year }
{
    if is_leap_year(year) { 366 } else { 365 }
}

fn days_of_month(year: u64, month: u64) -> u64
    ensures { result ≡ days_of_month year month }
{
    match month {
        2 if is_leap_year(year) => 29,
        2 => 28,
        4 | 6 | 9 | 11 => 30,
        _ => 31,
    }
}

// The year of the day with a number, and how many days of that year come before it.
fn year_of(number: u64) -> (u64, u64)
    requires in_range { number < 3_652_425 }
    ensures before { days_before_year result.0 + result.1 ≡ number }
    ensures within { result.1 < days_of_year result.0 }
    ensures year { result.0 < 10_000 }
{
    // Each four hundred years have as many days.
    let mut year = 400 * (number / 146_097);
    let mut rest = number % 146_097;
    while rest >= days_of_year(year) {
        rest -= days_of_year(year);
        year += 1;
    }
    (year, rest)
}

// The month of a day before which so many days of its year come, and how many days of that month do.
fn month_of(year: u64, place: u64) -> (u64, u64)
    requires in_year { place < days_of_year year }
    ensures before { days_of_months year (result.0 - 1) + result.1 ≡ place }
    ensures within { result.1 < days_of_month year result.0 }
    ensures from_january { 1 ≤ result.0 }
    ensures to_december { result.0 ≤ 12 }
{
    let mut month = 1;
    let mut rest = place;
    while rest >= days_of_month(year, month) {
        rest -= days_of_month(year, month);
        month += 1;
    }
    (month, rest)
}

/// The date of the day with a number, which is 0 for the first of January of the year 0.
pub(crate) fn date_of(number: u64) -> Date
    requires in_range { number < 3_652_425 }
    ensures date { IsDateOf number result }
    ensures year { result.year < 10_000 }
{
    let (year, place) = year_of(number);
    let (month, rest) = month_of(year, place);
    Date {
        year,
        month,
        day: rest + 1,
    }
}
