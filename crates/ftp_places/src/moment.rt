//! Moments, which are seconds from the beginning of the year 0, in UTC, and how listings tell them.

ghost use Rattle.std.specs.Prelude.{◌≡◌, ◌<◌, ◌≤◌, ◌+◌, ◌*◌, ◌/◌, ◌%◌, [], ◌∷◌};
ghost use Rattle.ftp_places.specs.Moment.{IsDateAt, day_10000, day_seconds, hour, is_recent, list_date, minute, moment_of, month_name, time_val};

use crate::date::{Date, date_of};

const DAY_SECONDS: u64 = 86_400;

/// From the beginning of the year 0 to that of 1970.
const SECONDS_TO_1970: u64 = 719_528 * DAY_SECONDS;

/// The last second of the year 9999, which is the last with four digits.
const LAST_SECOND: u64 = 3_652_425 * DAY_SECONDS - 1;

/// Half a year: for so long LIST shows the time of day.
const RECENT_SECONDS: u64 = 182 * DAY_SECONDS;

/// The moment so many seconds after 1970 or before it, or the nearest of the years 0 to 9999.
///
/// # Proved
///
/// - A moment that a system tells in seconds since 1970 is the one so long after the year 0 (`moment`).
pub fn moment_of(since_1970: i64) -> u64
    ensures moment { result ≡ moment_of since_1970 }
    ensures in_range { result < day_10000 * day_seconds }
{
    match u64::try_from(since_1970) {
        Ok(after) => (SECONDS_TO_1970 + after).min(LAST_SECOND),
        Err(_) => SECONDS_TO_1970.saturating_sub(since_1970.unsigned_abs()),
    }
}

/// The date of a moment.
///
/// # Proved
///
/// - The date of a moment is the one that the calendar has with the number of the moment's day, by the lengths of the
///   years and months before it (`date`).
pub fn date_at(moment: u64) -> Date
    requires in_range { moment < day_10000 * day_seconds }
    ensures date { IsDateAt moment result }
    ensures year { result.year < 10_000 }
{
    date_of(moment / DAY_SECONDS)
}

fn hour(moment: u64) -> u64
    ensures { result ≡ hour moment }
{
    moment / 3600 % 24
}

fn minute(moment: u64) -> u64
    ensures { result ≡ minute moment }
{
    moment / 60 % 60
}

fn is_recent(moment: u64, now: u64) -> bool
    ensures { result ≡ is_recent moment now }
{
    moment <= now && now - moment <= RECENT_SECONDS
}

// The digit of a number at a unit: 1, 10, 100.
fn digit(n: u64, unit: u64) -> u8
    requires unit { 0 < unit }
    ensures { result ≡ 48 + n / unit % 10 }
{
    b'0' + (n / unit % 10) as u8
}

// The letters of a month.
fn month_name(month: u64) -> (u8, u8, u8)
    requires from_january { 1 ≤ month }
    requires to_december { month ≤ 12 }
    ensures { result.0 ∷ result.1 ∷ result.2 ∷ [] ≡ month_name month }
{
    let names = b"JanFebMarAprMayJunJulAugSepOctNovDec";
    let at = 3 * (month as usize - 1);
    (names[at], names[at + 1], names[at + 2])
}

/// A moment of a date as `YYYYMMDDHHMMSS` (RFC 3659, section 2.3).
///
/// # Proved
///
/// - The fourteen digits are those of the date and the time of day (`text`).
pub fn time_val(date: Date, moment: u64) -> [u8; 14]
    requires year { date.year < 10_000 }
    requires month { date.month < 100 }
    requires day { date.day < 100 }
    ensures text { result ≡ time_val date moment }
{
    let hour = hour(moment);
    let minute = minute(moment);
    let second = moment % 60;
    [
        digit(date.year, 1000),
        digit(date.year, 100),
        digit(date.year, 10),
        digit(date.year, 1),
        digit(date.month, 10),
        digit(date.month, 1),
        digit(date.day, 10),
        digit(date.day, 1),
        digit(hour, 10),
        digit(hour, 1),
        digit(minute, 10),
        digit(minute, 1),
        digit(second, 10),
        digit(second, 1),
    ]
}

/// A moment of a date as LIST shows it: `Nov 28 13:57` in the half year before now, else `Nov 28  2020`.
///
/// # Proved
///
/// - LIST shows the month, the day, and the time of day of a moment in the half year before now, else the year (`text`).
pub fn list_date(date: Date, moment: u64, now: u64) -> [u8; 12]
    requires from_january { 1 ≤ date.month }
    requires to_december { date.month ≤ 12 }
    requires year { date.year < 10_000 }
    requires day { date.day < 100 }
    ensures text { result ≡ list_date date moment now }
{
    let (first, second, third) = month_name(date.month);
    let tens = digit(date.day, 10);
    let ones = digit(date.day, 1);
    if is_recent(moment, now) {
        let hour = hour(moment);
        let minute = minute(moment);
        [
            first,
            second,
            third,
            b' ',
            tens,
            ones,
            b' ',
            digit(hour, 10),
            digit(hour, 1),
            b':',
            digit(minute, 10),
            digit(minute, 1),
        ]
    } else {
        [
            first,
            second,
            third,
            b' ',
            tens,
            ones,
            b' ',
            b' ',
            digit(date.year, 1000),
            digit(date.year, 100),
            digit(date.year, 10),
            digit(date.year, 1),
        ]
    }
}
