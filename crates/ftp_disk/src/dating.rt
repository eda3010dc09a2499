//! When files were changed, as 14 digits (RFC 3659, section 2.3) and as seconds since 1970.

ghost use Rattle.std.specs.Prelude.{◌≡◌, true, length, pos, IfSome};
ghost use Rattle.ftp_places.specs.Moment.{IsDateAt, moment_of, time_val};
ghost use Rattle.ftp_places.specs.declared.date.Date.{Date};
ghost use Rattle.ftp_extras.specs.Moment.{is_moment};

use ftp_extras::is_moment;
use ftp_places::{date_at, moment_of, time_val};
use std::fs::Metadata;
use std::io;
use std::os::unix::fs::MetadataExt;

const DAYS_TO_1970: u64 = 719_528;

/// How many days of a year that has no leap day are before each month.
const DAYS_BEFORE: [u64; 12] = [0, 31, 59, 90, 120, 151, 181, 212, 243, 273, 304, 334];

/// When what a system tells of was last changed.
pub(crate) fn modified_told(answer: &io::Result<Metadata>) -> Option<[u8; 14]>
    ensures { IfSome result (λ at. is_moment at ≡ true) }
{
    let Ok(found) = answer else {
        return None;
    };
    let moment = moment_of(found.mtime());
    let at = time_val(date_at(moment), moment);
    if is_moment(&at) { Some(at) } else { None }
}

// The number of digits.
fn number(digits: &[u8]) -> u64 {
    let mut n: u64 = 0;
    for b in digits {
        n = n
            .wrapping_mul(10)
            .wrapping_add(u64::from(b.wrapping_sub(b'0')));
    }
    n
}

// The days from the beginning of the year 0 to a date, if it is one.
fn days_to(year: u64, month: u64, day: u64) -> Option<u64> {
    let before = *DAYS_BEFORE.get(usize::try_from(month.wrapping_sub(1)).ok()?)?;
    let is_leap = year % 4 == 0 && (year % 100 != 0 || year % 400 == 0);
    let leap_day = if month > 2 && is_leap { 1 } else { 0 };
    let leap_years = (year.wrapping_add(3) / 4)
        .wrapping_sub(year.wrapping_add(99) / 100)
        .wrapping_add(year.wrapping_add(399) / 400);
    Some(
        year.wrapping_mul(365)
            .wrapping_add(leap_years)
            .wrapping_add(before)
            .wrapping_add(leap_day)
            .wrapping_add(day.wrapping_sub(1)),
    )
}

// The seconds since 1970 of 14 digits, if they are a date and a time of day.
fn reckoned(at: &[u8]) -> Option<u64>
    requires { length at.now ≡ 14 }
{
    let days = days_to(number(&at[..4]), number(&at[4..6]), number(&at[6..8]))?;
    let hours = number(&at[8..10]);
    let minutes = number(&at[10..12]);
    let seconds = number(&at[12..]);
    Some(
        days.checked_sub(DAYS_TO_1970)?
            .wrapping_mul(86_400)
            .wrapping_add(hours.wrapping_mul(3600))
            .wrapping_add(minutes.wrapping_mul(60))
            .wrapping_add(seconds),
    )
}

/// The seconds since 1970 of 14 digits, if they are those of a date of the calendar from 1970 on.
///
/// # Proved
///
/// - A date that is set is told by the same digits again (`told`).
pub(crate) fn seconds_at(at: &[u8]) -> Option<u64>
    ensures told { IfSome result (λ seconds. (date : Date) × IsDateAt (moment_of (pos seconds)) date × (time_val date (moment_of (pos seconds)) ≡ at.now)) }
{
    if at.len() != 14 {
        return None;
    }
    let seconds = reckoned(at)?;
    let since_1970 = i64::try_from(seconds).ok()?;
    let moment = moment_of(since_1970);
    let told = time_val(date_at(moment), moment);
    if told.as_slice() == at {
        Some(seconds)
    } else {
        None
    }
}
