//! Days and times of day, UTC.

ghost use Rattle.std.specs.Prelude.{◌≡◌, ◌++◌, OnOk};
ghost use Rattle.ftp_audit.specs.Calendar.{date_of, two, clock_text, day_of, date_text, iso_text, weekday_text, month_text, padded_day, ctime_text};

use ftp_places::{Date, a_day_has_one_date, date_at};
use ftp_text::writing::{put, put_byte, put_decimal};
use std::alloc::AllocError;

// 400 years.
const CYCLE_DAYS: u64 = 146_097;

// The date of a day that is counted from the first day of 1970.
fn date_of(days: u64) -> Date
    ensures { result ≡ date_of days }
{
    // A day has no other date.
    a_day_has_one_date();
    let date = date_at((719_528 + days % CYCLE_DAYS) * 86_400);
    Date {
        year: date.year + 400 * (days / CYCLE_DAYS),
        month: date.month,
        day: date.day,
    }
}

// The last two digits of the number.
fn put_two(out: &mut Vec<u8>, n: u64) -> Result<(), AllocError>
    ensures { OnOk result (out.new.items ≡ out.old.items ++ two n) }
{
    put(out, &[b'0' + (n / 10 % 10) as u8, b'0' + (n % 10) as u8])
}

fn put_clock(out: &mut Vec<u8>, moment: u64) -> Result<(), AllocError>
    ensures { OnOk result (out.new.items ≡ out.old.items ++ clock_text moment) }
{
    put_two(out, moment / 3_600_000 % 24)?;
    put_byte(out, b':')?;
    put_two(out, moment / 60_000 % 60)?;
    put_byte(out, b':')?;
    put_two(out, moment / 1_000 % 60)
}

fn put_date(out: &mut Vec<u8>, moment: u64) -> Result<(), AllocError>
    ensures { OnOk result (out.new.items ≡ out.old.items ++ date_text (date_of (day_of moment))) }
{
    let date = date_of(moment / 86_400_000);
    put_decimal(out, date.year)?;
    put_byte(out, b'-')?;
    put_two(out, date.month)?;
    put_byte(out, b'-')?;
    put_two(out, date.day)
}

/// Writes a moment, in milliseconds since the first day of 1970, with its milliseconds (ISO 8601).
#[tactic(auto, unfolding(crate::specs::Calendar::iso_text))]
pub(crate) fn put_iso(out: &mut Vec<u8>, moment: u64) -> Result<(), AllocError>
    ensures { OnOk result (out.new.items ≡ out.old.items ++ iso_text moment) }
{
    put_date(out, moment)?;
    put_byte(out, b'T')?;
    put_clock(out, moment)?;
    put_byte(out, b'.')?;
    put_byte(out, b'0' + (moment / 100 % 10) as u8)?;
    put_two(out, moment % 100)?;
    put_byte(out, b'Z')
}

fn weekday(days: u64) -> &'static [u8]
    ensures { result.now ≡ weekday_text days }
{
    match days % 7 {
        0 => b"Thu",
        1 => b"Fri",
        2 => b"Sat",
        3 => b"Sun",
        4 => b"Mon",
        5 => b"Tue",
        _ => b"Wed",
    }
}

fn month_name(month: u64) -> &'static [u8]
    ensures { result.now ≡ month_text month }
{
    match month {
        1 => b"Jan",
        2 => b"Feb",
        3 => b"Mar",
        4 => b"Apr",
        5 => b"May",
        6 => b"Jun",
        7 => b"Jul",
        8 => b"Aug",
        9 => b"Sep",
        10 => b"Oct",
        11 => b"Nov",
        _ => b"Dec",
    }
}

// The number of a day in two places.
fn put_padded(out: &mut Vec<u8>, day: u64) -> Result<(), AllocError>
    ensures { OnOk result (out.new.items ≡ out.old.items ++ padded_day day) }
{
    if day < 10 {
        return put(out, &[b' ', b'0' + day as u8]);
    }
    put_two(out, day)
}

/// Writes a moment, in milliseconds since the first day of 1970, as C's ctime does.
#[tactic(auto, unfolding(crate::specs::Calendar::ctime_text))]
pub(crate) fn put_ctime(out: &mut Vec<u8>, moment: u64) -> Result<(), AllocError>
    ensures { OnOk result (out.new.items ≡ out.old.items ++ ctime_text moment) }
{
    let days = moment / 86_400_000;
    let date = date_of(days);
    put(out, weekday(days))?;
    put_byte(out, b' ')?;
    put(out, month_name(date.month))?;
    put_byte(out, b' ')?;
    put_padded(out, date.day)?;
    put_byte(out, b' ')?;
    put_clock(out, moment)?;
    put_byte(out, b' ')?;
    put_decimal(out, date.year)
}
