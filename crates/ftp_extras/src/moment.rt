//! Moments in UTC as 14 digits (RFC 3659, section 2.3).

ghost use Rattle.std.specs.Prelude.{◌≡◌, ◌+◌, ◌<◌, length};
ghost use Rattle.std.specs.List.{list_all};
ghost use Rattle.std.specs.Char.{is_ascii_digit};
ghost use Rattle.ftp_extras.specs.Moment.{two_digits, is_in_span, is_moment};

fn are_digits(bytes: &[u8]) -> bool
    ensures { result ≡ list_all is_ascii_digit bytes.now }
{
    bytes.iter().all(|b| b.is_ascii_digit())
}

// The number of the two digits at a place.
fn two_digits(at: &[u8], i: usize) -> u32
    requires { i + 1 < length at.now }
    ensures { result ≡ two_digits at.now i }
{
    let tens = u32::from(at[i].saturating_sub(b'0'));
    let ones = u32::from(at[i + 1].saturating_sub(b'0'));
    tens * 10 + ones
}

fn is_in_span(low: u32, high: u32, n: u32) -> bool
    ensures { result ≡ is_in_span low high n }
{
    n >= low && n <= high
}

/// Says whether the bytes are 14 digits that name a moment.
///
/// # Proved
///
/// - They name a moment where the definition says so (`is_moment` in `ftp_extras/specs/Moment.antt`).
pub fn is_moment(at: &[u8]) -> bool
    ensures { result ≡ is_moment at.now }
{
    at.len() == 14
        && are_digits(at)
        && is_in_span(1, 12, two_digits(at, 4))
        && is_in_span(1, 31, two_digits(at, 6))
        && is_in_span(0, 23, two_digits(at, 8))
        && is_in_span(0, 59, two_digits(at, 10))
        && is_in_span(0, 60, two_digits(at, 12))
}
