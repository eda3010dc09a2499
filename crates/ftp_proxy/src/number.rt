//! Numbers in decimal digits.

ghost use Rattle.std.specs.Prelude.{◌≡◌, ◌<◌, ◌≤◌, nat_lt, true, Some, None, IfSome, if◌then◌else◌};
ghost use Rattle.std.specs.List.{list_all};
ghost use Rattle.std.specs.Char.{is_ascii_digit};
ghost use Rattle.std.specs.Str.Parse.{digits_value};
ghost use Rattle.ftp_base.specs.Decimal.{decimal_below};

use ftp_base::is_decimal;

/// The number below the limit that the text spells, without a leading zero.
pub fn number(text: &[u8], limit: u32) -> Option<u32>
    requires some { 1 ≤ limit }
    requires small { limit ≤ 65536 }
    ensures number { result ≡ decimal_below limit text.now }
    ensures below { IfSome result (λ n. n < limit) }
{
    if !is_decimal(text) {
        return None;
    }
    value_below(text, limit)
}

/// The value of decimal digits, where it is below the limit, which is at most 65536.
pub fn value_below(digits: &[u8], limit: u32) -> Option<u32>
    requires digits { list_all is_ascii_digit digits.now ≡ true }
    requires some { 1 ≤ limit }
    requires small { limit ≤ 65536 }
    ensures value { result ≡ (let n = digits_value 10 digits.now in if nat_lt n limit then Some n else None) }
    ensures below { IfSome result (λ n. n < limit) }
{
    let mut value = 0;
    for digit in digits {
        value = value * 10 + u32::from(*digit - b'0');
        if value >= limit {
            return None;
        }
    }
    Some(value)
}
