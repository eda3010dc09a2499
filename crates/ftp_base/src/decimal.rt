//! Numbers in decimal digits.

ghost use Rattle.std.specs.Prelude.{◌≡◌, ◌^◌, ◌<◌, length, nat_lt, true, Some, None, if◌then◌else◌};
ghost use Rattle.std.specs.List.{list_all};
ghost use Rattle.std.specs.Char.{is_ascii_digit};
ghost use Rattle.std.specs.Str.Parse.{digits_value};
ghost use Rattle.ftp_base.specs.Decimal.{is_decimal, decimal_below};

/// Says whether the bytes are decimal digits, of which a zero leads no other.
pub fn is_decimal(bytes: &[u8]) -> bool
    ensures decimal { result ≡ is_decimal bytes.now }
    ensures digits { result ≡ true → list_all is_ascii_digit bytes.now ≡ true }
    ensures some { result ≡ true → 0 < length bytes.now }
{
    !bytes.is_empty() && are_digits(bytes) && (bytes[0] != b'0' || bytes.len() == 1)
}

/// The number that the bytes spell, where it fits.
pub fn decimal_in(bytes: &[u8]) -> Option<u64>
    ensures number { result ≡ decimal_below (2 ^ 64) bytes.now }
{
    if !is_decimal(bytes) {
        return None;
    }
    value(bytes)
}

fn are_digits(bytes: &[u8]) -> bool
    ensures { result ≡ list_all is_ascii_digit bytes.now }
{
    bytes.iter().all(|b| b.is_ascii_digit())
}

// The value of the digits, where it fits.
fn value(digits: &[u8]) -> Option<u64>
    requires digits { list_all is_ascii_digit digits.now ≡ true }
    requires some { 0 < length digits.now }
    ensures { result ≡ (let n = digits_value 10 digits.now in if nat_lt n (2 ^ 64) then Some n else None) }
{
    let Ok(text) = std::str::from_utf8(digits) else {
        return None;
    };
    match text.parse::<u64>() {
        Ok(n) => Some(n),
        Err(_) => None,
    }
}
