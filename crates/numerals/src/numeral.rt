//! The digits and the value of a decimal numeral.
ghost use Rattle.std.specs.Prelude.{◌≡◌, ◌^◌, ◌<◌, ◌≤◌, length, IfSome, if◌then◌else◌, Some, None};
ghost use Rattle.std.specs.List.{list_all};
ghost use Rattle.std.specs.Char.{is_ascii_digit};
ghost use Rattle.std.specs.Str.Parse.{digits_value};
ghost use Rattle.numerals.specs.Numeral.{decimal_in};
ghost use Rattle.numerals.specs.declared.numeral.TheConstants.{MAX_NUMBER_DIGITS};

/// The maximum number of digits whose value always fits into 64 bits.
pub const MAX_NUMBER_DIGITS: usize = 19;

/// Returns whether all bytes are digits. There may be none.
#[inline]
pub fn are_digits(bytes: &[u8]) -> bool
    ensures { result ≡ list_all is_ascii_digit bytes.now }
{
    bytes.iter().all(|byte| byte.is_ascii_digit())
}

/// Returns the value of a decimal numeral of 1 to `most` digits, leading zeros included, or `None` if the bytes are anything else.
#[inline]
pub fn decimal_value(digits: &[u8], most: usize) -> Option<u64>
    requires few { most ≤ MAX_NUMBER_DIGITS }
    ensures value { result ≡ decimal_in most digits.now }
    ensures small { IfSome result (λ n. n < 10 ^ most) }
{
    if digits.is_empty() || digits.len() > most {
        return None;
    }
    value_of(digits)
}

/// Returns the value of digits, or `None` if a byte isn't a digit.
#[inline]
fn value_of(digits: &[u8]) -> Option<u64>
    requires { length digits.now ≤ MAX_NUMBER_DIGITS }
    ensures { result ≡ (if list_all is_ascii_digit digits.now then Some (digits_value 10 digits.now) else None) }
{
    let mut value = 0u64;
    for byte in digits {
        if !byte.is_ascii_digit() {
            return None;
        }
        value = value * 10 + u64::from(*byte - b'0');
    }
    Some(value)
}
