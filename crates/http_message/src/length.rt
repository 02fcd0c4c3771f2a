//! The length of a body, as its header gives it.
ghost use Rattle.std.specs.Prelude.{◌≡◌, IsTrue};
ghost use Rattle.std.specs.Char.{is_ascii_digit};
ghost use Rattle.std.specs.List.{list_all};
ghost use Rattle.std.specs.Str.Parse.{digits_value};
ghost use Rattle.http_message.specs.Length.{is_numeral, length_of, up_to_limit};

use numerals::are_digits;
use thiserror::Error;

/// The greatest number of bytes of a body.
pub const MAX_BODY_LENGTH: usize = 1_048_576;

/// Why a head gives no length for the body.
#[derive(Clone, Copy, Debug, PartialEq, Eq, Error)]
pub enum LengthFault {
    /// No length is announced, or the body is in a transfer coding.
    #[error("no length of the body")]
    Missing,
    /// More than one length is announced, or the value isn't a number.
    #[error("a bad length of the body")]
    Invalid,
    #[error("the body is too long")]
    TooLarge,
}

/// Returns the length in the value of a Content-Length header, which consists of digits and nothing else.
pub(crate) fn length_of(value: &[u8]) -> Result<usize, LengthFault>
    ensures { result ≡ length_of value.now }
{
    if is_numeral(value) {
        number_up_to_limit(value)
    } else {
        Err(LengthFault::Invalid)
    }
}

fn is_numeral(value: &[u8]) -> bool
    ensures { result ≡ is_numeral value.now }
{
    !value.is_empty() && are_digits(value)
}

/// Stops as soon as the number exceeds the limit, so it can't overflow.
fn number_up_to_limit(digits: &[u8]) -> Result<usize, LengthFault>
    requires { IsTrue (list_all is_ascii_digit digits.now) }
    ensures { result ≡ up_to_limit (digits_value 10 digits.now) }
{
    let mut number = 0;
    for digit in digits {
        number = number * 10 + usize::from(*digit - b'0');
        if number > MAX_BODY_LENGTH {
            return Err(LengthFault::TooLarge);
        }
    }
    Ok(number)
}
