//! Coordinates as text.
ghost use Rattle.std.specs.Prelude.{◌≡◌, length};
ghost use Rattle.numerals.specs.Degrees.{degrees, digit, six_digits};

use arrayvec::ArrayVec;
use itoa::Buffer;

/// The length of the longest text of a coordinate, in bytes.
pub const DEGREES_LENGTH: usize = 28;

/// The number of coordinate units in a degree.
const DEGREE: u64 = 1_000_000;

/// Returns a coordinate, in millionths of a degree, as decimal degrees with six decimals, as in `-86.494898`. A negative coordinate has a minus sign,
/// any other has no sign.
#[tactic(auto, unfolding(crate::specs::Degrees::degrees))]
pub fn degrees(coordinate: i64) -> ArrayVec<u8, DEGREES_LENGTH>
    ensures { result.items ≡ degrees coordinate }
{
    let size = coordinate.unsigned_abs();
    let mut text = ArrayVec::new();
    if coordinate < 0 {
        text.push(b'-');
    }
    text.try_extend_from_slice(Buffer::new().format(size / DEGREE).as_bytes())
        .unwrap();
    text.push(b'.');
    text.try_extend_from_slice(&six_digits(size % DEGREE))
        .unwrap();
    text
}

/// Returns the last six digits of a number, with leading zeros.
fn six_digits(number: u64) -> [u8; 6]
    ensures value { result ≡ six_digits number }
    ensures length { length result ≡ 6 }
{
    [
        digit(number / 100_000),
        digit(number / 10_000),
        digit(number / 1_000),
        digit(number / 100),
        digit(number / 10),
        digit(number),
    ]
}

/// Returns the last digit of a number.
fn digit(number: u64) -> u8
    ensures { result ≡ digit number }
{
    b'0' + (number % 10) as u8
}
