//! The number or the coordinate in a field.
ghost use Rattle.std.specs.Prelude.{◌≡◌, ◌^◌, ◌<◌, pos, nat_abs, length, reverse, option_map, IfSome};
ghost use Rattle.numerals.specs.Numeral.{decimal_in};
ghost use Rattle.tl_fields.specs.Coordinate.{coordinate_in, coordinate_of};
ghost use Rattle.tl_fields.specs.Number.{is_blank, number_of, trim, without_blanks_before};

use numerals::decimal_value;

pub(crate) const BLANK: u8 = b' ';

// The width of an address field, the widest field that is read as a number.
pub(crate) const MAX_NUMBER_DIGITS: usize = 11;

// A longitude has a sign and 9 digits, a latitude a sign and 8.
const MAX_COORDINATE_DIGITS: usize = 9;

/// Returns the number in a field, or `None` if it has none.
///
/// In the TIGER/Line 2006 record layouts a number is left- or right-justified in its field and padded with blanks; a field without a number is blank.
/// Only byte 32 is a blank. A house number that isn't a plain number, such as `164-20`, and anything over 11 digits isn't a number.
#[tactic(auto, unfolding(crate::specs::Number::number_of))]
pub fn number(field: &[u8]) -> Option<u64>
    ensures value { result ≡ number_of field.now }
    ensures small { IfSome result (λ n. n < 10 ^ 11) }
{
    decimal_value(trim(field), MAX_NUMBER_DIGITS)
}

/// Returns the coordinate in a field in millionths of a degree, or `None` if it has none. A coordinate is 1 to 9 digits with an optional sign, as in
/// `-086500000`, padded with blanks. Blanks between the sign and the digits aren't removed.
#[tactic(auto, unfolding(crate::specs::Coordinate::coordinate_of))]
pub fn coordinate(field: &[u8]) -> Option<i64>
    ensures value { result ≡ coordinate_of field.now }
    ensures small { IfSome result (λ millionths. nat_abs millionths < 10 ^ 9) }
{
    coordinate_in(trim(field))
}

/// Returns the coordinate in a text without leading or trailing blanks.
fn coordinate_in(text: &[u8]) -> Option<i64>
    ensures value { result ≡ coordinate_in text.now }
    ensures small { IfSome result (λ millionths. nat_abs millionths < 10 ^ 9) }
{
    match text {
        [b'-', digits @ ..] => Some(-millionths(digits)?),
        [b'+', digits @ ..] => millionths(digits),
        _ => millionths(text),
    }
}

/// Returns whether all bytes are blanks.
pub fn blank(bytes: &[u8]) -> bool
    ensures { result ≡ is_blank bytes.now }
{
    bytes.iter().all(|byte| *byte == BLANK)
}

/// Removes leading and trailing blanks.
fn trim(field: &[u8]) -> &[u8]
    ensures { result.now ≡ trim field.now }
{
    without_trailing_blanks(without_leading_blanks(field))
}

fn without_leading_blanks(field: &[u8]) -> &[u8]
    ensures { result.now ≡ without_blanks_before field.now }
{
    let mut rest = field;
    while let [BLANK, after @ ..] = rest {
        rest = after;
    }
    rest
}

fn without_trailing_blanks(field: &[u8]) -> &[u8]
    ensures { result.now ≡ reverse (without_blanks_before (reverse field.now)) }
{
    let mut rest = field;
    while let [before @ .., BLANK] = rest {
        rest = before;
    }
    rest
}

/// Parses an unsigned number of millionths of a degree.
fn millionths(digits: &[u8]) -> Option<i64>
    ensures value { result ≡ option_map pos (decimal_in 9 digits.now) }
    ensures small { IfSome result (λ amount. nat_abs amount < 10 ^ 9) }
{
    Some(decimal_value(digits, MAX_COORDINATE_DIGITS)? as i64)
}
