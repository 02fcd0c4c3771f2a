//! The values of numerals.
//!
//! Every value is an integer: a whole number, or degrees in millionths, the files' unit. A box is in femtodegrees, as rounding would move its
//! edges. Vertices are rounded to millionths, so a test of two lines fits in 64 bits.
//!
//! Any other numeral that isn't exact in its unit, or is too large for 64 bits, is refused, so no comparison is of a rounded number.
ghost use Rattle.std.specs.Prelude.{◌≡◌, ◌≤◌, ◌<◌, ◌^◌, ◌-◌, ◌*◌, Ok, Err, unsigned_abs, take, drop, IfOk, IfSome, MatchResult};
ghost use Rattle.std.specs.List.{list_all};
ghost use Rattle.numerals.specs.Numeral.{decimal_in};
ghost use Rattle.cql2_text.specs.Number.{number_of, house_number_of, name_limit_of, count_of, signed_number, whole_amount, degrees_amount, parts_of};
ghost use Rattle.cql2_text.specs.Number.{coordinate_of, is_half, is_more_than_half, is_zero, nearest, rounded_amount};

use crate::fault::FilterFaultKind;
use crate::unit::Unit;
use cql2::{HouseNumber, Literal, NameLimit};
use cql2_tokens::Numeral;
use numerals::decimal_value;
use tl_segments::MAX_NAMES;

// So each stays below 2^62, the bound of expressions.
/// The maximum number of digits in a whole number.
const MAX_LITERAL_DIGITS: usize = 18;
/// The maximum number of digits in a house number.
const MAX_HOUSE_NUMBER_DIGITS: usize = 11;
/// The maximum number of decimals in a coordinate, which is in millionths of a degree.
const MAX_DECIMALS: usize = 6;
/// The maximum number of decimals in a bound of a box, which is in femtodegrees.
const MAX_BOUND_DECIMALS: usize = 15;
// A coordinate of a record has nine digits at most, six of them decimals.
/// The bound that a coordinate's degrees are below.
const DEGREES: u64 = 1000;
/// The same in millionths of a degree.
const MILLIONTHS: u64 = 1_000_000_000;

/// Returns a numeral's value in a unit.
pub(crate) fn literal_of(unit: Unit, numeral: Numeral) -> Result<Literal, FilterFaultKind>
    ensures value { MatchResult result (λ literal. number_of unit numeral.entry ≡ Ok literal.number)
        (λ flaw. number_of unit numeral.entry ≡ Err flaw) }
    ensures small { IfOk result (λ literal. unsigned_abs literal.number < 10 ^ 18) }
{
    let amount = match unit {
        Unit::Whole => whole_amount(numeral.whole, numeral.decimals, MAX_LITERAL_DIGITS),
        Unit::Degrees => degrees_amount(numeral.whole, numeral.decimals, MAX_DECIMALS),
        Unit::Femtodegrees => degrees_amount(numeral.whole, numeral.decimals, MAX_BOUND_DECIMALS),
    };
    match amount {
        Ok(amount) => Ok(signed_number(numeral.is_negative, amount)),
        Err(flaw) => Err(flaw),
    }
}

/// Returns a whole number with at most `most` digits.
fn whole_amount(whole: &[u8], decimals: &[u8], most: usize) -> Result<u64, FilterFaultKind>
    requires few { most ≤ 18 }
    ensures value { result ≡ whole_amount most whole.now decimals.now }
    ensures small { IfOk result (λ amount. amount < 10 ^ most) }
{
    if !decimals.is_empty() {
        return Err(FilterFaultKind::WrongType);
    }
    match decimal_value(whole, most) {
        Some(amount) => Ok(amount),
        None => Err(FilterFaultKind::NumberRange),
    }
}

/// Returns a numeral's degrees as millionths, rounded half to even.
pub(crate) fn coordinate_of(numeral: Numeral) -> Result<i64, FilterFaultKind>
    ensures value { MatchResult result (λ number. coordinate_of numeral.entry ≡ Ok number) (λ flaw. coordinate_of numeral.entry ≡ Err flaw) }
    ensures small { IfOk result (λ number. unsigned_abs number < 10 ^ 9) }
{
    match rounded_amount(numeral) {
        Ok(amount) => Ok(signed_number(numeral.is_negative, amount).number),
        Err(flaw) => Err(flaw),
    }
}

fn rounded_amount(numeral: Numeral) -> Result<u64, FilterFaultKind>
    ensures value { result ≡ rounded_amount numeral.entry }
    ensures small { IfOk result (λ amount. amount < 10 ^ 9) }
{
    let (kept, further) = split_decimals(numeral.decimals);
    let rounded = nearest(degrees_amount(numeral.whole, kept, MAX_DECIMALS)?, further);
    if rounded < MILLIONTHS {
        Ok(rounded)
    } else {
        Err(FilterFaultKind::NumberRange)
    }
}

/// Splits decimals after the sixth.
fn split_decimals(decimals: &[u8]) -> (&[u8], &[u8])
    ensures kept { result.0.now ≡ take 6 decimals.now }
    ensures further { result.1.now ≡ drop 6 decimals.now }
{
    if decimals.len() > MAX_DECIMALS {
        (&decimals[..MAX_DECIMALS], &decimals[MAX_DECIMALS..])
    } else {
        (decimals, &[])
    }
}

/// Returns the nearest number to one with further decimals, and of two as near the even one.
fn nearest(amount: u64, further: &[u8]) -> u64
    requires { amount < 10 ^ 18 }
    ensures { result ≡ nearest amount further.now }
{
    if is_more_than_half(further) || is_half(further) && amount % 2 == 1 {
        amount + 1
    } else {
        amount
    }
}

/// Returns whether decimals are a half.
fn is_half(decimals: &[u8]) -> bool
    ensures { result ≡ is_half decimals.now }
{
    match decimals.split_first() {
        Some((first, rest)) => *first == b'5' && are_zeros(rest),
        None => false,
    }
}

/// Returns whether decimals are more than a half.
fn is_more_than_half(decimals: &[u8]) -> bool
    ensures { result ≡ is_more_than_half decimals.now }
{
    match decimals.split_first() {
        Some((first, rest)) => *first > b'5' || *first == b'5' && !are_zeros(rest),
        None => false,
    }
}

fn are_zeros(digits: &[u8]) -> bool
    ensures { result ≡ list_all is_zero digits.now }
{
    digits.iter().all(|digit| *digit == b'0')
}

/// Returns degrees with at most `most` decimals, in units of the last one that there may be.
fn degrees_amount(whole: &[u8], decimals: &[u8], most: usize) -> Result<u64, FilterFaultKind>
    requires few { most ≤ 15 }
    ensures value { result ≡ degrees_amount most whole.now decimals.now }
    ensures small { IfOk result (λ amount. amount < 1000 * 10 ^ most) }
{
    let Some(degrees) = decimal_value(whole, MAX_LITERAL_DIGITS) else {
        return Err(FilterFaultKind::NumberRange);
    };
    let Some(parts) = parts_of(decimals, most) else {
        return Err(FilterFaultKind::NumberRange);
    };
    if degrees < DEGREES {
        Ok(degrees * unit(most) + parts)
    } else {
        Err(FilterFaultKind::NumberRange)
    }
}

/// Returns at most `most` decimals in units of the last one that there may be.
fn parts_of(decimals: &[u8], most: usize) -> Option<u64>
    requires few { most ≤ 15 }
    ensures value { result ≡ parts_of most decimals.now }
    ensures small { IfSome result (λ parts. parts < 10 ^ most) }
{
    if decimals.is_empty() {
        return Some(0);
    }
    let parts = decimal_value(decimals, most)?;
    Some(parts * unit(most - decimals.len()))
}

/// Returns the number of parts into which this many decimals divide a degree.
fn unit(decimals: usize) -> u64
    requires { decimals ≤ 15 }
    ensures value { result ≡ 10 ^ decimals }
    ensures small { result ≤ 10 ^ 15 }
{
    10u64.pow(decimals as u32)
}

fn signed_number(is_negative: bool, amount: u64) -> Literal
    requires { amount < 10 ^ 18 }
    ensures value { result.number ≡ signed_number is_negative amount }
    ensures small { unsigned_abs result.number ≡ amount }
{
    let number = if is_negative {
        -(amount as i64)
    } else {
        amount as i64
    };
    Literal { number }
}

/// Returns a numeral as a house number.
pub(crate) fn house_number(numeral: Numeral) -> Result<HouseNumber, FilterFaultKind>
    ensures { MatchResult result (λ house. house_number_of numeral.entry ≡ Ok house.number)
        (λ flaw. house_number_of numeral.entry ≡ Err flaw) }
{
    match count(numeral, MAX_HOUSE_NUMBER_DIGITS) {
        Ok(number) => Ok(HouseNumber { number }),
        Err(flaw) => Err(flaw),
    }
}

/// Returns the number of alternate names to check.
pub(crate) fn name_limit(numeral: Numeral) -> Result<NameLimit, FilterFaultKind>
    ensures { MatchResult result (λ limit. name_limit_of numeral.entry ≡ Ok limit.number) (λ flaw. name_limit_of numeral.entry ≡ Err flaw) }
{
    match count(numeral, MAX_LITERAL_DIGITS) {
        Ok(number) => {
            if number > MAX_NAMES as u64 {
                return Err(FilterFaultKind::NumberRange);
            }
            Ok(NameLimit {
                number: number as u16,
            })
        }
        Err(flaw) => Err(flaw),
    }
}

/// Returns a nonnegative whole number with at most `most` digits.
fn count(numeral: Numeral, most: usize) -> Result<u64, FilterFaultKind>
    requires { most ≤ 18 }
    ensures value { result ≡ count_of most numeral.entry }
    ensures small { IfOk result (λ number. number < 10 ^ most) }
{
    match whole_amount(numeral.whole, numeral.decimals, most) {
        Ok(amount) => {
            if numeral.is_negative {
                return Err(FilterFaultKind::NumberRange);
            }
            Ok(amount)
        }
        Err(flaw) => Err(flaw),
    }
}
