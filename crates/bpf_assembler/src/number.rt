//! Numbers in program text.
ghost use Rattle.std.specs.Prelude.{◌≡◌, ◌≤◌, ◌<◌, ◌^◌, true, false, drop, IfOk, MatchOption};
ghost use Rattle.bpf_assembler.specs.Number.{IsWithin, number_in, decimal_in, positive, negative, signed_in, is_hexadecimal, immediate_in, wide_in};
ghost use Rattle.bpf_assembler.specs.Number.{limit_of_16_bits, limit_of_32_bits};

use crate::fault::TextFaultKind;

/// The number just past the greatest one in 16 bits of two's complement.
pub(crate) const LIMIT_OF_16_BITS: u64 = 1 << 15;
/// The number just past the greatest one in 32 bits of two's complement.
pub(crate) const LIMIT_OF_32_BITS: u64 = 1 << 31;

/// Returns the number that digits denote: at least one digit, and at most `most`.
fn number_in(digits: &[u8], radix: u32, most: usize) -> Result<u128, TextFaultKind>
    requires radixes { (2 ≤ radix) × (radix ≤ 16) }
    requires few { most ≤ 20 }
    ensures value { result ≡ number_in radix most digits.now }
    ensures small { IfOk result (λ number. number < radix ^ most) }
{
    // Too many digits are a flaw of form, unlike a number that doesn't fit. 20 decimal or 16 hexadecimal digits also keep the sum within 128 bits.
    if digits.is_empty() || digits.len() > most {
        return Err(TextFaultKind::Syntax);
    }
    let mut number = 0u128;
    for byte in digits {
        let Some(digit) = (*byte as char).to_digit(radix) else {
            return Err(TextFaultKind::Syntax);
        };
        number = number * u128::from(radix) + u128::from(digit);
    }
    Ok(number)
}

fn decimal_in(digits: &[u8]) -> Result<u128, TextFaultKind>
    ensures { result ≡ decimal_in digits.now }
{
    number_in(digits, 10, 20)
}

fn positive(amount: u128, limit: u64) -> Result<i32, TextFaultKind>
    requires { limit ≤ 2 ^ 31 }
    ensures value { result ≡ positive limit amount }
    ensures within { IfOk result (λ value. IsWithin limit value) }
{
    if amount < u128::from(limit) {
        Ok(amount as i32)
    } else {
        Err(TextFaultKind::NumberRange)
    }
}

fn negative(amount: u128, limit: u64) -> Result<i32, TextFaultKind>
    requires { (0 < limit) × (limit ≤ 2 ^ 31) }
    ensures value { result ≡ negative limit amount }
    ensures within { IfOk result (λ value. IsWithin limit value) }
{
    if amount <= u128::from(limit) {
        Ok(-(amount as i64) as i32)
    } else {
        Err(TextFaultKind::NumberRange)
    }
}

/// Reads a decimal number with its sign, within the limit in two's complement.
fn signed_in(text: &[u8], limit: u64) -> Result<i32, TextFaultKind>
    requires { (0 < limit) × (limit ≤ 2 ^ 31) }
    ensures value { result ≡ signed_in limit text.now }
    ensures within { IfOk result (λ value. IsWithin limit value) }
{
    match text {
        [b'+', digits @ ..] => positive(decimal_in(digits)?, limit),
        [b'-', digits @ ..] => negative(decimal_in(digits)?, limit),
        _ => Err(TextFaultKind::Syntax),
    }
}

/// Reads a decimal number of 16 bits with its sign.
pub(crate) fn signed_16(text: &[u8]) -> Result<i16, TextFaultKind>
    ensures { result ≡ signed_in limit_of_16_bits text.now }
{
    Ok(signed_in(text, LIMIT_OF_16_BITS)? as i16)
}

/// Reads a decimal number of 32 bits with its sign.
pub(crate) fn signed_32(text: &[u8]) -> Result<i32, TextFaultKind>
    ensures { result ≡ signed_in limit_of_32_bits text.now }
{
    signed_in(text, LIMIT_OF_32_BITS)
}

/// Returns the digits of a hexadecimal number, which begins with `0x`.
fn hexadecimal_digits(text: &[u8]) -> Option<&[u8]>
    ensures { MatchOption result (is_hexadecimal text.now ≡ false) (λ digits. (is_hexadecimal text.now ≡ true) × (digits.now ≡ drop 2 text.now)) }
{
    match text {
        [b'0', b'x', digits @ ..] => Some(digits),
        _ => None,
    }
}

/// Reads the 32 bits of an immediate.
pub(crate) fn immediate_in(text: &[u8]) -> Result<i32, TextFaultKind>
    ensures { result ≡ immediate_in text.now }
{
    if let Some(digits) = hexadecimal_digits(text) {
        // Hexadecimal digits spell the bits of the field: `0xffffffff` is -1.
        return Ok((number_in(digits, 16, 8)? as u32).cast_signed());
    }
    // A plus sign belongs to distances and offsets alone.
    match text {
        [b'-', digits @ ..] => negative(decimal_in(digits)?, LIMIT_OF_32_BITS),
        _ => positive(decimal_in(text)?, LIMIT_OF_32_BITS),
    }
}

/// Reads the number of a wide load.
pub(crate) fn wide_in(text: &[u8]) -> Result<u64, TextFaultKind>
    ensures { result ≡ wide_in text.now }
{
    if let Some(digits) = hexadecimal_digits(text) {
        return Ok(number_in(digits, 16, 16)? as u64);
    }
    let number = decimal_in(text)?;
    if number < 1 << 64 {
        Ok(number as u64)
    } else {
        Err(TextFaultKind::NumberRange)
    }
}
