//! Letters of Latin-1 without their case and without their diacritics.
ghost use Rattle.std.specs.Prelude.{◌≡◌};
ghost use Rattle.cql2.specs.Folding as folding;
ghost use Rattle.cql2.specs.Folding.{folded, is_alike, is_upper_case, lower_case, unaccented};

use cql2::Folding;

/// Returns whether two bytes are the same but for what is ignored.
pub(crate) fn is_alike(folding: Folding, byte: u8, other: u8) -> bool
    ensures { result ≡ is_alike folding byte other }
{
    folded(folding, byte) == folded(folding, other)
}

/// Returns a byte without what is ignored.
fn folded(folding: Folding, byte: u8) -> u8
    ensures { result ≡ folded folding byte }
{
    let letter = if folding.accents {
        unaccented(byte)
    } else {
        byte
    };
    if folding.case {
        lower_case(letter)
    } else {
        letter
    }
}

/// Returns a letter in lower case.
fn lower_case(byte: u8) -> u8
    ensures { result ≡ lower_case byte }
{
    if is_upper_case(byte) { byte + 32 } else { byte }
}

/// Returns whether a byte is an upper-case letter.
fn is_upper_case(byte: u8) -> bool
    ensures { result ≡ is_upper_case byte }
{
    // 215 is the multiplication sign. ß and ÿ have no upper case in Latin-1.
    is_within(65, 90, byte) || is_within(192, 222, byte) && byte != 215
}

fn is_within(low: u8, high: u8, byte: u8) -> bool
    ensures { result ≡ folding.is_within low high byte }
{
    low <= byte && byte <= high
}

/// Returns a letter without its diacritic.
fn unaccented(byte: u8) -> u8
    ensures { result ≡ unaccented byte }
{
    // Æ, Ð, Ø, Þ and ß have no diacritic to leave out.
    match byte {
        192..=197 => b'A',
        199 => b'C',
        200..=203 => b'E',
        204..=207 => b'I',
        209 => b'N',
        210..=214 => b'O',
        217..=220 => b'U',
        221 => b'Y',
        224..=229 => b'a',
        231 => b'c',
        232..=235 => b'e',
        236..=239 => b'i',
        241 => b'n',
        242..=246 => b'o',
        249..=252 => b'u',
        253 | 255 => b'y',
        other => other,
    }
}
