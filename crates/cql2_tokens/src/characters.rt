//! Characters of a string literal: those of Latin-1, each stored as one byte as in the Bureau's files.
ghost use Rattle.std.specs.Prelude.{◌≡◌, ◌∷◌, ◌<◌, ℕ, List, length, IfSome, MatchOption};
ghost use Rattle.cql2_tokens.specs.Character.{IsCharacter};

/// Returns the first character inside a literal, as one byte, and the text after it.
pub fn character(spelling: &[u8]) -> Option<(u8, &[u8])>
    ensures is { IfSome result (λ read. IsCharacter spelling.now read.0 read.1.now) }
    ensures shorter { IfSome result (λ read. length read.1.now < length spelling.now) }
    ensures only { (byte : ℕ) (rest : List ℕ) → IsCharacter spelling.now byte rest
        → MatchOption result ⊥ (λ read. (read.0 ≡ byte) × (read.1.now ≡ rest)) }
{
    let (first, rest) = spelling.split_first()?;
    match *first {
        b'\'' => {
            let (second, rest) = rest.split_first()?;
            quote(*second, rest)
        }
        b' '..=b'~' => Some((*first, rest)),
        0xc2 => {
            let (second, rest) = rest.split_first()?;
            low(*second, rest)
        }
        0xc3 => {
            let (second, rest) = rest.split_first()?;
            high(*second, rest)
        }
        _ => None,
    }
}

/// Reads a quote's second half. A quote inside a literal is doubled.
fn quote(second: u8, rest: &[u8]) -> Option<(u8, &[u8])>
    ensures is { IfSome result (λ read. IsCharacter (39 ∷ second ∷ rest.now) read.0 read.1.now) }
    ensures only { (byte : ℕ) (after : List ℕ) → IsCharacter (39 ∷ second ∷ rest.now) byte after
        → MatchOption result ⊥ (λ read. (read.0 ≡ byte) × (read.1.now ≡ after)) }
{
    if second == b'\'' {
        Some((b'\'', rest))
    } else {
        None
    }
}

/// Reads a character from U+00A0 to U+00BF by the second byte of its UTF-8.
fn low(second: u8, rest: &[u8]) -> Option<(u8, &[u8])>
    ensures is { IfSome result (λ read. IsCharacter (194 ∷ second ∷ rest.now) read.0 read.1.now) }
    ensures only { (byte : ℕ) (after : List ℕ) → IsCharacter (194 ∷ second ∷ rest.now) byte after
        → MatchOption result ⊥ (λ read. (read.0 ≡ byte) × (read.1.now ≡ after)) }
{
    if second >= 0xa0 && second <= 0xbf {
        Some((second, rest))
    } else {
        None
    }
}

/// Reads a character from U+00C0 to U+00FF by the second byte of its UTF-8.
fn high(second: u8, rest: &[u8]) -> Option<(u8, &[u8])>
    ensures is { IfSome result (λ read. IsCharacter (195 ∷ second ∷ rest.now) read.0 read.1.now) }
    ensures only { (byte : ℕ) (after : List ℕ) → IsCharacter (195 ∷ second ∷ rest.now) byte after
        → MatchOption result ⊥ (λ read. (read.0 ≡ byte) × (read.1.now ≡ after)) }
{
    if second >= 0x80 && second <= 0xbf {
        Some((second + 0x40, rest))
    } else {
        None
    }
}
