//! Splitting a text into tokens.
//!
//! A filter's text is split completely before it is parsed. The parser can look ahead as far as it likes (a parenthesis may begin a filter or a
//! number, which only the token after the closing one tells), and reads a number again for each comparison in a list. Both are cheap over tokens. A
//! sign is never part of a number here, since `a -1` subtracts. Whether a name is a keyword, a column or unknown is settled here, so the grammar
//! compares no texts.
//!
//! Always: tokens borrow from the text, and `starts` has the offset of each, from which alone lines and columns are computed. A text that has a byte
//! which begins no token isn't refused here: its tokens end there, because a fault of the grammar before it comes first.
ghost use Rattle.std.specs.Prelude.{◌≡◌, ◌<◌, ◌++◌, ◌∷◌, [], true, false, not, ◌==◌, ℕ, List, length, IfOk, IfSome, IfNone, MatchOption};
ghost use Rattle.std.specs.Char.{is_ascii_digit};
ghost use Rattle.std.specs.List.{position};
ghost use Rattle.cql2_tokens.specs.declared.token.Token.{Token as AToken};
ghost use Rattle.cql2_tokens.specs.Alike.{AreLike};
ghost use Rattle.cql2_tokens.specs.Lexed.{ArePaired, is_white_space, is_name_start, is_name_byte, begins, is_quote, IsClosingQuote};
ghost use Rattle.cql2_tokens.specs.Lexed.{IsLongest, IsToken, Lexes, HasDecimals, property};
ghost use Rattle.cql2_tokens.specs.Name.{column_named, is_geometry};

use crate::name::{column_named, is_geometry, keyword_named};
use crate::token::{Keyword, Numeral, Sign, Token};
use cql2::Comparison;
use std::alloc::{AllocError, Allocator};

/// The tokens of a text, up to its end or to the first byte that begins no token.
#[derive(Drop)]
pub struct Tokens<'a, A: Allocator> {
    pub tokens: Vec<Token<'a>, A>,
    /// The offset of each token.
    pub starts: Vec<usize, A>,
    /// The text after the tokens, which is empty unless it begins no token.
    pub rest: &'a [u8],
}

impl<'a, A: Allocator + Copy> Tokens<'a, A> {
    /// Splits a text into tokens.
    pub fn of(alloc: A, text: &'a [u8]) -> Result<Tokens<'a, A>, AllocError>
        ensures ok { IfOk result (λ read. Lexes text.now read.rest.now read.tokens.items) }
        ensures reads { (words : List AToken) → Lexes text.now [] words
            → IfOk result (λ read. (read.rest.now ≡ []) × AreLike words read.tokens.items) }
    {
        let mut tokens = Vec::new(alloc);
        let mut starts = Vec::new(alloc);
        let mut rest = text;
        while let Some((byte, after)) = rest.split_first() {
            if is_white_space(*byte) {
                rest = after;
                continue;
            }
            let Some((token, after)) = first_token(rest) else {
                // Not refused here: a fault in the tokens before it comes first.
                break;
            };
            starts.push(text.len() - rest.len())?;
            tokens.push(token)?;
            rest = after;
        }
        Ok(Tokens {
            tokens,
            starts,
            rest,
        })
    }

    /// Returns the offset of the token from which `left` tokens remain, or of the text after the tokens if none remain.
    pub fn start(&self, text: &[u8], left: usize) -> usize {
        let end = text.len().saturating_sub(self.rest.len());
        let index = self.starts.len().saturating_sub(left);
        self.starts.get(index).copied().unwrap_or(end)
    }
}

fn is_white_space(byte: u8) -> bool
    ensures { result ≡ is_white_space byte }
{
    byte == b' ' || byte == b'\t' || byte == b'\r' || byte == b'\n'
}

fn is_name_start(byte: u8) -> bool
    ensures { result ≡ is_name_start byte }
{
    byte.is_ascii_alphabetic() || byte == b'_'
}

fn is_name_byte(byte: u8) -> bool
    ensures { result ≡ is_name_byte byte }
{
    byte.is_ascii_alphanumeric() || byte == b'_'
}

/// Returns the first token of a text and the text after it.
fn first_token<'a>(text: &'a [u8]) -> Option<(Token<'a>, &'a [u8])>
    ensures is { IfSome result (λ read. IsToken text.now read.1.now read.0) }
    ensures none { IfNone result ((rest : List ℕ) (token : AToken) → IsToken text.now rest token → ⊥) }
{
    let (first, rest) = text.split_first()?;
    match *first {
        b'(' => Some((Token::Open, rest)),
        b')' => Some((Token::Close, rest)),
        b',' => Some((Token::Comma, rest)),
        b'=' => Some((Token::Compared(Comparison::Equal), rest)),
        b'<' => Some(less(rest)),
        b'>' => Some(greater(rest)),
        b'\'' => text_token(rest),
        b'"' => quoted_name(rest),
        b'+' => Some((Token::Sign(Sign::Plus), rest)),
        b'-' => Some((Token::Sign(Sign::Minus), rest)),
        b'*' => Some((Token::Sign(Sign::Asterisk), rest)),
        b'%' => Some((Token::Sign(Sign::Percent), rest)),
        b'0'..=b'9' => number(text),
        _ => word(text),
    }
}

/// Returns the text after its first byte, if that is `byte`.
pub(crate) fn after_byte(text: &[u8], byte: u8) -> Option<&[u8]>
    ensures { MatchOption result (begins (λ first. first == byte) text.now ≡ false) (λ rest. text.now ≡ byte ∷ rest.now) }
{
    match text.split_first() {
        Some((first, rest)) => { if *first == byte { Some(rest) } else { None } }
        None => None,
    }
}

/// Returns the comparison that begins with `<`, given the text after it.
fn less<'a>(text: &'a [u8]) -> (Token<'a>, &'a [u8])
    ensures { IsToken (60 ∷ text.now) result.1.now result.0 }
{
    if let Some(rest) = after_byte(text, b'=') {
        return (Token::Compared(Comparison::LessOrEqual), rest);
    }
    if let Some(rest) = after_byte(text, b'>') {
        return (Token::Compared(Comparison::NotEqual), rest);
    }
    (Token::Compared(Comparison::Less), text)
}

/// Returns the comparison that begins with `>`, given the text after it.
fn greater<'a>(text: &'a [u8]) -> (Token<'a>, &'a [u8])
    ensures { IsToken (62 ∷ text.now) result.1.now result.0 }
{
    match after_byte(text, b'=') {
        Some(rest) => (Token::Compared(Comparison::GreaterOrEqual), rest),
        None => (Token::Compared(Comparison::Greater), text),
    }
}

/// Reads a string literal after its opening quote.
fn text_token<'a>(text: &'a [u8]) -> Option<(Token<'a>, &'a [u8])>
    ensures is { IfSome result (λ read. IsToken (39 ∷ text.now) read.1.now read.0) }
    ensures none { IfNone result ((rest : List ℕ) (token : AToken) → IsToken (39 ∷ text.now) rest token → ⊥) }
{
    let end = closing_quote(text)?;
    Some((Token::Text(&text[..end]), &text[end + 1..]))
}

/// Returns the index of the first quote that is not one of a pair.
fn closing_quote(text: &[u8]) -> Option<usize>
    ensures is { IfSome result (λ index. IsClosingQuote text.now index) }
    ensures only { (spelling rest : List ℕ) → text.now ≡ spelling ++ 39 ∷ rest → ArePaired spelling → begins is_quote rest ≡ false
        → MatchOption result ⊥ (λ index. index ≡ length spelling) }
{
    let mut at = 0;
    while at < text.len() {
        if text[at] != b'\'' {
            at += 1;
        } else if at + 1 < text.len() && text[at + 1] == b'\'' {
            at += 2;
        } else {
            return Some(at);
        }
    }
    None
}

/// Reads the name of a property in double quotes, after the first of them.
fn quoted_name<'a>(text: &'a [u8]) -> Option<(Token<'a>, &'a [u8])>
    ensures is { IfSome result (λ read. IsToken (34 ∷ text.now) read.1.now read.0) }
    ensures none { IfNone result ((rest : List ℕ) (token : AToken) → IsToken (34 ∷ text.now) rest token → ⊥) }
{
    let (name, rest) = split_name(text);
    let rest = after_byte(rest, b'"')?;
    Some((property(name), rest))
}

/// Returns the property with a name in double quotes.
fn property<'a>(name: &[u8]) -> Token<'a>
    ensures { result ≡ property (is_geometry name.now) (column_named name.now) }
{
    if is_geometry(name) {
        return Token::Keyword(Keyword::Geometry);
    }
    match column_named(name) {
        Some(column) => Token::Column(column),
        None => Token::UnknownColumn,
    }
}

/// Reads a keyword or a name.
fn word<'a>(text: &'a [u8]) -> Option<(Token<'a>, &'a [u8])>
    ensures is { IfSome result (λ read. IsToken text.now read.1.now read.0) }
    ensures none { IfNone result (begins is_name_start text.now ≡ false) }
{
    if begins_name(text) {
        Some(named(text))
    } else {
        None
    }
}

/// Returns the keyword or name at the start of a text, and the text after it.
fn named<'a>(text: &'a [u8]) -> (Token<'a>, &'a [u8])
    requires { begins is_name_start text.now ≡ true }
    ensures { IsToken text.now result.1.now result.0 }
{
    let (name, rest) = split_name(text);
    if let Some(keyword) = keyword_named(name) {
        return (Token::Keyword(keyword), rest);
    }
    match column_named(name) {
        Some(column) => (Token::Column(column), rest),
        None => (Token::UnknownColumn, rest),
    }
}

/// Returns whether a name can begin like this.
fn begins_name(text: &[u8]) -> bool
    ensures { result ≡ begins is_name_start text.now }
{
    match text.split_first() {
        Some((first, _rest)) => is_name_start(*first),
        None => false,
    }
}

/// Splits a text after the letters, digits and underscores that it begins with.
pub(crate) fn split_name(text: &[u8]) -> (&[u8], &[u8])
    ensures all { text.now ≡ result.0.now ++ result.1.now }
    ensures longest { IsLongest is_name_byte result.0.now result.1.now }
{
    match name_end(text) {
        Some(end) => (&text[..end], &text[end..]),
        None => (text, &[]),
    }
}

/// Splits a text after the digits that it begins with.
fn split_digits(text: &[u8]) -> (&[u8], &[u8])
    ensures all { text.now ≡ result.0.now ++ result.1.now }
    ensures longest { IsLongest is_ascii_digit result.0.now result.1.now }
{
    match digits_end(text) {
        Some(end) => (&text[..end], &text[end..]),
        None => (text, &[]),
    }
}

/// Returns the index of the first byte that can't be part of a name.
fn name_end(text: &[u8]) -> Option<usize>
    ensures value { result ≡ position (λ byte. not (is_name_byte byte)) text.now }
    ensures within { IfSome result (λ index. index < length text.now) }
{
    text.iter().position(|byte| !is_name_byte(*byte))
}

/// Returns the index of the first byte that is not a digit.
fn digits_end(text: &[u8]) -> Option<usize>
    ensures value { result ≡ position (λ byte. not (is_ascii_digit byte)) text.now }
    ensures within { IfSome result (λ index. index < length text.now) }
{
    text.iter().position(|byte| !byte.is_ascii_digit())
}

/// Reads a number without a sign.
fn number<'a>(text: &'a [u8]) -> Option<(Token<'a>, &'a [u8])>
    ensures is { IfSome result (λ read. IsToken text.now read.1.now read.0) }
    ensures none { IfNone result (begins is_ascii_digit text.now ≡ false) }
{
    let (whole, rest) = split_digits(text);
    if whole.is_empty() {
        return None;
    }
    let (decimals, rest) = fraction(rest);
    let numeral = Numeral {
        is_negative: false,
        whole,
        decimals,
    };
    Some((Token::Number(numeral), rest))
}

/// Returns the digits after a point at the start of a text, if there are any, and the text after them.
fn fraction(text: &[u8]) -> (&[u8], &[u8])
    ensures { HasDecimals text.now result.1.now result.0.now }
{
    let Some(after) = after_byte(text, b'.') else {
        return (&[], text);
    };
    let (decimals, rest) = split_digits(after);
    if decimals.is_empty() {
        return (&[], text);
    }
    (decimals, rest)
}
