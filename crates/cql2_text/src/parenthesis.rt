//! What an opening parenthesis begins: a filter or a number, which only the token after the closing one tells.
ghost use Rattle.std.specs.Prelude.{◌≡◌, ◌∷◌, ◌<◌, ◌≤◌, ◌+◌, ◌^◌, length, IfSome, MatchOption};
ghost use Rattle.cql2_text.specs.Parenthesis.{closing, follows_number, joins_numbers, opens_filter};
ghost use Rattle.cql2_tokens.specs.declared.token.Token.TheVariants as token;

use crate::terminal::next;
use cql2_tokens::{Keyword, Token};

/// Returns whether a parenthesis with these tokens after it is one of a filter, and not one of a numeric expression.
pub(crate) fn opens_filter(words: &[Token]) -> bool
    ensures { result ≡ opens_filter (token.Open ∷ words.now) }
{
    match next(closing(words)) {
        Some((_close, rest)) => !follows_number(rest),
        None => true,
    }
}

/// Returns whether the tokens go on from a number.
fn follows_number(words: &[Token]) -> bool
    ensures { result ≡ follows_number words.now }
{
    match next(words) {
        Some((Token::Sign(_sign), _rest)) => true,
        Some((Token::Compared(_comparison), _rest)) => true,
        Some((Token::Keyword(keyword), _rest)) => joins_numbers(keyword),
        _ => false,
    }
}

fn joins_numbers(keyword: Keyword) -> bool
    ensures { result ≡ joins_numbers keyword }
{
    match keyword {
        Keyword::Div => true,
        Keyword::Between => true,
        Keyword::In => true,
        Keyword::Like => true,
        Keyword::Not => true,
        Keyword::Is => true,
        _ => false,
    }
}

/// Tokens after an opening parenthesis.
#[derive(Clone, Copy)]
struct Inside<'a> {
    /// How many more parentheses are open.
    open_parentheses: usize,
    rest: &'a [Token<'a>],
}

/// Returns the tokens after one more, unless that closes the parenthesis.
fn further<'a>(inside: Inside<'a>) -> Option<Inside<'a>>
    requires { inside.open_parentheses < 2 ^ 63 }
    ensures same { MatchOption result (closing inside.entry.open_parentheses inside.entry.rest.now ≡ inside.entry.rest.now)
        (λ after. closing inside.entry.open_parentheses inside.entry.rest.now ≡ closing after.open_parentheses after.rest.now) }
    ensures shorter { IfSome result (λ after. length after.rest.now < length inside.entry.rest.now) }
    ensures few { IfSome result
        (λ after. after.open_parentheses + length after.rest.now ≤ inside.entry.open_parentheses + length inside.entry.rest.now) }
{
    let (token, rest) = next(inside.rest)?;
    let open_parentheses = match token {
        Token::Open => inside.open_parentheses + 1,
        Token::Close => inside.open_parentheses.checked_sub(1)?,
        _ => inside.open_parentheses,
    };
    Some(Inside {
        open_parentheses,
        rest,
    })
}

/// Returns the tokens from the parenthesis on that closes one before these tokens.
fn closing<'a>(words: &'a [Token<'a>]) -> &'a [Token<'a>]
    ensures { result.now ≡ closing 0 words.now }
{
    let mut inside = Inside {
        open_parentheses: 0,
        rest: words,
    };
    while let Some(after) = further(inside) {
        inside = after;
    }
    inside.rest
}
