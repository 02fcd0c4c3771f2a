//! The first of a sequence of tokens.
ghost use Rattle.std.specs.Prelude.{◌≡◌, ◌≢◌, ◌∷◌, [], List, IsTrue, ◌↔◌, MatchOption, MatchResult};
ghost use Rattle.cql2_text.specs.Terminal.{token_of};
ghost use Rattle.cql2_tokens.specs.declared.token.Token.{Token};

use crate::fault::Construct;
use crate::syntax_fault::SyntaxFault;
use cql2_tokens::{Keyword, ShapeTag, Token};

/// A token that the grammar requires at one point.
#[derive(Clone, Copy)]
pub(crate) enum Terminal {
    Opening,
    Closing,
    Comma,
    And,
    Null,
    Geometry,
    Bbox,
}

impl Terminal {
    fn is(self, token: Token) -> bool
        ensures { IsTrue result ↔ (token.entry ≡ token_of self) }
    {
        match self {
            Terminal::Opening => matches!(token, Token::Open),
            Terminal::Closing => matches!(token, Token::Close),
            Terminal::Comma => matches!(token, Token::Comma),
            Terminal::And => matches!(token, Token::Keyword(Keyword::And)),
            Terminal::Null => matches!(token, Token::Keyword(Keyword::Null)),
            Terminal::Geometry => matches!(token, Token::Keyword(Keyword::Geometry)),
            Terminal::Bbox => matches!(token, Token::Keyword(Keyword::Shape(ShapeTag::Bbox))),
        }
    }

    fn expected_construct(self) -> Construct {
        match self {
            Terminal::Opening => Construct::Opening,
            Terminal::Closing => Construct::Closing,
            Terminal::Comma => Construct::Comma,
            Terminal::And => Construct::And,
            Terminal::Null => Construct::Null,
            Terminal::Geometry => Construct::Geometry,
            Terminal::Bbox => Construct::Bbox,
        }
    }
}

/// Returns the first token and those after it.
pub(crate) fn next<'a>(words: &'a [Token<'a>]) -> Option<(Token<'a>, &'a [Token<'a>])>
    ensures { MatchOption result (words.now ≡ []) (λ read. words.now ≡ read.0 ∷ read.1.now) }
{
    let (first, rest) = words.split_first()?;
    Some((*first, rest))
}

/// Returns the tokens after the first, which has to be this one.
pub(crate) fn expect<'a>(
    words: &'a [Token<'a>],
    terminal: Terminal,
) -> Result<&'a [Token<'a>], SyntaxFault>
    ensures { MatchResult result (λ rest. words.now ≡ token_of terminal ∷ rest.now)
        (λ fault. (rest : List Token) → words.now ≢ token_of terminal ∷ rest) }
{
    match next(words) {
        Some((first, rest)) if terminal.is(first) => Ok(rest),
        _ => Err(SyntaxFault::unexpected_token(words, terminal.expected_construct())),
    }
}
