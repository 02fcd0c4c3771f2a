//! What to write in place of what other query languages have.
//!
//! A hint depends on the refusal and on the text from its position on. So the parser knows no other language, and a hint can't change what is
//! accepted or how it is refused.
ghost use Rattle.std.specs.Prelude.{◌≡◌};
ghost use Rattle.std.specs.Str.{str_eq_ignore_ascii_case};
ghost use Rattle.cql2_text.specs.Hint.{Hints, IsHint, box_hint, changes_case, function_hint, is_collection, is_double_quote, is_exclamation_mark};
ghost use Rattle.cql2_text.specs.Hint.{is_shape, is_sign, is_spatial, shape_hint};
ghost use Rattle.cql2_text.specs.Hint.{literal_hint, syntax_hint};
ghost use Rattle.cql2_tokens.specs.Lexed.{begins, is_quote};

use crate::fault::{Construct, FilterFault, FilterFaultKind};
use crate::nearest::text_at;
use cql2_tokens::leading_name;
use thiserror::Error;

/// What to write instead. The derived text is for people.
#[derive(Clone, Copy, Debug, PartialEq, Eq, Error)]
pub enum Hint {
    /// In place of INTERSECTS.
    #[error("write S_INTERSECTS(geometry, shape)")]
    Intersects,
    /// In place of DISJOINT.
    #[error("write S_DISJOINT(geometry, shape)")]
    Disjoint,
    /// In place of WITHIN, and of another shape in S_WITHIN.
    #[error("write S_WITHIN(geometry, BBOX(west, south, east, north))")]
    Within,
    /// In place of another spatial predicate.
    #[error("write S_INTERSECTS, S_DISJOINT or S_WITHIN")]
    Spatial,
    /// In place of ENVELOPE.
    #[error("write BBOX(west, south, east, north)")]
    Bbox,
    /// In place of a literal of several points, lines or shapes.
    #[error("write S_INTERSECTS once for each shape, with OR between them")]
    Each,
    /// In place of UPPER or LOWER.
    #[error("write CASEI on both sides")]
    Casei,
    /// In place of `!=`.
    #[error("write <>")]
    NotEqual,
    /// In place of two signs, as `==`.
    #[error("write a single sign, such as = or <=")]
    OneSign,
    /// In place of double quotes.
    #[error("write single quotes, since double quotes are for the name of a column")]
    SingleQuotes,
    /// In place of a text that a number is compared with.
    #[error("write a number, without quotes")]
    Number,
}

impl FilterFault {
    /// Returns what to write in place of what was refused in this text, if it is something that other query languages have.
    pub fn hint(&self, text: &[u8]) -> Option<Hint>
        ensures { Hints self.now text.now result }
    {
        match *self {
            FilterFault::At { line, column, flaw } => hint_for(flaw, text_at(text, (line, column))),
            FilterFault::Memory => None,
        }
    }
}

/// Returns the hint for a flaw, given the text from it on.
fn hint_for(flaw: FilterFaultKind, text: &[u8]) -> Option<Hint>
    ensures { IsHint flaw text.now result }
{
    match flaw {
        FilterFaultKind::UnknownColumn => function_hint(leading_name(text)),
        FilterFaultKind::Syntax(Construct::Shape | Construct::Operand | Construct::Area) => {
            shape_hint(leading_name(text))
        }
        FilterFaultKind::Syntax(Construct::Bbox) => box_hint(leading_name(text)),
        FilterFaultKind::Syntax(expected) => syntax_hint(expected, text),
        FilterFaultKind::WrongType => type_hint(text),
        _ => None,
    }
}

/// Returns the hint for the name of a function.
fn function_hint(name: &[u8]) -> Option<Hint>
    ensures { result ≡ function_hint name.now }
{
    if is_word("INTERSECTS", name) {
        return Some(Hint::Intersects);
    }
    if is_word("DISJOINT", name) {
        return Some(Hint::Disjoint);
    }
    if is_word("WITHIN", name) {
        return Some(Hint::Within);
    }
    if is_spatial(name) {
        return Some(Hint::Spatial);
    }
    if changes_case(name) {
        Some(Hint::Casei)
    } else {
        None
    }
}

/// Returns whether this is the name of a spatial predicate that there is not.
fn is_spatial(name: &[u8]) -> bool
    ensures { result ≡ is_spatial name.now }
{
    is_word("S_CONTAINS", name)
        || is_word("CONTAINS", name)
        || is_word("S_TOUCHES", name)
        || is_word("S_CROSSES", name)
        || is_word("S_OVERLAPS", name)
        || is_word("S_EQUALS", name)
}

/// Returns the hint for the name of a shape.
fn shape_hint(name: &[u8]) -> Option<Hint>
    ensures { result ≡ shape_hint name.now }
{
    if is_word("ENVELOPE", name) {
        return Some(Hint::Bbox);
    }
    if is_collection(name) {
        Some(Hint::Each)
    } else {
        None
    }
}

/// Returns the hint for the name of a shape where a box is expected.
fn box_hint(name: &[u8]) -> Option<Hint>
    ensures { result ≡ box_hint name.now }
{
    if is_word("ENVELOPE", name) {
        return Some(Hint::Bbox);
    }
    if is_shape(name) || is_collection(name) {
        Some(Hint::Within)
    } else {
        None
    }
}

fn is_collection(name: &[u8]) -> bool
    ensures { result ≡ is_collection name.now }
{
    is_word("MULTIPOINT", name)
        || is_word("MULTILINESTRING", name)
        || is_word("GEOMETRYCOLLECTION", name)
}

fn is_shape(name: &[u8]) -> bool
    ensures { result ≡ is_shape name.now }
{
    is_word("POINT", name)
        || is_word("LINESTRING", name)
        || is_word("POLYGON", name)
        || is_word("MULTIPOLYGON", name)
}

/// Returns whether this is the name of a function that changes the case.
fn changes_case(name: &[u8]) -> bool
    ensures { result ≡ changes_case name.now }
{
    is_word("UPPER", name) || is_word("LOWER", name)
}

fn is_word(word: &str, name: &[u8]) -> bool
    ensures { result ≡ str_eq_ignore_ascii_case word.now name.now }
{
    word.as_bytes().eq_ignore_ascii_case(name)
}

/// Returns the hint for a text in which something else is expected.
fn syntax_hint(expected: Construct, text: &[u8]) -> Option<Hint>
    ensures { result ≡ syntax_hint expected text.now }
{
    match expected {
        Construct::Operator => operator_hint(text),
        Construct::Number => literal_hint(text),
        Construct::Casei => literal_hint(text),
        Construct::Accenti => literal_hint(text),
        Construct::Text => text_hint(text),
        _ => None,
    }
}

/// Returns the hint for a text in which an operator is expected.
fn operator_hint(text: &[u8]) -> Option<Hint>
    ensures { result ≡ syntax_hint Construct.Operator text.now }
{
    match text {
        [b'!', ..] => Some(Hint::NotEqual),
        _ => None,
    }
}

/// Returns the hint for a text in which a literal is expected.
fn literal_hint(text: &[u8]) -> Option<Hint>
    ensures { result ≡ literal_hint text.now }
{
    match text {
        [b'<' | b'=' | b'>', ..] => Some(Hint::OneSign),
        _ => None,
    }
}

/// Returns the hint for a text in which a string literal is expected.
fn text_hint(text: &[u8]) -> Option<Hint>
    ensures { result ≡ syntax_hint Construct.Text text.now }
{
    match text {
        [b'"', ..] => Some(Hint::SingleQuotes),
        _ => literal_hint(text),
    }
}

/// Returns the hint for a text that begins with a literal of the wrong type.
fn type_hint(text: &[u8]) -> Option<Hint>
    ensures { IsHint FilterFaultKind.WrongType text.now result }
{
    match text {
        [b'\'', ..] => Some(Hint::Number),
        _ => None,
    }
}
