//! Laws about the definitions, stated as contracts of functions that do nothing.
ghost use Rattle.std.specs.Prelude.{◌≡◌, codes, false, pos, Ok};
ghost use Rattle.cql2_text.specs.Number.{coordinate_of};
ghost use Rattle.cql2_text.specs.declared.reader.TheConstants.{MAX_TEXT_LENGTH};
ghost use Rattle.cql2_text.specs.declared.shape.TheConstants.{MAX_VERTICES};
ghost use Rattle.cql2_tokens.specs.declared.token.Numeral.{Numeral};

pub use cql2_tokens::laws::{column_names, keyword_texts};

/// States that a filter's text has at most 1,048,576 bytes.
pub fn text_limit()
    ensures { MAX_TEXT_LENGTH ≡ 1048576 }
{}

/// States that a shape has at most 1,000 vertices.
pub fn vertex_limit()
    ensures { MAX_VERTICES ≡ 1000 }
{}

/// States that a coordinate is rounded to millionths of a degree, and a half to the even one: 0.0000005 to 0, 0.0000015 to 2.
pub fn half_to_even()
    ensures down { (numeral : Numeral) → numeral.is_negative ≡ false → numeral.whole.now ≡ codes "0" → numeral.decimals.now ≡ codes "0000005"
        → coordinate_of numeral ≡ Ok (pos 0) }
    ensures up { (numeral : Numeral) → numeral.is_negative ≡ false → numeral.whole.now ≡ codes "0" → numeral.decimals.now ≡ codes "0000015"
        → coordinate_of numeral ≡ Ok (pos 2) }
{}
