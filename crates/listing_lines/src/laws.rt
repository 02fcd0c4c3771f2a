//! Laws over the definitions, as contracts of functions that do nothing.
ghost use Rattle.std.specs.Prelude.{◌≡◌};
ghost use Rattle.listing_lines.specs.declared.source_lines.TheConstants.{MAX_PLACE, PLACE_DIGITS};

/// Places have up to five digits and go up to 65535.
pub fn place_limits()
    ensures greatest_place { MAX_PLACE ≡ 65535 }
    ensures place_digits { PLACE_DIGITS ≡ 5 }
{}
