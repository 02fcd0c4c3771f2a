//! Laws about the definitions, stated as contracts of functions that do nothing.
ghost use Rattle.std.specs.Prelude.{◌≡◌, ℤ, FitsSigned, Some};
ghost use Rattle.std.specs.Int.{w64};
ghost use Rattle.numerals.specs.Degrees.{degrees};
ghost use Rattle.numerals.specs.Millionths.{millionths_in};

/// States that the text of a coordinate reads back as its millionths: `-86.475706` is -86475706.
pub fn reads_back()
    ensures { (coordinate : ℤ) → FitsSigned w64 coordinate → millionths_in (degrees coordinate) ≡ Some coordinate }
{}
