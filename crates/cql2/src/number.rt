//! Numbers in a filter.
ghost use Rattle.std.specs.Prelude.{◌<◌, ◌^◌, FitsSigned};
ghost use Rattle.std.specs.Int.{w64};

/// A number that a column is compared with; for a coordinate, in millionths of a degree.
#[derive(Clone, Copy)]
pub struct Literal {
    pub number: i64,
    ghost fits: { FitsSigned w64 number },
}

/// A house number.
#[derive(Clone, Copy)]
pub struct HouseNumber {
    pub number: u64,
    ghost fits: { number < 2 ^ 64 },
}

/// The number of alternate names to check besides a segment's own name.
#[derive(Clone, Copy)]
pub struct NameLimit {
    pub number: u16,
    ghost fits: { number < 2 ^ 16 },
}
