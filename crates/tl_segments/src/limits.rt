//! The maximum numbers of what is joined to a segment.

// RTSQ has three digits.
/// The maximum number of type 2 lines, of type 4 lines, and of type 6 lines, with the same TLID.
pub const MAX_LINES_PER_TLID: usize = 1000;

/// The maximum number of a segment's alternate names: five for each type 4 line.
pub const MAX_NAMES: usize = 5000;

/// The maximum number of a segment's further ranges: one for each type 6 line.
pub const MAX_RANGES: usize = 1000;

/// The maximum number of points of a TLID's shape: ten for each type 2 line.
pub const MAX_POINTS: usize = 10_000;
