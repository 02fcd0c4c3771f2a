//! The lengths of lines.
//!
//! Whole numbers on a plane, so that every machine finds the same places. Distances on the ellipsoid need floating point, and would move a house by
//! less than a meter.
ghost use Rattle.std.specs.Prelude.{◌≡◌, ◌+◌, ◌*◌, ◌^◌, ◌≤◌, ◌<◌, length};
ghost use Rattle.linear_referencing.specs.Length.{IsLength, IsPieceLength, cosine, cosine_at, east, mean_latitude, north, squared_length};

use tl_segments::Point;

/// The number of coordinate units in a degree.
const DEGREE: u64 = 1_000_000;

/// The scale of cosines and lengths: 32,768 is 1, and one millionth of a degree of latitude.
const UNIT: u64 = 32_768;

// A shape has 10,000 points at most, and its segment two ends.
/// The greatest number of points of a line, which keeps its length below 2^63.
pub(crate) const MAX_LINE_POINTS: usize = 16_384;

/// The cosine of each whole degree from 0 to 90, in units of 1/32,768, rounded to the nearest.
const COSINES: [u16; 91] = [
    32768, 32763, 32748, 32723, 32688, 32643, 32588, 32524, 32449, 32365, 32270, 32166, 32052,
    31928, 31795, 31651, 31499, 31336, 31164, 30983, 30792, 30592, 30382, 30163, 29935, 29698,
    29452, 29197, 28932, 28660, 28378, 28088, 27789, 27482, 27166, 26842, 26510, 26170, 25822,
    25466, 25102, 24730, 24351, 23965, 23571, 23170, 22763, 22348, 21926, 21498, 21063, 20622,
    20174, 19720, 19261, 18795, 18324, 17847, 17364, 16877, 16384, 15886, 15384, 14876, 14365,
    13848, 13328, 12803, 12275, 11743, 11207, 10668, 10126, 9580, 9032, 8481, 7927, 7371, 6813,
    6252, 5690, 5126, 4560, 3993, 3425, 2856, 2286, 1715, 1144, 572, 0,
];

/// Returns the length of a line from its first to its last point, in units of 1/32,768 of a millionth of a degree of latitude (3.4 micrometers).
pub(crate) fn line_length(points: &[Point]) -> u64
    requires { length points.now ≤ MAX_LINE_POINTS }
    ensures value { IsLength points.now result }
    ensures small { result < 2 ^ 63 }
{
    let [first, rest @ ..] = points else {
        return 0;
    };
    let mut from = *first;
    let mut total = 0;
    for to in rest {
        total += piece_length(from, *to);
        from = *to;
    }
    total
}

/// Returns the length of a straight piece of a line, in the unit of [`line_length`]: degrees of longitude are as long as they are in the middle of the
/// piece.
pub(crate) fn piece_length(from: Point, to: Point) -> u64
    ensures value { IsPieceLength from to result }
    ensures small { result < 2 ^ 49 }
{
    let latitude = mean_latitude(from, to);
    let east = u64::from(from.longitude.abs_diff(to.longitude)) * cosine(latitude);
    let north = u64::from(from.latitude.abs_diff(to.latitude)) * UNIT;
    squared_length(east, north).isqrt() as u64
}

/// Returns the square of the hypotenuse.
fn squared_length(east: u64, north: u64) -> u128
    requires east { east < 2 ^ 48 }
    requires north { north < 2 ^ 48 }
    ensures { result ≡ east * east + north * north }
{
    let east = u128::from(east);
    let north = u128::from(north);
    east * east + north * north
}

/// Returns the distance from the equator of the point between two points, in millionths of a degree.
fn mean_latitude(from: Point, to: Point) -> u64
    ensures { result ≡ mean_latitude from to }
{
    (i64::from(from.latitude) + i64::from(to.latitude)).unsigned_abs() / 2
}

/// Returns the cosine of a latitude in millionths of a degree, in units of 1/32,768: linear between whole degrees, and 0 beyond the poles.
fn cosine(latitude: u64) -> u64
    requires { latitude < 2 ^ 32 }
    ensures value { result ≡ cosine latitude }
    ensures small { result < 2 ^ 16 }
{
    let degree = latitude / DEGREE;
    let after = latitude % DEGREE;
    (cosine_at(degree) * (DEGREE - after) + cosine_at(degree + 1) * after) / DEGREE
}

/// Returns the cosine of whole degrees, in units of 1/32,768.
fn cosine_at(degree: u64) -> u64
    ensures value { result ≡ cosine_at degree }
    ensures small { result < 2 ^ 16 }
{
    let degree = degree as usize;
    if degree < COSINES.len() {
        u64::from(COSINES[degree])
    } else {
        0
    }
}
