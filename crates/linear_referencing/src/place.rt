//! The place at a share of a line's length.
ghost use Rattle.std.specs.Prelude.{◌≡◌, ◌+◌, ◌*◌, ◌/◌, ◌^◌, ◌≤◌, ◌<◌, ℕ, length};
ghost use Rattle.linear_referencing.specs.Length.{IsLength};
ghost use Rattle.linear_referencing.specs.Place.{IsAtDistance, IsAtShare, coordinate_between, place_between};
ghost use Rattle.linear_referencing.specs.declared.length.TheConstants.{MAX_LINE_POINTS};

use crate::interpolation::interpolate;
use crate::length::{MAX_LINE_POINTS, line_length, piece_length};
use tl_segments::Point;

/// A place, in millionths of a degree: positive to the east and to the north.
#[derive(Clone, Copy, PartialEq, Eq)]
pub struct Place {
    pub longitude: i64,
    pub latitude: i64,
}

/// A share of a length: `part` of `whole`.
#[derive(Clone, Copy)]
pub struct Share {
    pub part: u64,
    pub whole: u64,
}

/// Returns the place at a share of a line's length from its start.
pub fn place_along(points: &[Point], share: Share) -> Place
    requires several { 2 ≤ length points.now }
    requires few { length points.now ≤ MAX_LINE_POINTS }
    requires some { 0 < share.whole }
    requires within { share.part ≤ share.whole }
    ensures { IsAtShare points.now share result }
{
    let total = line_length(points);
    let distance = part_of(total, share);
    place_at(points, distance)
}

/// Returns a share of a length, rounded down.
fn part_of(total: u64, share: Share) -> u64
    requires total { total < 2 ^ 63 }
    requires some { 0 < share.whole }
    requires within { share.part ≤ share.whole }
    ensures value { result ≡ total * share.part / share.whole }
    ensures within { result ≤ total }
{
    (u128::from(total) * u128::from(share.part) / u128::from(share.whole)) as u64
}

/// Returns the place at a distance from the start of a line.
fn place_at(points: &[Point], distance: u64) -> Place
    requires several { 2 ≤ length points.now }
    requires within { (total : ℕ) → IsLength points.now total → distance ≤ total }
    ensures { IsAtDistance points.now distance result }
{
    let [first, rest @ ..] = points else {
        unreachable!()
    };
    let mut from = *first;
    let mut left = distance;
    for to in rest {
        let piece = piece_length(from, *to);
        if left <= piece {
            return place_between(from, *to, left, piece);
        }
        left -= piece;
        from = *to;
    }
    // A distance along the line is at most the sum of its pieces.
    unreachable!()
}

/// Returns the place at this distance from the first of two points, which are `whole` apart.
fn place_between(from: Point, to: Point, part: u64, whole: u64) -> Place
    requires within { part ≤ whole }
    requires whole { whole < 2 ^ 49 }
    ensures { result ≡ place_between from to part whole }
{
    Place {
        longitude: coordinate_between(from.longitude, to.longitude, part, whole),
        latitude: coordinate_between(from.latitude, to.latitude, part, whole),
    }
}

/// Returns the coordinate as far from `from` to `to` as `part` is of `whole`.
fn coordinate_between(from: i32, to: i32, part: u64, whole: u64) -> i64
    requires within { part ≤ whole }
    requires whole { whole < 2 ^ 49 }
    ensures { result ≡ coordinate_between from to part whole }
{
    if whole == 0 {
        return i64::from(from);
    }
    let distance = i128::from(to) - i128::from(from);
    let share = interpolate(distance, i128::from(part), i128::from(whole));
    i64::from(from) + share
}
