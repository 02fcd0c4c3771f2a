//! The helper functions by number: the table of prototypes.
ghost use Rattle.std.specs.Prelude.{◌≡◌};
ghost use Rattle.bpf_helpers.specs.Helper.{by_number, name, unary, reads_record_alone, signature, binary};
ghost use Rattle.bpf_kinds.specs.Interval.{between};

use crate::signature::{Argument, Group, Signature};
use bpf_kinds::Interval;
use tl_segments::{MAX_NAMES, MAX_RANGES};

/// A helper function.
#[derive(Clone, Copy, PartialEq, Eq)]
pub enum Helper {
    /// Returns the number in a field of the segment's type 1 record.
    Field,
    /// Returns whether a field holds a number.
    HasField,
    /// Returns the number of alternate names of the segment.
    NameCount,
    /// Returns the number of address ranges of the segment.
    RangeCount,
    /// Returns the sides of a range on which a house number lies.
    InRange,
    /// Copies a name's first bytes into the frame.
    NameCopy,
    /// Returns whether a name equals bytes of the frame.
    NameIs,
    /// Sets the score.
    Emit,
    /// Returns a coordinate of the segment's ends.
    Coord,
}

// RFC 9669 leaves the functions and their numbers to the platform, so both are this project's own.
/// All helper functions, in the order of their numbers.
pub const HELPERS: [Helper; 9] = [
    Helper::Field,
    Helper::HasField,
    Helper::NameCount,
    Helper::RangeCount,
    Helper::InRange,
    Helper::NameCopy,
    Helper::NameIs,
    Helper::Emit,
    Helper::Coord,
];

/// No arguments.
const NO_ARGUMENTS: [Argument; 3] = [Argument::Unused; 3];

/// The ids of fields.
const FIELD_IDS: Interval = Interval { low: 0, high: 16 };

/// The numbers of coordinates.
const COORDINATE_IDS: Interval = Interval { low: 0, high: 3 };

/// Any 64-bit number.
const ANY_NUMBER: Interval = Interval {
    low: 0,
    high: u64::MAX,
};

/// A name's number, a pointer into the frame, and a byte count.
const NAME_AND_BYTES: [Argument; 3] = [
    Argument::Number(ANY_NUMBER),
    Argument::Frame,
    // The length of FENAME.
    Argument::Number(Interval { low: 1, high: 30 }),
];

impl Helper {
    /// Returns the helper function that programs call by a number, if there is one.
    pub fn by_number(number: u32) -> Option<Helper>
        ensures { result ≡ by_number number }
    {
        HELPERS
            .iter()
            .copied()
            .find(|helper| helper.signature().number == number)
    }

    /// Returns the helper's name in the documentation.
    pub fn name(self) -> &'static str
        ensures { result.now ≡ name self }
    {
        match self {
            Helper::Field => "field",
            Helper::HasField => "has",
            Helper::NameCount => "names",
            Helper::RangeCount => "ranges",
            Helper::InRange => "in_range",
            Helper::NameCopy => "name_copy",
            Helper::NameIs => "name_is",
            Helper::Emit => "emit",
            Helper::Coord => "coord",
        }
    }

    /// Returns whether a call reads nothing of the segment except its type 1 record.
    pub fn reads_record_alone(self) -> bool
        ensures { result ≡ reads_record_alone self }
    {
        self.signature().group.reads_record_alone()
    }

    /// Returns the helper's row in the table of prototypes.
    pub fn signature(self) -> Signature
        ensures { result ≡ signature self }
    {
        match self {
            // An address field has 11 digits, more than any other.
            Helper::Field => row(1, unary(FIELD_IDS), Group::ReadsRecord, 0, 99_999_999_999),
            Helper::HasField => row(2, unary(FIELD_IDS), Group::ReadsRecord, 0, 1),
            Helper::NameCount => row(3, NO_ARGUMENTS, Group::ReadsSegment, 0, MAX_NAMES as u64),
            // The record of type 1 has a range of its own.
            Helper::RangeCount => row(
                4,
                NO_ARGUMENTS,
                Group::ReadsSegment,
                1,
                MAX_RANGES as u64 + 1,
            ),
            Helper::InRange => row(5, binary(ANY_NUMBER, ANY_NUMBER), Group::ReadsSegment, 0, 3),
            Helper::NameCopy => row(6, NAME_AND_BYTES, Group::CopiesIntoFrame, 0, 1),
            Helper::NameIs => row(7, NAME_AND_BYTES, Group::ComparesFrame, 0, 1),
            Helper::Emit => row(8, unary(ANY_NUMBER), Group::SetsScore, 0, 0),
            // A coordinate is in two's complement, so one in the west or south is a large number.
            Helper::Coord => row(9, unary(COORDINATE_IDS), Group::ReadsRecord, 0, u64::MAX),
        }
    }
}

fn unary(x: Interval) -> [Argument; 3]
    ensures { result ≡ unary x }
{
    [Argument::Number(x), Argument::Unused, Argument::Unused]
}

fn binary(x: Interval, y: Interval) -> [Argument; 3]
    ensures { result ≡ binary x y }
{
    [Argument::Number(x), Argument::Number(y), Argument::Unused]
}

fn row(number: u32, arguments: [Argument; 3], group: Group, low: u64, high: u64) -> Signature
    ensures { result ≡ record { number = number; arguments = arguments; group = group; answer = between low high } }
{
    Signature {
        number,
        arguments,
        group,
        answer: Interval { low, high },
    }
}
