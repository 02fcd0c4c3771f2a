//! Tests and their subjects.
ghost use Rattle.std.specs.Prelude.{◌≡◌, not, if◌then◌else◌};
ghost use Rattle.cql2_code.specs.Layout.{opposite};
ghost use Rattle.cql2_code.specs.Question.{condition_of, coordinate_id, field_id};

use bpf_insn::Condition;
use cql2::{Comparison, CoordinateColumn, NumberColumn};

/// The number of bytes that are read from a record at once.
#[derive(Clone, Copy)]
pub(crate) enum Chunk {
    Byte,
    /// Four bytes.
    Word,
    /// Eight bytes.
    DoubleWord,
}

/// The subject of a test: a number.
#[derive(Clone, Copy)]
pub(crate) enum Subject {
    /// The number of a column; 0 if it has none.
    Number(NumberColumn),
    /// 1 if the column has a number, otherwise 0.
    HasNumber(NumberColumn),
    /// A coordinate in two's complement; 0 if there is none.
    Coordinate(CoordinateColumn),
    /// The number of the segment's alternate names.
    Names,
    /// The number of the segment's ranges.
    Ranges,
    /// The sides of the range with this index on which the house number lies; 0 for none.
    InRange(u16, u64),
    /// 1 if the name with this index is these bytes, which are padded with blanks, otherwise 0.
    NameIs(u16, [u8; 32]),
    /// The little-endian number of the chunk of the record at an offset.
    Load(Chunk, u8),
}

/// A comparison of a number with a constant.
#[derive(Clone, Copy)]
pub(crate) struct Test {
    pub subject: Subject,
    pub comparison: Comparison,
    pub operand: i64,
}

/// The two exits of a question's code: it falls through its end if the answer is `falls`, and otherwise skips `skip` words after it.
#[derive(Clone, Copy)]
pub(crate) struct Exits {
    pub falls: bool,
    pub skip: usize,
}

impl Exits {
    /// Returns these exits if the question is asked as it is, or those with `falls` negated if its opposite is asked.
    pub fn if_asked(self, asked: bool) -> Exits
        ensures falls { result.falls ≡ (if asked then self.falls else not self.falls) }
        ensures skip { result.skip ≡ self.skip }
    {
        Exits {
            falls: self.falls == asked,
            skip: self.skip,
        }
    }
}

/// Returns the id of a column in helper functions.
pub(crate) fn field_id(column: NumberColumn) -> u8
    ensures { result ≡ field_id column }
{
    // The order of the table in `bpf_helpers`. `cql2`, which has the columns, knows nothing of programs.
    match column {
        NumberColumn::Tlid => 0,
        NumberColumn::Fraddl => 1,
        NumberColumn::Toaddl => 2,
        NumberColumn::Fraddr => 3,
        NumberColumn::Toaddr => 4,
        NumberColumn::Zipl => 5,
        NumberColumn::Zipr => 6,
        NumberColumn::Statel => 7,
        NumberColumn::Stater => 8,
        NumberColumn::Countyl => 9,
        NumberColumn::Countyr => 10,
        NumberColumn::Placel => 11,
        NumberColumn::Placer => 12,
        NumberColumn::Tractl => 13,
        NumberColumn::Tractr => 14,
        NumberColumn::Blockl => 15,
        NumberColumn::Blockr => 16,
    }
}

/// Returns the id of a coordinate in helper functions.
pub(crate) fn coordinate_id(column: CoordinateColumn) -> u8
    ensures { result ≡ coordinate_id column }
{
    match column {
        CoordinateColumn::Frlong => 0,
        CoordinateColumn::Frlat => 1,
        CoordinateColumn::Tolong => 2,
        CoordinateColumn::Tolat => 3,
    }
}

/// Returns the comparison that holds exactly if this one doesn't.
pub(crate) fn opposite(comparison: Comparison) -> Comparison
    ensures { result ≡ opposite comparison }
{
    match comparison {
        Comparison::Equal => Comparison::NotEqual,
        Comparison::NotEqual => Comparison::Equal,
        Comparison::Less => Comparison::GreaterOrEqual,
        Comparison::LessOrEqual => Comparison::Greater,
        Comparison::Greater => Comparison::LessOrEqual,
        Comparison::GreaterOrEqual => Comparison::Less,
    }
}

/// Returns the jump condition for a comparison of signed numbers.
pub(crate) fn condition_of(comparison: Comparison) -> Condition
    ensures { result ≡ condition_of comparison }
{
    // Signed, as coordinates in the west are negative and no number reaches 2^63.
    match comparison {
        Comparison::Equal => Condition::Equal,
        Comparison::NotEqual => Condition::NotEqual,
        Comparison::Less => Condition::SignedLess,
        Comparison::LessOrEqual => Condition::SignedLessOrEqual,
        Comparison::Greater => Condition::SignedGreater,
        Comparison::GreaterOrEqual => Condition::SignedGreaterOrEqual,
    }
}
