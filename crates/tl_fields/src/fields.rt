//! A field of a record line, by its columns.
//!
//! It isn't named `field`, because a module can't share a name with an item beside it.
ghost use Rattle.std.specs.Prelude.{◌≡◌, ◌+◌, ◌-◌, ◌≤◌, length};
ghost use Rattle.tl_fields.specs.Field.{field_of};

/// Returns the bytes of `line` from column `first` to column `last`.
///
/// Columns are counted from 1 and both are inclusive, like Beg and End in the record layouts of the TIGER/Line 2006 documentation. The field borrows
/// the line.
#[inline]
pub fn field(line: &[u8], first: usize, last: usize) -> &[u8]
    requires counted_from_one { 1 ≤ first }
    requires ordered { first ≤ last }
    requires within { last ≤ length line.now }
    ensures value { result.now ≡ field_of line.now first last }
    ensures len { length result.now ≡ last + 1 - first }
{
    &line[first - 1..last]
}
