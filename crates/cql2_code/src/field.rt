//! Fields of the record that hold texts.
ghost use Rattle.std.specs.Prelude.{◌≡◌};
ghost use Rattle.cql2_code.specs.Lowering.{IsTextField, field_of};

use cql2::TextColumn;
use tl_records::Places;

/// A field of the record, by the number of bytes before it and its own.
#[derive(Clone, Copy)]
pub(crate) struct Field {
    pub offset: u8,
    pub width: u8,
}

/// Returns a column's field.
pub(crate) fn field_of(column: TextColumn) -> Field
    ensures value { result ≡ field_of column }
    ensures is_field { IsTextField result }
{
    let Places(first, last) = column.places();
    Field {
        offset: (first - 1) as u8,
        width: (last - (first - 1)) as u8,
    }
}
