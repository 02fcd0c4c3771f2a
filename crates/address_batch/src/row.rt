//! CSV records.
ghost use Rattle.std.specs.Prelude.{◌≡◌, ◌∷◌, ◌++◌, [], IfOk};
ghost use Rattle.addresses.specs.Columns.{trimmed};
ghost use Rattle.csv.specs.Records.{partial_of};

use csv::ByteRecord;
use geocode::push_utf8;
use std::alloc::{AllocError, Global};

/// The cells of a line.
#[derive(Drop)]
pub(crate) struct Cells {
    alloc: Global,
    pub cells: ByteRecord,
    ghost complete: { partial_of cells ≡ [] },
}

impl Cells {
    ghost use Rattle.address_batch.specs.Lines.{cells_of, field_text};

    pub(crate) fn new(alloc: Global) -> Cells
        ensures { cells_of result ≡ [] }
    {
        Cells {
            alloc,
            cells: ByteRecord::new(alloc),
        }
    }

    /// Appends a cell.
    pub(crate) fn with(self, cell: &[u8]) -> Result<Cells, AllocError>
        ensures { IfOk result (λ cells. cells_of cells ≡ cells_of self ++ cell.now ∷ []) }
    {
        let Cells { alloc, mut cells } = self;
        cells.push_field(cell)?;
        Ok(Cells { alloc, cells })
    }

    /// Appends a field of a record, without leading and trailing blanks, in UTF-8.
    pub(crate) fn with_field(self, field: &[u8]) -> Result<Cells, AllocError>
        ensures { IfOk result (λ cells. cells_of cells ≡ cells_of self ++ field_text field.now ∷ []) }
    {
        let mut text = String::new(self.alloc);
        push_utf8(trimmed(field), &mut text)?;
        self.with(text.as_bytes())
    }
}

/// Removes leading and trailing blanks from a field.
fn trimmed(field: &[u8]) -> &[u8]
    ensures { result.now ≡ trimmed field.now }
{
    field.trim_ascii()
}
