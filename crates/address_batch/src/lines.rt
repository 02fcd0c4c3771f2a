//! Lines of output.
ghost use Rattle.std.specs.Prelude.{◌≡◌, ◌++◌, [], IfOk, OnOk};
ghost use Rattle.address_batch.specs.Lines.{cells_of, line};
ghost use Rattle.address_batch.specs.ReadyWriter.{IsReady, text_in};

use crate::row::Cells;
use csv::{Writer, WriterBuilder};
use std::alloc::{AllocError, Global};
use std::marker::Model;

/// The number of bytes after which a new writer begins.
const MAX_WRITER_BYTES: usize = 65_536;

/// The lines of an address, in CSV. Contracts see their text.
///
/// One writer of the crate `csv` serves many addresses, since making one takes as long as finding an address.
#[derive(Drop)]
pub struct Lines {
    alloc: Global,
    /// On the heap, as it has 9 KB and is moved with its owners. There is none before the first line, and after a failure.
    writer: Option<Box<Writer<Vec<u8>>>>,
    /// The start of the lines in all that was written.
    start: usize,
}

impl Model for Lines {
    ghost use Rattle.std.specs.Prelude.{ℕ, List};
    ghost use Rattle.address_batch.specs.ReadyWriter.{IsReadyAfter, text_after};

    ghost Value = { List ℕ };

    ghost view = { λ lines. text_after lines.start lines.writer };

    ghost invariant = { λ lines. IsReadyAfter lines.start lines.writer };
}

impl Lines {
    /// Creates an empty text. Doesn't allocate.
    pub fn new(alloc: Global) -> Lines
        ensures { result ≡ [] }
    {
        Lines {
            alloc,
            writer: None,
            start: 0,
        }
    }

    /// Returns the text.
    pub fn as_bytes(&self) -> &[u8]
        ensures { result.now ≡ self.now }
    {
        match &self.writer {
            Some(writer) => &writer.get_ref()[self.start..],
            None => &[],
        }
    }

    /// Removes all lines.
    pub(crate) fn clear(&mut self)
        ensures { self.new ≡ [] }
    {
        let written = match &self.writer {
            Some(writer) => writer.get_ref().len(),
            None => 0,
        };
        self.start = written;
        // A writer keeps all that it has written, so it is replaced before that takes much memory.
        if written >= MAX_WRITER_BYTES {
            self.writer = None;
            self.start = 0;
        }
    }

    /// Appends the line of these cells (RFC 4180), terminated by LF. A cell with a comma, a quotation mark or a line end is quoted.
    pub(crate) fn push(&mut self, cells: &Cells) -> Result<(), AllocError>
        ensures { OnOk result (self.new ≡ self.old ++ line (cells_of cells.now)) }
    {
        if self.writer.is_none() {
            self.start = 0;
            self.writer = Some(new_writer(self.alloc)?);
        }
        if let Some(writer) = &mut self.writer {
            if push_line(&mut *writer, cells).is_ok() {
                return Ok(());
            }
        }
        // A failed writer may be within a record.
        self.writer = None;
        self.start = 0;
        Err(AllocError)
    }
}

/// Creates a writer that has written nothing.
fn new_writer(alloc: Global) -> Result<Box<Writer<Vec<u8>>>, AllocError>
    ensures ready { IfOk result (λ writer. IsReady writer.value) }
    ensures empty { IfOk result (λ writer. text_in writer.value ≡ []) }
{
    // `csv` ends lines with LF, as `cut` and `grep` expect, though RFC 4180 has CR LF.
    let writer = WriterBuilder::new().from_writer(Vec::new(alloc));
    Ok(Box::new(alloc, writer)?)
}

/// Appends the line of these cells to the text of a writer.
fn push_line(writer: &mut Writer<Vec<u8>>, cells: &Cells) -> Result<(), AllocError>
    requires { IsReady writer.old }
    ensures ready { OnOk result (IsReady writer.new) }
    ensures line { OnOk result (text_in writer.new ≡ text_in writer.old ++ line (cells_of cells.now)) }
{
    // Flushed at once, as the text is then read from the vector.
    if writer.write_byte_record(&cells.cells).is_ok() && writer.flush().is_ok() {
        return Ok(());
    }
    Err(AllocError)
}
