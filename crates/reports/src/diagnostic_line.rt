//! One diagnostic line, which stops at the first failed write.
ghost use Rattle.std.specs.Prelude.{◌≡◌, IfOk};
ghost use Rattle.std.specs.Io.KnownBytes.{Appends};
ghost use Rattle.reports.specs.Escape.{escaped};

use crate::escape::write_escaped;
use counted_io::{CountedWrite, write_text};
use std::fmt;

/// A diagnostic line, written piece by piece. Unlike `write!` on a writer, it doesn't retry a write that fails or writes 0 bytes, not even after
/// `Interrupted`, and writes nothing more.
#[derive(Drop)]
pub struct DiagnosticLine<'a, W> {
    out: &'a mut W,
}

impl<'a, W> DiagnosticLine<'a, W> {
    /// Creates a line that is written to `out`.
    pub fn new(out: &'a mut W) -> Self {
        DiagnosticLine { out }
    }
}

impl<W: CountedWrite> DiagnosticLine<'_, W> {
    /// Writes a value from the user with its control characters escaped.
    pub fn echo(&mut self, text: &str) -> fmt::Result
        ensures { IfOk result (λ _. Appends (W.writer self.old.out.now).held (W.writer self.new.out.now).held (escaped text.now)) }
    {
        write_escaped(self.out, text).map_err(|_| fmt::Error)
    }
}

impl<W: CountedWrite> fmt::Write for DiagnosticLine<'_, W> {
    // The text follows what was written before.
    ghost write_str_gives = { λ old text new. (new.out.ghost_name ≡ old.out.ghost_name)
        × Appends (W.writer old.out.now).held (W.writer new.out.now).held text };

    fn write_str(&mut self, text: &str) -> fmt::Result {
        write_text(self.out, text.as_bytes()).map_err(|_| fmt::Error)
    }
}
