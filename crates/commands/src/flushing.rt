//! Flushing an output as the last call on it.
ghost use Rattle.std.specs.Prelude.{OnOk, ⊤};
ghost use Rattle.std.specs.Io.KnownBytes.{Keeps};
ghost use Rattle.counted_io.specs.Counting.{CountsFlush};

use counted_io::CountedWrite;
use std::io;

/// An output that shows whether a successful flush was the last call on it.
pub trait FlushedWrite: CountedWrite {
    // Nothing was written since a flush that succeeded. Only such a flush shows this, so nothing else can be called after it.
    ghost is_flushed: { Self → Type 0 } = { λ _. ⊤ };

    /// Flushes once.
    fn flush_last(&mut self) -> io::Result<()>
        ensures bytes { Keeps (Self.writer self.old).held (Self.writer self.new).held }
        ensures counts { CountsFlush result (Self.writer self.old).counts (Self.writer self.new).counts }
        ensures flushed { OnOk result (is_flushed self.new) };
}

impl<W: CountedWrite> FlushedWrite for W {
    fn flush_last(&mut self) -> io::Result<()> {
        self.flush_counted()
    }
}
