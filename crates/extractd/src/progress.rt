//! The number of lines written, shown on a terminal while a command runs.
ghost use Rattle.std.specs.Io.{WritesAtMost};
ghost use Rattle.std.specs.Io.KnownBytes.{Keeps, WriteAppends};

use std::io;
use std::io::{IsTerminal, Write};
use std::time::{Duration, Instant};

// The shortest time between two updates of the count, in milliseconds.
const PERIOD: u64 = 100;

/// An output that shows its line count on standard error. A failed write to standard error changes nothing.
#[derive(Drop)]
pub struct ProgressOutput<'a, W> {
    out: W,
    count: LineCount<'a>,
}

/// The number of lines written, and the time when it was last shown.
#[derive(Drop)]
struct LineCount<'a> {
    rt: &'a HostRuntime,
    lines: u64,
    shown: Instant,
}

impl<'a, W> ProgressOutput<'a, W> {
    /// Starts at this moment with no lines.
    pub fn new(rt: &'a HostRuntime, start: Instant, out: W) -> Self {
        ProgressOutput {
            out,
            count: LineCount {
                rt,
                lines: 0,
                shown: start,
            },
        }
    }
}

/// Returns the current time if standard error is a terminal.
pub fn terminal_start(rt: &HostRuntime) -> Option<Instant> {
    if !rt.stderr().is_terminal() {
        return None;
    }
    Instant::now(rt).ok()
}

impl LineCount<'_> {
    /// Counts the line feeds in the bytes, and shows the count if an update is due.
    fn add(&mut self, bytes: &[u8]) {
        let lines = bytes.iter().filter(|byte| **byte == b'\n').count();
        self.lines = self.lines.wrapping_add(lines as u64);
        let Ok(now) = Instant::now(self.rt) else {
            return;
        };
        if now.duration_since(self.shown) >= Duration::from_millis(PERIOD) {
            self.shown = now;
            self.show();
        }
    }

    /// Shows the count. Whatever is written to the terminal next overwrites it.
    fn show(&self) {
        let lines = self.lines;
        let _ = write!(self.rt.stderr(), "\x1b[K{lines} lines\r");
    }

    /// Clears the count's line.
    fn clear(&self) {
        let _ = write!(self.rt.stderr(), "\r\x1b[K");
    }
}

impl<W: Write> Write for ProgressOutput<'_, W> {
    ghost contents = { λ progress. W.contents progress.out };

    fn write(&mut self, buf: &[u8]) -> io::Result<usize>
        ensures bound { WritesAtMost result buf.now }
        ensures bytes { WriteAppends (W.contents self.old.out) (W.contents self.new.out) result buf.now }
    {
        let taken = self.out.write(buf)?;
        self.count.add(&buf[..taken]);
        Ok(taken)
    }

    fn flush(&mut self) -> io::Result<()>
        ensures bytes { Keeps (W.contents self.old.out) (W.contents self.new.out) }
    {
        let flushed = self.out.flush();
        self.count.clear();
        flushed
    }
}
