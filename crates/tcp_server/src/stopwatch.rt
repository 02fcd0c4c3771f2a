//! Measuring elapsed time.
ghost use Rattle.std.specs.Prelude.{◌≡◌, None, Result, ⊤};
ghost use Rattle.std.specs.Duration.{as_nanos};
ghost use Rattle.std.specs.declared.io.Error.{Error};
ghost use Rattle.std.specs.declared.time.Instant.{Instant};
ghost use Rattle.tcp_server.specs.Stopwatch.{Elapses, LeavesTime};

use crate::limits::wait_left;
use std::io;
use std::io::ErrorKind;
use std::time::{Clock, Duration, Instant};

/// A clock, as contracts see it: a reference to any of std's.
pub trait Timer {
    // A reading: the clock before it, its result, and the clock after it. The contracts of the server hold for any such relation.
    ghost shows: { Self → Result Instant Error → Self → Type 0 } = { λ _ _ _. ⊤ };

    /// Reads the clock once.
    fn read(&mut self) -> io::Result<Instant>
        ensures { shows self.old result self.new };
}

impl<C: Clock> Timer for &C {
    fn read(&mut self) -> io::Result<Instant> {
        Instant::now(*self)
    }
}

/// A stopwatch that starts at its first reading.
#[derive(Drop)]
pub struct Stopwatch<T> {
    timer: T,
    // Monotonic, so a change of the system's date moves no deadline.
    start: Option<Instant>,
}

impl<T: Timer> Stopwatch<T> {
    pub fn new(timer: T) -> Self
        ensures timer { result.timer ≡ timer }
        ensures start { result.start ≡ None }
    {
        Stopwatch { timer, start: None }
    }

    /// Returns the time since the first call that could read the clock.
    pub fn elapsed(&mut self) -> io::Result<Duration>
        ensures { Elapses T.shows result self.old self.new }
    {
        let now = self.timer.read()?;
        let start = match self.start {
            Some(start) => start,
            None => now,
        };
        self.start = Some(start);
        Ok(now.duration_since(start))
    }

    /// Returns how long the next call may wait: for the rest of the limit, but no longer than `idle`. Fails with `TimedOut` after the limit.
    pub fn time_left(&mut self, idle: Duration, limit: Duration) -> io::Result<Duration>
        ensures { LeavesTime (record { shows = T.shows; idle = as_nanos idle; limit = as_nanos limit }) result self.old self.new }
    {
        let elapsed = self.elapsed()?;
        match wait_left(idle, limit, elapsed) {
            Some(wait) => Ok(wait),
            None => Err(io::Error::from(ErrorKind::TimedOut)),
        }
    }
}
