//! Calls of a socket within limits of time.
ghost use Rattle.std.specs.Prelude.{◌≡◌, None};
ghost use Rattle.std.specs.Duration.{as_nanos};
ghost use Rattle.std.specs.Io.{ReadsAtMost, WritesAtMost};
ghost use Rattle.std.specs.Io.KnownBytes.{ReadConsumes, WriteAppends};
ghost use Rattle.tcp_server.specs.Timed.{Waits, within};

use crate::socket::Socket;
use crate::stopwatch::{Stopwatch, Timer};
use std::io;
use std::io::ErrorKind;
use std::net::SocketAddr;
use std::time::Duration;

/// A socket, with the stopwatch of its reader or its writer.
#[derive(Drop)]
pub struct Timed<H, T> {
    socket: H,
    stopwatch: Stopwatch<T>,
}

impl<H: Socket, T: Timer> Timed<H, T> {
    /// Returns a socket whose time is counted from its first call.
    pub fn new(socket: H, timer: T) -> Self
        ensures { result ≡ record { socket = socket; stopwatch = record { timer = timer; start = None } } }
    {
        Timed {
            socket,
            stopwatch: Stopwatch::new(timer),
        }
    }

    /// Returns the address of the client.
    pub fn peer(&self) -> SocketAddr
        ensures { result ≡ H.address self.now.socket }
    {
        self.socket.peer()
    }

    /// Reads, and waits no longer than for the time left. Reads again after an interruption, within the time left then.
    pub fn read(&mut self, idle: Duration, limit: Duration, buf: &mut [u8]) -> io::Result<usize>
        ensures bound { ReadsAtMost result buf.new }
        ensures bytes { ReadConsumes (H.remaining self.old.socket) (H.remaining self.new.socket) result buf.new }
        ensures waits { Waits (record { calls = H.reads; timing = record { shows = T.shows; idle = as_nanos idle; limit = as_nanos limit } })
            buf.new result self.old self.new }
    {
        for _attempt in 0..u64::MAX {
            let wait = self.stopwatch.time_left(idle, limit)?;
            match self.socket.read_within(wait, buf) {
                Ok(count) => return Ok(count),
                Err(error) => {
                    // A signal is no fault of the client, whose limits still apply.
                    if error.kind() != ErrorKind::Interrupted {
                        return Err(error);
                    }
                }
            }
        }
        Err(io::Error::from(ErrorKind::TimedOut))
    }

    /// Writes, and waits no longer than for the time left. Writes again after an interruption, within the time left then.
    pub fn write(&mut self, limit: Duration, buf: &[u8]) -> io::Result<usize>
        ensures bound { WritesAtMost result buf.now }
        ensures bytes { WriteAppends (H.contents self.old.socket) (H.contents self.new.socket) result buf.now }
        ensures waits { Waits (within H.writes T.shows (as_nanos limit)) buf.now result self.old self.new }
    {
        for _attempt in 0..u64::MAX {
            let wait = self.stopwatch.time_left(limit, limit)?;
            match self.socket.write_within(wait, buf) {
                Ok(count) => return Ok(count),
                Err(error) => {
                    if error.kind() != ErrorKind::Interrupted {
                        return Err(error);
                    }
                }
            }
        }
        Err(io::Error::from(ErrorKind::TimedOut))
    }
}
