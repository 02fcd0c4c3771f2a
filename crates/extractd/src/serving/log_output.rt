//! The log on standard error.
ghost use Rattle.std.specs.Io.{WritesAtMost};
ghost use Rattle.std.specs.Io.KnownBytes.{Keeps, WriteAppends};
ghost use Rattle.std.specs.Prelude.{None};

use crate::serving::listening::Network;
use counted_io::Counting;
use http_service::{LoggedListener, WallClock};
use std::io;
use std::io::Write;
use std::net::{SocketAddr, TcpListener};
use std::time::{Instant, SystemTime};
use tcp_server::Timer;

/// The system with a log on standard error, if one is requested. Otherwise it drops what is written.
#[derive(Clone, Copy)]
pub struct LogHost<'a> {
    rt: &'a HostRuntime,
    is_requested: bool,
}

impl<'a> LogHost<'a> {
    pub fn new(rt: &'a HostRuntime, is_requested: bool) -> Self {
        LogHost { rt, is_requested }
    }
}

impl Write for LogHost<'_> {
    fn write(&mut self, buf: &[u8]) -> io::Result<usize>
        ensures bound { WritesAtMost result buf.now }
        ensures bytes { WriteAppends None None result buf.now }
    {
        if self.is_requested {
            self.rt.stderr().write(buf)
        } else {
            Ok(buf.len())
        }
    }

    /// Does nothing: standard error has no buffer to flush.
    fn flush(&mut self) -> io::Result<()>
        ensures bytes { Keeps None None }
    {
        Ok(())
    }
}

impl Timer for LogHost<'_> {
    fn read(&mut self) -> io::Result<Instant> {
        Instant::now(self.rt)
    }
}

impl WallClock for LogHost<'_> {
    fn read_date(&mut self) -> io::Result<SystemTime> {
        SystemTime::now(self.rt)
    }
}

impl Network for LogHost<'_> {
    type Listener = TcpListener;

    fn bind(&mut self, address: SocketAddr) -> io::Result<TcpListener> {
        TcpListener::bind(self.rt, address)
    }

    fn local_address(&self, listener: &TcpListener) -> io::Result<SocketAddr> {
        listener.local_addr()
    }
}

/// A network whose listeners write to its log.
#[derive(Drop)]
pub struct LoggedNetwork<H> {
    host: H,
}

impl<H> LoggedNetwork<H> {
    pub fn new(host: H) -> Self {
        LoggedNetwork { host }
    }
}

impl<H: Network + WallClock + Write + Copy + Drop> Network for LoggedNetwork<H> {
    type Listener = LoggedListener<H::Listener, Counting<H>, H>;

    fn bind(&mut self, address: SocketAddr) -> io::Result<Self::Listener> {
        let listener = self.host.bind(address)?;
        let log = Counting::new(self.host);
        Ok(LoggedListener::new(listener, log, self.host))
    }

    fn local_address(&self, listener: &Self::Listener) -> io::Result<SocketAddr> {
        self.host.local_address(&listener.listener)
    }
}
