//! A listener with a log.
ghost use Rattle.std.specs.Prelude.{◌≡◌};
ghost use Rattle.http_service.specs.declared.entry.EntrySubject.TheVariants.{Start};
ghost use Rattle.http_service.specs.Log.{LogsEvent};

use crate::entry::EntrySubject;
use crate::logging::{WallClock, write_event};
use counted_io::CountedWrite;
use std::io;
use std::net::SocketAddr;
use tcp_server::Listener;

/// A listener that writes a line to a log when it starts, and for each accept that fails.
#[derive(Drop)]
pub struct LoggedListener<L, W, T> {
    pub listener: L,
    pub log: W,
    timer: T,
}

impl<L: Listener, W: CountedWrite, T: WallClock> LoggedListener<L, W, T> {
    /// Wraps a listener, and writes the line of the start.
    pub fn new(listener: L, log: W, timer: T) -> Self
        ensures listener { result.listener ≡ listener }
        ensures logs { LogsEvent T.dates Start timer result.timer (W.writer log) (W.writer result.log) }
    {
        let mut logged = LoggedListener {
            listener,
            log,
            timer,
        };
        write_event(&mut logged.log, &mut logged.timer, EntrySubject::Start);
        logged
    }
}

impl<L: Listener, W: CountedWrite, T: WallClock> Listener for LoggedListener<L, W, T> {
    ghost use Rattle.http_service.specs.Logged.{AcceptsLogged};

    type Stream = L::Stream;

    ghost accepts = { AcceptsLogged L.accepts T.dates (W.writer) };

    fn accept(&mut self) -> io::Result<(L::Stream, SocketAddr)> {
        match self.listener.accept() {
            Ok(accepted) => Ok(accepted),
            Err(error) => {
                write_event(&mut self.log, &mut self.timer, EntrySubject::FailedAccept);
                Err(error)
            }
        }
    }
}
