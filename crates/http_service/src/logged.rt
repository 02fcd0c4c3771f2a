//! The program's service.
ghost use Rattle.std.specs.Prelude.{◌≡◌};
ghost use Rattle.http_service.specs.Logged.{close_of};

use crate::entry::{Entry, EntrySubject};
use crate::logging::{WallClock, micros_between, read_date, write_entry};
use counted_io::CountedWrite;
use std::alloc::Allocator;
use tcp_server::{ClientInput, ClientOutput, Close, Service};
use wire::{RequestRead, State, WireFault, serve_request};

/// The program's state, which serves requests over HTTP and makes the turns of its jobs, with a log that gets a line for each connection, after its
/// reply.
#[derive(Drop)]
pub struct Logged<A: Allocator, W, T> {
    pub state: State<A>,
    pub log: W,
    timer: T,
}

impl<A: Allocator, W, T> Logged<A, W, T> {
    /// Wraps a state. Nothing is written yet.
    pub fn new(state: State<A>, log: W, timer: T) -> Self
        ensures { result ≡ record { state = state; log = log; timer = timer } }
    {
        Logged { state, log, timer }
    }
}

impl<A: Allocator + Copy, W: CountedWrite, T: WallClock> Service for Logged<A, W, T> {
    ghost use Rattle.http_service.specs.Logged.{ServesLogged, TurnsLogged};

    ghost serves = { ServesLogged (record { shows = T.shows; dates = T.dates; writer_of = W.writer }) };

    ghost turns = { TurnsLogged };

    fn serve<R: ClientInput, O: ClientOutput>(&mut self, input: &mut R, out: &mut O) -> Close {
        let peer = input.peer().ip();
        let date = read_date(&mut self.timer);
        let start = self.timer.read();
        let served = serve_request(&mut self.state, input, out);
        let end = self.timer.read();
        // After the reply and from its summary, so that no other reply depends on counts or log.
        self.state.count(&served.summary);
        let entry = Entry {
            peer: Some(peer),
            date,
            subject: EntrySubject::Request {
                verb: served.summary.named.verb,
                route: served.summary.named.route,
            },
            status: served.summary.status,
            length: served.summary.length,
            received: Some(input.received()),
            micros: micros_between(start, end),
        };
        write_entry(&mut self.log, &entry);
        close_of(served.result)
    }

    fn turn(&mut self) {
        self.state.turn();
    }
}

/// Returns how to close a connection.
fn close_of(served: Result<RequestRead, WireFault>) -> Close
    ensures { result ≡ close_of served }
{
    match served {
        Ok(RequestRead::Partial) => Close::Lingering,
        // The rest of the request may arrive after the reply, and closing at once could lose the reply.
        Ok(RequestRead::Complete) | Err(_) => Close::AtOnce,
    }
}
