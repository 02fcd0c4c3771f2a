//! Serving connections one by one, each from its accept to its close.
//!
//! One thread, so a service needs no locks. Between two connections the service makes a turn, for the work that isn't for a single client. No failure
//! of a client ends the loop.
ghost use Rattle.std.specs.Prelude.{◌≡◌, None, IfErr, OnOk};
ghost use Rattle.std.specs.Duration.{as_nanos};
ghost use Rattle.tcp_server.specs.Closing.{Closes, DropsUnread, Lingers};
ghost use Rattle.tcp_server.specs.Rounds.{HasEnded, IsRound, ServesAndCloses, ServesUntilFailure};
ghost use Rattle.tcp_server.specs.Tally.{ServesTallied, TurnsTallied};
ghost use Rattle.tcp_server.specs.Timed.{within};

use crate::acceptor::Acceptor;
use crate::client_socket::ClientSocket;
use crate::client_stream::{ClientReader, ClientWriter};
use crate::limits::Limits;
use crate::listener::Listener;
use crate::service::{Close, Service};
use crate::socket::Socket;
use crate::stopwatch::Timer;
use crate::tally::Tally;
use crate::timed::Timed;
use counted_io::Counting;
use std::io;
use std::net::TcpStream;
use std::time::{Clock, Duration};

/// Serves connections one by one until an accept fails, and returns its error. The service serves each connection once, and makes one turn after
/// it.
pub fn serve_all<L: Listener<Stream = TcpStream>, C: Clock, S: Service>(
    acceptor: &mut Acceptor<L>,
    clock: &C,
    limits: &Limits,
    service: &mut Tally<S>,
) -> io::Error
    ensures { ServesUntilFailure
        (record { accepts = L.accepts; serves = ServesTallied S.serves; turns = TurnsTallied S.turns; limits = limits.now }) result
        (record { acceptor = acceptor.old; service = service.old })
        (record { acceptor = acceptor.new; service = service.new }) }
{
    loop {
        // Whatever else fails is the client's.
        if let Err(error) = serve_next(acceptor, clock, limits, service) {
            return error;
        }
    }
}

/// Accepts one connection, lets the service serve it, closes it, and gives the service a turn. Only a failed accept is an error; failures of the
/// connection itself are ignored.
/// No caller in this program but the loop: part of the library's fixed interface.
pub fn serve_next<L: Listener<Stream = TcpStream>, C: Clock, S: Service>(
    acceptor: &mut Acceptor<L>,
    clock: &C,
    limits: &Limits,
    service: &mut S,
) -> io::Result<()>
    ensures round { OnOk result (IsRound (record { accepts = L.accepts; serves = S.serves; turns = S.turns; limits = limits.now })
        (record { acceptor = acceptor.old; service = service.old })
        (record { acceptor = acceptor.new; service = service.new })) }
    ensures end { IfErr result (λ error. HasEnded
        (record { accepts = L.accepts; serves = S.serves; turns = S.turns; limits = limits.now }) error
        (record { acceptor = acceptor.old; service = service.old })
        (record { acceptor = acceptor.new; service = service.new })) }
{
    let connection = acceptor.accept()?;
    serve_client(&mut ClientSocket::new(&connection), clock, limits, service);
    service.turn();
    Ok(())
}

/// Lets the service serve a client, and closes the connection.
fn serve_client<H: Socket + Copy, T: Timer + Copy, S: Service>(
    socket: &mut H,
    timer: T,
    limits: &Limits,
    service: &mut S,
)
    ensures { ServesAndCloses S.serves
        (record { reads = H.reads; looks = H.looks; ends_output = H.ends_output; shows = T.shows; timer = timer; limit = as_nanos limits.now.linger })
        (record {
          connection = H.number socket.old;
          peer = H.address socket.old;
          left = H.remaining socket.old;
          held = H.contents socket.old;
        }) limits.now
        (record { socket = socket.old; service = service.old }) (record { socket = socket.new; service = service.new }) }
{
    let reader = ClientReader::new(*socket, timer, limits.idle, limits.request);
    let writer = ClientWriter::new(*socket, timer, *limits);
    let close = service.serve(&mut Counting::new(reader), &mut Counting::new(writer));
    close_client(socket, close, timer, limits.linger);
}

/// Lets the connection linger if the service wants that, or if the client has sent more than was read.
fn close_client<H: Socket + Copy, T: Timer + Copy>(
    socket: &mut H,
    close: Close,
    timer: T,
    limit: Duration,
)
    ensures { Closes
        (record { reads = H.reads; looks = H.looks; ends_output = H.ends_output; shows = T.shows; timer = timer; limit = as_nanos limit })
        close socket.old socket.new }
{
    // Closing with unread bytes may lose the reply. Lingering always would hold up the next client.
    let lingers = match close {
        Close::Lingering => true,
        Close::AtOnce => socket.has_unread(),
    };
    if lingers {
        linger(socket, timer, limit);
    }
}

/// Ends the sending side, and drops what the client still sends, so that the client can read the reply before a reset arrives.
fn linger<H: Socket + Copy, T: Timer + Copy>(socket: &mut H, timer: T, limit: Duration)
    ensures { Lingers
        (record { reads = H.reads; looks = H.looks; ends_output = H.ends_output; shows = T.shows; timer = timer; limit = as_nanos limit })
        socket.old socket.new }
{
    socket.end_output();
    drop_unread(&mut Timed::new(*socket, timer), limit);
}

// The greatest number of bytes that are read after a request.
const LINGER_BYTES: usize = 1_048_576;

/// Reads until the end, a failure or the greatest number of bytes, and drops what it reads.
fn drop_unread<H: Socket, T: Timer>(timed: &mut Timed<H, T>, limit: Duration)
    ensures { DropsUnread (within H.reads T.shows (as_nanos limit)) timed.old timed.new }
{
    let mut room = LINGER_BYTES;
    while room > 0 {
        let mut buffer = [0; 8192];
        let length = room.min(8192);
        match timed.read(limit, limit, &mut buffer[..length]) {
            Ok(0) => return,
            Ok(count) => room -= count,
            Err(_) => return,
        }
    }
}
