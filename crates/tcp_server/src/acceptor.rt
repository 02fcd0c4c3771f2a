//! Accepting connections one by one.
ghost use Rattle.std.specs.Prelude.{◌≡◌, MatchResult};
ghost use Rattle.tcp_server.specs.Acceptor.{AcceptsConnection, FailsToAccept, is_transient};

use crate::listener::Listener;
use std::io;
use std::io::ErrorKind;
use std::net::SocketAddr;

/// Accepts connections at a listener, and counts the accepts that it makes, whatever their results.
#[derive(Drop)]
pub struct Acceptor<L> {
    listener: L,
    attempts: u64,
}

/// An accepted connection, numbered by the accept that returned it.
#[derive(Drop)]
pub struct Connection<S> {
    pub stream: S,
    /// The address of the client.
    pub peer: SocketAddr,
    pub number: u64,
}

impl<L: Listener> Acceptor<L> {
    /// Returns an acceptor that has made no accept yet.
    pub fn new(listener: L) -> Self
        ensures { result ≡ record { listener = listener; attempts = 0 } }
    {
        Acceptor {
            listener,
            attempts: 0,
        }
    }

    /// Accepts the next connection. Skips accepts that failed for a single connection or because of a signal. After 2^64 - 1 accepts it fails.
    pub(crate) fn accept(&mut self) -> io::Result<Connection<L::Stream>>
        ensures { MatchResult result
            (λ connection. AcceptsConnection L.accepts connection self.old self.new)
            (λ error. FailsToAccept L.accepts error self.old self.new) }
    {
        loop {
            // No two connections have the same number.
            if self.attempts == u64::MAX {
                return Err(io::Error::from(ErrorKind::Other));
            }
            self.attempts += 1;
            match self.listener.accept() {
                Ok((stream, peer)) => {
                    return Ok(Connection {
                        stream,
                        peer,
                        number: self.attempts,
                    });
                }
                Err(error) => {
                    if !is_transient(error.kind()) {
                        return Err(error);
                    }
                }
            }
        }
    }
}

/// An accept that failed in this way concerns one connection only, or a signal: the next one can succeed.
fn is_transient(kind: ErrorKind) -> bool
    ensures { result ≡ is_transient kind }
{
    matches!(kind, ErrorKind::ConnectionAborted | ErrorKind::Interrupted)
}
