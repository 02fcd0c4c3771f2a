//! Listeners.
ghost use Rattle.std.specs.Prelude.{Result, ⊤};
ghost use Rattle.std.specs.declared.io.Error.{Error};
ghost use Rattle.std.specs.declared.net.socket_addr.SocketAddr.{SocketAddr};

use std::io;
use std::net::{OpenListener, SocketAddr, TcpListener, TcpStream};

/// A listener, as contracts see it: the system's, or a reference to any of std's.
pub trait Listener {
    type Stream: Drop;

    // An accept: the listener before it, its result, and the listener after it. The contracts of the server hold for any such relation.
    ghost accepts: { Self → Result (Self.Stream × SocketAddr) Error → Self → Type 0 } = { λ _ _ _. ⊤ };

    /// Accepts once, and returns the stream with the address of the client.
    fn accept(&mut self) -> io::Result<(Self::Stream, SocketAddr)>
        ensures { accepts self.old result self.new };
}

impl<L: OpenListener> Listener for &L {
    type Stream = L::Stream;

    fn accept(&mut self) -> io::Result<(L::Stream, SocketAddr)> {
        OpenListener::accept(*self)
    }
}

impl Listener for TcpListener {
    type Stream = TcpStream;

    fn accept(&mut self) -> io::Result<(TcpStream, SocketAddr)> {
        TcpListener::accept(self)
    }
}
