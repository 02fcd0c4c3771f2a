//! Sockets, as contracts see them.
//!
//! A call is a relation of which nothing is assumed, so contracts say which calls are made, in which order and within which limits. Counts alone
//! would be satisfied by a server that drops every second connection.
ghost use Rattle.std.specs.Prelude.{◌≡◌, ℕ, Bool, List, Option, None, ⊤};
ghost use Rattle.std.specs.Duration.{as_nanos};
ghost use Rattle.std.specs.Io.{ReadsAtMost, WritesAtMost};
ghost use Rattle.std.specs.Io.KnownBytes.{ReadConsumes, WriteAppends};
ghost use Rattle.std.specs.declared.net.socket_addr.SocketAddr.{SocketAddr};
ghost use Rattle.tcp_server.specs.Socket.{Call};

use std::io;
use std::net::SocketAddr;
use std::time::Duration;

/// A handle of a client's socket. No read or write waits without a limit.
pub trait Socket {
    // The number of the connection, and the address of the client.
    ghost number: { Self → ℕ };

    ghost address: { Self → SocketAddr };

    // The bytes that the client has sent and that are still to be read, and the bytes written to it, if they are known.
    ghost remaining: { Self → Option (List ℕ) } = { λ _. None };

    ghost contents: { Self → Option (List ℕ) } = { λ _. None };

    // Each call: the handle before it, the call with its result, and the handle after it. The contracts of the server hold for any such relations.
    ghost reads: { Self → Call → Self → Type 0 } = { λ _ _ _. ⊤ };

    ghost writes: { Self → Call → Self → Type 0 } = { λ _ _ _. ⊤ };

    ghost looks: { Self → Bool → Self → Type 0 } = { λ _ _ _. ⊤ };

    ghost ends_output: { Self → Self → Type 0 } = { λ _ _. ⊤ };

    /// Returns the address of the client.
    fn peer(&self) -> SocketAddr
        ensures { result ≡ address self.now };

    /// Reads once. Fails with `TimedOut` if no byte has come after `wait`.
    fn read_within(&mut self, wait: Duration, buf: &mut [u8]) -> io::Result<usize>
        ensures bound { ReadsAtMost result buf.new }
        ensures bytes { ReadConsumes (remaining self.old) (remaining self.new) result buf.new }
        ensures call { reads self.old (record { wait = as_nanos wait; buffer = buf.new; result = result }) self.new };

    /// Writes once. Fails with `TimedOut` if no byte was taken after `wait`.
    fn write_within(&mut self, wait: Duration, buf: &[u8]) -> io::Result<usize>
        ensures bound { WritesAtMost result buf.now }
        ensures bytes { WriteAppends (contents self.old) (contents self.new) result buf.now }
        ensures call { writes self.old (record { wait = as_nanos wait; buffer = buf.now; result = result }) self.new };

    /// Returns whether the client has sent bytes that weren't read. Doesn't wait.
    fn has_unread(&mut self) -> bool
        ensures { looks self.old result self.new };

    /// Ends the sending side. A failure isn't reported: the client is gone.
    fn end_output(&mut self)
        ensures { ends_output self.old self.new };
}
