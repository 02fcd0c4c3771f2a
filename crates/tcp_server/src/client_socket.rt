//! The system's sockets.
ghost use Rattle.std.specs.Prelude.{◌≡◌, None, Some, true, OnOk};
ghost use Rattle.std.specs.Io.{ReadsAtMost, WritesAtMost};
ghost use Rattle.std.specs.Io.KnownBytes.{ReadConsumes, WriteAppends};

use crate::acceptor::Connection;
use crate::socket::Socket;
use std::io;
use std::io::{ErrorKind, Read, Write};
use std::net::{Shutdown, SocketAddr, TcpStream};
use std::time::Duration;

/// A handle of an accepted TCP connection.
#[derive(Clone, Copy)]
pub struct ClientSocket<'a> {
    stream: &'a TcpStream,
    number: u64,
    peer: SocketAddr,
    // The timeouts and the mode that the socket has now. Each change costs a system call.
    read_timeout: Option<Duration>,
    write_timeout: Option<Duration>,
    is_blocking: bool,
}

impl<'a> ClientSocket<'a> {
    pub fn new(connection: &'a Connection<TcpStream>) -> Self
        ensures number { result.number ≡ connection.now.number }
        ensures peer { result.peer ≡ connection.now.peer }
    {
        ClientSocket {
            stream: &connection.stream,
            number: connection.number,
            peer: connection.peer,
            read_timeout: None,
            write_timeout: None,
            is_blocking: true,
        }
    }

    fn set_blocking(&mut self) -> io::Result<()>
        ensures set { OnOk result (self.new.is_blocking ≡ true) }
        ensures timeout { self.new.read_timeout ≡ self.old.read_timeout }
    {
        if !self.is_blocking {
            self.stream.set_nonblocking(false)?;
            self.is_blocking = true;
        }
        Ok(())
    }

    fn set_read_timeout(&mut self, timeout: Duration) -> io::Result<()>
        ensures set { OnOk result (self.new.read_timeout ≡ Some timeout) }
        ensures blocking { self.new.is_blocking ≡ self.old.is_blocking }
    {
        if self.read_timeout != Some(timeout) {
            self.stream.set_read_timeout(Some(timeout))?;
            self.read_timeout = Some(timeout);
        }
        Ok(())
    }

    fn set_write_timeout(&mut self, timeout: Duration) -> io::Result<()>
        ensures { OnOk result (self.new.write_timeout ≡ Some timeout) }
    {
        if self.write_timeout != Some(timeout) {
            self.stream.set_write_timeout(Some(timeout))?;
            self.write_timeout = Some(timeout);
        }
        Ok(())
    }
}

impl Socket for ClientSocket<'_> {
    ghost number = { λ s. s.number };

    ghost address = { λ s. s.peer };

    fn peer(&self) -> SocketAddr
        ensures { result ≡ self.now.peer }
    {
        self.peer
    }

    fn read_within(&mut self, wait: Duration, buf: &mut [u8]) -> io::Result<usize>
        ensures bound { ReadsAtMost result buf.new }
        ensures bytes { ReadConsumes None None result buf.new }
        ensures blocking { OnOk result (self.new.is_blocking ≡ true) }
        ensures timeout { OnOk result (self.new.read_timeout ≡ Some wait) }
    {
        self.set_blocking()?;
        self.set_read_timeout(wait)?;
        let mut stream = self.stream;
        stream.read(buf).map_err(timed_out_if_waited)
    }

    fn write_within(&mut self, wait: Duration, buf: &[u8]) -> io::Result<usize>
        ensures bound { WritesAtMost result buf.now }
        ensures bytes { WriteAppends None None result buf.now }
        ensures timeout { OnOk result (self.new.write_timeout ≡ Some wait) }
    {
        // The socket blocks here: only `has_unread` changes that, after the reply.
        self.set_write_timeout(wait)?;
        let mut stream = self.stream;
        // std sends without raising a signal, so a connection that was closed is an error.
        stream.write(buf).map_err(timed_out_if_waited)
    }

    // Closing a socket with unread bytes resets the connection, and the client can then lose the reply.
    fn has_unread(&mut self) -> bool {
        // One look without a wait, so that a client that leaves its side open doesn't hold the server.
        if self.stream.set_nonblocking(true).is_err() {
            return false;
        }
        self.is_blocking = false;
        self.stream.peek(&mut [0]).is_ok_and(|count| count > 0)
    }

    fn end_output(&mut self) {
        let _ = self.stream.shutdown(Shutdown::Write);
    }
}

// A call that has waited for its timeout fails with `WouldBlock`.
fn timed_out_if_waited(error: io::Error) -> io::Error {
    match error.kind() {
        ErrorKind::WouldBlock => io::Error::from(ErrorKind::TimedOut),
        _ => error,
    }
}
