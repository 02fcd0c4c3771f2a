//! A service, a client and a clock.
use counted_io::{CountedRead, CountedWrite};
use fixtures::{TableFault, error_kind, size};
use std::cell::Cell;
use std::io;
use std::io::{ErrorKind, Read, Write};
use std::net::{Shutdown, TcpStream};
use std::time::{Clock, Duration};
use tcp_server::{ClientInput, ClientOutput, Close, Limits, Service};

/// Returns the fault in a cell: `none`, `end` for the end of the input, or a kind of error.
pub fn fault_in(cell: &str) -> Result<Option<ErrorKind>, TableFault> {
    match cell {
        "none" => Ok(None),
        "end" => Ok(Some(ErrorKind::UnexpectedEof)),
        _ => Ok(Some(error_kind(cell)?)),
    }
}

/// A request and a reply of given lengths, and the number of bytes that a read or a write takes.
#[derive(Clone, Copy)]
pub struct Exchange {
    pub request: usize,
    pub per_read: usize,
    pub reply: usize,
    pub per_write: usize,
    pub close: Close,
}

impl Exchange {
    /// Returns the exchange with these numbers, closed at once: the bytes of the request and per read, and those of the reply and per write.
    pub fn new(cells: [&str; 4]) -> Result<Self, TableFault> {
        let [request, per_read, reply, per_write] = cells;
        Ok(Exchange {
            request: size(request)?,
            per_read: size(per_read)?,
            reply: size(reply)?,
            per_write: size(per_write)?,
            close: Close::AtOnce,
        })
    }
}

/// Returns the way to close a connection, by its word.
pub fn close_of(word: &str) -> Result<Close, TableFault> {
    match word {
        "at once" => Ok(Close::AtOnce),
        "lingering" => Ok(Close::Lingering),
        _ => Err(TableFault::Word),
    }
}

/// A service that serves the same exchange each time, and records the result of the last one.
#[derive(Drop)]
pub struct Exchanges<'a> {
    exchange: Exchange,
    /// The text that replies are made of.
    text: &'a [u8],
    pub read: usize,
    pub written: usize,
    pub fault: Option<ErrorKind>,
    pub served: u64,
    pub turns: u64,
}

impl<'a> Exchanges<'a> {
    pub fn new(exchange: Exchange, text: &'a [u8]) -> Self {
        Exchanges {
            exchange,
            text,
            read: 0,
            written: 0,
            fault: None,
            served: 0,
            turns: 0,
        }
    }

    fn read_request<R: CountedRead>(&mut self, reader: &mut R) -> io::Result<()> {
        let mut piece = [0; 4096];
        for _ in 0..u64::MAX {
            let missing = self.exchange.request.saturating_sub(self.read);
            if missing == 0 {
                break;
            }
            let room = missing.min(self.exchange.per_read).min(4096);
            match reader.read_counted(&mut piece[..room])? {
                0 => return Err(io::Error::from(ErrorKind::UnexpectedEof)),
                count => self.read = self.read.wrapping_add(count),
            }
        }
        Ok(())
    }

    fn write_reply<W: CountedWrite>(&mut self, writer: &mut W) -> io::Result<()> {
        for _ in 0..u64::MAX {
            let missing = self.exchange.reply.saturating_sub(self.written);
            if missing == 0 {
                break;
            }
            let count = missing.min(self.exchange.per_write).min(self.text.len());
            let taken = writer.write_counted(&self.text[..count])?;
            self.written = self.written.wrapping_add(taken);
        }
        Ok(())
    }

    fn exchange<R: CountedRead, W: CountedWrite>(
        &mut self,
        reader: &mut R,
        writer: &mut W,
    ) -> io::Result<()> {
        self.read_request(reader)?;
        self.write_reply(writer)
    }
}

impl Service for Exchanges<'_> {
    fn serve<R: ClientInput, W: ClientOutput>(&mut self, reader: &mut R, writer: &mut W) -> Close {
        self.served = self.served.wrapping_add(1);
        self.read = 0;
        self.written = 0;
        self.fault = match self.exchange(reader, writer) {
            Ok(()) => None,
            Err(error) => Some(error.kind()),
        };
        self.exchange.close
    }

    fn turn(&mut self) {
        self.turns = self.turns.wrapping_add(1);
    }
}

/// A clock that advances by a fixed number of milliseconds with each reading.
#[derive(Drop)]
pub struct SteppingClock {
    step: u64,
    now: Cell<u64>,
}

impl SteppingClock {
    pub fn new(step: u64) -> Self {
        SteppingClock {
            step,
            now: Cell::new(0),
        }
    }

    /// Returns the number of milliseconds that have elapsed.
    pub fn elapsed(&self) -> u64 {
        self.now.get()
    }
}

impl Clock for SteppingClock {
    fn monotonic(&self) -> io::Result<Duration> {
        let now = self.now.get();
        self.now.set(now.wrapping_add(self.step));
        Ok(Duration::from_millis(now))
    }

    fn since_1970(&self) -> io::Result<Duration> {
        Err(io::Error::from(ErrorKind::Unsupported))
    }
}

/// Returns limits short enough for a test to wait for.
pub fn short_limits() -> Limits {
    Limits {
        idle: Duration::from_millis(200),
        request: Duration::from_millis(500),
        reply: Duration::from_millis(200),
        linger: Duration::from_millis(200),
    }
}

/// Sends `count` bytes, or as many as the system takes without waiting.
pub fn send(client: &TcpStream, count: usize) -> io::Result<()> {
    client.set_nonblocking(true)?;
    let mut stream = client;
    let mut unsent = count;
    for _ in 0..u64::MAX {
        let piece = &[b'q'; 4096][..unsent.min(4096)];
        if piece.is_empty() {
            break;
        }
        match stream.write(piece) {
            Ok(taken) => unsent = unsent.saturating_sub(taken),
            Err(error) if error.kind() == ErrorKind::WouldBlock => break,
            Err(error) => return Err(error),
        }
    }
    client.set_nonblocking(false)
}

/// Returns the number of bytes that a client got up to the end, and the fault that it ended with, if any.
pub fn receive(client: &TcpStream) -> (usize, Option<ErrorKind>) {
    let mut stream = client;
    let mut piece = [0; 4096];
    let mut received = 0usize;
    for _ in 0..u64::MAX {
        match stream.read(&mut piece) {
            Ok(0) => return (received, None),
            Ok(count) => received = received.wrapping_add(count),
            Err(error) => return (received, Some(error.kind())),
        }
    }
    (received, None)
}

/// What a client does after it has sent its bytes.
#[derive(Clone, Copy)]
pub enum Then {
    /// It keeps its side of the connection open.
    Stays,
    /// It closes its side.
    Ends,
    /// It closes the connection.
    Leaves,
}

impl Then {
    /// Returns what a client does, by its word.
    pub fn new(word: &str) -> Result<Self, TableFault> {
        match word {
            "stays" => Ok(Then::Stays),
            "ends" => Ok(Then::Ends),
            "leaves" => Ok(Then::Leaves),
            _ => Err(TableFault::Word),
        }
    }
}

/// Sends `count` bytes, then stays, ends its side or leaves. Returns `None` for a client that leaves.
pub fn client_that(client: TcpStream, count: usize, then: Then) -> io::Result<Option<TcpStream>> {
    // No test waits for its own client longer than this.
    client.set_read_timeout(Some(Duration::from_secs(5)))?;
    send(&client, count)?;
    match then {
        Then::Stays => Ok(Some(client)),
        Then::Ends => {
            client.shutdown(Shutdown::Write)?;
            Ok(Some(client))
        }
        Then::Leaves => Ok(None),
    }
}
