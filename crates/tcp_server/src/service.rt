//! The service of each connection.
ghost use Rattle.std.specs.Prelude.{◌≡◌, ⊤};
ghost use Rattle.tcp_server.specs.Service.{ClientStreams, InputTerms, OutputTerms};
ghost use Rattle.tcp_server.specs.declared.service.Close.{Close};

use counted_io::{CountedRead, CountedWrite};
use std::net::SocketAddr;

/// The way to close a connection.
#[derive(Clone, Copy, PartialEq, Eq)]
pub enum Close {
    /// The request was read completely, or the reply wasn't written completely.
    AtOnce,
    /// The reply was written before the request was read completely, so the client may still be sending it.
    Lingering,
}

/// A reader of what a client sends.
pub trait ClientInput: CountedRead {
    // Whose connection it reads, within which limits, and how much was read.
    ghost input_terms: { Self → InputTerms };

    /// Returns the address of the client.
    fn peer(&self) -> SocketAddr
        ensures { result ≡ (input_terms self.now).peer };

    /// Returns the number of bytes read.
    fn received(&self) -> u64
        ensures { result ≡ (input_terms self.now).received };
}

/// A writer of what a client receives.
pub trait ClientOutput: CountedWrite {
    // Whose connection it writes, and within which limits.
    ghost output_terms: { Self → OutputTerms };
}

/// The work for each connection, and the work after it.
pub trait Service {
    // The effect of serving a client on the service and on the client's reader and writer, with the way to close the connection; and the effect of
    // a turn.
    ghost serves: { Self → ClientStreams → Close → Self → ClientStreams → Type 0 } = { λ _ _ _ _ _. ⊤ };

    ghost turns: { Self → Self → Type 0 } = { λ _ _. ⊤ };

    /// Reads one request, and writes its reply. A fault concerns only this client, and isn't propagated.
    fn serve<R: ClientInput, W: ClientOutput>(&mut self, input: &mut R, out: &mut W) -> Close
        ensures { serves
            self.old (record {
              reader = R.reader input.old;
              writer = W.writer out.old;
              input = R.input_terms input.old;
              output = W.output_terms out.old;
            })
            result self.new (record {
              reader = R.reader input.new;
              writer = W.writer out.new;
              input = R.input_terms input.new;
              output = W.output_terms out.new;
            }) };

    /// Does a piece of the work that isn't for a single client.
    fn turn(&mut self)
        ensures { turns self.old self.new };
}
