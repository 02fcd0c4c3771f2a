//! Counting the work of a service.
ghost use Rattle.std.specs.Prelude.{◌≡◌};

use crate::service::{ClientInput, ClientOutput, Close, Service};
use counted_io::count_one;
use std::marker::Model;

/// Any service, with the number of connections that it served and the number of turns that it made.
///
/// Nothing else changes the counts, which begin at 0 and wrap at 2^64. A contract that names them therefore says that the service did its work,
/// even if that work may leave the service unchanged.
#[derive(Drop)]
pub struct Tally<S> {
    service: S,
    served: u64,
    turns: u64,
}

impl<S> Model for Tally<S> {
    ghost use Rattle.tcp_server.specs.Tally.{Tallied, tallied_code};

    ghost Value = { Tallied S };

    ghost coded = { tallied_code S.code };

    ghost view = { λ t. record { service = t.service; served = t.served; turns = t.turns } };
}

impl<S> Tally<S> {
    /// Wraps a service, with both counts at 0.
    pub fn new(service: S) -> Self
        ensures { result ≡ record { service = service; served = 0; turns = 0 } }
    {
        Tally {
            service,
            served: 0,
            turns: 0,
        }
    }

    /// Returns the number of connections served, modulo 2^64.
    pub fn served(&self) -> u64
        ensures { result ≡ self.now.served }
    {
        self.served
    }

    /// Returns the number of turns made, modulo 2^64.
    pub fn turns(&self) -> u64
        ensures { result ≡ self.now.turns }
    {
        self.turns
    }
}

impl<S: Service> Service for Tally<S> {
    ghost use Rattle.tcp_server.specs.Tally.{ServesTallied, TurnsTallied};

    ghost serves = { ServesTallied S.serves };

    ghost turns = { TurnsTallied S.turns };

    fn serve<R: ClientInput, W: ClientOutput>(&mut self, input: &mut R, out: &mut W) -> Close {
        count_one(&mut self.served);
        self.service.serve(input, out)
    }

    fn turn(&mut self) {
        count_one(&mut self.turns);
        self.service.turn();
    }
}
