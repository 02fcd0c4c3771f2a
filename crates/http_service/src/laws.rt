//! Laws over the definitions, as contracts of functions that do nothing.
ghost use Rattle.std.specs.Prelude.{List};
ghost use Rattle.http_service.specs.Logged.{ServesLogged, TurnsLogged};
ghost use Rattle.http_service.specs.declared.logged.Logged.{Logged};
ghost use Rattle.tcp_server.specs.Repeats.{HasRepeated};
ghost use Rattle.tcp_server.specs.Rounds.{IsRound, Server};
ghost use Rattle.tcp_server.specs.Tally.{ServesTallied, Tallied, TurnsTallied};
ghost use Rattle.tcp_server.specs.declared.limits.Limits.{Limits};
ghost use Rattle.wire.specs.Event.{Act, AreActs};

use crate::logging::WallClock;
use counted_io::CountedWrite;
use tcp_server::Listener;

/// A server changes the program's state only by replies to requests, by counting them, and by turns of jobs. `laws::requests` and
/// `laws::isolation` of the crate `wire` say what each client gets.
pub fn acts<L: Listener, A, W: CountedWrite, T: WallClock>()
    ensures { (limits : Limits) (old new : Server L (Tallied (Logged A W T)))
        → HasRepeated (IsRound (record {
          accepts = L.accepts;
          serves = ServesTallied (ServesLogged (record { shows = T.shows; dates = T.dates; writer_of = W.writer }));
          turns = TurnsTallied TurnsLogged;
          limits = limits;
        })) old new
        → (acts : List Act) × AreActs old.service.service.state acts new.service.service.state }
{}
