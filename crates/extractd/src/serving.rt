//! `serve`: serves counties over HTTP.
ghost use Rattle.std.specs.Prelude.{◌≡◌, ◌≢◌, false, IfErr, IfOk, map};
ghost use Rattle.std.specs.declared.alloc.Global.{Global};
ghost use Rattle.commands.specs.Counties.{AreCountiesOf, HaveRefusedCounty, IsLoadFailure, IsRefusedFileOfOne};
ghost use Rattle.commands.specs.Failure.{status};
ghost use Rattle.http_service.specs.Logged.{ServesLogged, TurnsLogged};
ghost use Rattle.tcp_server.specs.Tally.{ServesTallied, TurnsTallied};
ghost use Rattle.wire.specs.State.{counties_of, new_state};
ghost use Rattle.extractd.specs.Serving.{EndsServer, ReportsListenFault, ReportsServeFault, ServesCounties, serve_status};

mod listening;
mod log_output;

use command_line::Serve;
use commands::{Failure, UNUSABLE, load_counties};
use counted_io::{CountedWrite, Counting};
use http_service::{Logged, WallClock, read_second};
use listening::{ListenFault, Network, serve_address};
use log_output::{LogHost, LoggedNetwork};
use named_files::{Files, SystemFiles};
use reports::DiagnosticLine;
use std::alloc::Global;
use std::fmt::Write as WriteText;
use std::io;
use std::io::Write;
use std::net::SocketAddr;
use std::time::Clock;
use wire::State;

/// Why a server doesn't start, or stops.
#[derive(Drop)]
enum ServeFault<'a> {
    Counties(Failure<'a>),
    Listen {
        address: SocketAddr,
        fault: ListenFault,
    },
}

impl ServeFault<'_> {
    fn status(&self) -> u8
        ensures { result ≡ serve_status self.now }
    {
        match self {
            ServeFault::Counties(failure) => failure.status(),
            ServeFault::Listen { .. } => UNUSABLE,
        }
    }

    /// Reports the fault on one line.
    fn report<E: CountedWrite>(&self, errors: &mut E)
        ensures { ReportsServeFault self.now (E.writer errors.old) (E.writer errors.new) }
    {
        match self {
            ServeFault::Counties(failure) => failure.report(errors),
            ServeFault::Listen { address, fault } => report_fault(*address, fault, errors),
        }
    }
}

/// Reports on one line why the server can't listen at the address, or stops.
fn report_fault<E: CountedWrite>(address: SocketAddr, fault: &ListenFault, errors: &mut E)
    ensures { ReportsListenFault fault.now (E.writer errors.old) (E.writer errors.new) }
{
    match fault {
        ListenFault::Output(error) => Failure::Output(*error).report(errors),
        ListenFault::Bind(error) | ListenFault::Port(error) => {
            let mut line = DiagnosticLine::new(errors);
            let _ = write!(line, "error: {address}: {error}\n");
        }
        ListenFault::Accept(error) => {
            let mut line = DiagnosticLine::new(errors);
            let _ = write!(line, "error: no connection can be taken: {error}\n");
        }
    }
}

/// Serves the requested counties until a fault occurs, and returns the exit status.
pub fn serve<E: CountedWrite>(rt: &HostRuntime, options: &Serve<'_>, errors: &mut E) -> u8
    ensures { EndsServer result (E.writer errors.old) (E.writer errors.new) }
{
    let host = LogHost::new(rt, options.log);
    let fault = serve_counties(
        rt.alloc(),
        &mut SystemFiles::new(rt),
        &mut LoggedNetwork::new(host),
        &mut io::writer(rt),
        rt,
        Counting::new(host),
        host,
        options,
    );
    fault.report(errors);
    fault.status()
}

/// Reads the time of the start, loads the counties, and serves them at the address until a fault.
fn serve_counties<
    'a,
    F: Files,
    N: Network,
    W: Write,
    C: Clock,
    L: CountedWrite + Drop,
    T: WallClock + Drop,
>(
    alloc: Global,
    files: &mut F,
    network: &mut N,
    out: &mut W,
    clock: &C,
    log: L,
    mut timer: T,
    options: &Serve<'a>,
) -> ServeFault<'a>
    ensures serves { ServesCounties
        (record {
          opens = F.opens;
          dates = T.dates;
          timer = timer;
          listens = record {
            binds = N.binds;
            locates = N.locates;
            accepts = N.Listener.accepts;
            serves = ServesTallied (ServesLogged {A = Global}
                (record { shows = T.shows; dates = T.dates; writer_of = L.writer }));
            turns = TurnsTallied (TurnsLogged {A = Global} {W = L} {T = T});
          };
        })
        (record {
          folder = options.now.«data».now;
          codes = map (λ code. code.now) options.now.codes.items;
          address = options.now.address;
          known = (F.disk files.old).known;
        })
        result
        (record {
          disk = F.disk files.old;
          outside = record { network = network.old; held = W.contents out.old };
        })
        (record {
          disk = F.disk files.new;
          outside = record { network = network.new; held = W.contents out.new };
        }) }
    ensures status { (serve_status result ≢ 0) × (serve_status result ≢ 2) }
{
    // Before the counties are loaded, as the process starts now.
    let start = read_second(&mut timer);
    match load_state(alloc, files, start, options) {
        Ok(state) => ServeFault::Listen {
            address: options.address,
            fault: serve_address(
                network,
                out,
                clock,
                options.address,
                Logged::new(state, log, timer),
            ),
        },
        Err(failure) => ServeFault::Counties(failure),
    }
}

/// Loads the counties of all codes, in order, into a state without jobs, in a process that started at this second. Returns the failure of the first
/// one that can't be loaded.
fn load_state<'a, F: Files>(
    alloc: Global,
    files: &mut F,
    start: Option<u64>,
    options: &Serve<'a>,
) -> Result<State<Global>, Failure<'a>>
    ensures ok { IfOk result (λ state. (state ≡ new_state (map (λ code. code.now) options.now.codes.items) (counties_of state) start)
        × AreCountiesOf false (F.disk files.old).known options.now.«data».now (map (λ code. code.now) options.now.codes.items) (counties_of state)) }
    ensures err { IfErr result (IsLoadFailure F.opens
        (HaveRefusedCounty false (F.disk files.old).known options.now.«data».now (map (λ code. code.now) options.now.codes.items))
        (IsRefusedFileOfOne options.now.«data».now (map (λ code. code.now) options.now.codes.items))
        (F.disk files.old) (F.disk files.new)) }
    ensures usage { IfErr result (λ failure. status failure ≢ 2) }
{
    match load_counties(alloc, files, options.data, options.codes.as_slice(), false) {
        Ok(counties) => {
            let codes = options.codes.as_slice();
            Ok(State::with_codes(alloc, alloc, counties, codes, start)?)
        }
        Err(failure) => Err(failure),
    }
}
