//! Listening at an address, and serving there.
ghost use Rattle.std.specs.Prelude.{◌≡◌, ◌++◌, Result, IfErr, IfOk, OnOk, codes, ⊤};
ghost use Rattle.std.specs.Io.KnownBytes.{Appends};
ghost use Rattle.std.specs.Net.Socket.{socket_port};
ghost use Rattle.std.specs.declared.io.Error.{Error};
ghost use Rattle.std.specs.declared.net.socket_addr.SocketAddr.{SocketAddr};
ghost use Rattle.tcp_server.specs.Tally.{ServesTallied, TurnsTallied};
ghost use Rattle.extractd.specs.Listening.{IsLocalAddress, ServesAddress, announcement};

use std::io;
use std::io::Write;
use std::net::{SocketAddr, TcpStream};
use std::time::Clock;
use tcp_server::{Acceptor, Limits, Listener, Service, Tally, serve_all};

/// The network, as contracts see it.
pub trait Network {
    type Listener: Listener<Stream = TcpStream> + Drop;

    // A call of `bind`: the network before it, the address, the result, and the network after it. The contracts hold for any such relation.
    ghost binds: { Self → SocketAddr → Result Self.Listener Error → Self → Type 0 } = { λ _ _ _ _. ⊤ };

    // A call of `local_address`: the listener, and the result. The contracts hold for any such relation.
    ghost locates: { Self.Listener → Result SocketAddr Error → Type 0 } = { λ _ _. ⊤ };

    /// Listens at the address. Port 0 lets the system choose a free port.
    fn bind(&mut self, address: SocketAddr) -> io::Result<Self::Listener>
        ensures { binds self.old address result self.new };

    /// Returns the address of a listener, with the port that the system chose.
    fn local_address(&self, listener: &Self::Listener) -> io::Result<SocketAddr>
        ensures { locates listener.now result };
}

/// Why a server can't listen, or stops.
#[derive(Drop)]
pub enum ListenFault {
    /// The server can't listen at the address.
    Bind(io::Error),
    /// The port that the system chose can't be read.
    Port(io::Error),
    Output(io::Error),
    /// A connection can't be accepted.
    Accept(io::Error),
}

/// Listens at the address, announces it, and serves connections until a fault.
pub fn serve_address<N: Network, W: Write, C: Clock, S: Service + Drop>(
    network: &mut N,
    out: &mut W,
    clock: &C,
    address: SocketAddr,
    service: S,
) -> ListenFault
    ensures { ServesAddress
        (record { binds = N.binds; locates = N.locates; accepts = N.Listener.accepts; serves = ServesTallied S.serves; turns = TurnsTallied S.turns })
        address result
        (record { network = network.old; held = W.contents out.old }) service
        (record { network = network.new; held = W.contents out.new }) }
{
    let listener = match network.bind(address) {
        Ok(listener) => listener,
        Err(error) => return ListenFault::Bind(error),
    };
    let local = match local_address(network, address, &listener) {
        Ok(local) => local,
        Err(error) => return ListenFault::Port(error),
    };
    if let Err(error) = announce(out, local) {
        return ListenFault::Output(error);
    }
    ListenFault::Accept(serve_all(
        &mut Acceptor::new(listener),
        clock,
        &Limits::standard(),
        &mut Tally::new(service),
    ))
}

/// Returns the address of the listener that was bound to an address: that address, or with port 0 the one that the system tells.
fn local_address<N: Network>(
    network: &N,
    address: SocketAddr,
    listener: &N::Listener,
) -> io::Result<SocketAddr>
    ensures ok { IfOk result (IsLocalAddress N.locates address listener.now) }
    ensures err { IfErr result (λ error. (socket_port address ≡ 0) × N.locates listener.now (Err error)) }
{
    if address.port() == 0 {
        network.local_address(listener)
    } else {
        Ok(address)
    }
}

/// Announces that the server is listening at the address.
fn announce<W: Write>(out: &mut W, address: SocketAddr) -> io::Result<()>
    ensures { OnOk result (Appends (W.contents out.old) (W.contents out.new) (announcement address)) }
{
    write!(out, "listening {address}\n")?;
    out.flush()
}
