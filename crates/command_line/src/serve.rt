//! What `serve` serves, and where.
ghost use Rattle.std.specs.Prelude.{◌≤◌, vec_len};

use std::net::SocketAddr;

/// The arguments of `serve`.
#[derive(Drop)]
pub struct Serve<'a> {
    /// The folder of the county files.
    pub data: &'a str,
    /// The address to listen at. Port 0 takes a free port.
    pub address: SocketAddr,
    /// Whether to write a line to standard error for each connection.
    pub log: bool,
    /// The counties' codes, five digits each: the state, then the county within it.
    pub codes: Vec<&'a str>,
    // The maximum number of counties that a server takes.
    ghost few: { vec_len codes ≤ 100_000 },
}
