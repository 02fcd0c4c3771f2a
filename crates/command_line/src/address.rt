//! The address of a server, from the options of `serve`.
ghost use Rattle.std.specs.Prelude.{◌≡◌, IfErr, MatchResult, None, Some};
ghost use Rattle.command_line.specs.Address.{IsAddress, IsAddressFault, IsHost, IsHostFault, IsPortFault, port_of};
ghost use Rattle.command_line.specs.Values.{Reads, port_in, rows_in};
ghost use Rattle.command_line.specs.declared.fault.ArgumentsFault.TheVariants as ArgumentsFault;

use crate::fault::ArgumentsFault;
use crate::flags::is_given;
use crate::options::value_or;
use clap::ArgMatches;
use numerals::are_digits;
use std::net::{IpAddr, SocketAddr};

/// Returns the address at which to listen.
pub fn address<'a>(matches: &ArgMatches<'a>) -> Result<SocketAddr, ArgumentsFault<'a>>
    ensures read { Reads (IsAddress (rows_in matches.now)) result }
    ensures fault { IfErr result (IsAddressFault (rows_in matches.now)) }
{
    Ok(SocketAddr::new(host(matches)?, port(matches)?))
}

/// Returns the IP address of `--host`, or else 127.0.0.1.
fn host<'a>(matches: &ArgMatches<'a>) -> Result<IpAddr, ArgumentsFault<'a>>
    ensures read { Reads (IsHost (rows_in matches.now)) result }
    ensures fault { IfErr result (IsHostFault (rows_in matches.now)) }
{
    let text = value_or(matches, "host", "127.0.0.1");
    let Ok(host) = text.parse::<IpAddr>() else {
        return Err(ArgumentsFault::Host(text));
    };
    // A server that knows no users shouldn't be opened to other machines by mistake.
    if host.is_loopback() || is_given(matches, "public") {
        Ok(host)
    } else {
        Err(ArgumentsFault::NotLoopback(text))
    }
}

/// Returns the port of `--port`, or 0 for `--any-port`.
#[tactic(auto, using(crate::proofs::ValueLemmas::first_value_in))]
fn port<'a>(matches: &ArgMatches<'a>) -> Result<u16, ArgumentsFault<'a>>
    ensures { MatchResult result (λ port. port_of (rows_in matches.now) ≡ Some port)
        (λ fault. (port_of (rows_in matches.now) ≡ None) × IsPortFault (rows_in matches.now) fault) }
{
    match (is_given(matches, "any-port"), matches.get_str("port")) {
        (true, None) => Ok(0),
        (true, Some(_text)) => Err(ArgumentsFault::TwoPorts),
        (false, Some(text)) => port_number(text),
        (false, None) => Err(ArgumentsFault::Missing("--port or --any-port")),
    }
}

/// Returns the port with this number, 1 to 65535.
fn port_number<'a>(text: &'a str) -> Result<u16, ArgumentsFault<'a>>
    ensures { MatchResult result (λ port. port_in text.now ≡ Some port)
        (λ fault. (port_in text.now ≡ None) × (fault ≡ ArgumentsFault.Port text.entry)) }
{
    if !are_digits(text.as_bytes()) {
        return Err(ArgumentsFault::Port(text));
    }
    match text.parse() {
        Ok(port) if port > 0 => Ok(port),
        _ => Err(ArgumentsFault::Port(text)),
    }
}
