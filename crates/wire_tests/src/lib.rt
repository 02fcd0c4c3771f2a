//! Tests of the crates `wire`, `http_service` and `tcp_server` through their public calls: requests and replies over memory, then connections over
//! loopback sockets. They have a crate of their own because a crate with tests is proved twice, once without them and once with them.
#![tactic(auto)]

#[cfg(test)]
mod examples;
#[cfg(test)]
mod failures;
#[cfg(test)]
mod filter_routes;
#[cfg(test)]
mod heads;
#[cfg(test)]
mod lengths;
#[cfg(test)]
mod notation;
#[cfg(test)]
mod queries;
#[cfg(test)]
mod routes;
#[cfg(test)]
mod rows;
#[cfg(test)]
mod scripts;
#[cfg(test)]
mod sockets;
#[cfg(test)]
mod tables;
#[cfg(test)]
mod trials;
