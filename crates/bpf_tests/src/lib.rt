//! Tests of the BPF crates, from `bpf_insn` to `bpf_machine`, through their public calls. They are in a crate of their own because a crate with tests is
//! proved twice, once without them and once with them. They cover what only the libraries show, and the worked rows that specify the libraries.
//! Further rows, for the built program, are in tests/rows and tests/verdicts.
#![tactic(auto)]

#[cfg(test)]
mod codes;
#[cfg(test)]
mod flow;
#[cfg(test)]
mod frame;
#[cfg(test)]
mod insn;
#[cfg(test)]
mod kinds;
#[cfg(test)]
mod machine;
#[cfg(test)]
mod meaning;
#[cfg(test)]
mod sweep;
