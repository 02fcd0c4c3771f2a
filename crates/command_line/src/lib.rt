//! The command line: reads the arguments and carries out their request, over files, an output and an error writer that the caller passes in.
#![tactic(auto)]

// Expands to an argument: its kind, its name, what the help calls its value, and its help.
macro_rules! argument {
    ($kind:ident $name:literal $value:literal: $help:literal) => {
        $crate::argument::DeclaredArgument {
            name: $name,
            kind: $crate::argument::ArgumentKind::$kind,
            value: $value,
            help: $help,
        }
    };
}

mod address;
mod argument;
mod arguments;
mod dispatch;
mod fault;
mod flags;
pub mod laws;
mod options;
mod serve;

pub use arguments::{Subcommand, read_request, read_serve};
pub use dispatch::command;
pub use fault::ArgumentsFault;
pub use serve::Serve;
