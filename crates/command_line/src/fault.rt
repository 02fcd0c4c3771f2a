//! Faults in the arguments of a command line.
ghost use Rattle.std.specs.Prelude.{◌≡◌, ◌≢◌};
ghost use Rattle.std.specs.IoError.{error_kind};
ghost use Rattle.std.specs.declared.io.ErrorKind.TheVariants as io_kind;
ghost use Rattle.commands.specs.Failure.{ReportsMemory, ReportsText};
ghost use Rattle.clap.specs.Values.{kind_of};
ghost use Rattle.clap.specs.declared.error.kind.ErrorKind.TheVariants as usage_kind;
ghost use Rattle.command_line.specs.Fault.{ReportsNotUtf8};
ghost use Rattle.command_line.specs.declared.fault.ArgumentsFault.TheVariants.{Filter, Layer, Memory, NotUtf8, Usage};
ghost use Rattle.filters.specs.OptionsFault as options_fault;
ghost use Rattle.filters.specs.declared.options_fault.FilterOptionsFault.{FilterOptionsFault};
ghost use Rattle.layers.specs.LayerFault as layer_fault;
ghost use Rattle.layers.specs.declared.layer_fault.LayerFault.{LayerFault};
ghost use Rattle.layers.specs.declared.layer_fault.LayerFault.TheVariants as layer;

use clap::error::ErrorKind as UsageKind;
use commands::{Failure, OUT_OF_MEMORY, USAGE};
use counted_io::{CountedWrite, write_text};
use filters::FilterOptionsFault;
use layers::LayerFault;
use reports::{DiagnosticLine, write_broken_rule};
use std::alloc::{AllocError, AllocFailed};
use std::fmt::Write;
use std::io::ErrorKind;
use std::{fmt, io};
use tl_segments::NAME_LENGTH;

/// The maximum number of counties in a command line.
pub(crate) const CODE_LIMIT: usize = 100_000;

/// Why the arguments don't form a request.
#[derive(Drop)]
pub enum ArgumentsFault<'a> {
    /// An argument isn't UTF-8.
    NotUtf8,
    /// A syntax error or a call for help. The error prints the text for the user.
    Usage(clap::Error),
    /// The argument of this name is missing.
    Missing(&'static str),
    /// This county code isn't five digits.
    Code(&'a str),
    /// This number of counties is over the limit.
    TooManyCodes(usize),
    /// The option's value isn't 1 to `most_digits` digits.
    Number {
        name: &'static str,
        most_digits: usize,
        text: &'a str,
    },
    /// This name isn't 1 to 30 characters.
    Name(&'a str),
    /// An option of the filter has a wrong value.
    Filter(FilterOptionsFault<'a>),
    /// The options choose no layer.
    Layer(LayerFault<'a>),
    /// This port isn't 1 to 65535.
    Port(&'a str),
    /// Both a port and any free one are requested.
    TwoPorts,
    /// This isn't an IP address.
    Host(&'a str),
    /// This IP address isn't a loopback address, and `--public` is missing.
    NotLoopback(&'a str),
    /// `serve`, which is not a command over files.
    Serve,
    Memory,
}

impl ArgumentsFault<'_> {
    /// Returns 4 for a failed allocation, and 2 otherwise.
    pub fn status(&self) -> u8
        ensures usage { self.now ≢ ArgumentsFault.Memory → result ≡ 2 }
        ensures memory { self.now ≡ ArgumentsFault.Memory → result ≡ 4 }
        ensures only { result ≡ 4 → self.now ≡ ArgumentsFault.Memory }
    {
        match self {
            ArgumentsFault::Memory => OUT_OF_MEMORY,
            // Also for `--help`: status 0 means that the requested output was written.
            _ => USAGE,
        }
    }

    /// Reports the fault on `errors`, up to the first write that fails or writes 0 bytes.
    pub fn report<E: CountedWrite>(&self, errors: &mut E)
        ensures memory { self.now ≡ ArgumentsFault.Memory
            → ReportsMemory (E.writer errors.old) (E.writer errors.new) }
        ensures not_utf8 { self.now ≡ ArgumentsFault.NotUtf8
            → ReportsNotUtf8 (E.writer errors.old) (E.writer errors.new) }
        ensures filter { (fault : FilterOptionsFault) → self.now ≡ ArgumentsFault.Filter fault
            → ReportsText (options_fault.line fault) (E.writer errors.old) (E.writer errors.new) }
        ensures layer { (fault : LayerFault) → self.now ≡ ArgumentsFault.Layer fault
            → ReportsText (layer_fault.line fault) (E.writer errors.old) (E.writer errors.new) }
    {
        match self {
            ArgumentsFault::Memory => Failure::Memory.report(errors),
            ArgumentsFault::NotUtf8 => {
                let _ = write_text(errors, b"error: an argument isn't UTF-8\n");
            }
            ArgumentsFault::Port(text) => {
                let _ = write_broken_rule(errors, "port is 1 to 65535", text);
            }
            ArgumentsFault::Host(text) => {
                let _ = write_broken_rule(errors, "host is an IP address", text);
            }
            ArgumentsFault::Filter(fault) => {
                let _ = fault.write_line(errors);
            }
            ArgumentsFault::Layer(fault) => {
                let _ = fault.write_line(errors);
            }
            _ => {
                let _ = self.write_report(&mut DiagnosticLine::new(errors));
            }
        }
    }

    /// Writes the report of a fault that has no writer of its own.
    fn write_report<E: CountedWrite>(&self, line: &mut DiagnosticLine<'_, E>) -> fmt::Result {
        match self {
            ArgumentsFault::Usage(error) => write!(line, "{error}"),
            ArgumentsFault::Missing(name) => write!(line, "error: {name} is missing\n"),
            ArgumentsFault::Code(code) => {
                write!(line, "error: CODE is five digits")?;
                end_with_value(line, code)
            }
            ArgumentsFault::TooManyCodes(count) => {
                write!(
                    line,
                    "error: {CODE_LIMIT} CODEs are taken at most, and {count} are given\n"
                )
            }
            ArgumentsFault::Number {
                name,
                most_digits,
                text,
            } => {
                write!(line, "error: --{name} is 1 to {most_digits} digits")?;
                end_with_value(line, text)
            }
            ArgumentsFault::Name(name) => {
                write!(line, "error: --name is 1 to {NAME_LENGTH} characters")?;
                end_with_value(line, name)
            }
            ArgumentsFault::TwoPorts => {
                write!(
                    line,
                    "error: --port and --any-port can't be used together\n"
                )
            }
            ArgumentsFault::NotLoopback(text) => {
                write!(line, "error: --host ")?;
                line.echo(text)?;
                write!(line, " needs --public, which lets other machines connect\n")
            }
            ArgumentsFault::Serve => write!(line, "error: serve needs a socket\n"),
            _ => Ok(()),
        }
    }
}

/// Ends a line with the value that was given.
fn end_with_value<E: CountedWrite>(line: &mut DiagnosticLine<'_, E>, text: &str) -> fmt::Result {
    write!(line, ", and \"")?;
    line.echo(text)?;
    write!(line, "\" isn't\n")
}

// The system fails to read the arguments if one isn't UTF-8 or if memory runs out.
impl From<io::Error> for ArgumentsFault<'_> {
    ghost from_gives = { λ error fault. (error_kind error ≡ io_kind.OutOfMemory → fault ≡ Memory)
        × (error_kind error ≢ io_kind.OutOfMemory → fault ≡ NotUtf8) };

    fn from(error: io::Error) -> Self {
        match error.kind() {
            ErrorKind::OutOfMemory => ArgumentsFault::Memory,
            _ => ArgumentsFault::NotUtf8,
        }
    }
}

impl From<clap::Error> for ArgumentsFault<'_> {
    ghost from_gives = { λ error fault. (kind_of error ≡ usage_kind.OutOfMemory → fault ≡ Memory)
        × (kind_of error ≢ usage_kind.OutOfMemory → fault ≡ Usage error) };

    fn from(error: clap::Error) -> Self {
        match error.kind() {
            UsageKind::OutOfMemory => ArgumentsFault::Memory,
            _ => ArgumentsFault::Usage(error),
        }
    }
}

impl<'a> From<FilterOptionsFault<'a>> for ArgumentsFault<'a> {
    ghost from_gives = { λ options fault. fault ≡ Filter options };

    fn from(fault: FilterOptionsFault<'a>) -> Self {
        ArgumentsFault::Filter(fault)
    }
}

impl<'a> From<LayerFault<'a>> for ArgumentsFault<'a> {
    ghost from_gives = { λ of fault. (of ≡ layer.Memory → fault ≡ Memory)
        × (of ≢ layer.Memory → fault ≡ Layer of) };

    fn from(fault: LayerFault<'a>) -> Self {
        match fault {
            LayerFault::Memory => ArgumentsFault::Memory,
            _ => ArgumentsFault::Layer(fault),
        }
    }
}

impl From<AllocError> for ArgumentsFault<'_> {
    ghost from_gives = { λ _ fault. fault ≡ Memory };

    fn from(_error: AllocError) -> Self {
        ArgumentsFault::Memory
    }
}

impl<T: Drop> From<AllocFailed<T>> for ArgumentsFault<'_> {
    ghost from_gives = { λ _ fault. fault ≡ Memory };

    fn from(_error: AllocFailed<T>) -> Self {
        ArgumentsFault::Memory
    }
}
