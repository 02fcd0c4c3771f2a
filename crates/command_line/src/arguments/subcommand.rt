//! The commands and their names.
ghost use Rattle.std.specs.Prelude.{◌≡◌};
ghost use Rattle.command_line.specs.Arguments.{name_of, named};

/// A command.
#[derive(Clone, Copy, PartialEq, Eq)]
pub enum Subcommand {
    Select,
    Compile,
    Run,
    Trace,
    Geocode,
    GeocodeBatch,
    Verify,
    Explain,
    Assemble,
    Disassemble,
    Serve,
}

impl Subcommand {
    /// The commands in the order of the help.
    pub(crate) const ALL: [Subcommand; 11] = [
        Subcommand::Select,
        Subcommand::Compile,
        Subcommand::Run,
        Subcommand::Trace,
        Subcommand::Geocode,
        Subcommand::GeocodeBatch,
        Subcommand::Verify,
        Subcommand::Explain,
        Subcommand::Assemble,
        Subcommand::Disassemble,
        Subcommand::Serve,
    ];

    /// Returns the word that names the command.
    pub fn name(self) -> &'static str
        ensures { result.now ≡ name_of self }
    {
        match self {
            Subcommand::Select => "select",
            Subcommand::Compile => "compile",
            Subcommand::Run => "run",
            Subcommand::Trace => "trace",
            Subcommand::Geocode => "geocode",
            Subcommand::GeocodeBatch => "geocode-batch",
            Subcommand::Verify => "verify",
            Subcommand::Explain => "explain",
            Subcommand::Assemble => "asm",
            Subcommand::Disassemble => "dis",
            Subcommand::Serve => "serve",
        }
    }

    /// Returns the command that a word names.
    pub fn named(word: &str) -> Option<Self>
        ensures { result ≡ named word.now }
    {
        Subcommand::ALL
            .iter()
            .copied()
            .find(|subcommand| subcommand.name() == word)
    }
}
