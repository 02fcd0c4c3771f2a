//! Faults in the parameters of a request with a filter, and the line about each, in the words of the command.
ghost use Rattle.counted_io.specs.Writing.{WritesText};
ghost use Rattle.wire.specs.ParameterFault.{line};

use counted_io::{CountedWrite, WriteFault};
use filters::FilterOptionsFault;
use layers::LayerFault;
use reports::Piece::{Echo, Text};
use reports::write_report;

/// Why parameters can't be used.
#[derive(Clone, Copy)]
pub(crate) enum ParameterFault<'a> {
    /// No parameter has this name.
    Unknown(&'a str),
    /// A parameter of the filter has a wrong value.
    Filter(FilterOptionsFault<'a>),
    /// The parameters choose no layer.
    Layer(LayerFault<'a>),
    /// The geometry needs the shapes of segments, which a server doesn't load.
    NoShapes,
}

impl ParameterFault<'_> {
    /// Writes the line about the fault, with its line end, or up to the fault of the writer.
    pub(crate) fn write_line<W: CountedWrite>(self, out: &mut W) -> Result<(), WriteFault>
        ensures { WritesText (line self.entry) result (W.writer out.old) (W.writer out.new) }
    {
        match self {
            ParameterFault::Unknown(name) => write_report(
                out,
                &[
                    Text("error: unexpected argument '--"),
                    Echo(name),
                    Text("' found\n"),
                ],
            ),
            ParameterFault::Filter(fault) => fault.write_line(out),
            ParameterFault::Layer(fault) => fault.write_line(out),
            // Straight lines in place of shapes would look right.
            ParameterFault::NoShapes => write_report(
                out,
                &[Text(
                    "error: --geometry shape needs the type 2 files, which a server doesn't load\n",
                )],
            ),
        }
    }
}
