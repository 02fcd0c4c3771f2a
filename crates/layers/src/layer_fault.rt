//! Faults in the options of a layer, and the line about each.
ghost use Rattle.std.specs.Prelude.{◌≡◌};
ghost use Rattle.counted_io.specs.Writing.{WritesText};
ghost use Rattle.layers.specs.LayerFault.{column_line, line};
ghost use Rattle.layers.specs.declared.layer_fault.LayerFault.TheVariants.{Memory};

use counted_io::{CountedWrite, WriteFault};
use reports::Piece::{Echo, Text};
use reports::{write_broken_rule, write_report};
use std::alloc::AllocError;

/// Why options choose no layer.
#[derive(Clone, Copy)]
pub enum LayerFault<'a> {
    /// This isn't the name of a format.
    Format(&'a str),
    /// This option isn't for rows.
    NotOfRows(&'static str),
    /// A name in the list of columns is empty.
    EmptyColumn,
    /// This name in the list of columns isn't that of a column.
    Column {
        name: &'a str,
        /// The name of a column that is near, if one is.
        nearest: Option<&'static str>,
    },
    /// This name repeats a column of the list.
    RepeatedColumn(&'a str),
    /// This isn't the name of a geometry.
    Geometry(&'a str),
    Memory,
}

impl LayerFault<'_> {
    /// Writes the line about the fault, with its line end, or up to the fault of the writer. Nothing is retried, and nothing is flushed. That of `Memory`
    /// is the refusal's.
    pub fn write_line<W: CountedWrite>(self, out: &mut W) -> Result<(), WriteFault>
        ensures { WritesText (line self.entry) result (W.writer out.old) (W.writer out.new) }
    {
        match self {
            LayerFault::Format(name) => {
                write_broken_rule(out, "format is rows, csv or geojsonseq", name)
            }
            LayerFault::Geometry(name) => {
                write_broken_rule(out, "geometry is none, line or shape", name)
            }
            LayerFault::NotOfRows(name) => write_report(
                out,
                &[
                    Text("error: --"),
                    Text(name),
                    Text(" needs --format csv or geojsonseq\n"),
                ],
            ),
            LayerFault::EmptyColumn => {
                write_report(out, &[Text("error: --columns has an empty name\n")])
            }
            LayerFault::Column { name, nearest } => write_unknown_column(out, name, nearest),
            LayerFault::RepeatedColumn(name) => write_report(
                out,
                &[
                    Text("error: --columns has \""),
                    Echo(name),
                    Text("\" twice\n"),
                ],
            ),
            LayerFault::Memory => write_report(out, &[Text("refused memory\n")]),
        }
    }
}

/// Writes the line about a name that isn't that of a column, with the name of one that is near.
fn write_unknown_column<'p, W: CountedWrite>(
    out: &mut W,
    name: &'p str,
    nearest: Option<&'static str>,
) -> Result<(), WriteFault>
    ensures { WritesText (column_line name.now nearest.entry) result (W.writer out.old) (W.writer out.new) }
{
    match nearest {
        Some(nearest) => write_report(
            out,
            &[
                Text("error: --columns has \""),
                Echo(name),
                Text("\", which isn't a column, and the nearest is "),
                Text(nearest),
                Text("\n"),
            ],
        ),
        None => write_report(
            out,
            &[
                Text("error: --columns has \""),
                Echo(name),
                Text("\", which isn't a column\n"),
            ],
        ),
    }
}

impl From<AllocError> for LayerFault<'_> {
    ghost from_gives = { λ _ fault. fault ≡ Memory };

    fn from(_error: AllocError) -> Self {
        LayerFault::Memory
    }
}
