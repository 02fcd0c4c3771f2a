//! The forms of a layer.
ghost use Rattle.std.specs.Prelude.{◌≡◌};
ghost use Rattle.layers.specs.Layer.{is_shape};

use crate::columns::Columns;
use crate::csv_table::write_header;
use crate::geometry::Geometry;
use counted_io::{CountedWrite, WriteFault};

/// What a table or features have of selected segments besides their scores.
#[derive(Drop)]
pub struct TableOptions {
    pub columns: Columns,
    pub geometry: Geometry,
}

/// The form of a layer.
#[derive(Drop)]
pub enum Layer {
    /// Rows: the score, a tab, the record.
    Rows,
    /// A table in CSV.
    Table(TableOptions),
    /// Features in GeoJSON.
    Features(TableOptions),
}

impl Layer {
    ghost use Rattle.layers.specs.Layer.{WritesHeader, has_shapes};
    ghost use Rattle.layers.specs.LayerParts.{parts_of};

    /// Returns whether the points of segments' shapes are written.
    pub fn has_shapes(&self) -> bool
        ensures { result ≡ has_shapes (parts_of self.now) }
    {
        match self {
            Layer::Rows => false,
            Layer::Table(options) | Layer::Features(options) => is_shape(options.geometry),
        }
    }

    /// Writes what comes before all segments: the header of a table. Nothing is retried, and nothing is flushed.
    pub fn write_header<W: CountedWrite>(&self, out: &mut W) -> Result<(), WriteFault>
        ensures { WritesHeader (parts_of self.now) result (W.writer out.old) (W.writer out.new) }
    {
        match self {
            Layer::Table(options) => write_header(&options.columns, options.geometry, out),
            Layer::Rows | Layer::Features(_) => Ok(()),
        }
    }
}

fn is_shape(geometry: Geometry) -> bool
    ensures { result ≡ is_shape geometry }
{
    match geometry {
        Geometry::None | Geometry::Line => false,
        Geometry::Shape => true,
    }
}
