//! The layer of counties that are in memory.
ghost use Rattle.std.specs.Prelude.{IfOk, OnOk};
ghost use Rattle.extract.specs.Extracting.{WritesSelected};
ghost use Rattle.layers.specs.Counties.{IsLayerOf, WritesLayer, segments_of};
ghost use Rattle.layers.specs.LayerParts.{parts_of};

use crate::feature_writer::FeatureWriter;
use crate::layer::Layer;
use bpf_verify::Verified;
use counted_io::{CountedWrite, Counting, WriteFault};
use extract::{Format, RowBuffer, write_segments};
use std::alloc::{AllocError, Allocator};
use tl_segments::County;

/// Returns the layer of counties: the header, and then the segments that an accepted program selects, county by county and in the order of the type 1
/// file. The segments are straight, as without a file of type 2.
pub fn lay_out<A: Allocator, B: Allocator>(
    alloc: A,
    verified: &Verified<B>,
    counties: &[County<A>],
    layer: &Layer,
) -> Result<Vec<u8, A>, AllocError>
    ensures { IfOk result (λ text. IsLayerOf (parts_of layer.now) verified.now.code counties.now text.items) }
{
    let mut out = Counting::new(Vec::new(alloc));
    match write_layer_of(verified, counties, layer, &mut out) {
        Ok(()) => Ok(out.into_inner()),
        // A write to memory fails only if an allocation does.
        Err(_fault) => Err(AllocError),
    }
}

/// Writes the header of a layer and then the selected segments of counties. Nothing is retried, and nothing is flushed.
fn write_layer_of<A: Allocator, B: Allocator, W: CountedWrite>(
    verified: &Verified<B>,
    counties: &[County<A>],
    layer: &Layer,
    out: &mut W,
) -> Result<(), WriteFault>
    ensures { OnOk result (WritesLayer (parts_of layer.now) verified.now.code counties.now (W.writer out.old) (W.writer out.new)) }
{
    layer.write_header(out)?;
    match FeatureWriter::<A>::of(layer, None) {
        Some(mut features) => write_counties(verified, counties, &mut features, out),
        None => write_counties(verified, counties, &mut RowBuffer::new(), out),
    }
}

/// Writes the selected segments of counties, county by county.
fn write_counties<A: Allocator, B: Allocator, F: Format, W: CountedWrite>(
    verified: &Verified<B>,
    counties: &[County<A>],
    format: &mut F,
    out: &mut W,
) -> Result<(), WriteFault>
    ensures { OnOk result (WritesSelected (F.text_of format.old) verified.now.code (segments_of counties.now) (W.writer out.old) (W.writer out.new)) }
{
    for county in counties {
        write_segments(verified, county.segments(), format, out)?;
    }
    Ok(())
}
