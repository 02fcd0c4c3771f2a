//! The layer of a county.
ghost use Rattle.layers.specs.LayerParts.{parts_of};
ghost use Rattle.layers.specs.Writing.{IsHeadedOutcome, IsLayerOutcome};
ghost use Rattle.tl_segments.specs.County.{county_readers};

use crate::feature_writer::FeatureWriter;
use crate::layer::Layer;
use bpf_verify::Verified;
use counted_io::{CountedRead, CountedWrite};
use extract::{ExtractFault, RowBuffer, extract_verified_in};
use std::alloc::Allocator;
use tl_segments::CountyFiles;

/// Writes the header of a layer, and then the segments of one county that an accepted program selects, as [`write_county`] does. Returns their number.
pub fn write_layer<A: Allocator + Copy, B: Allocator, R: CountedRead, W: CountedWrite>(
    alloc: A,
    verified: &Verified<B>,
    files: &mut CountyFiles<R>,
    layer: &Layer,
    out: &mut W,
) -> Result<u64, ExtractFault>
    ensures { IsHeadedOutcome (parts_of layer.now) verified.now.code result
        (county_readers R.reader files.old) (county_readers R.reader files.new)
        (W.writer out.old) (W.writer out.new) }
{
    match layer.write_header(out) {
        Ok(()) => write_county(alloc, verified, files, layer, out),
        Err(fault) => Err(ExtractFault::Write(fault)),
    }
}

/// Writes the segments of a county that an accepted program selects, in the order of the type 1 file, and returns their number.
///
/// The file of type 2, if it is there, is read first, to its end. Then this does what [`extract_verified_in`] does.
pub fn write_county<A: Allocator + Copy, B: Allocator, R: CountedRead, W: CountedWrite>(
    alloc: A,
    verified: &Verified<B>,
    files: &mut CountyFiles<R>,
    layer: &Layer,
    out: &mut W,
) -> Result<u64, ExtractFault>
    ensures { IsLayerOutcome (parts_of layer.now) verified.now.code result
        (county_readers R.reader files.old) (county_readers R.reader files.new)
        (W.writer out.old) (W.writer out.new) }
{
    // First, and only for a layer with shapes, so that rows cost what they would without them.
    let shapes = files.load_shapes(alloc)?;
    match FeatureWriter::of(layer, shapes) {
        Some(mut features) => extract_verified_in(alloc, verified, files, &mut features, out),
        None => extract_verified_in(alloc, verified, files, &mut RowBuffer::new(), out),
    }
}
