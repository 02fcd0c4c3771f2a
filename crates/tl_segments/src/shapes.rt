//! The shapes of a county's segments.
//!
//! Read for shapes alone, so that everything else costs what it would without record type 2.
ghost use Rattle.std.specs.Prelude.{◌≡◌, ◌≤◌, ℕ, List, length, IfErr, IfOk};
ghost use Rattle.tl_segments.specs.Adding.{HoldsFile};
ghost use Rattle.tl_segments.specs.Loading.{IsFileFault};
ghost use Rattle.tl_segments.specs.Shapes.{IsShapesOf, parts_at};
ghost use Rattle.tl_segments.specs.TableContents.{HoldsShapes};
ghost use Rattle.tl_segments.specs.declared.fault.CountyFile.TheVariants.{Rt2};
ghost use Rattle.tl_segments.specs.declared.limits.TheConstants.{MAX_LINES_PER_TLID};

use crate::county_file::{Addition, Table, read_file};
use crate::fault::LoadFault;
use crate::multi_map::MultiMap;
use crate::shape::ShapePart;
use counted_io::CountedRead;
use std::alloc::{AllocError, Allocator};
use std::marker::Model;
use tl_records::{Rt2, Type2};

/// The points of a county's segments between their starts and their ends, by TLID: the contents of its type 2 file. Contracts see them as a list of
/// the TLIDs that have a shape.
#[derive(Drop)]
pub struct Shapes<A: Allocator> {
    parts: MultiMap<ShapePart, A>,
}

impl<A: Allocator> Model for Shapes<A> {
    ghost use Rattle.tl_segments.specs.Shapes.{ShapesParts, entries_in};
    ghost use Rattle.tl_segments.specs.TableContents.{HasShortLists};

    ghost Value = { ShapesParts };

    ghost view = { λ shapes. record { entries = entries_in shapes.parts } };

    ghost invariant = { λ shapes. HasShortLists shapes.parts };
}

impl<A: Allocator + Copy> Shapes<A> {
    /// Reads a type 2 file to its end, or returns the first fault, leaving the input where it occurred.
    pub fn load<R: CountedRead>(alloc: A, rt2: &mut R) -> Result<Self, LoadFault>
        ensures ok { IfOk result (λ shapes. HoldsFile Rt2 (IsShapesOf shapes) (R.reader rt2.old) (R.reader rt2.new)) }
        ensures err { IfErr result (λ fault. IsFileFault Rt2 fault (R.reader rt2.old) (R.reader rt2.new)) }
    {
        let mut parts = MultiMap::new(alloc);
        read_file(&mut parts, rt2)?;
        Ok(Shapes { parts })
    }
}

impl<A: Allocator> Shapes<A> {
    /// Returns the parts of a TLID's shape, one for each of its type 2 lines, in the order of RTSQ. A segment whose TLID has none is a straight line.
    pub fn parts(&self, tlid: u64) -> &[ShapePart]
        ensures value { result.now ≡ parts_at self.now tlid }
        ensures few { length result.now ≤ MAX_LINES_PER_TLID }
    {
        self.parts.list(tlid)
    }
}

impl<A: Allocator + Copy> Table for MultiMap<ShapePart, A> {
    type Lines = Type2;

    ghost holds = { λ table lines. HoldsShapes table lines };

    fn add(&mut self, rt2: &Rt2<'_>) -> Result<Addition, AllocError> {
        self.insert(rt2.number(), ShapePart::of(rt2))
    }
}
