//! The files of a county, as one value.
//!
//! A record type that is added is a field here. `County::load` takes a reader for each file and this lends them, not the other way round: a contract
//! can't say what becomes of a reader that is lent inside of a value.
ghost use Rattle.std.specs.Prelude.{◌≡◌, IfErr, IfOk, option_map};
ghost use Rattle.tl_segments.specs.County.{IsCountyFault, LoadsCounty, county_readers, segment_readers};
ghost use Rattle.tl_segments.specs.Shapes.{IsShapesFault, LoadsShapes, table_of};

use crate::county::County;
use crate::fault::LoadFault;
use crate::shapes::Shapes;
use counted_io::CountedRead;
use std::alloc::Allocator;

/// The readers of a county's files (TIGER/Line 2006). Contracts see them as readers, or nothing for a file that isn't there.
pub struct CountyFiles<R> {
    pub rt1: R,
    pub joined: JoinedFiles<R>,
    /// The file of type 2, if the shapes of segments are wanted.
    pub shapes: Option<R>,
}

/// The readers of the files whose lines are joined to those of type 1.
pub struct JoinedFiles<R> {
    pub rt4: R,
    pub rt5: R,
    pub rt6: R,
}

impl<R: CountedRead> CountyFiles<R> {
    /// Reads the files of types 2, 4, 5, 6 and 1, in this order, each to its end, or returns the first fault, leaving the input where it occurred.
    pub fn load<A: Allocator + Copy>(&mut self, alloc: A) -> Result<County<A>, LoadFault>
        ensures ok { IfOk result (λ county. LoadsCounty county (county_readers R.reader self.old) (county_readers R.reader self.new)) }
        ensures err { IfErr result (λ fault. IsCountyFault fault (county_readers R.reader self.old) (county_readers R.reader self.new)) }
    {
        let shapes = self.load_shapes(alloc)?;
        let joined = &mut self.joined;
        let county = County::load(
            alloc,
            &mut self.rt1,
            &mut joined.rt4,
            &mut joined.rt5,
            &mut joined.rt6,
        )?;
        Ok(county.with_shapes(shapes))
    }

    /// Reads the file of type 2 to its end, if there is one. Without it, every segment is a straight line.
    pub fn load_shapes<A: Allocator + Copy>(
        &mut self,
        alloc: A,
    ) -> Result<Option<Shapes<A>>, LoadFault>
        ensures ok { IfOk result (λ shapes. LoadsShapes (table_of shapes) (option_map R.reader self.old.shapes) (option_map R.reader self.new.shapes)) }
        ensures err { IfErr result (λ fault. IsShapesFault fault (option_map R.reader self.old.shapes) (option_map R.reader self.new.shapes)) }
        ensures unread { segment_readers R.reader self.new ≡ segment_readers R.reader self.old }
    {
        match &mut self.shapes {
            Some(rt2) => match Shapes::load(alloc, rt2) {
                Ok(shapes) => Ok(Some(shapes)),
                Err(fault) => Err(fault),
            },
            None => Ok(None),
        }
    }
}
