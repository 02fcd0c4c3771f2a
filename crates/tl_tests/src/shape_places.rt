//! Addresses in their places along the shapes of segments, worked out by hand.
use address_batch::{Batch, Lines};
use addresses::Address;
use counted_io::Buffered;
use fixtures::{Files, Table, TableFault, bytes, cells};
use std::alloc::{Allocator, Global};
use tl_segments::{County, CountyFiles, JoinedFiles, LoadFault};

// The files of types 1 and 2, a house number on Main, and the coordinates in its line. The shape goes 1,000 millionths of a degree to the east on the
// equator and then 3,000 to the north, or on the 60th parallel, where a degree of longitude is half as long, 2,000 to the east and 1,000 to the north.
pub const PLACES: Table = Table(
    r"
{rt1 FRLONG=1000 FRLAT=0 TOLONG=2000 TOLAT=3000 TOADDR=200}; {rt2 LONG1=2000 LAT1=0 LONG2=}; 100; 0.001000,0.000000
{rt1 FRLONG=1000 FRLAT=0 TOLONG=2000 TOLAT=3000 TOADDR=200}; {rt2 LONG1=2000 LAT1=0 LONG2=}; 110; 0.001400,0.000000
{rt1 FRLONG=1000 FRLAT=0 TOLONG=2000 TOLAT=3000 TOADDR=180}; {rt2 LONG1=2000 LAT1=0 LONG2=}; 120; 0.002000,0.000000
{rt1 FRLONG=1000 FRLAT=0 TOLONG=2000 TOLAT=3000 TOADDR=200}; {rt2 LONG1=2000 LAT1=0 LONG2=}; 150; 0.002000,0.001000
{rt1 FRLONG=1000 FRLAT=0 TOLONG=2000 TOLAT=3000 TOADDR=200}; {rt2 LONG1=2000 LAT1=0 LONG2=}; 200; 0.002000,0.003000
{rt1 FRLONG=1000 FRLAT=0 TOLONG=2000 TOLAT=3000 FRADDR=200 TOADDR=100}; {rt2 LONG1=2000 LAT1=0 LONG2=}; 150; 0.002000,0.001000
{rt1 FRLONG=1000 FRLAT=0 TOLONG=2000 TOLAT=3000 TOADDR=200}; {rt2 RTSQ=2 LONG1=2000 LAT1=1000 LONG2=}\n{rt2 LONG1=2000 LAT1=0 LONG2=};
  150; 0.002000,0.001000
{rt1 FRLONG=1000 FRLAT=0 TOLONG=2000 TOLAT=3000 TOADDR=100}; {rt2 LONG1=2000 LAT1=0 LONG2=}; 100; 0.001000,0.000000
{rt1 FRLONG=1000 FRLAT=60000000 TOLONG=3000 TOLAT=60001000 TOADDR=200}; {rt2 LONG1=3000 LAT1=60000000 LONG2=}; 150; 0.003000,60.000000
{rt1 FRLONG=1000 FRLAT=0 TOLONG=1000 TOLAT=3000 TOADDR=200}; {rt2 TLID=5}; 150; 0.001000,0.001500
{rt1 FRLONG=1000 FRLAT=0 TOLONG=1000 TOLAT=3000 TOADDR=200};; 150; 0.001000,0.001500
{rt1 FRLONG=1000 FRLAT=0 TOLONG=2000 TOLAT= TOADDR=200}; {rt2 LONG1=2000 LAT1=0 LONG2=}; 150; ,",
);

/// Files of types 1 and 2, a house number on Main, and the coordinates in its line.
#[derive(Drop)]
pub struct Placing<'a> {
    files: Files,
    rt2: Vec<u8>,
    number: &'a str,
    coordinates: &'a str,
}

impl<'a> Placing<'a> {
    /// Reads a row of `PLACES`.
    pub fn new(alloc: Global, row: &'a str) -> Result<Self, TableFault> {
        let (rt1, rt2, number, coordinates) = cells(row)?.four()?;
        Ok(Placing {
            files: Files::new(alloc, (rt1, "", "", ""))?,
            rt2: bytes(alloc, rt2)?,
            number,
            coordinates,
        })
    }

    /// Loads the county with its shapes.
    fn county<A: Allocator + Copy>(&self, alloc: A) -> Result<County<A>, LoadFault> {
        let mut files = CountyFiles {
            rt1: Buffered::new(self.files.rt1.as_slice()),
            joined: JoinedFiles {
                rt4: Buffered::new(self.files.rt4.as_slice()),
                rt5: Buffered::new(self.files.rt5.as_slice()),
                rt6: Buffered::new(self.files.rt6.as_slice()),
            },
            shapes: Some(Buffered::new(self.rt2.as_slice())),
        };
        let county = files.load(alloc);
        let CountyFiles {
            rt1: _rt1,
            joined: JoinedFiles {
                rt4: _rt4,
                rt5: _rt5,
                rt6: _rt6,
            },
            shapes: _shapes,
        } = files;
        county
    }

    /// Looks for the address, and returns whether its line has the row's coordinates.
    pub fn is_right<A: Allocator + Copy>(
        &self,
        alloc: A,
        tables: Global,
    ) -> Result<bool, LoadFault> {
        let mut counties = Vec::new(alloc);
        counties.push(self.county(alloc)?)?;
        let batch = Batch::of(alloc, counties.as_slice(), &["01001"])?;
        let mut lines = Lines::new(tables);
        let address = Address {
            line: 1,
            id: None,
            number: self.number,
            name: "main",
            zip: "",
            predir: "",
            kind: "",
            sufdir: "",
        };
        batch.write_shaped_lines(alloc, tables, &address, &mut lines)?;
        Ok(has_coordinates(lines.as_bytes(), self.coordinates))
    }
}

/// Returns whether a line says that an address is in one place, with these coordinates.
fn has_coordinates(line: &[u8], coordinates: &str) -> bool {
    let Some(rest) = line.strip_prefix(b"1,match,,") else {
        return false;
    };
    let Some(rest) = rest.strip_prefix(coordinates.as_bytes()) else {
        return false;
    };
    rest.starts_with(b",123456789,R,,Main,,,36067,01001,")
}

/// Returns whether a row is right.
fn is_right(alloc: Global, row: &str) -> Result<bool, TableFault> {
    let placing = Placing::new(alloc, row)?;
    Ok(placing.is_right(alloc, alloc) == Ok(true))
}

#[test]
fn each_place(rt: HostRuntime) {
    for row in PLACES.joined(rt.alloc()).expect(&rt, "places").lines() {
        assert_eq!(rt; is_right(rt.alloc(), row), Ok(true), "{row}");
    }
}
