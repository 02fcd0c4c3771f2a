//! Shapes made from a type 2 file, worked out by hand.
use counted_io::{Buffered, CountedRead, InjectedFailure};
use fixtures::{
    FaultPlan, Table, TableFault, bytes, cells, error_kind, is_refusal, number, reader, size,
};
use refusals::Fault;
use std::alloc::{Allocator, Global};
use tl_segments::{LoadFault, Point, ShapePart, Shapes};

// A type 2 file, a TLID, and the parts of its shape: `none`, or the points of each part, or `counts` and the total numbers of parts and points.
pub const SHAPES: Table = Table(
    r"
; 123456789; none
{rt2}\n; 123456789; -86498000,32403000 -86495000,32406000
{rt2}\r\n; 123456789; -86498000,32403000 -86495000,32406000
{rt2}; 123456789; -86498000,32403000 -86495000,32406000
{rt2}\n; 12345678; none
{rt2 TLID=5}\n{rt2 TLID=50 LONG2=}\n; 50; -86498000,32403000
{rt2 TLID=0000000005}\n{rt2 TLID=5 RTSQ=2 LONG2=}\n; 5; -86498000,32403000 -86495000,32406000 / -86498000,32403000
{rt2 TLID=9999999999 LONG2=}\n; 9999999999; -86498000,32403000
{rt2 LONG1=1 LAT1=2 LONG2=}\n{rt2 RTSQ=2 LONG1=3 LAT1=4 LONG2=}\n{rt2 RTSQ=3 LONG1=5 LAT1=6 LONG2=}\n; 123456789; 1,2 / 3,4 / 5,6
{rt2 RTSQ=3 LONG1=5 LAT1=6 LONG2=}\n{rt2 LONG1=1 LAT1=2 LONG2=}\n{rt2 RTSQ=2 LONG1=3 LAT1=4 LONG2=}\n; 123456789; 1,2 / 3,4 / 5,6
{rt2 RTSQ=3 LONG1=5 LAT1=6 LONG2=}\n{rt2 RTSQ=2 LONG1=3 LAT1=4 LONG2=}\n{rt2 LONG1=1 LAT1=2 LONG2=}\n; 123456789; 1,2 / 3,4 / 5,6
{rt2 RTSQ=2 LONG1=3 LAT1=4 LONG2=}\n{rt2 TLID=5}\n{rt2 RTSQ=3 LONG1=5 LAT1=6 LONG2=}\n{rt2 TLID=5 RTSQ=0}\n{rt2
  LONG1=1 LAT1=2 LONG2=}\n; 123456789; 1,2 / 3,4 / 5,6
{rt2 TLID=5 RTSQ=8 LONG2=}\n{rt2}\n{rt2 TLID=5 RTSQ=7}\n{rt2 RTSQ=2}\n; 5; -86498000,32403000 -86495000,32406000 / -86498000,32403000
{rt2 RTSQ=10 LONG1=10 LAT1=1 LONG2=}\n{rt2 RTSQ=9 LONG1=9 LAT1=1 LONG2=}\n{rt2 RTSQ=100 LONG1=100 LAT1=1 LONG2=}\n; 123456789;
  9,1 / 10,1 / 100,1
{rt2 RTSQ=_8_ LONG1=8 LAT1=1 LONG2=}\n{rt2 RTSQ=007 LONG1=7 LAT1=1 LONG2=}\n{rt2 RTSQ=0 LONG1=1 LAT1=1 LONG2=}\n{rt2
  RTSQ=999 LONG1=999 LAT1=1 LONG2=}\n; 123456789; 1,1 / 7,1 / 8,1 / 999,1
{rt2 LONG1=1 LAT1=2 LONG2=3 LAT2=4 LONG3=5 LAT3=6 LONG4=7 LAT4=8 LONG5=9 LAT5=10 LONG6=11 LAT6=12 LONG7=13 LAT7=14 LONG8=15 LAT8=16
  LONG9=17 LAT9=18 LONG10=19 LAT10=20}\n; 123456789; 1,2 3,4 5,6 7,8 9,10 11,12 13,14 15,16 17,18 19,20
{rt2 LONG3=5 LAT3=6 LONG4=7 LAT4=8 LONG5=9 LAT5=10 LONG6=11 LAT6=12 LONG7=13 LAT7=14 LONG8=15 LAT8=16 LONG9=17 LAT9=18}\n; 123456789;
  -86498000,32403000 -86495000,32406000 5,6 7,8 9,10 11,12 13,14 15,16 17,18
{rt2 LONG1=+000000000 LAT1=+00000000}\n; 123456789; counts 1 0
{rt2 LONG1=0 LAT1=0}\n{rt2 RTSQ=2}\n; 123456789; / -86498000,32403000 -86495000,32406000
{rt2 LONG1=-000000000 LAT1=-00000000}\n; 123456789; counts 1 0
{rt2 LONG2=0 LAT2=0 LONG3=5 LAT3=6}\n; 123456789; -86498000,32403000
{rt2 LONG2=0 LAT2=0 LONG3=5 LAT3=6}\n{rt2 RTSQ=2 LONG2=}\n; 123456789; -86498000,32403000 / -86498000,32403000
{rt2 LONG1=+000000000 LAT1=+00000001 LONG2=-1 LAT2=0}\n; 123456789; 0,1 -1,0
{rt2 LONG2=}\n; 123456789; -86498000,32403000
{rt2 LAT2= LONG3=5 LAT3=6}\n; 123456789; -86498000,32403000
{rt2 LONG2=x LONG3=5 LAT3=6}\n; 123456789; -86498000,32403000
{rt2 LAT2=32.406000 LONG3=5 LAT3=6}\n; 123456789; -86498000,32403000
{rt2 LONG1=-_1 LAT1=1}\n; 123456789; counts 1 0
{rt2 LONG1=___-86 LAT1=__+32__ LONG2=7 LAT2=_8}\n; 123456789; -86,32 7,8
{rt2 LONG1=-999999999 LAT1=999999999 LONG2=1234567890}\n; 123456789; -999999999,999999999
{rt2 LONG1=+180000000 LAT1=-90000000 LONG2=}\n; 123456789; 180000000,-90000000
{rt2\n@0..999}; 123456789; counts 1000 2000
{rt2\n@500..999}{rt2 TLID=5}\n{rt2\n@0..499}; 123456789; counts 1000 2000
{rt2\n@500..999}{rt2 TLID=5}\n{rt2\n@0..499}; 5; -86498000,32403000 -86495000,32406000
{rt2\n#1..40}{rt2 RTSQ=2 LONG2=\n#1..40}; 40; -86498000,32403000 -86495000,32406000 / -86498000,32403000
{rt2 RTSQ=2 LONG2=\n#1..40}{rt2\n#1..40}; 1; -86498000,32403000 -86495000,32406000 / -86498000,32403000",
);

// A type 2 file, and its first fault.
pub const SHAPE_REFUSALS: Table = Table(
    r"
{rt2 ..207}\n; refused 1 rt2 line 1 WrongLength
{rt2}\n{rt2}x\n; refused 1 rt2 line 2 WrongLength
{rt2}\n\n; refused 1 rt2 line 2 WrongLength
{rt2}{text x*23}\n; refused 1 rt2 line 1 WrongLength
{rt2}{rt2 RTSQ=2}\n; refused 1 rt2 line 1 WrongLength
{rt2}\n{rt2 RT=4 RTSQ=2}\n; refused 2 rt2 line 2 WrongType
{rt2 RT=\xb2}\n; refused 2 rt2 line 1 WrongType
{rt2}\n{rt2 TLID= RTSQ=2}\n; refused 3 rt2 line 2 BadTlid
{rt2 TLID=-5}\n; refused 3 rt2 line 1 BadTlid
{rt2}\n{rt2 RTSQ=}\n; refused 120 rt2 line 2 BadSequence
{rt2 RTSQ=-1}\n; refused 120 rt2 line 1 BadSequence
{rt2 RTSQ=1_1}\n; refused 120 rt2 line 1 BadSequence
{rt2 RTSQ=x}\n; refused 120 rt2 line 1 BadSequence
{rt2 RT=4 TLID= RTSQ= ..207}\n; refused 1 rt2 line 1 WrongLength
{rt2 RT=4 TLID= RTSQ=}\n; refused 2 rt2 line 1 WrongType
{rt2 TLID= RTSQ=}\n; refused 3 rt2 line 1 BadTlid
{rt2 RTSQ=}\n{rt2 ..207}\n; refused 120 rt2 line 1 BadSequence
{rt2}\n{rt2}\n; refused 121 rt2 line 2 RepeatedSequence
{rt2}\n{rt2 TLID=5}\n{rt2 RTSQ=2}\n{rt2 TLID=5 RTSQ=001}\n; refused 121 rt2 line 4 RepeatedSequence
{rt2 RTSQ=3}\n{rt2 RTSQ=1}\n{rt2 RTSQ=2}\n{rt2 RTSQ=_1}\n; refused 121 rt2 line 4 RepeatedSequence
{rt2 RTSQ=3}\n{rt2 RTSQ=1}\n{rt2 RTSQ=2}\n{rt2 RTSQ=3}\n; refused 121 rt2 line 4 RepeatedSequence
{rt2 RTSQ=3}\n{rt2 RTSQ=1}\n{rt2 RTSQ=2}\n{rt2 RTSQ=2}\n{rt2 RTSQ=}\n; refused 121 rt2 line 4 RepeatedSequence
{rt2\n@0..998}{rt2 RTSQ=5}\n; refused 121 rt2 line 1000 RepeatedSequence
{rt2\n@0..999}{rt2 RTSQ=5}\n; refused 122 rt2 line 1001 TooManyPoints
{rt2 TLID=5}\n{rt2\n@500..999}{rt2\n@0..499}{rt2 TLID=5 RTSQ=2}\n{rt2 RTSQ=999}\n; refused 122 rt2 line 1003 TooManyPoints
{rt2\n@0..999}{rt2 TLID=5}\n{rt2 TLID=5}\n; refused 121 rt2 line 1002 RepeatedSequence
{rt2\n@0..999}{rt2 RTSQ=}\n; refused 120 rt2 line 1001 BadSequence
{rt2\n@0..999}{rt2 TLID=}\n; refused 3 rt2 line 1001 BadTlid
{rt2\n@0..999}{rt2 ..207}; refused 1 rt2 line 1001 WrongLength",
);

// The first and last of the reads of a type 2 file that fail like this, and the refusal.
const READS: Table = Table(
    "\
1; 209; refused 5 rt2 line 1 Read
210; 418; refused 5 rt2 line 2 Read
419; 419; refused 5 rt2 line 3 Read",
);

/// A type 2 file, and what a row says about it.
#[derive(Drop)]
pub struct ShapeLoading<'a> {
    rt2: Vec<u8>,
    tlid: u64,
    expected: &'a str,
}

impl<'a> ShapeLoading<'a> {
    /// Reads a row of `SHAPES`.
    pub fn of_parts(alloc: Global, row: &'a str) -> Result<Self, TableFault> {
        let (text, tlid, expected) = cells(row)?.three()?;
        Ok(ShapeLoading {
            rt2: bytes(alloc, text)?,
            tlid: number(tlid)?,
            expected,
        })
    }

    /// Reads a row of `SHAPE_REFUSALS`.
    pub fn of_refusal(alloc: Global, row: &'a str) -> Result<Self, TableFault> {
        let (text, expected) = cells(row)?.two()?;
        Ok(ShapeLoading {
            rt2: bytes(alloc, text)?,
            tlid: 0,
            expected,
        })
    }

    /// Loads the file, and returns whether the row is right.
    pub fn is_right<A: Allocator + Copy>(&self, alloc: A) -> Result<bool, LoadFault> {
        match Shapes::load(alloc, &mut Buffered::new(self.rt2.as_slice())) {
            Ok(shapes) => Ok(are_parts(shapes.parts(self.tlid), self.expected) == Ok(true)),
            Err(LoadFault::Memory) => Err(LoadFault::Memory),
            Err(fault) => Ok(is_refusal(fault.line().as_str(), self.expected)),
        }
    }
}

/// Returns whether the parts of a shape are what a row says.
fn are_parts(parts: &[ShapePart], expected: &str) -> Result<bool, TableFault> {
    if expected == "none" {
        return Ok(parts.is_empty());
    }
    if let Some(counts) = expected.strip_prefix("counts ") {
        return are_counts(parts, counts);
    }
    let mut texts = expected.split('/');
    for part in parts {
        if !is_part(part.points(), texts.next().unwrap_or("missing"))? {
            return Ok(false);
        }
    }
    Ok(texts.next().is_none())
}

/// Returns whether there are as many parts and points as a text says.
fn are_counts(parts: &[ShapePart], counts: &str) -> Result<bool, TableFault> {
    let (of_parts, of_points) = counts.split_once(' ').ok_or(TableFault::Word)?;
    let mut points: usize = 0;
    for part in parts {
        points = points.wrapping_add(part.points().len());
    }
    Ok(parts.len() == size(of_parts)? && points == size(of_points)?)
}

/// Returns whether these are the points in a text, each with its longitude and its latitude.
fn is_part(points: &[Point], text: &str) -> Result<bool, TableFault> {
    let mut texts = text.split_whitespace();
    for point in points {
        let (longitude, latitude) = texts
            .next()
            .and_then(|text| text.split_once(','))
            .ok_or(TableFault::Word)?;
        if !is_number(point.longitude, longitude)? || !is_number(point.latitude, latitude)? {
            return Ok(false);
        }
    }
    Ok(texts.next().is_none())
}

/// Returns whether a text is this number, with a minus sign if it is negative.
fn is_number(found: i32, text: &str) -> Result<bool, TableFault> {
    let (is_negative, digits) = match text.strip_prefix('-') {
        Some(digits) => (true, digits),
        None => (false, text),
    };
    Ok(u64::from(found.unsigned_abs()) == number(digits)? && (found < 0) == is_negative)
}

/// Returns whether a row of `SHAPES` is right.
fn is_loaded(alloc: Global, row: &str) -> Result<bool, TableFault> {
    let loading = ShapeLoading::of_parts(alloc, row)?;
    Ok(loading.is_right(alloc) == Ok(true))
}

/// Returns whether a row of `SHAPE_REFUSALS` is right.
fn is_refused(alloc: Global, row: &str) -> Result<bool, TableFault> {
    let loading = ShapeLoading::of_refusal(alloc, row)?;
    Ok(loading.is_right(alloc) == Ok(true))
}

/// Returns whether a file of two lines is refused as a row says when each of the row's reads fails, and nothing more is read.
fn are_stopped(alloc: Global, kind: &str, row: &str) -> Result<bool, TableFault> {
    let rt2 = bytes(alloc, r"{rt2}\n{rt2 RTSQ=2}\n")?;
    let (first, last, refusal) = cells(row)?.three()?;
    let plan = FaultPlan {
        failure: InjectedFailure::Fails(error_kind(kind)?),
        ..FaultPlan::sound()
    };
    for read in number(first)?..=number(last)? {
        if !is_stopped(alloc, &rt2, plan.at_call(read), refusal, read) {
            return Ok(false);
        }
    }
    Ok(true)
}

/// Returns whether a file is refused like this after this many reads.
fn is_stopped(alloc: Global, rt2: &[u8], plan: FaultPlan, refusal: &str, reads: u64) -> bool {
    let mut input = reader(rt2, plan);
    let fault = Shapes::load(alloc, &mut input).err();
    match fault {
        Some(fault) => is_refusal(fault.line().as_str(), refusal) && input.get_ref().calls == reads,
        None => false,
    }
}

#[test]
fn each_shape(rt: HostRuntime) {
    for row in SHAPES.joined(rt.alloc()).expect(&rt, "shapes").lines() {
        assert_eq!(rt; is_loaded(rt.alloc(), row), Ok(true), "{row}");
    }
}

#[test]
fn each_refusal(rt: HostRuntime) {
    let rows = SHAPE_REFUSALS.joined(rt.alloc()).expect(&rt, "refusals");
    for row in rows.lines() {
        assert_eq!(rt; is_refused(rt.alloc(), row), Ok(true), "{row}");
    }
}

#[test]
fn each_read(rt: HostRuntime) {
    for row in READS.joined(rt.alloc()).expect(&rt, "reads").lines() {
        for kind in ["interrupted", "blocked", "pipe", "late"] {
            assert_eq!(rt; are_stopped(rt.alloc(), kind, row), Ok(true), "{row}");
        }
    }
}
