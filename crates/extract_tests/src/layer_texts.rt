//! Layers, worked out by hand from the record layouts, RFC 4180, RFC 7946 and RFC 8259.
use bpf_program::accept;
use bpf_verify::Verified;
use counted_io::{CountedWrite, InjectedFailure, WriteFault};
use extract::ExtractFault;
use fixtures::{
    FaultPlan, Refusing, Table, TableFault, Writer, bytes, cells, error_kind, is_refusal, program,
    reader, taken, writer,
};
use layers::{Columns, Geometry, Layer, TableOptions, write_county};
use refusals::Fault;
use std::alloc::{Allocator, Global};
use std::io::ErrorKind;
use std::process::Abort;
use tl_segments::{CountyFiles, JoinedFiles};

// The form of a layer, its geometry and its column; the files of types 1 and 2; the number of segments and the text. `\x7b` and `\x7d` are braces,
// and `\x5c` is a backslash.
const LAYERS: Table = Table(
    r#"
rows none TLID; {rt1}\n{rt1 TLID=5}\n; {rt2}\n; ok 2; 0\t{rt1}\n0\t{rt1 TLID=5}\n
csv none TLID;; {rt2}\n; ok 0; score,TLID\n
csv none TLID; {rt1}\n{rt1 TLID=0000000005}\n; {rt2}\n; ok 2; score,TLID\n0,123456789\n0,5\n
csv none fename; {rt1 FENAME=_Main_}\n{rt1 FENAME=}\n;; ok 2; score,FENAME\n0,Main\n0,\n
csv none FENAME; {rt1 FENAME=5,"Ave"}\n{rt1 FENAME=\r}\n;; ok 2; score,FENAME\n0,"5,""Ave"""\n0,"\r"\n
csv none FENAME; {rt1 FENAME=Pe\xf1a}\n;; ok 1; score,FENAME\n0,Pe\xc3\xb1a\n
csv none FRADDL; {rt1 FRADDL=0164-20}\n;; ok 1; score,FRADDL\n0,0164-20\n
csv none FRADDL_TEXT; {rt1 FRADDL=_____164-20}\n{rt1 FRADDL=}\n;; ok 2; score,FRADDL_TEXT\n0,164-20\n0,\n
csv none FRIADDL; {rt1 FRIADDL=1}\n{rt1 FRIADDL=0 TOIADDL=1}\n{rt1 TOIADDL=1}\n;; ok 3; score,FRIADDL\n0,1\n0,0\n0,\n
csv none FRLONG; {rt1}\n{rt1 FRLONG=-000000001}\n{rt1 FRLONG=}\n;; ok 3; score,FRLONG\n0,-86.500000\n0,-0.000001\n0,\n
csv line ZIPL; {rt1}\n{rt1 TOLAT=}\n; {rt2}\n; ok 2;
  score,ZIPL,WKT\n0,36067,"LINESTRING (-86.500000 32.400000,-86.490000 32.410000)"\n0,36067,\n
csv shape ZIPL; {rt1}\n; {rt2 RTSQ=2 LONG2=}\n{rt2 LONG1=1 LAT1=-2}\n; ok 1; score,ZIPL,WKT\n0,36067,"LINESTRING
  (-86.500000 32.400000,0.000001 -0.000002,-86.495000 32.406000,-86.498000 32.403000,-86.490000 32.410000)"\n
csv shape ZIPL; {rt1 TLID=5}\n; {rt2}\n; ok 1; score,ZIPL,WKT\n0,36067,"LINESTRING (-86.500000 32.400000,-86.490000 32.410000)"\n
csv shape ZIPL; {rt1}\n; {rt2}\n{rt2}\n; refused 121 rt2 line 2 RepeatedSequence; score,ZIPL,WKT\n
csv line ZIPL; {rt1}\n{rt1 ..227}; {rt2}\n{rt2}\n; refused 1 rt1 line 2 WrongLength;
  score,ZIPL,WKT\n0,36067,"LINESTRING (-86.500000 32.400000,-86.490000 32.410000)"\n
geojson none TLID; {rt1}\n;; ok 1; \x7b"type":"Feature","properties":\x7b"score":0,"TLID":123456789\x7d,"geometry":null\x7d\n
geojson none FENAME; {rt1 FENAME=}\n{rt1 FENAME="\x5c}\n;; ok 2; \x7b"type":"Feature","properties":\x7b"score":0,"FENAME":null\x7d,"geometry":null\x7d\n
   \x7b"type":"Feature","properties":\x7b"score":0,"FENAME":"\x5c"\x5c\x5c"\x7d,"geometry":null\x7d\n
geojson none TOIADDR; {rt1 TOIADDR=0}\n{rt1 FRIADDR=1}\n;; ok 2; \x7b"type":"Feature","properties":\x7b"score":0,"TOIADDR":"0"\x7d,"geometry":null\x7d\n
   \x7b"type":"Feature","properties":\x7b"score":0,"TOIADDR":null\x7d,"geometry":null\x7d\n
geojson none TOADDR_TEXT; {rt1 TOADDR=________98A}\n{rt1 TOADDR=}\n;; ok 2;
  \x7b"type":"Feature","properties":\x7b"score":0,"TOADDR_TEXT":"98A"\x7d,"geometry":null\x7d\n
   \x7b"type":"Feature","properties":\x7b"score":0,"TOADDR_TEXT":null\x7d,"geometry":null\x7d\n
geojson none FENAME; {rt1 FENAME=\x01a}\n;; ok 1; \x7b"type":"Feature","properties":\x7b"score":0,"FENAME":"\x5cu0001a"\x7d,"geometry":null\x7d\n
geojson none FENAME; {rt1 FENAME=Pe\xf1a}\n;; ok 1; \x7b"type":"Feature","properties":\x7b"score":0,"FENAME":"Pe\xc3\xb1a"\x7d,"geometry":null\x7d\n
geojson line FRLAT; {rt1}\n;; ok 1; \x7b"type":"Feature","properties":\x7b"score":0,"FRLAT":32.400000\x7d,
   "geometry":\x7b"type":"LineString","coordinates":[[-86.500000,32.400000],[-86.490000,32.410000]]\x7d\x7d\n
geojson shape FRLAT; {rt1}\n; {rt2 LONG2=}\n; ok 1; \x7b"type":"Feature","properties":\x7b"score":0,"FRLAT":32.400000\x7d,
   "geometry":\x7b"type":"LineString","coordinates":[[-86.500000,32.400000],[-86.498000,32.403000],[-86.490000,32.410000]]\x7d\x7d\n"#,
);

/// A layer, the files of types 1 and 2, the outcome, and what is written.
#[derive(Drop)]
struct Case<'a> {
    layer: Layer,
    rt1: Vec<u8>,
    rt2: Vec<u8>,
    outcome: &'a str,
    text: Vec<u8>,
}

impl<'a> Case<'a> {
    fn new(alloc: Global, row: &'a str) -> Result<Self, TableFault> {
        let (layer, rt1, rt2, outcome, text) = cells(row)?.five()?;
        Ok(Case {
            layer: layer_of(layer)?,
            rt1: bytes(alloc, rt1)?,
            rt2: bytes(alloc, rt2)?,
            outcome,
            text: bytes(alloc, text)?,
        })
    }

    /// Writes the layer of all segments, with a type 2 file that fails like `plan`.
    fn write<A: Allocator + Copy, W: CountedWrite>(
        &self,
        alloc: A,
        verified: &Verified<Global>,
        plan: FaultPlan,
        out: &mut W,
    ) -> Result<u64, ExtractFault> {
        self.layer.write_header(out)?;
        let sound = FaultPlan::sound();
        let shapes = if self.layer.has_shapes() {
            Some(reader(self.rt2.as_slice(), plan))
        } else {
            None
        };
        let mut files = CountyFiles {
            rt1: reader(self.rt1.as_slice(), sound),
            joined: JoinedFiles {
                rt4: reader(b"", sound),
                rt5: reader(b"", sound),
                rt6: reader(b"", sound),
            },
            shapes,
        };
        let written = write_county(alloc, verified, &mut files, &self.layer, out);
        let CountyFiles {
            rt1: _rt1,
            joined: JoinedFiles {
                rt4: _rt4,
                rt5: _rt5,
                rt6: _rt6,
            },
            shapes: _shapes,
        } = files;
        written
    }

    /// Returns whether this is the outcome of the row, and this was written.
    fn is_right(&self, given: Result<u64, ExtractFault>, out: &Writer) -> bool {
        let is_outcome = match given {
            Ok(count) => fixtures::is_outcome(Ok(count), self.outcome),
            Err(fault) => is_refusal(fault.line().as_str(), self.outcome),
        };
        is_outcome && taken(out) == self.text.as_slice()
    }
}

/// Parses the form of a layer, its geometry and its column.
pub fn layer_of(cell: &str) -> Result<Layer, TableFault> {
    let (form, rest) = cell.split_once(' ').ok_or(TableFault::Word)?;
    let (geometry, name) = rest.split_once(' ').ok_or(TableFault::Word)?;
    let layout = TableOptions {
        columns: Columns::named(&[name]).map_err(|_fault| TableFault::Word)?,
        geometry: geometry_of(geometry)?,
    };
    match form {
        "rows" => Ok(Layer::Rows),
        "csv" => Ok(Layer::Table(layout)),
        "geojson" => Ok(Layer::Features(layout)),
        _ => Err(TableFault::Word),
    }
}

fn geometry_of(word: &str) -> Result<Geometry, TableFault> {
    match word {
        "none" => Ok(Geometry::None),
        "line" => Ok(Geometry::Line),
        "shape" => Ok(Geometry::Shape),
        _ => Err(TableFault::Word),
    }
}

/// Returns whether a row is right, with the program that selects every segment.
fn is_row_right(alloc: Global, verified: &Verified<Global>, row: &str) -> Result<bool, TableFault> {
    let case = Case::new(alloc, row)?;
    let mut out = writer(alloc, FaultPlan::sound());
    let given = case.write(alloc, verified, FaultPlan::sound(), &mut out);
    Ok(case.is_right(given, &out))
}

/// Returns whether the layer of a row ends out of memory if any of its allocations is refused.
fn is_swept(alloc: Global, verified: &Verified<Global>, row: &str) -> Result<bool, TableFault> {
    let case = Case::new(alloc, row)?;
    let heap = Refusing::new(alloc);
    let sound = FaultPlan::sound();
    for nth in 1..=u64::MAX {
        heap.refuse(nth);
        let given = case.write(&heap, verified, sound, &mut writer(alloc, sound));
        if !heap.was_refused() {
            return Ok(true);
        }
        if given != Err(ExtractFault::Memory) {
            return Ok(false);
        }
    }
    Ok(false)
}

/// Returns whether a layer with shapes is refused if any read of the first line of its type 2 file fails, and only its header is written.
fn is_each_read_refused(
    alloc: Global,
    verified: &Verified<Global>,
    kind: ErrorKind,
) -> Result<bool, TableFault> {
    let row = r"csv shape ZIPL; {rt1}\n; {rt2}\n; refused 5 rt2 line 1 Read; score,ZIPL,WKT\n";
    let case = Case::new(alloc, row)?;
    let plan = FaultPlan {
        failure: InjectedFailure::Fails(kind),
        ..FaultPlan::sound()
    };
    for read in 1..=209 {
        let mut out = writer(alloc, FaultPlan::sound());
        let given = case.write(alloc, verified, plan.at_call(read), &mut out);
        if !case.is_right(given, &out) {
            return Ok(false);
        }
    }
    Ok(true)
}

/// Returns whether the layer of a row, if it isn't refused, is written up to a write that fails.
fn is_each_write_refused(
    alloc: Global,
    verified: &Verified<Global>,
    row: &str,
) -> Result<bool, TableFault> {
    let case = Case::new(alloc, row)?;
    let plan = FaultPlan::new("pipe")?;
    for length in 0..case.text.len() {
        let mut out = writer(alloc, plan.after(length));
        let given = case.write(alloc, verified, FaultPlan::sound(), &mut out);
        if given != Err(ExtractFault::Write(WriteFault::Write))
            || taken(&out) != &case.text[..length]
        {
            return Ok(false);
        }
    }
    Ok(true)
}

/// The program that selects every segment.
pub fn every(rt: &impl Abort, alloc: Global) -> Verified<Global> {
    let program = program(alloc, "every").expect(rt, "program");
    accept(alloc, &program).expect(rt, "accepted")
}

#[test]
fn layers(rt: HostRuntime) {
    let verified = every(&rt, rt.alloc());
    for row in LAYERS.joined(rt.alloc()).expect(&rt, "layers").lines() {
        assert_eq!(rt; is_row_right(rt.alloc(), &verified, row), Ok(true), "{row}");
    }
}

#[test]
fn each_growth(rt: HostRuntime) {
    let verified = every(&rt, rt.alloc());
    for row in LAYERS.joined(rt.alloc()).expect(&rt, "layers").lines() {
        assert_eq!(rt; is_swept(rt.alloc(), &verified, row), Ok(true), "{row}");
    }
}

#[test]
fn each_read(rt: HostRuntime) {
    let verified = every(&rt, rt.alloc());
    for kind in ["interrupted", "blocked", "pipe", "late"] {
        let kind = error_kind(kind).expect(&rt, "kind");
        assert_eq!(rt; is_each_read_refused(rt.alloc(), &verified, kind), Ok(true));
    }
}

#[test]
fn each_write(rt: HostRuntime) {
    let verified = every(&rt, rt.alloc());
    for row in LAYERS.joined(rt.alloc()).expect(&rt, "layers").lines() {
        assert_eq!(rt;
            is_each_write_refused(rt.alloc(), &verified, row),
            Ok(true),
            "{row}"
        );
    }
}
