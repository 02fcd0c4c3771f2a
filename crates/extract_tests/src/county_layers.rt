//! Layers of counties in memory. Each has the text that the layer of their lines has without a file of type 2.
use crate::layer_texts::{every, layer_of};
use crate::segments::{counties_of, sizes_of};
use bpf_verify::Verified;
use fixtures::{Refusing, Table, TableFault, bytes, cells};
use layers::{Layer, lay_out};
use std::alloc::{AllocError, Global};

// The form of a layer, its geometry and its column; the lines of type 1, and how many each county has; the text.
const LAYERS: Table = Table(
    r#"
rows none TLID; {rt1}\n{rt1 TLID=5}\n; 1 1; 0\t{rt1}\n0\t{rt1 TLID=5}\n
csv none TLID;; none; score,TLID\n
csv shape ZIPL; {rt1}\n{rt1 TOLAT=}\n; 0 2;
  score,ZIPL,WKT\n0,36067,"LINESTRING (-86.500000 32.400000,-86.490000 32.410000)"\n0,36067,\n
geojson none TLID; {rt1}\n; 1 0; \x7b"type":"Feature","properties":\x7b"score":0,"TLID":123456789\x7d,"geometry":null\x7d\n
"#,
);

/// Counties, the form of their layer, and its text.
#[derive(Drop)]
struct Case {
    layer: Layer,
    lines: Vec<u8>,
    sizes: Vec<usize>,
    text: Vec<u8>,
}

impl Case {
    fn new(alloc: Global, row: &str) -> Result<Self, TableFault> {
        let (layer, lines, sizes, text) = cells(row)?.four()?;
        Ok(Case {
            layer: layer_of(layer)?,
            lines: bytes(alloc, lines)?,
            sizes: sizes_of(alloc, sizes)?,
            text: bytes(alloc, text)?,
        })
    }

    /// Returns whether the layer of all segments has the text, and whether there is none if any of its allocations is refused.
    fn is_laid_out(&self, heap: &Refusing<Global>, verified: &Verified<Global>) -> bool {
        let Some(counties) = counties_of(heap, &self.lines, &self.sizes) else {
            return false;
        };
        for nth in 1..=u64::MAX {
            heap.refuse(nth);
            match lay_out(heap, verified, &counties, &self.layer) {
                Ok(text) => return !heap.was_refused() && text.as_slice() == self.text.as_slice(),
                Err(AllocError) => {
                    if !heap.was_refused() {
                        return false;
                    }
                }
            }
        }
        false
    }
}

fn is_right(alloc: Global, verified: &Verified<Global>, row: &str) -> Result<bool, TableFault> {
    Ok(Case::new(alloc, row)?.is_laid_out(&Refusing::new(alloc), verified))
}

#[test]
fn each_growth(rt: HostRuntime) {
    let verified = every(&rt, rt.alloc());
    for row in LAYERS.joined(rt.alloc()).expect(&rt, "layers").lines() {
        assert_eq!(rt; is_right(rt.alloc(), &verified, row), Ok(true), "{row}");
    }
}
