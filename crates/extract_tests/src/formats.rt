//! An extract in a format other than rows.
ghost use Rattle.std.specs.Prelude.{◌+◌, ◌%◌, [], ◌∷◌, length};

use counted_io::{Buffered, CountedWrite, Counting, WriteFault, write_text};
use extract::{Format, accept, extract_verified_in};
use fixtures::{Files, Table, TableFault, bytes, cells, program};
use std::alloc::{Allocator, Global};
use tl_segments::{CountyFiles, JoinedFiles, Segment};

// A program, the files of types 1, 4 and 5, and the extract in the format `NameCount`. `every` and `roads` read the record alone.
const EXTRACTS: Table = Table(
    r"
every; {rt1}\n; {rt4 FEAT3=8}\n; {rt5 FEAT=8 FENAME=Elm}\n{rt5}\n; 2\n
every; {rt1 TLID=5}\n{rt1}\n; {rt4}\n; {rt5}\n; 0\n1\n
roads; {rt1 CFCC=H01}\n{rt1}\n{rt1 TLID=5}\n; {rt4}\n; {rt5}\n; 1\n0\n
counts; {rt1}\n;;; 0\n",
);

/// The format that writes the last digit of the number of a segment's alternate names.
#[derive(Drop)]
struct NameCount;

impl Format for NameCount {
    ghost text_of = { λ _ _ segment. (48 + length segment.names % 10) ∷ 10 ∷ [] };

    fn reads_record_alone(&self) -> bool {
        false
    }

    fn write_segment<A: Allocator, W: CountedWrite>(
        &mut self,
        _score: u64,
        segment: &Segment<A>,
        out: &mut W,
    ) -> Result<(), WriteFault> {
        let digit = b'0' + (segment.names() % 10) as u8;
        write_text(out, &[digit, b'\n'])
    }
}

/// Returns whether the extract of these files by this program has this text, and as many lines as it says.
fn is_extract(alloc: Global, program: &[u8], files: &Files, text: &[u8]) -> bool {
    let Ok(verified) = accept(alloc, program) else {
        return false;
    };
    let mut county = CountyFiles {
        rt1: Buffered::new(files.rt1.as_slice()),
        joined: JoinedFiles {
            rt4: Buffered::new(files.rt4.as_slice()),
            rt5: Buffered::new(files.rt5.as_slice()),
            rt6: Buffered::new(files.rt6.as_slice()),
        },
        shapes: None,
    };
    let mut out = Counting::new(Vec::new(alloc));
    let count = extract_verified_in(alloc, &verified, &mut county, &mut NameCount, &mut out);
    let CountyFiles {
        rt1: _rt1,
        joined: JoinedFiles {
            rt4: _rt4,
            rt5: _rt5,
            rt6: _rt6,
        },
        shapes: _shapes,
    } = county;
    count == Ok(text.len() as u64 / 2) && out.get_ref().as_slice() == text
}

fn is_right(alloc: Global, row: &str) -> Result<bool, TableFault> {
    let (name, rt1, rt4, rt5, text) = cells(row)?.five()?;
    let files = Files::new(alloc, (rt1, rt4, rt5, ""))?;
    let text = bytes(alloc, text)?;
    Ok(is_extract(alloc, &program(alloc, name)?, &files, &text))
}

#[test]
fn name_counts(rt: HostRuntime) {
    for row in EXTRACTS.joined(rt.alloc()).expect(&rt, "extracts").lines() {
        assert_eq!(rt; is_right(rt.alloc(), row), Ok(true), "{row}");
    }
}
