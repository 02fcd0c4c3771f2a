//! Frame maps, compared with a simple model of 512 booleans.
ghost use Rattle.std.specs.Prelude.{IfOk};
ghost use Rattle.bpf_frame.specs.FrameMap.{IsProper};

use bpf_frame::FrameMap;
use bpf_insn::{FRAME_LENGTH, SLOTS};
use bpf_kinds::{Kind, Order};
use fixtures::{Table, TableFault, cells, size};

// The marks of two maps, as runs of a first offset and a length; whether the first map has the same marks as the second, more, fewer or others; and
// the bytes that are written in both, as such runs.
const MAPS: Table = Table(
    "\
60+8; 60+8; same; 60+8
0+512; 0+512; same; 0+512
511+1; 448+64; fewer; 511+1
64+0;; same;
; 0+512; fewer;
0+0 511+0 512+0; 0+512; fewer;
60+8; 60+9; fewer; 60+8
0+64; 64+64; others;
63+2; 0+64 65+447; others; 63+1
0+512; 511+1; more; 511+1
0+1; 0+511; fewer; 0+1
0+1 2+1 4+1; 1+1 3+1 5+1; others;
60+8 68+4 72+8; 63+14; more; 63+14
510+2 0+2; 1+510; others; 1+1 510+1
128+64 120+20; 127+66; others; 127+65
504+8; 496+12; others; 504+4
508+4 504+4; 504+8; same; 504+8
154+6 74+24 374+14 219+0; 428+0 92+108 60+31 228+15 406+0; others; 74+17 92+6 154+6
136+13 147+30; 185+0 381+0 61+52 508+3; others;
476+29 370+7 184+1 307+126; 459+19 74+1 168+4 500+0; others; 476+2
321+22 358+127; 70+1 485+0 317+174 456+22 395+0; fewer; 321+22 358+127
0+65; 0+64; more; 0+64
0+192; 64+64; more; 64+64
0+64 128+64 256+64 384+64; 64+64 192+64 320+64 448+64; others;
63+1 64+1; 63+2; same; 63+2
63+1; 64+1; others;
127+130; 128+128; more; 128+128
447+65; 448+64; more; 448+64
447+2; 448+1 511+1; others; 448+1
448+1 511+1; 448+64; fewer; 448+1 511+1
64+0 128+0 448+0; 511+0 512+0; same;
363+1 505+0 294+3 407+63 82+7; 284+6 285+45 389+2 84+2 237+0; others; 84+2 294+3",
);

/// Returns whether two maps compare as a row says, and have the row's bytes written in both.
fn is_map(row: &str) -> Result<bool, TableFault> {
    let (map, other, order, written) = cells(row)?.four()?;
    let (map, _) = marked(map)?;
    let (other, _) = marked(other)?;
    let (_, written) = marked(written)?;
    let mut joined = map.duplicate();
    joined.join_with(&other);
    let is_ordered = (map.leq(&other), other.leq(&map)) == orders(order)?;
    Ok(is_ordered && has_exactly(&joined, &written) && has_exactly(&other.join(&map), &written))
}

/// Returns whether the first of two maps has all marks of the second, and whether the second has all of the first, for a word that compares them.
fn orders(word: &str) -> Result<(bool, bool), TableFault> {
    match word {
        "same" => Ok((true, true)),
        "more" => Ok((true, false)),
        "fewer" => Ok((false, true)),
        "others" => Ok((false, false)),
        _ => Err(TableFault::Word),
    }
}

#[test]
fn maps(rt: HostRuntime) {
    assert!(rt; size_of::<FrameMap>() == 64 + SLOTS * size_of::<Kind>());
    for row in MAPS.joined(rt.alloc()).expect(&rt, "maps").lines() {
        assert_eq!(rt; is_map(row), Ok(true), "{row}");
    }
}

/// Returns the map with the given runs of bytes marked, and the same bytes as booleans. The runs must lie within the frame.
fn marked(text: &str) -> Result<(FrameMap, [bool; FRAME_LENGTH]), TableFault>
    ensures { IfOk result (λ both. IsProper both.0) }
{
    let mut map = FrameMap::unwritten();
    let mut written = [false; FRAME_LENGTH];
    for run in text.split_whitespace() {
        let (from, len) = run_of(run)?;
        if len > FRAME_LENGTH || from > FRAME_LENGTH - len {
            return Err(TableFault::Number);
        }
        map.mark(from, len);
        written[from..from + len].fill(true);
    }
    Ok((map, written))
}

/// Reads a run: its first offset and its length.
fn run_of(text: &str) -> Result<(usize, usize), TableFault> {
    let (from, len) = text.split_once('+').ok_or(TableFault::Word)?;
    Ok((size(from)?, size(len)?))
}

/// Returns whether a map reports exactly these bytes as written: for each two neighbours, and from each offset to the end of its run but no
/// further.
fn has_exactly(map: &FrameMap, written: &[bool; FRAME_LENGTH]) -> bool {
    let mut end = FRAME_LENGTH;
    for from in (0..FRAME_LENGTH).rev() {
        if !written[from] {
            end = from;
        }
        let run = from < end && end <= FRAME_LENGTH && map.all_written(from, end - 1);
        let beyond = from <= end && end < FRAME_LENGTH && map.all_written(from, end);
        let next = from + 1 < FRAME_LENGTH && written[from + 1];
        let both = from + 1 < FRAME_LENGTH && map.all_written(from, from + 1);
        if run != written[from] || beyond || both != (written[from] && next) {
            return false;
        }
    }
    true
}
