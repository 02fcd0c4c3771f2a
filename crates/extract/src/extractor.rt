//! The extract of segments, from a county's files or from memory.
//!
//! One engine for rows and every other format, so that each fault's case is proved once. A line of type 1 is read, run and written before the next
//! one is read: no memory grows with the file, and after a fault in a line all selected lines before it have been written.
ghost use Rattle.std.specs.Prelude.{◌≡◌, Err, IfErr, IfOk};
ghost use Rattle.tl_segments.specs.County.{segment_readers};
ghost use Rattle.tl_segments.specs.Loading.{IsJoinedFault, Readers, readers};
ghost use Rattle.extract.specs.Extracting.{IsOutcome, IsOutcomeOfCodeIn, ServesExtract, WritesSegments};
ghost use Rattle.bpf_program.specs.declared.program.ProgramFault.{ProgramFault};

use crate::fault::ExtractFault;
use crate::formatting::Format;
use crate::row_buffer::RowBuffer;
use crate::rows::write_if_chosen;
use bpf_machine::Bare;
use bpf_program::accept;
use bpf_verify::Verified;
use counted_io::{CountedRead, CountedWrite, WriteFault};
use std::alloc::Allocator;
use tl_segments::{CountyFiles, Index, LoadFault, Segment};

/// Writes the rows of a county's segments that a program selects, in the order of the type 1 file, and returns their number.
///
/// The program is accepted first. Then the files of types 4, 5 and 6 are read, in this order, each to its end; only what the program's segments need
/// is stored. Finally the type 1 file is read line by line: a line's row is passed to the writer before the next line is read, and nothing of a line is
/// stored after its row. The first fault is therefore reported from the program, then the files of types 4, 5 and 6, then the type 1 file. After a
/// fault in line n of type 1, the rows of all earlier lines have been written; after any earlier fault, nothing has. Nothing is flushed, and no read
/// or write is retried, not even after `Interrupted`.
/// No caller in this program: part of the library's fixed interface.
pub fn extract<A: Allocator + Copy, R: CountedRead, W: CountedWrite>(
    alloc: A,
    program: &[u8],
    rt1: &mut R,
    rt4: &mut R,
    rt5: &mut R,
    rt6: &mut R,
    out: &mut W,
) -> Result<u64, ExtractFault>
    ensures outcome { IsOutcome program.now result
        (record { rt1 = R.reader rt1.old; joined = readers R.reader rt4.old rt5.old rt6.old })
        (record { rt1 = R.reader rt1.new; joined = readers R.reader rt4.new rt5.new rt6.new })
        (W.writer out.old) (W.writer out.new) }
    // If the program is refused, the readers and the writer are entirely unchanged.
    ensures untouched { (fault : ProgramFault) → result ≡ Err (ExtractFault.Program fault)
        → (rt1.new ≡ rt1.old) × (rt4.new ≡ rt4.old) × (rt5.new ≡ rt5.old) × (rt6.new ≡ rt6.old) × (out.new ≡ out.old) }
{
    // Before any file is read, so a refused program leaves the readers as they are.
    let verified = accept(alloc, program)?;
    let mut row = RowBuffer::new();
    let index = load_index(alloc, &verified, &row, rt4, rt5, rt6)?;
    write_selected(&verified, &index, rt1, &mut row, out)
}

/// Does what [`extract`] does after it has accepted the program, and writes the segments in this format. A caller with several counties accepts its
/// program once.
pub fn extract_verified_in<
    A: Allocator + Copy,
    B: Allocator,
    R: CountedRead,
    F: Format,
    W: CountedWrite,
>(
    alloc: A,
    verified: &Verified<B>,
    files: &mut CountyFiles<R>,
    format: &mut F,
    out: &mut W,
) -> Result<u64, ExtractFault>
    ensures outcome { IsOutcomeOfCodeIn (F.text_of format.old) verified.now.code result
        (segment_readers R.reader files.old) (segment_readers R.reader files.new)
        (W.writer out.old) (W.writer out.new) }
    // The type 2 file isn't read, and the format stays the same.
    ensures shapes { files.new.shapes ≡ files.old.shapes }
    ensures same { F.text_of format.new ≡ F.text_of format.old }
{
    // Lent one by one, as contracts can't follow readers that are lent inside a value.
    let joined = &mut files.joined;
    let index = load_index(
        alloc,
        verified,
        format,
        &mut joined.rt4,
        &mut joined.rt5,
        &mut joined.rt6,
    )?;
    write_selected(verified, &index, &mut files.rt1, format, out)
}

/// Reads the files of types 4, 5 and 6 to their ends and keeps what the code and the format use: nothing if both read the record alone.
fn load_index<A: Allocator + Copy, B: Allocator, F: Format, R: CountedRead>(
    alloc: A,
    verified: &Verified<B>,
    format: &F,
    rt4: &mut R,
    rt5: &mut R,
    rt6: &mut R,
) -> Result<Index<A>, LoadFault>
    ensures ok { IfOk result (λ index. ServesExtract (F.text_of format.now) verified.now.code index
        (readers R.reader rt4.old rt5.old rt6.old) (readers R.reader rt4.new rt5.new rt6.new)) }
    ensures err { IfErr result (λ fault. IsJoinedFault fault
        (readers R.reader rt4.old rt5.old rt6.old) (readers R.reader rt4.new rt5.new rt6.new)) }
{
    // The files are still read to their ends, since their faults are part of the answer. Keeping nothing of them saves half the time.
    if verified.reads_record_alone() && format.reads_record_alone() {
        Index::check(alloc, rt4, rt5, rt6)?;
        return Ok(Index::new(alloc));
    }
    let index = Index::load(alloc, rt4, rt5, rt6)?;
    Ok(index)
}

/// Writes the selected lines of a type 1 file in a format, each before the next line is read, and returns their number. The index may lack what
/// the code and the format don't use.
fn write_selected<A: Allocator + Copy, B: Allocator, R: CountedRead, F: Format, W: CountedWrite>(
    verified: &Verified<B>,
    index: &Index<A>,
    rt1: &mut R,
    format: &mut F,
    out: &mut W,
) -> Result<u64, ExtractFault>
    ensures outcome { (old new : Readers) → ServesExtract (F.text_of format.old) verified.now.code index.now old new
        → IsOutcomeOfCodeIn (F.text_of format.old) verified.now.code result
        (record { rt1 = R.reader rt1.old; joined = old })
        (record { rt1 = R.reader rt1.new; joined = new })
        (W.writer out.old) (W.writer out.new) }
    ensures same { F.text_of format.new ≡ F.text_of format.old }
{
    let mut number = 0;
    // One segment serves all lines: clearing a new one took 5 % of a small filter's time.
    let mut segment = index.blank_segment();
    let mut bare = Bare::start();
    let mut count = 0;
    // Type 1 comes last, as what is joined has to be known before, and no memory grows with the longest file.
    while let Some(()) = index.next_segment(rt1, &mut number, &mut segment)? {
        // Before the next line is read, so a failed write comes before a fault of that line.
        count += write_if_chosen(verified, &segment, &mut bare, format, out)?;
    }
    Ok(count)
}

/// Writes those of the segments that the code selects, in order, in a format. It stops at the first failed write. Nothing is retried, and nothing is
/// flushed.
pub fn write_segments<A: Allocator, B: Allocator, F: Format, W: CountedWrite>(
    verified: &Verified<B>,
    segments: &[Segment<A>],
    format: &mut F,
    out: &mut W,
) -> Result<(), WriteFault>
    ensures written { WritesSegments (F.text_of format.old) verified.now.code segments.now result (W.writer out.old) (W.writer out.new) }
    ensures same { F.text_of format.new ≡ F.text_of format.old }
{
    // A loop of its own: readers can't be lent inside a value, so this can't be the loop above over another kind of source.
    let mut bare = Bare::start();
    for segment in segments {
        write_if_chosen(verified, segment, &mut bare, format, out)?;
    }
    Ok(())
}
