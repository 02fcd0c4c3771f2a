//! The order in which lines are read and rows written.
use counted_io::Counting;
use extract::extract;
use fixtures::{bytes, program};
use std::cell::Cell;
use std::io;
use std::io::{Read, Write};
use std::test::Fail;

/// A reader of 229-byte lines that checks, before the first byte of each, whether the rows of all earlier lines have been written.
#[derive(Drop)]
struct Asking<'a, 'b> {
    bytes: &'a [u8],
    taken: usize,
    written: &'b Cell<usize>,
    is_any_missing: bool,
}

impl<'a, 'b> Asking<'a, 'b> {
    fn new(bytes: &'a [u8], written: &'b Cell<usize>) -> Counting<Asking<'a, 'b>> {
        Counting::new(Asking {
            bytes,
            taken: 0,
            written,
            is_any_missing: false,
        })
    }
}

impl Read for Asking<'_, '_> {
    fn read(&mut self, buf: &mut [u8]) -> io::Result<usize> {
        let rows = self.taken / 229;
        if self.taken % 229 == 0 && self.written.get() / 231 != rows {
            self.is_any_missing = true;
        }
        let count = self.bytes.read(buf)?;
        self.taken = self.taken.wrapping_add(count);
        Ok(count)
    }
}

/// A writer that reports how many bytes it was given.
#[derive(Drop)]
struct Telling<'a> {
    written: &'a Cell<usize>,
}

impl Write for Telling<'_> {
    fn write(&mut self, buf: &[u8]) -> io::Result<usize> {
        self.written.set(self.written.get().wrapping_add(buf.len()));
        Ok(buf.len())
    }

    fn flush(&mut self) -> io::Result<()> {
        Ok(())
    }
}

#[test]
fn rows_leave_before_the_next_line(rt: HostRuntime) -> Result<(), Fail> {
    let program = program(rt.alloc(), "every")?;
    let file = bytes(rt.alloc(), r"{rt1\n*3}")?;
    let written = Cell::new(0);
    let mut rt1 = Asking::new(file.as_slice(), &written);
    let rows = extract(
        rt.alloc(),
        &program,
        &mut rt1,
        &mut Asking::new(b"", &written),
        &mut Asking::new(b"", &written),
        &mut Asking::new(b"", &written),
        &mut Counting::new(Telling { written: &written }),
    );
    assert_eq!(rt; (rows, written.get()), (Ok(3), 693));
    assert!(rt; !rt1.get_ref().is_any_missing);
    Ok(())
}
