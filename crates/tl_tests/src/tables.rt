//! Malformed tables and cells, which the reader of tables has to refuse.
use fixtures::{FaultPlan, Files, Table, TableFault, bytes, cells, number, program};
use std::alloc::Global;

// A way of reading, and a text that it refuses.
const REFUSED: &str = "\
number|
number|none
number|1O1
number|+7
number|-7
number| 7
number|7z
number|18446744073709551616
bytes|{rt1
bytes|rt1}
bytes|{rt3}
bytes|{rt1 FENAM=Oak}
bytes|{rt5 TLID=5}
bytes|{rt1 TLID=12345678901}
bytes|{rt1 ..x}
bytes|{rt1 ..229}
bytes|{rt1 227}
bytes|{rt1*6O}
bytes|{rt1#1.9}
bytes|{rt1#1..x}
bytes|{x\\trt1}
bytes|{evry}
bytes|{evry*3}
bytes|{text x*}
bytes|{asm mov r0}
bytes|\\q
bytes|\\x4
bytes|\\xFF
program|mov r0
program|evry
program|mov r0, 1 *x
program|hex 7z
program|hex 123
device|call
device|call x
device|by one
device|after
device|cut -1
device|pip";

// Rows that haven't four cells.
const CELLS: &str = "\
a
a; b; c
a; b; c; d; e";

/// Returns whether a text of a row is refused, and not because memory ran out.
fn is_refused(alloc: Global, row: &str) -> bool {
    let fault = match row.split_once('|') {
        Some(("number", text)) => number(text).err(),
        Some(("bytes", text)) => bytes(alloc, text).err(),
        Some(("program", text)) => program(alloc, text).err(),
        Some(("device", text)) => FaultPlan::new(text).err(),
        _ => None,
    };
    matches!(fault, Some(TableFault::Number | TableFault::Word))
}

#[test]
fn bad_cells(rt: HostRuntime) {
    for row in REFUSED.lines() {
        assert!(rt; is_refused(rt.alloc(), row), "{row}");
    }
    for row in CELLS.lines() {
        let fault = cells(row).and_then(|row| row.four()).err();
        assert_eq!(rt; fault, Some(TableFault::Cells), "{row}");
    }
}

#[test]
fn bad_tables(rt: HostRuntime) {
    assert_eq!(rt;
        Table("\n").joined(rt.alloc()).err(),
        Some(TableFault::Rows)
    );
    assert!(rt; Table(CELLS).joined(rt.alloc()).is_ok());
    assert!(rt; Files::new(rt.alloc(), ("", "{rt4}", "{rt5 FEAT=7}", "{rt6}")).is_ok());
    assert!(rt; Files::new(rt.alloc(), ("", "{rt4}", "{rt5 FEAT=7}", "{rt6")).is_err());
}
