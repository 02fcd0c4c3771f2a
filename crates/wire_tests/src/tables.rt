//! Tables and scripts of requests.
use crate::notation::files_of;
use crate::rows::{Row, push_rows, rows_of};
use crate::trials::{Server, Trial};
use crate::{examples, filter_routes, heads, lengths, queries, routes, scripts};
use fixtures::{Files, Refusing, Table, TableFault};
use std::alloc::Global;

/// Returns the first wrong row of a script in a trial, or, as an error, the first malformed one. The script's first line has the counties, and each
/// row below is applied after those before it. With a step of 0, one server tries each row at all places in order; otherwise each pass has its own
/// server and the next place.
fn wrong_in_script<'a>(
    alloc: Global,
    script: &'a str,
    trial: Trial,
    passes: usize,
    step: usize,
) -> Result<Option<&'a str>, (&'a str, TableFault)> {
    let (counties, table) = script.split_once('\n').ok_or((script, TableFault::Rows))?;
    let files = files_of(alloc, counties).map_err(|fault| (counties, fault))?;
    let rows = rows_of(alloc, table, matches!(trial, Trial::Growths))?;
    for pass in 0..passes {
        let first = pass.saturating_mul(step);
        let last = if step == 0 { usize::MAX } else { first };
        let wrong = wrong_over(alloc, &files, &rows, trial, first, last);
        if wrong.is_some() {
            return Ok(wrong);
        }
    }
    Ok(None)
}

/// Returns the first wrong row on a new server.
fn wrong_over<'a>(
    alloc: Global,
    files: &[Files],
    rows: &[Row<'a>],
    trial: Trial,
    first: usize,
    last: usize,
) -> Option<&'a str> {
    let heap = Refusing::new(alloc);
    match Server::new(alloc, &heap, files) {
        Some(mut server) => server.wrong_row(rows, trial, first, last),
        None => Some("no server"),
    }
}

/// Returns the first row of these scripts that is wrong or malformed. The scripts are separated by empty lines.
pub fn wrong_in(
    alloc: Global,
    scripts: Table,
    trial: Trial,
    passes: usize,
    step: usize,
) -> Result<Option<String>, TableFault> {
    let scripts = scripts.joined(alloc)?;
    for script in scripts.split("\n\n") {
        match wrong_in_script(alloc, script, trial, passes, step) {
            Ok(None) => {}
            Ok(Some(row)) => return Ok(Some(String::from_str(alloc, row)?)),
            Err((row, fault)) => return Ok(Some(format!(in alloc; "{fault:?} in {row}")?)),
        }
    }
    Ok(None)
}

#[test]
fn heads_and_queries(rt: HostRuntime) {
    for rows in [heads::HEADS, queries::QUERIES] {
        assert_eq!(rt;
            wrong_in(rt.alloc(), rows, Trial::cut(usize::MAX), 1, 0),
            Ok(None)
        );
        assert_eq!(rt; wrong_in(rt.alloc(), rows, Trial::cut(1), 1, 1), Ok(None));
    }
}

#[test]
fn bodies(rt: HostRuntime) {
    for rows in [
        lengths::LENGTHS,
        routes::PROGRAMS,
        examples::REQUESTS,
        filter_routes::FILTERS,
        filter_routes::OPTIONS,
        filter_routes::LISTINGS,
    ] {
        assert_eq!(rt;
            wrong_in(rt.alloc(), rows, Trial::cut(usize::MAX), 1, 0),
            Ok(None)
        );
        assert_eq!(rt; wrong_in(rt.alloc(), rows, Trial::cut(1), 1, 1), Ok(None));
    }
}

#[test]
fn long_requests(rt: HostRuntime) {
    for rows in [heads::LIMITS, lengths::LARGE, examples::ENDS, routes::LONG] {
        assert_eq!(rt;
            wrong_in(rt.alloc(), rows, Trial::cut(usize::MAX), 1, 0),
            Ok(None)
        );
        assert_eq!(rt; wrong_in(rt.alloc(), rows, Trial::cut(509), 1, 1), Ok(None));
    }
}

#[test]
fn scripts(rt: HostRuntime) {
    for (scripts, passes, step) in [
        (examples::BLOCKS, 36, 5),
        (examples::TURNS, 10, 17),
        (routes::COUNTIES, 16, 5),
        (queries::COUNTIES, 16, 5),
        (filter_routes::SCRIPTS, 16, 5),
        (scripts::SCRIPTS, 16, 5),
        (scripts::TURNS, 5, 17),
        (scripts::LONG, 3, 262_147),
        (scripts::FULL, 8, 13),
    ] {
        let wrong = wrong_in(rt.alloc(), scripts, Trial::cut(7), passes, step);
        assert_eq!(rt; wrong, Ok(None));
    }
}

#[test]
fn rows_of_more_than_a_mebibyte(rt: HostRuntime) {
    let wrong = wrong_in(rt.alloc(), scripts::ROWS, Trial::cut(usize::MAX), 1, 1);
    assert_eq!(rt; wrong, Ok(None));
}

// What is read, and a text that it refuses.
const REFUSED: Table = Table(
    r"row|GET /jobs/1{end}
row|GET /jobs/1{end} =>
row|GET /jobs/1{end} =>404
row|GET /jobs/1{end} => 404 => 404
row|GET /jobs/1{ned} => 404
row|GET /jobs/1{end} => 40
row|GET /jobs/1{end} => 4040
row|GET /jobs/1{end} => 404 not found
row|GET /jobs/1{end} => 200
row|GET /jobs/1{end} => 200 txt 1 1
row|GET /jobs/1{end} => 200 text1 1
row|GET /jobs/1{end} => 200 text {rt3}
row|GET /jobs/1{end} => =404 Not Found; text/plain; not found\n
row|GET /jobs/1{end} => =404 Not Found; text/plain; x; not found\n
row|GET /jobs/1{end} => =404 Not Found; text/plain; ; not found\n
row|GET /jobs/1{end} => =404 Not Found; text/plain; 10; not found\n; GET
row|PUT /jobs/1{end} => =405 Method Not Allowed; text/plain; 19; method not allowed\n
row|POST /jobs HTTP/1.1>> {every} => 400
row|POST /jobs HTTP/1.1 >>{every} => 400
row|POST /jobs HTTP/1.1 >> {every} >> {every} => 400
row|POST /jobs HTTP/1.1 >> {evry} => 400
row|turn none
row|trun => none
row|jobs => x
row|jobs => 0
row|job => -1
row|job => 0
marked|turn => none
marked|* turn => none
marked|+ turn
counties|
counties|{rt1}\n |
counties|{rt1}\n; {rt4}\n; {rt5}\n
counties|{rt1}\n; {rt4}\n; {rt5}\n; {rt6}\n;
trial|end; all
trial|end; all; pipe
trial|read; all; none
trial|read; 1; nothing
trial|write; one; pipe
trial|cut; 1; none",
);

/// Returns whether a text of a row is refused, and not because memory ran out.
fn is_refused(alloc: Global, row: &str) -> bool {
    let mut rows = Vec::new(alloc);
    let fault = match row.split_once('|') {
        Some(("row", text)) => push_rows(alloc, &mut rows, text, false).err(),
        Some(("marked", text)) => push_rows(alloc, &mut rows, text, true).err(),
        Some(("counties", text)) => files_of(alloc, text).err(),
        Some(("trial", text)) => Trial::new(text).err(),
        _ => None,
    };
    matches!(
        fault,
        Some(TableFault::Cells | TableFault::Number | TableFault::Word)
    )
}

#[test]
fn malformed(rt: HostRuntime) {
    for row in REFUSED.joined(rt.alloc()).expect(&rt, "refused").lines() {
        assert!(rt; is_refused(rt.alloc(), row), "{row}");
    }
    // A script without rows.
    let script = Table("-");
    assert_ne!(rt; wrong_in(rt.alloc(), script, Trial::cut(1), 1, 0), Ok(None));
}
