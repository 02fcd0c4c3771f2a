//! The names that the tables use in addition to the common notation, and counties.
use fixtures::{FileTexts, Files, TableFault, bytes, cells, county};
use std::alloc::{Allocator, Global};
use tl_segments::County;

// The end of a head without headers, and of one with curl's headers, whose version doesn't matter.
const END: &str = r" HTTP/1.1\r\n\r\n";

const CURL: &str = r" HTTP/1.1\r\nHost: 127.0.0.1:8080\r\nUser-Agent: curl/8.5.0\r\nAccept: */*";

// The segment of examples/one, and its county.
const LANTERN: &str =
    "10006 107000725 A  Lantern{text  *23}Ct    A61{text  *8}201{text  *8}299{text  *22}00  36067{text  *19}\
    01010010019010190101{text  *10}505055050502070002070015951123-086629875+32411825-086629750+32412484";

const ONE: &str = "{lantern}\\r\\n; \
    40006 107000725  1     130     133{text  *24}\\r\\n; \
    5000601001     130  Old Lantern{text  *19}Ct    \\r\\n5000601001     133  County Road 67{text  *22}\\r\\n; \
    60006 107000725  1       3901       3999{text  *22}01  36067     \\r\\n";

// The program examples/programs/not_water.s and its text.
const NOT_WATER: &str = "{asm ldxb r0, [r1+55] | add r0, -72 | exit}";

const NOT_WATER_TEXT: &str = "\
; every segment that isn't hydrography
ldxb r0, [r1+55]    ; the first letter of its class
add r0, -72         ; H is 72: 0 for hydrography alone
exit
";

const NAMES: [(&str, &str); 6] = [
    ("{end}", END),
    ("{curl}", r"{head of curl}\r\n\r\n"),
    ("{head of curl}", CURL),
    ("{lantern}", LANTERN),
    ("{not_water}", NOT_WATER),
    ("{not_water.s}", NOT_WATER_TEXT),
];

/// Returns a text in the common notation, with these names replaced.
fn spelled_out(alloc: Global, text: &str) -> Result<String, TableFault> {
    let mut spelled = String::from_str(alloc, text)?;
    for (name, meant) in NAMES {
        spelled = spelled.replace(alloc, name, meant)?;
    }
    Ok(spelled)
}

pub fn bytes_of(alloc: Global, text: &str) -> Result<Vec<u8>, TableFault> {
    bytes(alloc, &spelled_out(alloc, text)?)
}

/// Returns the files of counties, with `|` between counties; those of examples/one; or none, for `-`.
pub fn files_of(alloc: Global, text: &str) -> Result<Vec<Files>, TableFault> {
    let mut counties = Vec::new(alloc);
    if text == "-" {
        return Ok(counties);
    }
    let text = if text == "one" { ONE } else { text };
    for county in spelled_out(alloc, text)?.split('|') {
        counties.push(Files::new(alloc, file_cells(county.trim())?)?)?;
    }
    Ok(counties)
}

/// Returns the cells of a county's files: those of types 1, 4, 5 and 6, or that of type 1 alone.
fn file_cells(county: &str) -> Result<FileTexts<'_>, TableFault> {
    match county {
        "" => Err(TableFault::Cells),
        _ if county.contains(';') => cells(county)?.four(),
        _ => Ok((county, "", "", "")),
    }
}

/// Loads the counties with these files.
pub fn counties_of<A: Allocator + Copy>(alloc: A, files: &[Files]) -> Option<Vec<County<A>, A>> {
    let mut counties = Vec::new(alloc);
    for files in files {
        counties.push(county(alloc, files).ok()?).ok()?;
    }
    Some(counties)
}
