//! Matches of house numbers on streets, worked out by hand.
use crate::hits::{TwoCounties, text};
use fixtures::{Table, TableFault, bytes, cells};
use geocode::{Gazetteer, Match, Query, Street, StreetName, hit_lines};
use std::alloc::{AllocError, Allocator, Global};
use tl_segments::{County, LoadFault};

// The house number and the street's name; the direction before the name, the type, and the direction after the name, each `-` if it may be any;
// whether there is such a street; for each match the county's index, the fields of the name that matched, the side's FR and TO addresses and ZIP
// code, and the line of its hit; and the lines of all files of one county, or of two, separated by `/`.
pub const MATCHES: Table = Table(
    r"
151; main; -; -; -; yes; 0,,Main,,,101,199,36067,123456789\tL\t-86494898\t32405102\n; {rt1}\n
150; MAIN; -; -; -; yes; 0,,Main,,,100,198,36067,123456789\tR\t-86494898\t32405102\n; {rt1}\n
1510; main; -; -; -; yes;; {rt1}\n
151; mai; -; -; -; no;; {rt1}\n
151; main; -; st; -; yes; 0,,Main,St,,101,199,36067,123456789\tL\t-86494898\t32405102\n; {rt1 FETYPE=St}\n
151; main; -; S; -; no;; {rt1 FETYPE=St}\n
151; main; -; Ave; -; no;; {rt1 FETYPE=St}\n
151; main; -; Ave; -; no;; {rt1}\n
151; main; n; -; -; yes; 0,N,Main,,,101,199,36067,123456789\tL\t-86494898\t32405102\n; {rt1 FEDIRP=N}\n
151; main; NE; -; -; no;; {rt1 FEDIRP=N}\n
151; main; -; -; SW; yes; 0,,Main,,SW,101,199,36067,123456789\tL\t-86494898\t32405102\n; {rt1 FEDIRS=SW}\n
151; main; -; -; SW; no;; {rt1 FEDIRP=SW}\n
151; oak; -; -; -; yes; 0,,Oak,,,101,199,36067,123456789\tL\t-86494898\t32405102\n; {rt1}\n{rt4}\n{rt5}\n
151; main; -; Ave; -; yes; 0,,Main,Ave,,101,199,36067,123456789\tL\t-86494898\t32405102\n;
  {rt1 FETYPE=St}\n{rt4}\n{rt5 FENAME=Main FETYPE=Ave}\n
151; main; -; -; -; yes; 0,,Main,St,,101,199,36067,123456789\tL\t-86494898\t32405102\n;
  {rt1 FETYPE=St}\n{rt4}\n{rt5 FENAME=Main FETYPE=Ave}\n
151; main; E; -; -; yes; 1,E,Main,,,101,199,36067,7\tL\t-86494898\t32405102\n; {rt1}\n / {rt1 TLID=7 FEDIRP=E}\n",
);

/// The texts of a query, the street's directions and type, the answers, and the counties.
#[derive(Drop)]
pub struct StreetSearch<'a> {
    number: Vec<u8>,
    name: String,
    predir: &'a [u8],
    kind: &'a [u8],
    sufdir: &'a [u8],
    is_there: bool,
    lines: Vec<u8>,
    counties: TwoCounties,
}

impl<'a> StreetSearch<'a> {
    /// Reads a row.
    pub fn new(alloc: Global, row: &'a str) -> Result<Self, TableFault> {
        let (number, name, predir, kind, sufdir, is_there, lines, counties) = cells(row)?.eight()?;
        Ok(StreetSearch {
            predir: affix(predir)?,
            kind: affix(kind)?,
            sufdir: affix(sufdir)?,
            is_there: truth(is_there)?,
            number: bytes(alloc, number)?,
            name: text(alloc, name)?,
            lines: bytes(alloc, lines)?,
            counties: TwoCounties::new(alloc, counties)?,
        })
    }

    /// Returns whether the matches are what the row says.
    pub fn is_right<A: Allocator + Copy>(&self, heap: A) -> Result<bool, LoadFault> {
        let counties = self.counties.load(heap)?;
        let Ok(query) = Query::of(&self.number, &self.name, None) else {
            return Ok(false);
        };
        let Some(name) = query.name.street_name() else {
            return Ok(false);
        };
        let street = self.street(name);
        has_matches(
            heap,
            &counties,
            query.number,
            street,
            self.is_there,
            &self.lines,
        )
    }

    fn street<'b>(&'b self, name: StreetName<'b>) -> Street<'b> {
        Street {
            name,
            predir: self.predir,
            kind: self.kind,
            sufdir: self.sufdir,
        }
    }
}

/// Returns a direction or a type, or nothing for `-`.
fn affix(cell: &str) -> Result<&[u8], TableFault> {
    match cell {
        "" => Err(TableFault::Word),
        "-" => Ok(&[]),
        _ => Ok(cell.as_bytes()),
    }
}

fn truth(cell: &str) -> Result<bool, TableFault> {
    match cell {
        "yes" => Ok(true),
        "no" => Ok(false),
        _ => Err(TableFault::Word),
    }
}

fn has_matches<A: Allocator + Copy>(
    heap: A,
    counties: &[County<A>],
    number: u64,
    street: Street<'_>,
    is_there: bool,
    lines: &[u8],
) -> Result<bool, LoadFault> {
    let gazetteer = Gazetteer::of(heap, counties)?;
    if gazetteer.has_street(counties, street) != is_there {
        return Ok(false);
    }
    let found = gazetteer.matches(heap, counties, number, street, None)?;
    Ok(have_lines(heap, &found, lines)?)
}

fn have_lines<A: Allocator>(
    heap: A,
    matches: &[Match<'_>],
    lines: &[u8],
) -> Result<bool, AllocError>
where
    A: Copy,
{
    let mut text = Vec::new(heap);
    for found in matches {
        text.push(b'0'.wrapping_add((found.county % 10) as u8))?;
        let name = found.name;
        for field in [
            name.fedirp,
            name.fename,
            name.fetype,
            name.fedirs,
            found.from,
            found.to,
            found.zip,
        ] {
            text.push(b',')?;
            push_word(&mut text, field)?;
        }
        text.push(b',')?;
        text.extend_from_slice(&hit_lines(heap, &[found.hit])?)?;
    }
    Ok(text.as_slice() == lines)
}

/// Appends a field without its blanks.
fn push_word<A: Allocator>(text: &mut Vec<u8, A>, field: &[u8]) -> Result<(), AllocError> {
    for byte in field {
        if *byte != b' ' {
            text.push(*byte)?;
        }
    }
    Ok(())
}
