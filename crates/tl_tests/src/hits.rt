//! Hits of house numbers on streets, worked out by hand.
use fixtures::{Files, Table, TableFault, bytes, cells, county};
use geocode::{Gazetteer, Hit, Query, QueryFault, hit_lines};
use std::alloc::{AllocError, Allocator, Global};
use tl_segments::{County, LoadFault};

// The house number, the name, and the ZIP code or `-` for none; the lines of the hits, or which of these texts is invalid; and the lines of all files
// of one county, or of two, separated by `/`.
pub const HITS: Table = Table(
    r"
151; main; 36067; 123456789\tL\t-86494898\t32405102\n; {rt1}\n
150; main; 36067; 123456789\tR\t-86494898\t32405102\n; {rt1}\n
00000000150; MAIN; 00000036067; 123456789\tR\t-86494898\t32405102\n; {rt1}\n
151; main; 36068;; {rt1}\n
101; MAIN; -; 123456789\tL\t-86500000\t32400000\n; {rt1}\n
199; MAIN; -; 123456789\tL\t-86490000\t32410000\n; {rt1}\n
151; mai; -;; {rt1}\n
151; main{text \x20*26}; -; 123456789\tL\t-86494898\t32405102\n; {rt1}\n
151; mainX{text \x20*25}; -;; {rt1}\n
151; \x20; -;; {rt1}\n
151; \x20; -; 123456789\tL\t-86494898\t32405102\n; {rt1 FENAME=}\n
151; cAFé; -; 123456789\tL\t-86494898\t32405102\n; {rt1 FENAME=Caf\xe9}\n
151; cAFÉ; -;; {rt1 FENAME=Caf\xe9}\n
151; cAFé; -;; {rt1 FENAME=Caf\xc3\xa9}\n
151; cAFÃ©; -; 123456789\tL\t-86494898\t32405102\n; {rt1 FENAME=Caf\xc3\xa9}\n
151; ÿÿÿÿÿÿÿÿÿÿÿÿÿÿÿÿÿÿÿÿÿÿÿÿÿÿÿÿÿÿ; -; 123456789\tL\t-86494898\t32405102\n;
  {rt1 FENAME=\xff\xff\xff\xff\xff\xff\xff\xff\xff\xff\xff\xff\xff\xff\xff\xff\xff\xff\xff\xff\xff\xff\xff\xff\xff\xff\xff\xff\xff\xff}\n
151; Āā; -;; {rt1 FENAME=\x00\x01}\n
151; 5€; -;; {rt1 FENAME=5\x80}\n
151; €€€€€€€€€€€€€€€€€€€€€€€€€€€€€€; -;; {rt1}\n
151; name of street with 30 letters; -;; {rt1}\n
0; main; -;; {rt1}\n
1510; main; -;; {rt1}\n
99999999999; main; -;; {rt1}\n
151; main; 0;; {rt1}\n
151; main; 3606;; {rt1}\n
151; main; 360670;; {rt1}\n
151; main; 501; 123456789\tL\t-86494898\t32405102\n; {rt1 ZIPL=00501}\n
151; main; 36067;; {rt1 ZIPL=}\n
151; main; 0;; {rt1 ZIPL=}\n
151; main; -; 123456789\tL\t-86494898\t32405102\n; {rt1 ZIPL=}\n
150; main; 36067; 123456789\tR\t-86494898\t32405102\n; {rt1 ZIPL=}\n
151; main; -; 123456789\tL\t-86495103\t32404897\n; {rt1 FRADDL=199 TOADDL=101}\n
151; main; -; 123456789\tL\t-86495102\t32404898\n;
  {rt1 FRLONG=-086490000 FRLAT=+32410000 TOLONG=-086500000 TOLAT=+32400000}\n
151; main; -; 123456789\tL\t-\t-\n; {rt1 FRLAT=}\n
150; main; -; 123456789\tR\t-\t-\n; {rt1 FRLONG=}\n
151; main; -; 123456789\tL\t-\t-\n; {rt1 TOLONG=}\n
151; main; -; 123456789\tL\t-\t-\n; {rt1 TOLAT=}\n
151; main; -; 123456789\tL\t86494898\t32405102\n; {rt1 FRLONG=_086500000 TOLONG=_086490000}\n
101; main; -; 123456789\tL\t0\t0\n; {rt1 FRLONG=-0 FRLAT=+0}\n
151; main; -; 123456789\tL\t-86500000\t32400000\n; {rt1 FRADDL=151 TOADDL=151}\n
150; main; -; 123456789\tR\t-86494898\t32405102\n; {rt1 FRADDL=151 TOADDL=151}\n
164; main; -; 123456789\tR\t-86493470\t32406530\n; {rt1 FRADDL=164-20}\n
151; main; -;; {rt1 FRADDL=}\n
151; main; -;; {rt1 TOADDL=}\n
150; main; -; 123456789\tL\t-86494950\t32405050\n123456789\tR\t-86494898\t32405102\n; {rt1 FRADDL=100}\n
151; main; -; 123456789\tL\t-86494849\t32405151\n; {rt1 FRADDL=100}\n
150; main; -; 123456789\tL\t-86494898\t32405102\n123456789\tR\t-86494898\t32405102\n; {rt1 FRADDL=100 TOADDL=198}\n
50000000001; main; -; 123456789\tL\t0\t0\n;
  {rt1 FRADDL=00000000000 TOADDL=99999999999 FRLONG=-999999999 FRLAT=-99999999 TOLONG=+999999999 TOLAT=+99999999}\n
99999999999; main; -; 123456789\tL\t999999999\t99999999\n;
  {rt1 FRADDL=00000000000 TOADDL=99999999999 FRLONG=-999999999 FRLAT=-99999999 TOLONG=+999999999 TOLAT=+99999999}\n
1; main; -; 123456789\tL\t999999998\t99999998\n;
  {rt1 FRADDL=99999999999 TOADDL=00000000000 FRLONG=-999999999 FRLAT=-99999999 TOLONG=+999999999 TOLAT=+99999999}\n
151; main; -; 123456789\tL\t-86494898\t32405102\n123456789\tL\t-86494898\t32405102\n;
  {rt1}\n{rt6 FRADDL=101 TOADDL=199 ZIPL=}\n
151; main; 36067; 123456789\tL\t-86494898\t32405102\n; {rt1}\n{rt6 FRADDL=101 TOADDL=199 ZIPL=}\n
151; main; 36068; 123456789\tL\t-86494898\t32405102\n123456789\tR\t-86500000\t32400000\n;
  {rt1}\n{rt6 FRADDL=101 TOADDL=199 ZIPL=36068}\n{rt6 FRADDL= TOADDL= ZIPL= FRADDR=151 TOADDR=151 ZIPR=36068}\n
151; main; -; 123456789\tL\t-86494898\t32405102\n; {rt1}\n{rt6 TLID=5 FRADDL=101 TOADDL=199}\n
151; OAK; -; 123456789\tL\t-86494898\t32405102\n; {rt1}\n{rt4}\n{rt5}\n
151; elm; -;; {rt1}\n{rt4}\n{rt5}\n
151; main; -; 123456789\tL\t-86494898\t32405102\n; {rt1}\n{rt4}\n{rt5 FENAME=main}\n
151; main; -; 9\tL\t-86494898\t32405102\n7\tL\t-86494898\t32405102\n5\tL\t-86494898\t32405102\n;
  {rt1 TLID=9}\n{rt1 TLID=7}\n{rt1 FENAME=Oak}\n{rt1 TLID=0000000005}\n
151; main; -; 9\tL\t-86494898\t32405102\n7\tL\t-86494898\t32405102\n; {rt1 TLID=9}\n / {rt1 TLID=7}\n
151; main; -;; / {rt1 FENAME=Elm}\n
151; elm; -; 123456789\tL\t-86494898\t32405102\n; {rt1}\n / {rt1 FENAME=Elm}\n
151; main; -; {text 7\tL\t-86494898\t32405102\n*800}{text 5\tL\t-86494898\t32405102\n*800};
  {rt1 TLID=7\n*800} / {rt1 TLID=5\n*800}
151; ma in; -;; {rt1}\n
151; main; -; 7\tL\t-86494898\t32405102\n; {rt1 FENAME=Ma_in}\n / {rt1 FENAME=Ma_in}\n{rt1 TLID=7}\n{rt1 FENAME=Elm}\n
151; \x20; -; 7\tL\t-86494898\t32405102\n8\tL\t-86494898\t32405102\n;
  {rt1}\n{rt1 TLID=7 FENAME=}\n{rt1 FENAME=Elm}\n / {rt1 TLID=8 FENAME=}\n
151; oak; -; 123456789\tL\t-86494898\t32405102\n7\tL\t-86494898\t32405102\n;
  {rt1}\n{rt1 TLID=7 FENAME=OAK}\n{rt1 TLID=8}\n{rt4}\n{rt5}\n
151; main; -; 123456789\tL\t-86494898\t32405102\n; {rt1}\n{rt4}\n{rt5 FENAME=MAIN}\n
; main; -; number; {rt1}\n
+151; main; -; number; {rt1}\n
\x20151; main; -; number; {rt1}\n
151\x20; main; -; number; {rt1}\n
15x; main; -; number; {rt1}\n
000000000151; main; -; number; {rt1}\n
151;; -; name; {rt1}\n
151; name of a street of 31 letters.; -; name; {rt1}\n
151; ÿÿÿÿÿÿÿÿÿÿÿÿÿÿÿÿÿÿÿÿÿÿÿÿÿÿÿÿÿÿÿ; -; name; {rt1}\n
151; €€€€€€€€€€€€€€€€€€€€€€€€€€€€€€€; -; name; {rt1}\n
151; main;; zip; {rt1}\n
151; main; -1; zip; {rt1}\n
151; main; 36067\x20; zip; {rt1}\n
151; main; 000000036067; zip; {rt1}\n
;; x; number; {rt1}\n
151;; x; name; {rt1}\n",
);

/// The lines of all files of one county, or of two.
#[derive(Drop)]
pub struct TwoCounties {
    alloc: Global,
    first: Files,
    second: Files,
}

impl TwoCounties {
    /// Reads a cell that isn't empty, such as `{rt1}\n{rt6}\n / {rt1}\n`. The second county is empty if there is one, and the first if it begins with
    /// the `/`.
    pub fn new(alloc: Global, cell: &str) -> Result<Self, TableFault> {
        let (first, second) = match cell.split_once('/') {
            None if cell.is_empty() => return Err(TableFault::Word),
            None => (cell, ""),
            Some((_, "")) => return Err(TableFault::Word),
            Some(counties) => counties,
        };
        Ok(TwoCounties {
            alloc,
            first: files(alloc, first.trim())?,
            second: files(alloc, second.trim())?,
        })
    }

    /// Loads both counties.
    pub fn load<A: Allocator + Copy>(&self, heap: A) -> Result<Vec<County<A>>, LoadFault> {
        let mut counties = Vec::new(self.alloc);
        counties.push(county(heap, &self.first)?)?;
        counties.push(county(heap, &self.second)?)?;
        Ok(counties)
    }
}

/// Distributes lines among a county's files, by their record types.
fn files(alloc: Global, text: &str) -> Result<Files, TableFault> {
    let lines = bytes(alloc, text)?;
    let mut files = Files::new(alloc, ("", "", "", ""))?;
    for line in lines.split_inclusive(|byte| *byte == b'\n') {
        push_line(&mut files, line)?;
    }
    Ok(files)
}

fn push_line(files: &mut Files, line: &[u8]) -> Result<(), TableFault> {
    let file = match line.first() {
        Some(b'1') => &mut files.rt1,
        Some(b'4') => &mut files.rt4,
        Some(b'5') => &mut files.rt5,
        Some(b'6') => &mut files.rt6,
        _ => return Err(TableFault::Word),
    };
    Ok(file.extend_from_slice(line)?)
}

/// The texts of a query, its answer, and the counties.
#[derive(Drop)]
pub struct Search {
    number: Vec<u8>,
    name: String,
    zip: Option<Vec<u8>>,
    answer: Vec<u8>,
    counties: TwoCounties,
}

impl Search {
    /// Reads a row.
    pub fn new(alloc: Global, row: &str) -> Result<Self, TableFault> {
        let (number, name, zip, answer, counties) = cells(row)?.five()?;
        Ok(Search {
            number: bytes(alloc, number)?,
            name: text(alloc, name)?,
            zip: if zip == "-" {
                None
            } else {
                Some(bytes(alloc, zip)?)
            },
            answer: bytes(alloc, answer)?,
            counties: TwoCounties::new(alloc, counties)?,
        })
    }

    /// Returns whether the query has the answer that the row says.
    pub fn is_right<A: Allocator + Copy>(&self, heap: A) -> Result<bool, LoadFault> {
        let counties = self.counties.load(heap)?;
        let zip = self.zip.as_ref().map(|zip| zip.as_slice());
        match Query::of(&self.number, &self.name, zip) {
            Ok(query) => has_hits(heap, &counties, query, &self.answer),
            Err(fault) => Ok(self.answer.as_slice() == name_of(fault)),
        }
    }
}

/// Reads a cell that is UTF-8 once its escapes are bytes.
pub fn text(alloc: Global, cell: &str) -> Result<String, TableFault> {
    String::from_utf8(bytes(alloc, cell)?).map_err(|_| TableFault::Word)
}

/// Returns which text of a query is invalid.
fn name_of(fault: QueryFault) -> &'static [u8] {
    match fault {
        QueryFault::Number => b"number",
        QueryFault::Name => b"name",
        QueryFault::Zip => b"zip",
    }
}

/// Returns whether the hits in counties, found by a walk and through a gazetteer, have these lines.
fn has_hits<A: Allocator + Copy>(
    heap: A,
    counties: &[County<A>],
    query: Query,
    lines: &[u8],
) -> Result<bool, LoadFault> {
    let walked = query.find(heap, counties)?;
    let gazetteer = Gazetteer::of(heap, counties)?;
    let looked_up = query.find_in(heap, &gazetteer, counties)?;
    Ok(has_lines(heap, &walked, lines)? && has_lines(heap, &looked_up, lines)?)
}

fn has_lines<A: Allocator>(heap: A, hits: &[Hit], lines: &[u8]) -> Result<bool, AllocError> {
    let text = hit_lines(heap, hits)?;
    Ok(text.as_slice() == lines)
}
