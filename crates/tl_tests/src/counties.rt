//! Counties, indexes and segments made from four files, worked out by hand.
use crate::plain;
use crate::seen::Seen;
use counted_io::{Buffered, CountedRead};
use fixtures::{FileTexts, Files, Table, TableFault, cells, is_refusal};
use refusals::Fault;
use std::alloc::{Allocator, Global};
use tl_segments::{County, Index, LoadFault};

// The files of types 1, 4, 5 and 6, and what is seen of the segments.
pub const SEGMENTS: Table = Table(
    r"
{rt1}\n;;;; 123456789
{rt1}\n; {rt4}\n; {rt5}\n; {rt6}\n; 123456789+Oak/201
{rt1}\n;;; {rt6}\n{rt6 RTSQ=2 FRADDL=301}\n{rt6 TLID=5 FRADDL=401}\n; 123456789/201/301
{rt1}\n; {rt4 FEAT2=8}\n; {rt5}\n;; 123456789+Oak
{rt1}\n; {rt4 FEAT3=8}\n; {rt5 FEAT=8 FENAME=Elm}\n{rt5}\n{rt5 FENAME=Ash}\n;; 123456789+Oak+Elm
{rt1}\n; {rt4 FEAT1=1 FEAT2=2 FEAT3=1 FEAT4=3 FEAT5=2}\n{rt4 TLID=6 FEAT1=1}\n{rt4 FEAT1=3 FEAT2=x1 FEAT5=2}\n;
  {rt5 FEAT=2 FENAME=B}\n{rt5 FEAT=1 FENAME=A}\n;; 123456789+A+B+A+B+B
{rt1}\n; {rt4 FEAT1=1 FEAT2=2 FEAT3=3 FEAT4=4 FEAT5=5}\n;
  {rt5 FEAT=1 FENAME=A}\n{rt5 FEAT=3 FENAME=C}\n{rt5 FEAT=2 FENAME=B}\n{rt5 FEAT=5 FENAME=E}\n;; 123456789+A+B+C+E
{rt1 FEDIRP=E FETYPE=Ave FEDIRS=NW}\n; {rt4 FEAT2=8}\n;
  {rt5 FEDIRP=N FETYPE=St FEDIRS=SW}\n{rt5 FETYPE=Rd}\n{rt5 FEAT=8 FENAME=Elm FEDIRS=E}\n;; 123456789+NOakStSW+ElmE
{rt1}\n; {rt4 FEAT1=6 FEAT2=7 FEAT3=8 FEAT4=9 FEAT5=10}\n; {rt5 FEAT=5}\n;; 123456789
{rt1}\n; {rt4 FEAT1=0 FEAT2=7}\n; {rt5 FEAT=0 FENAME=Nought}\n{rt5 FEAT=00000000 FENAME=Naught}\n{rt5 FENAME=}\n;;
  123456789+Nought+
{rt1 TLID=0000000005}\n; {rt4 TLID=5 FEAT1=00000007}\n; {rt5 FEAT=____7}\n; {rt6 TLID=___05}\n; 0000000005+Oak/201
{rt1 TLID=5}\n{rt1 TLID=____05}\n{rt1 TLID=9999999999}\n; {rt4 TLID=0000000005}\n{rt4 TLID=9999999999}\n;
  {rt5 FEAT=__007}\n; {rt6 TLID=5}\n; 5+Oak/201 05+Oak/201 9999999999+Oak
{rt1 TLID=5}\n{rt1 TLID=6}\n{rt1 TLID=5}\n; {rt4 TLID=5}\n; {rt5}\n; {rt6 TLID=6 FRADDL=8}\n{rt6 TLID=5 FRADDL=9}\n;
  5+Oak/9 6/8 5+Oak/9
{rt1 TLID=5}\n{rt1 TLID=50}\n; {rt4 TLID=50}\n{rt4 TLID=5 FEAT1=8}\n; {rt5}\n{rt5 FEAT=8 FENAME=Elm}\n;
  {rt6 TLID=50 FRADDL=1}\n{rt6 TLID=5 FRADDL=2}\n; 5+Elm/2 50+Oak/1
; {rt4}\n; {rt5}\n; {rt6}\n;
;;;;
{rt1}\n;; {rt5}\n; {rt6}\n; 123456789/201
{rt1}\n; {rt4}\n;; {rt6}\n; 123456789/201
{rt1}\n; {rt4}\n; {rt5 FENAME=Caf\xc3\xa9}\n;; 123456789+Café
{rt1 FENAME=\xff\r\x80}\n; {rt4 RTSQ=\xff\r\x80}\n; {rt5 VERSION=\xff\r\x80}\n; {rt6 RTSQ=\xff\r\x80}\n;
  123456789+Oak/201
{rt1}\n; {rt4\n#1..9}{rt4\n*9};
  {rt5 FEAT=1}\n{rt5 FEAT=2}\n{rt5 FEAT=3}\n{rt5 FEAT=4}\n{rt5 FEAT=5}\n{rt5}\n; {rt6\n#1..9}{rt6\n*9};
  123456789+Oak+Oak+Oak+Oak+Oak+Oak+Oak+Oak+Oak/201/201/201/201/201/201/201/201/201",
);

// The same four files, and their first fault.
pub const REFUSALS: Table = Table(
    r"
{rt1}\n{rt1 ..227}\n;;;; refused 1 rt1 line 2 WrongLength
{rt1}x\n{rt1}\n; {rt4}\n; {rt5}\n; {rt6}\n; refused 1 rt1 line 1 WrongLength
{rt1}\n\n{rt1}\n;;;; refused 1 rt1 line 2 WrongLength
\r\n;;;; refused 1 rt1 line 1 WrongLength
{rt1}\n{rt1}\r;;;; refused 1 rt1 line 2 WrongLength
{rt1}{rt1}\n;;;; refused 1 rt1 line 1 WrongLength
{rt1}\n{rt1 RT=4}\n;;;; refused 2 rt1 line 2 WrongType
{rt1 RT=\xb1}\n;;;; refused 2 rt1 line 1 WrongType
{rt1}\n{rt1 TLID=}\n;;;; refused 3 rt1 line 2 BadTlid
{rt1}\n{rt1 TLID=_-5}\n;;;; refused 3 rt1 line 2 BadTlid
{rt1}\n{rt1 TLID=x__5}\n;;;; refused 3 rt1 line 2 BadTlid
{rt1}\n{rt1 TLID=5__5}\n;;;; refused 3 rt1 line 2 BadTlid
{rt1}\n{rt1 TLID=\x095}\n;;;; refused 3 rt1 line 2 BadTlid
{rt1}\n{rt1 TLID=\xc3\xa9}\n;;;; refused 3 rt1 line 2 BadTlid
{rt1 RT=4 TLID= ..227}\n;;;; refused 1 rt1 line 1 WrongLength
{rt1 RT=4 TLID=}\n;;;; refused 2 rt1 line 1 WrongType
{rt1}\n; {rt4}\n{rt4 ..57}\n; {rt5}\n; {rt6}\n; refused 1 rt4 line 2 WrongLength
{rt1}\n; {rt4}\n\n;;; refused 1 rt4 line 2 WrongLength
{rt1}\n; {rt4}x\n;;; refused 1 rt4 line 1 WrongLength
{rt1}\n; {rt4}{text x*173}\n;;; refused 1 rt4 line 1 WrongLength
{rt1}\n; {rt4}\n{rt4 RT=5}\n;;; refused 2 rt4 line 2 WrongType
{rt1}\n; {rt4}\n{rt4 TLID=}\n;;; refused 3 rt4 line 2 BadTlid
{rt1}\n; {rt4}\n{rt4 TLID=+5}\n;;; refused 3 rt4 line 2 BadTlid
{rt1 ..227}\n;; {rt5 ..55}\n;; refused 1 rt5 line 1 WrongLength
{rt1}\n;; {rt5}\n{rt5}x\n;; refused 1 rt5 line 2 WrongLength
{rt1}\n;; {rt5}\n{rt5 RT=4}\n;; refused 2 rt5 line 2 WrongType
{rt1}\n;; {rt5 FEAT=}\n;; refused 4 rt5 line 1 BadFeature
{rt1}\n;; {rt5}\n{rt5 FEAT=1_2}\n;; refused 4 rt5 line 2 BadFeature
{rt1}\n;;; {rt6}\n{rt6 ..75}\n; refused 1 rt6 line 2 WrongLength
{rt1}\n;;; {rt6}x\n; refused 1 rt6 line 1 WrongLength
{rt1}\n;;; {rt6}\n{rt6 RT=5}\n; refused 2 rt6 line 2 WrongType
{rt1}\n;;; {rt6}\n{rt6 TLID=-5}\n; refused 3 rt6 line 2 BadTlid
{rt1 RT=4}\n; {rt4 TLID=}\n; {rt5 FEAT=}\n; {rt6 ..75}\n; refused 3 rt4 line 1 BadTlid
{rt1 RT=4}\n; {rt4}\n; {rt5 FEAT=}\n; {rt6 ..75}\n; refused 4 rt5 line 1 BadFeature
{rt1 RT=4}\n; {rt4}\n; {rt5}\n; {rt6 ..75}\n; refused 1 rt6 line 1 WrongLength
{rt1}\n; {rt4 TLID=5\n*1001};;; refused 6 rt4 line 1001 TooManyNames
{rt1}\n;;; {rt6 TLID=5\n*1001}; refused 7 rt6 line 1001 TooManyRanges
; {rt4\n*500}{rt4 TLID=0123456789\n*500}{rt4 TLID=6}\n{rt4}\n;;; refused 6 rt4 line 1002 TooManyNames
;;; {rt6\n*1000}{rt6 TLID=6\n*9}{rt6}\n{rt6 TLID=}\n; refused 7 rt6 line 1010 TooManyRanges
{rt1}\n; {rt4\n*1000}{rt4 ..57}\n;;; refused 1 rt4 line 1001 WrongLength
{rt1}\n;;; {rt6\n*1000}{rt6 RT=7}\n; refused 2 rt6 line 1001 WrongType
{rt1}\n; {rt4\n*1001}; {rt5 FEAT=}\n; {rt6\n*1001}; refused 6 rt4 line 1001 TooManyNames
{rt1 RT=4}\n; {rt4\n*1000}; {rt5 FEAT=}\n; {rt6\n*1001}; refused 4 rt5 line 1 BadFeature
{rt1 RT=4}\n; {rt4\n*1000}; {rt5\n*1001}; {rt6\n*1001}; refused 7 rt6 line 1001 TooManyRanges",
);

// Four empty files.
pub const NOTHING: Table = Table(";;;;");

// A segment that nothing is joined to, which doesn't allocate by itself.
pub const ALONE: Table = Table(r"{rt1}\n;;;; 123456789");

// Files with many lines or other line ends, what is seen of them, and the ways of loading them. The last one has 55,000 segments, of which 25,000
// have an alternate name, and 25,000 a further range.
const OTHERS: Table = Table(
    r"
{rt1}\r\n{rt1}\n{rt1}; {rt4}\r\n{rt4}; {rt5}\r\n{rt5}; {rt6}\r\n{rt6};
  123456789+Oak+Oak/201/201 123456789+Oak+Oak/201/201 123456789+Oak+Oak/201/201; county index check
{rt1}\n; {rt4 FEAT2=7 FEAT3=7 FEAT4=7 FEAT5=7\n*1000}; {rt5}\n; {rt6\n*1000}; counts 1 5000 1001;
  county index check plain
{rt1}\n; {rt4\n*1000}{rt4 TLID=6\n*1000}; {rt5}\n; {rt6 TLID=6\n*1000}{rt6\n*1000};
  counts 1 1000 1001; county index check plain
{rt1 TLID=6}\n; {rt4\n*1000}; {rt5}\n; {rt6\n*1000}; counts 1 0 1; county index check plain
{rt1\n*1001}{rt1 TLID=6\n*1001}; {rt4}\n; {rt5\n*1001}; {rt6}\n; counts 2002 1001 3003; county index check plain
{rt1\n#1..55000}; {rt4\n#1..25000}; {rt5}\n; {rt6\n#30001..55000}; counts 55000 25000 80000; county index check",
);

/// How a county is loaded: whole, line by line through an index, or line by line without the joined files, which are only checked.
#[derive(Clone, Copy)]
pub enum Method {
    County,
    Index,
    Check,
}

impl Method {
    /// Parses a name.
    pub fn named(name: &str) -> Result<Self, TableFault> {
        match name {
            "county" => Ok(Method::County),
            "index" => Ok(Method::Index),
            "check" => Ok(Method::Check),
            _ => Err(TableFault::Word),
        }
    }

    /// Parses a name, or returns `None` for `plain`, the filters that load nothing.
    pub fn or_plain(name: &str) -> Result<Option<Self>, TableFault> {
        match name {
            "plain" => Ok(None),
            _ => Ok(Some(Method::named(name)?)),
        }
    }
}

/// Loads a county in one of the ways, and shows its segments.
pub fn load<A: Allocator + Copy, R: CountedRead>(
    alloc: A,
    method: Method,
    rt1: &mut R,
    rt4: &mut R,
    rt5: &mut R,
    rt6: &mut R,
    seen: &mut Seen<'_>,
) -> Result<(), LoadFault> {
    match method {
        Method::County => {
            show_county(&County::load(alloc, rt1, rt4, rt5, rt6)?, seen);
            Ok(())
        }
        Method::Index => show_lines(&Index::load(alloc, rt4, rt5, rt6)?, rt1, seen),
        Method::Check => {
            Index::check(alloc, rt4, rt5, rt6)?;
            show_lines(&Index::new(alloc), rt1, seen)
        }
    }
}

/// Shows the segments of a county, if it has as many TLID numbers as segments.
fn show_county<A: Allocator>(county: &County<A>, seen: &mut Seen<'_>) {
    if county.tlids().len() != county.segments().len() {
        return;
    }
    for segment in county.segments() {
        seen.see(segment);
    }
}

/// Shows the segments of type 1 lines, read one by one.
fn show_lines<A: Allocator + Copy, R: CountedRead>(
    index: &Index<A>,
    rt1: &mut R,
    seen: &mut Seen<'_>,
) -> Result<(), LoadFault> {
    let mut number = 0;
    let mut segment = index.blank_segment();
    for _ in 0..=u32::MAX {
        if index
            .next_segment(rt1, &mut number, &mut segment)?
            .is_none()
        {
            return Ok(());
        }
        seen.see(&segment);
    }
    Ok(())
}

/// The files of a row, and what the row says about them: what is seen of the segments, or the first fault.
#[derive(Drop)]
pub struct Loading<'a> {
    files: Files,
    expected: &'a str,
    seen: Seen<'a>,
}

impl<'a> Loading<'a> {
    /// Reads the cells of the files and of what is expected of them.
    pub fn new(alloc: Global, texts: FileTexts<'_>, expected: &'a str) -> Result<Self, TableFault> {
        let seen = Seen::new(expected)?;
        Ok(Loading {
            files: Files::new(alloc, texts)?,
            expected,
            seen,
        })
    }

    /// Loads the files in one of the ways, and returns whether the row is right. What is seen isn't compared if the joined files are only checked.
    pub fn is_right<A: Allocator + Copy>(
        &self,
        alloc: A,
        method: Option<Method>,
    ) -> Result<bool, LoadFault> {
        let mut seen = self.seen;
        match load_files(alloc, method, &self.files, &mut seen) {
            Ok(()) => Ok(seen.is_all() || self.is_checked(method)),
            Err(LoadFault::Memory) => Err(LoadFault::Memory),
            Err(fault) => Ok(is_refusal(fault.line().as_str(), self.expected)),
        }
    }

    fn is_checked(&self, method: Option<Method>) -> bool {
        matches!(method, Some(Method::Check)) && !self.expected.starts_with("refused")
    }
}

/// Loads a county in one of the ways, or filters its lines if there is none, and shows its segments.
fn load_files<A: Allocator + Copy>(
    alloc: A,
    method: Option<Method>,
    files: &Files,
    seen: &mut Seen<'_>,
) -> Result<(), LoadFault> {
    let Some(method) = method else {
        return Ok(plain::show_segments(alloc, files, seen)?);
    };
    load(
        alloc,
        method,
        &mut Buffered::new(files.rt1.as_slice()),
        &mut Buffered::new(files.rt4.as_slice()),
        &mut Buffered::new(files.rt5.as_slice()),
        &mut Buffered::new(files.rt6.as_slice()),
        seen,
    )
}

/// Returns whether a row is right in each of its ways.
fn is_right(alloc: Global, row: &str) -> Result<bool, TableFault> {
    let (rt1, rt4, rt5, rt6, expected, ways) = cells(row)?.six()?;
    let loading = Loading::new(alloc, (rt1, rt4, rt5, rt6), expected)?;
    for method in ways.split(' ') {
        if loading.is_right(alloc, Method::or_plain(method)?) != Ok(true) {
            return Ok(false);
        }
    }
    Ok(true)
}

#[test]
fn other_files(rt: HostRuntime) {
    for row in OTHERS.joined(rt.alloc()).expect(&rt, "others").lines() {
        assert_eq!(rt; is_right(rt.alloc(), row), Ok(true), "{row}");
    }
}
