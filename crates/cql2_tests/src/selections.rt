//! Filters evaluated on a segment.
use bpf_flow::Flow;
use bpf_insn::Code;
use bpf_meaning::{Outcome, trace};
use bpf_verify::verify;
use cql2_code::{CompileFault, compile};
use cql2_text::read;
use fixtures::{Table, TableFault, bytes, cells, number};
use std::alloc::{AllocError, Global};
use tl_segments::{RECORD_LENGTH, Segment};

// A filter, a segment's record, and whether the filter selects the segment, worked out by hand.
const FILTERS: Table = Table(
    "\
TRUE; {rt1}; 1
FALSE; {rt1}; 0
ZIPL = 36067; {rt1}; 1
ZIPL = 36067; {rt1 ZIPL=36068}; 0
ZIPL <> 36067; {rt1 ZIPL=_}; 0
ZIPL = 36067 OR ZIPR = 36068; {rt1}; 1
ZIPL = 36068 OR ZIPR = 36068; {rt1}; 0
ZIPL = 36067 AND ZIPR = 36068; {rt1}; 0
ZIPL = 36068 OR ZIPR = 36067 AND CFCC = 'A41'; {rt1}; 1
TLID > 4294967296; {rt1}; 0
TLID >= 0; {rt1}; 1
PLACEL IS NULL; {rt1}; 1
PLACEL IS NOT NULL; {rt1}; 0
PLACEL = 5; {rt1}; 0
NOT PLACEL = 5; {rt1}; 0
NOT PLACEL = 5 OR TRUE; {rt1}; 1
FRADDL BETWEEN 101 AND 199; {rt1}; 1
FRADDL NOT BETWEEN 101 AND 199; {rt1}; 0
FRADDL IN (99, 100, 101); {rt1}; 1
FRLONG < -86.4; {rt1}; 1
FRLONG < -86.5; {rt1}; 0
FRLAT = 32.4; {rt1}; 1
FRLAT = 32.4; {rt1 FRLAT=_}; 0
FRLAT <> 32.4; {rt1 FRLAT=_}; 0
STARTS_IN(BBOX(-87, 32, -86, 33)); {rt1}; 1
STARTS_IN(BBOX(-86, 32, -85, 33)); {rt1}; 0
CFCC LIKE 'A4%'; {rt1}; 1
CFCC LIKE 'A4%'; {rt1 CFCC=A51}; 0
CFCC LIKE 'A4'; {rt1}; 0
CFCC LIKE 'A4'; {rt1 CFCC=A4}; 1
CFCC LIKE 'A_1'; {rt1}; 1
CFCC LIKE 'A4_'; {rt1 CFCC=A4}; 0
CFCC LIKE '%'; {rt1 CFCC=_}; 0
CFCC NOT LIKE 'B%'; {rt1}; 1
CFCC NOT LIKE 'B%'; {rt1 CFCC=_}; 0
CFCC LIKE '%4%'; {rt1}; 1
CFCC LIKE '%4'; {rt1}; 0
CFCC LIKE '%41'; {rt1}; 1
CFCC LIKE '%1%1%'; {rt1}; 0
CFCC LIKE 'A%1'; {rt1}; 1
CFCC LIKE '%_'; {rt1 CFCC=A4}; 1
CFCC LIKE '%4_%'; {rt1 CFCC=A4}; 0
FENAME LIKE '%a%n%'; {rt1}; 1
FENAME LIKE '%ana%na'; {rt1 FENAME=banana}; 1
FENAME LIKE '%anan%na'; {rt1 FENAME=banana}; 0
FENAME NOT LIKE '%x%'; {rt1}; 1
FENAME NOT LIKE '%x%'; {rt1 FENAME=_}; 0
FENAME = 'Main'; {rt1}; 1
FENAME = 'Main'; {rt1 FENAME=Maine}; 0
FENAME <> 'Main'; {rt1 FENAME=Maine}; 1
FENAME <> 'Main'; {rt1 FENAME=_}; 0
FENAME < 'Maine'; {rt1}; 1
FENAME > 'Mai'; {rt1}; 1
FENAME > 'Main'; {rt1}; 0
FENAME <= 'Main'; {rt1}; 1
FENAME >= 'Maine'; {rt1}; 0
FETYPE IS NULL; {rt1}; 1
FRIADDL = '1'; {rt1 FRIADDL=1}; 1
FRIADDL = '1'; {rt1 FRIADDL=0 TOIADDL=1 FRIADDR=1 TOIADDR=1}; 0
FRIADDL <> '1'; {rt1}; 0
FRIADDL IS NULL; {rt1 TOIADDL=0 FRIADDR=0 TOIADDR=0}; 1
FRIADDL IS NULL; {rt1 FRIADDL=0}; 0
TOIADDL = '1'; {rt1 TOIADDL=1}; 1
FRIADDR = '1'; {rt1 FRIADDR=1}; 1
TOIADDR = '1'; {rt1 TOIADDR=1}; 1
FRADDL_TEXT = '164-20'; {rt1 FRADDL=_____164-20}; 1
FRADDL_TEXT = '164-20'; {rt1 FRADDL=__164-20}; 1
FRADDL_TEXT = ' 164-20'; {rt1 FRADDL=_____164-20}; 0
FRADDL_TEXT <> '164-20'; {rt1 FRADDL=_____164-20 TOADDL=_____164-22 FRADDR= TOADDR=}; 0
FRADDL_TEXT LIKE '%-%'; {rt1 FRADDL=_____164-20}; 1
FRADDL_TEXT LIKE '%-%'; {rt1}; 0
FRADDL_TEXT LIKE '1__'; {rt1}; 1
FRADDL_TEXT LIKE '%_101'; {rt1}; 0
FRADDL_TEXT > '100'; {rt1}; 1
FRADDL_TEXT IS NULL; {rt1 FRADDL=}; 1
FRADDL_TEXT < TOADDL_TEXT; {rt1 FRADDL=_____164-20 TOADDL=_____164-98}; 1
TOADDL_TEXT = '98A'; {rt1 TOADDL=________98A}; 1
FRADDR_TEXT = '98A'; {rt1 FRADDR=98A}; 1
CASEI(TOADDR_TEXT) LIKE CASEI('%a'); {rt1 TOADDR=________98A}; 1
CASEI(FENAME) = CASEI('mAIN'); {rt1}; 1
ACCENTI(FENAME) = ACCENTI('Máin'); {rt1}; 1
CASEI(ACCENTI(FENAME)) LIKE ACCENTI(CASEI('%ÀI%')); {rt1}; 1
ZIPL = ZIPR; {rt1}; 1
ZIPL <> ZIPR; {rt1 ZIPL=36068}; 1
ZIPL <> ZIPR; {rt1 ZIPL=_}; 0
NOT ZIPL = ZIPR; {rt1 ZIPL=_}; 0
FRADDL < TOADDL; {rt1}; 1
FRLONG < TOLONG OR FRLONG > TOLONG; {rt1}; 1
FRADDL % 2 = 1; {rt1}; 1
FRADDL % 2 = 1; {rt1 FRADDL=102}; 0
FRADDL div 100 * 100 = 100; {rt1}; 1
0 - FRADDL div 2 = -50; {rt1}; 1
-(FRADDL) div 2 = -50; {rt1}; 1
-(FRADDL) % 2 = -1; {rt1}; 1
1 div (FRADDL - 101) = 1; {rt1}; 0
NOT 1 div (FRADDL - 101) = 1; {rt1}; 0
(FRADDL - 100) * 99 - (TOADDL - 100) = FRADDL - 101; {rt1}; 1
FRADDL IN (TLID, FRADDL); {rt1}; 1
FRADDL + 1 BETWEEN 102 AND 102; {rt1}; 1
FENAME > CFCC; {rt1}; 1
FENAME = CFCC; {rt1 FENAME=A41}; 1
FENAME <= CFCC; {rt1 FENAME=A4}; 1
FENAME < CFCC; {rt1 FENAME=_}; 0
HAS_NUMBER(150); {rt1}; 1
HAS_NUMBER(99); {rt1}; 0
NOT HAS_NUMBER(99); {rt1}; 1
HAS_NUMBER(99999999999); {rt1}; 0
HAS_NAME('main'); {rt1}; 1
HAS_NAME('mai'); {rt1}; 0
NOT HAS_NAME('mai', 0); {rt1}; 1",
);

// Filters, and the maximum number of words in their programs.
const SHORT: Table = Table(
    "\
ZIPL = 36067; 8
CFCC LIKE 'A4%'; 12
FENAME = 'Main'; 25
FENAME LIKE '%creek%'; 500",
);

// The number of times a filter is repeated, that filter, and the last terms after it, all joined by OR; then the number of words in the program:
// 5 plus those of the terms.
// - HAS_NUMBER(1) takes 4 words for each of 1,001 ranges and 2 for each of 10 powers of two: 4,024. As the last term, or before AND FALSE, it
//   takes one more, and none of its jumps leads past its end. Otherwise the jump of each range skips everything after it. Where that is more
//   than 32,767 words, the range takes one more: all 1,001 in the first of ten terms, and 857 in the first of nine.
// - HAS_NAME takes 14 words per name and 2 per power of two: with 39 alternate names, 40 * 14 + 6 * 2 = 572. Before AND FALSE it takes one more:
//   with 14, 15 * 14 + 4 * 2 + 1 = 219, and with the default of 63, 64 * 14 + 6 * 2 + 1 = 909.
// - Each number of a ZIPL takes 3 words, and TRUE takes 1.
const LONG: Table = Table(
    "\
7; HAS_NUMBER(1); HAS_NUMBER(1); 32198
8; HAS_NUMBER(1); HAS_NUMBER(1); 37079
13; HAS_NUMBER(1); HAS_NUMBER(1); 62204
14; HAS_NUMBER(1); HAS_NUMBER(1); too long
7; HAS_NUMBER(1); HAS_NAME('a', 39) OR ZIPL IN (1, 2) OR HAS_NUMBER(1); 32776
7; HAS_NUMBER(1); HAS_NAME('a', 39) OR ZIPL IN (1, 2) OR TRUE OR HAS_NUMBER(1); 32778
16; HAS_NUMBER(1) AND FALSE; HAS_NAME('a') AND FALSE OR HAS_NAME('a', 14) AND FALSE OR ZIPL = 1; 65536
16; HAS_NUMBER(1) AND FALSE; HAS_NAME('a') AND FALSE OR HAS_NAME('a', 14) AND FALSE OR TRUE OR ZIPL = 1; too long",
);

/// Returns whether the program of a row's filter is accepted and selects the segment, or doesn't, as the row says.
fn is_right(alloc: Global, row: &str) -> Result<bool, TableFault> {
    let (filter, record, selects) = cells(row)?.three()?;
    let wanted = number(selects)?;
    let record = bytes(alloc, record)?;
    Ok(answers(alloc, filter, &record, wanted) == Some(true))
}

/// Returns whether the program of a filter is accepted and has this answer for a record.
fn answers(alloc: Global, filter: &str, record: &[u8], wanted: u64) -> Option<bool> {
    let code = compiled(alloc, filter)?;
    let is_wanted = answer(alloc, &code, record)? == wanted;
    Some(is_wanted && is_accepted(alloc, code))
}

/// Returns whether the program of a row's filter has no more words than the row allows.
fn is_short(alloc: Global, row: &str) -> Result<bool, TableFault> {
    let (filter, most) = cells(row)?.two()?;
    let most = number(most)?;
    match compiled(alloc, filter) {
        Some(code) => Ok(code.words() as u64 <= most),
        None => Ok(false),
    }
}

/// Returns whether the program of a row's long filter has the row's number of words, or is too long.
fn is_length(alloc: Global, row: &str) -> Result<bool, TableFault> {
    let (count, filter, last, words) = cells(row)?.four()?;
    let text = joined(alloc, number(count)?, filter, last)?;
    let words = match words {
        "too long" => None,
        _ => Some(number(words)?),
    };
    Ok(has_length(alloc, &text, words))
}

/// Returns whether the program of a filter has this number of words, or is too long if there is none.
fn has_length(alloc: Global, text: &[u8], words: Option<u64>) -> bool {
    let Ok(filter) = read(alloc, text) else {
        return false;
    };
    match compile(alloc, &filter, None) {
        Ok(code) => Some(code.words() as u64) == words,
        Err(fault) => fault == CompileFault::TooLong && words.is_none(),
    }
}

/// Returns a filter, repeated `count` times, and then the last terms, all joined by OR.
fn joined(alloc: Global, count: u64, filter: &str, last: &str) -> Result<Vec<u8>, AllocError> {
    let mut text = Vec::new(alloc);
    for _ in 0..count {
        text.extend_from_slice(filter.as_bytes())?;
        text.extend_from_slice(b" OR ")?;
    }
    text.extend_from_slice(last.as_bytes())?;
    Ok(text)
}

fn compiled(alloc: Global, text: &str) -> Option<Code<Global>> {
    let filter = read(alloc, text.as_bytes()).ok()?;
    compile(alloc, &filter, None).ok()
}

fn answer(alloc: Global, code: &Code<Global>, record: &[u8]) -> Option<u64> {
    let (record, []) = record.split_first_chunk::<RECORD_LENGTH>()? else {
        return None;
    };
    let segment = Segment::of(alloc, record);
    match trace(code, &segment, 65_536) {
        Outcome::Exit { answer, score: 0 } => Some(answer),
        _ => None,
    }
}

fn is_accepted(alloc: Global, code: Code<Global>) -> bool {
    match Flow::of(code) {
        Ok(flow) => verify(alloc, flow).is_ok(),
        Err(_) => false,
    }
}

#[test]
fn filters(rt: HostRuntime) {
    for row in FILTERS.joined(rt.alloc()).expect(&rt, "filters").lines() {
        assert_eq!(rt; is_right(rt.alloc(), row), Ok(true), "{row}");
    }
}

#[test]
fn lengths(rt: HostRuntime) {
    for row in SHORT.joined(rt.alloc()).expect(&rt, "short").lines() {
        assert_eq!(rt; is_short(rt.alloc(), row), Ok(true), "{row}");
    }
    for row in LONG.joined(rt.alloc()).expect(&rt, "long").lines() {
        assert_eq!(rt; is_length(rt.alloc(), row), Ok(true), "{row}");
    }
}
