//! Fields of the record layouts, their values, the sides of ranges and the names of streets, worked out by hand.
use fixtures::{RT1, Table, TableFault, cells, number as natural, size};
use tl_fields::{blank, coordinate, field, number};
use tl_segments::{NAME_LENGTH, lies_on, name_equals};

// The first and last column of a field in the line of Main Street, and its text.
const FIELDS: Table = Table(
    "\
1; 1; '1'
2; 5; '0006'
6; 15; ' 123456789'
20; 24; 'Main '
59; 69; '        101'
103; 106; '    '
107; 111; '36067'
191; 200; '-086500000'
220; 228; '+32410000'",
);

// A call, its answer, and the text of the field.
const VALUES: Table = Table(
    "\
number; none; ''
number; none; '           '
number; 101; '      101'
number; 101; '101      '
number; 101; ' 101 '
number; 7; '00000000007'
number; 99999999999; '99999999999'
number; none; '100000000000'
number; none; '164-20'
number; none; '1 2'
number; none; '\t7'
number; none; '+7'
coordinate; none; ''
coordinate; none; '          '
coordinate; -86500000; '-086500000'
coordinate; 32400000; '+32400000'
coordinate; 32400000; ' 32400000 '
coordinate; -1; '-1'
coordinate; 0; '+0'
coordinate; 0; '-0'
coordinate; 999999999; '+999999999'
coordinate; -999999999; '-999999999'
coordinate; none; '1000000000'
coordinate; none; '-0865000000'
coordinate; none; '- 86500000'
coordinate; none; '--1'
coordinate; none; '+-1'
coordinate; none; '+'
coordinate; none; ' - '
coordinate; none; '1 2'
coordinate; none; '12.5'
coordinate; none; '1-'
blank; yes; ''
blank; yes; ' '
blank; yes; '           '
blank; no; '     0     '
blank; no; '          1'
blank; no; '\t'",
);

// Whether a number lies on the side of a range, the ends of the side, and the number.
const SIDES: Table = Table(
    "\
yes; '        101'; '        199'; 101
yes; '        101'; '        199'; 151
yes; '        101'; '        199'; 199
no; '        101'; '        199'; 150
no; '        101'; '        199'; 99
no; '        101'; '        199'; 201
yes; '100        '; '        198'; 150
no; '100        '; '        198'; 151
yes; '        199'; '        101'; 151
no; '        199'; '        101'; 150
yes; '        199'; '        101'; 199
yes; '        199'; '        101'; 101
no; '        199'; '        101'; 201
yes; '        100'; '        199'; 150
yes; '        100'; '        199'; 151
yes; '        100'; '        199'; 100
no; '        100'; '        199'; 200
yes; '        199'; '        100'; 150
yes; '7          '; '          7'; 7
no; '7          '; '          7'; 8
no; '7          '; '          7'; 6
no; '164-20     '; '164-20     '; 164
no; '        164'; '164-20     '; 164
no; '           '; '           '; 0
no; '           '; '          0'; 0
no; '          0'; '           '; 0
yes; '0          '; '          0'; 0
yes; '00000000000'; '99999999999'; 0
yes; '00000000000'; '99999999999'; 99999999999
no; '00000000000'; '99999999999'; 100000000000
no; '00000000000'; '99999999999'; 18446744073709551615
no; ''; ''; 5",
);

// Whether a name in a record equals another one.
const NAMES: Table = Table(
    "\
yes; 'Main                          '; 'Main'
yes; 'Main                          '; 'MAIN'
yes; 'mAIN                          '; 'Main'
no; 'Main                          '; 'Maine'
no; 'Maine                         '; 'Main'
no; 'Main                          '; 'Mai'
yes; 'Main                          '; 'Main '
yes; 'Main                          '; 'Main                          '
no; 'Main                          '; ' Main'
no; ' Main                         '; 'Main'
no; 'Main                          '; 'M'
yes; 'M                             '; 'm'
yes; '                              '; ' '
no; '                              '; 'M'
yes; 'Main St                       '; 'main st'
no; 'Main  St                      '; 'main st'
no; '@[`{                          '; '`{@['
yes; '2nd                           '; '2ND'
yes; 'Café                         '; 'CAFé'
no; 'Café                         '; 'CAFÉ'
yes; 'Abcdefghijklmnopqrstuvwxyzabcd'; 'aBCDEFGHIJKLMNOPQRSTUVWXYZABCD'
no; 'Abcdefghijklmnopqrstuvwxyzabcd'; 'abcdefghijklmnopqrstuvwxyzabce'
no; 'Abcdefghijklmnopqrstuvwxyzabcd'; 'abcdefghijklmnopqrstuvwxyzabc'",
);

/// Returns the text between the quotes of a cell.
fn quoted(cell: &str) -> Result<&[u8], TableFault> {
    let text = cell
        .strip_prefix("'")
        .and_then(|text| text.strip_suffix("'"));
    Ok(text.ok_or(TableFault::Word)?.as_bytes())
}

/// Returns whether an answer is the one in a cell: `none` or a number.
fn is_number(answer: Option<i64>, cell: &str) -> Result<bool, TableFault> {
    match cell.strip_prefix("-") {
        None if cell == "none" => Ok(answer.is_none()),
        None => Ok(answer == Some(natural(cell)?.cast_signed())),
        Some(digits) => Ok(answer == Some(natural(digits)?.cast_signed().wrapping_neg())),
    }
}

/// Returns whether an answer is the one in a cell: `yes` or `no`.
fn is_truth(answer: bool, cell: &str) -> Result<bool, TableFault> {
    match cell {
        "yes" => Ok(answer),
        "no" => Ok(!answer),
        _ => Err(TableFault::Word),
    }
}

fn is_field(row: &str) -> Result<bool, TableFault> {
    let (first, last, text) = cells(row)?.three()?;
    let (first, last) = (size(first)?, size(last)?);
    let is_range = 1 <= first && first <= last && last <= RT1.len();
    Ok(is_range && field(RT1, first, last) == quoted(text)?)
}

fn is_value(row: &str) -> Result<bool, TableFault> {
    let (call, answer, text) = cells(row)?.three()?;
    let text = quoted(text)?;
    match call {
        "number" => is_number(number(text).map(u64::cast_signed), answer),
        "coordinate" => is_number(coordinate(text), answer),
        "blank" => is_truth(blank(text), answer),
        _ => Err(TableFault::Word),
    }
}

fn is_side(row: &str) -> Result<bool, TableFault> {
    let (answer, from, to, house) = cells(row)?.four()?;
    is_truth(lies_on(natural(house)?, quoted(from)?, quoted(to)?), answer)
}

/// Returns whether a name of the length used in records equals the wanted one, or doesn't, as a row says.
fn is_name(row: &str) -> Result<bool, TableFault> {
    let (answer, name, wanted) = cells(row)?.three()?;
    let (name, wanted) = (quoted(name)?, quoted(wanted)?);
    if name.len() != NAME_LENGTH || wanted.is_empty() || wanted.len() > NAME_LENGTH {
        return Err(TableFault::Word);
    }
    is_truth(name_equals(name, wanted), answer)
}

#[test]
fn fields(rt: HostRuntime) {
    for row in FIELDS.joined(rt.alloc()).expect(&rt, "fields").lines() {
        assert_eq!(rt; is_field(row), Ok(true), "{row}");
    }
    for row in SIDES.joined(rt.alloc()).expect(&rt, "sides").lines() {
        assert_eq!(rt; is_side(row), Ok(true), "{row}");
    }
}

#[test]
fn values(rt: HostRuntime) {
    for row in VALUES.joined(rt.alloc()).expect(&rt, "values").lines() {
        assert_eq!(rt; is_value(row), Ok(true), "{row}");
    }
    for row in NAMES.joined(rt.alloc()).expect(&rt, "names").lines() {
        assert_eq!(rt; is_name(row), Ok(true), "{row}");
    }
}
