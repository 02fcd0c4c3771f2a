//! Filters translated from JSON, with texts and pointers worked out by hand.
use cql2_json::{JsonFault, pointer_at, translate};
use cql2_text::{FilterFault, read};
use fixtures::{Refusing, Table, TableFault, bytes, cells, number};
use std::alloc::Global;

// JSON, and its text, or the fault: the line and column and what is expected there, or the pointer and what is expected there.
const TEXTS: Table = Table(
    r##"
true; TRUE
 false ; FALSE
-1.50e+03; -1.50e+03
"it's"; 'it''s'
"\u00e9 \"\\"; 'é "\'
null; /: expected true, false, a number, a string or an object
[true]; /: expected true, false, a number, a string or an object
"a\tb"; /: expected a string without control characters
"a\u007f"; /: expected a string without control characters
{"op":"and","args":[true,false]}; (TRUE AND FALSE)
{"args":[true,false,true],"op":"or"}; (TRUE OR FALSE OR TRUE)
{"op":"and","args":[true]}; /args: expected an array of two or more values
{"op":"or","args":[]}; /args: expected an array of two or more values
{"op":"not","args":[true]}; (NOT TRUE)
{"op":"not","args":[true,false]}; /args: expected an array of one value
{"op":"not","args":true}; /args: expected an array of one value
{"op":"and","args":[{"op":"or","args":[true,false]},{"op":"not","args":[{"op":"and","args":[true,true]}]}]};
  ((TRUE OR FALSE) AND (NOT (TRUE AND TRUE)))
{"op":"=","args":[{"property":"CFCC"},"A41"]}; ("CFCC" = 'A41')
{"op":"<>","args":[{"property":"ZIPL"},36003]}; ("ZIPL" <> 36003)
{"op":"<","args":[{"property":"ZIPL"},36003]}; ("ZIPL" < 36003)
{"op":">","args":[{"property":"ZIPL"},36003]}; ("ZIPL" > 36003)
{"op":"<=","args":[{"property":"ZIPL"},36003]}; ("ZIPL" <= 36003)
{"op":">=","args":[{"property":"ZIPL"},36003]}; ("ZIPL" >= 36003)
{"op":"=","args":[1]}; /args: expected an array of two values
{"op":"=","args":[1,2,3]}; /args: expected an array of two values
{"op":"=","args":[1,null]}; /args/1: expected true, false, a number, a string or an object
{"op":"like","args":[{"property":"FENAME"},"Ma%"]}; ("FENAME" LIKE 'Ma%')
{"op":"like","args":[{"op":"casei","args":[{"property":"FENAME"}]},{"op":"casei","args":["o'h%"]}]}; (casei("FENAME") LIKE casei('o''h%'))
{"op":"accenti","args":["é"]}; accenti('é')
{"op":"between","args":[{"property":"FRADDL"},1700,1799]}; ("FRADDL" BETWEEN 1700 AND 1799)
{"op":"between","args":[{"property":"FRADDL"},1700]}; /args: expected an array of three values
{"op":"in","args":[{"property":"CFCC"},["A41","A61"]]}; ("CFCC" IN ('A41', 'A61'))
{"op":"in","args":[{"property":"CFCC"},[]]}; /args/1: expected an array that is not empty
{"op":"in","args":[{"property":"CFCC"},"A41"]}; /args/1: expected an array that is not empty
{"op":"in","args":[[1],[1]]}; /args/0: expected true, false, a number, a string or an object
{"op":"isNull","args":[{"property":"FENAME"}]}; ("FENAME" IS NULL)
{"op":"isnull","args":[{"property":"FENAME"}]}; isnull("FENAME")
{"op":"+","args":[1,{"op":"-","args":[2,3]}]}; (1 + (2 - 3))
{"op":"*","args":[1,{"op":"/","args":[2,3]}]}; (1 * (2 / 3))
{"op":"%","args":[1,{"op":"div","args":[2,{"op":"^","args":[3,-4]}]}]}; (1 % (2 DIV (3 ^ -4)))
{"property":"a_B9"}; "a_B9"
{"property":""}; /property: expected a name of letters, digits and underscores
{"property":"a.b"}; /property: expected a name of letters, digits and underscores
{"property":"a\""}; /property: expected a name of letters, digits and underscores
{"property":1}; /property: expected a name of letters, digits and underscores
{"op":"HAS_NUMBER","args":[1785]}; HAS_NUMBER(1785)
{"op":"HAS_NAME","args":["Main",5]}; HAS_NAME('Main', 5)
{"op":"f","args":[]}; f()
{"op":"a b","args":[]}; /op: expected the name of an operator or a function
{"op":"","args":[]}; /op: expected the name of an operator or a function
{"op":["and"],"args":[]}; /op: expected the name of an operator or a function
{"op":"STARTS_IN","args":[{"bbox":[-86.7,32.4,-86.6,32.50]}]}; STARTS_IN(BBOX(-86.7, 32.4, -86.6, 32.50))
{"bbox":[-86.1234567890123456,0.000000000000001,3,4.0]}; BBOX(-86.1234567890123456, 0.000000000000001, 3, 4.0)
{"bbox":[1,2,3]}; /bbox: expected an array of four values
{"bbox":[1,2,3,"4"]}; /bbox/3: expected a number
{"op":"s_intersects","args":[{"property":"geom"},{"type":"Point","coordinates":[7.02,49.92]}]}; s_intersects("geom", POINT(7.02 49.92))
{"coordinates":[[1,2],[3,4]],"type":"LineString"}; LINESTRING(1 2, 3 4)
{"type":"Polygon","coordinates":[[[0,0],[1,0],[1,1],[0,0]],[[2,2],[3,2],[3,3],[2,2]]]};
  POLYGON((0 0, 1 0, 1 1, 0 0), (2 2, 3 2, 3 3, 2 2))
{"type":"MultiPoint","coordinates":[[1,2],[3,4]]}; MULTIPOINT((1 2), (3 4))
{"type":"MultiLineString","coordinates":[[[1,2],[3,4]],[[5,6],[7,8]]]}; MULTILINESTRING((1 2, 3 4), (5 6, 7 8))
{"type":"MultiPolygon","coordinates":[[[[0,0],[1,0],[1,1],[0,0]]]]}; MULTIPOLYGON(((0 0, 1 0, 1 1, 0 0)))
{"type":"Point","coordinates":[1,2,3]}; /coordinates: expected an array of two values
{"type":"LineString","coordinates":[[1,2],[3]]}; /coordinates/1: expected an array of two values
{"type":"LineString","coordinates":[[1,2]]}; /coordinates: expected an array of two or more values
{"type":"Polygon","coordinates":[[[0,0],[1,0],[0,0]]]}; /coordinates/0: expected an array of four or more values
{"type":"Circle","coordinates":[1,2]}; /type: expected Point, LineString, Polygon, MultiPoint, MultiLineString or MultiPolygon
{}; /: expected an object with op and args, property, bbox, or type and coordinates
{"op":"not","args":[{"op":"and"}]}; /args/0: expected an object with op and args, property, bbox, or type and coordinates
{"op":"not","op":"not"}; /: expected an object with op and args, property, bbox, or type and coordinates
{"op":"and","args":[true,true],"x":1}; /: expected an object with op and args, property, bbox, or type and coordinates
{"op":"and", "args":[tru]}; 1 22: expected JSON
true true; 1 6: expected JSON
01; 1 1: expected JSON"##,
);

// JSON, a column of its text, and the pointer to what writes the character there.
const POINTERS: Table = Table(
    r##"
true; 1; /
true; 4; /
true; 5; /
true; 500; /
{"op":"=","args":[{"property":"CFCC"},"A41"]}; 1; /args
{"op":"=","args":[{"property":"CFCC"},"A41"]}; 2; /args/0/property
{"op":"=","args":[{"property":"CFCC"},"A41"]}; 7; /args/0/property
{"op":"=","args":[{"property":"CFCC"},"A41"]}; 8; /args
{"op":"=","args":[{"property":"CFCC"},"A41"]}; 11; /args/1
{"op":"=","args":[{"property":"CFCC"},"A41"]}; 15; /args/1
{"op":"=","args":[{"property":"CFCC"},"A41"]}; 16; /args
{"op":"=","args":["éé",1]}; 5; /args/0
{"op":"=","args":["éé",1]}; 6; /args
{"op":"in","args":["é",[1,22]]}; 13; /args/1/1
{"op":"not","args":[{"op":"f","args":[]}]}; 6; /args/0
{"op":"not","args":[{"op":"f","args":[]}]}; 7; /args/0/args
{"type":"Point","coordinates":[1,2]}; 3; /"##,
);

// JSON, and the pointer at which its text is refused, or `read`.
const READ: Table = Table(
    r##"
{"op":"and","args":[{"op":"=","args":[{"property":"CFCC"},"A41"]},{"op":"not","args":[{"op":"isNull","args":[{"property":"FENAME"}]}]}]}; read
{"op":"in","args":[{"property":"CFCC"},["A41","A61"]]}; read
{"op":"between","args":[{"property":"FRADDL"},1700,1799]}; read
{"op":"like","args":[{"op":"casei","args":[{"property":"FENAME"}]},{"op":"casei","args":["mA_5%"]}]}; read
{"op":"or","args":[{"op":"HAS_NUMBER","args":[1785]},{"op":"HAS_NAME","args":["O'Hara",5]}]}; read
{"op":"STARTS_IN","args":[{"bbox":[-86.7,32.4,-86.6,32.5]}]}; read
{"op":"STARTS_IN","args":[{"bbox":[-86.123456789012345,32.4,-86.1,32.5]}]}; read
{"op":"STARTS_IN","args":[{"bbox":[-86.1234567890123456,32.4,-86.1,32.5]}]}; /args/0/bbox/0
{"op":"s_within","args":[{"property":"geometry"},{"bbox":[-86.1,32.4,-86.100000000000001,32.5]}]}; /args/1/bbox/2
{"op":"and","args":[true,{"op":"=","args":[{"property":"ZIP"},36067]}]}; /args/1/args/0/property
{"op":"and","args":[true,{"op":"=","args":[{"property":"ZIPL"},"36067"]}]}; /args/1/args/1
{"op":"=","args":[{"property":"ZIPL"},1e5]}; /args/1
{"op":"=","args":[36067,{"property":"ZIPL"}]}; read
{"op":"=","args":[{"property":"ZIPL"},{"op":"+","args":[1,{"op":"div","args":[{"property":"FRADDL"},2]}]}]}; read
{"op":"not","args":[{"op":"s_within","args":[{"property":"geom"},{"type":"Point","coordinates":[1,2]}]}]}; /args/0/args/0/property
{"op":"s_within","args":[{"property":"geometry"},{"type":"Point","coordinates":[1,2]}]}; /args/1
{"op":"s_intersects","args":[{"property":"geometry"},{"type":"Polygon","coordinates":[[[0,0],[1,0.5],[1,1],[0,0]]]}]}; read
{"op":"s_disjoint","args":[{"type":"LineString","coordinates":[[0,0],[1,2],[3,4]]},{"property":"GEOMETRY"}]}; read
{"op":"s_intersects","args":[{"property":"geometry"},{"type":"Polygon","coordinates":[[[0,0],[1,0],[1,1],[0,2]]]}]}; /args/1/coordinates/0/3/0
{"op":"HAS_NAME","args":["Main",-1]}; /args/1
"x"; /"##,
);

// Long JSON, in the notation of `bytes`, and the fault.
const LONG: Table = Table(
    r##"
"{text '*600000}"; /: the text of the filter has more than 1,048,576 bytes
"'{text a*1048573}"; /: the text of the filter has more than 1,048,576 bytes
{text \n*1048577}; 1048577 1: the JSON has more than 1,048,576 bytes"##,
);

/// Returns a pointer as a text, `/` for the one to the whole value.
fn shown(pointer: &[u8]) -> &str {
    match std::str::from_utf8(pointer) {
        Ok("") | Err(_) => "/",
        Ok(text) => text,
    }
}

/// Returns the translation of JSON, or the fault, as `TEXTS` has them.
fn outcome(alloc: Global, json: &[u8]) -> Result<String, TableFault> {
    match translate(alloc, json) {
        Ok(text) => Ok(String::from_utf8(text).map_err(|_| TableFault::Word)?),
        Err(JsonFault::Json { line, column, flaw }) => Ok(format!(in alloc;
            "{line} {column}: {flaw}"
        )?),
        Err(JsonFault::Value { pointer, flaw }) => {
            let pointer = shown(&pointer);
            Ok(format!(in alloc; "{pointer}: {flaw}")?)
        }
        Err(JsonFault::Memory) => Err(TableFault::Memory),
    }
}

fn is_translated(alloc: Global, row: &str) -> Result<bool, TableFault> {
    let (json, wanted) = cells(row)?.two()?;
    Ok(outcome(alloc, json.as_bytes())?.as_str() == wanted)
}

fn is_too_long(alloc: Global, row: &str) -> Result<bool, TableFault> {
    let (json, wanted) = cells(row)?.two()?;
    let json = bytes(alloc, json)?;
    Ok(outcome(alloc, &json)?.as_str() == wanted)
}

fn text_of(alloc: Global, json: &str) -> Result<Vec<u8>, TableFault> {
    match translate(alloc, json.as_bytes()) {
        Ok(text) => Ok(text),
        Err(_) => Err(TableFault::Word),
    }
}

fn is_pointed(alloc: Global, row: &str) -> Result<bool, TableFault> {
    let (json, column, wanted) = cells(row)?.three()?;
    let column = u32::try_from(number(column)?).map_err(|_| TableFault::Number)?;
    let text = text_of(alloc, json)?;
    let pointer = pointer_at(alloc, json.as_bytes(), &text, column)?;
    Ok(shown(&pointer) == wanted)
}

fn is_read(alloc: Global, row: &str) -> Result<bool, TableFault> {
    let (json, wanted) = cells(row)?.two()?;
    let text = text_of(alloc, json)?;
    match read(alloc, &text) {
        Ok(_) => Ok(wanted == "read"),
        Err(FilterFault::At { line, column, .. }) => {
            let pointer = pointer_at(alloc, json.as_bytes(), &text, column)?;
            Ok(line == 1 && shown(&pointer) == wanted)
        }
        Err(FilterFault::Memory) => Err(TableFault::Memory),
    }
}

#[test]
fn texts(rt: HostRuntime) {
    for row in TEXTS.joined(rt.alloc()).expect(&rt, "texts").lines() {
        assert_eq!(rt; is_translated(rt.alloc(), row), Ok(true), "{row}");
    }
}

#[test]
fn long_texts(rt: HostRuntime) {
    for row in LONG.joined(rt.alloc()).expect(&rt, "long").lines() {
        assert_eq!(rt; is_too_long(rt.alloc(), row), Ok(true), "{row}");
    }
}

#[test]
fn pointers(rt: HostRuntime) {
    for row in POINTERS.joined(rt.alloc()).expect(&rt, "pointers").lines() {
        assert_eq!(rt; is_pointed(rt.alloc(), row), Ok(true), "{row}");
    }
}

#[test]
fn reads(rt: HostRuntime) {
    for row in READ.joined(rt.alloc()).expect(&rt, "read").lines() {
        assert_eq!(rt; is_read(rt.alloc(), row), Ok(true), "{row}");
    }
}

const SWEPT: &str =
    r#"{"op":"and","args":[{"op":"=","args":[{"property":"CFCC"},"A41"]},{"bbox":[1,2,3,4]}]}"#;

/// Returns whether the translation, or the search for a pointer in it, reports that the allocation with this number failed, or that there is none.
fn stops(heap: &Refusing<Global>, nth: u64) -> bool {
    heap.refuse(nth);
    match translate(heap, SWEPT.as_bytes()) {
        Ok(text) => match pointer_at(heap, SWEPT.as_bytes(), text.as_slice(), 9) {
            Ok(_) => !heap.was_refused(),
            Err(_) => heap.was_refused(),
        },
        Err(fault) => heap.was_refused() && matches!(fault, JsonFault::Memory),
    }
}

#[test]
fn sweep(rt: HostRuntime) {
    let heap = Refusing::new(rt.alloc());
    for nth in 0..80 {
        assert!(rt; stops(&heap, nth));
    }
}
