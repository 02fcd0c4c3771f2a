//! Rows for the commands `compile` and `select`. The filters' programs are written by hand.
use fixtures::Table;

pub const FILTERS: Table = Table(
    r"
extractd compile --filter f.cql > f.cql; {asm mov r6, r1 | ldxb r0, [r6+55] | jne r0, 65, +4 | ldxb r0, [r6+56] |
  jne r0, 52, +2 | mov r0, 1 | exit | mov r0, 0 | exit}; 0;; f.cql: CFCC LIKE 'A4%'\n
extractd compile --score TLID --filter f.cql; {asm mov r6, r1 | mov r1, 0 | call 1 | mov r1, r0 | call 8 | mov r0, 1 |
  exit | mov r0, 0 | exit}; 0;; f.cql: TRUE
extractd compile --filter f.cql;; 1; refused 91 line 2 column 1 UnknownColumn\nno column has this name, and the nearest
  is FENAME; f.cql: TRUE AND\nFNAME = 'Main'
extractd compile --filter f.cql;; 1; refused 90 line 1 column 7 Syntax\nexpected a number; f.cql: ZIPL =
extractd compile --filter f.cql;; 1; refused 90 line 2 column 1 Syntax\nexpected UTF-8; f.cql: \n\xff
extractd compile --filter f.cql;; 1; refused 96 line 1 column 1 TooLong\nthe program would have more than 65,536 words;
  f.cql: {text HAS_NUMBER(99999999999) OR *13}HAS_NUMBER(99999999999)
extractd compile --filter f.cql;; 1; refused 96 line 1 column 1048577 TooLong\nthe text has more than 1,048,576 bytes;
  f.cql: {text         *131072}TRUE
extractd compile --filter f.cql; {asm mov r6, r1 | mov r0, 1 | exit | mov r0, 0 | exit}; 0;;
  f.cql: {text         *131071}    TRUE
extractd compile --filter f.cql;; 1; refused 96 line 2 column 1 TooLong\nthe text has more than 1,048,576 bytes;
  f.cql: {text         *131071}       \nTRUE
extractd compile --filter f.cql;; 1; refused 96 line 1 column 1048577 TooLong\nthe text has more than 1,048,576 bytes;
  f.cql: {text         *140000}TRUE ! call 258 pipe
extractd compile --filter f.cql;; 3; error: f.cql: broken pipe;
  f.cql: {text         *140000}TRUE ! call 257 pipe
extractd compile --filter f.cql;; 3; error: f.cql: not found
extractd compile --filter - > /dev/stdin;; 3; error: /dev/stdin: not found
extractd select --where ZIPL_=_36067 --data d 01001; 0\t{rt1}\n0\t{rt1 TLID=7}\n; 0;;
  d/TGR01001.RT1: {rt1}\n{rt1 ZIPL=36066}\n{rt1 ZIPL=}\n{rt1 TLID=7}
extractd select --where ZIPL_=_'36067' --data d 01001;; 1; refused 92 line 1 column 8 WrongType\nthe column isn't of this
  type: write a number, without quotes; d/TGR01001.RT1: {rt1}\n
extractd select --where FALSE --data d 01001;; 0;; d/TGR01001.RT1: {rt1}\n
extractd select --where TRUE --score ZIPL --data d 01003 01001; 0\t{rt1 ZIPL=}\n36067\t{rt1}\n; 0;;
  d/TGR01001.RT1: {rt1}\n; d/TGR01003.RT1: {rt1 ZIPL=}\n
extractd select --where TRUE --score frlat --data d 01001; 32400000\t{rt1}\n; 0;; d/TGR01001.RT1: {rt1}\n
extractd select --where HAS~NAME('oak') --data d 01001; 0\t{rt1}\n; 0;; d/TGR01001.RT1: {rt1}\n{rt1 TLID=7}\n;
  d/TGR01001.RT4: {rt4}\n; d/TGR01001.RT5: {rt5}\n
extractd select --where TRUE --data d 01001 01003 > d/TGR01001.RT1 d/TGR01001.RT4 d/TGR01001.RT5 d/TGR01001.RT6
  d/TGR01003.RT1 d/TGR01003.RT4 d/TGR01003.RT5 d/TGR01003.RT6; 0\t{rt1}\n0\t{rt1 TLID=7}\n; 0;;
  d/TGR01001.RT1: {rt1}\n; d/TGR01003.RT1: {rt1 TLID=7}\n
extractd select --where TRUE --data d 01001 01003 01005; 0\t{rt1}\n0\t{rt1}\n; 1; refused 1 rt1 line 2 WrongLength\ncounty
  01003; d/TGR01001.RT1: {rt1}\n; d/TGR01003.RT1: {rt1}\n{rt1 ..227}\n; d/TGR01005.RT1: {rt1}\n
extractd select --where TRUE --data d 01001 01003; 0\t{rt1}\n; 3; error: d/TGR01003.RT1: not found;
  d/TGR01001.RT1: {rt1}\n
extractd select --where TRUE --data d 01001 01003; 0\t{rt1}\n; 3; refused 5 rt1 line 1 Read\ncounty 01003;
  d/TGR01001.RT1: {rt1}\n; d/TGR01003.RT1: ! call 1 pipe
extractd select --where TRUE --data d 01001 01003; 0\t{rt1}\n; 4; refused memory\ncounty 01003;
  d/TGR01001.RT1: {rt1}\n; d/TGR01003.RT1: ! closed memory
",
);

// Filters in JSON. A brace that is one of the JSON's is escaped.
pub const JSON_FILTERS: Table = Table(
    r#"
extractd compile --filter f.json --filter-lang cql2-json; {asm mov r6, r1 | ldxb r0, [r6+55] | jne r0, 65, +4 | ldxb r0, [r6+56] |
  jne r0, 52, +2 | mov r0, 1 | exit | mov r0, 0 | exit}; 0;; f.json: \x7b"op":"like","args":[\x7b"property":"CFCC"\x7d,"A4%"]\x7d\n
extractd compile --filter f.json --filter-lang cql2-json; {asm mov r6, r1 | mov r0, 1 | exit | mov r0, 0 | exit}; 0;; f.json: {text         *131071}    true
extractd compile --filter f.json --filter-lang cql2-json;; 1; refused 96 line 1 column 1048577 TooLong\nthe text has more than 1,048,576 bytes;
  f.json: {text         *131072}true
extractd compile --filter f.json --filter-lang cql2-json;; 1; refused 96 line 2 column 1 TooLong\nthe text has more than 1,048,576 bytes;
  f.json: {text         *131071}       \ntrue
extractd compile --filter f.json --filter-lang cql2-json;; 1; refused 90 line 2 column 2 Syntax\nexpected JSON;
  f.json: \n[tru]
extractd compile --filter f.json --filter-lang cql2-json;; 1; refused 90 line 1 column 2 Syntax\nexpected UTF-8;
  f.json: "\xff"
extractd compile --filter f.json --filter-lang cql2-json;; 1; refused 90 line 1 column 1 Syntax\nexpected JSON;
  f.json: CFCC = 'A41'
extractd compile --filter f.json --filter-lang cql2-json;; 1; refused 90 Syntax\nexpected true, false, a number, a string or an object;
  f.json: null
extractd compile --filter f.json --filter-lang cql2-json;; 1; refused 90 pointer /args/0/args Syntax\nexpected an array of one value;
  f.json: \x7b"op":"not","args":[\x7b"op":"not","args":[]\x7d]\x7d
extractd compile --filter f.json --filter-lang cql2-json;; 1; refused 90 pointer /op Syntax\nexpected the name of an operator or a function;
  f.json: \x7b"op":"\x21=","args":[1,2]\x7d
extractd compile --filter f.json --filter-lang cql2-json;; 1;
  refused 91 pointer /args/0/property UnknownColumn\nno column has this name, and the nearest is ZIPL;
  f.json: \x7b"op":"=","args":[\x7b"property":"ZIP"\x7d,36067]\x7d
extractd compile --filter f.json --filter-lang cql2-json;; 1;
  refused 92 pointer /args/1/args/1 WrongType\nthe column isn't of this type: write a number, without quotes;
  f.json: \x7b"op":"and","args":[true,\x7b"op":"=","args":[\x7b"property":"ZIPL"\x7d,"36067"]\x7d]\x7d
extractd compile --filter f.json --filter-lang cql2-json;; 1; refused 90 pointer /args/1/property Syntax\nexpected a text in single quotes;
  f.json: \x7b"op":"like","args":[\x7b"property":"FENAME"\x7d,\x7b"property":"CFCC"\x7d]\x7d
extractd compile --filter f.json --filter-lang cql2-json;; 1; refused 93 pointer /args/0 NumberRange\na number doesn't fit;
  f.json: \x7b"op":"HAS_NUMBER","args":[-1]\x7d
extractd compile --filter f.json --filter-lang cql2-json;; 1; refused 94 pointer /args/1/1 LongText\na text is empty, or longer than its column;
  f.json: \x7b"op":"in","args":[\x7b"property":"CFCC"\x7d,["A41","A410"]]\x7d
extractd compile --filter f.json --filter-lang cql2-json;; 1; refused 96 TooLong\nthe program would have more than 65,536 words;
  f.json: \x7b"op":"HAS_NAME","args":["Main",5000]\x7d
extractd compile --filter f.json --filter-lang cql2-json;; 1;
  refused 96 pointer /args/1 TooLong\nthe text of the filter has more than 1,048,576 bytes;
  f.json: \x7b"op":"like","args":[\x7b"property":"FENAME"\x7d,"{text '*600000}"]\x7d
extractd select --where \x7b"op":"=","args":[\x7b"property":"ZIPL"\x7d,36067]\x7d --filter-lang cql2-json --data d 01001; 0\t{rt1}\n0\t{rt1 TLID=7}\n; 0;;
  d/TGR01001.RT1: {rt1}\n{rt1 ZIPL=36066}\n{rt1 ZIPL=}\n{rt1 TLID=7}
extractd select --where \x7b"op":"=","args":[\x7b"property":"ZIPL"\x7d,"36067"]\x7d --filter-lang cql2-json --data d 01001;; 1;
  refused 92 pointer /args/1 WrongType\nthe column isn't of this type: write a number, without quotes; d/TGR01001.RT1: {rt1}\n
extractd select --where ZIPL_=_36067 --filter-lang cql2-text --data d 01001; 0\t{rt1}\n; 0;; d/TGR01001.RT1: {rt1}\n
"#,
);
