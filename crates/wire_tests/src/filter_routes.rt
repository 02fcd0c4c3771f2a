//! The answers of the routes for filters, listings and files of addresses, worked out by hand.
use fixtures::Table;

// Filters over one segment. `\x7b` and `\x7d` are braces.
pub const FILTERS: Table = Table(
    r#"{rt1}\n
POST /select HTTP/1.1 >> FENAME = 'Main' => 200 octets 0\t{rt1}\n
POST /select HTTP/1.1 >> FENAME = 'Oak' => 200 octets
POST /select?score=ZIPL HTTP/1.1 >> CFCC LIKE 'A%' => 200 octets 36067\t{rt1}\n
POST /select?score=toaddl&score=x HTTP/1.1 >> TRUE => 200 octets 199\t{rt1}\n
POST /select?format=rows&filter-lang=cql2-text HTTP/1.1 >> TRUE => 200 octets 0\t{rt1}\n
POST /select?format=geojsonseq HTTP/1.1 >> FALSE => 200 features
POST /select?filter-lang=cql2-json HTTP/1.1 >> \x7b"op":"=","args":[\x7b"property":"ZIPL"\x7d,36067]\x7d => 200 octets 0\t{rt1}\n
POST /select?filter-lang=cql2%2Djson HTTP/1.1 >> \x7b"op":"=","args":[\x7b"property":"ZIPL"\x7d,"36067"]\x7d
  => 422 refused 92 pointer /args/1 WrongType\nthe column isn't of this type: write a number, without quotes
POST /select?filter-lang=cql2-json HTTP/1.1 >> TRUE => 422 refused 90 line 1 column 1 Syntax\nexpected JSON
POST /select HTTP/1.1 >> => 422 refused 90 line 1 column 1 Syntax\nexpected a predicate, TRUE, FALSE or a parenthesis
POST /select HTTP/1.1 >> ZIPL = 36067 AND
  => 422 refused 90 line 1 column 17 Syntax\nexpected a predicate, TRUE, FALSE or a parenthesis
POST /select?format=csv HTTP/1.1 >> ZIP = 36067
  => 422 refused 91 line 1 column 1 UnknownColumn\nno column has this name, and the nearest is ZIPL
POST /select HTTP/1.1 >> \xff => 400
POST /select HTTP/1.1 >> FENAME = '\xc3' => 400
POST /select?score=FENAME HTTP/1.1 >> TRUE => 400 error: --score is a column with numbers, and "FENAME" isn't
POST /select?score= HTTP/1.1 >> TRUE => 400 error: --score is a column with numbers, and "" isn't
POST /select?score=x&score=ZIPL HTTP/1.1 >> TRUE => 400 error: --score is a column with numbers, and "x" isn't
POST /select?format=shape HTTP/1.1 >> TRUE => 400 error: --format is rows, csv or geojsonseq, and "shape" isn't
POST /select?format HTTP/1.1 >> TRUE => 400 error: --format is rows, csv or geojsonseq, and "" isn't
POST /select?filter-lang=sql HTTP/1.1 >> TRUE => 400 error: --filter-lang is cql2-text or cql2-json, and "sql" isn't
POST /compile HTTP/1.1 >> TRUE => 200 octets {asm mov r6, r1 | mov r0, 1 | exit | mov r0, 0 | exit}
POST /compile?filter-lang=cql2-json HTTP/1.1 >> true => 200 octets {asm mov r6, r1 | mov r0, 1 | exit | mov r0, 0 | exit}
POST /compile HTTP/1.1 >> FRLAT > 1000 => 422 refused 93 line 1 column 9 NumberRange\na number doesn't fit
POST /compile?filter-lang=cql2 HTTP/1.1 >> TRUE => 400 error: --filter-lang is cql2-text or cql2-json, and "cql2" isn't
POST /compile?score=RT HTTP/1.1 >> TRUE => 400 error: --score is a column with numbers, and "RT" isn't
POST /compile HTTP/1.1 >> TRUE\xff => 400
GET /select{end} => 405 POST
GET /compile{end} => 405 POST
GET /filter-jobs{end} => 405 POST
GET /explain{end} => 405 POST
GET /geocode-batch{end} => 405 POST"#,
);

// The options of requests over one segment: the columns and the geometry of `/select`, each wrong value, and what is refused first.
pub const OPTIONS: Table = Table(
    r#"{rt1}\n
POST /select?format=csv&columns=TLID,fename&geometry=none HTTP/1.1 >> TRUE => 200 csv score,TLID,FENAME\n0,123456789,Main\n
POST /select?columns=CFCC&geometry=none&format=geojsonseq&score=ZIPL HTTP/1.1 >> TRUE
  => 200 features \x7b"type":"Feature","properties":\x7b"score":36067,"CFCC":"A41"\x7d,"geometry":null\x7d\n
POST /select?format=csv&columns=RT&geometry=line HTTP/1.1 >> TRUE
  => 200 csv score,RT,WKT\n0,1,"LINESTRING (-86.500000 32.400000,-86.490000 32.410000)"\n
POST /select?format=csv&columns=TLID&columns=x&geometry=none&geometry=x HTTP/1.1 >> FALSE => 200 csv score,TLID\n
POST /select?format=csv&columns=TLID%2CRT&geometry=n%6fne HTTP/1.1 >> FALSE => 200 csv score,TLID,RT\n
POST /select?format=csv&geometry=shape HTTP/1.1 >> TRUE => 400 error: --geometry shape needs the type 2 files, which a server doesn't load
POST /select?format=geojsonseq&columns=RT&geometry=shape HTTP/1.1 >> TRUE
  => 400 error: --geometry shape needs the type 2 files, which a server doesn't load
POST /select?format=csv&geometry=point HTTP/1.1 >> TRUE => 400 error: --geometry is none, line or shape, and "point" isn't
POST /select?format=csv&geometry HTTP/1.1 >> TRUE => 400 error: --geometry is none, line or shape, and "" isn't
POST /select?columns=TLID HTTP/1.1 >> TRUE => 400 error: --columns needs --format csv or geojsonseq
POST /select?geometry=line&format=rows HTTP/1.1 >> TRUE => 400 error: --geometry needs --format csv or geojsonseq
POST /select?geometry=shape HTTP/1.1 >> TRUE => 400 error: --geometry needs --format csv or geojsonseq
POST /select?geometry=line&columns=x HTTP/1.1 >> TRUE => 400 error: --columns needs --format csv or geojsonseq
POST /select?format=csv&columns= HTTP/1.1 >> TRUE => 400 error: --columns has an empty name
POST /select?format=csv&columns=TLID,,RT HTTP/1.1 >> TRUE => 400 error: --columns has an empty name
POST /select?format=csv&columns=TLID,FRLATT HTTP/1.1 >> TRUE
  => 400 error: --columns has "FRLATT", which isn't a column, and the nearest is FRLAT
POST /select?format=csv&columns=TLID,x%0ay HTTP/1.1 >> TRUE => 400 error: --columns has "x\x5cny", which isn't a column
POST /select?format=csv&columns=TLID,RT,tlid HTTP/1.1 >> TRUE => 400 error: --columns has "tlid" twice
POST /select?format=%00%ff%22 HTTP/1.1 >> TRUE => 400 error: --format is rows, csv or geojsonseq, and "\x5cu\x7b0\x7d\xef\xbf\xbd"" isn't
POST /select?other=1 HTTP/1.1 >> TRUE => 400 error: unexpected argument '--other' found
POST /select?format=csv&Columns=TLID HTTP/1.1 >> TRUE => 400 error: unexpected argument '--Columns' found
POST /select?=1 HTTP/1.1 >> TRUE => 400 error: unexpected argument '--' found
POST /select?data=d&where=TRUE HTTP/1.1 >> TRUE => 400 error: unexpected argument '--data' found
POST /select?a%0db HTTP/1.1 >> TRUE => 400 error: unexpected argument '--a\x5crb' found
POST /select? HTTP/1.1 >> TRUE => 200 octets 0\t{rt1}\n
POST /select?&& HTTP/1.1 >> TRUE => 200 octets 0\t{rt1}\n
POST /select?filter-lang=x&score=x&format=x&other=1&more=2 HTTP/1.1 >> \xff => 400 error: unexpected argument '--other' found
POST /select?format=x&columns=x&score=x&filter-lang=x HTTP/1.1 >> \xff => 400 error: --filter-lang is cql2-text or cql2-json, and "x" isn't
POST /select?format=x&columns=x&score=x HTTP/1.1 >> \xff => 400 error: --score is a column with numbers, and "x" isn't
POST /select?geometry=x&columns=x&format=x HTTP/1.1 >> \xff => 400 error: --format is rows, csv or geojsonseq, and "x" isn't
POST /select?geometry=x&columns=xyz&format=csv HTTP/1.1 >> \xff => 400 error: --columns has "xyz", which isn't a column
POST /select?geometry=x&format=csv HTTP/1.1 >> FENAME = => 400 error: --geometry is none, line or shape, and "x" isn't
POST /select?geometry=line&format=csv HTTP/1.1 >> \xff => 400
POST /compile?filter-lang=cql2-json&format=x HTTP/1.1 >> true => 400 error: unexpected argument '--format' found
POST /compile?columns=TLID HTTP/1.1 >> TRUE => 400 error: unexpected argument '--columns' found
POST /compile?score=x&filter-lang=x HTTP/1.1 >> \xff => 400 error: --filter-lang is cql2-text or cql2-json, and "x" isn't
POST /filter-jobs?geometry=line HTTP/1.1 >> TRUE => 400 error: unexpected argument '--geometry' found
POST /filter-jobs?score=RT HTTP/1.1 >> \xff => 400 error: --score is a column with numbers, and "RT" isn't
POST /extract?other=1&format=x HTTP/1.1 >> {every} => 200 octets 0\t{rt1}\n"#,
);

// Listings of programs.
pub const LISTINGS: Table = Table(
    r"{rt1}\n
POST /explain HTTP/1.1 >> {every} => 200 text 0: mov r0, 1                            ; r1 = record + 0, r10 = frame + 512\n
   1: exit                                 ; r0 = 1\naccepted\n
POST /explain HTTP/1.1 >> {stuck} => 422 0: exit                                 ; r0 = ?, r1 = record + 0, r10 = frame + 512\n
   refused: reads r0, of which nothing is known\nrefused 40 place 0 ReadsNothing(0)
POST /explain HTTP/1.1 >> => 422 refused 10 Empty
POST /explain HTTP/1.1 >> {unknown} => 422 0: ff 00 00 00 00 00 00 00\nrefused: no instruction has this opcode\n
   1: 95 00 00 00 00 00 00 00  exit\nrefused 13 place 0 UnknownOpcode
POST /explain HTTP/1.1 >> {backward} => 422 0: b7 00 00 00 01 00 00 00  mov r0, 1\n1: 05 00 ff ff 00 00 00 00  ja -1\n
   refused: jumps back, to place 1\n2: 95 00 00 00 00 00 00 00  exit\nrefused 30 place 1 BackwardJump",
);

// Files of addresses, and jobs of filters. The servers' counties have the codes 01001 and 01003.
pub const SCRIPTS: Table = Table(
    r#"one
POST /geocode-batch HTTP/1.1 >> id,number,name\n7,251,Lantern\n8,252,Lantern\n
  => 200 csv id,status,reason,longitude,latitude,tlid,side,fedirp,fename,fetype,fedirs,zip,county,from,to\n
   7,match,,-86.629812,32.412161,107000725,L,,Lantern,Ct,,36067,01001,201,299\n8,no_match,no_such_number,,,,,,,,,,,,\n
POST /geocode-batch HTTP/1.1 >> number,name
  => 200 csv id,status,reason,longitude,latitude,tlid,side,fedirp,fename,fetype,fedirs,zip,county,from,to\n
POST /geocode-batch HTTP/1.1 >> => 422 refused 100 NoHeader
POST /geocode-batch HTTP/1.1 >> id,number\n => 422 refused 101 line 1 NoColumn
POST /geocode-batch HTTP/1.1 >> number,name\n1,\xff\n => 422 refused 102 line 2 NotUtf8

{rt1 FENAME=Oak}\n | {rt1}\n
POST /geocode-batch HTTP/1.1 >> number,name\n101,main\n
  => 200 csv id,status,reason,longitude,latitude,tlid,side,fedirp,fename,fetype,fedirs,zip,county,from,to\n
   2,match,,-86.500000,32.400000,123456789,L,,Main,,,36067,01003,101,199\n
POST /select HTTP/1.1 >> FENAME = 'Main' => 200 octets 0\t{rt1}\n
POST /select HTTP/1.1 >> FENAME <> 'Elm' => 200 octets 0\t{rt1 FENAME=Oak}\n0\t{rt1}\n
POST /filter-jobs?score=ZIPL HTTP/1.1 >> FENAME = 'Main' => 200 text 1\n
POST /filter-jobs?filter-lang=cql2-json HTTP/1.1 >> true => 200 text 2\n
turn => 2 2
GET /jobs/1{end} => 200 octets 2 2\n36067\t{rt1}\n
POST /filter-jobs HTTP/1.1 >> ZIP = 36067
  => 422 refused 91 line 1 column 1 UnknownColumn\nno column has this name, and the nearest is ZIPL
POST /filter-jobs?score=x HTTP/1.1 >> TRUE => 400 error: --score is a column with numbers, and "x" isn't
POST /filter-jobs HTTP/1.1 >> \xff => 400
GET /open-jobs{end} => 200 text 1 2 2\n2 0 2\n

-
POST /select?format=rows HTTP/1.1 >> TRUE => 200 octets
jobs => 64
POST /filter-jobs HTTP/1.1 >> TRUE => 503 refused 70 Full
POST /filter-jobs HTTP/1.1 >> TRUE AND => 422 refused 90 line 1 column 9 Syntax\nexpected a predicate, TRUE, FALSE or a parenthesis"#,
);

// As `failures::GROWTHS`: rows marked `+` allocate.
pub const GROWTHS: Table = Table(
    r#"{rt1\n*2}
+ POST /select HTTP/1.1 >> FENAME = 'Main' => 200 octets {0\trt1\n*2}
+ POST /select?f%6frmat=r%6fws&sc%6fre=FR%41DDL HTTP/1.1 >> ZIPL = 1 => 200 octets
+ POST /select HTTP/1.1 >> ZIP = 36067
  => 422 refused 91 line 1 column 1 UnknownColumn\nno column has this name, and the nearest is ZIPL
+ POST /select?f%6frmat=csv&c%6flumns=TLID%2CRT&ge%6fmetry=n%6fne HTTP/1.1 >> FALSE => 200 csv score,TLID,RT\n
+ POST /select?format=%78 HTTP/1.1 >> TRUE => 400 error: --format is rows, csv or geojsonseq, and "x" isn't
+ POST /compile?%78=1 HTTP/1.1 >> TRUE => 400 error: unexpected argument '--x' found
+ POST /compile HTTP/1.1 >> TRUE => 200 octets {asm mov r6, r1 | mov r0, 1 | exit | mov r0, 0 | exit}
+ POST /compile HTTP/1.1 >> FRLAT > 1000 => 422 refused 93 line 1 column 9 NumberRange\na number doesn't fit
+ POST /explain HTTP/1.1 >> {every} => 200 text 0: mov r0, 1                            ; r1 = record + 0, r10 = frame + 512\n
   1: exit                                 ; r0 = 1\naccepted\n
+ POST /explain HTTP/1.1 >> {backward} => 422 0: b7 00 00 00 01 00 00 00  mov r0, 1\n1: 05 00 ff ff 00 00 00 00  ja -1\n
   refused: jumps back, to place 1\n2: 95 00 00 00 00 00 00 00  exit\nrefused 30 place 1 BackwardJump
+ POST /geocode-batch HTTP/1.1 >> number,name\n251,Elm\n
  => 200 csv id,status,reason,longitude,latitude,tlid,side,fedirp,fename,fetype,fedirs,zip,county,from,to\n2,no_match,no_such_street,,,,,,,,,,,,\n
+ POST /geocode-batch HTTP/1.1 >> id,number\n => 422 refused 101 line 1 NoColumn
+ POST /filter-jobs HTTP/1.1 >> FENAME = 'Main' => 200 text 1\n
+ POST /filter-jobs HTTP/1.1 >> ZIP = 36067
  => 422 refused 91 line 1 column 1 UnknownColumn\nno column has this name, and the nearest is ZIPL
+ turn => 2 2
- GET /jobs/1{end} => 200 octets 2 2\n{0\trt1\n*2}
+ GET /open-jobs{end} => 200 text 1 2 2\n"#,
);
