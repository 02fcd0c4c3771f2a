//! Rows for the command `geocode-batch`. Places are those of `geocodes`, in decimal degrees: house 151 is 50/98 of the way along each street's
//! line. Shapes are on the equator or to its north, where lengths are easily added: house 150 is half of the way along them.
use fixtures::Table;

/// Abbreviations in rows: the first line of output, and the empty cells in the line of an address without a match.
pub const WORDS: [(&str, &str); 2] = [
    (
        "HEADER",
        r"id,status,reason,longitude,latitude,tlid,side,fedirp,fename,fetype,fedirs,zip,county,from,to\n",
    ),
    ("EMPTY", ",,,,,,,,,,,"),
];

pub const BATCHES: Table = Table(
    r#"
extractd geocode-batch --addresses a.csv --data d 01001 >
  a.csv d/TGR01001.RT1 d/TGR01001.RT4 d/TGR01001.RT5 d/TGR01001.RT6;
  HEADERm,match,,-86.494898,32.405102,123456789,L,,Main,,,36067,01001,101,199\n; 0;;
  a.csv: id,number,name,zip\nm,151,main,36067\n; d/TGR01001.RT1: {rt1}\n
extractd geocode-batch --addresses a.csv --data d 01001;
  HEADER2,match,,-86.494898,32.405102,123456789,R,,Main,,,36067,01001,100,198\n; 0;;
  a.csv: NUMBER,\x20Name\x20\n\x20150\x20,\x20MAIN\x20\n; d/TGR01001.RT1: {rt1}\n
extractd geocode-batch --addresses a.csv --data d 01001;
  HEADERt,tie,,-86.494898,32.405102,7,L,,Oak,,,36067,01001,101,199\nt,tie,,-86.494898,32.410000,8,L,,Oak,,,36067,01001,101,199\n;
  0;; a.csv: id,number,name\nt,151,oak\n; d/TGR01001.RT1: {rt1}\n{rt1 TLID=7 FENAME=Oak}\n{rt1 TLID=8 FENAME=Oak FRLAT=+32410000}\n
extractd geocode-batch --addresses a.csv --data d 01001;
  HEADERt,match,,-86.494898,32.405102,7,L,,Oak,,,36067,01001,101,199\nt,match,,-86.494898,32.405102,8,L,,Oak,,,07001,01001,101,199\n;
  0;; a.csv: id,number,name\nt,151,oak\n; d/TGR01001.RT1: {rt1 TLID=7 FENAME=Oak}\n{rt1 TLID=8 FENAME=Oak ZIPL=07001}\n
extractd geocode-batch --addresses a.csv --data d 01001; HEADER2,match,,,,123456789,L,,Main,,,36067,01001,101,199\n; 0;;
  a.csv: number,name\n151,main\n; d/TGR01001.RT1: {rt1 FRLAT=}\n
extractd geocode-batch --addresses a.csv --data d 01001;
  HEADER2,tie,,,,7,L,,Main,,,36067,01001,101,199\n2,tie,,,,7,L,,Main,,,36067,01001,101,199\n; 0;;
  a.csv: number,name\n151,main\n; d/TGR01001.RT1: {rt1 TLID=7 FRLAT=\n*2}
extractd geocode-batch --addresses a.csv --data d 01001;
  HEADER2,match,,-86.494898,32.405102,123456789,L,N,Main,Blvd,SE,36067,01001,101,199\n; 0;;
  a.csv: sufdir,type,predir,name,number\nse,BLVD,n,main,151\n;
  d/TGR01001.RT1: {rt1 FEDIRP=N FETYPE=Blvd FEDIRS=SE}\n{rt1 FEDIRP=S FETYPE=Blvd FEDIRS=SE}\n
extractd geocode-batch --addresses a.csv --data d 01001;
  HEADER2,match,,-86.494898,32.405102,123456789,L,,Oak,,,36067,01001,101,199\n; 0;; a.csv: number,name\n151,oak\n;
  d/TGR01001.RT1: {rt1}\n; d/TGR01001.RT4: {rt4}\n; d/TGR01001.RT5: {rt5}\n
extractd geocode-batch --addresses a.csv --data d 01001;
  HEADERs,no_match,no_such_street,EMPTY\nn,no_match,no_such_number,EMPTY\nz,no_match,other_zip,EMPTY\nd,no_match,not_a_number,EMPTY\n; 0;;
  a.csv: number,name,id,zip\n151,elm,s,\n99,main,n,\n151,main,z,36066\n151a,main,d,\n; d/TGR01001.RT1: {rt1}\n
extractd geocode-batch --addresses a.csv --data d 01001;
  HEADER2,no_match,name_too_long,EMPTY\n3,no_match,missing,EMPTY\n4,no_match,missing,EMPTY\n5,no_match,not_a_number,EMPTY\n; 0;;
  a.csv: number,name,zip\n151,{text x*31},\n,main,\n151,,\n151,main,x\n; d/TGR01001.RT1: {rt1}\n
extractd geocode-batch --addresses a.csv --data d 01001;
  HEADER2,match,,-86.494898,32.405102,123456789,L,,La Cañada,Pase,,36067,01001,101,199\n3,no_match,no_such_street,EMPTY\n4,no_match,no_such_street,EMPTY\n
   5,no_match,no_such_street,EMPTY\n6,no_match,name_too_long,EMPTY\n;
  0;; a.csv: number,name\n151,la cañada\n151,la canada\n151,la caňada\n151,{text €*30}\n151,{text €*31}\n;
  d/TGR01001.RT1: {rt1 FENAME=La_Ca\xf1ada FETYPE=Pase}\n
extractd geocode-batch --addresses a.csv --data d 01001 01003;
  HEADERa,match,,-86.494898,32.405102,7,L,,Main,,,36067,01003,101,199\nb,no_match,no_such_street,EMPTY\n; 0;;
  a.csv: id,number,name\na,151,main\nb,151,elm\n; d/TGR01001.RT1: {rt1 FENAME=Oak}\n; d/TGR01003.RT1: {rt1 TLID=7}\n
extractd geocode-batch --addresses a.csv --data d 01001;
  HEADER"a,""b""",no_match,no_such_street,EMPTY\n\x20c\x20,no_match,no_such_street,EMPTY\n,no_match,missing,EMPTY\n; 0;;
  a.csv: id,number,name\r\n"a,""b""",151,"e\nlm"\r\n\r\n\x20c\x20,151,elm\r\n,\r\n; d/TGR01001.RT1: {rt1}\n
extractd geocode-batch --addresses a.csv --data d 01001; HEADER; 0;; a.csv: number,name; d/TGR01001.RT1: {rt1}\n
extractd geocode-batch --addresses a.csv --data d 01001; HEADER2,no_match,no_such_street,EMPTY\n; 0;;
  a.csv: number,name\n151,main\n; d/TGR01001.RT1:
extractd geocode-batch --addresses a.csv --data d 01001;; 1; refused 100 NoHeader\nthe file has no header; a.csv:; d/TGR01001.RT1: {rt1}\n
extractd geocode-batch --addresses a.csv --data d 01001;; 1; refused 101 line 2 NoColumn\nthe header has no column `number`; a.csv: \nname\nmain\n;
  d/TGR01001.RT1: {rt1}\n
extractd geocode-batch --addresses a.csv --data d 01001;; 1; refused 101 line 1 NoColumn\nthe header has no column `name`; a.csv: number,nam\n151,main\n;
  d/TGR01001.RT1: {rt1}\n
extractd geocode-batch --addresses a.csv --data d 01001;; 1; refused 102 line 3 NotUtf8\na field isn't UTF-8;
  a.csv: number,name\n151,main\n151,\xff\n; d/TGR01001.RT1: {rt1}\n
extractd geocode-batch --addresses a.csv --data d 01001;; 1; refused 103 line 2 OpenQuote\na quotation mark isn't closed before the end of the file;
  a.csv: number,name\n151,"main\n151,main\n; d/TGR01001.RT1: {rt1}\n
extractd geocode-batch --addresses a.csv --data d 01001;; 1; refused 104 line 3 LineTooLong\nthe record has more than 65,536 bytes;
  a.csv: number,name\n151,main\n151,{text x*65532}\n; d/TGR01001.RT1: {rt1}\n
extractd geocode-batch --addresses a.csv --data d 01001; HEADER2,no_match,name_too_long,EMPTY\n; 0;;
  a.csv: number,name\n151,{text x*65531}\n; d/TGR01001.RT1: {rt1}\n
extractd geocode-batch --addresses a.csv --data d 01001;; 1; refused 105 line 2 NotOneRecord\na carriage return or an unquoted line break ends the record early;
  a.csv: number,name\n151,main\r151,main\n; d/TGR01001.RT1: {rt1}\n
extractd geocode-batch --addresses a.csv --data d 01001 > a.csv;; 3; error: a.csv: not found; d/TGR01001.RT1: {rt1}\n
extractd geocode-batch --addresses - --data d 01001 > /dev/stdin;; 3; error: /dev/stdin: not found
extractd geocode-batch --addresses a.csv --data d 01001 > a.csv;; 3; error: a.csv: is a directory;
  a.csv: ! call 1 directory; d/TGR01001.RT1: {rt1}\n
extractd geocode-batch --addresses a.csv --data d 01001;; 1; refused 1 rt1 line 2 WrongLength; a.csv: number,nam\n;
  d/TGR01001.RT1: {rt1}\n{rt1 ..227}\n
extractd geocode-batch --addresses a.csv --data d 01001 01003;; 3; error: d/TGR01003.RT1: not found;
  a.csv: number,name\n151,"main\n; d/TGR01001.RT1: {rt1}\n
extractd geocode-batch --addresses a.csv --data d --shape 01001 >
  a.csv d/TGR01001.RT1 d/TGR01001.RT4 d/TGR01001.RT5 d/TGR01001.RT6 d/TGR01001.RT2;
  HEADER2,match,,0.002000,0.001000,123456789,R,,Main,,,36067,01001,100,200\n3,no_match,no_such_street,EMPTY\n; 0;;
  a.csv: number,name\n150,main\n150,elm\n; d/TGR01001.RT1: {rt1 FRLONG=1000 FRLAT=0 TOLONG=2000 TOLAT=3000 TOADDR=200}\n;
  d/TGR01001.RT2: {rt2 LONG1=2000 LAT1=0 LONG2=}\n
extractd geocode-batch --addresses a.csv --data d 01001 >
  a.csv d/TGR01001.RT1 d/TGR01001.RT4 d/TGR01001.RT5 d/TGR01001.RT6;
  HEADER2,match,,0.001500,0.001500,123456789,R,,Main,,,36067,01001,100,200\n; 0;; a.csv: number,name\n150,main\n;
  d/TGR01001.RT1: {rt1 FRLONG=1000 FRLAT=0 TOLONG=2000 TOLAT=3000 TOADDR=200}\n; d/TGR01001.RT2: {rt2 LONG1=2000 LAT1=0 LONG2=}\n
extractd geocode-batch --shape --addresses a.csv --data d 01001 01003;
  HEADER2,tie,,0.002000,0.001000,123456789,R,,Main,,,36067,01001,100,200\n2,tie,,0.004000,0.000000,123456789,R,,Main,,,36067,01003,100,200\n;
  0;; a.csv: number,name\n150,main\n; d/TGR01001.RT1: {rt1 FRLONG=1000 FRLAT=0 TOLONG=2000 TOLAT=3000 TOADDR=200}\n;
  d/TGR01003.RT1: {rt1 FRLONG=1000 FRLAT=0 TOLONG=2000 TOLAT=3000 TOADDR=200}\n; d/TGR01001.RT2: {rt2 LONG1=2000 LAT1=0 LONG2=}\n;
  d/TGR01003.RT2: {rt2 LONG1=5000 LAT1=0 LONG2=2000 LAT2=0}\n
extractd geocode-batch --addresses a.csv --data d --shape 01001;
  HEADER2,match,,0.001000,0.001500,123456789,R,,Main,,,36067,01001,100,200\n; 0;; a.csv: number,name\n150,main\n;
  d/TGR01001.RT1: {rt1 FRLONG=1000 FRLAT=0 TOLONG=1000 TOLAT=3000 TOADDR=200}\n; d/TGR01001.RT2: {rt2 TLID=5}\n
extractd geocode-batch --addresses a.csv --data d --shape 01001; HEADER2,match,,,,123456789,L,,Main,,,36067,01001,101,199\n; 0;;
  a.csv: number,name\n151,main\n; d/TGR01001.RT1: {rt1 FRLAT=}\n; d/TGR01001.RT2: {rt2}\n
extractd geocode-batch --addresses a.csv --data d --shape 01001;; 3; error: d/TGR01001.RT2: not found; a.csv: number,nam\n;
  d/TGR01001.RT1: {rt1}\n
extractd geocode-batch --addresses a.csv --data d --shape 01001 01003;; 3; error: d/TGR01003.RT2: not found; a.csv: number,name\n;
  d/TGR01001.RT1: {rt1}\n; d/TGR01003.RT1: {rt1}\n; d/TGR01001.RT2: {rt2}\n
extractd geocode-batch --addresses a.csv --data d --shape 01001 01003;; 1; refused 1 rt1 line 1 WrongLength; a.csv: number,name\n;
  d/TGR01001.RT1: {rt1}\n; d/TGR01003.RT1: {rt1 ..227}\n; d/TGR01001.RT2:; d/TGR01003.RT2:
extractd geocode-batch --addresses a.csv --data d --shape 01001 01003;; 3; error: d/TGR01001.RT2: not found; a.csv: number,name\n;
  d/TGR01001.RT1: {rt1}\n; d/TGR01003.RT1: {rt1 ..227}\n
extractd geocode-batch --addresses a.csv --data d --shape 01001;; 1; refused 1 rt2 line 4 WrongLength; a.csv: number,nam\n;
  d/TGR01001.RT1: {rt1}\n; d/TGR01001.RT2: {rt2}\n{rt2 RTSQ=2}\n{rt2 TLID=5}\n{rt2 ..207}\n
extractd geocode-batch --addresses a.csv --data d --shape 01001;; 1; refused 120 rt2 line 2 BadSequence; a.csv: number,name\n;
  d/TGR01001.RT1: {rt1}\n; d/TGR01001.RT2: {rt2}\n{rt2 RTSQ=}\n
extractd geocode-batch --addresses a.csv --data d --shape 01001 01003;; 1; refused 121 rt2 line 2 RepeatedSequence; a.csv: number,name\n;
  d/TGR01001.RT1: {rt1}\n; d/TGR01003.RT1: {rt1}\n; d/TGR01001.RT2: {rt2}\n; d/TGR01003.RT2: {rt2}\n{rt2}\n
extractd geocode-batch --addresses a.csv --data d --shape 01001;; 3; refused 5 rt2 line 1 Read; a.csv: number,name\n;
  d/TGR01001.RT1: {rt1}\n; d/TGR01001.RT2: ! call 1 pipe
extractd geocode-batch --addresses a.csv --data d --shape 01001;; 3; error: d/TGR01001.RT2: permission denied; a.csv: number,name\n;
  d/TGR01001.RT1: {rt1}\n; d/TGR01001.RT2: ! closed denied
extractd geocode-batch --addresses a.csv --data d --shape 01001;; 4; refused memory; a.csv: number,name\n;
  d/TGR01001.RT1: {rt1}\n; d/TGR01001.RT2: ! closed memory
"#,
);
