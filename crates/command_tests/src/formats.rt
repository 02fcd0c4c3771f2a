//! Rows for the formats of `run` and `select`, worked out by hand from the record layouts, RFC 4180 and RFC 7946.
use fixtures::Table;

pub const FORMATS: Table = Table(
    r#"
extractd select --where TRUE --format csv --columns TLID,fename --geometry none --data d 01001 01003; score,TLID,FENAME\n0,123456789,Main\n0,7,Main\n;
  0;; d/TGR01001.RT1: {rt1}\n; d/TGR01003.RT1: {rt1 TLID=7}\n
extractd select --where TRUE --score ZIPL --format csv --columns ZIPL --data d 01001;
  score,ZIPL,WKT\n36067,36067,"LINESTRING (-86.500000 32.400000,-86.490000 32.410000)"\n; 0;; d/TGR01001.RT1: {rt1}\n
extractd select --where TRUE --format csv --columns ZIPL --geometry shape --data d 01001 > d/TGR01001.RT1 d/TGR01001.RT4 d/TGR01001.RT5
  d/TGR01001.RT6 d/TGR01001.RT2; score,ZIPL,WKT\n0,36067,"LINESTRING (-86.500000 32.400000,-86.498000 32.403000,-86.495000 32.406000,-86.490000
  32.410000)"\n; 0;; d/TGR01001.RT1: {rt1}\n; d/TGR01001.RT2: {rt2}\n
extractd select --where FALSE --format csv --columns TLID --geometry none --data d 01001; score,TLID\n; 0;; d/TGR01001.RT1: {rt1}\n
extractd select --where FALSE --format geojsonseq --data d 01001;; 0;; d/TGR01001.RT1: {rt1}\n
extractd select --where TRUE --format geojsonseq --columns TLID --geometry none --data d 01001;
  \x7b"type":"Feature","properties":\x7b"score":0,"TLID":123456789\x7d,"geometry":null\x7d\n; 0;; d/TGR01001.RT1: {rt1}\n
extractd run --program p.bpf --format csv --columns TLID --geometry none --data d 01001; score,TLID\n0,123456789\n; 0;; p.bpf: {every};
  d/TGR01001.RT1: {rt1}\n
extractd run --program p.bpf --format csv --columns TLID --geometry shape --data d 01001;; 3; error: d/TGR01001.RT2: not found; p.bpf: {every};
  d/TGR01001.RT1: {rt1}\n
extractd select --where TRUE --format csv --columns TLID --geometry shape --data d 01001; score,TLID,WKT\n; 3; error: d/TGR01001.RT2: not found;
  d/TGR01001.RT1: {rt1}\n
extractd select --where TRUE --format csv --columns TLID --geometry shape --data d 01001; score,TLID,WKT\n; 1;
  refused 121 rt2 line 2 RepeatedSequence\ncounty 01001; d/TGR01001.RT1: {rt1}\n; d/TGR01001.RT2: {rt2\n*2}
extractd select --where TRUE --format csv --columns TLID --geometry shape --data d 01001; score,TLID,WKT\n; 3; refused 5 rt2 line 1 Read\ncounty 01001;
  d/TGR01001.RT1: {rt1}\n; d/TGR01001.RT2: ! call 1 pipe
extractd run --program p.bpf --format csv --columns TLID --geometry none --data d 01001; score,TLID\n ! call 2 full; 3;
  refused 1 rt1 line 1 WrongLength\nerror: the output can't be written: no space left; p.bpf: {every}; d/TGR01001.RT1: {rt1 ..227}\n
"#,
);
