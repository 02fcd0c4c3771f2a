//! Rows of names that are echoed: each control character as its escape, and anything else as it is.
use fixtures::Table;

pub const ECHOES: Table = Table(
    r"
extractd verify --program a\nb.bpf;; 3; error: a\x5cnb.bpf: not found
extractd dis --program \n\r\n;; 3; error: \x5cn\x5cr\x5cn: not found
extractd run --program p.bpf --data d\t 01001;; 3; error: d\x5ct/TGR01001.RT1: not found; p.bpf: {every}
extractd select --where TRUE --data \x1b[2Jd 01001;; 3; error: \x5cu\x7b1b\x7d[2Jd/TGR01001.RT1: not found
extractd compile --filter f\x01.cql;; 3; error: f\x5cu\x7b1\x7d.cql: not found
extractd explain --program p.bpf --lines l\x7f;; 3; error: l\x5cu\x7b7f\x7d: not found; p.bpf: {every}
extractd geocode-batch --addresses C:\x5cstraße_'1'.csv --data d 01001;; 3; error: C:\x5cstraße '1'.csv: not found
",
);
