//! Rows for the command `run` over type 1 files, and one for `trace`.
use fixtures::Table;

pub const FILES: Table = Table(
    r"
extractd run --program p.bpf --data d 01001; 0\t{rt1}\n0\t{rt1}\n; 0;; p.bpf: {every}; d/TGR01001.RT1: {rt1}\n{rt1}\n
extractd run --program p.bpf --data d 01001;; 0;; p.bpf: {every}; d/TGR01001.RT1:
extractd run --program p.bpf --data d 01001; 0\t{rt1}\n; 0;; p.bpf: {asm ldxb r0, [r1+227] | exit};
  d/TGR01001.RT1: {rt1}\n
extractd run --program p.bpf --data d 01001; 0\t{rt1}\n0\t{rt1}\n0\t{rt1}\n; 0;; p.bpf: {every};
  d/TGR01001.RT1: {rt1}\r\n{rt1}\n{rt1}
extractd run --program p.bpf --data d 01001; 0\t{rt1}\n; 1; refused 1 rt1 line 2 WrongLength; p.bpf: {every};
  d/TGR01001.RT1: {rt1}\r\n{rt1 ..227}\n{rt1}
extractd run --program p.bpf --data d 01001; 0\t{rt1 CFCC=H01}\n0\t{rt1 CFCC=}\n; 0;; p.bpf: {asm ldxb r0, [r1+55] |
  add r0, -65 | exit}; d/TGR01001.RT1: {rt1}\n{rt1 CFCC=H01}\n{rt1 CFCC=}\n
extractd run --program p.bpf --data d 01001; 0\t{rt1}\n; 0;; p.bpf: {asm ldxb r2, [r1+55] | mov r0, 0 | jne r2, 65, +1 |
  mov r0, 1 | exit}; d/TGR01001.RT1: {rt1}\n{rt1 CFCC=H01}\n{rt1 CFCC=}\n
extractd run --program p.bpf --data d 01001; 0\t{rt1}\n; 0;; p.bpf: {asm mov r0, 1 | exit | ldxb r0, [r9+0] | exit};
  d/TGR01001.RT1: {rt1}\n
extractd run --program p.bpf --data d 01001; 0\t{rt1}\n; 0;; p.bpf: {asm stxdw [r10-8], r1 | mov r1, 1 | call 2 |
  ldxdw r1, [r10-8] | ldxb r0, [r1+0] | exit}; d/TGR01001.RT1: {rt1}\n
extractd trace --program p.bpf --data d --line 1 --limit 6 01001; exit 49 score 0\n; 0;; p.bpf: {asm stxdw [r10-8], r1 |
  mov r1, 1 | call 2 | ldxdw r1, [r10-8] | ldxb r0, [r1+0] | exit}; d/TGR01001.RT1: {rt1}\n
extractd run --program p.bpf --data d 01001; 0\t{rt1}\n; 1; refused 1 rt1 line 2 WrongLength; p.bpf: {every};
  d/TGR01001.RT1: {rt1}\n{rt1 ..227}\n
extractd run --program p.bpf --data d 01001; 0\t{rt1}\n; 1; refused 2 rt1 line 2 WrongType; p.bpf: {every};
  d/TGR01001.RT1: {rt1}\n{rt1 RT=4}\n
extractd run --program p.bpf --data d 01001;; 1; refused 3 rt1 line 1 BadTlid; p.bpf: {every};
  d/TGR01001.RT1: {rt1 TLID=}\n
",
);
