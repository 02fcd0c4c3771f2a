//! Rows for the commands `run` and `trace` over a county's four files.
use fixtures::Table;

pub const COUNTIES: Table = Table(
    r"
extractd run --program p.bpf --data d 01001; 3\t{rt1}\n; 0;; p.bpf: {asm call 4 | mov r1, r0 | call 8 | mov r0, 1
  | exit}; d/TGR01001.RT1: {rt1}\n;
  d/TGR01001.RT6: {rt6 TLID=123456789 RTSQ=1 FRADDL= TOADDL= ZIPL=}\n{rt6 TLID=123456789 RTSQ=2 FRADDL= TOADDL=
  ZIPL=}\n{rt6 TLID=5 RTSQ= FRADDL= TOADDL= ZIPL=}\n
extractd run --program p.bpf --data d 01001; 1\t{rt1}\n; 0;; p.bpf: {asm call 3 | mov r1, r0 | call 8 | mov r0, 1
  | exit}; d/TGR01001.RT1: {rt1}\n; d/TGR01001.RT4: {rt4 TLID=123456789 RTSQ= FEAT1=7 FEAT2=8}\n;
  d/TGR01001.RT5: {rt5 FEAT=7}\n
extractd run --program p.bpf --data d 01001; 2\t{rt1}\n; 0;; p.bpf: {asm call 3 | mov r1, r0 | call 8 | mov r0, 1
  | exit}; d/TGR01001.RT1: {rt1}\n; d/TGR01001.RT4: {rt4 TLID=123456789 RTSQ= FEAT1=7 FEAT3=8}\n;
  d/TGR01001.RT5: {rt5 FEAT=8 FENAME=Elm}\n{rt5 FEAT=7}\n{rt5 FEAT=7 FENAME=Ash}\n
extractd run --program p.bpf --data d 01001; 543908175\t{rt1}\n; 0;; p.bpf: {asm mov r1, 1 | mov r2, r10 | add r2,
  -4 | mov r3, 4 | call 6 | ldxw r1, [r10-4] | call 8 | mov r0, 1 | exit}; d/TGR01001.RT1: {rt1}\n;
  d/TGR01001.RT4: {rt4 TLID=123456789 RTSQ= FEAT1=7 FEAT3=8}\n;
  d/TGR01001.RT5: {rt5 FEAT=8 FENAME=Elm}\n{rt5 FEAT=7}\n{rt5 FEAT=7 FENAME=Ash}\n
extractd run --program p.bpf --data d 01001; 544042053\t{rt1}\n; 0;; p.bpf: {asm mov r1, 2 | mov r2, r10 | add r2,
  -4 | mov r3, 4 | call 6 | ldxw r1, [r10-4] | call 8 | mov r0, 1 | exit}; d/TGR01001.RT1: {rt1}\n;
  d/TGR01001.RT4: {rt4 TLID=123456789 RTSQ= FEAT1=7 FEAT3=8}\n;
  d/TGR01001.RT5: {rt5 FEAT=8 FENAME=Elm}\n{rt5 FEAT=7}\n{rt5 FEAT=7 FENAME=Ash}\n
extractd run --program p.bpf --data d 01001;; 1; refused 6 rt4 line 1001 TooManyNames; p.bpf: {asm mov r0, 1 |
  exit}; d/TGR01001.RT1: {rt1}\n; d/TGR01001.RT4: {rt4 TLID=5 RTSQ= FEAT1=\n*1001}
extractd run --program p.bpf --data d 01001;; 1; refused 7 rt6 line 1001 TooManyRanges; p.bpf: {asm mov r0, 1 |
  exit}; d/TGR01001.RT1: {rt1}\n; d/TGR01001.RT6: {rt6 TLID=5 RTSQ= FRADDL= TOADDL= ZIPL=\n*1001}
extractd run --program p.bpf --data d 01001;; 1; refused 1 rt5 line 1 WrongLength; p.bpf: {asm mov r0, 1 | exit};
  d/TGR01001.RT1: {rt1 ..227}\n; d/TGR01001.RT5: {rt5 ..55}\n
extractd run --program p.bpf --data d 01001;; 1; refused 4 rt5 line 1 BadFeature; p.bpf: {asm mov r0, 1 | exit};
  d/TGR01001.RT1: {rt1}\n; d/TGR01001.RT5: {rt5 FEAT=}\n
extractd run --program p.bpf --data d 01001;; 3; refused 5 rt4 line 1 Read; p.bpf: {asm mov r0, 1 | exit};
  d/TGR01001.RT1: {rt1}\n; d/TGR01001.RT4: ! call 1 directory
extractd trace --line 1 --limit 1 --program p.bpf --data d 01001; running\n; 0;; p.bpf: {asm mov r0, 1 | exit};
  d/TGR01001.RT1: {rt1}\n{rt1}\n
extractd trace --line 1 --limit 2 --program p.bpf --data d 01001; exit 1 score 0\n; 0;; p.bpf: {asm mov r0, 1 |
  exit}; d/TGR01001.RT1: {rt1}\n{rt1}\n
extractd trace --line 1 --limit 0 --program p.bpf --data d 01001; running\n; 0;; p.bpf: {asm exit};
  d/TGR01001.RT1: {rt1}\n{rt1}\n
extractd trace --line 1 --limit 1 --program p.bpf --data d 01001; stuck place 0 cause 40\n; 0;; p.bpf: {asm exit};
  d/TGR01001.RT1: {rt1}\n{rt1}\n
extractd trace --line 2 --limit 9 --program p.bpf --data d 01001; stuck place 1 cause 45\n; 0;; p.bpf: {asm mov r0,
  1 | ldxb r2, [r10-8] | exit}; d/TGR01001.RT1: {rt1}\n{rt1}\n
extractd trace --line 1 --limit 9999999999999999999 --program p.bpf --data d 01001; exit 65 score 0\n; 0;;
  p.bpf: {asm ldxb r0, [r1+55] | exit}; d/TGR01001.RT1: {rt1}\n{rt1 CFCC=H41}\n
extractd trace --line 0000000000000000002 --limit 2 --program p.bpf --data d 01001; exit 72 score 0\n; 0;;
  p.bpf: {asm ldxb r0, [r1+55] | exit}; d/TGR01001.RT1: {rt1}\n{rt1 CFCC=H41}\n
extractd trace --line 1 --limit 9 --program p.bpf --data d 01001;
  exit 18446744073709551614 score 18446744073709551615\n; 0;; p.bpf: {asm mov r1, -1 | call 8 | mov r0, -2 | exit};
  d/TGR01001.RT1: {rt1}\n
extractd trace --line 1 --limit 9 --program p.bpf --data d 01001; exit 1 score 0\n; 0;; p.bpf: {asm call 3 | exit};
  d/TGR01001.RT1: {rt1}\n; d/TGR01001.RT4: {rt4 TLID=123456789 RTSQ= FEAT1=7 FEAT2=8}\n;
  d/TGR01001.RT5: {rt5 FEAT=7}\n
extractd trace --line 3 --limit 1 --program p.bpf --data d 01001;; 2; error: the type 1 file has no line 3;
  p.bpf: {asm mov r0, 1 | exit}; d/TGR01001.RT1: {rt1}\n{rt1}\n
extractd trace --line 0 --limit 1 --program p.bpf --data d 01001;; 2; error: the type 1 file has no line 0;
  p.bpf: {asm mov r0, 1 | exit}; d/TGR01001.RT1: {rt1}\n{rt1}\n
extractd trace --line 9999999999999999999 --limit 1 --program p.bpf --data d 01001;; 2;
  error: the type 1 file has no line 9999999999999999999; p.bpf: {asm mov r0, 1 | exit}; d/TGR01001.RT1:
extractd trace --line 0 --limit 1 --program p.bpf --data d 01001;; 1; refused 10 Empty; p.bpf:;
  d/TGR01001.RT1: {rt1 ..227}\n
extractd trace --line 1 --limit 1 --program p.bpf --data d 01001;; 1; refused 1 rt1 line 2 WrongLength;
  p.bpf: {asm exit}; d/TGR01001.RT1: {rt1}\n{rt1 ..227}\n
extractd trace --line 0 --limit 1 --program p.bpf --data d 01001;; 1; refused 1 rt4 line 1 WrongLength;
  p.bpf: {asm exit}; d/TGR01001.RT1: {rt1 ..227}\n;
  d/TGR01001.RT4: 400065                                                   \n
extractd trace --line 1 --limit 1 --program p.bpf --data d 01001;; 3; refused 5 rt1 line 1 Read; p.bpf: {asm exit};
  d/TGR01001.RT1: {rt1}\n ! call 1 pipe
",
);

// The names of the files, in the order in which they are opened.
pub const OPENINGS: Table = Table(
    r"
extractd run --program p.bpf --data d 01001 > p.bpf d/TGR01001.RT1 d/TGR01001.RT4 d/TGR01001.RT5 d/TGR01001.RT6;
  0\t{rt1}\n; 0;; p.bpf: {every}; d/TGR01001.RT1: {rt1}\n
extractd run --program p.bpf --data d 01001 > p.bpf d/TGR01001.RT1 d/TGR01001.RT4;; 3;
  error: d/TGR01001.RT4: permission denied; p.bpf: {every}; d/TGR01001.RT1: {rt1}\n; d/TGR01001.RT4: ! closed denied;
  d/TGR01001.RT5: ! closed denied; d/TGR01001.RT6: ! closed denied
extractd run --program p.bpf --data d 01001 > p.bpf d/TGR01001.RT1 d/TGR01001.RT4 d/TGR01001.RT5;; 3;
  error: d/TGR01001.RT5: not a directory; p.bpf: {every}; d/TGR01001.RT1: {rt1}\n; d/TGR01001.RT4:;
  d/TGR01001.RT5: ! closed file; d/TGR01001.RT6: ! closed denied
extractd run --program p.bpf --data d 01001 > p.bpf d/TGR01001.RT1 d/TGR01001.RT4 d/TGR01001.RT5 d/TGR01001.RT6;;
  3; error: d/TGR01001.RT6: too many links; p.bpf: {every}; d/TGR01001.RT1: {rt1}\n; d/TGR01001.RT4:; d/TGR01001.RT5:;
  d/TGR01001.RT6: ! closed links
extractd run --program p.bpf --data d 01001 > p.bpf d/TGR01001.RT1 d/TGR01001.RT4 d/TGR01001.RT5;; 4; refused
  memory; p.bpf: {every}; d/TGR01001.RT1: {rt1}\n; d/TGR01001.RT4:; d/TGR01001.RT5: ! closed memory; d/TGR01001.RT6:
extractd run --program p.bpf --data d 01001 > p.bpf d/TGR01001.RT1;; 3; error: d/TGR01001.RT1: not found;
  p.bpf: {every}; d/TGR01001.RT4: ! closed denied; d/TGR01001.RT5:; d/TGR01001.RT6:
extractd run --program p.bpf --data d 01001 > p.bpf;; 3; error: p.bpf: not found; d/TGR01001.RT4:; d/TGR01001.RT5:;
  d/TGR01001.RT6:
extractd run --program p.bpf --data d 01001 > p.bpf d/TGR01001.RT1 d/TGR01001.RT4 d/TGR01001.RT5 d/TGR01001.RT6;;
  3; error: d/TGR01001.RT6: permission denied; p.bpf: ! call 1 pipe; d/TGR01001.RT1: {rt1}\n; d/TGR01001.RT4:;
  d/TGR01001.RT5:; d/TGR01001.RT6: ! closed denied
extractd run --program p.bpf --data d 01001 > p.bpf d/TGR01001.RT1 d/TGR01001.RT4 d/TGR01001.RT5 d/TGR01001.RT6;;
  3; error: p.bpf: broken pipe; p.bpf: ! call 1 pipe; d/TGR01001.RT1: {rt1}\n; d/TGR01001.RT4:; d/TGR01001.RT5:;
  d/TGR01001.RT6:
extractd trace --line 0 --limit 0 --program p.bpf --data d 01001 > p.bpf d/TGR01001.RT1 d/TGR01001.RT4
  d/TGR01001.RT5 d/TGR01001.RT6;; 3; error: d/TGR01001.RT6: permission denied; p.bpf: ! call 1 pipe;
  d/TGR01001.RT1: {rt1}\n; d/TGR01001.RT4:; d/TGR01001.RT5:; d/TGR01001.RT6: ! closed denied
extractd trace --line 0 --limit 0 --program p.bpf --data d 01001 > p.bpf d/TGR01001.RT1 d/TGR01001.RT4
  d/TGR01001.RT5 d/TGR01001.RT6;; 3; error: p.bpf: broken pipe; p.bpf: ! call 1 pipe; d/TGR01001.RT1: {rt1}\n;
  d/TGR01001.RT4:; d/TGR01001.RT5:; d/TGR01001.RT6:
extractd trace --line 0 --limit 0 --program p.bpf --data d 01001 > p.bpf;; 3; error: p.bpf: not found;
  d/TGR01001.RT4:; d/TGR01001.RT5:; d/TGR01001.RT6:
extractd trace --line 1 --limit 2 --program p.bpf --data d 01001 > p.bpf d/TGR01001.RT1;; 4; refused memory;
  p.bpf: {every}; d/TGR01001.RT1: ! closed memory; d/TGR01001.RT4:; d/TGR01001.RT5:; d/TGR01001.RT6:
",
);
