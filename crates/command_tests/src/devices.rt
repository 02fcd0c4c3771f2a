//! Rows with files that fail, and with programs close to the word limit. A read of a program or a source takes 4,096 bytes, and a read of a type
//! 1 file takes one.
use fixtures::Table;

pub const CASES: Table = Table(
    r"
extractd run --program p.bpf --data d 01001; 0\t{rt1}\n ! call 2 full; 3;
  refused 2 rt1 line 2 WrongType\nerror: the output can't be written: no space left; p.bpf: {every};
  d/TGR01001.RT1: {rt1}\n{rt1 RT=4}\n
extractd select --where ZIPL_=_36067 --data d 01001 01003; 0\t{rt1}\n ! call 2 full; 3;
  refused 1 rt1 line 1 WrongLength\ncounty 01003\nerror: the output can't be written: no space left;
  d/TGR01001.RT1: {rt1}\n; d/TGR01003.RT1: {rt1 ..227}\n
extractd verify --program p.bpf; ! call 1 pipe; 3; error: p.bpf: not found\nerror: the output can't be written: broken pipe
extractd run --program p.bpf --data d 01001;; 3; error: p.bpf: not found; d/TGR01001.RT1: {rt1}\n
extractd run --program p.bpf --data d 01001;; 3; error: p.bpf: is a directory; p.bpf: ! call 1 directory;
  d/TGR01001.RT1: {rt1}\n
extractd run --program p.bpf --data d 01001;; 3; error: p.bpf: not found; d/TGR01001.RT1: ! closed memory
extractd run --program p.bpf --data d 01001;; 3; error: d/TGR01001.RT1: not a directory; p.bpf: {every};
  d/TGR01001.RT1: ! closed file
extractd run --program p.bpf --data d 01001;; 3; error: d/TGR01001.RT1: not found; p.bpf: {asm exit}
extractd run --program p.bpf --data d 01001;; 3; refused 5 rt1 line 1 Read; p.bpf: {every};
  d/TGR01001.RT1: ! call 1 directory
extractd run --program p.bpf --data d 01001;; 3; refused 5 rt1 line 1 Read; p.bpf: {every};
  d/TGR01001.RT1: 1000 ! call 5 pipe
extractd run --program p.bpf --data d 01001;; 1; refused 1 rt1 line 1 WrongLength; p.bpf: {every};
  d/TGR01001.RT1: 1000\n ! call 6 pipe
",
);

/// Programs close to the word limit.
pub const LONG: Table = Table(
    r"
extractd asm --source p.s; {asm exit *65536}; 0;; p.s: {text exit\n*65536}
extractd asm --source p.s;; 1; refused 26 line 65537 CodeFault(12); p.s: {text exit\n*65537}
extractd asm --source p.s; {asm mov r0, 1 | ja +32767 | mov r0, 1 *32767 | exit}; 0;;
  p.s: mov r0, 1\nja far\n{text mov r0, 1\n*32767}far:\nexit\n
extractd asm --source p.s;; 1; refused 25 line 2 LabelTooFar;
  p.s: mov r0, 1\nja far\n{text mov r0, 1\n*32768}far:\nexit\n
extractd asm --source p.s; {asm mov r0, 1 | ja32 +32768 | mov r0, 1 *32768 | exit}; 0;;
  p.s: mov r0, 1\nja32 far\n{text mov r0, 1\n*32768}far:\nexit\n
extractd verify --program p.bpf; accepted\n; 0;; p.bpf: {asm mov r0, 1*65535}{asm exit}
extractd verify --program p.bpf;; 1; refused 11 NotWhole; p.bpf: {asm mov r0, 1*65535}{asm exit}\x00
extractd verify --program p.bpf;; 1; refused 12 TooLong; p.bpf: {asm mov r0, 1*65536}{asm exit}
extractd run --program p.bpf --data d 01001; {0\trt1\n*3}; 0;; p.bpf: {asm mov r0, 1*65535}{asm exit};
  d/TGR01001.RT1: {rt1\n*3}
extractd trace --program p.bpf --data d --line 1 --limit 65536 01001; exit 1 score 0\n; 0;;
  p.bpf: {asm mov r0, 1*65535}{asm exit}; d/TGR01001.RT1: {rt1}\n
extractd trace --program p.bpf --data d --line 1 --limit 65535 01001; running\n; 0;;
  p.bpf: {asm mov r0, 1*65535}{asm exit}; d/TGR01001.RT1: {rt1}\n
extractd dis --program p.bpf; {text exit\n*65536}; 0;; p.bpf: {asm exit *65536}
extractd dis --program p.bpf;; 1; refused 12 TooLong; p.bpf: {asm exit *65537}
extractd dis --program p.bpf;; 3; error: p.bpf: broken pipe; p.bpf: {asm exit *65536} ! call 129 pipe
",
);
