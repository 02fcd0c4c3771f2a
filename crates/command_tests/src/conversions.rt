//! Rows of the commands `asm` and `dis`.
use fixtures::Table;

pub const SOURCES: Table = Table(
    r"
extractd asm --source p.s;
  {asm hex 7112370000000000 b700000000000000 5502010041000000 b700000001000000 9500000000000000}; 0;;
  p.s: ldxb r2, [r1+55]\nmov r0, 0\njne r2, 65, out\nmov r0, 1\nout:\nexit\n
extractd asm --source p.s;
  {asm hex 7112370000000000 b700000000000000 5502010041000000 b700000001000000 9500000000000000}; 0;;
  p.s: ldxb r2, [r1+55]\nmov r0, 0\njne r2, 65, +1\nmov r0, 1\nexit\n
extractd asm --source p.s; {asm exit}; 0;; p.s: exit
extractd asm --source p.s; {asm hex 0500000000000000}; 0;; p.s: ja end\nend:\n
extractd asm --source p.s; {asm hex 0500020000000000 1801000001000000 0000000000000000 9500000000000000}; 0;;
  p.s: ja over\nlddw r1, 0x1\nover:\nexit\n
extractd asm --source p.s;; 1; refused 26 line 1 CodeFault(10); p.s:
extractd asm --source p.s;; 1; refused 21 line 1 UnknownMnemonic; p.s: frob r0\n
extractd asm --source p.s;; 1; refused 20 line 2 Syntax; p.s: exit\nmov r0\n
extractd asm --source p.s;; 1; refused 20 line 1 Syntax; p.s: mov r11, 1\n
extractd asm --source p.s;; 1; refused 22 line 1 NumberRange; p.s: mov r0, 2147483648\n
extractd asm --source p.s;; 1; refused 24 line 2 DoubleLabel; p.s: a:\na:\nexit\n
extractd asm --source p.s;; 1; refused 23 line 1 UnknownLabel; p.s: ja nowhere\n
extractd asm --source p.s;; 1; refused 26 line 1 CodeFault(18); p.s: mov r10, 1\n
extractd asm --source p.s;; 3; error: p.s: not UTF-8; p.s: exit\n\xff\n
extractd asm --source p.s;; 3; error: p.s: not UTF-8; p.s: \x3b \xc3\nfrob\n
extractd asm --source p.s; {asm exit}; 0;; p.s: \x3b \xc3\xa4\nexit\n
",
);

// The examples in docs/instructions.md; the one with a label is above. The bytes are those of LLVM's assembler if it has the instruction.
pub const DOCUMENTED: Table = Table(
    r"
extractd asm --source p.s; {asm hex 7110370000000000 07000000b8ffffff 9500000000000000}; 0;;
  p.s: \x3b every segment that isn't hydrography\nldxb r0, [r1+55] \x3b the first letter of its class\nadd r0, -72
  \x3b H is 72: 0 for hydrography alone\nexit\n
extractd asm --source p.s; {asm hex 1800000088776655 0000000044332211 dc00000010000000 9500000000000000}; 0;;
  p.s: lddw r0, 0x1122334455667788\nbe16 r0\nexit\n
extractd asm --source p.s;
  {asm hex 620afcff6d61696e bfa2000000000000 07020000fcffffff 8500000007000000 9500000000000000}; 0;;
  p.s: stw [r10-4], 0x6e69616d \x3b main\nmov r2, r10\nadd r2, -4\ncall 7\nexit\n
extractd asm --source p.s;
  {asm hex b4020000ffffffff 56020100ffffffff bc22080000000000 3702010003000000 9500000000000000}; 0;;
  p.s: mov32 r2, -1\njne32 r2, 0xffffffff, +1\nmovsx8_32 r2, r2\nsdiv r2, 3\nexit\n
",
);

pub const PROGRAMS: Table = Table(
    r"
extractd dis --program p.bpf; ldxb r2, [r1+55]\nmov r0, 0\njne r2, 65, +1\nmov r0, 1\nexit\n; 0;;
  p.bpf: {asm ldxb r2, [r1+55] | mov r0, 0 | jne r2, 65, +1 | mov r0, 1 | exit}
extractd dis --program p.bpf; ja +2\nlddw r1, 0x0000000000000001\nexit\n; 0;;
  p.bpf: {asm ja +2 | lddw r1, 0x1 | exit}
extractd dis --program p.bpf;; 1; refused 10 Empty; p.bpf:
extractd dis --program p.bpf;; 1; refused 11 NotWhole; p.bpf: {asm hex 95000000000000}
extractd dis --program p.bpf;; 1; refused 15 place 0 UnusedNotZero; p.bpf: {asm hex b710000001000000 | exit}
",
);
