//! Rows for the command `explain`. The listings are worked out by hand.
use fixtures::Table;

pub const LISTINGS: Table = Table(
    r"
extractd explain --program p.bpf; 0: mov r0, 0                            \x3b r1 = record + 0, r10 = frame + 512\n1:
  exit                                 \x3b r0 = 0\naccepted\n; 0;; p.bpf: {asm mov r0, 0 | exit}
extractd explain --program p.bpf; 0: mov r0, 0                            \x3b r1 = record + 0, r10 = frame + 512\n1:
  ldxb r2, [r1+55]                     \x3b r0 = 0, r1 = record + 0\n2: jgt r2, 227, +2                      \x3b r2 =
  0..255\n3: add r1, r2                           \x3b r1 = record + 0, r2 = 0..227\n4: ldxb r0,
  [r1+0]                      \x3b r1 = record + 0..227\n5: exit                                 \x3b r0 = 0..255, r2 =
  0..255\naccepted\n; 0;; p.bpf: {asm mov r0, 0 | ldxb r2, [r1+55] | jgt r2, 227, +2 | add r1, r2 | ldxb r0, [r1+0] |
  exit}
extractd explain --program p.bpf; 0: ldxb r0, [r1+228]                    \x3b r1 = record + 0, r10 = frame +
  512\nrefused: reads bytes 228..228 of the record, which has 0..227: r1 = record + 0, offset 228\n; 1; refused 44 place
  0 OutOfBounds; p.bpf: {asm ldxb r0, [r1+228] | exit}
extractd explain --program p.bpf; 0: mov r0, 1                            \x3b r1 = record + 0, r10 = frame + 512\n1: ja
  +1                                \x3b r0 = 1\n2: ldxb r0, [r9+0]                      \x3b unreached\n3:
  exit                                 \x3b r0 = 1\naccepted\n; 0;; p.bpf: {asm mov r0, 1 | ja +1 | ldxb r0, [r9+0] |
  exit}
extractd explain --program p.bpf; 0: stxdw [r10-8], r1                    \x3b r1 = record + 0, r10 = frame + 512\n1:
  ldxdw r2, [r10-8]                    \x3b r10 = frame + 512, [r10-8] = record + 0\n2: stb [r10-8],
  7                       \x3b r2 = record + 0, r10 = frame + 512\n3: ldxh r0, [r10-8]                     \x3b r10 =
  frame + 512, [r10-8] = m???????\nrefused: reads bytes 504..505 of the frame, not all of which are written: r10 = frame
  + 512, offset -8, [r10-8] = m???????\n; 1; refused 45 place 3 UnwrittenFrame; p.bpf: {asm stxdw [r10-8], r1 | ldxdw
  r2, [r10-8] | stb [r10-8], 7 | ldxh r0, [r10-8] | exit}
extractd explain --program p.bpf; 0: lddw r2, 0x8000000000000000          \x3b r1 = record + 0, r10 = frame + 512\n2:
  mov r0, r2                           \x3b r2 = -9223372036854775808\n3: exit                                 \x3b r0 =
  -9223372036854775808\naccepted\n; 0;; p.bpf: {asm lddw r2, 0x8000000000000000 | mov r0, r2 | exit}
extractd explain --program p.bpf --lines l; \x3b int x\n\x3b\x20\n0: mov r0, 0                            \x3b r1 =
  record + 0, r10 = frame + 512\n\x3b return x\n1: exit                                 \x3b r0 = 0\n\x3b
  end\naccepted\n; 0;; p.bpf: {asm mov r0, 0 | exit}; l: 0\tint x\n0\t\n1\treturn x\r\n9\tend
extractd explain --program p.bpf --lines l;; 1; refused 110 line 2 LineNotText; p.bpf: {asm mov r0, 0 | exit}; l:
  0\tx\n1\t\xff\n
extractd explain --program p.bpf --lines l;; 1; refused 111 line 1 LineWithoutPlace; p.bpf: {asm mov r0, 0 | exit}; l:
  int x\n
extractd explain --program p.bpf --lines l;; 1; refused 112 line 3 LineOutOfOrder; p.bpf: {asm mov r0, 0 | exit}; l:
  0\tx\n1\tx\n0\tx\n
extractd explain --program p.bpf --lines l; 0: b7 00 00 00 01 00 00 00  mov r0, 1\n1: 05 00 ff ff 00 00 00 00  ja -1\nrefused:
  jumps back, to place 1\n2: 95 00 00 00 00 00 00 00  exit\n; 1; refused 30 place 1 BackwardJump; p.bpf: {asm mov r0, 1 | ja
  -1 | exit}; l: int x\n
extractd explain --program p.bpf --lines l; 1: 18 02 00 00 05 00 00 00  lddw r2, 0x0000000000000005\n2: 00 00 00 00 00 00
  00 00\n3: b7 01 00 00 01 00 00 00  mov r1, 1\n4: b7 01 00 00 02 00 00 00  mov r1, 2\n\x3b return g(x)\n5: b7 03 00 00
  05 00 00 00  mov r3, 5\n\x3b g\n6: 85 10 00 00 ff ff ff ff\nrefused: calls another function (src_reg 1), whose place
  clang left to a linker\n7: 95 00 00 00 00 00 00 00  exit\n; 1; refused 15 place 6 UnusedNotZero; p.bpf: {asm mov r1, 0 |
  lddw r2, 5 | mov r1, 1 | mov r1, 2 | mov r3, 5 | hex 85100000ffffffff | exit}; l: 0\tint x\n5\treturn g(x)\n6\tg\n
extractd explain --program p.bpf --lines l;; 3; error: l: not found; p.bpf: {asm mov r0, 0 | exit}
extractd explain --program p.bpf;; 1; refused 10 Empty; p.bpf:
",
);
