//! Programs, the files of types 1, 4, 5 and 6, the outcome, and the rows that the program selects.
use fixtures::Table;

/// Extracts of type 1 files. `not_roads` and `roads` select by the first letter of the class.
pub const EXTRACTS: Table = Table(
    r"
every; {rt1\n*2};;;; ok 2; 0\t{rt1}\n0\t{rt1}\n
every;;;;; ok 0;
every; {rt1}\r\n{rt1}\n{rt1};;;; ok 3; 0\t{rt1}\n0\t{rt1}\n0\t{rt1}\n
every; {rt1}\r\n{rt1 ..227}\n{rt1};;;; refused 1 rt1 line 2 WrongLength; 0\t{rt1}\n
every; {rt1}\n{rt1 RT=4}\n; {rt4}\n; {rt5}\n; {rt6}\n; refused 2 rt1 line 2 WrongType; 0\t{rt1}\n
every; {rt1}\n{rt1 TLID=}\n;;;; refused 3 rt1 line 2 BadTlid; 0\t{rt1}\n
every; {rt1}\n{rt1 FENAME=\xff\x80\xc3\xa9}\n;;;; ok 2; 0\t{rt1}\n0\t{rt1 FENAME=\xff\x80\xc3\xa9}\n
not_roads; {rt1}\n{rt1 CFCC=H01}\n{rt1 CFCC=}\n;;;; ok 2; 0\t{rt1 CFCC=H01}\n0\t{rt1 CFCC=}\n
roads; {rt1}\n{rt1 CFCC=H01}\n{rt1 CFCC=}\n;;;; ok 1; 0\t{rt1}\n
scored; {rt1}\n;;;; ok 1; 18446744073709551615\t{rt1}\n
scored_roads; {rt1}\n{rt1 CFCC=H01}\n;;;; ok 2; 123456789\t{rt1}\n0\t{rt1 CFCC=H01}\n
mov r0, 1 *99 | exit; {rt1}\n;;;; ok 1; 0\t{rt1}\n
ldxb r2, [r1+55] | jne r2, 65, +0 *50 | mov r0, 1 | exit; {rt1}\n;;;; ok 1; 0\t{rt1}\n
unknown; {rt1}\n;;;; refused 13 place 0 UnknownOpcode;
backward; {rt1}\n;;;; refused 30 place 1 BackwardJump;
argument; {rt1}\n;;;; refused 50 place 5 BadArgument(3);
stuck; {rt1}\n;;;; refused 40 place 0 ReadsNothing(0);
ldxb r0, [r1+227] | exit; {rt1}\n;;;; ok 1; 0\t{rt1}\n
ldxb r0, [r1+228] | exit; {rt1}\n;;;; refused 44 place 0 OutOfBounds;
exit | ja +9 | mov r0, 1; {rt1}\n;;;; refused 31 place 1 OutOfProgram;
ldxb r3, [r1+55] | jeq r3, 65, +1 | mov r2, 1 | mov r0, r2 | exit; {rt1}\n;;;; refused 40 place 3 ReadsNothing(2);
mov r2, 0 | ldxb r3, [r1+55] | jeq r3, 65, +1 | mov r2, 1 | mov r0, r2 | exit; {rt1}\n;;;; ok 0;
mov r0, 7 | div r0, 0 | exit; {rt1}\n;;;; ok 0;
mov r0, 7 | mod r0, 0 | exit; {rt1}\n;;;; ok 1; 0\t{rt1}\n
lddw r0, 0x100000007 | mod32 r0, 0 | jeq r0, 7, +1 | mov r0, 0 | exit; {rt1}\n;;;; ok 1; 0\t{rt1}\n
mov32 r2, -1 | mov r0, 0 | jne r2, -1, +1 | mov r0, 1 | exit; {rt1}\n;;;; ok 0;
mov32 r2, -1 | mov r0, 0 | jne32 r2, -1, +1 | mov r0, 1 | exit; {rt1}\n;;;; ok 1; 0\t{rt1}\n
mov r0, 1 | ja +1 | ldxb r0, [r9+0] | exit; {rt1}\n;;;; ok 1; 0\t{rt1}\n
lddw r0, 0x1122334455667788 | be16 r0 | jeq r0, 34935, +1 | mov r0, 0 | exit; {rt1}\n;;;; ok 1; 0\t{rt1}\n
lddw r0, 0x1122334455667788 | le32 r0 | jeq r0, 1432778632, +1 | mov r0, 0 | exit; {rt1}\n;;;; ok 1; 0\t{rt1}\n
mov r0, 0 | ldxb r2, [r1+55] | jgt r2, 227, +2 | add r1, r2 | ldxb r0, [r1+0] | exit; {rt1}\n;;;; ok 1; 0\t{rt1}\n
mov r0, 0 | ldxb r2, [r1+55] | jgt r2, 227, +2 | add r1, r2 | ldxb r0, [r1+0] | add r0, -32 | exit; {rt1}\n;;;; ok 0;
mov r0, 0 | ldxb r2, [r1+55] | jgt r2, 228, +2 | add r1, r2 | ldxb r0, [r1+0] | exit; {rt1}\n;;;;
  refused 44 place 4 OutOfBounds;
mov r0, 0 | ldxb r2, [r1+55] | jsgt r2, 227, +2 | add r1, r2 | ldxb r0, [r1+0] | exit; {rt1}\n;;;; ok 1; 0\t{rt1}\n",
);

/// Extracts of all four files. The score of `counts` is 10,000 times the number of alternate names, plus the number of ranges; `finds` looks for Oak
/// among the first two alternate names.
pub const COUNTIES: Table = Table(
    r"
counts; {rt1}\n; {rt4 FEAT2=8}\n; {rt5}\n; {rt6}\n{rt6 RTSQ=2}\n{rt6 TLID=5}\n; ok 1; 10003\t{rt1}\n
counts; {rt1}\n; {rt4 FEAT3=8}\n; {rt5 FEAT=8 FENAME=Elm}\n{rt5}\n{rt5 FENAME=Ash}\n;; ok 1; 20001\t{rt1}\n
finds; {rt1}\n; {rt4}\n; {rt5}\n;; ok 1; 0\t{rt1}\n
finds; {rt1}\n; {rt4 FEAT3=8}\n; {rt5 FEAT=8 FENAME=Elm}\n{rt5}\n{rt5 FENAME=Ash}\n;; ok 1; 0\t{rt1}\n
counts; {rt1}\n; {rt4 TLID=5\n*1001}; {rt5}\n; {rt6}\n; refused 6 rt4 line 1001 TooManyNames;
counts;; {rt4}\n; {rt5}\n; {rt6 TLID=5\n*1001}; refused 7 rt6 line 1001 TooManyRanges;
counts; {rt1 ..227}\n; {rt4}\n; {rt5 ..55}\n; {rt6}\n; refused 1 rt5 line 1 WrongLength;
counts; {rt1}\n; {rt4}\n; {rt5 FEAT=}\n; {rt6}\n; refused 4 rt5 line 1 BadFeature;
every; {rt1}\n; {rt4}\n; {rt5 FEAT=x}\n; {rt6}\n; refused 4 rt5 line 1 BadFeature;
stuck; {rt1 RT=4}\n; {rt4 TLID=12345678x}\n; {rt5 FEAT=x}\n; {rt6 ..75}\n; refused 40 place 0 ReadsNothing(0);
counts; {rt1 TLID=5}\n{rt1 TLID=6}\n{rt1}\n; {rt4 TLID=6}\n{rt4 TLID=6 FEAT3=8}\n; {rt5 FEAT=8}\n{rt5}\n; {rt6\n*2};
  ok 3; 1\t{rt1 TLID=5}\n30001\t{rt1 TLID=6}\n3\t{rt1}\n
counts; {rt1}\n; {rt4\n*100}{rt4 TLID=5\n*100}; {rt5\n*20}{rt5 FEAT=8}\n; {rt6\n*200}{rt6 TLID=7}\n; ok 1;
  1000201\t{rt1}\n",
);
