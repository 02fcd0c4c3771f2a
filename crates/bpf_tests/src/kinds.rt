//! The results of instructions on intervals, and the order of kinds.
ghost use Rattle.std.specs.Prelude.{IfOk};
ghost use Rattle.bpf_kinds.specs.Interval.{IsProper};

use crate::codes::code_of;
use bpf_insn::Insn;
use bpf_kinds::{
    Interval, Kind, Narrowed, Offsets, Order, alu, byte_swap, extend, load, negate, refine,
};
use fixtures::{Table, TableFault, cells};
use std::alloc::Global;

// An instruction, its operands and the result. Intervals are in hexadecimal, and a single number is written alone.
//
// Computed by an independent implementation of the written rules, which was checked on all numbers of small intervals. Each operand of each case has
// each of the numbers 0, 1, 2^31 - 1, 2^31, 2^32 - 1, 2^32, 2^63 - 1, 2^63 and 2^64 - 1 as an end, and each rule has its row.
const RESULTS: Table = Table(
    "\
add r1, r2; 80000000-ffffffff 0-1; 80000000-100000000
add r1, r2; 8000000000000000-ffffffffffffffff 8000000000000000-ffffffffffffffff; 0-fffffffffffffffe
add r1, r2; 7fffffff-100000000 7fffffff-80000000; fffffffe-180000000
add r1, r2; 1-7fffffffffffffff ffffffff-7fffffffffffffff; 100000000-fffffffffffffffe
add r1, r2; 0-7fffffff 100000000-ffffffffffffffff; 0-ffffffffffffffff
add r1, r2; 0 7fffffffffffffff; 7fffffffffffffff
add32 r1, r2; 0-7fffffff 1-7fffffff; 1-fffffffe
add32 r1, r2; 80000000-100000000 100000000-7fffffffffffffff; 0-ffffffff
add32 r1, r2; 1-ffffffff ffffffffffffffff; 0-fffffffe
add32 r1, r2; 8000000000000000 80000000-ffffffff; 80000000-ffffffff
add32 r1, r2; 7fffffffffffffff-ffffffffffffffff 0-8000000000000000; 0-ffffffff
add32 r1, r2; 7fffffff ffffffff; 7ffffffe
sub r1, r2; 7fffffffffffffff-ffffffffffffffff 7fffffff-80000000; 7fffffff7fffffff-ffffffff80000000
sub r1, r2; 1-80000000 ffffffff-7fffffffffffffff; 8000000000000002-ffffffff80000001
sub r1, r2; 0-8000000000000000 8000000000000000-ffffffffffffffff; 0-ffffffffffffffff
sub r1, r2; ffffffff-100000000 0-1; fffffffe-100000000
sub r1, r2; 7fffffff 100000000; ffffffff7fffffff
sub32 r1, r2; 0-7fffffff 80000000-ffffffff; 1-ffffffff
sub32 r1, r2; ffffffff-7fffffffffffffff 1-7fffffffffffffff; 0-ffffffff
sub32 r1, r2; 1-80000000 100000000; 1-80000000
sub32 r1, r2; ffffffffffffffff 0-7fffffff; 80000000-ffffffff
sub32 r1, r2; 100000000-8000000000000000 8000000000000000-ffffffffffffffff; 0-ffffffff
sub32 r1, r2; 8000000000000000 ffffffff; 1
mul r1, r2; 0-7fffffff 0-80000000; 0-3fffffff80000000
mul r1, r2; 7fffffffffffffff-ffffffffffffffff 7fffffffffffffff-8000000000000000; 0-ffffffffffffffff
mul r1, r2; 1-80000000 7fffffff-ffffffff; 7fffffff-7fffffff80000000
mul r1, r2; ffffffff-100000000 1-ffffffffffffffff; 0-ffffffffffffffff
mul r1, r2; 8000000000000000 100000000; 0
mul32 r1, r2; 7fffffff-80000000 0-1; 0-80000000
mul32 r1, r2; 7fffffffffffffff-ffffffffffffffff 7fffffff-8000000000000000; 0-ffffffff
mul32 r1, r2; 8000000000000000 ffffffffffffffff; 0
mul32 r1, r2; 1-100000000 100000000-7fffffffffffffff; 0-ffffffff
mul32 r1, r2; 0-ffffffff 80000000-ffffffff; 0-ffffffff
div r1, r2; 7fffffff-8000000000000000 80000000-ffffffffffffffff; 0-100000000
div r1, r2; 1-7fffffffffffffff 0-7fffffffffffffff; 0-7fffffffffffffff
div r1, r2; ffffffff-ffffffffffffffff ffffffff-100000000; 0-100000001
div r1, r2; 0-80000000 7fffffff-8000000000000000; 0-1
div r1, r2; 100000000 1; 100000000
div32 r1, r2; 1-7fffffffffffffff 7fffffff-ffffffff; 0-2
div32 r1, r2; 0-80000000 80000000-100000000; 0-80000000
div32 r1, r2; ffffffffffffffff 7fffffffffffffff; 1
div32 r1, r2; 7fffffff-100000000 0-1; 0-ffffffff
div32 r1, r2; ffffffff-8000000000000000 8000000000000000-ffffffffffffffff; 0-ffffffff
sdiv r1, r2; 7fffffffffffffff-8000000000000000 1-7fffffffffffffff; 0-ffffffffffffffff
sdiv r1, r2; 1-ffffffffffffffff 0-80000000; 0-ffffffffffffffff
sdiv r1, r2; 80000000-100000000 ffffffff-8000000000000000; 0-ffffffffffffffff
sdiv r1, r2; 0-ffffffff 100000000-ffffffffffffffff; 0-ffffffffffffffff
sdiv r1, r2; 7fffffff 7fffffff; 1
sdiv32 r1, r2; 80000000-ffffffffffffffff 7fffffffffffffff-8000000000000000; 0-ffffffff
sdiv32 r1, r2; 1-7fffffff 1-7fffffff; 0-ffffffff
sdiv32 r1, r2; 7fffffffffffffff ffffffffffffffff; 1
sdiv32 r1, r2; 0-ffffffff ffffffff-100000000; 0-ffffffff
sdiv32 r1, r2; 100000000-8000000000000000 0-80000000; 0-ffffffff
or r1, r2; ffffffff-100000000 100000000-7fffffffffffffff; 100000000-7fffffffffffffff
or r1, r2; 7fffffffffffffff-8000000000000000 1-80000000; 7fffffffffffffff-ffffffffffffffff
or r1, r2; 1-80000000 ffffffff-ffffffffffffffff; ffffffff-ffffffffffffffff
or r1, r2; 7fffffff-ffffffffffffffff 0-8000000000000000; 7fffffff-ffffffffffffffff
or r1, r2; 0 7fffffff; 7fffffff
or32 r1, r2; 1-ffffffff 7fffffff-ffffffffffffffff; 1-ffffffff
or32 r1, r2; 0-7fffffffffffffff 1-ffffffff; 1-ffffffff
or32 r1, r2; ffffffffffffffff 100000000; ffffffff
or32 r1, r2; 7fffffff-80000000 0-8000000000000000; 7fffffff-ffffffff
or32 r1, r2; 100000000-8000000000000000 80000000-7fffffffffffffff; 0-ffffffff
and r1, r2; ffffffff-7fffffffffffffff 1-7fffffff; 0-7fffffff
and r1, r2; 0-100000000 ffffffff-7fffffffffffffff; 0-100000000
and r1, r2; 7fffffff-8000000000000000 100000000-8000000000000000; 0-8000000000000000
and r1, r2; 1-80000000 80000000-ffffffffffffffff; 0-80000000
and r1, r2; 100000000-ffffffffffffffff 0-ffffffff; 0-ffffffff
and r1, r2; ffffffffffffffff 8000000000000000; 8000000000000000
and32 r1, r2; 1-7fffffff 0-1; 0-1
and32 r1, r2; 0-80000000 ffffffff-100000000; 0-80000000
and32 r1, r2; ffffffff-ffffffffffffffff 7fffffff-80000000; 0-80000000
and32 r1, r2; 7fffffffffffffff 7fffffffffffffff; ffffffff
and32 r1, r2; 100000000-8000000000000000 8000000000000000-ffffffffffffffff; 0-ffffffff
lsh r1, r2; 7fffffff-7fffffffffffffff 1; fffffffe-fffffffffffffffe
lsh r1, r2; 1-100000000 7fffffff-7fffffffffffffff; 0-ffffffffffffffff
lsh r1, r2; 0-80000000 80000000; 0-80000000
lsh r1, r2; ffffffff-ffffffffffffffff 8000000000000000-ffffffffffffffff; 0-ffffffffffffffff
lsh r1, r2; 1-8000000000000000 20; 0-ffffffffffffffff
lsh r1, r2; 1-ffffffffffffffff 0-ffffffff; 0-ffffffffffffffff
lsh r1, r2; 100000000 100000000; 100000000
lsh r1, r2; ffffffff-100000000 40; ffffffff-100000000
lsh r1, r2; 1-3 5; 20-60
lsh r1, r2; 1-80000000 1f; 80000000-4000000000000000
lsh r1, r2; 0-1 21; 0-200000000
lsh r1, r2; 0-1 3f; 0-8000000000000000
lsh32 r1, r2; 0-1 1; 0-2
lsh32 r1, r2; 7fffffff-8000000000000000 80000000-100000000; 0-ffffffff
lsh32 r1, r2; 80000000-ffffffff 8000000000000000; 80000000-ffffffff
lsh32 r1, r2; 100000000-7fffffffffffffff 7fffffff; 0-ffffffff
lsh32 r1, r2; ffffffffffffffff ffffffff; 80000000
lsh32 r1, r2; 7fffffff-100000000 0-ffffffffffffffff; 0-ffffffff
lsh32 r1, r2; 5-9 20; 5-9
lsh32 r1, r2; 100000005-100000009 40; 5-9
lsh32 r1, r2; 1-3 21; 2-6
lsh32 r1, r2; 0-1 5; 0-20
lsh32 r1, r2; 0-1 3f; 0-80000000
lsh32 r1, r2; 0-1 7fffffffffffffff; 0-80000000
lsh32 r1, r2; 0-1 1f; 0-80000000
rsh r1, r2; 0-ffffffff 0-1; 0-ffffffff
rsh r1, r2; 80000000-8000000000000000 80000000-ffffffffffffffff; 0-8000000000000000
rsh r1, r2; 7fffffffffffffff-ffffffffffffffff 1f; ffffffff-1ffffffff
rsh r1, r2; 1-7fffffff ffffffff-8000000000000000; 0-7fffffff
rsh r1, r2; ffffffff-100000000 100000000; ffffffff-100000000
rsh r1, r2; 7fffffff 7fffffff-7fffffffffffffff; 0-7fffffff
rsh r1, r2; 100000005-100000009 1; 80000002-80000004
rsh r1, r2; 1-8000000000000000 21; 0-40000000
rsh r1, r2; 7fffffff-8000000000000000 3f; 0-1
rsh r1, r2; ffffffff-7fffffffffffffff 40; ffffffff-7fffffffffffffff
rsh r1, r2; 7fffffff-ffffffffffffffff 5; 3ffffff-7ffffffffffffff
rsh r1, r2; 80000000-ffffffffffffffff 20; 0-ffffffff
rsh r1, r2; 7fffffffffffffff 20; 7fffffff
rsh32 r1, r2; 7fffffff-80000000 1-7fffffffffffffff; 0-80000000
rsh32 r1, r2; 1-ffffffffffffffff 5; 0-7ffffff
rsh32 r1, r2; ffffffff-7fffffffffffffff 8000000000000000; 0-ffffffff
rsh32 r1, r2; 100000000 ffffffff-100000000; 0
rsh32 r1, r2; 0-8000000000000000 7fffffff-80000000; 0-ffffffff
rsh32 r1, r2; 7fffffff 0-ffffffffffffffff; 0-7fffffff
rsh32 r1, r2; 0-80000000 1; 0-40000000
rsh32 r1, r2; 0-80000000 20; 0-80000000
rsh32 r1, r2; ffffffff-ffffffffffffffff 21; 0-7fffffff
rsh32 r1, r2; 1-ffffffff 3f; 0-1
rsh32 r1, r2; 1-80000000 1f; 0-1
rsh32 r1, r2; 7fffffff-80000000 40; 7fffffff-80000000
rsh32 r1, r2; 7fffffffffffffff 40; ffffffff
mod r1, r2; 1-80000000 7fffffff-8000000000000000; 0-80000000
mod r1, r2; 100000000-7fffffffffffffff 100000000-7fffffffffffffff; 0-7ffffffffffffffe
mod r1, r2; 7fffffff-ffffffff 0-80000000; 0-ffffffff
mod r1, r2; 0-ffffffffffffffff 1-ffffffffffffffff; 0-fffffffffffffffe
mod r1, r2; 8000000000000000 ffffffff; 80000000
mod32 r1, r2; 7fffffff-80000000 0-1; 0-80000000
mod32 r1, r2; 1-100000000 7fffffff-80000000; 0-7fffffff
mod32 r1, r2; 0-7fffffffffffffff 8000000000000000-ffffffffffffffff; 0-ffffffff
mod32 r1, r2; ffffffffffffffff 100000000; ffffffff
mod32 r1, r2; ffffffff-8000000000000000 ffffffff-7fffffffffffffff; 0-ffffffff
mod32 r1, r2; 0-80000000 7fffffff-ffffffff; 0-80000000
smod r1, r2; 80000000-100000000 7fffffff-80000000; 0-ffffffffffffffff
smod r1, r2; 0-7fffffffffffffff 1-100000000; 0-ffffffffffffffff
smod r1, r2; 8000000000000000-ffffffffffffffff 0-ffffffffffffffff; 0-ffffffffffffffff
smod r1, r2; 1-7fffffff ffffffff-8000000000000000; 0-ffffffffffffffff
smod r1, r2; ffffffff 7fffffffffffffff; ffffffff
smod32 r1, r2; 80000000-ffffffffffffffff 7fffffff-ffffffffffffffff; 0-ffffffff
smod32 r1, r2; 1-ffffffff 80000000-ffffffff; 0-ffffffff
smod32 r1, r2; 7fffffffffffffff 8000000000000000; ffffffff
smod32 r1, r2; 0-8000000000000000 0-1; 0-ffffffff
smod32 r1, r2; 7fffffff-100000000 100000000-7fffffffffffffff; 0-ffffffff
xor r1, r2; 0-7fffffffffffffff 7fffffff-100000000; 0-7fffffffffffffff
xor r1, r2; 7fffffff-80000000 0-80000000; 0-ffffffff
xor r1, r2; 1-ffffffff 1-7fffffffffffffff; 0-7fffffffffffffff
xor r1, r2; 100000000-8000000000000000 ffffffff-8000000000000000; 0-ffffffffffffffff
xor r1, r2; ffffffffffffffff ffffffffffffffff; 0
xor32 r1, r2; 0-7fffffff 0-1; 0-7fffffff
xor32 r1, r2; ffffffff-ffffffffffffffff ffffffff-7fffffffffffffff; 0-ffffffff
xor32 r1, r2; 80000000-7fffffffffffffff ffffffffffffffff; 0-ffffffff
xor32 r1, r2; 8000000000000000 7fffffff-8000000000000000; 0-ffffffff
xor32 r1, r2; 1-100000000 80000000-100000000; 0-ffffffff
xor32 r1, r2; 80000000 7fffffff; ffffffff
mov r1, r2; 1-ffffffffffffffff ffffffff-7fffffffffffffff; ffffffff-7fffffffffffffff
mov r1, r2; 7fffffff-7fffffffffffffff 8000000000000000-ffffffffffffffff; 8000000000000000-ffffffffffffffff
mov r1, r2; 80000000-8000000000000000 1-80000000; 1-80000000
mov r1, r2; 0-100000000 0-100000000; 0-100000000
mov r1, r2; ffffffff 7fffffff; 7fffffff
mov32 r1, r2; 0-8000000000000000 1-80000000; 1-80000000
mov32 r1, r2; 80000000-ffffffff 100000000-7fffffffffffffff; 0-ffffffff
mov32 r1, r2; ffffffffffffffff ffffffffffffffff; ffffffff
mov32 r1, r2; 100000000-7fffffffffffffff 0-7fffffff; 0-7fffffff
mov32 r1, r2; 1-7fffffff ffffffff-8000000000000000; 0-ffffffff
arsh r1, r2; 80000000-ffffffff 1; 40000000-7fffffff
arsh r1, r2; 0-8000000000000000 0-ffffffffffffffff; 0-ffffffffffffffff
arsh r1, r2; 1-7fffffffffffffff 8000000000000000; 1-7fffffffffffffff
arsh r1, r2; 7fffffff-ffffffffffffffff 7fffffffffffffff; 0-ffffffffffffffff
arsh r1, r2; 100000000-ffffffffffffffff ffffffff-100000000; 0-ffffffffffffffff
arsh r1, r2; 8000000000000005-8000000000000009 21; ffffffffc0000000
arsh r1, r2; 8000000000000000-ffffffffffffffff 40; 8000000000000000-ffffffffffffffff
arsh r1, r2; 7fffffff-80000000 7fffffff-80000000; 0-ffffffffffffffff
arsh r1, r2; 100000000-7fffffffffffffff 5; 8000000-3ffffffffffffff
arsh r1, r2; 1-100000000 1f; 0-2
arsh r1, r2; 0-7fffffffffffffff 20; 0-7fffffff
arsh r1, r2; 8000000000000005-8000000000000009 3f; ffffffffffffffff
arsh r1, r2; ffffffff 0; ffffffff
arsh32 r1, r2; 0-7fffffff 1; 0-3fffffff
arsh32 r1, r2; 80000000-8000000000000000 ffffffff-ffffffffffffffff; 0-ffffffff
arsh32 r1, r2; 1-7fffffffffffffff 7fffffffffffffff; 0-ffffffff
arsh32 r1, r2; ffffffff-100000000 80000000-100000000; 0-ffffffff
arsh32 r1, r2; ffffffffffffffff 0; ffffffff
arsh32 r1, r2; 100000005-100000009 40; 5-9
arsh32 r1, r2; 80000000-ffffffff 21; c0000000-ffffffff
arsh32 r1, r2; 80000001-80000006 20; 80000001-80000006
arsh32 r1, r2; 80000000-8000000000000000 7fffffff-8000000000000000; 0-ffffffff
arsh32 r1, r2; 80000000-ffffffff 1f; ffffffff
arsh32 r1, r2; 80000000-ffffffff 3f; ffffffff
arsh32 r1, r2; 80000000-ffffffff 5; fc000000-ffffffff
neg r1; 8000000000000000; 8000000000000000
neg r1; 0-ffffffffffffffff; 0-ffffffffffffffff
neg r1; 80; ffffffffffffff80
neg r1; 7fffffff-80000000; 0-ffffffffffffffff
neg r1; 100000000-7fffffffffffffff; 0-ffffffffffffffff
neg r1; 1-ffffffff; 0-ffffffffffffffff
neg r1; 100-17f; 0-ffffffffffffffff
neg32 r1; 100000000; 0
neg32 r1; 7fffffff-8000000000000000; 0-ffffffff
neg32 r1; 80; ffffff80
neg32 r1; 80000000-ffffffffffffffff; 0-ffffffff
neg32 r1; 0-1; 0-ffffffff
neg32 r1; ffffffff-7fffffffffffffff; 0-ffffffff
neg32 r1; 100-17f; 0-ffffffff
movsx8_32 r1, r2; 0; 0
movsx8_32 r1, r2; ffffffff-100000000; 0-ffffffff
movsx8_32 r1, r2; 1122334455667788; ffffff88
movsx8_32 r1, r2; 5-9; 5-9
movsx8_32 r1, r2; 1-ffffffffffffffff; 0-ffffffff
movsx8_32 r1, r2; 7fffffff-80000000; 0-ffffffff
movsx8_32 r1, r2; 7fffffffffffffff-8000000000000000; 0-ffffffff
movsx8_32 r1, r2; 8000-ffff; 0-ffffffff
movsx16_32 r1, r2; 1; 1
movsx16_32 r1, r2; 80000000-7fffffffffffffff; 0-ffffffff
movsx16_32 r1, r2; 7f-80; 7f-80
movsx16_32 r1, r2; fedcba98; ffffba98
movsx16_32 r1, r2; 100000000-8000000000000000; 0-ffffffff
movsx16_32 r1, r2; 7fffffff-ffffffffffffffff; 0-ffffffff
movsx16_32 r1, r2; 0-ffffffff; 0-ffffffff
movsx16_32 r1, r2; 8000-ffff; 0-ffffffff
movsx8 r1, r2; ffffffffffffffff; ffffffffffffffff
movsx8 r1, r2; 0-1; 0-1
movsx8 r1, r2; 7fffffff-ffffffff; 0-ffffffffffffffff
movsx8 r1, r2; 80; ffffffffffffff80
movsx8 r1, r2; 7fffffffffffffff-8000000000000000; 0-ffffffffffffffff
movsx8 r1, r2; 80000000-100000000; 0-ffffffffffffffff
movsx8 r1, r2; 100-17f; 0-7f
movsx8 r1, r2; 7f-80; 0-ffffffffffffffff
movsx16 r1, r2; 8000000000000000; 0
movsx16 r1, r2; 0-1; 0-1
movsx16 r1, r2; 80000000-ffffffffffffffff; 0-ffffffffffffffff
movsx16 r1, r2; 80; 80
movsx16 r1, r2; ffffffff-100000000; 0-ffffffffffffffff
movsx16 r1, r2; 7fffffff-7fffffffffffffff; 0-ffffffffffffffff
movsx16 r1, r2; 1122334455667788-112233445566778f; 7788-778f
movsx16 r1, r2; 8000-ffff; 0-ffffffffffffffff
movsx32 r1, r2; 1-7fffffff; 1-7fffffff
movsx32 r1, r2; ffffffff; ffffffffffffffff
movsx32 r1, r2; 80000000-7fffffffffffffff; 0-ffffffffffffffff
movsx32 r1, r2; 80; 80
movsx32 r1, r2; 0-ffffffffffffffff; 0-ffffffffffffffff
movsx32 r1, r2; 100000000-8000000000000000; 0-ffffffffffffffff
movsx32 r1, r2; 1122334455667788-112233445566778f; 55667788-5566778f
le16 r1; 1; 1
le16 r1; ffffffff-ffffffffffffffff; 0-ffff
le16 r1; 8000000000000000; 0
le16 r1; 80000000-7fffffffffffffff; 0-ffff
le16 r1; 0-100000000; 0-ffff
le16 r1; 80; 80
le16 r1; 7fffffff; ffff
le32 r1; 7fffffffffffffff; ffffffff
le32 r1; 1-8000000000000000; 0-ffffffff
le32 r1; 0; 0
le32 r1; 7fffffff-80000000; 7fffffff-80000000
le32 r1; 100000000-ffffffffffffffff; 0-ffffffff
le32 r1; 100000005-100000009; 5-9
le32 r1; ffffffff; ffffffff
le64 r1; 1-ffffffff; 1-ffffffff
le64 r1; 0-7fffffffffffffff; 0-7fffffffffffffff
le64 r1; 100000000; 100000000
le64 r1; 8000000000000000-ffffffffffffffff; 8000000000000000-ffffffffffffffff
le64 r1; 80; 80
le64 r1; 7fffffff-80000000; 7fffffff-80000000
be16 r1; 7fffffffffffffff; ffff
be16 r1; 8000000000000000-ffffffffffffffff; 0-ffff
be16 r1; 0; 0
be16 r1; 7fffffff-ffffffff; 0-ffff
be16 r1; 1-100000000; 0-ffff
be16 r1; 1122334455667788; 8877
be16 r1; 80000000; 0
be16 r1; 8000-ffff; 0-ffff
be32 r1; 100000000; 0
be32 r1; 7fffffff-8000000000000000; 0-ffffffff
be32 r1; 0; 0
be32 r1; ffffffff-7fffffffffffffff; 0-ffffffff
be32 r1; 80000000-ffffffffffffffff; 0-ffffffff
be32 r1; 1122334455667788; 88776655
be32 r1; 1; 1000000
be32 r1; 100-17f; 0-ffffffff
be64 r1; fedcba98; 98badcfe00000000
be64 r1; 7fffffff-100000000; 0-ffffffffffffffff
be64 r1; 0; 0
be64 r1; 1-7fffffffffffffff; 0-ffffffffffffffff
be64 r1; 80000000-ffffffffffffffff; 0-ffffffffffffffff
be64 r1; ffffffff-8000000000000000; 0-ffffffffffffffff
be64 r1; 100000005-100000009; 0-ffffffffffffffff
swap16 r1; 1; 100
swap16 r1; ffffffff-8000000000000000; 0-ffff
swap16 r1; 7fffffffffffffff; ffff
swap16 r1; 0-80000000; 0-ffff
swap16 r1; 100000000-ffffffffffffffff; 0-ffff
swap16 r1; fedcba98; 98ba
swap16 r1; 7fffffff; ffff
swap16 r1; 7f-80; 0-ffff
swap32 r1; 80000000; 80
swap32 r1; ffffffff-7fffffffffffffff; 0-ffffffff
swap32 r1; 80; 80000000
swap32 r1; 7fffffff-100000000; 0-ffffffff
swap32 r1; 8000000000000000-ffffffffffffffff; 0-ffffffff
swap32 r1; 0-1; 0-ffffffff
swap32 r1; 1122334455667788-112233445566778f; 0-ffffffff
swap64 r1; 8000000000000000; 80
swap64 r1; 100000000-ffffffffffffffff; 0-ffffffffffffffff
swap64 r1; 0; 0
swap64 r1; 1-7fffffffffffffff; 0-ffffffffffffffff
swap64 r1; 7fffffff-80000000; 0-ffffffffffffffff
swap64 r1; fedcba98; 98badcfe00000000
swap64 r1; ffffffff; ffffffff00000000
swap64 r1; 1122334455667788-112233445566778f; 0-ffffffffffffffff
ldxb r1, [r2+0];; 0-ff
ldxh r1, [r2+0];; 0-ffff
ldxw r1, [r2+0];; 0-ffffffff
ldxdw r1, [r2+0];; 0-ffffffffffffffff
ldxsb r1, [r2+0];; 0-ffffffffffffffff
ldxsh r1, [r2+0];; 0-ffffffffffffffff
ldxsw r1, [r2+0];; 0-ffffffffffffffff",
);

// A jump, the two intervals that it compares, and these intervals after the jump is taken and after it isn't: `same` if nothing is narrowed, `none`
// if the edge isn't reached.
//
// At the ends of what 31, 32, 63 and 64 bits hold, computed elsewhere with unbounded integers.
const EDGES: Table = Table(
    "\
jeq r1, r2, +0; 0-80000000 80000000; 80000000 80000000; 0-7fffffff 80000000
jeq r1, r2, +0; 0-ffffffff 0; 0 0; 1-ffffffff 0
jeq r1, r2, +0; ffffffffffffffff ffffffff-ffffffffffffffff; ffffffffffffffff ffffffffffffffff;
  ffffffffffffffff ffffffff-fffffffffffffffe
jeq r1, r2, +0; 7fffffff 7fffffff-ffffffffffffffff; 7fffffff 7fffffff; 7fffffff 80000000-ffffffffffffffff
jeq r1, r2, +0; 7fffffff-ffffffff 100000000; none; same
jeq r1, r2, +0; 7fffffff-100000000 ffffffff; ffffffff ffffffff; same
jeq32 r1, r2, +0; 0-1 0; 0 0; 1 0
jeq32 r1, r2, +0; 0 0-1; 0 0; 0 1
jeq32 r1, r2, +0; 80000000-ffffffff ffffffff; ffffffff ffffffff; 80000000-fffffffe ffffffff
jeq32 r1, r2, +0; ffffffff 80000000-ffffffff; ffffffff ffffffff; ffffffff 80000000-fffffffe
jeq32 r1, r2, +0; 1 7fffffff-80000000; none; same
jeq32 r1, r2, +0; 1-7fffffff 80000000; none; same
jeq32 r1, r2, +0; ffffffffffffffff 7fffffff; none; same
jeq32 r1, r2, +0; ffffffff-100000000 100000000; same; same
jeq32 r1, r2, +0; 100000000 100000000-8000000000000000; same; same
jeq r1, r2, +0; 0-ffffffffffffffff 0-ffffffffffffffff; same; same
jgt r1, r2, +0; 0-100000000 0-ffffffff; 1-100000000 0-ffffffff; 0-ffffffff 0-ffffffff
jgt r1, r2, +0; 7fffffff-ffffffff 0-ffffffff; 7fffffff-ffffffff 0-fffffffe; 7fffffff-ffffffff 7fffffff-ffffffff
jgt r1, r2, +0; ffffffff 80000000-ffffffffffffffff; ffffffff 80000000-fffffffe; ffffffff ffffffff-ffffffffffffffff
jgt r1, r2, +0; 80000000-ffffffffffffffff 7fffffffffffffff; 8000000000000000-ffffffffffffffff 7fffffffffffffff;
  80000000-7fffffffffffffff 7fffffffffffffff
jgt r1, r2, +0; 1-7fffffff 8000000000000000; none; same
jgt r1, r2, +0; 7fffffff 7fffffffffffffff; none; same
jgt32 r1, r2, +0; 1 0-ffffffff; 1 0; 1 1-ffffffff
jgt32 r1, r2, +0; 0-ffffffff 0-7fffffff; 1-ffffffff 0-7fffffff; 0-7fffffff 0-7fffffff
jgt32 r1, r2, +0; 7fffffff-ffffffff 1-ffffffff; 7fffffff-ffffffff 1-fffffffe; 7fffffff-ffffffff 7fffffff-ffffffff
jgt32 r1, r2, +0; 7fffffff-ffffffff 80000000; 80000001-ffffffff 80000000; 7fffffff-80000000 80000000
jgt32 r1, r2, +0; 80000000 80000000; none; same
jgt32 r1, r2, +0; 1-80000000 80000000; none; same
jgt32 r1, r2, +0; 7fffffff 100000000; same; none
jgt32 r1, r2, +0; ffffffff-100000000 100000000; same; same
jgt32 r1, r2, +0; ffffffff-8000000000000000 100000000; same; same
jgt r1, r2, +0; 0 0; none; same
jgt r1, r2, +0; 0-ffffffffffffffff ffffffffffffffff; none; same
jge r1, r2, +0; 0-ffffffffffffffff 1-7fffffffffffffff; 1-ffffffffffffffff 1-7fffffffffffffff;
  0-7ffffffffffffffe 1-7fffffffffffffff
jge r1, r2, +0; 0-7fffffffffffffff 100000000; 100000000-7fffffffffffffff 100000000; 0-ffffffff 100000000
jge r1, r2, +0; ffffffff-7fffffffffffffff 1-ffffffffffffffff; ffffffff-7fffffffffffffff 1-7fffffffffffffff;
  ffffffff-7fffffffffffffff 100000000-ffffffffffffffff
jge r1, r2, +0; 8000000000000000 0-ffffffffffffffff; 8000000000000000 0-8000000000000000;
  8000000000000000 8000000000000001-ffffffffffffffff
jge r1, r2, +0; 1-80000000 8000000000000000; none; same
jge r1, r2, +0; 1-7fffffff 7fffffffffffffff-8000000000000000; none; same
jge32 r1, r2, +0; 0-80000000 0-ffffffff; 0-80000000 0-80000000; 0-80000000 1-ffffffff
jge32 r1, r2, +0; 0-ffffffff ffffffff; ffffffff ffffffff; 0-fffffffe ffffffff
jge32 r1, r2, +0; 1-ffffffff 80000000-ffffffff; 80000000-ffffffff 80000000-ffffffff; 1-fffffffe 80000000-ffffffff
jge32 r1, r2, +0; 80000000 1-ffffffff; 80000000 1-80000000; 80000000 80000001-ffffffff
jge32 r1, r2, +0; 80000000 80000000; same; none
jge32 r1, r2, +0; 7fffffff 1-7fffffff; same; none
jge32 r1, r2, +0; 80000000 ffffffffffffffff; none; same
jge32 r1, r2, +0; ffffffff ffffffff-100000000; same; same
jge32 r1, r2, +0; 100000000 ffffffff-7fffffffffffffff; same; same
jset r1, r2, +0; 100000000 0; none; same
jset r1, r2, +0; 1-8000000000000000 0-8000000000000000; same; same
jset r1, r2, +0; 8000000000000000 ffffffffffffffff; same; none
jset r1, r2, +0; 7fffffff 7fffffffffffffff-ffffffffffffffff; same; same
jset r1, r2, +0; 1-80000000 7fffffff; same; same
jset32 r1, r2, +0; 80000000 0; none; same
jset32 r1, r2, +0; 80000000-ffffffff 0-7fffffff; same; same
jset32 r1, r2, +0; 7fffffff ffffffff; same; none
jset32 r1, r2, +0; 0-1 ffffffff; same; same
jset32 r1, r2, +0; 7fffffff 7fffffff-80000000; same; same
jset32 r1, r2, +0; 8000000000000000 ffffffffffffffff; none; same
jset32 r1, r2, +0; ffffffff-100000000 ffffffff; same; same
jset32 r1, r2, +0; 100000000-8000000000000000 100000000; same; same
jne r1, r2, +0; 0-80000000 80000000; 0-7fffffff 80000000; 80000000 80000000
jne r1, r2, +0; 8000000000000000 0-8000000000000000; 8000000000000000 0-7fffffffffffffff;
  8000000000000000 8000000000000000
jne r1, r2, +0; ffffffff ffffffff-ffffffffffffffff; ffffffff 100000000-ffffffffffffffff; ffffffff ffffffff
jne r1, r2, +0; 1-ffffffffffffffff 1; 2-ffffffffffffffff 1; 1 1
jne r1, r2, +0; 80000000 ffffffff; same; none
jne r1, r2, +0; 7fffffff-ffffffff 7fffffff-7fffffffffffffff; same; 7fffffff-ffffffff 7fffffff-ffffffff
jne32 r1, r2, +0; 0-7fffffff 0; 1-7fffffff 0; 0 0
jne32 r1, r2, +0; 1 0-1; 1 0; 1 1
jne32 r1, r2, +0; 7fffffff-ffffffff ffffffff; 7fffffff-fffffffe ffffffff; ffffffff ffffffff
jne32 r1, r2, +0; 0 0-ffffffff; 0 1-ffffffff; 0 0
jne32 r1, r2, +0; 1-80000000 1-7fffffff; same; 1-7fffffff 1-7fffffff
jne32 r1, r2, +0; 1 7fffffff; same; none
jne32 r1, r2, +0; 8000000000000000 8000000000000000; none; same
jne32 r1, r2, +0; ffffffff-100000000 ffffffff; same; same
jne32 r1, r2, +0; 0-100000000 ffffffff-100000000; same; same
jne r1, r2, +0; ffffffffffffffff ffffffffffffffff; none; same
jne r1, r2, +0; 0 0; none; same
jsgt r1, r2, +0; ffffffff-100000000 0-7fffffffffffffff; ffffffff-100000000 0-ffffffff;
  ffffffff-100000000 ffffffff-7fffffffffffffff
jsgt r1, r2, +0; 0-100000000 0-7fffffff; 1-100000000 0-7fffffff; 0-7fffffff 0-7fffffff
jsgt r1, r2, +0; 7fffffffffffffff 7fffffff-7fffffffffffffff; 7fffffffffffffff 7fffffff-7ffffffffffffffe;
  7fffffffffffffff 7fffffffffffffff
jsgt r1, r2, +0; ffffffff-7fffffffffffffff ffffffff; 100000000-7fffffffffffffff ffffffff; ffffffff ffffffff
jsgt r1, r2, +0; 1-ffffffff ffffffff; none; same
jsgt r1, r2, +0; 7fffffff-100000000 1-7fffffff; same; 7fffffff 7fffffff
jsgt r1, r2, +0; ffffffffffffffff 8000000000000000; same; none
jsgt r1, r2, +0; 7fffffffffffffff-ffffffffffffffff ffffffffffffffff; same; same
jsgt r1, r2, +0; 100000000-7fffffffffffffff ffffffffffffffff; same; same
jsgt32 r1, r2, +0; 0-7fffffff 1; 2-7fffffff 1; 0-1 1
jsgt32 r1, r2, +0; 7fffffff 0-7fffffff; 7fffffff 0-7ffffffe; 7fffffff 7fffffff
jsgt32 r1, r2, +0; 1-7fffffff 0-7fffffff; 1-7fffffff 0-7ffffffe; 1-7fffffff 1-7fffffff
jsgt32 r1, r2, +0; 0-7fffffff 0-1; 1-7fffffff 0-1; 0-1 0-1
jsgt32 r1, r2, +0; 1 1; none; same
jsgt32 r1, r2, +0; 7fffffffffffffff 1; none; same
jsgt32 r1, r2, +0; 7fffffff-80000000 7fffffff-100000000; same; same
jsgt32 r1, r2, +0; 7fffffff-ffffffff 100000000; same; same
jsge r1, r2, +0; 0-7fffffff 1; 1-7fffffff 1; 0 1
jsge r1, r2, +0; 0-ffffffff 1-80000000; 1-ffffffff 1-80000000; 0-7fffffff 1-80000000
jsge r1, r2, +0; ffffffff 80000000-7fffffffffffffff; ffffffff 80000000-ffffffff; ffffffff 100000000-7fffffffffffffff
jsge r1, r2, +0; 80000000-100000000 7fffffff-7fffffffffffffff; 80000000-100000000 7fffffff-100000000;
  80000000-100000000 80000001-7fffffffffffffff
jsge r1, r2, +0; 7fffffff-ffffffff 1-80000000; same; 7fffffff 80000000
jsge r1, r2, +0; 1-7fffffff 1; same; none
jsge r1, r2, +0; ffffffff 8000000000000000; same; none
jsge r1, r2, +0; 7fffffffffffffff-8000000000000000 7fffffffffffffff-8000000000000000; same; same
jsge r1, r2, +0; 7fffffffffffffff-ffffffffffffffff 0-8000000000000000; same; same
jsge32 r1, r2, +0; 0-7fffffff 1-7fffffff; 1-7fffffff 1-7fffffff; 0-7ffffffe 1-7fffffff
jsge32 r1, r2, +0; 1 0-7fffffff; 1 0-1; 1 2-7fffffff
jsge32 r1, r2, +0; 1-7fffffff 7fffffff; 7fffffff 7fffffff; 1-7ffffffe 7fffffff
jsge32 r1, r2, +0; 0-1 0-7fffffff; 0-1 0-1; 0-1 1-7fffffff
jsge32 r1, r2, +0; 1 1; same; none
jsge32 r1, r2, +0; ffffffffffffffff 100000000; none; same
jsge32 r1, r2, +0; 7fffffff-ffffffff 7fffffff-ffffffff; same; same
jsge32 r1, r2, +0; 7fffffff 7fffffff-100000000; same; same
jlt r1, r2, +0; 0-80000000 7fffffff-80000000; 0-7fffffff 7fffffff-80000000; 7fffffff-80000000 7fffffff-80000000
jlt r1, r2, +0; 0-ffffffffffffffff 80000000; 0-7fffffff 80000000; 80000000-ffffffffffffffff 80000000
jlt r1, r2, +0; 80000000-ffffffff 1-ffffffffffffffff; 80000000-ffffffff 80000001-ffffffffffffffff;
  80000000-ffffffff 1-ffffffff
jlt r1, r2, +0; 80000000 0-ffffffffffffffff; 80000000 80000001-ffffffffffffffff; 80000000 0-80000000
jlt r1, r2, +0; 7fffffff-7fffffffffffffff 100000000-8000000000000000; same;
  100000000-7fffffffffffffff 100000000-7fffffffffffffff
jlt r1, r2, +0; 7fffffff-8000000000000000 7fffffff-ffffffff; 7fffffff-fffffffe 80000000-ffffffff; same
jlt32 r1, r2, +0; 1 0-80000000; 1 2-80000000; 1 0-1
jlt32 r1, r2, +0; 0-1 1; 0 1; 1 1
jlt32 r1, r2, +0; 1-ffffffff 7fffffff-80000000; 1-7fffffff 7fffffff-80000000; 7fffffff-ffffffff 7fffffff-80000000
jlt32 r1, r2, +0; 7fffffff-80000000 7fffffff-ffffffff; 7fffffff-80000000 80000000-ffffffff;
  7fffffff-80000000 7fffffff-80000000
jlt32 r1, r2, +0; 1 7fffffff; same; none
jlt32 r1, r2, +0; 1-7fffffff 80000000; same; none
jlt32 r1, r2, +0; ffffffffffffffff ffffffff; none; same
jlt32 r1, r2, +0; ffffffff-100000000 ffffffff-100000000; same; same
jlt32 r1, r2, +0; ffffffff-ffffffffffffffff 100000000; same; same
jlt r1, r2, +0; ffffffffffffffff 0-ffffffffffffffff; none; same
jlt r1, r2, +0; 0-ffffffffffffffff 0; none; same
jle r1, r2, +0; 0-ffffffffffffffff 1-80000000; 0-80000000 1-80000000; 2-ffffffffffffffff 1-80000000
jle r1, r2, +0; 1-7fffffffffffffff 0-8000000000000000; 1-7fffffffffffffff 1-8000000000000000;
  1-7fffffffffffffff 0-7ffffffffffffffe
jle r1, r2, +0; 100000000 ffffffff-ffffffffffffffff; 100000000 100000000-ffffffffffffffff; 100000000 ffffffff
jle r1, r2, +0; 0-ffffffffffffffff 7fffffffffffffff; 0-7fffffffffffffff 7fffffffffffffff;
  8000000000000000-ffffffffffffffff 7fffffffffffffff
jle r1, r2, +0; 100000000-8000000000000000 1; none; same
jle r1, r2, +0; 80000000-100000000 100000000; same; none
jle32 r1, r2, +0; 0-7fffffff 0-1; 0-1 0-1; 1-7fffffff 0-1
jle32 r1, r2, +0; 0-ffffffff 1; 0-1 1; 2-ffffffff 1
jle32 r1, r2, +0; 7fffffff-ffffffff 0-ffffffff; 7fffffff-ffffffff 7fffffff-ffffffff; 7fffffff-ffffffff 0-fffffffe
jle32 r1, r2, +0; 80000000 1-ffffffff; 80000000 80000000-ffffffff; 80000000 1-7fffffff
jle32 r1, r2, +0; 7fffffff 80000000; same; none
jle32 r1, r2, +0; 80000000 7fffffff; none; same
jle32 r1, r2, +0; 8000000000000000 ffffffff; same; none
jle32 r1, r2, +0; ffffffff ffffffff-100000000; same; same
jle32 r1, r2, +0; 1-ffffffff 100000000; same; same
jle r1, r2, +0; 0-ffffffffffffffff 0-ffffffffffffffff; same; 1-ffffffffffffffff 0-fffffffffffffffe
jslt r1, r2, +0; 0-7fffffffffffffff 1; 0 1; 1-7fffffffffffffff 1
jslt r1, r2, +0; 1 0-ffffffff; 1 2-ffffffff; 1 0-1
jslt r1, r2, +0; 0-7fffffff 0-7fffffffffffffff; 0-7fffffff 1-7fffffffffffffff; 0-7fffffff 0-7fffffff
jslt r1, r2, +0; 0-7fffffffffffffff ffffffff-7fffffffffffffff; 0-7ffffffffffffffe ffffffff-7fffffffffffffff;
  ffffffff-7fffffffffffffff ffffffff-7fffffffffffffff
jslt r1, r2, +0; 80000000 100000000; same; none
jslt r1, r2, +0; 7fffffff-100000000 7fffffff-100000000; 7fffffff-ffffffff 80000000-100000000; same
jslt r1, r2, +0; ffffffff 8000000000000000; none; same
jslt r1, r2, +0; ffffffffffffffff 7fffffffffffffff-ffffffffffffffff; same; same
jslt r1, r2, +0; ffffffffffffffff 80000000-ffffffffffffffff; same; same
jslt32 r1, r2, +0; 0-1 0-7fffffff; 0-1 1-7fffffff; 0-1 0-1
jslt32 r1, r2, +0; 0-7fffffff 1-7fffffff; 0-7ffffffe 1-7fffffff; 1-7fffffff 1-7fffffff
jslt32 r1, r2, +0; 1 1-7fffffff; 1 2-7fffffff; 1 1
jslt32 r1, r2, +0; 1-7fffffff 7fffffff; 1-7ffffffe 7fffffff; 7fffffff 7fffffff
jslt32 r1, r2, +0; 1 1; none; same
jslt32 r1, r2, +0; 7fffffffffffffff ffffffffffffffff; none; same
jslt32 r1, r2, +0; 100000000 7fffffff-80000000; same; same
jslt32 r1, r2, +0; ffffffff-100000000 7fffffff-80000000; same; same
jsle r1, r2, +0; ffffffff 0-ffffffff; ffffffff ffffffff; ffffffff 0-fffffffe
jsle r1, r2, +0; 1-7fffffff 0-7fffffff; 1-7fffffff 1-7fffffff; 1-7fffffff 0-7ffffffe
jsle r1, r2, +0; 7fffffff-7fffffffffffffff 7fffffff-ffffffff; 7fffffff-ffffffff 7fffffff-ffffffff;
  80000000-7fffffffffffffff 7fffffff-ffffffff
jsle r1, r2, +0; 1-7fffffffffffffff ffffffff; 1-ffffffff ffffffff; 100000000-7fffffffffffffff ffffffff
jsle r1, r2, +0; 7fffffff-80000000 1; none; same
jsle r1, r2, +0; 1 1-100000000; same; none
jsle r1, r2, +0; 8000000000000000 8000000000000000; same; none
jsle r1, r2, +0; ffffffffffffffff 8000000000000000-ffffffffffffffff; same; same
jsle r1, r2, +0; ffffffff-ffffffffffffffff 7fffffffffffffff; same; same
jsle32 r1, r2, +0; 0-7fffffff 1; 0-1 1; 2-7fffffff 1
jsle32 r1, r2, +0; 7fffffff 0-7fffffff; 7fffffff 7fffffff; 7fffffff 0-7ffffffe
jsle32 r1, r2, +0; 0-7fffffff 0-1; 0-1 0-1; 1-7fffffff 0-1
jsle32 r1, r2, +0; 1-7fffffff 0-7fffffff; 1-7fffffff 1-7fffffff; 1-7fffffff 0-7ffffffe
jsle32 r1, r2, +0; 1 1; same; none
jsle32 r1, r2, +0; ffffffff ffffffffffffffff; same; none
jsle32 r1, r2, +0; 7fffffff-ffffffff 80000000-ffffffff; same; same
jsle32 r1, r2, +0; 80000000-100000000 ffffffff-100000000; same; same",
);

/// Reads a number in hexadecimal digits.
fn hexadecimal(text: &str) -> Result<u64, TableFault> {
    let is_digit = |byte: u8| matches!(byte, b'0'..=b'9' | b'a'..=b'f');
    if !text.bytes().all(is_digit) {
        return Err(TableFault::Number);
    }
    u64::from_str_radix(text, 16).map_err(|_| TableFault::Number)
}

/// Reads an interval from its two ends, or from its only number.
fn interval(text: &str) -> Result<Interval, TableFault>
    ensures { IfOk result IsProper }
{
    let (low, high) = text.split_once('-').unwrap_or((text, text));
    let (low, high) = (hexadecimal(low)?, hexadecimal(high)?);
    if low <= high {
        Ok(Interval { low, high })
    } else {
        Err(TableFault::Number)
    }
}

/// Reads two intervals.
fn intervals(text: &str) -> Result<Narrowed, TableFault>
    ensures { IfOk result (λ both. IsProper both.left × IsProper both.right) }
{
    let (left, right) = text.split_once(' ').ok_or(TableFault::Word)?;
    let (left, right) = (interval(left)?, interval(right)?);
    Ok(Narrowed { left, right })
}

/// Returns the only instruction of a text.
fn instruction(alloc: Global, text: &str) -> Result<Insn, TableFault> {
    let code = code_of(alloc, text)?;
    match code.instructions() {
        [instruction] => Ok(*instruction),
        _ => Err(TableFault::Word),
    }
}

/// Returns the result of an instruction on the operands in a cell: two, one, or none.
fn result_of(instruction: Insn, operands: &str) -> Result<Interval, TableFault> {
    match instruction {
        Insn::Alu {
            operation,
            width,
            ..
        } => {
            let Narrowed { left, right } = intervals(operands)?;
            Ok(alu(operation, width, left, right))
        }
        Insn::Negate { width, .. } => Ok(negate(width, interval(operands)?)),
        Insn::MoveSignExtended { extension, .. } => Ok(extend(extension, interval(operands)?)),
        Insn::ByteSwap { order, width, .. } => Ok(byte_swap(order, width, interval(operands)?)),
        Insn::Load { format, .. } if operands.is_empty() => Ok(load(format)),
        _ => Err(TableFault::Word),
    }
}

/// Returns whether an instruction's result on a row's operands is the row's.
fn is_result(alloc: Global, row: &str) -> Result<bool, TableFault> {
    let (text, operands, result) = cells(row)?.three()?;
    let instruction = instruction(alloc, text)?;
    Ok(result_of(instruction, operands)? == interval(result)?)
}

/// Returns what a cell says that is known on an edge: `none`, `same` or two intervals.
fn edge(text: &str, same: Narrowed) -> Result<Option<Narrowed>, TableFault> {
    match text {
        "none" => Ok(None),
        "same" => Ok(Some(same)),
        _ => Ok(Some(intervals(text)?)),
    }
}

/// Returns whether both edges of a row's jump narrow the row's intervals as the row says.
fn is_narrowed(alloc: Global, row: &str) -> Result<bool, TableFault> {
    let (text, operands, taken, other) = cells(row)?.four()?;
    let both = intervals(operands)?;
    let (taken, other) = (edge(taken, both)?, edge(other, both)?);
    let Insn::JumpIf {
        condition,
        width,
        ..
    } = instruction(alloc, text)?
    else {
        return Err(TableFault::Word);
    };
    let Narrowed { left, right } = both;
    Ok(
        refine(condition, width, left, right, true) == taken
            && refine(condition, width, left, right, false) == other,
    )
}

#[test]
fn results(rt: HostRuntime) {
    for row in RESULTS.joined(rt.alloc()).expect(&rt, "results").lines() {
        assert_eq!(rt; is_result(rt.alloc(), row), Ok(true), "{row}");
    }
}

#[test]
fn edges(rt: HostRuntime) {
    for row in EDGES.joined(rt.alloc()).expect(&rt, "edges").lines() {
        assert_eq!(rt; is_narrowed(rt.alloc(), row), Ok(true), "{row}");
    }
}

/// Returns the join of two values, if both are less than or equal to it.
fn bound_of<T: Order + Drop>(x: &T, y: &T) -> Option<T> {
    let join = x.join(y);
    if x.leq(&join) && y.leq(&join) {
        Some(join)
    } else {
        None
    }
}

#[test]
fn joins(rt: HostRuntime) {
    let low = Offsets { low: -3, high: 4 };
    let high = Offsets { low: 0, high: 9 };
    let round = Offsets { low: -3, high: 9 };
    let frame = bound_of(&Kind::Frame(low), &Kind::Frame(high));
    let mixed = bound_of(&Kind::Frame(low), &Kind::Record(low));
    assert!(rt; (frame, mixed) == (Some(Kind::Frame(round)), Some(Kind::Nothing)));
}
