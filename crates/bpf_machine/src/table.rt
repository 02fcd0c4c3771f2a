//! One instruction on bare words: one row per flat form.
//!
//! A match over flat forms compiles to one jump, as an interpreter in C has it; the nested enums of `Insn` would take a second one. Instructions are
//! neither fused nor dropped nor reordered, so an entry is an instruction of the program.
ghost use Rattle.std.specs.Prelude.{◌≡◌, None, Ok, IsOk};
ghost use Rattle.bpf_flat_insn.specs.Flat.{area_of, insn_of, target_of};
ghost use Rattle.bpf_machine.specs.Words.{MeetsCall, next_of, next_words, words_of};

use crate::bare::Bare;
use bpf_flat_insn::FlatInsn;
use bpf_insn::Width::{Bits32, Bits64};
use bpf_insn::{
    ByteOrder, Condition, LoadFormat, Operation, SignExtension, StoreSize, SwapWidth,
    instruction_rows,
};
use std::alloc::Allocator;
use tl_segments::Segment;

/// Expands to the match over the flat forms.
macro_rules! dispatch {
    (
        ($flat:expr, $bare:ident, $segment:ident, $next:ident)
        alu { $($operation:ident: $($alu_name:literal)* $ai32:ident $ar32:ident $ai64:ident $ar64:ident;)* }
        extend { $($extension:ident: $extend_name:literal $extend:ident;)* }
        negate { $($width:ident: $negate_name:literal $negate:ident;)* }
        swap { $($order:ident: $($swap_name:literal)* $s16:ident $s32:ident $s64:ident;)* }
        jump { $($condition:ident: $($jump_name:literal)* $ji32:ident $jr32:ident $ji64:ident $jr64:ident;)* }
        load { $($format:ident: $load_name:literal $record:ident $frame:ident;)* }
        store { $($size:ident: $($store_name:literal)* $si:ident $sr:ident;)* }
        single $single:tt
    ) => {
        match $flat {
            $(
                FlatInsn::$ai32(o) => Some($bare.alu_immediate(Operation::$operation, Bits32, *o, $next)),
                FlatInsn::$ar32(o) => Some($bare.alu_register(Operation::$operation, Bits32, *o, $next)),
                FlatInsn::$ai64(o) => Some($bare.alu_immediate(Operation::$operation, Bits64, *o, $next)),
                FlatInsn::$ar64(o) => Some($bare.alu_register(Operation::$operation, Bits64, *o, $next)),
            )*
            $(FlatInsn::$extend(o) => Some($bare.extend(SignExtension::$extension, *o, $next)),)*
            $(FlatInsn::$negate(o) => Some($bare.negate($width, *o, $next)),)*
            $(
                FlatInsn::$s16(o) => Some($bare.byte_swap(ByteOrder::$order, SwapWidth::Bits16, *o, $next)),
                FlatInsn::$s32(o) => Some($bare.byte_swap(ByteOrder::$order, SwapWidth::Bits32, *o, $next)),
                FlatInsn::$s64(o) => Some($bare.byte_swap(ByteOrder::$order, SwapWidth::Bits64, *o, $next)),
            )*
            $(
                FlatInsn::$ji32(o) => Some($bare.jump_immediate(Condition::$condition, Bits32, *o, $next)),
                FlatInsn::$jr32(o) => Some($bare.jump_register(Condition::$condition, Bits32, *o, $next)),
                FlatInsn::$ji64(o) => Some($bare.jump_immediate(Condition::$condition, Bits64, *o, $next)),
                FlatInsn::$jr64(o) => Some($bare.jump_register(Condition::$condition, Bits64, *o, $next)),
            )*
            $(
                FlatInsn::$record(o) => Some($bare.load_record($segment, LoadFormat::$format, *o, $next)),
                FlatInsn::$frame(o) => Some($bare.load_frame($segment, LoadFormat::$format, *o, $next)),
            )*
            $(
                FlatInsn::$si(o) => Some($bare.store_immediate($segment, StoreSize::$size, *o, $next)),
                FlatInsn::$sr(o) => Some($bare.store_register($segment, StoreSize::$size, *o, $next)),
            )*
            FlatInsn::Jump { target, .. } => Some(*target as usize),
            FlatInsn::Call { immediate } => Some($bare.call_number($segment, *immediate, $next)),
            FlatInsn::Exit => None,
            FlatInsn::WideLoad { destination, immediate, next_immediate } => {
                Some($bare.wide_load(*destination, *immediate, *next_immediate, $next))
            }
        }
    };
}

/// Executes an instruction and returns the entry that it leads to: `next`, the entry after it, or the entry that it jumps to. Returns `None` at the
/// end of the program.
#[inline(always)]
#[tactic(auto, unfolding(bpf_flat_insn::specs::Flat::parts_of))]
pub(crate) fn execute<A: Allocator>(
    bare: &mut Bare,
    segment: &Segment<A>,
    flat: &FlatInsn,
    next: usize,
) -> Option<usize>
    requires possible { IsOk (next_words segment.now (λ register. area_of flat.now) (words_of bare.old) next (target_of flat.now) (insn_of flat.now)) }
    requires meets { MeetsCall (words_of bare.old) (insn_of flat.now) }
    ensures value { next_words segment.now (λ register. area_of flat.now) (words_of bare.old) next (target_of flat.now) (insn_of flat.now)
        ≡ Ok (next_of result (words_of bare.new)) }
    ensures unchanged { result ≡ None → bare.new ≡ bare.old }
{
    instruction_rows!(dispatch!(flat, bare, segment, next))
}
