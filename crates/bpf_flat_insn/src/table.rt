//! The conversion of instructions to their flat form.
ghost use Rattle.std.specs.Prelude.{◌≡◌, IfSome};
ghost use Rattle.bpf_insn.specs.Immediates.{HasImmediates};
ghost use Rattle.bpf_insn.specs.Jump.{jump_distance};
ghost use Rattle.bpf_flat_insn.specs.Flat.{KeepsArea, insn_of, target_of};

use crate::flat::FlatInsn;
use crate::operands::{
    JumpWithImmediate, JumpWithRegister, LoadOperands, StoreImmediateOperands,
    StoreRegisterOperands, WithImmediate, WithRegister,
};
use bpf_insn::{
    Area, ByteOrder, Condition, Insn, LoadFormat, Operation, SignExtension, Source, StoreSize,
    SwapWidth, Width, instruction_rows,
};

/// Generates the match over the instructions.
macro_rules! flat_form {
    (
        ($insn:expr, $area:expr, $target:expr)
        alu { $($operation:ident: $($alu_name:literal)* $ai32:ident $ar32:ident $ai64:ident $ar64:ident;)* }
        extend { $($extension:ident: $extend_name:literal $extend:ident;)* }
        negate { $($width:ident: $negate_name:literal $negate:ident;)* }
        swap { $($order:ident: $($swap_name:literal)* $s16:ident $s32:ident $s64:ident;)* }
        jump { $($condition:ident: $($jump_name:literal)* $ji32:ident $jr32:ident $ji64:ident $jr64:ident;)* }
        load { $($format:ident: $load_name:literal $record:ident $frame:ident;)* }
        store { $($size:ident: $($store_name:literal)* $si:ident $sr:ident;)* }
        single $single:tt
    ) => {
        match $insn {
            Insn::Alu { operation, width, destination, source: Source::Immediate(immediate) } => match (operation, width) {
                $(
                    (Operation::$operation, Width::Bits32) => FlatInsn::$ai32(WithImmediate { destination, immediate }),
                    (Operation::$operation, Width::Bits64) => FlatInsn::$ai64(WithImmediate { destination, immediate }),
                )*
            },
            Insn::Alu { operation, width, destination, source: Source::Register(source) } => match (operation, width) {
                $(
                    (Operation::$operation, Width::Bits32) => FlatInsn::$ar32(WithRegister { destination, source }),
                    (Operation::$operation, Width::Bits64) => FlatInsn::$ar64(WithRegister { destination, source }),
                )*
            },
            Insn::MoveSignExtended { extension, destination, source } => match extension {
                $(SignExtension::$extension => FlatInsn::$extend(WithRegister { destination, source }),)*
            },
            Insn::Negate { width, destination } => match width {
                $(Width::$width => FlatInsn::$negate(destination),)*
            },
            Insn::ByteSwap { order, width, destination } => match (order, width) {
                $(
                    (ByteOrder::$order, SwapWidth::Bits16) => FlatInsn::$s16(destination),
                    (ByteOrder::$order, SwapWidth::Bits32) => FlatInsn::$s32(destination),
                    (ByteOrder::$order, SwapWidth::Bits64) => FlatInsn::$s64(destination),
                )*
            },
            Insn::JumpIf { condition, width, left, right: Source::Immediate(immediate), offset } => match (condition, width) {
                $(
                    (Condition::$condition, Width::Bits32) => FlatInsn::$ji32(JumpWithImmediate { left, immediate, offset, target: $target }),
                    (Condition::$condition, Width::Bits64) => FlatInsn::$ji64(JumpWithImmediate { left, immediate, offset, target: $target }),
                )*
            },
            Insn::JumpIf { condition, width, left, right: Source::Register(right), offset } => match (condition, width) {
                $(
                    (Condition::$condition, Width::Bits32) => FlatInsn::$jr32(JumpWithRegister { left, right, offset, target: $target }),
                    (Condition::$condition, Width::Bits64) => FlatInsn::$jr64(JumpWithRegister { left, right, offset, target: $target }),
                )*
            },
            Insn::Load { format, destination, base, offset } => match (format, $area) {
                $(
                    (LoadFormat::$format, Some(Area::Frame)) => FlatInsn::$frame(LoadOperands { destination, base, offset }),
                    (LoadFormat::$format, _) => FlatInsn::$record(LoadOperands { destination, base, offset }),
                )*
            },
            Insn::StoreImmediate { size, base, offset, immediate } => match size {
                $(StoreSize::$size => FlatInsn::$si(StoreImmediateOperands { base, offset, immediate }),)*
            },
            Insn::Store { size, base, offset, source } => match size {
                $(StoreSize::$size => FlatInsn::$sr(StoreRegisterOperands { base, offset, source }),)*
            },
            Insn::Jump(distance) => FlatInsn::Jump { distance, target: $target },
            Insn::Call { immediate } => FlatInsn::Call { immediate },
            Insn::Exit => FlatInsn::Exit,
            Insn::WideLoad { destination, immediate, next_immediate } => FlatInsn::WideLoad { destination, immediate, next_immediate },
        }
    };
}

/// Returns the flat form of an instruction. `area` is the area that its base points into, if that's known, and `target` the index of the
/// instruction that it jumps to, if it jumps. A load whose area isn't known becomes a load from the record.
#[tactic(auto, unfolding(crate::specs::Flat::parts_of))]
pub(crate) fn flatten(insn: Insn, area: Option<Area>, target: u32) -> FlatInsn
    ensures insn { insn_of result ≡ insn }
    ensures target { IfSome (jump_distance insn) (λ distance. target_of result ≡ target) }
    ensures area { KeepsArea insn area result }
    ensures immediates { HasImmediates insn }
{
    instruction_rows!(flat_form!(insn, area, target))
}
