//! The disassembler: code to text.
//!
//! One form, which the assembler reads back as the same words. It writes no labels, as their names aren't in a program. Immediates are signed, also
//! those of calls and of 32-bit comparisons, distances and offsets have their sign, and a wide load's number has 16 hexadecimal digits, so each field
//! has one form and a difference between two listings is a difference between two programs.
//!
//! Always: assembling the text of a code yields the code, and a line has one instruction. `push_instruction` is public because listings (`explain`)
//! show the same text. The mnemonics are those of the table in `bpf_insn`, so nothing here names an operation.
ghost use Rattle.std.specs.Prelude.{◌≡◌, ◌<◌, [], ◌∷◌, ◌++◌, OnOk, IfOk, codes};
ghost use Rattle.std.specs.Char.{digit_char};
ghost use Rattle.std.specs.Fmt.{signed_decimal};
ghost use Rattle.std.specs.String.{string_bytes};
ghost use Rattle.bpf_insn.specs.Arithmetic.{wide_number};
ghost use Rattle.bpf_assembler.specs.Number.{IsWithin, limit_of_16_bits, limit_of_32_bits};
ghost use Rattle.bpf_assembler.specs.Operand.{register_name};
ghost use Rattle.bpf_assembler.specs.Text.{Means};
ghost use Rattle.bpf_text.specs.CodeText.{text_of, line_text, operands_text, form_of, signed_text, source_text, memory_text, wide_text, hexadecimal, one, two};
ghost use Rattle.bpf_text.specs.CodeText.{three, NumbersFit, SourceFits};

use bpf_assembler::{MnemonicForm, register_name};
use bpf_insn::{Code, Insn, JumpDistance, Register, Source, WritableRegister, wide_number};
use itoa::Buffer;
use std::alloc::{AllocError, Allocator};

/// Returns a program text that means the code: one line per instruction, with distances and offsets as numbers.
pub fn disassemble<A: Allocator + Copy, B: Allocator>(
    alloc: A,
    code: &Code<B>,
) -> Result<String<A>, AllocError>
    ensures exact { IfOk result (λ text. string_bytes text ≡ text_of code.now) }
    ensures means { IfOk result (λ text. Means (string_bytes text) code.now) }
{
    // A line is about twenty bytes long.
    let mut text = String::with_capacity(alloc, code.words() * 20)?;
    let instructions = code.instructions();
    for insn in instructions {
        push_line(&mut text, *insn)?;
    }
    Ok(text)
}

fn push_line<A: Allocator>(text: &mut String<A>, insn: Insn) -> Result<(), AllocError>
    ensures text { OnOk result (string_bytes text.new ≡ string_bytes text.old ++ (line_text insn ++ codes "\n")) }
    ensures fits { OnOk result (NumbersFit insn) }
{
    push_instruction(text, insn)?;
    text.push_str("\n")
}

/// Pushes an instruction as `disassemble` writes it, without a line end.
pub fn push_instruction<A: Allocator>(text: &mut String<A>, insn: Insn) -> Result<(), AllocError>
    ensures text { OnOk result (string_bytes text.new ≡ string_bytes text.old ++ line_text insn) }
    ensures fits { OnOk result (NumbersFit insn) }
{
    text.push_str(form_of(insn).name())?;
    push_operands(text, insn)
}

fn form_of(insn: Insn) -> MnemonicForm
    ensures { result ≡ form_of insn }
{
    match insn {
        Insn::Alu {
            operation,
            width,
            ..
        } => MnemonicForm::Alu(operation, width),
        Insn::MoveSignExtended { extension, .. } => MnemonicForm::MoveSignExtended(extension),
        Insn::Negate { width, .. } => MnemonicForm::Negate(width),
        Insn::ByteSwap { order, width, .. } => MnemonicForm::ByteSwap(order, width),
        Insn::JumpIf {
            condition,
            width,
            ..
        } => MnemonicForm::JumpIf(condition, width),
        Insn::Jump(JumpDistance::Short(_)) => MnemonicForm::ShortJump,
        Insn::Jump(JumpDistance::Long(_)) => MnemonicForm::LongJump,
        Insn::Call { .. } => MnemonicForm::Call,
        Insn::Exit => MnemonicForm::Exit,
        Insn::Load { format, .. } => MnemonicForm::Load(format),
        Insn::StoreImmediate { size, .. } => MnemonicForm::StoreImmediate(size),
        Insn::Store { size, .. } => MnemonicForm::Store(size),
        Insn::WideLoad { .. } => MnemonicForm::WideLoad,
    }
}

fn push_operands<A: Allocator>(text: &mut String<A>, insn: Insn) -> Result<(), AllocError>
    ensures text { OnOk result (string_bytes text.new ≡ string_bytes text.old ++ operands_text insn) }
    ensures fits { OnOk result (NumbersFit insn) }
{
    match insn {
        Insn::Alu {
            destination,
            source,
            ..
        } => push_alu(text, destination, source),
        Insn::MoveSignExtended {
            destination,
            source,
            ..
        } => { push_alu(text, destination, Source::Register(source)) }
        Insn::Negate { destination, .. } | Insn::ByteSwap { destination, .. } => {
            push_destination(text, destination)
        }
        Insn::JumpIf {
            left,
            right,
            offset,
            ..
        } => push_comparison(text, left, right, offset),
        Insn::Jump(JumpDistance::Short(distance)) => push_short_distance(text, distance),
        Insn::Jump(JumpDistance::Long(distance)) => push_distance(text, distance),
        Insn::Call { immediate } => push_call(text, immediate),
        Insn::Exit => Ok(()),
        Insn::Load {
            destination,
            base,
            offset,
            ..
        } => push_load(text, destination, base, offset),
        Insn::StoreImmediate {
            base,
            offset,
            immediate,
            ..
        } => { push_store(text, base, offset, Source::Immediate(immediate)) }
        Insn::Store {
            base,
            offset,
            source,
            ..
        } => { push_store(text, base, offset, Source::Register(source)) }
        Insn::WideLoad {
            destination,
            immediate,
            next_immediate,
        } => { push_wide_load(text, destination, immediate, next_immediate) }
    }
}

fn push_alu<A: Allocator>(
    text: &mut String<A>,
    destination: WritableRegister,
    source: Source,
) -> Result<(), AllocError>
    ensures text { OnOk result (string_bytes text.new ≡ string_bytes text.old ++ two (register_name destination.number) (source_text source)) }
    ensures fits { OnOk result (SourceFits source) }
{
    push_destination(text, destination)?;
    text.push_str(", ")?;
    push_source(text, source)
}

fn push_comparison<A: Allocator>(
    text: &mut String<A>,
    left: Register,
    right: Source,
    offset: i16,
) -> Result<(), AllocError>
    ensures text { OnOk result (string_bytes text.new ≡ string_bytes text.old ++ three (register_name left.number) (source_text right) (signed_text offset)) }
    ensures fits { OnOk result (SourceFits right × IsWithin limit_of_16_bits offset) }
{
    text.push_str(" ")?;
    text.push_str(register_name(left))?;
    text.push_str(", ")?;
    push_source(text, right)?;
    text.push_str(", ")?;
    push_signed(text, i32::from(offset))
}

fn push_distance<A: Allocator>(text: &mut String<A>, distance: i32) -> Result<(), AllocError>
    ensures text { OnOk result (string_bytes text.new ≡ string_bytes text.old ++ one (signed_text distance)) }
    ensures fits { OnOk result (IsWithin limit_of_32_bits distance) }
{
    text.push_str(" ")?;
    push_signed(text, distance)
}

fn push_short_distance<A: Allocator>(text: &mut String<A>, distance: i16) -> Result<(), AllocError>
    ensures text { OnOk result (string_bytes text.new ≡ string_bytes text.old ++ one (signed_text distance)) }
    ensures fits { OnOk result (IsWithin limit_of_16_bits distance) }
{
    push_distance(text, i32::from(distance))
}

fn push_call<A: Allocator>(text: &mut String<A>, immediate: i32) -> Result<(), AllocError>
    ensures text { OnOk result (string_bytes text.new ≡ string_bytes text.old ++ one (signed_decimal immediate)) }
    ensures fits { OnOk result (IsWithin limit_of_32_bits immediate) }
{
    text.push_str(" ")?;
    // Signed, though a helper function's number isn't, so that each immediate has one form.
    push_decimal(text, immediate)
}

fn push_load<A: Allocator>(
    text: &mut String<A>,
    destination: WritableRegister,
    base: Register,
    offset: i16,
) -> Result<(), AllocError>
    ensures text { OnOk result (string_bytes text.new ≡ string_bytes text.old ++ two (register_name destination.number) (memory_text base offset)) }
    ensures fits { OnOk result (IsWithin limit_of_16_bits offset) }
{
    push_destination(text, destination)?;
    text.push_str(", ")?;
    push_memory(text, base, offset)
}

fn push_store<A: Allocator>(
    text: &mut String<A>,
    base: Register,
    offset: i16,
    source: Source,
) -> Result<(), AllocError>
    ensures text { OnOk result (string_bytes text.new ≡ string_bytes text.old ++ two (memory_text base offset) (source_text source)) }
    ensures fits { OnOk result (IsWithin limit_of_16_bits offset × SourceFits source) }
{
    text.push_str(" ")?;
    push_memory(text, base, offset)?;
    text.push_str(", ")?;
    push_source(text, source)
}

fn push_wide_load<A: Allocator>(
    text: &mut String<A>,
    destination: WritableRegister,
    immediate: i32,
    next_immediate: i32,
) -> Result<(), AllocError>
    ensures text { OnOk result (string_bytes text.new ≡ string_bytes text.old
        ++ two (register_name destination.number) (wide_text (wide_number immediate next_immediate))) }
    ensures fits { OnOk result (IsWithin limit_of_32_bits immediate × IsWithin limit_of_32_bits next_immediate) }
{
    push_destination(text, destination)?;
    text.push_str(", 0x")?;
    push_hexadecimal(text, wide_number(immediate, next_immediate))
}

/// Pushes a blank and the register that an instruction writes.
fn push_destination<A: Allocator>(
    text: &mut String<A>,
    destination: WritableRegister,
) -> Result<(), AllocError>
    ensures { OnOk result (string_bytes text.new ≡ string_bytes text.old ++ one (register_name destination.number)) }
{
    let number = destination.number;
    text.push_str(" ")?;
    text.push_str(register_name(Register { number }))
}

fn push_source<A: Allocator>(text: &mut String<A>, source: Source) -> Result<(), AllocError>
    ensures text { OnOk result (string_bytes text.new ≡ string_bytes text.old ++ source_text source) }
    ensures fits { OnOk result (SourceFits source) }
{
    match source {
        Source::Immediate(immediate) => push_decimal(text, immediate),
        Source::Register(register) => text.push_str(register_name(register)),
    }
}

fn push_memory<A: Allocator>(
    text: &mut String<A>,
    base: Register,
    offset: i16,
) -> Result<(), AllocError>
    ensures text { OnOk result (string_bytes text.new ≡ string_bytes text.old ++ memory_text base offset) }
    ensures fits { OnOk result (IsWithin limit_of_16_bits offset) }
{
    text.push_str("[")?;
    text.push_str(register_name(base))?;
    push_signed(text, i32::from(offset))?;
    text.push_str("]")
}

fn push_decimal<A: Allocator>(text: &mut String<A>, number: i32) -> Result<(), AllocError>
    ensures text { OnOk result (string_bytes text.new ≡ string_bytes text.old ++ signed_decimal number) }
    ensures fits { OnOk result (IsWithin limit_of_32_bits number) }
{
    let mut digits = Buffer::new();
    text.push_str(digits.format(number))
}

/// Pushes a number with its sign.
fn push_signed<A: Allocator>(text: &mut String<A>, number: i32) -> Result<(), AllocError>
    ensures { OnOk result (string_bytes text.new ≡ string_bytes text.old ++ signed_text number) }
{
    if number >= 0 {
        text.push_str("+")?;
    }
    push_decimal(text, number)
}

/// Pushes sixteen hexadecimal digits.
fn push_hexadecimal<A: Allocator>(text: &mut String<A>, number: u64) -> Result<(), AllocError>
    ensures { OnOk result (string_bytes text.new ≡ string_bytes text.old ++ hexadecimal 16 number) }
{
    let mut remaining = 16u32;
    while remaining > 0 {
        remaining -= 1;
        text.push_str(digit((number >> (4 * remaining)) % 16))?;
    }
    Ok(())
}

fn digit(value: u64) -> &'static str
    requires { value < 16 }
    ensures { result.now ≡ digit_char value ∷ [] }
{
    match value {
        0 => "0",
        1 => "1",
        2 => "2",
        3 => "3",
        4 => "4",
        5 => "5",
        6 => "6",
        7 => "7",
        8 => "8",
        9 => "9",
        10 => "a",
        11 => "b",
        12 => "c",
        13 => "d",
        14 => "e",
        _ => "f",
    }
}
