//! The meaning of a line of program text.
//!
//! There is a function per form, not a table of operand kinds, since each builds another variant of `Insn`, and `Insn` can't express what no word
//! has. Which flaw of a line counts follows from the order here: the mnemonic (20, 21), then the form of all operands (20), then the range of their
//! numbers (22), and last a destination that is register 10 (26 with 18). So `both` reads both sides before it refuses one, and `destination_of`
//! comes after the operands. A label isn't looked up here: its jump has distance 0 until the second pass.
//!
//! Always: no fault depends on another line, and nothing is allocated; a name borrows from the text.
ghost use Rattle.std.specs.Prelude.{◌≡◌};
ghost use Rattle.bpf_assembler.specs.Words.{split_operand};
ghost use Rattle.bpf_assembler.specs.Operand.{or_fault, register_in, memory_in, source_in, target_in};
ghost use Rattle.bpf_assembler.specs.Number.{immediate_in, wide_in, limit_of_16_bits};
ghost use Rattle.bpf_assembler.specs.Statement.{instruction_in, instruction_of, label_of, statement_in, two, plain, low_half, high_half};
ghost use Rattle.bpf_assembler.specs.View.{statement_view, comparand_view, parts_view};

use crate::fault::TextFaultKind;
use crate::mnemonic_form::MnemonicForm;
use crate::number::{immediate_in, wide_in};
use crate::operand::{
    both, destination_of, memory_in, register_in, source_in, target_16, target_32,
};
use crate::words::{content_of, is_label, is_mnemonic, split_operand, split_word};
use bpf_insn::{
    ByteOrder, Condition, Insn, JumpDistance, LoadFormat, Operation, Register, SignExtension,
    Source, StoreSize, SwapWidth, Width,
};

/// The meaning of a line. A jump to a label has distance 0 until the label is resolved.
#[derive(Clone, Copy)]
pub(crate) enum Statement<'a> {
    Blank,
    Label(&'a [u8]),
    Instruction {
        insn: Insn,
        target: Option<&'a [u8]>,
    },
}

impl<'a> Statement<'a> {
    /// Reads a line, given without its line end.
    pub(crate) fn read(line: &'a [u8]) -> Result<Statement<'a>, TextFaultKind>
        ensures { statement_view result ≡ statement_in line.now }
    {
        let content = content_of(line);
        if content.is_empty() {
            return Ok(Statement::Blank);
        }
        let last = content.len() - 1;
        if content[last] == b':' {
            return label_of(&content[..last]);
        }
        instruction_of(content)
    }
}

fn label_of(name: &[u8]) -> Result<Statement<'_>, TextFaultKind>
    ensures { statement_view result ≡ label_of name.now }
{
    if is_label(name) {
        Ok(Statement::Label(name))
    } else {
        Err(TextFaultKind::Syntax)
    }
}

fn instruction_of(content: &[u8]) -> Result<Statement<'_>, TextFaultKind>
    ensures { statement_view result ≡ instruction_of content.now }
{
    let (word, operands) = split_word(content);
    // A word that can't be a mnemonic is a flaw of form. Only a well-formed one is unknown.
    if !is_mnemonic(word) {
        return Err(TextFaultKind::Syntax);
    }
    match MnemonicForm::named(word) {
        Some(form) => instruction_in(form, operands),
        None => Err(TextFaultKind::UnknownMnemonic),
    }
}

fn instruction_in(form: MnemonicForm, operands: &[u8]) -> Result<Statement<'_>, TextFaultKind>
    ensures { statement_view result ≡ instruction_in form operands.now }
{
    match form {
        MnemonicForm::Alu(operation, width) => alu(operation, width, operands),
        MnemonicForm::MoveSignExtended(extension) => move_sign_extended(extension, operands),
        MnemonicForm::Negate(width) => negate(width, operands),
        MnemonicForm::ByteSwap(order, width) => byte_swap(order, width, operands),
        MnemonicForm::JumpIf(condition, width) => jump_if(condition, width, operands),
        MnemonicForm::ShortJump => jump(operands),
        MnemonicForm::LongJump => long_jump(operands),
        MnemonicForm::Call => call(operands),
        MnemonicForm::Exit => exit(operands),
        MnemonicForm::Load(format) => load(format, operands),
        MnemonicForm::StoreImmediate(size) => store_immediate(size, operands),
        MnemonicForm::Store(size) => store(size, operands),
        MnemonicForm::WideLoad => wide_load(operands),
    }
}

/// Returns an instruction that names no label.
fn plain<'a>(insn: Insn) -> Result<Statement<'a>, TextFaultKind>
    ensures { statement_view result ≡ plain insn }
{
    Ok(Statement::Instruction { insn, target: None })
}

/// Returns the operands on both sides of the first comma.
fn split(operands: &[u8]) -> Result<(&[u8], &[u8]), TextFaultKind>
    ensures { parts_view result ≡ or_fault TextFaultKind.Syntax (split_operand operands.now) }
{
    match split_operand(operands) {
        Some(parts) => Ok(parts),
        None => Err(TextFaultKind::Syntax),
    }
}

fn register_and_source(operands: &[u8]) -> Result<(Register, Source), TextFaultKind>
    ensures { result ≡ two register_in source_in operands.now }
{
    let (left, right) = split(operands)?;
    both(register_in(left), source_in(right))
}

fn two_registers(operands: &[u8]) -> Result<(Register, Register), TextFaultKind>
    ensures { result ≡ two register_in register_in operands.now }
{
    let (left, right) = split(operands)?;
    both(register_in(left), register_in(right))
}

fn alu(operation: Operation, width: Width, operands: &[u8]) -> Result<Statement<'_>, TextFaultKind>
    ensures { statement_view result ≡ instruction_in (MnemonicForm.Alu operation width) operands.now }
{
    let (register, source) = register_and_source(operands)?;
    let destination = destination_of(register)?;
    plain(Insn::Alu {
        operation,
        width,
        destination,
        source,
    })
}

fn move_sign_extended(
    extension: SignExtension,
    operands: &[u8],
) -> Result<Statement<'_>, TextFaultKind>
    ensures { statement_view result ≡ instruction_in (MnemonicForm.MoveSignExtended extension) operands.now }
{
    let (register, source) = two_registers(operands)?;
    let destination = destination_of(register)?;
    plain(Insn::MoveSignExtended {
        extension,
        destination,
        source,
    })
}

fn negate(width: Width, operands: &[u8]) -> Result<Statement<'_>, TextFaultKind>
    ensures { statement_view result ≡ instruction_in (MnemonicForm.Negate width) operands.now }
{
    let register = register_in(operands)?;
    let destination = destination_of(register)?;
    plain(Insn::Negate { width, destination })
}

fn byte_swap(
    order: ByteOrder,
    width: SwapWidth,
    operands: &[u8],
) -> Result<Statement<'_>, TextFaultKind>
    ensures { statement_view result ≡ instruction_in (MnemonicForm.ByteSwap order width) operands.now }
{
    let register = register_in(operands)?;
    let destination = destination_of(register)?;
    plain(Insn::ByteSwap {
        order,
        width,
        destination,
    })
}

/// Reads the second operand of a comparison, and the target.
fn source_and_target(operands: &[u8]) -> Result<(Source, (i16, Option<&[u8]>)), TextFaultKind>
    ensures { comparand_view result ≡ two source_in (target_in limit_of_16_bits) operands.now }
{
    let (left, right) = split(operands)?;
    both(source_in(left), target_16(right))
}

fn jump_if(
    condition: Condition,
    width: Width,
    operands: &[u8],
) -> Result<Statement<'_>, TextFaultKind>
    ensures { statement_view result ≡ instruction_in (MnemonicForm.JumpIf condition width) operands.now }
{
    let (left, rest) = split(operands)?;
    let (left, (right, (offset, target))) = both(register_in(left), source_and_target(rest))?;
    Ok(Statement::Instruction {
        insn: Insn::JumpIf {
            condition,
            width,
            left,
            right,
            offset,
        },
        target,
    })
}

fn jump(operands: &[u8]) -> Result<Statement<'_>, TextFaultKind>
    ensures { statement_view result ≡ instruction_in MnemonicForm.ShortJump operands.now }
{
    let (distance, target) = target_16(operands)?;
    let insn = Insn::Jump(JumpDistance::Short(distance));
    Ok(Statement::Instruction { insn, target })
}

fn long_jump(operands: &[u8]) -> Result<Statement<'_>, TextFaultKind>
    ensures { statement_view result ≡ instruction_in MnemonicForm.LongJump operands.now }
{
    let (distance, target) = target_32(operands)?;
    let insn = Insn::Jump(JumpDistance::Long(distance));
    Ok(Statement::Instruction { insn, target })
}

fn call(operands: &[u8]) -> Result<Statement<'_>, TextFaultKind>
    ensures { statement_view result ≡ instruction_in MnemonicForm.Call operands.now }
{
    let immediate = immediate_in(operands)?;
    plain(Insn::Call { immediate })
}

fn exit(operands: &[u8]) -> Result<Statement<'_>, TextFaultKind>
    ensures { statement_view result ≡ instruction_in MnemonicForm.Exit operands.now }
{
    if !operands.is_empty() {
        return Err(TextFaultKind::Syntax);
    }
    plain(Insn::Exit)
}

fn register_and_memory(operands: &[u8]) -> Result<(Register, (Register, i16)), TextFaultKind>
    ensures { result ≡ two register_in memory_in operands.now }
{
    let (left, right) = split(operands)?;
    both(register_in(left), memory_in(right))
}

fn memory_and_register(operands: &[u8]) -> Result<((Register, i16), Register), TextFaultKind>
    ensures { result ≡ two memory_in register_in operands.now }
{
    let (left, right) = split(operands)?;
    both(memory_in(left), register_in(right))
}

fn memory_and_immediate(operands: &[u8]) -> Result<((Register, i16), i32), TextFaultKind>
    ensures { result ≡ two memory_in immediate_in operands.now }
{
    let (left, right) = split(operands)?;
    both(memory_in(left), immediate_in(right))
}

fn register_and_wide(operands: &[u8]) -> Result<(Register, u64), TextFaultKind>
    ensures { result ≡ two register_in wide_in operands.now }
{
    let (left, right) = split(operands)?;
    both(register_in(left), wide_in(right))
}

fn load(format: LoadFormat, operands: &[u8]) -> Result<Statement<'_>, TextFaultKind>
    ensures { statement_view result ≡ instruction_in (MnemonicForm.Load format) operands.now }
{
    let (register, (base, offset)) = register_and_memory(operands)?;
    let destination = destination_of(register)?;
    plain(Insn::Load {
        format,
        destination,
        base,
        offset,
    })
}

fn store_immediate(size: StoreSize, operands: &[u8]) -> Result<Statement<'_>, TextFaultKind>
    ensures { statement_view result ≡ instruction_in (MnemonicForm.StoreImmediate size) operands.now }
{
    let ((base, offset), immediate) = memory_and_immediate(operands)?;
    plain(Insn::StoreImmediate {
        size,
        base,
        offset,
        immediate,
    })
}

fn store(size: StoreSize, operands: &[u8]) -> Result<Statement<'_>, TextFaultKind>
    ensures { statement_view result ≡ instruction_in (MnemonicForm.Store size) operands.now }
{
    let ((base, offset), source) = memory_and_register(operands)?;
    plain(Insn::Store {
        size,
        base,
        offset,
        source,
    })
}

fn wide_load(operands: &[u8]) -> Result<Statement<'_>, TextFaultKind>
    ensures { statement_view result ≡ instruction_in MnemonicForm.WideLoad operands.now }
{
    let (register, number) = register_and_wide(operands)?;
    let destination = destination_of(register)?;
    plain(Insn::WideLoad {
        destination,
        immediate: low_half(number),
        next_immediate: high_half(number),
    })
}

fn low_half(number: u64) -> i32
    ensures { result ≡ low_half number }
{
    ((number % (1 << 32)) as u32).cast_signed()
}

fn high_half(number: u64) -> i32
    ensures { result ≡ high_half number }
{
    ((number / (1 << 32)) as u32).cast_signed()
}
