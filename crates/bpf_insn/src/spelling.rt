//! The words that spell an instruction, and the registers that they name.
ghost use Rattle.std.specs.Prelude.{◌≡◌, ◌≤◌, option_to_list};
ghost use Rattle.bpf_insn.specs.Form.{extension_width, first_word, further_words, is_register, opcode_form, source_field, source_immediate};
ghost use Rattle.bpf_insn.specs.Opcode.{reads_named};

use crate::instruction::{Insn, JumpDistance, Operation, SignExtension, Source, Width};
use crate::opcode_form::OpcodeForm;
use crate::word::Word;

impl Insn {
    /// Returns the words that spell the instruction.
    pub(crate) fn spelling(&self) -> (Word, Option<Word>)
        ensures first { result.0 ≡ first_word self.now }
        ensures further { option_to_list result.1 ≡ further_words self.now }
    {
        let first = Word {
            opcode: self.opcode(),
            destination: self.first_register(),
            source: self.second_register(),
            offset: self.offset(),
            immediate: self.immediate(),
        };
        let second = match *self {
            Insn::WideLoad { next_immediate, .. } => Some(Word {
                immediate: next_immediate,
                ..Word::default()
            }),
            _ => None,
        };
        (first, second)
    }

    /// Returns whether the instruction reads a register that its fields name.
    pub fn reads_named(&self, register: u8) -> bool
        ensures { result ≡ reads_named self.now register }
    {
        // What an instruction reads follows from its form, so there is no second list to keep in step.
        let form = self.form();
        (form.reads_destination() && register == self.first_register())
            || (form.row().uses_source && register == self.second_register())
    }

    #[tactic(auto, using(crate::proofs::FormLemmas::has_opcode))]
    fn opcode(&self) -> u8
        ensures { result ≡ (first_word self.now).opcode }
    {
        self.form().opcode()
    }

    #[inline(always)]
    fn form(&self) -> OpcodeForm
        ensures { result ≡ opcode_form self.now }
    {
        match *self {
            Insn::Alu {
                operation,
                width,
                source,
                ..
            } => OpcodeForm::Alu(operation, width, source.fields().0),
            Insn::MoveSignExtended { extension, .. } => {
                OpcodeForm::Alu(Operation::Move, extension.width(), true)
            }
            Insn::Negate { width, .. } => OpcodeForm::Negate(width),
            Insn::ByteSwap { order, .. } => OpcodeForm::ByteSwap(order),
            Insn::JumpIf {
                condition,
                width,
                right,
                ..
            } => OpcodeForm::JumpIf(condition, width, right.fields().0),
            Insn::Jump(JumpDistance::Short(_)) => OpcodeForm::ShortJump,
            Insn::Jump(JumpDistance::Long(_)) => OpcodeForm::LongJump,
            Insn::Call { .. } => OpcodeForm::Call,
            Insn::Exit => OpcodeForm::Exit,
            Insn::Load { format, .. } => OpcodeForm::Load(format),
            Insn::StoreImmediate { size, .. } => OpcodeForm::StoreImmediate(size),
            Insn::Store { size, .. } => OpcodeForm::Store(size),
            Insn::WideLoad { .. } => OpcodeForm::WideLoad,
        }
    }

    /// Returns the value of the destination field.
    fn first_register(&self) -> u8
        ensures field { result ≡ (first_word self.now).destination }
        ensures four_bits { result ≤ 10 }
    {
        match *self {
            Insn::Alu { destination, .. }
            | Insn::MoveSignExtended { destination, .. }
            | Insn::Negate { destination, .. }
            | Insn::ByteSwap { destination, .. }
            | Insn::Load { destination, .. }
            | Insn::WideLoad { destination, .. } => destination.number,
            Insn::JumpIf { left, .. } => left.number,
            Insn::StoreImmediate { base, .. } | Insn::Store { base, .. } => base.number,
            Insn::Jump(_) | Insn::Call { .. } | Insn::Exit => 0,
        }
    }

    /// Returns the value of the source field.
    fn second_register(&self) -> u8
        ensures field { result ≡ (first_word self.now).source }
        ensures four_bits { result ≤ 10 }
    {
        match *self {
            Insn::Alu { source, .. } | Insn::JumpIf { right: source, .. } => source.fields().1,
            Insn::MoveSignExtended { source, .. } | Insn::Store { source, .. } => source.number,
            Insn::Load { base, .. } => base.number,
            _ => 0,
        }
    }

    fn offset(&self) -> i16
        ensures { result ≡ (first_word self.now).offset }
    {
        match *self {
            // The discriminant is 16 above the code if the offset is 1, and 256 for each bit that a move takes.
            Insn::Alu { operation, .. } => operation as i16 / 16,
            Insn::MoveSignExtended { extension, .. } => extension as i16 / 256,
            Insn::JumpIf { offset, .. }
            | Insn::Load { offset, .. }
            | Insn::StoreImmediate { offset, .. }
            | Insn::Store { offset, .. }
            | Insn::Jump(JumpDistance::Short(offset)) => offset,
            _ => 0,
        }
    }

    fn immediate(&self) -> i32
        ensures { result ≡ (first_word self.now).immediate }
    {
        match *self {
            Insn::Alu { source, .. } | Insn::JumpIf { right: source, .. } => source.fields().2,
            Insn::ByteSwap { width, .. } => width as i32,
            Insn::Jump(JumpDistance::Long(immediate))
            | Insn::Call { immediate }
            | Insn::StoreImmediate { immediate, .. }
            | Insn::WideLoad { immediate, .. } => immediate,
            _ => 0,
        }
    }
}

impl Source {
    /// Returns whether the operand is a register, the value of the source field, and the immediate.
    fn fields(self) -> (bool, u8, i32)
        ensures register { result.0 ≡ is_register self }
        ensures field { (result.1 ≡ source_field self) × (result.1 ≤ 10) }
        ensures immediate { result.2 ≡ source_immediate self }
    {
        match self {
            Source::Immediate(immediate) => (false, 0, immediate),
            Source::Register(register) => (true, register.number, 0),
        }
    }
}

impl SignExtension {
    /// Returns the width that the move writes.
    #[inline(always)]
    fn width(self) -> Width
        ensures { result ≡ extension_width self }
    {
        match self {
            SignExtension::Bits8To32 | SignExtension::Bits16To32 => Width::Bits32,
            SignExtension::Bits8To64 | SignExtension::Bits16To64 | SignExtension::Bits32To64 => {
                Width::Bits64
            }
        }
    }
}
