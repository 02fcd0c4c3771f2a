//! The instruction that begins with a word.
ghost use Rattle.std.specs.Prelude.{◌≡◌, ◌≢◌, ◌≤◌, ◌∷◌, [], IfOk, IfErr, Some, option_to_list};
ghost use Rattle.bpf_insn.specs.Form.{spelling, swap_bits, operation_code, operation_offset};
ghost use Rattle.bpf_insn.specs.Row.{IsAllowed};
ghost use Rattle.bpf_insn.specs.Fault.{first_fault};
ghost use Rattle.bpf_insn.specs.Reading.{Begins, HasForm, HasOffset, HasOperand, IsSource};
ghost use Rattle.bpf_insn.specs.declared.row.Use.TheVariants.{SwapBits};

use crate::fault::WordFault;
use crate::instruction::{
    Insn, JumpDistance, Operation, SignExtension, Source, StoreSize, SwapWidth, Width,
};
use crate::opcode_form::OpcodeForm;
use crate::register::{Register, WritableRegister};
use crate::word::Word;

impl Word {
    /// Returns the instruction that begins with this word, or its first fault. `next` is the word after it, if there is one.
    pub(crate) fn instruction(self, next: Option<Word>) -> Result<Insn, WordFault>
        ensures ok { IfOk result (λ insn. Begins insn self next) }
        ensures err { IfErr result (λ fault. first_fault self (option_to_list next) ≡ Some fault) }
    {
        let Some(form) = OpcodeForm::of(self.opcode) else {
            return Err(WordFault::UnknownOpcode);
        };
        // A missing second word comes before the faults of the first one.
        if let OpcodeForm::WideLoad = form {
            return self.wide_load(next);
        }
        match form.row().fault(self) {
            None => Ok(self.instruction_of(form)),
            Some(fault) => Err(fault),
        }
    }

    /// Returns a wide load, from this word and the second one.
    fn wide_load(self, next: Option<Word>) -> Result<Insn, WordFault>
        requires { self.opcode ≡ 0x18 }
        ensures ok { IfOk result (λ insn. Begins insn self next) }
        ensures err { IfErr result (λ fault. first_fault self (option_to_list next) ≡ Some fault) }
    {
        let Some(next) = next else {
            return Err(WordFault::CutWide);
        };
        if let Some(fault) = OpcodeForm::WideLoad.row().fault(self) {
            return Err(fault);
        }
        if next.opcode != 0 || next.destination != 0 || next.source != 0 || next.offset != 0 {
            return Err(WordFault::UnusedNotZero);
        }
        Ok(Insn::WideLoad {
            destination: self.writable_destination(),
            immediate: self.immediate,
            next_immediate: next.immediate,
        })
    }

    /// Returns the instruction of a form that takes one word.
    fn instruction_of(self, form: OpcodeForm) -> Insn
        requires form { HasForm form self }
        requires one_word { form ≢ OpcodeForm.WideLoad }
        ensures { spelling result ≡ self ∷ [] }
    {
        match form {
            OpcodeForm::Alu(operation, width, from_register) => {
                self.arithmetic(operation, width, from_register)
            }
            OpcodeForm::Negate(width) => Insn::Negate {
                width,
                destination: self.writable_destination(),
            },
            OpcodeForm::ByteSwap(order) => Insn::ByteSwap {
                order,
                width: swap_width(self.immediate),
                destination: self.writable_destination(),
            },
            OpcodeForm::JumpIf(condition, width, from_register) => Insn::JumpIf {
                condition,
                width,
                left: self.read_destination(),
                right: self.operand(from_register),
                offset: self.offset,
            },
            OpcodeForm::ShortJump => Insn::Jump(JumpDistance::Short(self.offset)),
            OpcodeForm::LongJump => Insn::Jump(JumpDistance::Long(self.immediate)),
            OpcodeForm::Call => Insn::Call {
                immediate: self.immediate,
            },
            OpcodeForm::Exit => Insn::Exit,
            OpcodeForm::Load(format) => Insn::Load {
                format,
                destination: self.writable_destination(),
                base: self.source_register(),
                offset: self.offset,
            },
            OpcodeForm::StoreImmediate(size) => self.store_immediate(size),
            OpcodeForm::Store(size) => self.store(size),
            // `instruction` has read it already.
            OpcodeForm::WideLoad => unreachable!(),
        }
    }

    /// Returns an arithmetic instruction with two operands. The offset of a move of a register is the number of bits that it takes.
    fn arithmetic(self, operation: Operation, width: Width, from_register: bool) -> Insn
        requires { HasForm (OpcodeForm.Alu operation width from_register) self }
        ensures { spelling result ≡ self ∷ [] }
    {
        let destination = self.writable_destination();
        let extension = match (operation, width, self.offset) {
            (Operation::Move, Width::Bits32, 8) => SignExtension::Bits8To32,
            (Operation::Move, Width::Bits32, 16) => SignExtension::Bits16To32,
            (Operation::Move, Width::Bits64, 8) => SignExtension::Bits8To64,
            (Operation::Move, Width::Bits64, 16) => SignExtension::Bits16To64,
            (Operation::Move, Width::Bits64, 32) => SignExtension::Bits32To64,
            _ => {
                return Insn::Alu {
                    operation: with_offset(operation, self.offset),
                    width,
                    destination,
                    source: self.operand(from_register),
                };
            }
        };
        Insn::MoveSignExtended {
            extension,
            destination,
            source: self.source_register(),
        }
    }

    fn store_immediate(self, size: StoreSize) -> Insn
        requires { HasForm (OpcodeForm.StoreImmediate size) self }
        ensures { spelling result ≡ self ∷ [] }
    {
        Insn::StoreImmediate {
            size,
            base: self.read_destination(),
            offset: self.offset,
            immediate: self.immediate,
        }
    }

    fn store(self, size: StoreSize) -> Insn
        requires { HasForm (OpcodeForm.Store size) self }
        ensures { spelling result ≡ self ∷ [] }
    {
        Insn::Store {
            size,
            base: self.read_destination(),
            offset: self.offset,
            source: self.source_register(),
        }
    }

    fn writable_destination(self) -> WritableRegister
        requires { self.destination ≤ 9 }
        ensures { result.number ≡ self.destination }
    {
        WritableRegister {
            number: self.destination,
        }
    }

    fn read_destination(self) -> Register
        requires { self.destination ≤ 10 }
        ensures { result.number ≡ self.destination }
    {
        Register {
            number: self.destination,
        }
    }

    fn source_register(self) -> Register
        requires { self.source ≤ 10 }
        ensures { result.number ≡ self.source }
    {
        Register {
            number: self.source,
        }
    }

    /// Returns the second operand.
    fn operand(self, from_register: bool) -> Source
        requires { HasOperand from_register self }
        ensures { IsSource from_register self result }
    {
        if from_register {
            Source::Register(self.source_register())
        } else {
            Source::Immediate(self.immediate)
        }
    }
}

/// Returns the operation that an offset selects: it distinguishes signed division and remainder from unsigned ones.
fn with_offset(operation: Operation, offset: i16) -> Operation
    requires { HasOffset operation offset }
    ensures code { operation_code result ≡ operation_code operation }
    ensures offset { operation_offset result ≡ offset }
{
    match operation {
        Operation::Divide | Operation::SignedDivide if offset == 0 => Operation::Divide,
        Operation::Divide | Operation::SignedDivide => Operation::SignedDivide,
        Operation::Modulo | Operation::SignedModulo if offset == 0 => Operation::Modulo,
        Operation::Modulo | Operation::SignedModulo => Operation::SignedModulo,
        _ => operation,
    }
}

/// Returns the number of bits that a byte swap keeps.
fn swap_width(bits: i32) -> SwapWidth
    requires { IsAllowed SwapBits bits }
    ensures { swap_bits result ≡ bits }
{
    match bits {
        16 => SwapWidth::Bits16,
        32 => SwapWidth::Bits32,
        _ => SwapWidth::Bits64,
    }
}
