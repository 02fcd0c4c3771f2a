//! The instruction table, by opcodes: the form of an instruction, and the fields that it uses.
//!
//! Decoding goes by these rows: it finds the opcode's form, compares the word with the form's `Row`, and only then builds the instruction. So the
//! checks of a word are data, which code and definitions share, and the order of its faults is in one place (`Row::fault`). The lists are generated
//! from `rows.rt`, because opcodes, mnemonics and flat forms must agree and a list of each would have to be kept in step.
//!
//! Always: an opcode has at most one form, and `of` inverts `opcode`. Signed operations are absent, as they share the opcode of the unsigned ones;
//! the offset selects them later. A search is a match over constants, so it compiles to a jump.
ghost use Rattle.std.specs.Prelude.{◌≡◌, ◌==◌, ◌<◌, find, IfSome};
ghost use Rattle.bpf_insn.specs.Form.{bit, condition_code, form_opcode, opcode_of, operation_code};
ghost use Rattle.bpf_insn.specs.Opcode.{form_of, immediate_use, offset_use, operand_form, reads_destination, row};

use crate::instruction::{ByteOrder, Condition, LoadFormat, Operation, StoreSize, Width};
use crate::instruction_rows;
use crate::row::Destination::{Nothing, Read, Written};
use crate::row::Use::{Any, MoveBits, SwapBits, Unused, ZeroOrOne};
use crate::row::{Row, Use, uses};

/// The form of an instruction, which its opcode determines.
#[derive(Clone, Copy)]
pub(crate) enum OpcodeForm {
    /// An unsigned operation, its width, and whether the second operand is a register. The offset distinguishes signed operations, and moves with
    /// sign extension.
    Alu(Operation, Width, bool),
    Negate(Width),
    ByteSwap(ByteOrder),
    /// A condition, its width, and whether the second operand is a register.
    JumpIf(Condition, Width, bool),
    ShortJump,
    LongJump,
    Call,
    Exit,
    Load(LoadFormat),
    StoreImmediate(StoreSize),
    Store(StoreSize),
    WideLoad,
}

/// Passes the given tokens to a macro, together with the operations, the conditions, or the forms without a second operand. A signed operation is
/// never found by its code, which is that of the unsigned one before it: the offset distinguishes them.
macro_rules! each {
    (
        (operation $write:ident $given:tt)
        alu { $($operation:ident: $($name:literal)* $($flat:ident)*;)* }
        $($others:tt)*
    ) => {
        $write!($given $(Operation::$operation,)*)
    };
    (
        (condition $write:ident $given:tt)
        alu $alu:tt extend $extend:tt negate $negate:tt swap $swap:tt
        jump { $($condition:ident: $($name:literal)* $($flat:ident)*;)* }
        $($others:tt)*
    ) => {
        $write!($given $(Condition::$condition,)*)
    };
    (
        (form $write:ident $given:tt)
        alu $alu:tt extend $extend:tt
        negate { $($width:ident: $negate:literal $flat_negate:ident;)* }
        swap { $($order:ident: $($swap:literal)* $($flat_swap:ident)*;)* }
        jump $jump:tt
        load { $($format:ident: $load:literal $($flat_load:ident)*;)* }
        store { $($size:ident: $($store:literal)* $($flat_store:ident)*;)* }
        single { $($single:ident: $name:literal;)* }
    ) => {
        $write!(
            $given
            $(OpcodeForm::$single,)*
            $(OpcodeForm::Load(LoadFormat::$format),)*
            $(OpcodeForm::Store(StoreSize::$size),)*
            $(OpcodeForm::StoreImmediate(StoreSize::$size),)*
            $(OpcodeForm::Negate(Width::$width),)*
            $(OpcodeForm::ByteSwap(ByteOrder::$order),)*
        )
    };
}

macro_rules! list {
    (() $($one:expr,)*) => { [$($one),*] };
}

macro_rules! count {
    (() $($one:expr,)*) => { 0 $(+ unit!($one))* };
}

macro_rules! unit {
    ($one:expr) => { 1 };
}

/// Expands to a match, which compiles to one jump, unlike a search that tests one by one.
macro_rules! first_with {
    (($number:expr, $of:ident) $($one:expr,)*) => { match $number { $(n if n == $one.$of() => Some($one),)* _ => None } };
}

const OPERATION_COUNT: usize = instruction_rows!(each!(operation count ()));

const CONDITION_COUNT: usize = instruction_rows!(each!(condition count ()));

const FORM_COUNT: usize = instruction_rows!(each!(form count ()));

pub(crate) const OPERATIONS: [Operation; OPERATION_COUNT] = instruction_rows!(
    each!(operation list ())
);

pub(crate) const CONDITIONS: [Condition; CONDITION_COUNT] = instruction_rows!(
    each!(condition list ())
);

pub(crate) const FORMS: [OpcodeForm; FORM_COUNT] = instruction_rows!(each!(form list ()));

impl OpcodeForm {
    /// Returns the form of an opcode, or `None` if no instruction has it.
    pub(crate) fn of(opcode: u8) -> Option<OpcodeForm>
        ensures value { result ≡ form_of opcode }
        ensures opcode { IfSome result (λ form. form_opcode form ≡ opcode) }
    {
        match operand_form(opcode % 8, opcode / 16, opcode / 8 % 2 == 1) {
            Some(form) => Some(form),
            None => other_form(opcode),
        }
    }

    /// Returns the opcode.
    #[inline(always)]
    pub(crate) fn opcode(self) -> u8
        ensures { result ≡ form_opcode self }
    {
        match self {
            OpcodeForm::Alu(operation, width, from_register) => {
                opcode(operation.code(), from_register, width as u8)
            }
            OpcodeForm::Negate(width) => opcode(0x8, false, width as u8),
            OpcodeForm::ByteSwap(order) => order as u8,
            OpcodeForm::JumpIf(condition, Width::Bits32, from_register) => {
                opcode(condition.code(), from_register, 6)
            }
            OpcodeForm::JumpIf(condition, Width::Bits64, from_register) => {
                opcode(condition.code(), from_register, 5)
            }
            OpcodeForm::ShortJump => 0x05,
            OpcodeForm::LongJump => 0x06,
            OpcodeForm::Call => 0x85,
            OpcodeForm::Exit => 0x95,
            OpcodeForm::Load(format) => format as u8,
            OpcodeForm::StoreImmediate(size) => 0x62 + size as u8,
            OpcodeForm::Store(size) => 0x63 + size as u8,
            OpcodeForm::WideLoad => 0x18,
        }
    }

    /// Returns the fields that the form uses.
    pub(crate) fn row(self) -> Row
        ensures { result ≡ row self }
    {
        match self {
            OpcodeForm::Alu(operation, width, from_register) => {
                let offset = offset_use(operation, width, from_register);
                uses(Written, from_register, offset, immediate_use(from_register))
            }
            OpcodeForm::Negate(_) => uses(Written, false, Unused, Unused),
            OpcodeForm::ByteSwap(_) => uses(Written, false, Unused, SwapBits),
            OpcodeForm::JumpIf(_, _, from_register) => {
                uses(Read, from_register, Any, immediate_use(from_register))
            }
            OpcodeForm::ShortJump => uses(Nothing, false, Any, Unused),
            OpcodeForm::LongJump | OpcodeForm::Call => uses(Nothing, false, Unused, Any),
            OpcodeForm::Exit => uses(Nothing, false, Unused, Unused),
            OpcodeForm::Load(_) => uses(Written, true, Any, Unused),
            OpcodeForm::StoreImmediate(_) => uses(Read, false, Any, Any),
            OpcodeForm::Store(_) => uses(Read, true, Any, Unused),
            OpcodeForm::WideLoad => uses(Written, false, Unused, Any),
        }
    }

    /// Returns whether the instruction reads the register that the destination field names. A move only writes it.
    pub(crate) fn reads_destination(self) -> bool
        ensures { result ≡ reads_destination self }
    {
        match self {
            OpcodeForm::Alu(operation, _, _) => operation != Operation::Move,
            OpcodeForm::Negate(_)
            | OpcodeForm::ByteSwap(_)
            | OpcodeForm::JumpIf(_, _, _)
            | OpcodeForm::StoreImmediate(_)
            | OpcodeForm::Store(_) => true,
            _ => false,
        }
    }
}

/// Returns the opcode of arithmetic or of a jump.
#[inline(always)]
fn opcode(code: u8, from_register: bool, class: u8) -> u8
    requires { (code < 16) × (class < 8) }
    ensures { result ≡ opcode_of code (bit from_register) class }
{
    code * 16 + u8::from(from_register) * 8 + class
}

impl Operation {
    #[inline(always)]
    fn code(self) -> u8
        ensures value { result ≡ operation_code self }
        ensures four_bits { result < 16 }
    {
        self as u8 % 16
    }
}

impl Condition {
    #[inline(always)]
    fn code(self) -> u8
        ensures value { result ≡ condition_code self }
        ensures four_bits { result < 16 }
    {
        self as u8
    }
}

/// Returns the form of arithmetic or of a jump with two operands, by class and code (RFC 9669, section 4).
fn operand_form(class: u8, code: u8, from_register: bool) -> Option<OpcodeForm>
    ensures value { result ≡ operand_form class code from_register }
    ensures opcode { IfSome result (λ form. form_opcode form ≡ opcode_of code (bit from_register) class) }
{
    match class {
        4 => Some(OpcodeForm::Alu(operation(code)?, Width::Bits32, from_register)),
        5 => Some(OpcodeForm::JumpIf(condition(code)?, Width::Bits64, from_register)),
        6 => Some(OpcodeForm::JumpIf(condition(code)?, Width::Bits32, from_register)),
        7 => Some(OpcodeForm::Alu(operation(code)?, Width::Bits64, from_register)),
        _ => None,
    }
}

fn operation(code: u8) -> Option<Operation>
    ensures value { result ≡ find (λ operation. operation_code operation == code) OPERATIONS }
    ensures code { IfSome result (λ operation. operation_code operation ≡ code) }
{
    instruction_rows!(each!(operation first_with (code, code)))
}

fn condition(code: u8) -> Option<Condition>
    ensures value { result ≡ find (λ condition. condition_code condition == code) CONDITIONS }
    ensures code { IfSome result (λ condition. condition_code condition ≡ code) }
{
    instruction_rows!(each!(condition first_with (code, code)))
}

fn other_form(opcode: u8) -> Option<OpcodeForm>
    ensures value { result ≡ find (λ form. form_opcode form == opcode) FORMS }
    ensures opcode { IfSome result (λ form. form_opcode form ≡ opcode) }
{
    instruction_rows!(each!(form first_with (opcode, opcode)))
}

/// Returns how an operation uses the offset.
fn offset_use(operation: Operation, width: Width, from_register: bool) -> Use
    ensures { result ≡ offset_use operation width from_register }
{
    match operation {
        Operation::Divide | Operation::SignedDivide | Operation::Modulo | Operation::SignedModulo =>
            ZeroOrOne,
        Operation::Move if from_register => MoveBits(width),
        _ => Unused,
    }
}

/// Returns how an instruction with two operands uses the immediate.
fn immediate_use(from_register: bool) -> Use
    ensures { result ≡ immediate_use from_register }
{
    if from_register { Unused } else { Any }
}
