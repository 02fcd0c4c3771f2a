//! The instructions of arithmetic.
ghost use Rattle.std.specs.Prelude.{◌≡◌};
ghost use Rattle.bpf_insn.specs.declared.instruction.Insn.TheVariants.{Negate};
ghost use Rattle.bpf_insn.specs.declared.instruction.Width.TheVariants.{Bits64};
ghost use Rattle.cql2_code.specs.Expressions as expressions;
ghost use Rattle.cql2_code.specs.Layout.{into_result};

use crate::instructions::{into_result, move_number, wide_load};
use bpf_insn::{Insn, Operation, Source, Width};
use cql2::{Literal, Operator};

/// Combines register 0 with another operand.
pub(crate) fn operate(operator: Operator, operand: Source) -> Insn
    ensures { result ≡ expressions.operate operator operand }
{
    Insn::Alu {
        operation: operation_of(operator),
        width: Width::Bits64,
        destination: into_result(),
        source: operand,
    }
}

fn operation_of(operator: Operator) -> Operation
    ensures { result ≡ expressions.operation_of operator }
{
    match operator {
        Operator::Add => Operation::Add,
        Operator::Subtract => Operation::Subtract,
        Operator::Multiply => Operation::Multiply,
        // Signed division rounds towards zero, as in SQL.
        Operator::Divide => Operation::SignedDivide,
        Operator::Remainder => Operation::SignedModulo,
    }
}

/// Negates register 0.
pub(crate) fn negate() -> Insn
    ensures { result ≡ Negate Bits64 into_result }
{
    Insn::Negate {
        width: Width::Bits64,
        destination: into_result(),
    }
}

/// Puts a literal into register 0.
pub(crate) fn set_literal(literal: Literal) -> Insn
    ensures { result ≡ expressions.set_literal literal.number }
{
    match i32::try_from(literal.number) {
        Ok(narrow) => move_number(into_result(), narrow),
        Err(_) => wide_load(into_result(), literal.number.cast_unsigned()),
    }
}
