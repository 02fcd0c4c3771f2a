//! Reports about values that break the rule of their option.
ghost use Rattle.counted_io.specs.Writing.{WritesText};
ghost use Rattle.reports.specs.Rule.{broken_rule};

use crate::piece::Piece::{Echo, Text};
use crate::piece::write_report;
use counted_io::{CountedWrite, WriteFault};

/// Writes the line about a value that breaks a rule. The rule begins with the name of the option.
pub fn write_broken_rule<'p, W: CountedWrite>(
    out: &mut W,
    rule: &'p str,
    value: &'p str,
) -> Result<(), WriteFault>
    ensures { WritesText (broken_rule rule.now value.now) result (W.writer out.old) (W.writer out.new) }
{
    write_report(
        out,
        &[
            Text("error: --"),
            Text(rule),
            Text(", and \""),
            Echo(value),
            Text("\" isn't\n"),
        ],
    )
}
