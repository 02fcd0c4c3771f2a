//! Codes that read nothing of a segment but its type 1 record.
ghost use Rattle.std.specs.Prelude.{◌≡◌};
ghost use Rattle.bpf_meaning.specs.RecordAlone.{instruction_reads_record_alone};

use bpf_helpers::Helper;
use bpf_insn::Insn;

/// Returns whether an instruction reads nothing of a segment but its type 1 record: it calls no helper function that reads alternate names or
/// address ranges. A code of such instructions gives the same answer on all segments with the same record.
pub fn instruction_reads_record_alone(insn: Insn) -> bool
    ensures { result ≡ instruction_reads_record_alone insn }
{
    match insn {
        Insn::Call { immediate } => {
            let helper = Helper::by_number(immediate.cast_unsigned());
            // A call of an unknown function is stuck on every segment.
            helper.is_none_or(|helper| helper.reads_record_alone())
        }
        _ => true,
    }
}
