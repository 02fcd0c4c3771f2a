//! Laws of the definitions themselves. The functions do nothing: each contract is a law.
ghost use Rattle.std.specs.Prelude.{◌≡◌, ◌≢◌, ◌<◌, ◌*◌, ◌↔◌, ℕ, List, All, Some, filter, is_some};
ghost use Rattle.std.specs.List.{range_with_len};
ghost use Rattle.bpf_insn.specs.Code.{IsCodeOf, IsFirstFault};
ghost use Rattle.bpf_insn.specs.Frame.{slot_at};
ghost use Rattle.bpf_insn.specs.Opcode.{form_of, opcodes};
ghost use Rattle.bpf_insn.specs.declared.code.TheConstants.{MAX_WORDS};
ghost use Rattle.bpf_insn.specs.declared.fault.CodeFault.{CodeFault};
ghost use Rattle.bpf_insn.specs.declared.instruction.Insn.{Insn};
ghost use Rattle.bpf_insn.specs.declared.memory.TheConstants.{FRAME_LENGTH, SLOT_LENGTH, SLOTS};

/// Bytes have at most one code.
pub fn one_code()
    ensures { (bytes : List ℕ) (a b : List Insn) → IsCodeOf bytes a → IsCodeOf bytes b → a ≡ b }
{}

/// A code has only one spelling in bytes.
pub fn one_spelling()
    ensures { (a b : List ℕ) (code : List Insn) → All (λ byte. byte < 256) a → All (λ byte. byte < 256) b
        → IsCodeOf a code → IsCodeOf b code → a ≡ b }
{}

/// An opcode has a form if and only if the standard assigns it to an instruction in the groups base32, base64, divmul32 or divmul64.
pub fn opcodes()
    ensures { filter (λ opcode. is_some (form_of opcode)) (range_with_len 0 256) ≡ opcodes }
{}

/// A program has at most 65,536 words.
pub fn word_limit()
    ensures { MAX_WORDS ≡ 65536 }
{}

/// The frame has 512 bytes, in 64 slots of eight.
pub fn frame_length()
    ensures bytes { FRAME_LENGTH ≡ 512 }
    ensures slots { SLOTS ≡ 64 }
    ensures slot { SLOT_LENGTH ≡ 8 }
{}

/// A range of bytes is a slot if and only if it has the length of a slot and begins at the offset of one, which is divisible by eight.
pub fn slots_are_whole()
    ensures { (at count slot : ℕ) → (slot_at at count ≡ Some slot) ↔ ((count ≡ SLOT_LENGTH) × (at ≡ SLOT_LENGTH * slot)) }
{}

/// Bytes have at most one first fault, apart from running out of memory, which doesn't depend on the bytes alone.
pub fn one_fault()
    ensures { (bytes : List ℕ) (a b : CodeFault) → IsFirstFault bytes a → IsFirstFault bytes b
        → a ≢ CodeFault.Memory → b ≢ CodeFault.Memory → a ≡ b }
{}
