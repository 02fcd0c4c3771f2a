//! The operands of an instruction in program text.
ghost use Rattle.std.specs.Prelude.{◌≡◌, ◌<◌, IfSome, length};
ghost use Rattle.std.specs.List.{position};
ghost use Rattle.std.specs.Str.{bytes_eq};
ghost use Rattle.bpf_assembler.specs.Operand.{both, form_first, register_name, register_number, register_named, register_in, destination_of, source_in};
ghost use Rattle.bpf_assembler.specs.Operand.{offset_in};
ghost use Rattle.bpf_assembler.specs.Operand.{address_in, memory_in, target_in};
ghost use Rattle.bpf_assembler.specs.Number.{limit_of_16_bits, limit_of_32_bits};
ghost use Rattle.bpf_assembler.specs.View.{target_view};

use crate::fault::TextFaultKind;
use crate::number::{immediate_in, signed_16, signed_32};
use crate::words::{find_sign, is_label};
use bpf_insn::{Register, Source, WritableRegister};

/// The registers' names, by number.
const REGISTER_NAMES: [&str; 11] = [
    "r0", "r1", "r2", "r3", "r4", "r5", "r6", "r7", "r8", "r9", "r10",
];

/// Combines two operands. A syntax flaw in either one takes precedence over a number out of range.
pub(crate) fn both<T: Copy, U: Copy>(
    left: Result<T, TextFaultKind>,
    right: Result<U, TextFaultKind>,
) -> Result<(T, U), TextFaultKind>
    ensures { result ≡ both left right }
{
    match left {
        Ok(left) => match right {
            Ok(right) => Ok((left, right)),
            Err(flaw) => Err(flaw),
        },
        Err(flaw) => match right {
            Ok(_) => Err(flaw),
            Err(other) => Err(form_first(flaw, other)),
        },
    }
}

fn form_first(flaw: TextFaultKind, other: TextFaultKind) -> TextFaultKind
    ensures { result ≡ form_first flaw other }
{
    match flaw {
        TextFaultKind::NumberRange => other,
        _ => flaw,
    }
}

fn register_number(word: &[u8]) -> Option<usize>
    ensures value { result ≡ register_number word.now }
    ensures within { IfSome result (λ number. number < 11) }
{
    index_of(&REGISTER_NAMES, word)
}

fn index_of(names: &[&str], word: &[u8]) -> Option<usize>
    ensures value { result ≡ position (λ name. bytes_eq name.now word.now) names.now }
    ensures within { IfSome result (λ index. index < length names.now) }
{
    names.iter().position(|name| name.as_bytes() == word)
}

/// Returns a register's name, as in program text.
pub fn register_name(register: Register) -> &'static str
    ensures { result.now ≡ register_name register.number }
{
    REGISTER_NAMES[usize::from(register.number)]
}

fn register_named(word: &[u8]) -> Option<Register>
    ensures { result ≡ register_named word.now }
{
    let number = register_number(word)? as u8;
    Some(Register { number })
}

pub(crate) fn register_in(word: &[u8]) -> Result<Register, TextFaultKind>
    ensures { result ≡ register_in word.now }
{
    match register_named(word) {
        Some(register) => Ok(register),
        None => Err(TextFaultKind::Syntax),
    }
}

/// Refuses register 10, which no instruction writes.
pub(crate) fn destination_of(register: Register) -> Result<WritableRegister, TextFaultKind>
    ensures { result ≡ destination_of register }
{
    let number = register.number;
    if number > 9 {
        return Err(TextFaultKind::WritesFramePointer);
    }
    Ok(WritableRegister { number })
}

/// Reads a register, or else an immediate.
pub(crate) fn source_in(word: &[u8]) -> Result<Source, TextFaultKind>
    ensures { result ≡ source_in word.now }
{
    match register_named(word) {
        Some(register) => Ok(Source::Register(register)),
        None => Ok(Source::Immediate(immediate_in(word)?)),
    }
}

/// Reads an offset; an empty text is the offset 0.
fn offset_in(text: &[u8]) -> Result<i16, TextFaultKind>
    ensures { result ≡ offset_in text.now }
{
    if text.is_empty() {
        return Ok(0);
    }
    signed_16(text)
}

/// Reads a base register and an offset.
fn address_in(text: &[u8]) -> Result<(Register, i16), TextFaultKind>
    ensures { result ≡ address_in text.now }
{
    match find_sign(text) {
        Some(sign) => both(register_in(&text[..sign]), offset_in(&text[sign..])),
        None => both(register_in(text), offset_in(&[])),
    }
}

/// Reads a base register and an offset, in brackets.
pub(crate) fn memory_in(word: &[u8]) -> Result<(Register, i16), TextFaultKind>
    ensures { result ≡ memory_in word.now }
{
    match word {
        [b'[', inner @ .., b']'] => address_in(inner),
        _ => Err(TextFaultKind::Syntax),
    }
}

/// Reads a jump's target: a distance, or a label, with distance 0 until the label is resolved.
pub(crate) fn target_16(word: &[u8]) -> Result<(i16, Option<&[u8]>), TextFaultKind>
    ensures { target_view result ≡ target_in limit_of_16_bits word.now }
{
    // A distance begins with its sign, so no word is both.
    if is_label(word) {
        return Ok((0, Some(word)));
    }
    Ok((signed_16(word)?, None))
}

/// Reads a jump's target, with a distance of 32 bits.
pub(crate) fn target_32(word: &[u8]) -> Result<(i32, Option<&[u8]>), TextFaultKind>
    ensures { target_view result ≡ target_in limit_of_32_bits word.now }
{
    if is_label(word) {
        return Ok((0, Some(word)));
    }
    Ok((signed_32(word)?, None))
}
