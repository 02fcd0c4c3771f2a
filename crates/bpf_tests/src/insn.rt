//! Opcodes, and codes that are built instead of decoded.
use bpf_insn::{
    Code, CodeBuilder, CodeFault, Insn, MAX_WORDS, Register, WritableRegister, decode, encode,
};
use refusals::Fault;
use std::alloc::Global;

// The opcodes of the instruction table, class by class.
const OPCODES: &[u8] = b"\x18\
\x61\x69\x71\x79\x81\x89\x91\
\x62\x6a\x72\x7a\
\x63\x6b\x73\x7b\
\x04\x0c\x14\x1c\x24\x2c\x34\x3c\x44\x4c\x54\x5c\x64\x6c\x74\x7c\x84\x94\x9c\xa4\xac\xb4\xbc\xc4\xcc\xd4\xdc\
\x05\x15\x1d\x25\x2d\x35\x3d\x45\x4d\x55\x5d\x65\x6d\x75\x7d\x85\x95\xa5\xad\xb5\xbd\xc5\xcd\xd5\xdd\
\x06\x16\x1e\x26\x2e\x36\x3e\x46\x4e\x56\x5e\x66\x6e\x76\x7e\xa6\xae\xb6\xbe\xc6\xce\xd6\xde\
\x07\x0f\x17\x1f\x27\x2f\x37\x3f\x47\x4f\x57\x5f\x67\x6f\x77\x7f\x87\x97\x9f\xa7\xaf\xb7\xbf\xc7\xcf\xd7";

/// Returns whether a word with this opcode, or two words for a wide load, is one instruction that is encoded as the same bytes, or else no
/// instruction has the opcode.
fn is_opcode(alloc: Global, opcode: u8) -> bool {
    // The immediate of a byte swap is the width that it keeps.
    let immediate = if matches!(opcode, 0xd4 | 0xd7 | 0xdc) {
        16
    } else {
        0
    };
    let words = [opcode, 0, 0, 0, immediate, 0, 0, 0, 0, 0, 0, 0, 0, 0, 0, 0];
    let length = if opcode == 0x18 { 16 } else { 8 };
    let bytes = words.get(..length).unwrap_or(b"");
    match decode(alloc, bytes) {
        Ok(code) => OPCODES.contains(&opcode) && is_one(alloc, &code, bytes),
        Err(fault) => {
            !OPCODES.contains(&opcode)
                && fault.line().as_str() == "refused 13 place 0 UnknownOpcode"
        }
    }
}

/// Returns whether a code has one instruction, which is encoded as these bytes.
fn is_one(alloc: Global, code: &Code<Global>, bytes: &[u8]) -> bool {
    match encode(alloc, code) {
        Ok(encoded) => code.instructions().len() == 1 && encoded.as_slice() == bytes,
        Err(_) => false,
    }
}

#[test]
fn opcodes(rt: HostRuntime) {
    for opcode in 0..=u8::MAX {
        assert!(rt; is_opcode(rt.alloc(), opcode), "{opcode}");
    }
}

const WIDE: Insn = Insn::WideLoad {
    destination: WritableRegister { number: 9 },
    immediate: 1,
    next_immediate: 2,
};

/// Checks that a builder takes as many words as fit, and no more.
#[test]
fn limit(rt: HostRuntime) {
    let mut builder = CodeBuilder::new(rt.alloc());
    for _ in 1..MAX_WORDS {
        let _ = builder.push(Insn::Exit);
    }
    // One word is left, which has room for any instruction but a wide load.
    let pushed = (
        builder.words(),
        builder.push(WIDE),
        builder.push(Insn::Exit),
    );
    let further = (
        builder.words(),
        builder.push(WIDE),
        builder.push(Insn::Exit),
    );
    assert!(rt; pushed == (65_535, Err(CodeFault::TooLong), Ok(())));
    assert!(rt; further == (65_536, Err(CodeFault::TooLong), Err(CodeFault::TooLong)));
}

#[test]
fn no_instruction(rt: HostRuntime) {
    let builder = CodeBuilder::new(rt.alloc());
    let (last, frame_pointer) = (Register { number: 9 }, Register { number: 10 });
    assert!(rt; builder.destination(last).is_ok() && builder.destination(frame_pointer).is_err());
    assert!(rt; builder.finish().err() == Some(CodeFault::Empty));
}
