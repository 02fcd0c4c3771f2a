//! The rows of the instruction table, from which every list of instructions and every match over their operations is generated.
//!
//! Opcodes, mnemonics, flat forms and the machine's dispatch have to agree on every instruction, so they are generated from one table: a new
//! operation, condition, byte order, load or store is a row here and a variant of its enum. The enums are written by hand, since a macro of the
//! toolchain writes no type; the definitions are, too, since they say what a row must be.

/// Passes the given tokens and the rows of the instruction table to a macro, which generates a list or a match from them. A row has what
/// distinguishes its instructions from others of their kind, their mnemonics (of `bpf_assembler`), and their flat forms (of `bpf_flat_insn`).
#[macro_export]
macro_rules! instruction_rows {
    ($generate:ident!($($given:tt)*)) => {
        $generate! {
            ($($given)*)
            // The mnemonics on 64 bits and on 32; the flat forms with an immediate and with a register, on 32 bits and then on 64. A signed operation
            // comes after the unsigned one that has its code.
            alu {
                Add: "add" "add32" Add32Immediate Add32Register Add64Immediate Add64Register;
                Subtract: "sub" "sub32" Subtract32Immediate Subtract32Register Subtract64Immediate Subtract64Register;
                Multiply: "mul" "mul32" Multiply32Immediate Multiply32Register Multiply64Immediate Multiply64Register;
                Divide: "div" "div32" Divide32Immediate Divide32Register Divide64Immediate Divide64Register;
                SignedDivide: "sdiv" "sdiv32" SignedDivide32Immediate SignedDivide32Register SignedDivide64Immediate SignedDivide64Register;
                Or: "or" "or32" Or32Immediate Or32Register Or64Immediate Or64Register;
                And: "and" "and32" And32Immediate And32Register And64Immediate And64Register;
                ShiftLeft: "lsh" "lsh32" ShiftLeft32Immediate ShiftLeft32Register ShiftLeft64Immediate ShiftLeft64Register;
                ShiftRight: "rsh" "rsh32" ShiftRight32Immediate ShiftRight32Register ShiftRight64Immediate ShiftRight64Register;
                Modulo: "mod" "mod32" Modulo32Immediate Modulo32Register Modulo64Immediate Modulo64Register;
                SignedModulo: "smod" "smod32" SignedModulo32Immediate SignedModulo32Register SignedModulo64Immediate SignedModulo64Register;
                ExclusiveOr: "xor" "xor32" ExclusiveOr32Immediate ExclusiveOr32Register ExclusiveOr64Immediate ExclusiveOr64Register;
                Move: "mov" "mov32" Move32Immediate Move32Register Move64Immediate Move64Register;
                ArithmeticShiftRight: "arsh" "arsh32"
                    ArithmeticShiftRight32Immediate ArithmeticShiftRight32Register ArithmeticShiftRight64Immediate ArithmeticShiftRight64Register;
            }
            extend {
                Bits8To32: "movsx8_32" Extend8To32;
                Bits16To32: "movsx16_32" Extend16To32;
                Bits8To64: "movsx8" Extend8To64;
                Bits16To64: "movsx16" Extend16To64;
                Bits32To64: "movsx32" Extend32To64;
            }
            negate {
                Bits32: "neg32" Negate32;
                Bits64: "neg" Negate64;
            }
            // On 16, 32 and 64 bits.
            swap {
                LittleEndian: "le16" "le32" "le64" LittleEndian16 LittleEndian32 LittleEndian64;
                BigEndian: "be16" "be32" "be64" BigEndian16 BigEndian32 BigEndian64;
                Swapped: "swap16" "swap32" "swap64" Swapped16 Swapped32 Swapped64;
            }
            // In the order of the ALU rows.
            jump {
                Equal: "jeq" "jeq32" JumpIfEqual32Immediate JumpIfEqual32Register JumpIfEqual64Immediate JumpIfEqual64Register;
                Greater: "jgt" "jgt32" JumpIfGreater32Immediate JumpIfGreater32Register JumpIfGreater64Immediate JumpIfGreater64Register;
                GreaterOrEqual: "jge" "jge32"
                    JumpIfGreaterOrEqual32Immediate JumpIfGreaterOrEqual32Register JumpIfGreaterOrEqual64Immediate JumpIfGreaterOrEqual64Register;
                SharesBit: "jset" "jset32"
                    JumpIfSharesBit32Immediate JumpIfSharesBit32Register JumpIfSharesBit64Immediate JumpIfSharesBit64Register;
                NotEqual: "jne" "jne32"
                    JumpIfNotEqual32Immediate JumpIfNotEqual32Register JumpIfNotEqual64Immediate JumpIfNotEqual64Register;
                SignedGreater: "jsgt" "jsgt32"
                    JumpIfSignedGreater32Immediate JumpIfSignedGreater32Register JumpIfSignedGreater64Immediate JumpIfSignedGreater64Register;
                SignedGreaterOrEqual: "jsge" "jsge32"
                    JumpIfSignedGreaterOrEqual32Immediate JumpIfSignedGreaterOrEqual32Register
                    JumpIfSignedGreaterOrEqual64Immediate JumpIfSignedGreaterOrEqual64Register;
                Less: "jlt" "jlt32" JumpIfLess32Immediate JumpIfLess32Register JumpIfLess64Immediate JumpIfLess64Register;
                LessOrEqual: "jle" "jle32"
                    JumpIfLessOrEqual32Immediate JumpIfLessOrEqual32Register JumpIfLessOrEqual64Immediate JumpIfLessOrEqual64Register;
                SignedLess: "jslt" "jslt32"
                    JumpIfSignedLess32Immediate JumpIfSignedLess32Register JumpIfSignedLess64Immediate JumpIfSignedLess64Register;
                SignedLessOrEqual: "jsle" "jsle32"
                    JumpIfSignedLessOrEqual32Immediate JumpIfSignedLessOrEqual32Register JumpIfSignedLessOrEqual64Immediate JumpIfSignedLessOrEqual64Register;
            }
            // The mnemonic; the flat forms that load from the record and from the frame.
            load {
                Byte: "ldxb" LoadFromRecordByte LoadFromFrameByte;
                HalfWord: "ldxh" LoadFromRecordHalfWord LoadFromFrameHalfWord;
                Word: "ldxw" LoadFromRecordWord LoadFromFrameWord;
                DoubleWord: "ldxdw" LoadFromRecordDoubleWord LoadFromFrameDoubleWord;
                SignedByte: "ldxsb" LoadFromRecordSignedByte LoadFromFrameSignedByte;
                SignedHalfWord: "ldxsh" LoadFromRecordSignedHalfWord LoadFromFrameSignedHalfWord;
                SignedWord: "ldxsw" LoadFromRecordSignedWord LoadFromFrameSignedWord;
            }
            // Of an immediate and of a register.
            store {
                Byte: "stb" "stxb" StoreByteImmediate StoreByteRegister;
                HalfWord: "sth" "stxh" StoreHalfWordImmediate StoreHalfWordRegister;
                Word: "stw" "stxw" StoreWordImmediate StoreWordRegister;
                DoubleWord: "stdw" "stxdw" StoreDoubleWordImmediate StoreDoubleWordRegister;
            }
            // Instructions of a form of their own.
            single {
                ShortJump: "ja";
                LongJump: "ja32";
                Call: "call";
                Exit: "exit";
                WideLoad: "lddw";
            }
        }
    };
}
