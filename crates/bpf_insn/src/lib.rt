//! BPF instructions in little-endian words (RFC 9669): their code, values and arithmetic.
#![tactic(auto)]

mod arithmetic;
mod code;
mod decoder;
mod encoder;
mod fault;
mod instruction;
pub mod laws;
mod memory;
mod opcode_form;
mod reading;
mod register;
mod row;
mod rows;
mod spelling;
mod value;
mod word;

pub use arithmetic::{immediate_operand, negate, wide_number};
pub use code::{Code, CodeBuilder, MAX_WORDS};
pub use decoder::decode;
pub use encoder::encode;
pub use fault::{CodeFault, WordFault};
pub use instruction::{
    ByteOrder, Condition, Insn, JumpDistance, LoadFormat, Operation, SignExtension, Source,
    StoreSize, SwapWidth, Width,
};
pub use memory::{FRAME_LENGTH, SLOT_LENGTH, SLOTS, load_length, slot_at, store_length};
pub use register::{Register, WritableRegister};
pub use value::{Area, Pointer, Value};
pub use word::Word;
