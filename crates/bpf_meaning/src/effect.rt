//! The effects of instructions whose checks have passed, as plain data.

use bpf_helpers::Helper;
use bpf_insn::{Pointer, StoreSize, Value, WritableRegister};

/// The effect of an instruction on a state.
#[derive(Clone, Copy, PartialEq, Eq)]
pub enum Effect {
    /// The program continues at a place, with a change.
    Continue { change: Change, place: usize },
    /// The program ends with an answer.
    End { answer: u64 },
}

/// What an instruction changes in a state besides its place.
#[derive(Clone, Copy, PartialEq, Eq)]
pub enum Change {
    Nothing,
    /// A register is set to a value.
    SetRegister {
        register: WritableRegister,
        value: Value,
    },
    /// The low bytes of a number are stored in the frame, from an offset on.
    StoreBytes {
        at: usize,
        size: StoreSize,
        number: u64,
    },
    /// A pointer is stored in a slot of the frame, and takes all of its bytes.
    StorePointer {
        slot: usize,
        pointer: Pointer,
    },
    /// A helper function is called with words. A pointer into the frame is passed as its offset.
    CallHelper {
        helper: Helper,
        arguments: [u64; 3],
    },
}
