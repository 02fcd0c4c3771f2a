//! BPF instructions (RFC 9669) in flat form: one variant for each operation with its width and its source, so that a machine dispatches with a
//! single jump.
#![tactic(auto)]

mod flat;
mod forms;
mod operands;
mod table;

pub use flat::FlatInsn;
pub use forms::flat_forms;
pub use operands::{
    JumpWithImmediate, JumpWithRegister, LoadOperands, StoreImmediateOperands,
    StoreRegisterOperands, WithImmediate, WithRegister,
};
