//! Memory: the number of bytes and slots of the frame, and the number of bytes that loads and stores reach.
ghost use Rattle.std.specs.Prelude.{◌≡◌, ◌≤◌};
ghost use Rattle.bpf_insn.specs.Frame.{slot_at};
ghost use Rattle.bpf_insn.specs.Memory.{load_length, store_length};

use crate::instruction::{LoadFormat, StoreSize};

// RFC 9669 leaves the size of a frame to the platform.
/// The length in bytes of the frame, the program's own memory. Register 10 starts past its end.
pub const FRAME_LENGTH: usize = 512;

/// The length of a slot of the frame, in bytes. A slot begins at an offset divisible by it, and may hold a pointer.
pub const SLOT_LENGTH: usize = 8;

/// The number of slots in the frame.
pub const SLOTS: usize = FRAME_LENGTH / SLOT_LENGTH;

/// Returns the number of bytes that a load reads (RFC 9669, sections 5.1 and 5.2).
pub fn load_length(format: LoadFormat) -> usize
    ensures value { result ≡ load_length format }
    ensures short { result ≤ 8 }
{
    match format {
        LoadFormat::Byte | LoadFormat::SignedByte => 1,
        LoadFormat::HalfWord | LoadFormat::SignedHalfWord => 2,
        LoadFormat::Word | LoadFormat::SignedWord => 4,
        LoadFormat::DoubleWord => 8,
    }
}

/// Returns the number of bytes that a store writes (RFC 9669, section 5.1).
pub fn store_length(size: StoreSize) -> usize
    ensures value { result ≡ store_length size }
    ensures short { result ≤ 8 }
{
    match size {
        StoreSize::Byte => 1,
        StoreSize::HalfWord => 2,
        StoreSize::Word => 4,
        StoreSize::DoubleWord => 8,
    }
}

/// Returns the slot of the frame that `count` bytes from an offset on make up, if they are a whole slot.
pub fn slot_at(at: usize, count: usize) -> Option<usize>
    ensures { result ≡ slot_at at count }
{
    (count == SLOT_LENGTH && at % SLOT_LENGTH == 0).then_some(at / SLOT_LENGTH)
}
