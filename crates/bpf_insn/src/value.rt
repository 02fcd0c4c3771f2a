//! The contents of registers.
/// The area of memory that a pointer points into.
#[derive(Clone, Copy, PartialEq, Eq)]
pub enum Area {
    /// The record that the program reads. It's read-only.
    Record,
    /// The program's own bytes, its stack.
    Frame,
}

/// A position in an area. The offset counts bytes from the area's first one, and may lie outside the area.
#[derive(Clone, Copy, PartialEq, Eq)]
pub struct Pointer {
    pub area: Area,
    pub offset: i16,
}

/// The contents of a register.
#[derive(Clone, Copy, PartialEq, Eq)]
pub enum Value {
    /// Nothing has been written yet.
    Empty,
    /// A number of 64 bits. Signed numbers are in two's complement.
    Number(u64),
    /// A position in memory. It has no number that a program could observe.
    Pointer(Pointer),
}
