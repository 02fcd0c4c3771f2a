//! Registers, by their numbers.
ghost use Rattle.std.specs.Prelude.{◌≤◌};

/// A register that an instruction may read, by its number from 0 to 10 (RFC 9669, section 3.1).
#[derive(Clone, Copy, Debug, PartialEq, Eq)]
pub struct Register {
    pub number: u8,
    ghost in_range: { number ≤ 10 },
}

// A type of its own, so an instruction that writes register 10 can't be built.
/// A register that an instruction may write, by its number from 0 to 9. Register 10 is the frame pointer, which is read-only.
#[derive(Clone, Copy, Debug, PartialEq, Eq)]
pub struct WritableRegister {
    pub number: u8,
    ghost in_range: { number ≤ 9 },
}
