//! The reasons why a program is stuck.
ghost use Rattle.std.specs.Prelude.{◌≡◌};
ghost use Rattle.bpf_meaning.specs.Cause as cause;

use refusals::Refusal;

/// The reason why a program is stuck. A register is given by its number.
#[derive(Clone, Copy, Debug, PartialEq, Eq)]
pub enum Cause {
    /// Control leaves the program.
    OutOfProgram,
    /// The program goes on at the second word of a wide load.
    IntoWide,
    /// A register that holds nothing is read.
    ReadsNothing(u8),
    /// A pointer is used in arithmetic other than moving it by a near number.
    PointerArithmetic,
    /// A pointer's offset leaves the range from -32768 to 32767.
    LeavesArea,
    /// The base of a load or a store is a number.
    NotPointer,
    /// A load or a store goes outside the record or the frame.
    OutOfBounds,
    /// A load reads a byte of the frame that wasn't written.
    UnwrittenFrame,
    /// A store goes to the record.
    WritesRecord,
    /// A pointer is stored.
    StoresPointer,
    /// A pointer is compared.
    ComparesPointer,
    /// A helper function is called that isn't known.
    UnknownHelper,
    /// The argument with this number, counted from 1, isn't what the helper function requires.
    BadArgument(u8),
    /// The answer is a pointer.
    ExitNotNumber,
}

impl Cause {
    /// Returns the cause as a refusal, without the place where the program is stuck.
    pub fn refusal(self) -> Refusal
        ensures { result ≡ cause.refusal self }
    {
        match self {
            Cause::OutOfProgram => Refusal::refused(31, "OutOfProgram"),
            Cause::IntoWide => Refusal::refused(32, "IntoWide"),
            Cause::ReadsNothing(register) => Refusal::detailed(40, "ReadsNothing", Some(register)),
            Cause::PointerArithmetic => Refusal::refused(41, "PointerArithmetic"),
            Cause::LeavesArea => Refusal::refused(42, "LeavesArea"),
            Cause::NotPointer => Refusal::refused(43, "NotPointer"),
            Cause::OutOfBounds => Refusal::refused(44, "OutOfBounds"),
            Cause::UnwrittenFrame => Refusal::refused(45, "UnwrittenFrame"),
            Cause::WritesRecord => Refusal::refused(46, "WritesRecord"),
            Cause::StoresPointer => Refusal::refused(47, "StoresPointer"),
            Cause::ComparesPointer => Refusal::refused(48, "ComparesPointer"),
            Cause::UnknownHelper => Refusal::refused(49, "UnknownHelper"),
            Cause::BadArgument(argument) => Refusal::detailed(50, "BadArgument", Some(argument)),
            Cause::ExitNotNumber => Refusal::refused(51, "ExitNotNumber"),
        }
    }
}
