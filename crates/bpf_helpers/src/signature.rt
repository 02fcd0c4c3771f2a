//! The signatures of helper functions: their arguments, their answers, and what they read and change.
ghost use Rattle.std.specs.Prelude.{◌≡◌};
ghost use Rattle.bpf_helpers.specs.Group.{frame_use, reads_record_alone};

use bpf_kinds::Interval;

/// A row of the table of prototypes.
#[derive(Clone, Copy, PartialEq, Eq)]
pub struct Signature {
    /// The number that a program calls it by.
    pub number: u32,
    /// What registers 1 to 3 must hold.
    pub arguments: [Argument; 3],
    /// What a call reads and changes.
    pub group: Group,
    /// The numbers that register 0 may hold after the call.
    pub answer: Interval,
}

/// The requirement on an argument.
#[derive(Clone, Copy, PartialEq, Eq)]
pub enum Argument {
    /// Anything: the helper ignores it.
    Unused,
    /// A number of the interval.
    Number(Interval),
    /// A pointer into the frame.
    Frame,
}

// Proofs go by group, so that a new helper function needs nothing there except its bounds.
/// What the calls of a group read besides their arguments, and change besides their answers.
#[derive(Clone, Copy, PartialEq, Eq)]
pub enum Group {
    /// Returns a number read from the segment's type 1 record.
    ReadsRecord,
    /// Returns a number read from the segment.
    ReadsSegment,
    /// Compares bytes of the frame with a part of the segment.
    ComparesFrame,
    /// Copies a part of the segment into the frame.
    CopiesIntoFrame,
    /// Sets the score.
    SetsScore,
}

impl Group {
    /// Returns how a call uses the frame.
    pub fn frame_use(self) -> FrameUse
        ensures { result ≡ frame_use self }
    {
        match self {
            Group::ReadsRecord | Group::ReadsSegment | Group::SetsScore => FrameUse::Nothing,
            Group::ComparesFrame => FrameUse::Reads,
            Group::CopiesIntoFrame => FrameUse::Writes,
        }
    }

    /// Returns whether a call reads nothing of the segment except its type 1 record.
    pub fn reads_record_alone(self) -> bool
        ensures { result ≡ reads_record_alone self }
    {
        match self {
            Group::ReadsRecord | Group::SetsScore => true,
            Group::ReadsSegment | Group::ComparesFrame | Group::CopiesIntoFrame => false,
        }
    }
}

/// How a call uses the frame's bytes. Its second argument points to the first of them, and its third is their number.
#[derive(Clone, Copy, PartialEq, Eq)]
pub enum FrameUse {
    Nothing,
    Writes,
    Reads,
}
