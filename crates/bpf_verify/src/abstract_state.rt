//! The abstract state of the registers and the frame before an instruction.
ghost use Rattle.std.specs.Prelude.{◌≡◌, ◌≤◌, ◌<◌, ◌≤ℤ◌, ◌+ℤ◌, pos, unsigned_abs, IsTrue, IfOk};
ghost use Rattle.bpf_insn.specs.declared.memory.TheConstants.{FRAME_LENGTH, SLOTS};
ghost use Rattle.bpf_frame.specs.FrameMap.{set_slot};
ghost use Rattle.bpf_kinds.specs.Interval as interval;
ghost use Rattle.bpf_kinds.specs.Offsets as pointer_offsets;
ghost use Rattle.bpf_kinds.specs.Kind as kinds;
ghost use Rattle.bpf_verify.specs.LiftedState.{IsProperState, entry, join_states, unknown, with_kind};
ghost use Rattle.bpf_verify.specs.Transfer.{all_marked, lie_within, mark_bytes, read, state_after, touch_bytes, write_bytes};

use bpf_frame::FrameMap;
use bpf_insn::FRAME_LENGTH;
use bpf_kinds::{Interval, Kind, Offsets, Order};
use bpf_meaning::{Cause, REGISTERS};

/// What is known before an instruction that is reached, whatever the segment. It is updated in place along straight-line code, and copied only
/// where two edges leave an instruction.
#[derive(Drop)]
pub struct AbstractState {
    /// Registers 0 to 10.
    pub registers: [Kind; REGISTERS],
    /// The bytes of the frame that are written, and the kinds in its slots.
    pub frame: FrameMap,
}

/// Returns the index of the frame's byte at a pointer's offset plus another offset.
fn byte_at(pointer: i16, offset: i16) -> usize
    requires { pos 0 ≤ℤ (pointer +ℤ offset) }
    ensures { result ≡ unsigned_abs (pointer +ℤ offset) }
{
    (i32::from(pointer) + i32::from(offset)) as usize
}

impl AbstractState {
    /// Returns the state at the start: register 1 points to the record's first byte, register 10 past the end of the frame.
    pub(crate) fn entry() -> Self
        ensures value { result ≡ entry }
        ensures proper { IsProperState result }
    {
        let (first, end) = (0, FRAME_LENGTH as i16);
        let mut registers = [Kind::Nothing; REGISTERS];
        registers[1] = Kind::Record(Offsets {
            low: first,
            high: first,
        });
        registers[10] = Kind::Frame(Offsets {
            low: end,
            high: end,
        });
        AbstractState {
            registers,
            frame: FrameMap::unwritten(),
        }
    }

    /// Returns the state in which nothing is known of any register or of any byte of the frame.
    pub fn unknown() -> Self
        ensures value { result ≡ unknown }
        ensures proper { IsProperState result }
    {
        AbstractState {
            registers: [Kind::Nothing; REGISTERS],
            frame: FrameMap::unwritten(),
        }
    }

    /// Returns a copy.
    pub fn duplicate(&self) -> Self
        ensures { result ≡ self.now }
    {
        AbstractState {
            registers: self.registers,
            frame: self.frame.duplicate(),
        }
    }

    /// Returns the kind of a register, or an error if the register holds nothing.
    pub(crate) fn read(&self, register: u8) -> Result<Kind, Cause>
        requires in_range { register ≤ 10 }
        requires proper { IsProperState self.now }
        ensures value { result ≡ read self.now register }
        ensures proper { IfOk result kinds.IsProper }
    {
        match self.registers[usize::from(register)] {
            Kind::Nothing => Err(Cause::ReadsNothing(register)),
            kind => Ok(kind),
        }
    }

    /// Sets a register's kind.
    pub(crate) fn set(&mut self, register: u8, kind: Kind)
        requires in_range { register ≤ 10 }
        requires proper { IsProperState self.old }
        requires kind { kinds.IsProper kind }
        ensures value { self.new ≡ with_kind self.old register kind }
        ensures proper { IsProperState self.new }
    {
        self.registers[usize::from(register)] = kind;
    }

    /// Records a write of at least `least` and at most `most` bytes to the frame, starting at one of `offsets` plus `offset`.
    pub(crate) fn write_bytes(&mut self, offsets: Offsets, offset: i16, least: usize, most: usize)
        requires proper { IsProperState self.old }
        requires offsets { pointer_offsets.IsProper offsets }
        requires counts { least ≤ most }
        requires within { IsTrue (lie_within offsets offset most FRAME_LENGTH) }
        ensures value { self.new ≡ write_bytes self.old offsets offset least most }
        ensures proper { IsProperState self.new }
    {
        self.touch_bytes(offsets, offset, most);
        self.mark_bytes(offsets, offset, least);
    }

    /// Forgets the kinds of all slots that a write of `count` bytes may touch, starting at one of `offsets` plus `offset`.
    fn touch_bytes(&mut self, offsets: Offsets, offset: i16, count: usize)
        requires proper { IsProperState self.old }
        requires offsets { pointer_offsets.IsProper offsets }
        requires within { IsTrue (lie_within offsets offset count FRAME_LENGTH) }
        ensures value { self.new ≡ touch_bytes self.old offsets offset count }
        ensures proper { IsProperState self.new }
    {
        if count > 0 {
            let last = byte_at(offsets.high, offset) + count - 1;
            self.frame.touch(byte_at(offsets.low, offset), last);
        }
    }

    /// Marks `count` bytes of the frame as written, starting at `offsets` plus `offset`. Marks nothing unless `offsets` is a single offset, because
    /// it isn't known which bytes were written then.
    fn mark_bytes(&mut self, offsets: Offsets, offset: i16, count: usize)
        requires proper { IsProperState self.old }
        requires within { IsTrue (lie_within offsets offset count FRAME_LENGTH) }
        ensures value { self.new ≡ mark_bytes self.old offsets offset count }
        ensures proper { IsProperState self.new }
    {
        if offsets.low == offsets.high {
            self.frame.mark(byte_at(offsets.low, offset), count);
        }
    }

    /// Sets the kind of a slot of the frame.
    pub(crate) fn store_kind(&mut self, slot: usize, kind: Kind)
        requires slot { slot < SLOTS }
        requires proper { IsProperState self.old }
        requires kind { kinds.IsProper kind }
        ensures value { self.new ≡ record self.old { frame = set_slot self.old.frame slot kind } }
        ensures proper { IsProperState self.new }
    {
        self.frame.set_slot(slot, kind);
    }

    /// Returns whether every byte of the frame that may be read is written, if at most `count` bytes are read, starting at one of `offsets` plus
    /// `offset`.
    pub(crate) fn all_marked(&self, offsets: Offsets, offset: i16, count: usize) -> bool
        requires proper { IsProperState self.now }
        requires offsets { pointer_offsets.IsProper offsets }
        requires within { IsTrue (lie_within offsets offset count FRAME_LENGTH) }
        ensures { result ≡ all_marked self.now offsets offset count }
    {
        if count == 0 {
            return true;
        }
        let last = byte_at(offsets.high, offset) + count - 1;
        self.frame.all_written(byte_at(offsets.low, offset), last)
    }

    /// Updates the state for a call: register 0 holds an answer in the interval, registers 1 to 5 hold nothing.
    pub(crate) fn clobber_for_call(&mut self, answer: Interval)
        requires proper { IsProperState self.old }
        requires answer { interval.IsProper answer }
        ensures value { self.new ≡ state_after answer self.old }
        ensures proper { IsProperState self.new }
    {
        self.registers[0] = Kind::Number(answer);
        // As in the meaning: a call may overwrite them.
        self.registers[1..6].fill(Kind::Nothing);
    }

    /// Joins another state into this one, which keeps what is known in both.
    pub(crate) fn join_with(&mut self, other: &AbstractState)
        requires proper { IsProperState self.old }
        requires other { IsProperState other.now }
        ensures value { self.new ≡ join_states self.old other.now }
        ensures proper { IsProperState self.new }
    {
        for register in 0..REGISTERS {
            self.registers[register] = self.registers[register].join(&other.registers[register]);
        }
        self.frame.join_with(&other.frame);
    }
}
