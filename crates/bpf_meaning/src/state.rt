//! States of a running program, and how effects change them.
ghost use Rattle.std.specs.Prelude.{◌≡◌, ◌≤◌};
ghost use Rattle.bpf_meaning.specs.State.{start};

use crate::cause::Cause;
use crate::effect::{Change, Effect};
use crate::frame::Frame;
use crate::outcome::Outcome;
use bpf_helpers::Helper;
use bpf_insn::{Area, FRAME_LENGTH, Pointer, Value, store_length};
use std::alloc::Allocator;
use tl_segments::Segment;

/// The number of registers.
pub const REGISTERS: usize = 11;

/// The state of a running program.
#[derive(Drop)]
pub struct State {
    /// The place of the next instruction, which counts words from 0.
    pub place: usize,
    /// Registers 0 to 10.
    pub registers: [Value; REGISTERS],
    pub frame: Frame,
    /// The score of the segment's row if the program selects the segment.
    pub score: u64,
}

impl State {
    ghost use Rattle.bpf_meaning.specs.Effect.{CanBeCalled, CanBeMade, CanBeCarriedOut, read};
    ghost use Rattle.bpf_helpers.specs.Call.{second};
    ghost use Rattle.bpf_meaning.specs.Step.{apply, called, carry_out, configuration_of, state_after, UnchangedAtEnd};

    /// Returns the state at the start of a program, which is the same on every segment: register 1 points to the record's first byte, register 10
    /// past the end of the frame, and nothing else is written. Allocates nothing.
    pub fn start() -> Self
        ensures { result ≡ start }
    {
        State {
            place: 0,
            registers: start_registers(),
            frame: Frame::unwritten(),
            score: 0,
        }
    }

    /// Returns the value in a register, or an error if it holds nothing.
    #[inline(always)]
    pub(crate) fn read(&self, register: u8) -> Result<Value, Cause>
        requires { register ≤ 10 }
        ensures { result ≡ read self.now register }
    {
        match self.registers[usize::from(register)] {
            Value::Empty => Err(Cause::ReadsNothing(register)),
            value => Ok(value),
        }
    }

    /// Applies an effect on a segment.
    #[inline(always)]
    pub(crate) fn apply<A: Allocator>(&mut self, segment: &Segment<A>, effect: Effect) -> Outcome
        requires { CanBeCarriedOut self.old effect }
        ensures next { configuration_of result self.new ≡ apply segment.now self.old effect }
        ensures ended { UnchangedAtEnd result self.old self.new }
    {
        match effect {
            Effect::Continue { change, place } => {
                self.carry_out(segment, change);
                self.place = place;
                Outcome::Running
            }
            Effect::End { answer } => Outcome::Exit {
                answer,
                score: self.score,
            },
        }
    }

    #[inline(always)]
    fn carry_out<A: Allocator>(&mut self, segment: &Segment<A>, change: Change)
        requires { CanBeMade self.old change }
        ensures { self.new ≡ carry_out segment.now self.old change }
    {
        match change {
            Change::Nothing => {}
            Change::SetRegister { register, value } => {
                self.registers[usize::from(register.number)] = value;
            }
            Change::StoreBytes { at, size, number } => {
                self.frame.store(at, store_length(size), number);
            }
            Change::StorePointer { slot, pointer } => self.frame.set_slot_pointer(slot, pointer),
            Change::CallHelper { helper, arguments } => self.call(segment, helper, arguments),
        }
    }

    /// Calls a helper function: register 0 receives its answer, and registers 1 to 5 hold nothing afterwards.
    #[inline(never)]
    fn call<A: Allocator>(&mut self, segment: &Segment<A>, helper: Helper, arguments: [u64; 3])
        requires { CanBeCalled self.old helper arguments }
        ensures { self.new ≡ state_after self.old (second arguments) (called segment.now self.old helper arguments) }
    {
        let answer = self.frame.call(helper, arguments, segment, &mut self.score);
        self.registers[0] = Value::Number(answer);
        // RFC 9669 lets a call overwrite registers 1 to 5, also one without arguments.
        self.registers[1..6].fill(Value::Empty);
    }
}

/// Returns the registers at the start of a program.
fn start_registers() -> [Value; REGISTERS]
    ensures { result ≡ start.registers }
{
    let mut registers = [Value::Empty; REGISTERS];
    registers[1] = Value::Pointer(Pointer {
        area: Area::Record,
        offset: 0,
    });
    registers[10] = Value::Pointer(Pointer {
        area: Area::Frame,
        offset: FRAME_LENGTH as i16,
    });
    registers
}
