ghost use Rattle.std.specs.Prelude.{◌≡◌, ◌<◌, IfSome, OnOk, slice_get};
ghost use Rattle.std.specs.Option.{option_copied};
ghost use Rattle.lvish_task.specs.Run.{landing, landed, settled, routine, instructions_in, instruction, is_end, is_frame_over, jump_in};
ghost use Rattle.lvish_task.specs.Jumps.{JumpsStay, AllLand, HasPlaces};

use crate::frame::Frame;
use crate::script_code::ScriptCode;
use crate::stack::Stack;
use crate::stride::next;
use lvish_code::{Instruction, Routine};
use std::alloc::{AllocError, Global};

/// The instruction at a place.
#[inline(always)]
pub fn at(instructions: &[Instruction], place: usize) -> Option<&Instruction>
    ensures { option_copied result ≡ slice_get instructions.now place }
{
    instructions.get(place)
}

/// How many instructions a jump passes, `None` where none stands at the place.
fn jump(instructions: &[Instruction], place: usize) -> Option<usize>
    ensures { result ≡ jump_in (slice_get instructions.now place) }
{
    match at(instructions, place) {
        Some(Instruction::GoOn(n)) => Some(*n),
        _ => None,
    }
}

/// Whether no instruction follows from a place on.
fn ends_at(instructions: &[Instruction], place: usize) -> bool
    ensures { result ≡ is_end (slice_get instructions.now place) }
{
    match at(instructions, place) {
        None | Some(Instruction::Return) => true,
        Some(_) => false,
    }
}

/// The place past the jumps that stand at a place.
fn landing(instructions: &[Instruction], place: usize) -> usize
    requires { JumpsStay instructions.now }
    ensures { result ≡ landing instructions.now place }
{
    let mut at = place;
    while let Some(n) = jump(instructions, at) {
        at += 1 + n;
    }
    at
}

impl ScriptCode {
    pub(crate) fn routine(&self, procedure: usize) -> Option<&Routine>
        ensures { option_copied result ≡ routine self.now.flat procedure }
    {
        self.flat.routines().get(procedure)
    }

    pub(crate) fn instructions(&self, procedure: usize) -> &[Instruction]
        ensures value { result.now ≡ instructions_in (routine self.now.flat procedure) }
        ensures stay { JumpsStay result.now }
        ensures land { AllLand result.now }
    {
        match self.routine(procedure) {
            Some(routine) => routine.instructions.as_slice(),
            None => &[],
        }
    }

    /// The instruction at the frame's place.
    pub(crate) fn instruction(&self, frame: &Frame) -> Option<&Instruction>
        ensures value { option_copied result ≡ instruction self.now.flat frame.now }
        ensures room { IfSome result (λ i. HasPlaces frame.now.place i.now) }
    {
        next(self.instructions(frame.procedure), frame.place)
    }

    /// Moves past the jumps at the frame's place, and answers whether nothing follows there.
    fn lands_at_its_end(&self, frame: &mut Frame) -> bool
        ensures lands { frame.new ≡ landed self.now.flat frame.old }
        ensures ends { result ≡ is_frame_over self.now.flat frame.new }
    {
        let instructions = self.instructions(frame.procedure);
        frame.place = landing(instructions, frame.place);
        frame.events.is_empty() && ends_at(instructions, frame.place)
    }

    /// Leaves each frame in which nothing follows, except the first, and moves past jumps.
    #[inline(never)]
    pub(crate) fn settle(&self, alloc: Global, local: &mut Stack) -> Result<(), AllocError>
        ensures { OnOk result (local.new ≡ settled self.now.flat local.old) }
    {
        while self.lands_at_its_end(&mut local.top) {
            match local.below.pop(alloc)? {
                None => return Ok(()),
                Some(frame) => local.top = frame,
            }
        }
        Ok(())
    }
}
