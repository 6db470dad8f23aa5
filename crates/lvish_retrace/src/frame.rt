//! Where a procedure of a task is.

use crate::procedure::ToldProcedure;
use crate::standing::{Call, Standing};
use crate::values::{expression_of, value_of, values_of};
use lvish_code::{Code, Instruction, Operand};
use lvish_compound::Event;
use std::alloc::{AllocError, Global};

/// A procedure that runs: its next instruction and the values of its locals. Behind a `freeze` with
/// `each`: the variable, the procedure that is called, and the events on which it isn't called yet, the
/// next one last. And the event on which an `each` called this one.
pub struct ToldFrame {
    pub procedure: usize,
    pub place: usize,
    pub values: Vec<i64>,
    pub variable: usize,
    pub each: usize,
    pub events: Vec<Event>,
    pub on: Option<(usize, Event)>,
}

// Written out, so that it is proved once, and not at each exit of a function that owns one.
impl Drop for ToldFrame {
    fn drop(self) {
        let ToldFrame {
            procedure: _,
            place: _,
            values: _,
            variable: _,
            each: _,
            events: _,
            on: _,
        } = self;
    }
}

/// The instructions of a procedure.
fn instructions_of(code: &Code, procedure: usize) -> &[Instruction] {
    match code.routines().get(procedure) {
        Some(routine) => routine.instructions.as_slice(),
        None => &[],
    }
}

/// The place where the jumps that aren't counted lead from this one.
fn landing(instructions: &[Instruction], place: usize) -> usize {
    let mut place = place;
    for _ in 0..instructions.len() {
        match instructions.get(place) {
            Some(Instruction::GoOn(passed)) => place = place
                .saturating_add(*passed)
                .saturating_add(1),
            _ => return place,
        }
    }
    place
}

impl ToldFrame {
    /// A procedure at its first instruction.
    pub fn begun(
        alloc: Global,
        code: &Code,
        procedure: usize,
        arguments: Vec<i64>,
        on: Option<(usize, Event)>,
    ) -> Result<ToldFrame, AllocError> {
        let mut values = arguments;
        if let Some(routine) = code.routines().get(procedure) {
            values.resize(routine.locals, 0)?;
        }
        Ok(ToldFrame {
            procedure,
            place: 0,
            values,
            variable: 0,
            each: 0,
            events: Vec::new(alloc),
            on,
        })
    }

    /// The instruction at its place.
    pub fn instruction<'c>(&self, code: &'c Code) -> Option<&'c Instruction> {
        instructions_of(code, self.procedure).get(self.place)
    }

    /// Past the jumps that aren't counted.
    pub fn land(&mut self, code: &Code) {
        self.place = landing(instructions_of(code, self.procedure), self.place);
    }

    /// Whether nothing follows in it.
    pub fn is_over(&self, code: &Code) -> bool {
        self.events.is_empty() && matches!(self.instruction(code), None | Some(Instruction::Return))
    }

    /// To the next instruction.
    pub fn next(&mut self) {
        self.place = self.place.saturating_add(1);
    }

    /// Gives a local a value.
    pub fn set(&mut self, local: usize, value: i64) {
        if let Some(held) = self.values.get_mut(local) {
            *held = value;
        }
    }

    /// A counted test: to the one place where the operand isn't 0, else to the other.
    fn test(&mut self, operand: Operand, if_not: usize, if_zero: usize) {
        self.place = if value_of(self.values.as_slice(), operand) == 0 {
            if_zero
        } else {
            if_not
        };
    }

    /// Whether a call comes next.
    pub fn is_at_call(&self, code: &Code) -> bool {
        !self.events.is_empty() || matches!(self.instruction(code), Some(Instruction::Call(_, _)))
    }

    /// A local statement within the frame, or the frame that a call goes into.
    pub fn turn(&mut self, alloc: Global, code: &Code) -> Result<Option<ToldFrame>, AllocError> {
        if let Some(event) = self.events.pop() {
            return self.call_on(alloc, code, event);
        }
        let place = self.place;
        match self.instruction(code) {
            Some(Instruction::Let(local, expression)) => {
                // (where there is no value, the task's computation goes wrong, and it stays here)
                if let Some(value) = expression_of(self.values.as_slice(), expression) {
                    self.set(*local, value);
                    self.next();
                }
                Ok(None)
            }
            Some(Instruction::Call(procedure, operands)) => {
                self.next();
                let arguments = values_of(alloc, self.values.as_slice(), operands.as_slice())?;
                Ok(Some(ToldFrame::begun(alloc, code, *procedure, arguments, None)?))
            }
            Some(Instruction::SkipIfZero(operand, passed)) => {
                let next = place.saturating_add(1);
                self.test(*operand, next, next.saturating_add(*passed));
                Ok(None)
            }
            Some(Instruction::BackUnlessZero(operand, passed)) => {
                self.test(
                    *operand,
                    place.saturating_sub(*passed),
                    place.saturating_add(1),
                );
                Ok(None)
            }
            Some(Instruction::Ask(_) | Instruction::GoOn(_) | Instruction::Return) | None => Ok(
                None,
            ),
        }
    }

    /// The frame in which an `each` calls its procedure on the event.
    fn call_on(
        &self,
        alloc: Global,
        code: &Code,
        event: Event,
    ) -> Result<Option<ToldFrame>, AllocError> {
        let mut arguments = Vec::new(alloc);
        arguments.push(event.key)?;
        arguments.push(event.number)?;
        let on = Some((self.variable, event));
        Ok(Some(ToldFrame::begun(alloc, code, self.each, arguments, on)?))
    }

    /// The line in which it stands: that of its next instruction, or behind a call of the call.
    fn line(&self, procedures: &[ToldProcedure<'_>], is_in_a_call: bool) -> usize {
        let Some(procedure) = procedures.get(self.procedure) else {
            return 0;
        };
        let place = if is_in_a_call || !self.events.is_empty() {
            self.place.saturating_sub(1)
        } else {
            self.place
        };
        match procedure.lines.get(place) {
            Some(line) => *line,
            None => 0,
        }
    }
}

/// Where a task with these frames, the outermost first, stands.
pub fn standing_in(
    alloc: Global,
    procedures: &[ToldProcedure<'_>],
    frames: &[ToldFrame],
) -> Result<Standing, AllocError> {
    let mut standing = Standing {
        line: 0,
        procedure: 0,
        values: Vec::new(alloc),
        calls: Vec::new(alloc),
    };
    let [callers @ .., top] = frames else {
        return Ok(standing);
    };
    for depth in 0..callers.len() {
        let caller = &callers[depth];
        standing.calls.push(Call {
            procedure: caller.procedure,
            line: caller.line(procedures, true),
            each: match frames.get(depth + 1) {
                Some(called) => called.on,
                None => None,
            },
        })?;
    }
    standing.line = top.line(procedures, false);
    standing.procedure = top.procedure;
    standing.values.extend_from_slice(top.values.as_slice())?;
    Ok(standing)
}

/// The line in which the innermost of these frames stands.
pub fn line_in(procedures: &[ToldProcedure<'_>], frames: &[ToldFrame]) -> usize {
    match frames.last() {
        Some(top) => top.line(procedures, false),
        None => 0,
    }
}
