ghost use Rattle.std.specs.Prelude.{◌≡◌, ◌<◌, ◌+◌, ◌-◌, ◌^◌, IfOk, IfSome, OnOk};
ghost use Rattle.lvish_task.specs.Run.{AsksBy, operand_value, expression_value, assigned, placed, instruction_turn, flat_turn, requested, moved, run};
ghost use Rattle.lvish_task.specs.Jumps.{HasPlaces};
ghost use Rattle.lvish_task.specs.Meaning.{chosen};

use crate::script_code::ScriptCode;
use crate::stack::Stack;
use crate::stride::choose;
use crate::turn::Ask;
use lvish_calculus::Request;
use lvish_code::{Expression, Instruction, Operand};
use std::alloc::{AllocError, Global};

impl Stack {
    /// A `let`, which fails or gives its local a value.
    ///
    /// Statements that come here from numbers that copies share are many, or change many of them.
    /// So they are made its own first.
    fn assign(
        &mut self,
        alloc: Global,
        local: usize,
        expression: &Expression,
    ) -> Result<Option<Ask>, AllocError>
        requires left { 0 < self.old.left }
        requires within { self.old.top.place + 1 < 2 ^ 64 }
        ensures asks { IfOk result (λ r. r ≡ requested (assigned self.old.top self.old.below local (expression_value self.old.top.values expression.now))) }
        ensures moves { OnOk result (self.new ≡ moved self.old (assigned self.old.top self.old.below local (expression_value self.old.top.values expression.now))) }
    {
        match self.top.values.evaluate(expression) {
            Err(kind) => Ok(Some(Request::Fault(kind))),
            Ok(value) => {
                self.top.values.own(alloc)?;
                self.top.values.set(alloc, local, value)?;
                self.top.place += 1;
                self.left -= 1;
                Ok(None)
            }
        }
    }

    /// A test, which leads to the one place where the operand isn't 0 and to the other where it is.
    pub(crate) fn test(&mut self, operand: Operand, if_not: usize, if_zero: usize)
        requires { 0 < self.old.left }
        ensures { self.new ≡ record { left = self.old.left - 1; top = placed self.old.top (chosen (operand_value self.old.top.values operand) if_not if_zero); below = self.old.below } }
    {
        self.top.place = choose(self.top.values.operand(operand), if_not, if_zero);
        self.left -= 1;
    }
}

impl ScriptCode {
    /// What an instruction does at the innermost frame's place.
    fn execute(
        &self,
        alloc: Global,
        local: &mut Stack,
        instruction: &Instruction,
    ) -> Result<Option<Ask>, AllocError>
        requires left { 0 < local.old.left }
        requires room { HasPlaces local.old.top.place instruction.now }
        ensures asks { IfOk result (λ r. r ≡ requested (instruction_turn self.now.flat local.old.top local.old.below (Some instruction.now))) }
        ensures moves { IfOk result (λ _. local.new ≡ moved local.old (instruction_turn self.now.flat local.old.top local.old.below (Some instruction.now))) }
    {
        let place = local.top.place;
        match instruction {
            Instruction::Ask(action) => {
                let mut request = Request::End;
                self.ask_for(alloc, &local.top.values, action, &mut request)?;
                Ok(Some(request))
            }
            Instruction::Let(x, expression) => local.assign(alloc, *x, expression),
            Instruction::Call(procedure, operands) => {
                self.call(alloc, local, *procedure, operands.as_slice())
            }
            Instruction::SkipIfZero(operand, n) => {
                local.test(*operand, place + 1, place + 1 + *n);
                Ok(None)
            }
            Instruction::BackUnlessZero(operand, n) => {
                local.test(*operand, place.saturating_sub(*n), place + 1);
                Ok(None)
            }
            Instruction::GoOn(_) => Ok(Some(Request::End)),
            Instruction::Return => Ok(Some(Request::End)),
        }
    }

    /// One local statement, or the request that the task makes.
    fn turn(&self, alloc: Global, local: &mut Stack) -> Result<Option<Ask>, AllocError>
        requires left { 0 < local.old.left }
        ensures asks { IfOk result (λ r. r ≡ requested (flat_turn self.now.flat local.old)) }
        ensures moves { IfOk result (λ _. local.new ≡ moved local.old (flat_turn self.now.flat local.old)) }
    {
        match local.top.events.first() {
            Some(event) => self.call_on_event(alloc, local, event),
            None => match self.instruction(&local.top) {
                Some(instruction) => self.execute(alloc, local, instruction),
                None => Ok(Some(Request::End)),
            },
        }
    }

    /// The instruction by which a task asks right where it stands: an action, or its end. `None`
    /// where it may be at neither.
    #[inline(always)]
    pub(crate) fn here(&self, local: &Stack) -> Option<&Instruction>
        ensures { IfSome result (λ i. AsksBy self.now.flat local.now i.now) }
    {
        if local.left == 0 || !local.top.events.is_empty() {
            return None;
        }
        let instruction = self.instruction(&local.top)?;
        match instruction {
            Instruction::Ask(_) => Some(instruction),
            Instruction::Return if local.below.is_empty() => Some(instruction),
            _ => None,
        }
    }

    /// Runs local statements up to the next request, for as many as are left.
    ///
    /// The first is one that a stride doesn't take, or leaves.
    #[inline(never)]
    pub(crate) fn run(&self, alloc: Global, local: &mut Stack) -> Result<Ask, AllocError>
        ensures request { IfOk result (λ r. r ≡ (run self.now.flat local.old.left local.old.top local.old.below).request) }
        ensures at { IfOk result (λ _. local.new ≡ (run self.now.flat local.old.left local.old.top local.old.below).at) }
    {
        self.settle(alloc, local)?;
        while local.left > 0 {
            if let Some(request) = self.turn(alloc, local)? {
                return Ok(request);
            }
            self.stride(local);
            self.settle(alloc, local)?;
        }
        Ok(Request::Pause)
    }
}
