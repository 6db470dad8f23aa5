//! Local statements of one frame, one after the other.
//!
//! What they change is the frame's values, its place and how many statements are left; so the loop
//! has these alone in its hands, in registers.

ghost use Rattle.std.specs.Prelude.{◌≡◌, ◌<◌, ◌≤◌, ◌+◌, ◌^◌, None, Some, slice_get, true, IfSome, MatchOption};
ghost use Rattle.std.specs.Option.{option_copied};
ghost use Rattle.lvish_task.specs.Jumps.{AllLand, HasPlaces};
ghost use Rattle.lvish_task.specs.Run.{expression_value, operand_value, run};
ghost use Rattle.lvish_task.specs.Meaning.{chosen};
ghost use Rattle.lvish_task.specs.Stride.{KeepsAsking, is_test, jump_taken, let_taken, taken};

use crate::evaluate::{evaluate, value_of};
use crate::in_place::give;
use crate::run::at;
use crate::script_code::ScriptCode;
use crate::stack::Stack;
use lvish_code::{Expression, Instruction, Operand};

/// How far a frame has come: how many local statements are left before a pause, and its place.
#[derive(Clone, Copy)]
pub struct Progress {
    pub left: usize,
    pub place: usize,
}

/// The instruction at a place, among those that lead to one another.
#[inline(always)]
pub fn next(instructions: &[Instruction], place: usize) -> Option<&Instruction>
    requires { AllLand instructions.now }
    ensures value { option_copied result ≡ slice_get instructions.now place }
    ensures room { IfSome result (λ i. HasPlaces place i.now) }
{
    at(instructions, place)
}

/// The one place where the value isn't 0, and the other where it is.
#[inline(always)]
pub fn choose(value: i64, if_not: usize, if_zero: usize) -> usize
    ensures { result ≡ chosen value if_not if_zero }
{
    if value == 0 { if_zero } else { if_not }
}

/// A `let`. `None` where it fails; then nothing is changed.
#[inline(always)]
fn take_let(
    values: &mut [i64],
    local: usize,
    expression: &Expression,
    from: Progress,
) -> Option<Progress>
    requires left { 0 < from.left }
    requires within { from.place + 1 < 2 ^ 64 }
    ensures { MatchOption result
        ((let_taken from values.old local (expression_value values.old expression.now) ≡ None) × (values.new ≡ values.old))
        (λ to. let_taken from values.old local (expression_value values.old expression.now) ≡ Some (to, values.new)) }
{
    match evaluate(values, expression) {
        Ok(value) => {
            give(values, local, value);
            Some(Progress {
                left: from.left - 1,
                place: from.place + 1,
            })
        }
        Err(_) => None,
    }
}

// Instructions are told apart by comparisons, a few at a time: a `match` on all of them would be a
// jump through a table, which takes longer than most of them wherever the processor can't foresee it.

/// Whether an instruction is a test.
pub fn is_test(instruction: &Instruction) -> bool
    ensures { result ≡ is_test instruction.now }
{
    matches!(
        instruction,
        Instruction::SkipIfZero(_, _) | Instruction::BackUnlessZero(_, _)
    )
}

/// A test.
#[inline(always)]
fn take_test(values: &[i64], test: &Instruction, from: Progress) -> Progress
    requires left { 0 < from.left }
    requires room { HasPlaces from.place test.now }
    requires test { is_test test.now ≡ true }
    ensures { taken from values.now (Some test.now) ≡ Some (result, values.now) }
{
    let Progress { left, place } = from;
    let place = match test {
        Instruction::SkipIfZero(operand, n) => {
            if value_of(values, *operand) == 0 {
                place + 1 + *n
            } else {
                place + 1
            }
        }
        Instruction::BackUnlessZero(operand, n) => {
            if value_of(values, *operand) == 0 {
                place + 1
            } else {
                place.saturating_sub(*n)
            }
        }
        _ => place,
    };
    Progress {
        left: left - 1,
        place,
    }
}

/// Passes a jump. `None` where none stands there.
#[inline(always)]
pub fn pass(instruction: &Instruction, from: Progress) -> Option<Progress>
    requires { HasPlaces from.place instruction.now }
    ensures { result ≡ jump_taken from instruction.now }
{
    let Progress { left, place } = from;
    match instruction {
        Instruction::GoOn(n) => {
            let place = place + 1 + *n;
            Some(Progress { left, place })
        }
        _ => None,
    }
}

/// Takes what stands at the place, where it is a `let` that succeeds, a test or a jump. Else nothing
/// is changed, and the answer is `None`.
#[inline(always)]
fn take(instructions: &[Instruction], values: &mut [i64], from: Progress) -> Option<Progress>
    requires left { 0 < from.left }
    requires land { AllLand instructions.now }
    ensures { MatchOption result
        ((taken from values.old (slice_get instructions.now from.place) ≡ None) × (values.new ≡ values.old))
        (λ to. taken from values.old (slice_get instructions.now from.place) ≡ Some (to, values.new)) }
{
    let instruction = next(instructions, from.place)?;
    if let Instruction::Let(x, expression) = instruction {
        return take_let(values, *x, expression, from);
    }
    if is_test(instruction) {
        return Some(take_test(values, instruction, from));
    }
    pass(instruction, from)
}

/// Takes local statements of a frame, as far as they are `let`s that succeed, tests and jumps.
#[inline(always)]
pub(crate) fn strides(instructions: &[Instruction], values: &mut [i64], from: Progress) -> Progress
    requires { AllLand instructions.now }
    ensures same { KeepsAsking instructions.now from values.old result values.new }
    ensures fewer { result.left ≤ from.left }
{
    let mut reached = from;
    while reached.left > 0 {
        match take(instructions, values, reached) {
            Some(next) => reached = next,
            None => return reached,
        }
    }
    reached
}

/// The same, of many values.
///
/// It isn't inlined, so that its loop has all registers to itself.
#[inline(never)]
pub(crate) fn strides_apart(
    instructions: &[Instruction],
    values: &mut [i64],
    from: Progress,
) -> Progress
    requires { AllLand instructions.now }
    ensures same { KeepsAsking instructions.now from values.old result values.new }
    ensures fewer { result.left ≤ from.left }
{
    strides(instructions, values, from)
}

impl ScriptCode {
    /// Takes local statements of the innermost frame, as far as they are `let`s that succeed, tests
    /// and jumps. What the task asks for next stays the same.
    #[inline(never)]
    pub(crate) fn stride(&self, local: &mut Stack)
        ensures same { run self.now.flat local.new.left local.new.top local.new.below ≡ run self.now.flat local.old.left local.old.top local.old.below }
        ensures fewer { local.new.left ≤ local.old.left }
    {
        if !local.top.events.is_empty() {
            return;
        }
        let instructions = self.instructions(local.top.procedure);
        let from = Progress {
            left: local.left,
            place: local.top.place,
        };
        let reached = local.top.values.stride(instructions, from);
        local.left = reached.left;
        local.top.place = reached.place;
    }
}
