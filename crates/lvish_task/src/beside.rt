//! Local statements of a frame that shares its numbers with copies, one after the other.
//!
//! They leave the shared numbers as they are, and change a few locals beside them, which takes no
//! memory. A statement is left where there is no room for its change, or after many others, since
//! then it does better to have the numbers to itself.

ghost use Rattle.std.specs.Prelude.{◌≡◌, ◌<◌, ◌≤◌, ◌+◌, ◌^◌, None, Some, true, MatchOption};
ghost use Rattle.std.specs.List.{slice_get};
ghost use Rattle.lvish_task.specs.Jumps.{AllLand, HasPlaces};
ghost use Rattle.lvish_task.specs.Run.{expression_value};
ghost use Rattle.lvish_task.specs.Stride.{KeepsAsking, is_test, let_taken, taken};

use crate::limits::{COPIED_IN_A_STATEMENT, MOST_BESIDE};
use crate::shared_numbers::SharedNumbers;
use crate::stride::{Progress, choose, is_test, next, pass};
use lvish_code::{Expression, Instruction};

/// A `let`. `None` where it fails or there is no room for its change; then nothing is changed.
#[inline(always)]
fn let_beside(
    values: &mut SharedNumbers,
    local: usize,
    expression: &Expression,
    from: Progress,
) -> Option<Progress>
    requires left { 0 < from.left }
    requires within { from.place + 1 < 2 ^ 64 }
    ensures { MatchOption result
        (values.new ≡ values.old)
        (λ to. let_taken from values.old local (expression_value values.old expression.now) ≡ Some (to, values.new)) }
{
    match values.evaluate(expression) {
        Ok(value) => {
            if !values.change(local, value) {
                return None;
            }
            Some(Progress {
                left: from.left - 1,
                place: from.place + 1,
            })
        }
        Err(_) => None,
    }
}

/// A test.
#[inline(always)]
fn test_beside(values: &SharedNumbers, test: &Instruction, from: Progress) -> Progress
    requires left { 0 < from.left }
    requires room { HasPlaces from.place test.now }
    requires test { is_test test.now ≡ true }
    ensures { taken from values.now (Some test.now) ≡ Some (result, values.now) }
{
    let Progress { left, place } = from;
    let place = match test {
        Instruction::SkipIfZero(operand, n) => {
            choose(values.operand(*operand), place + 1, place + 1 + *n)
        }
        Instruction::BackUnlessZero(operand, n) => {
            choose(
                values.operand(*operand),
                place.saturating_sub(*n),
                place + 1,
            )
        }
        _ => place,
    };
    Progress {
        left: left - 1,
        place,
    }
}

/// Takes what stands at the place, where it is a `let` that succeeds, a test or a jump. Else nothing
/// is changed, and the answer is `None`; and so it is of a `let` where at most `least` local
/// statements are left.
#[inline(always)]
fn take_beside(
    instructions: &[Instruction],
    values: &mut SharedNumbers,
    from: Progress,
    least: usize,
) -> Option<Progress>
    requires left { 0 < from.left }
    requires land { AllLand instructions.now }
    ensures { MatchOption result
        (values.new ≡ values.old)
        (λ to. taken from values.old (slice_get instructions.now from.place) ≡ Some (to, values.new)) }
{
    let instruction = next(instructions, from.place)?;
    if let Instruction::Let(x, expression) = instruction {
        if from.left <= least {
            return None;
        }
        return let_beside(values, *x, expression, from);
    }
    if is_test(instruction) {
        return Some(test_beside(values, instruction, from));
    }
    pass(instruction, from)
}

/// Takes local statements of a frame, as far as they are `let`s that succeed and for which there is
/// room, tests and jumps; and a `let` only as long as those before it have cost less than a copy of
/// the numbers would.
#[inline(never)]
pub(crate) fn strides_beside(
    instructions: &[Instruction],
    values: &mut SharedNumbers,
    from: Progress,
) -> Progress
    requires { AllLand instructions.now }
    ensures same { KeepsAsking instructions.now from values.old result values.new }
    ensures fewer { result.left ≤ from.left }
{
    let most = MOST_BESIDE + values.len() / COPIED_IN_A_STATEMENT;
    let least = from.left.saturating_sub(most);
    let mut reached = from;
    while reached.left > 0 {
        match take_beside(instructions, values, reached, least) {
            Some(next) => reached = next,
            None => return reached,
        }
    }
    reached
}
