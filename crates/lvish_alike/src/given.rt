ghost use Rattle.std.specs.Prelude.{◌≡◌, IfOk, length, []};
ghost use Rattle.std.specs.List.{filter_map, cons_option};
ghost use Rattle.lvish_alike.specs.Sought.{linked, instruction_writes, AreAdded, AreGiven};

use crate::link::{Link, linked_by};
use lvish_code::{Action, Instruction, Routine};
use std::alloc::{AllocError, Global};

/// A mark for each routine, set where the link of an instruction in a marked routine leads to it.
///
/// # Errors
///
/// `AllocError` where a growth was refused.
pub fn linked_from(
    alloc: Global,
    routines: &[Routine],
    marks: &[bool],
    link: Link,
) -> Result<Vec<bool>, AllocError>
    requires { length marks.now ≡ length routines.now }
    ensures { IfOk result (λ given. AreGiven (linked link) routines.now marks.now (length routines.now) given.items) }
{
    let mut given = vec![in alloc; false; routines.len()]?;
    for place in 0..routines.len() {
        if marks[place] {
            mark_linked(routines[place].instructions.as_slice(), link, &mut given);
        }
    }
    Ok(given)
}

/// A mark for each variable, set where an instruction of a marked routine puts into it or adds a
/// handler to it.
///
/// # Errors
///
/// `AllocError` where a growth was refused.
pub fn written_from(
    alloc: Global,
    routines: &[Routine],
    marks: &[bool],
    pools: &[usize],
    variables: usize,
) -> Result<Vec<bool>, AllocError>
    requires { length marks.now ≡ length routines.now }
    ensures { IfOk result (λ written. AreGiven (instruction_writes pools.now) routines.now marks.now variables written.items) }
{
    let mut written = vec![in alloc; false; variables]?;
    for place in 0..routines.len() {
        if marks[place] {
            mark_written(routines[place].instructions.as_slice(), pools, &mut written);
        }
    }
    Ok(written)
}

/// Sets the marks of the routines to which the links of the instructions lead.
fn mark_linked(instructions: &[Instruction], link: Link, marks: &mut [bool])
    ensures { AreAdded marks.old (filter_map (linked link) instructions.now) marks.new }
{
    for instruction in instructions {
        mark(marks, linked_by(instruction, link));
    }
}

/// Sets the marks of the variables to which the instructions write.
fn mark_written(instructions: &[Instruction], pools: &[usize], marks: &mut [bool])
    ensures { AreAdded marks.old (filter_map (instruction_writes pools.now) instructions.now) marks.new }
{
    for instruction in instructions {
        mark(marks, written_by(instruction, pools));
    }
}

/// Sets the mark at the number, where there is one.
fn mark(marks: &mut [bool], number: Option<usize>)
    ensures { AreAdded marks.old (cons_option number []) marks.new }
{
    if let Some(place) = number {
        if place < marks.len() {
            marks[place] = true;
        }
    }
}

/// The variable that an instruction puts into, or adds a handler to.
pub fn written_by(instruction: &Instruction, pools: &[usize]) -> Option<usize>
    ensures { result ≡ instruction_writes pools.now instruction.now }
{
    match instruction {
        Instruction::Ask(Action::Put(variable, _, _)) => Some(*variable),
        Instruction::Ask(Action::Handle(pool, _)) => pools.get(*pool).copied(),
        _ => None,
    }
}
