ghost use Rattle.std.specs.Prelude.{◌≡◌, IfSome, IfNone, length, not, nat_eq, true};
ghost use Rattle.std.specs.List.{slice_get, slice_index_or, filter_map};
ghost use Rattle.lvish_alike.specs.Sought.{found_in, linked, instruction_freezes, wanted, is_option, IsFound, IsNowhere};

use crate::link::{Link, linked_by};
use lvish_code::{Action, Instruction, Routine};

/// What is looked for among the instructions of marked routines.
#[derive(Clone, Copy)]
pub enum Sought {
    /// A routine to which this link leads, and which isn't marked.
    Unmarked(Link),
    /// This routine, where this link leads to it.
    Linked(Link, usize),
    /// A variable that is frozen, other than this one.
    Frozen(Option<usize>),
}

/// What is looked for, where an instruction of a marked routine has it.
pub fn first(routines: &[Routine], marks: &[bool], sought: Sought) -> Option<usize>
    requires same_length { length marks.now ≡ length routines.now }
    ensures found { IfSome result (λ k. IsFound routines.now marks.now sought k) }
    ensures nowhere { IfNone result (IsNowhere routines.now marks.now sought) }
{
    for place in 0..routines.len() {
        if marks[place] {
            let found = first_in(routines[place].instructions.as_slice(), marks, sought);
            if found.is_some() {
                return found;
            }
        }
    }
    None
}

/// The same among the instructions of one routine.
fn first_in(instructions: &[Instruction], marks: &[bool], sought: Sought) -> Option<usize>
    ensures { result ≡ slice_get (filter_map (found_in marks.now sought) instructions.now) 0 }
{
    for instruction in instructions {
        let found = found_in(instruction, marks, sought);
        if found.is_some() {
            return found;
        }
    }
    None
}

/// What is looked for, where the instruction has it.
fn found_in(instruction: &Instruction, marks: &[bool], sought: Sought) -> Option<usize>
    ensures { result ≡ found_in marks.now sought instruction.now }
{
    match sought {
        Sought::Unmarked(link) => unmarked(marks, linked_by(instruction, link)),
        Sought::Linked(link, routine) => only(routine, linked_by(instruction, link)),
        Sought::Frozen(but) => other_than(but, frozen_by(instruction)),
    }
}

/// The number, where its mark isn't set.
fn unmarked(marks: &[bool], named: Option<usize>) -> Option<usize>
    ensures { result ≡ wanted (λ k. not (slice_index_or marks.now k true)) named }
{
    match named {
        Some(place) if !is_marked(marks, place) => Some(place),
        _ => None,
    }
}

/// Whether the mark at the place is set. There is no mark past the end to be set any more.
fn is_marked(marks: &[bool], place: usize) -> bool
    ensures { result ≡ slice_index_or marks.now place true }
{
    match marks.get(place) {
        Some(mark) => *mark,
        None => true,
    }
}

/// The number, where it is this one.
fn only(routine: usize, named: Option<usize>) -> Option<usize>
    ensures { result ≡ wanted (nat_eq routine) named }
{
    match named {
        Some(place) if routine == place => named,
        _ => None,
    }
}

/// The number, where it isn't this one.
fn other_than(but: Option<usize>, named: Option<usize>) -> Option<usize>
    ensures { result ≡ wanted (λ v. not (is_option but v)) named }
{
    match (but, named) {
        (Some(variable), Some(other)) if variable == other => None,
        _ => named,
    }
}

/// The variable that an instruction freezes.
pub fn frozen_by(instruction: &Instruction) -> Option<usize>
    ensures { result ≡ instruction_freezes instruction.now }
{
    match instruction {
        Instruction::Ask(Action::Freeze(_, variable, _, _)) => Some(*variable),
        _ => None,
    }
}
