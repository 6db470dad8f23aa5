ghost use Rattle.std.specs.Prelude.{◌≡◌};
ghost use Rattle.lvish_alike.specs.Sought.{linked, instruction_names, instruction_calls, instruction_stays, instruction_starts, instruction_forks, instruction_handles};

use lvish_code::{Action, Instruction};

/// Which routine of an instruction is meant.
#[derive(Clone, Copy)]
pub enum Link {
    /// The one that it names.
    Names,
    /// The one that it has run by the same task.
    Calls,
    /// The one that it has run by the same task or by one of the same pool.
    Stays,
    /// The one that it has run by another task.
    Starts,
    /// The one that it has run by a task that it forks.
    Forks,
    /// The one that it has run by the tasks of a handler of this pool.
    Handles(usize),
}

/// The routine to which the link of an instruction leads.
pub fn linked_by(instruction: &Instruction, link: Link) -> Option<usize>
    ensures { result ≡ linked link instruction.now }
{
    match link {
        Link::Names => named_by(instruction),
        Link::Calls => called_by(instruction),
        Link::Stays => stays_with(instruction),
        Link::Starts => started_by(instruction),
        Link::Forks => forked_by(instruction),
        Link::Handles(pool) => handed_by(instruction, pool),
    }
}

/// The routine that an instruction names.
fn named_by(instruction: &Instruction) -> Option<usize>
    ensures { result ≡ instruction_names instruction.now }
{
    match instruction {
        Instruction::Ask(Action::Fork(routine, _)) => Some(*routine),
        Instruction::Ask(Action::Handle(_, routine)) => Some(*routine),
        _ => called_by(instruction),
    }
}

/// The routine that an instruction has run by the same task.
fn called_by(instruction: &Instruction) -> Option<usize>
    ensures { result ≡ instruction_calls instruction.now }
{
    match instruction {
        Instruction::Ask(Action::Freeze(_, _, _, each)) => *each,
        Instruction::Call(routine, _) => Some(*routine),
        _ => None,
    }
}

/// The routine that an instruction has run by the same task or by one of the same pool.
fn stays_with(instruction: &Instruction) -> Option<usize>
    ensures { result ≡ instruction_stays instruction.now }
{
    match instruction {
        Instruction::Ask(Action::Fork(routine, _)) => Some(*routine),
        _ => called_by(instruction),
    }
}

/// The routine that an instruction has run by another task.
fn started_by(instruction: &Instruction) -> Option<usize>
    ensures { result ≡ instruction_starts instruction.now }
{
    match instruction {
        Instruction::Ask(Action::Fork(routine, _)) => Some(*routine),
        Instruction::Ask(Action::Handle(_, routine)) => Some(*routine),
        _ => None,
    }
}

/// The routine that an instruction has run by a task that it forks.
fn forked_by(instruction: &Instruction) -> Option<usize>
    ensures { result ≡ instruction_forks instruction.now }
{
    match instruction {
        Instruction::Ask(Action::Fork(routine, _)) => Some(*routine),
        _ => None,
    }
}

/// The routine that an instruction has run by the tasks of a handler of the pool.
fn handed_by(instruction: &Instruction, pool: usize) -> Option<usize>
    ensures { result ≡ instruction_handles pool instruction.now }
{
    match instruction {
        Instruction::Ask(Action::Handle(other, routine)) if *other == pool => Some(*routine),
        _ => None,
    }
}
