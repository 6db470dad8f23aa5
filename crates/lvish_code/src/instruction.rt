use crate::expression::Expression;
use crate::operand::{Operand, Operands};
use crate::target::Target;
use crate::wanted::Wanted;
use lvish_base::Items;

/// Numbers of variables or of pools, in order.
pub type Indices = Items<usize>;

/// What a task asks the others for. Variables, pools, procedures and locals are numbers, from 0.
pub enum Action {
    /// Puts the operand's value: the variable, what of it, the operand.
    Put(usize, Target, Operand),
    /// Waits until the variable passes, and the local takes the answer: the local, the variable,
    /// what of it, what is waited for.
    Get(usize, usize, Target, Wanted),
    /// Starts a task that runs the procedure on the values of the operands.
    Fork(usize, Operands),
    /// Adds a handler that runs the procedure to the pool: the pool, the procedure.
    Handle(usize, usize),
    /// Freezes the variable after the tasks of the pools. The local takes the number of events below
    /// its state, and the procedure, if there is one, is called on each of these: the local, the
    /// variable, the pools, the procedure.
    Freeze(usize, usize, Indices, Option<usize>),
}

// Written out, so that it is proved once, and not at each exit of a function that owns one.
impl Drop for Action {
    fn drop(self) {
        match self {
            Action::Put(_, _, _) => {}
            Action::Get(_, _, _, _) => {}
            Action::Fork(_, _) => {}
            Action::Handle(_, _) => {}
            Action::Freeze(_, _, _, _) => {}
        }
    }
}

/// One instruction of flat code. A jump says how many instructions it passes.
pub enum Instruction {
    /// Asks for an action, and goes on with the next instruction after the reply.
    Ask(Action),
    /// The local takes the expression's value.
    Let(usize, Expression),
    /// Runs the procedure on the values of the operands in a frame of its own.
    Call(usize, Operands),
    /// A counted test: where the operand is 0, passes this many instructions forward.
    SkipIfZero(Operand, usize),
    /// A counted test: where the operand isn't 0, goes to the instruction this many places before.
    BackUnlessZero(Operand, usize),
    /// Passes this many instructions forward.
    GoOn(usize),
    /// The end of the procedure.
    Return,
}

// Written out, so that it is proved once, and not at each exit of a function that owns one.
impl Drop for Instruction {
    fn drop(self) {
        match self {
            Instruction::Ask(_) => {}
            Instruction::Let(_, _) => {}
            Instruction::Call(_, _) => {}
            Instruction::SkipIfZero(_, _) => {}
            Instruction::BackUnlessZero(_, _) => {}
            Instruction::GoOn(_) => {}
            Instruction::Return => {}
        }
    }
}

/// Instructions in order.
pub type Instructions = Items<Instruction>;
