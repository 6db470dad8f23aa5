use crate::command::Command;
use crate::term::Term;
use lvish_base::Boxed;

/// A statement of a procedure. It is small, since a block moves its statements as it grows.
#[derive(Drop)]
#[cycle(block)]
pub enum Statement {
    /// A statement of one line.
    Do(Boxed<Command>),
    /// `if`: the block, where the term's value isn't 0.
    If(Boxed<Term>, Block),
    /// `if` with `else`: the first block where the term's value isn't 0, else the second.
    IfElse(Boxed<Term>, Block, Block),
    /// `while`: the block, as long as the term's value isn't 0.
    While(Boxed<Term>, Block),
}

/// Statements in order.
#[derive(Drop)]
#[cycle(block)]
pub struct Block {
    pub items: Vec<Statement>,
}
