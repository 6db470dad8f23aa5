use lvish_base::Boxed;
use lvish_syntax::{Command, Declaration, Identifier, Identifiers, Term};

/// What a line says, in scripts of any version. It is small, since each line of a text has one.
#[derive(Drop)]
pub enum Line {
    /// It has no words.
    Blank,
    /// It has none of the forms.
    Bad,
    /// It says that the script is of version 2.
    Version,
    /// It declares a variable or a pool.
    Declare(Boxed<Declaration>),
    /// It begins a procedure with these parameters.
    Proc(Boxed<Identifier>, Boxed<Identifiers>),
    /// It is a statement of one line.
    Do(Boxed<Command>),
    /// It opens a block.
    If(Boxed<Term>),
    /// It opens a block.
    While(Boxed<Term>),
    /// It opens the other part of an `if`.
    Else,
    /// It closes the innermost block, or the procedure.
    End,
}
