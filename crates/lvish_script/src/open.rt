ghost use Rattle.std.specs.Prelude.{◌≡◌, ◌++◌, ◌∷◌, [], OnErr, OnOk};
ghost use Rattle.lvish_script.specs.Spells.{statement_lines, body_lines};
ghost use Rattle.lvish_syntax.specs.Nested.{statements};
ghost use Rattle.lvish_script.specs.Nested.{block_lines, opener};
ghost use Rattle.lvish_checks.specs.declared.line.Line.TheVariants as line;
ghost use Rattle.lvish_script.specs.Vocabulary.{InIf, InElse};

use lvish_checks::Boxed;
use lvish_syntax::{Block, Procedure, Statement, Term};
use std::alloc::{AllocError, Global};

/// No statements.
pub fn empty(alloc: Global) -> Block
    ensures { statements result ≡ [] }
{
    Block {
        items: Vec::new(alloc),
    }
}

/// Adds a statement. Where the growth is refused the block has the statements that it had.
pub fn add_statement(block: &mut Block, statement: Statement) -> Result<(), AllocError>
    ensures added { OnOk result (body_lines (statements block.new) ≡ body_lines (statements block.old) ++ statement_lines statement) }
    ensures refused { OnErr result (statements block.new ≡ statements block.old) }
{
    if block.items.is_empty() {
        // A block is often one statement: no room for more is taken before there are more.
        block.items.reserve_exact(1)?;
    }
    block.items.push(statement)?;
    Ok(())
}

/// A block that is open, with the statements that were read of it.
pub enum OpenBlock {
    /// An `if` before its `else`.
    If(Boxed<Term>, Block),
    /// The second part of an `if`, after the first.
    Else(Boxed<Term>, Block, Block),
    /// A `while`.
    While(Boxed<Term>, Block),
}

// Written out, so that it is proved once, and not at each exit of a function that owns one.
impl Drop for OpenBlock {
    fn drop(self) {
        match self {
            OpenBlock::If(_, _) => {}
            OpenBlock::Else(_, _, _) => {}
            OpenBlock::While(_, _) => {}
        }
    }
}

impl OpenBlock {
    /// Adds a statement. Where the growth is refused the block has the lines that it had.
    pub fn add(&mut self, statement: Statement) -> Result<(), AllocError>
        ensures lines { OnOk result (block_lines self.new ≡ block_lines self.old ++ statement_lines statement) }
        ensures opener { OnOk result (opener self.new ≡ opener self.old) }
        ensures refused { OnErr result ((block_lines self.new ≡ block_lines self.old) × (opener self.new ≡ opener self.old)) }
    {
        match self {
            OpenBlock::If(_, block) => add_statement(block, statement),
            OpenBlock::Else(_, _, second) => add_statement(second, statement),
            OpenBlock::While(_, block) => add_statement(block, statement),
        }
    }

    /// The second part of an `if`, where this is the first.
    pub fn turned(self, alloc: Global) -> OpenBlock
        requires { opener self ≡ InIf }
        ensures lines { block_lines result ≡ block_lines self ++ line.Else ∷ [] }
        ensures opener { opener result ≡ InElse }
    {
        match self {
            OpenBlock::If(test, first) => OpenBlock::Else(test, first, empty(alloc)),
            _ => unreachable!(),
        }
    }

    /// The statement that the block is, at its end.
    pub fn closed(self) -> Statement
        ensures { statement_lines result ≡ block_lines self ++ line.End ∷ [] }
    {
        match self {
            OpenBlock::If(test, block) => Statement::If(test, block),
            OpenBlock::Else(test, first, second) => { Statement::IfElse(test, first, second) }
            OpenBlock::While(test, block) => Statement::While(test, block),
        }
    }
}
