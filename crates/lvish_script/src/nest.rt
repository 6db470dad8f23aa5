ghost use Rattle.std.specs.Prelude.{◌≡◌, ◌++◌, ◌∷◌, [], ℕ, false, true, filter, Some, None, IfOk, OnOk, if◌then◌else◌};
ghost use Rattle.lvish_checks.specs.Checks.{on_line, line_fails, open_step, is_procedure, is_nil, takes_else};
ghost use Rattle.lvish_checks.specs.declared.fault.Fault.TheVariants.{BadLine, OpenBlock as UnclosedBlock};
ghost use Rattle.lvish_script.specs.Spells.{script_lines, statement_lines, procedure_lines, says_something};
ghost use Rattle.lvish_script.specs.Nested.{block_lines, opener, opened_lines, draft_lines, openers, what_is_said, HasNone, TakesLine};
ghost use Rattle.lvish_checks.specs.declared.line.Line.TheVariants as line;

use crate::open::{OpenBlock, add_statement, empty};
use lvish_checks::Line;
use lvish_syntax::{
    Declaration, Declarations, Identifier, Identifiers, Procedure, Procedures, Statement,
};
use std::alloc::{AllocError, Global};

/// A procedure that is open, with the open blocks in it, the innermost last.
struct OpenProcedure {
    procedure: Procedure,
    blocks: Vec<OpenBlock>,
}

// Written out, so that it is proved once, and not at each exit of a function that owns one.
impl Drop for OpenProcedure {
    fn drop(self) {
        let OpenProcedure {
            procedure: _,
            blocks: _,
        } = self;
    }
}

impl OpenProcedure {
    /// A procedure without statements.
    fn begun(alloc: Global, name: Identifier, parameters: Identifiers) -> OpenProcedure
        ensures lines { opened_lines result ≡ line.Proc name parameters ∷ [] }
        ensures openers { openers (Some result) ≡ open_step [] (line.Proc name parameters) }
    {
        OpenProcedure {
            procedure: Procedure {
                name,
                parameters,
                body: empty(alloc),
            },
            blocks: Vec::new(alloc),
        }
    }

    /// Adds a statement to the innermost block.
    fn add(&mut self, statement: Statement) -> Result<(), AllocError>
        ensures lines { OnOk result (opened_lines self.new ≡ opened_lines self.old ++ statement_lines statement) }
        ensures openers { OnOk result (openers (Some self.new) ≡ openers (Some self.old)) }
    {
        match self.blocks.pop() {
            None => add_statement(&mut self.procedure.body, statement)?,
            Some(mut block) => {
                block.add(statement)?;
                self.blocks.push(block)?;
            }
        }
        Ok(())
    }

    /// Opens a block in the innermost one.
    fn open(&mut self, block: OpenBlock) -> Result<(), AllocError>
        ensures lines { OnOk result (opened_lines self.new ≡ opened_lines self.old ++ block_lines block) }
        ensures openers { OnOk result (openers (Some self.new) ≡ opener block ∷ openers (Some self.old)) }
    {
        self.blocks.push(block)?;
        Ok(())
    }

    /// Goes on with the second part of the innermost block, an `if` before its `else`.
    fn turn(&mut self, alloc: Global) -> Result<(), AllocError>
        requires { takes_else (openers (Some self.old)) ≡ true }
        ensures lines { OnOk result (opened_lines self.new ≡ opened_lines self.old ++ line.Else ∷ []) }
        ensures openers { OnOk result (openers (Some self.new) ≡ open_step (openers (Some self.old)) line.Else) }
    {
        let Some(block) = self.blocks.pop() else {
            unreachable!()
        };
        self.blocks.push(block.turned(alloc))?;
        Ok(())
    }

    /// Ends the innermost block, where one is open in the procedure, and says whether one was.
    fn close(&mut self) -> Result<bool, AllocError>
        ensures lines { IfOk result (λ closed. opened_lines self.new ≡ opened_lines self.old ++ (if closed then line.End ∷ [] else [])) }
        ensures openers { IfOk result (λ closed. openers (Some self.new) ≡ (if closed then open_step (openers (Some self.old)) line.End else openers (Some self.old))) }
        ensures last { IfOk result (λ closed. closed ≡ false → self.new.blocks.items ≡ []) }
    {
        match self.blocks.pop() {
            None => Ok(false),
            Some(block) => {
                self.add(block.closed())?;
                Ok(true)
            }
        }
    }

    /// The procedure at its end, where no block is open in it.
    fn into_procedure(self) -> Procedure
        requires { self.blocks.items ≡ [] }
        ensures { procedure_lines result ≡ opened_lines self ++ line.End ∷ [] }
    {
        let OpenProcedure {
            procedure,
            blocks: _,
        } = self;
        procedure
    }
}

/// What was read of a script.
struct Draft {
    declarations: Vec<Declaration>,
    procedures: Vec<Procedure>,
    opened: Option<OpenProcedure>,
}

// Written out, so that it is proved once, and not at each exit of a function that owns one.
impl Drop for Draft {
    fn drop(self) {
        let Draft {
            declarations: _,
            procedures: _,
            opened: _,
        } = self;
    }
}

impl Draft {
    /// Adds a statement to what is open.
    fn add_statement(&mut self, statement: Statement) -> Result<(), AllocError>
        requires { is_nil (openers self.old.opened) ≡ false }
        ensures lines { OnOk result (draft_lines self.new ≡ draft_lines self.old ++ statement_lines statement) }
        ensures openers { OnOk result (openers self.new.opened ≡ openers self.old.opened) }
    {
        match &mut self.opened {
            Some(opened) => opened.add(statement),
            None => unreachable!(),
        }
    }

    /// Opens a block in what is open.
    fn open(&mut self, block: OpenBlock) -> Result<(), AllocError>
        requires { is_nil (openers self.old.opened) ≡ false }
        ensures lines { OnOk result (draft_lines self.new ≡ draft_lines self.old ++ block_lines block) }
        ensures openers { OnOk result (openers self.new.opened ≡ opener block ∷ openers self.old.opened) }
    {
        match &mut self.opened {
            Some(opened) => opened.open(block),
            None => unreachable!(),
        }
    }

    /// Goes on with the second part of the innermost block.
    fn turn(&mut self, alloc: Global) -> Result<(), AllocError>
        requires { takes_else (openers self.old.opened) ≡ true }
        ensures lines { OnOk result (draft_lines self.new ≡ draft_lines self.old ++ line.Else ∷ []) }
        ensures openers { OnOk result (openers self.new.opened ≡ open_step (openers self.old.opened) line.Else) }
    {
        match &mut self.opened {
            Some(opened) => opened.turn(alloc),
            None => unreachable!(),
        }
    }

    /// Ends the innermost block, or else the procedure.
    fn end(&mut self) -> Result<(), AllocError>
        requires { is_nil (openers self.old.opened) ≡ false }
        ensures lines { OnOk result (draft_lines self.new ≡ draft_lines self.old ++ line.End ∷ []) }
        ensures openers { OnOk result (openers self.new.opened ≡ open_step (openers self.old.opened) line.End) }
    {
        match self.opened.take() {
            Some(mut opened) => {
                if opened.close()? {
                    self.opened = Some(opened);
                } else {
                    self.procedures.push(opened.into_procedure())?;
                }
                Ok(())
            }
            None => unreachable!(),
        }
    }

    /// Adds one more line.
    fn add(&mut self, alloc: Global, line: Line) -> Result<(), AllocError>
        requires { TakesLine self.old.procedures.items self.old.opened line }
        ensures lines { OnOk result (draft_lines self.new ≡ draft_lines self.old ++ what_is_said line) }
        ensures openers { OnOk result (openers self.new.opened ≡ open_step (openers self.old.opened) line) }
        ensures none { is_procedure line ≡ false → HasNone self.old.procedures.items self.old.opened → OnOk result (HasNone self.new.procedures.items self.new.opened) }
    {
        match line {
            Line::Blank | Line::Version => Ok(()),
            Line::Bad => unreachable!(),
            Line::Declare(declaration) => {
                self.declarations.push(declaration.into_inner())?;
                Ok(())
            }
            Line::Proc(name, parameters) => {
                self.opened = Some(OpenProcedure::begun(
                    alloc,
                    name.into_inner(),
                    parameters.into_inner(),
                ));
                Ok(())
            }
            Line::Do(command) => self.add_statement(Statement::Do(command)),
            Line::If(test) => self.open(OpenBlock::If(test, empty(alloc))),
            Line::While(test) => self.open(OpenBlock::While(test, empty(alloc))),
            Line::Else => self.turn(alloc),
            Line::End => self.end(),
        }
    }

    /// The declarations and procedures, where nothing is open.
    fn ended(self) -> (Declarations, Procedures)
        requires { self.opened ≡ None }
        ensures { script_lines result.0 result.1 ≡ draft_lines self }
    {
        let Draft {
            declarations,
            procedures,
            opened: _,
        } = self;
        (declarations.into(), procedures.into())
    }
}

/// The declarations and procedures with these lines.
pub fn nest(alloc: Global, said: Vec<Line>) -> Result<(Declarations, Procedures), AllocError>
    requires placed { (l : ℕ) → on_line (line_fails BadLine said.items) said.items l ≡ false }
    requires closed { (l : ℕ) → on_line (line_fails UnclosedBlock said.items) said.items l ≡ false }
    ensures { IfOk result (λ r. script_lines r.0 r.1 ≡ filter says_something said.items) }
{
    let mut draft = Draft {
        declarations: Vec::new(alloc),
        procedures: Vec::new(alloc),
        opened: None,
    };
    for line in said {
        draft.add(alloc, line)?;
    }
    Ok(draft.ended())
}
