ghost use Rattle.std.specs.Prelude.{◌≡◌, ℕ, List, IfOk};
ghost use Rattle.lvish_checks.specs.declared.line.Line.{Line};
ghost use Rattle.lvish_checks.specs.declared.fault.Fault.TheVariants.{WrongCount};
ghost use Rattle.lvish_checks.specs.Checks.{has_other_count, command_miscounts, miscounts, line_fails, on_line, IsFirstOn};
ghost use Rattle.lvish_checks.specs.Known.{AreArities};

use crate::declared::arities_of;
use crate::line::Line;
use crate::name_table::NameTable;
use lvish_syntax::{Command, Identifier};
use std::alloc::{AllocError, Global};

/// Whether the procedure is declared, and has another number of parameters.
fn has_other_count(arities: &NameTable<usize>, procedure: &Identifier, count: usize) -> bool
    ensures { (lines : List Line) → AreArities arities.now lines → result ≡ has_other_count lines procedure.now count }
{
    match arities.get(procedure) {
        Some(parameters) => parameters != count,
        None => false,
    }
}

fn command_miscounts(arities: &NameTable<usize>, command: &Command) -> bool
    ensures { (lines : List Line) → AreArities arities.now lines → result ≡ command_miscounts lines command.now }
{
    match command {
        Command::Fork(procedure, terms) | Command::Call(procedure, terms) => {
            has_other_count(arities, procedure, terms.as_slice().len())
        }
        Command::Handle(_, procedure) | Command::FreezeEach(_, _, _, procedure) => {
            has_other_count(arities, procedure, 2)
        }
        _ => false,
    }
}

fn miscounts(arities: &NameTable<usize>, line: &Line) -> bool
    ensures { (lines : List Line) → AreArities arities.now lines → result ≡ miscounts lines line.now }
{
    match line {
        Line::Do(command) => command_miscounts(arities, command.get()),
        _ => false,
    }
}

/// The first line that gives a procedure another number of terms than it has parameters, or has one
/// without two parameters run on keys and numbers.
pub fn first_wrong_count(alloc: Global, lines: &[Line]) -> Result<Option<usize>, AllocError>
    ensures { IfOk result (λ found. IsFirstOn (on_line (line_fails WrongCount lines.now) lines.now) found) }
{
    let arities = arities_of(alloc, lines)?;
    for k in 0..lines.len() {
        if miscounts(&arities, &lines[k]) {
            return Ok(Some(k + 1));
        }
    }
    Ok(None)
}
