ghost use Rattle.std.specs.Prelude.{◌≡◌, List, IfOk};
ghost use Rattle.lvish_syntax.specs.Name.{has_repeat};
ghost use Rattle.lvish_checks.specs.declared.line.Line.{Line};
ghost use Rattle.lvish_checks.specs.declared.fault.Fault.TheVariants.{DoubleName};
ghost use Rattle.lvish_checks.specs.Checks.{declares_again, line_fails, on_line, IsFirstOn};
ghost use Rattle.lvish_checks.specs.Known.{AreVariables, ArePools, AreProcedures};

use crate::declared::Declared;
use crate::line::Line;
use crate::name_set::NameSet;
use lvish_syntax::{Declaration, Identifier};
use std::alloc::{AllocError, Global};

/// Whether a name stands twice.
fn has_repeat(alloc: Global, names: &[Identifier]) -> Result<bool, AllocError>
    ensures { IfOk result (λ found. found ≡ has_repeat names.now) }
{
    let mut seen = NameSet::with_room(alloc, names.len())?;
    for name in names {
        if !seen.add(name)? {
            return Ok(true);
        }
    }
    Ok(false)
}

/// Whether a line declares again what is declared above it, or names a parameter twice.
fn declares_again(alloc: Global, above: &Declared, line: &Line) -> Result<bool, AllocError>
    ensures { (before : List Line) → AreVariables above.now.variables before → ArePools above.now.pools before → AreProcedures above.now.procedures before → IfOk result (λ found. found ≡ declares_again before line.now) }
{
    match line {
        Line::Declare(declaration) => match declaration.get() {
            Declaration::Variable(name, _) => Ok(above.variables.contains(name)),
            Declaration::Pool(name, _) => Ok(above.pools.contains(name)),
        },
        Line::Proc(name, parameters) => {
            if above.procedures.contains(name.get()) {
                return Ok(true);
            }
            has_repeat(alloc, parameters.get().as_slice())
        }
        _ => Ok(false),
    }
}

/// The first line that declares a variable, a pool or a procedure again, or names a parameter twice.
pub fn first_double_name(alloc: Global, lines: &[Line]) -> Result<Option<usize>, AllocError>
    ensures { IfOk result (λ found. IsFirstOn (on_line (line_fails DoubleName lines.now) lines.now) found) }
{
    let mut above = Declared::new(alloc);
    for k in 0..lines.len() {
        let line = &lines[k];
        if declares_again(alloc, &above, line)? {
            return Ok(Some(k + 1));
        }
        above.add(line)?;
    }
    Ok(None)
}
