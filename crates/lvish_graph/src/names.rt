//! The names that a script declares, in the order of its lines.

ghost use Rattle.std.specs.Prelude.{◌≡◌, IfOk};
ghost use Rattle.lvish_syntax.specs.Sound.{variable_names, pool_names, procedure_names};
ghost use Rattle.lvish_graph.specs.Deeds.{names_for};

use crate::verb::Verb;
use lvish_syntax::{Declaration, Identifier, Identifiers, Procedure, Script};
use std::alloc::{AllocError, Global};

/// The names of the variables.
fn variable_names(alloc: Global, declarations: &[Declaration]) -> Result<Identifiers, AllocError>
    ensures { IfOk result (λ names. names ≡ variable_names declarations.now) }
{
    let mut names = Vec::new(alloc);
    for declaration in declarations {
        match declaration {
            Declaration::Variable(name, _) => names.push(name.copy())?,
            Declaration::Pool(_, _) => (),
        }
    }
    Ok(Identifiers::from(names))
}

/// The names of the pools.
pub fn pool_names(alloc: Global, declarations: &[Declaration]) -> Result<Identifiers, AllocError>
    ensures { IfOk result (λ names. names ≡ pool_names declarations.now) }
{
    let mut names = Vec::new(alloc);
    for declaration in declarations {
        match declaration {
            Declaration::Variable(_, _) => (),
            Declaration::Pool(name, _) => names.push(name.copy())?,
        }
    }
    Ok(Identifiers::from(names))
}

/// The names of the procedures.
pub fn procedure_names(alloc: Global, procedures: &[Procedure]) -> Result<Identifiers, AllocError>
    ensures { IfOk result (λ names. names ≡ procedure_names procedures.now) }
{
    let mut names = Vec::new(alloc);
    for procedure in procedures {
        names.push(procedure.name.copy())?;
    }
    Ok(Identifiers::from(names))
}

/// The names of all to which a statement can do this.
pub fn names_for(alloc: Global, script: &Script, verb: Verb) -> Result<Identifiers, AllocError>
    ensures { IfOk result (λ names. names ≡ names_for script.now verb) }
{
    match verb {
        Verb::Puts => variable_names(alloc, script.declarations()),
        Verb::Reads => variable_names(alloc, script.declarations()),
        Verb::Freezes => variable_names(alloc, script.declarations()),
        Verb::Awaits => pool_names(alloc, script.declarations()),
        Verb::Forks => procedure_names(alloc, script.procedures()),
        Verb::Calls => procedure_names(alloc, script.procedures()),
    }
}
