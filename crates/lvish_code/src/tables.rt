ghost use Rattle.std.specs.Prelude.{◌≡◌, IfOk};
ghost use Rattle.lvish_syntax.specs.Sound.{variable_names, pool_names, procedure_names};
ghost use Rattle.lvish_code.specs.Numbering.{each_once};
ghost use Rattle.lvish_code.specs.Compile.{variable_kinds, pool_variables};

use crate::instruction::Indices;
use crate::numbering::Numbering;
use lvish_base::Items;
use lvish_syntax::{Declaration, Procedure, VariableKind};
use std::alloc::{AllocError, Global};

/// The kinds of variables, by number.
pub type Kinds = Items<VariableKind>;

/// The numbers of all that a script declares, and the kinds of its variables.
pub struct Tables<'s> {
    pub variables: Numbering<'s>,
    pub kinds: Kinds,
    pub pools: Numbering<'s>,
    pub procedures: Numbering<'s>,
}

// Written out, so that it is proved once, and not at each exit of a function that owns one.
impl<'s> Drop for Tables<'s> {
    fn drop(self) {
        let Tables {
            variables: _,
            kinds: _,
            pools: _,
            procedures: _,
        } = self;
    }
}

impl<'s> Tables<'s> {
    /// Each in the order of the lines.
    pub fn new(
        alloc: Global,
        declarations: &'s [Declaration],
        procedures: &'s [Procedure],
    ) -> Result<Tables<'s>, AllocError>
        ensures variables { IfOk result (λ t. t.variables ≡ each_once (variable_names declarations.now)) }
        ensures kinds { IfOk result (λ t. t.kinds ≡ variable_kinds declarations.now) }
        ensures pools { IfOk result (λ t. t.pools ≡ each_once (pool_names declarations.now)) }
        ensures procedures { IfOk result (λ t. t.procedures ≡ each_once (procedure_names procedures.now)) }
    {
        Ok(Tables {
            variables: variables_of(alloc, declarations)?,
            kinds: kinds_of(alloc, declarations)?,
            pools: pools_of(alloc, declarations)?,
            procedures: procedures_of(alloc, procedures)?,
        })
    }

    /// The kinds of the variables.
    pub fn into_kinds(self) -> Kinds
        ensures { result ≡ self.entry.kinds }
    {
        let Tables {
            variables: _,
            kinds,
            pools: _,
            procedures: _,
        } = self;
        kinds
    }
}

fn variables_of<'s>(
    alloc: Global,
    declarations: &'s [Declaration],
) -> Result<Numbering<'s>, AllocError>
    ensures { IfOk result (λ n. n ≡ each_once (variable_names declarations.now)) }
{
    let mut variables = Numbering::new(alloc);
    for declaration in declarations {
        match declaration {
            Declaration::Variable(name, _) => variables.add(name)?,
            Declaration::Pool(_, _) => (),
        }
    }
    Ok(variables)
}

fn kinds_of(alloc: Global, declarations: &[Declaration]) -> Result<Kinds, AllocError>
    ensures { IfOk result (λ k. k ≡ variable_kinds declarations.now) }
{
    let mut kinds = Vec::new(alloc);
    for declaration in declarations {
        match declaration {
            Declaration::Variable(_, kind) => kinds.push(*kind)?,
            Declaration::Pool(_, _) => (),
        }
    }
    Ok(Kinds::new(kinds))
}

fn pools_of<'s>(alloc: Global, declarations: &'s [Declaration]) -> Result<Numbering<'s>, AllocError>
    ensures { IfOk result (λ n. n ≡ each_once (pool_names declarations.now)) }
{
    let mut pools = Numbering::new(alloc);
    for declaration in declarations {
        match declaration {
            Declaration::Variable(_, _) => (),
            Declaration::Pool(name, _) => pools.add(name)?,
        }
    }
    Ok(pools)
}

fn procedures_of<'s>(
    alloc: Global,
    procedures: &'s [Procedure],
) -> Result<Numbering<'s>, AllocError>
    ensures { IfOk result (λ n. n ≡ each_once (procedure_names procedures.now)) }
{
    let mut names = Numbering::new(alloc);
    for procedure in procedures {
        names.add(&procedure.name)?;
    }
    Ok(names)
}

/// The variable of each declared pool.
pub fn pool_variables(
    alloc: Global,
    variables: &Numbering<'_>,
    declarations: &[Declaration],
) -> Result<Indices, AllocError>
    ensures { IfOk result (λ p. p ≡ pool_variables variables.now declarations.now) }
{
    let mut pools = Vec::new(alloc);
    for declaration in declarations {
        match declaration {
            Declaration::Variable(_, _) => (),
            Declaration::Pool(_, variable) => pools.push(variables.number_of(variable.as_str()))?,
        }
    }
    Ok(Indices::new(pools))
}
