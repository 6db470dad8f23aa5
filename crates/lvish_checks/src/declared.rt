ghost use Rattle.std.specs.Prelude.{◌≡◌, ◌++◌, ◌∷◌, [], List, IfOk, OnErr, OnOk};
ghost use Rattle.lvish_checks.specs.declared.line.Line.{Line};
ghost use Rattle.lvish_checks.specs.Checks.{is_variable, is_pool, is_procedure};
ghost use Rattle.lvish_checks.specs.Known.{AreVariables, ArePools, AreProcedures, AreArities};

use crate::line::Line;
use crate::name_set::NameSet;
use crate::name_table::NameTable;
use lvish_syntax::Declaration;
use std::alloc::{AllocError, Global};

/// Whether a line declares a variable.
pub fn is_variable(line: &Line) -> bool
    ensures { result ≡ is_variable line.now }
{
    match line {
        Line::Declare(declaration) => matches!(declaration.get(), Declaration::Variable(_, _)),
        _ => false,
    }
}

/// Whether a line declares a pool.
pub fn is_pool(line: &Line) -> bool
    ensures { result ≡ is_pool line.now }
{
    match line {
        Line::Declare(declaration) => matches!(declaration.get(), Declaration::Pool(_, _)),
        _ => false,
    }
}

/// Whether a line begins a procedure.
pub fn is_procedure(line: &Line) -> bool
    ensures { result ≡ is_procedure line.now }
{
    matches!(line, Line::Proc(_, _))
}

/// The names that lines declare.
#[derive(Drop)]
pub struct Declared<'a> {
    pub variables: NameSet<'a>,
    pub pools: NameSet<'a>,
    pub procedures: NameSet<'a>,
}

impl<'a> Declared<'a> {
    pub fn new(alloc: Global) -> Declared<'a>
        ensures variables { AreVariables result.variables [] }
        ensures pools { ArePools result.pools [] }
        ensures procedures { AreProcedures result.procedures [] }
    {
        Declared {
            variables: NameSet::new(alloc),
            pools: NameSet::new(alloc),
            procedures: NameSet::new(alloc),
        }
    }

    /// Adds the name that a line declares, if it declares one.
    pub fn add(&mut self, line: &'a Line) -> Result<(), AllocError>
        ensures variables { (before : List Line) → AreVariables self.old.variables before → OnOk result (AreVariables self.new.variables (before ++ line.now ∷ [])) }
        ensures pools { (before : List Line) → ArePools self.old.pools before → OnOk result (ArePools self.new.pools (before ++ line.now ∷ [])) }
        ensures procedures { (before : List Line) → AreProcedures self.old.procedures before → OnOk result (AreProcedures self.new.procedures (before ++ line.now ∷ [])) }
        ensures refused { OnErr result (self.new ≡ self.old) }
    {
        match line {
            Line::Declare(declaration) => match declaration.get() {
                Declaration::Variable(name, _) => {
                    self.variables.add(name)?;
                }
                Declaration::Pool(name, _) => {
                    self.pools.add(name)?;
                }
            },
            Line::Proc(name, _) => {
                self.procedures.add(name.get())?;
            }
            _ => {}
        }
        Ok(())
    }
}

/// The names that these lines declare.
pub fn declared_by(alloc: Global, lines: &[Line]) -> Result<Declared<'_>, AllocError>
    ensures variables { IfOk result (λ d. AreVariables d.variables lines.now) }
    ensures pools { IfOk result (λ d. ArePools d.pools lines.now) }
    ensures procedures { IfOk result (λ d. AreProcedures d.procedures lines.now) }
{
    let mut declared = Declared::new(alloc);
    for line in lines {
        declared.add(line)?;
    }
    Ok(declared)
}

fn add_arity<'a>(arities: &mut NameTable<'a, usize>, line: &'a Line) -> Result<(), AllocError>
    ensures { (before : List Line) → AreArities arities.old before → OnOk result (AreArities arities.new (before ++ line.now ∷ [])) }
{
    if let Line::Proc(name, parameters) = line {
        arities.add(name.get(), parameters.get().as_slice().len())?;
    }
    Ok(())
}

/// How many parameters the procedures have that the lines declare.
pub fn arities_of(alloc: Global, lines: &[Line]) -> Result<NameTable<'_, usize>, AllocError>
    ensures { IfOk result (λ counts. AreArities counts lines.now) }
{
    let mut arities = NameTable::new(alloc);
    for line in lines {
        add_arity(&mut arities, line)?;
    }
    Ok(arities)
}
