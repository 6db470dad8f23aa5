ghost use Rattle.std.specs.Prelude.{◌≡◌, ◌++◌, ◌∷◌, [], ℕ, ◌+◌, ◌<◌, List, IfOk, OnOk, length, take};
ghost use Rattle.std.specs.Option.{option_map_or};
ghost use Rattle.std.specs.List.{list_all};
ghost use Rattle.lvish_syntax.specs.Words.{Word};
ghost use Rattle.lvish_syntax.specs.Name.{is_known};
ghost use Rattle.lvish_syntax.specs.Sound.{command_binds, is_value_known, is_threshold_known};
ghost use Rattle.lvish_checks.specs.declared.line.Line.{Line};
ghost use Rattle.lvish_checks.specs.declared.fault.Fault.TheVariants.{UnknownName};
ghost use Rattle.lvish_checks.specs.Checks.{binds, binds_until_procedure, has_pool, command_unknown, names_unknown, locals_at, line_fails, on_line, IsFirstOn};
ghost use Rattle.lvish_checks.specs.Known.{AreVariables, ArePools, AreProcedures, HaveSameNames};

use crate::declared::{Declared, declared_by, is_procedure};
use crate::line::Line;
use crate::name_set::NameSet;
use lvish_syntax::{Command, Declaration, Identifier, LetValue, Term, Threshold};
use std::alloc::{AllocError, Global};

/// The local to which a statement gives a value.
fn command_bound(command: &Command) -> Option<&Identifier>
    ensures { option_map_or (λ x. x.now ∷ []) result [] ≡ command_binds command.now }
{
    match command {
        Command::Let(x, _) => Some(x),
        Command::Get(x, _, _) => Some(x),
        Command::GetAt(x, _, _, _) => Some(x),
        Command::Freeze(x, _, _) => Some(x),
        Command::FreezeEach(x, _, _, _) => Some(x),
        _ => None,
    }
}

/// The local to which a line gives a value.
fn bound(line: &Line) -> Option<&Identifier>
    ensures { option_map_or (λ x. x.now ∷ []) result [] ≡ binds line.now }
{
    match line {
        Line::Do(command) => command_bound(command.get()),
        _ => None,
    }
}

/// The locals of a procedure with these parameters, whose statements begin the lines.
fn locals_of<'a>(
    alloc: Global,
    parameters: &'a [Identifier],
    lines: &'a [Line],
) -> Result<NameSet<'a>, AllocError>
    ensures { IfOk result (λ locals. HaveSameNames locals (parameters.now ++ binds_until_procedure lines.now)) }
{
    let mut locals = NameSet::with_room(alloc, parameters.len())?;
    for name in parameters {
        locals.add(name)?;
    }
    for line in lines {
        if is_procedure(line) {
            break;
        }
        if let Some(x) = bound(line) {
            locals.add(x)?;
        }
    }
    Ok(locals)
}

fn is_known(locals: &NameSet, term: &Term) -> bool
    ensures { (names : List Word) → HaveSameNames locals.now names → result ≡ is_known names term.now }
{
    match term {
        Term::Local(name) => locals.contains(name),
        Term::Number(_) => true,
    }
}

fn are_known(locals: &NameSet, terms: &[Term]) -> bool
    ensures { (names : List Word) → HaveSameNames locals.now names → result ≡ list_all (is_known names) terms.now }
{
    for term in terms {
        if !is_known(locals, term) {
            return false;
        }
    }
    true
}

fn is_value_known(locals: &NameSet, value: &LetValue) -> bool
    ensures { (names : List Word) → HaveSameNames locals.now names → result ≡ is_value_known names value.now }
{
    match value {
        LetValue::Same(term) => is_known(locals, term),
        LetValue::Combined(left, _, right) => is_known(locals, left) && is_known(locals, right),
    }
}

fn is_threshold_known(locals: &NameSet, threshold: &Threshold) -> bool
    ensures { (names : List Word) → HaveSameNames locals.now names → result ≡ is_threshold_known names threshold.now }
{
    match threshold {
        Threshold::Has(term) | Threshold::Least(term) | Threshold::Total(term) => {
            is_known(locals, term)
        }
        Threshold::Any | Threshold::In(_) => true,
    }
}

fn are_pools(declared: &Declared, names: &[Identifier]) -> bool
    ensures { (lines : List Line) → ArePools declared.now.pools lines → result ≡ list_all (λ p. has_pool p lines) names.now }
{
    for name in names {
        if !declared.pools.contains(name) {
            return false;
        }
    }
    true
}

/// Whether a statement names what isn't declared, or a term that is none of the locals.
fn command_unknown(declared: &Declared, locals: &NameSet, command: &Command) -> bool
    ensures { (lines : List Line) (names : List Word) → AreVariables declared.now.variables lines → ArePools declared.now.pools lines → AreProcedures declared.now.procedures lines → HaveSameNames locals.now names → result ≡ command_unknown lines names command.now }
{
    match command {
        Command::Let(_, value) => !is_value_known(locals, value),
        Command::Put(v, term) => !declared.variables.contains(v) || !is_known(locals, term),
        Command::PutAt(v, place, term) => {
            !declared.variables.contains(v) || !is_known(locals, place) || !is_known(locals, term)
        }
        Command::Get(_, v, threshold) => {
            !declared.variables.contains(v) || !is_threshold_known(locals, threshold)
        }
        Command::GetAt(_, v, place, threshold) => {
            !declared.variables.contains(v)
                || !is_known(locals, place)
                || !is_threshold_known(locals, threshold)
        }
        Command::Fork(procedure, terms) | Command::Call(procedure, terms) => {
            !declared.procedures.contains(procedure) || !are_known(locals, terms.as_slice())
        }
        Command::Handle(pool, procedure) => {
            !declared.pools.contains(pool) || !declared.procedures.contains(procedure)
        }
        Command::Freeze(_, v, pools) => {
            !declared.variables.contains(v) || !are_pools(declared, pools.as_slice())
        }
        Command::FreezeEach(_, v, pools, procedure) => {
            !declared.variables.contains(v)
                || !are_pools(declared, pools.as_slice())
                || !declared.procedures.contains(procedure)
        }
    }
}

/// Whether a line names what isn't declared; a pool's variable must be declared above it.
fn names_unknown(declared: &Declared, above: &NameSet, locals: &NameSet, line: &Line) -> bool
    ensures { (lines : List Line) (k : ℕ) → AreVariables declared.now.variables lines → ArePools declared.now.pools lines → AreProcedures declared.now.procedures lines → AreVariables above.now (take k lines) → HaveSameNames locals.now (locals_at lines k) → result ≡ names_unknown lines k line.now }
{
    match line {
        Line::Declare(declaration) => match declaration.get() {
            Declaration::Pool(_, variable) => !above.contains(variable),
            Declaration::Variable(_, _) => false,
        },
        Line::Do(command) => command_unknown(declared, locals, command.get()),
        Line::If(term) | Line::While(term) => !is_known(locals, term.get()),
        _ => false,
    }
}

/// Adds the variable that a line declares, if it declares one.
fn add_variable<'a>(variables: &mut NameSet<'a>, line: &'a Line) -> Result<(), AllocError>
    ensures { (before : List Line) → AreVariables variables.old before → OnOk result (AreVariables variables.new (before ++ line.now ∷ [])) }
{
    match line {
        Line::Declare(declaration) => match declaration.get() {
            Declaration::Variable(name, _) => {
                variables.add(name)?;
            }
            Declaration::Pool(_, _) => {}
        },
        _ => {}
    }
    Ok(())
}

/// Goes on to the locals below a line: those of the procedure that it begins, else those that stood
/// there.
fn go_below<'a>(
    alloc: Global,
    locals: &mut NameSet<'a>,
    lines: &'a [Line],
    k: usize,
) -> Result<(), AllocError>
    requires { k < length lines.now }
    ensures { HaveSameNames locals.old (locals_at lines.now k) → OnOk result (HaveSameNames locals.new (locals_at lines.now (k + 1))) }
{
    match &lines[k] {
        Line::Proc(_, parameters) => {
            *locals = locals_of(alloc, parameters.get().as_slice(), &lines[k + 1..])?;
            Ok(())
        }
        _ => Ok(()),
    }
}

/// The first of these lines that names what isn't among those declared, or a local that its
/// procedure does not have.
fn first_unknown_of(
    alloc: Global,
    lines: &[Line],
    declared: &Declared,
) -> Result<Option<usize>, AllocError>
    requires variables { AreVariables declared.now.variables lines.now }
    requires pools { ArePools declared.now.pools lines.now }
    requires procedures { AreProcedures declared.now.procedures lines.now }
    ensures { IfOk result (λ found. IsFirstOn (on_line (line_fails UnknownName lines.now) lines.now) found) }
{
    let mut above = NameSet::new(alloc);
    let mut locals = NameSet::new(alloc);
    for k in 0..lines.len() {
        let line = &lines[k];
        if names_unknown(declared, &above, &locals, line) {
            return Ok(Some(k + 1));
        }
        add_variable(&mut above, line)?;
        go_below(alloc, &mut locals, lines, k)?;
    }
    Ok(None)
}

/// The first line that names what isn't declared, or a local that its procedure does not have.
pub fn first_unknown_name(alloc: Global, lines: &[Line]) -> Result<Option<usize>, AllocError>
    ensures { IfOk result (λ found. IsFirstOn (on_line (line_fails UnknownName lines.now) lines.now) found) }
{
    let declared = declared_by(alloc, lines)?;
    first_unknown_of(alloc, lines, &declared)
}
