ghost use Rattle.std.specs.Prelude.{◌≡◌, IfOk, OnOk};
ghost use Rattle.std.specs.List.{fold, flat_map};
ghost use Rattle.lvish_syntax.specs.Nested.{statements};
ghost use Rattle.lvish_syntax.specs.Sound.{command_binds};
ghost use Rattle.lvish_code.specs.Numbering.{with_name};
ghost use Rattle.lvish_code.specs.Compile.{local_names, binds_of};

use crate::numbering::Numbering;
use lvish_syntax::{Block, Command, Procedure, Statement};
use std::alloc::{AllocError, Global};

/// The numbers of a procedure's locals: its parameters, and then the others in the order in which
/// they are first given a value.
pub fn locals_of<'s>(alloc: Global, procedure: &'s Procedure) -> Result<Numbering<'s>, AllocError>
    ensures { IfOk result (λ n. n ≡ local_names procedure.now) }
{
    let mut locals = Numbering::new(alloc);
    for parameter in procedure.parameters.as_slice() {
        locals.add(parameter)?;
    }
    add_in_block(&mut locals, &procedure.body)?;
    Ok(locals)
}

/// Adds the locals to which statements give values.
#[cycle(binds)]
fn add_in_block<'s>(locals: &mut Numbering<'s>, block: &'s Block) -> Result<(), AllocError>
    ensures { OnOk result (locals.new ≡ fold with_name locals.old (flat_map binds_of (statements block.now))) }
{
    for statement in &block.items {
        add_in_statement(locals, statement)?;
    }
    Ok(())
}

/// Adds the locals to which a statement gives values.
#[cycle(binds)]
fn add_in_statement<'s>(
    locals: &mut Numbering<'s>,
    statement: &'s Statement,
) -> Result<(), AllocError>
    ensures { OnOk result (locals.new ≡ fold with_name locals.old (binds_of statement.now)) }
{
    match statement {
        Statement::Do(command) => add_of_command(locals, command.get()),
        Statement::If(_, block) => add_in_block(locals, block),
        Statement::IfElse(_, first, second) => {
            add_in_block(locals, first)?;
            add_in_block(locals, second)
        }
        Statement::While(_, block) => add_in_block(locals, block),
    }
}

/// Adds the local to which a statement of one line gives a value.
fn add_of_command<'s>(locals: &mut Numbering<'s>, command: &'s Command) -> Result<(), AllocError>
    ensures { OnOk result (locals.new ≡ fold with_name locals.old (command_binds command.now)) }
{
    match command {
        Command::Let(local, _)
        | Command::Get(local, _, _)
        | Command::GetAt(local, _, _, _)
        | Command::Freeze(local, _, _)
        | Command::FreezeEach(local, _, _, _) => locals.add(local),
        _ => Ok(()),
    }
}
