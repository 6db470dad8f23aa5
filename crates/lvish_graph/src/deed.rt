ghost use Rattle.std.specs.Prelude.{◌≡◌, ◌++◌, IfOk, OnOk, map};
ghost use Rattle.std.specs.List.{flat_map};
ghost use Rattle.lvish_syntax.specs.Nested.{statements};
ghost use Rattle.lvish_graph.specs.Deeds.{deed, command_deeds, statement_deeds, deeds_of};
ghost use Rattle.lvish_graph.specs.declared.deed.Deed.TheVariants.{Does};
ghost use Rattle.lvish_graph.specs.declared.verb.Verb.TheVariants.{Awaits};

use crate::verb::Verb;
use lvish_syntax::{Block, Command, Identifier, Procedure, Statement};
use std::alloc::{AllocError, Global};

/// What a statement does.
pub enum Deed {
    /// It does this to the variable, the pool or the procedure with this name.
    Does(Verb, Identifier),
    /// It adds a handler: the pool, then the procedure.
    Handles(Identifier, Identifier),
}

// Written out, so that it is proved once, and not at each exit of a function that owns one.
impl Drop for Deed {
    fn drop(self) {
        match self {
            Deed::Does(_, _) => {}
            Deed::Handles(_, _) => {}
        }
    }
}

/// What a procedure does, in the order of its lines.
pub fn deeds_of(alloc: Global, procedure: &Procedure) -> Result<Vec<Deed>, AllocError>
    ensures { IfOk result (λ deeds. deeds.items ≡ deeds_of procedure.now) }
{
    let mut deeds = Vec::new(alloc);
    push_block(&mut deeds, &procedure.body)?;
    Ok(deeds)
}

/// What statements do, and those within them, behind other deeds.
#[cycle(push)]
fn push_block(deeds: &mut Vec<Deed>, block: &Block) -> Result<(), AllocError>
    ensures { OnOk result (deeds.new.items ≡ deeds.old.items ++ flat_map statement_deeds (statements block.now)) }
{
    for statement in &block.items {
        push_statement(deeds, statement)?;
    }
    Ok(())
}

/// What a statement does, and those within it.
#[cycle(push)]
fn push_statement(deeds: &mut Vec<Deed>, statement: &Statement) -> Result<(), AllocError>
    ensures { OnOk result (deeds.new.items ≡ deeds.old.items ++ statement_deeds statement.now) }
{
    match statement {
        Statement::Do(command) => push_command(deeds, command.get()),
        Statement::If(_, block) => push_block(deeds, block),
        Statement::IfElse(_, first, second) => {
            push_block(deeds, first)?;
            push_block(deeds, second)
        }
        Statement::While(_, block) => push_block(deeds, block),
    }
}

/// What a statement of one line does.
fn push_command(deeds: &mut Vec<Deed>, command: &Command) -> Result<(), AllocError>
    ensures { OnOk result (deeds.new.items ≡ deeds.old.items ++ command_deeds command.now) }
{
    match command {
        Command::Let(_, _) => Ok(()),
        Command::Put(variable, _) => push(deeds, Verb::Puts, variable),
        Command::PutAt(variable, _, _) => push(deeds, Verb::Puts, variable),
        Command::Get(_, variable, _) => push(deeds, Verb::Reads, variable),
        Command::GetAt(_, variable, _, _) => push(deeds, Verb::Reads, variable),
        Command::Fork(procedure, _) => push(deeds, Verb::Forks, procedure),
        Command::Call(procedure, _) => push(deeds, Verb::Calls, procedure),
        Command::Handle(pool, procedure) => {
            deeds.push(Deed::Handles(pool.copy(), procedure.copy()))?;
            Ok(())
        }
        Command::Freeze(_, variable, pools) => {
            push(deeds, Verb::Freezes, variable)?;
            push_awaited(deeds, pools.as_slice())
        }
        Command::FreezeEach(_, variable, pools, procedure) => {
            push(deeds, Verb::Freezes, variable)?;
            push_awaited(deeds, pools.as_slice())?;
            push(deeds, Verb::Calls, procedure)
        }
    }
}

/// That it does this to the one with this name.
fn push(deeds: &mut Vec<Deed>, verb: Verb, name: &Identifier) -> Result<(), AllocError>
    ensures { OnOk result (deeds.new.items ≡ deeds.old.items ++ deed verb name.now) }
{
    deeds.push(Deed::Does(verb, name.copy()))?;
    Ok(())
}

/// That it waits for these pools.
fn push_awaited(deeds: &mut Vec<Deed>, pools: &[Identifier]) -> Result<(), AllocError>
    ensures { OnOk result (deeds.new.items ≡ deeds.old.items ++ map (λ p. Does Awaits p) pools.now) }
{
    for pool in pools {
        deeds.push(Deed::Does(Verb::Awaits, pool.copy()))?;
    }
    Ok(())
}
