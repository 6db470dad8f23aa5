ghost use Rattle.std.specs.Prelude.{◌≡◌, ◌++◌, [], ◌∷◌, ◌<◌, ◌-◌, length, IfOk, OnOk, map};
ghost use Rattle.std.specs.List.{slice_set};
ghost use Rattle.lvish_syntax.specs.Nested.{statements};
ghost use Rattle.lvish_code.specs.Compile.{local_names, statement_code, list_code, routine_of};
ghost use Rattle.lvish_code.specs.declared.instruction.Instruction.TheVariants.{SkipIfZero, BackUnlessZero, GoOn};
ghost use Rattle.lvish_code.specs.InScope.{names_in, names_with};

use crate::instruction::{Instruction, Instructions};
use crate::locals::locals_of;
use crate::operand::Operand;
use crate::routine::{Routine, Routines};
use crate::scope::Scope;
use crate::tables::Tables;
use lvish_syntax::{Block, Procedure, Statement};
use std::alloc::{AllocError, Global};

/// Appends the instructions of statements.
#[cycle(emit)]
fn emit_block(
    alloc: Global,
    scope: &Scope<'_, '_>,
    code: &mut Vec<Instruction>,
    block: &Block,
) -> Result<(), AllocError>
    ensures { OnOk result (code.new.items ≡ code.old.items ++ list_code (names_in scope.now) (statements block.now)) }
{
    for statement in &block.items {
        emit_statement(alloc, scope, code, statement)?;
    }
    Ok(())
}

/// Appends the instructions of a statement.
#[cycle(emit)]
fn emit_statement(
    alloc: Global,
    scope: &Scope<'_, '_>,
    code: &mut Vec<Instruction>,
    statement: &Statement,
) -> Result<(), AllocError>
    ensures { OnOk result (code.new.items ≡ code.old.items ++ statement_code (names_in scope.now) statement.now) }
{
    match statement {
        Statement::Do(command) => append(code, scope.command(alloc, command.get())?),
        Statement::If(term, block) => {
            let test = reserve(code)?;
            emit_block(alloc, scope, code, block)?;
            end_if(code, test, scope.operand(term.get()));
            Ok(())
        }
        Statement::IfElse(term, first, second) => {
            let test = reserve(code)?;
            emit_block(alloc, scope, code, first)?;
            let first_end = reserve(code)?;
            emit_block(alloc, scope, code, second)?;
            end_if_else(code, test, first_end, scope.operand(term.get()));
            Ok(())
        }
        Statement::While(term, block) => {
            let test = reserve(code)?;
            emit_block(alloc, scope, code, block)?;
            end_while(code, test, scope.operand(term.get()))
        }
    }
}

/// Makes room for a jump, and answers its place.
fn reserve(code: &mut Vec<Instruction>) -> Result<usize, AllocError>
    ensures place { IfOk result (λ place. place ≡ length code.old.items) }
    ensures room { OnOk result (code.new.items ≡ code.old.items ++ GoOn 0 ∷ []) }
{
    let place = code.len();
    code.push(Instruction::GoOn(0))?;
    Ok(place)
}

fn append(code: &mut Vec<Instruction>, instruction: Instruction) -> Result<(), AllocError>
    ensures { OnOk result (code.new.items ≡ code.old.items ++ instruction ∷ []) }
{
    code.push(instruction)?;
    Ok(())
}

/// Writes an instruction in place of another.
fn patch(code: &mut Vec<Instruction>, place: usize, instruction: Instruction)
    requires { place < length code.old.items }
    ensures { code.new.items ≡ slice_set code.old.items place instruction }
{
    code[place] = instruction;
}

/// Writes the jump of an `if` past its block, with which the code ends.
fn end_if(code: &mut Vec<Instruction>, test: usize, operand: Operand)
    requires { test < length code.old.items }
    ensures { code.new.items ≡ slice_set code.old.items test (SkipIfZero operand (length code.old.items - test - 1)) }
{
    let passed = code.len() - test - 1;
    patch(code, test, Instruction::SkipIfZero(operand, passed));
}

/// Writes the jumps of an `if` past its first block and past the second, with which the code ends.
fn end_if_else(code: &mut Vec<Instruction>, test: usize, first_end: usize, operand: Operand)
    requires first { test < first_end }
    requires second { first_end < length code.old.items }
    ensures { code.new.items ≡ slice_set (slice_set code.old.items test (SkipIfZero operand (first_end - test))) first_end (GoOn (length code.old.items - first_end - 1)) }
{
    let passed = code.len() - first_end - 1;
    let skip = Instruction::SkipIfZero(operand, first_end - test);
    patch(code, test, skip);
    patch(code, first_end, Instruction::GoOn(passed));
}

/// Appends the jump of a `while` back to its block, with which the code ends, and writes the one
/// past it.
fn end_while(code: &mut Vec<Instruction>, test: usize, operand: Operand) -> Result<(), AllocError>
    requires { test < length code.old.items }
    ensures { OnOk result (code.new.items ≡ slice_set (code.old.items ++ BackUnlessZero operand (length code.old.items - test - 1) ∷ []) test (SkipIfZero operand (length code.old.items - test))) }
{
    let block_end = code.len();
    let back = Instruction::BackUnlessZero(operand, block_end - test - 1);
    append(code, back)?;
    let skip = Instruction::SkipIfZero(operand, block_end - test);
    patch(code, test, skip);
    Ok(())
}

/// The routine of a procedure.
fn routine_of(
    alloc: Global,
    tables: &Tables<'_>,
    procedure: &Procedure,
) -> Result<Routine, AllocError>
    ensures { IfOk result (λ r. r ≡ routine_of (names_with tables.now (local_names procedure.now)) procedure.now) }
{
    let locals = locals_of(alloc, procedure)?;
    let scope = Scope {
        tables,
        locals: &locals,
    };
    let mut code = Vec::new(alloc);
    emit_block(alloc, &scope, &mut code, &procedure.body)?;
    append(&mut code, Instruction::Return)?;
    Ok(Routine {
        parameters: procedure.parameters.as_slice().len(),
        locals: locals.len(),
        instructions: Instructions::new(code),
    })
}

/// The routines of procedures, in their order.
pub fn routines_of(
    alloc: Global,
    tables: &Tables<'_>,
    procedures: &[Procedure],
) -> Result<Routines, AllocError>
    ensures { IfOk result (λ rs. rs ≡ map (λ p. routine_of (names_with tables.now (local_names p)) p) procedures.now) }
{
    let mut routines = Vec::with_capacity(alloc, procedures.len())?;
    for procedure in procedures {
        routines.push(routine_of(alloc, tables, procedure)?)?;
    }
    Ok(Routines::new(routines))
}
