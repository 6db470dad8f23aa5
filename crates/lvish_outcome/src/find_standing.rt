//! Where a task stands, by the names of the text.

ghost use Rattle.std.specs.Prelude.{◌≡◌, IfOk};

use crate::standing::{CallText, LocalText, StandingText};
use lvish_compound::Event;
use lvish_names::TaskName;
use lvish_retrace::{Standing, ToldProcedure};
use std::alloc::{AllocError, Global};

/// The name of the procedure with this number.
fn name_at<'t>(procedures: &[ToldProcedure<'t>], number: usize) -> &'t [u8] {
    match procedures.get(number) {
        Some(procedure) => procedure.name,
        None => b"?",
    }
}

/// Locals of these names, as far as they have values.
fn push_values<'t>(
    locals: &mut Vec<LocalText<'t>>,
    names: &[&'t [u8]],
    values: &[i64],
) -> Result<(), AllocError> {
    for place in 0..names.len() {
        if place < values.len() {
            let (name, value) = (names[place], values[place]);
            locals.push(LocalText { name, value })?;
        }
    }
    Ok(())
}

/// The locals of the procedure with this number, with their values.
fn locals_of<'t>(
    alloc: Global,
    procedures: &[ToldProcedure<'t>],
    stand: &Standing,
) -> Result<Vec<LocalText<'t>>, AllocError> {
    let mut locals = Vec::new(alloc);
    let Some(procedure) = procedures.get(stand.procedure) else {
        return Ok(locals);
    };
    push_values(
        &mut locals,
        procedure.locals.as_slice(),
        stand.values.as_slice(),
    )?;
    Ok(locals)
}

/// Whether the last of the calls stands in this line.
fn ends_at(calls: &[CallText<'_>], line: usize) -> bool {
    match calls.last() {
        Some(last) => last.line == line,
        None => false,
    }
}

/// A call, behind others.
fn push_call<'t>(
    calls: &mut Vec<CallText<'t>>,
    procedure: &'t [u8],
    line: usize,
) -> Result<(), AllocError> {
    if ends_at(calls.as_slice(), line) {
        if let Some(last) = calls.last_mut() {
            last.times = last.times.saturating_add(1);
        }
        return Ok(());
    }
    calls.push(CallText {
        procedure,
        line,
        times: 1,
    })?;
    Ok(())
}

/// The calls, the innermost first.
fn calls_of<'t>(
    alloc: Global,
    procedures: &[ToldProcedure<'t>],
    stand: &Standing,
) -> Result<Vec<CallText<'t>>, AllocError> {
    let mut calls = Vec::new(alloc);
    for place in (0..stand.calls.len()).rev() {
        let call = stand.calls[place];
        push_call(&mut calls, name_at(procedures, call.procedure), call.line)?;
    }
    Ok(calls)
}

/// Where the task stands.
pub fn standing_of<'a>(
    alloc: Global,
    procedures: &[ToldProcedure<'a>],
    task: &'a TaskName<Event>,
    stand: &Standing,
) -> Result<StandingText<'a>, AllocError>
    ensures task { IfOk result (λ s. s.task.now ≡ task.now) }
    ensures line { IfOk result (λ s. s.line ≡ stand.now.line) }
{
    Ok(StandingText {
        task,
        procedure: name_at(procedures, stand.procedure),
        line: stand.line,
        locals: locals_of(alloc, procedures, stand)?,
        calls: calls_of(alloc, procedures, stand)?,
    })
}
