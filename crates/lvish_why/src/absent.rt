//! What is said of an event that isn't there.

use crate::page::{Page, push_task};
use crate::question::{Question, can_be};
use lvish_code::{Action, Instruction, Routine};
use lvish_compound::Event;
use lvish_explain::Draft;
use lvish_retrace::Live;
use lvish_trace::Outcome;
use std::alloc::{AllocError, Global};

/// What is said where the variable can't have such an event.
const NEVER: &[u8] =
    b"it can't be: a pair has the sides 1 and 2, and a counter and an amount are from 1 to 1000\n";

/// The procedure that an instruction leads to: it calls it, forks it, or hands events to it.
fn named(instruction: &Instruction) -> Option<usize> {
    match instruction {
        Instruction::Call(procedure, _) => Some(*procedure),
        Instruction::Ask(Action::Fork(procedure, _)) => Some(*procedure),
        Instruction::Ask(Action::Handle(_, procedure)) => Some(*procedure),
        Instruction::Ask(Action::Freeze(_, _, _, each)) => *each,
        _ => None,
    }
}

/// Whether an instruction puts into the variable.
fn puts(instruction: &Instruction, variable: usize) -> bool {
    match instruction {
        Instruction::Ask(Action::Put(put, _, _)) => *put == variable,
        _ => false,
    }
}

/// Whether an instruction puts into the variable, or leads to a procedure that is marked.
fn leads(instruction: &Instruction, variable: usize, marked: &[bool]) -> bool {
    if puts(instruction, variable) {
        return true;
    }
    match named(instruction) {
        Some(procedure) => is_marked(marked, procedure),
        None => false,
    }
}

/// Whether the procedure is marked.
fn is_marked(marked: &[bool], procedure: usize) -> bool {
    match marked.get(procedure) {
        Some(mark) => *mark,
        None => false,
    }
}

/// Whether one of the instructions does.
fn one_leads(instructions: &[Instruction], variable: usize, marked: &[bool]) -> bool {
    for instruction in instructions {
        if leads(instruction, variable, marked) {
            return true;
        }
    }
    false
}

/// Which procedures can come to a put into the variable, or to a task or handler that can.
fn putting(alloc: Global, routines: &[Routine], variable: usize) -> Result<Vec<bool>, AllocError> {
    let mut marked = Vec::new(alloc);
    marked.resize(routines.len(), false)?;
    for _ in 0..routines.len() {
        for procedure in 0..routines.len() {
            let found = one_leads(
                routines[procedure].instructions.as_slice(),
                variable,
                marked.as_slice(),
            );
            if found && procedure < marked.len() {
                marked[procedure] = true;
            }
        }
    }
    Ok(marked)
}

/// Whether a task is in a procedure that is marked.
fn can_put(live: &Live, marked: &[bool]) -> bool {
    for call in live.standing.calls.as_slice() {
        if is_marked(marked, call.procedure) {
            return true;
        }
    }
    is_marked(marked, live.standing.procedure)
}

/// Adds where a task stands that could put the event: it waits there, where the run is at an end.
fn push_live(page: &Page<'_, '_>, text: &mut Draft, live: &Live, stands: &[u8]) {
    let Some(name) = page.told.names.get(live.task) else {
        return;
    };
    push_task(text, name);
    text.add(stands);
    page.push_place(text, live.standing.line);
    text.add(b": ");
    page.push_line(text, live.standing.line);
    page.push_locals(text, &live.standing);
    text.add(b"\n");
}

/// What stands between such a task and its line.
fn stands_in(outcome: &Outcome<Event>) -> &'static [u8] {
    match outcome {
        Outcome::Ended => b" waits in ",
        _ => b" stands in ",
    }
}

/// Which tasks that haven't ended are in procedures that are marked, and where they stand.
fn push_putting(page: &Page<'_, '_>, text: &mut Draft, stands: &[u8], marked: &[bool]) {
    let mut none = true;
    for live in page.told.live.as_slice() {
        if can_put(live, marked) {
            push_live(page, text, live, stands);
            none = false;
        }
    }
    if none {
        text.add(b"no task is left that could put it\n");
    }
}

/// That the event isn't there, and which tasks could put it that haven't ended; or that there is no such
/// event.
pub fn absent_text(
    alloc: Global,
    page: &Page<'_, '_>,
    outcome: &Outcome<Event>,
    asked: Question,
    event: Option<Event>,
) -> Result<Vec<u8>, AllocError> {
    let mut text = Draft::new(alloc);
    page.push_event(&mut text, asked.variable, asked.key, asked.number);
    text.add(b" isn't there\n");
    match event {
        Some(event) if can_be(event) => {
            let marked = putting(alloc, page.code.routines(), asked.variable)?;
            push_putting(page, &mut text, stands_in(outcome), marked.as_slice());
        }
        _ => text.add(NEVER),
    }
    text.into_bytes()
}
