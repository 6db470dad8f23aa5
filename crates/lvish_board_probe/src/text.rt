//! Boards, as text.

use lvish_board::{Board, BoardBrand, Outcome, TraceEntry};
use lvish_calculus::{Label, Program};
use lvish_core::Core;
use lvish_lattice::{Lattice, Numbered};
use lvish_variable::{Entry as Logged, Variable};
use std::alloc::{AllocError, Global};
use std::fmt::Write;

/// How a board is over.
pub fn write_outcome<E: Numbered>(
    text: &mut String,
    outcome: Option<&Outcome<E>>,
) -> Result<(), AllocError> {
    match outcome {
        None => text.push_str("None"),
        Some(Outcome::Ended) => text.push_str("Ended"),
        Some(Outcome::Budget) => text.push_str("Budget"),
        Some(
            Outcome::Error {
                kind,
                variable,
                task,
            },
        ) => write!(text, "Error {kind:?} {variable:?} {task}"),
    }
}

/// Each step of a trace, with the worker that made it.
pub fn write_trace<E: Numbered>(
    text: &mut String,
    trace: &[TraceEntry<E>],
) -> Result<(), AllocError> {
    for entry in trace {
        write!(text, " | {} ", entry.worker)?;
        write_label(text, &entry.label)?;
    }
    Ok(())
}

/// What a step is.
pub fn write_label<E: Numbered>(text: &mut String, label: &Label<E>) -> Result<(), AllocError> {
    match label {
        Label::Act(name) => write!(text, "run {name}"),
        Label::Hand(name, event) => write!(text, "hand {name}:{}:{}", event.key(), event.number()),
    }
}

/// The state of each variable.
pub fn write_states<L: Lattice>(
    text: &mut String,
    alloc: Global,
    variables: &[Variable<L>],
) -> Result<(), AllocError>
where
    L::Event: Numbered,
{
    for variable in variables {
        write_state(text, alloc, variable)?;
    }
    Ok(())
}

fn write_state<L: Lattice>(
    text: &mut String,
    alloc: Global,
    variable: &Variable<L>,
) -> Result<(), AllocError>
where
    L::Event: Numbered,
{
    let events = variable.state().events(alloc)?;
    write_events(text, &events)?;
    text.push_str(if variable.is_frozen() {
        " } frozen"
    } else {
        " }"
    })
}

fn write_events<E: Numbered>(text: &mut String, events: &[E]) -> Result<(), AllocError> {
    text.push_str(", {")?;
    for event in events {
        write!(text, " {}:{}", event.key(), event.number())?;
    }
    Ok(())
}

/// The log of each variable.
fn write_logs<L: Lattice>(text: &mut String, variables: &[Variable<L>]) -> Result<(), AllocError>
where
    L::Event: Numbered,
{
    for variable in variables {
        write_log(text, variable.log())?;
    }
    Ok(())
}

fn write_log<E: Numbered>(text: &mut String, log: &[Logged<E>]) -> Result<(), AllocError> {
    text.push_str(", log")?;
    for entry in log {
        let event = &entry.event;
        write!(
            text,
            " {}:{} by {} {}",
            event.key(),
            event.number(),
            entry.task,
            entry.number
        )?;
    }
    Ok(())
}

/// The labels that can be taken.
fn write_labels<P: Program>(
    text: &mut String,
    alloc: Global,
    core: &Core<'_, P>,
) -> Result<(), AllocError>
where
    <P::Lat as Lattice>::Event: Numbered,
{
    let labels = core.labels(alloc)?;
    write_each_label(text, &labels)
}

fn write_each_label<E: Numbered>(text: &mut String, labels: &[Label<E>]) -> Result<(), AllocError> {
    text.push_str(", can")?;
    for label in labels {
        text.push_str(" ")?;
        write_label(text, label)?;
    }
    Ok(())
}

/// What shows of a board's core and trace: the steps, the tasks that haven't ended, the states and
/// their logs, the labels that can be taken, and the entries.
pub fn write_machine<P: Program, B: BoardBrand<P>>(
    text: &mut String,
    alloc: Global,
    board: &Board<'_, P, B>,
) -> Result<(), AllocError>
where
    <P::Lat as Lattice>::Event: Numbered,
{
    let core = board.core();
    write!(text, "{} steps, {} running", core.steps(), core.running())?;
    write_states(text, alloc, core.states())?;
    write_logs(text, core.states())?;
    write_labels(text, alloc, core)?;
    let trace = board.entries(alloc)?;
    write_trace(text, &trace)
}
