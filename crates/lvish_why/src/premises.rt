//! What a put follows from.

use lvish_compound::{Event, Kind, Place};
use lvish_retrace::{Act, Begin, Call, Standing, Story};
use std::alloc::{AllocError, Global};

/// What a put follows from.
#[derive(Clone, Copy, PartialEq, Eq)]
pub enum Premise {
    /// An event of a variable: a task was handed it, or a get read it, or an `each` called on it.
    Event { variable: usize, event: Event },
    /// What a get of a tally's total read, in this line.
    Total { variable: usize, line: usize },
    /// What a freeze answered, in this line.
    Frozen { variable: usize, line: usize },
}

/// Adds a premise, unless it is there.
fn add(premises: &mut Vec<Premise>, premise: Premise) -> Result<(), AllocError> {
    if !premises.as_slice().contains(&premise) {
        premises.push(premise)?;
    }
    Ok(())
}

/// The event that a get at a place read; `None` where its answer needs none.
fn event_read(place: Place, answer: i64) -> Option<Event> {
    let (key, kind) = match place {
        Place::Cell => (0, Kind::Cell),
        Place::Set => (0, Kind::Set),
        Place::Max => (0, Kind::Max),
        Place::Key(key) => (key, Kind::Map),
        Place::Amount(key) => (key, Kind::Tally),
        Place::Side(side, kind) => (side as i64, kind),
        Place::Total => return None,
    };
    let is_none = (kind == Kind::Max || kind == Kind::Tally) && answer < 1;
    if is_none {
        return None;
    }
    Some(Event {
        key,
        kind,
        number: answer,
    })
}

/// Adds what a step has read, if it read something.
fn add_read(premises: &mut Vec<Premise>, act: Act, line: usize) -> Result<(), AllocError> {
    match act {
        Act::Get {
            variable,
            place: Place::Total,
            ..
        } => add(premises, Premise::Total { variable, line }),
        Act::Get {
            variable,
            place,
            answer: Some(answer),
            ..
        } => match event_read(place, answer) {
            Some(event) => add(premises, Premise::Event { variable, event }),
            None => Ok(()),
        },
        Act::Freeze { variable } => add(premises, Premise::Frozen { variable, line }),
        _ => Ok(()),
    }
}

/// Adds what a task has read before this step.
fn add_reads(
    premises: &mut Vec<Premise>,
    told: &Story<'_>,
    task: usize,
    before: usize,
) -> Result<(), AllocError> {
    for step in told.steps.as_slice().iter().take(before) {
        if step.task == task {
            add_read(premises, step.act, step.line)?;
        }
    }
    Ok(())
}

/// The tasks that led to one, itself first, each with the step before which it read what counts: a
/// forked task stands before the one that forked it.
fn forkers(
    alloc: Global,
    told: &Story<'_>,
    task: usize,
    before: usize,
) -> Result<Vec<(usize, usize)>, AllocError> {
    let mut found = Vec::new(alloc);
    let (mut task, mut before) = (task, before);
    for _ in 0..told.begins.len() {
        found.push((task, before))?;
        match told.begins.get(task) {
            Some(Begin::Forked { by, step }) => {
                task = *by;
                before = *step;
            }
            _ => return Ok(found),
        }
    }
    Ok(found)
}

/// Adds the event that a task was handed, if it was, and what it has read before this step.
fn add_task(
    premises: &mut Vec<Premise>,
    told: &Story<'_>,
    task: usize,
    before: usize,
) -> Result<(), AllocError> {
    if let Some(
        Begin::Handed {
            variable,
            event,
            ..
        },
    ) = told.begins.get(task)
    {
        let (variable, event) = (*variable, *event);
        add(premises, Premise::Event { variable, event })?;
    }
    add_reads(premises, told, task, before)
}

/// Adds the events on which an `each` made one of these calls.
fn add_calls(premises: &mut Vec<Premise>, calls: &[Call]) -> Result<(), AllocError> {
    for call in calls {
        if let Some((variable, event)) = call.each {
            add(premises, Premise::Event { variable, event })?;
        }
    }
    Ok(())
}

/// What the put of a task follows from, which it made at this step and stood there: the event that it
/// or the task that forked it was handed, and what they have read before.
pub fn premises_of(
    alloc: Global,
    told: &Story<'_>,
    task: usize,
    step: usize,
    standing: Option<&Standing>,
) -> Result<Vec<Premise>, AllocError> {
    let mut premises = Vec::new(alloc);
    let tasks = forkers(alloc, told, task, step)?;
    for place in (0..tasks.len()).rev() {
        let (task, before) = tasks[place];
        add_task(&mut premises, told, task, before)?;
    }
    if let Some(standing) = standing {
        add_calls(&mut premises, standing.calls.as_slice())?;
    }
    Ok(premises)
}
