//! The steps of a trace, replayed one by one.

use crate::likeness::is_same_label;
use crate::replayed::otherwise::Otherwise;
use lvish_calculus::Label;
use lvish_compound::Event;
use lvish_core::{Core, StepFault};
use lvish_run::TraceEntry;
use lvish_task::ScriptCode;
use std::alloc::{AllocError, Global};

/// Makes the steps of the trace, each of which has to be enabled, and answers for each its place among
/// the labels that were.
pub fn retrace(
    alloc: Global,
    core: &mut Core<'_, ScriptCode>,
    trace: &[TraceEntry<Event>],
) -> Result<Vec<u64>, Otherwise> {
    let mut places = Vec::new(alloc);
    for entry in trace {
        if places.push(place_at(alloc, core, &entry.label)?).is_err() {
            return Err(Otherwise::Memory);
        }
        take(alloc, core, &entry.label)?;
    }
    Ok(places)
}

/// The label's place among those that are enabled.
fn place_at(
    alloc: Global,
    core: &Core<'_, ScriptCode>,
    label: &Label<Event>,
) -> Result<u64, Otherwise> {
    match place_of(labels_of(alloc, core)?.as_slice(), label) {
        Some(place) => Ok(place),
        None => Err(Otherwise::Label(core.steps())),
    }
}

/// The labels that are enabled, without what the core promises of them: nothing here rests on it.
pub fn labels_of(
    alloc: Global,
    core: &Core<'_, ScriptCode>,
) -> Result<Vec<Label<Event>>, AllocError> {
    core.labels(alloc)
}

/// How many of the labels stand before this one; `None` where it isn't among them.
fn place_of(labels: &[Label<Event>], label: &Label<Event>) -> Option<u64> {
    for i in 0..labels.len() {
        if is_same_label(&labels[i], label) {
            return Some(i as u64);
        }
    }
    None
}

/// Makes the step with the label.
fn take(
    alloc: Global,
    core: &mut Core<'_, ScriptCode>,
    label: &Label<Event>,
) -> Result<(), Otherwise> {
    match core.step(alloc, label) {
        Ok(_) => Ok(()),
        Err(StepFault::Memory) => Err(Otherwise::Memory),
        Err(_) => Err(Otherwise::Label(core.steps())),
    }
}
