//! A report, compared with where its trace leads.

use crate::likeness::{are_alike, are_states_of, is_same_fault, is_same_outcome};
use crate::replayed::retracing::labels_of;
use lvish_compound::{Any, Event};
use lvish_core::Core;
use lvish_run::{Outcome, Report, TraceEntry};
use lvish_task::ScriptCode;
use std::alloc::{AllocError, Global};

/// What of the report of a run with this budget isn't as its replayed trace has it, if something isn't.
pub fn part_otherwise(
    alloc: Global,
    core: &Core<'_, ScriptCode>,
    report: &Report<Any, Event>,
    budget: u64,
) -> Result<Option<&'static str>, AllocError> {
    if report.steps != core.steps() || report.steps > budget {
        return Ok(Some("another number of steps"));
    }
    if !has_outcome(alloc, core, report, budget)? {
        return Ok(Some("another outcome"));
    }
    Ok(state_otherwise(core, report))
}

/// Whether the core has come to the report's outcome: an end where nothing is enabled, a used-up
/// budget where something is, or the same error.
fn has_outcome(
    alloc: Global,
    core: &Core<'_, ScriptCode>,
    report: &Report<Any, Event>,
    budget: u64,
) -> Result<bool, AllocError> {
    match &report.outcome {
        Outcome::Ended => Ok(is_at_rest(alloc, core)? && core.is_ended(alloc)?),
        Outcome::Budget => {
            let goes_on = core.fault().is_none() && !is_at_rest(alloc, core)?;
            Ok(goes_on && report.steps == budget)
        }
        Outcome::Error {
            kind,
            variable,
            task,
        } => Ok(is_same_fault(core.fault(), *kind, *variable, task)),
    }
}

/// Whether no label is enabled.
fn is_at_rest(alloc: Global, core: &Core<'_, ScriptCode>) -> Result<bool, AllocError> {
    Ok(labels_of(alloc, core)?.is_empty())
}

/// The states and the blocked tasks are the core's, and after an error there are none.
fn state_otherwise(
    core: &Core<'_, ScriptCode>,
    report: &Report<Any, Event>,
) -> Option<&'static str> {
    let states = report.states.as_slice();
    let (has_states, running) = if core.fault().is_some() {
        (states.is_empty(), 0)
    } else {
        (are_states_of(states, core.states()), core.running() as u64)
    };
    if !has_states {
        return Some("other states");
    }
    if report.blocked != running {
        return Some("another number of blocked tasks");
    }
    None
}

/// Whether there is a number of steps for each of so many workers, which is that of its entries, and no
/// entry is of another worker.
pub fn is_of_workers(
    report: &Report<Any, Event>,
    trace: &[TraceEntry<Event>],
    workers: usize,
) -> bool {
    let counts = report.by_worker.as_slice();
    if counts.len() != workers || trace.iter().any(|entry| entry.worker >= workers) {
        return false;
    }
    for worker in 0..counts.len() {
        if counts[worker] != made_by(trace, worker) {
            return false;
        }
    }
    true
}

/// How many entries are of this worker.
fn made_by(trace: &[TraceEntry<Event>], worker: usize) -> u64 {
    trace.iter().filter(|entry| entry.worker == worker).count() as u64
}

/// Whether two reports say the same of where their runs come to, also of a run that was stopped.
pub fn is_same_report(one: &Report<Any, Event>, other: &Report<Any, Event>) -> bool {
    is_same_outcome(&one.outcome, &other.outcome)
        && one.steps == other.steps
        && one.blocked == other.blocked
        && are_alike(one.states.as_slice(), other.states.as_slice())
}
