//! Whether labels, states and outcomes are the same.

use lvish_calculus::{ErrorKind, Label};
use lvish_compound::{Any, Event};
use lvish_core::RunError;
use lvish_names::TaskName;
use lvish_run::{FinalState, Outcome};
use lvish_variable::Variable;

/// Whether the states are the same, with their marks.
pub fn are_alike(one: &[FinalState<Any>], other: &[FinalState<Any>]) -> bool {
    if one.len() != other.len() {
        return false;
    }
    for i in 0..one.len() {
        if one[i].content != other[i].content || one[i].frozen != other[i].frozen {
            return false;
        }
    }
    true
}

/// Whether these are the variables' states, with their marks.
pub fn are_states_of(states: &[FinalState<Any>], variables: &[Variable<Any>]) -> bool {
    if states.len() != variables.len() {
        return false;
    }
    for i in 0..states.len() {
        if !is_state_of(&states[i], &variables[i]) {
            return false;
        }
    }
    true
}

fn is_state_of(state: &FinalState<Any>, variable: &Variable<Any>) -> bool {
    state.content == *variable.state() && state.frozen == variable.is_frozen()
}

/// Whether the outcomes are the same, errors with kind, variable and task.
pub fn is_same_outcome(one: &Outcome<Event>, other: &Outcome<Event>) -> bool {
    match one {
        Outcome::Ended => matches!(other, Outcome::Ended),
        Outcome::Budget => matches!(other, Outcome::Budget),
        Outcome::Error {
            kind,
            variable,
            task,
        } => is_error(other, *kind, *variable, task),
    }
}

/// Whether the outcome is this error.
fn is_error(
    outcome: &Outcome<Event>,
    error: ErrorKind,
    place: Option<usize>,
    met_by: &TaskName<Event>,
) -> bool {
    match outcome {
        Outcome::Ended => false,
        Outcome::Budget => false,
        Outcome::Error {
            kind,
            variable,
            task,
        } => *kind == error && *variable == place && task == met_by,
    }
}

/// Whether the fault is this error.
pub fn is_same_fault(
    fault: Option<&RunError<Event>>,
    kind: ErrorKind,
    variable: Option<usize>,
    task: &TaskName<Event>,
) -> bool {
    match fault {
        Some(fault) => { fault.kind == kind && fault.variable == variable && fault.task == *task }
        None => false,
    }
}

/// Whether both are the action of one task, or the handing of one event to one handler.
pub fn is_same_label(one: &Label<Event>, other: &Label<Event>) -> bool {
    match one {
        Label::Act(task) => match other {
            Label::Act(of) => task == of,
            Label::Hand(_, _) => false,
        },
        Label::Hand(handler, event) => match other {
            Label::Act(_) => false,
            Label::Hand(to, handed) => handler == to && event == handed,
        },
    }
}
