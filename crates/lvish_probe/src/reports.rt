//! Reports of runs by picks, with what the program `lvish` prints of none: the outcome of each, the
//! states and blocked tasks of a run that was stopped, and the steps of each worker.

use crate::answer::{ProbeAnswer, done, misuse, refusal};
use crate::orders::no_order;
use lvish_cli::{Order, order_of};
use lvish_compound::{Any, Event, Part};
use lvish_run::{FinalState, Outcome, Report, run_picks};
use lvish_script::read_script;
use std::alloc::{AllocError, Global};

/// The most steps that a run of a row may have.
const MOST_PICKED: u64 = 100_000;

/// The report of the script's run by the picks of these words, which begin with `pick`.
pub fn report_of(
    alloc: Global,
    words: &[String],
    script: &[u8],
) -> Result<ProbeAnswer, AllocError> {
    match order_of(alloc, words) {
        Ok((order, _)) => report_by(alloc, &order, script),
        Err(fault) => no_order(alloc, &fault),
    }
}

fn report_by(alloc: Global, order: &Order, script: &[u8]) -> Result<ProbeAnswer, AllocError> {
    let Order::Pick(asked) = order else {
        return misuse(alloc, "no pick\n");
    };
    match read_script(alloc, script) {
        Ok(script) => {
            let budget = asked.budget.min(MOST_PICKED);
            let report = run_picks(alloc, &script, asked.picks.as_slice(), budget)?;
            Ok(done(report_line(alloc, &report)?))
        }
        Err(refused) => refusal(alloc, &refused),
    }
}

fn report_line(alloc: Global, report: &Report<Any, Event>) -> Result<String, AllocError> {
    let outcome = outcome_word(&report.outcome);
    let (steps, blocked) = (report.steps, report.blocked);
    let by_worker = report.by_worker.as_slice();
    let states = states_text(alloc, report.states.as_slice())?;
    let freezes = freezes_text(alloc, report.freezes.as_slice())?;
    format!(in alloc;
        "{outcome}, steps {steps}, blocked {blocked}, by worker {by_worker:?}{states}{freezes}\n"
    )
}

/// The frozen variables by their numbers, in the order of their first freezes; nothing where there is none.
fn freezes_text(alloc: Global, freezes: &[usize]) -> Result<String, AllocError> {
    if freezes.is_empty() {
        return Ok(String::new(alloc));
    }
    format!(in alloc; ", in the order {freezes:?}")
}

fn outcome_word(outcome: &Outcome<Event>) -> &'static str {
    match outcome {
        Outcome::Ended => "ended",
        Outcome::Error { .. } => "error",
        Outcome::Budget => "stopped",
    }
}

/// The states, each with a mark of its own where it is frozen.
fn states_text(alloc: Global, states: &[FinalState<Any>]) -> Result<String, AllocError> {
    let mut text = String::new(alloc);
    for state in states {
        text.push_str(", ")?;
        text.push_str(content_text(alloc, &state.content)?.as_str())?;
        text.push_str(if state.frozen { " frozen" } else { "" })?;
    }
    Ok(text)
}

/// What a variable holds, in short where it is a cell or a set.
fn content_text(alloc: Global, content: &Any) -> Result<String, AllocError> {
    match content {
        Any::Part(Part::Empty) => String::from_str(alloc, "empty"),
        Any::Part(Part::Cell(number)) => number.to_string(alloc),
        Any::Part(Part::Set(set)) => {
            let elements = set.state().items().copied().collect::<Vec<i64>>(alloc)?;
            format!(in alloc; "{elements:?}")
        }
        _ => format!(in alloc; "{content:?}"),
    }
}
