//! The states of a run that was stopped.

ghost use Rattle.std.specs.Prelude.{◌≡◌, IfOk, length, string_bytes};
ghost use Rattle.lvish_trace.specs.declared.outcome.Outcome.TheVariants.{Ended};
ghost use Rattle.lvish_report.specs.Text.{variables_of};
ghost use Rattle.lvish_outcome.specs.SoFar.{states_text};

use lvish_compound::{Any, Event};
use lvish_lattice::{Items, Lattice};
use lvish_report::{FinalState, Report, report_text};
use lvish_syntax::{Declaration, Script};
use lvish_trace::{Outcome, Trace};
use std::alloc::{AllocError, Global};

/// How many variables there are.
fn count_variables(declarations: &[Declaration]) -> usize
    ensures { result ≡ length (variables_of declarations.now) }
{
    let mut count = 0;
    for i in 0..declarations.len() {
        if let Declaration::Variable(_, _) = &declarations[i] {
            count += 1;
        }
    }
    count
}

/// The same states.
fn copied(alloc: Global, states: &[FinalState<Any>]) -> Result<Vec<FinalState<Any>>, AllocError>
    ensures { IfOk result (λ v. v.items ≡ states.now) }
{
    let mut copies = Vec::new(alloc);
    for state in states {
        copies.push(FinalState {
            content: state.content.copy(alloc)?,
            frozen: state.frozen,
        })?;
    }
    Ok(copies)
}

/// A report of an end with these states, without a trace.
fn as_end(alloc: Global, report: &Report<Any, Event>) -> Result<Report<Any, Event>, AllocError>
    ensures outcome { IfOk result (λ r. r.outcome ≡ Ended) }
    ensures states { IfOk result (λ r. r.states ≡ report.now.states) }
    ensures steps { IfOk result (λ r. r.steps ≡ report.now.steps) }
    ensures blocked { IfOk result (λ r. r.blocked ≡ report.now.blocked) }
{
    let states = copied(alloc, report.states.as_slice())?;
    Ok(Report {
        outcome: Outcome::Ended,
        states: Items::new(states),
        steps: report.steps,
        blocked: report.blocked,
        trace: Trace::new(Vec::new(alloc), Vec::new(alloc), Vec::new(alloc)),
        by_worker: Items::new(Vec::new(alloc)),
        freezes: Items::new(Vec::new(alloc)),
    })
}

/// Each state so far, and the counts, as at an end; nothing where there isn't one state for each variable.
pub fn states_text(
    alloc: Global,
    script: &Script,
    report: &Report<Any, Event>,
) -> Result<String, AllocError>
    ensures { IfOk result (λ t. string_bytes t ≡ states_text (variables_of script.now.declarations) report.now) }
{
    if report.states.as_slice().len() != count_variables(script.declarations()) {
        return Ok(String::new(alloc));
    }
    let end = as_end(alloc, report)?;
    report_text(alloc, script, &end, true)
}
