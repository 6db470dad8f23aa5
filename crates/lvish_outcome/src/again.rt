//! The command that makes a run again.

ghost use Rattle.std.specs.Prelude.{◌≡◌, IfOk, OnOk, string_bytes};
ghost use Rattle.lvish_outcome.specs.Again.{steps_text, again_text, IsAgain, IsAgainAfter};

use lvish_again::{picks_of, picks_text};
use lvish_compound::{Any, Event};
use lvish_report::Report;
use lvish_syntax::Script;
use lvish_trace::Outcome;
use std::alloc::{AllocError, Global};

/// The most steps of a run whose picks are told. Each is asked for among all steps that can be made, so
/// that of long runs they take long, and fill the screen.
const MOST_STEPS: u64 = 10_000;

/// The budget, where it is used up: a run that is made again has to stop there too.
fn steps_text(alloc: Global, report: &Report<Any, Event>) -> Result<String, AllocError>
    ensures { IfOk result (λ t. string_bytes t ≡ steps_text report.now.outcome report.now.steps) }
{
    let steps = report.steps;
    match &report.outcome {
        Outcome::Budget => format!(in alloc; " --steps {steps}"),
        _ => Ok(String::new(alloc)),
    }
}

/// The command with these picks.
fn again_text(
    alloc: Global,
    file: &str,
    report: &Report<Any, Event>,
    picks: &[u64],
) -> Result<String, AllocError>
    ensures { IfOk result (λ t. string_bytes t ≡ again_text file.now report.now.outcome report.now.steps picks.now) }
{
    let steps = steps_text(alloc, report)?;
    let steps = steps.as_str();
    let picks = picks_text(alloc, picks)?;
    let picks = picks.as_str();
    format!(in alloc; "again: lvish pick {file}{steps}{picks}\n")
}

/// The command that makes the report's run again; nothing of a run that is too long.
fn again_of(
    alloc: Global,
    file: &str,
    script: &Script,
    report: &Report<Any, Event>,
) -> Result<String, AllocError>
    ensures { IfOk result (λ t. IsAgain file.now script.now report.now (string_bytes t)) }
{
    if report.steps > MOST_STEPS {
        return Ok(String::new(alloc));
    }
    match picks_of(alloc, script, report)? {
        Some(picks) => again_text(alloc, file, report, picks.as_slice()),
        None => Ok(String::new(alloc)),
    }
}

/// The same, behind a text.
pub fn push_again(
    alloc: Global,
    text: &mut Vec<u8>,
    file: &str,
    script: &Script,
    report: &Report<Any, Event>,
) -> Result<(), AllocError>
    ensures { OnOk result (IsAgainAfter file.now script.now report.now text.old.items text.new.items) }
{
    let again = again_of(alloc, file, script, report)?;
    text.extend_from_slice(again.as_bytes())
}
