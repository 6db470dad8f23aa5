//! What a run came to.

ghost use Rattle.std.specs.Prelude.{◌≡◌, ◌⊎◌, ◌↔◌, ◌++◌, [], IfOk, IsTrue, length, map};
ghost use Rattle.lvish_explain.specs.Draft.{Adds};
ghost use Rattle.lvish_report.specs.Text.{variables_of};
ghost use Rattle.lvish_outcome.specs.Telling.{steps_texts};
ghost use Rattle.lvish_outcome.specs.Outcome.{unended, left_text, budget_head, budget_text, AreCountedTexts, IsErrorText, IsBlockedText, IsBudgetText, IsPart, IsDone, IsOutcomePart, IsExplained};

use crate::again::push_again;
use crate::count::{all_counts, busiest};
use crate::find_blocked::{blocked_told, lines_of_live};
use crate::find_error::error_told;
use crate::so_far::states_text;
use crate::telling::{blocked_texts, error_text, push_all_steps};
use crate::told::LineCount;
use lvish_calculus::{ErrorKind, Meaning};
use lvish_checks::lines_of;
use lvish_compound::{Any, Event};
use lvish_explain::Draft;
use lvish_names::TaskName;
use lvish_report::Report;
use lvish_retrace::{Story, Told, ToldStep, retrace};
use lvish_syntax::Script;
use lvish_task::ScriptCode;
use lvish_trace::Outcome;
use std::alloc::{AllocError, Global};

/// The text of an error; nothing where its line doesn't show how it came.
fn error_part(
    alloc: Global,
    file: &str,
    lines: &[&[u8]],
    script: &Script,
    told: &Story<'_>,
    kind: ErrorKind,
    task: &TaskName<Event>,
) -> Result<Vec<u8>, AllocError>
    ensures { IfOk result (λ t. (t.items ≡ []) ⊎ IsErrorText file.now (map (λ l. l.now) lines.now) told.now.brought.items kind task.now t.items) }
{
    match error_told(alloc, lines, script, told, kind, task)? {
        None => Ok(Vec::new(alloc)),
        Some(found) => error_text(alloc, file, lines, &found),
    }
}

/// The text of the tasks that are blocked at these lines; nothing where none stands at one of them.
fn counted_part(
    alloc: Global,
    file: &str,
    lines: &[&[u8]],
    script: &Script,
    told: &Told<'_, '_>,
    counts: &[LineCount],
) -> Result<Vec<u8>, AllocError>
    ensures { IfOk result (λ t. (t.items ≡ []) ⊎ AreCountedTexts file.now (map (λ l. l.now) lines.now) counts.now t.items) }
{
    match blocked_told(alloc, lines, script, told, counts)? {
        None => Ok(Vec::new(alloc)),
        Some(found) => blocked_texts(alloc, file, lines, found.as_slice()),
    }
}

/// The text of so many blocked tasks, by line; nothing where they aren't as many.
fn blocked_part(
    alloc: Global,
    file: &str,
    lines: &[&[u8]],
    script: &Script,
    told: &Told<'_, '_>,
    blocked: u64,
) -> Result<Vec<u8>, AllocError>
    ensures { IfOk result (λ t. (t.items ≡ []) ⊎ IsBlockedText file.now (map (λ l. l.now) lines.now) blocked t.items) }
{
    let at = lines_of_live(alloc, told.story.live.as_slice())?;
    if at.len() as u64 != blocked {
        return Ok(Vec::new(alloc));
    }
    match all_counts(alloc, at.as_slice())? {
        None => Ok(Vec::new(alloc)),
        Some(counts) => counted_part(alloc, file, lines, script, told, counts.as_slice()),
    }
}

/// The lines at which steps were made.
fn lines_of_steps(alloc: Global, steps: &[ToldStep]) -> Result<Vec<usize>, AllocError>
    ensures { IfOk result (λ v. length v.items ≡ length steps.now) }
{
    let mut lines = Vec::with_capacity(alloc, steps.len())?;
    for step in steps {
        lines.push(step.line)?;
    }
    Ok(lines)
}

#[tactic(auto, using(lvish_explain::proofs::Adding::adds_then, lvish_explain::proofs::Adding::adds_none))]
fn push_unended(text: &mut Draft, blocked: u64)
    ensures { Adds text.old text.new (unended blocked) }
{
    if blocked == 1 {
        text.add(b"task hasn't ended");
    } else {
        text.add(b"tasks haven't ended");
    }
}

/// How many tasks haven't ended.
#[tactic(auto, using(lvish_explain::proofs::Adding::adds_then, lvish_explain::proofs::Adding::adds_none))]
fn push_left(text: &mut Draft, blocked: u64)
    ensures { Adds text.old text.new (left_text blocked) }
{
    text.add_count(blocked);
    text.add(b" ");
    push_unended(text, blocked);
    text.add(b"\n");
}

/// That the budget is used up.
#[tactic(auto, using(lvish_explain::proofs::Adding::adds_then, lvish_explain::proofs::Adding::adds_none))]
fn push_budget_head(text: &mut Draft, file: &str, steps: u64, blocked: u64)
    ensures { Adds text.old text.new (budget_head file.now steps blocked) }
{
    text.add(file.as_bytes());
    text.add(b": the budget of ");
    text.add_count(steps);
    text.add(b" steps is used up, and ");
    push_left(text, blocked);
}

/// That a budget is used up, the lines where most steps were made, and the states so far.
#[tactic(auto, using(lvish_explain::proofs::Adding::adds_then, lvish_explain::proofs::Adding::adds_none))]
fn push_budget(
    text: &mut Draft,
    file: &str,
    lines: &[&[u8]],
    most: &[LineCount],
    states: &str,
    report: &Report<Any, Event>,
)
    ensures { Adds text.old text.new ((budget_head file.now report.now.steps report.now.blocked ++ steps_texts file.now (map (λ l. l.now) lines.now) most.now) ++ states.now) }
{
    push_budget_head(text, file, report.steps, report.blocked);
    push_all_steps(text, file, lines, most);
    text.add(states.as_bytes());
}

/// The text of a budget that is used up.
#[tactic(auto, using(lvish_explain::proofs::Adding::all_added))]
fn budget_text(
    alloc: Global,
    file: &str,
    lines: &[&[u8]],
    script: &Script,
    most: &[LineCount],
    report: &Report<Any, Event>,
) -> Result<Vec<u8>, AllocError>
    ensures { IfOk result (λ t. t.items ≡ budget_text file.now (map (λ l. l.now) lines.now) (variables_of script.now.declarations) most.now report.now) }
{
    let states = states_text(alloc, script, report)?;
    let mut text = Draft::new(alloc);
    push_budget(&mut text, file, lines, most, states.as_str(), report);
    text.into_bytes()
}

/// The same of these steps; nothing where they aren't all counted.
fn budget_part(
    alloc: Global,
    file: &str,
    lines: &[&[u8]],
    script: &Script,
    steps: &[ToldStep],
    report: &Report<Any, Event>,
) -> Result<Vec<u8>, AllocError>
    ensures { IfOk result (λ t. (t.items ≡ []) ⊎ IsBudgetText file.now (map (λ l. l.now) lines.now) (variables_of script.now.declarations) (length steps.now) report.now t.items) }
{
    let at = lines_of_steps(alloc, steps)?;
    match all_counts(alloc, at.as_slice())? {
        None => Ok(Vec::new(alloc)),
        Some(mut counts) => {
            let most = busiest(alloc, counts.as_mut_slice())?;
            budget_text(alloc, file, lines, script, most.as_slice(), report)
        }
    }
}

/// The text of what a run came to, by what is told of its steps.
fn part_of(
    alloc: Global,
    file: &str,
    lines: &[&[u8]],
    script: &Script,
    told: &Told<'_, '_>,
    report: &Report<Any, Event>,
) -> Result<Vec<u8>, AllocError>
    ensures { IfOk result (λ t. IsPart file.now (map (λ l. l.now) lines.now) (variables_of script.now.declarations) told.now.story.brought.items (length told.now.story.steps.items) report.now report.now.outcome t.items) }
{
    match &report.outcome {
        Outcome::Ended => blocked_part(alloc, file, lines, script, told, report.blocked),
        Outcome::Error { kind, task, .. } => {
            error_part(alloc, file, lines, script, &told.story, *kind, task)
        }
        Outcome::Budget => {
            budget_part(
                alloc,
                file,
                lines,
                script,
                told.story.steps.as_slice(),
                report,
            )
        }
    }
}

/// Whether nothing is to be told: the run has ended, and no task is blocked.
fn is_done(report: &Report<Any, Event>) -> bool
    ensures { IsTrue result ↔ IsDone report.now }
{
    match &report.outcome {
        Outcome::Ended => report.blocked == 0,
        _ => false,
    }
}

/// The text of what a run came to; nothing where its trace is no run of the script.
fn outcome_part(
    alloc: Global,
    file: &str,
    text: &[u8],
    script: &Script,
    report: &Report<Any, Event>,
) -> Result<Vec<u8>, AllocError>
    ensures { IfOk result (λ t. IsOutcomePart ⟦<ScriptCode as Meaning>⟧.machine file.now text.now script.now report.now t.items) }
{
    let code = ScriptCode::new(alloc, script)?;
    match retrace(alloc, &code, text, report)? {
        None => Ok(Vec::new(alloc)),
        Some(told) => {
            let lines = lines_of(alloc, text)?;
            part_of(alloc, file, lines.as_slice(), script, &told, report)
        }
    }
}

/// What a run of the script with this text came to, in words: where the task of an error stands, and on
/// which earlier step it rests; by line the tasks that are blocked at an end, and for what; the lines
/// where most steps of a budget were made, and the states so far. Then comes the command by which the run
/// is made again, where it has at most 10,000 steps. Nothing is said of an end without blocked tasks.
///
/// # Errors
///
/// `AllocError` where a growth was refused.
pub fn explain_outcome(
    alloc: Global,
    file: &str,
    text: &[u8],
    script: &Script,
    report: &Report<Any, Event>,
) -> Result<Vec<u8>, AllocError>
    ensures silent { IfOk result (λ t. IsDone report.now → t.items ≡ []) }
    ensures explained { IfOk result (λ t. (IsDone report.now → ⊥) → IsExplained ⟦<ScriptCode as Meaning>⟧.machine file.now text.now script.now report.now t.items) }
{
    if is_done(report) {
        return Ok(Vec::new(alloc));
    }
    let mut told = outcome_part(alloc, file, text, script, report)?;
    push_again(alloc, &mut told, file, script, report)?;
    Ok(told)
}
