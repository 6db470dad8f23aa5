ghost use Rattle.std.specs.Prelude.{◌≡◌, ◌∷◌, ◌++◌, codes, IfOk, option_map};
ghost use Rattle.json.specs.Json.{string, array};
ghost use Rattle.json.specs.Token.{key};
ghost use Rattle.json.specs.Tree.{json_tokens, members_tokens};
ghost use Rattle.lvish_names.specs.NameText.{name_text};
ghost use Rattle.lvish_report.specs.Text.{kind_name, variables_of};
ghost use Rattle.lvish_json.specs.Adds.{Adds};
ghost use Rattle.lvish_json.specs.Shape.{items_of, members_of, each, if_any, count, IsLineOf};
ghost use Rattle.lvish_json.specs.Report.{outcome_name, state_values, name_value, error_value, outcome_error, picks_field, report_value};

use crate::names::{put_name_if_any, put_names};
use crate::states::put_states;
use crate::text::JsonText;
use lvish_calculus::ErrorKind;
use lvish_compound::Any;
use lvish_lattice::{Numbered, Plain};
use lvish_names::TaskName;
use lvish_report::Report;
use lvish_syntax::{Declaration, Script};
use lvish_trace::Outcome;
use std::alloc::{AllocError, Global};

/// How a run came to its last configuration.
fn outcome_name<E>(outcome: &Outcome<E>) -> &'static str
    ensures { result.now ≡ outcome_name outcome.now }
{
    match outcome {
        Outcome::Ended => "ended",
        Outcome::Error {
            kind: _,
            variable: _,
            task: _,
        } => "error",
        Outcome::Budget => "budget",
    }
}

/// The name of an error.
fn kind_name(kind: ErrorKind) -> &'static str
    ensures { result.now ≡ kind_name kind }
{
    match kind {
        ErrorKind::Conflict => "Conflict",
        ErrorKind::Frozen => "Frozen",
        ErrorKind::Late => "Late",
        ErrorKind::Overflow => "Overflow",
        ErrorKind::Zero => "Zero",
        ErrorKind::Range => "Range",
        ErrorKind::Deep => "Deep",
    }
}

/// Adds a task's name.
fn put_task<E: Plain + Numbered>(alloc: Global, text: &mut JsonText, task: &TaskName<E>)
    ensures { Adds text.old text.new (json_tokens (string (name_text E.key_of E.number_of task.now))) }
{
    match task.text(alloc) {
        Ok(name) => text.string(name.as_str()),
        Err(_) => text.fail(),
    }
}

/// Adds the member with a task's name.
#[tactic(auto, using(crate::proofs::Adding::adds_then))]
fn task_member<E: Plain + Numbered>(alloc: Global, text: &mut JsonText, task: &TaskName<E>)
    ensures { Adds text.old text.new (key (codes "task") ∷ json_tokens (string (name_text E.key_of E.number_of task.now))) }
{
    text.key("task");
    put_task(alloc, text, task)
}

/// Adds the member with the variable of an error.
#[tactic(auto, using(crate::proofs::Adding::adds_then))]
fn variable_member(text: &mut JsonText, declarations: &[Declaration], variable: Option<usize>)
    ensures { Adds text.old text.new (key (codes "variable") ∷ json_tokens (if_any (name_value (variables_of declarations.now)) variable)) }
{
    text.key("variable");
    put_name_if_any(text, declarations, variable)
}

/// Adds an error.
#[tactic(auto, using(crate::proofs::Adding::adds_then))]
fn put_error<E: Plain + Numbered>(
    alloc: Global,
    text: &mut JsonText,
    declarations: &[Declaration],
    kind: ErrorKind,
    variable: Option<usize>,
    task: &TaskName<E>,
)
    ensures { Adds text.old text.new (json_tokens (error_value (variables_of declarations.now) E.key_of E.number_of kind variable task.now)) }
{
    text.begin_object();
    text.text_member("kind", kind_name(kind));
    variable_member(text, declarations, variable);
    task_member(alloc, text, task);
    text.end_object()
}

/// Adds the error of a run, or null where it came to none.
fn put_outcome_error<E: Plain + Numbered>(
    alloc: Global,
    text: &mut JsonText,
    declarations: &[Declaration],
    outcome: &Outcome<E>,
)
    ensures { Adds text.old text.new (json_tokens (outcome_error (variables_of declarations.now) E.key_of E.number_of outcome.now)) }
{
    match outcome {
        Outcome::Ended => text.null(),
        Outcome::Error {
            kind,
            variable,
            task,
        } => put_error(alloc, text, declarations, *kind, *variable, task),
        Outcome::Budget => text.null(),
    }
}

/// Adds numbers.
#[tactic(auto, using(crate::proofs::Adding::place_written))]
fn put_counts(text: &mut JsonText, counts: &[u64])
    ensures { Adds text.old text.new (json_tokens (each count counts.now)) }
{
    text.begin_array();
    for number in counts {
        text.count(*number);
    }
    text.end_array()
}

/// Adds the picks, where they are asked for, and ends the object.
#[tactic(auto, using(crate::proofs::Adding::adds_then))]
fn end_with_picks(text: &mut JsonText, picks: Option<&[u64]>)
    ensures { Adds text.old text.new (members_tokens (members_of (picks_field (option_map (λ p. p.now) picks.entry)))) }
{
    match picks {
        Some(picks) => {
            text.key("picks");
            put_counts(text, picks);
            text.end_object()
        }
        None => text.end_object(),
    }
}

/// Adds the last members of a report, and ends the object.
#[tactic(auto, using(crate::proofs::Adding::adds_then))]
fn end_with_states<E: Plain>(
    alloc: Global,
    text: &mut JsonText,
    declarations: &[Declaration],
    report: &Report<Any, E>,
    picks: Option<&[u64]>,
)
    ensures { Adds text.old text.new (key (codes "freezes") ∷ (json_tokens (each (name_value (variables_of declarations.now)) report.now.freezes)
        ++ (key (codes "states") ∷ (json_tokens (array (items_of (state_values (variables_of declarations.now) report.now.states)))
        ++ members_tokens (members_of (picks_field (option_map (λ p. p.now) picks.entry))))))) }
{
    text.key("freezes");
    put_names(text, declarations, report.freezes.as_slice());
    text.key("states");
    put_states(alloc, text, declarations, report.states.as_slice());
    end_with_picks(text, picks)
}

/// Adds the numbers of a report and what comes behind them, and ends the object.
fn end_with_numbers<E: Plain>(
    alloc: Global,
    text: &mut JsonText,
    declarations: &[Declaration],
    report: &Report<Any, E>,
    picks: Option<&[u64]>,
)
    ensures { Adds text.old text.new (key (codes "steps") ∷ (json_tokens (count report.now.steps)
        ++ (key (codes "blocked") ∷ (json_tokens (count report.now.blocked)
        ++ (key (codes "by_worker") ∷ (json_tokens (each count report.now.by_worker)
        ++ (key (codes "freezes") ∷ (json_tokens (each (name_value (variables_of declarations.now)) report.now.freezes)
        ++ (key (codes "states") ∷ (json_tokens (array (items_of (state_values (variables_of declarations.now) report.now.states)))
        ++ members_tokens (members_of (picks_field (option_map (λ p. p.now) picks.entry))))))))))))) }
{
    text.count_member("steps", report.steps);
    text.count_member("blocked", report.blocked);
    text.key("by_worker");
    put_counts(text, report.by_worker.as_slice());
    end_with_states(alloc, text, declarations, report, picks)
}

/// Adds all of a report of a script with these declarations, and the picks where they are asked for.
#[tactic(auto, using(crate::proofs::Adding::adds_then))]
fn put_declared<E: Plain + Numbered>(
    alloc: Global,
    text: &mut JsonText,
    declarations: &[Declaration],
    report: &Report<Any, E>,
    picks: Option<&[u64]>,
)
    ensures { Adds text.old text.new (json_tokens (report_value (variables_of declarations.now) E.key_of E.number_of report.now (option_map (λ p. p.now) picks.entry))) }
{
    text.begin_object();
    text.text_member("outcome", outcome_name(&report.outcome));
    text.key("error");
    put_outcome_error(alloc, text, declarations, &report.outcome);
    end_with_numbers(alloc, text, declarations, report, picks)
}

/// Adds all of a report, and the picks where they are asked for.
pub fn put_report<E: Plain + Numbered>(
    alloc: Global,
    text: &mut JsonText,
    script: &Script,
    report: &Report<Any, E>,
    picks: Option<&[u64]>,
)
    ensures { Adds text.old text.new (json_tokens (report_value (variables_of script.now.declarations) E.key_of E.number_of report.now (option_map (λ p. p.now) picks.entry))) }
{
    put_declared(alloc, text, script.declarations(), report, picks)
}

/// A report as a JSON line: what the run came to, its error, the numbers of steps and of blocked
/// tasks, each worker's steps, the freezes in their order, the states, and the picks where they are
/// given.
///
/// # Errors
///
/// `AllocError` where a growth was refused.
pub fn report_json<E: Plain + Numbered>(
    alloc: Global,
    script: &Script,
    report: &Report<Any, E>,
    picks: Option<&[u64]>,
) -> Result<Vec<u8>, AllocError>
    ensures { IfOk result (λ bytes. IsLineOf (report_value (variables_of script.now.declarations) E.key_of E.number_of report.now (option_map (λ p. p.now) picks.entry)) bytes.items) }
{
    let mut text = JsonText::new(alloc);
    put_report(alloc, &mut text, script, report, picks);
    text.into_line()
}
