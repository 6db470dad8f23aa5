ghost use Rattle.std.specs.Prelude.{◌≡◌, ◌++◌, IfOk, OnOk, string_bytes, length};
ghost use Rattle.lvish_trace.specs.declared.outcome.Outcome.TheVariants.{Ended};
ghost use Rattle.lvish_report.specs.Text.{variable_line, shown_line, variables_of, variable_lines, count_lines, budget_line, report_text};

use crate::error_line::error_line;
use crate::report::{FinalState, Report};
use crate::state_text::push_state;
use lvish_compound::Any;
use lvish_lattice::{Numbered, Plain};
use lvish_syntax::{Declaration, Identifier, Script, VariableKind};
use lvish_trace::Outcome;
use std::alloc::{AllocError, Global};

/// Adds a variable's line.
fn push_variable_line(
    text: &mut String,
    name: &str,
    kind: VariableKind,
    content: &Any,
) -> Result<(), AllocError>
    ensures { OnOk result (string_bytes text.new ≡ string_bytes text.old ++ variable_line name.now kind content.now) }
{
    text.push_str(name)?;
    text.push_str(" = ")?;
    push_state(text, kind, content)?;
    text.push_str("\n")
}

/// Adds the line of a variable that is frozen, or of any with `all`; else nothing.
fn push_shown_line(
    text: &mut String,
    name: &Identifier,
    kind: VariableKind,
    state: &FinalState<Any>,
    all: bool,
) -> Result<(), AllocError>
    ensures { OnOk result (string_bytes text.new ≡ string_bytes text.old ++ shown_line all (name.now, kind) state.now) }
{
    if all || state.frozen {
        return push_variable_line(text, name.as_str(), kind, &state.content);
    }
    Ok(())
}

/// The lines of the variables that are frozen, or of all.
fn variable_lines(
    alloc: Global,
    declarations: &[Declaration],
    states: &[FinalState<Any>],
    all: bool,
) -> Result<String, AllocError>
    requires { length states.now ≡ length (variables_of declarations.now) }
    ensures { IfOk result (λ t. string_bytes t ≡ variable_lines all (variables_of declarations.now) states.now) }
{
    let mut text = String::new(alloc);
    let mut place = 0;
    for i in 0..declarations.len() {
        if let Declaration::Variable(name, kind) = &declarations[i] {
            let Some(state) = states.get(place) else {
                unreachable!()
            };
            push_shown_line(&mut text, name, *kind, state, all)?;
            place += 1;
        }
    }
    Ok(text)
}

/// The lines of the numbers of steps and of blocked tasks.
fn count_lines(alloc: Global, steps: u64, blocked: u64) -> Result<String, AllocError>
    ensures { IfOk result (λ t. string_bytes t ≡ count_lines steps blocked) }
{
    format!(in alloc; "steps {steps}\nblocked {blocked}\n")
}

/// The lines of an end.
fn end_lines<E>(
    alloc: Global,
    script: &Script,
    report: &Report<Any, E>,
    all: bool,
) -> Result<String, AllocError>
    requires { length report.now.states ≡ length (variables_of script.now.declarations) }
    ensures { IfOk result (λ t. string_bytes t ≡ variable_lines all (variables_of script.now.declarations) report.now.states ++ count_lines report.now.steps report.now.blocked) }
{
    let mut text = variable_lines(alloc, script.declarations(), report.states.as_slice(), all)?;
    let counts = count_lines(alloc, report.steps, report.blocked)?;
    text.push_str(counts.as_str())?;
    Ok(text)
}

/// The line of a run that was stopped after this many steps, its budget.
fn budget_line(alloc: Global, steps: u64) -> Result<String, AllocError>
    ensures { IfOk result (λ t. string_bytes t ≡ budget_line steps) }
{
    format!(in alloc; "budget {steps}\n")
}

/// The text of a report: of an end a line for each frozen variable, or for each with `all`, then the
/// numbers of steps and of blocked tasks; of an error, or of a budget that is used up, one line.
///
/// # Errors
///
/// `AllocError` where a growth was refused.
pub fn report_text<E: Plain + Numbered>(
    alloc: Global,
    script: &Script,
    report: &Report<Any, E>,
    all: bool,
) -> Result<String, AllocError>
    requires { report.now.outcome ≡ Ended → length report.now.states ≡ length (variables_of script.now.declarations) }
    ensures { IfOk result (λ t. string_bytes t ≡ report_text E.key_of E.number_of (variables_of script.now.declarations) report.now all) }
{
    match &report.outcome {
        Outcome::Ended => end_lines(alloc, script, report, all),
        Outcome::Error {
            kind,
            variable,
            task,
        } => error_line(alloc, script.declarations(), *kind, *variable, task),
        Outcome::Budget => budget_line(alloc, report.steps),
    }
}
